//! A trie iterator moves over a set of two rows.
ghost use Rattle.std.specs.Prelude.{◌≡◌, [], ◌∷◌, IfOk};

use crate::agree::{holds, same};
use lt_face::{END, Gap, Items, KeyIter, Moves, NoMemory, Row, RowSet};
use lt_flat::FlatRows;
use lt_trie::TrieIter;
use std::alloc::Global;

fn gap(lo: u128, hi: u128) -> Gap
    ensures { result ≡ record { lo = lo; hi = hi } }
{
    Gap { lo, hi }
}

/// The rows (1, 7) and (2, 7).
fn two_rows(alloc: Global) -> Result<FlatRows, NoMemory>
    ensures width { IfOk result (λ set. set.width ≡ 2) }
    ensures rows { IfOk result (λ set. set.rows ≡ (1 ∷ 7 ∷ []) ∷ (2 ∷ 7 ∷ []) ∷ []) }
{
    let first = Row::from_cells(alloc, &[1, 7]);
    let second = Row::from_cells(alloc, &[2, 7]);
    let rows = vec![in alloc; first, second]?;
    FlatRows::from_sorted(2, Items::from_vec(rows))
}

#[test]
fn goes_down_and_up(rt: HostRuntime) -> Result<(), NoMemory> {
    let set = two_rows(rt.alloc())?;
    let mut moves: Moves<()> = Moves::new();
    let mut trie = TrieIter::new(rt.alloc(), &set);
    same(&rt, trie.open_level(&mut moves), gap(0, 1));
    same(&rt, trie.key(), 1);
    same(&rt, trie.open_level(&mut moves), gap(0, 7));
    same(&rt, trie.key(), 7);
    same(&rt, trie.prefix(), [1].as_slice());
    trie.up();
    same(&rt, trie.key(), 1);
    Ok(())
}

#[test]
fn moves_on_at_its_level(rt: HostRuntime) -> Result<(), NoMemory> {
    let set = two_rows(rt.alloc())?;
    let mut moves: Moves<()> = Moves::new();
    let mut trie = TrieIter::new(rt.alloc(), &set);
    trie.open_level(&mut moves);
    same(&rt, trie.next(&mut moves), gap(2, 2));
    same(&rt, trie.key(), 2);
    same(&rt, trie.seek(2, &mut moves), gap(2, 2));
    same(&rt, trie.key(), 2);
    Ok(())
}

#[test]
fn ends_past_the_last_key(rt: HostRuntime) -> Result<(), NoMemory> {
    let set = two_rows(rt.alloc())?;
    let mut moves: Moves<()> = Moves::new();
    let mut trie = TrieIter::new(rt.alloc(), &set);
    trie.open_level(&mut moves);
    same(&rt, trie.seek(5, &mut moves), gap(5, END));
    holds(&rt, trie.at_end());
    Ok(())
}
