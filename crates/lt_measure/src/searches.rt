//! What is timed: searches for random rows and keys. Each answers the sum of the cells that it met.
ghost use Rattle.std.specs.Prelude.{◌≡◌, ◌<◌, ◌^◌};

use crate::grid::ROWS_A_KEY;
use crate::random::Random;
use lt_face::{Key, KeyIter, Moves, Row, RowReads};
use lt_flat::FlatRows;
use lt_trie::TrieIter;
use std::alloc::Global;

/// Searches the set for random rows.
pub fn find_rows(alloc: Global, set: &FlatRows, keys: u32, searches: u32) -> Key
    requires { 0 < keys }
{
    let mut random = Random::new();
    let mut sum: Key = 0;
    for _ in 0..searches {
        let a = random.up_to(keys) as Key;
        let b = random.up_to(ROWS_A_KEY) as Key;
        let from = Row::from_cells(alloc, &[a, b]);
        if let Some(found) = set.row_at_least(&from) {
            if let [a, b] = found.cells() {
                sum = sum.wrapping_add(*a).wrapping_add(*b);
            }
        }
    }
    sum
}

/// Seeks random keys of the first level, each from the first key on.
pub fn seek_keys(alloc: Global, set: &FlatRows, keys: u32, searches: u32) -> Key
    requires keys { 0 < keys }
    requires pairs { set.now.width ≡ 2 }
{
    let mut random = Random::new();
    let mut moves: Moves<()> = Moves::new();
    let mut first = TrieIter::new(alloc, set);
    first.open_level(&mut moves);
    let mut sum: Key = 0;
    for _ in 0..searches {
        let to = random.up_to(keys) as Key;
        let mut trie = first.copy();
        seek(&mut trie, to, &mut moves);
        sum = sum.wrapping_add(trie.key());
    }
    sum
}

/// Goes from the root down to random rows, by four moves each.
pub fn walk_down(alloc: Global, set: &FlatRows, keys: u32, searches: u32) -> Key
    requires keys { 0 < keys }
    requires pairs { set.now.width ≡ 2 }
{
    let mut random = Random::new();
    let mut moves: Moves<()> = Moves::new();
    let mut sum: Key = 0;
    for _ in 0..searches {
        let a = random.up_to(keys) as Key;
        let b = random.up_to(ROWS_A_KEY) as Key;
        let mut trie = TrieIter::new(alloc, set);
        trie.open_level(&mut moves);
        seek(&mut trie, a, &mut moves);
        if !trie.at_end() {
            sum = sum.wrapping_add(trie.key());
            trie.open_level(&mut moves);
            seek(&mut trie, b, &mut moves);
            sum = sum.wrapping_add(trie.key());
        }
    }
    sum
}

/// Seeks a key, where it lies ahead.
fn seek<L>(trie: &mut TrieIter<FlatRows>, to: Key, moves: &mut Moves<L>)
    requires { to < 2 ^ 32 }
    ensures rows { trie.new.rows ≡ trie.old.rows }
    ensures width { trie.new.width ≡ trie.old.width }
    ensures level { trie.new.level ≡ trie.old.level }
{
    if trie.key() <= to {
        trie.seek(to, moves);
    }
}
