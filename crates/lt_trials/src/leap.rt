//! The common keys of lists, and the gaps that the search for them tells.
mod list_iter;
mod told;

ghost use Rattle.std.specs.Prelude.{◌≡◌, ◌<◌, ◌^◌, [], ◌∷◌, vec_len, IfOk};
ghost use Rattle.std.specs.List.{AllByRecursion};
ghost use Rattle.lt_face.specs.Keys.{IsKeyList, least_from};

use crate::agree::{holds, same};
use list_iter::ListIter;
use lt_face::{CELL_LIMIT, END, Gap, Key, KeyIter, Moves, NoMemory};
use lt_leap::{Leap, NoNotes, Notes};
use std::alloc::Global;
use told::Told;

/// The gap from `lo` to `hi`, of an iterator.
fn gap(iter: u32, lo: u128, hi: u128) -> (u32, Gap) {
    (iter, Gap { lo, hi })
}

/// Three lists that have 8 alone in common: the example of the paper, without the key 0.
fn three(alloc: Global) -> Result<Vec<ListIter>, NoMemory>
    ensures { IfOk result (λ iters. iters.items ≡ (1 ∷ 3 ∷ 4 ∷ 5 ∷ 6 ∷ 7 ∷ 8 ∷ 9 ∷ 11 ∷ [], 1) ∷ (2 ∷ 6 ∷ 7 ∷ 8 ∷ 9 ∷ [], 2) ∷ (2 ∷ 4 ∷ 5 ∷ 8 ∷ 10 ∷ [], 2) ∷ []) }
{
    let a = ListIter::new(alloc, &[1, 3, 4, 5, 6, 7, 8, 9, 11])?;
    let b = ListIter::new(alloc, &[2, 6, 7, 8, 9])?;
    let c = ListIter::new(alloc, &[2, 4, 5, 8, 10])?;
    let iters = vec![in alloc; a, b, c]?;
    Ok(iters)
}

/// Two lists.
fn two(alloc: Global, a: &[Key], b: &[Key]) -> Result<Vec<ListIter>, NoMemory>
    requires a { IsKeyList a.now }
    requires b { IsKeyList b.now }
    ensures { IfOk result (λ iters. iters.items ≡ (a.now, least_from a.now 0) ∷ (b.now, least_from b.now 0) ∷ []) }
{
    let a = ListIter::new(alloc, a)?;
    let b = ListIter::new(alloc, b)?;
    let iters = vec![in alloc; a, b]?;
    Ok(iters)
}

/// Goes over a join by `next`: puts its keys into the list, `END` last, and gives the keys where its iterators stand then.
fn walk<N: Notes>(
    alloc: Global,
    iters: Vec<ListIter>,
    notes: &mut N,
    keys: &mut Vec<Key>,
) -> Result<Vec<Key>, NoMemory>
    requires some { 0 < vec_len iters }
    requires few { vec_len iters < 2 ^ 32 }
    requires first { AllByRecursion (λ iter. iter.1 ≡ least_from iter.0 0) iters.items }
{
    let mut moves: Moves<()> = Moves::new();
    let mut leap = Leap::init(alloc, iters, notes, &mut moves)?;
    for _ in 0..4u32 {
        keys.push(leap.key())?;
        if leap.at_end() {
            break;
        }
        leap.next(notes, &mut moves)?;
    }
    let mut places = Vec::new(alloc);
    for iter in &leap.into_iters() {
        places.push(iter.key())?;
    }
    Ok(places)
}

#[test]
fn finds_the_one_common_key(rt: HostRuntime) -> Result<(), NoMemory> {
    let mut told = Told::new(rt.alloc(), 100);
    let mut keys = Vec::new(rt.alloc());
    let places = walk(rt.alloc(), three(rt.alloc())?, &mut told, &mut keys)?;
    same(&rt, keys.as_slice(), [8, END].as_slice());
    same(&rt, places.as_slice(), [11, END, 10].as_slice());
    let expected = [
        gap(0, 2, 3),
        gap(1, 3, 6),
        gap(2, 6, 8),
        gap(0, 8, 8),
        gap(1, 8, 8),
        gap(2, 9, 10),
        gap(0, 10, 11),
        gap(1, 11, END),
    ];
    same(&rt, told.gaps.as_slice(), expected.as_slice());
    Ok(())
}

#[test]
fn gives_up_where_the_notes_are_full(rt: HostRuntime) -> Result<(), NoMemory> {
    let mut told = Told::new(rt.alloc(), 6);
    let mut keys = Vec::new(rt.alloc());
    let walked = walk(rt.alloc(), three(rt.alloc())?, &mut told, &mut keys);
    holds(&rt, walked.is_err());
    same(&rt, (keys.as_slice(), told.gaps.len()), ([8].as_slice(), 6));
    Ok(())
}

/// Goes over a join by `seek` to bounds that don't descend, and gives the keys that it finds, its first one before them.
fn seek_each(alloc: Global, iters: Vec<ListIter>, bounds: &[Key]) -> Result<Vec<Key>, NoMemory>
    requires some { 0 < vec_len iters }
    requires few { vec_len iters < 2 ^ 32 }
    requires first { AllByRecursion (λ iter. iter.1 ≡ least_from iter.0 0) iters.items }
{
    let mut moves: Moves<()> = Moves::new();
    let mut leap = Leap::init(alloc, iters, &mut NoNotes, &mut moves)?;
    let mut keys = Vec::new(alloc);
    keys.push(leap.key())?;
    for bound in bounds {
        if !leap.at_end() && leap.key() <= *bound && *bound <= CELL_LIMIT {
            leap.seek(*bound, &mut NoNotes, &mut moves)?;
            keys.push(leap.key())?;
        }
    }
    Ok(keys)
}

#[test]
fn seeks_common_keys(rt: HostRuntime) -> Result<(), NoMemory> {
    let iters = two(rt.alloc(), &[1, 2, 4, 5, 7, 9], &[2, 3, 4, 6, 9])?;
    let keys = seek_each(rt.alloc(), iters, &[2, 5, 10])?;
    same(&rt, keys.as_slice(), [2, 2, 9, END].as_slice());
    Ok(())
}
