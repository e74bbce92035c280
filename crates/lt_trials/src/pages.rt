//! Sets of rows in shared pages are edited beside sorted vectors: so many rows that pages and nodes split and go.
ghost use Rattle.std.specs.Prelude.{◌≡◌, IfOk};

use crate::agree::{holds, same};
use crate::flat::{Edit, Pair, made, row};
use lt_face::{Items, Key, NoMemory, Row, RowList, RowReads, RowSet, RowWalk};
use lt_flat::FlatRows;
use lt_shared::SharedRows;
use rand_core::Rng;
use rand_pcg::Pcg32;
use std::alloc::Global;
use std::process::Abort;

/// The same rows in a vector and in pages.
#[derive(Drop)]
struct Both {
    flat: FlatRows,
    pages: SharedRows,
}

/// Copies of rows.
pub(crate) fn copies(alloc: Global, rows: &[Row]) -> Result<RowList, NoMemory>
    ensures { IfOk result (λ list. list ≡ rows.now) }
{
    let mut list = Vec::with_capacity(alloc, rows.len())?;
    for row in rows {
        list.push(row.copy_row())?;
    }
    Ok(Items::from_vec(list))
}

/// The pairs (1, 7), (2, 7) and so on, below this one.
pub(crate) fn pairs_below(rt: &impl Abort, alloc: Global, end: Key) -> Result<FlatRows, NoMemory> {
    let mut rows = FlatRows::empty(alloc, 2)?;
    for key in 1..end {
        made(rt, alloc, &mut rows, Edit::Insert((key, 7)))?;
    }
    Ok(rows)
}

/// The rows of a vector in pages.
fn paged(alloc: Global, rows: &FlatRows) -> Result<SharedRows, NoMemory> {
    let width = rows.width();
    let list = copies(alloc, rows.as_slice())?;
    let pages = SharedRows::from_sorted(width, list)?;
    Ok(pages)
}

/// Whether the row was found.
fn is_found(found: Option<&Row>, row: &Row) -> bool {
    match found {
        Some(same) => same == row,
        None => false,
    }
}

/// Ends the test unless both have the same rows.
fn agree(rt: &impl Abort, alloc: Global, both: &Both) {
    same(rt, both.pages.len(), both.flat.len());
    let mut walk = RowWalk::over(alloc, &both.pages);
    for row in both.flat.as_slice() {
        let found = walk.next_row();
        holds(rt, is_found(found, row));
    }
}

/// Puts a row into a second owner of the pages, and answers how many rows and nodes that has then.
fn grown_copy(
    rt: &impl Abort,
    alloc: Global,
    pages: &SharedRows,
    pair: Pair,
) -> Result<(usize, usize), NoMemory> {
    let mut copy = pages.share()?;
    let grows = made(rt, alloc, &mut copy, Edit::Insert(pair));
    let found = (copy.len(), copy.nodes());
    drop(copy);
    holds(rt, grows?);
    Ok(found)
}

/// The pairs below this one, in a vector and in pages.
fn both_below(rt: &impl Abort, alloc: Global, end: Key) -> Result<Both, NoMemory> {
    let flat = pairs_below(rt, alloc, end)?;
    let pages = paged(alloc, &flat)?;
    Ok(Both { flat, pages })
}

#[test]
fn many_rows_fill_pages(rt: HostRuntime) -> Result<(), NoMemory> {
    let alloc = rt.alloc();
    let both = both_below(&rt, alloc, 1001)?;
    let copy = grown_copy(&rt, alloc, &both.pages, (500, 8));
    let kept = (both.pages.len(), both.pages.nodes());
    let has_it = both.pages.has(&row(alloc, (500, 8)));
    agree(&rt, alloc, &both);
    drop(both);
    same(&rt, (copy?, kept, has_it), ((1001, 1), (1000, 1), false));
    Ok(())
}

/// An edit of a row at random: three of four put a row in where the set is to grow, and one of four where it is to shrink.
fn drawn(random: &mut Pcg32, grows: bool) -> Edit {
    let key = Key::from(random.next_u32() % 9000) + 1;
    let is_rare = random.next_u32() % 4 == 0;
    if is_rare == grows {
        Edit::Remove((key, 7))
    } else {
        Edit::Insert((key, 7))
    }
}

/// Makes an edit on both.
fn edit(rt: &impl Abort, alloc: Global, both: &mut Both, edit: Edit) -> Result<(), NoMemory> {
    let a = made(rt, alloc, &mut both.flat, edit)?;
    let b = made(rt, alloc, &mut both.pages, edit)?;
    same(rt, a, b);
    same(rt, both.pages.len(), both.flat.len());
    Ok(())
}

/// Makes so many edits on both, with the pages shared before some.
fn edit_all(
    rt: &impl Abort,
    alloc: Global,
    both: &mut Both,
    random: &mut Pcg32,
    rounds: u64,
    grows: bool,
) -> Result<(), NoMemory> {
    let mut other = both.pages.share()?;
    for round in 0..rounds {
        if round % 64 == 0 {
            other = both.pages.share()?;
        }
        edit(rt, alloc, both, drawn(random, grows))?;
    }
    drop(other);
    agree(rt, alloc, both);
    Ok(())
}

/// No rows, in a vector and in pages.
fn none(alloc: Global) -> Result<Both, NoMemory> {
    let flat = FlatRows::empty(alloc, 2)?;
    let pages = SharedRows::empty(alloc, 2)?;
    Ok(Both { flat, pages })
}

#[test]
fn pages_split_and_go(rt: HostRuntime) -> Result<(), NoMemory> {
    let alloc = rt.alloc();
    let mut both = none(alloc)?;
    let mut random = Pcg32::new(1, 1);
    edit_all(&rt, alloc, &mut both, &mut random, 12000, true)?;
    holds(&rt, 1 < both.pages.nodes());
    edit_all(&rt, alloc, &mut both, &mut random, 24000, false)?;
    holds(&rt, both.pages.len() < 3000);
    edit_all(&rt, alloc, &mut both, &mut random, 6000, true)
}
