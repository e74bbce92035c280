//! Rows that what is kept of an evaluation doesn't cover: it hangs on none of them, so plain loops answer alike whether they are there.
use crate::agree::holds_of;
use crate::agreeing::plain;
use crate::by_key::row_of;
use crate::comparing::is_same_reply;
use crate::sampled::{asking, stock};
use crate::texts::{joined, program, stocked};
use lt_face::memory::NoMemory;
use lt_model::reply::Reply;
use lt_program::{Ran, Tally};
use rand_pcg::Pcg32;
use std::alloc::Global;
use std::thread::Threads;

/// The relation e by its number.
const PAIRS: u32 = 1;

/// The cells of the rows that come and go.
const CELLS: [&str; 7] = ["0", "1", "2", "3", "4", "5", "6"];

/// The run of a program on the rows that other statements leave.
fn kept<R: Threads + Sync>(
    rt: &R,
    alloc: Global,
    stock: &str,
    asking: &str,
) -> Result<Tally, NoMemory> {
    let base = stocked(rt, alloc, stock)?;
    let prog = program(alloc, asking)?;
    let tally = joined(rt, alloc, &base, prog)?;
    Ok(tally)
}

/// Whether what is kept of the first statement covers the row of these ints.
fn covers(alloc: Global, tally: &Tally, x: u32, y: u32) -> bool {
    match tally.parts().get(0) {
        Some(shared) => {
            let row = row_of(alloc, &[x as i64, y as i64]);
            shared.part().covers(PAIRS, &row)
        }
        None => false,
    }
}

/// What a statement answers by plain loops, where others left their rows and a change of this row came behind them.
fn answer(
    alloc: Global,
    stock: &str,
    change: &str,
    x: u32,
    y: u32,
    asking: &str,
) -> Result<Reply, NoMemory> {
    let (first, second) = (CELLS[x as usize % 7], CELLS[y as usize % 7]);
    let mut text = String::from_str(alloc, stock)?;
    for word in [change, first, ", ", second, "); ", asking] {
        text.push_str(word)?;
    }
    let prog = program(alloc, &text)?;
    let Ran { reply, marks: _ } = plain(alloc, &prog)?;
    Ok(reply)
}

/// Whether a statement answers the same with and without the row of these ints.
fn is_alike(alloc: Global, stock: &str, x: u32, y: u32, asking: &str) -> Result<bool, NoMemory> {
    let there = answer(alloc, stock, "insert e(", x, y, asking)?;
    let gone = answer(alloc, stock, "delete e(", x, y, asking)?;
    let is_so = is_same_reply(&there, &gone);
    drop(there);
    drop(gone);
    Ok(is_so)
}

/// How many of the rows are not covered, if the statement answers the same with and without each of these.
fn uncovered(
    alloc: Global,
    stock: &str,
    asking: &str,
    tally: &Tally,
) -> Result<Option<usize>, NoMemory> {
    let mut count: usize = 0;
    for place in 0..49u32 {
        let (x, y) = (place / 7, place % 7);
        if !covers(alloc, tally, x, y) {
            if !is_alike(alloc, stock, x, y, asking)? {
                return Ok(None);
            }
            count = count.saturating_add(1);
        }
    }
    Ok(Some(count))
}

/// The same of a statement at random, where ten rows at random are there.
fn drawn<R: Threads + Sync>(
    rt: &R,
    alloc: Global,
    random: &mut Pcg32,
) -> Result<Option<usize>, NoMemory> {
    let stock = stock(alloc, random)?;
    let asking = asking(alloc, random)?;
    let tally = kept(rt, alloc, &stock, &asking)?;
    let count = uncovered(alloc, &stock, &asking, &tally)?;
    drop(tally);
    Ok(count)
}

/// Of the 9800 rows more than a quarter are not covered.
#[test]
fn what_is_not_covered_changes_no_answer(rt: HostRuntime) -> Result<(), NoMemory> {
    let mut random = Pcg32::new(1, 3);
    let mut count: usize = 0;
    for draw in 0..200usize {
        let more = drawn(&rt, rt.alloc(), &mut random)?;
        holds_of(&rt, more.is_some(), &[draw]);
        count = count.saturating_add(more.unwrap_or(0));
    }
    holds_of(&rt, count > 2450, &[count]);
    Ok(())
}
