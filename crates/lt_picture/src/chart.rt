//! A batch: its title, a lane for each worker, the entries along the axis, and what they were.
use crate::bar::put_bar;
use crate::batch::{Batch, Look};
use crate::elements::put_number;
use crate::layout::{LEFT, MOST_DRAWN, STEP, lane_top, left_of, right_of};
use std::alloc::AllocError;

// So many entries lie between two marks of the axis.
const BETWEEN_MARKS: u32 = 10;

// How far below the lanes the lines of the axis' numbers, of the counts, and of what isn't drawn stand.
const TO_NUMBERS: u64 = 14;

const TO_COUNTS: u64 = 34;

const TO_REST: u64 = 51;

/// Writes how many of a thing there are.
fn put_count(text: &mut String, count: u64, thing: &str) -> Result<(), AllocError> {
    let plural = if count == 1 { "" } else { "s" };
    write!(text, "{count} {thing}{plural}")
}

/// Writes a batch's title.
fn put_title(text: &mut String, batch: &Batch<'_>) -> Result<(), AllocError> {
    let number = batch.number;
    write!(text, "<text class='title' x='10' y='22'>batch {number}: ")?;
    put_count(text, u64::from(batch.programs), "program")?;
    text.push_str(", ")?;
    put_count(text, u64::from(batch.events), "event")?;
    text.push_str(", ")?;
    put_count(text, batch.count(Look::Again) as u64, "second run")?;
    text.push_str("</text>\n")
}

/// Writes a worker's lane, which ends at `right`.
fn put_lane(text: &mut String, worker: u32, right: u64) -> Result<(), AllocError> {
    let top = lane_top(worker);
    let line = top + 17;
    write!(text, "<text x='10' y='{line}'>worker {worker}</text>")?;
    writeln!(text, "<path class='rule' d='M{LEFT} {top}H{right}'/>")
}

/// Writes a mark of the axis: a line through the lanes, and below it the entry's number.
fn put_mark(text: &mut String, entry: u32, lanes: u32) -> Result<(), AllocError> {
    let middle = left_of(entry) + STEP / 2;
    let top = lane_top(0);
    let bottom = lane_top(lanes);
    write!(text, "<path class='rule' d='M{middle} {top}V{bottom}'/>")?;
    let line = bottom + TO_NUMBERS;
    put_number(text, "mark", middle, line, u64::from(entry))?;
    text.push_str("\n")
}

/// Writes the axis, which counts entries from 1.
fn put_axis(text: &mut String, entries: u32, lanes: u32) -> Result<(), AllocError> {
    let top = lane_top(lanes);
    let line = top + TO_NUMBERS;
    let right = right_of(entries);
    write!(text, "<text x='10' y='{line}'>entry</text>")?;
    writeln!(text, "<path class='axis' d='M{LEFT} {top}H{right}'/>")?;
    for tenth in 0..entries / BETWEEN_MARKS {
        put_mark(text, (tenth + 1) * BETWEEN_MARKS, lanes)?;
    }
    Ok(())
}

/// Writes how many entries there are of each kind.
fn put_counts(text: &mut String, batch: &Batch<'_>, line: u64) -> Result<(), AllocError> {
    let events = batch.events;
    let again = batch.count(Look::Again);
    let runs = batch.count(Look::Run);
    let merges = batch.count(Look::Merge);
    let corrections = batch.count(Look::Correct);
    let back = batch.count(Look::GivenBack);
    write!(text, "<text x='10' y='{line}'>events: {events}; ")?;
    write!(text, "first runs: {runs}; second runs: {again}; ")?;
    write!(text, "merges: {merges}; corrections: {corrections}; ")?;
    writeln!(text, "given back: {back}</text>")
}

/// Writes which entries aren't drawn, where there are such.
fn put_rest(text: &mut String, events: u32, line: u64) -> Result<(), AllocError> {
    if events <= MOST_DRAWN {
        return Ok(());
    }
    let first = MOST_DRAWN + 1;
    write!(text, "<text x='10' y='{line}'>")?;
    writeln!(text, "not drawn: entries {first} to {events}</text>")
}

/// Writes a batch, `top` below the upper edge of the picture.
pub fn put_chart(text: &mut String, batch: &Batch<'_>, top: u64) -> Result<(), AllocError> {
    let lanes = batch.lanes();
    let entries = batch.events.min(MOST_DRAWN);
    let bottom = lane_top(lanes);
    writeln!(text, "<g transform='translate(0 {top})'>")?;
    put_title(text, batch)?;
    for worker in 0..lanes {
        put_lane(text, worker, right_of(entries))?;
    }
    put_axis(text, entries, lanes)?;
    for bar in &batch.bars {
        put_bar(text, bar, batch.name_of(bar.job))?;
    }
    put_counts(text, batch, bottom + TO_COUNTS)?;
    put_rest(text, batch.events, bottom + TO_REST)?;
    text.push_str("</g>\n")
}
