//! What a relation holds.
ghost use Rattle.std.specs.Prelude.{◌≡◌, ◌≤◌, ◌<◌, length, IfSome};
ghost use Rattle.lt_model.specs.Report.{rows_text, show_text};
ghost use Rattle.lt_report.specs.Puts.{Puts};
ghost use Rattle.lt_report.specs.Texts.{held, show_line};

use crate::line::put_line;
use crate::rows::put_row;
use itoa::Buffer;
use lt_edges::{Failed, Sink};
use lt_face::row_set::RowReads;
use lt_face::walk::RowWalk;
use lt_model::kind::Kind;
use lt_model::name::Name;
use std::alloc::Global;

// The line with which a relation's rows begin.
fn put_show_line<K: Sink>(
    sink: &mut K,
    name: &Name,
    at: Option<u64>,
    count: usize,
) -> Result<(), Failed>
    ensures { Puts result (K.holds sink.old) (K.holds sink.new) (K.faults sink.old) (K.faults sink.new) (show_line name.now at count) }
{
    let mut buffer = Buffer::new();
    let count = buffer.format(count).as_bytes();
    match at {
        None => put_line(sink, &[b"show", name.as_bytes(), count]),
        Some(version) => {
            let mut second = Buffer::new();
            let version = second.format(version).as_bytes();
            put_line(sink, &[b"show", name.as_bytes(), b"at", version, count])
        }
    }
}

// The rows of a set, each on its line. They are read in place.
fn put_set<K: Sink, R: RowReads>(
    sink: &mut K,
    alloc: Global,
    kinds: &[Kind],
    rows: &R,
) -> Result<(), Failed>
    requires some { 1 ≤ length kinds.now }
    requires wide { R.width_of rows.now ≡ length kinds.now }
    ensures { Puts result (K.holds sink.old) (K.holds sink.new) (K.faults sink.old) (K.faults sink.new) (rows_text kinds.now (R.rows rows.now)) }
{
    let _width = rows.width();
    let mut walk = RowWalk::over(alloc, rows);
    'rows: for _place in 0..walk.len() {
        let row = walk.next_row().unwrap();
        put_row(sink, kinds, row)?;
    }
    Ok(())
}

// What a relation that is there holds.
fn put_held<K: Sink, R: RowReads>(
    sink: &mut K,
    alloc: Global,
    name: &Name,
    at: Option<u64>,
    kinds: &[Kind],
    rows: &R,
) -> Result<(), Failed>
    requires some { 1 ≤ length kinds.now }
    requires wide { R.width_of rows.now ≡ length kinds.now }
    ensures { Puts result (K.holds sink.old) (K.holds sink.new) (K.faults sink.old) (K.faults sink.new) (show_text name.now at kinds.now (R.rows rows.now)) }
{
    put_show_line(sink, name, at, rows.len())?;
    put_set(sink, alloc, kinds, rows)
}

/// What a relation holds, or held at a version: how many rows, and the rows. A relation that wasn't there has none. The
/// row from which the next one is sought has this allocator; it lies inline.
pub fn put_rows<K: Sink, R: RowReads>(
    sink: &mut K,
    alloc: Global,
    name: &Name,
    at: Option<u64>,
    kinds: &[Kind],
    rows: Option<&R>,
) -> Result<(), Failed>
    requires some { 1 ≤ length kinds.now }
    requires wide { IfSome rows (λ set. R.width_of set.now ≡ length kinds.now) }
    ensures { Puts result (K.holds sink.old) (K.holds sink.new) (K.faults sink.old) (K.faults sink.new) (show_text name.now at kinds.now (held R.rows rows.entry)) }
{
    match rows {
        Some(rows) => put_held(sink, alloc, name, at, kinds, rows),
        None => put_show_line(sink, name, at, 0),
    }
}
