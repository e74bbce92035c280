//! The script that the bench runs, and the lines of its summary.
use crate::agree::{same, same_at};
use lt_edges::MemSink;
use lt_face::NoMemory;
use lt_gen::{Summary, bench_script, bench_summary};
use std::alloc::Global;

const SUMMARY: Summary = Summary {
    programs: 3,
    done: 2,
    refused: 1,
    printed: 340_282_366_920_938_463_463_374_607_431_768_211_455,
    left: -7,
    sold: 4,
    reads: None,
    equal: None,
};

const READ: Summary = Summary {
    reads: Some(32),
    equal: Some(31),
    ..SUMMARY
};

const TEXT: &str =
    "programs 3\ndone 2\nrefused 1\nprinted 340282366920938463463374607431768211455\nleft -7\nsold 4\n";

const READ_TEXT: &str =
    "programs 3\ndone 2\nrefused 1\nprinted 340282366920938463463374607431768211455\nleft -7\nsold 4\nreads 32\nequal 31\n";

// How many items two scripts have: one program that buys, and one more than a batch has.
fn count_items(alloc: Global) -> Result<[usize; 2], NoMemory> {
    let one = bench_script(alloc, 1, 1, 1)?;
    let more = bench_script(alloc, 1, 64, 65)?;
    Ok([one.len(), more.len()])
}

// Whether the summary was written to the sink.
fn write_to(sink: &mut MemSink, summary: &Summary) -> bool {
    bench_summary(sink, summary).is_ok()
}

#[test]
fn has_an_item_for_each_batch(rt: HostRuntime) {
    same(&rt, count_items(rt.alloc()) == Ok([4, 5]), true);
}

#[test]
fn writes_six_lines_or_eight(rt: HostRuntime) -> Result<(), NoMemory> {
    for (summary, text) in [(SUMMARY, TEXT), (READ, READ_TEXT)] {
        let mut sink = MemSink::new(rt.alloc(), 1000, &[])?;
        let is_written = write_to(&mut sink, &summary);
        same_at(&rt, is_written, true, text);
        same_at(&rt, sink.bytes(), text.as_bytes(), text);
    }
    Ok(())
}

#[test]
fn stops_where_there_is_no_room(rt: HostRuntime) -> Result<(), NoMemory> {
    let mut sink = MemSink::new(rt.alloc(), 15, &[])?;
    same(&rt, write_to(&mut sink, &SUMMARY), false);
    same(&rt, sink.bytes(), b"programs 3\ndone".as_slice());
    Ok(())
}
