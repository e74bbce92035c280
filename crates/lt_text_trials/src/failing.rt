//! Reads and writes that fail in mid-stream.
use crate::agree::{same, same_at};
use crate::running::status_of;
use lt_edges::{MemSink, MemSource, OpenGate, Source};
use std::alloc::Global;
use std::sync::Wait;
use std::test::Fail;
use std::thread::Threads;

// Two rows that go in and are shown.
const SCRIPT: &str =
    "relation r(int); batch program p insert r(2); insert r(1); end; commit; show r;";

const REPORT: &str = "batch 1\np done\nversion 1\nshow r 2\n1\n2\n";

// Two batches; the first takes four reads of seven bytes, and twelve writes.
const BATCHES: &str = "batch program p end; commit; batch program q end; commit;";

const FIRST: &str = "batch 1\np done\nversion 1\n";

// The status of a script that comes in pieces of so many bytes, and what was written. This read or this write fails.
fn outcome<R: Threads + Wait + Sync>(
    rt: &R,
    alloc: Global,
    script: &[u8],
    piece: usize,
    read: u64,
    write: u64,
) -> Result<(u8, MemSink), Fail> {
    let mut source = MemSource::new(alloc, script, piece.max(1), &[read])?;
    let mut sink = MemSink::new(alloc, 1000, &[write])?;
    let line = "run --workers 2";
    let status = status_of(rt, alloc, line, &mut source, &mut sink, &OpenGate)?;
    Ok((status, sink))
}

// The status where this read or this write of the script fails, if what was written is a front of the report.
fn status_where<R: Threads + Wait + Sync>(
    rt: &R,
    alloc: Global,
    read: u64,
    write: u64,
) -> Result<Option<u8>, Fail> {
    let (status, sink) = outcome(rt, alloc, SCRIPT.as_bytes(), 7, read, write)?;
    let is_front = REPORT.as_bytes().starts_with(sink.bytes());
    Ok(is_front.then_some(status))
}

// The first read that may fail without status 3.
fn first_read_taken<R: Threads + Wait + Sync>(
    rt: &R,
    alloc: Global,
    most: u64,
) -> Result<Option<u64>, Fail> {
    for read in 1..most {
        if status_where(rt, alloc, read, 0)? != Some(3) {
            return Ok(Some(read));
        }
    }
    Ok(None)
}

// The script comes in twelve pieces, and then the end.
#[test]
fn each_read_may_fail(rt: HostRuntime) -> Result<(), Fail> {
    same(&rt, first_read_taken(&rt, rt.alloc(), 60)?, Some(14));
    same(&rt, status_where(&rt, rt.alloc(), 14, 0)?, Some(0));
    Ok(())
}

// How many of the first calls of a sink end the run with status 4, and whether all later ones aren't made.
fn failing_writes<R: Threads + Wait + Sync>(
    rt: &R,
    alloc: Global,
    most: u64,
) -> Result<Option<u64>, Fail> {
    let mut failed: u64 = 0;
    for write in 1..most {
        match status_where(rt, alloc, 0, write)? {
            Some(4) if failed.saturating_add(1) == write => failed = write,
            Some(0) => {}
            _ => return Ok(None),
        }
    }
    Ok(Some(failed))
}

// Six lines, each of one write or more, and the flush.
#[test]
fn each_write_may_fail(rt: HostRuntime) -> Result<(), Fail> {
    match failing_writes(&rt, rt.alloc(), 60)? {
        Some(failed) => same(&rt, 7 <= failed && failed < 59, true),
        None => same(&rt, "", "a write that fails"),
    }
    Ok(())
}

// The first item is there with the fourth read, is run before the fifth, and is passed on before that.
const CUT_OFF: [(&str, u64, u64, u8, &str); 4] = [
    ("read 2", 2, 0, 3, ""),
    ("read 5", 5, 0, 3, FIRST),
    ("write 3", 0, 3, 4, "batch "),
    ("write 13", 0, 13, 4, FIRST),
];

#[test]
fn writes_what_was_run(rt: HostRuntime) -> Result<(), Fail> {
    for (name, read, write, status, written) in CUT_OFF {
        let (ended, sink) = outcome(&rt, rt.alloc(), BATCHES.as_bytes(), 7, read, write)?;
        same_at(&rt, ended, status, name);
        same_at(&rt, sink.bytes(), written.as_bytes(), name);
    }
    Ok(())
}

// What is read next where the thirteenth write failed, if the status is 4.
fn next_read<R: Threads + Wait + Sync>(rt: &R, alloc: Global) -> Result<Option<[u8; 7]>, Fail> {
    let mut source = MemSource::new(alloc, BATCHES.as_bytes(), 7, &[])?;
    let mut sink = MemSink::new(alloc, 1000, &[13])?;
    let status = status_of(rt, alloc, "run", &mut source, &mut sink, &OpenGate)?;
    let mut next = [0; 7];
    let is_read = source.read(&mut next) == Ok(7);
    Ok((status == 4 && is_read).then_some(next))
}

#[test]
fn passes_lines_on_before_it_reads_on(rt: HostRuntime) -> Result<(), Fail> {
    same(&rt, next_read(&rt, rt.alloc())?, Some(*b" batch "));
    Ok(())
}

// A batch behind a comment of so many bytes.
fn long_batch(alloc: Global, size: usize) -> Result<Vec<u8>, Fail> {
    let mut script = Vec::from_slice(alloc, b"batch #")?;
    for _ in 0..size {
        script.push(b'x')?;
    }
    script.extend_from_slice(b"\nprogram p end; commit;")?;
    Ok(script)
}

// Five reads give it, the last of them less than it asks for, and the sixth fails.
#[test]
fn runs_a_long_batch_once_it_is_there(rt: HostRuntime) -> Result<(), Fail> {
    let script = long_batch(rt.alloc(), 20_000)?;
    let (status, sink) = outcome(&rt, rt.alloc(), &script, 65_536, 6, 0)?;
    same(&rt, status, 3);
    same(&rt, sink.bytes(), FIRST.as_bytes());
    Ok(())
}
