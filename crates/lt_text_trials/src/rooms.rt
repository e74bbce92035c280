//! Sinks without room, and a script whatever the pieces in which it comes.
use crate::agree::same_at;
use crate::running::{outcome, status_of};
use lt_edges::{MemSink, MemSource, OpenGate};
use std::alloc::Global;
use std::sync::Wait;
use std::test::Fail;
use std::thread::Threads;

// Each kind of line.
const SCRIPT: &str =
    "relation r(int); relation s(sym, int); relation r(sym); show q; batch program l insert s('b', 2); insert r(-1); delete r(7); print (x) where r(x); end; program p require some r(3); end; program q insert r(x); end; commit; show s; show r at 0; show r at 9; batch";

const REPORT: &str =
    "bad 24\nbad 20\nbatch 1\nl done\nprint 4 1\n-1\n+ r -1\n- r 7\n+ s b 2\np refused 1\nq bad 23 1\nversion 1\nshow s 1\nb 2\nshow r at 0 0\nbad 26\nfault 1 7\n";

// Statements that come again with other constants.
const AGAIN: &str =
    "relation r(int); batch program p0 insert r(1); end; program p1 insert r(2); end; program p2 insert r(3); end; program p3 insert r('a'); end; program p4 insert r(4); end; program p5 insert r('b'); end; program p6 insert r('c'); end; commit; show r;";

const AGAIN_REPORT: &str =
    "batch 1\np0 done\np1 done\np2 done\np3 bad 22 1\np4 done\np5 bad 22 1\np6 bad 22 1\nversion 1\nshow r 4\n1\n2\n3\n4\n";

const BENCH: &str = "bench --seed 1 --items 1 --programs 1";

const SUMMARY: &str = "programs 1\ndone 1\nrefused 0\nprinted 1\nleft 15\nsold 4\n";

const USAGE: &str =
    "usage: lt_shell run [--workers N] [--marks] | lt_shell bench --seed S --items I --programs P [--workers N]\n";

// The first room, less than the text takes, in which the words of a line don't end with status 4 and a front of the text.
fn first_without_front<R: Threads + Wait + Sync>(
    rt: &R,
    alloc: Global,
    line: &str,
    text: &str,
) -> Result<Option<usize>, Fail> {
    for room in 0..text.len() {
        let (status, sink) = outcome(rt, alloc, line, SCRIPT, room, &OpenGate)?;
        if status != 4 || !text.as_bytes().starts_with(sink.bytes()) {
            return Ok(Some(room));
        }
    }
    Ok(None)
}

// What is written by the words of a line, and the status.
const TEXTS: [(&str, &str, u8); 3] = [
    ("run --marks", REPORT, 2),
    (BENCH, SUMMARY, 0),
    ("walk", USAGE, 1),
];

#[test]
fn writes_a_front_where_there_is_no_room(rt: HostRuntime) -> Result<(), Fail> {
    for (line, text, _) in TEXTS {
        let other = first_without_front(&rt, rt.alloc(), line, text)?;
        same_at(&rt, other, None, line);
    }
    Ok(())
}

#[test]
fn writes_all_where_there_is_room_enough(rt: HostRuntime) -> Result<(), Fail> {
    for (line, text, status) in TEXTS {
        let (ended, sink) = outcome(&rt, rt.alloc(), line, SCRIPT, text.len(), &OpenGate)?;
        same_at(&rt, ended, status, line);
        same_at(&rt, sink.bytes(), text.as_bytes(), line);
    }
    Ok(())
}

// What is written of a script that comes in pieces of so many bytes.
fn written<R: Threads + Wait + Sync>(
    rt: &R,
    alloc: Global,
    line: &str,
    script: &str,
    piece: usize,
) -> Result<MemSink, Fail> {
    let mut source = MemSource::new(alloc, script.as_bytes(), piece.max(1), &[])?;
    let mut sink = MemSink::new(alloc, 1000, &[])?;
    status_of(rt, alloc, line, &mut source, &mut sink, &OpenGate)?;
    Ok(sink)
}

#[test]
fn reports_whatever_the_pieces(rt: HostRuntime) -> Result<(), Fail> {
    for (name, piece) in [("bytes", 1), ("seven bytes", 7), ("whole", 4096)] {
        let sink = written(&rt, rt.alloc(), "run --marks", SCRIPT, piece)?;
        same_at(&rt, sink.bytes(), REPORT.as_bytes(), name);
        let sink = written(&rt, rt.alloc(), "run", AGAIN, piece)?;
        same_at(&rt, sink.bytes(), AGAIN_REPORT.as_bytes(), name);
    }
    Ok(())
}
