//! Jobs that meet at a gate: of one batch, of two batches of a line, and a job with a reader's query.
use crate::agree::same_at;
use crate::running::outcome;
use lt_edges::{MeetGate, MemSink};
use std::alloc::Global;
use std::sync::Wait;
use std::test::Fail;
use std::thread::Threads;

// How many turns one waits for another at most.
const TURNS: u64 = 1_000_000;

const INSERTED: &str =
    "relation r(int); batch program p insert r(1); end; commit; batch program q require some r(x); end; commit;";

const INSERTED_REPORT: &str = "batch 1\np done\nversion 1\nbatch 2\nq done\nversion 2\n";

// What was written, if the run ended with 0 and a call for the one number came while the first for the other was held.
fn met<R: Threads + Wait + Sync>(
    rt: &R,
    alloc: Global,
    line: &str,
    script: &str,
    held: u32,
    awaited: u32,
) -> Result<Option<MemSink>, Fail> {
    let gate = MeetGate::new(held, awaited, TURNS);
    let (status, sink) = outcome(rt, alloc, line, script, 4000, &gate)?;
    let is_met = status == 0 && gate.met();
    Ok(is_met.then_some(sink))
}

// By what number a gate knows the first reader's queries, and by what number the job of a batch's second program.
const QUERY: u32 = 4_294_967_295;

const SECOND: u32 = 3;

// A job waits for a query, and in another bench a query for a job: neither all queries before the batches nor all behind them
// pass both.
#[test]
fn a_query_meets_a_job(rt: HostRuntime) -> Result<(), Fail> {
    let line = "bench --seed 1 --items 1 --programs 2 --readers 1";
    for (waits, held, awaited) in [("job", SECOND, QUERY), ("query", QUERY, SECOND)] {
        let sink = met(&rt, rt.alloc(), line, "", held, awaited)?;
        same_at(&rt, sink.is_some(), true, waits);
    }
    Ok(())
}

// The program of the one batch is claimed before that of the other is finished, both ways: so both batches run at one time. Their jobs
// are the first ones of the first two batches of a line.
#[test]
fn two_batches_meet(rt: HostRuntime) -> Result<(), Fail> {
    let line = "run --pipeline 2 --workers 2";
    for (waits, held, awaited) in [("first", 0, 2048), ("second", 2048, 0)] {
        let sink = met(&rt, rt.alloc(), line, INSERTED, held, awaited)?;
        let reported = match &sink {
            Some(sink) => sink.bytes() == INSERTED_REPORT.as_bytes(),
            None => false,
        };
        same_at(&rt, reported, true, waits);
    }
    Ok(())
}

// Whether each entry is of worker 0 or of worker 1. The first line has how many entries there are.
fn are_of_two(entries: &str) -> bool {
    for entry in entries.lines().skip(1) {
        if !entry.starts_with("0 ") && !entry.starts_with("1 ") {
            return false;
        }
    }
    true
}

// Whether all entries of the first trace are of two workers, and the one line stands before the other among them.
fn stand_in_order(written: &[u8], first: &str, second: &str) -> bool {
    let Ok(text) = std::str::from_utf8(written) else {
        return false;
    };
    let Some((_, entries)) = text.split_once("trace 1 2 ") else {
        return false;
    };
    match (entries.find(first), entries.find(second)) {
        (Some(one), Some(other)) => one < other && are_of_two(entries),
        _ => false,
    }
}

// Job 3 is claimed before job 0 is finished; and in another run job 0 before job 3 is finished. Either worker may have done it.
#[test]
fn a_trace_shows_jobs_that_meet(rt: HostRuntime) -> Result<(), Fail> {
    let script =
        "relation flag(int); batch program p1 insert flag(1); end; program p2 require some flag(x); end; commit;";
    for (held, awaited, first, second) in [(0, 3, " 9\n", " 1\n"), (3, 0, " 0\n", " 10\n")] {
        let sink = met(
            &rt,
            rt.alloc(),
            "run --trace --workers 2",
            script,
            held,
            awaited,
        )?;
        let ordered = match &sink {
            Some(sink) => stand_in_order(sink.bytes(), first, second),
            None => false,
        };
        same_at(&rt, ordered, true, first);
    }
    Ok(())
}
