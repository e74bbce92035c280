//! Scripts and their reports.
ghost use Rattle.std.specs.Prelude.{◌≡◌, ◌≤◌, false, IfOk, IfErr};
ghost use Rattle.std.specs.Io.KnownBytes.{Keeps};
ghost use Rattle.lt_circuit.specs.Row.{most_segments};
ghost use Rattle.lt_face.specs.Limits.{most_workers};
ghost use Rattle.lt_edges.specs.Causes.{HasCause};
ghost use Rattle.lt_runs.specs.Input.{limit};
ghost use Rattle.lt_runs.specs.Reads.{ReadsOn, StopsGoing};
ghost use Rattle.lt_runs.specs.Ends.{IsWritten, StopsAs};

use crate::input::{Taken, read_on};
use crate::session::Session;
use crate::stop::Stop;
use lt_blocks::Block;
use lt_edges::{Failed, Gate, Sink, Source};
use lt_report::put_fault;
use lt_script::{Feed, FeedStep};
use lt_world::options::Options;
use std::alloc::Global;
use std::sync::Wait;
use std::thread::Threads;

/// Passes on the lines that were written, where some were since it was last done.
pub fn pass_on<K: Sink>(sink: &mut K, written: &mut bool) -> Result<(), Failed>
    ensures bytes { Keeps (K.holds sink.old) (K.holds sink.new) }
    ensures cause { HasCause (K.faults sink.old) (K.faults sink.new) result }
{
    if !*written {
        return Ok(());
    }
    *written = false;
    sink.flush()
}

/// Feeds what comes next of a source from which `count` bytes were taken. As it may be long in coming, what was written goes
/// out before.
pub fn go_on<S: Source, K: Sink>(
    source: &mut S,
    sink: &mut K,
    feed: &mut Feed,
    count: usize,
    written: &mut bool,
) -> Result<Taken, Stop>
    requires open { feed.old.ended ≡ false }
    requires within { count ≤ limit }
    ensures ok { IfOk result (λ taken. ReadsOn feed.old feed.new count taken (S.left source.old) (S.left source.new)) }
    ensures err { IfErr result (λ stop. StopsGoing stop count (S.left source.old) (S.left source.new) (S.faults source.old) (S.faults source.new) (K.faults sink.old) (K.faults sink.new)) }
    ensures bytes { Keeps (K.holds sink.old) (K.holds sink.new) }
    ensures later { S.faults source.old ≤ S.faults source.new }
    ensures sink_later { K.faults sink.old ≤ K.faults sink.new }
{
    pass_on(sink, written)?;
    let taken = read_on(source, feed, count)?;
    Ok(taken)
}

/// Reads a script to its end, writes its report item by item as they come, and says whether the script has a fault. Batches that
/// follow each other may be read before they are run. The fault's line is written behind the end of the source. Where traces are asked for, the journals of its batches are given, too.
pub fn write_report<R: Threads + Wait + Sync, S: Source, K: Sink, G: Gate>(
    rt: &R,
    alloc: Global,
    source: &mut S,
    sink: &mut K,
    options: Options,
    gate: &G,
) -> Result<(bool, Vec<Block>), Stop>
    requires workers { (1 ≤ options.workers) × (options.workers ≤ most_workers) }
    requires pipeline { (1 ≤ options.pipeline) × (options.pipeline ≤ most_segments) }
    ensures ok { IfOk result (λ ended. IsWritten options.trace options.marks ended.0 ended.1.items (S.left source.old) (S.left source.new) (K.holds sink.old) (K.holds sink.new)) }
    ensures err { IfErr result (λ stop. StopsAs options.marks stop (S.left source.old) (S.left source.new) (S.faults source.old) (S.faults source.new)
        (K.holds sink.old) (K.holds sink.new) (K.faults sink.old) (K.faults sink.new)) }
    ensures later { K.faults sink.old ≤ K.faults sink.new }
{
    let mut feed = Feed::new(alloc);
    let mut session = Session::new(alloc)?;
    let mut taken = Taken {
        count: 0,
        ended: false,
        begun: None,
    };
    let mut written = false;
    'steps: loop {
        match feed.next_step(alloc) {
            FeedStep::Item(item) => {
                session.take(rt, alloc, sink, item, options, gate)?;
                written = true;
                if taken.is_inside(feed.kept()) {
                    taken = go_on(source, sink, &mut feed, taken.count, &mut written)?;
                }
            }
            FeedStep::More => { taken = go_on(source, sink, &mut feed, taken.count, &mut written)? }
            FeedStep::End => {
                session.run_waiting(rt, alloc, sink, options, gate)?;
                return Ok((false, session.made.blocks));
            }
            FeedStep::Fault { line, code } => {
                written |= session.has_waiting();
                session.run_waiting(rt, alloc, sink, options, gate)?;
                if taken.ended {
                    put_fault(sink, line, code)?;
                    return Ok((true, session.made.blocks));
                }
                taken = go_on(source, sink, &mut feed, taken.count, &mut written)?;
            }
            FeedStep::NoMemory => return Err(Stop::NoMemory),
        }
    }
}
