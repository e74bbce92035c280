//! Traces and scripts, and the reports of these scripts.
ghost use Rattle.std.specs.Prelude.{◌≡◌, ◌≤◌, ℕ, true, length, List, Option as Maybe, IfOk, IfErr, OnErr};
ghost use Rattle.std.specs.Io.KnownBytes.{Appends, IsAtEnd};
ghost use Rattle.lt_edges.specs.Causes.{HasCause};
ghost use Rattle.lt_model.specs.Report.{opening, World as ModelWorld};
ghost use Rattle.lt_report.specs.Puts.{AppendsFront};
ghost use Rattle.lt_report.specs.Traces.{bad_trace_text};
ghost use Rattle.lt_runs.specs.declared.replay.Verdict.TheVariants as verdicts;
ghost use Rattle.lt_runs.specs.Input.{limit};
ghost use Rattle.lt_runs.specs.ReplayEnds.{IsReplayWritten, ReplayStopsAs};
ghost use Rattle.lt_runs.specs.ReplaySteps.{Closes, ClosesPart, IsBegun, StopsInside, StopsRefusing, TakesOut};
ghost use Rattle.lt_world.specs.World.{IsWorld, Shows};

use crate::front::{Front, read_front, read_rest};
use crate::input::{InputError, Taken};
use crate::script::{go_on, pass_on};
use crate::stop::Stop;
use lt_edges::{Failed, Sink, Source};
use lt_report::{put_bad_trace, put_fault};
use lt_script::{Feed, FeedStep};
use lt_world::replaying::{Misstep, Replayed};
use lt_world::world::World;
use std::alloc::Global;
use std::thread::Threads;

/// How the replay of a script ended.
#[derive(Clone, Copy, Debug, PartialEq, Eq)]
pub enum Verdict {
    /// The script has no fault, and the trace is its.
    Good,
    /// The script has a fault, and the trace is that of the batches before it.
    Faulty,
    /// The trace isn't right.
    BadTrace,
}

// Reads a source to its end, where that wasn't met.
fn take_rest<S: Source>(source: &mut S, taken: Taken) -> Result<(), InputError>
    requires within { taken.count ≤ limit }
    requires end { taken.ended ≡ true → IsAtEnd (S.left source.old) }
    ensures ok { IfOk result (λ _. TakesOut taken.ended taken.count (S.left source.old) (S.left source.new)) }
    ensures err { IfErr result (λ error. StopsInside error taken.ended taken.count (S.left source.old) (S.left source.new) (S.faults source.old) (S.faults source.new)) }
    ensures later { S.faults source.old ≤ S.faults source.new }
{
    if taken.ended {
        return Ok(());
    }
    read_rest(source, taken.count)?;
    Ok(())
}

// Writes where the trace isn't right, behind the end of the source.
fn refuse<S: Source, K: Sink>(
    source: &mut S,
    sink: &mut K,
    taken: Taken,
    written: &mut bool,
    batch: u64,
    place: u64,
) -> Result<Verdict, Stop>
    requires within { taken.count ≤ limit }
    requires end { taken.ended ≡ true → IsAtEnd (S.left source.old) }
    ensures verdict { IfOk result (λ verdict. verdict ≡ verdicts.BadTrace) }
    ensures ok { IfOk result (λ _. TakesOut taken.ended taken.count (S.left source.old) (S.left source.new)) }
    ensures told { IfOk result (λ _. Appends (K.holds sink.old) (K.holds sink.new) (bad_trace_text batch place)) }
    ensures err { IfErr result (λ stop. StopsRefusing stop taken.ended taken.count (S.left source.old) (S.left source.new) (S.faults source.old) (S.faults source.new) (K.faults sink.old) (K.faults sink.new)) }
    ensures part { OnErr result (AppendsFront (K.holds sink.old) (K.holds sink.new) (bad_trace_text batch place)) }
    ensures later { S.faults source.old ≤ S.faults source.new }
    ensures sink_later { K.faults sink.old ≤ K.faults sink.new }
{
    pass_on(sink, written)?;
    take_rest(source, taken)?;
    put_bad_trace(sink, batch, place)?;
    Ok(Verdict::BadTrace)
}

// Behind the last item: no block may be left. The line of the script's fault is written, where there is one.
fn close<K: Sink>(
    sink: &mut K,
    session: &Replayed,
    fault: Option<(u64, u32)>,
) -> Result<Verdict, Failed>
    requires { IsWorld session.now.world }
    ensures ok { IfOk result (λ verdict. (m : ModelWorld) → Shows session.now.world m → Closes verdict (length m.versions) (length session.now.blocks.items) fault (K.holds sink.old) (K.holds sink.new)) }
    ensures part { OnErr result ((m : ModelWorld) → Shows session.now.world m → ClosesPart (length m.versions) (length session.now.blocks.items) fault (K.holds sink.old) (K.holds sink.new)) }
    ensures cause { HasCause (K.faults sink.old) (K.faults sink.new) result }
{
    if session.has_next_block() {
        put_bad_trace(sink, session.next_batch(), 0)?;
        return Ok(Verdict::BadTrace);
    }
    let Some((line, code)) = fault else {
        return Ok(Verdict::Good);
    };
    put_fault(sink, line, code)?;
    Ok(Verdict::Faulty)
}

// Runs the items of a script by these blocks, of which so many bytes were taken and fed.
fn write_items<R: Threads + Sync, S: Source, K: Sink>(
    rt: &R,
    alloc: Global,
    source: &mut S,
    sink: &mut K,
    feed: &mut Feed,
    mut session: Replayed,
    count: usize,
    marks: bool,
) -> Result<Verdict, Stop>
    requires world { Shows session.world opening }
    requires begun { (left : Maybe (List ℕ)) × IsBegun session.blocks.items count feed.old left (S.left source.old) }
    ensures ok { IfOk result (λ verdict. (left : Maybe (List ℕ)) → IsBegun session.blocks.items count feed.old left (S.left source.old)
        → IsReplayWritten marks verdict left (S.left source.new) (K.holds sink.old) (K.holds sink.new)) }
    ensures err { IfErr result (λ stop. (left : Maybe (List ℕ)) → IsBegun session.blocks.items count feed.old left (S.left source.old)
        → ReplayStopsAs marks stop left (S.left source.new) (S.faults source.old) (S.faults source.new) (K.holds sink.old) (K.holds sink.new) (K.faults sink.old) (K.faults sink.new)) }
    ensures later { K.faults sink.old ≤ K.faults sink.new }
{
    let mut taken = Taken {
        count,
        ended: false,
        begun: None,
    };
    let mut written = false;
    'steps: loop {
        match feed.next_step(alloc) {
            FeedStep::Item(item) => {
                match session.take(rt, alloc, sink, item, marks) {
                    Ok(()) => written = true,
                    Err(Misstep::Bad { place }) => {
                        let batch = session.next_batch();
                        let verdict = refuse(source, sink, taken, &mut written, batch, place)?;
                        return Ok(verdict);
                    }
                    Err(Misstep::NoMemory) => return Err(Stop::NoMemory),
                    Err(Misstep::Failed) => return Err(Stop::WriteFailed),
                }
            }
            FeedStep::More => { taken = go_on(source, sink, feed, taken.count, &mut written)? }
            FeedStep::End => {
                let verdict = close(sink, &session, None)?;
                return Ok(verdict);
            }
            FeedStep::Fault { line, code } => {
                if taken.ended {
                    let verdict = close(sink, &session, Some((line, code)))?;
                    return Ok(verdict);
                }
                taken = go_on(source, sink, feed, taken.count, &mut written)?;
            }
            FeedStep::NoMemory => return Err(Stop::NoMemory),
        }
    }
}

/// Reads a trace and a script to their end, and writes the report of the script, where the trace is its: each batch is run by its
/// block. Where the trace isn't right, the last line says so; nothing is written of the batch whose block isn't.
pub fn write_replayed<R: Threads + Sync, S: Source, K: Sink>(
    rt: &R,
    alloc: Global,
    source: &mut S,
    sink: &mut K,
    marks: bool,
) -> Result<Verdict, Stop>
    ensures ok { IfOk result (λ verdict. IsReplayWritten marks verdict (S.left source.old) (S.left source.new) (K.holds sink.old) (K.holds sink.new)) }
    ensures err { IfErr result (λ stop. ReplayStopsAs marks stop (S.left source.old) (S.left source.new) (S.faults source.old) (S.faults source.new)
        (K.holds sink.old) (K.holds sink.new) (K.faults sink.old) (K.faults sink.new)) }
    ensures later { K.faults sink.old ≤ K.faults sink.new }
{
    let mut feed = Feed::new(alloc);
    let world = World::new(alloc)?;
    let front = read_front(alloc, source, &mut feed)?;
    match front {
        Front::Blocks { blocks, count } => {
            let session = Replayed { world, blocks };
            let verdict = write_items(rt, alloc, source, sink, &mut feed, session, count, marks)?;
            Ok(verdict)
        }
        Front::Bad { line } => {
            put_bad_trace(sink, 0, line)?;
            Ok(Verdict::BadTrace)
        }
    }
}
