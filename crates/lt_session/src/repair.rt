//! The call that runs a command.
ghost use Rattle.std.specs.Prelude.{◌≡◌, ◌≤◌, IsTrue, IfSome, IsSome, Some, map, string_bytes, length, false, ◌⊎◌};
ghost use Rattle.std.specs.Io.KnownBytes.{Appends, Keeps};
ghost use Rattle.lt_circuit.specs.Row.{most_segments};
ghost use Rattle.lt_face.specs.Limits.{most_workers};
ghost use Rattle.lt_edges.specs.Causes.{Rose};
ghost use Rattle.lt_model.specs.Report.{usage_text};
ghost use Rattle.lt_command.specs.Command.{command, is_taken, IsWithin};
ghost use Rattle.lt_gen.specs.Summaries.{summary_text};
ghost use Rattle.lt_report.specs.Puts.{AppendsFront, Puts};
ghost use Rattle.lt_runs.specs.Input.{limit};
ghost use Rattle.lt_runs.specs.Statuses.{status_code};
ghost use Rattle.lt_blocks.specs.Blocks.{blocks_text};
ghost use Rattle.lt_runs.specs.ReplayEnds.{IfReplay, IsFaultReplayed, IsLongReplayPart, IsRefused, IsReplayed, IsReplayPart, ReplayEndsAs};
ghost use Rattle.lt_session.specs.CommandEnds.{CommandEndsAs, UsageEndsAs};
ghost use Rattle.lt_runs.specs.TracedEnds.{IfTraced, IsFaultTraced, IsTraced, IsTracedPart, RunEndsAs};
ghost use Rattle.lt_runs.specs.Ends.{bench_text, BenchEndsAs, IfBench, IfRun, IsReplayAsked, IsFaultReported, IsLongPart, IsPart, IsReported, IsTooLong};

use lt_blocks::{Block, put_blocks};
use lt_command::{Command, command_of};
use lt_edges::{Failed, Gate, Sink, Source};
use lt_gen::{Summary, bench_summary};
use lt_report::put_usage;
use lt_runs::bench::summarize;
use lt_runs::generated::Generated;
use lt_runs::replay::{Verdict, write_replayed};
use lt_runs::script::write_report;
use lt_runs::status::{Status, code, status_of};
use lt_world::options::Options;
use std::alloc::Global;
use std::sync::Wait;
use std::thread::Threads;

// Writes the usage line and passes it on.
fn write_usage<K: Sink>(sink: &mut K) -> Result<(), Failed>
    ensures { Puts result (K.holds sink.old) (K.holds sink.new) (K.faults sink.old) (K.faults sink.new) usage_text }
{
    put_usage(sink)?;
    sink.flush()
}

// Where the words aren't taken.
fn refuse_words<K: Sink>(sink: &mut K) -> Status
    ensures ends { UsageEndsAs result (K.holds sink.old) (K.holds sink.new) (K.faults sink.old) (K.faults sink.new) }
    ensures status { (status_code result ≡ 1) ⊎ (status_code result ≡ 4) }
{
    match write_usage(sink) {
        Ok(()) => Status::NotTaken,
        Err(_) => Status::WriteFault,
    }
}

// Writes the journals of batches and passes on what was written.
fn write_blocks<K: Sink>(sink: &mut K, blocks: &[Block]) -> Result<(), Failed>
    ensures { Puts result (K.holds sink.old) (K.holds sink.new) (K.faults sink.old) (K.faults sink.new) (blocks_text blocks.now) }
{
    put_blocks(sink, blocks)?;
    sink.flush()
}

// How many batches run together at most. One worker gains nothing by a line: it runs batches as they come.
fn together(workers: u32, pipeline: u32) -> u32
    requires { (1 ≤ pipeline) × (pipeline ≤ most_segments) }
    ensures { (1 ≤ result) × (result ≤ most_segments) }
{
    if workers == 1 {
        return 1;
    }
    pipeline
}

// Runs a script as it comes and passes its report on.
fn run_script<R: Threads + Wait + Sync, S: Source, K: Sink, G: Gate>(
    rt: &R,
    alloc: Global,
    source: &mut S,
    sink: &mut K,
    options: Options,
    gate: &G,
) -> Status
    requires workers { (1 ≤ options.workers) × (options.workers ≤ most_workers) }
    requires pipeline { (1 ≤ options.pipeline) × (options.pipeline ≤ most_segments) }
    ensures { RunEndsAs options.trace options.marks result (S.left source.old) (S.left source.new) (S.faults source.old) (S.faults source.new)
        (K.holds sink.old) (K.holds sink.new) (K.faults sink.old) (K.faults sink.new) }
{
    let ended = match write_report(rt, alloc, source, sink, options, gate) {
        Ok(ended) => ended,
        Err(stop) => return status_of(stop),
    };
    let (faulty, blocks) = ended;
    let Ok(()) = write_blocks(sink, &blocks) else {
        return Status::WriteFault;
    };
    if faulty {
        return Status::Faulty;
    }
    Status::Done
}

// Runs a script by the journals in front of it, and passes its report on.
fn run_replay<R: Threads + Sync, S: Source, K: Sink>(
    rt: &R,
    alloc: Global,
    source: &mut S,
    sink: &mut K,
    marks: bool,
) -> Status
    ensures { ReplayEndsAs marks result (S.left source.old) (S.left source.new) (S.faults source.old) (S.faults source.new)
        (K.holds sink.old) (K.holds sink.new) (K.faults sink.old) (K.faults sink.new) }
{
    let verdict = match write_replayed(rt, alloc, source, sink, marks) {
        Ok(verdict) => verdict,
        Err(stop) => return status_of(stop),
    };
    let Ok(()) = sink.flush() else {
        return Status::WriteFault;
    };
    match verdict {
        Verdict::Good => Status::Done,
        Verdict::Faulty => Status::Faulty,
        Verdict::BadTrace => Status::BadTrace,
    }
}

// Writes the lines of a summary and passes them on.
fn write_summary<K: Sink>(sink: &mut K, summary: &Summary) -> Result<(), Failed>
    ensures { Puts result (K.holds sink.old) (K.holds sink.new) (K.faults sink.old) (K.faults sink.new) (summary_text summary.now) }
{
    bench_summary(sink, summary)?;
    sink.flush()
}

// Runs the generated script and writes what comes of it.
fn run_bench<R: Threads + Wait + Sync, K: Sink, G: Gate>(
    rt: &R,
    alloc: Global,
    sink: &mut K,
    generated: Generated,
    workers: u32,
    gate: &G,
) -> Status
    requires items { (1 ≤ generated.items) × (generated.items ≤ 16384) }
    requires programs { (1 ≤ generated.programs) × (generated.programs ≤ 65536) }
    requires readers { generated.readers ≤ 8 }
    requires workers { (1 ≤ workers) × (workers ≤ most_workers) }
    ensures { BenchEndsAs (bench_text generated.seed generated.items generated.programs generated.readers) result (K.holds sink.old) (K.holds sink.new) (K.faults sink.old) (K.faults sink.new) }
{
    let Ok(summary) = summarize(rt, alloc, generated, workers, gate) else {
        return Status::NoMemory;
    };
    match write_summary(sink, &summary) {
        Ok(()) => Status::Done,
        Err(_) => Status::WriteFault,
    }
}

// Runs what was asked for.
fn run_command<R: Threads + Wait + Sync, S: Source, K: Sink, G: Gate>(
    rt: &R,
    alloc: Global,
    command: Command,
    source: &mut S,
    sink: &mut K,
    gate: &G,
) -> Status
    requires { IsWithin command }
    ensures { CommandEndsAs (Some command) result (S.left source.old) (S.left source.new) (S.faults source.old) (S.faults source.new)
        (K.holds sink.old) (K.holds sink.new) (K.faults sink.old) (K.faults sink.new) }
{
    match command {
        Command::Run {
            workers,
            pipeline,
            marks,
            trace,
        } => {
            let options = Options {
                workers,
                pipeline: together(workers, pipeline),
                marks,
                trace,
            };
            run_script(rt, alloc, source, sink, options, gate)
        }
        Command::Bench {
            seed,
            items,
            programs,
            workers,
            readers,
        } => {
            let generated = Generated {
                seed,
                items,
                programs,
                readers,
            };
            run_bench(rt, alloc, sink, generated, workers, gate)
        }
        Command::Replay { marks } => run_replay(rt, alloc, source, sink, marks),
    }
}

// Runs what the words ask for.
fn run_words<R: Threads + Wait + Sync, S: Source, K: Sink, G: Gate>(
    rt: &R,
    alloc: Global,
    words: &[String],
    source: &mut S,
    sink: &mut K,
    gate: &G,
) -> Status
    ensures { CommandEndsAs (command (map string_bytes words.now)) result (S.left source.old) (S.left source.new) (S.faults source.old) (S.faults source.new)
        (K.holds sink.old) (K.holds sink.new) (K.faults sink.old) (K.faults sink.new) }
{
    let Ok(asked) = command_of(alloc, words) else {
        return Status::NoMemory;
    };
    match asked {
        Some(command) => run_command(rt, alloc, command, source, sink, gate),
        None => refuse_words(sink),
    }
}

/// Runs a command. The status is 0 where a script without a fault was read to its end, with `replay` also its traces, or a bench has run;
/// 2 where the script has a fault, 1 where the words aren't taken, 3 or 4 where a read or a write failed, 5 where memory ran out, 6 where
/// the script is longer than 16,777,216 bytes, and 7 where the traces that a `replay` was given aren't a run of its script.
pub fn repair_main<R: Threads + Wait + Sync, S: Source, K: Sink, G: Gate>(
    rt: &R,
    alloc: Global,
    words: &[String],
    source: &mut S,
    sink: &mut K,
    gate: &G,
) -> u8
    // A run: the bytes written are the report of the bytes read, with marks where they are asked for.
    ensures reported { result ≡ 0 → IfRun (command (map string_bytes words.now)) (λ marks. IsReported marks (S.left source.old) (S.left source.new) (K.holds sink.old) (K.holds sink.new)) }
    ensures faulty { result ≡ 2 → IfRun (command (map string_bytes words.now)) (λ marks. IsFaultReported marks (S.left source.old) (S.left source.new) (K.holds sink.old) (K.holds sink.new)) }
    // A run with traces: behind the report stands a block for each batch, whose entries settle the batch's circuit.
    ensures traced { result ≡ 0 → IfTraced (command (map string_bytes words.now)) (λ marks. IsTraced marks (S.left source.old) (S.left source.new) (K.holds sink.old) (K.holds sink.new)) }
    ensures traced_faulty { result ≡ 2 → IfTraced (command (map string_bytes words.now)) (λ marks. IsFaultTraced marks (S.left source.old) (S.left source.new) (K.holds sink.old) (K.holds sink.new)) }
    // A replay: the input is a trace and a script whose batches' blocks are right, and the report of the script was written.
    ensures replayed { result ≡ 0 → IfReplay (command (map string_bytes words.now)) (λ marks. IsReplayed marks (S.left source.old) (S.left source.new) (K.holds sink.old) (K.holds sink.new)) }
    ensures fault_replayed { result ≡ 2 → IfReplay (command (map string_bytes words.now)) (λ marks. IsFaultReplayed marks (S.left source.old) (S.left source.new) (K.holds sink.old) (K.holds sink.new)) }
    // Or the trace isn't right: the last line says where.
    ensures refused { result ≡ 7 → IfReplay (command (map string_bytes words.now)) (λ marks. IsRefused marks (S.left source.old) (S.left source.new) (K.holds sink.old) (K.holds sink.new)) }
    ensures replays_alone { result ≡ 7 → IsReplayAsked (command (map string_bytes words.now)) }
    // A bench: the bytes written tell what comes of the generated script, its programs run one after another; and of readers beside
    // them, that each reply was that of the version that it named.
    ensures summed { result ≡ 0 → IfBench (command (map string_bytes words.now)) (λ seed items programs readers. Appends (K.holds sink.old) (K.holds sink.new) (bench_text seed items programs readers)) }
    ensures unread { IfBench (command (map string_bytes words.now)) (λ seed items programs readers. Keeps (S.left source.old) (S.left source.new)) }
    // Why it ended otherwise.
    ensures words { (result ≡ 1) ⊎ (result ≡ 4) ⊎ (result ≡ 5) ⊎ IsTrue (is_taken (map string_bytes words.now)) }
    ensures not_taken { result ≡ 1 → is_taken (map string_bytes words.now) ≡ false }
    ensures usage { result ≡ 1 → Appends (K.holds sink.old) (K.holds sink.new) usage_text }
    ensures read_fault { result ≡ 3 → Rose (S.faults source.old) (S.faults source.new) }
    ensures write_fault { result ≡ 4 → Rose (K.faults sink.old) (K.faults sink.new) }
    ensures too_long { result ≡ 6 → IsTooLong (S.left source.old) (S.left source.new) }
    ensures bench_ends { IfBench (command (map string_bytes words.now)) (λ seed items programs readers. (result ≡ 0) ⊎ (result ≡ 4) ⊎ (result ≡ 5)) }
    ensures known { result ≤ 7 }
    // What was written until then.
    ensures part { ((result ≡ 3) ⊎ (result ≡ 4) ⊎ (result ≡ 5)) → IfRun (command (map string_bytes words.now)) (λ marks. IsPart marks (S.left source.old) (S.left source.new) (K.holds sink.old) (K.holds sink.new)) }
    ensures long_part { result ≡ 6 → IfRun (command (map string_bytes words.now)) (λ marks. IsLongPart marks (S.left source.old) (S.left source.new) (K.holds sink.old) (K.holds sink.new)) }
    ensures traced_part { ((result ≡ 3) ⊎ (result ≡ 4) ⊎ (result ≡ 5)) → IfTraced (command (map string_bytes words.now)) (λ marks. IsTracedPart marks (S.left source.old) (S.left source.new) (K.holds sink.old) (K.holds sink.new)) }
    ensures traced_long_part { result ≡ 6 → IfTraced (command (map string_bytes words.now)) (λ marks. IsLongPart marks (S.left source.old) (S.left source.new) (K.holds sink.old) (K.holds sink.new)) }
    ensures replay_part { ((result ≡ 3) ⊎ (result ≡ 4) ⊎ (result ≡ 5)) → IfReplay (command (map string_bytes words.now)) (λ marks. IsReplayPart marks (S.left source.old) (S.left source.new) (K.holds sink.old) (K.holds sink.new)) }
    ensures replay_long_part { result ≡ 6 → IfReplay (command (map string_bytes words.now)) (λ marks. IsLongReplayPart marks (S.left source.old) (S.left source.new) (K.holds sink.old) (K.holds sink.new)) }
    ensures bench_part { result ≡ 4 → IfBench (command (map string_bytes words.now)) (λ seed items programs readers. AppendsFront (K.holds sink.old) (K.holds sink.new) (bench_text seed items programs readers)) }
    ensures bench_unwritten { result ≡ 5 → IfBench (command (map string_bytes words.now)) (λ seed items programs readers. Keeps (K.holds sink.old) (K.holds sink.new)) }
    ensures usage_part { result ≡ 4 → is_taken (map string_bytes words.now) ≡ false → AppendsFront (K.holds sink.old) (K.holds sink.new) usage_text }
    ensures usage_unwritten { result ≡ 5 → is_taken (map string_bytes words.now) ≡ false → Keeps (K.holds sink.old) (K.holds sink.new) }
    // Where no read and no write failed and the input is within the limit, it is run, or memory ran out.
    ensures complete { IfRun (command (map string_bytes words.now)) (λ marks. (Rose (S.faults source.old) (S.faults source.new) → ⊥) → (Rose (K.faults sink.old) (K.faults sink.new) → ⊥)
        → IfSome (S.left source.old) (λ bytes. length bytes ≤ limit) → IsSome (S.left source.old) → (result ≡ 0) ⊎ (result ≡ 2) ⊎ (result ≡ 5)) }
    ensures traced_complete { IfTraced (command (map string_bytes words.now)) (λ marks. (Rose (S.faults source.old) (S.faults source.new) → ⊥) → (Rose (K.faults sink.old) (K.faults sink.new) → ⊥)
        → IfSome (S.left source.old) (λ bytes. length bytes ≤ limit) → IsSome (S.left source.old) → (result ≡ 0) ⊎ (result ≡ 2) ⊎ (result ≡ 5)) }
    ensures replay_complete { IfReplay (command (map string_bytes words.now)) (λ marks. (Rose (S.faults source.old) (S.faults source.new) → ⊥) → (Rose (K.faults sink.old) (K.faults sink.new) → ⊥)
        → IfSome (S.left source.old) (λ bytes. length bytes ≤ limit) → IsSome (S.left source.old) → (result ≡ 0) ⊎ (result ≡ 2) ⊎ (result ≡ 7) ⊎ (result ≡ 5)) }
    ensures bench_complete { IfBench (command (map string_bytes words.now)) (λ seed items programs readers. (Rose (K.faults sink.old) (K.faults sink.new) → ⊥) → (result ≡ 0) ⊎ (result ≡ 5)) }
{
    code(run_words(rt, alloc, words, source, sink, gate))
}
