//! The commands, as the parser of command lines has them.
ghost use Rattle.std.specs.Prelude.{◌≡◌, IfOk, false};
ghost use Rattle.clap.specs.Words.{app_of, rule_of};
ghost use Rattle.clap.specs.declared.builder.command.Command.TheViews.{out-Command as fields_of};
ghost use Rattle.lt_command.specs.Definition as definition;

use clap::{Arg, ArgAction, Command, value_parser};
use lt_face::limits::MOST_WORKERS;
use std::alloc::{AllocError, Global};

/// Things that a generated script has in stock.
pub(crate) const MOST_ITEMS: u32 = 16384;

/// Programs of a generated script that buy.
pub(crate) const MOST_BUYERS: u32 = 65536;

/// Readers beside the batches of a bench.
pub(crate) const MOST_READERS: u32 = 8;

/// Batches that run as one line.
pub(crate) const MOST_IN_LINE: u32 = 8;

// `--workers N`: how many workers run a batch.
fn workers<'a>(alloc: Global) -> Arg<'a>
    ensures rule { rule_of result ≡ definition.workers }
    ensures local { result.global ≡ false }
{
    Arg::new(alloc, "workers")
        .long("workers")
        .value_parser(value_parser!(u32).range(1..=MOST_WORKERS as i64))
}

// `--pipeline D`: how many batches that follow each other run as one line.
fn pipeline<'a>(alloc: Global) -> Arg<'a>
    ensures rule { rule_of result ≡ definition.pipeline }
    ensures local { result.global ≡ false }
{
    Arg::new(alloc, "pipeline")
        .long("pipeline")
        .value_parser(value_parser!(u32).range(1..=MOST_IN_LINE as i64))
}

// `--marks`: the marks of each program that is done are told too.
fn marks<'a>(alloc: Global) -> Arg<'a>
    ensures rule { rule_of result ≡ definition.marks }
    ensures local { result.global ≡ false }
{
    Arg::new(alloc, "marks")
        .long("marks")
        .action(ArgAction::SetTrue)
}

// `--trace`: the journals of the batches are written behind the report.
fn trace<'a>(alloc: Global) -> Arg<'a>
    ensures rule { rule_of result ≡ definition.trace }
    ensures local { result.global ≡ false }
{
    Arg::new(alloc, "trace")
        .long("trace")
        .action(ArgAction::SetTrue)
}

// `--seed S`: where the draws of a generated script begin.
fn seed<'a>(alloc: Global) -> Arg<'a>
    ensures rule { rule_of result ≡ definition.seed }
    ensures local { result.global ≡ false }
{
    Arg::new(alloc, "seed")
        .long("seed")
        .required(true)
        .value_parser(value_parser!(u64))
}

// `--items I`: how many things a generated script has in stock.
fn items<'a>(alloc: Global) -> Arg<'a>
    ensures rule { rule_of result ≡ definition.items }
    ensures local { result.global ≡ false }
{
    Arg::new(alloc, "items")
        .long("items")
        .required(true)
        .value_parser(value_parser!(u32).range(1..=MOST_ITEMS as i64))
}

// `--programs P`: how many programs of a generated script buy.
fn programs<'a>(alloc: Global) -> Arg<'a>
    ensures rule { rule_of result ≡ definition.programs }
    ensures local { result.global ≡ false }
{
    Arg::new(alloc, "programs")
        .long("programs")
        .required(true)
        .value_parser(value_parser!(u32).range(1..=MOST_BUYERS as i64))
}

// `--readers M`: how many readers ask beside the batches.
fn readers<'a>(alloc: Global) -> Arg<'a>
    ensures rule { rule_of result ≡ definition.readers }
    ensures local { result.global ≡ false }
{
    Arg::new(alloc, "readers")
        .long("readers")
        .value_parser(value_parser!(u32).range(0..=MOST_READERS as i64))
}

// `run`: a script is read and its report written.
fn run<'a>(alloc: Global) -> Result<Command<'a>, AllocError>
    ensures app { IfOk result (λ command. app_of command ≡ definition.run) }
    ensures local { IfOk result (λ command. (fields_of command).has_globals ≡ false) }
{
    let run = Command::new(alloc, "run").arg(workers(alloc))?;
    let run = run.arg(pipeline(alloc))?;
    let run = run.arg(marks(alloc))?;
    run.arg(trace(alloc))
}

// What `bench` needs to know of the script that it generates.
fn bench_of_script<'a>(alloc: Global) -> Result<Command<'a>, AllocError>
    ensures app { IfOk result (λ command. app_of command ≡ definition.bench_of_script) }
    ensures local { IfOk result (λ command. (fields_of command).has_globals ≡ false) }
{
    let bench = Command::new(alloc, "bench").arg(seed(alloc))?;
    let bench = bench.arg(items(alloc))?;
    bench.arg(programs(alloc))
}

// `bench`: a generated script is run and its summary written.
fn bench<'a>(alloc: Global) -> Result<Command<'a>, AllocError>
    ensures app { IfOk result (λ command. app_of command ≡ definition.bench) }
    ensures local { IfOk result (λ command. (fields_of command).has_globals ≡ false) }
{
    let bench = bench_of_script(alloc)?;
    let bench = bench.arg(workers(alloc))?;
    bench.arg(readers(alloc))
}

// `replay`: a script is run by journals that were written down.
fn replay<'a>(alloc: Global) -> Result<Command<'a>, AllocError>
    ensures app { IfOk result (λ command. app_of command ≡ definition.replay) }
    ensures local { IfOk result (λ command. (fields_of command).has_globals ≡ false) }
{
    Command::new(alloc, "replay").arg(marks(alloc))
}

/// The commands. The words name one of them.
pub fn commands<'a>(alloc: Global) -> Result<Command<'a>, AllocError>
    ensures { IfOk result (λ command. app_of command ≡ definition.commands) }
{
    let program = Command::new(alloc, "lt_shell").subcommand_required(true);
    let program = program.subcommand(run(alloc)?)?;
    let program = program.subcommand(bench(alloc)?)?;
    program.subcommand(replay(alloc)?)
}
