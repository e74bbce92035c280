//! What words ask for.
ghost use Rattle.std.specs.Prelude.{◌≡◌, ◌≤◌, IfOk, IfSome, map, string_bytes};
ghost use Rattle.clap.specs.Words.{found_of, rows_of, subcommand_rows_of};
ghost use Rattle.lt_command.specs.Command.{command, command_in, is_given_in, number_within, seed_in, IsWithin};

use crate::definition::{MOST_BUYERS, MOST_IN_LINE, MOST_ITEMS, MOST_READERS, commands};
use clap::ArgMatches;
use clap::error::ErrorKind;
use lt_face::NoMemory;
use lt_face::limits::MOST_WORKERS;
use std::alloc::Global;

/// A command, with what its options say.
#[derive(Clone, Copy, Debug, PartialEq, Eq)]
pub enum Command {
    /// Reads a script and writes its report; so many workers run each batch, or a line of up to so many batches. Where the traces
    /// are asked for, they follow.
    Run {
        workers: u32,
        pipeline: u32,
        marks: bool,
        trace: bool,
    },
    /// Runs a generated script and writes its summary.
    Bench {
        seed: u64,
        items: u32,
        programs: u32,
        workers: u32,
        readers: u32,
    },
    /// Reads traces and a script, and writes its report where the traces are its.
    Replay {
        marks: bool,
    },
}

// The number of an option, where another stands for one that isn't given. The parser takes none outside these bounds.
fn number_of(matches: &ArgMatches<'_>, id: &str, otherwise: u32, least: u32, most: u32) -> u32
    requires { least ≤ most }
    ensures value { result ≡ number_within least most otherwise id.now (rows_of (found_of matches.now)) }
    ensures least { least ≤ result }
    ensures most { result ≤ most }
{
    matches
        .get_one::<u32>(id)
        .unwrap_or(otherwise)
        .clamp(least, most)
}

// Whether an option without a value is given.
fn is_given(matches: &ArgMatches<'_>, id: &str) -> bool
    ensures { result ≡ is_given_in id.now (rows_of (found_of matches.now)) }
{
    match matches.get_str(id) {
        Some(text) => text == "true",
        None => false,
    }
}

fn seed_of(matches: &ArgMatches<'_>) -> u64
    ensures { result ≡ seed_in (rows_of (found_of matches.now)) }
{
    matches.get_one::<u64>("seed").unwrap_or(0)
}

// The command that a parse came to.
fn command_met(matches: &ArgMatches<'_>) -> Option<Command>
    ensures value { result ≡ command_in (subcommand_rows_of matches.now) }
    ensures within { IfSome result IsWithin }
{
    let Some((name, inner)) = matches.subcommand() else {
        return None;
    };
    if name == "run" {
        return Some(Command::Run {
            workers: number_of(inner, "workers", 4, 1, MOST_WORKERS as u32),
            pipeline: number_of(inner, "pipeline", 1, 1, MOST_IN_LINE),
            marks: is_given(inner, "marks"),
            trace: is_given(inner, "trace"),
        });
    }
    if name == "bench" {
        return Some(Command::Bench {
            seed: seed_of(inner),
            items: number_of(inner, "items", 1, 1, MOST_ITEMS),
            programs: number_of(inner, "programs", 1, 1, MOST_BUYERS),
            workers: number_of(inner, "workers", 4, 1, MOST_WORKERS as u32),
            readers: number_of(inner, "readers", 0, 0, MOST_READERS),
        });
    }
    if name == "replay" {
        return Some(Command::Replay {
            marks: is_given(inner, "marks"),
        });
    }
    None
}

/// What the words ask for, by the commands' definition. None where it doesn't take them; a call for help isn't taken.
pub fn command_of(alloc: Global, words: &[String]) -> Result<Option<Command>, NoMemory>
    ensures value { IfOk result (λ asked. asked ≡ command (map string_bytes words.now)) }
    ensures within { IfOk result (λ asked. IfSome asked IsWithin) }
{
    let commands = commands(alloc)?;
    match commands.try_get_matches_from(words) {
        Ok(matches) => Ok(command_met(&matches)),
        Err(error) => match error.kind() {
            ErrorKind::OutOfMemory => Err(NoMemory),
            _ => Ok(None),
        },
    }
}
