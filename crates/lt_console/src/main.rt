//! A console over relations in memory, for people at a terminal and for programs at a pipe.
//!
//! `console` takes the lines of the inputs (`lt_input`): it has the items answered whose text is there (`lt_hearing`), and commands obeyed
//! (`lt_obeying`). `linting` looks through scripts, and runs nothing. `wishes` are the words of the command line, `stop` is why a session
//! ended before it was to. What is proved of the answers stands in the libraries; here, that a session has one world throughout.
#![tactic(auto)]

mod console;
mod linting;
mod stop;
mod wishes;

use console::converse;
use linting::lint;
use lt_edges::{Sink, StdSink};
use lt_input::inputs::{Input, Origin, push_input};
use lt_telling::settings::Settings;
use lt_world::world::World;
use std::alloc::{AllocError, Global};
use std::env::{self, Env};
use std::fs;
use std::io::{self, BufWriter, Read};
use std::process::ExitCode;
use std::rt::{Clock, Files};
use std::sync::Wait;
use std::thread::Threads;
use stop::Stop;
use wishes::{Wishes, wishes_of};

const USAGE: &str = "usage: lt_console [--talk] [--workers N] [FILE ..]
       lt_console --lint [FILE ..]
Runs scripts of lt_shell item by item, those of the files first, then standard input. An error costs the item that has it.
--talk answers as at a terminal; --workers N, N from 1 to 16, has N workers run a batch; .help lists the commands.
--lint runs nothing, and warns of what may not have been meant; the status is 2 where it does.
";

// The words that the program was started with.
fn words_of<R: Env + Alloc<A = Global>>(rt: &R) -> Result<Vec<String>, Stop> {
    let mut words = Vec::new(rt.alloc());
    match env::args(rt) {
        Ok(args) => {
            for word in args {
                words.push(word)?;
            }
            Ok(words)
        }
        Err(_) => Err(Stop::NoMemory),
    }
}

// Whether a person types: where the system tells what standard input is.
fn is_terminal<R: Files + Alloc<A = Global>>(rt: &R) -> bool {
    match fs::read_link(rt, "/proc/self/fd/0") {
        Ok(path) => match path.as_path().to_str() {
            Some(text) => text.starts_with("/dev/pts/") || text.starts_with("/dev/tty"),
            None => false,
        },
        Err(_) => false,
    }
}

// The inputs, that which is read first behind the others.
fn inputs_of<R: Files + Eprint, I: Read + Drop>(
    rt: &R,
    alloc: Global,
    standard: I,
    files: &[String],
) -> Result<Vec<Input<I, R::File>>, Stop> {
    let mut inputs = Vec::new(alloc);
    push_input(alloc, &mut inputs, Origin::Standard(standard))?;
    for path in files.iter().rev() {
        let Ok(file) = fs::open(rt, path.as_str()) else {
            let _ = eprintln!(rt; "lt_console: {path} can't be read");
            return Err(Stop::ReadFailed);
        };
        push_input(alloc, &mut inputs, Origin::File(file))?;
    }
    Ok(inputs)
}

// Looks through so many files, or through standard input where there is none; how much was told.
fn look_at_all<I: Read + Drop, F: Read + Drop, K: Sink>(
    alloc: Global,
    world: &mut World,
    sink: &mut K,
    inputs: &mut Vec<Input<I, F>>,
    files: usize,
) -> Result<u64, Stop> {
    let mut told = 0u64;
    for _ in 0..=files {
        let Some(mut input) = inputs.pop() else {
            break;
        };
        if input.is_standard && files > 0 {
            break;
        }
        let count = lint(world, alloc, sink, &mut input)?;
        told = told.saturating_add(count);
    }
    Ok(told)
}

// Looks through files, or through standard input where none is named; the status.
fn look_through<R: Files + Eprint, I: Read + Drop, K: Sink>(
    rt: &R,
    alloc: Global,
    standard: I,
    sink: &mut K,
    files: &[String],
) -> Result<u8, Stop> {
    let mut inputs = inputs_of(rt, alloc, standard, files)?;
    let mut world = World::new(alloc)?;
    let told = look_at_all(alloc, &mut world, sink, &mut inputs, files.len())?;
    sink.flush()?;
    Ok(if told > 0 { 2 } else { 0 })
}

// A session from its beginning to its end.
fn session<R: Threads + Wait + Sync + Files + Clock + Eprint, I: Read + Drop, K: Sink>(
    rt: &R,
    alloc: Global,
    standard: I,
    sink: &mut K,
    files: &[String],
    mut settings: Settings,
) -> Result<u8, Stop> {
    let mut inputs = inputs_of(rt, alloc, standard, files)?;
    let mut world = World::new(alloc)?;
    converse(&mut world, rt, alloc, &mut inputs, sink, &mut settings)?;
    Ok(0)
}

// The status, and a line that says why, where the session ended before it was to.
fn ended<R: Eprint>(rt: &R, end: Result<u8, Stop>) -> ExitCode {
    match end {
        Ok(status) => ExitCode::from(status),
        Err(stop) => {
            let _ = eprintln!(rt; "lt_console: {stop}");
            ExitCode::from(stop.status())
        }
    }
}

fn main(rt: HostRuntime) -> ExitCode {
    let words = match words_of(&rt) {
        Ok(words) => words,
        Err(stop) => return ended(&rt, Err(stop)),
    };
    let Ok(wishes) = wishes_of(rt.alloc(), words) else {
        return ended(&rt, Err(Stop::NoMemory));
    };
    if wishes.help || wishes.unclear {
        let _ = eprint!(rt; "{USAGE}");
        return ExitCode::from(if wishes.unclear { 1 } else { 0 });
    }
    if wishes.version {
        let _ = println!(rt; "lt_console 1");
        return ExitCode::SUCCESS;
    }
    let settings = Settings {
        talks: wishes.talks || is_terminal(&rt),
        timed: false,
        workers: wishes.workers,
    };
    let Ok(writer) = BufWriter::new(rt.alloc(), rt.stdout()) else {
        return ended(&rt, Err(Stop::NoMemory));
    };
    let mut sink = StdSink::new(writer);
    let (alloc, stdin) = (rt.alloc(), rt.stdin());
    let end = if wishes.lints {
        look_through(&rt, alloc, stdin, &mut sink, &wishes.files)
    } else {
        session(&rt, alloc, stdin, &mut sink, &wishes.files, settings)
    };
    ended(&rt, end)
}
