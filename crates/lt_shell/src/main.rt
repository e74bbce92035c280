//! The program: a script on standard input, its report on standard output.
//!
//! `main` hands words, source and sink to `repair_main` of `lt_session`, and tells in words why a run ended.
#![tactic(auto)]

use lt_edges::{OpenGate, StdSink, StdSource};
use lt_session::repair_main;
use std::alloc::{AllocError, Global};
use std::env::{self, Env};
use std::io::{self, BufWriter};
use std::process::ExitCode;

/// The status where memory for the words or for the buffer of the report is refused.
const NO_MEMORY: u8 = 5;

const USAGE: &str =
    "usage: lt_shell run [--workers N] [--pipeline D] [--marks] [--trace] | lt_shell bench --seed S --items I --programs P [--workers N] [--readers M] | lt_shell replay [--marks]";

// The words that the program was started with. Where they aren't all text, the program's name alone stands for them.
fn words_of<R: Env + Alloc<A = Global>>(rt: &R) -> Result<Vec<String>, AllocError> {
    let mut words = Vec::new(rt.alloc());
    match env::args(rt) {
        Ok(args) => {
            for word in args {
                words.push(word)?;
            }
        }
        Err(error) if error.kind() == io::ErrorKind::OutOfMemory => return Err(AllocError),
        Err(_) => words.push(String::from_str(rt.alloc(), "lt_shell")?)?,
    }
    Ok(words)
}

// Why a run ended with this status, where it wasn't run to its end. A fault of the script stands in the report.
fn reason(status: u8) -> Option<&'static str> {
    match status {
        1 => Some(USAGE),
        3 => Some("reading failed; what was written is a beginning of the report"),
        4 => Some("writing failed; what was written is a beginning of the report"),
        5 => Some("out of memory; what was written is a beginning of the report"),
        6 => Some("the input is too long; what was written is a beginning of the report"),
        7 => Some("the trace isn't that of the script; the last line of the report says where"),
        _ => None,
    }
}

// Writes a line on standard error that says why a run ended, where there is a reason, and gives the exit status.
fn end_with<R: Eprint>(rt: &R, status: u8) -> ExitCode {
    if let Some(reason) = reason(status) {
        let _ = eprintln!(rt; "lt_shell: {reason}");
    }
    ExitCode::from(status)
}

fn main(rt: HostRuntime) -> ExitCode {
    let Ok(words) = words_of(&rt) else {
        return end_with(&rt, NO_MEMORY);
    };
    // A report line is short: many of them go out by one system call. What fails then shows at a later write or a flush.
    let Ok(writer) = BufWriter::new(rt.alloc(), rt.stdout()) else {
        return end_with(&rt, NO_MEMORY);
    };
    let mut source = StdSource::new(rt.stdin());
    let mut sink = StdSink::new(writer);
    let status = repair_main(&rt, rt.alloc(), &words, &mut source, &mut sink, &OpenGate);
    end_with(&rt, status)
}
