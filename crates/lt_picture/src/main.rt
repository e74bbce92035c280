//! Draws what the workers of each batch did: a report with traces on standard input, a picture in SVG on standard output.
//!
//! `lines` tells what a line says, `trace` goes through the report and its traces, `names` keeps the names that the report tells,
//! `entries` and `claims` take an entry, `batch` is what is drawn, and `picture`, `chart`, `bar` and `elements` write it, by the places in
//! `layout` and the looks in `legend`.
#![tactic(auto)]

mod bar;
mod batch;
mod chart;
mod claims;
mod drawing;
mod elements;
mod entries;
mod input;
mod layout;
mod legend;
mod lines;
mod names;
mod picture;
mod refusal;
mod stop;
mod trace;

use drawing::draw;
use lt_edges::{StdSink, StdSource};
use std::io::BufWriter;
use std::process::ExitCode;
use stop::Stop;

fn main(rt: HostRuntime) -> ExitCode {
    let Ok(writer) = BufWriter::new(rt.alloc(), rt.stdout()) else {
        return ExitCode::from(Stop::NoMemory.status());
    };
    let mut source = StdSource::new(rt.stdin());
    let mut sink = StdSink::new(writer);
    match draw(rt.alloc(), &mut source, &mut sink) {
        Ok(()) => ExitCode::SUCCESS,
        Err(stop) => {
            let _ = eprintln!(rt; "lt_picture: {stop}");
            ExitCode::from(stop.status())
        }
    }
}
