//! Warnings in words.
use crate::advice::Warning;
use crate::lines::Lines;
use lt_face::NoMemory;
use lt_input::pieces::push_number;
use lt_input::statements::on_one_line;
use lt_input::words::{cure_of, words_of};
use lt_model::name::Name;
use std::alloc::Global;

// The line of a warning, with the line of the script, where that is known.
fn say_first(
    lines: &mut Lines,
    line: Option<u64>,
    program: &Name,
    warning: Warning<'_>,
) -> Result<(), NoMemory> {
    lines.say(b"warning ")?;
    if let Some(line) = line {
        push_number(&mut lines.text, line)?;
        lines.say(b" ")?;
    }
    lines.say_all(&[program.as_bytes(), b" "])?;
    lines.say_numbers(warning.statement, warning.code)?;
    lines.say(b" ")?;
    lines.say(warning.about.as_bytes())?;
    lines.say_all(&[b": ", words_of(warning.code).as_bytes()])
}

/// Says a warning of a statement with this text, and what may be written in its place.
pub fn say_warning(
    alloc: Global,
    lines: &mut Lines,
    line: Option<u64>,
    program: &Name,
    warning: Warning<'_>,
    text: &[u8],
) -> Result<(), NoMemory> {
    say_first(lines, line, program, warning)?;
    let told = on_one_line(alloc, text)?;
    lines.say_line(&[b" -- ", &told])?;
    lines.say_line(&[b"  ", cure_of(warning.code).as_bytes()])
}
