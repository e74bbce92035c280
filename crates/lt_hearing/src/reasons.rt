//! Why programs of a batch did nothing, in words and with the text of the statement.
use lt_edges::{Failed, Sink};
use lt_input::statements::{on_one_line, statement_at};
use lt_input::words::words_of;
use lt_model::name::Name;
use lt_model::reply::Reply;
use lt_model::syntax::Program;
use lt_report::put_line;
use lt_telling::telling::put_reason;
use lt_world::batch::{Judgement, Ran};
use lt_world::halt::Halt;
use lt_world::world::World;
use std::alloc::Global;

/// Says why a relation wasn't shown, where it wasn't.
pub fn put_show_reason<K: Sink>(
    sink: &mut K,
    world: &World,
    name: &Name,
    at: Option<u64>,
) -> Result<(), Failed> {
    if world.schema.find(name).is_none() {
        return put_reason(sink, 20);
    }
    match at {
        Some(version) if world.versions.at(version).is_none() => put_reason(sink, 26),
        _ => Ok(()),
    }
}

// Says of a program which statement is why.
fn put_program_reason<K: Sink>(
    alloc: Global,
    sink: &mut K,
    name: &Name,
    words: &str,
    text: &[u8],
) -> Result<(), Halt> {
    let line = on_one_line(alloc, text)?;
    put_line(
        sink,
        &[b" ", name.as_bytes(), words.as_bytes(), b"--", &line],
    )?;
    Ok(())
}

/// Says of each program that did nothing which of its statements is why. The text is that of the batch.
pub fn put_reasons<K: Sink>(
    alloc: Global,
    sink: &mut K,
    programs: &[Program],
    ran: &Ran,
    text: &[u8],
) -> Result<(), Halt> {
    let mut replies = ran.replies.as_slice().iter();
    let mut number = 0usize;
    for (program, judgement) in programs.iter().zip(ran.judgements.as_slice()) {
        number = number.saturating_add(1);
        match judgement {
            Judgement::Bad { code, statement } => {
                let (_, text) = statement_at(text, number, *statement);
                put_program_reason(alloc, sink, &program.name, words_of(*code), text)?;
            }
            Judgement::Good(_) => {
                if let Some(Reply::Refused(statement)) = replies.next() {
                    let (_, text) = statement_at(text, number, *statement);
                    put_program_reason(alloc, sink, &program.name, "was refused by", text)?;
                }
            }
        }
    }
    Ok(())
}
