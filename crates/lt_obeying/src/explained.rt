//! The command that explains what stands on its line.
ghost use Rattle.lt_model.specs.Limits.{IsWithinLimits, IsProgramWithin};
ghost use Rattle.std.specs.List.{AllByRecursion};

use lt_advice::explaining::{say_bad, say_good, say_warnings};
use lt_advice::lines::Lines;
use lt_check::schema::Schema;
use lt_edges::Sink;
use lt_face::NoMemory;
use lt_input::fed::Fed;
use lt_input::places::{Spot, find_fault};
use lt_input::script::Script;
use lt_input::statements::statement_at;
use lt_input::tokens::begins_with;
use lt_model::syntax::{Item, Program};
use lt_script::FeedStep;
use lt_telling::refusing::put_refusal;
use lt_telling::telling::{put_error, put_number};
use lt_telling::text::put_text;
use lt_world::batch::Judgement;
use lt_world::halt::Halt;
use lt_world::judging::all_judged;
use lt_world::world::World;
use std::alloc::Global;

// What stands before the text of the line, and behind it.
fn frame(line: &[u8]) -> (&'static [u8], &'static [u8]) {
    if begins_with(line, b"program") {
        return (b"batch ", b" commit;\n");
    }
    (b"batch program you ", b" end; commit;\n")
}

// A batch with the programs of a line, or with one program of its statements.
fn batch_of(alloc: Global, line: &[u8]) -> Result<Vec<u8>, NoMemory> {
    let (before, behind) = frame(line);
    let mut text = Vec::new(alloc);
    text.extend_from_slice(before)?;
    text.extend_from_slice(line)?;
    text.extend_from_slice(behind)?;
    Ok(text)
}

// Says of each program of a batch how its statements are gone through, and warns. The text is that of the batch.
fn explain(
    alloc: Global,
    lines: &mut Lines,
    schema: &Schema,
    programs: &[Program],
    judgements: &[Judgement],
    text: &[u8],
) -> Result<(), NoMemory> {
    let mut place = 0usize;
    for (program, judgement) in programs.iter().zip(judgements) {
        place = place.saturating_add(1);
        match judgement {
            Judgement::Good(prog) => {
                say_good(
                    alloc,
                    lines,
                    schema,
                    program,
                    prog.statements(),
                    text,
                    place,
                )?;
            }
            Judgement::Bad { code, statement } => {
                let (_, told) = statement_at(text, place, *statement);
                say_bad(alloc, lines, program, *code, *statement, told)?;
            }
        }
        say_warnings(alloc, lines, schema, program, text, place)?;
    }
    Ok(())
}

fn put_explained<K: Sink>(
    world: &World,
    alloc: Global,
    sink: &mut K,
    programs: &[Program],
    text: &[u8],
) -> Result<(), Halt>
    requires { AllByRecursion IsProgramWithin programs.now }
{
    let judgements = all_judged(alloc, programs, world.schema.schema())?;
    let mut lines = Lines::new(alloc);
    explain(
        alloc,
        &mut lines,
        world.schema.schema(),
        programs,
        &judgements,
        text,
    )?;
    put_number(sink, b"explain", lines.count)?;
    put_text(sink, &lines.text)?;
    Ok(())
}

fn explain_item<K: Sink>(
    world: &World,
    alloc: Global,
    sink: &mut K,
    item: Item,
    text: &[u8],
) -> Result<(), Halt>
    requires { IsWithinLimits item }
{
    match item {
        Item::Batch { programs } => put_explained(world, alloc, sink, programs.as_slice(), text),
        Item::Relation { .. } => Ok(()),
        Item::Show { .. } => Ok(()),
    }
}

// Tells a fault of the line, whose text begins at this column, from 0.
fn put_misread<K: Sink>(
    alloc: Global,
    sink: &mut K,
    script: &Script,
    line: &[u8],
    text: &[u8],
    column: usize,
    code: u32,
) -> Result<(), Halt> {
    let span = find_fault(alloc, text, 0, 0)?;
    let (before, _) = frame(line);
    let start = span.start.saturating_sub(before.len());
    if start >= line.len() {
        put_refusal(sink, script, 7, "")?;
        return Ok(());
    }
    let (_, behind) = text.split_at(span.start.min(text.len()));
    let (token, _) = behind.split_at(span.end.saturating_sub(span.start).min(behind.len()));
    let spot = Spot {
        line: script.line(),
        column: (column.saturating_add(start) as u64).saturating_add(1),
        code,
    };
    put_error(sink, spot, token)?;
    Ok(())
}

/// Explains the programs or the statements of a line, whose text begins at this column, from 0.
pub fn explain_line<K: Sink>(
    world: &World,
    alloc: Global,
    sink: &mut K,
    script: &Script,
    line: &[u8],
    column: usize,
) -> Result<(), Halt> {
    let text = batch_of(alloc, line)?;
    let mut fed = Fed::new(alloc);
    fed.push(&text)?;
    match fed.next_step(alloc) {
        FeedStep::Item(item) => explain_item(world, alloc, sink, item, &text),
        FeedStep::Fault { code, .. } => {
            put_misread(alloc, sink, script, line, &text, column, code)
        }
        FeedStep::NoMemory => Err(Halt::NoMemory),
        FeedStep::End => Ok(()),
        FeedStep::More => {
            put_refusal(sink, script, 7, "")?;
            Ok(())
        }
    }
}
