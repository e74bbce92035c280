//! Scripts that are looked through: their declarations are taken, their programs are warned of, and none of them is run.
ghost use Rattle.lt_model.specs.declared.syntax.Item.TheVariants as items;
ghost use Rattle.lt_model.specs.Limits.{IsWithinLimits, IsProgramWithin};
ghost use Rattle.std.specs.List.{AllByRecursion};

use crate::stop::Stop;
use lt_advice::advice::warnings_of;
use lt_advice::advising::say_warning;
use lt_advice::lines::Lines;
use lt_edges::Sink;
use lt_input::inputs::Input;
use lt_input::script::Script;
use lt_input::statements::statement_at;
use lt_input::tokens::behind_blank;
use lt_model::kind::KindList;
use lt_model::name::Name;
use lt_model::syntax::{Item, Program};
use lt_script::FeedStep;
use lt_telling::refusing::{put_refusal, put_told};
use lt_telling::telling::put_error;
use lt_telling::text::put_text;
use lt_world::batch::Judgement;
use lt_world::halt::Halt;
use lt_world::judging::all_judged;
use lt_world::world::World;
use std::alloc::Global;
use std::io::Read;

// Tells the code of an item, where it has one; how many were told.
fn put_code<K: Sink>(
    sink: &mut K,
    script: &Script,
    code: Option<u32>,
    about: &Name,
) -> Result<u64, Halt> {
    match code {
        Some(code) => {
            let text = script.item_text();
            let place = text.len().saturating_sub(behind_blank(text).len());
            put_error(sink, script.spot_of(place, code), about.as_bytes())?;
            Ok(1)
        }
        None => Ok(0),
    }
}

fn look_at_relation<K: Sink>(
    world: &mut World,
    alloc: Global,
    sink: &mut K,
    script: &Script,
    name: Name,
    kinds: KindList,
    keys: u32,
) -> Result<u64, Halt>
    requires { IsWithinLimits (items.Relation name kinds keys) }
{
    let told = Name::from_bytes(alloc, name.as_bytes());
    let code = world.declare(name, kinds, keys)?;
    put_code(sink, script, code, &told)
}

// Warns of a program, which is the one with this place in its batch, from 1; how many warnings there are.
fn warn_of<K: Sink>(
    world: &World,
    alloc: Global,
    sink: &mut K,
    script: &Script,
    program: &Program,
    place: usize,
) -> Result<u64, Halt> {
    let text = script.item_text();
    let warnings = warnings_of(alloc, world.schema.schema(), program)?;
    let mut lines = Lines::new(alloc);
    for warning in warnings.as_slice() {
        let (start, told) = statement_at(text, place, warning.statement);
        let spot = script.spot_of(start, warning.code);
        say_warning(
            alloc,
            &mut lines,
            Some(spot.line),
            &program.name,
            *warning,
            told,
        )?;
    }
    put_text(sink, &lines.text)?;
    Ok(warnings.len() as u64)
}

// Tells the code of a program, or warns of it; how much was told.
fn look_at_program<K: Sink>(
    world: &World,
    alloc: Global,
    sink: &mut K,
    script: &Script,
    program: &Program,
    judgement: &Judgement,
    place: usize,
) -> Result<u64, Halt> {
    let told = warn_of(world, alloc, sink, script, program, place)?;
    match judgement {
        Judgement::Good(_) => Ok(told),
        Judgement::Bad { code, statement } => {
            let (start, text) = statement_at(script.item_text(), place, *statement);
            put_error(sink, script.spot_of(start, *code), text)?;
            Ok(told.saturating_add(1))
        }
    }
}

fn look_at_batch<K: Sink>(
    world: &World,
    alloc: Global,
    sink: &mut K,
    script: &Script,
    programs: &[Program],
) -> Result<u64, Halt>
    requires { AllByRecursion IsProgramWithin programs.now }
{
    let judgements = all_judged(alloc, programs, world.schema.schema())?;
    let mut told = 0u64;
    let mut place = 0usize;
    for (program, judgement) in programs.iter().zip(judgements.as_slice()) {
        place = place.saturating_add(1);
        let more = look_at_program(world, alloc, sink, script, program, judgement, place)?;
        told = told.saturating_add(more);
    }
    Ok(told)
}

// Looks at an item; how much was told.
fn look_at<K: Sink>(
    world: &mut World,
    alloc: Global,
    sink: &mut K,
    script: &Script,
    item: Item,
) -> Result<u64, Halt>
    requires { IsWithinLimits item }
{
    match item {
        Item::Relation { name, kinds, keys } => {
            look_at_relation(world, alloc, sink, script, name, kinds, keys)
        }
        Item::Batch { programs } => look_at_batch(world, alloc, sink, script, programs.as_slice()),
        Item::Show { name, .. } => {
            let code = match world.schema.find(&name) {
                Some(_) => None,
                None => Some(20),
            };
            put_code(sink, script, code, &name)
        }
    }
}

// Tells a fault, and gives up the item that has it; how much was told.
fn put_fault<K: Sink>(
    alloc: Global,
    sink: &mut K,
    script: &mut Script,
    line: u64,
    code: u32,
) -> Result<u64, Halt> {
    let told = script.refuse(alloc, line, code)?;
    put_told(sink, script, false, &told)?;
    Ok(1)
}

// Looks at the items whose text is there, up to the first fault; how much was told.
fn look<K: Sink>(
    world: &mut World,
    alloc: Global,
    sink: &mut K,
    script: &mut Script,
) -> Result<u64, Halt> {
    let mut told = 0u64;
    for _ in 0..u64::MAX {
        match script.fed.next_step(alloc) {
            FeedStep::Item(item) => {
                let more = look_at(world, alloc, sink, script, item)?;
                told = told.saturating_add(more);
                script.go_on()?;
            }
            FeedStep::Fault { line, code } => {
                let more = put_fault(alloc, sink, script, line, code)?;
                return Ok(told.saturating_add(more));
            }
            FeedStep::NoMemory => return Err(Halt::NoMemory),
            FeedStep::End => return Ok(told),
            FeedStep::More => return Ok(told),
        }
    }
    Ok(told)
}

// Looks at a line of a script; how much was told. Commands are passed over.
fn look_at_line<K: Sink>(
    world: &mut World,
    alloc: Global,
    sink: &mut K,
    script: &mut Script,
    line: &[u8],
) -> Result<u64, Halt> {
    if line.starts_with(b".") {
        script.count_line()?;
        return Ok(0);
    }
    if script.passes(line) {
        return Ok(0);
    }
    script.push(line)?;
    if !script.is_asked(line) {
        return Ok(0);
    }
    look(world, alloc, sink, script)
}

// Looks at what is left at the end of a script.
fn look_at_rest<K: Sink>(
    world: &mut World,
    alloc: Global,
    sink: &mut K,
    script: &mut Script,
) -> Result<u64, Halt> {
    script.push(b"\n")?;
    let told = look(world, alloc, sink, script)?;
    if script.is_inside() {
        put_refusal(sink, script, 7, "")?;
        return Ok(told.saturating_add(1));
    }
    Ok(told)
}

/// Looks through a script; how much was told of it.
pub fn lint<I: Read + Drop, F: Read + Drop, K: Sink>(
    world: &mut World,
    alloc: Global,
    sink: &mut K,
    input: &mut Input<I, F>,
) -> Result<u64, Stop> {
    let mut line = Vec::new(alloc);
    let mut told = 0u64;
    for _ in 0..u64::MAX {
        let more = input.next_line(&mut line)?;
        if !more {
            break;
        }
        let count = look_at_line(world, alloc, sink, &mut input.script, &line)?;
        told = told.saturating_add(count);
    }
    let count = look_at_rest(world, alloc, sink, &mut input.script)?;
    Ok(told.saturating_add(count))
}
