//! A session: line after line, each item is answered once its text is there, and each command at once.
ghost use Rattle.std.specs.Prelude.{OnOk};
ghost use Rattle.lt_world.specs.World.{IsWorld};

use crate::stop::Stop;
use lt_edges::Sink;
use lt_face::NoMemory;
use lt_hearing::hearing::hear_all;
use lt_input::commands::command_of;
use lt_input::inputs::{Input, Origin, push_input};
use lt_input::script::Script;
use lt_input::tokens::{begins_statement, ends_statement};
use lt_obeying::obeying::{Then, obey};
use lt_report::put_line;
use lt_telling::refusing::put_refusal;
use lt_telling::settings::Settings;
use lt_world::halt::Halt;
use lt_world::world::World;
use std::alloc::Global;
use std::io::Read;
use std::rt::{Clock, Files};
use std::sync::Wait;
use std::thread::Threads;

// So many files may read each other.
const DEEPEST: usize = 16;

// Where a person types, an item of up to so many bytes is looked at behind each line.
const SHORT: usize = 4096;

// Answers what is left at the end of an input.
fn finish<R: Threads + Wait + Sync + Clock, K: Sink>(
    world: &mut World,
    rt: &R,
    alloc: Global,
    sink: &mut K,
    script: &mut Script,
    settings: Settings,
) -> Result<(), Halt>
    requires { IsWorld world.old }
    ensures { OnOk result (IsWorld world.new) }
{
    script.push(b"\n")?;
    hear_all(world, rt, alloc, sink, script, settings)?;
    if script.is_inside() {
        put_refusal(sink, script, 7, "")?;
    }
    Ok(())
}

// Begins a batch round a statement that stands alone, where a person types one.
fn begin_alone(script: &mut Script, settings: Settings, line: &[u8]) -> Result<(), NoMemory> {
    if settings.talks && !script.is_begun() && begins_statement(line) {
        script.push_added(b"batch program you\n")?;
        script.alone = true;
    }
    Ok(())
}

// Answers the items whose text is there, where an item may have ended with this line.
fn answer_line<R: Threads + Wait + Sync + Clock, K: Sink>(
    world: &mut World,
    rt: &R,
    alloc: Global,
    sink: &mut K,
    script: &mut Script,
    settings: Settings,
    line: &[u8],
) -> Result<(), Halt>
    requires { IsWorld world.old }
    ensures { OnOk result (IsWorld world.new) }
{
    let typed = settings.talks && script.fed.kept() < SHORT;
    let wanted = script.is_asked(line) || typed || script.alone;
    if !wanted {
        return Ok(());
    }
    hear_all(world, rt, alloc, sink, script, settings)
}

// Ends the batch round a statement that stands alone, where it ended with this line.
fn end_alone<R: Threads + Wait + Sync + Clock, K: Sink>(
    world: &mut World,
    rt: &R,
    alloc: Global,
    sink: &mut K,
    script: &mut Script,
    settings: Settings,
    line: &[u8],
) -> Result<(), Halt>
    requires { IsWorld world.old }
    ensures { OnOk result (IsWorld world.new) }
{
    let ended = script.alone && ends_statement(line);
    if !ended {
        return Ok(());
    }
    script.push_added(b"end; commit;\n")?;
    script.alone = false;
    hear_all(world, rt, alloc, sink, script, settings)
}

// Takes a line of a script.
fn take_line<R: Threads + Wait + Sync + Clock, K: Sink>(
    world: &mut World,
    rt: &R,
    alloc: Global,
    sink: &mut K,
    script: &mut Script,
    settings: Settings,
    line: &[u8],
) -> Result<(), Halt>
    requires { IsWorld world.old }
    ensures { OnOk result (IsWorld world.new) }
{
    if script.passes(line) {
        return Ok(());
    }
    begin_alone(script, settings, line)?;
    script.push(line)?;
    answer_line(world, rt, alloc, sink, script, settings, line)?;
    end_alone(world, rt, alloc, sink, script, settings, line)
}

// Does what a line says that begins with a point.
fn take_command<R: Threads + Wait + Sync + Files, K: Sink>(
    world: &mut World,
    rt: &R,
    alloc: Global,
    sink: &mut K,
    script: &mut Script,
    settings: &mut Settings,
    line: &[u8],
) -> Result<Then<R::File>, Halt>
    requires { IsWorld world.old }
    ensures { OnOk result (IsWorld world.new) }
{
    script.count_line()?;
    match command_of(line) {
        Ok(command) => {
            let then = obey(world, rt, alloc, sink, settings, script, command)?;
            Ok(then)
        }
        Err(why) => {
            put_refusal(sink, script, why.code(), "")?;
            Ok(Then::GoOn)
        }
    }
}

// Asks for a line, where a person types it, and passes on what was written, where the next line may be long in coming.
fn invite<I: Read + Drop, F: Read + Drop, K: Sink>(
    sink: &mut K,
    input: &Input<I, F>,
    settings: Settings,
) -> Result<(), Stop> {
    if settings.talks && input.is_standard {
        let prompt: &[u8] = if input.script.is_begun() {
            b"..> "
        } else {
            b"lt> "
        };
        sink.write(prompt)?;
    }
    if !input.is_at_hand() || settings.talks {
        sink.flush()?;
    }
    Ok(())
}

// Has a file read before the input that names it, where few enough are read.
fn read_before<I: Read + Drop, F: Read + Drop, K: Sink>(
    alloc: Global,
    inputs: &mut Vec<Input<I, F>>,
    sink: &mut K,
    input: Input<I, F>,
    file: F,
) -> Result<(), Stop> {
    if inputs.len() >= DEEPEST {
        put_refusal(sink, &input.script, 35, "")?;
        inputs.push(input)?;
        return Ok(());
    }
    put_line(sink, &[b"read"])?;
    inputs.push(input)?;
    push_input(alloc, inputs, Origin::File(file))?;
    Ok(())
}

// Goes on behind a line of this input. Whether the session does.
fn follow<I: Read + Drop, F: Read + Drop, K: Sink>(
    alloc: Global,
    inputs: &mut Vec<Input<I, F>>,
    sink: &mut K,
    input: Input<I, F>,
    then: Then<F>,
) -> Result<bool, Stop> {
    match then {
        Then::Quit => Ok(false),
        Then::GoOn => {
            inputs.push(input)?;
            Ok(true)
        }
        Then::Read(file) => {
            read_before(alloc, inputs, sink, input, file)?;
            Ok(true)
        }
    }
}

// Takes a line that was read.
fn take_read<R: Threads + Wait + Sync + Files + Clock, K: Sink>(
    world: &mut World,
    rt: &R,
    alloc: Global,
    sink: &mut K,
    settings: &mut Settings,
    script: &mut Script,
    line: &[u8],
) -> Result<Then<R::File>, Halt>
    requires { IsWorld world.old }
    ensures { OnOk result (IsWorld world.new) }
{
    if line.starts_with(b".") {
        let then = take_command(world, rt, alloc, sink, script, settings, line)?;
        return Ok(then);
    }
    take_line(world, rt, alloc, sink, script, *settings, line)?;
    Ok(Then::GoOn)
}

// Takes the next line of an input, and says how it goes on. None where the input is at its end.
fn take_from<R: Threads + Wait + Sync + Files + Clock, I: Read + Drop, K: Sink>(
    world: &mut World,
    rt: &R,
    alloc: Global,
    sink: &mut K,
    settings: &mut Settings,
    input: &mut Input<I, R::File>,
    line: &mut Vec<u8>,
) -> Result<Option<Then<R::File>>, Stop>
    requires { IsWorld world.old }
    ensures { OnOk result (IsWorld world.new) }
{
    invite(sink, input, *settings)?;
    let more = input.next_line(line)?;
    if !more {
        finish(world, rt, alloc, sink, &mut input.script, *settings)?;
        return Ok(None);
    }
    let then = take_read(world, rt, alloc, sink, settings, &mut input.script, line)?;
    Ok(Some(then))
}

// Takes the next line of the last input. Whether the session goes on.
fn take_next<R: Threads + Wait + Sync + Files + Clock, I: Read + Drop, K: Sink>(
    world: &mut World,
    rt: &R,
    alloc: Global,
    inputs: &mut Vec<Input<I, R::File>>,
    sink: &mut K,
    settings: &mut Settings,
    line: &mut Vec<u8>,
) -> Result<bool, Stop>
    requires { IsWorld world.old }
    ensures { OnOk result (IsWorld world.new) }
{
    let Some(mut input) = inputs.pop() else {
        return Ok(false);
    };
    let read = take_from(world, rt, alloc, sink, settings, &mut input, line)?;
    match read {
        Some(then) => follow(alloc, inputs, sink, input, then),
        None => Ok(true),
    }
}

/// Reads lines to their end, the last input first, and answers each item and each command.
pub fn converse<R: Threads + Wait + Sync + Files + Clock, I: Read + Drop, K: Sink>(
    world: &mut World,
    rt: &R,
    alloc: Global,
    inputs: &mut Vec<Input<I, R::File>>,
    sink: &mut K,
    settings: &mut Settings,
) -> Result<(), Stop>
    requires { IsWorld world.old }
{
    let mut line = Vec::new(alloc);
    'lines: for _ in 0..u64::MAX {
        let goes_on = take_next(world, rt, alloc, inputs, sink, settings, &mut line)?;
        if !goes_on {
            break;
        }
    }
    sink.flush()?;
    Ok(())
}
