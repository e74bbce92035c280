//! What commands do.
ghost use Rattle.std.specs.Prelude.{OnOk};
ghost use Rattle.lt_world.specs.World.{IsWorld};

use crate::dump_check::{dump_of, put_dump};
use crate::explained::explain_line;
use crate::inserting::insert_rows;
use itoa::Buffer;
use lt_dump::inserts::Inserts;
use lt_dump::schema_text::declaration;
use lt_edges::{Sink, StdSink};
use lt_face::NoMemory;
use lt_input::commands::Command;
use lt_input::places::Spot;
use lt_input::script::Script;
use lt_input::words::HELP;
use lt_model::name::{LONGEST, Name};
use lt_report::put_line;
use lt_tables::table_rows::TableRows;
use lt_tables::tables::{TableError, export, rows_of};
use lt_telling::refusing::put_refusal;
use lt_telling::settings::Settings;
use lt_telling::telling::{put_error, put_number};
use lt_telling::text::put_text;
use lt_world::halt::Halt;
use lt_world::world::World;
use std::alloc::Global;
use std::fs;
use std::io::{BufWriter, Read, Write};
use std::rt::Files;
use std::sync::Wait;
use std::thread::Threads;

/// How it goes on behind a command.
#[derive(Drop)]
pub enum Then<F: Drop> {
    GoOn,
    /// This file is read before.
    Read(F),
    Quit,
}

// Tells an error of the line that was read last, and does nothing.
fn refuse<K: Sink>(sink: &mut K, script: &Script, code: u32, about: &str) -> Result<(), Halt> {
    put_refusal(sink, script, code, about)?;
    Ok(())
}

// The name of a relation that is there.
fn known(world: &World, alloc: Global, word: &str) -> Option<Name> {
    if word.is_empty() || word.len() > LONGEST {
        return None;
    }
    let name = Name::from_bytes(alloc, word.as_bytes());
    match world.schema.find(&name) {
        Some(_) => Some(name),
        None => None,
    }
}

// The declarations of all relations, or of one.
fn put_schema<K: Sink>(
    world: &World,
    alloc: Global,
    sink: &mut K,
    relation: Option<&Name>,
) -> Result<(), Halt> {
    let headings = world.schema.headings().as_slice();
    if relation.is_none() {
        put_number(sink, b"schema", headings.len() as u64)?;
    }
    for (name, kinds, keys) in headings {
        let wanted = match relation {
            Some(relation) => relation.as_bytes() == name.as_bytes(),
            None => true,
        };
        if wanted {
            let text = declaration(alloc, name, kinds, *keys)?;
            put_line(sink, &[&text])?;
        }
    }
    Ok(())
}

fn schema<K: Sink>(
    world: &World,
    alloc: Global,
    sink: &mut K,
    script: &Script,
    relation: Option<&str>,
) -> Result<(), Halt> {
    let Some(word) = relation else {
        return put_schema(world, alloc, sink, None);
    };
    match known(world, alloc, word) {
        Some(name) => put_schema(world, alloc, sink, Some(&name)),
        None => refuse(sink, script, 20, word),
    }
}

// Writes a text to a file; whether it could be written.
fn write_text<W: Write + Drop>(alloc: Global, file: W, text: &[u8]) -> Result<bool, NoMemory> {
    let Ok(writer) = BufWriter::new(alloc, file) else {
        return Err(NoMemory);
    };
    let mut out = StdSink::new(writer);
    if put_text(&mut out, text).is_err() {
        return Ok(false);
    }
    Ok(out.flush().is_ok())
}

// Writes the state where answers go.
fn dump_here<R: Threads + Wait + Sync, K: Sink>(
    world: &World,
    rt: &R,
    alloc: Global,
    sink: &mut K,
    script: &Script,
) -> Result<(), Halt> {
    let count = put_dump(world, rt, alloc, sink)?;
    if count.is_none() {
        return refuse(sink, script, 36, "");
    }
    put_line(sink, &[b"# the end of the dump"])?;
    Ok(())
}

// Writes a dump to a file.
fn write_dump<R: Files, K: Sink>(
    rt: &R,
    alloc: Global,
    sink: &mut K,
    script: &Script,
    path: &str,
    dump: &Inserts,
) -> Result<(), Halt> {
    let Ok(opened) = fs::create(rt, path) else {
        return refuse(sink, script, 33, path);
    };
    let written = write_text(alloc, opened, &dump.text)?;
    if !written {
        return refuse(sink, script, 33, path);
    }
    put_number(sink, b"dump", dump.count)?;
    Ok(())
}

// Writes the state to a file, or where answers go.
fn dump<R: Threads + Wait + Sync + Files, K: Sink>(
    world: &World,
    rt: &R,
    alloc: Global,
    sink: &mut K,
    script: &Script,
    file: Option<&str>,
) -> Result<(), Halt> {
    let Some(path) = file else {
        return dump_here(world, rt, alloc, sink, script);
    };
    let dump = dump_of(world, rt, alloc)?;
    match dump {
        Some(dump) => write_dump(rt, alloc, sink, script, path, &dump),
        None => refuse(sink, script, 36, path),
    }
}

// Tells how many rows of a relation were read or written.
fn put_count<K: Sink>(sink: &mut K, word: &[u8], relation: &[u8], count: u64) -> Result<(), Halt> {
    let mut buffer = Buffer::new();
    let count = buffer.format(count).as_bytes();
    put_line(sink, &[word, relation, count])?;
    Ok(())
}

// Tells why rows weren't read or written: the file has this code, or some cells don't fit.
fn put_table_error<K: Sink>(
    sink: &mut K,
    script: &Script,
    code: u32,
    path: &str,
    error: TableError,
) -> Result<(), Halt> {
    match error {
        TableError::NoMemory => Err(Halt::NoMemory),
        TableError::File => refuse(sink, script, code, path),
        TableError::Cells(told) => {
            let spot = Spot {
                line: script.line(),
                column: 1,
                code: 34,
            };
            put_error(sink, spot, &told)?;
            Ok(())
        }
    }
}

// The rows of a file, for a relation that is there.
fn file_rows<F: Read + Drop>(
    world: &World,
    alloc: Global,
    file: F,
    name: &Name,
) -> Result<TableRows, TableError> {
    let kinds = world.schema.columns(name);
    rows_of(alloc, file, kinds, world.schema.keys(name))
}

// Inserts rows into a relation that is there.
fn import_rows<R: Threads + Wait + Sync, K: Sink>(
    world: &mut World,
    rt: &R,
    alloc: Global,
    sink: &mut K,
    name: &Name,
    rows: &TableRows,
    workers: u32,
) -> Result<(), Halt>
    requires { IsWorld world.old }
    ensures { OnOk result (IsWorld world.new) }
{
    insert_rows(world, rt, alloc, name, rows, workers)?;
    put_count(sink, b"import", name.as_bytes(), rows.len() as u64)
}

fn import_file<R: Threads + Wait + Sync + Files, K: Sink>(
    world: &mut World,
    rt: &R,
    alloc: Global,
    sink: &mut K,
    script: &Script,
    settings: Settings,
    path: &str,
    relation: &str,
) -> Result<(), Halt>
    requires { IsWorld world.old }
    ensures { OnOk result (IsWorld world.new) }
{
    let Some(name) = known(world, alloc, relation) else {
        return refuse(sink, script, 20, relation);
    };
    let Ok(file) = fs::open(rt, path) else {
        return refuse(sink, script, 32, path);
    };
    match file_rows(world, alloc, file, &name) {
        Ok(rows) => import_rows(world, rt, alloc, sink, &name, &rows, settings.workers),
        Err(error) => put_table_error(sink, script, 32, path, error),
    }
}

// Writes the rows of a relation that is there to a file; how many there are.
fn write_rows<W: Write + Drop>(
    world: &World,
    alloc: Global,
    file: W,
    name: &Name,
) -> Result<u64, TableError> {
    let kinds = world.schema.columns(name);
    let Some(number) = world.schema.find(name) else {
        return Ok(0);
    };
    match world.database.rows(number) {
        Some(rows) => export(alloc, file, kinds, rows),
        None => Ok(0),
    }
}

fn export_file<R: Files, K: Sink>(
    world: &World,
    rt: &R,
    alloc: Global,
    sink: &mut K,
    script: &Script,
    relation: &str,
    path: &str,
) -> Result<(), Halt> {
    let Some(name) = known(world, alloc, relation) else {
        return refuse(sink, script, 20, relation);
    };
    let Ok(file) = fs::create(rt, path) else {
        return refuse(sink, script, 33, path);
    };
    match write_rows(world, alloc, file, &name) {
        Ok(count) => put_count(sink, b"export", name.as_bytes(), count),
        Err(error) => put_table_error(sink, script, 33, path, error),
    }
}

// Gives up the versions that were made.
fn forget<K: Sink>(world: &mut World, alloc: Global, sink: &mut K) -> Result<(), Halt>
    requires { IsWorld world.old }
    ensures { OnOk result (IsWorld world.new) }
{
    world.forget_versions(alloc)?;
    put_line(sink, &[b"forget"])?;
    Ok(())
}

// Opens a file that is to be read before.
fn read<R: Files, K: Sink>(
    rt: &R,
    sink: &mut K,
    script: &Script,
    path: &str,
) -> Result<Then<R::File>, Halt> {
    match fs::open(rt, path) {
        Ok(opened) => Ok(Then::Read(opened)),
        Err(_) => {
            put_refusal(sink, script, 32, path)?;
            Ok(Then::GoOn)
        }
    }
}

fn help<K: Sink>(sink: &mut K) -> Result<(), Halt> {
    put_line(sink, &[HELP.as_bytes()])?;
    Ok(())
}

fn set_time<K: Sink>(sink: &mut K, settings: &mut Settings, on: bool) -> Result<(), Halt> {
    settings.timed = on;
    let word: &[u8] = if on { b"on" } else { b"off" };
    put_line(sink, &[b"time", word])?;
    Ok(())
}

fn set_workers<K: Sink>(sink: &mut K, settings: &mut Settings, count: u32) -> Result<(), Halt> {
    settings.workers = count;
    put_number(sink, b"workers", count as u64)?;
    Ok(())
}

fn cancel<K: Sink>(alloc: Global, sink: &mut K, script: &mut Script) -> Result<(), Halt> {
    script.give_up(alloc, false);
    put_line(sink, &[b"cancel"])?;
    Ok(())
}

// Does what a command says that only asks, or changes how the console answers.
fn obey_asking<R: Threads + Wait + Sync + Files, K: Sink>(
    world: &World,
    rt: &R,
    alloc: Global,
    sink: &mut K,
    settings: &mut Settings,
    script: &mut Script,
    command: Command<'_>,
) -> Result<(), Halt> {
    match command {
        Command::Help => help(sink),
        Command::Schema { relation } => schema(world, alloc, sink, script, relation),
        Command::Export { relation, file } => {
            export_file(world, rt, alloc, sink, script, relation, file)
        }
        Command::Dump { file } => dump(world, rt, alloc, sink, script, file),
        Command::Explain { text, column } => {
            explain_line(world, alloc, sink, script, text.as_bytes(), column)
        }
        Command::Time { on } => set_time(sink, settings, on),
        Command::Workers { count } => set_workers(sink, settings, count),
        Command::Cancel => cancel(alloc, sink, script),
        _ => Ok(()),
    }
}

// Does what a command says that reads no script.
fn obey_here<R: Threads + Wait + Sync + Files, K: Sink>(
    world: &mut World,
    rt: &R,
    alloc: Global,
    sink: &mut K,
    settings: &mut Settings,
    script: &mut Script,
    command: Command<'_>,
) -> Result<(), Halt>
    requires { IsWorld world.old }
    ensures { OnOk result (IsWorld world.new) }
{
    match command {
        Command::Import { file, relation } => {
            import_file(world, rt, alloc, sink, script, *settings, file, relation)
        }
        Command::Forget => forget(world, alloc, sink),
        command => obey_asking(world, rt, alloc, sink, settings, script, command),
    }
}

/// Does what a command says, and answers it by a line at least.
pub fn obey<R: Threads + Wait + Sync + Files, K: Sink>(
    world: &mut World,
    rt: &R,
    alloc: Global,
    sink: &mut K,
    settings: &mut Settings,
    script: &mut Script,
    command: Command<'_>,
) -> Result<Then<R::File>, Halt>
    requires { IsWorld world.old }
    ensures { OnOk result (IsWorld world.new) }
{
    match command {
        Command::Quit => Ok(Then::Quit),
        Command::Read { file } => {
            let then = read(rt, sink, script, file)?;
            Ok(then)
        }
        command => {
            obey_here(world, rt, alloc, sink, settings, script, command)?;
            Ok(Then::GoOn)
        }
    }
}
