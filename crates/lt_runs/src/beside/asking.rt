//! Readers that ask, and what they are answered.
ghost use Rattle.std.specs.Prelude.{◌≡◌, ◌≤◌, ◌<◌, [], length, map, IfOk, OnOk};
ghost use Rattle.std.specs.Arc.{arc_value};
ghost use Rattle.std.specs.List.{AllByRecursion};
ghost use denote.Param.Send.{IsSync};
ghost use mathlib.Core.List.{IsPrefix};
ghost use Rattle.lt_readers.specs.Boards.{reader_board, seen};
ghost use Rattle.lt_readers.specs.declared.reader.Reader.{Reader as ReaderType};
ghost use Rattle.lt_runs.specs.Asking.{HasAskedAs, HaveAsked, IsToAsk, WereAsked};
ghost use Rattle.lt_runs.specs.Reading.{HasAsked, IsAnswer, IsReady};
ghost use Rattle.lt_runs.specs.declared.beside.asking.Asker.{Asker as AskerType};

use lt_edges::Gate;
use lt_face::NoMemory;
use lt_model::reply::Reply;
use lt_query::Planned;
use lt_readers::Reader;
use std::alloc::Global;
use std::mem::replace;
use std::sync::{Arc, Wait};
use std::thread::{Threads, map_vec};

/// How often each reader asks.
const QUERIES: u32 = 16;

/// A reader with its number, and what it was answered: each reply with its version's number.
#[derive(Drop)]
pub struct Asker {
    pub number: u32,
    pub reader: Reader,
    pub answers: Vec<(u64, Reply)>,
}

// Asks once. The gate is passed first.
fn ask_once<R: Threads + Wait + Sync, G: Gate>(
    rt: &R,
    number: u32,
    reader: &mut Reader,
    asked: &Arc<Planned>,
    gate: &G,
) -> Result<(u64, Reply), NoMemory>
    requires number { number < 8 }
    requires ready { IsReady (arc_value asked.now) (seen reader.old) }
    ensures answer { IfOk result (λ answer. IsAnswer (arc_value asked.now) (seen reader.new) answer) }
    ensures begins { IsPrefix (seen reader.old) (seen reader.new) }
    ensures board { reader_board reader.new ≡ reader_board reader.old }
{
    gate.pass(rt, 16 + number, 4294967295 - number);
    let answer = reader.query(rt, asked)?;
    Ok(answer)
}

// Asks as often as each reader does.
fn ask<R: Threads + Wait + Sync, G: Gate>(
    rt: &R,
    number: u32,
    reader: &mut Reader,
    answers: &mut Vec<(u64, Reply)>,
    asked: &Arc<Planned>,
    gate: &G,
) -> Result<(), NoMemory>
    requires number { number < 8 }
    requires ready { HasAsked (arc_value asked.now) (reader_board reader.old) reader.old answers.old.items 0 }
    ensures { OnOk result (HasAsked (arc_value asked.now) (reader_board reader.old) reader.new answers.new.items 16) }
{
    for _turn in 0..QUERIES {
        let answer = ask_once(rt, number, reader, asked, gate)?;
        answers.push(answer)?;
    }
    Ok(())
}

// One reader asks.
fn ask_as<R: Threads + Wait + Sync, G: Gate>(
    rt: &R,
    asker: Asker,
    asked: &Arc<Planned>,
    gate: &G,
) -> Result<Asker, NoMemory>
    requires { IsToAsk (arc_value asked.now) asker }
    ensures { HasAskedAs (arc_value asked.now) asker result }
{
    let mut asker = asker;
    ask(
        rt,
        asker.number,
        &mut asker.reader,
        &mut asker.answers,
        asked,
        gate,
    )?;
    Ok(asker)
}

// The readers, numbered from 0 on.
fn askers_of(alloc: Global, readers: Vec<Reader>) -> Result<Vec<Asker>, NoMemory>
    requires few { length readers.items ≤ 8 }
    ensures numbers { IfOk result (λ askers. AllByRecursion (λ (asker : AskerType). asker.number < 8) askers.items) }
    ensures readers { IfOk result (λ askers. map (λ (asker : AskerType). asker.reader) askers.items ≡ readers.items) }
    ensures answers { IfOk result (λ askers. AllByRecursion (λ (asker : AskerType). asker.answers.items ≡ []) askers.items) }
{
    let mut askers = Vec::new(alloc);
    for reader in readers {
        let number = askers.len() as u32;
        let answers = Vec::new(alloc);
        askers.push(Asker {
            number,
            reader,
            answers,
        })?;
    }
    Ok(askers)
}

// All of them ask, each in a thread of its own.
fn ask_all<R: Threads + Wait + Sync, G: Gate>(
    rt: &R,
    askers: Vec<Asker>,
    asked: &Arc<Planned>,
    gate: &G,
) -> Result<Vec<Result<Asker, NoMemory>>, NoMemory>
    requires ready { AllByRecursion (IsToAsk (arc_value asked.now)) askers.items }
    ensures count { IfOk result (λ all. length all.items ≡ length askers.items) }
    ensures asked { IfOk result (λ all. HaveAsked (arc_value asked.now) askers.items all.items) }
{
    let ask = move |asker: Asker| -> Result<Asker, NoMemory>
        requires { IsSync R.row × IsToAsk (arc_value asked.now) asker }
        ensures { HasAskedAs (arc_value asked.entry.now) asker result }
    { ask_as(rt, asker, asked, gate) };
    let all = map_vec(rt, askers, &ask)?;
    Ok(all)
}

/// Takes the readers, of which each asks in a thread of its own.
pub fn queries<R: Threads + Wait + Sync, G: Gate>(
    rt: &R,
    alloc: Global,
    asked: &Arc<Planned>,
    gate: &G,
    readers: &mut Vec<Reader>,
) -> Result<Vec<Result<Asker, NoMemory>>, NoMemory>
    requires few { length readers.old.items ≤ 8 }
    requires ready { AllByRecursion (λ (r : ReaderType). IsReady (arc_value asked.now) (seen r)) readers.old.items }
    ensures { IfOk result (λ all. WereAsked (arc_value asked.now) readers.old.items all.items) }
{
    let readers = replace(readers, Vec::new(alloc));
    let askers = askers_of(alloc, readers)?;
    let all = ask_all(rt, askers, asked, gate)?;
    Ok(all)
}
