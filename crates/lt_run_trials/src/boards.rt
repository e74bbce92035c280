//! A board's own calls: its readers answer what was posted, also one that learnt nothing of it.
ghost use Rattle.std.specs.Prelude.{◌≡◌, IfOk};
ghost use Rattle.std.specs.Arc.{arc_value};
ghost use Rattle.std.specs.List.{AllByRecursion};
ghost use Rattle.lt_base.specs.Tables.{state_of};
ghost use Rattle.lt_readers.specs.Boards.{posted, poster_board, reader_board, seen};
ghost use Rattle.lt_readers.specs.declared.reader.Reader.{Reader as ReaderType};
ghost use Rattle.lt_run_trials.specs.Fitting.{AreBoth, FitsBoth};
ghost use Rattle.lt_run_trials.specs.Opening.{BeginsWithBoth, IsOpening};

use crate::agree::holds;
use crate::comparing::is_print;
use crate::texts::{program, routed, stocked};
use lt_base::Database;
use lt_face::memory::NoMemory;
use lt_query::Planned;
use lt_readers::{Board, Poster, Reader};
use std::alloc::Global;
use std::sync::{Arc, Wait};
use std::thread::Threads;

/// Whether a reader prints these ints, which stand in the version of this number, and has seen that.
fn prints<R: Threads + Sync>(
    rt: &R,
    alloc: Global,
    reader: &mut Reader,
    query: &Arc<Planned>,
    number: u64,
    ints: &[i64],
) -> Result<bool, NoMemory>
    requires begins { BeginsWithBoth (seen reader.old) }
    requires fits { FitsBoth (arc_value query.now) }
    ensures begins { BeginsWithBoth (seen reader.new) }
    ensures board { reader_board reader.new ≡ reader_board reader.old }
{
    let (at, reply) = reader.query(rt, query)?;
    Ok(at == number && reader.seen() == number && is_print(alloc, &reply, ints))
}

/// Whether the database is posted under this number.
fn is_posted<R: Wait>(
    rt: &R,
    poster: &mut Poster,
    db: &Database,
    number: u64,
) -> Result<bool, NoMemory>
    requires opening { IsOpening (posted poster.old) }
    requires both { AreBoth (state_of db.now) }
    ensures begins { BeginsWithBoth (posted poster.new) }
    ensures board { poster_board poster.new ≡ poster_board poster.old }
{
    let at = poster.post(rt, db)?;
    Ok(at == number)
}

/// A reader learns what was posted.
fn teach(poster: &mut Poster, reader: &mut Reader) -> Result<(), NoMemory>
    requires posted { BeginsWithBoth (posted poster.old) }
    requires begins { BeginsWithBoth (seen reader.old) }
    requires board { reader_board reader.old ≡ poster_board poster.old }
    ensures begins { BeginsWithBoth (seen reader.new) }
{
    let told = poster.told()?;
    reader.learn(told);
    Ok(())
}

/// Whether the first reader prints 1, then more is posted, and each of them prints 1 and 2: the first when it has learnt that, the
/// second by its query alone.
fn follow<R: Threads + Wait + Sync>(
    rt: &R,
    alloc: Global,
    poster: &mut Poster,
    first: &mut Reader,
    second: &mut Reader,
    more: &Database,
    query: &Arc<Planned>,
) -> Result<bool, NoMemory>
    requires opening { IsOpening (posted poster.old) }
    requires first { (seen first.old ≡ posted poster.old) × (reader_board first.old ≡ poster_board poster.old) }
    requires second { (seen second.old ≡ posted poster.old) × (reader_board second.old ≡ poster_board poster.old) }
    requires both { AreBoth (state_of more.now) }
    requires fits { FitsBoth (arc_value query.now) }
{
    let before = prints(rt, alloc, first, query, 1, &[1])?;
    let posted = is_posted(rt, poster, more, 2)?;
    teach(poster, first)?;
    let learnt = prints(rt, alloc, first, query, 2, &[1, 2])?;
    let asked = prints(rt, alloc, second, query, 2, &[1, 2])?;
    Ok(before && posted && learnt && asked)
}

/// Whether two readers follow their board.
fn readers_follow<R: Threads + Wait + Sync>(
    rt: &R,
    alloc: Global,
    poster: &mut Poster,
    readers: Vec<Reader>,
    more: &Database,
    query: &Arc<Planned>,
) -> Result<bool, NoMemory>
    requires opening { IsOpening (posted poster.old) }
    requires seen { AllByRecursion (λ (r : ReaderType). (seen r ≡ posted poster.old) × (reader_board r ≡ poster_board poster.old)) readers.items }
    requires both { AreBoth (state_of more.now) }
    requires fits { FitsBoth (arc_value query.now) }
{
    let mut readers = readers;
    let Some(mut second) = readers.pop() else {
        return Ok(false);
    };
    let Some(mut first) = readers.pop() else {
        return Ok(false);
    };
    follow(rt, alloc, poster, &mut first, &mut second, more, query)
}

/// The relations with 1 in r, and what readers ask of them.
fn asked<R: Threads + Sync>(rt: &R, alloc: Global) -> Result<(Database, Arc<Planned>), NoMemory>
    ensures both { IfOk result (λ out. AreBoth (state_of out.0)) }
    ensures fits { IfOk result (λ out. FitsBoth (arc_value out.1)) }
{
    let base = stocked(rt, alloc, "insert r(1);")?;
    let prog = program(alloc, "print (x) where r(x);")?;
    let query = routed(alloc, &base, prog)?;
    Ok((base, query))
}

/// Whether the readers of a board that begins with 1 in r follow it.
fn board_is_followed<R: Threads + Wait + Sync>(rt: &R, alloc: Global) -> Result<bool, NoMemory> {
    let (base, query) = asked(rt, alloc)?;
    let more = stocked(rt, alloc, "insert r(1); insert r(2);")?;
    let (mut poster, readers) = Board::start(rt, alloc, 1, 2, &base, 2)?;
    let followed = readers_follow(rt, alloc, &mut poster, readers, &more, &query);
    poster.close(rt);
    followed
}

#[test]
fn readers_answer_what_was_posted(rt: HostRuntime) -> Result<(), NoMemory> {
    holds(&rt, board_is_followed(&rt, rt.alloc())?);
    Ok(())
}

/// Whether the last of the readers prints 1.
fn last_prints<R: Threads + Sync>(
    rt: &R,
    alloc: Global,
    readers: Vec<Reader>,
    query: &Arc<Planned>,
) -> Result<bool, NoMemory>
    requires begin { AllByRecursion (λ (r : ReaderType). BeginsWithBoth (seen r)) readers.items }
    requires fits { FitsBoth (arc_value query.now) }
{
    let mut readers = readers;
    let Some(mut last) = readers.pop() else {
        return Ok(false);
    };
    prints(rt, alloc, &mut last, query, 1, &[1])
}

/// Whether the reader of a board with 1 in r prints that when the board has ended.
fn print_stays<R: Threads + Wait + Sync>(rt: &R, alloc: Global) -> Result<bool, NoMemory> {
    let (base, query) = asked(rt, alloc)?;
    let (poster, readers) = Board::start(rt, alloc, 1, 1, &base, 1)?;
    poster.close(rt);
    last_prints(rt, alloc, readers, &query)
}

#[test]
fn a_reader_answers_behind_the_end(rt: HostRuntime) -> Result<(), NoMemory> {
    holds(&rt, print_stays(&rt, rt.alloc())?);
    Ok(())
}
