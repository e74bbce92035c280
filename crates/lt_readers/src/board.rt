//! A board: a poster and its readers.
ghost use Rattle.std.specs.Prelude.{◌≡◌, ◌<◌, ◌≤◌, [], ◌∷◌, length, IfOk, IfSome};
ghost use Rattle.std.specs.Arc.{arc_value};
ghost use Rattle.std.specs.List.{AllByRecursion};
ghost use Rattle.left_right.specs.Sides.{view};
ghost use Rattle.lt_readers.specs.Boards.{posted, poster_board, seen, reader_board};
ghost use Rattle.lt_readers.specs.History.{head_of};
ghost use Rattle.lt_readers.specs.Passes.{Knows};

use crate::front::Front;
use crate::history::{Begin, History};
use crate::pass::{Desk, Names, Pass};
use crate::poster::{Poster, append, show};
use crate::reader::Reader;
use crate::told::Told;
use crate::version::Version;
use left_right::writer::Writer;
use logbook::{Seen, Start, Word};
use lt_base::Database;
use lt_face::memory::NoMemory;
use std::alloc::Global;
use std::sync::{Arc, Wait};

/// Where a poster and its readers begin.
pub struct Board;

// The history that begins with this version, and its word.
fn begun(version: Arc<Version>) -> (Word<Version, u64, History>, Front)
    requires { (arc_value version).number ≤ (arc_value version).most }
    ensures log { result.1.seen.log ≡ arc_value version ∷ [] }
    ensures head { result.0 ≡ head_of result.1.seen.book }
{
    let first: &Version = &version;
    let (seen, mut pens) = Seen::open_row::<Version, Begin>(first, Start::alone(), 1);
    let mut pen = pens.take();
    let head = Word::tracked(0, &mut pen);
    (head, Front { version, seen })
}

// A place for a reader, where one is made.
fn admitted(desk: &mut Desk) -> Option<Pass>
    ensures shown { desk.new.desk.shown ≡ desk.old.desk.shown }
    ensures view { view desk.new.desk.place ≡ view desk.old.desk.place }
    ensures pass { IfSome result (λ pass. view pass.place ≡ view desk.old.desk.place) }
{
    let mut pass = desk.factory().reader().ok()?;
    pass.learn::<Names>(desk.tell::<Names>());
    Some(pass)
}

// The two copies, of which one was shown, so that it is known of which history they tell.
fn laid<R: Wait>(rt: &R, alloc: Global, front: &Front, readers: u32) -> Result<Desk, NoMemory>
    requires { 1 ≤ readers }
    ensures shown { IfOk result (λ desk. desk.desk.shown.value.seen ≡ front.now.seen) }
    ensures knows { IfOk result (λ desk. Knows (view desk.desk.place) front.now.seen.book) }
{
    let first = front.again()?;
    let second = front.again()?;
    let next = front.again()?;
    let mut desk: Desk = Writer::new(alloc, first, second, readers as usize)?;
    append(rt, &mut desk, next);
    Ok(show(rt, desk, front))
}

// A reader that has seen the front.
fn reader_on(desk: &mut Desk, front: &Front) -> Result<Reader, NoMemory>
    requires { Knows (view desk.old.desk.place) front.now.seen.book }
    ensures shown { desk.new.desk.shown ≡ desk.old.desk.shown }
    ensures view { view desk.new.desk.place ≡ view desk.old.desk.place }
    ensures seen { IfOk result (λ r. seen r ≡ front.now.seen.log) }
    ensures board { IfOk result (λ r. reader_board r ≡ front.now.seen.book) }
{
    let front = front.again()?;
    let pass = admitted(desk);
    Ok(Reader {
        pass,
        front,
        own: None,
    })
}

// So many readers.
fn readers_on(
    desk: &mut Desk,
    alloc: Global,
    front: &Front,
    readers: u32,
) -> Result<Vec<Reader>, NoMemory>
    requires { Knows (view desk.old.desk.place) front.now.seen.book }
    ensures shown { desk.new.desk.shown ≡ desk.old.desk.shown }
    ensures count { IfOk result (λ all. length all.items ≡ readers) }
    ensures each { IfOk result (λ all. AllByRecursion (λ (r : _). (seen r ≡ front.now.seen.log) × (reader_board r ≡ front.now.seen.book)) all.items) }
{
    let mut all = Vec::new(alloc);
    for _place in 0..readers {
        let reader = reader_on(desk, front)?;
        all.push(reader)?;
    }
    Ok(all)
}

impl Board {
    /// A poster that has posted the database under this number, and will post none above `most`; and so many readers, which
    /// have seen that.
    pub fn start<R: Wait>(
        rt: &R,
        alloc: Global,
        number: u64,
        most: u64,
        db: &Database,
        readers: u32,
    ) -> Result<(Poster, Vec<Reader>), NoMemory>
        requires bound { number ≤ most }
        requires readers { (1 ≤ readers) × (readers ≤ 8) }
        ensures posted { IfOk result (λ board. posted board.0 ≡ record { number = number; most = most; db = db.now } ∷ []) }
        ensures count { IfOk result (λ board. length board.1.items ≡ readers) }
        ensures seen { IfOk result (λ board. AllByRecursion (λ (r : _). (seen r ≡ posted board.0) × (reader_board r ≡ poster_board board.0)) board.1.items) }
    {
        let version = Version {
            number,
            most,
            db: db.share()?,
        };
        let version = Arc::new(alloc, version)?;
        let (head, front) = begun(version);
        let mut desk = laid(rt, alloc, &front, readers)?;
        match readers_on(&mut desk, alloc, &front, readers) {
            Ok(all) => {
                let poster = Poster {
                    alloc,
                    desk,
                    front,
                    posts: 0,
                    head,
                };
                Ok((poster, all))
            }
            Err(NoMemory) => {
                desk.take(rt);
                Err(NoMemory)
            }
        }
    }
}

// What may be handed to another thread.
fn hand<T: Send>(_value: &T) {}

// A poster, what it told and a reader may each go to another thread.
fn hand_all(poster: &Poster, told: &Told, reader: &Reader) {
    hand(poster);
    hand(told);
    hand(reader);
}
