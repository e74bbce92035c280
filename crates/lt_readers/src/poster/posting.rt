//! What the poster does.
ghost use Rattle.std.specs.Prelude.{◌≡◌, ◌<◌, ◌+◌, ◌^◌, [], ◌∷◌, ◌++◌, length, suc, IfOk, IfSome, OnErr, OnOk};
ghost use Rattle.std.specs.Arc.{arc_value};
ghost use Rattle.lt_base.specs.Tables.{state_of};
ghost use Rattle.lt_readers.specs.Boards.{posted, poster_board, told, told_board};
ghost use Rattle.lt_readers.specs.History.{head_of};
ghost use Rattle.lt_readers.specs.Lists.{EndsIn, HasRelations, IsHistory, MayFollow};

use super::{Poster, append, show};
use crate::front::Front;
use crate::history::{Add, History, Nothing};
use crate::told::Told;
use crate::version::Version;
use core::mem::replace_with;
use logbook::{Offer, Seen, Word};
use lt_base::Database;
use lt_face::memory::NoMemory;
use std::sync::{Arc, Wait};

// Adds a version to the history. None where the history is longer than was seen, which no one makes it.
fn extended(
    head: &Word<Version, u64, History>,
    posts: u64,
    front: &Front,
    version: &Version,
) -> Option<Seen<Version, u64, History>>
    requires head { head.now ≡ head_of front.now.seen.book }
    requires counted { length front.now.seen.log ≡ suc posts }
    requires room { posts + 1 < 2 ^ 64 }
    requires follows { MayFollow front.now.seen.log version.now }
    ensures book { IfSome result (λ seen. seen.book ≡ front.now.seen.book) }
    ensures log { IfSome result (λ seen. seen.log ≡ front.now.seen.log ++ version.now ∷ []) }
    ensures last { IfSome result (λ seen. EndsIn seen.log version.now) }
    ensures legal { IfSome result (λ seen. IsHistory seen.log) }
{
    let mut seen = front.seen.again();
    let mut offer: Offer<Version, u64, History, Nothing> = seen.plain::<Nothing, Version, Add>(
        version,
    );
    let mut pen = seen.no_pen();
    let found = head.compare_exchange::<Add, Nothing>(
        posts,
        posts + 1,
        &mut seen,
        &mut offer,
        &mut pen,
    );
    if found == posts {
        return Some(seen);
    }
    None
}

// The front that ends in a version.
fn front_of(version: Arc<Version>, seen: &Seen<Version, u64, History>) -> Front
    requires last { EndsIn seen.now.log (arc_value version) }
    requires legal { IsHistory seen.now.log }
    ensures { result.seen ≡ seen.now }
{
    Front {
        version,
        seen: seen.again(),
    }
}

// The next number.
fn next_number(number: u64, most: u64) -> u64
    requires { number < most }
    ensures { result ≡ number + 1 }
{
    number + 1
}

impl Poster {
    // The version that a database is posted as.
    fn next(&self, db: &Database) -> Result<Arc<Version>, NoMemory>
        requires room { (v : _) → EndsIn (posted self.now) v → v.number < v.most }
        requires relations { (v : _) → EndsIn (posted self.now) v → HasRelations (state_of v.db) (state_of db.now) }
        ensures is { IfOk result (λ version. arc_value version ≡ record { number = (arc_value self.now.front.version).number + 1; most = (arc_value self.now.front.version).most; db = db.now }) }
        ensures follows { IfOk result (λ version. MayFollow (posted self.now) (arc_value version)) }
    {
        let last: &Version = &self.front.version;
        let most = last.most;
        let number = next_number(last.number, most);
        let db = db.share()?;
        let version = Version { number, most, db };
        let version = Arc::new(self.alloc, version)?;
        Ok(version)
    }

    // Posts a version, of which there are two owners.
    fn with<R: Wait>(
        self,
        rt: &R,
        number: u64,
        version: Arc<Version>,
        shown: Arc<Version>,
    ) -> (Poster, Result<u64, NoMemory>)
        requires number { number ≡ (arc_value version).number }
        requires same { arc_value shown ≡ arc_value version }
        requires follows { MayFollow (posted self) (arc_value version) }
        ensures ok { OnOk result.1 (posted result.0 ≡ posted self ++ arc_value version ∷ []) }
        ensures number { IfOk result.1 (λ number. number ≡ (arc_value version).number) }
        ensures err { OnErr result.1 (posted result.0 ≡ posted self) }
        ensures board { poster_board result.0 ≡ poster_board self }
    {
        let Poster {
            alloc,
            mut desk,
            front,
            posts,
            head,
        } = self;
        let Some(seen) = extended(&head, posts, &front, &version) else {
            let same = Poster {
                alloc,
                desk,
                front,
                posts,
                head,
            };
            return (same, Err(NoMemory));
        };
        let shown = front_of(shown, &seen);
        let front = front_of(version, &seen);
        append(rt, &mut desk, shown);
        let desk = show(rt, desk, &front);
        let poster = Poster {
            alloc,
            desk,
            front,
            posts: posts + 1,
            head,
        };
        (poster, Ok(number))
    }

    /// Posts a database under the next number, and answers that. It waits for readers that are still at the copy from before
    /// the last post. After want of memory nothing was posted.
    pub fn post<R: Wait>(&mut self, rt: &R, db: &Database) -> Result<u64, NoMemory>
        requires room { (v : _) → EndsIn (posted self.old) v → v.number < v.most }
        requires relations { (v : _) → EndsIn (posted self.old) v → HasRelations (state_of v.db) (state_of db.now) }
        ensures ok { IfOk result (λ number. (v : _) → EndsIn (posted self.old) v → (number ≡ v.number + 1) × (posted self.new ≡ posted self.old ++ record { number = number; most = v.most; db = db.now } ∷ [])) }
        ensures err { OnErr result (posted self.new ≡ posted self.old) }
        ensures board { poster_board self.new ≡ poster_board self.old }
    {
        let version = self.next(db)?;
        let shown = version.clone()?;
        let number = version.number;
        replace_with(
            self,
            rt,
            |poster, rt| poster.with(rt, number, version, shown),
        )
    }

    /// The number of the last version that was posted.
    pub fn number(&self) -> u64
        ensures last { (v : _) × EndsIn (posted self.now) v × (result ≡ v.number) }
        ensures history { IsHistory (posted self.now) }
    {
        self.front.number()
    }

    /// What was posted until now, for a reader to learn.
    pub fn told(&mut self) -> Result<Told, NoMemory>
        ensures told { IfOk result (λ t. (told t ≡ posted self.old) × (told_board t ≡ poster_board self.old)) }
        ensures kept { self.new ≡ self.old }
    {
        let front = self.front.again()?;
        Ok(Told { front })
    }

    /// Ends the board. It waits for readers that are still at a copy; afterwards readers answer on the shares that they hold.
    pub fn close<R: Wait>(self, rt: &R) {
        let Poster {
            alloc: _,
            desk,
            front: _,
            posts: _,
            head: _,
        } = self;
        desk.take(rt);
    }
}
