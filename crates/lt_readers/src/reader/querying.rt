//! What a reader does.
ghost use Rattle.std.specs.Prelude.{◌≡◌, ◌⊎◌, IfOk, IfSome, OnErr};
ghost use Rattle.std.specs.Arc.{arc_value};
ghost use mathlib.Core.List.{IsPrefix};
ghost use Rattle.lt_model.specs.Run.{run as run_of};
ghost use Rattle.lt_base.specs.Tables.{state_of};
ghost use Rattle.lt_program.specs.Run.{AreReplied};
ghost use Rattle.lt_readers.specs.Boards.{seen, reader_board, told, told_board, FitsFirst};
ghost use Rattle.lt_readers.specs.Lists.{EndsIn, IsHistory};

use super::Reader;
use crate::answering::answered;
use crate::front::Front;
use crate::pass::met;
use crate::told::Told;
use lt_base::Database;
use lt_face::memory::NoMemory;
use lt_program::Reply;
use lt_query::Planned;
use std::sync::Arc;
use std::thread::Threads;

impl Reader {
    /// The number of the last version that it has seen.
    pub fn seen(&self) -> u64
        ensures last { (v : _) × EndsIn (seen self.now) v × (result ≡ v.number) }
        ensures history { IsHistory (seen self.now) }
    {
        self.front.number()
    }

    /// Takes in what the poster told. One of the two lists begins the other, and the longer one is kept.
    pub fn learn(&mut self, news: Told)
        requires board { told_board news ≡ reader_board self.old }
        ensures seen { ((seen self.new ≡ told news) × IsPrefix (seen self.old) (told news)) ⊎ ((seen self.new ≡ seen self.old) × IsPrefix (told news) (seen self.old)) }
        ensures history { IsHistory (seen self.new) }
        ensures board { reader_board self.new ≡ reader_board self.old }
    {
        let Told { front } = news;
        if self.front.is_before(&front) {
            self.own = None;
            self.front = front;
        }
    }

    // What is shown, where the reader is let in and it is newer.
    fn newer(&mut self) -> Option<Front>
        ensures front { self.new.front ≡ self.old.front }
        ensures own { self.new.own ≡ self.old.own }
        ensures newer { IfSome result (λ front. (front.seen.book ≡ self.old.front.seen.book) × IsPrefix self.old.front.seen.log front.seen.log) }
    {
        let pass = self.pass.take()?;
        let (pass, front) = met(pass);
        self.pass = Some(pass);
        let front = front?;
        if self.front.is_before(&front) {
            return Some(front);
        }
        None
    }

    // The database that it holds.
    fn database(&self) -> &Database
        ensures { state_of result.now ≡ state_of (arc_value self.now.front.version).db }
    {
        match &self.own {
            Some(db) => db,
            None => self.front.database(),
        }
    }

    /// The reply of a program on the last version that was posted, or on the one that is held, where the reader isn't let in,
    /// with the version's number. The program's marks are dropped.
    pub fn query<R: Threads + Sync>(
        &mut self,
        rt: &R,
        prog: &Arc<Planned>,
    ) -> Result<(u64, Reply), NoMemory>
        requires fits { FitsFirst (seen self.old) (arc_value prog.now) }
        ensures reply { IfOk result (λ out. (v : _) × EndsIn (seen self.new) v × (out.0 ≡ v.number) × (out.1 ≡ (run_of (arc_value prog.now) (state_of v.db)).0)) }
        ensures printed { IfOk result (λ out. AreReplied out.1) }
        ensures begins { IsPrefix (seen self.old) (seen self.new) }
        ensures board { reader_board self.new ≡ reader_board self.old }
        ensures err { OnErr result (seen self.new ≡ seen self.old) }
    {
        match self.newer() {
            Some(front) => {
                let (db, reply) = answered(rt, front.database(), prog)?;
                let number = front.number();
                self.own = Some(db);
                self.front = front;
                Ok((number, reply))
            }
            None => {
                let (db, reply) = answered(rt, self.database(), prog)?;
                self.own = Some(db);
                Ok((self.front.number(), reply))
            }
        }
    }
}
