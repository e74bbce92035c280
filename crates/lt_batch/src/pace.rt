//! How dear programs show to be, and how well what was run ahead stands. It chooses what is run ahead; no clause speaks of it.
ghost use Rattle.std.specs.Prelude.{◌≤◌};

use crate::rest::Rest;
use crate::round::{ROUND, Round, round_of};
use lt_face::memory::NoMemory;
use lt_query::Planned;
use std::alloc::Global;
use std::sync::Arc;
use std::thread::{Threads, available_parallelism};

/// A thread is worth so many moves, which take some three times as long as to make it.
const WORTH: u64 = 8192;

/// A row that is written when a run is taken costs about as much as so many moves, as it was written ahead, too.
const ROW: u64 = 64;

/// Of so many programs the mean is at most: then both sums are halved, so that what was long ago counts less and less.
const FORGOTTEN: u64 = 32;

/// So many runs ahead for each thread are enough, and more where they are cheap.
const EACH: u64 = 2;

/// Behind a round that wasn't worth it so many times as many programs go in order.
const FOR_LOSS: usize = 4;

/// A kept run takes several times the time of another, so that it pays from so many threads on.
const KEEPERS: usize = 16;

/// What is known of the programs of late. `programs` and `moves`: how many were run, and how many moves they took beside what their rows
/// cost that were written. `times`: how many times as long as it must be the next round may be. `spared` and `stood`: how many moves the
/// runs of this round took that stood, and how many these were. `unseen`: programs that go in order before the next look. `tries`: how many
/// runs that may be touched the next round has, and `untried`: programs that go by before one has any. `worth`: how many moves a thread is
/// worth. `processors`: how many there are, or 0 where that wasn't asked yet.
#[derive(Clone, Copy)]
pub struct Pace {
    programs: u64,
    moves: u64,
    times: usize,
    spared: u64,
    stood: usize,
    unseen: Rest,
    tries: usize,
    untried: Rest,
    worth: u64,
    processors: usize,
}

impl Pace {
    /// Nothing is known yet.
    pub fn start() -> Pace {
        Pace::start_on(0, WORTH)
    }

    /// The same where so many processors are said to be, and a thread to be worth so many moves. With 0 the processors are asked for.
    pub fn start_on(processors: usize, worth: u64) -> Pace {
        Pace {
            programs: 0,
            moves: 0,
            times: 1,
            spared: 0,
            stood: 0,
            unseen: Rest::none(),
            tries: 1,
            untried: Rest::none(),
            worth,
            processors,
        }
    }

    /// One more program was run. Of one that was run ahead it is known how many rows it wrote.
    pub(crate) fn count(&mut self, moves: u64, rows: usize) {
        if self.programs >= FORGOTTEN {
            self.programs /= 2;
            self.moves /= 2;
        }
        self.programs = self.programs.saturating_add(1);
        self.moves = self.moves.saturating_add(spared_by(moves, rows));
        self.unseen.pass();
        self.untried.pass();
    }

    /// That was a run that was made ahead and stood at its turn.
    pub(crate) fn note(&mut self, moves: u64, rows: usize) {
        self.stood = self.stood.saturating_add(1);
        self.spared = self.spared.saturating_add(spared_by(moves, rows));
    }

    /// How many threads so many programs are worth.
    fn threads(self, programs: usize, at_most: usize) -> usize {
        let moves = self.moves.saturating_mul(programs as u64) / self.programs.max(1);
        let worth = (moves / self.worth.max(1)) as usize;
        worth.min(programs).min(at_most)
    }

    /// How many runs ahead so many threads are worth.
    fn enough(self, threads: usize) -> usize {
        let each = self.worth.saturating_mul(self.programs) / self.moves.max(1);
        threads.saturating_mul(each.max(EACH) as usize)
    }

    /// How many processors there are, which is asked once.
    fn told<R: Threads>(&mut self, rt: &R) -> usize {
        if self.processors == 0 {
            self.processors = match available_parallelism(rt) {
                Ok(count) => count.get(),
                Err(_) => usize::MAX,
            };
        }
        self.processors
    }

    /// As many as workers, or as processors, if these are fewer.
    pub(crate) fn at_most<R: Threads>(&mut self, rt: &R, workers: u32) -> u32
        requires { 1 ≤ workers }
        ensures { (1 ≤ result) × (result ≤ workers) }
    {
        let processors = self.told(rt);
        if processors >= workers as usize {
            return workers;
        }
        (processors as u32).max(1)
    }

    /// Which of the next programs are run ahead, and by how many threads: by fewer than two where it isn't worth it. Then as many programs
    /// as were looked at go in order.
    pub(crate) fn next_round<R: Threads>(
        &mut self,
        rt: &R,
        alloc: Global,
        progs: &[Arc<Planned>],
        workers: u32,
    ) -> Result<Round, NoMemory> {
        let count = progs.len().min(ROUND);
        if workers < 2 || !self.unseen.is_over() || self.threads(count, workers as usize) < 2 {
            return Ok(Round::none(alloc));
        }
        let workers = self.at_most(rt, workers) as usize;
        let enough = self.enough(workers.min(self.times.saturating_mul(2)));
        let count = count.min(enough.saturating_mul(self.times));
        let tries = if self.untried.is_over() {
            self.tries
        } else {
            0
        };
        let mut round = round_of(alloc, progs, count, enough, tries, workers >= KEEPERS)?;
        round.threads = self.threads(round.tasks.len(), workers);
        if round.threads < 2 {
            self.unseen.set(round.count);
        }
        Ok(round)
    }

    /// A round is over. If what stood of it wasn't worth its threads, the next programs go in order, longer each time, and then a round is
    /// as short as two threads need; else it may have twice as many threads, and be twice as long.
    pub(crate) fn end_round(&mut self, round: &Round) {
        let worth = self.worth.saturating_mul(round.threads as u64);
        if self.spared.saturating_mul(2) < worth {
            self.unseen.begin(round.count.saturating_mul(FOR_LOSS));
            self.times = 1;
        } else {
            self.unseen.shorten();
            self.times = self.times.saturating_mul(2).min(ROUND);
        }
        if round.tries > 0 {
            self.end_tries(round.tasks.len().saturating_sub(self.stood), round.tries);
        }
        self.spared = 0;
        self.stood = 0;
    }

    /// So many runs were tried that might be touched, and so many were. If these are half or more, the next programs go by without, longer
    /// each time, and then one is tried; else there are twice as many.
    fn end_tries(&mut self, touched: usize, tries: usize) {
        if touched.saturating_mul(2) >= tries {
            self.untried.begin(tries);
            self.tries = 1;
        } else {
            self.untried.shorten();
            self.tries = self.tries.saturating_mul(2).min(ROUND);
        }
    }
}

/// How many moves are spared where a run is taken, beside what its rows cost.
fn spared_by(moves: u64, rows: usize) -> u64 {
    moves.saturating_sub(ROW.saturating_mul(rows as u64))
}
