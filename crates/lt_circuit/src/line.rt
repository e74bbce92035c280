//! A line over a work: segments that start together, each with a tree over its own leaves.
#![tactic(auto)]

ghost use Rattle.std.specs.Prelude.{◌≡◌, ◌≢◌, ℕ, true, false, ◌+◌, ◌*◌, ◌^◌, ◌≤◌, ◌<◌, [], IfOk, IsTrue, ◌↔◌, length};
ghost use Rattle.std.specs.Vec.{vec_len, vec_capacity};
ghost use Rattle.std.specs.Arc.{arc_value};
ghost use Rattle.lt_net.specs.Line.{line_net, size_in, AreSizes, IsFront};
ghost use Rattle.lt_net.specs.Net.{IsSettled, opening};
ghost use Rattle.lt_net.specs.Alone.{IsUnclaimed};
ghost use Rattle.lt_net.specs.declared.job.JobState.TheVariants.{Pending};
ghost use Rattle.lt_circuit.specs.Line.{line_entry_code, line_state, IsLine, IsLineReplay, LineView};
ghost use Rattle.lt_circuit.specs.Row.{most_segments, sizes, standing_in};

use crate::entry::Event;
use crate::holders::nones;
use crate::row::Row;
use crate::task::Prior;
use crate::work::LeafWork;
use lt_face::NoMemory;
use lt_net::with_kind;
use std::alloc::Global;
use std::marker::Model;
use std::sync::Arc;

/// One event of a line: the worker, the job's code, and what the worker does with it.
#[derive(Clone, Copy, PartialEq, Eq)]
pub struct LineEntry {
    pub worker: u32,
    pub job: u32,
    pub event: Event,
}

impl LineEntry {
    /// The entry's code: three times the job's, plus 1 for a finish and 2 for an abandon.
    pub fn code(self) -> u32
        requires { line_entry_code self < 2 ^ 32 }
        ensures { result ≡ line_entry_code self }
    {
        with_kind(self.job, self.event.kind())
    }
}

/// A line over the leaves of a work: leaf i of segment s is its leaf 256 * s + i. It is the replay of its journal.
#[derive(Drop)]
pub struct Line<W: LeafWork> {
    work: Arc<W, Global>,
    row: Row,
    tallies: Vec<Option<Prior<W::Tally>>>,
    journal: Vec<LineEntry>,
    /// How many leaves behind the front are run ahead. No clause speaks of it.
    ahead: u32,
}

impl<W: LeafWork> Model for Line<W> {
    ghost Value = { LineView W W.Tally };

    ghost view = { λ l. record { work = arc_value l.work; row = l.row; journal = l.journal.items; tallies = l.tallies.items } };

    ghost invariant = { λ l. IsLine (W.does (arc_value l.work)) (W.stands_for (arc_value l.work)) (W.fits (arc_value l.work)) (W.has (arc_value l.work)) l.row l.journal.items l.tallies.items (vec_len l.journal) (vec_capacity l.journal) };
}

/// How many places the leaves' tallies take.
fn places_for(leaves: &[u32]) -> usize
    requires few { AreSizes leaves.now }
    requires short { length leaves.now ≤ most_segments }
    ensures all { (s i : ℕ) → i < size_in leaves.now s → 256 * s + i < result }
    ensures few { result ≤ 2048 }
{
    if leaves.len() == 0 {
        return 0;
    }
    let last = leaves.len() - 1;
    256 * last + leaves[last] as usize
}

impl<W: LeafWork> Line<W> {
    /// The opening over so many leaves in each segment.
    pub fn start(alloc: Global, work: Arc<W, Global>, leaves: &[u32]) -> Result<Line<W>, NoMemory>
        requires few { AreSizes leaves.now }
        requires short { length leaves.now ≤ most_segments }
        requires has { (s i : ℕ) → i < size_in leaves.now s → W.has (arc_value work) (256 * s + i) }
        ensures work { IfOk result (λ line. line.work ≡ arc_value work) }
        ensures sizes { IfOk result (λ line. sizes line.row ≡ leaves.now) }
        ensures state { IfOk result (λ line. line_state line ≡ opening (line_net (W.does (arc_value work)) leaves.now)) }
        ensures free { IfOk result (λ line. IsUnclaimed (line_state line)) }
        ensures journal { IfOk result (λ line. line.journal ≡ []) }
    {
        let row = Row::opening(alloc, leaves)?;
        let places = places_for(leaves);
        let tallies = nones(alloc, places)?;
        // What one worker writes down, and some more: so that the turns seldom ask for memory.
        let journal = Vec::with_capacity(alloc, 8 * places + 32)?;
        Ok(Line {
            work,
            row,
            tallies,
            journal,
            ahead: 0,
        })
    }

    /// All events in their order. The line is their replay.
    pub fn journal(&self) -> &[LineEntry]
        ensures entries { result.now ≡ self.now.journal }
        ensures replay { IsLineReplay (W.does self.now.work) self.now.row self.now.journal }
    {
        &self.journal
    }

    /// How many claims stand. Where none does and no job is Pending, the line is settled, and only there.
    pub fn in_flight(&self) -> u32
        ensures count { result ≡ standing_in self.now.row }
        ensures none { IsSettled (line_state self.now) → result ≡ 0 }
        ensures settled { result ≡ 0 → ((code : ℕ) → (line_state self.now).status code ≢ Pending) → IsSettled (line_state self.now) }
    {
        self.row.in_flight()
    }

    /// Whether no job is Pending, Running or Dirty.
    pub fn settled(&self) -> bool
        ensures { IsTrue result ↔ IsSettled (line_state self.now) }
    {
        if self.in_flight() > 0 {
            return false;
        }
        !self.has_pending()
    }

    /// The greatest number of first segments such that no job of theirs, and no Pass between two of them, is Pending, Running or
    /// Dirty.
    pub fn front(&self) -> u32
        ensures { IsFront (sizes self.now.row) result (line_state self.now) }
    {
        self.row.front()
    }

    // Whether a job is Pending.
    fn has_pending(&self) -> bool
        ensures some { result ≡ true → (code : ℕ) × ((line_state self.now).status code ≡ Pending) }
        ensures none { result ≡ false → (code : ℕ) → (line_state self.now).status code ≢ Pending }
    {
        self.row.has_pending()
    }
}

mod alone;
mod below;
mod claims;
mod due;
mod ends;
mod free;
