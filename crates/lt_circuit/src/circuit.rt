//! The circuit over a work.
ghost use Rattle.std.specs.Prelude.{◌≡◌, ◌≤◌, ◌<◌, ℕ, [], IfOk};
ghost use Rattle.std.specs.Vec.{vec_len, vec_capacity};
ghost use Rattle.std.specs.Arc.{arc_value};
ghost use Rattle.lt_face.specs.Limits.{most_programs};
ghost use Rattle.lt_net.specs.Net.{opening};
ghost use Rattle.lt_net.specs.Tree.{circuit_net, tree_of};
ghost use Rattle.lt_net.specs.Alone.{IsUnclaimed};
ghost use Rattle.lt_circuit.specs.Circuit.{CircuitView, IsCircuit, state};

use crate::board::Board;
use crate::entry::Entry;
use crate::holders::nones;
use crate::task::Prior;
use crate::work::LeafWork;
use lt_face::NoMemory;
use std::alloc::Global;
use std::marker::Model;
use std::sync::Arc;

/// A circuit over the leaves of a work. It is the replay of its journal.
#[derive(Drop)]
pub struct Circuit<W: LeafWork> {
    pub(crate) work: Arc<W, Global>,
    pub(crate) board: Board,
    pub(crate) tallies: Vec<Option<Prior<W::Tally>>>,
    pub(crate) journal: Vec<Entry>,
    /// How many leaves behind the front are run ahead. No clause speaks of it.
    pub(crate) ahead: u32,
}

impl<W: LeafWork> Model for Circuit<W> {
    ghost Value = { CircuitView W W.Tally };

    ghost view = { λ c. record { work = arc_value c.work; board = c.board; journal = c.journal.items; tallies = c.tallies.items } };

    ghost invariant = { λ c. IsCircuit (W.does (arc_value c.work)) (W.stands_for (arc_value c.work)) (W.fits (arc_value c.work)) (W.has (arc_value c.work)) c.board c.journal.items c.tallies.items (vec_len c.journal) (vec_capacity c.journal) };
}

impl<W: LeafWork> Circuit<W> {
    /// The opening over the first leaves of the work.
    pub fn start(alloc: Global, work: Arc<W, Global>, leaves: u32) -> Result<Circuit<W>, NoMemory>
        requires few { leaves ≤ most_programs }
        requires has { (i : ℕ) → i < leaves → W.has (arc_value work) i }
        ensures work { IfOk result (λ circuit. circuit.work ≡ arc_value work) }
        ensures leaves { IfOk result (λ circuit. circuit.board.leaves ≡ leaves) }
        ensures state { IfOk result (λ circuit. state circuit ≡ opening (circuit_net (W.does (arc_value work)) (tree_of leaves))) }
        ensures free { IfOk result (λ circuit. IsUnclaimed (state circuit)) }
        ensures journal { IfOk result (λ circuit. circuit.journal ≡ []) }
    {
        let board = Board::opening(alloc, leaves)?;
        let tallies = nones(alloc, leaves as usize)?;
        // What one worker writes down, and some more: so that the turns seldom ask for memory.
        let journal = Vec::with_capacity(alloc, 8 * leaves as usize + 32)?;
        Ok(Circuit {
            work,
            board,
            tallies,
            journal,
            ahead: 0,
        })
    }
}
