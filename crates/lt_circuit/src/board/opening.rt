//! The opening of a circuit.
ghost use Rattle.std.specs.Prelude.{◌≡◌, ◌≤◌, ℕ, List, IfOk, max};
ghost use Rattle.lt_face.specs.Limits.{most_programs};
ghost use Rattle.lt_model.specs.declared.mark.Mark.{Mark as MarkType};
ghost use Rattle.lt_net.specs.Net.{opening};
ghost use Rattle.lt_net.specs.Tree.{circuit_net, tree_of};
ghost use Rattle.lt_circuit.specs.Board.{standing, state_of};

use super::Board;
use crate::holders::{Holders, nones};
use crate::jobs::Jobs;
use crate::nodes::Nodes;
use lt_face::NoMemory;
use lt_net::nodes_over;
use std::alloc::Global;

fn at_least_one(n: u32) -> u32
    ensures { result ≡ max n 1 }
{
    if n < 1 { 1 } else { n }
}

impl Board {
    /// The opening: all corrections and effects are empty, the leaves' jobs are Pending, the others Clean, and no claim
    /// stands.
    pub fn opening(alloc: Global, leaves: u32) -> Result<Board, NoMemory>
        requires { leaves ≤ most_programs }
        ensures leaves { IfOk result (λ board. board.leaves ≡ leaves) }
        ensures free { IfOk result (λ board. standing board.claims ≡ 0) }
        ensures state { IfOk result (λ board. (effect : ℕ → List MarkType → List MarkType) → state_of board ≡ opening (circuit_net effect (tree_of leaves))) }
    {
        let nodes = Nodes::bare(alloc, at_least_one(nodes_over(leaves)))?;
        let jobs = Jobs::start(alloc, leaves)?;
        let done = nones(alloc, leaves as usize)?;
        let holders = Holders::none(alloc)?;
        Ok(Board {
            leaves,
            nodes,
            jobs,
            done,
            holders,
        })
    }
}
