//! The state of a circuit as tables.
#![tactic(auto)]

ghost use Rattle.std.specs.Prelude.{◌<◌};
ghost use Rattle.lt_circuit.specs.Board.{BoardView, IsBoard};

use crate::holders::Holders;
use crate::jobs::Jobs;
use crate::nodes::Nodes;
use lt_delta::Marks;
use std::marker::Model;

/// The tables: per node, per job's code, per leaf, per worker.
#[derive(Drop)]
pub struct Board {
    leaves: u32,
    nodes: Nodes,
    jobs: Jobs,
    done: Vec<Option<Marks>>,
    holders: Holders,
}

impl Model for Board {
    ghost Value = { BoardView };

    ghost view = { λ b. record { leaves = b.leaves; nodes = b.nodes; states = b.jobs; done = b.done.items; claims = b.holders } };

    ghost invariant = { λ b. IsBoard b.leaves b.nodes b.jobs b.done.items b.holders };
}

mod choose;
mod finish;
mod front;
mod hold;
mod inputs;
mod look;
mod opening;
pub(crate) mod store;
