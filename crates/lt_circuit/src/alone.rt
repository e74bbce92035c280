//! A worker alone: sweeps over the inner jobs, and rounds that each run one leaf more.
ghost use Rattle.std.specs.Prelude.{◌≡◌, ◌+◌, ◌-◌, ◌*◌, ◌^◌, ◌≤◌, ◌<◌, map, length, OnOk, IfSome};
ghost use Rattle.lt_face.specs.Limits.{most_programs};
ghost use Rattle.lt_net.specs.Net.{IsSettled};
ghost use Rattle.lt_net.specs.Tree.{circuit_net, tree_of};
ghost use Rattle.lt_net.specs.Codes.{code_of, nodes_over};
ghost use Rattle.lt_net.specs.Alone.{IsUnclaimed, all_events, corrects_up, lowest_pending, merges_down, round, round_events, run_all, run_events, run_if_pending, settled_alone, sweep_jobs};
ghost use Rattle.lt_circuit.specs.Entry.{event_of};
ghost use Rattle.lt_circuit.specs.Circuit.{state, IsReplay};
ghost use Rattle.lt_circuit.specs.Shape.{shape, shape_net, IsLaterBy};

use crate::circuit::Circuit;
use crate::claim::This;
use crate::work::LeafWork;
use lt_face::{Moves, NoMemory};
use lt_net::{JobName, nodes_over};

impl<W: LeafWork> Circuit<W> {
    /// How many leaves there are.
    fn leaf_count(&self) -> u32
        ensures value { result ≡ self.now.board.leaves }
        ensures small { result ≤ most_programs }
        ensures known { IsReplay (W.does self.now.work) self.now.board self.now.journal }
    {
        self.board.leaves()
    }

    /// Claims the job as worker 0 and finishes it, where it is Pending. After want of memory the claim is given up again.
    fn run_if_pending(&mut self, name: JobName) -> Result<(), NoMemory>
        requires small { code_of name < 2 ^ 32 }
        requires free { IsUnclaimed (state self.old) }
        ensures ran { OnOk result (state self.new ≡ run_if_pending (shape_net (shape W.does self.old)) (state self.old) (code_of name)) }
        ensures free { IsUnclaimed (state self.new) }
        ensures shape { shape W.does self.new ≡ shape W.does self.old }
        ensures later { IsLaterBy 0 (map event_of self.old.journal) (map event_of self.new.journal) }
        ensures few { length (map event_of self.new.journal) ≤ length (map event_of self.old.journal) + length (run_events (shape_net (shape W.does self.old)) (state self.old) (code_of name)) }
    {
        match self.claim_this(0, name.code()) {
            This::NotPending => Ok(()),
            This::NoMemory => Err(NoMemory),
            This::Job(job) => {
                let mut moves: Moves<()> = Moves::new();
                match job.work(&mut moves) {
                    Ok(output) => {
                        drop(self.finish(0, output));
                        Ok(())
                    }
                    Err(job) => {
                        drop(self.abandon(0, job));
                        Err(NoMemory)
                    }
                }
            }
        }
    }

    /// Runs the Merges of the nodes below `count`, bottom up.
    fn run_merges(&mut self, count: u32) -> Result<(), NoMemory>
        requires free { IsUnclaimed (state self.old) }
        requires count { count ≤ nodes_over most_programs }
        ensures ran { OnOk result (state self.new ≡ run_all (shape_net (shape W.does self.old)) (state self.old) (merges_down count)) }
        ensures free { IsUnclaimed (state self.new) }
        ensures shape { shape W.does self.new ≡ shape W.does self.old }
        ensures later { IsLaterBy 0 (map event_of self.old.journal) (map event_of self.new.journal) }
        ensures few { length (map event_of self.new.journal) ≤ length (map event_of self.old.journal) + length (all_events (shape_net (shape W.does self.old)) (state self.old) (merges_down count)) }
    {
        for v in (0..count).rev() {
            self.run_if_pending(JobName::Merge(v))?;
        }
        Ok(())
    }

    /// Runs the Corrects of the nodes below `count`, top down.
    fn run_corrects(&mut self, count: u32) -> Result<(), NoMemory>
        requires free { IsUnclaimed (state self.old) }
        requires count { count ≤ nodes_over most_programs }
        ensures ran { OnOk result (state self.new ≡ run_all (shape_net (shape W.does self.old)) (state self.old) (corrects_up 0 count)) }
        ensures free { IsUnclaimed (state self.new) }
        ensures shape { shape W.does self.new ≡ shape W.does self.old }
        ensures later { IsLaterBy 0 (map event_of self.old.journal) (map event_of self.new.journal) }
        ensures few { length (map event_of self.new.journal) ≤ length (map event_of self.old.journal) + length (all_events (shape_net (shape W.does self.old)) (state self.old) (corrects_up 0 count)) }
    {
        for v in 0..count {
            self.run_if_pending(JobName::Correct(v))?;
        }
        Ok(())
    }

    /// Runs each inner job once, where it is Pending: the Merges bottom up, then the Corrects top down.
    fn sweep(&mut self, leaves: u32) -> Result<(), NoMemory>
        requires free { IsUnclaimed (state self.old) }
        requires leaves { leaves ≤ most_programs }
        ensures ran { OnOk result (state self.new ≡ run_all (shape_net (shape W.does self.old)) (state self.old) (sweep_jobs leaves)) }
        ensures free { IsUnclaimed (state self.new) }
        ensures shape { shape W.does self.new ≡ shape W.does self.old }
        ensures later { IsLaterBy 0 (map event_of self.old.journal) (map event_of self.new.journal) }
        ensures few { length (map event_of self.new.journal) ≤ length (map event_of self.old.journal) + length (all_events (shape_net (shape W.does self.old)) (state self.old) (sweep_jobs leaves)) }
    {
        let count = nodes_over(leaves);
        self.run_merges(count)?;
        self.run_corrects(count)?;
        Ok(())
    }

    /// The lowest leaf that is Pending.
    fn lowest_pending_leaf(&self, leaves: u32) -> Option<u32>
        requires leaves { leaves ≡ (shape W.does self.now).leaves }
        requires small { leaves ≤ most_programs }
        ensures lowest { result ≡ lowest_pending (state self.now) 0 leaves }
        ensures within { IfSome result (λ leaf. leaf < leaves) }
    {
        for leaf in 0..leaves {
            if self.is_pending(JobName::Leaf(leaf)) {
                return Some(leaf);
            }
        }
        None
    }

    /// A sweep, then the lowest leaf that is Pending.
    fn run_round(&mut self, leaves: u32) -> Result<(), NoMemory>
        requires free { IsUnclaimed (state self.old) }
        requires leaves { leaves ≡ (shape W.does self.old).leaves }
        requires small { leaves ≤ most_programs }
        ensures ran { OnOk result (state self.new ≡ round (shape_net (shape W.does self.old)) leaves (state self.old)) }
        ensures free { IsUnclaimed (state self.new) }
        ensures shape { shape W.does self.new ≡ shape W.does self.old }
        ensures later { IsLaterBy 0 (map event_of self.old.journal) (map event_of self.new.journal) }
        ensures few { length (map event_of self.new.journal) ≤ length (map event_of self.old.journal) + length (round_events (shape_net (shape W.does self.old)) leaves (state self.old)) }
    {
        self.sweep(leaves)?;
        match self.lowest_pending_leaf(leaves) {
            Some(leaf) => {
                self.run_if_pending(JobName::Leaf(leaf))?;
                Ok(())
            }
            None => Ok(()),
        }
    }

    /// Settles the circuit as worker 0: as many rounds as there are leaves, and a last sweep. A sweep does the Merges bottom
    /// up and then the Corrects top down, a round is a sweep and then the lowest leaf that is Pending. After want of memory
    /// no claim stands.
    pub fn settle_alone(&mut self) -> Result<(), NoMemory>
        requires free { IsUnclaimed (state self.old) }
        ensures settled { OnOk result (IsSettled (state self.new)) }
        ensures free { IsUnclaimed (state self.new) }
        ensures ran { OnOk result (state self.new ≡ settled_alone (circuit_net (W.does self.old.work) (tree_of self.old.board.leaves)) self.old.board.leaves (state self.old)) }
        ensures work { self.new.work ≡ self.old.work }
        ensures leaves { self.new.board.leaves ≡ self.old.board.leaves }
        ensures later { IsLaterBy 0 (map event_of self.old.journal) (map event_of self.new.journal) }
        ensures few { let n = self.old.board.leaves in length self.new.journal ≤ length self.old.journal + 2 * ((n + 1) * 2 * (n - 1) + n) }
    {
        let leaves = self.leaf_count();
        for round in 0..leaves {
            self.run_round(leaves)?;
        }
        self.sweep(leaves)?;
        Ok(())
    }
}
