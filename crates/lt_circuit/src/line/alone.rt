//! A worker alone on a line: segment after segment, each by sweeps and rounds as a circuit, and then its Pass.
#![tactic(auto)]

ghost use Rattle.std.specs.Prelude.{◌≡◌, ◌+◌, ◌-◌, ◌*◌, ◌≤◌, ◌<◌, [], ◌∷◌, map, length, OnOk, IfSome};
ghost use Rattle.lt_face.specs.Limits.{most_programs};
ghost use Rattle.lt_net.specs.Net.{IsSettled};
ghost use Rattle.lt_net.specs.Codes.{nodes_over};
ghost use Rattle.lt_net.specs.Line.{AreSizes, line_net, size_in};
ghost use Rattle.lt_net.specs.Alone.{IsUnclaimed, all_events, corrects_up, lowest_pending, merges_down, run_all, sweep_jobs};
ghost use Rattle.lt_net.specs.LineAlone.{in_segment, line_bound, line_jobs, round_jobs, segment_jobs, tree_in};
ghost use Rattle.lt_circuit.specs.Line.{line_event, line_state, IsLineReplay};
ghost use Rattle.lt_circuit.specs.LineShape.{line_shape, line_shape_net};
ghost use Rattle.lt_circuit.specs.Row.{most_segments, sizes};
ghost use Rattle.lt_circuit.specs.Shape.{IsLaterBy};

use super::Line;
use crate::claim::This;
use crate::work::LeafWork;
use lt_face::{Moves, NoMemory};
use lt_net::{CODES, JobName, PASS, nodes_over};

impl<W: LeafWork> Line<W> {
    /// How many segments there are.
    pub fn segment_count(&self) -> u32
        ensures value { result ≡ length (sizes self.now.row) }
        ensures small { result ≤ most_segments }
        ensures sizes { AreSizes (sizes self.now.row) }
        ensures known { IsLineReplay (W.does self.now.work) self.now.row self.now.journal }
    {
        self.row.count()
    }

    /// How many leaves segment s has.
    fn leaf_count(&self, s: u32) -> u32
        requires { s < length (sizes self.now.row) }
        ensures value { result ≡ size_in (sizes self.now.row) s }
        ensures small { result ≤ most_programs }
    {
        self.row.leaves(s)
    }

    /// Claims the job of this code as worker 0 and finishes it, where it is Pending. After want of memory the claim is given up
    /// again.
    fn run_if_pending(&mut self, code: u32) -> Result<(), NoMemory>
        requires free { IsUnclaimed (line_state self.old) }
        ensures ran { OnOk result (line_state self.new ≡ run_all (line_shape_net (line_shape W.does self.old)) (line_state self.old) (code ∷ [])) }
        ensures free { IsUnclaimed (line_state self.new) }
        ensures shape { line_shape W.does self.new ≡ line_shape W.does self.old }
        ensures later { IsLaterBy 0 (map line_event self.old.journal) (map line_event self.new.journal) }
        ensures few { length (map line_event self.new.journal) ≤ length (map line_event self.old.journal) + length (all_events (line_shape_net (line_shape W.does self.old)) (line_state self.old) (code ∷ [])) }
    {
        match self.claim_this(0, code) {
            This::NotPending => Ok(()),
            This::NoMemory => Err(NoMemory),
            This::Job(job) => {
                let mut moves: Moves<()> = Moves::new();
                match job.work(&mut moves) {
                    Ok(output) => {
                        drop(self.finish(0, output));
                        Ok(())
                    }
                    Err(job) => {
                        drop(self.abandon(0, job));
                        Err(NoMemory)
                    }
                }
            }
        }
    }

    /// Runs the Merges of segment s's nodes below `count`, bottom up.
    fn run_merges(&mut self, s: u32, count: u32) -> Result<(), NoMemory>
        requires free { IsUnclaimed (line_state self.old) }
        requires segment { s < most_segments }
        requires count { count ≤ nodes_over most_programs }
        ensures ran { OnOk result (line_state self.new ≡ run_all (line_shape_net (line_shape W.does self.old)) (line_state self.old) (in_segment s (merges_down count))) }
        ensures free { IsUnclaimed (line_state self.new) }
        ensures shape { line_shape W.does self.new ≡ line_shape W.does self.old }
        ensures later { IsLaterBy 0 (map line_event self.old.journal) (map line_event self.new.journal) }
        ensures few { length (map line_event self.new.journal) ≤ length (map line_event self.old.journal) + length (all_events (line_shape_net (line_shape W.does self.old)) (line_state self.old) (in_segment s (merges_down count))) }
    {
        for v in (0..count).rev() {
            self.run_if_pending(CODES * s + JobName::Merge(v).code())?;
        }
        Ok(())
    }

    /// Runs the Corrects of segment s's nodes below `count`, top down.
    fn run_corrects(&mut self, s: u32, count: u32) -> Result<(), NoMemory>
        requires free { IsUnclaimed (line_state self.old) }
        requires segment { s < most_segments }
        requires count { count ≤ nodes_over most_programs }
        ensures ran { OnOk result (line_state self.new ≡ run_all (line_shape_net (line_shape W.does self.old)) (line_state self.old) (in_segment s (corrects_up 0 count))) }
        ensures free { IsUnclaimed (line_state self.new) }
        ensures shape { line_shape W.does self.new ≡ line_shape W.does self.old }
        ensures later { IsLaterBy 0 (map line_event self.old.journal) (map line_event self.new.journal) }
        ensures few { length (map line_event self.new.journal) ≤ length (map line_event self.old.journal) + length (all_events (line_shape_net (line_shape W.does self.old)) (line_state self.old) (in_segment s (corrects_up 0 count))) }
    {
        for v in 0..count {
            self.run_if_pending(CODES * s + JobName::Correct(v).code())?;
        }
        Ok(())
    }

    /// Runs each inner job of segment s once, where it is Pending: the Merges bottom up, then the Corrects top down.
    fn sweep(&mut self, s: u32, leaves: u32) -> Result<(), NoMemory>
        requires free { IsUnclaimed (line_state self.old) }
        requires segment { s < most_segments }
        requires leaves { leaves ≤ most_programs }
        ensures ran { OnOk result (line_state self.new ≡ run_all (line_shape_net (line_shape W.does self.old)) (line_state self.old) (in_segment s (sweep_jobs leaves))) }
        ensures free { IsUnclaimed (line_state self.new) }
        ensures shape { line_shape W.does self.new ≡ line_shape W.does self.old }
        ensures later { IsLaterBy 0 (map line_event self.old.journal) (map line_event self.new.journal) }
        ensures few { length (map line_event self.new.journal) ≤ length (map line_event self.old.journal) + length (all_events (line_shape_net (line_shape W.does self.old)) (line_state self.old) (in_segment s (sweep_jobs leaves))) }
    {
        let count = nodes_over(leaves);
        self.run_merges(s, count)?;
        self.run_corrects(s, count)?;
        Ok(())
    }

    /// The lowest leaf of segment s that is Pending.
    fn lowest_pending_leaf(&self, s: u32, leaves: u32) -> Option<u32>
        requires segment { s < most_segments }
        requires leaves { leaves ≤ most_programs }
        ensures lowest { result ≡ lowest_pending (tree_in s (line_state self.now)) 0 leaves }
        ensures within { IfSome result (λ leaf. leaf < leaves) }
    {
        for leaf in 0..leaves {
            if self.is_pending(CODES * s + JobName::Leaf(leaf).code()) {
                return Some(leaf);
            }
        }
        None
    }

    /// A sweep over segment s, then its lowest leaf that is Pending.
    fn run_round(&mut self, s: u32, leaves: u32) -> Result<(), NoMemory>
        requires free { IsUnclaimed (line_state self.old) }
        requires segment { s < most_segments }
        requires leaves { leaves ≤ most_programs }
        ensures ran { OnOk result (line_state self.new ≡ run_all (line_shape_net (line_shape W.does self.old)) (line_state self.old) (round_jobs (line_shape_net (line_shape W.does self.old)) leaves s (line_state self.old))) }
        ensures free { IsUnclaimed (line_state self.new) }
        ensures shape { line_shape W.does self.new ≡ line_shape W.does self.old }
        ensures later { IsLaterBy 0 (map line_event self.old.journal) (map line_event self.new.journal) }
        ensures few { length (map line_event self.new.journal) ≤ length (map line_event self.old.journal) + length (all_events (line_shape_net (line_shape W.does self.old)) (line_state self.old) (round_jobs (line_shape_net (line_shape W.does self.old)) leaves s (line_state self.old))) }
    {
        self.sweep(s, leaves)?;
        match self.lowest_pending_leaf(s, leaves) {
            Some(leaf) => {
                self.run_if_pending(CODES * s + JobName::Leaf(leaf).code())?;
                Ok(())
            }
            None => Ok(()),
        }
    }

    /// Settles segment s and hands on: as many rounds as it has leaves, a last sweep, and the Pass.
    fn run_segment(&mut self, s: u32, leaves: u32) -> Result<(), NoMemory>
        requires free { IsUnclaimed (line_state self.old) }
        requires segment { s < most_segments }
        requires leaves { leaves ≤ most_programs }
        ensures ran { OnOk result (line_state self.new ≡ run_all (line_shape_net (line_shape W.does self.old)) (line_state self.old) (segment_jobs (line_shape_net (line_shape W.does self.old)) leaves s (line_state self.old))) }
        ensures free { IsUnclaimed (line_state self.new) }
        ensures shape { line_shape W.does self.new ≡ line_shape W.does self.old }
        ensures later { IsLaterBy 0 (map line_event self.old.journal) (map line_event self.new.journal) }
        ensures few { length (map line_event self.new.journal) ≤ length (map line_event self.old.journal) + length (all_events (line_shape_net (line_shape W.does self.old)) (line_state self.old) (segment_jobs (line_shape_net (line_shape W.does self.old)) leaves s (line_state self.old))) }
    {
        for round in 0..leaves {
            self.run_round(s, leaves)?;
        }
        self.sweep(s, leaves)?;
        self.run_if_pending(CODES * s + PASS)?;
        Ok(())
    }

    /// Settles the line as worker 0, segment after segment: as many rounds as it has leaves, a last sweep, and its Pass. A sweep
    /// does the Merges bottom up and then the Corrects top down, a round is a sweep and then the lowest leaf that is Pending. After
    /// want of memory no claim stands.
    pub fn settle_alone(&mut self) -> Result<(), NoMemory>
        requires free { IsUnclaimed (line_state self.old) }
        ensures settled { OnOk result (IsSettled (line_state self.new)) }
        ensures free { IsUnclaimed (line_state self.new) }
        ensures ran { let net = line_net (W.does self.old.work) (sizes self.old.row) in
            OnOk result (line_state self.new ≡ run_all net (line_state self.old) (line_jobs net (sizes self.old.row) (length (sizes self.old.row)) (line_state self.old))) }
        ensures work { self.new.work ≡ self.old.work }
        ensures sizes { sizes self.new.row ≡ sizes self.old.row }
        ensures later { IsLaterBy 0 (map line_event self.old.journal) (map line_event self.new.journal) }
        ensures few { let leaves = sizes self.old.row in length self.new.journal ≤ length self.old.journal + line_bound leaves (length leaves) }
    {
        let segments = self.segment_count();
        for s in 0..segments {
            let leaves = self.leaf_count(s);
            self.run_segment(s, leaves)?;
        }
        Ok(())
    }
}
