//! What a line tells of a segment, and what that is once the front has passed it.
#![tactic(auto)]

ghost use Rattle.std.specs.Prelude.{◌≡◌, ◌+◌, ◌*◌, ◌<◌, [], None, Some, length, slice_index_or};
ghost use Rattle.lt_net.specs.Line.{before_segment, part, placed, size_in, IsPast};
ghost use Rattle.lt_net.specs.Net.{Effect};
ghost use Rattle.lt_net.specs.Tree.{leaf_value, then_all};
ghost use Rattle.lt_circuit.specs.declared.task.Prior.{Prior as PriorType};
ghost use Rattle.lt_circuit.specs.Line.{line_state};
ghost use Rattle.lt_circuit.specs.Row.{sizes};

use super::Line;
use crate::tree::node_of;
use crate::work::LeafWork;
use lt_delta::Marks;

impl<W: LeafWork> Line<W> {
    /// The effect of all leaves of segment s. Below the front it is that of its leaves one after another.
    pub fn root_effect(&self, s: u32) -> &Marks
        requires { s < length self.now.row }
        ensures value { result.now ≡ (line_state self.now).value (placed s (Effect 0)) }
        ensures fits { W.fits self.now.work result.now }
        ensures serial { let n = size_in (sizes self.now.row) s in
            IsPast (s + 1) (line_state self.now) → result.now ≡ then_all (leaf_value n (part s (line_state self.now))) [] n }
    {
        self.row.effect(s, 0)
    }

    /// The effect of a leaf of segment s. Below the front it is what the leaf does on the effects of all leaves before it, in all
    /// segments.
    pub fn effect(&self, s: u32, leaf: u32) -> &Marks
        requires segment { s < length self.now.row }
        requires leaf { leaf < size_in (sizes self.now.row) s }
        ensures value { result.now ≡ leaf_value (size_in (sizes self.now.row) s) (part s (line_state self.now)) leaf }
        ensures fits { W.fits self.now.work result.now }
        ensures serial { let n = size_in (sizes self.now.row) s in
            IsPast (s + 1) (line_state self.now) →
            result.now ≡ W.does self.now.work (256 * s + leaf) (then_all (leaf_value n (part s (line_state self.now))) (before_segment (sizes self.now.row) (line_state self.now) s) leaf) }
    {
        let leaves = self.row.leaves(s);
        self.row.effect(s, node_of(leaves, leaf))
    }

    /// The tally of a leaf of a segment below the front. It stands for the leaf on the effects of all leaves before it.
    pub fn tally(&self, s: u32, leaf: u32) -> &W::Tally
        requires segment { s < length self.now.row }
        requires leaf { leaf < size_in (sizes self.now.row) s }
        requires past { IsPast (s + 1) (line_state self.now) }
        ensures stands { let n = size_in (sizes self.now.row) s in
            W.stands_for self.now.work result.now (256 * s + leaf) (then_all (leaf_value n (part s (line_state self.now))) (before_segment (sizes self.now.row) (line_state self.now) s) leaf) }
        ensures fits { let n = size_in (sizes self.now.row) s in
            W.fits self.now.work (then_all (leaf_value n (part s (line_state self.now))) (before_segment (sizes self.now.row) (line_state self.now) s) leaf) }
        ensures place { (prior : PriorType W.Tally) × (slice_index_or self.now.tallies (256 * s + leaf) None ≡ Some prior) × (prior.tally ≡ result.now) }
    {
        match &self.tallies[256 * s as usize + leaf as usize] {
            Some(prior) => &prior.tally,
            None => unreachable!(),
        }
    }
}
