//! The segments of a line in their order.
#![tactic(auto)]

ghost use Rattle.std.specs.Prelude.{◌≡◌, ◌≢◌, ℕ, ◌+◌, ◌*◌, ◌^◌, ◌<◌, List, [], ◌∷◌, Some, None, length, slice_set, true};
ghost use Rattle.lt_face.specs.Limits.{most_workers};
ghost use Rattle.lt_model.specs.declared.mark.Mark.{Mark as MarkType};
ghost use Rattle.lt_model.specs.Marks.{and_then};
ghost use Rattle.lt_net.specs.declared.job.JobName.TheVariants.{Leaf, Merge, Correct};
ghost use Rattle.lt_net.specs.declared.job.JobState.TheVariants.{Running};
ghost use Rattle.lt_net.specs.Codes.{code_of, codes_over};
ghost use Rattle.lt_net.specs.Line.{effect_in, hands_on, line_net};
ghost use Rattle.lt_net.specs.Net.{Claim, Correction, abandoned, claimed, finished, first_of, read, second_of};
ghost use Rattle.lt_net.specs.Row.{given_root, lifted, pass_closed, pass_inputs, passing_net, HasNoOther};
ghost use Rattle.lt_net.specs.Tree.{circuit_net, right_in, tree_of};
ghost use Rattle.lt_circuit.specs.declared.cells.Held.{Held as HeldType};
ghost use Rattle.lt_circuit.specs.Board.{inputs_list, state_of};
ghost use Rattle.lt_circuit.specs.Row.{HasChangedClaim, IsRow, parts, row_of, segment_at, sizes};
ghost use Rattle.lt_circuit.specs.Segment.{SegmentView, segment_state};

use crate::cells::{Held, Inputs, Stood};
use crate::segment::Segment;
use lt_delta::Marks;
use lt_net::JobName;
use std::marker::Model;

/// Segments that start together.
#[derive(Drop)]
pub struct Row {
    segments: Vec<Segment>,
}

impl Model for Row {
    ghost Value = { List SegmentView };

    ghost view = { λ r. r.segments.items };

    ghost invariant = { λ r. IsRow r.segments.items };
}

impl Row {
    /// The worker's Merge in segment s gave its node's effect. It answers what stood.
    pub fn finish_merge(&mut self, s: u32, worker: u32, node: u32, effect: Marks) -> Stood
        requires worker { worker < most_workers }
        requires segment { s < length self.old }
        requires node { node + 2 < 2 * (segment_at self.old s).board.leaves }
        requires inner { right_in (tree_of (segment_at self.old s).board.leaves) node ≢ None }
        requires alone { HasNoOther (length self.old) (parts self.old) s worker }
        ensures sizes { sizes self.new ≡ sizes self.old }
        ensures changed { (v : SegmentView) × (self.new ≡ slice_set self.old s v) × (v.board.claims ≡ slice_set (segment_at self.old s).board.claims worker None) }
        ensures state { (does : ℕ → List MarkType → List MarkType) (claim : Claim) (left right : List MarkType) →
            claim.job ≡ code_of (Merge node) → claim.inputs ≡ left ∷ right ∷ [] → effect ≡ and_then left right →
            row_of self.new ≡ finished (line_net does (sizes self.old)) (row_of self.old) worker (lifted s claim) }
    {
        self.segments[s as usize].finish_merge(worker, node, effect)
    }

    /// The worker's leaf in segment s gave the effect of its node, on the correction that is kept. It answers what stood.
    pub fn finish_leaf(
        &mut self,
        s: u32,
        worker: u32,
        leaf: u32,
        kept: Marks,
        effect: Marks,
    ) -> Stood
        requires worker { worker < most_workers }
        requires segment { s < length self.old }
        requires leaf { leaf < (segment_at self.old s).board.leaves }
        requires alone { HasNoOther (length self.old) (parts self.old) s worker }
        ensures sizes { sizes self.new ≡ sizes self.old }
        ensures changed { (v : SegmentView) × (self.new ≡ slice_set self.old s v) × (v.board.claims ≡ slice_set (segment_at self.old s).board.claims worker None) }
        ensures state { (does : ℕ → List MarkType → List MarkType) (claim : Claim) →
            claim.job ≡ code_of (Leaf leaf) → claim.inputs ≡ kept ∷ [] → effect ≡ effect_in does s leaf kept →
            row_of self.new ≡ finished (line_net does (sizes self.old)) (row_of self.old) worker (lifted s claim) }
    {
        self.segments[s as usize].finish_leaf(worker, leaf, kept, effect)
    }

    /// The worker's Correct in segment s gave the corrections of its node's children. It answers what stood.
    pub fn finish_correct(
        &mut self,
        s: u32,
        worker: u32,
        node: u32,
        to_left: Marks,
        to_right: Marks,
    ) -> Stood
        requires worker { worker < most_workers }
        requires segment { s < length self.old }
        requires node { node + 2 < 2 * (segment_at self.old s).board.leaves }
        requires inner { right_in (tree_of (segment_at self.old s).board.leaves) node ≢ None }
        requires current { (state_of (segment_at self.old s).board).status (code_of (Correct node)) ≡ Running → to_left ≡ (state_of (segment_at self.old s).board).value (Correction node) }
        requires alone { HasNoOther (length self.old) (parts self.old) s worker }
        ensures sizes { sizes self.new ≡ sizes self.old }
        ensures changed { (v : SegmentView) × (self.new ≡ slice_set self.old s v) × (v.board.claims ≡ slice_set (segment_at self.old s).board.claims worker None) }
        ensures state { (does : ℕ → List MarkType → List MarkType) (claim : Claim) (left : List MarkType) →
            claim.job ≡ code_of (Correct node) → claim.inputs ≡ to_left ∷ left ∷ [] → to_right ≡ and_then to_left left →
            row_of self.new ≡ finished (line_net does (sizes self.old)) (row_of self.old) worker (lifted s claim) }
    {
        self.segments[s as usize].finish_correct(worker, node, to_left, to_right)
    }

    /// The worker holds a job of segment s's tree, on inputs that stand now.
    pub fn hold(&mut self, s: u32, worker: u32, job: JobName, inputs: Inputs, prior: Option<Marks>)
        requires worker { worker < most_workers }
        requires segment { s < length self.old }
        requires job { code_of job < codes_over (segment_at self.old s).board.leaves }
        requires inputs { (effect : ℕ → List MarkType → List MarkType) →
            inputs_list inputs ≡ read (state_of (segment_at self.old s).board).value ((circuit_net effect (tree_of (segment_at self.old s).board.leaves)).inputs (code_of job)) }
        requires prior { prior ≡ (state_of (segment_at self.old s).board).done (code_of job) }
        requires free { (row_of self.old).claim worker ≡ None }
        ensures sizes { sizes self.new ≡ sizes self.old }
        ensures changed { (v : SegmentView) × (held : HeldType) × (self.new ≡ slice_set self.old s v) × (v.board.claims ≡ slice_set (segment_at self.old s).board.claims worker (Some held)) }
        ensures state { (does : ℕ → List MarkType → List MarkType) →
            row_of self.new ≡ claimed (line_net does (sizes self.old)) (row_of self.old) worker (2048 * s + code_of job) }
    {
        self.segments[s as usize].hold(worker, job, inputs, prior);
    }

    /// The worker holds the Pass of segment s, on inputs that stand now.
    pub fn hold_pass(&mut self, s: u32, worker: u32, inputs: Inputs)
        requires worker { worker < most_workers }
        requires segment { s < length self.old }
        requires inputs { inputs_list inputs ≡ read (state_of (segment_at self.old s).board).value (pass_inputs (segment_at self.old s).on) }
        requires free { (row_of self.old).claim worker ≡ None }
        ensures sizes { sizes self.new ≡ sizes self.old }
        ensures changed { (v : SegmentView) × (held : HeldType) × (self.new ≡ slice_set self.old s v) × (v.board.claims ≡ slice_set (segment_at self.old s).board.claims worker (Some held)) }
        ensures state { (does : ℕ → List MarkType → List MarkType) →
            row_of self.new ≡ claimed (line_net does (sizes self.old)) (row_of self.old) worker (2048 * s + 2047) }
    {
        self.segments[s as usize].hold_pass(worker, inputs);
    }

    /// The worker gives a job of segment s's tree up.
    pub fn abandon(&mut self, s: u32, worker: u32, job: JobName) -> Option<Held>
        requires worker { worker < most_workers }
        requires segment { s < length self.old }
        requires job { code_of job < codes_over (segment_at self.old s).board.leaves }
        requires alone { HasNoOther (length self.old) (parts self.old) s worker }
        ensures sizes { sizes self.new ≡ sizes self.old }
        ensures changed { (v : SegmentView) × (self.new ≡ slice_set self.old s v) × (v.board.claims ≡ slice_set (segment_at self.old s).board.claims worker None) }
        ensures state { (claim : Claim) → claim.job ≡ code_of job → row_of self.new ≡ abandoned (row_of self.old) worker (lifted s claim) }
    {
        self.segments[s as usize].abandon(worker, job)
    }

    /// The worker gives the Pass of segment s up.
    pub fn abandon_pass(&mut self, s: u32, worker: u32) -> Option<Held>
        requires worker { worker < most_workers }
        requires segment { s < length self.old }
        requires alone { HasNoOther (length self.old) (parts self.old) s worker }
        ensures sizes { sizes self.new ≡ sizes self.old }
        ensures changed { (v : SegmentView) × (self.new ≡ slice_set self.old s v) × (v.board.claims ≡ slice_set (segment_at self.old s).board.claims worker None) }
        ensures state { (claim : Claim) → claim.job ≡ 2047 → row_of self.new ≡ abandoned (row_of self.old) worker (lifted s claim) }
    {
        self.segments[s as usize].abandon_pass(worker)
    }

    // In segment s the worker's Pass ends.
    fn close_pass(&mut self, s: u32, worker: u32) -> Option<Held>
        requires worker { worker < most_workers }
        requires segment { s < length self.old }
        ensures row { (v : SegmentView) × (self.new ≡ slice_set self.old s v) × (v.board.leaves ≡ (segment_at self.old s).board.leaves) × (v.on ≡ (segment_at self.old s).on)
            × ((claim : Claim) → claim.job ≡ 2047 → segment_state v ≡ pass_closed (parts self.old s) worker claim)
            × (v.board.claims ≡ slice_set (segment_at self.old s).board.claims worker None) }
    {
        self.segments[s as usize].close_pass(worker)
    }

    // The root of segment s has this correction.
    fn give_root(&mut self, s: u32, correction: Marks) -> Marks
        requires segment { s < length self.old }
        ensures row { (v : SegmentView) × (self.new ≡ slice_set self.old s v) × (v.board.leaves ≡ (segment_at self.old s).board.leaves)
            × ((effect : ℕ → List MarkType → List MarkType) → segment_state v ≡ given_root (passing_net effect (segment_at self.old s).board.leaves (segment_at self.old s).on) (parts self.old s) correction)
            × (v.board.claims ≡ (segment_at self.old s).board.claims) }
    {
        self.segments[s as usize].give_root(correction)
    }

    /// The worker's Pass of segment s gave the correction of the next segment's root. It answers what stood.
    pub fn finish_pass(&mut self, s: u32, worker: u32, correction: Marks) -> Stood
        requires worker { worker < most_workers }
        requires small { s + 1 < 2 ^ 32 }
        requires segment { s + 1 < length self.old }
        requires on { hands_on (sizes self.old) s ≡ true }
        requires alone { HasNoOther (length self.old) (parts self.old) s worker }
        ensures sizes { sizes self.new ≡ sizes self.old }
        ensures claims { HasChangedClaim s worker None self.old self.new }
        ensures state { (does : ℕ → List MarkType → List MarkType) (claim : Claim) → claim.job ≡ 2047 → correction ≡ and_then (first_of claim.inputs) (second_of claim.inputs) →
            row_of self.new ≡ finished (line_net does (sizes self.old)) (row_of self.old) worker (lifted s claim) }
    {
        let _segments = self.segments.len();
        let held = self.close_pass(s, worker);
        let first = self.give_root(s + 1, correction);
        Stood {
            held,
            first: Some(first),
            second: None,
        }
    }
}

mod by_code;
mod front;
mod look;
mod opening;
