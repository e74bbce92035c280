//! Claims by the codes of a line's jobs.
#![tactic(auto)]

ghost use Rattle.std.specs.Prelude.{◌≡◌, ◌≢◌, ℕ, ◌/◌, ◌<◌, List, [], Some, None, length, slice_set};
ghost use Rattle.lt_face.specs.Limits.{most_workers};
ghost use Rattle.lt_model.specs.declared.mark.Mark.{Mark as MarkType};
ghost use Rattle.lt_net.specs.Line.{line_inputs, line_job, line_net};
ghost use Rattle.lt_net.specs.Net.{Claim, abandoned, claimed, read};
ghost use Rattle.lt_net.specs.Row.{HasNoOther};
ghost use Rattle.lt_circuit.specs.declared.cells.Held.{Held as HeldType};
ghost use Rattle.lt_circuit.specs.Board.{inputs_list};
ghost use Rattle.lt_circuit.specs.Row.{parts, row_of, segment_at, sizes};
ghost use Rattle.lt_circuit.specs.Segment.{SegmentView};

use super::Row;
use crate::cells::{Held, Inputs};
use lt_delta::Marks;
use lt_net::{CODES, JobName, PASS};

impl Row {
    /// The worker holds the job of this code, on inputs that stand now.
    pub fn hold_at(&mut self, worker: u32, code: u32, inputs: Inputs, prior: Option<Marks>)
        requires worker { worker < most_workers }
        requires job { line_inputs (sizes self.old) (line_job code) ≢ [] }
        requires inputs { inputs_list inputs ≡ read (row_of self.old).value (line_inputs (sizes self.old) (line_job code)) }
        requires prior { prior ≡ (row_of self.old).done code }
        requires free { (row_of self.old).claim worker ≡ None }
        ensures sizes { sizes self.new ≡ sizes self.old }
        ensures changed { (v : SegmentView) × (held : HeldType) × (self.new ≡ slice_set self.old (code / 2048) v) × (v.board.claims ≡ slice_set (segment_at self.old (code / 2048)).board.claims worker (Some held)) }
        ensures state { (does : ℕ → List MarkType → List MarkType) →
            row_of self.new ≡ claimed (line_net does (sizes self.old)) (row_of self.old) worker code }
    {
        let _segments = self.segments.len();
        let s = code / CODES;
        let place = code % CODES;
        if place == PASS {
            self.hold_pass(s, worker, inputs);
            return;
        }
        self.hold(s, worker, JobName::of(place), inputs, prior);
    }

    /// The worker gives the job of this code up. It answers what the worker held.
    pub fn abandon_at(&mut self, worker: u32, code: u32) -> Option<Held>
        requires worker { worker < most_workers }
        requires job { line_inputs (sizes self.old) (line_job code) ≢ [] }
        requires alone { HasNoOther (length self.old) (parts self.old) (code / 2048) worker }
        ensures sizes { sizes self.new ≡ sizes self.old }
        ensures changed { (v : SegmentView) × (self.new ≡ slice_set self.old (code / 2048) v) × (v.board.claims ≡ slice_set (segment_at self.old (code / 2048)).board.claims worker None) }
        ensures state { (claim : Claim) → claim.job ≡ code → row_of self.new ≡ abandoned (row_of self.old) worker claim }
    {
        let _segments = self.segments.len();
        let s = code / CODES;
        let place = code % CODES;
        if place == PASS {
            return self.abandon_pass(s, worker);
        }
        self.abandon(s, worker, JobName::of(place))
    }
}
