//! What a circuit runs at its leaves.
ghost use Rattle.std.specs.Prelude.{◌≡◌, ◌≤◌, ◌+◌, ℕ, List, [], Option, IfOk, IfSome};
ghost use Rattle.std.specs.Option.{option_map};
ghost use Rattle.lt_model.specs.declared.mark.Mark.{Mark};
ghost use Rattle.lt_model.specs.Marks.{AreMarks, and_then};

use lt_delta::Marks;
use lt_face::{Moves, NoMemory};

/// The leaves of a circuit. What a leaf's tally stands for is a function of the leaf and its correction alone.
pub trait LeafWork: Drop {
    type Tally: Drop;

    /// The work has this leaf.
    ghost has: { Self → ℕ → Type 0 };

    /// These marks fit the work.
    ghost fits: { Self → List Mark → Type 0 };

    /// What the leaf does on a correction.
    ghost does: { Self → ℕ → List Mark → List Mark };

    /// The tally is this leaf's on this correction.
    ghost stands_for: { Self → Self.Tally → ℕ → List Mark → Type 0 };

    /// How many moves the leaf takes at most, with this prior and on this correction, where the work tells it.
    ghost bound: { Self → Option Self.Tally → ℕ → List Mark → Option ℕ };

    /// Runs the leaf on the correction. `prior`, a tally of the leaf on some correction, is help.
    fn work<L>(
        &self,
        leaf: u32,
        prior: Option<&Self::Tally>,
        correction: &Marks,
        moves: &mut Moves<L>,
    ) -> Result<Self::Tally, NoMemory>
        requires leaf { has self.now leaf }
        requires correction { fits self.now correction.now }
        requires prior { IfSome prior (λ old. (c : List Mark) × fits self.now c × stands_for self.now old.now leaf c) }
        ensures stands { IfOk result (λ tally. stands_for self.now tally leaf correction.now) }
        ensures moves { IfSome (bound self.now (option_map (λ old. old.now) prior.entry) leaf correction.now) (λ most. moves.new ≤ moves.old + most) }
        ensures rises { moves.old ≤ moves.new };

    /// The marks of a tally.
    fn effect<'a>(&self, tally: &'a Self::Tally) -> &'a Marks
        ensures { (leaf : ℕ) (c : List Mark) → stands_for self.now tally.now leaf c → result.now ≡ does self.now leaf c };

    /// How dear the leaf's run was, in gaps and hits that it met. Nothing is said of it.
    fn weight(&self, _tally: &Self::Tally) -> usize {
        0
    }

    /// Whether most of what the leaf did hangs on its correction, so that a run without that is in vain. Nothing is said of it.
    fn is_tied(&self, _leaf: u32, _tally: &Self::Tally) -> bool {
        false
    }

    /// Whether no leaf before this one writes what it reads, so that whoever runs it ahead does nothing in vain. Nothing is
    /// said of it.
    fn is_free(&self, _leaf: u32) -> bool {
        false
    }

    /// What fits is marks.
    ghost fits_marks: { (w : Self) (a : List Mark) → fits w a → AreMarks a };

    /// No marks fit, what fits may follow what fits, and so does what a leaf of the work does on what fits.
    ghost empty_fits: { (w : Self) → fits w [] };

    ghost then_fits: { (w : Self) (a b : List Mark) → fits w a → fits w b → fits w (and_then a b) };

    ghost does_fits: { (w : Self) (leaf : ℕ) (c : List Mark) → has w leaf → fits w c → fits w (does w leaf c) };
}
