//! The laws of marks.
ghost use Rattle.std.specs.Prelude.{◌≡◌, []};
ghost use Rattle.lt_face.specs.State.{State};
ghost use Rattle.lt_model.specs.Fits.{FitMarks};
ghost use Rattle.lt_model.specs.Laws.{LaidHas, LaidTwice};
ghost use Rattle.lt_model.specs.Marks.{Marks, AreMarks, and_then, laid};
ghost use Rattle.lt_model.specs.State.{IsState};

/// One after another is associative, the empty marks are its unit, and marks that fit a state stay so.
pub fn composition()
    ensures associative { (a b c : Marks) → AreMarks a → AreMarks b →
        and_then (and_then a b) c ≡ and_then a (and_then b c) }
    ensures left { (a : Marks) → AreMarks a → and_then [] a ≡ a }
    ensures right { (a : Marks) → and_then a [] ≡ a }
    ensures ascending { (a b : Marks) → AreMarks a → AreMarks (and_then a b) }
    ensures fits { (state : State) (a b : Marks) → FitMarks state a → FitMarks state b → FitMarks state (and_then a b) }
{}

/// A laid state has a row where the marks say so, and else where the state has it. Laying marks and then others is
/// laying what comes of both.
pub fn laying()
    ensures rows { LaidHas }
    ensures twice { LaidTwice }
    ensures kept { (state : State) (marks : Marks) → IsState state → FitMarks state marks → IsState (laid state marks) }
{}
