//! Slices of a body, mended where rows changed.
ghost use Rattle.std.specs.Prelude.{◌≡◌, ◌<◌, ℕ, List, true, length};
ghost use Rattle.lt_face.specs.State.{State};
ghost use Rattle.lt_model.specs.declared.normal.Term.{Term as TermView};
ghost use Rattle.lt_model.specs.declared.normal.Body.{Body as BodyView};
ghost use Rattle.lt_model.specs.Answers.{answers as answers_of, ascending as ascending_rows};
ghost use Rattle.lt_model.specs.Bound.{are_bound};
ghost use Rattle.lt_query.specs.Answering.{AreTestsBound};
ghost use Rattle.lt_query.specs.Lists.{IsRising};
ghost use Rattle.lt_query.specs.Plan.{IsPlanOf};
ghost use Rattle.lt_query.specs.declared.plans.Plan.{Plan as PlanView};
ghost use Rattle.lt_sense.specs.Kept.{Sense as SenseView};
ghost use Rattle.lt_sense.specs.Sense.{AgreeWhereCovered, IsTight};
ghost use Rattle.lt_join.specs.Certify.{Certifies};
ghost use Rattle.lt_join.specs.Slices.{Slice as SliceView};
ghost use Rattle.lt_sense.specs.Cut.{cut};
ghost use Rattle.lt_join.specs.Mended.{AreSlicesOn, HaveTouched, AreMended, AreJoinedOn};
ghost use Rattle.lt_join.specs.Sliced.{slice_keys, united, sliced_rows};

/// Where the root gaps and the slices were those of a state, and rows changed, the root gaps cut at the touched keys and the
/// slices mended at them are those of the new state. What root gaps and slices keep together certifies the body and is tight,
/// and the body's answers are those of the slices.
pub fn mended_slices_are_slices()
    ensures mended { (keys : List ℕ) (terms : List TermView) (body : BodyView) (plan : PlanView) (s t : State) (root : SenseView) (old new : List SliceView) → AreSlicesOn terms body plan s root old → HaveTouched keys root old s t → AreMended keys old new → IsRising (slice_keys new) → AreJoinedOn keys terms body plan t new → AreSlicesOn terms body plan t (cut keys root) new }
    ensures certified { (terms : List TermView) (body : BodyView) (plan : PlanView) (state : State) (root : SenseView) (slices : List SliceView) → IsPlanOf body plan → 0 < length plan.levels → AreSlicesOn terms body plan state root slices → Certifies (united root slices) body state }
    ensures tight { (terms : List TermView) (body : BodyView) (plan : PlanView) (state : State) (root : SenseView) (slices : List SliceView) → AreSlicesOn terms body plan state root slices → IsTight (united root slices) state }
    ensures answers { (terms : List TermView) (body : BodyView) (plan : PlanView) (state : State) (root : SenseView) (slices : List SliceView) → IsPlanOf body plan → 0 < length plan.levels → AreTestsBound body → are_bound body terms ≡ true → AreSlicesOn terms body plan state root slices → answers_of terms body state ≡ ascending_rows (sliced_rows slices) }
{}

/// Where root gaps and slices are those of a state, they are those of each state that agrees with it on all that they cover.
pub fn slices_stay()
    ensures { (terms : List TermView) (body : BodyView) (plan : PlanView) (s t : State) (root : SenseView) (slices : List SliceView) → AreSlicesOn terms body plan s root slices → AgreeWhereCovered (united root slices) s t → AreSlicesOn terms body plan t root slices }
{}
