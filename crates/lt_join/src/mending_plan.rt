//! The plan of a body with the term of its first level pinned.
ghost use Rattle.std.specs.Prelude.{ℕ};
ghost use Rattle.lt_model.specs.declared.normal.Body.{Body as BodyView};
ghost use Rattle.lt_query.specs.Plan.{IsPlanOf, term_at};
ghost use Rattle.lt_query.specs.declared.plans.Plan.{Plan as PlanView};
ghost use Rattle.lt_join.specs.MendedPlan.{pinned_plan, MayPin};
ghost use Rattle.lt_join.specs.Sliced.{pinned};

/// Where a plan is one of a body's, it is one of the body with the first level's term pinned to a key, once that level has the
/// key as its one pin.
pub fn pinned_plans_are_plans()
    ensures { (key : ℕ) (body : BodyView) (plan : PlanView) → MayPin (term_at plan.levels 0) key → IsPlanOf body plan → IsPlanOf (pinned (term_at plan.levels 0) key body) (pinned_plan key plan) }
{}
