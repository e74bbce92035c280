//! Plans of forms, with constants in the places of their numbers.
ghost use Rattle.std.specs.Prelude.{◌≡◌, ◌<◌, [], length, map, set, slice_get, Some, IsTrue, IsFalse};
ghost use Rattle.lt_model.specs.Forms.{put as put_cell};
ghost use Rattle.lt_query.specs.declared.plans.Plan.{Plan as PlanType};
ghost use Rattle.lt_query.specs.Filling.{on_level, on_plan};

use crate::filling::{filled_term, taken};
use crate::{Level, Plan};
use lt_face::items::Items;
use lt_face::key::Key;

/// Makes a level that of a form with these constants. False where it isn't tied to the same levels, or has not as many pins.
fn refill_level(level: &mut Level, of_form: &Level, cells: &[Key]) -> bool
    ensures { IsTrue result → level.new ≡ on_level (put_cell cells.now) of_form.now }
{
    if level.ties.as_slice() != of_form.ties.as_slice() {
        return false;
    }
    level.term = filled_term(of_form.term, cells);
    level.pins.refill(of_form.pins.as_slice(), cells)
}

fn refill_levels(levels: &mut Items<Level>, of_form: &[Level], cells: &[Key]) -> bool
    ensures { IsTrue result → levels.new ≡ map (on_level (put_cell cells.now)) of_form.now }
{
    if levels.len() != of_form.len() {
        return false;
    }
    let mut list = taken(levels);
    for i in 0..of_form.len() {
        if !refill_level(&mut list[i], &of_form[i], cells) {
            return false;
        }
    }
    *levels = Items::from_vec(list);
    true
}

/// Makes the plan that of a form with these constants, where both go through their atoms in one way.
fn refill_plan(plan: &mut Plan, of_form: &Plan, cells: &[Key]) -> bool
    requires { plan.old.guides ≡ of_form.now.guides }
    ensures { IsTrue result → plan.new ≡ on_plan (put_cell cells.now) of_form.now }
{
    refill_levels(&mut plan.levels, of_form.levels.as_slice(), cells)
}

/// Makes the plan at a place that of a form with these constants, where both go through their atoms in one way. It takes no
/// memory. False where there is none at the place, or it is another one's; then none is left.
pub(crate) fn refill_plan_at(
    plans: &mut Items<Plan>,
    place: usize,
    of_form: &Plan,
    cells: &[Key],
) -> bool
    requires { (plan : PlanType) → slice_get plans.old place ≡ Some plan → plan.guides ≡ of_form.now.guides }
    ensures within { IsTrue result → place < length plans.old }
    ensures filled { IsTrue result → plans.new ≡ set plans.old place (on_plan (put_cell cells.now) of_form.now) }
    ensures none { IsFalse result → plans.new ≡ [] }
{
    let mut list = taken(plans);
    if place >= list.len() {
        return false;
    }
    if !refill_plan(&mut list[place], of_form, cells) {
        return false;
    }
    *plans = Items::from_vec(list);
    true
}
