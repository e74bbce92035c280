//! The plan of a body: the order of variables in which a leapfrog triejoin (Veldhuizen, Leapfrog Triejoin, ICDT 2014) meets
//! its atoms.
ghost use Rattle.std.specs.Prelude.{◌≡◌, IfOk};
ghost use Rattle.lt_face.specs.State.{State};
ghost use Rattle.lt_model.specs.Fits.{IsBodyOf};
ghost use Rattle.lt_query.specs.Plan.{IsPlanOf};
ghost use Rattle.lt_query.specs.Runnable.{HasWidths, IsRunnable};
ghost use Rattle.lt_query.specs.Planned.{route_of};
ghost use Rattle.lt_query.specs.Stated.{stated_plan, IsStatedPlan};

use crate::guides::guides;
use crate::levels::levels;
use crate::order::stated_order;
use crate::places::places_of;
use crate::{Body, Guides, Plan, Route};
use lt_face::memory::NoMemory;

/// What the body's shape decides of its plan. Each atom has 1 to 8 terms.
pub fn route(body: &Body) -> Result<Route, NoMemory>
    requires widths { HasWidths body.now }
    ensures { IfOk result (λ route. route ≡ route_of body.now) }
{
    let alloc = body.atoms.allocator();
    let places = places_of(alloc, body.atoms.as_slice())?;
    let order = stated_order(alloc, body.tests.as_slice(), places.as_slice())?;
    let made = guides(
        alloc,
        body.atoms.as_slice(),
        places.as_slice(),
        order.as_slice(),
    )?;
    let guides = Guides::new(alloc, made)?;
    Ok(Route { order, guides })
}

/// The plan of the body, by its shape's route.
pub fn plan_by(route: &Route, body: &Body) -> Result<Plan, NoMemory>
    requires widths { HasWidths body.now }
    requires route { route.now ≡ route_of body.now }
    ensures value { IfOk result (λ plan. plan ≡ stated_plan body.now) }
    ensures of_body { IfOk result (λ plan. IsPlanOf body.now plan) }
    ensures in_order { IfOk result (λ plan. IsStatedPlan body.now plan) }
    ensures runnable { IfOk result (λ plan. (state : State) → IsBodyOf state body.now → IsRunnable body.now plan) }
{
    let levels = levels(
        body.atoms.allocator(),
        body.tests.as_slice(),
        body.atoms.as_slice(),
        route.order.as_slice(),
    )?;
    let guides = route.guides.share()?;
    Ok(Plan { levels, guides })
}

/// The plan of the body in the stated order of its variables: the pinned ones first, then by their first place, and each
/// tied one directly after its original. Each atom has 1 to 8 terms. A join can follow the plan where the body fits.
pub fn plan(body: &Body) -> Result<Plan, NoMemory>
    requires widths { HasWidths body.now }
    ensures value { IfOk result (λ plan. plan ≡ stated_plan body.now) }
    ensures of_body { IfOk result (λ plan. IsPlanOf body.now plan) }
    ensures in_order { IfOk result (λ plan. IsStatedPlan body.now plan) }
    ensures runnable { IfOk result (λ plan. (state : State) → IsBodyOf state body.now → IsRunnable body.now plan) }
{
    let route = route(body)?;
    let plan = plan_by(&route, body)?;
    Ok(plan)
}
