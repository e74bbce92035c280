//! The stated order of a body's variables.

ghost use Rattle.std.specs.Prelude.{◌≡◌, ◌+◌, ◌<◌, true, false, ◌++◌, length, OnOk, IfOk};
ghost use Rattle.std.specs.List.{list_any};
ghost use Rattle.lt_model.specs.declared.normal.Term.TheVariants.{Var};
ghost use Rattle.lt_query.specs.Order.{pins_variable as is_pin_of, is_pinned as is_term_pinned, is_first as is_first_at, is_original as is_original_at, tied_to, with_tied, originals, stated_order as order_of};

use crate::places::{Place, first_place, is_var};
use crate::{Term, Test};
use lt_face::items::Items;
use lt_face::memory::NoMemory;
use lt_model::syntax::Op;
use std::alloc::Global;

/// Whether the test equates the variable with a constant.
fn pins_variable(test: &Test, v: u32) -> bool
    ensures { result ≡ is_pin_of v test.now }
{
    match *test {
        Test::Cmp {
            left: Term::Var(u),
            op: Op::Eq,
            right: Term::Cell(_),
        } => u == v,
        Test::Cmp { .. } => false,
        Test::Sum { .. } => false,
    }
}

/// Whether a test equates the variable with a constant.
fn is_equated(tests: &[Test], v: u32) -> bool
    ensures { result ≡ list_any (is_pin_of v) tests.now }
{
    for test in tests {
        if pins_variable(test, v) {
            return true;
        }
    }
    false
}

/// Whether the term is a constant, or a variable that a test equates with one.
fn is_pinned(tests: &[Test], term: Term) -> bool
    ensures { result ≡ is_term_pinned tests.now term }
{
    match term {
        Term::Var(v) => is_equated(tests, v),
        Term::Cell(_) => true,
    }
}

/// Whether the place is the first of its term; a constant is a variable of its own.
fn is_first(places: &[Place], p: usize, term: Term) -> bool
    ensures { result ≡ is_first_at places.now p term }
{
    match term {
        Term::Var(v) => first_place(places, v) == p,
        Term::Cell(_) => true,
    }
}

/// Whether an original stands first at the place, and is pinned or isn't, as asked.
fn is_original(tests: &[Test], places: &[Place], pinned: bool, p: usize) -> bool
    requires { p < length places.now }
    ensures { result ≡ is_original_at tests.now places.now pinned p }
{
    let term = places[p].term;
    is_pinned(tests, term) == pinned && is_first(places, p, term)
}

/// Adds the places that are tied to the original of a variable.
fn add_tied(order: &mut Items<usize>, places: &[Place], v: u32) -> Result<(), NoMemory>
    ensures { OnOk result (order.new ≡ order.old ++ tied_to places.now (Var v)) }
{
    for q in 0..places.len() {
        if places[q].again && is_var(places[q].term, v) {
            order.push(q)?;
        }
    }
    Ok(())
}

/// Adds an original, and then its tied variables. None is tied to a constant.
fn add_with_tied(order: &mut Items<usize>, places: &[Place], p: usize) -> Result<(), NoMemory>
    requires { p < length places.now }
    ensures { OnOk result (order.new ≡ order.old ++ with_tied places.now p) }
{
    order.push(p)?;
    match places[p].term {
        Term::Var(v) => {
            add_tied(order, places, v)?;
            Ok(())
        }
        Term::Cell(_) => Ok(()),
    }
}

/// Adds the pinned originals, or the others, each with its tied variables.
fn add_originals(
    order: &mut Items<usize>,
    tests: &[Test],
    places: &[Place],
    pinned: bool,
) -> Result<(), NoMemory>
    ensures { OnOk result (order.new ≡ order.old ++ originals tests.now places.now pinned) }
{
    for p in 0..places.len() {
        if is_original(tests, places, pinned, p) {
            add_with_tied(order, places, p)?;
        }
    }
    Ok(())
}

/// The place at which each variable begins: first those of the pinned variables.
pub fn stated_order(
    alloc: Global,
    tests: &[Test],
    places: &[Place],
) -> Result<Items<usize>, NoMemory>
    ensures { IfOk result (λ order. order ≡ order_of tests.now places.now) }
{
    let mut order = Items::from_vec(Vec::with_capacity(alloc, places.len())?);
    add_originals(&mut order, tests, places, true)?;
    add_originals(&mut order, tests, places, false)?;
    Ok(order)
}
