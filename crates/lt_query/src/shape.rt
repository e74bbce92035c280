//! Whether bodies have one shape, and so one plan but for the constants.
ghost use Rattle.std.specs.Prelude.{◌≡◌, ◌<◌, ◌==◌, ◌&&◌, true, false, IsTrue, ◌↔◌};
ghost use Rattle.std.specs.Cmp.Lexicographic.{pointwise};
ghost use Rattle.lt_query.specs.Shape.{shape_of, same_term as is_same_term, same_atom as is_same_atom, pinned_by, same_test as is_same_test, same_shape as is_same_shape};

use crate::{Atom, Body, Term, Test};
use lt_model::syntax::Op;

/// Whether both are one variable, or constants.
fn same_term(a: Term, b: Term) -> bool
    ensures { result ≡ is_same_term a b }
{
    match (a, b) {
        (Term::Var(u), Term::Var(v)) => u == v,
        (Term::Cell(_), Term::Cell(_)) => true,
        (Term::Var(_), Term::Cell(_)) => false,
        (Term::Cell(_), Term::Var(_)) => false,
    }
}

/// Whether these are as many terms, one by one of the same variables or constants.
fn same_terms(a: &[Term], b: &[Term]) -> bool
    ensures { result ≡ pointwise is_same_term a.now b.now }
{
    if a.len() != b.len() {
        return false;
    }
    for i in 0..a.len() {
        if !same_term(a[i], b[i]) {
            return false;
        }
    }
    true
}

/// Whether these are as many atoms, one by one of the same relations with the same variables or constants.
fn same_atoms(a: &[Atom], b: &[Atom]) -> bool
    ensures { result ≡ pointwise is_same_atom a.now b.now }
{
    if a.len() != b.len() {
        return false;
    }
    for i in 0..a.len() {
        if !same_atom(&a[i], &b[i]) {
            return false;
        }
    }
    true
}

/// Whether the atoms are of one relation, with the same variables or constants.
fn same_atom(a: &Atom, b: &Atom) -> bool
    ensures { result ≡ is_same_atom a.now b.now }
{
    a.relation == b.relation && same_terms(a.terms.as_slice(), b.terms.as_slice())
}

/// The variable that the test equates with a constant, if it does.
fn pinned(test: &Test) -> Option<u32>
    ensures { result ≡ pinned_by test.now }
{
    match *test {
        Test::Cmp {
            left: Term::Var(v),
            op: Op::Eq,
            right: Term::Cell(_),
        } => Some(v),
        Test::Cmp { .. } => None,
        Test::Sum { .. } => None,
    }
}

/// Whether both pin one variable, or neither pins one.
fn same_test(a: &Test, b: &Test) -> bool
    ensures { result ≡ is_same_test a.now b.now }
{
    match (pinned(a), pinned(b)) {
        (Some(u), Some(v)) => u == v,
        (None, None) => true,
        (Some(_), None) => false,
        (None, Some(_)) => false,
    }
}

/// Whether these are as many tests, which one by one pin the same variable or none.
fn same_tests(a: &[Test], b: &[Test]) -> bool
    ensures { result ≡ pointwise is_same_test a.now b.now }
{
    if a.len() != b.len() {
        return false;
    }
    for i in 0..a.len() {
        if !same_test(&a[i], &b[i]) {
            return false;
        }
    }
    true
}

/// Whether the bodies have one shape: the same relations, variables and constants in the same places, whatever the constants
/// are, and literals that pin the same variables. Then their plans are one but for the constants.
pub fn same_shape(a: &Body, b: &Body) -> bool
    ensures value { result ≡ is_same_shape a.now b.now }
    ensures shapes { IsTrue result ↔ (shape_of a.now ≡ shape_of b.now) }
{
    same_atoms(a.atoms.as_slice(), b.atoms.as_slice())
        && same_tests(a.tests.as_slice(), b.tests.as_slice())
}
