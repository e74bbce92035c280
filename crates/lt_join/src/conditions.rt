//! The conditions of a body that are no atoms.
ghost use Rattle.std.specs.Prelude.{◌≡◌, ◌<◌, Some};
ghost use Rattle.std.specs.List.{AllByRecursion, list_all};
ghost use Rattle.lt_face.specs.Limits.{most_variables};
ghost use Rattle.lt_model.specs.Answers.{give as given, give_value as value_given, give_all as all_given, compare_by, passes as test_passes};
ghost use Rattle.lt_model.specs.Cells.{sum_of as sum_value};
ghost use Rattle.lt_join.specs.Values.{values_in, assigned, IsTest};

use crate::values::Values;
use lt_face::key::Key;
use lt_model::normal::{Term, Test};
use lt_model::syntax::Op;
use lt_values::{difference, sum};

pub(crate) fn compare(op: Op, x: Key, y: Key) -> bool
    ensures { result ≡ compare_by op x y }
{
    match op {
        Op::Eq => x == y,
        Op::Ne => x != y,
        Op::Lt => x < y,
        Op::Le => x <= y,
        Op::Gt => x > y,
        Op::Ge => x >= y,
    }
}

/// The value of the right side of a sum, or with a minus of a difference, where it has one.
pub(crate) fn sum_of(minus: bool, x: Key, y: Key) -> Option<Key>
    ensures { result ≡ sum_value minus x y }
{
    if minus { difference(x, y) } else { sum(x, y) }
}

/// Gives a variable a value, if it had none.
pub(crate) fn give_value(values: &mut Values, v: u32, cell: Key)
    requires { v < most_variables }
    ensures { values_in values.new.cells ≡ value_given (values_in values.old.cells) v (Some cell) }
{
    if values.get(v).is_none() {
        values.set(v, cell);
    }
}

/// Gives the variable on the left of a literal with `=` the value of its right side, if it had none.
fn give(values: &mut Values, test: Test)
    requires { IsTest test }
    ensures { values_in values.new.cells ≡ given (values_in values.old.cells) test }
{
    match test {
        Test::Cmp {
            left: Term::Var(v),
            op: Op::Eq,
            right,
        } => {
            if let Some(cell) = values.value(right) {
                give_value(values, v, cell);
            }
        }
        Test::Sum { var, a, minus, b } => {
            if let (Some(x), Some(y)) = (values.value(a), values.value(b)) {
                if let Some(cell) = sum_of(minus, x, y) {
                    give_value(values, var, cell);
                }
            }
        }
        Test::Cmp { .. } => {}
    }
}

/// Gives the values that the literals with `=` give, in their order.
pub(crate) fn give_each(values: &mut Values, tests: &[Test])
    requires { AllByRecursion IsTest tests.now }
    ensures { values_in values.new.cells ≡ all_given (values_in values.old.cells) tests.now }
{
    for test in tests {
        give(values, *test);
    }
}

/// The values with those that the literals with `=` give, in their order.
pub fn give_all(values: &Values, tests: &[Test]) -> Values
    requires { AllByRecursion IsTest tests.now }
    ensures { values_in result.cells ≡ all_given (values_in values.now.cells) tests.now }
{
    let mut all = *values;
    give_each(&mut all, tests);
    all
}

/// Whether a condition holds.
fn passes(values: &Values, test: Test) -> bool
    requires { IsTest test }
    ensures { result ≡ test_passes (assigned (values_in values.now.cells)) test }
{
    match test {
        Test::Cmp { left, op, right } => compare(op, values.cell(left), values.cell(right)),
        Test::Sum { var, a, minus, b } => {
            let cell = values.cell(Term::Var(var));
            sum_of(minus, values.cell(a), values.cell(b)) == Some(cell)
        }
    }
}

/// Whether all conditions hold.
pub fn all_pass(values: &Values, tests: &[Test]) -> bool
    requires { AllByRecursion IsTest tests.now }
    ensures { result ≡ list_all (test_passes (assigned (values_in values.now.cells))) tests.now }
{
    for test in tests {
        if !passes(values, *test) {
            return false;
        }
    }
    true
}
