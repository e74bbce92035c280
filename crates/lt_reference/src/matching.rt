//! A row of a relation against the terms of an atom.
ghost use Rattle.std.specs.Prelude.{◌≡◌, Some, None, MatchBool, MatchOption};
ghost use Rattle.std.specs.List.{AllByRecursion};
ghost use Rattle.lt_face.specs.Limits.{most_variables};
ghost use Rattle.lt_model.specs.Fits.{IsTermOf};
ghost use Rattle.lt_join.specs.Values.{values_in};
ghost use Rattle.lt_reference.specs.Values.{accept as accepted, matched as matched_from};

use lt_face::key::Key;
use lt_face::row::Row;
use lt_join::values::Values;
use lt_model::normal::Term;

/// Whether the term can be this cell. A variable without a value gets it.
fn accept(values: &mut Values, term: Term, cell: Key) -> bool
    requires { IsTermOf most_variables term }
    ensures { MatchBool result (accepted (values_in values.old.cells) term cell ≡ Some (values_in values.new.cells)) (accepted (values_in values.old.cells) term cell ≡ None) }
{
    match term {
        Term::Cell(c) => c == cell,
        Term::Var(v) => match values.get(v) {
            Some(known) => known == cell,
            None => {
                values.set(v, cell);
                true
            }
        },
    }
}

/// The values with those that the row gives the terms' variables, or `None` where the row is none of the atom's.
pub(crate) fn matched(values: &Values, terms: &[Term], row: &Row) -> Option<Values>
    requires { AllByRecursion (IsTermOf most_variables) terms.now }
    ensures { MatchOption result (matched_from (values_in values.now.cells) terms.now row.now ≡ None) (λ next. matched_from (values_in values.now.cells) terms.now row.now ≡ Some (values_in next.cells)) }
{
    let cells = row.cells();
    if cells.len() != terms.len() {
        return None;
    }
    let mut next = *values;
    for (i, term) in terms.iter().enumerate() {
        if !accept(&mut next, *term, cells[i]) {
            return None;
        }
    }
    Some(next)
}
