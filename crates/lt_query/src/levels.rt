//! The levels of an order of terms.

ghost use Rattle.std.specs.Prelude.{◌≡◌, ◌<◌, [], ◌∷◌, length, IfOk, Some, None};
ghost use Rattle.std.specs.Option.{option_to_list};
ghost use Rattle.std.specs.List.{All};
ghost use Rattle.lt_model.specs.declared.normal.Term.TheVariants.{Var};
ghost use Rattle.lt_query.specs.LevelsOf.{constants_of, first_place as first_level_of, level_behind, level_terms, levels_from};
ghost use Rattle.lt_query.specs.Order.{place_at, places_of, terms_at};

use crate::places::is_var;
use crate::{Atom, Level, Pins, Term, Test};
use lt_face::items::Items;
use lt_face::memory::NoMemory;
use lt_model::syntax::Op;
use std::alloc::Global;

/// The constant that the test equates the variable with, if it does.
fn constant_of(test: &Test, v: u32) -> Option<u128>
    ensures { option_to_list result ≡ constants_of (test.now ∷ []) v }
{
    match *test {
        Test::Cmp {
            left: Term::Var(u),
            op: Op::Eq,
            right: Term::Cell(c),
        } => { if u == v { Some(c) } else { None } }
        Test::Cmp { .. } => None,
        Test::Sum { .. } => None,
    }
}

/// The constants that tests equate the variable with.
fn constants(alloc: Global, tests: &[Test], v: u32) -> Result<Pins, NoMemory>
    ensures { IfOk result (λ constants. constants ≡ constants_of tests.now v) }
{
    let mut constants = Pins::new(alloc);
    for test in tests {
        if let Some(c) = constant_of(test, v) {
            constants.push(c)?;
        }
    }
    Ok(constants)
}

/// The first level of a variable, if it has one.
fn first_level(seen: &[Level], v: u32) -> Option<usize>
    ensures { option_to_list result ≡ first_level_of 0 (level_terms seen.now) v }
{
    for l in 0..seen.len() {
        if is_var(seen[l].term, v) {
            return Some(l);
        }
    }
    None
}

/// A list of one.
fn only(alloc: Global, x: usize) -> Result<Items<usize>, NoMemory>
    ensures { IfOk result (λ list. list ≡ x ∷ []) }
{
    let mut list = Items::from_vec(Vec::with_capacity(alloc, 1)?);
    list.push(x)?;
    Ok(list)
}

/// The level of a variable behind those seen: its first one has the constants that tests equate it with, and a later one is
/// tied to the first.
fn variable_level(alloc: Global, tests: &[Test], seen: &[Level], v: u32) -> Result<Level, NoMemory>
    ensures { IfOk result (λ level. level ≡ level_behind tests.now (level_terms seen.now) (Var v)) }
{
    let term = Term::Var(v);
    match first_level(seen, v) {
        Some(first) => {
            let ties = only(alloc, first)?;
            let pins = Pins::new(alloc);
            Ok(Level { term, pins, ties })
        }
        None => {
            let pins = constants(alloc, tests, v)?;
            let ties = Items::new(alloc);
            Ok(Level { term, pins, ties })
        }
    }
}

/// The level of a term behind those seen. A constant has to be itself.
fn level(alloc: Global, tests: &[Test], seen: &[Level], term: Term) -> Result<Level, NoMemory>
    ensures { IfOk result (λ level. level ≡ level_behind tests.now (level_terms seen.now) term) }
{
    match term {
        Term::Var(v) => {
            let level = variable_level(alloc, tests, seen, v)?;
            Ok(level)
        }
        Term::Cell(c) => {
            let mut pins = Pins::new(alloc);
            pins.push(c)?;
            let ties = Items::new(alloc);
            Ok(Level { term, pins, ties })
        }
    }
}

/// The term at a place of the atoms.
fn term_at(atoms: &[Atom], place: usize) -> Term
    requires { place < length (places_of atoms.now) }
    ensures { result ≡ (place_at (places_of atoms.now) place).term }
{
    let mut left = place;
    for atom in atoms {
        let terms = atom.terms.as_slice();
        if left < terms.len() {
            return terms[left];
        }
        left -= terms.len();
    }
    Term::Cell(0)
}

/// A level for the term of each place of the atoms, in this order.
pub fn levels(
    alloc: Global,
    tests: &[Test],
    atoms: &[Atom],
    order: &[usize],
) -> Result<Items<Level>, NoMemory>
    requires { All (λ p. p < length (places_of atoms.now)) order.now }
    ensures { IfOk result (λ levels. levels ≡ levels_from tests.now [] (terms_at (places_of atoms.now) order.now)) }
{
    let mut levels = Items::from_vec(Vec::with_capacity(alloc, order.len())?);
    for p in order {
        let level = level(alloc, tests, levels.as_slice(), term_at(atoms, *p))?;
        levels.push(level)?;
    }
    Ok(levels)
}
