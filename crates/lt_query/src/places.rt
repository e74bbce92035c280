//! The places of a body's atoms, in text order.

ghost use Rattle.std.specs.Prelude.{◌≡◌, ◌+◌, ◌<◌, [], ◌++◌, length, OnOk, IfOk};
ghost use Rattle.lt_model.specs.Bound.{is_var as is_this_var, stands};
ghost use Rattle.lt_query.specs.Order.{stands_again as is_again, places_in, places_of as all_places, first_from, origin as origin_at};

use crate::{Atom, Term};
use lt_face::items::Items;
use lt_face::memory::NoMemory;
use std::alloc::Global;

/// A column of an atom. `again` says that its variable stands in an earlier column of the same atom.
#[derive(Clone, Copy, PartialEq, Eq, Debug)]
pub struct Place {
    pub term: Term,
    pub again: bool,
}

/// Whether the term is this variable.
pub fn is_var(term: Term, v: u32) -> bool
    ensures { result ≡ is_this_var v term }
{
    match term {
        Term::Var(u) => u == v,
        Term::Cell(_) => false,
    }
}

/// Whether the variable is one of the terms.
pub fn stands_in(terms: &[Term], v: u32) -> bool
    ensures { result ≡ stands terms.now v }
{
    for term in terms {
        if is_var(*term, v) {
            return true;
        }
    }
    false
}

/// Whether the term is a variable that is one of the terms before it.
fn stands_again(before: &[Term], term: Term) -> bool
    ensures { result ≡ is_again before.now term }
{
    match term {
        Term::Var(v) => stands_in(before, v),
        Term::Cell(_) => false,
    }
}

/// Adds the places of an atom's terms.
fn add_places(places: &mut Items<Place>, terms: &[Term]) -> Result<(), NoMemory>
    ensures { OnOk result (places.new ≡ places.old ++ places_in [] terms.now) }
{
    for column in 0..terms.len() {
        let term = terms[column];
        let again = stands_again(&terms[..column], term);
        places.push(Place { term, again })?;
    }
    Ok(())
}

/// How many columns the atoms have, or fewer: room for their places.
fn column_count(atoms: &[Atom]) -> usize {
    let mut count: usize = 0;
    for atom in atoms {
        count = count.saturating_add(atom.terms.len());
    }
    count
}

/// The places of the atoms.
pub fn places_of(alloc: Global, atoms: &[Atom]) -> Result<Items<Place>, NoMemory>
    ensures { IfOk result (λ places. places ≡ all_places atoms.now) }
{
    let mut places = Items::from_vec(Vec::with_capacity(alloc, column_count(atoms))?);
    for atom in atoms {
        add_places(&mut places, atom.terms.as_slice())?;
    }
    Ok(places)
}

/// The first place of a variable, or how many places there are.
pub fn first_place(places: &[Place], v: u32) -> usize
    ensures { result ≡ first_from 0 places.now v }
{
    for p in 0..places.len() {
        if is_var(places[p].term, v) {
            return p;
        }
    }
    places.len()
}

/// Where the variable of a place begins. A constant, and a variable that stands again in its atom, is a variable of its own.
pub fn origin(places: &[Place], p: usize) -> usize
    requires { p < length places.now }
    ensures { result ≡ origin_at places.now p }
{
    let place = places[p];
    match place.term {
        Term::Cell(_) => p,
        Term::Var(v) => {
            if place.again {
                p
            } else {
                first_place(places, v)
            }
        }
    }
}
