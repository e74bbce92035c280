//! How the plan of a body finds the rows of each atom.
ghost use Rattle.std.specs.Prelude.{◌≡◌, true};
ghost use Rattle.lt_query.specs.Runnable.{AreAtomsWide};

use lt_face::NoMemory;
use lt_face::limits::MOST_COLUMNS;
use lt_model::syntax::Op;
use lt_query::{Atom, Body, Route, Term, Test, route};
use std::alloc::Global;

/// How the rows of an atom are found, once what stands before it has values.
#[derive(Clone, Copy)]
pub enum Found {
    /// All columns have values.
    Row,
    /// The key has a value, so that there is one row at most.
    ByKey,
    /// The rows that begin with what has values are gone through.
    Range,
    Whole,
}

// A column of an atom with this number, and whether it has a value by itself: a constant, or the same variable before it in the
// atom.
#[derive(Clone, Copy)]
struct Place {
    atom: usize,
    term: Term,
    fixed: bool,
    again: bool,
}

/// The order in which a body's variables get their values, and how its atoms are gone through.
#[derive(Drop)]
pub struct Steps {
    route: Route,
    places: Vec<Place>,
    // The places at which something gets a value, but for those of variables that stand before in the same atom.
    firsts: Vec<usize>,
    // The terms of the plan's levels.
    levels: Vec<Term>,
}

// Whether a test equates the variable with a constant.
fn is_equated(tests: &[Test], v: u32) -> bool {
    for test in tests {
        if let Test::Cmp {
            left: Term::Var(u),
            op: Op::Eq,
            right: Term::Cell(_),
        } = test
        {
            if *u == v {
                return true;
            }
        }
    }
    false
}

// Whether the term has a value before any row is looked at.
fn is_fixed(tests: &[Test], term: Term) -> bool {
    match term {
        Term::Var(v) => is_equated(tests, v),
        Term::Cell(_) => true,
    }
}

fn push_places(
    places: &mut Vec<Place>,
    tests: &[Test],
    number: usize,
    atom: &Atom,
) -> Result<(), NoMemory> {
    let terms = atom.terms.as_slice();
    for (column, term) in terms.iter().enumerate() {
        let (before, _) = terms.split_at(column.min(terms.len()));
        let again = matches!(term, Term::Var(_)) && before.iter().any(|other| other == term);
        places.push(Place {
            atom: number,
            term: *term,
            fixed: is_fixed(tests, *term),
            again,
        })?;
    }
    Ok(())
}

fn places_of(alloc: Global, body: &Body) -> Result<Vec<Place>, NoMemory> {
    let mut places = Vec::new(alloc);
    for (number, atom) in body.atoms.as_slice().iter().enumerate() {
        push_places(&mut places, body.tests.as_slice(), number, atom)?;
    }
    Ok(places)
}

fn firsts_of(alloc: Global, route: &Route, places: &[Place]) -> Result<Vec<usize>, NoMemory> {
    let mut firsts = Vec::new(alloc);
    for place in route.order.as_slice() {
        let again = match places.get(*place) {
            Some(known) => known.again,
            None => true,
        };
        if !again {
            firsts.push(*place)?;
        }
    }
    Ok(firsts)
}

fn levels_of(alloc: Global, route: &Route, places: &[Place]) -> Result<Vec<Term>, NoMemory> {
    let mut levels = Vec::new(alloc);
    for place in route.order.as_slice() {
        if let Some(known) = places.get(*place) {
            levels.push(known.term)?;
        }
    }
    Ok(levels)
}

// Whether each atom has 1 to 8 columns.
fn are_wide(atoms: &[Atom]) -> bool
    ensures { result ≡ true → AreAtomsWide atoms.now }
{
    for atom in atoms {
        let width = atom.terms.len();
        if width < 1 || width > MOST_COLUMNS {
            return false;
        }
    }
    true
}

impl Steps {
    /// Those of a body. None where an atom has no columns, or too many, as no body has that was checked.
    pub fn of(alloc: Global, body: &Body) -> Result<Option<Steps>, NoMemory> {
        if !are_wide(body.atoms.as_slice()) || !are_wide(body.absents.as_slice()) {
            return Ok(None);
        }
        let route = route(body)?;
        let places = places_of(alloc, body)?;
        let firsts = firsts_of(alloc, &route, &places)?;
        let levels = levels_of(alloc, &route, &places)?;
        Ok(Some(Steps {
            route,
            places,
            firsts,
            levels,
        }))
    }

    /// The places at which constants and variables get their values, in order.
    pub fn first_places(&self) -> &[usize] {
        &self.firsts
    }

    /// The terms that get their values one after another: those of the places of all atoms.
    pub fn levels(&self) -> &[Term] {
        &self.levels
    }

    /// The order in which the columns of an atom get their values.
    pub fn columns(&self, atom: usize) -> &[u32] {
        match self.route.guides.as_slice().get(atom) {
            Some(guide) => guide.columns.as_slice(),
            None => &[],
        }
    }

    // Whether a column of an atom has a value before the atom's rows are looked at.
    fn is_given(&self, atom: usize, column: u32) -> bool {
        let Some(guide) = self.route.guides.as_slice().get(atom) else {
            return false;
        };
        let Some(level) = guide.places.as_slice().get(column as usize) else {
            return false;
        };
        let Some(place) = self.route.order.as_slice().get(*level) else {
            return false;
        };
        match self.places.get(*place) {
            Some(known) => known.atom < atom || known.fixed || known.again,
            None => false,
        }
    }

    // How many of an atom's columns have values in front.
    fn given(&self, atom: usize) -> usize {
        let mut count = 0usize;
        for column in self.columns(atom) {
            if !self.is_given(atom, *column) {
                return count;
            }
            count = count.saturating_add(1);
        }
        count
    }

    /// How the rows of an atom are found, whose first columns are its key, so many as `keys` says.
    pub fn found(&self, atom: usize, keys: usize) -> Found {
        let columns = self.columns(atom);
        let given = self.given(atom);
        if given == columns.len() {
            return Found::Row;
        }
        let (front, _) = columns.split_at(given.min(columns.len()));
        let known = front
            .iter()
            .filter(|column| (**column as usize) < keys)
            .count();
        if given > 0 && known == keys {
            return Found::ByKey;
        }
        if given > 0 {
            return Found::Range;
        }
        Found::Whole
    }
}
