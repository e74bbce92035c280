//! Which variables a body binds.
ghost use Rattle.std.specs.Prelude.{◌≡◌, ◌==◌, ◌||◌, IfOk};
ghost use Rattle.std.specs.List.{list_any, list_all};
ghost use Rattle.lt_model.specs.Answers.{terms_of};
ghost use Rattle.lt_model.specs.Bound.{is_var, stands, is_known, know, know_all, is_bound};
ghost use Rattle.lt_model.specs.Variables.{place_of};
ghost use Rattle.lt_check.specs.Binding.{has, Alike};
ghost use Rattle.lt_check.specs.Seen.{seen};

use crate::names::Names;
use lt_face::limits::MOST_VARIABLES;
use lt_face::memory::NoMemory;
use lt_model::normal::{Atom, Body, Term, Test};
use lt_model::syntax::Op;
use smallvec::SmallVec;
use std::alloc::Global;
use std::marker::Model;

/// The variables that are bound, each once. A statement has at most sixteen, which lie in the value itself.
#[derive(Drop)]
pub struct Bound {
    places: SmallVec<u32, MOST_VARIABLES>,
}

impl Model for Bound {
    ghost use Rattle.std.specs.Prelude.{ℕ, List};

    ghost Value = { List ℕ };

    ghost view = { λ b. b.places.items };
}

impl Bound {
    /// The variables that a body binds.
    pub fn by(alloc: Global, body: &Body) -> Result<Bound, NoMemory>
        ensures { IfOk result (λ bound. Alike (has bound) (is_bound body.now)) }
    {
        let mut bound = Bound {
            places: SmallVec::new(alloc),
        };
        bound.add_atoms(body.atoms.as_slice())?;
        bound.add_tests(body.tests.as_slice())?;
        Ok(bound)
    }

    fn has(&self, place: usize) -> bool
        ensures { result ≡ has self.now place }
    {
        for known in self.places.as_slice() {
            if *known as usize == place {
                return true;
            }
        }
        false
    }

    fn knows(&self, term: &Term) -> bool
        ensures { result ≡ is_known (has self.now) term.now }
    {
        match term {
            Term::Var(place) => self.has(*place as usize),
            Term::Cell(_) => true,
        }
    }

    fn add(&mut self, place: u32) -> Result<(), NoMemory>
        ensures { IfOk result (λ _. Alike (has self.new) (λ v. has self.old v || place == v)) }
    {
        if !self.has(place as usize) {
            self.places.push(place)?;
        }
        Ok(())
    }

    fn add_terms(&mut self, terms: &[Term]) -> Result<(), NoMemory>
        ensures { IfOk result (λ _. Alike (has self.new) (λ v. has self.old v || list_any (is_var v) terms.now)) }
    {
        for term in terms {
            if let Term::Var(place) = term {
                self.add(*place)?;
            }
        }
        Ok(())
    }

    fn add_atoms(&mut self, atoms: &[Atom]) -> Result<(), NoMemory>
        ensures { IfOk result (λ _. Alike (has self.new) (λ v. has self.old v || stands (terms_of atoms.now) v)) }
    {
        for atom in atoms {
            self.add_terms(atom.terms.as_slice())?;
        }
        Ok(())
    }

    // What a literal with `=` binds.
    fn add_equal(&mut self, left: &Term, right: &Term) -> Result<(), NoMemory>
        ensures { IfOk result (λ _. Alike (has self.new) (know (has self.old) (Test.Cmp left.now Op.Eq right.now))) }
    {
        match left {
            Term::Var(place) => {
                if self.knows(right) {
                    self.add(*place)?;
                }
            }
            Term::Cell(_) => {}
        }
        Ok(())
    }

    // What a literal that is no atom binds.
    fn add_test(&mut self, test: &Test) -> Result<(), NoMemory>
        ensures { IfOk result (λ _. Alike (has self.new) (know (has self.old) test.now)) }
    {
        match test {
            Test::Cmp { left, op, right } => {
                if *op == Op::Eq {
                    self.add_equal(left, right)?;
                }
            }
            Test::Sum { var, a, b, .. } => {
                if self.knows(a) && self.knows(b) {
                    self.add(*var)?;
                }
            }
        }
        Ok(())
    }

    fn add_tests(&mut self, tests: &[Test]) -> Result<(), NoMemory>
        ensures { IfOk result (λ _. Alike (has self.new) (know_all (has self.old) tests.now)) }
    {
        for test in tests {
            self.add_test(test)?;
        }
        Ok(())
    }

    fn has_each(&self, names: &Names, each: &[&[u8]]) -> bool
        ensures { result ≡ list_all (λ name. has self.now (place_of names.now name)) (seen each.now) }
    {
        for name in each {
            if !self.has(names.place_of(*name)) {
                return false;
            }
        }
        true
    }

    /// Whether each of these variables is bound.
    pub fn has_all(&self, names: &Names) -> bool
        ensures { result ≡ list_all (λ name. has self.now (place_of names.now name)) names.now }
    {
        self.has_each(names, names.as_slice())
    }
}
