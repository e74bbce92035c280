//! What is noted of a statement's variables while its terms are taken in text order, each once: the number of each, and
//! what is known of its kind.
ghost use Rattle.std.specs.Prelude.{◌≡◌, ◌<◌, ℕ, Bool, true, false, [], ◌∷◌, ◌++◌, IfOk, IfSome, None, List, length, map, position, slice_index_or};
ghost use Rattle.std.specs.Str.{bytes_eq};
ghost use Rattle.lt_face.specs.Limits.{most_variables};
ghost use Rattle.lt_model.specs.declared.kind.Kind.TheVariants.{Int};
ghost use Rattle.lt_model.specs.declared.syntax.Term.TheVariants as given;
ghost use Rattle.lt_model.specs.Variables.{place_of};
ghost use Rattle.lt_model.specs.Check.{Choice, kind_of, same_kind, same_kinds, term as normal_term};
ghost use Rattle.lt_check.specs.Taking.{IsWhole, Agrees, Takes};

use crate::kinds::Known;
use crate::names::Names;
use lt_face::limits::MOST_VARIABLES;
use lt_face::memory::NoMemory;
use lt_model::kind::Kind;
use lt_model::name::Name;
use lt_model::normal::{Term, TermList};
use lt_model::syntax;
use std::alloc::Global;

/// The variables met so far, and how the conditions met so far stand.
#[derive(Drop)]
pub struct Notes<'a> {
    pub names: Names<'a>,
    pub known: Known,
    /// No choice of kinds meets the conditions.
    pub conflict: bool,
    /// Two terms were compared while the kind of neither was known.
    pub open: bool,
}

// The number of a place. A statement has at most sixteen variables, so no place is cut.
fn number_at(place: usize) -> u32
    ensures { place < most_variables → result ≡ place }
{
    place.min(MOST_VARIABLES - 1) as u32
}

fn are_alike(kind: Kind, other: Kind) -> bool
    ensures { result ≡ same_kind kind other }
{
    match (kind, other) {
        (Kind::Int, Kind::Int) => true,
        (Kind::Sym, Kind::Sym) => true,
        _ => false,
    }
}

impl<'a> Notes<'a> {
    /// Nothing is noted.
    pub fn new(alloc: Global) -> Notes<'a> {
        Notes {
            names: Names::new(alloc),
            known: Known::new(alloc),
            conflict: false,
            open: false,
        }
    }

    /// Forgets what was noted, and keeps the room.
    pub fn clear(&mut self)
        ensures names { self.new.names ≡ [] }
        ensures known { self.new.known ≡ [] }
        ensures calm { self.new.conflict ≡ false }
    {
        self.names.clear();
        self.known.clear();
        self.conflict = false;
        self.open = false;
    }

    /// Whether there is no conflict, and nothing was left open.
    pub fn is_clear(&self) -> bool
        ensures calm { result ≡ true → self.now.conflict ≡ false }
        ensures shut { result ≡ true → self.now.open ≡ false }
    {
        !self.conflict && !self.open
    }

    // No choice of kinds meets the conditions.
    fn refuse(&mut self)
        ensures { (meets : List (List ℕ) → Choice → Bool) → ((whole : List (List ℕ)) (choice : Choice) → meets whole choice ≡ false) → Takes [] meets self.old self.new }
    {
        self.conflict = true;
    }

    // It is left open whether kinds fit.
    fn leave_open(&mut self)
        ensures { (meets : List (List ℕ) → Choice → Bool) → Takes [] meets self.old self.new }
    {
        self.open = true;
    }

    // Adds a variable that is new.
    fn add(&mut self, name: &'a Name) -> Result<usize, NoMemory>
        ensures place { IfOk result (λ place. place ≡ length self.old.names) }
        ensures names { IfOk result (λ _. self.new.names ≡ self.old.names ++ name.now ∷ []) }
        ensures known { IfOk result (λ _. self.new.known ≡ self.old.known ++ None ∷ []) }
        ensures calm { IfOk result (λ _. (self.new.conflict ≡ self.old.conflict) × (self.new.open ≡ self.old.open)) }
    {
        let place = self.names.count();
        self.names.add(name)?;
        self.known.add()?;
        Ok(place)
    }

    // The number of a variable that is new.
    fn number_anew(&mut self, name: &'a Name) -> Result<u32, NoMemory>
        requires { None ≡ position (bytes_eq name.now) self.now.names }
        ensures takes { IfOk result (λ _. Takes (given.Name name.now ∷ []) (λ _ _. true) self.old self.new) }
        ensures number { IfOk result (λ number. (whole : List (List ℕ)) → IsWhole self.new.names whole → number ≡ place_of whole name.now) }
    {
        let place = self.add(name)?;
        Ok(number_at(place))
    }

    // The number of a variable, which is new where it stands first.
    fn number(&mut self, name: &'a Name) -> Result<u32, NoMemory>
        ensures takes { IfOk result (λ _. Takes (given.Name name.now ∷ []) (λ _ _. true) self.old self.new) }
        ensures number { IfOk result (λ number. (whole : List (List ℕ)) → IsWhole self.new.names whole → number ≡ place_of whole name.now) }
    {
        match self.names.find_name(name) {
            Some(place) => Ok(number_at(place)),
            None => self.number_anew(name),
        }
    }

    // A kind that is given is this one.
    fn agree(&mut self, kind: Kind, other: Kind)
        ensures { Takes [] (λ _ _. same_kind kind other) self.old self.new }
    {
        if !are_alike(kind, other) {
            self.refuse();
        }
    }

    // The variable had no known kind, and has this one.
    fn give(&mut self, place: usize, kind: Kind)
        requires { slice_index_or self.now.known place None ≡ None }
        ensures { Takes [] (λ _ choice. same_kind (slice_index_or choice place Int) kind) self.old self.new }
    {
        if place < self.known.count() {
            self.known.set(place, kind);
        } else {
            self.open = true;
        }
    }

    // The variable of this number has this kind.
    fn learn(&mut self, number: u32, kind: Kind)
        ensures { Takes [] (λ _ choice. same_kind (slice_index_or choice number Int) kind) self.old self.new }
    {
        match self.known.get(number as usize) {
            Some(known) => self.agree(known, kind),
            None => self.give(number as usize, kind),
        }
    }

    /// A variable that is an int.
    pub fn int(&mut self, name: &'a Name) -> Result<u32, NoMemory>
        ensures takes { IfOk result (λ _. Takes (given.Name name.now ∷ []) (λ whole choice. same_kind (slice_index_or choice (place_of whole name.now) Int) Int) self.old self.new) }
        ensures number { IfOk result (λ number. (whole : List (List ℕ)) → IsWhole self.new.names whole → number ≡ place_of whole name.now) }
    {
        let number = self.number(name)?;
        self.learn(number, Kind::Int);
        Ok(number)
    }

    /// A term of which nothing is told.
    pub fn term(&mut self, term: &'a syntax::Term) -> Result<Term, NoMemory>
        ensures takes { IfOk result (λ _. Takes (term.now ∷ []) (λ _ _. true) self.old self.new) }
        ensures term { IfOk result (λ t. (whole : List (List ℕ)) → IsWhole self.new.names whole → t ≡ normal_term whole term.now) }
    {
        match term {
            syntax::Term::Name(name) => {
                let number = self.number(name)?;
                Ok(Term::Var(number))
            }
            syntax::Term::Cell(_, cell) => Ok(Term::Cell(*cell)),
        }
    }

    /// A term of this kind.
    pub fn kinded(&mut self, term: &'a syntax::Term, kind: Kind) -> Result<Term, NoMemory>
        ensures takes { IfOk result (λ _. Takes (term.now ∷ []) (λ whole choice. same_kind (kind_of whole choice term.now) kind) self.old self.new) }
        ensures term { IfOk result (λ t. (whole : List (List ℕ)) → IsWhole self.new.names whole → t ≡ normal_term whole term.now) }
    {
        match term {
            syntax::Term::Name(name) => {
                let number = self.number(name)?;
                self.learn(number, kind);
                Ok(Term::Var(number))
            }
            syntax::Term::Cell(given, cell) => {
                self.agree(*given, kind);
                Ok(Term::Cell(*cell))
            }
        }
    }

    // The kind of a variable, where it is there and its kind is known.
    fn kind_of_name(&self, name: &Name) -> Option<Kind>
        ensures { IfSome result (λ kind. (whole : List (List ℕ)) (choice : Choice) → IsWhole self.now.names whole → Agrees self.now choice → slice_index_or choice (place_of whole name.now) Int ≡ kind) }
    {
        match self.names.find_name(name) {
            Some(place) => self.known.get(place),
            None => None,
        }
    }

    // The kind of a term, where it is known.
    fn kind_of(&self, term: &syntax::Term) -> Option<Kind>
        ensures { IfSome result (λ kind. (whole : List (List ℕ)) (choice : Choice) → IsWhole self.now.names whole → Agrees self.now choice → kind_of whole choice term.now ≡ kind) }
    {
        match term {
            syntax::Term::Name(name) => self.kind_of_name(name),
            syntax::Term::Cell(kind, _) => Some(*kind),
        }
    }

    /// Two terms of one kind.
    pub fn alike(
        &mut self,
        left: &'a syntax::Term,
        right: &'a syntax::Term,
    ) -> Result<(Term, Term), NoMemory>
        ensures takes { IfOk result (λ _. Takes (left.now ∷ right.now ∷ []) (λ whole choice. same_kind (kind_of whole choice left.now) (kind_of whole choice right.now)) self.old self.new) }
        ensures terms { IfOk result (λ both. (whole : List (List ℕ)) → IsWhole self.new.names whole → both ≡ (normal_term whole left.now, normal_term whole right.now)) }
    {
        if let Some(kind) = self.kind_of(left) {
            let first = self.term(left)?;
            let second = self.kinded(right, kind)?;
            return Ok((first, second));
        }
        if let Some(kind) = self.kind_of(right) {
            let first = self.kinded(left, kind)?;
            let second = self.term(right)?;
            return Ok((first, second));
        }
        let first = self.term(left)?;
        let second = self.term(right)?;
        self.leave_open();
        Ok((first, second))
    }

    /// Printed terms.
    pub fn terms(&mut self, alloc: Global, terms: &'a [syntax::Term]) -> Result<TermList, NoMemory>
        ensures takes { IfOk result (λ _. Takes terms.now (λ _ _. true) self.old self.new) }
        ensures terms { IfOk result (λ list. (whole : List (List ℕ)) → IsWhole self.new.names whole → list ≡ map (normal_term whole) terms.now) }
    {
        let mut list = TermList::new(alloc);
        for term in terms {
            let taken = self.term(term)?;
            list.push(taken)?;
        }
        Ok(list)
    }

    // Terms of the kinds of these columns.
    fn fitting(
        &mut self,
        alloc: Global,
        terms: &'a [syntax::Term],
        columns: &[Kind],
    ) -> Result<TermList, NoMemory>
        requires { length terms.now ≡ length columns.now }
        ensures takes { IfOk result (λ _. Takes terms.now (λ whole choice. same_kinds (map (kind_of whole choice) terms.now) columns.now) self.old self.new) }
        ensures terms { IfOk result (λ list. (whole : List (List ℕ)) → IsWhole self.new.names whole → list ≡ map (normal_term whole) terms.now) }
    {
        let mut list = TermList::new(alloc);
        for i in 0..terms.len() {
            let taken = self.kinded(&terms[i], columns[i])?;
            list.push(taken)?;
        }
        Ok(list)
    }

    /// A row of terms of the kinds of these columns. Where the row has another length, no kinds do.
    pub fn row(
        &mut self,
        alloc: Global,
        terms: &'a [syntax::Term],
        columns: &[Kind],
    ) -> Result<TermList, NoMemory>
        ensures takes { IfOk result (λ _. Takes terms.now (λ whole choice. same_kinds (map (kind_of whole choice) terms.now) columns.now) self.old self.new) }
        ensures terms { IfOk result (λ list. (whole : List (List ℕ)) → IsWhole self.new.names whole → list ≡ map (normal_term whole) terms.now) }
    {
        if terms.len() == columns.len() {
            return self.fitting(alloc, terms, columns);
        }
        let list = self.terms(alloc, terms)?;
        self.refuse();
        Ok(list)
    }
}
