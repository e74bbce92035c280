//! The kinds of a statement's variables, found from what each condition says of them.
ghost use Rattle.std.specs.Prelude.{◌≡◌, ◌≤◌, ◌++◌, ◌∷◌, ◌<◌, set, if◌then◌else◌, [], Some, None, IfOk, map, length, replicate, unwrap_or, slice_index_or};
ghost use Rattle.std.specs.List.{list_all};
ghost use Rattle.lt_face.specs.Limits.{most_columns};
ghost use Rattle.lt_model.specs.Check.{kind_of, same_kind, same_kinds, atom_fits, literal_fits};
ghost use Rattle.lt_check.specs.Narrowing.{known_at, known_of, agreement, completed, joined, Narrows, Settles, all_fit};
ghost use Rattle.lt_check.specs.Seen.{seen, HasColumns};

use crate::names::Names;
use crate::schema::Schema;
use lt_face::memory::NoMemory;
use lt_model::kind::{Kind, KindList};
use lt_model::syntax::{Head, Literal, Term};
use std::alloc::Global;
use std::marker::Model;

/// What a look at a condition told.
#[derive(Clone, Copy, Debug, PartialEq, Eq)]
pub enum Told {
    Nothing,
    /// The kind of a variable that had none.
    More,
    /// No choice of kinds meets the condition and what is known.
    Conflict,
}

impl Told {
    // What two looks told.
    fn and(self, next: Told) -> Told
        ensures { result ≡ joined self next }
    {
        match (self, next) {
            (Told::Conflict, _) | (_, Told::Conflict) => Told::Conflict,
            (Told::Nothing, Told::Nothing) => Told::Nothing,
            _ => Told::More,
        }
    }
}

// Whether a known kind is this one.
fn agreed(known: Kind, kind: Kind) -> Told
    ensures { result ≡ agreement (same_kind known kind) }
{
    if known == kind {
        Told::Nothing
    } else {
        Told::Conflict
    }
}

/// For each variable its kind, where that is known.
#[derive(Drop)]
pub struct Known {
    kinds: Vec<Option<Kind>>,
}

impl Model for Known {
    ghost use Rattle.lt_check.specs.Narrowing as narrowing;

    ghost Value = { narrowing.Known };

    ghost view = { λ k. k.kinds.items };
}

impl Known {
    /// There is no variable.
    pub fn new(alloc: Global) -> Known
        ensures { result ≡ [] }
    {
        Known {
            kinds: Vec::new(alloc),
        }
    }

    /// There is no variable any more. The room stays.
    pub fn clear(&mut self)
        ensures { self.new ≡ [] }
    {
        self.kinds.clear();
    }

    /// One variable more, of which nothing is known.
    pub fn add(&mut self) -> Result<(), NoMemory>
        ensures { IfOk result (λ _. self.new ≡ self.old ++ None ∷ []) }
    {
        self.kinds.push(None)?;
        Ok(())
    }

    /// The kind of the variable at this place, where there is one and its kind is known.
    pub fn get(&self, place: usize) -> Option<Kind>
        ensures { result ≡ slice_index_or self.now place None }
    {
        match self.kinds.get(place) {
            Some(kind) => *kind,
            None => None,
        }
    }

    /// How many variables there are.
    pub fn count(&self) -> usize
        ensures { result ≡ length self.now }
    {
        self.kinds.len()
    }

    /// The variable at this place has this kind.
    pub fn set(&mut self, place: usize, kind: Kind)
        requires { place < length self.now }
        ensures { self.new ≡ set self.old place (Some kind) }
    {
        self.kinds[place] = Some(kind);
    }

    // Nothing is known of so many variables.
    fn forget(&mut self, count: usize) -> Result<(), NoMemory>
        ensures { IfOk result (λ _. self.new ≡ replicate count None) }
    {
        self.kinds.clear();
        self.kinds.resize(count, None)?;
        Ok(())
    }

    fn at(&self, place: usize) -> Option<Kind>
        ensures { result ≡ known_at self.now place }
    {
        match self.kinds.get(place) {
            Some(kind) => *kind,
            None => Some(Kind::Int),
        }
    }

    fn of(&self, names: &Names, term: &Term) -> Option<Kind>
        ensures { result ≡ known_of names.now self.now term.now }
    {
        match term {
            Term::Name(name) => self.at(names.place_of_name(name)),
            Term::Cell(kind, _) => Some(*kind),
        }
    }

    // The variable has this kind.
    fn learn_at(&mut self, place: usize, kind: Kind) -> Told
        ensures { Narrows (λ choice. same_kind (slice_index_or choice place Kind.Int) kind) self.old result self.new }
    {
        match self.at(place) {
            Some(known) => agreed(known, kind),
            None => {
                self.kinds[place] = Some(kind);
                Told::More
            }
        }
    }

    // The term has this kind.
    fn learn(&mut self, names: &Names, term: &Term, kind: Kind) -> Told
        ensures { Narrows (λ choice. same_kind (kind_of names.now choice term.now) kind) self.old result self.new }
    {
        match term {
            Term::Name(name) => self.learn_at(names.place_of_name(name), kind),
            Term::Cell(given, _) => agreed(*given, kind),
        }
    }

    // Each term has its column's kind.
    fn learn_row(&mut self, names: &Names, terms: &[Term], columns: &[Kind]) -> Told
        ensures { Narrows (λ choice. same_kinds (map (kind_of names.now choice) terms.now) columns.now) self.old result self.new }
    {
        if terms.len() != columns.len() {
            return Told::Conflict;
        }
        let mut told = Told::Nothing;
        for i in 0..terms.len() {
            told = told.and(self.learn(names, &terms[i], columns[i]));
        }
        told
    }

    // Both terms have one kind.
    fn learn_same(&mut self, names: &Names, left: &Term, right: &Term) -> Told
        ensures { Narrows (λ choice. same_kind (kind_of names.now choice left.now) (kind_of names.now choice right.now)) self.old result self.new }
    {
        if let Some(kind) = self.of(names, left) {
            return self.learn(names, right, kind);
        }
        if let Some(kind) = self.of(names, right) {
            return self.learn(names, left, kind);
        }
        Told::Nothing
    }

    // What a literal that is no atom says.
    fn learn_literal(&mut self, names: &Names, literal: &Literal) -> Told
        ensures { Narrows (λ choice. literal_fits (kind_of names.now choice) literal.now) self.old result self.new }
    {
        match literal {
            Literal::Atom(_) => Told::Nothing,
            Literal::Absent(_) => Told::Nothing,
            Literal::Cmp { left, right, .. } => self.learn_same(names, left, right),
            Literal::Sum { var, a, b, .. } => {
                let var = self.learn_at(names.place_of_name(var), Kind::Int);
                let a = self.learn(names, a, Kind::Int);
                let b = self.learn(names, b, Kind::Int);
                var.and(a.and(b))
            }
        }
    }

    fn learn_atoms(
        &mut self,
        schema: &Schema,
        names: &Names,
        atoms: &[&Head],
        columns: &[&[Kind]],
    ) -> Told
        requires { HasColumns schema.now (seen atoms.now) (seen columns.now) }
        ensures { Narrows (λ choice. list_all (atom_fits schema.now (kind_of names.now choice)) (seen atoms.now)) self.old result self.new }
    {
        let mut told = Told::Nothing;
        for i in 0..atoms.len() {
            told = told.and(self.learn_row(names, atoms[i].terms.as_slice(), columns[i]));
        }
        told
    }

    fn learn_literals(&mut self, names: &Names, body: &[Literal]) -> Told
        ensures { Narrows (λ choice. list_all (literal_fits (kind_of names.now choice)) body.now) self.old result self.new }
    {
        let mut told = Told::Nothing;
        for literal in body {
            told = told.and(self.learn_literal(names, literal));
        }
        told
    }

    fn learn_all(
        &mut self,
        schema: &Schema,
        names: &Names,
        atoms: &[&Head],
        columns: &[&[Kind]],
        body: &[Literal],
    ) -> Told
        requires { HasColumns schema.now (seen atoms.now) (seen columns.now) }
        ensures { Narrows (all_fit schema.now names.now (seen atoms.now) body.now) self.old result self.new }
    {
        let from_atoms = self.learn_atoms(schema, names, atoms, columns);
        let from_literals = self.learn_literals(names, body);
        from_atoms.and(from_literals)
    }
}

impl Known {
    #[tactic(auto, using(crate::proofs::Narrowing::completed_is))]
    fn kind(&self, names: &Names, term: &Term) -> Kind
        ensures { result ≡ kind_of names.now (completed self.now) term.now }
    {
        self.of(names, term).unwrap_or(Kind::Int)
    }

    /// The kinds of terms, ints where nothing is known.
    pub fn kinds(&self, alloc: Global, names: &Names, terms: &[Term]) -> Result<KindList, NoMemory>
        requires { length terms.now ≤ most_columns }
        ensures { IfOk result (λ kinds. kinds ≡ map (kind_of names.now (completed self.now)) terms.now) }
    {
        let mut kinds = Vec::new(alloc);
        for term in terms {
            kinds.push(self.kind(names, term))?;
        }
        Ok(KindList::from_kinds(alloc, &kinds))
    }
}

/// Finds kinds of so many variables as there are names, by which every argument has its column's kind and every literal
/// fits, and says whether there are such kinds.
pub fn settle(
    known: &mut Known,
    schema: &Schema,
    names: &Names,
    atoms: &[&Head],
    columns: &[&[Kind]],
    body: &[Literal],
) -> Result<bool, NoMemory>
    requires { HasColumns schema.now (seen atoms.now) (seen columns.now) }
    ensures { IfOk result (λ found. Settles (all_fit schema.now names.now (seen atoms.now) body.now) (length names.now) (if found then Some known.new else None)) }
{
    known.forget(names.count())?;
    loop {
        match known.learn_all(schema, names, atoms, columns, body) {
            Told::Nothing => return Ok(true),
            Told::Conflict => return Ok(false),
            Told::More => {}
        }
    }
}
