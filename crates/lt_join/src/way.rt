//! What a walk goes by.
ghost use Rattle.std.specs.Prelude.{◌≡◌, ◌<◌, ◌≤◌, ◌^◌, ◌⊎◌, ◌↔◌, [], true, false, length, IfOk};
ghost use Rattle.std.specs.List.{AllByRecursion};
ghost use Rattle.lt_query.specs.Plan.{IsPlanOf};
ghost use Rattle.lt_query.specs.Lists.{below};
ghost use Rattle.lt_join.specs.Holders.{IsPrepared};
ghost use Rattle.lt_face.specs.Lists.{IsIn};
ghost use Rattle.lt_join.specs.Level.{AreAtomsAt, IsAtomAt};
ghost use Rattle.lt_join.specs.Explored.{IsHopeless};
ghost use Rattle.lt_join.specs.Known.{IsKnown};
ghost use Rattle.lt_join.specs.Narrowed.{Leaves};
ghost use Rattle.lt_join.specs.Values.{values_in};
ghost use Rattle.lt_join.specs.Way.{AreDecidedBy, EndsEarly};
ghost use Rattle.lt_join.specs.Walked.{at};

use crate::atom_iter::AtomIter;
use crate::hints::Hints;
use crate::looking_up::{LookUp, look_ups_of};
use crate::narrowing::{KeyRange, one_fails, range_below};
use crate::path::Path;
use crate::values::Values;
use lt_face::indexes::Indexes;
use lt_face::key::END;
use lt_face::memory::NoMemory;
use lt_query::{Body, Guide, Plan, Term};
use lt_sense::Senses;
use std::alloc::Global;
use std::marker::Model;

/// What a walk goes by: a body and a plan of it, the terms that are asked for, the indexes of a state, and where the rows of its
/// negated atoms are looked up there.
#[derive(Drop)]
pub struct Way<'a, I: Indexes> {
    pub(crate) alloc: Global,
    pub(crate) tables: &'a I,
    pub(crate) body: &'a Body,
    pub(crate) plan: &'a Plan,
    pub(crate) terms: &'a [Term],
    pub(crate) look_ups: Vec<LookUp<'a, I::Rows>>,
    /// Whether the first answer suffices: then no row is made.
    pub(crate) first: bool,
    /// How many levels are wanted: once an answer was found below the keys of these, no other row lies there.
    pub(crate) wanted: usize,
    /// Where conditions are worth a look.
    hints: Hints,
}

impl<'a, I: Indexes> Model for Way<'a, I> {
    ghost use Rattle.std.specs.Prelude.{◌≡◌, true};
    ghost use Rattle.std.specs.List.{AllByRecursion, AllZip};
    ghost use Rattle.lt_join.specs.Holders.{IsLookUpOf};
    ghost use Rattle.lt_join.specs.Way.{WayView, IsWay};

    ghost Value = { WayView };

    ghost view = { λ w. record { state = I.state w.tables.now; body = w.body.now; plan = w.plan.now; terms = w.terms.now; first = w.first; wanted = w.wanted } };

    ghost invariant = { λ w. IsWay (record { state = I.state w.tables.now; body = w.body.now; plan = w.plan.now; terms = w.terms.now; first = w.first; wanted = w.wanted })
        × AllByRecursion (λ guide. I.has_index w.tables.now guide.relation guide.columns ≡ true) w.plan.now.guides
        × AllZip (IsLookUpOf (I.state w.tables.now)) w.body.now.absents w.look_ups.items };
}

impl<'a, I: Indexes> Way<'a, I> {
    /// By this plan of the body. Where the first answer doesn't suffice, the levels that are wanted are all, or decide the terms.
    pub(crate) fn new(
        alloc: Global,
        tables: &'a I,
        body: &'a Body,
        plan: &'a Plan,
        terms: &'a [Term],
        first: bool,
        wanted: usize,
    ) -> Result<Way<'a, I>, NoMemory>
        requires of_body { IsPlanOf body.now plan.now }
        requires prepared { IsPrepared body.now plan.now terms.now }
        requires at_first { first ≡ true → wanted ≡ 0 }
        requires decided { first ≡ false → wanted < length plan.now.levels → AreDecidedBy plan.now.levels wanted terms.now }
        requires has_indexes { AllByRecursion (λ guide. I.has_index tables.now guide.relation guide.columns ≡ true) plan.now.guides }
        requires has_firsts { AllByRecursion (λ atom. I.has_index tables.now atom.relation (below (length atom.terms)) ≡ true) body.now.absents }
        ensures { IfOk result (λ way. way ≡ record { state = I.state tables.now; body = body.now; plan = plan.now; terms = terms.now; first = first; wanted = wanted }) }
    {
        let look_ups = look_ups_of(alloc, tables, body)?;
        Ok(Way {
            alloc,
            tables,
            body,
            plan,
            terms,
            look_ups,
            first,
            wanted,
            hints: Hints::of(plan.levels.as_slice(), body.tests.as_slice()),
        })
    }

    /// Whether the walk stops at an answer.
    #[inline]
    pub(crate) fn stops(&self) -> bool
        ensures { result ≡ true ↔ ((self.now.first ≡ true) ⊎ EndsEarly self.now) }
    {
        self.first || self.wanted < self.plan.levels.len()
    }

    /// Whether an answer may follow one with the same row.
    #[inline]
    pub(crate) fn may_repeat(&self) -> bool {
        self.terms.len() < self.plan.levels.len()
    }

    /// What the conditions leave of the keys of the level below.
    #[inline(always)]
    pub(crate) fn range_below(&self, keys: &Path, values: &Values) -> KeyRange
        requires below { length keys.now < length self.now.plan.levels }
        requires known { IsKnown self.now.plan.levels keys.now (values_in values.now.cells) }
        ensures leaves { Leaves self.now.body self.now.plan.levels keys.now result }
        ensures low { result.lo ≤ 2 ^ 120 }
    {
        if self.hints.is_ranged(keys.len()) {
            let levels = self.plan.levels.as_slice();
            let tests = self.body.tests.as_slice();
            return range_below(levels, keys, values, tests, self.hints.gives);
        }
        KeyRange::all()
    }

    /// Whether a condition fails whatever the keys below are. Where a sense is kept, the last key may lie before its range.
    #[inline(always)]
    pub(crate) fn is_hopeless<S: Senses>(&self, keys: &Path, values: &Values) -> bool
        requires within { length keys.now ≤ length self.now.plan.levels }
        requires known { IsKnown self.now.plan.levels keys.now (values_in values.now.cells) }
        ensures { result ≡ true → IsHopeless self.now.body self.now.plan.levels (length keys.now) (at keys.now) }
    {
        let opens_before = S::opens_at(END) < END;
        let count = keys.len();
        if self.hints.is_tested(count) || (opens_before && self.hints.is_bounded(count)) {
            let levels = self.plan.levels.as_slice();
            let tests = self.body.tests.as_slice();
            return one_fails(levels, keys, values, tests, self.hints.gives);
        }
        false
    }

    /// The iterator of an atom, at its root.
    #[inline]
    pub(crate) fn iter(&self, guide: &'a Guide) -> AtomIter<'a, I::Rows>
        requires { IsIn guide.now self.now.plan.guides }
        ensures { IsAtomAt self.now.state 0 (at []) guide.now result }
    {
        let rows = self.tables.index(guide.relation, &guide.columns).unwrap();
        AtomIter::new(self.alloc, guide, rows)
    }

    /// The iterators of the atoms, at their roots.
    pub(crate) fn iters(&self) -> Result<Vec<AtomIter<'a, I::Rows>>, NoMemory>
        ensures { IfOk result (λ iters. AreAtomsAt self.now.plan self.now.state [] iters.items) }
    {
        let guides = self.plan.guides.as_slice();
        let mut iters = Vec::with_capacity(self.alloc, guides.len())?;
        for guide in guides {
            iters.push(self.iter(guide))?;
        }
        Ok(iters)
    }
}
