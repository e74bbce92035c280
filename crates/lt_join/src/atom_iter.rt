//! The iterator of an atom, and where the gaps that it passes go.
ghost use Rattle.std.specs.Prelude.{◌≡◌, ◌≢◌, ◌≤◌, ◌<◌, ◌+◌, ◌==◌, [], length};
ghost use Rattle.lt_face.specs.Keys.{end_key, least_from};
ghost use Rattle.lt_face.specs.Limits.{most_columns};
ghost use Rattle.lt_face.specs.Rows.{IsRowSet};
ghost use Rattle.lt_join.specs.AtomIter.{AtomView, atom_keys, atom_here, atom_still};
ghost use Rattle.lt_join.specs.Level.{CanBeOpened, IsOpenedFrom};
ghost use Rattle.lt_join.specs.Told.{TakesGap};

use lt_face::key::{Gap, Key};
use lt_face::key_iter::KeyIter;
use lt_face::memory::NoMemory;
use lt_face::moves::Moves;
use lt_face::row_set::RowReads;
use lt_leap::Passing;
use lt_query::Guide;
use lt_sense::{Sensed, Senses};
use lt_trie::TrieIter;
use std::alloc::Global;
use std::marker::Model;

/// The iterator of an atom over an index of its relation.
#[derive(Drop)]
pub struct AtomIter<'a, R: RowReads> {
    guide: &'a Guide,
    trie: TrieIter<'a, R>,
}

impl<'a, R: RowReads> Model for AtomIter<'a, R> {
    ghost use Rattle.lt_join.specs.AtomIter.{AtomView, IsOfGuide};

    ghost Value = { AtomView };

    ghost view = { λ t. record { guide = t.guide.now; trie = t.trie } };

    ghost invariant = { λ t. IsOfGuide (record { guide = t.guide.now; trie = t.trie }) };
}

impl<'a, R: RowReads> AtomIter<'a, R> {
    /// At the root of the index.
    pub(crate) fn new(alloc: Global, guide: &'a Guide, rows: &'a R) -> AtomIter<'a, R>
        requires { R.width_of rows.now ≡ length guide.now.columns }
        ensures guide { result.guide ≡ guide.now }
        ensures rows { result.trie.rows ≡ R.rows rows.now }
        ensures width { result.trie.width ≡ R.width_of rows.now }
        ensures level { result.trie.level ≡ 0 }
        ensures prefix { result.trie.prefix ≡ [] }
        ensures here { result.trie.here ≡ end_key }
        ensures is_set { IsRowSet result.trie.width result.trie.rows }
        ensures narrow { result.trie.width ≤ most_columns }
    {
        let trie = TrieIter::new(alloc, rows);
        AtomIter { guide, trie }
    }

    /// How the atom is gone through.
    #[inline]
    pub(crate) fn guide(&self) -> &'a Guide
        ensures { result.now ≡ self.now.guide }
    {
        self.guide
    }

    /// Whether it stands in the last column.
    #[inline]
    pub(crate) fn is_last(&self) -> bool
        ensures { result ≡ (self.now.trie.level == length self.now.guide.columns) }
    {
        self.trie.level() as usize == self.guide.columns.len()
    }

    /// Goes to the next column's least key at or above the bound.
    #[inline]
    pub(crate) fn open_at<L>(&mut self, bound: Key, moves: &mut Moves<L>) -> Gap
        requires above_last { self.old.trie.level < self.old.trie.width }
        requires at_key { 0 < self.old.trie.level → self.old.trie.here ≢ end_key }
        ensures opened { IsOpenedFrom self.old self.new }
        ensures here { self.new.trie.here ≡ least_from (atom_keys self.new) bound }
        ensures lo { result.lo ≡ bound }
        ensures hi { result.hi ≡ self.new.trie.here }
        ensures moves { moves.new ≡ moves.old + 1 }
    {
        self.trie.open_at(bound, moves)
    }

    /// Goes back to where it was opened.
    #[inline]
    pub(crate) fn up(&mut self)
        requires { 0 < self.old.trie.level }
        ensures { (above : AtomView) → CanBeOpened above → IsOpenedFrom above self.old → self.new ≡ above }
    {
        self.trie.up();
    }
}

impl<'a, R: RowReads> KeyIter for AtomIter<'a, R> {
    ghost keys = { atom_keys };

    ghost here = { atom_here };

    ghost still = { atom_still };

    #[inline(always)]
    fn key(&self) -> Key {
        self.trie.key()
    }

    fn at_end(&self) -> bool {
        self.trie.at_end()
    }

    #[inline(always)]
    fn next<L>(&mut self, moves: &mut Moves<L>) -> Gap {
        self.trie.next(moves)
    }

    #[inline(always)]
    fn seek<L>(&mut self, to: Key, moves: &mut Moves<L>) -> Gap {
        self.trie.seek(to, moves)
    }
}

impl<'a, R: RowReads, S: Senses> Passing<AtomIter<'a, R>> for Sensed<S> {
    ghost takes = { TakesGap };

    #[inline]
    fn pass(&mut self, _place: usize, iter: &AtomIter<'a, R>, gap: Gap) -> Result<(), NoMemory> {
        let guide = iter.guide;
        self.add_gap(
            guide.relation,
            &guide.columns,
            iter.trie.prefix(),
            gap.lo,
            gap.hi,
        )
    }
}
