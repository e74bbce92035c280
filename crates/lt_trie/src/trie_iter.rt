//! `TrieIter`: the trie iterator of Veldhuizen, Leapfrog Triejoin (ICDT 2014), over a sorted set of rows.
ghost use Rattle.std.specs.Prelude.{◌≡◌, ◌≢◌, ◌<◌, ◌≤◌, ◌+◌, [], ◌∷◌, ◌++◌};
ghost use Rattle.lt_face.specs.Keys.{end_key, least_from};
ghost use Rattle.lt_face.specs.Limits.{most_columns};
ghost use Rattle.lt_face.specs.Rows.{IsRowSet};
ghost use Rattle.lt_trie.specs.Under.{keys_under};
ghost use Rattle.lt_trie.specs.Trie.{keys_of};

use crate::stand::{Place, Stand, below, cells_at, find_end, go_on, land, nowhere};
use lt_face::limits::MOST_COLUMNS;
use lt_face::{END, Gap, Key, KeyIter, Moves, Near, RowReads};
use std::alloc::Global;
use std::marker::Model;

/// A place in the trie of a set of rows. The level of a column has, under a prefix of cells, the next cells of the rows
/// that begin with it. At the root, level 0, there are no keys and the iterator is at its end.
///
/// It keeps rows that follow one another where its last search ended, and searches the set only past these. A level below a key is
/// opened and left without a search. A move takes no memory: the set is only read.
#[derive(Drop)]
pub struct TrieIter<'a, R: RowReads> {
    rows: &'a R,
    level: usize,
    prefix: &'a [Key],
    key: Key,
    place: Place<'a>,
    /// The places on the levels above, from the first on.
    above: [Stand<'a>; MOST_COLUMNS],
}

impl<'a, R: RowReads> Model for TrieIter<'a, R> {
    ghost use Rattle.std.specs.Prelude.{◌≢◌, []};
    ghost use Rattle.lt_face.specs.Keys.{end_key};
    ghost use Rattle.lt_trie.specs.Trie.{TrieView, IsTrie};
    ghost use Rattle.lt_trie.specs.Stand.{IsStand, AreAlong};

    ghost Value = { TrieView };

    ghost view = { λ t. record {
      width = R.width_of t.rows.now;
      rows = R.rows t.rows.now;
      level = t.level;
      prefix = t.prefix.now;
      here = t.key;
    } };

    ghost invariant = { λ t. IsTrie (record {
      width = R.width_of t.rows.now;
      rows = R.rows t.rows.now;
      level = t.level;
      prefix = t.prefix.now;
      here = t.key;
    }) × (t.key ≢ end_key → IsStand (R.rows t.rows.now) t.prefix.now t.key t.place.stand.run.now t.place.stand.end t.place.stand.is_whole) × AreAlong (λ front key stand. IsStand (R.rows t.rows.now) front key stand.run.now stand.end stand.is_whole) [] t.prefix.now t.above };
}

impl<'a, R: RowReads> TrieIter<'a, R> {
    /// At the root of the set's trie. Nothing is taken from the allocator.
    #[inline]
    pub fn new(alloc: Global, rows: &'a R) -> TrieIter<'a, R>
        ensures rows { result.rows ≡ R.rows rows.now }
        ensures width { result.width ≡ R.width_of rows.now }
        ensures level { result.level ≡ 0 }
        ensures prefix { result.prefix ≡ [] }
        ensures here { result.here ≡ end_key }
        ensures is_set { IsRowSet result.width result.rows }
        ensures narrow { result.width ≤ most_columns }
    {
        let _ = alloc;
        let _ = rows.width();
        TrieIter {
            rows,
            level: 0,
            prefix: &[],
            key: END,
            place: Place {
                stand: nowhere(),
                near: Near::start(),
            },
            above: [nowhere(); MOST_COLUMNS],
        }
    }

    /// The keys above the current level.
    #[inline]
    pub fn prefix(&self) -> &'a [Key]
        ensures { result.now ≡ self.now.prefix }
    {
        self.prefix
    }

    /// The level, 0 at the root.
    #[inline]
    pub fn level(&self) -> u32
        ensures { result ≡ self.now.level }
    {
        self.level as u32
    }

    /// Goes to the next level's least key at or above the bound, or to its end where it has none (at the root of an empty set). The gap
    /// is from the bound to the key.
    #[inline]
    pub fn open_at<L>(&mut self, bound: Key, moves: &mut Moves<L>) -> Gap
        requires above_last { self.old.level < self.old.width }
        requires at_key { 0 < self.old.level → self.old.here ≢ end_key }
        ensures rows { self.new.rows ≡ self.old.rows }
        ensures width { self.new.width ≡ self.old.width }
        ensures level { self.new.level ≡ self.old.level + 1 }
        ensures root { self.old.level ≡ 0 → self.new.prefix ≡ [] }
        ensures deeper { 0 < self.old.level → self.new.prefix ≡ self.old.prefix ++ self.old.here ∷ [] }
        ensures here { self.new.here ≡ least_from (keys_under self.new.prefix self.new.rows) bound }
        ensures lo { result.lo ≡ bound }
        ensures hi { result.hi ≡ self.new.here }
        ensures moves { moves.new ≡ moves.old + 1 }
    {
        self.open(bound);
        self.gap_from(bound, moves)
    }

    /// Goes to the first key of the next level, or to its end where it has none (at the root of an empty set). The gap is
    /// from 0 to the key.
    #[inline]
    pub fn open_level<L>(&mut self, moves: &mut Moves<L>) -> Gap
        requires above_last { self.old.level < self.old.width }
        requires at_key { 0 < self.old.level → self.old.here ≢ end_key }
        ensures rows { self.new.rows ≡ self.old.rows }
        ensures width { self.new.width ≡ self.old.width }
        ensures level { self.new.level ≡ self.old.level + 1 }
        ensures root { self.old.level ≡ 0 → self.new.prefix ≡ [] }
        ensures deeper { 0 < self.old.level → self.new.prefix ≡ self.old.prefix ++ self.old.here ∷ [] }
        ensures here { self.new.here ≡ least_from (keys_under self.new.prefix self.new.rows) 0 }
        ensures lo { result.lo ≡ 0 }
        ensures hi { result.hi ≡ self.new.here }
        ensures moves { moves.new ≡ moves.old + 1 }
    {
        self.open_at(0, moves)
    }

    /// Opens the next level at a bound. It is not counted as a move.
    #[inline]
    fn open(&mut self, bound: Key)
        requires above_last { self.old.level < self.old.width }
        requires at_key { 0 < self.old.level → self.old.here ≢ end_key }
        ensures rows { self.new.rows ≡ self.old.rows }
        ensures width { self.new.width ≡ self.old.width }
        ensures level { self.new.level ≡ self.old.level + 1 }
        ensures root { self.old.level ≡ 0 → self.new.prefix ≡ [] }
        ensures deeper { 0 < self.old.level → self.new.prefix ≡ self.old.prefix ++ self.old.here ∷ [] }
        ensures here { self.new.here ≡ least_from (keys_under self.new.prefix self.new.rows) bound }
    {
        if self.level == 0 {
            self.open_first(bound);
            return;
        }
        self.go_down();
        if self.key < bound {
            self.go_to(bound);
        }
    }

    /// Opens the first level at a bound.
    #[inline]
    fn open_first(&mut self, bound: Key)
        requires root { self.old.level ≡ 0 }
        requires above_last { 0 < self.old.width }
        ensures { self.new ≡ record self.old { level = 1; here = least_from (keys_under self.old.prefix self.old.rows) bound } }
    {
        let rows = self.rows;
        let prefix = self.prefix;
        self.level = 1;
        self.key = land(rows, &mut self.place, prefix, bound);
    }

    /// Goes to the first key of the level below, among the rows with the key.
    #[inline]
    fn go_down(&mut self)
        requires deep { 0 < self.old.level }
        requires above_last { self.old.level < self.old.width }
        requires at_key { self.old.here ≢ end_key }
        ensures rows { self.new.rows ≡ self.old.rows }
        ensures width { self.new.width ≡ self.old.width }
        ensures level { self.new.level ≡ self.old.level + 1 }
        ensures prefix { self.new.prefix ≡ self.old.prefix ++ self.old.here ∷ [] }
        ensures here { self.new.here ≡ least_from (keys_under self.new.prefix self.new.rows) 0 }
    {
        let rows = self.rows;
        let prefix = self.prefix;
        let key = self.key;
        let level = self.level;
        find_end(rows, &mut self.place, prefix, key);
        let parent = self.place.stand;
        let above = &mut self.above[..];
        above[level - 1] = parent;
        self.place.stand = below(rows, prefix, &parent, key);
        let (prefix, key) = cells_at(&parent, level);
        self.prefix = prefix;
        self.key = key;
        self.level = level + 1;
    }

    /// Goes back to the parent key, or from the first level to the root. It is not counted as a move.
    #[inline]
    pub fn up(&mut self)
        requires { 0 < self.old.level }
        ensures rows { self.new.rows ≡ self.old.rows }
        ensures width { self.new.width ≡ self.old.width }
        ensures level { self.new.level + 1 ≡ self.old.level }
        ensures root { self.old.level ≡ 1 → self.new.here ≡ end_key }
        ensures root_prefix { self.old.level ≡ 1 → self.new.prefix ≡ [] }
        ensures parent { 1 < self.old.level → self.old.prefix ≡ self.new.prefix ++ self.new.here ∷ [] }
    {
        self.level -= 1;
        if self.level == 0 {
            self.key = END;
            return;
        }
        let column = self.level - 1;
        let above = &self.above[..];
        let parent = above[column];
        self.place.stand = parent;
        let (prefix, key) = cells_at(&parent, column);
        self.prefix = prefix;
        self.key = key;
    }

    /// Counts a move, and answers the gap from its bound to the key.
    #[inline(always)]
    fn gap_from<L>(&self, bound: Key, moves: &mut Moves<L>) -> Gap
        ensures lo { result.lo ≡ bound }
        ensures hi { result.hi ≡ self.now.here }
        ensures moves { moves.new ≡ moves.old + 1 }
    {
        moves.tick();
        Gap {
            lo: bound,
            hi: self.key,
        }
    }

    /// Goes to the least key of the level at or above the bound, which is above the key.
    #[inline(always)]
    fn go_to(&mut self, bound: Key)
        requires not_ended { self.old.here ≢ end_key }
        requires above { self.old.here < bound }
        ensures { self.new ≡ record self.old { here = least_from (keys_of self.old) bound } }
    {
        let rows = self.rows;
        let prefix = self.prefix;
        self.key = go_on(rows, &mut self.place, prefix, bound);
    }

    /// An equal iterator. It is not counted as a move.
    pub fn copy(&self) -> TrieIter<'a, R>
        ensures { result ≡ self.now }
    {
        TrieIter {
            rows: self.rows,
            level: self.level,
            prefix: self.prefix,
            key: self.key,
            place: self.place,
            above: self.above,
        }
    }
}

impl<'a, R: RowReads> KeyIter for TrieIter<'a, R> {
    ghost keys = { keys_of };

    ghost here = { λ t. t.here };

    ghost still = { λ t. record t { here = 0 } };

    #[inline(always)]
    fn key(&self) -> Key {
        self.key
    }

    #[inline(always)]
    fn at_end(&self) -> bool {
        self.key == END
    }

    #[inline(always)]
    fn next<L>(&mut self, moves: &mut Moves<L>) -> Gap {
        let bound = self.key + 1;
        self.go_to(bound);
        self.gap_from(bound, moves)
    }

    #[inline(always)]
    fn seek<L>(&mut self, to: Key, moves: &mut Moves<L>) -> Gap {
        if self.key < to {
            self.go_to(to);
        }
        self.gap_from(to, moves)
    }
}
