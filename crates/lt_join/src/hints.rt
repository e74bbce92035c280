//! Where conditions narrow a walk. What is told here spares work alone: a walk by any other would find the same.

use lt_face::limits::MOST_VARIABLES;
use lt_model::normal::{Term, Test};
use lt_model::syntax::Op;
use lt_query::Level;

/// More than all levels.
const NEVER: u8 = u8::MAX;

/// How many levels are told of at most.
const MOST_LEVELS: usize = 32;

/// At which levels conditions bound the keys, under the keys of how many levels one may fail, and whether values that literals with
/// `=` give are needed for it.
#[derive(Clone, Copy, Drop)]
pub(crate) struct Hints {
    ranged: u32,
    tested: u32,
    pub(crate) gives: bool,
}

/// Whether the bit of a number is set.
#[inline]
fn has(bits: u32, n: usize) -> bool {
    n < MOST_LEVELS && (bits >> (n as u32)) & 1 == 1
}

/// The bits with that of a number.
#[inline]
fn with(bits: u32, n: usize) -> u32 {
    if n < MOST_LEVELS {
        bits | (1u32 << (n as u32))
    } else {
        bits
    }
}

/// The greater one.
#[inline]
fn later(a: u8, b: u8) -> u8 {
    if a < b { b } else { a }
}

/// A number of levels, as it is told of.
#[inline]
fn count_of(n: usize) -> u8 {
    if n <= MOST_LEVELS { n as u8 } else { NEVER }
}

/// The keys of how many levels tell each variable's value.
#[derive(Clone, Copy, Drop)]
struct Settled {
    counts: [u8; MOST_VARIABLES],
    /// The variables that have a level.
    own: u32,
}

impl Settled {
    /// By the levels alone.
    fn by_levels(levels: &[Level]) -> Settled {
        let mut settled = Settled {
            counts: [NEVER; MOST_VARIABLES],
            own: 0,
        };
        for l in 0..levels.len() {
            if let Term::Var(v) = levels[l].term {
                settled.set_first(v, count_of(l + 1));
                settled.own = with(settled.own, v as usize);
            }
        }
        settled
    }

    /// By the levels, and by the literals with `=`.
    fn new(levels: &[Level], tests: &[Test]) -> Settled {
        let mut settled = Settled::by_levels(levels);
        for test in tests {
            settled.give(*test);
        }
        settled
    }

    /// Tells it of a variable, unless that was told.
    fn set_first(&mut self, v: u32, count: u8) {
        let v = v as usize;
        if v < MOST_VARIABLES && self.counts[v] == NEVER {
            self.counts[v] = count;
        }
    }

    /// Of a term.
    fn of(&self, term: Term) -> u8 {
        match term {
            Term::Var(v) => match self.counts.get(v as usize) {
                Some(count) => *count,
                None => NEVER,
            },
            Term::Cell(_) => 0,
        }
    }

    /// Of a variable without a level on the left of a literal with `=`: that of the right side.
    fn give(&mut self, test: Test) {
        match test {
            Test::Cmp {
                left: Term::Var(v),
                op: Op::Eq,
                right,
            } => {
                let count = self.of(right);
                self.set_first(v, count);
            }
            Test::Sum {
                var,
                a,
                minus: _,
                b,
            } => {
                let count = later(self.of(a), self.of(b));
                self.set_first(var, count);
            }
            Test::Cmp { .. } => {}
        }
    }

    /// Whether the term is a variable that has a level.
    fn is_own(&self, term: Term) -> bool {
        match term {
            Term::Var(v) => has(self.own, v as usize),
            Term::Cell(_) => false,
        }
    }

    /// Whether the term is a variable without a level.
    fn is_given(&self, term: Term) -> bool {
        match term {
            Term::Var(v) => !has(self.own, v as usize),
            Term::Cell(_) => false,
        }
    }
}

impl Hints {
    /// None.
    #[inline]
    pub(crate) fn none() -> Hints {
        Hints {
            ranged: 0,
            tested: 0,
            gives: false,
        }
    }

    /// Whether conditions bound the keys of a level.
    #[inline]
    pub(crate) fn is_ranged(self, level: usize) -> bool {
        has(self.ranged, level)
    }

    /// Whether conditions bound the last key of so many levels.
    #[inline]
    pub(crate) fn is_bounded(self, count: usize) -> bool {
        0 < count && has(self.ranged, count - 1)
    }

    /// Whether a condition may fail under the keys of so many levels.
    #[inline]
    pub(crate) fn is_tested(self, count: usize) -> bool {
        has(self.tested, count)
    }

    /// Those of the tests. Where all levels have their keys nothing is told, since all is tested there.
    #[inline]
    pub(crate) fn of(levels: &[Level], tests: &[Test]) -> Hints {
        if tests.is_empty() {
            return Hints::none();
        }
        Hints::of_some(levels, tests)
    }

    /// The same, of one test at least.
    fn of_some(levels: &[Level], tests: &[Test]) -> Hints {
        let mut hints = Hints::none();
        let settled = Settled::new(levels, tests);
        for test in tests {
            hints.add(&settled, levels.len(), *test);
        }
        hints
    }

    /// Adds those of a test.
    fn add(&mut self, settled: &Settled, all: usize, test: Test) {
        match test {
            // it is a pin
            Test::Cmp {
                left: Term::Var(_),
                op: Op::Eq,
                right: Term::Cell(_),
            } => {}
            Test::Cmp { left, op, right } => {
                let (l, r) = (settled.of(left), settled.of(right));
                let gives = settled.is_given(left) || settled.is_given(right);
                let last = if l < r { right } else { left };
                let is_range = op != Op::Ne && l != r && settled.is_own(last);
                self.note(later(l, r), all, is_range, gives);
            }
            Test::Sum {
                var,
                a,
                minus: _,
                b,
            } => {
                let left = Term::Var(var);
                let right = later(settled.of(a), settled.of(b));
                let own = settled.of(left);
                let gives = settled.is_given(left) || settled.is_given(a) || settled.is_given(b);
                let is_range = settled.is_own(left) && right < own;
                self.note(later(own, right), all, is_range, gives);
            }
        }
    }

    /// Notes a test that the keys of so many levels tell.
    fn note(&mut self, count: u8, all: usize, is_range: bool, gives: bool) {
        let count = count as usize;
        if count == 0 || count > all {
            return;
        }
        if is_range {
            self.ranged = with(self.ranged, count - 1);
            self.gives = self.gives || gives;
        } else if count < all {
            self.tested = with(self.tested, count);
            self.gives = self.gives || gives;
        }
    }
}
