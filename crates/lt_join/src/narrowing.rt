//! What the conditions of a body leave of the keys of a level.
ghost use Rattle.std.specs.Prelude.{◌≡◌, ◌<◌, ◌≤◌, ◌^◌, ◌↔◌, ℕ, true, false, length, IfSome};
ghost use Rattle.std.specs.List.{AllByRecursion, list_all};
ghost use Rattle.lt_face.specs.Keys.{end_key};
ghost use Rattle.lt_face.specs.Limits.{most_variables};
ghost use Rattle.lt_model.specs.Answers.{Assignment, cell_of, compare_by, passes as test_passes};
ghost use Rattle.lt_model.specs.Bound.{is_var as is_this_var};
ghost use Rattle.lt_model.specs.Cells.{sum_of as sum_value};
ghost use Rattle.lt_model.specs.Fits.{IsTermOf};
ghost use Rattle.lt_query.specs.Plan.{keys_under};
ghost use Rattle.lt_join.specs.Explored.{AgreeBelow};
ghost use Rattle.lt_join.specs.Known.{IsKnown};
ghost use Rattle.lt_join.specs.Narrowed.{Agrees, AgreesWith, IsInRange, has_var};
ghost use Rattle.lt_join.specs.Values.{values_in, IsTest};
ghost use Rattle.lt_join.specs.Walked.{at};

use crate::conditions::{compare, give_each, sum_of};
use crate::path::Path;
use crate::values::Values;
use lt_face::key::{CELL_LIMIT, END, Key};
use lt_model::normal::{Term, Test};
use lt_model::syntax::Op;
use lt_query::Level;

/// The keys from `lo` to below `hi`.
#[derive(Clone, Copy, Drop)]
pub struct KeyRange {
    pub lo: Key,
    pub hi: Key,
}

impl KeyRange {
    /// All keys.
    #[inline]
    pub(crate) fn all() -> KeyRange
        ensures lo { result.lo ≡ 0 }
        ensures hi { result.hi ≡ end_key }
    {
        KeyRange { lo: 0, hi: END }
    }

    /// Those at or above a key.
    #[inline]
    fn from(self, key: Key) -> KeyRange
        ensures { (k : ℕ) → IsInRange result k ↔ (IsInRange self k × (key ≤ k)) }
    {
        if self.lo < key {
            KeyRange {
                lo: key,
                hi: self.hi,
            }
        } else {
            self
        }
    }

    /// Those below a key.
    #[inline]
    fn below(self, key: Key) -> KeyRange
        ensures { (k : ℕ) → IsInRange result k ↔ (IsInRange self k × (k < key)) }
    {
        if key < self.hi {
            KeyRange {
                lo: self.lo,
                hi: key,
            }
        } else {
            self
        }
    }

    /// Those up to a key.
    #[inline]
    fn up_to(self, key: Key) -> KeyRange
        ensures { (k : ℕ) → IsInRange result k ↔ (IsInRange self k × (k ≤ key)) }
    {
        let end = self.hi;
        if key < end {
            KeyRange {
                lo: self.lo,
                hi: key + 1,
            }
        } else {
            self
        }
    }

    /// Those that compare so with a key on the right.
    fn by(self, op: Op, key: Key) -> KeyRange
        ensures { (k : ℕ) → IsInRange self k → compare_by op k key ≡ true → IsInRange result k }
    {
        match op {
            Op::Eq => self.from(key).up_to(key),
            Op::Ne => self,
            Op::Lt => self.below(key),
            Op::Le => self.up_to(key),
            Op::Gt => self.from(key.saturating_add(1)),
            Op::Ge => self.from(key),
        }
    }

    /// The same from where a cell may be.
    #[inline]
    fn from_cells(self) -> KeyRange
        ensures all { (k : ℕ) → IsInRange self k → IsInRange result k }
        ensures low { result.lo ≤ 2 ^ 120 }
    {
        if CELL_LIMIT < self.lo {
            KeyRange {
                lo: CELL_LIMIT,
                hi: self.hi,
            }
        } else {
            self
        }
    }
}

/// The comparison with its sides changed.
#[inline]
fn turned(op: Op) -> Op
    ensures { (x y : ℕ) → compare_by result x y ≡ compare_by op y x }
{
    match op {
        Op::Eq => Op::Eq,
        Op::Ne => Op::Ne,
        Op::Lt => Op::Gt,
        Op::Le => Op::Ge,
        Op::Gt => Op::Lt,
        Op::Ge => Op::Le,
    }
}

/// Whether the term is this variable.
#[inline]
pub(crate) fn is_var(term: Term, v: u32) -> bool
    ensures { result ≡ is_this_var v term }
{
    match term {
        Term::Var(u) => u == v,
        Term::Cell(_) => false,
    }
}

/// Whether one of the levels has this variable.
fn has_level(levels: &[Level], v: u32) -> bool
    ensures { result ≡ has_var levels.now v }
{
    for level in levels {
        if is_var(level.term, v) {
            return true;
        }
    }
    false
}

/// The values of the variables of the levels above.
fn values_above(levels: &[Level], keys: &Path, values: &Values) -> Values
    requires within { length keys.now ≤ length levels.now }
    requires variables { AllByRecursion (λ level. IsTermOf most_variables level.term) levels.now }
    requires known { IsKnown levels.now keys.now (values_in values.now.cells) }
    ensures { (a : Assignment) → AgreeBelow (length keys.now) (at keys.now) (keys_under a levels.now) → Agrees (values_in result.cells) a }
{
    let mut above = Values::none();
    for l in 0..keys.len() {
        if let Term::Var(v) = levels[l].term {
            above.set(v, values.cell(Term::Var(v)));
        }
    }
    above
}

/// The values of the variables of the levels above, and those that the literals with `=` give then.
fn given_above(levels: &[Level], keys: &Path, values: &Values, tests: &[Test]) -> Values
    requires within { length keys.now ≤ length levels.now }
    requires variables { AllByRecursion (λ level. IsTermOf most_variables level.term) levels.now }
    requires known { IsKnown levels.now keys.now (values_in values.now.cells) }
    requires tests { AllByRecursion IsTest tests.now }
    ensures { (a : Assignment) → AgreeBelow (length keys.now) (at keys.now) (keys_under a levels.now) → list_all (test_passes a) tests.now ≡ true → Agrees (values_in result.cells) a }
{
    let mut all = values_above(levels, keys, values);
    give_each(&mut all, tests);
    all
}

/// What is known of the terms below some keys: by values of which those of the levels above are known, or by values that all are.
#[derive(Clone, Copy, Drop)]
pub(crate) struct Above<'b> {
    levels: &'b [Level],
    values: &'b Values,
    exact: bool,
}

impl<'b> Above<'b> {
    /// By the values of a walk: those of the levels above are known, and others may be of keys where it was.
    #[inline]
    fn by_keys(levels: &'b [Level], keys: &Path, values: &'b Values) -> Above<'b>
        requires within { length keys.now ≤ length levels.now }
        requires known { IsKnown levels.now keys.now (values_in values.now.cells) }
        ensures { (a : Assignment) → AgreeBelow (length keys.now) (at keys.now) (keys_under a levels.now) → AgreesWith result a }
    {
        Above {
            levels: &levels[..keys.len()],
            values,
            exact: false,
        }
    }

    /// By values that are all known.
    #[inline]
    fn by_values(values: &'b Values) -> Above<'b>
        ensures { (a : Assignment) → Agrees (values_in values.now.cells) a → AgreesWith result a }
    {
        Above {
            levels: &[],
            values,
            exact: true,
        }
    }

    /// The cell that a term stands for, where it is known.
    fn cell(&self, term: Term) -> Option<Key>
        ensures { IfSome result (λ cell. (a : Assignment) → AgreesWith self.now a → cell_of a term ≡ cell) }
    {
        match term {
            Term::Cell(cell) => Some(cell),
            Term::Var(v) => {
                if self.exact || has_level(self.levels, v) {
                    self.values.get(v)
                } else {
                    None
                }
            }
        }
    }

    /// Those of the keys that compare so with the term, where its cell is known.
    #[inline]
    fn cut(&self, range: KeyRange, op: Op, term: Term) -> KeyRange
        ensures { (a : Assignment) (k : ℕ) → AgreesWith self.now a → compare_by op k (cell_of a term) ≡ true → IsInRange range k → IsInRange result k }
    {
        match self.cell(term) {
            Some(key) => range.by(op, key),
            None => range,
        }
    }

    /// Those of the keys that are the sum or the difference, where both terms' cells are known.
    #[inline]
    fn cut_by_sum(&self, range: KeyRange, minus: bool, a: Term, b: Term) -> KeyRange
        ensures { (s : Assignment) (k : ℕ) → AgreesWith self.now s → sum_value minus (cell_of s a) (cell_of s b) ≡ Some k → IsInRange range k → IsInRange result k }
    {
        match (self.cell(a), self.cell(b)) {
            (Some(x), Some(y)) => match sum_of(minus, x, y) {
                Some(key) => range.by(Op::Eq, key),
                None => range.below(0),
            },
            _ => range,
        }
    }

    /// What a test leaves of the keys of the level whose variable this is.
    fn left_by(&self, range: KeyRange, v: u32, test: Test) -> KeyRange
        ensures { (a : Assignment) → AgreesWith self.now a → test_passes a test ≡ true → IsInRange range (a v) → IsInRange result (a v) }
    {
        match test {
            Test::Cmp { left, op, right } => {
                if is_var(left, v) {
                    self.cut(range, op, right)
                } else if is_var(right, v) {
                    self.cut(range, turned(op), left)
                } else {
                    range
                }
            }
            Test::Sum { var, a, minus, b } => {
                if var == v {
                    self.cut_by_sum(range, minus, a, b)
                } else {
                    range
                }
            }
        }
    }

    /// What the tests leave of the values of a variable.
    fn left_by_all(&self, v: u32, tests: &[Test]) -> KeyRange
        ensures { (a : Assignment) → AgreesWith self.now a → list_all (test_passes a) tests.now ≡ true → a v < end_key → IsInRange result (a v) }
    {
        let mut range = KeyRange::all();
        for test in tests {
            range = self.left_by(range, v, *test);
        }
        range
    }

    /// What the tests leave of the keys of the level with this term.
    fn range(&self, term: Term, tests: &[Test]) -> KeyRange
        ensures leaves { (a : Assignment) → AgreesWith self.now a → list_all (test_passes a) tests.now ≡ true → cell_of a term < end_key → IsInRange result (cell_of a term) }
        ensures low { result.lo ≤ 2 ^ 120 }
    {
        match term {
            Term::Var(v) => self.left_by_all(v, tests).from_cells(),
            Term::Cell(_) => KeyRange::all(),
        }
    }

    /// Whether the cells that are known let the test fail.
    fn fails(&self, test: Test) -> bool
        ensures { result ≡ true → (a : Assignment) → AgreesWith self.now a → test_passes a test ≡ false }
    {
        match test {
            Test::Cmp { left, op, right } => match (self.cell(left), self.cell(right)) {
                (Some(x), Some(y)) => !compare(op, x, y),
                _ => false,
            },
            Test::Sum { var, a, minus, b } => {
                match (self.cell(Term::Var(var)), self.cell(a), self.cell(b)) {
                    (Some(cell), Some(x), Some(y)) => sum_of(minus, x, y) != Some(cell),
                    _ => false,
                }
            }
        }
    }

    /// Whether one of the tests fails, whatever the keys below are.
    fn is_hopeless(&self, tests: &[Test]) -> bool
        ensures { result ≡ true → (a : Assignment) → AgreesWith self.now a → list_all (test_passes a) tests.now ≡ false }
    {
        for test in tests {
            if self.fails(*test) {
                return true;
            }
        }
        false
    }
}

/// What the tests leave of the keys of the level below. Values that literals with `=` give count where they are asked for.
pub(crate) fn range_below(
    levels: &[Level],
    keys: &Path,
    values: &Values,
    tests: &[Test],
    gives: bool,
) -> KeyRange
    requires below { length keys.now < length levels.now }
    requires variables { AllByRecursion (λ level. IsTermOf most_variables level.term) levels.now }
    requires known { IsKnown levels.now keys.now (values_in values.now.cells) }
    requires tests { AllByRecursion IsTest tests.now }
    ensures leaves { (a : Assignment) → AgreeBelow (length keys.now) (at keys.now) (keys_under a levels.now) → list_all (test_passes a) tests.now ≡ true → keys_under a levels.now (length keys.now) < end_key → IsInRange result (keys_under a levels.now (length keys.now)) }
    ensures low { result.lo ≤ 2 ^ 120 }
{
    let level = &levels[keys.len()];
    if gives {
        let all = given_above(levels, keys, values, tests);
        return Above::by_values(&all).range(level.term, tests);
    }
    Above::by_keys(levels, keys, values).range(level.term, tests)
}

/// Whether a test fails whatever the keys below are.
pub(crate) fn one_fails(
    levels: &[Level],
    keys: &Path,
    values: &Values,
    tests: &[Test],
    gives: bool,
) -> bool
    requires within { length keys.now ≤ length levels.now }
    requires variables { AllByRecursion (λ level. IsTermOf most_variables level.term) levels.now }
    requires known { IsKnown levels.now keys.now (values_in values.now.cells) }
    requires tests { AllByRecursion IsTest tests.now }
    ensures { result ≡ true → (a : Assignment) → AgreeBelow (length keys.now) (at keys.now) (keys_under a levels.now) → list_all (test_passes a) tests.now ≡ true → ⊥ }
{
    if gives {
        let all = given_above(levels, keys, values, tests);
        return Above::by_values(&all).is_hopeless(tests);
    }
    Above::by_keys(levels, keys, values).is_hopeless(tests)
}
