//! Searches of rows that follow one another, by their cells in one column or by a prefix.
ghost use Rattle.std.specs.Prelude.{◌≡◌, ◌<◌, ◌≤◌, false, ℕ, length, is_some, slice_index, slice_index_or, [], take, drop, None};
ghost use Rattle.std.specs.List.{AllByRecursion};
ghost use Rattle.lt_trie.specs.Stand.{cell_at, ComeFirst, IsCut, IsRising, IsUnder};
ghost use Rattle.lt_trie.specs.Under.{next_cell};

use lt_face::{Key, Row};

/// The row's cell in a column.
#[inline(always)]
pub(crate) fn cell_in(row: &Row, column: usize) -> Key
    requires { column < length row.now }
    ensures { result ≡ slice_index row.now column }
{
    row.cells()[column]
}

/// The place of the first row whose cell in the column is at least the bound, where it is known to lie from `low` to `high`.
fn place_between(run: &[Row], mut low: usize, mut high: usize, column: usize, bound: Key) -> usize
    requires wide { AllByRecursion (λ row. column < length row) run.now }
    requires rising { IsRising run.now column }
    requires order { low ≤ high }
    requires within { high ≤ length run.now }
    requires below { (i : ℕ) → i < low → cell_at run.now i column < bound }
    requires above { (i : ℕ) → high ≤ i → i < length run.now → bound ≤ cell_at run.now i column }
    ensures { IsCut run.now column bound result }
{
    while low < high {
        let middle = low + (high - low) / 2;
        if cell_in(&run[middle], column) < bound {
            low = middle + 1;
        } else {
            high = middle;
        }
    }
    low
}

/// The place of the first row whose cell in the column is at least the bound, or how many rows there are. It lies behind `at`, where
/// the cell is below the bound, and is sought from there on by strides that double.
#[inline]
pub(crate) fn place_behind(run: &[Row], at: usize, column: usize, bound: Key) -> usize
    requires wide { AllByRecursion (λ row. column < length row) run.now }
    requires rising { IsRising run.now column }
    requires within { at < length run.now }
    requires below { cell_at run.now at column < bound }
    ensures cut { IsCut run.now column bound result }
    ensures behind { at < result }
{
    let mut low = at + 1;
    let mut stride = 1;
    while stride <= run.len() - low {
        let next = low + stride;
        if bound <= cell_in(&run[next - 1], column) {
            return place_between(run, low, next - 1, column, bound);
        }
        low = next;
        stride *= 2;
    }
    place_between(run, low, run.len(), column, bound)
}

/// Whether the row begins with the prefix, and goes on.
#[tactic(auto, using(crate::proofs::Cells::next_cells))]
fn begins_with(row: &Row, prefix: &[Key]) -> bool
    ensures { result ≡ is_some (next_cell prefix.now row.now) }
{
    let cells = row.cells();
    if prefix.len() >= cells.len() {
        return false;
    }
    for i in 0..prefix.len() {
        if cells[i] != prefix[i] {
            return false;
        }
    }
    true
}

/// How many of the rows, from the first on, begin with the prefix, where those from a place on do not.
fn count_before(run: &[Row], mut high: usize, prefix: &[Key]) -> usize
    requires first { ComeFirst prefix.now run.now }
    requires within { high ≤ length run.now }
    requires others { (i : ℕ) → high ≤ i → i < length run.now → is_some (next_cell prefix.now (slice_index_or run.now i [])) ≡ false }
    ensures within { result ≤ length run.now }
    ensures under { AllByRecursion (IsUnder prefix.now) (take result run.now) }
    ensures others { AllByRecursion (λ r. next_cell prefix.now r ≡ None) (drop result run.now) }
{
    let mut low = 0;
    while low < high {
        let middle = low + (high - low) / 2;
        if begins_with(&run[middle], prefix) {
            low = middle + 1;
        } else {
            high = middle;
        }
    }
    low
}

/// How many of the rows, from the first on, begin with the prefix. Those that do come first.
pub(crate) fn count_under(run: &[Row], prefix: &[Key]) -> usize
    requires { ComeFirst prefix.now run.now }
    ensures within { result ≤ length run.now }
    ensures under { AllByRecursion (IsUnder prefix.now) (take result run.now) }
    ensures others { AllByRecursion (λ r. next_cell prefix.now r ≡ None) (drop result run.now) }
{
    let count = run.len();
    if count == 0 {
        return count;
    }
    let last = count - 1;
    if begins_with(&run[last], prefix) {
        return count;
    }
    count_before(run, last, prefix)
}
