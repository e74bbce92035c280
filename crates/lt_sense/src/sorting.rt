//! Ranges of an index put in order: they are sorted by how they begin, and ranges that meet become one.
ghost use Rattle.std.specs.Prelude.{◌≡◌, ◌<◌, ◌≤◌, ◌∷◌, ◌++◌, [], true, false, length, slice_get, Some, IfOk, OnOk};
ghost use Rattle.std.specs.List.{AllByRecursion};
ghost use Rattle.std.specs.List.Sorted.{IsPermutation, IsSorted};
ghost use Rattle.std.specs.Ordering.{is_gt, is_lt};
ghost use Rattle.lt_face.specs.Lists.{AreInOrder};
ghost use Rattle.lt_face.specs.Rows.{row_cmp};
ghost use Rattle.lt_sense.specs.Apart.{end_of, first_of, range_cmp, span_cmp, still_in, stills_in, AreUnited, IsApart, IsKeptSpan};
ghost use Rattle.lt_sense.specs.Ordered.{AreUpTo, IsPut, IsSealedOf};
ghost use Rattle.lt_sense.specs.Sense.{gap_covers};
ghost use Rattle.lt_sense.specs.Spans.{stills, HaveSameRows, GrowAlike, IsSpans};

use crate::pieces::cells_of;
use crate::spans::{Span, Spans};
use lt_face::key::Key;
use lt_face::memory::NoMemory;
use std::cmp::Ordering;

/// How cells with one more behind them stand to others with one more.
fn compare_ends(one: &[Key], a: Key, other: &[Key], b: Key) -> Ordering
    ensures { result ≡ row_cmp (one.now ++ a ∷ []) (other.now ++ b ∷ []) }
{
    for i in 0..one.len() {
        let cell = one[i];
        if i >= other.len() {
            if cell < b {
                return Ordering::Less;
            }
            return Ordering::Greater;
        }
        if cell < other[i] {
            return Ordering::Less;
        }
        if other[i] < cell {
            return Ordering::Greater;
        }
    }
    if one.len() < other.len() {
        if other[one.len()] < a {
            return Ordering::Greater;
        }
        return Ordering::Less;
    }
    a.cmp(&b)
}

/// The range at a place.
fn span_at(all: &[Span], at: usize) -> Span
    requires { at < length all.now }
    ensures { slice_get all.now at ≡ Some result }
{
    all[at]
}

/// The greater of two keys.
fn greater(a: Key, b: Key) -> Key
    ensures above { (a ≤ result) × (b ≤ result) }
    ensures one { (a ≤ b → result ≡ b) × (b ≤ a → result ≡ a) }
{
    if a < b { b } else { a }
}

impl Spans {
    /// The prefix of a range.
    fn prefix_of(&self, span: Span) -> &[Key]
        requires { IsSpans self.now }
        ensures { result.now ≡ (still_in self.now span).prefix }
    {
        if span.run >= self.runs.len() {
            return &[];
        }
        let run = self.runs[span.run];
        cells_of(&self.cells, run)
    }

    /// How two ranges begin.
    fn compare_spans(&self, one: Span, other: Span) -> Ordering
        requires { IsSpans self.now }
        ensures { result ≡ span_cmp self.now one other }
    {
        compare_ends(self.prefix_of(one), one.lo, self.prefix_of(other), other.lo)
    }

    /// How the end of one stands to where the other begins.
    fn compare_end(&self, one: Span, other: Span) -> Ordering
        requires sound { IsSpans self.now }
        requires one { IsKeptSpan self.now one }
        requires other { IsKeptSpan self.now other }
        ensures { result ≡ row_cmp (end_of (still_in self.now one)) (first_of (still_in self.now other)) }
    {
        compare_ends(self.prefix_of(one), one.hi, self.prefix_of(other), other.lo)
    }

    /// Whether one has ended before the other begins.
    fn is_apart(&self, one: Span, other: Span) -> bool
        requires sound { IsSpans self.now }
        requires one { IsKeptSpan self.now one }
        requires other { IsKeptSpan self.now other }
        ensures { result ≡ true → IsApart (still_in self.now one) (still_in self.now other) }
    {
        one.lo <= one.hi && self.compare_end(one, other).is_lt()
    }

    /// Whether ranges are in order.
    fn are_apart(&self, all: &[Span]) -> bool
        requires sound { IsSpans self.now }
        requires kept { AllByRecursion (IsKeptSpan self.now) all.now }
        ensures ordered { result ≡ true → AreInOrder IsApart (stills_in self.now all.now) }
        ensures several { result ≡ false → 2 ≤ length all.now }
    {
        for at in 1..all.len() {
            let last = span_at(all, at - 1);
            let next = span_at(all, at);
            if !self.is_apart(last, next) {
                return false;
            }
        }
        true
    }

    /// Two ranges as one, where the later begins within the other or adjoins it.
    fn joined(&self, last: Span, next: Span) -> Span
        requires sound { IsSpans self.now }
        requires last { IsKeptSpan self.now last }
        requires next { IsKeptSpan self.now next }
        requires order { is_gt (range_cmp (still_in self.now last) (still_in self.now next)) ≡ false }
        requires meets { is_lt (row_cmp (end_of (still_in self.now last)) (first_of (still_in self.now next))) ≡ false }
        ensures run { result.run ≡ last.run }
        ensures lo { result.lo ≡ last.lo }
        ensures rows { AreUnited (still_in self.now last) (still_in self.now next) (still_in self.now result) }
    {
        if self.prefix_of(last).len() != self.prefix_of(next).len() {
            return last;
        }
        Span {
            run: last.run,
            lo: last.lo,
            hi: greater(last.hi, next.hi),
        }
    }

    /// Adds a range to others in order, none of which begins behind it. Where it meets the last of them, they become one.
    fn put(&self, out: &mut Vec<Span>, next: Span) -> Result<(), NoMemory>
        requires sound { IsSpans self.now }
        requires next { IsKeptSpan self.now next }
        requires kept { AllByRecursion (IsKeptSpan self.now) out.old.items }
        requires ordered { AreInOrder IsApart (stills_in self.now out.old.items) }
        requires up_to { AreUpTo range_cmp (stills_in self.now out.old.items) (still_in self.now next) }
        ensures kept { OnOk result (AllByRecursion (IsKeptSpan self.now) out.new.items) }
        ensures put { OnOk result (IsPut range_cmp IsApart gap_covers (stills_in self.now out.old.items) (stills_in self.now out.new.items) (still_in self.now next)) }
    {
        match out.pop() {
            None => {
                out.push(next)?;
                Ok(())
            }
            Some(last) => {
                if self.compare_end(last, next).is_lt() {
                    out.push(last)?;
                    out.push(next)?;
                    return Ok(());
                }
                let span = self.joined(last, next);
                out.push(span)?;
                Ok(())
            }
        }
    }

    /// Those that don't grow, sorted by how they begin.
    fn sorted(&self) -> Result<Vec<Span>, NoMemory>
        requires sound { IsSpans self.now }
        ensures same { IfOk result (λ all. IsPermutation self.now.ranges.items all.items) }
        ensures sorted { IfOk result (λ all. IsSorted (span_cmp self.now) all.items) }
    {
        let mut all = Vec::new(*self.cells.allocator());
        all.extend_from_slice(&self.ranges)?;
        all.sort_by(|one, other| self.compare_spans(*one, *other))?;
        Ok(all)
    }

    /// Sorted ranges, of which those that meet become one.
    fn united(&self, all: &[Span]) -> Result<Vec<Span>, NoMemory>
        requires sound { IsSpans self.now }
        requires kept { AllByRecursion (IsKeptSpan self.now) all.now }
        requires sorted { IsSorted (span_cmp self.now) all.now }
        ensures kept { IfOk result (λ out. AllByRecursion (IsKeptSpan self.now) out.items) }
        ensures same { IfOk result (λ out. IsSealedOf IsApart gap_covers (stills_in self.now all.now) (stills_in self.now out.items)) }
    {
        let mut out = Vec::new(*self.cells.allocator());
        for at in 0..all.len() {
            let next = span_at(all, at);
            self.put(&mut out, next)?;
        }
        Ok(out)
    }

    /// Puts those that don't grow in order. Want of memory leaves all as it was.
    pub(crate) fn put_in_order(&mut self) -> Result<(), NoMemory>
        requires sound { IsSpans self.old }
        ensures sound { IsSpans self.new }
        ensures alike { GrowAlike self.old self.new }
        ensures rows { HaveSameRows (stills self.new) (stills self.old) }
        ensures ordered { OnOk result (AreInOrder IsApart (stills self.new)) }
        ensures few { length self.new.ranges.items ≤ length self.old.ranges.items }
    {
        if self.are_apart(&self.ranges) {
            return Ok(());
        }
        let all = self.sorted()?;
        let ranges = self.united(&all)?;
        self.ranges = ranges;
        Ok(())
    }
}
