//! Comparisons of cells, one by one.
ghost use Rattle.std.specs.Prelude.{◌≡◌, nat_eq};
ghost use Rattle.std.specs.Ordering.{nat_cmp};
ghost use Rattle.std.specs.Cmp.Lexicographic.{pointwise, slice_cmp};

use crate::key::Key;
use std::cmp::Ordering;

/// The first pair that differs decides, and else the lengths do.
#[inline]
pub(crate) fn order(a: &[Key], b: &[Key]) -> Ordering
    ensures { result ≡ slice_cmp nat_cmp a.now b.now }
{
    for i in 0..a.len().min(b.len()) {
        if a[i] != b[i] {
            return a[i].cmp(&b[i]);
        }
    }
    a.len().cmp(&b.len())
}

/// Whether they are the same cells.
#[inline]
pub(crate) fn are_equal(a: &[Key], b: &[Key]) -> bool
    ensures { result ≡ pointwise nat_eq a.now b.now }
{
    if a.len() != b.len() {
        return false;
    }
    for i in 0..a.len() {
        if a[i] != b[i] {
            return false;
        }
    }
    true
}
