//! What tests say of two values.
ghost use Rattle.std.specs.Prelude.{◌≡◌, true};

use std::fmt::Debug;
use std::process::Abort;

/// Ends the test unless it is so.
pub(crate) fn holds(rt: &impl Abort, is_so: bool)
    ensures { is_so ≡ true }
{
    assert!(rt; is_so);
}

/// Ends the test unless it is so, and tells the row of its table.
pub(crate) fn holds_at(rt: &impl Abort, is_so: bool, row: &str) {
    assert!(rt; is_so, "at {row}");
}

/// The same of a row that numbers tell.
pub(crate) fn holds_of(rt: &impl Abort, is_so: bool, row: &[usize]) {
    assert!(rt; is_so, "at {row:?}");
}

/// Ends the test unless the two are equal, and tells the row of its table.
pub(crate) fn same_at<T: PartialEq + Debug + Drop>(
    rt: &impl Abort,
    got: T,
    expected: T,
    row: &str,
) {
    assert_eq!(rt; got, expected, "at {row}");
}
