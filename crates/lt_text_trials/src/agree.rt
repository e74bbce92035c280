//! What tests say of two values.
use std::fmt::Debug;
use std::process::Abort;

/// Ends the test unless the two are equal.
pub(crate) fn same<T: PartialEq + Debug + Drop>(rt: &impl Abort, got: T, expected: T) {
    assert_eq!(rt; got, expected);
}

/// Ends the test unless the two are equal, and says where in a table it is.
pub(crate) fn same_at<T: PartialEq + Debug + Drop>(rt: &impl Abort, got: T, expected: T, at: &str) {
    assert_eq!(rt; got, expected, "at {at}");
}
