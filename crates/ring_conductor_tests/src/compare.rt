//! Comparisons. They are calls, since the check proves an `assert_eq!` again at each place.
use std::fmt::Debug;
use std::process::Abort;

/// Tests that a value is the wanted one.
pub fn same<T: Copy + PartialEq + Debug>(rt: &impl Abort, found: T, wanted: T) {
    assert_eq!(rt; found, wanted);
}

/// The same of a row, a word or a round with this number.
pub fn same_at<T: Copy + PartialEq + Debug>(rt: &impl Abort, at: usize, found: T, wanted: T) {
    assert_eq!(rt; found, wanted, "at {at}");
}
