//! Assertions that are proved once: a call of one costs a proof next to nothing, where the macro
//! in its place costs two seconds and more.
ghost use Rattle.std.specs.Prelude.{◌≡◌, true};

use std::fmt::Debug;
use std::process::Abort;

/// Asserts that two values are equal. No clause says so: where the proof of what follows needs it,
/// `assert_eq!` stands there.
pub fn same<T: PartialEq + Debug>(rt: &impl Abort, left: &T, right: &T) {
    assert_eq!(rt; *left, *right);
}

/// Asserts that something holds.
pub fn holds(rt: &impl Abort, it: bool)
    ensures { it ≡ true }
{
    assert!(rt; it);
}

/// Asserts that two values are equal, at a place of a table.
pub fn same_at<T: PartialEq + Debug>(rt: &impl Abort, at: usize, left: &T, right: &T) {
    assert_eq!(rt; *left, *right, "at {at}");
}
