//! Assertions that are proved once: a call of one costs a proof next to nothing, where the macro
//! in its place costs two seconds and more.
ghost use Rattle.std.specs.Prelude.{◌≡◌, true};

use std::fmt::Debug;
use std::process::Abort;

/// Asserts that two values are equal. No clause says so: where the proof of what follows needs it,
/// `assert_eq!` stands there.
pub fn same<T: PartialEq + Debug>(rt: &impl Abort, left: &T, right: &T) {
    assert_eq!(rt; *left, *right);
}

/// Asserts that two values are equal, and tells at which step, line or place they aren't.
pub fn same_at<T: PartialEq + Debug>(rt: &impl Abort, left: &T, right: &T, at: u64) {
    assert_eq!(rt; *left, *right, "at {at}");
}

/// Asserts that each number is above its floor.
pub fn above(rt: &impl Abort, floors: &[(u64, u64)]) {
    for (met, floor) in floors {
        assert!(rt; *met > *floor, "{met}, and not more than {floor}");
    }
}

/// Asserts that something holds.
pub fn holds(rt: &impl Abort, it: bool)
    ensures { it ≡ true }
{
    assert!(rt; it);
}
