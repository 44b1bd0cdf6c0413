//! Assertions on plain values, for tests that make many of them: each is proved once, here, and a
//! call costs next to nothing. `what` names the value where one fails.
use std::process::Abort;

/// The bytes that were found are those that are wanted.
pub(crate) fn bytes(rt: &impl Abort, what: &str, found: &[u8], want: &[u8]) {
    assert_eq!(rt; found, want, "{what}");
}

/// As many were found as are wanted.
pub(crate) fn count(rt: &impl Abort, what: &str, found: usize, want: usize) {
    assert_eq!(rt; found, want, "{what}");
}

/// An object counts as many faults as are wanted.
pub(crate) fn faults(rt: &impl Abort, found: u64, want: u64) {
    assert_eq!(rt; found, want, "faults");
}
