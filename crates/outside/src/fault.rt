//! What a call on something outside answers where it failed.

/// A call on something outside failed. It comes only where the count of faults of that object rose.
#[derive(Clone, Copy, Debug, PartialEq, Eq)]
pub struct Failed;
