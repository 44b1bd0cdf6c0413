//! What a drawer of numbers knows. The proofs speak of this type, and no value of it is made.
use std::collections::LinkedList;

/// What a drawer knows.
pub(crate) struct Hand {
    /// How many parts of the right to know the whole it has.
    pub parts: u64,
    /// How many numbers it may still draw.
    pub turns: u64,
    /// The numbers that it drew, in order.
    pub drawn: LinkedList<u64>,
}
