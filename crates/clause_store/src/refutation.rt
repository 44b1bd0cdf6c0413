//! What a search ends with.

use crate::literal::Lit;

/// A sign for each variable.
#[derive(Drop)]
pub struct Signs {
    pub values: Vec<bool>,
}

/// A learnt clause, and the numbers of the clauses that it is resolved from, in order.
#[derive(Drop)]
pub struct Line {
    pub clause: Vec<Lit>,
    pub chain: Vec<u32>,
}

/// The lines of a refutation, numbered on from the given clauses.
#[derive(Drop)]
pub struct Refutation {
    pub lines: Vec<Line>,
}
