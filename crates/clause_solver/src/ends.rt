//! What a step did, and what a search found.

use clause_store::refutation::{Refutation, Signs};

/// What a step did: it went on, or it ended with the state's lines or with signs; each at a cost.
#[derive(Drop)]
pub enum Advance {
    Went(u64),
    Refuted(u64),
    Satisfied(u64, Signs),
}

/// What a search found within its budget.
#[derive(Drop)]
pub enum Found {
    Model(Signs),
    Refuted(Refutation),
    Spent,
}

/// What a search found, and what it cost: the machine's whole cost, or the budget where that was
/// spent.
#[derive(Drop)]
pub struct Searched {
    pub found: Found,
    pub cost: u64,
}
