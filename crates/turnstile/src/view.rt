//! What a pass knows. The proofs speak of these types, and no value of them is made.
use std::collections::LinkedList;

/// Where a pass stands: it holds no ticket, it waits until its ticket is served, or it has the
/// value.
pub enum Stage {
    Outside,
    Waiting(u64),
    Inside(u64),
}

/// What a pass knew when it was joined to another.
pub struct Known<I, F> {
    pub seen: LinkedList<(u64, I)>,
    pub drawn: LinkedList<u64>,
    pub fixed: Option<F>,
}

/// What a pass knows.
pub struct View<I, F> {
    pub stage: Stage,
    /// The entries that it has seen, each with its ticket.
    pub seen: LinkedList<(u64, I)>,
    /// The tickets that it drew.
    pub drawn: LinkedList<u64>,
    /// What no turn changes; none where the view is spent.
    pub fixed: Option<F>,
    pub shares: u64,
    /// How many turns it may still make.
    pub turns: u64,
    /// What the passes knew that were joined in it, until the next step.
    pub joined: LinkedList<Known<I, F>>,
}
