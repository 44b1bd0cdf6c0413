//! Literals and numbered clauses, and what a search on them ends with.
//!
//! A contract sees a literal as `Literal` of cqe_base and a store as the list of its clauses: the
//! clause that is lent under a number is the one that was pushed under it, and a push that is
//! refused changes nothing.
//!
//! Read `literal`, then `clauses`, `resolution` and `refutation`; then `codes` and `marked_clause`,
//! a clause with a mark for each literal.
#![tactic(auto)]

pub mod clauses;
pub mod codes;
pub mod literal;
pub mod marked_clause;
pub mod refutation;
pub mod resolution;
