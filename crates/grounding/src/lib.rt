//! The ground formula of a sentence: without quantifiers, variables and equations.
//!
//! `ground` writes each quantifier out over its domain, in the domain's order, and decides each
//! equation. Its result is the formula that the definitions in `cqe_base` give, which is true in
//! the same worlds as the sentence. It refuses a sentence whose formula would have more than 40,000
//! nodes. Read `instances`.
#![tactic(auto)]

mod instances;

pub use instances::{GroundError, ground};
