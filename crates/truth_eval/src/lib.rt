//! Whether a sentence is true in a world of facts.
//!
//! `holds` walks the sentence and tries each constant at each quantifier. It answers the truth that
//! the definitions in `cqe_base` give, keeps the variables in eight places and takes no memory.
//! Read `evaluation`.
#![tactic(auto)]

mod evaluation;

pub use evaluation::holds;
