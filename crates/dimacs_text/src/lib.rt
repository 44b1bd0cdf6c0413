//! Clauses in the DIMACS format, and the machine's answer to them.
//!
//! `answer_input` reads clauses with their options from a source, refuses them at their first bad
//! line, or searches them and prints to a sink what the search cost and the machine's end: a model,
//! a refutation (in LRAT where that is wanted), or that the budget was spent. Its contract says
//! what the bytes mean, and that what is printed is the machine's end on these clauses within this
//! budget.
//!
//! Read `words`, `header`, `problem` and `reading`, which read, then `cnf` and `printed`, then
//! `ending` and `answer`.
#![tactic(auto)]

mod answer;
mod cnf;
mod ending;
mod header;
mod printed;
mod problem;
mod reading;
mod refusal;
mod words;

pub use answer::answer_input;
pub use ending::{Ending, Verdict};
pub use refusal::{DimacsRefusal, RefusalKind};
