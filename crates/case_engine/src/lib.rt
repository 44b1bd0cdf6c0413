//! The case: a script with one user, read whole, checked, and answered.
//!
//! `run_case` reads the script from a source and writes one line for each ask; the script's meaning
//! is `script_of` of `specs/Script.antt`, what is written stands in `specs/Case.antt`: the replies
//! of a run from the empty history, which is legal and hides where the user is admitted. Nothing is
//! written before the whole script is accepted.
//! Read `statement` (the shapes of lines), `script` (what they add up to), `answering`, then
//! `case`.
#![tactic(auto)]

mod answering;
mod case;
mod declaration;
mod parts;
mod script;
mod statement;

pub use case::{CaseEnd, run_case};
pub use statement::Statement;
