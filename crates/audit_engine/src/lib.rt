//! The command that prints the audit of one user.
//!
//! `run_audit` takes the journal of a user from a shelf, opens it, prints what it holds, and gives
//! the disk back on every path. What is written is the audit of the user's standing and of the
//! legal history that the bytes of his journal stand for as the call begins; where his journal is
//! refused the audit says so, and the end names the reason.
//! No other disk is touched, and the bytes of the one that is opened stay.
//!
//! Read `specs/Ends.antt` first, then `end`, `run` and `print`.
#![tactic(auto)]

mod end;
mod print;
mod run;

pub use end::AuditEnd;
pub use run::run_audit;
