//! The commands that write the dossier of one user, and that check one.
//!
//! `run_dossier` takes the journal of a user from a shelf, opens it, writes what shows each of his
//! replies, and gives the disk back on every path. What is written is the dossier of the records
//! that the bytes of his journal have as the call begins; of a user who isn't served it is one
//! line, and where his journal is refused the end names the reason. No other disk is touched, and
//! the bytes of the one that is opened stay.
//! `run_check` reads a text from a source and searches nothing: what it accepts is a sound history
//! of an admissible user and hides soundly, whoever wrote it.
//!
//! Read `specs/Ends.antt` and `specs/Checks.antt` first, then `end`, `run` and `show`, and `check`
//! and `input`.
#![tactic(auto)]

mod check;
mod end;
mod input;
mod laws;
mod run;
mod show;

pub use check::run_check;
pub use end::{CheckEnd, CheckRefusal, DossierEnd};
pub use laws::law_written_are_accepted;
pub use run::run_dossier;
