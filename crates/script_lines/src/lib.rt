//! Scripts of any kind: lines that are read from a source to its end, and refused at the first bad
//! one.
//!
//! `read_script` reads every line into a `Script`, which says what a line adds or why it is
//! refused. What it answers is what `script_from` of `specs/Scripts.antt` makes of the bytes, with
//! the number of the refused line; a line that is too long and line 100,001 are refused whatever
//! they say, and nothing is answered before the whole source was read.
//! Read `script`, then `reading`; `silence` says which lines say nothing.
#![tactic(auto)]

mod error;
mod reading;
mod script;
mod silence;

pub use error::LineError;
pub use reading::{NextLine, Reading, read_script};
pub use script::Script;
pub use silence::is_silent;
