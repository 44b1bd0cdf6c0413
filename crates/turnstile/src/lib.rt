//! A turnstile: a ticket lock over a value with a history, whose contract knows that history.
//!
//! Threads share a `Turnstile`, and each has a `Pass`. It draws a ticket, waits until that is
//! served, and has the value alone until it leaves, with at most one entry more. There is one
//! history for all of them: what a pass has seen is a prefix of what it is lent in each later turn,
//! no two turns have one ticket, and an entry keeps the ticket of the turn that added it.
//!
//! Read `steps.rt` for what a value has to tell, `pass.rt`, and `turnstile.rt` for the calls.
//! `specs/Rule.antt` is what holds between any two atomic steps, over any number of threads.
#![tactic(auto)]

mod bell;
mod laws;
mod pass;
mod steps;
mod turnstile;
mod view;

pub use laws::law_turns;
pub use pass::{Pass, PassError};
pub use steps::{Recorded, Ticketed};
pub use turnstile::{Turn, Turnstile};
pub use view::{Known, Stage, View};
