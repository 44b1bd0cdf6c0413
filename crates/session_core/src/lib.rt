//! Sessions of many users over lines: the counters of all users, a thread's passes at them, and one
//! session.
//!
//! `Counters` has a counter for each user, and `Passes` a pass at each of them. `serve_session`
//! reads the lines of a source and writes a reply to each: who logs in with his token asks his own
//! desk, by his own history, and no other pass changes; a list asks each of its instances in turn,
//! and behind a line that the sink refuses nothing. What was written is, line for line, the
//! answer to the lines that were read; and each end has its cause.
//!
//! Read `specs/Heard.antt`, `specs/Lists.antt`, `specs/Talks.antt`, `specs/Replied.antt` and
//! `specs/Sessions.antt` first, then `counters`, `asking` and `session`; `laws` says that the same
//! replies come in each world in which the history is legal.
#![tactic(auto)]

mod asking;
mod counters;
pub mod laws;
mod session;

pub use counters::{Counters, CountersOf, Passes};
pub use session::{Ended, serve_session};
