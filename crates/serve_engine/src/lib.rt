//! Serving: connections that come in at an address, answered side by side by sessions of a policy's
//! users.
//!
//! `run_serve` opens the journals of all users, gives each of its workers a door and a `SessionJob`
//! with passes of its own, and lets them serve up to the end of the links or a greatest number of
//! connections; then it gives the journals and the doors back. Each connection that was given is
//! `Served` (`specs/Served.antt`): its lines were answered one after the other, and whoever logged
//! in was replied to by his one history, the same for all his sessions. What his journal says of
//! that history, as it was opened and as it is back, is `HasServed` of `specs/Serving.antt`; and
//! that it has nothing behind its opening but the marks that connections told him, each once, is
//! `AreAllTold` there. The same bytes serve each connection in each database that is alike to who
//! is logged in (`IsServedAlike` of `specs/Alike.antt`).
//!
//! Read `job`, `serving`, `sharing`, then `run`; `laws` says that a connection that was served
//! stays so, and that its bytes come again in other databases.
#![tactic(auto)]

mod job;
pub mod laws;
mod run;
mod serving;
mod sharing;

pub use job::{SessionJob, SessionJobOf};
pub use run::{Listening, ServeEnd, run_serve};
