//! What is kept of one user between the calls for him: his items, the view of their log, their
//! sizes, and the user as he is at their end, with the secrets that were added.
//!
//! `UserLog::weigh` gives the reply to a text by the user's own history, without adding anything: a
//! text that is asked, or one that is to be added to the secrets. `UserLog::ask` adds the item of a
//! mark as well, and `UserLog::prepare` and `UserLog::commit` do that in two steps, of which the
//! second takes no memory.
//! A text that is asked may be examined before it is weighed: `UserLog::lend` lends views of the
//! log, `Examiner` makes the probes after that, outside of the log and by as many threads as there
//! are views, and `weigh` takes what they found where the items are as many as they were. Where a
//! secret was added nothing is lent. `ask` does all of this itself, also for a user with added
//! secrets.
//! `line_reply` is a reply in the words of the line protocol.
//! The type keeps that the items are legal and were added within the limits.
//! Read `reply` first, then `examiner` and `log`.
#![tactic(auto)]

mod examiner;
mod log;
mod prepared;
mod reply;

pub use examiner::{Examined, Examiner, Lent};
pub use log::{UserLog, told_nodes};
pub use prepared::Prepared;
pub use reply::{Reply, Weighed, line_reply};
