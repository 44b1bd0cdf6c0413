//! One user's desk: his log, with a journal of it on a disk, for use by one thread.
//!
//! `open_desk` opens any disk to a legal history within the limits, or seals the desk for a reason
//! that it names.
//! `Desk::settle` answers a call by the user's own items: a text that is asked, or one that is to
//! be added to his secrets. It makes all room first, and a mark comes only once each crash leaves
//! its item. The type keeps that the entries are legal and that each image of the disk stands for
//! them, or after a fault for these and the entry that was in flight. So calls, crashes and
//! restarts are the events of a run.
//! A desk also keeps its opening, as values that contracts alone see: what its images were at each
//! moment since then, and how its disk's count of faults has risen.
//! `replay` is the part of an opening that follows the journal's, for records without a disk.
//!
//! Read `specs/Entries.antt`, `specs/Causes.antt` and `specs/Lives.antt` first, then `standing`,
//! `desk`, `opening` and `laws`; `recounting` goes through the records of a journal, `store` keeps
//! the disk.
#![tactic(auto)]

mod desk;
mod kinds;
pub mod laws;
mod opening;
mod recounting;
mod standing;
mod store;

pub use desk::Desk;
pub use kinds::mark_of;
pub use opening::open_desk;
pub use recounting::{Replayed, replay};
pub use standing::{DeskError, Standing};
