//! The desks of a policy's users over a shelf: their journals taken and opened, asked, opened
//! again, given back.
//!
//! `open_all` takes all users' journals from the shelf, in order, and opens them side by side, each
//! as a desk, which stands under a counter with one pass; a journal that is refused doesn't stop
//! the others. `call_at` makes a call at a desk, `reopen_all` closes all desks and opens them
//! again, side by side too, and `give_back` closes them and gives each disk back. A refusal leaves
//! all disks on the shelf, with the same bytes. What a desk is as it was opened and what it leaves
//! of its disk stand in `specs/Crew.antt`; the disks under their names in `specs/Shelved.antt`; and
//! what is known of a journal amid these calls in `specs/Side.antt`.
//!
//! Read `registry`, `seat`, `opening`, `crew`; proofs begin with `proofs/Shelving.antt`.
#![tactic(auto)]

mod crew;
mod opening;
mod registry;
mod seat;

pub use crew::{NotOpened, give_back, open_all, refusals_of, reopen_all, room_for};
pub use registry::Registry;
pub use seat::{DeskSeat, Seat, call_at};
