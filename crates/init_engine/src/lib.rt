//! The command that makes the journals of a policy's users.
//!
//! `run_init` makes an empty journal on the disk of each user whose disk is empty. Another disk has
//! to open as a journal with the same header, and keeps its bytes, so that making the journals
//! twice changes nothing. It stops at the first user who can't be served: those before him are
//! ready, and the disks of those behind him are as they were.
//!
//! Read `specs/Disks.antt`, `specs/Stops.antt` and `specs/Ends.antt` first, then `init`; `visit`
//! has what is done with one disk.
#![tactic(auto)]

mod end;
mod init;
mod visit;

pub use end::InitEnd;
pub use init::run_init;
