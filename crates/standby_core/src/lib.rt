//! A standby: a second program that has a copy of each journal, so that a mark is told only once
//! the copy has its record.
//!
//! At the primary a `MirroredShelf` gives the disks of a shelf with a mirror each, as
//! `MirroredDisk`s. Such a disk tells of a record by an exchange with the standby: a frame goes
//! out, and the count of the standby's records comes back. At the standby `serve_standby` takes
//! frames for as long as they come, a `StandbyBook` appends each record that is the next of its
//! user, and each answer is the count of the records that the standby has then. What that is worth
//! whatever becomes of the frames on their way stands in `replica`.
//!
//! Read `specs/Frames.antt`, `specs/Calls.antt` and `specs/Copies.antt` first, then `frame`,
//! `mirror`, `mirrored_disk`, `slot`, `mirrors`, `dialling`, `shelf`, `book` and `serve`.
#![tactic(auto)]

mod book;
mod dialling;
mod frame;
mod mirror;
mod mirrored_disk;
mod mirrors;
mod serve;
mod shelf;
mod slot;

pub use book::{Held, StandbyBook, TakeError};
pub use dialling::{hang_up_all, mirrors_for};
pub use frame::{Frame, FrameOutcome, FrameRoom, Judged, judge, read_frame};
pub use mirror::Mirror;
pub use mirrored_disk::MirroredDisk;
pub use mirrors::Mirrors;
pub use serve::{StandbyEnd, serve_standby};
pub use shelf::MirroredShelf;
