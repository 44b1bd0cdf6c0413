//! The command that is a standby: a copy of each journal of another program.
//!
//! `run_standby` listens at an address, opens the journal of each user, and takes one connection
//! after the other, each by `standby_core::serve_standby`, until the links end or so many were
//! taken. A user whose journal is refused has no copy here, and his frames are refused. All disks
//! and the door are given back on every path.
//!
//! Read `specs/Served.antt` and `specs/Standing.antt` first, then `run`; `opening` takes the
//! journals from the shelf and gives them back, `serving` takes the connections.
#![tactic(auto)]

mod opening;
mod run;
mod serving;

pub use run::{CopyEnd, Copying, run_standby};
