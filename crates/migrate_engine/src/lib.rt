//! The command that moves the journals of a policy's users from version 1 to version 2.
//!
//! `run_migrate` reads the old journal of each user in one directory, and writes a journal with the
//! same records to the disk of the same user in another, which has to be empty. The first eight
//! bytes come last, so that it opens with all records or not at all. It stops at the first user who
//! can't be served. The old journals are only read, whatever comes, so that another directory can
//! be tried.
//!
//! Read `specs/Moves.antt`, `specs/Stops.antt` and `specs/Ends.antt` first, then `migrate`; `visit`
//! has what is done with one user, `source` and `target` what is done with his two disks.
#![tactic(auto)]

mod end;
mod migrate;
mod source;
mod target;
mod visit;

pub use end::MigrateEnd;
pub use migrate::run_migrate;
