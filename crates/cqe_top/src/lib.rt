//! All that the program does: from its words, its files and its streams to its status.
//!
//! `top` reads the words, runs their command over a shelf, a source, a sink and links, writes what
//! went wrong to the complaints, and answers the status. Its contract is one record, `Promise`:
//! what the end of each command means of the bytes that were read and written, where a fault may be
//! told, that all that is right is done, and what the complaints are. A second one, `CallsHold`,
//! says what follows of several calls (`specs/Laws.antt`).
//!
//! Read `specs/Scene.antt` and `specs/Promise.antt`, and then the file of a command, as
//! `specs/Batch.antt`;
//! `specs/Reports.antt` has each status, `specs/Complaints.antt` the texts. `specs/Steps.antt` is
//! no part of the promise.
#![tactic(auto)]

mod command;
mod complaint;
mod end;
mod files;
mod for_user;
pub mod laws;
mod mirrored;
mod over_files;
mod part;
mod report;

pub use command::top;
pub use end::{CommandEnd, FileKind, FilesEnd};
pub use report::Report;
