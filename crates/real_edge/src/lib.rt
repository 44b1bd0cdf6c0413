//! The real outside: the standard streams as a source and as sinks, the files of the system as a
//! shelf, an open file as a disk, whose sync is the system's, and TCP sockets as links, doors,
//! dials, sources and sinks.
//!
//! Each object counts its faults, and fails only where its count rises. Nothing is told to clauses
//! of what a real stream, file or socket holds, since nobody knows what it will give and what
//! becomes of what it takes: that the bytes are the system's is tested and not proved.
//!
//! Read `streams`, then `disks`, `locks` and `files`, then `waits`, `clients`,
//! `sockets` and `dials`.
#![tactic(auto)]

mod clients;
mod dials;
mod disks;
#[cfg(test)]
mod file_tests;
mod files;
mod locks;
#[cfg(test)]
mod socket_tests;
mod sockets;
mod streams;
#[cfg(test)]
mod tests;
mod waits;

pub use clients::ClientReader;
pub use dials::TcpDial;
pub use disks::FileDisk;
pub use files::FileShelf;
pub use locks::Lockable;
pub use sockets::{TcpDoor, TcpLinks};
pub use streams::{StreamSink, StreamSource};
