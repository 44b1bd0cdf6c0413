//! How the making of journals ends.
use log_journal::OpenError;

/// How `run_init` ends.
#[derive(Clone, Copy, Debug, PartialEq, Eq)]
pub enum InitEnd {
    /// Each user has a journal with the header.
    Done,
    /// The disk of the user of this number, counted from 0, isn't empty and doesn't open as a
    /// journal.
    Refused { user: usize, why: OpenError },
    /// A call of a disk failed at the making of a journal.
    DiskFault,
    /// The shelf failed.
    ShelfFault,
    /// Memory was wanting.
    Memory,
}

/// Why one user's journal isn't made.
#[derive(Clone, Copy)]
pub(crate) enum Stop {
    Refused(OpenError),
    DiskFault,
    ShelfFault,
    Memory,
}
