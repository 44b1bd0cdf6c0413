//! How the moving of journals ends.
use log_journal::OpenError;

/// How `run_migrate` ends.
#[derive(Clone, Copy, Debug, PartialEq, Eq)]
pub enum MigrateEnd {
    /// Each user has a journal of version 2 with the records of his old one.
    Done,
    /// The old journal of the user of this number, counted from 0, isn't opened.
    Refused { user: usize, why: OpenError },
    /// The disk that would be the new journal of the user of this number isn't empty.
    NotEmpty { user: usize },
    /// A call of such a disk failed.
    DiskFault,
    /// The shelf failed.
    ShelfFault,
    /// Memory was wanting.
    Memory,
}

/// Why one user's journal isn't moved.
#[derive(Clone, Copy)]
pub(crate) enum Stop {
    Refused(OpenError),
    NotEmpty,
    DiskFault,
    ShelfFault,
    Memory,
}
