//! Whether a user is served, and why his journal is refused.
use censors::Admission;
use cqe_base::user::Mark;
use log_journal::OpenError;

/// Whether a desk serves its user.
#[derive(Clone, Copy, Debug, PartialEq, Eq)]
pub enum Standing {
    /// It does.
    Open,
    /// He isn't admitted, by this test, and has no entry.
    Closed(Admission),
    /// His journal was refused.
    Sealed(DeskError),
}

/// Why a user's journal is refused, numbered from 1. Records are numbered from 0 and looked at in
/// order, each first for its text, then for its size, then for its mark, or where it adds a secret
/// for whether that was safe.
#[derive(Clone, Copy, Debug, PartialEq, Eq)]
pub enum DeskError {
    /// The journal isn't opened.
    Journal(OpenError),
    /// The text of this record isn't a sentence of the schema.
    Stale(u32),
    /// This record has a mark that the rule doesn't give after the records before it.
    Unlawful {
        number: u32,
        stored: Mark,
        computed: Mark,
    },
    /// The records before this one are a full history for its text, or the view is too large for
    /// its sentence; or it adds a secret, and they leave no room for it.
    Size(u32),
    /// There are records of a user who isn't admitted, by this test.
    NotAdmitted(Admission),
    /// This record adds a secret that isn't safe after the records before it.
    Unsafe(u32),
}
