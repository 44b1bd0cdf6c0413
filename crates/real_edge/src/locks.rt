//! Locks on open files, so that one process works on a journal.
use std::fs::File;
use std::io;

/// An open file that can be locked. The lock belongs to this opening of the file, in this process,
/// and ends where the file is closed, also by the end of the process.
pub trait Lockable {
    /// Takes the lock, and fails at once where another opening of the same file has it. Whoever
    /// doesn't ask for the lock reads and writes as before.
    fn lock_alone(&self) -> io::Result<()>;
}

impl Lockable for File {
    fn lock_alone(&self) -> io::Result<()> {
        Ok(self.try_lock()?)
    }
}
