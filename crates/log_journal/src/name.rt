//! The names of the disks on which journals lie.
ghost use Rattle.std.specs.Prelude.{◌≡◌, IfOk, string_bytes};
ghost use Rattle.log_journal.specs.Names.{journal_name, JournalsDiffer};

use std::alloc::{AllocError, Global};

/// The name of the disk with the journal of a user: `DIRECTORY/NAME.log`.
pub fn journal_name(alloc: Global, directory: &str, name: &str) -> Result<String, AllocError>
    ensures { IfOk result (λ text. string_bytes text ≡ journal_name directory.now name.now) }
{
    format!(in alloc; "{directory}/{name}.log")
}

/// No two users of one directory have the same journal.
pub fn law_journals_differ()
    ensures { JournalsDiffer }
{}
