//! How the writing of a dossier and its check end.
ghost use Rattle.std.specs.Prelude.{◌≡◌};
ghost use Rattle.dossier_engine.specs.Checks.{refused_end};
ghost use Rattle.dossier_engine.specs.Shown.{end_of};

use audit_print::AuditError;
use dossier::DossierError;
use user_desk::DeskError;

/// How `run_dossier` ends.
#[derive(Clone, Copy, Debug, PartialEq, Eq)]
pub enum DossierEnd {
    /// The dossier was written, of a user whose journal was opened.
    Done,
    /// The line was written of a user whose journal was refused for this reason.
    Refused(DeskError),
    /// A write failed, and a beginning of the dossier was written.
    WriteFault,
    /// The shelf failed. Nothing was written.
    ShelfFault,
    /// Memory was wanting. Nothing was written.
    Memory,
}

/// How `run_check` ends.
#[derive(Clone, Copy, Debug, PartialEq, Eq)]
pub enum CheckEnd {
    /// The dossier is accepted, and that was written.
    Done,
    /// It is refused for this reason. Nothing was written.
    Refused(CheckRefusal),
    /// A read failed. Nothing was written.
    ReadFault,
    /// A write failed, and a beginning was written.
    WriteFault,
    /// Memory was wanting. Nothing was written.
    Memory,
}

/// Why bytes are refused as a dossier.
#[derive(Clone, Copy, Debug, PartialEq, Eq)]
pub enum CheckRefusal {
    /// They are more than 67,108,864.
    TooLong,
    /// They aren't UTF-8.
    NotUtf8,
    /// A line is refused.
    Line(DossierError),
}

/// The end of a writing that ends so where all of it was written.
pub(crate) fn end_of(good: DossierEnd, written: Result<(), AuditError>) -> DossierEnd
    ensures { result ≡ end_of good written }
{
    match written {
        Ok(()) => good,
        Err(AuditError::WriteFault) => DossierEnd::WriteFault,
        Err(AuditError::Memory) => DossierEnd::Memory,
    }
}

/// The end of a check that refused a line.
pub(crate) fn refused_end(why: DossierError) -> CheckEnd
    ensures { result ≡ refused_end why }
{
    match why {
        DossierError::Memory => CheckEnd::Memory,
        _ => CheckEnd::Refused(CheckRefusal::Line(why)),
    }
}
