//! How an audit ends.
ghost use Rattle.std.specs.Prelude.{◌≡◌};
ghost use Rattle.audit_engine.specs.Printed.{end_of};

use user_desk::{DeskError, Standing};

/// How `run_audit` ends.
#[derive(Clone, Copy, Debug, PartialEq, Eq)]
pub enum AuditEnd {
    /// The audit was written, of a user whose journal was opened.
    Done,
    /// The audit was written, of a user whose journal was refused for this reason.
    Refused(DeskError),
    /// A write failed, and a beginning of the audit was written.
    WriteFault,
    /// The shelf failed. Nothing was written.
    ShelfFault,
    /// Memory was wanting. Nothing was written.
    Memory,
}

/// The end of an audit that was written of a user with this standing.
pub(crate) fn end_of(standing: &Standing) -> AuditEnd
    ensures { result ≡ end_of standing.now }
{
    match standing {
        Standing::Open => AuditEnd::Done,
        Standing::Closed(_) => AuditEnd::Done,
        Standing::Sealed(why) => AuditEnd::Refused(*why),
    }
}
