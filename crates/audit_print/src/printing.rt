//! The audit of a desk.
ghost use Rattle.std.specs.Prelude.{◌≡◌, ◌≤◌, ◌++◌, map, string_bytes, Err, IfOk, OnOk};
ghost use Rattle.outside.specs.Faults.{Rose};
ghost use Rattle.outside.specs.Streams.{AppendsPart};
ghost use Rattle.cqe_base.specs.History.{profile_of};
ghost use Rattle.user_desk.specs.Desks.{desk_schema, desk_user, desk_standing, desk_history};
ghost use Rattle.audit_text.specs.Said.{AuditSaid};
ghost use Rattle.audit_text.specs.Json.{lines_of, audit_text};
ghost use Rattle.audit_print.specs.Audits.{Audits};
ghost use Rattle.audit_text.specs.Rows.{said_in};

use crate::report::report_on;
use audit_text::lines_of;
use cqe_base::schema::Schema;
use cqe_base::user::User;
use outside::{Disk, Failed, Sink, write_parts};
use std::alloc::{AllocError, Global};
use user_desk::Desk;

/// Why an audit wasn't written whole.
#[derive(Clone, Copy, Debug, PartialEq, Eq)]
pub enum AuditError {
    /// The sink failed, and a beginning of the audit was written.
    WriteFault,
    /// Memory was wanting, and nothing was written.
    Memory,
}

/// Prints the audit of a desk's user, as text or in JSON. Each search for a world has the budget of
/// an admission. After a write fault a beginning of it was written, and for want of memory nothing.
pub fn audit<D: Disk, K: Sink>(
    alloc: Global,
    schema: &Schema,
    user: &User,
    desk: &Desk<'_, D>,
    json: bool,
    sink: &mut K,
) -> Result<(), AuditError>
    requires schema { schema.now ≡ desk_schema desk.now }
    requires user { profile_of user.now ≡ desk_user desk.now }
    ensures whole { K.tells → OnOk result ((said : AuditSaid)
        × Audits schema.now (string_bytes user.now.name) (profile_of user.now)
        (desk_standing desk.now)
        (desk_history desk.now) said
        × (K.written sink.new ≡ K.written sink.old ++ audit_text json said)) }
    ensures part { K.tells → result ≡ Err AuditError.WriteFault
        → (said : AuditSaid) × Audits schema.now (string_bytes user.now.name) (profile_of user.now)
        (desk_standing desk.now) (desk_history desk.now) said
        × AppendsPart (K.written sink.old) (K.written sink.new) (audit_text json said) }
    ensures nothing { result ≡ Err AuditError.Memory → sink.new ≡ sink.old }
    ensures later { K.faults sink.old ≤ K.faults sink.new }
    ensures cause { result ≡ Err AuditError.WriteFault
        → Rose (K.faults sink.old) (K.faults sink.new) }
{
    let Ok(lines) = audit_lines(alloc, schema, user, desk, json) else {
        return Err(AuditError::Memory);
    };
    match write_parts(sink, &lines) {
        Ok(()) => Ok(()),
        Err(Failed) => Err(AuditError::WriteFault),
    }
}

fn audit_lines<D: Disk>(
    alloc: Global,
    schema: &Schema,
    user: &User,
    desk: &Desk<'_, D>,
    json: bool,
) -> Result<Vec<String>, AllocError>
    requires schema { schema.now ≡ desk_schema desk.now }
    requires user { profile_of user.now ≡ desk_user desk.now }
    ensures { IfOk result (λ lines. (said : AuditSaid)
        × Audits schema.now (string_bytes user.now.name) (profile_of user.now)
        (desk_standing desk.now)
        (desk_history desk.now) said
        × (map string_bytes lines.items ≡ lines_of json said)) }
{
    let report = report_on(alloc, schema, user, desk)?;
    lines_of(alloc, &report, json)
}
