//! The audit of one disk.
ghost use Rattle.std.specs.Prelude.{◌≡◌, ◌≤◌, List, ℕ, false, string_bytes};
ghost use Rattle.outside.specs.Disk.{Only};
ghost use Rattle.outside.specs.Faults.{Rose};
ghost use Rattle.cqe_base.specs.History.{profile_of};
ghost use Rattle.cqe_base.specs.Limits.{KeepsLimits};
ghost use Rattle.log_journal.specs.Opening.{header_bytes};
ghost use Rattle.user_desk.specs.Desks.{desk_schema, desk_user, desk_standing, desk_history};
ghost use Rattle.user_desk.specs.Standings.{is_sealed};
ghost use Rattle.audit_engine.specs.Printed.{IsPrinted, EndsBy};
ghost use Rattle.audit_engine.specs.Ends.{EndsAudit, IsDiskRefusal, JudgesJournal};
ghost use Rattle.audit_engine.specs.declared.end.AuditEnd.{AuditEnd};

use crate::end::{AuditEnd, end_of};
use audit_print::{AuditError, audit};
use censors::admit;
use cqe_base::schema::Schema;
use cqe_base::user::User;
use desk_crew::Registry;
use outside::{Disk, Sink};
use std::alloc::Global;
use user_desk::laws::law_openings;
use user_desk::{Desk, open_desk};

/// Opens the journal of a user on this disk, prints its audit, and hands the disk back.
pub(crate) fn audit_disk<'w, D: Disk, K: Sink>(
    alloc: Global,
    registry: &Registry<'w>,
    user: &'w User,
    json: bool,
    disk: D,
    sink: &mut K,
) -> (D, AuditEnd)
    requires { KeepsLimits registry.now.schema.now (profile_of user.now) }
    ensures ends { D.tells → K.tells → EndsAudit registry.now.schema.now registry.now.world.now
        (header_bytes registry.now.header.now) (string_bytes user.now.name) (profile_of user.now)
        (D.reads disk) (D.faults disk) (D.faults result.0) json result.1 (K.written sink.old)
        (K.written sink.new) }
    ensures judged { D.tells → JudgesJournal registry.now.schema.now registry.now.world.now
        (header_bytes registry.now.header.now) (string_bytes user.now.name) (profile_of user.now)
        (D.reads disk) (D.faults disk) (D.faults result.0) result.1 }
    ensures reads { D.reads result.0 ≡ D.reads disk }
    ensures images { (c : List ℕ) → D.image result.0 c → D.image disk c }
    ensures moments { (c : List ℕ) → D.image_since result.0 (D.moment disk) c → D.image disk c }
    ensures durable { result.1 ≡ AuditEnd.Done → Only (D.reads disk) (D.image result.0) }
    ensures origin { D.origin result.0 ≡ D.origin disk }
    ensures count { D.faults disk ≤ D.faults result.0 }
    ensures silent { result.1 ≡ AuditEnd.Memory → sink.new ≡ sink.old }
    ensures later { K.faults sink.old ≤ K.faults sink.new }
    ensures cause { result.1 ≡ AuditEnd.WriteFault → Rose (K.faults sink.old) (K.faults sink.new) }
    ensures shelf { result.1 ≡ AuditEnd.ShelfFault → ⊥ }
    ensures journal_cause { IsDiskRefusal result.1 → Rose (D.faults disk) (D.faults result.0) }
{
    law_openings();
    let Ok(admission) = admit(alloc, registry.schema, registry.world, user) else {
        return (disk, AuditEnd::Memory);
    };
    match open_desk(
        alloc,
        registry.schema,
        registry.world,
        user,
        admission,
        registry.header,
        disk,
    ) {
        Ok(desk) => {
            let end = print_desk(alloc, registry.schema, user, &desk, json, sink);
            (desk.close(), end)
        }
        Err(refused) => (refused.disk, AuditEnd::Memory),
    }
}

// Prints the audit of an open desk.
fn print_desk<D: Disk, K: Sink>(
    alloc: Global,
    schema: &Schema,
    user: &User,
    desk: &Desk<'_, D>,
    json: bool,
    sink: &mut K,
) -> AuditEnd
    requires schema { schema.now ≡ desk_schema desk.now }
    requires user { profile_of user.now ≡ desk_user desk.now }
    ensures printed { K.tells
        → IsPrinted schema.now (string_bytes user.now.name) (profile_of user.now)
        (desk_standing desk.now) (desk_history desk.now) json result (K.written sink.old)
        (K.written sink.new) }
    ensures ends_by { EndsBy (desk_standing desk.now) result }
    ensures served { result ≡ AuditEnd.Done → is_sealed (desk_standing desk.now) ≡ false }
    ensures silent { result ≡ AuditEnd.Memory → sink.new ≡ sink.old }
    ensures later { K.faults sink.old ≤ K.faults sink.new }
    ensures cause { result ≡ AuditEnd.WriteFault → Rose (K.faults sink.old) (K.faults sink.new) }
    ensures shelf { result ≡ AuditEnd.ShelfFault → ⊥ }
{
    match audit(alloc, schema, user, desk, json, sink) {
        Ok(()) => end_of(desk.standing()),
        Err(AuditError::WriteFault) => AuditEnd::WriteFault,
        Err(AuditError::Memory) => AuditEnd::Memory,
    }
}
