//! The dossier of one disk.
ghost use Rattle.std.specs.Prelude.{◌≡◌, ◌≢◌, ◌≤◌, List, ℕ, All, map, string_bytes};
ghost use Rattle.outside.specs.Disk.{Only};
ghost use Rattle.outside.specs.Faults.{Rose};
ghost use Rattle.cqe_base.specs.History.{profile_of};
ghost use Rattle.cqe_base.specs.Limits.{KeepsLimits};
ghost use Rattle.log_journal.specs.Opening.{header_bytes, recorded, IsRecord};
ghost use Rattle.dossier_engine.specs.Shown.{IsShown, IsRefusalShown, JudgesRecords};
ghost use Rattle.dossier_engine.specs.Shown.{JudgesRefusal};
ghost use Rattle.dossier_engine.specs.Ends.{EndsDossier, IsDiskRefusal, JudgesDossier};
ghost use Rattle.dossier_engine.specs.declared.end.DossierEnd.{DossierEnd};

use crate::end::{DossierEnd, end_of};
use cqe_base::user::User;
use desk_crew::Registry;
use dossier::{write_dossier, write_unserved};
use log_journal::{OpenError, Record, open};
use outside::{Disk, Sink};
use std::alloc::Global;
use user_desk::laws::law_openings;
use user_desk::{DeskError, Replayed, replay};

/// Opens the journal of a user on this disk, writes his dossier, and hands the disk back.
pub(crate) fn show_disk<'w, D: Disk, K: Sink>(
    alloc: Global,
    registry: &Registry<'w>,
    user: &'w User,
    disk: D,
    sink: &mut K,
) -> (D, DossierEnd)
    requires { KeepsLimits registry.now.schema.now (profile_of user.now) }
    ensures ends { D.tells → K.tells → EndsDossier registry.now.schema.now registry.now.world.now
        (header_bytes registry.now.header.now) (string_bytes user.now.name) (profile_of user.now)
        (D.reads disk) (D.faults disk) (D.faults result.0) result.1 (K.written sink.old)
        (K.written sink.new) }
    ensures judged { D.tells → JudgesDossier registry.now.schema.now registry.now.world.now
        (header_bytes registry.now.header.now) (string_bytes user.now.name) (profile_of user.now)
        (D.reads disk) (D.faults disk) (D.faults result.0) result.1 }
    ensures reads { D.reads result.0 ≡ D.reads disk }
    ensures images { (c : List ℕ) → D.image result.0 c → D.image disk c }
    ensures moments { (c : List ℕ) → D.image_since result.0 (D.moment disk) c → D.image disk c }
    ensures durable { result.1 ≡ DossierEnd.Done → Only (D.reads disk) (D.image result.0) }
    ensures origin { D.origin result.0 ≡ D.origin disk }
    ensures count { D.faults disk ≤ D.faults result.0 }
    ensures silent { result.1 ≡ DossierEnd.Memory → sink.new ≡ sink.old }
    ensures later { K.faults sink.old ≤ K.faults sink.new }
    ensures cause { result.1 ≡ DossierEnd.WriteFault
        → Rose (K.faults sink.old) (K.faults sink.new) }
    ensures shelf { result.1 ≡ DossierEnd.ShelfFault → ⊥ }
    ensures journal_cause { IsDiskRefusal result.1 → Rose (D.faults disk) (D.faults result.0) }
{
    law_openings();
    match open(alloc, disk, registry.header) {
        Ok((journal, records)) => {
            let end = show_records(alloc, registry, user, &records, sink);
            (journal.close(), end)
        }
        Err(refused) => {
            let end = show_refused(alloc, user, refused.why, sink);
            (refused.disk, end)
        }
    }
}

// Writes the dossier of a user with these records.
fn show_records<'w, K: Sink>(
    alloc: Global,
    registry: &Registry<'w>,
    user: &'w User,
    records: &[Record],
    sink: &mut K,
) -> DossierEnd
    requires limits { KeepsLimits registry.now.schema.now (profile_of user.now) }
    requires each { All (IsRecord 5) records.now }
    ensures shown { K.tells → IsShown registry.now.schema.now registry.now.world.now
        (string_bytes user.now.name) (profile_of user.now) (map recorded records.now) result
        (K.written sink.old) (K.written sink.new) }
    ensures judged { JudgesRecords registry.now.schema.now registry.now.world.now
        (string_bytes user.now.name) (profile_of user.now) (map recorded records.now) result }
    ensures silent { result ≡ DossierEnd.Memory → sink.new ≡ sink.old }
    ensures later { K.faults sink.old ≤ K.faults sink.new }
    ensures cause { result ≡ DossierEnd.WriteFault → Rose (K.faults sink.old) (K.faults sink.new) }
    ensures shelf { result ≡ DossierEnd.ShelfFault → ⊥ }
{
    let Ok(replayed) = replay(alloc, registry.schema, registry.world, user, records) else {
        return DossierEnd::Memory;
    };
    match replayed {
        Replayed::Open(_items) => {
            let written = write_dossier(
                alloc,
                registry.schema,
                registry.world,
                user,
                records,
                sink,
            );
            end_of(DossierEnd::Done, written)
        }
        Replayed::Closed(_admission) => {
            let written = write_unserved(alloc, user, "closed", sink);
            end_of(DossierEnd::Done, written)
        }
        Replayed::Sealed(why) => {
            let written = write_unserved(alloc, user, "sealed", sink);
            end_of(DossierEnd::Refused(why), written)
        }
    }
}

// Writes the line of a user whose journal isn't opened. Want of memory stays what it is.
fn show_refused<K: Sink>(alloc: Global, user: &User, why: OpenError, sink: &mut K) -> DossierEnd
    ensures shown { K.tells → IsRefusalShown (string_bytes user.now.name) (profile_of user.now)
        why result (K.written sink.old) (K.written sink.new) }
    ensures judged { JudgesRefusal why result }
    ensures undone { result ≢ DossierEnd.Done }
    ensures silent { result ≡ DossierEnd.Memory → sink.new ≡ sink.old }
    ensures later { K.faults sink.old ≤ K.faults sink.new }
    ensures cause { result ≡ DossierEnd.WriteFault → Rose (K.faults sink.old) (K.faults sink.new) }
    ensures shelf { result ≡ DossierEnd.ShelfFault → ⊥ }
{
    if why == OpenError::Memory {
        return DossierEnd::Memory;
    }
    let written = write_unserved(alloc, user, "sealed", sink);
    end_of(DossierEnd::Refused(DeskError::Journal(why)), written)
}
