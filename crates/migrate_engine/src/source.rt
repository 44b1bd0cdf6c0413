//! The old journal of a user: its disk is only read.
ghost use Rattle.std.specs.Prelude.{◌≡◌, ◌≤◌, false, map, All, IfOk, IfErr};
ghost use Rattle.outside.specs.Shelf.{SameNames, SameOthers, NoneFell, bytes_on};
ghost use Rattle.log_journal.specs.Opening.{header_bytes, recorded, IsRecord, IsOldJournal};
ghost use Rattle.init_engine.specs.Stops.{OnlyReads, Stays};
ghost use Rattle.migrate_engine.specs.Stops.{IsUnread, stop_of};

use crate::end::Stop;
use log_journal::{Header, OpenError, Record, open_old};
use outside::{Disk, Shelf, ShelfError};
use std::alloc::Global;

/// The records of the journal of version 1 on the disk of this name, which is given back.
pub(crate) fn read_source<F: Shelf>(
    alloc: Global,
    source: &str,
    header: &Header,
    shelf: &mut F,
) -> Result<Vec<Record>, Stop>
    requires { F.is_out shelf.old source.now ≡ false }
    ensures opened { F.tells → IfOk result (λ records. IsOldJournal (header_bytes header.now)
        (map recorded records.items) (bytes_on F.D.reads (F.disk shelf.old source.now))) }
    ensures each { IfOk result (λ records. All (IsRecord 4) records.items) }
    ensures reason { IfErr result (IsUnread F.tells (header_bytes header.now)
        (bytes_on F.D.reads (F.disk shelf.old source.now))
        (F.disk_faults shelf.old source.now) (F.disk_faults shelf.new source.now)
        (F.faults shelf.old) (F.faults shelf.new)) }
    ensures stays { F.tells → Stays F.D.Disk (F.disk shelf.old source.now)
        (F.disk shelf.new source.now) }
    ensures disks { SameOthers source.now (F.disk shelf.old) (F.disk shelf.new) }
    ensures out { SameNames (F.is_out shelf.old) (F.is_out shelf.new) }
    ensures counts { NoneFell (F.disk_faults shelf.old) (F.disk_faults shelf.new) }
    ensures other_counts { SameOthers source.now (F.disk_faults shelf.old)
        (F.disk_faults shelf.new) }
    ensures files { SameNames (F.file shelf.old) (F.file shelf.new) }
    ensures looked { F.looked shelf.new ≡ F.looked shelf.old }
    ensures later { F.faults shelf.old ≤ F.faults shelf.new }
{
    match shelf.take_disk(alloc, source) {
        Ok(disk) => {
            let (disk, records) = read_old(alloc, disk, header);
            shelf.give_disk(source, disk);
            records
        }
        Err(ShelfError::Failed) => Err(Stop::ShelfFault),
        Err(_) => Err(Stop::Memory),
    }
}

// The records of the journal of version 1 on a disk.
fn read_old<D: Disk>(alloc: Global, disk: D, header: &Header) -> (D, Result<Vec<Record>, Stop>)
    ensures opened { D.tells → IfOk result.1 (λ records. IsOldJournal (header_bytes header.now)
        (map recorded records.items) (D.reads disk)) }
    ensures each { IfOk result.1 (λ records. All (IsRecord 4) records.items) }
    ensures reason { IfErr result.1 (IsUnread D.tells (header_bytes header.now) (D.reads disk)
        (D.faults disk) (D.faults result.0) 0 0) }
    ensures only { OnlyReads D.Disk disk result.0 }
    ensures origin { D.origin result.0 ≡ D.origin disk }
{
    match open_old(alloc, disk, header) {
        Ok((journal, records)) => (journal.close(), Ok(records)),
        Err(refused) => (refused.disk, Err(stop_of(refused.why))),
    }
}

// Why a user is stopped at whose old journal isn't opened.
fn stop_of(why: OpenError) -> Stop
    ensures { result ≡ stop_of why }
{
    match why {
        OpenError::Memory => Stop::Memory,
        why => Stop::Refused(why),
    }
}
