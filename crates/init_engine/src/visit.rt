//! What is done with the disk of one user.
ghost use Rattle.std.specs.Prelude.{◌≡◌, ◌≢◌, ◌≤◌, [], false, Some};
ghost use Rattle.std.specs.Prelude.{OnOk, IfErr};
ghost use Rattle.outside.specs.Faults.{HasCause};
ghost use Rattle.outside.specs.Shelf.{SameNames, SameOthers, NoneFell, bytes_on};
ghost use Rattle.log_journal.specs.Opening.{header_bytes};
ghost use Rattle.log_journal.specs.Names.{journal_name};
ghost use Rattle.init_engine.specs.Disks.{IsMade, IsMadeAt};
ghost use Rattle.init_engine.specs.Stops.{HasReason, OnlyReads, StaysAt, stop_of};

use crate::end::Stop;
use log_journal::{Header, OpenError, format, journal_name, open};
use outside::{Disk, Failed, Shelf, ShelfError};
use std::alloc::{AllocError, Global};

/// Makes the journal of one user, where his disk is empty, and gives the disk back whatever comes.
pub(crate) fn serve<F: Shelf>(
    alloc: Global,
    name: &str,
    header: &Header,
    directory: &str,
    shelf: &mut F,
) -> Result<(), Stop>
    requires { F.is_out shelf.old (journal_name directory.now name.now) ≡ false }
    ensures ready { F.tells
        → OnOk result (IsMadeAt F.D.Disk (header_bytes header.now)
        (F.disk shelf.old (journal_name directory.now name.now))
        (F.disk shelf.new (journal_name directory.now name.now))) }
    ensures reason { IfErr result
        (HasReason F.tells (header_bytes header.now)
        (bytes_on F.D.reads (F.disk shelf.old (journal_name directory.now name.now)))
        (F.disk_faults shelf.old (journal_name directory.now name.now))
        (F.disk_faults shelf.new (journal_name directory.now name.now)) (F.faults shelf.old)
        (F.faults shelf.new)) }
    ensures kept { F.tells
        → IfErr result (StaysAt F.D.Disk
        (F.disk shelf.old (journal_name directory.now name.now))
        (F.disk shelf.new (journal_name directory.now name.now))) }
    ensures disks { SameOthers (journal_name directory.now name.now) (F.disk shelf.old)
        (F.disk shelf.new) }
    ensures out { SameNames (F.is_out shelf.old) (F.is_out shelf.new) }
    ensures counts { NoneFell (F.disk_faults shelf.old) (F.disk_faults shelf.new) }
    ensures other_counts { SameOthers (journal_name directory.now name.now)
        (F.disk_faults shelf.old) (F.disk_faults shelf.new) }
    ensures files { SameNames (F.file shelf.old) (F.file shelf.new) }
    ensures looked { F.looked shelf.new ≡ F.looked shelf.old }
    ensures later { F.faults shelf.old ≤ F.faults shelf.new }
{
    let journal = journal_name(alloc, directory, name).map_err(|_| Stop::Memory)?;
    serve_disk(alloc, journal.as_str(), header, shelf)
}

// The same, by the name of the disk.
fn serve_disk<F: Shelf>(
    alloc: Global,
    journal: &str,
    header: &Header,
    shelf: &mut F,
) -> Result<(), Stop>
    requires { F.is_out shelf.old journal.now ≡ false }
    ensures ready { F.tells
        → OnOk result (IsMadeAt F.D.Disk (header_bytes header.now)
        (F.disk shelf.old journal.now) (F.disk shelf.new journal.now)) }
    ensures reason { IfErr result
        (HasReason F.tells (header_bytes header.now)
        (bytes_on F.D.reads (F.disk shelf.old journal.now))
        (F.disk_faults shelf.old journal.now) (F.disk_faults shelf.new journal.now)
        (F.faults shelf.old) (F.faults shelf.new)) }
    ensures kept { F.tells
        → IfErr result (StaysAt F.D.Disk (F.disk shelf.old journal.now)
        (F.disk shelf.new journal.now)) }
    ensures disks { SameOthers journal.now (F.disk shelf.old) (F.disk shelf.new) }
    ensures out { SameNames (F.is_out shelf.old) (F.is_out shelf.new) }
    ensures counts { NoneFell (F.disk_faults shelf.old) (F.disk_faults shelf.new) }
    ensures other_counts { SameOthers journal.now (F.disk_faults shelf.old)
        (F.disk_faults shelf.new) }
    ensures files { SameNames (F.file shelf.old) (F.file shelf.new) }
    ensures looked { F.looked shelf.new ≡ F.looked shelf.old }
    ensures later { F.faults shelf.old ≤ F.faults shelf.new }
{
    match shelf.take_disk(alloc, journal) {
        Ok(disk) => {
            let (disk, made) = make(alloc, disk, header);
            shelf.give_disk(journal, disk);
            made
        }
        Err(ShelfError::Failed) => Err(Stop::ShelfFault),
        Err(_) => Err(Stop::Memory),
    }
}

// Makes a journal on a disk that is empty, and opens another.
fn make<D: Disk>(alloc: Global, disk: D, header: &Header) -> (D, Result<(), Stop>)
    ensures made { D.tells
        → OnOk result.1 (IsMadeAt D.Disk (header_bytes header.now) (Some disk) (Some result.0)) }
    ensures reason { IfErr result.1
        (HasReason D.tells (header_bytes header.now) (D.reads disk) (D.faults disk)
        (D.faults result.0) 0 0) }
    ensures kept { D.tells → IfErr result.1 (StaysAt D.Disk (Some disk) (Some result.0)) }
    ensures origin { D.origin result.0 ≡ D.origin disk }
    ensures count { D.faults disk ≤ D.faults result.0 }
{
    let mut disk = disk;
    match disk.length() {
        Ok(0) => {
            let made = format_empty(&mut disk, header);
            (disk, made.map_err(|_| Stop::DiskFault))
        }
        Ok(_) => reopen(alloc, disk, header),
        Err(Failed) => (disk, Err(Stop::DiskFault)),
    }
}

// Makes a journal on an empty disk, and syncs before so that no crash brings back what may be
// pending.
fn format_empty<D: Disk>(disk: &mut D, header: &Header) -> Result<(), Failed>
    requires { D.tells → D.reads disk.old ≡ [] }
    ensures made { D.tells
        → OnOk result (IsMade D.Disk (header_bytes header.now) [] disk.new) }
    ensures origin { D.origin disk.new ≡ D.origin disk.old }
    ensures cause { HasCause (D.faults disk.old) (D.faults disk.new) result }
{
    disk.sync()?;
    format(disk, header)
}

// Opens a disk that isn't empty, and leaves it.
fn reopen<D: Disk>(alloc: Global, disk: D, header: &Header) -> (D, Result<(), Stop>)
    requires { D.tells → D.reads disk ≢ [] }
    ensures made { D.tells
        → OnOk result.1 (IsMade D.Disk (header_bytes header.now) (D.reads disk) result.0) }
    ensures reason { IfErr result.1
        (HasReason D.tells (header_bytes header.now) (D.reads disk) (D.faults disk)
        (D.faults result.0) 0 0) }
    ensures only { OnlyReads D.Disk disk result.0 }
    ensures origin { D.origin result.0 ≡ D.origin disk }
{
    match open(alloc, disk, header) {
        Ok((journal, _records)) => (journal.close(), Ok(())),
        Err(refused) => (refused.disk, Err(stop_of(refused.why))),
    }
}

// Why a user is stopped at whose journal isn't opened.
fn stop_of(why: OpenError) -> Stop
    ensures { result ≡ stop_of why }
{
    match why {
        OpenError::Memory => Stop::Memory,
        why => Stop::Refused(why),
    }
}
