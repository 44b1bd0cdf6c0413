//! The new journal of a user: a disk that is empty is filled with records. The first eight bytes of
//! its header are written last, so that it opens as no journal before all records are on the disk.
ghost use Rattle.std.specs.Prelude.{◌≡◌, ◌⊎◌, ◌≤◌, ◌∷◌, ◌++◌, List, ℕ, [], false, map};
ghost use Rattle.std.specs.Prelude.{length, drop, All, OnOk, OnErr, IfOk, IfErr};
ghost use Rattle.outside.specs.Disk.{Holds, Torn, Only, Elapses};
ghost use Rattle.outside.specs.Faults.{HasCause};
ghost use Rattle.outside.specs.Shelf.{SameNames, SameOthers, NoneFell, bytes_on};
ghost use Rattle.log_journal.specs.Opening.{header_bytes, recorded, IsRecord};
ghost use Rattle.log_journal.specs.Records.{written};
ghost use Rattle.init_engine.specs.Stops.{OnlyReads};
ghost use Rattle.migrate_engine.specs.Moves.{shut_eight, IsShut, StaysShut, FailsFirst, IsMaking};
ghost use Rattle.migrate_engine.specs.Moves.{IsFilled, IsFilledAt};
ghost use Rattle.migrate_engine.specs.Stops.{IsUnfilled, LeavesUnfilled, LeavesDisk};

use crate::end::Stop;
use log_journal::{Header, Record};
use outside::{Disk, Failed, Shelf, ShelfError};
use std::alloc::Global;

/// Makes a journal of these records on the disk of this name, where that is empty, and gives the
/// disk back.
pub(crate) fn fill_target<F: Shelf>(
    alloc: Global,
    target: &str,
    header: &Header,
    records: &[Record],
    shelf: &mut F,
) -> Result<(), Stop>
    requires out { F.is_out shelf.old target.now ≡ false }
    requires each { All (IsRecord 4) records.now }
    ensures filled { F.tells → OnOk result (IsFilledAt F.D.Disk (header_bytes header.now)
        (map recorded records.now) (F.disk shelf.old target.now) (F.disk shelf.new target.now)) }
    ensures reason { IfErr result (IsUnfilled F.tells
        (bytes_on F.D.reads (F.disk shelf.old target.now))
        (F.disk_faults shelf.old target.now) (F.disk_faults shelf.new target.now)
        (F.faults shelf.old) (F.faults shelf.new)) }
    ensures left { F.tells → IfErr result (LeavesUnfilled F.D.Disk (header_bytes header.now)
        (map recorded records.now) (F.disk shelf.old target.now) (F.disk shelf.new target.now)) }
    ensures disks { SameOthers target.now (F.disk shelf.old) (F.disk shelf.new) }
    ensures out { SameNames (F.is_out shelf.old) (F.is_out shelf.new) }
    ensures counts { NoneFell (F.disk_faults shelf.old) (F.disk_faults shelf.new) }
    ensures other_counts { SameOthers target.now (F.disk_faults shelf.old)
        (F.disk_faults shelf.new) }
    ensures files { SameNames (F.file shelf.old) (F.file shelf.new) }
    ensures looked { F.looked shelf.new ≡ F.looked shelf.old }
    ensures later { F.faults shelf.old ≤ F.faults shelf.new }
{
    match shelf.take_disk(alloc, target) {
        Ok(disk) => {
            let (disk, filled) = fill(disk, header, records);
            shelf.give_disk(target, disk);
            filled
        }
        Err(ShelfError::Failed) => Err(Stop::ShelfFault),
        Err(_) => Err(Stop::Memory),
    }
}

// Makes a journal of these records on a disk that is empty, and leaves another.
fn fill<D: Disk>(disk: D, header: &Header, records: &[Record]) -> (D, Result<(), Stop>)
    requires each { All (IsRecord 4) records.now }
    ensures filled { D.tells → OnOk result.1 (IsFilled D.Disk (header_bytes header.now)
        (map recorded records.now) (D.reads disk) result.0) }
    ensures reason { IfErr result.1 (IsUnfilled D.tells (D.reads disk) (D.faults disk)
        (D.faults result.0) 0 0) }
    ensures left { D.tells → IfErr result.1 (LeavesDisk D.Disk (header_bytes header.now)
        (map recorded records.now) disk result.0) }
    ensures origin { D.origin result.0 ≡ D.origin disk }
    ensures count { D.faults disk ≤ D.faults result.0 }
{
    let mut disk = disk;
    match look(&mut disk) {
        Ok(0) => match make(&mut disk, header, records) {
            Ok(()) => (disk, Ok(())),
            Err(Failed) => (disk, Err(Stop::DiskFault)),
        },
        Ok(_) => (disk, Err(Stop::NotEmpty)),
        Err(Failed) => (disk, Err(Stop::DiskFault)),
    }
}

// How many bytes a disk has. It syncs before, so that no crash brings back what may be pending.
fn look<D: Disk>(disk: &mut D) -> Result<u64, Failed>
    ensures length { D.tells → IfOk result (λ n. n ≡ length (D.reads disk.old)) }
    ensures durable { OnOk result (Only (D.reads disk.new) (D.image disk.new)) }
    ensures only { OnlyReads D.Disk disk.old disk.new }
    ensures origin { D.origin disk.new ≡ D.origin disk.old }
    ensures cause { HasCause (D.faults disk.old) (D.faults disk.new) result }
{
    disk.sync()?;
    disk.length()
}

// Makes a journal of these records on an empty disk.
fn make<D: Disk>(disk: &mut D, header: &Header, records: &[Record]) -> Result<(), Failed>
    requires empty { D.tells → D.reads disk.old ≡ [] }
    requires durable { Only (D.reads disk.old) (D.image disk.old) }
    requires each { All (IsRecord 4) records.now }
    ensures filled { D.tells → OnOk result (IsFilled D.Disk (header_bytes header.now)
        (map recorded records.now) [] disk.new) }
    ensures left { D.tells → OnErr result (FailsFirst D.Disk disk.new
        ⊎ IsMaking D.Disk (header_bytes header.now) (map recorded records.now) disk.new) }
    ensures origin { D.origin disk.new ≡ D.origin disk.old }
    ensures cause { HasCause (D.faults disk.old) (D.faults disk.new) result }
{
    write_shut(disk)?;
    write_rest(disk, header, records)?;
    write_synced(disk, 0, b"CQEJRNL2")
}

// Writes eight shut bytes to an empty disk.
fn write_shut<D: Disk>(disk: &mut D) -> Result<(), Failed>
    requires empty { D.tells → D.reads disk.old ≡ [] }
    requires durable { Only (D.reads disk.old) (D.image disk.old) }
    ensures bytes { D.tells → OnOk result (D.reads disk.new ≡ shut_eight) }
    ensures durable { OnOk result (Only (D.reads disk.new) (D.image disk.new)) }
    ensures left { D.tells → OnErr result (FailsFirst D.Disk disk.new) }
    ensures origin { D.origin disk.new ≡ D.origin disk.old }
    ensures cause { HasCause (D.faults disk.old) (D.faults disk.new) result }
{
    disk.write_at(0, &[0, 0, 0, 0, 0, 0, 0, 0])?;
    disk.sync()
}

// Writes all that stands behind the first eight bytes of a journal, and syncs.
fn write_rest<D: Disk>(disk: &mut D, header: &Header, records: &[Record]) -> Result<(), Failed>
    requires bytes { D.tells → D.reads disk.old ≡ shut_eight }
    requires each { All (IsRecord 4) records.now }
    requires shut { D.tells → (c : List ℕ) → D.image disk.old c → IsShut c }
    ensures rest { D.tells → OnOk result (D.reads disk.new ≡ shut_eight
        ++ (drop 8 (header_bytes header.now) ++ written (map recorded records.now) ++ 0 ∷ [])) }
    ensures durable { OnOk result (Only (D.reads disk.new) (D.image disk.new)) }
    ensures size { OnOk result (length (header_bytes header.now) ≡ 72) }
    ensures shut { D.tells → StaysShut D.Disk disk.old disk.new }
    ensures origin { D.origin disk.new ≡ D.origin disk.old }
    ensures cause { HasCause (D.faults disk.old) (D.faults disk.new) result }
{
    let facts = write_more(disk, 8, &header.policy)?;
    let first = write_more(disk, facts, &header.facts)?;
    let gate = write_records(disk, first, records)?;
    let _end = write_more(disk, gate, &[0])?;
    disk.sync()
}

// Writes records, each behind its open gate, and gives the place behind them.
fn write_records<D: Disk>(disk: &mut D, end: u64, records: &[Record]) -> Result<u64, Failed>
    requires end { D.tells → end ≡ length (D.reads disk.old) }
    requires behind { 8 ≤ end }
    requires each { All (IsRecord 4) records.now }
    requires shut { D.tells → (c : List ℕ) → D.image disk.old c → IsShut c }
    ensures more { D.tells → OnOk result (D.reads disk.new
        ≡ D.reads disk.old ++ written (map recorded records.now)) }
    ensures end { D.tells → IfOk result (λ n. n ≡ length (D.reads disk.new)) }
    ensures behind { IfOk result (λ n. 8 ≤ n) }
    ensures shut { D.tells → StaysShut D.Disk disk.old disk.new }
    ensures origin { D.origin disk.new ≡ D.origin disk.old }
    ensures cause { HasCause (D.faults disk.old) (D.faults disk.new) result }
{
    let mut end = end;
    for next in records {
        end = write_record(disk, end, next)?;
    }
    Ok(end)
}

// Writes a record behind its open gate, and gives the place behind it.
fn write_record<D: Disk>(disk: &mut D, end: u64, next: &Record) -> Result<u64, Failed>
    requires one { IsRecord 4 next.now }
    requires end { D.tells → end ≡ length (D.reads disk.old) }
    requires behind { 8 ≤ end }
    requires shut { D.tells → (c : List ℕ) → D.image disk.old c → IsShut c }
    ensures more { D.tells → OnOk result (D.reads disk.new
        ≡ D.reads disk.old ++ written (recorded next.now ∷ [])) }
    ensures end { D.tells → IfOk result (λ n. n ≡ length (D.reads disk.new)) }
    ensures behind { IfOk result (λ n. 8 ≤ n) }
    ensures shut { D.tells → StaysShut D.Disk disk.old disk.new }
    ensures origin { D.origin disk.new ≡ D.origin disk.old }
    ensures cause { HasCause (D.faults disk.old) (D.faults disk.new) result }
{
    let size = next.text.len();
    let head = [1, next.kind, (size / 256) as u8, (size % 256) as u8];
    let text = write_more(disk, end, &head)?;
    let behind = write_more(disk, text, &next.text)?;
    Ok(behind)
}

// Writes a piece at the end of a disk, and gives the place behind it.
fn write_more<D: Disk>(disk: &mut D, end: u64, piece: &[u8]) -> Result<u64, Failed>
    requires end { D.tells → end ≡ length (D.reads disk.old) }
    requires behind { 8 ≤ end }
    requires shut { D.tells → (c : List ℕ) → D.image disk.old c → IsShut c }
    ensures more { D.tells → OnOk result (D.reads disk.new ≡ D.reads disk.old ++ piece.now) }
    ensures end { D.tells → IfOk result (λ n. n ≡ length (D.reads disk.new)) }
    ensures behind { IfOk result (λ n. 8 ≤ n) }
    ensures shut { D.tells → StaysShut D.Disk disk.old disk.new }
    ensures origin { D.origin disk.new ≡ D.origin disk.old }
    ensures cause { HasCause (D.faults disk.old) (D.faults disk.new) result }
{
    disk.write_at(end, piece)?;
    Ok(end.saturating_add(piece.len() as u64))
}

// Writes a piece and syncs.
fn write_synced<D: Disk>(disk: &mut D, at: u64, piece: &[u8]) -> Result<(), Failed>
    requires within { D.tells → at ≤ length (D.reads disk.old) }
    requires durable { Only (D.reads disk.old) (D.image disk.old) }
    ensures written { D.tells
        → OnOk result (Holds (D.reads disk.old) at piece.now (D.reads disk.new)) }
    ensures durable { OnOk result (Only (D.reads disk.new) (D.image disk.new)) }
    ensures images { (c : List ℕ) → D.image disk.new c
        → Torn at (length piece.now) (D.reads disk.old) c }
    ensures time { Elapses (D.moment disk.old) (D.moment disk.new) (D.image_since disk.old)
        (D.image_since disk.new) }
    ensures moments { (c : List ℕ) → D.image_since disk.new (D.moment disk.old) c
        → Torn at (length piece.now) (D.reads disk.old) c }
    ensures origin { D.origin disk.new ≡ D.origin disk.old }
    ensures cause { HasCause (D.faults disk.old) (D.faults disk.new) result }
{
    disk.write_at(at, piece)?;
    disk.sync()
}
