//! How a journal is made and opened.
ghost use Rattle.std.specs.Prelude.{◌≡◌, ◌≢◌, ◌⊎◌, ◌≤◌, ◌<◌, ◌+◌, ◌++◌, ◌∷◌, [], ◌^◌, false, List};
ghost use Rattle.std.specs.Prelude.{ℕ, length, take, drop, Some, None, IfSome, IfNone, IfOk, IfErr};
ghost use Rattle.std.specs.Prelude.{OnOk, IsErrOf, IsTrue, ◌↔◌, map, All, slice_index_or};
ghost use Rattle.outside.specs.Disk.{Only, Elapses, HearsNoMore};
ghost use Rattle.outside.specs.Faults.{HasCause, Rose};
ghost use Rattle.log_journal.specs.Records.{Recorded, IsJournal};
ghost use Rattle.log_journal.specs.Walk.{damaged, records, AreThere};
ghost use Rattle.log_journal.specs.Bytes.{EndsAt};
ghost use Rattle.log_journal.specs.Opening.{headed, header_bytes, IsJournalOf, IsOldJournal};
ghost use Rattle.log_journal.specs.Opening.{recorded, IsRecord, Refuses, RefusesOld, IsRefused};
ghost use Rattle.log_journal.specs.Opening.{IsRefusedOf, IsRefusedOld, IsOfHeader, IsOutside};
ghost use Rattle.log_journal.specs.Opening.{StartsWithRecord, HasRecord, IsStopped, IsCutShort};
ghost use Rattle.log_journal.specs.Opening.{IsOnlyRead, IsRead};
ghost use Rattle.log_journal.specs.Journal.{is_broken, count_of, disk_of, disk_after};
ghost use Rattle.log_journal.specs.declared.header.OpenError.{OpenError};

use crate::put::write_synced;
use crate::tell::tell_all;
use crate::{Header, Journal, OpenError, Record, Refused};
use outside::{Disk, Failed};
use std::alloc::{AllocError, Global};

// A gate, the longest record and its next gate.
const WINDOW: usize = 4101;

// The header of a journal that begins with these bytes.
fn header_array(first: &[u8; 8], header: &Header) -> [u8; 72]
    ensures { result ≡ headed first.now header.now }
{
    let mut bytes = [0; 72];
    let (start, rest) = bytes.split_at_mut(8);
    start.copy_from_slice(first);
    let (policy, facts) = rest.split_at_mut(32);
    policy.copy_from_slice(&header.policy);
    facts.copy_from_slice(&header.facts);
    bytes
}

fn empty_journal(header: &Header) -> [u8; 73]
    ensures bytes { result ≡ header_bytes header.now ++ 0 ∷ [] }
    ensures journal { IsJournal (header_bytes header.now) [] result }
{
    let mut bytes = [0; 73];
    let (start, gate) = bytes.split_at_mut(72);
    start.copy_from_slice(&header_array(b"CQEJRNL2", header));
    gate.copy_from_slice(&[0]);
    bytes
}

/// Writes an empty journal on an empty disk. Where it fails, nothing is said of what the disk
/// holds.
pub fn format<D: Disk>(disk: &mut D, header: &Header) -> Result<(), Failed>
    requires empty { D.tells → D.reads disk.old ≡ [] }
    requires synced { Only (D.reads disk.old) (D.image disk.old) }
    ensures written { D.tells → OnOk result (D.reads disk.new ≡ header_bytes header.now ++ 0 ∷ []) }
    ensures journal { D.tells
        → OnOk result (IsJournal (header_bytes header.now) [] (D.reads disk.new)) }
    ensures durable { OnOk result (Only (D.reads disk.new) (D.image disk.new)) }
    ensures time { Elapses (D.moment disk.old) (D.moment disk.new) (D.image_since disk.old)
        (D.image_since disk.new) }
    ensures origin { D.origin disk.new ≡ D.origin disk.old }
    ensures cause { HasCause (D.faults disk.old) (D.faults disk.new) result }
{
    write_synced(disk, 0, &empty_journal(header))
}

/// Formats an empty disk, and gives its journal, to which records can be appended. A refusal hands
/// the disk back.
pub fn create<D: Disk>(
    alloc: Global,
    disk: D,
    header: &Header,
) -> Result<Journal<D>, Refused<D, Failed>>
    requires empty { D.tells → D.reads disk ≡ [] }
    requires synced { Only (D.reads disk) (D.image disk) }
    ensures written { D.tells
        → IfOk result (λ r. D.reads (disk_of r) ≡ header_bytes header.now ++ 0 ∷ []) }
    ensures journal { D.tells
        → IfOk result (λ r. IsJournal (header_bytes header.now) [] (D.reads (disk_of r))) }
    ensures durable { IfOk result (λ r. Only (D.reads (disk_of r)) (D.image (disk_of r))) }
    ensures whole { IfOk result (λ r. is_broken r ≡ false) }
    ensures number { IfOk result (λ r. count_of r ≡ 0) }
    ensures origin { IfOk result (λ r. D.origin (disk_of r) ≡ D.origin disk) }
    ensures same_origin { IfErr result (λ r. D.origin r.disk ≡ D.origin disk) }
    ensures count { IfOk result (λ r. D.faults disk ≤ D.faults (disk_of r)) }
    ensures later { IfErr result (λ r. D.faults disk ≤ D.faults r.disk) }
    ensures cause { IfErr result (λ r. Rose (D.faults disk) (D.faults r.disk)) }
{
    let mut disk = disk;
    match format(&mut disk, header) {
        Ok(()) => Ok(Journal::at(alloc, disk, 72, 0)),
        Err(why) => Err(Refused { disk, why }),
    }
}

// Why the first bytes are refused where a journal is to have this header.
fn header_refusal(header: &[u8; 72], bytes: &[u8]) -> Option<OpenError>
    ensures some { IfSome result (Refuses header.now bytes.now) }
    ensures kind { IfSome result IsOfHeader }
    ensures none { IfNone result ((73 ≤ length bytes.now) × (take 72 bytes.now ≡ header.now)) }
{
    if bytes.len() < 73 {
        return Some(OpenError::NotAJournal);
    }
    let start = &bytes[..72];
    let begins = &start[..8];
    if !is_same(begins, &header[..8]) {
        if is_same(begins, b"CQEJRNL1") {
            return Some(OpenError::OldVersion);
        }
        return Some(OpenError::NotAJournal);
    }
    if !is_same(start, header) {
        return Some(OpenError::OtherPolicy);
    }
    None
}

fn is_same(first: &[u8], second: &[u8]) -> bool
    ensures { IsTrue result ↔ (first.now ≡ second.now) }
{
    first == second
}

// The record behind an open gate, of one of so many kinds: its kind, its text, and what follows
// from the next gate on.
fn next_record(bytes: &[u8], kinds: u8) -> Option<(u8, &[u8], &[u8])>
    ensures some { IfSome result (λ r. StartsWithRecord kinds bytes.now r.0 r.1.now r.2.now) }
    ensures none { IfNone result
        ((number : ℕ) → damaged kinds number 0 (1 ∷ bytes.now) ≡ Some number) }
{
    let [kind, high, low, rest @ ..] = bytes else {
        return None;
    };
    let length = 256 * *high as usize + *low as usize;
    if *kind < 1 || *kind > kinds || length > 4096 || length >= rest.len() {
        return None;
    }
    Some((*kind, &rest[..length], &rest[length..]))
}

// The record behind the gate that stands first, or none where that is closed. The bytes hold the
// longest record and its next gate, or all that there is.
fn first_record(
    alloc: Global,
    bytes: &[u8],
    number: usize,
    kinds: u8,
) -> Result<Option<Record>, OpenError>
    ensures found { IfOk result (λ found. IfSome found (HasRecord kinds bytes.now)) }
    ensures closed { IfOk result (λ found.
        IfNone found (0 < length bytes.now × (slice_index_or bytes.now 0 0 ≢ 1))) }
    ensures err { IfErr result (λ why. (why ≡ OpenError.Memory) ⊎ ((why ≡ OpenError.Damaged number)
        × (0 < length bytes.now → (n : ℕ) → damaged kinds n 0 bytes.now ≡ Some n))) }
{
    let [gate, behind @ ..] = bytes else {
        return Err(damaged_record(number));
    };
    if *gate != 1 {
        return Ok(None);
    }
    let Some((kind, text, _)) = next_record(behind, kinds) else {
        return Err(damaged_record(number));
    };
    let text = text.to_vec(alloc)?;
    Ok(Some(Record { kind, text }))
}

// There is no memory for so many records that their number doesn't fit.
fn damaged_record(number: usize) -> OpenError
    ensures { (result ≡ OpenError.Damaged number) ⊎ (result ≡ OpenError.Memory) }
{
    match u32::try_from(number) {
        Ok(number) => OpenError::Damaged(number),
        Err(_) => OpenError::Memory,
    }
}

// The record behind the gate at this place of a disk, or none where that is closed. It reads no
// further than the longest record reaches.
fn record_at<D: Disk>(
    alloc: Global,
    disk: &mut D,
    gate: u64,
    number: usize,
    kinds: u8,
) -> Result<Option<Record>, OpenError>
    requires { D.tells → gate < length (D.reads disk.old) }
    ensures found { D.tells
        → IfOk result (λ found. IfSome found (HasRecord kinds (drop gate (D.reads disk.old)))) }
    ensures each { IfOk result (λ found. IfSome found (IsRecord kinds)) }
    ensures closed { D.tells → IfOk result (λ found. IfNone found
        (slice_index_or (drop gate (D.reads disk.old)) 0 0 ≢ 1)) }
    ensures refused { IfErr result (λ why.
        IsStopped kinds D.tells (drop gate (D.reads disk.old)) number (D.faults disk.old)
        (D.faults disk.new) why) }
    ensures only { IsOnlyRead (D.reads disk.old) (D.reads disk.new) (D.image disk.old)
        (D.image disk.new)
        (D.moment disk.old) (D.moment disk.new) (D.image_since disk.old) (D.image_since disk.new)
        (D.faults disk.old) (D.faults disk.new) }
    ensures origin { D.origin disk.new ≡ D.origin disk.old }
    ensures still_told { D.tellable disk.old ≤ D.tellable disk.new }
    ensures heard { HearsNoMore (D.heard disk.old) (D.heard disk.new) }
{
    let mut window = [0; WINDOW];
    let count = disk.read_at(gate, &mut window)?;
    first_record(alloc, &window[..count], number, kinds)
}

// The records of a disk behind the header, of so many kinds, and the place of the closed gate,
// behind which nothing is read.
fn read_records<D: Disk>(
    alloc: Global,
    disk: &mut D,
    kinds: u8,
) -> Result<(Vec<Record>, u64), OpenError>
    requires few { kinds ≤ 5 }
    requires long { D.tells → 73 ≤ length (D.reads disk.old) }
    requires fits { D.tells → length (D.reads disk.old) < 2 ^ 64 }
    ensures ok { D.tells
        → IfOk result (λ r. IsRead kinds (D.reads disk.old) (map recorded r.0.items) r.1) }
    ensures each { IfOk result (λ r. All (IsRecord kinds) r.0.items) }
    ensures refused { IfErr result
        (IsCutShort kinds D.tells (D.reads disk.old) (D.faults disk.old) (D.faults disk.new)) }
    ensures only { IsOnlyRead (D.reads disk.old) (D.reads disk.new) (D.image disk.old)
        (D.image disk.new)
        (D.moment disk.old) (D.moment disk.new) (D.image_since disk.old) (D.image_since disk.new)
        (D.faults disk.old) (D.faults disk.new) }
    ensures origin { D.origin disk.new ≡ D.origin disk.old }
    ensures still_told { D.tellable disk.old ≤ D.tellable disk.new }
    ensures heard { HearsNoMore (D.heard disk.old) (D.heard disk.new) }
{
    let mut records = Vec::new(alloc);
    let mut gate = 72;
    for _ in 0..u64::MAX {
        let Some(record) = record_at(alloc, disk, gate, records.len(), kinds)? else {
            return Ok((records, gate));
        };
        gate = gate.saturating_add(record.text.len() as u64 + 4);
        records.push(record)?;
    }
    Err(OpenError::Memory)
}

// Reads the header of a disk.
fn read_header<D: Disk>(disk: &mut D, first: &[u8; 8], header: &Header) -> Result<(), OpenError>
    ensures long { D.tells → OnOk result (73 ≤ length (D.reads disk.old)) }
    ensures fits { D.tells → OnOk result (length (D.reads disk.old) < 2 ^ 64) }
    ensures begins { D.tells
        → OnOk result (take 72 (D.reads disk.old) ≡ headed first.now header.now) }
    ensures refused { (kinds : ℕ) → IfErr result
        (IsRefusedOf kinds D.tells (headed first.now header.now) (D.reads disk.old)
        (D.faults disk.old) (D.faults disk.new)) }
    ensures only { IsOnlyRead (D.reads disk.old) (D.reads disk.new) (D.image disk.old)
        (D.image disk.new)
        (D.moment disk.old) (D.moment disk.new) (D.image_since disk.old) (D.image_since disk.new)
        (D.faults disk.old) (D.faults disk.new) }
    ensures origin { D.origin disk.new ≡ D.origin disk.old }
    ensures still_told { D.tellable disk.old ≤ D.tellable disk.new }
    ensures heard { HearsNoMore (D.heard disk.old) (D.heard disk.new) }
{
    let _length = disk.length()?;
    let mut start = [0; 73];
    let count = disk.read_at(0, &mut start)?;
    match header_refusal(&header_array(first, header), &start[..count]) {
        Some(why) => Err(why),
        None => Ok(()),
    }
}

// The records of a disk, of so many kinds, behind a header that begins with these bytes, and the
// place of the closed gate.
fn read_journal<D: Disk>(
    alloc: Global,
    disk: &mut D,
    first: &[u8; 8],
    kinds: u8,
    header: &Header,
) -> Result<(Vec<Record>, u64), OpenError>
    requires { kinds ≤ 5 }
    ensures opened { D.tells
        → IfOk result (λ r. IsJournalOf kinds (headed first.now header.now)
        (map recorded r.0.items) (D.reads disk.old)) }
    ensures each { IfOk result (λ r. All (IsRecord kinds) r.0.items) }
    ensures ends { D.tells → IfOk result (λ r. EndsAt (D.reads disk.new) r.1) }
    ensures refused { IfErr result
        (IsRefusedOf kinds D.tells (headed first.now header.now) (D.reads disk.old)
        (D.faults disk.old) (D.faults disk.new)) }
    ensures only { IsOnlyRead (D.reads disk.old) (D.reads disk.new) (D.image disk.old)
        (D.image disk.new)
        (D.moment disk.old) (D.moment disk.new) (D.image_since disk.old) (D.image_since disk.new)
        (D.faults disk.old) (D.faults disk.new) }
    ensures origin { D.origin disk.new ≡ D.origin disk.old }
    ensures still_told { D.tellable disk.old ≤ D.tellable disk.new }
    ensures heard { HearsNoMore (D.heard disk.old) (D.heard disk.new) }
{
    read_header(disk, first, header)?;
    read_records(alloc, disk, kinds)
}

// The same behind a sync.
fn read_synced<D: Disk>(
    alloc: Global,
    disk: &mut D,
    first: &[u8; 8],
    kinds: u8,
    header: &Header,
) -> Result<(Vec<Record>, u64), OpenError>
    requires { kinds ≤ 5 }
    ensures opened { D.tells
        → IfOk result (λ r. IsJournalOf kinds (headed first.now header.now)
        (map recorded r.0.items) (D.reads disk.old)) }
    ensures each { IfOk result (λ r. All (IsRecord kinds) r.0.items) }
    ensures ends { D.tells → IfOk result (λ r. EndsAt (D.reads disk.new) r.1) }
    ensures refused { IfErr result
        (IsRefusedOf kinds D.tells (headed first.now header.now) (D.reads disk.old)
        (D.faults disk.old) (D.faults disk.new)) }
    ensures reads { D.reads disk.new ≡ D.reads disk.old }
    ensures origin { D.origin disk.new ≡ D.origin disk.old }
    ensures still_told { D.tellable disk.old ≤ D.tellable disk.new }
    ensures heard { HearsNoMore (D.heard disk.old) (D.heard disk.new) }
    ensures durable { OnOk result (Only (D.reads disk.new) (D.image disk.new)) }
    ensures synced { IfErr result (λ why. (why ≡ OpenError.DiskFault)
        ⊎ Only (D.reads disk.new) (D.image disk.new)) }
    ensures images { (c : List ℕ) → D.image disk.new c → D.image disk.old c }
    ensures moments { (c : List ℕ) → D.image_since disk.new (D.moment disk.old) c
        → D.image disk.old c }
    ensures time { Elapses (D.moment disk.old) (D.moment disk.new) (D.image_since disk.old)
        (D.image_since disk.new) }
    ensures count { D.faults disk.old ≤ D.faults disk.new }
{
    disk.sync()?;
    read_journal(alloc, disk, first, kinds, header)
}

// The same, and behind it the disk is told of each of these records.
fn read_told<D: Disk>(
    alloc: Global,
    disk: &mut D,
    header: &Header,
) -> Result<(Vec<Record>, u64), OpenError>
    ensures opened { D.tells
        → IfOk result (λ r. IsJournalOf 5 (header_bytes header.now) (map recorded r.0.items)
        (D.reads disk.old)) }
    ensures each { IfOk result (λ r. All (IsRecord 5) r.0.items) }
    ensures ends { D.tells → IfOk result (λ r. EndsAt (D.reads disk.new) r.1) }
    ensures counted { D.tells
        → IfOk result (λ r. length r.0.items ≡ length (records (D.reads disk.new))) }
    ensures tellable { IfOk result (λ r. length r.0.items ≤ D.tellable disk.new) }
    ensures refused { IfErr result
        (IsRefused D.tells (header_bytes header.now) (D.reads disk.old) (D.faults disk.old)
        (D.faults disk.new)) }
    ensures reads { D.reads disk.new ≡ D.reads disk.old }
    ensures origin { D.origin disk.new ≡ D.origin disk.old }
    ensures still_told { D.tellable disk.old ≤ D.tellable disk.new }
    ensures heard { D.tells → AreThere (D.heard disk.old) (D.reads disk.old)
        → AreThere (D.heard disk.new) (D.reads disk.new) }
    ensures durable { OnOk result (Only (D.reads disk.new) (D.image disk.new)) }
    ensures synced { IfErr result (λ why. (why ≡ OpenError.DiskFault)
        ⊎ Only (D.reads disk.new) (D.image disk.new)) }
    ensures images { (c : List ℕ) → D.image disk.new c → D.image disk.old c }
    ensures moments { (c : List ℕ) → D.image_since disk.new (D.moment disk.old) c
        → D.image disk.old c }
    ensures time { Elapses (D.moment disk.old) (D.moment disk.new) (D.image_since disk.old)
        (D.image_since disk.new) }
    ensures count { D.faults disk.old ≤ D.faults disk.new }
{
    let read = read_synced(alloc, disk, b"CQEJRNL2", 5, header)?;
    tell_all(disk, &read.0)?;
    Ok(read)
}

/// Opens the journal of a disk and reads its records, all and in order. It begins with a sync and
/// repairs nothing: the bytes stay, and no crash at any moment leaves anything new. The disk is
/// told of each record in order before it answers. A refusal hands the disk back.
///
/// It reads record by record, each behind its open gate, and nothing behind the closed one. So what
/// lies there costs nothing, and over a file to which another process appends meanwhile the records
/// up to some moment are read.
pub fn open<D: Disk>(
    alloc: Global,
    disk: D,
    header: &Header,
) -> Result<(Journal<D>, Vec<Record>), Refused<D, OpenError>>
    ensures opened { D.tells
        → IfOk result (λ r. IsJournal (header_bytes header.now) (map recorded r.1.items)
        (D.reads disk)) }
    ensures each { IfOk result (λ r. All (IsRecord 5) r.1.items) }
    ensures whole { IfOk result (λ r. is_broken r.0 ≡ false) }
    ensures number { IfOk result (λ r. count_of r.0 ≡ length r.1.items) }
    ensures tellable { IfOk result (λ r. length r.1.items ≤ D.tellable (disk_of r.0)) }

    // Bytes are refused exactly where they show a reason: what is opened shows none, a refusal has
    // its cause, and a journal with this header is refused for a fault or for want of memory alone.
    ensures sound { D.tells
        → OnOk result ((why : OpenError) → ¬ Refuses (header_bytes header.now) (D.reads disk) why) }
    ensures refused { IfErr result (λ r.
        IsRefused D.tells (header_bytes header.now) (D.reads disk) (D.faults disk)
        (D.faults r.disk) r.why) }
    ensures good { D.tells → (all : List Recorded)
        → IsJournal (header_bytes header.now) all (D.reads disk)
        → IfErr result (λ r. IsOutside r.why) }

    ensures reads { D.reads (disk_after result) ≡ D.reads disk }
    ensures origin { D.origin (disk_after result) ≡ D.origin disk }

    // No mark that might be told before may not be told any more.
    ensures still_told { D.tellable disk ≤ D.tellable (disk_after result) }

    // What was told of is a record that lies there.
    ensures heard { D.tells → AreThere (D.heard disk) (D.reads disk)
        → AreThere (D.heard (disk_after result)) (D.reads (disk_after result)) }
    ensures durable { OnOk result (Only (D.reads disk) (D.image (disk_after result))) }
    ensures synced { IfErr result (λ r. (r.why ≡ OpenError.DiskFault)
        ⊎ Only (D.reads disk) (D.image r.disk)) }
    ensures images { (c : List ℕ) → D.image (disk_after result) c → D.image disk c }
    ensures time { Elapses (D.moment disk) (D.moment (disk_after result)) (D.image_since disk)
        (D.image_since (disk_after result)) }
    ensures moments { (c : List ℕ) → D.image_since (disk_after result) (D.moment disk) c
        → D.image disk c }
    ensures count { D.faults disk ≤ D.faults (disk_after result) }
{
    let mut disk = disk;
    match read_told(alloc, &mut disk, header) {
        Ok((records, gate)) => {
            let count = records.len() as u64;
            Ok((Journal::at(alloc, disk, gate, count), records))
        }
        Err(why) => Err(Refused { disk, why }),
    }
}

/// Opens a journal of version 1 with these digests, as `open` does one of version 2, but the disk
/// isn't told. It is for who moves its records to a journal of version 2.
pub fn open_old<D: Disk>(
    alloc: Global,
    disk: D,
    header: &Header,
) -> Result<(Journal<D>, Vec<Record>), Refused<D, OpenError>>
    ensures opened { D.tells
        → IfOk result (λ r. IsOldJournal (header_bytes header.now) (map recorded r.1.items)
        (D.reads disk)) }
    ensures each { IfOk result (λ r. All (IsRecord 4) r.1.items) }
    ensures whole { IfOk result (λ r. is_broken r.0 ≡ false) }

    // As of `open`, and no bytes are refused as old.
    ensures sound { D.tells → OnOk result
        ((why : OpenError) → ¬ RefusesOld (header_bytes header.now) (D.reads disk) why) }
    ensures refused { IfErr result (λ r.
        IsRefusedOld D.tells (header_bytes header.now) (D.reads disk) (D.faults disk)
        (D.faults r.disk) r.why) }
    ensures good { D.tells → (all : List Recorded)
        → IsOldJournal (header_bytes header.now) all (D.reads disk)
        → IfErr result (λ r. IsOutside r.why) }
    ensures oldest { IfErr result (λ r. r.why ≢ OpenError.OldVersion) }

    ensures reads { D.reads (disk_after result) ≡ D.reads disk }
    ensures origin { D.origin (disk_after result) ≡ D.origin disk }
    ensures durable { OnOk result (Only (D.reads disk) (D.image (disk_after result))) }
    ensures synced { IfErr result (λ r. (r.why ≡ OpenError.DiskFault)
        ⊎ Only (D.reads disk) (D.image r.disk)) }
    ensures images { (c : List ℕ) → D.image (disk_after result) c → D.image disk c }
    ensures time { Elapses (D.moment disk) (D.moment (disk_after result)) (D.image_since disk)
        (D.image_since (disk_after result)) }
    ensures moments { (c : List ℕ) → D.image_since (disk_after result) (D.moment disk) c
        → D.image disk c }
    ensures count { D.faults disk ≤ D.faults (disk_after result) }
{
    let mut disk = disk;
    match read_synced(alloc, &mut disk, b"CQEJRNL1", 4, header) {
        Ok((records, gate)) => {
            let count = records.len() as u64;
            Ok((Journal::at(alloc, disk, gate, count), records))
        }
        Err(why) => Err(Refused { disk, why }),
    }
}
