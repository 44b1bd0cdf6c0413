ghost use Rattle.std.specs.Prelude.{◌≤◌};

use crate::checks;
use log_journal::{
    AppendError, Header, Journal, OpenError, Record, Refused, create, format, journal_name, open,
    open_old,
};
use outside::{Call, MemoryDisk, Operation, Plan};
use std::alloc::{AllocError, Global};
use std::process::Abort;
use std::test::Fail;

const HEADER: Header = Header {
    policy: [7; 32],
    facts: [9; 32],
};

// What stands from the first gate on after `drug(ann)` was appended with kind 2.
const FROM_THE_GATE: [u8; 14] = [
    0x01, 0x02, 0x00, 0x09, 0x64, 0x72, 0x75, 0x67, 0x28, 0x61, 0x6e, 0x6e, 0x29, 0x00,
];

// The device calls of an opening without records: a sync, the length, and the reads of the header
// and of the closed gate.
// Each record is one read more.
const OPENING: u64 = 4;

// How many values a byte has.
const VALUES: u32 = 256;

// What comes of an opening: the number of the records and the kind of the last, or the refusal.
type Opening = Result<(usize, u8), OpenError>;

// The bytes of a journal with this behind its header.
fn with_header(alloc: Global, behind: &[u8]) -> Result<Vec<u8>, AllocError> {
    with_first(alloc, b"CQEJRNL2", behind)
}

// The same with these first bytes.
fn with_first(alloc: Global, first: &[u8; 8], behind: &[u8]) -> Result<Vec<u8>, AllocError> {
    let mut bytes = Vec::new(alloc);
    bytes.extend_from_slice(first)?;
    bytes.extend_from_slice(&[7; 32])?;
    bytes.extend_from_slice(&[9; 32])?;
    bytes.extend_from_slice(behind)?;
    Ok(bytes)
}

// The bytes of a journal to which `drug(ann)` was appended.
fn with_drug(alloc: Global) -> Result<Vec<u8>, AllocError> {
    with_header(alloc, &FROM_THE_GATE)
}

// Such a journal on a disk of which this call fails.
fn failing_disk(alloc: Global, call: u64) -> Result<MemoryDisk, AllocError> {
    let plan = Plan::At(vec![in alloc; call]?);
    MemoryDisk::with_plan(alloc, with_drug(alloc)?, plan)
}

// Sets one byte.
fn set(bytes: &mut [u8], place: usize, byte: u8) {
    if let Some(changed) = bytes.get_mut(place) {
        *changed = byte;
    }
}

// Opens these bytes.
fn opened(alloc: Global, bytes: &[u8]) -> Result<Opening, AllocError> {
    let disk = MemoryDisk::new(alloc, bytes.to_vec(alloc)?)?;
    Ok(seen(open(alloc, disk, &HEADER)))
}

// The same by who reads version 1.
fn opened_old(alloc: Global, bytes: &[u8]) -> Result<Opening, AllocError> {
    let disk = MemoryDisk::new(alloc, bytes.to_vec(alloc)?)?;
    Ok(seen(open_old(alloc, disk, &HEADER)))
}

// What is looked at of an opening.
fn seen(
    opening: Result<(Journal<MemoryDisk>, Vec<Record>), Refused<MemoryDisk, OpenError>>,
) -> Opening {
    match opening {
        Ok((_, records)) => Ok(counted(&records)),
        Err(refused) => Err(refused.why),
    }
}

// The number of records, and the kind of the last.
fn counted(records: &[Record]) -> (usize, u8) {
    match records.last() {
        Some(record) => (records.len(), record.kind),
        None => (0, 0),
    }
}

// Checks what comes of the opening of these bytes.
fn check(rt: &impl Abort, alloc: Global, bytes: &[u8], want: &Opening) -> Result<(), AllocError> {
    assert_eq!(rt; opened(alloc, bytes)?, *want, "{bytes:?}");
    Ok(())
}

// Checks what comes of them for who reads version 1.
fn check_old(
    rt: &impl Abort,
    alloc: Global,
    bytes: &[u8],
    want: &Opening,
) -> Result<(), AllocError> {
    assert_eq!(rt; opened_old(alloc, bytes)?, *want, "{bytes:?}");
    Ok(())
}

// Checks what comes of the opening of a journal with this behind its header.
fn check_behind(
    rt: &impl Abort,
    alloc: Global,
    behind: &[u8],
    want: &Opening,
) -> Result<(), AllocError> {
    let bytes = with_header(alloc, behind)?;
    check(rt, alloc, &bytes, want)
}

// Opens a journal.
fn journal_of(alloc: Global, disk: MemoryDisk) -> Result<Journal<MemoryDisk>, OpenError> {
    match open(alloc, disk, &HEADER) {
        Ok((journal, _records)) => Ok(journal),
        Err(refused) => Err(refused.why),
    }
}

// A journal that was made on an empty disk.
fn made(alloc: Global) -> Result<Journal<MemoryDisk>, OpenError> {
    let disk = MemoryDisk::new(alloc, Vec::new(alloc))?;
    match create(alloc, disk, &HEADER) {
        Ok(journal) => Ok(journal),
        Err(refused) => Err(OpenError::from(refused.why)),
    }
}

// An empty disk that was formatted.
fn formatted(alloc: Global) -> Result<MemoryDisk, Fail> {
    let mut disk = MemoryDisk::new(alloc, Vec::new(alloc))?;
    format(&mut disk, &HEADER)?;
    Ok(disk)
}

// Makes room for a record and appends it.
fn append(
    journal: &mut Journal<MemoryDisk>,
    kind: u8,
    text: &[u8; 9],
) -> Result<Result<(), AppendError>, AllocError>
    requires low { 1 ≤ kind }
    requires high { kind ≤ 5 }
{
    journal.reserve(9)?;
    Ok(journal.append(kind, text))
}

// Appends `drug(ann)`, and closes the journal.
fn with_record(rt: &impl Abort, journal: Journal<MemoryDisk>) -> Result<MemoryDisk, AllocError> {
    let mut journal = journal;
    assert_eq!(rt; append(&mut journal, 2, b"drug(ann)")?, Ok(()));
    Ok(journal.close())
}

// Checks that a disk has the bytes of a journal to which `drug(ann)` was appended.
fn check_drug(rt: &impl Abort, alloc: Global, disk: &MemoryDisk) -> Result<(), AllocError> {
    assert_eq!(rt; disk.bytes(), with_drug(alloc)?.as_slice());
    Ok(())
}

// A letter for each call of a disk.
fn letters(alloc: Global, calls: &[Call]) -> Result<Vec<u8>, AllocError> {
    let mut letters = Vec::new(alloc);
    for call in calls {
        letters.push(letter(&call.operation))?;
    }
    Ok(letters)
}

fn letter(operation: &Operation) -> u8 {
    match operation {
        Operation::Length => b'L',
        Operation::Read { .. } => b'r',
        Operation::Write { .. } => b'w',
        Operation::Sync => b's',
    }
}

// Two calls of `format`, four of `open`, four of `append`.
#[test]
fn one_append_writes_its_bytes(rt: HostRuntime) -> Result<(), Fail> {
    let alloc = rt.alloc();
    let disk = formatted(alloc)?;
    checks::count(&rt, "bytes before", disk.bytes().len(), 73);
    let disk = with_record(&rt, journal_of(alloc, disk)?)?;
    check_drug(&rt, alloc, &disk)?;
    checks::count(&rt, "bytes", disk.bytes().len(), 86);
    check_letters(&rt, alloc, &disk, b"wssLrrwsws")?;
    Ok(())
}

// Checks which calls a disk had.
fn check_letters(
    rt: &impl Abort,
    alloc: Global,
    disk: &MemoryDisk,
    want: &[u8],
) -> Result<(), AllocError> {
    let letters = letters(alloc, disk.calls())?;
    checks::bytes(rt, "calls", &letters, want);
    Ok(())
}

// Two calls of `format`, four of `append`.
#[test]
fn a_journal_that_is_made_takes_a_record(rt: HostRuntime) -> Result<(), Fail> {
    let alloc = rt.alloc();
    let disk = with_record(&rt, made(alloc)?)?;
    check_drug(&rt, alloc, &disk)?;
    assert_eq!(rt; disk.calls().len(), 6);
    Ok(())
}

// The first eight bytes of each version and of a third, what stands behind the header, and what who
// reads version 2 and who reads version 1 find.
const VERSIONS: [(&[u8; 8], &[u8], Opening, Opening); 8] = [
    (b"CQEJRNL2", &[0], Ok((0, 0)), Err(OpenError::NotAJournal)),
    (
        b"CQEJRNL2",
        &[1, 5, 0, 0, 0],
        Ok((1, 5)),
        Err(OpenError::NotAJournal),
    ),
    (
        b"CQEJRNL1",
        &[],
        Err(OpenError::NotAJournal),
        Err(OpenError::NotAJournal),
    ),
    (b"CQEJRNL1", &[0], Err(OpenError::OldVersion), Ok((0, 0))),
    (
        b"CQEJRNL1",
        &[1, 4, 0, 0, 0],
        Err(OpenError::OldVersion),
        Ok((1, 4)),
    ),
    (
        b"CQEJRNL1",
        &[1, 5, 0, 0, 0],
        Err(OpenError::OldVersion),
        Err(OpenError::Damaged(0)),
    ),
    (
        b"CQEJRNL1",
        &[1],
        Err(OpenError::OldVersion),
        Err(OpenError::Damaged(0)),
    ),
    (
        b"CQEJRNL3",
        &[0],
        Err(OpenError::NotAJournal),
        Err(OpenError::NotAJournal),
    ),
];

#[test]
fn each_version_is_read_as_itself(rt: HostRuntime) -> Result<(), Fail> {
    let alloc = rt.alloc();
    for (first, behind, want, want_old) in &VERSIONS {
        let bytes = with_first(alloc, first, behind)?;
        check(&rt, alloc, &bytes, want)?;
        check_old(&rt, alloc, &bytes, want_old)?;
    }
    let mut bytes = with_first(alloc, b"CQEJRNL1", &[0])?;
    set(&mut bytes, 8, 0);
    check(&rt, alloc, &bytes, &Err(OpenError::OldVersion))?;
    check_old(&rt, alloc, &bytes, &Err(OpenError::OtherPolicy))?;
    Ok(())
}

// What stands behind the header: a gate, and then records with their next gates.
const BEHIND: [(&[u8], Opening); 24] = [
    (&[], Err(OpenError::NotAJournal)),
    (&[0], Ok((0, 0))),
    (&[2, 1, 0, 0, 0], Ok((0, 0))),
    (&[255], Ok((0, 0))),
    (&[1], Err(OpenError::Damaged(0))),
    (&[1, 1], Err(OpenError::Damaged(0))),
    (&[1, 1, 0], Err(OpenError::Damaged(0))),
    (&[1, 1, 0, 0], Err(OpenError::Damaged(0))),
    (&[1, 1, 0, 0, 0], Ok((1, 1))),
    (&[1, 1, 0, 2, 120, 0], Err(OpenError::Damaged(0))),
    (&[1, 1, 0, 2, 120, 120, 0], Ok((1, 1))),
    (&[1, 1, 1, 0, 120, 0], Err(OpenError::Damaged(0))),
    (&[1, 0, 0, 0, 0], Err(OpenError::Damaged(0))),
    (&[1, 5, 0, 0, 0], Ok((1, 5))),
    (&[1, 9, 0, 0, 0], Err(OpenError::Damaged(0))),
    (&[1, 255, 0, 0, 0], Err(OpenError::Damaged(0))),
    (&[1, 4, 0, 0, 1], Err(OpenError::Damaged(1))),
    (&[1, 4, 0, 0, 9, 1, 0], Ok((1, 4))),
    (
        &[1, 1, 0, 1, 120, 1, 0, 0, 0, 0],
        Err(OpenError::Damaged(1)),
    ),
    (
        &[1, 1, 0, 1, 120, 1, 2, 0, 1, 120],
        Err(OpenError::Damaged(1)),
    ),
    (
        &[1, 1, 0, 0, 1, 2, 0, 0, 1, 3, 0, 0],
        Err(OpenError::Damaged(2)),
    ),
    (
        &[1, 1, 0, 0, 1, 6, 0, 0, 1, 7, 0, 0, 0],
        Err(OpenError::Damaged(1)),
    ),
    (&[1, 1, 0, 0, 1, 2, 0, 0, 1, 3, 0, 0, 0], Ok((3, 3))),
    (&[1, 3, 255, 255, 120, 0], Err(OpenError::Damaged(0))),
];

#[test]
fn any_bytes_are_opened_or_refused(rt: HostRuntime) -> Result<(), Fail> {
    let alloc = rt.alloc();
    for (behind, want) in &BEHIND {
        check_behind(&rt, alloc, behind, want)?;
    }
    check(&rt, alloc, &[], &Err(OpenError::NotAJournal))?;
    check(&rt, alloc, &with_long_text(alloc, 0)?, &Ok((1, 2)))?;
    check(
        &rt,
        alloc,
        &with_long_text(alloc, 1)?,
        &Err(OpenError::Damaged(0)),
    )?;
    Ok(())
}

// A journal with one record, whose text has so many bytes more than 4,096.
fn with_long_text(alloc: Global, more: u8) -> Result<Vec<u8>, AllocError> {
    let mut bytes = with_header(alloc, &[1, 2, 16, more])?;
    bytes.resize(76 + 4096 + more as usize + 1, 0)?;
    Ok(bytes)
}

// Each value of the first gate, and each of the kind behind an open one.
#[test]
fn one_gate_is_open_and_five_kinds_are_records(rt: HostRuntime) -> Result<(), Fail> {
    let alloc = rt.alloc();
    for value in 0..VALUES {
        let byte = value as u8;
        check_behind(&rt, alloc, &[byte, 2, 0, 1, 120, 0], &behind_gate(byte))?;
        check_behind(&rt, alloc, &[1, byte, 0, 1, 120, 0], &of_kind(byte))?;
    }
    Ok(())
}

// What comes of a record of kind 2 behind this gate.
fn behind_gate(gate: u8) -> Opening {
    if gate == 1 { Ok((1, 2)) } else { Ok((0, 0)) }
}

// What comes of a record of this kind.
fn of_kind(kind: u8) -> Opening {
    if kind >= 1 && kind <= 5 {
        Ok((1, kind))
    } else {
        Err(OpenError::Damaged(0))
    }
}

// What stands from the first gate on after a second record of the text `x`.
const TWO_FROM_THE_GATE: [u8; 19] = [
    0x01, 0x02, 0x00, 0x09, 0x64, 0x72, 0x75, 0x67, 0x28, 0x61, 0x6e, 0x6e, 0x29, 0x01, 0x03, 0x00,
    0x01, 0x78, 0x00,
];

// A journal with two records is cut at each of its bytes.
#[test]
fn a_cut_at_any_byte_is_refused(rt: HostRuntime) -> Result<(), Fail> {
    let alloc = rt.alloc();
    let whole = with_header(alloc, &TWO_FROM_THE_GATE)?;
    for length in 0..91 {
        let bytes = whole.get(..length).unwrap_or(&[]);
        check(&rt, alloc, bytes, &Err(cut_at(length)))?;
    }
    check(&rt, alloc, &whole, &Ok((2, 3)))?;
    Ok(())
}

// Why it is refused with so many bytes.
fn cut_at(length: usize) -> OpenError {
    match length {
        0..73 => OpenError::NotAJournal,
        73..86 => OpenError::Damaged(0),
        _ => OpenError::Damaged(1),
    }
}

// A place, and the byte that is set there.
const CHANGES: [(usize, u8, Opening); 15] = [
    (0, 99, Err(OpenError::NotAJournal)),
    (7, 51, Err(OpenError::NotAJournal)),
    (7, 49, Err(OpenError::OldVersion)),
    (8, 0, Err(OpenError::OtherPolicy)),
    (39, 0, Err(OpenError::OtherPolicy)),
    (40, 0, Err(OpenError::OtherPolicy)),
    (71, 0, Err(OpenError::OtherPolicy)),
    (72, 1, Ok((1, 2))),
    (72, 7, Ok((0, 0))),
    (73, 1, Ok((1, 1))),
    (73, 9, Err(OpenError::Damaged(0))),
    (74, 16, Err(OpenError::Damaged(0))),
    (75, 10, Err(OpenError::Damaged(0))),
    (85, 1, Err(OpenError::Damaged(1))),
    (85, 2, Ok((1, 2))),
];

// One byte of a journal with one record is changed.
#[test]
fn a_changed_byte_is_refused_or_read(rt: HostRuntime) -> Result<(), Fail> {
    let alloc = rt.alloc();
    for (place, byte, want) in &CHANGES {
        let mut bytes = with_drug(alloc)?;
        set(&mut bytes, *place, *byte);
        check(&rt, alloc, &bytes, want)?;
    }
    Ok(())
}

// What a crash may leave of the writes since the last sync.
const PICTURES: [u64; 12] = [0, 1, 2, 4, 7, 8, 9, 13, 18, 38, 53, 1277];

// A stop at each device call, and several pictures of what was torn.
#[test]
fn a_stop_leaves_the_acknowledged_records(rt: HostRuntime) -> Result<(), Fail> {
    let alloc = rt.alloc();
    for stop in 0..OPENING + 8 + 1 {
        for picture in PICTURES {
            check_stop(&rt, alloc, stop, picture)?;
        }
    }
    Ok(())
}

fn check_stop(rt: &impl Abort, alloc: Global, stop: u64, picture: u64) -> Result<(), AllocError> {
    let (disk, acknowledged) = stopped(alloc, stop)?;
    let left = opened(alloc, &disk.crash_image(alloc, picture)?)?;
    assert!(rt;
        may_be_left(acknowledged, left),
        "stop {stop}, picture {picture}: {left:?}"
    );
    Ok(())
}

// Two records are appended to a journal whose disk stops at this call. It answers the disk and how
// many of them were acknowledged. A tail of an earlier crash stands behind the closed gate: a
// record and an open gate with another record, which nothing may bring back.
fn stopped(alloc: Global, stop: u64) -> Result<(MemoryDisk, usize), AllocError> {
    let mut bytes = with_header(alloc, b"\0\x02\0\x09drug(eve)")?;
    bytes.extend_from_slice(&FROM_THE_GATE)?;
    let disk = MemoryDisk::with_plan(alloc, bytes, Plan::From(stop))?;
    match open(alloc, disk, &HEADER) {
        Ok((journal, _records)) => two_appends(journal),
        Err(refused) => Ok((refused.disk, 0)),
    }
}

// Appends twice, and answers the disk and how many records were acknowledged.
fn two_appends(journal: Journal<MemoryDisk>) -> Result<(MemoryDisk, usize), AllocError> {
    let mut journal = journal;
    let first = append(&mut journal, 3, b"drug(bob)")?.is_ok();
    let second = append(&mut journal, 4, b"hiv(ann) ")?.is_ok();
    Ok((journal.close(), first as usize + second as usize))
}

// Whether an opening may see this where so many records were acknowledged: these, or one more.
fn may_be_left(acknowledged: usize, left: Opening) -> bool {
    match acknowledged {
        0 => left == Ok((0, 0)) || left == Ok((1, 3)),
        1 => left == Ok((1, 3)) || left == Ok((2, 4)),
        _ => left == Ok((2, 4)),
    }
}

#[test]
fn a_failed_sync_breaks_the_journal(rt: HostRuntime) -> Result<(), Fail> {
    let alloc = rt.alloc();
    let mut journal = journal_of(alloc, failing_disk(alloc, OPENING + 2)?)?;
    check_refused(&rt, &mut journal, AppendError::DiskFault)?;
    check_refused(&rt, &mut journal, AppendError::Broken)?;
    let image = journal.close().crash_image(alloc, 1)?;
    check(&rt, alloc, &image, &Ok((1, 2)))?;
    Ok(())
}

// Checks why a record is refused.
fn check_refused(
    rt: &impl Abort,
    journal: &mut Journal<MemoryDisk>,
    want: AppendError,
) -> Result<(), AllocError> {
    assert_eq!(rt; append(journal, 1, b"hiv(bob) ")?, Err(want));
    Ok(())
}

#[test]
fn a_disk_fault_at_the_opening(rt: HostRuntime) -> Result<(), Fail> {
    let alloc = rt.alloc();
    for call in 0..OPENING + 1 {
        let refused = refusal(&rt, alloc, failing_disk(alloc, call)?);
        assert_eq!(rt; refused.why, OpenError::DiskFault);
        check_drug(&rt, alloc, &refused.disk)?;
    }
    Ok(())
}

// The refusal of a journal that may not be opened.
fn refusal(rt: &impl Abort, alloc: Global, disk: MemoryDisk) -> Refused<MemoryDisk, OpenError> {
    match open(alloc, disk, &HEADER) {
        Ok(_) => panic!(rt; "it is opened"),
        Err(refused) => refused,
    }
}

fn crosses_threads<T: Send + Sync>(_value: &T) {}

#[test]
fn a_journal_crosses_threads(rt: HostRuntime) -> Result<(), Fail> {
    let alloc = rt.alloc();
    let disk = MemoryDisk::new(alloc, with_drug(alloc)?)?;
    let journal = journal_of(alloc, disk)?;
    crosses_threads(&journal);
    Ok(())
}

#[test]
fn a_journal_has_the_name_of_its_user(rt: HostRuntime) -> Result<(), Fail> {
    let name = journal_name(rt.alloc(), "/var/cqe", "eve")?;
    assert_eq!(rt; name.as_str(), "/var/cqe/eve.log");
    Ok(())
}
