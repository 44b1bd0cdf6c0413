//! One user's desk on disks in memory, with bytes and replies that were worked out by hand.
ghost use Rattle.std.specs.Prelude.{◌≤◌, length};
ghost use Rattle.cqe_base.specs.History.{profile_of};
ghost use Rattle.cqe_base.specs.Limits.{KeepsLimits};

use crate::clinic::{RULE, Ward, desk_on, formatted, ward_knowing};
use censors::Admission;
use cqe_base::user::{Mark, Purpose};
use log_journal::OpenError;
use outside::{MemoryDisk, Plan};
use std::alloc::{AllocError, Global};
use std::process::Abort;
use std::test::Fail;
use user_desk::{Desk, DeskError, Standing};
use user_log::Reply;

// What stands from the first gate on after `drug(ann)` was answered by no.
const FROM_THE_GATE: [u8; 14] = [
    0x01, 0x02, 0x00, 0x09, 0x64, 0x72, 0x75, 0x67, 0x28, 0x61, 0x6e, 0x6e, 0x29, 0x00,
];

// The device calls of an opening without records: a sync, the length, and the reads of the header
// and of the closed gate.
// Each record is one read more.
const OPENING: u64 = 4;

const NO: Reply = Reply::Mark(Mark::No);

/// The bytes of a journal with this behind its header.
fn with_header(alloc: Global, behind: &[u8]) -> Result<Vec<u8>, AllocError> {
    let mut bytes = Vec::new(alloc);
    bytes.extend_from_slice(b"CQEJRNL2")?;
    bytes.extend_from_slice(&[7; 32])?;
    bytes.extend_from_slice(&[9; 32])?;
    bytes.extend_from_slice(behind)?;
    Ok(bytes)
}

/// A disk with this behind the header of its journal, which fails by this plan.
fn disk_of(rt: &impl Abort, alloc: Global, behind: &[u8], plan: Plan) -> MemoryDisk {
    let Ok(bytes) = with_header(alloc, behind) else {
        panic!(rt; "no memory for a journal");
    };
    let Ok(disk) = MemoryDisk::with_plan(alloc, bytes, plan) else {
        panic!(rt; "no memory for a disk");
    };
    disk
}

/// The desk of the ward's user.
fn wards_desk<'w>(
    rt: &impl Abort,
    alloc: Global,
    ward: &'w Ward,
    disk: MemoryDisk,
) -> Desk<'w, MemoryDisk>
    requires { KeepsLimits ward.now.clinic.schema (profile_of ward.now.user) }
{
    desk_on(rt, alloc, &ward.clinic, &ward.user, disk)
}

/// What a desk answers who is asked this.
fn asked(alloc: Global, desk: &mut Desk<'_, MemoryDisk>, text: &str) -> Reply
    requires { length text.now ≤ 4096 }
{
    desk.settle(alloc, Purpose::Asking, text, None)
}

/// The standing of a desk, and the number of its entries.
fn standing_of(desk: &Desk<'_, MemoryDisk>) -> (Standing, usize) {
    (*desk.standing(), desk.entries().len())
}

/// The standing that a disk gives, and the number of entries.
fn found_on(rt: &impl Abort, alloc: Global, ward: &Ward, disk: MemoryDisk) -> (Standing, usize)
    requires { KeepsLimits ward.now.clinic.schema (profile_of ward.now.user) }
{
    let desk = wards_desk(rt, alloc, ward, disk);
    let found = standing_of(&desk);
    let _disk = desk.close();
    found
}

/// The standing that these bytes give, and the number of entries.
fn opened(rt: &impl Abort, alloc: Global, ward: &Ward, bytes: Vec<u8>) -> (Standing, usize)
    requires { KeepsLimits ward.now.clinic.schema (profile_of ward.now.user) }
{
    let Ok(disk) = MemoryDisk::new(alloc, bytes) else {
        panic!(rt; "no memory for a disk");
    };
    found_on(rt, alloc, ward, disk)
}

/// A desk on an empty journal is asked once, and then what is no sentence.
fn ask_once(rt: &impl Abort, alloc: Global, desk: &mut Desk<'_, MemoryDisk>) {
    assert_eq!(rt; *desk.standing(), Standing::Open);
    assert_eq!(rt; asked(alloc, desk, "drug(ann)"), NO);
    assert_eq!(rt; desk.entries().len(), 1);
    assert!(rt; !desk.broken());
    // The empty text isn't a sentence: kind 2 at its end. A code writes nothing.
    let reply = asked(alloc, desk, "");
    assert!(rt; matches!(reply, Reply::Syntax(error) if error.kind == 2 && error.place == 0));
}

/// A disk has the journal of the one ask, and nothing else after a crash.
fn has_one_ask(rt: &impl Abort, alloc: Global, disk: &MemoryDisk) -> Result<(), Fail> {
    assert_eq!(rt; disk.bytes().len(), 86);
    assert_eq!(rt;
        disk.bytes(),
        with_header(alloc, &FROM_THE_GATE)?.as_slice()
    );
    assert_eq!(rt; disk.crash_image(alloc, 0)?.as_slice(), disk.bytes());
    // Two calls of `format`, four of the opening, four of the append.
    assert_eq!(rt; disk.calls().len(), 10);
    Ok(())
}

/// The disk on which the ward's user asked once.
fn asked_once(rt: &impl Abort, alloc: Global, ward: &Ward) -> MemoryDisk
    requires { KeepsLimits ward.now.clinic.schema (profile_of ward.now.user) }
{
    let mut desk = wards_desk(rt, alloc, ward, formatted(rt, alloc));
    ask_once(rt, alloc, &mut desk);
    desk.close()
}

#[test]
fn one_ask_writes_its_bytes(rt: HostRuntime) -> Result<(), Fail> {
    let alloc = rt.alloc();
    let ward = ward_knowing(&rt, alloc, RULE);
    let disk = asked_once(&rt, alloc, &ward);
    has_one_ask(&rt, alloc, &disk)
}

/// A byte of the journal with one entry, what it is set to, the standing that follows, and the
/// number of entries.
type Change = (usize, u8, Standing, usize);

const UNLAWFUL: DeskError = DeskError::Unlawful {
    number: 0,
    stored: Mark::Yes,
    computed: Mark::No,
};

const DAMAGED: DeskError = DeskError::Journal(OpenError::Damaged(0));

const DAMAGED_BEHIND_IT: DeskError = DeskError::Journal(OpenError::Damaged(1));

const NOT_A_JOURNAL: DeskError = DeskError::Journal(OpenError::NotAJournal);

const OLD_VERSION: DeskError = DeskError::Journal(OpenError::OldVersion);

const OTHER_POLICY: DeskError = DeskError::Journal(OpenError::OtherPolicy);

const CHANGES: [Change; 11] = [
    (72, 1, Standing::Open, 1),
    (72, 7, Standing::Open, 0),
    (73, 9, Standing::Sealed(DAMAGED), 0),
    (73, 1, Standing::Sealed(UNLAWFUL), 0),
    (0, 99, Standing::Sealed(NOT_A_JOURNAL), 0),
    (7, 49, Standing::Sealed(OLD_VERSION), 0),
    (8, 0, Standing::Sealed(OTHER_POLICY), 0),
    // A secret that was added.
    (73, 5, Standing::Open, 1),
    // `drug(anx)`, and a byte that is no text.
    (83, 120, Standing::Sealed(DeskError::Stale(0)), 0),
    (83, 200, Standing::Sealed(DeskError::Stale(0)), 0),
    (85, 1, Standing::Sealed(DAMAGED_BEHIND_IT), 0),
];

/// The journal with one entry, with a byte changed.
fn with_change(rt: &impl Abort, alloc: Global, place: usize, byte: u8) -> Vec<u8> {
    let Ok(bytes) = with_header(alloc, &FROM_THE_GATE) else {
        panic!(rt; "no memory for a journal");
    };
    let mut bytes = bytes;
    if let Some(changed) = bytes.get_mut(place) {
        *changed = byte;
    }
    bytes
}

fn check_change(rt: &impl Abort, alloc: Global, ward: &Ward, change: &Change)
    requires { KeepsLimits ward.now.clinic.schema (profile_of ward.now.user) }
{
    let (place, byte, standing, count) = *change;
    let found = opened(rt, alloc, ward, with_change(rt, alloc, place, byte));
    assert_eq!(rt; found, (standing, count), "byte {place} set to {byte}");
}

#[test]
fn a_changed_byte_is_refused_by_name(rt: HostRuntime) {
    let alloc = rt.alloc();
    let ward = ward_knowing(&rt, alloc, RULE);
    for change in &CHANGES {
        check_change(&rt, alloc, &ward, change);
    }
}

/// A journal with one record of this kind and text.
fn with_record(alloc: Global, kind: u8, text: &[u8]) -> Result<Vec<u8>, Fail>
    requires { length text.now ≤ 4096 }
{
    let length = text.len();
    let mut bytes = with_header(
        alloc,
        &[1, kind, (length / 256) as u8, (length % 256) as u8],
    )?;
    bytes.extend_from_slice(text)?;
    bytes.push(0)?;
    Ok(bytes)
}

/// Eight quantifiers over two persons before sixty atoms.
fn large_text(alloc: Global) -> Result<String, Fail> {
    let mut text = String::new(alloc);
    for variable in ["a", "b", "c", "d", "e", "f", "g", "h"] {
        text.push_str("forall ")?;
        text.push_str(variable)?;
        text.push_str(": person . ")?;
    }
    text.push_str("hiv(a)")?;
    for _ in 1..60 {
        text.push_str(" and hiv(b)")?;
    }
    Ok(text)
}

/// A journal with that as its one record.
fn with_large_record(rt: &impl Abort, alloc: Global) -> Result<Vec<u8>, Fail> {
    let text = large_text(alloc)?;
    assert!(rt; text.len() <= 4_096);
    let bytes = with_record(alloc, 1, text.as_bytes())?;
    Ok(bytes)
}

// Eight quantifiers over two persons make 256 instances of the 119 nodes of sixty atoms: more than
// 20,000 nodes.
#[test]
fn a_record_beyond_the_limits_is_refused(rt: HostRuntime) -> Result<(), Fail> {
    let alloc = rt.alloc();
    let bytes = with_large_record(&rt, alloc)?;
    let ward = ward_knowing(&rt, alloc, RULE);
    let found = opened(&rt, alloc, &ward, bytes);
    assert_eq!(rt; found, (Standing::Sealed(DeskError::Size(0)), 0));
    Ok(())
}

/// An empty journal opens a closed desk, which answers and writes nothing.
fn is_closed(rt: &impl Abort, alloc: Global, ward: &Ward, implied: Admission)
    requires { KeepsLimits ward.now.clinic.schema (profile_of ward.now.user) }
{
    let mut desk = wards_desk(rt, alloc, ward, disk_of(rt, alloc, &[0], Plan::Never));
    assert_eq!(rt; *desk.standing(), Standing::Closed(implied));
    assert_eq!(rt; asked(alloc, &mut desk, "drug(ann)"), Reply::Closed);
    let disk = desk.close();
    assert_eq!(rt; disk.bytes().len(), 73);
}

// He knows what must stay secret from him.
#[test]
fn a_user_who_is_not_admitted_has_no_entry(rt: HostRuntime) {
    let alloc = rt.alloc();
    let ward = ward_knowing(&rt, alloc, "hiv(ann)");
    let implied = Admission::Implied(None);
    let disk = disk_of(&rt, alloc, &FROM_THE_GATE, Plan::Never);
    let found = found_on(&rt, alloc, &ward, disk);
    let refused = DeskError::NotAdmitted(implied);
    assert_eq!(rt; found, (Standing::Sealed(refused), 0));
    is_closed(&rt, alloc, &ward, implied);
}

/// The one call of this number fails.
fn only(rt: &impl Abort, alloc: Global, call: u64) -> Plan {
    let Ok(calls) = Vec::from_array(alloc, [call]) else {
        panic!(rt; "no memory for a plan");
    };
    Plan::At(calls)
}

/// A fault at this call of the opening seals the desk, and the next opening finds its entry.
fn check_fault(rt: &impl Abort, alloc: Global, ward: &Ward, call: u64)
    requires { KeepsLimits ward.now.clinic.schema (profile_of ward.now.user) }
{
    let disk = disk_of(rt, alloc, &FROM_THE_GATE, only(rt, alloc, call));
    let mut desk = wards_desk(rt, alloc, ward, disk);
    let fault = DeskError::Journal(OpenError::DiskFault);
    assert_eq!(rt; *desk.standing(), Standing::Sealed(fault));
    assert_eq!(rt; asked(alloc, &mut desk, "drug(ann)"), Reply::Sealed);
    assert!(rt; !desk.broken());
    let (standing, count) = found_on(rt, alloc, ward, desk.close());
    assert_eq!(rt; standing, Standing::Open);
    assert_eq!(rt; count, 1);
}

#[test]
fn a_fault_at_the_opening_seals_the_desk(rt: HostRuntime) {
    let alloc = rt.alloc();
    let ward = ward_knowing(&rt, alloc, RULE);
    for call in 0..OPENING + 1 {
        check_fault(&rt, alloc, &ward, call);
    }
}

/// What two asks are answered on a disk that stops at this call, and the image of this number that
/// a crash may leave.
fn live(
    rt: &impl Abort,
    alloc: Global,
    ward: &Ward,
    stop: u64,
    picture: u64,
) -> ((Reply, Reply), Vec<u8>)
    requires { KeepsLimits ward.now.clinic.schema (profile_of ward.now.user) }
{
    let disk = disk_of(rt, alloc, &[0], Plan::From(stop));
    let mut desk = wards_desk(rt, alloc, ward, disk);
    let first = asked(alloc, &mut desk, "drug(ann)");
    let second = asked(alloc, &mut desk, "hiv(bob)");
    let disk = desk.close();
    let Ok(image) = disk.crash_image(alloc, picture) else {
        panic!(rt; "no memory for an image");
    };
    ((first, second), image)
}

/// The call at which the program stops, both replies, how many entries the next life finds where a
/// torn write leaves nothing, and whether it finds one more where that leaves all.
type Stop = (u64, Reply, Reply, usize, bool);

const STOPS: [Stop; 9] = [
    (4, Reply::Broken, Reply::Broken, 0, false),
    (5, Reply::Broken, Reply::Broken, 0, false),
    (6, Reply::Broken, Reply::Broken, 0, true),
    (7, Reply::Broken, Reply::Broken, 0, true),
    (8, NO, Reply::Broken, 1, false),
    (9, NO, Reply::Broken, 1, false),
    (10, NO, Reply::Broken, 1, true),
    (11, NO, Reply::Broken, 1, true),
    (12, NO, NO, 2, false),
];

/// A picture, and whether it leaves a torn write of the gate alone.
type Picture = (u64, bool);

const PICTURES: [Picture; 6] = [
    (0, false),
    (1, true),
    (2, false),
    (3, false),
    (4, true),
    (7, true),
];

/// How many entries the next life finds.
fn count_behind(least: usize, one_more: bool) -> usize {
    if one_more {
        least.saturating_add(1)
    } else {
        least
    }
}

fn check_life(rt: &impl Abort, alloc: Global, ward: &Ward, stop: &Stop, picture: &Picture)
    requires { KeepsLimits ward.now.clinic.schema (profile_of ward.now.user) }
{
    let (call, first, second, least, may_grow) = *stop;
    let (number, leaves) = *picture;
    let (replies, image) = live(rt, alloc, ward, call, number);
    let (standing, count) = opened(rt, alloc, ward, image);
    assert_eq!(rt; standing, Standing::Open);
    assert_eq!(rt;
        (replies.0, replies.1, count),
        (first, second, count_behind(least, may_grow && leaves)),
        "stop {call}, picture {number}"
    );
}

fn check_stops(rt: &impl Abort, alloc: Global, ward: &Ward, picture: &Picture)
    requires { KeepsLimits ward.now.clinic.schema (profile_of ward.now.user) }
{
    for stop in &STOPS {
        check_life(rt, alloc, ward, stop, picture);
    }
}

// The program stops at each device call of two asks. A write of the gate alone is torn by pictures:
// 0 and 3 leave none of it, 1 and 4 all, and 2 and 7 a byte of 0 and of 1.
#[test]
fn a_new_life_finds_what_was_answered(rt: HostRuntime) {
    let alloc = rt.alloc();
    let ward = ward_knowing(&rt, alloc, RULE);
    for picture in &PICTURES {
        check_stops(&rt, alloc, &ward, picture);
    }
}
