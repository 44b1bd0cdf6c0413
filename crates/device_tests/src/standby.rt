use crate::checks;
use log_journal::{Header, Journal, OpenError, create};
use outside::{MemoryDisk, MemorySink, MemorySource};
use standby_core::{FrameRoom, Held, StandbyBook, StandbyEnd, TakeError, serve_standby};
use std::alloc::{AllocError, Global};
use std::process::Abort;
use std::sync::Wait;
use std::test::Fail;

const HEADER: Header = Header {
    policy: [7; 32],
    facts: [9; 32],
};

// What is done to the frame of `eve`, record 0, kind 2, text `p(a)`, which has 91 bytes.
enum Damage {
    // Only so many bytes come.
    Cut(usize),
    // This byte stands at this place.
    Set(usize, u8),
    // Both.
    SetAndCut(usize, u8, usize),
}

const DAMAGES: [(Damage, StandbyEnd); 23] = [
    (Damage::Cut(1), StandbyEnd::BadFrame),
    (Damage::Cut(8), StandbyEnd::BadFrame),
    (Damage::Cut(9), StandbyEnd::BadFrame),
    (Damage::Cut(40), StandbyEnd::BadFrame),
    (Damage::Cut(72), StandbyEnd::BadFrame),
    (Damage::Cut(73), StandbyEnd::BadFrame),
    (Damage::Cut(75), StandbyEnd::BadFrame),
    (Damage::Cut(84), StandbyEnd::BadFrame),
    (Damage::Cut(86), StandbyEnd::BadFrame),
    (Damage::Cut(90), StandbyEnd::BadFrame),
    (Damage::Set(0, b'X'), StandbyEnd::BadFrame),
    (Damage::Set(7, b'2'), StandbyEnd::BadFrame),
    (Damage::Set(8, 1), StandbyEnd::OtherHeader),
    (Damage::Set(39, 1), StandbyEnd::OtherHeader),
    (Damage::Set(40, 1), StandbyEnd::OtherHeader),
    (Damage::Set(71, 1), StandbyEnd::OtherHeader),
    (Damage::Set(72, 0), StandbyEnd::BadFrame),
    (Damage::Set(72, 33), StandbyEnd::BadFrame),
    (Damage::Set(73, 255), StandbyEnd::BadFrame),
    (Damage::Set(84, 0), StandbyEnd::BadFrame),
    (Damage::Set(84, 6), StandbyEnd::BadFrame),
    (Damage::Set(85, 17), StandbyEnd::BadFrame),
    (Damage::SetAndCut(8, 1, 20), StandbyEnd::OtherHeader),
];

// The frame of a record of `eve` with the text `p(a)`.
fn frame(alloc: Global, number: u64) -> Result<Vec<u8>, AllocError> {
    let mut room = FrameRoom::new();
    room.fill(&HEADER, "eve", number, 2, b"p(a)");
    room.bytes().to_vec(alloc)
}

fn damaged(alloc: Global, damage: &Damage) -> Result<Vec<u8>, AllocError> {
    let mut bytes = frame(alloc, 0)?;
    match damage {
        Damage::Cut(length) => bytes.truncate(*length),
        Damage::Set(at, byte) => set(&mut bytes, *at, *byte),
        Damage::SetAndCut(at, byte, length) => {
            set(&mut bytes, *at, *byte);
            bytes.truncate(*length);
        }
    }
    Ok(bytes)
}

// Sets one byte.
fn set(bytes: &mut [u8], place: usize, byte: u8) {
    if let Some(changed) = bytes.get_mut(place) {
        *changed = byte;
    }
}

// An empty journal.
fn journal(alloc: Global) -> Result<Journal<MemoryDisk>, OpenError> {
    let disk = MemoryDisk::new(alloc, Vec::new(alloc))?;
    match create(alloc, disk, &HEADER) {
        Ok(journal) => Ok(journal),
        Err(refused) => Err(OpenError::from(refused.why)),
    }
}

// A book with an empty journal of this user.
fn book_of(alloc: Global, name: &str) -> Result<StandbyBook<MemoryDisk>, Fail> {
    let name = String::from_str(alloc, name)?;
    let journal = journal(alloc)?;
    let count = journal.count();
    let mut journals = Vec::new(alloc);
    journals.push(Held {
        name,
        journal,
        count,
    })?;
    Ok(StandbyBook::new(journals))
}

// Serves a book to a primary who sends these bytes: how it ends, and what is answered.
fn served(
    rt: &impl Wait,
    alloc: Global,
    book: &mut StandbyBook<MemoryDisk>,
    bytes: Vec<u8>,
) -> (StandbyEnd, MemorySink) {
    let mut source = MemorySource::new(bytes);
    let mut sink = MemorySink::new(alloc);
    let end = serve_standby(rt, book, &HEADER, &mut source, &mut sink);
    (end, sink)
}

// Serves it so, and checks how it ends, and that nothing is answered.
fn check_refused<R: Wait + Abort>(
    rt: &R,
    alloc: Global,
    book: &mut StandbyBook<MemoryDisk>,
    bytes: Vec<u8>,
    want: StandbyEnd,
) {
    let (end, sink) = served(rt, alloc, book, bytes);
    assert_eq!(rt; end, want);
    checks::bytes(rt, "answers", sink.bytes(), &[]);
}

#[test]
fn bad_frames_are_refused_without_an_answer(rt: HostRuntime) -> Result<(), Fail> {
    let alloc = rt.alloc();
    let mut book = book_of(alloc, "eve")?;
    for (damage, want) in &DAMAGES {
        check_refused(&rt, alloc, &mut book, damaged(alloc, damage)?, *want);
    }
    Ok(())
}

// The frame of the first record, again, of one too early, and of the second.
fn four_frames(alloc: Global) -> Result<Vec<u8>, AllocError> {
    let mut bytes = Vec::new(alloc);
    for number in [0, 0, 2, 1] {
        bytes.extend_from_slice(&frame(alloc, number)?)?;
    }
    Ok(bytes)
}

#[test]
fn records_are_taken_in_their_order(rt: HostRuntime) -> Result<(), Fail> {
    let alloc = rt.alloc();
    let mut book = book_of(alloc, "eve")?;
    let (end, sink) = served(&rt, alloc, &mut book, four_frames(alloc)?);
    assert_eq!(rt; end, StandbyEnd::InputEnd);
    let lasts = [7, 15, 23, 31].map(|place| sink.bytes().get(place).copied());
    assert_eq!(rt; lasts, [Some(1), Some(1), Some(1), Some(2)]);
    checks::count(&rt, "answered", sink.bytes().len(), 32);
    check_closed(&rt, book);
    Ok(())
}

// Checks that a book has a journal of two records.
fn check_closed(rt: &impl Abort, book: StandbyBook<MemoryDisk>) {
    let held = book.close().pop().expect(rt, "a journal");
    assert_eq!(rt; held.count, 2);
    // The header, two records of eight bytes with their gates in front, and the closed gate.
    checks::count(rt, "bytes", held.journal.close().bytes().len(), 89);
}

#[test]
fn a_user_who_is_not_there_is_unknown(rt: HostRuntime) -> Result<(), Fail> {
    let alloc = rt.alloc();
    let mut book = book_of(alloc, "bob")?;
    let unknown = StandbyEnd::Take(TakeError::UnknownName);
    check_refused(&rt, alloc, &mut book, frame(alloc, 0)?, unknown);
    Ok(())
}
