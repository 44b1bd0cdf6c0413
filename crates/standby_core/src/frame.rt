//! The frame by which a record goes to a standby, made at one end and read at the other.
ghost use Rattle.std.specs.Prelude.{◌≡◌, ◌+◌, ◌<◌, ◌≤◌, [], ◌++◌, length, take, drop, IfOk, OnErr};
ghost use Rattle.std.specs.Int.{w16, w64, to_be_bytes, from_be_bytes};
ghost use Rattle.outside.specs.Faults.{HasCause, Rose};
ghost use Rattle.standby_core.specs.Frames.{Carried, frame_mark, frame_bytes, tail_bytes, agree};
ghost use Rattle.standby_core.specs.Frames.{IsFrame, EndsWithinFrame, GoesOn};
ghost use Rattle.standby_core.specs.Frames.{Shows, ShowsTail, Reads};
ghost use Rattle.standby_core.specs.Frames.{end_behind};

use log_journal::Header;
use outside::{Failed, Source};
use std::marker::Model;

// The longest frame.
const FRAME: usize = 4212;

// The first bytes, both digests, and the length of the name.
const HEAD: usize = 73;

// The number, the kind and the length of the text.
const FIELDS: usize = 11;

// The longest name, the greatest kind, and the longest text.
const NAME: usize = 32;

const KINDS: u8 = 5;

const TEXT: usize = 4096;

/// Room for one frame. It has a fixed size.
#[derive(Drop)]
pub struct FrameRoom {
    bytes: [u8; FRAME],
    length: usize,
}

impl Model for FrameRoom {
    ghost use Rattle.std.specs.Prelude.{ℕ, ◌≤◌, List, take};

    ghost Value = { List ℕ };

    ghost view = { λ r. take r.length r.bytes };

    ghost invariant = { λ r. r.length ≤ 4212 };
}

impl FrameRoom {
    /// An empty room.
    pub fn new() -> Self
        ensures { result ≡ [] }
    {
        FrameRoom {
            bytes: [0; FRAME],
            length: 0,
        }
    }

    /// The bytes that it has.
    pub fn bytes(&self) -> &[u8]
        ensures { result.now ≡ self.now }
    {
        &self.bytes[..self.length]
    }

    fn clear(&mut self)
        ensures { self.new ≡ [] }
    {
        self.length = 0;
    }

    fn push(&mut self, bytes: &[u8])
        requires { length self.old + length bytes.now ≤ 4212 }
        ensures added { self.new ≡ self.old ++ bytes.now }
        ensures size { length self.new ≡ length self.old + length bytes.now }
    {
        let end = self.length + bytes.len();
        self.bytes[self.length..end].copy_from_slice(bytes);
        self.length = end;
    }

    /// Makes the frame of a record.
    pub fn fill(&mut self, header: &Header, name: &str, number: u64, kind: u8, text: &[u8])
        requires named { length name.now ≤ 32 }
        requires short { length text.now ≤ 4096 }
        ensures { self.new ≡ frame_bytes header.now (record {
          name = name.now;
          number = number;
          kind = kind;
          text = text.now;
        }) }
    {
        self.clear();
        self.push(b"CQEMIRR1");
        self.push(&header.policy);
        self.push(&header.facts);
        self.push(&[name.len() as u8]);
        self.push(name.as_bytes());
        self.push(&number.to_be_bytes());
        self.push(&[kind]);
        self.push(&(text.len() as u16).to_be_bytes());
        self.push(text);
    }

    // Takes bytes from the source behind those that are there, up to so many in all.
    fn take_up_to<S: Source>(&mut self, source: &mut S, size: usize) -> Result<usize, Failed>
        requires more { length self.old < size }
        requires fits { size ≤ 4212 }
        ensures more { IfOk result (λ n. length self.new ≡ length self.old + n) }
        ensures size { IfOk result (λ n. length self.new ≤ size) }
        ensures front { IfOk result (λ n. take (length self.old) self.new ≡ self.old) }
        ensures moved { S.tells → IfOk result
            (λ n. self.old ++ S.left source.old ≡ self.new ++ S.left source.new) }
        ensures end { S.tells → IfOk result (λ n. n ≡ 0 → S.left source.old ≡ []) }
        ensures same { OnErr result (self.new ≡ self.old) }
        ensures held { S.held source.new ≡ S.held source.old }
        ensures cause { HasCause (S.faults source.old) (S.faults source.new) result }
    {
        let count = source.take(&mut self.bytes[self.length..size])?;
        self.length += count;
        Ok(count)
    }
}

/// A record as a frame carries it.
#[derive(Clone, Copy, Debug, PartialEq, Eq)]
pub struct Frame<'a> {
    pub name: &'a str,
    pub number: u64,
    pub kind: u8,
    pub text: &'a [u8],
}

/// What the first bytes of a frame show.
#[derive(Clone, Copy, Debug, PartialEq, Eq)]
pub enum Judged<'a> {
    /// They are a whole frame.
    Frame(Frame<'a>),
    /// The frame has at least so many bytes, more than there are.
    Short(usize),
    /// A field is outside of its range.
    Bad,
    /// A digest differs.
    Other,
}

/// Looks at the first bytes of a frame, which are no more than it has. Of what refuses it the bytes
/// show the first.
pub fn judge<'a>(header: &Header, bytes: &'a [u8]) -> Judged<'a>
    requires { EndsWithinFrame header.now bytes.now }
    ensures { Shows header.now bytes.now result }
{
    if !is_marked(bytes) {
        return Judged::Bad;
    }
    if !has_header(bytes, header) {
        return Judged::Other;
    }
    let length = bytes.len();
    if length < HEAD {
        return Judged::Short(HEAD);
    }
    judge_fields(&bytes[HEAD..], bytes[HEAD - 1] as usize)
}

// Whether the bytes begin as a frame does, as far as they go.
fn is_marked(bytes: &[u8]) -> bool
    ensures { result ≡ agree bytes.now frame_mark }
{
    agrees(bytes, b"CQEMIRR1")
}

// Whether both digests stand behind that, as far as the bytes go.
fn has_header(bytes: &[u8], header: &Header) -> bool
    ensures same { result ≡ agree (drop 8 bytes.now) (header.now.policy ++ header.now.facts) }
    ensures policy { length header.now.policy ≡ 32 }
    ensures facts { length header.now.facts ≡ 32 }
{
    let has_policy = agrees(behind(bytes, 8), &header.policy);
    let has_facts = agrees(behind(bytes, 40), &header.facts);
    has_policy && has_facts
}

// What stands behind so many bytes, or nothing.
fn behind(bytes: &[u8], count: usize) -> &[u8]
    ensures { result.now ≡ drop count bytes.now }
{
    let place = count.min(bytes.len());
    &bytes[place..]
}

// The same of a frame whose header is right, by what follows the length of the name.
fn judge_fields(bytes: &[u8], named: usize) -> Judged<'_>
    requires { (one : Carried) → GoesOn named bytes.now one
        → length bytes.now ≤ length (tail_bytes one) }
    ensures { ShowsTail named bytes.now result }
{
    if named < 1 {
        return Judged::Bad;
    }
    if named > NAME {
        return Judged::Bad;
    }
    let start = named + FIELDS;
    let length = bytes.len();
    if length < start {
        return Judged::Short(HEAD + start);
    }
    let (name, rest) = bytes.split_at(named);
    let (fields, text) = rest.split_at(FIELDS);
    judge_record(name, fields, text)
}

// The same of a name with the fields behind it, and as much of the text as there is.
fn judge_record<'a>(name: &'a [u8], fields: &[u8], text: &'a [u8]) -> Judged<'a>
    requires some { 1 ≤ length name.now }
    requires few { length name.now ≤ 32 }
    requires fields { length fields.now ≡ 11 }
    requires within { (one : Carried)
        → GoesOn (length name.now) (name.now ++ (fields.now ++ text.now)) one
        → length name.now + 11 + length text.now ≤ length (tail_bytes one) }
    ensures { ShowsTail (length name.now) (name.now ++ (fields.now ++ text.now)) result }
{
    let number = number_in(&fields[..8]);
    let kind = fields[8];
    let size = size_in(&fields[9..]) as usize;
    let length = text.len();
    let named = name.len();
    let Ok(user) = str::from_utf8(name) else {
        return Judged::Bad;
    };
    if kind < 1 {
        return Judged::Bad;
    }
    if kind > KINDS {
        return Judged::Bad;
    }
    if size > TEXT {
        return Judged::Bad;
    }
    if length > size {
        return Judged::Bad;
    }
    if length < size {
        return Judged::Short(HEAD + named + FIELDS + size);
    }
    Judged::Frame(Frame {
        name: user,
        number,
        kind,
        text,
    })
}

// The number that eight bytes are.
fn number_in(bytes: &[u8]) -> u64
    requires { length bytes.now ≡ 8 }
    ensures { to_be_bytes w64 result ≡ bytes.now }
{
    let mut array = [0; 8];
    array.copy_from_slice(bytes);
    u64::from_be_bytes(array)
}

// The length that two bytes are.
fn size_in(bytes: &[u8]) -> u16
    requires { length bytes.now ≡ 2 }
    ensures bytes { to_be_bytes w16 result ≡ bytes.now }
    ensures size { result ≡ from_be_bytes w16 bytes.now }
{
    let mut array = [0; 2];
    array.copy_from_slice(bytes);
    u16::from_be_bytes(array)
}

// Whether two lists are the same as far as both go.
fn agrees(first: &[u8], second: &[u8]) -> bool
    ensures { result ≡ agree first.now second.now }
{
    match first {
        [] => true,
        [one, first @ ..] => match second {
            [] => true,
            [other, second @ ..] => *one == *other && agrees(first, second),
        },
    }
}

/// What came of reading a frame.
#[derive(Clone, Copy, Debug, PartialEq, Eq)]
pub enum FrameOutcome {
    /// The room has the next frame, whole and with the right header.
    Whole,
    /// The input is over, between two frames.
    InputEnd,
    /// The input ends inside a frame, or a field of it is outside of its range.
    BadFrame,
    /// A digest of the frame differs.
    OtherHeader,
    /// The source failed.
    ReadFault,
}

/// Reads the next frame into the room, and nothing behind it. Of what refuses it the bytes show the
/// first.
pub fn read_frame<S: Source>(source: &mut S, header: &Header, room: &mut FrameRoom) -> FrameOutcome
    ensures reads { S.tells
        → Reads result header.now (S.left source.old) (S.left source.new) room.new }
    ensures frame { result ≡ FrameOutcome.Whole
        → (one : Carried) × IsFrame header.now room.new one }
    ensures held { S.held source.new ≡ S.held source.old }
    ensures later { S.faults source.old ≤ S.faults source.new }
    ensures cause { result ≡ FrameOutcome.ReadFault
        → Rose (S.faults source.old) (S.faults source.new) }
{
    room.clear();
    loop {
        let size = match judge(header, room.bytes()) {
            Judged::Frame(_) => return FrameOutcome::Whole,
            Judged::Short(size) => size,
            Judged::Bad => return FrameOutcome::BadFrame,
            Judged::Other => return FrameOutcome::OtherHeader,
        };
        let count = match room.take_up_to(source, size) {
            Ok(count) => count,
            Err(Failed) => return FrameOutcome::ReadFault,
        };
        if count == 0 {
            return end_behind(room);
        }
    }
}

// How the input ends behind what is in the room.
fn end_behind(room: &FrameRoom) -> FrameOutcome
    ensures { result ≡ end_behind room.now }
{
    let length = room.bytes().len();
    if length == 0 {
        return FrameOutcome::InputEnd;
    }
    FrameOutcome::BadFrame
}
