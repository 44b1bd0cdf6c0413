//! Lines out of the pieces that a source gives.
ghost use Rattle.std.specs.Prelude.{◌≡◌, ◌≢◌, ◌==◌, ℕ, ◌+◌, ◌≤◌, List, [], length, take, position};
ghost use Rattle.std.specs.Prelude.{IfOk, IfSome, IfNone, OnErr};
ghost use Rattle.cqe_base.specs.Lines.{without_return};
ghost use Rattle.outside.specs.Faults.{HasCause, Rose};
ghost use Rattle.line_protocol.specs.Buffer.{unread};
ghost use Rattle.line_protocol.specs.Feeds.{HasNoFeedBelow, HasFeedAt};
ghost use Rattle.line_protocol.specs.Reads.{Reads};
ghost use Rattle.line_protocol.specs.Rests.{IsRest};

use outside::{Failed, Source};
use std::marker::Model;

/// The most bytes that a line has, a dropped carriage return among them.
const LINE: usize = 4096;

// As much as a line that isn't over yet and a piece as long.
const ROOM: usize = 8192;

/// What came of reading a line.
#[derive(Clone, Copy, Debug, PartialEq, Eq)]
pub enum LineOutcome {
    /// The buffer has the next line.
    Line,
    /// The input is over.
    End,
    /// More than 4,096 bytes come before the next line feed, or before the end of the input.
    TooLong,
    /// The source failed. What came before is kept, and the next call goes on from there.
    ReadFault,
}

/// Room for one line, and for what came with it of the lines behind it. It has a fixed size.
#[derive(Drop)]
pub struct LineBuffer {
    bytes: [u8; ROOM],
    line_start: usize,
    line_end: usize,
    start: usize,
    end: usize,
}

impl Model for LineBuffer {
    ghost use Rattle.std.specs.Prelude.{◌+◌, ◌≤◌};
    ghost use Rattle.std.specs.List.{between};
    ghost use Rattle.line_protocol.specs.Buffer.{BufferedLine};

    ghost Value = { BufferedLine };

    ghost view = { λ b. record {
      line = between b.line_start b.line_end b.bytes;
      ahead = between b.start b.end b.bytes;
    } };

    ghost invariant = { λ b.
        (b.line_start ≤ b.line_end) × (b.line_end ≤ b.line_start + 4096) × (b.line_end ≤ 8192)
        × (b.start ≤ b.end) × (b.end ≤ 8192) };
}

impl LineBuffer {
    /// A buffer without a line, before anything was read.
    pub fn new() -> Self
        ensures line { result.line ≡ [] }
        ensures ahead { result.ahead ≡ [] }
    {
        LineBuffer {
            bytes: [0; ROOM],
            line_start: 0,
            line_end: 0,
            start: 0,
            end: 0,
        }
    }

    /// The line that was read last, without its end. It is empty where the last outcome wasn't
    /// `Line`.
    pub fn line(&self) -> &[u8]
        ensures line { result.now ≡ self.now.line }
        ensures short { length result.now ≤ 4096 }
    {
        &self.bytes[self.line_start..self.line_end]
    }

    // The bytes behind the line.
    fn ahead(&self) -> &[u8]
        ensures ahead { result.now ≡ self.now.ahead }
        ensures room { length result.now ≤ 8192 }
    {
        &self.bytes[self.start..self.end]
    }

    fn forget_line(&mut self)
        ensures line { self.new.line ≡ [] }
        ensures ahead { self.new.ahead ≡ self.old.ahead }
    {
        self.line_end = self.line_start;
    }

    // Where the first line feed stands; so many bytes in front are known to have none.
    fn line_feed(&self, from: usize) -> Option<usize>
        requires within { from ≤ length self.now.ahead }
        requires earlier { HasNoFeedBelow from self.now.ahead }
        ensures found { IfSome result (λ at. HasFeedAt at self.now.ahead) }
        ensures none { IfNone result (HasNoFeedBelow (length self.now.ahead) self.now.ahead) }
    {
        let place = line_feed_in(&self.ahead()[from..])?;
        Some(from + place)
    }

    // Takes the first line off, which ends with the line feed of this place, unless it is too long.
    fn first_line(&mut self, at: usize) -> LineOutcome
        requires feed { HasFeedAt at self.old.ahead }
        requires no_line { self.old.line ≡ [] }
        ensures reads { (left : List ℕ) →
            Reads result (unread self.old left) (unread self.new left) self.new.line }
        ensures faultless { result ≢ LineOutcome.ReadFault }
    {
        if at > LINE {
            return LineOutcome::TooLong;
        }
        let length = content_length(&self.ahead()[..at]);
        self.line_start = self.start;
        self.line_end = self.start + length;
        self.start += at + 1;
        LineOutcome::Line
    }

    // Takes all bytes as the last line, if there are any.
    fn last_line(&mut self) -> LineOutcome
        requires no_feed { HasNoFeedBelow (length self.old.ahead) self.old.ahead }
        requires fits { length self.old.ahead ≤ 4096 }
        requires no_line { self.old.line ≡ [] }
        ensures reads { Reads result (unread self.old []) (unread self.new []) self.new.line }
        ensures faultless { result ≢ LineOutcome.ReadFault }
    {
        if self.start == self.end {
            return LineOutcome::End;
        }
        self.line_start = self.start;
        self.line_end = self.end;
        self.start = self.end;
        LineOutcome::Line
    }

    // Takes a piece from the source, behind the bytes that are there.
    fn fill<S: Source>(&mut self, source: &mut S) -> Result<usize, Failed>
        requires room { length self.old.ahead ≤ 4096 }
        ensures line { self.new.line ≡ [] }
        ensures more { IfOk result (λ n. length self.new.ahead ≡ length self.old.ahead + n) }
        ensures behind { IfOk result
            (λ n. self.old.ahead ≡ take (length self.old.ahead) self.new.ahead) }
        ensures same { OnErr result (self.new.ahead ≡ self.old.ahead) }
        ensures unread { S.tells →
            unread self.new (S.left source.new) ≡ unread self.old (S.left source.old) }
        ensures left { S.tells → IsRest (S.left source.old) (S.left source.new) }
        ensures end { S.tells → IfOk result (λ n. n ≡ 0 → S.left source.old ≡ []) }
        ensures held { S.held source.new ≡ S.held source.old }
        ensures cause { HasCause (S.faults source.old) (S.faults source.new) result }
    {
        self.bytes.copy_within(self.start..self.end, 0);
        self.line_end = self.line_start;
        self.end -= self.start;
        self.start = 0;
        let count = source.take(&mut self.bytes[self.end..])?;
        self.end += count;
        Ok(count)
    }
}

fn line_feed_in(bytes: &[u8]) -> Option<usize>
    ensures { result ≡ position (λ b. b == 10) bytes.now }
{
    bytes.iter().position(|byte| *byte == b'\n')
}

// How many bytes are left without a carriage return at the end.
fn content_length(bytes: &[u8]) -> usize
    ensures content { take result bytes.now ≡ without_return bytes.now }
    ensures short { result ≤ length bytes.now }
{
    let Some(last) = bytes.last() else {
        return 0;
    };
    if *last == b'\r' {
        bytes.len() - 1
    } else {
        bytes.len()
    }
}

/// Reads the next line into the buffer. Lines end with a line feed; a carriage return before that
/// is dropped, and a rest without a line feed is a line unless it is empty. Give a source the same
/// buffer each time, since the buffer has what was taken of the lines behind.
pub fn read_line<S: Source>(source: &mut S, buffer: &mut LineBuffer) -> LineOutcome
    ensures reads { S.tells → Reads result
        (unread buffer.old (S.left source.old))
        (unread buffer.new (S.left source.new)) buffer.new.line }
    ensures left { S.tells → IsRest (S.left source.old) (S.left source.new) }
    ensures held { S.held source.new ≡ S.held source.old }
    ensures later { S.faults source.old ≤ S.faults source.new }
    ensures cause { result ≡ LineOutcome.ReadFault
        → Rose (S.faults source.old) (S.faults source.new) }
{
    buffer.forget_line();
    let mut searched = 0;
    loop {
        if let Some(at) = buffer.line_feed(searched) {
            return buffer.first_line(at);
        }
        searched = buffer.ahead().len();
        if searched > LINE {
            return LineOutcome::TooLong;
        }
        match buffer.fill(source) {
            Ok(0) => return buffer.last_line(),
            Ok(_) => (),
            Err(Failed) => return LineOutcome::ReadFault,
        }
    }
}
