//! A script is read from its source to its end, and checked line by line.

ghost use Rattle.std.specs.Prelude.{◌≡◌, ◌≤◌, ◌+◌, ◌^◌, ◌<◌, IsTrue};
ghost use Rattle.outside.specs.Faults.{Rose};
ghost use Rattle.line_protocol.specs.Buffer.{unread};
ghost use Rattle.line_protocol.specs.Rests.{IsRest};
ghost use Rattle.script_lines.specs.Read.{ReadsLine, ReadsScript, ReadsRest, is_read_fault};
ghost use Rattle.script_lines.specs.Read.{is_next_fault};

use crate::{LineError, Script};
use cqe_base::text::{ScriptError, ScriptKind};
use line_protocol::{LineBuffer, LineOutcome, read_line};
use outside::Source;
use std::alloc::Global;

/// A script has at most so many lines.
const LINES: u32 = 100_000;

/// What came of reading a script.
#[derive(Drop)]
pub enum Reading<T> {
    /// The source is at its end, and this is the script.
    Whole(T),
    /// The script is refused.
    Refused(ScriptError),
    /// The source failed.
    Fault,
    /// Memory was wanting.
    Memory,
}

/// What came of reading the next line of a script.
#[derive(Clone, Copy, Debug, PartialEq, Eq)]
pub enum NextLine {
    Line,
    End,
    Refused(ScriptKind),
    Fault,
}

/// Reads the next line, which has this number. It is refused where it is too long or one too many.
fn next_line<S: Source>(source: &mut S, buffer: &mut LineBuffer, number: u32) -> NextLine
    ensures reads { S.tells
        → ReadsLine number result (unread buffer.old (S.left source.old))
        (unread buffer.new (S.left source.new)) buffer.new.line }
    ensures left { S.tells → IsRest (S.left source.old) (S.left source.new) }
    ensures few { result ≡ NextLine.Line → number ≤ 100000 }
    ensures held { S.held source.new ≡ S.held source.old }
    ensures later { S.faults source.old ≤ S.faults source.new }
    ensures cause { IsTrue (is_next_fault result)
        → Rose (S.faults source.old) (S.faults source.new) }
{
    match read_line(source, buffer) {
        LineOutcome::Line => {
            if number > LINES {
                NextLine::Refused(ScriptKind::TooMany)
            } else {
                NextLine::Line
            }
        }
        LineOutcome::End => NextLine::End,
        LineOutcome::TooLong => NextLine::Refused(ScriptKind::TooLong),
        LineOutcome::ReadFault => NextLine::Fault,
    }
}

/// Reads on behind a line that is refused, to the end, or to a line that is too long or one too
/// many.
fn pass_rest<S: Source, T: Drop>(
    source: &mut S,
    buffer: &mut LineBuffer,
    number: u32,
    error: ScriptError,
) -> Reading<T>
    requires { number ≤ 100001 }
    ensures rest { S.tells
        → ReadsRest number error result (unread buffer.old (S.left source.old))
        (S.left source.new) }
    ensures left { S.tells → IsRest (S.left source.old) (S.left source.new) }
    ensures held { S.held source.new ≡ S.held source.old }
    ensures later { S.faults source.old ≤ S.faults source.new }
    ensures cause { IsTrue (is_read_fault result)
        → Rose (S.faults source.old) (S.faults source.new) }
{
    for next in number..LINES + 2 {
        match next_line(source, buffer, next) {
            NextLine::Line => (),
            NextLine::Fault => return Reading::Fault,
            NextLine::End | NextLine::Refused(_) => return Reading::Refused(error),
        }
    }
    Reading::Refused(error)
}

/// Reads a script whole, from a beginning on. It is refused at the first line that is, after the
/// source was read to its end, or to a line that is too long or one too many.
pub fn read_script<S: Source, T: Script + Drop>(
    alloc: Global,
    source: &mut S,
    start: T,
) -> Reading<T>
    ensures reads { S.tells
        → ReadsScript T.step T.said (T.said start) result (S.left source.old) (S.left source.new) }
    ensures left { S.tells → IsRest (S.left source.old) (S.left source.new) }
    ensures held { S.held source.new ≡ S.held source.old }
    ensures later { S.faults source.old ≤ S.faults source.new }
    ensures cause { IsTrue (is_read_fault result)
        → Rose (S.faults source.old) (S.faults source.new) }
{
    let mut script = start;
    let mut buffer = LineBuffer::new();
    for number in 1..LINES + 2 {
        match next_line(source, &mut buffer, number) {
            NextLine::Line => (),
            NextLine::End => return Reading::Whole(script),
            NextLine::Refused(kind) => {
                return Reading::Refused(ScriptError { kind, line: number });
            }
            NextLine::Fault => return Reading::Fault,
        }
        match script.take(alloc, buffer.line()) {
            Ok(()) => (),
            Err(LineError::Refused(kind)) => {
                let error = ScriptError { kind, line: number };
                return pass_rest(source, &mut buffer, number + 1, error);
            }
            Err(LineError::Memory) => return Reading::Memory,
        }
    }
    unreachable!()
}
