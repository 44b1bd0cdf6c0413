//! A file is read from its source line by line, to its end or to the first line that is refused.
//!
//! It isn't a script of `script_lines`: it has ten times the lines, kinds of refusals of its own
//! and something to say at its end, and it isn't read behind a refusal.
ghost use Rattle.std.specs.Prelude.{◌≡◌, ◌≤◌, IsTrue};
ghost use Rattle.outside.specs.Faults.{Rose};
ghost use Rattle.line_protocol.specs.Buffer.{unread};
ghost use Rattle.line_protocol.specs.Rests.{IsRest};
ghost use Rattle.dimacs_text.specs.Dimacs.{finish};
ghost use Rattle.dimacs_text.specs.Reads.{ReadsLine, ReadsFile, IsFinished, is_read_fault};
ghost use Rattle.dimacs_text.specs.Reads.{is_next_fault};

use crate::cnf::Cnf;
use crate::problem::Problem;
use crate::refusal::{DimacsRefusal, LineError, RefusalKind};
use line_protocol::{LineBuffer, LineOutcome, read_line};
use outside::Source;
use std::alloc::Global;

/// A file has at most so many lines.
const LINES: u32 = 1_000_000;

/// What came of reading a file.
#[derive(Drop)]
pub enum Reading {
    /// The source is at its end, and these are the clauses.
    Whole(Cnf),
    /// The file is refused.
    Refused(DimacsRefusal),
    /// The source failed.
    Fault,
    /// Memory was wanting.
    Memory,
}

/// What came of reading the next line.
#[derive(Clone, Copy, Debug, PartialEq, Eq)]
pub enum NextLine {
    Line,
    End,
    Refused(RefusalKind),
    Fault,
}

/// Reads the next line, which has this number. It is refused where it is too long or one too many.
fn next_line<S: Source>(source: &mut S, buffer: &mut LineBuffer, number: u32) -> NextLine
    ensures reads { S.tells → ReadsLine number result
        (unread buffer.old (S.left source.old))
        (unread buffer.new (S.left source.new)) buffer.new.line }
    ensures left { S.tells → IsRest (S.left source.old) (S.left source.new) }
    ensures few { result ≡ NextLine.Line → number ≤ 1000000 }
    ensures held { S.held source.new ≡ S.held source.old }
    ensures later { S.faults source.old ≤ S.faults source.new }
    ensures cause { IsTrue (is_next_fault result)
        → Rose (S.faults source.old) (S.faults source.new) }
{
    match read_line(source, buffer) {
        LineOutcome::Line => {
            if number > LINES {
                NextLine::Refused(RefusalKind::TooMany)
            } else {
                NextLine::Line
            }
        }
        LineOutcome::End => NextLine::End,
        LineOutcome::TooLong => NextLine::Refused(RefusalKind::TooLong),
        LineOutcome::ReadFault => NextLine::Fault,
    }
}

/// Reads a file to its end, or to its first line that is refused.
pub fn read_cnf<S: Source>(alloc: Global, source: &mut S) -> Reading
    ensures reads { S.tells → ReadsFile result (S.left source.old) (S.left source.new) }
    ensures left { S.tells → IsRest (S.left source.old) (S.left source.new) }
    ensures held { S.held source.new ≡ S.held source.old }
    ensures later { S.faults source.old ≤ S.faults source.new }
    ensures cause { IsTrue (is_read_fault result)
        → Rose (S.faults source.old) (S.faults source.new) }
{
    let mut problem = Problem::new(alloc);
    let mut buffer = LineBuffer::new();
    for number in 1..LINES + 2 {
        match next_line(source, &mut buffer, number) {
            NextLine::Line => (),
            NextLine::End => return finished(problem, number),
            NextLine::Refused(kind) => {
                return Reading::Refused(DimacsRefusal { kind, line: number });
            }
            NextLine::Fault => return Reading::Fault,
        }
        match problem.take(alloc, buffer.line()) {
            Ok(()) => (),
            Err(LineError::Refused(kind)) => {
                return Reading::Refused(DimacsRefusal { kind, line: number });
            }
            Err(LineError::Memory) => return Reading::Memory,
        }
    }
    unreachable!()
}

/// What a file says that is over before the line of this number.
fn finished(problem: Problem, number: u32) -> Reading
    ensures { IsFinished (finish number problem problem.header) result }
{
    match problem.finish(number) {
        Ok(cnf) => Reading::Whole(cnf),
        Err(refusal) => Reading::Refused(refusal),
    }
}
