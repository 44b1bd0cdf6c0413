//! How the program ends, and what it says then.
ghost use Rattle.std.specs.Prelude.{◌≡◌, ◌≤◌, ◌++◌, codes, decimal};
ghost use Rattle.outside.specs.Streams.{AppendsUnless};
ghost use Rattle.outside.specs.Faults.{Rose};
ghost use Rattle.dimacs_text.specs.Ends.{status_of, refusal_number, refusal_text, complaint_of};

use crate::refusal::{DimacsRefusal, RefusalKind};
use line_protocol::LineText;
use outside::{Sink, write_all};

/// What was found of the clauses.
#[derive(Clone, Copy, Debug, PartialEq, Eq)]
pub enum Verdict {
    Satisfiable,
    Unsatisfiable,
    /// The budget was spent.
    Unknown,
}

/// How the program ends.
#[derive(Clone, Copy, Debug, PartialEq, Eq)]
pub enum Ending {
    /// The clauses were read and searched, and the answer is written.
    Answered(Verdict),
    /// The file is refused. Nothing was written.
    Refused(DimacsRefusal),
    /// A read failed. Nothing was written.
    ReadFault,
    /// A write failed.
    WriteFault,
    /// Memory was wanting. Nothing was written.
    Memory,
}

impl Ending {
    /// The status with which the program ends, as solvers have it: 10 satisfiable, 20
    /// unsatisfiable, 0 unknown; else 5 refused, 6 read, 7 write, 13 memory.
    pub fn status(self) -> u8
        ensures { result ≡ status_of self }
    {
        match self {
            Ending::Answered(Verdict::Satisfiable) => 10,
            Ending::Answered(Verdict::Unsatisfiable) => 20,
            Ending::Answered(Verdict::Unknown) => 0,
            Ending::Refused(_) => 5,
            Ending::ReadFault => 6,
            Ending::WriteFault => 7,
            Ending::Memory => 13,
        }
    }
}

/// Gives what is said of an ending to a sink. Where that fails nobody is left to be told.
pub(crate) fn complain<E: Sink>(complaints: &mut E, ending: Ending)
    ensures given { E.tells → AppendsUnless (complaint_of ending)
        (E.written complaints.old) (E.written complaints.new)
        (Rose (E.faults complaints.old) (E.faults complaints.new)) }
    ensures later { E.faults complaints.old ≤ E.faults complaints.new }
{
    let text = complaint_of(ending);
    let _given = write_all(complaints, text.bytes());
}

fn complaint_of(ending: Ending) -> LineText
    ensures { result ≡ complaint_of ending }
{
    match ending {
        Ending::Answered(_) => LineText::new(""),
        Ending::Refused(refusal) => refusal_text(refusal),
        Ending::ReadFault => LineText::new("dimacs: read fault\n"),
        Ending::WriteFault => LineText::new("dimacs: write fault\n"),
        Ending::Memory => LineText::new("dimacs: out of memory\n"),
    }
}

fn refusal_text(refusal: DimacsRefusal) -> LineText
    ensures { result ≡ refusal_text refusal }
{
    let mut line = LineText::new("dimacs: refused ");
    line.push_decimal(refusal_number(refusal.kind));
    line.push(" ");
    line.push_decimal(refusal.line);
    line.push("\n");
    line
}

fn refusal_number(kind: RefusalKind) -> u32
    ensures number { result ≡ refusal_number kind }
    ensures digit { result ≤ 8 }
{
    match kind {
        RefusalKind::NotALine => 1,
        RefusalKind::TooLong => 2,
        RefusalKind::TooMany => 3,
        RefusalKind::Order => 4,
        RefusalKind::Limit => 5,
        RefusalKind::Variable => 6,
        RefusalKind::Surplus => 7,
        RefusalKind::Missing => 8,
    }
}
