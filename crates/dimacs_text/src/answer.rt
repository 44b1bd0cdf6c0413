//! The clauses of a source are searched, and the answer is written to a sink.
ghost use Rattle.std.specs.Prelude.{◌≡◌, ◌≤◌, IfOk, string_bytes};
ghost use Rattle.outside.specs.Streams.{AppendsUnless};
ghost use Rattle.outside.specs.Faults.{Rose};
ghost use Rattle.line_protocol.specs.Rests.{IsRest};
ghost use Rattle.clause_solver.specs.PlainStates.{found_of};
ghost use Rattle.dimacs_text.specs.Ends.{end_of, answer_text, verdict_of, EndsDimacs, complaint_of};

use crate::cnf::Cnf;
use crate::ending::{Ending, Verdict, complain};
use crate::printed::answer_text;
use crate::reading::{Reading, read_cnf};
use clause_solver::Found;
use outside::{Failed, Sink, Source, write_all};
use std::alloc::{AllocError, Global};

/// Reads clauses from the source, searches them within their budget and writes the answer to the
/// sink. What it can't do it says to the complaints; where they fail too, nothing else changes. The
/// format, the answer and the complaints are those of `docs/FORMATS.md`, "DIMACS".
pub fn answer_input<S: Source, K: Sink, E: Sink>(
    alloc: Global,
    source: &mut S,
    sink: &mut K,
    complaints: &mut E,
) -> Ending
    ensures ends { S.tells → K.tells →
        EndsDimacs result (S.left source.old) (S.left source.new) (K.written sink.old)
        (K.written sink.new) }
    ensures complaint { E.tells → AppendsUnless (complaint_of result)
        (E.written complaints.old) (E.written complaints.new)
        (Rose (E.faults complaints.old) (E.faults complaints.new)) }
    ensures read_cause { result ≡ Ending.ReadFault
        → Rose (S.faults source.old) (S.faults source.new) }
    ensures write_cause { result ≡ Ending.WriteFault
        → Rose (K.faults sink.old) (K.faults sink.new) }
    ensures left { S.tells → IsRest (S.left source.old) (S.left source.new) }
    ensures held { S.held source.new ≡ S.held source.old }
    ensures source_later { S.faults source.old ≤ S.faults source.new }
    ensures sink_later { K.faults sink.old ≤ K.faults sink.new }
    ensures complaints_later { E.faults complaints.old ≤ E.faults complaints.new }
{
    let ending = answer(alloc, source, sink);
    complain(complaints, ending);
    ending
}

// The same without the complaint.
fn answer<S: Source, K: Sink>(alloc: Global, source: &mut S, sink: &mut K) -> Ending
    ensures ends { S.tells → K.tells →
        EndsDimacs result (S.left source.old) (S.left source.new) (K.written sink.old)
        (K.written sink.new) }
    ensures read_cause { result ≡ Ending.ReadFault
        → Rose (S.faults source.old) (S.faults source.new) }
    ensures write_cause { result ≡ Ending.WriteFault
        → Rose (K.faults sink.old) (K.faults sink.new) }
    ensures left { S.tells → IsRest (S.left source.old) (S.left source.new) }
    ensures held { S.held source.new ≡ S.held source.old }
    ensures source_later { S.faults source.old ≤ S.faults source.new }
    ensures sink_later { K.faults sink.old ≤ K.faults sink.new }
{
    let cnf = match read_cnf(alloc, source) {
        Reading::Whole(cnf) => cnf,
        Reading::Refused(refusal) => return Ending::Refused(refusal),
        Reading::Fault => return Ending::ReadFault,
        Reading::Memory => return Ending::Memory,
    };
    let Ok((verdict, text)) = searched(alloc, &cnf) else {
        return Ending::Memory;
    };
    match write_all(sink, text.as_bytes()) {
        Ok(()) => Ending::Answered(verdict),
        Err(Failed) => Ending::WriteFault,
    }
}

// Searches clauses within their budget: the verdict, and the text of the answer.
fn searched(alloc: Global, cnf: &Cnf) -> Result<(Verdict, String), AllocError>
    ensures verdict { IfOk result (λ answer. answer.0 ≡ verdict_of (end_of cnf.now)) }
    ensures text { IfOk result (λ answer. string_bytes answer.1 ≡ answer_text cnf.now) }
{
    let searched = cnf.search(alloc)?;
    let text = answer_text(alloc, cnf, &searched)?;
    Ok((verdict_of(&searched.found), text))
}

fn verdict_of(found: &Found) -> Verdict
    ensures { result ≡ verdict_of (found_of found.now) }
{
    match found {
        Found::Model(_) => Verdict::Satisfiable,
        Found::Refuted(_) => Verdict::Unsatisfiable,
        Found::Spent => Verdict::Unknown,
    }
}
