//! A case from its first byte to its last line.

ghost use Rattle.std.specs.Prelude.{◌≡◌, ◌≤◌};
ghost use Rattle.outside.specs.Faults.{Rose};
ghost use Rattle.line_protocol.specs.Rests.{IsRest};
ghost use Rattle.case_engine.specs.Case.{EndsCase, IsSilent};

use crate::answering::answer_all;
use crate::script::Script;
use cqe_base::text::ScriptError;
use outside::{Sink, Source};
use script_lines::{Reading, read_script};
use std::alloc::Global;
use std::thread::Threads;

/// How a case ends.
#[derive(Clone, Copy, Debug, PartialEq, Eq)]
pub enum CaseEnd {
    /// Each ask was answered.
    Done,
    /// The script is refused. Nothing was written.
    Script(ScriptError),
    /// A read failed. Nothing was written.
    ReadFault,
    /// A write failed.
    WriteFault,
    /// Memory was wanting where no reply can say so.
    Memory,
}

/// Reads the whole script of a case from the source, refuses it before the first ask, or answers
/// its asks with one line each, which is written before the next is answered.
pub fn run_case<R: Threads + Sync, S: Source, K: Sink>(
    rt: &R,
    alloc: Global,
    source: &mut S,
    sink: &mut K,
) -> CaseEnd
    ensures ends { S.tells → K.tells
        → EndsCase result (S.left source.old) (S.left source.new) (K.written sink.old)
        (K.written sink.new) }
    ensures silent { IsSilent result → sink.new ≡ sink.old }
    ensures left { S.tells → IsRest (S.left source.old) (S.left source.new) }
    ensures held { S.held source.new ≡ S.held source.old }
    ensures source_later { S.faults source.old ≤ S.faults source.new }
    ensures sink_later { K.faults sink.old ≤ K.faults sink.new }
    ensures read_cause { result ≡ CaseEnd.ReadFault
        → Rose (S.faults source.old) (S.faults source.new) }
    ensures write_cause { result ≡ CaseEnd.WriteFault
        → Rose (K.faults sink.old) (K.faults sink.new) }
{
    let Ok(start) = Script::new(alloc) else {
        return CaseEnd::Memory;
    };
    let script = match read_script(alloc, source, start) {
        Reading::Whole(script) => script,
        Reading::Refused(error) => return CaseEnd::Script(error),
        Reading::Fault => return CaseEnd::ReadFault,
        Reading::Memory => return CaseEnd::Memory,
    };
    let Ok(parts) = script.into_parts(alloc) else {
        return CaseEnd::Memory;
    };
    answer_all(rt, alloc, &parts, sink)
}
