//! The program `dimacs`: it makes the real streams, answers the clauses of its input, and ends with
//! the solvers' statuses.
//!
//! It shows the search machine alone, in the format of other solvers: a model, a refutation that
//! others can check, or that the budget was spent, and always the cost. What it promises is the
//! contract of `answer_input` in `dimacs_text`; this crate adds nothing to it. `docs/FORMATS.md`
//! has the input, the output and the statuses.
//!
//! Its stored run is a refutation in LRAT; models, refutations and spent budgets are scenes of
//! `rehearsals`. Read `answer_input` first.
#![tactic(auto)]

use dimacs_text::answer_input;
use real_edge::{StreamSink, StreamSource};
use std::process::ExitCode;

fn main(rt: HostRuntime) -> ExitCode {
    let mut source = StreamSource::new(rt.stdin());
    let mut sink = StreamSink::new(rt.stdout());
    let mut complaints = StreamSink::new(rt.stderr());
    let ending = answer_input(rt.alloc(), &mut source, &mut sink, &mut complaints);
    ExitCode::from(ending.status())
}
