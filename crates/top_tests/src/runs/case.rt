//! Runs of `case` in each of which one call of the source, the output or the complaints fails.
use super::failing::CALLS;
use super::{Stage, failing_sink, failing_source, front, holds};
use outside::{MemorySink, Pieces, Plan};
use std::alloc::{AllocError, Global};
use std::process::Abort;
use std::sync::Wait;
use std::test::Fail;
use std::thread::Threads;

// Two persons, of whom ann takes a drug and has hiv. Who takes the drug has hiv, and a lying censor
// guards ann.
const SCRIPT: &str = "domain person = ann, bob
relation hiv(person)
relation drug(person)
fact hiv(ann)
fact drug(ann)
know drug(ann) -> hiv(ann)
know drug(bob) -> hiv(bob)
method lying
secret hiv(ann)
ask drug(ann)
ask hiv(ann)
ask hiv(bob)
";

const REPLIES: &str = "no\nno\nno\n";

// The source fails at each of its calls, then the sink at each of its own, by bytes and by lines.
#[test]
fn a_stream_may_fail_at_any_call(rt: HostRuntime) -> Result<(), Fail> {
    let alloc = rt.alloc();
    for call in 0..CALLS {
        a_read_fails(&rt, alloc, call)?;
        a_write_fails(&rt, alloc, call)?;
    }
    the_second_line_fails(&rt, alloc)?;
    Ok(())
}

fn a_read_fails(
    rt: &(impl Threads + Wait + Sync + Abort),
    alloc: Global,
    call: u64,
) -> Result<(), AllocError> {
    let source = failing_source(alloc, SCRIPT, 7, call)?;
    let mut stage = Stage::new(alloc, Plan::Never);
    stage.run_from(rt, alloc, &["case"], source)?;
    if stage.source.faults() == 0 {
        stage.check(rt, 0, REPLIES, "", "no read failed");
    } else {
        stage.check(rt, 6, "", "cqe: read fault\n", "a read failed");
    }
    holds(rt, call > 0 || stage.status == 6, "the first read fails");
    Ok(())
}

fn a_write_fails(
    rt: &(impl Threads + Wait + Sync + Abort),
    alloc: Global,
    call: u64,
) -> Result<(), AllocError> {
    let sink = failing_sink(alloc, call)?;
    let mut stage = Stage::new(alloc, Plan::Never);
    stage.run_into(rt, alloc, &["case"], SCRIPT, sink)?;
    if call < 9 {
        let part = front(REPLIES, call);
        stage.check(rt, 7, part, "cqe: write fault\n", "a write failed");
    } else {
        stage.check(rt, 0, REPLIES, "", "no write failed");
    }
    Ok(())
}

fn the_second_line_fails(
    rt: &(impl Threads + Wait + Sync + Abort),
    alloc: Global,
) -> Result<(), AllocError> {
    let sink = MemorySink::with_plan(alloc, Pieces::Whole, super::failing_at(alloc, 1)?);
    let mut stage = Stage::new(alloc, Plan::Never);
    stage.run_into(rt, alloc, &["case"], SCRIPT, sink)?;
    stage.check(
        rt,
        7,
        "no\n",
        "cqe: write fault\n",
        "the second line failed",
    );
    Ok(())
}

// The words, the script, the status, what is complained of in pieces of eight bytes, and the call
// of the complaints from which on each fails.
const TRIALS: [(&[&str], &str, u8, &str, u64); 4] = [
    (&["case"], "fact hiv(ann)\n", 5, "", 0),
    (&["case"], "fact hiv(ann)\n", 5, "cqe: scr", 1),
    (&[], "", 2, "cqe: usa", 1),
    (&["case"], "", 0, "", 0),
];

#[test]
fn failing_complaints_change_nothing_else(rt: HostRuntime) -> Result<(), Fail> {
    let alloc = rt.alloc();
    for (words, script, status, complaint, first) in TRIALS {
        let complaints = MemorySink::with_plan(alloc, Pieces::UpTo(8), Plan::From(first));
        let mut stage = Stage::new(alloc, Plan::Never);
        stage.run_complaining(&rt, alloc, words, script, complaints)?;
        stage.check(&rt, status, "", complaint, "complaints fail");
    }
    Ok(())
}
