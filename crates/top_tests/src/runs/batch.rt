//! Runs of `init` and `batch` without journals, over a shelf that fails, and one of `batch` whose
//! output fails.
use super::failing_at;
use super::ward::{BATCH, INIT, files_by, ward};
use outside::{MemorySink, Pieces, Plan};
use std::alloc::{AllocError, Global};
use std::process::Abort;
use std::sync::Wait;
use std::test::Fail;
use std::thread::Threads;

// What `batch` complains of where there is no journal.
const NO_JOURNALS: &str = "cqe: journal eve not a journal
cqe: journal ron not a journal
cqe: journal kim not a journal
cqe: journal lou not a journal
cqe: journal max not a journal
cqe: journal tom not a journal
";

// The calls are the reading of both files, and then the taking of six disks.
#[test]
fn a_shelf_may_fail_at_any_call(rt: HostRuntime) -> Result<(), Fail> {
    let alloc = rt.alloc();
    for call in 0..9 {
        a_shelf_fails(&rt, alloc, &INIT, call, 0, "")?;
        a_shelf_fails(&rt, alloc, &BATCH, call, 10, NO_JOURNALS)?;
    }
    Ok(())
}

// Where the call isn't made, the run ends so.
fn a_shelf_fails(
    rt: &(impl Threads + Wait + Sync + Abort),
    alloc: Global,
    words: &[&str],
    call: u64,
    status: u8,
    complaint: &str,
) -> Result<(), AllocError> {
    let mut stage = files_by(alloc, failing_at(alloc, call)?)?;
    stage.run(rt, alloc, words, "")?;
    if call < 8 {
        stage.check(rt, 9, "", "cqe: shelf fault\n", "a shelf that fails");
    } else {
        stage.check(rt, status, "", complaint, "a shelf that doesn't fail");
    }
    Ok(())
}

#[test]
fn what_a_failing_sink_took_begins_the_lines(rt: HostRuntime) -> Result<(), Fail> {
    let alloc = rt.alloc();
    let mut stage = ward(&rt, alloc)?;
    let script = "eve 1 ask drug(ann)\neve 1 ask hiv(bob)\n";
    let sink = MemorySink::with_plan(alloc, Pieces::Whole, Plan::From(1));
    stage.run_into(&rt, alloc, &BATCH, script, sink)?;
    let what = "a sink that fails at its second call";
    stage.check(&rt, 7, "eve 1 no\n", "cqe: write fault\n", what);
    Ok(())
}
