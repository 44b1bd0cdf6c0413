//! Runs of a command over the ward in each of which one call of one object fails: of the shelf, of
//! eve's disk or of the output. `failing_files` and `dossiers` say of which commands.
use super::ward::{JOURNALS, check_empty, check_told, told, ward_by, ward_with};
use super::{failing_at, failing_sink, front, same};
use outside::Plan;
use std::alloc::{AllocError, Global};
use std::process::Abort;
use std::sync::Wait;
use std::thread::Threads;

/// A run of these words over empty journals, which makes so many calls of the shelf. Where one of
/// them fails nothing is written and nothing of the input is read; this output comes where none
/// does. The journals stay empty.
pub(super) fn a_shelf_fails(
    rt: &(impl Threads + Wait + Sync + Abort),
    alloc: Global,
    words: &[&str],
    call: u64,
    calls: u64,
    input: &str,
    output: &str,
) -> Result<(), AllocError> {
    let mut stage = ward_by(alloc, failing_at(alloc, call)?)?;
    stage.run(rt, alloc, words, input)?;
    if call < calls {
        let what = "a shelf that fails";
        stage.check(rt, 9, "", "cqe: shelf fault\n", what);
        same(rt, stage.source.left(), input.as_bytes(), what);
    } else {
        stage.check(rt, 0, output, "", "a shelf that doesn't fail");
    }
    check_empty(rt, alloc, &stage, &JOURNALS, call)
}

/// A run of these words, which opens eve's journal of one record by five calls: a sync, the length,
/// and the reads of the header, of the record and of the closed gate. Where one of them fails the
/// line of a sealed journal comes, and else this output. The journal stays.
pub(super) fn a_disk_fails(
    rt: &(impl Threads + Wait + Sync + Abort),
    alloc: Global,
    words: &[&str],
    call: u64,
    sealed: &str,
    output: &str,
) -> Result<(), AllocError> {
    let plan = failing_at(alloc, call)?;
    let mut stage = ward_with(alloc, "d/eve.log", told(alloc, 1)?, plan)?;
    stage.run(rt, alloc, words, "")?;
    if call < 5 {
        let complaint = "cqe: journal eve disk fault\n";
        stage.check(rt, 10, sealed, complaint, "a disk that fails");
    } else {
        stage.check(rt, 0, output, "", "a disk that doesn't fail");
    }
    check_told(rt, alloc, &stage, "d/eve.log", 1, call)
}

/// A run of these words over empty journals, which writes each byte of this output by a call of its
/// own. Where one fails the bytes before it are written. The journals stay empty.
pub(super) fn a_write_fails(
    rt: &(impl Threads + Wait + Sync + Abort),
    alloc: Global,
    words: &[&str],
    call: u64,
    input: &str,
    output: &str,
) -> Result<(), AllocError> {
    let sink = failing_sink(alloc, call)?;
    let mut stage = ward_by(alloc, Plan::Never)?;
    stage.run_into(rt, alloc, words, input, sink)?;
    if (call as usize) < output.len() {
        let part = front(output, call);
        stage.check(rt, 7, part, "cqe: write fault\n", "a write failed");
    } else {
        stage.check(rt, 0, output, "", "no write failed");
    }
    check_empty(rt, alloc, &stage, &JOURNALS, call)
}
