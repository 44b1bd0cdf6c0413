//! Runs of `batch` in each of which one call of one object fails: of the source, the output or a
//! disk. What was told and what the journals read as was worked out by hand. `failing_files` has
//! `init` and `audit`, `failing_moves` those of `migrate`, `failing_servers` those of `serve`, and
//! `dossiers` those of `dossier` and `check`; the first and the last share `failing_calls`.
use super::ward::{
    BATCH, batch, check_empty, check_told, check_told_first, journal, ward_by, ward_with,
};
use super::{Stage, counted, failing_at, failing_sink, failing_source, front, holds};
use outside::Plan;
use std::alloc::{AllocError, Global};
use std::process::Abort;
use std::sync::Wait;
use std::test::Fail;
use std::thread::Threads;

/// So many calls of an object fail in turn.
pub(super) const CALLS: u64 = 40;

/// The calls of eve's disk at an opening without records: a sync, the length, and the reads of the
/// header and of the closed gate. An ask that is answered by a mark makes four more: a write and a
/// sync of the record, a write and a sync of its gate.
pub(super) const OPENING: u64 = 4;

/// So many lines of one text, and behind them lines of another, up to so many in all.
pub(super) fn lines(
    alloc: Global,
    first: &str,
    count: u64,
    second: &str,
    all: u64,
) -> Result<String, AllocError> {
    let mut text = String::new(alloc);
    for number in 0..all {
        text.push_str(if number < count { first } else { second })?;
    }
    Ok(text)
}

/// How many of nine asks are answered by a mark where this call of eve's disk fails.
pub(super) fn marks_before(call: u64) -> u64 {
    call.saturating_sub(OPENING) / 4
}

/// How many records her disk reads then: the last call of an append is a sync, before which the
/// open gate was written.
pub(super) fn records_at(call: u64) -> u64 {
    let before = marks_before(call);
    if call >= OPENING && call % 4 == 3 {
        before.saturating_add(1)
    } else {
        before
    }
}

// How many calls were made of a disk.
fn calls_of(stage: &Stage, name: &str) -> usize {
    match stage.shelf.disk(name) {
        Some(disk) => disk.calls().len(),
        None => 0,
    }
}

// The script comes in pieces of three bytes. Where one of the reads fails nothing is written, and
// no disk is touched.
#[test]
fn a_script_that_is_not_read_touches_no_disk(rt: HostRuntime) -> Result<(), Fail> {
    let alloc = rt.alloc();
    for call in 0..CALLS {
        a_read_fails(&rt, alloc, call)?;
    }
    Ok(())
}

fn a_read_fails(
    rt: &(impl Threads + Wait + Sync + Abort),
    alloc: Global,
    call: u64,
) -> Result<(), AllocError> {
    let script = "eve 1 ask drug(ann)\neve 1 ask hiv(bob)\nkim 1 ask hiv(ann)\n";
    let source = failing_source(alloc, script, 3, call)?;
    let mut stage = ward_by(alloc, Plan::Never)?;
    stage.run_from(rt, alloc, &BATCH, source)?;
    if stage.source.faults() == 0 {
        holds(rt, call >= 20, "the 58 bytes take 20 reads");
        let replies = "eve 1 no\neve 1 no\nkim 1 no\n";
        stage.check(rt, 0, replies, "", "no read failed");
    } else {
        stage.check(rt, 6, "", "cqe: read fault\n", "a read failed");
        counted(rt, calls_of(&stage, "d/eve.log"), 0, "calls of eve's disk");
        counted(rt, calls_of(&stage, "d/kim.log"), 0, "calls of kim's disk");
    }
    Ok(())
}

// Each byte is written by a call of its own; a line has nine. Whichever fails, all asks of the
// stretch were carried out before its first line was written.
#[test]
fn what_was_asked_is_in_the_journals(rt: HostRuntime) -> Result<(), Fail> {
    let alloc = rt.alloc();
    let script = lines(
        alloc,
        "eve 1 ask drug(ann)\n",
        4,
        "kim 1 ask drug(ann)\n",
        5,
    )?;
    for call in 0..CALLS {
        a_write_fails(&rt, alloc, script.as_str(), call)?;
    }
    Ok(())
}

fn a_write_fails(
    rt: &(impl Threads + Wait + Sync + Abort),
    alloc: Global,
    script: &str,
    call: u64,
) -> Result<(), AllocError> {
    let whole = "eve 1 no\neve 1 no\neve 1 no\neve 1 no\nkim 1 no\n";
    let sink = failing_sink(alloc, call)?;
    let mut stage = ward_by(alloc, Plan::Never)?;
    stage.run_into(rt, alloc, &BATCH, script, sink)?;
    let part = front(whole, call);
    stage.check(rt, 7, part, "cqe: write fault\n", "a write failed");
    check_told(rt, alloc, &stage, "d/eve.log", 4, call)?;
    check_told(rt, alloc, &stage, "d/kim.log", 1, call)?;
    check_empty(rt, alloc, &stage, &["d/ron.log", "d/max.log"], call)
}

// A stretch has a line of nine bytes and that of its restart, of twelve. Where a write fails, the
// stretches up to the one whose line failed are in the journal, and none behind it.
#[test]
fn nothing_is_asked_behind_a_stretch_that_is_not_written(rt: HostRuntime) -> Result<(), Fail> {
    let alloc = rt.alloc();
    let script = lines(alloc, "eve 1 ask drug(ann)\n* restart\n", 3, "", 3)?;
    for call in 0..64 {
        a_stretch_fails(&rt, alloc, script.as_str(), call)?;
    }
    Ok(())
}

fn a_stretch_fails(
    rt: &(impl Threads + Wait + Sync + Abort),
    alloc: Global,
    script: &str,
    call: u64,
) -> Result<(), AllocError> {
    let whole = "eve 1 no\n* restarted\neve 1 no\n* restarted\neve 1 no\n* restarted\n";
    let sink = failing_sink(alloc, call)?;
    let mut stage = ward_by(alloc, Plan::Never)?;
    stage.run_into(rt, alloc, &BATCH, script, sink)?;
    if call < 63 {
        let part = front(whole, call);
        stage.check(rt, 7, part, "cqe: write fault\n", "a write failed");
    } else {
        stage.check(rt, 0, whole, "", "no write failed");
    }
    let asked = (call / 21).saturating_add(1).min(3);
    check_told(rt, alloc, &stage, "d/eve.log", asked, call)
}

/// A ward with empty journals, of which eve's disk fails at this call; its first call is 0.
pub(super) fn ward_failing(alloc: Global, call: u64) -> Result<Stage, AllocError> {
    let plan = failing_at(alloc, call)?;
    ward_with(alloc, "d/eve.log", journal(alloc, &[0])?, plan)
}

// Nine asks of eve's make forty calls of her disk. From the ask on whose append failed each is told
// so, and her disk reads as a next life finds it.
#[test]
fn a_disk_may_fail_at_any_call(rt: HostRuntime) -> Result<(), Fail> {
    let alloc = rt.alloc();
    let script = lines(
        alloc,
        "eve 1 ask drug(ann)\n",
        9,
        "kim 1 ask drug(ann)\n",
        10,
    )?;
    for call in 0..CALLS {
        a_disk_fails(&rt, alloc, script.as_str(), call)?;
    }
    Ok(())
}

fn a_disk_fails(
    rt: &(impl Threads + Wait + Sync + Abort),
    alloc: Global,
    script: &str,
    call: u64,
) -> Result<(), AllocError> {
    let mut stage = ward_failing(alloc, call)?;
    batch(rt, alloc, &mut stage, script)?;
    check_asks(rt, alloc, &stage, call)?;
    check_told_first(rt, alloc, &stage, "d/eve.log", records_at(call), call)
}

// What nine asks of eve's and one of kim's are told where this call of eve's disk failed.
fn check_asks(rt: &impl Abort, alloc: Global, stage: &Stage, call: u64) -> Result<(), AllocError> {
    let (status, error, complaint) = if call < OPENING {
        (10, "eve 1 error 41\n", "cqe: journal eve disk fault\n")
    } else {
        (11, "eve 1 error 40\n", "cqe: disk fault\n")
    };
    let mut output = lines(alloc, "eve 1 no\n", marks_before(call), error, 9)?;
    output.push_str("kim 1 no\n")?;
    let what = "a disk that fails once";
    stage.check(rt, status, output.as_str(), complaint, what);
    Ok(())
}

// What eve is told who asks three times, with restarts between, where she is told this once.
fn lives(alloc: Global, failed: u64, error: &str) -> Result<String, AllocError> {
    let mut text = String::new(alloc);
    for life in 0..3 {
        if life > 0 {
            text.push_str("* restarted\n")?;
        }
        text.push_str(if life == failed { error } else { "eve 1 no\n" })?;
    }
    Ok(text)
}

// Behind how many restarts a call of eve's disk is made, and whether at the opening, which reads
// each record by a call of its own.
fn life_of(call: u64) -> (u64, bool) {
    match call {
        0..4 => (0, true),
        4..8 => (0, false),
        8..13 => (1, true),
        13..17 => (1, false),
        17..23 => (2, true),
        _ => (2, false),
    }
}

// Eve asks three times, with restarts between, which makes 27 calls of her disk. An opening that
// failed and an append that failed are told once: the next restart opens again. The append finds
// its entry where its last call failed.
#[test]
fn a_restart_opens_what_failed(rt: HostRuntime) -> Result<(), Fail> {
    let alloc = rt.alloc();
    let again = "* restart\neve 1 ask drug(ann)\n";
    let script = lines(alloc, "eve 1 ask drug(ann)\n", 1, again, 3)?;
    for call in 0..28 {
        a_life_fails(&rt, alloc, script.as_str(), call)?;
    }
    Ok(())
}

fn a_life_fails(
    rt: &(impl Threads + Wait + Sync + Abort),
    alloc: Global,
    script: &str,
    call: u64,
) -> Result<(), AllocError> {
    let mut stage = ward_failing(alloc, call)?;
    batch(rt, alloc, &mut stage, script)?;
    check_lives(rt, alloc, &stage, call)?;
    let is_whole = matches!(call, 7 | 16) || call >= 26;
    let count = if is_whole { 3 } else { 2 };
    check_told_first(rt, alloc, &stage, "d/eve.log", count, call)
}

// What three asks with restarts between are told where this call of eve's disk failed.
fn check_lives(rt: &impl Abort, alloc: Global, stage: &Stage, call: u64) -> Result<(), AllocError> {
    let (life, is_sealed) = life_of(call);
    let (status, error, complaint) = if call >= 27 {
        (0, "eve 1 no\n", "")
    } else if is_sealed {
        (10, "eve 1 error 41\n", "cqe: journal eve disk fault\n")
    } else {
        (11, "eve 1 error 40\n", "cqe: disk fault\n")
    };
    let output = lives(alloc, life, error)?;
    stage.check(rt, status, output.as_str(), complaint, output.as_str());
    Ok(())
}
