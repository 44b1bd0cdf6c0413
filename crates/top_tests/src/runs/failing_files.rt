//! Runs of `init` and `audit` in each of which one call of one object fails, and of all commands
//! over files where the complaints fail.
use super::dossiers::{CHECK, DOSSIER};
use super::failing::CALLS;
use super::failing_calls::{a_disk_fails, a_shelf_fails, a_write_fails};
use super::serve::SERVE;
use super::ward::{AUDIT, BATCH, INIT, JOURNALS, check_empty, check_told, files_by, init, told};
use super::{Stage, failing_at, failing_sink, front};
use outside::Plan;
use std::alloc::{AllocError, Global};
use std::process::Abort;
use std::sync::Wait;
use std::test::Fail;
use std::thread::Threads;

const MIGRATE: [&str; 9] = [
    "migrate",
    "--policy",
    "p",
    "--facts",
    "f",
    "--journals",
    "d",
    "--to",
    "e",
];

const STANDBY: [&str; 9] = [
    "standby",
    "--policy",
    "p",
    "--facts",
    "f",
    "--journals",
    "d",
    "--listen",
    "127.0.0.1:9",
];

// Eve's audit before she asks, worked out by hand.
const AUDITED: &str = "user eve lying open\nsecret hiv(ann) world -\n";

// A shelf with the ward's files, and a disk with these bytes of which this call fails.
fn files_with(alloc: Global, name: &str, bytes: Vec<u8>, call: u64) -> Result<Stage, AllocError> {
    let plan = failing_at(alloc, call)?;
    let mut stage = files_by(alloc, Plan::Never)?;
    stage.put_disk(alloc, name, bytes, plan)?;
    Ok(stage)
}

// The calls of an empty disk are its length, a sync, the write and a sync. Those before kim are
// ready, those behind her aren't there, and the next `init` makes all: kim's is still empty, or is
// a journal already where the last sync failed. A later call fails in that `init`, which asks for
// the length of her journal and opens it, by four calls without a record; its bytes stay.
#[test]
fn a_journal_is_made_by_the_next_init(rt: HostRuntime) -> Result<(), Fail> {
    let alloc = rt.alloc();
    for call in 0..CALLS {
        let mut stage = files_with(alloc, "d/kim.log", Vec::new(alloc), call)?;
        init(&rt, alloc, &mut stage)?;
        check_made(&rt, alloc, &stage, call)?;
        init(&rt, alloc, &mut stage)?;
        check_made_next(&rt, alloc, &stage, call)?;
    }
    Ok(())
}

fn check_made(rt: &impl Abort, alloc: Global, stage: &Stage, call: u64) -> Result<(), AllocError> {
    if call < 4 {
        stage.check(rt, 11, "", "cqe: disk fault\n", "kim's disk");
        stage.check_no_disk(rt, "d/lou.log");
        stage.check_no_disk(rt, "d/tom.log");
    } else {
        stage.check(rt, 0, "", "", "no call failed");
    }
    check_empty(rt, alloc, stage, &["d/eve.log", "d/ron.log"], call)
}

fn check_made_next(
    rt: &impl Abort,
    alloc: Global,
    stage: &Stage,
    call: u64,
) -> Result<(), AllocError> {
    let (status, complaint) = match call {
        4 => (11, "cqe: disk fault\n"),
        5..9 => (10, "cqe: journal kim disk fault\n"),
        _ => (0, ""),
    };
    stage.check(rt, status, "", complaint, "the next init");
    check_empty(rt, alloc, stage, &JOURNALS, call)
}

// The calls of a journal that is there are its length, and then those of an opening. Its bytes
// stay.
#[test]
fn a_journal_that_is_there_stays(rt: HostRuntime) -> Result<(), Fail> {
    let alloc = rt.alloc();
    for call in 0..CALLS {
        let mut stage = files_with(alloc, "d/eve.log", told(alloc, 1)?, call)?;
        init(&rt, alloc, &mut stage)?;
        check_kept(&rt, &stage, call);
        check_told(&rt, alloc, &stage, "d/eve.log", 1, call)?;
    }
    Ok(())
}

fn check_kept(rt: &impl Abort, stage: &Stage, call: u64) {
    let (status, complaint) = match call {
        0 => (11, "cqe: disk fault\n"),
        1..6 => (10, "cqe: journal eve disk fault\n"),
        _ => (0, ""),
    };
    stage.check(rt, status, "", complaint, complaint);
    if call < 6 {
        stage.check_no_disk(rt, "d/ron.log");
    }
}

// The calls of the shelf are the reading of both files, and the taking of each disk. What wasn't
// reached stays.
#[test]
fn a_shelf_that_fails_keeps_the_journals(rt: HostRuntime) -> Result<(), Fail> {
    let alloc = rt.alloc();
    for call in 0..CALLS {
        a_shelf_fails(&rt, alloc, &INIT, call, 8, "", "")?;
        a_shelf_fails(&rt, alloc, &BATCH, call, 8, "", "")?;
        a_shelf_fails(&rt, alloc, &AUDIT, call, 3, "", AUDITED)?;
    }
    Ok(())
}

#[test]
fn an_audit_of_a_disk_that_fails_says_so(rt: HostRuntime) -> Result<(), Fail> {
    let alloc = rt.alloc();
    let sealed = "user eve lying sealed\n";
    let whole = "user eve lying open\n1 no drug(ann)\nsecret hiv(ann) world -\n";
    for call in 0..CALLS {
        a_disk_fails(&rt, alloc, &AUDIT, call, sealed, whole)?;
    }
    Ok(())
}

#[test]
fn a_beginning_of_an_audit_is_written(rt: HostRuntime) -> Result<(), Fail> {
    let alloc = rt.alloc();
    for call in 0..CALLS {
        a_write_fails(&rt, alloc, &AUDIT, call, "", AUDITED)?;
    }
    Ok(())
}

// There is no file. Of the complaint a beginning is told, and the status is the same.
#[test]
fn complaints_may_fail_at_any_call(rt: HostRuntime) -> Result<(), Fail> {
    let alloc = rt.alloc();
    let commands: [&[&str]; 8] = [
        &INIT, &BATCH, &AUDIT, &SERVE, &MIGRATE, &DOSSIER, &CHECK, &STANDBY,
    ];
    for words in commands {
        complaints_fail(&rt, alloc, words)?;
    }
    Ok(())
}

fn complaints_fail(
    rt: &(impl Threads + Wait + Sync + Abort),
    alloc: Global,
    words: &[&str],
) -> Result<(), AllocError> {
    for call in 0..CALLS {
        let complaints = failing_sink(alloc, call)?;
        let mut stage = Stage::new(alloc, Plan::Never);
        stage.run_complaining(rt, alloc, words, "", complaints)?;
        let part = front("cqe: missing p\n", call);
        stage.check(rt, 8, "", part, "a complaint that fails");
    }
    Ok(())
}
