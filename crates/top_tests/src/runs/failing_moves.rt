//! Runs of `migrate` in each of which one call of one object fails. Whatever fails, the old
//! journals are as they were, and the next run moves them to another directory.
use super::failing::CALLS;
use super::ward::{JOURNALS, check_told, files_by, told};
use super::{Stage, failing_at};
use outside::Plan;
use std::alloc::{AllocError, Global};
use std::process::Abort;
use std::sync::Wait;
use std::test::Fail;
use std::thread::Threads;

// A journal of version 1 with so many records.
fn old(alloc: Global, records: u64) -> Result<Vec<u8>, AllocError> {
    let mut bytes = told(alloc, records)?;
    if let Some(version) = bytes.get_mut(7) {
        *version = b'1';
    }
    Ok(bytes)
}

// How many records an old journal has, where that of eve's has so many and the others are empty.
fn records_of(name: &str, by_eve: u64) -> u64 {
    if name == "d/eve.log" { by_eve } else { 0 }
}

// A shelf with the ward's files, whose calls fail by plan, and old journals: eve's has so many
// records, and the others are empty.
fn old_ward(alloc: Global, plan: Plan, records: u64) -> Result<Stage, AllocError> {
    let mut stage = files_by(alloc, plan)?;
    for name in JOURNALS {
        let bytes = old(alloc, records_of(name, records))?;
        stage.put_disk(alloc, name, bytes, Plan::Never)?;
    }
    Ok(stage)
}

// They are as they were, where this call failed.
fn check_old(
    rt: &impl Abort,
    alloc: Global,
    stage: &Stage,
    records: u64,
    call: u64,
) -> Result<(), AllocError> {
    for name in JOURNALS {
        let wanted = old(alloc, records_of(name, records))?;
        stage.check_disk(rt, name, &wanted, call);
    }
    Ok(())
}

// `migrate` to this directory.
fn migrate(
    rt: &(impl Threads + Wait + Sync),
    alloc: Global,
    stage: &mut Stage,
    to: &str,
) -> Result<(), AllocError> {
    let words = [
        "migrate",
        "--policy",
        "p",
        "--facts",
        "f",
        "--journals",
        "d",
        "--to",
        to,
    ];
    stage.run(rt, alloc, &words, "")
}

// The calls of eve's new disk are a sync, its length, a write and a sync of eight bytes, two writes
// of the digests, two for each of fifteen records, a write of the gate and a sync, and a write and
// a sync of the first eight bytes. The next user isn't served; the next run moves all.
#[test]
fn a_new_disk_may_fail_at_any_call(rt: HostRuntime) -> Result<(), Fail> {
    let alloc = rt.alloc();
    for call in 0..CALLS {
        let mut stage = old_ward(alloc, Plan::Never, 15)?;
        a_new_disk_fails(&rt, alloc, &mut stage, call)?;
        all_is_moved(&rt, alloc, &mut stage, call)?;
    }
    Ok(())
}

fn a_new_disk_fails(
    rt: &(impl Threads + Wait + Sync + Abort),
    alloc: Global,
    stage: &mut Stage,
    call: u64,
) -> Result<(), AllocError> {
    let plan = failing_at(alloc, call)?;
    stage.put_disk(alloc, "e/eve.log", Vec::new(alloc), plan)?;
    migrate(rt, alloc, stage, "e")?;
    stage.check(rt, 11, "", "cqe: disk fault\n", "a new disk fails");
    check_old(rt, alloc, stage, 15, call)?;
    stage.check_no_disk(rt, "e/ron.log");
    Ok(())
}

fn all_is_moved(
    rt: &(impl Threads + Wait + Sync + Abort),
    alloc: Global,
    stage: &mut Stage,
    call: u64,
) -> Result<(), AllocError> {
    migrate(rt, alloc, stage, "g")?;
    stage.check(rt, 0, "", "", "the next run");
    check_old(rt, alloc, stage, 15, call)?;
    check_told(rt, alloc, stage, "g/eve.log", 15, call)?;
    check_told(rt, alloc, stage, "g/tom.log", 0, call)
}

// The calls of eve's old disk are those of an opening with 36 records. The disk of her new journal
// isn't taken before it.
#[test]
fn an_old_disk_may_fail_at_any_call(rt: HostRuntime) -> Result<(), Fail> {
    let alloc = rt.alloc();
    for call in 0..CALLS {
        an_old_disk_fails(&rt, alloc, call)?;
    }
    Ok(())
}

fn an_old_disk_fails(
    rt: &(impl Threads + Wait + Sync + Abort),
    alloc: Global,
    call: u64,
) -> Result<(), AllocError> {
    let plan = failing_at(alloc, call)?;
    let mut stage = old_ward(alloc, Plan::Never, 36)?;
    stage.put_disk(alloc, "d/eve.log", old(alloc, 36)?, plan)?;
    migrate(rt, alloc, &mut stage, "e")?;
    let complaint = "cqe: journal eve disk fault\n";
    stage.check(rt, 10, "", complaint, "an old disk fails");
    check_old(rt, alloc, &stage, 36, call)?;
    stage.check_no_disk(rt, "e/eve.log");
    Ok(())
}

// The calls of the shelf are the reading of both files, and the taking of two disks of each user.
#[test]
fn a_shelf_may_fail_at_any_call(rt: HostRuntime) -> Result<(), Fail> {
    let alloc = rt.alloc();
    for call in 0..CALLS {
        a_shelf_fails(&rt, alloc, call)?;
    }
    Ok(())
}

fn a_shelf_fails(
    rt: &(impl Threads + Wait + Sync + Abort),
    alloc: Global,
    call: u64,
) -> Result<(), AllocError> {
    let mut stage = old_ward(alloc, failing_at(alloc, call)?, 1)?;
    migrate(rt, alloc, &mut stage, "e")?;
    if call < 14 {
        stage.check(rt, 9, "", "cqe: shelf fault\n", "a shelf that fails");
        stage.check_no_disk(rt, "e/tom.log");
    } else {
        stage.check(rt, 0, "", "", "a shelf that doesn't fail");
        check_told(rt, alloc, &stage, "e/eve.log", 1, call)?;
    }
    check_old(rt, alloc, &stage, 1, call)
}
