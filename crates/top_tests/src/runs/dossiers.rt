//! Runs of `dossier` and `check` in each of which one call of one object fails, the dossiers of a
//! workload, and one that is too long.
use super::failing::CALLS;
use super::failing_calls::{a_disk_fails, a_shelf_fails, a_write_fails};
use super::ward::{BATCH, init, stage_of, ward_by};
use super::{Stage, counted, failing_source};
use outside::{MemorySource, Plan};
use std::alloc::{AllocError, Global};
use std::process::Abort;
use std::sync::Wait;
use std::test::Fail;
use std::thread::Threads;
use workload::make;

/// The words of eve's `dossier`; the last one is the user.
pub(super) const DOSSIER: [&str; 9] = [
    "dossier",
    "--policy",
    "p",
    "--facts",
    "f",
    "--journals",
    "d",
    "--user",
    "eve",
];

/// The words of eve's `check`, of which her dossier is the input; the last one is the user.
pub(super) const CHECK: [&str; 7] = ["check", "--policy", "p", "--facts", "f", "--user", "eve"];

// The dossier of eve before she asks, and behind an ask that was told no, worked out by hand.
const EMPTY: &str = "dossier 1 eve lying open\nadmission\nopen -\ndone 0\n";

const TOLD: &str =
    "dossier 1 eve lying open\nadmission\nopen -\nask no drug(ann)\nfollows\nline : 12 3 11 7 10\nend\nopen -\ndone 1\n";

// The calls of the shelf are the reading of both files, and for a dossier the taking of a disk.
#[test]
fn a_shelf_that_fails_shows_nothing(rt: HostRuntime) -> Result<(), Fail> {
    let alloc = rt.alloc();
    for call in 0..CALLS {
        a_shelf_fails(&rt, alloc, &DOSSIER, call, 3, EMPTY, EMPTY)?;
        a_shelf_fails(&rt, alloc, &CHECK, call, 2, EMPTY, "sound 0\n")?;
    }
    Ok(())
}

#[test]
fn a_dossier_of_a_disk_that_fails_says_so(rt: HostRuntime) -> Result<(), Fail> {
    let alloc = rt.alloc();
    let sealed = "dossier 1 eve lying sealed\n";
    for call in 0..CALLS {
        a_disk_fails(&rt, alloc, &DOSSIER, call, sealed, TOLD)?;
    }
    Ok(())
}

#[test]
fn a_beginning_of_a_dossier_is_written(rt: HostRuntime) -> Result<(), Fail> {
    let alloc = rt.alloc();
    for call in 0..CALLS {
        a_write_fails(&rt, alloc, &DOSSIER, call, EMPTY, EMPTY)?;
        a_write_fails(&rt, alloc, &CHECK, call, EMPTY, "sound 0\n")?;
    }
    Ok(())
}

// The text comes in pieces of two bytes. Where one of the reads fails nothing is said of it.
#[test]
fn a_dossier_that_is_not_read_is_not_checked(rt: HostRuntime) -> Result<(), Fail> {
    let alloc = rt.alloc();
    for call in 0..CALLS {
        a_read_fails(&rt, alloc, call)?;
    }
    Ok(())
}

fn a_read_fails(
    rt: &(impl Threads + Wait + Sync + Abort),
    alloc: Global,
    call: u64,
) -> Result<(), AllocError> {
    let source = failing_source(alloc, EMPTY, 2, call)?;
    let mut stage = ward_by(alloc, Plan::Never)?;
    stage.run_from(rt, alloc, &CHECK, source)?;
    if call < 26 {
        stage.check(rt, 6, "", "cqe: read fault\n", "a read failed");
    } else {
        stage.check(rt, 0, "sound 0\n", "", "no read failed");
    }
    Ok(())
}

// Bytes beyond the most that a dossier may have, which aren't read further than one byte, and then
// so many as it may have.
#[test]
fn a_dossier_has_a_greatest_length(rt: HostRuntime) -> Result<(), Fail> {
    let alloc = rt.alloc();
    a_long_text(&rt, alloc, 16_385, "cqe: dossier 5 0\n", 4095)?;
    a_long_text(&rt, alloc, 16_384, "cqe: dossier 1 1\n", 0)?;
    Ok(())
}

fn a_long_text(
    rt: &(impl Threads + Wait + Sync + Abort),
    alloc: Global,
    count: u32,
    complaint: &str,
    left: usize,
) -> Result<(), AllocError> {
    let source = MemorySource::new(pages(alloc, count)?);
    let mut stage = ward_by(alloc, Plan::Never)?;
    stage.run_from(rt, alloc, &CHECK, source)?;
    stage.check(rt, 14, "", complaint, "a long text");
    counted(rt, stage.source.left().len(), left, "bytes that are left");
    Ok(())
}

// So many times 4,096 bytes.
fn pages(alloc: Global, count: u32) -> Result<Vec<u8>, AllocError> {
    let mut bytes = Vec::new(alloc);
    for _ in 0..count {
        bytes.extend_from_slice(&[b'x'; 4096])?;
    }
    Ok(bytes)
}

// The dossiers of all users of a workload, behind its asks. Each was told twenty marks.
#[test]
fn the_dossiers_of_a_workload_are_accepted(rt: HostRuntime) -> Result<(), Fail> {
    let alloc = rt.alloc();
    let mut stage = asked(&rt, alloc)?;
    for user in ["u0", "u1", "u2"] {
        let shown = shown_of(&rt, alloc, &mut stage, user)?;
        check_shown(&rt, alloc, &mut stage, user, shown)?;
    }
    Ok(())
}

// A shelf with the files of the workload and the journals behind its asks.
fn asked(rt: &(impl Threads + Wait + Sync + Abort), alloc: Global) -> Result<Stage, AllocError> {
    let made = make(alloc, 7, 3, 60)?;
    let mut stage = stage_of(alloc, &made.policy, &made.facts)?;
    init(rt, alloc, &mut stage)?;
    let source = MemorySource::new(made.script.clone()?);
    stage.run_from(rt, alloc, &BATCH, source)?;
    stage.check_status(rt, 0);
    Ok(stage)
}

// The dossier of a user.
fn shown_of(
    rt: &(impl Threads + Wait + Sync + Abort),
    alloc: Global,
    stage: &mut Stage,
    user: &str,
) -> Result<Vec<u8>, AllocError> {
    let mut words = DOSSIER;
    words[8] = user;
    stage.run(rt, alloc, &words, "")?;
    stage.check_status(rt, 0);
    stage.sink.bytes().to_vec(alloc)
}

fn check_shown(
    rt: &(impl Threads + Wait + Sync + Abort),
    alloc: Global,
    stage: &mut Stage,
    user: &str,
    shown: Vec<u8>,
) -> Result<(), AllocError> {
    let mut words = CHECK;
    words[6] = user;
    stage.run_from(rt, alloc, &words, MemorySource::new(shown))?;
    stage.check(rt, 0, "sound 20\n", "", user);
    Ok(())
}
