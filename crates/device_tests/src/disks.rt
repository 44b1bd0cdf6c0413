ghost use Rattle.std.specs.Prelude.{[], ◌^◌};

use crate::checks;
use outside::{Disk, Failed, MemoryDisk, Operation, Plan};
use std::alloc::{AllocError, Global};
use std::process::Abort;
use std::test::Fail;

/// A call of a disk, and what it has to answer.
pub(crate) enum Step {
    Length(Result<u64, Failed>),
    /// Three bytes from this place on, or those that there are.
    Read(u64, &'static [u8]),
    Write(u64, &'static [u8]),
    Sync(Result<(), Failed>),
}

// Makes a call, and answers whether it answers as it has to.
fn answers(disk: &mut MemoryDisk, step: &Step) -> bool {
    match step {
        Step::Length(want) => disk.length() == *want,
        Step::Read(at, want) => reads(disk, *at, want),
        Step::Write(at, bytes) => writes(disk, *at, bytes),
        Step::Sync(want) => disk.sync() == *want,
    }
}

// Whether a read from this place of the disk on gives these bytes.
fn reads(disk: &mut MemoryDisk, at: u64, want: &[u8]) -> bool {
    let mut piece = [0; 3];
    if at > disk.bytes().len() as u64 {
        return false;
    }
    match disk.read_at(at, &mut piece) {
        Ok(count) => &piece[..count] == want,
        Err(Failed) => false,
    }
}

// Whether these bytes are written from this place of the disk on.
fn writes(disk: &mut MemoryDisk, at: u64, bytes: &[u8]) -> bool {
    at <= disk.bytes().len() as u64 && disk.write_at(at, bytes).is_ok()
}

/// Makes these calls, one after the other, each of which has to answer as its step says.
pub(crate) fn play(rt: &impl Abort, disk: &mut MemoryDisk, steps: &[Step]) {
    for (number, step) in steps.iter().enumerate() {
        assert!(rt; answers(disk, step), "call {number}");
    }
}

// Checks what a crash leaves in the picture of this number.
fn check_image(
    rt: &impl Abort,
    alloc: Global,
    disk: &MemoryDisk,
    number: u64,
    want: &[u8],
) -> Result<(), AllocError> {
    let image = disk.crash_image(alloc, number)?;
    assert_eq!(rt; image.as_slice(), want, "picture {number}");
    Ok(())
}

// A disk of three bytes of which these calls fail.
fn disk_of_three(alloc: Global, plan: Plan) -> Result<MemoryDisk, AllocError> {
    MemoryDisk::with_plan(alloc, vec![in alloc; 1, 2, 3]?, plan)
}

// An empty disk of which these calls fail.
fn empty_disk(alloc: Global, plan: Plan) -> Result<MemoryDisk, AllocError> {
    MemoryDisk::with_plan(alloc, Vec::new(alloc), plan)
}

const SYNC: [Step; 1] = [Step::Sync(Ok(()))];

const READS: [Step; 5] = [
    Step::Write(2, &[7, 8]),
    Step::Read(1, &[2, 7, 8]),
    Step::Read(3, &[8]),
    Step::Read(4, &[]),
    Step::Length(Ok(4)),
];

#[test]
fn a_disk_reads_what_was_written(rt: HostRuntime) -> Result<(), Fail> {
    let alloc = rt.alloc();
    let mut disk = disk_of_three(alloc, Plan::Never)?;
    play(&rt, &mut disk, &READS);
    check_image(&rt, alloc, &disk, 0, &[1, 2, 3])?;
    play(&rt, &mut disk, &SYNC);
    check_image(&rt, alloc, &disk, 0, &[1, 2, 7, 8])?;
    checks::count(&rt, "calls", disk.calls().len(), 6);
    Ok(())
}

const TORN: [Step; 2] = [Step::Write(1, &[7, 8, 9]), Step::Sync(Err(Failed))];

// What is left of three bytes that were written over the last two of three, in the picture of each
// number.
const PICTURES: [(u64, &[u8]); 6] = [
    (0, &[1, 2, 3]),
    (1, &[1, 7, 8, 9]),
    (2, &[1, 0, 0, 0]),
    (27, &[1, 5, 5, 5]),
    (8, &[1, 7, 3]),
    (34, &[1, 7, 8, 9, 6, 6, 6, 6, 6, 6, 6, 6]),
];

#[test]
fn a_crash_tears_what_was_not_synced(rt: HostRuntime) -> Result<(), Fail> {
    let alloc = rt.alloc();
    let mut disk = disk_of_three(alloc, Plan::At(vec![in alloc; 1]?))?;
    play(&rt, &mut disk, &TORN);
    for (number, want) in &PICTURES {
        check_image(&rt, alloc, &disk, *number, want)?;
    }
    play(&rt, &mut disk, &SYNC);
    check_image(&rt, alloc, &disk, 34, &[1, 7, 8, 9])?;
    Ok(())
}

// The second call and the fourth fail.
const TWO_FAIL: [Step; 5] = [
    Step::Write(0, &[5]),
    Step::Sync(Err(Failed)),
    Step::Sync(Ok(())),
    Step::Length(Err(Failed)),
    Step::Length(Ok(1)),
];

// All fail from the second on.
const ALL_FAIL: [Step; 3] = [
    Step::Write(0, &[5]),
    Step::Sync(Err(Failed)),
    Step::Length(Err(Failed)),
];

#[test]
fn the_named_calls_fail(rt: HostRuntime) -> Result<(), Fail> {
    let alloc = rt.alloc();
    let mut disk = empty_disk(alloc, Plan::At(vec![in alloc; 1, 3]?))?;
    play(&rt, &mut disk, &TWO_FAIL);
    let mut stopping = empty_disk(alloc, Plan::From(1))?;
    play(&rt, &mut stopping, &ALL_FAIL);
    checks::faults(&rt, stopping.faults(), 2);
    checks::count(&rt, "failed", failed_beside_syncs(&stopping), 1);
    Ok(())
}

// How many calls failed that aren't syncs.
fn failed_beside_syncs(disk: &MemoryDisk) -> usize {
    disk.calls()
        .iter()
        .filter(|call| call.failed && !matches!(call.operation, Operation::Sync))
        .count()
}

// A disk of which clauses aren't told anything, as one over a real file is.
#[derive(Drop)]
struct UntoldDisk {
    faults: u64,
}

impl Disk for UntoldDisk {
    ghost tells = { ⊥ };

    ghost reads = { λ d. [] };

    ghost image = { λ d c. ⊥ };

    ghost moment = { λ d. 0 };

    ghost image_since = { λ d t c. ⊥ };

    ghost faults = { λ d. d.faults };

    ghost tellable = { λ d. 2 ^ 64 };

    ghost heard = { λ disk number one. ⊥ };

    ghost origin = { λ d. [] };

    ghost read_is_image = { λ d told. told };

    ghost counts_now = { λ d t c le now. now };

    ghost only_now = { λ d c since. since };

    fn length(&mut self) -> Result<u64, Failed> {
        Ok(5)
    }

    fn read_at(&mut self, _at: u64, into: &mut [u8]) -> Result<usize, Failed> {
        Ok(into.len())
    }

    fn write_at(&mut self, _at: u64, _bytes: &[u8]) -> Result<(), Failed> {
        self.faults = self.faults.saturating_add(1);
        Err(Failed)
    }

    fn sync(&mut self) -> Result<(), Failed> {
        Ok(())
    }

    fn tell(&mut self, _number: u64, _kind: u8, _text: &[u8]) -> Result<(), Failed> {
        Ok(())
    }
}

#[test]
fn a_disk_may_be_untold(_rt: HostRuntime) -> Result<(), Fail> {
    let mut disk = UntoldDisk { faults: 0 };
    let _written = disk.write_at(7, &[1]);
    disk.sync()?;
    Ok(())
}
