//! Journals over lives: disks that fail, and what a crash leaves.
use super::ward::{batch, files_by, init, journal, ward, ward_of_eve};
use super::{Fails, Stage, failing_at};
use outside::Plan;
use std::alloc::{AllocError, Global};
use std::process::Abort;
use std::sync::Wait;
use std::test::Fail;
use std::thread::Threads;

// Of the calls of kim's disk each fails in turn.
#[test]
fn init_stops_at_the_first_disk_that_fails(rt: HostRuntime) -> Result<(), Fail> {
    let alloc = rt.alloc();
    for call in 0..4 {
        let mut stage = files_by(alloc, Plan::Never)?;
        stage.put_disk(
            alloc,
            "d/kim.log",
            Vec::new(alloc),
            failing_at(alloc, call)?,
        )?;
        init(&rt, alloc, &mut stage)?;
        stage.check(&rt, 11, "", "cqe: disk fault\n", "kim's disk");
        stage.check_no_disk(&rt, "d/lou.log");
    }
    Ok(())
}

const SCRIPT: &str = "eve 1 ask drug(ann)\neve 1 ask hiv(bob)\nkim 1 ask hiv(ann)\n";

const RESTARTED: &str = "eve 1 ask drug(ann)\n* restart\neve 1 ask hiv(bob)\nkim 1 ask hiv(ann)\n";

// Which calls of eve's disk fail, the script, the status, the output and the complaint. The calls
// are a sync, the length and two reads at its opening, and then a write, a sync, a write and a sync
// for each ask.
const ROWS: [(Fails, &str, u8, &str, &str); 5] = [
    // the first sync behind the opening
    (
        Fails::At(5),
        SCRIPT,
        11,
        "eve 1 error 40\neve 1 error 40\nkim 1 no\n",
        "cqe: disk fault\n",
    ),
    // the opening
    (
        Fails::At(0),
        SCRIPT,
        10,
        "eve 1 error 41\neve 1 error 41\nkim 1 no\n",
        "cqe: journal eve disk fault\n",
    ),
    // the opening behind a restart
    (
        Fails::From(8),
        RESTARTED,
        10,
        "eve 1 no\n* restarted\neve 1 error 41\nkim 1 no\n",
        "cqe: journal eve disk fault\n",
    ),
    // an append, after which the journal opens again
    (
        Fails::At(4),
        RESTARTED,
        11,
        "eve 1 error 40\n* restarted\neve 1 no\nkim 1 no\n",
        "cqe: disk fault\n",
    ),
    // nothing that is called
    (
        Fails::From(12),
        SCRIPT,
        0,
        "eve 1 no\neve 1 no\nkim 1 no\n",
        "",
    ),
];

#[test]
fn a_disk_that_fails_is_told_to_its_user_alone(rt: HostRuntime) -> Result<(), Fail> {
    let alloc = rt.alloc();
    for (fails, script, status, output, complaint) in ROWS {
        let mut stage = ward_of_eve(&rt, alloc, fails.plan(alloc)?)?;
        batch(&rt, alloc, &mut stage, script)?;
        stage.check(&rt, status, output, complaint, output);
    }
    Ok(())
}

// An image that a crash may leave of a disk.
fn image_of(alloc: Global, stage: &Stage, name: &str, picked: u64) -> Result<Vec<u8>, AllocError> {
    match stage.shelf.disk(name) {
        Some(disk) => disk.crash_image(alloc, picked),
        None => Ok(Vec::new(alloc)),
    }
}

// Whether the gate at this place of an image is open.
fn is_open(image: &[u8], at: usize) -> bool {
    match image.get(at) {
        Some(gate) => *gate == 1,
        None => false,
    }
}

// A record may be in an image where the disk works up to this call, and is in each where it works
// up to that one.
fn check_found(rt: &impl Abort, found: bool, from: u64, until: u64, stop: u64, picked: u64) {
    assert!(rt;
        if found { stop >= from } else { stop < until },
        "stop {stop}, image {picked}"
    );
}

// A run that writes two records into a user's journal, of which a stop of his disk leaves none, the
// first or both; and a new life, whose reply and whose own record show which of them it found.
struct Trial {
    disk: &'static str,
    /// The script of the run.
    script: &'static str,
    /// The status, the output and the complaint where the disk stops at the opening, at the first
    /// record, at the second, and behind both.
    ends: [(u8, &'static str, &'static str); 4],
    /// The place of the second record's gate in an image. The first record's is 72.
    second: usize,
    /// The script of the new life.
    ask: &'static str,
    /// What the new life is told, and what its journal then has behind the header, where it found
    /// no record, the first, and both.
    lives: [(&'static str, &'static [u8]); 3],
}

impl Trial {
    /// How the run ends where every call of the disk fails from this one on. An opening makes four
    /// calls, a sync, the length and two reads, and each record four more, a write, a sync, a write
    /// and a sync.
    fn end_at(&self, stop: u64) -> (u8, &'static str, &'static str) {
        match stop {
            0..4 => self.ends[0],
            4..8 => self.ends[1],
            8..12 => self.ends[2],
            _ => self.ends[3],
        }
    }

    /// What a new life that found these records is told, and what its journal then has.
    fn life_with(&self, first: bool, second: bool) -> (&'static str, &'static [u8]) {
        if second {
            self.lives[2]
        } else if first {
            self.lives[1]
        } else {
            self.lives[0]
        }
    }
}

// The ward behind this script, where this disk has these bytes and fails by plan.
fn ward_behind(
    rt: &(impl Threads + Wait + Sync),
    alloc: Global,
    disk: &str,
    bytes: Vec<u8>,
    plan: Plan,
    script: &str,
) -> Result<Stage, AllocError> {
    let mut stage = ward(rt, alloc)?;
    stage.put_disk(alloc, disk, bytes, plan)?;
    batch(rt, alloc, &mut stage, script)?;
    Ok(stage)
}

// The run, whose disk fails every call from this one on.
fn stopped_run(
    rt: &(impl Threads + Wait + Sync + Abort),
    alloc: Global,
    trial: &Trial,
    stop: u64,
) -> Result<Stage, AllocError> {
    let empty = journal(alloc, &[0])?;
    let plan = Plan::From(stop);
    let stage = ward_behind(rt, alloc, trial.disk, empty, plan, trial.script)?;
    let (status, output, complaint) = trial.end_at(stop);
    stage.check(rt, status, output, complaint, output);
    Ok(stage)
}

// Which of both records an image has. The third call of a record opens its gate, so an image may
// have it from there on, and each has it behind the fourth, a sync.
fn records_in(
    rt: &impl Abort,
    trial: &Trial,
    image: &[u8],
    stop: u64,
    picked: u64,
) -> (bool, bool) {
    let first = is_open(image, 72);
    let second = first && is_open(image, trial.second);
    check_found(rt, first, 6, 8, stop, picked);
    check_found(rt, second, 10, 12, stop, picked);
    (first, second)
}

// A new life on an image of what the run left.
fn new_life(
    rt: &(impl Threads + Wait + Sync + Abort),
    alloc: Global,
    trial: &Trial,
    stage: &Stage,
    stop: u64,
    picked: u64,
) -> Result<(), AllocError> {
    let image = image_of(alloc, stage, trial.disk, picked)?;
    let (first, second) = records_in(rt, trial, &image, stop, picked);
    let (told, behind) = trial.life_with(first, second);
    let life = ward_behind(rt, alloc, trial.disk, image, Plan::Never, trial.ask)?;
    life.check(rt, 0, told, "", "a new life");
    let wanted = journal(alloc, behind)?;
    life.check_front(rt, trial.disk, &wanted, picked);
    Ok(())
}

// The run up to one stop, and a new life on each of the images that a crash may leave.
fn check_stop(
    rt: &(impl Threads + Wait + Sync + Abort),
    alloc: Global,
    trial: &Trial,
    stop: u64,
) -> Result<(), AllocError> {
    let stage = stopped_run(rt, alloc, trial, stop)?;
    for picked in 0..12 {
        new_life(rt, alloc, trial, &stage, stop, picked)?;
    }
    Ok(())
}

// A stop at each call of the opening and of both records, and one behind them.
fn check_stops(
    rt: &(impl Threads + Wait + Sync + Abort),
    alloc: Global,
    trial: &Trial,
) -> Result<(), AllocError> {
    for stop in 0..13 {
        check_stop(rt, alloc, trial, stop)?;
    }
    Ok(())
}

// Eve asks twice, and is told no. The new life asks whether `true` is.
const ASKED: Trial = Trial {
    disk: "d/eve.log",
    script: "eve 1 ask drug(ann)\neve 1 ask hiv(bob)\n",
    ends: [
        (
            10,
            "eve 1 error 41\neve 1 error 41\n",
            "cqe: journal eve disk fault\n",
        ),
        (11, "eve 1 error 40\neve 1 error 40\n", "cqe: disk fault\n"),
        (11, "eve 1 no\neve 1 error 40\n", "cqe: disk fault\n"),
        (0, "eve 1 no\neve 1 no\n", ""),
    ],
    second: 85,
    ask: "eve 1 ask true\n",
    lives: [
        ("eve 1 yes\n", b"\x01\x01\x00\x04true\x00"),
        (
            "eve 1 yes\n",
            b"\x01\x02\x00\x09drug(ann)\x01\x01\x00\x04true\x00",
        ),
        (
            "eve 1 yes\n",
            b"\x01\x02\x00\x09drug(ann)\x01\x02\x00\x08hiv(bob)\x01\x01\x00\x04true\x00",
        ),
    ],
};

// A new life finds the entries whose gates stand open: of each ask that was told its mark, and of
// none that was never written.
#[test]
fn a_crash_leaves_what_was_told(rt: HostRuntime) -> Result<(), Fail> {
    let alloc = rt.alloc();
    check_stops(&rt, alloc, &ASKED)?;
    Ok(())
}

// Eve asks once, and a secret is added. The new life asks for what tells the secret.
const ADDED: Trial = Trial {
    disk: "d/eve.log",
    script: "eve 1 ask true\neve op protect drug(bob)\n",
    ends: [
        (
            10,
            "eve 1 error 41\neve op error 41\n",
            "cqe: journal eve disk fault\n",
        ),
        (11, "eve 1 error 40\neve op error 40\n", "cqe: disk fault\n"),
        (11, "eve 1 yes\neve op error 40\n", "cqe: disk fault\n"),
        (0, "eve 1 yes\neve op protected\n", ""),
    ],
    second: 80,
    ask: "eve 1 ask drug(bob) or drug(ann)\n",
    lives: [
        ("eve 1 yes\n", b"\x01\x01\x00\x16drug(bob) or drug(ann)\x00"),
        (
            "eve 1 yes\n",
            b"\x01\x01\x00\x04true\x01\x01\x00\x16drug(bob) or drug(ann)\x00",
        ),
        (
            "eve 1 no\n",
            b"\x01\x01\x00\x04true\x01\x05\x00\x09drug(bob)\x01\x02\x00\x16drug(bob) or drug(ann)\x00",
        ),
    ],
};

// A secret that was told to be added is there in each new life: what tells it then gets a lie, and
// without it the truth.
#[test]
fn a_crash_leaves_the_secret_that_was_added(rt: HostRuntime) -> Result<(), Fail> {
    let alloc = rt.alloc();
    check_stops(&rt, alloc, &ADDED)?;
    Ok(())
}

// Kim asks whether one of both has hiv, and then whether ann has it, which the new life asks too.
const REFUSED: Trial = Trial {
    disk: "d/kim.log",
    script: "kim 1 ask hiv(ann) or hiv(bob)\nkim 1 ask hiv(ann)\n",
    ends: [
        (
            10,
            "kim 1 error 41\nkim 1 error 41\n",
            "cqe: journal kim disk fault\n",
        ),
        (11, "kim 1 error 40\nkim 1 error 40\n", "cqe: disk fault\n"),
        (11, "kim 1 yes\nkim 1 error 40\n", "cqe: disk fault\n"),
        (0, "kim 1 yes\nkim 1 refused\n", ""),
    ],
    second: 96,
    ask: "kim 1 ask hiv(ann)\n",
    lives: [
        ("kim 1 no\n", b"\x01\x02\x00\x08hiv(ann)\x00"),
        (
            "kim 1 refused\n",
            b"\x01\x01\x00\x14hiv(ann) or hiv(bob)\x01\x03\x00\x08hiv(ann)\x00",
        ),
        (
            "kim 1 refused\n",
            b"\x01\x01\x00\x14hiv(ann) or hiv(bob)\x01\x03\x00\x08hiv(ann)\x01\x03\x00\x08hiv(ann)\x00",
        ),
    ],
};

// Who has been told that one of both has hiv is refused whether it is ann; who hasn't is told no.
// So a new life shows what it found.
#[test]
fn a_new_life_answers_by_what_it_finds(rt: HostRuntime) -> Result<(), Fail> {
    let alloc = rt.alloc();
    check_stops(&rt, alloc, &REFUSED)?;
    Ok(())
}
