//! The ward: a policy of six users, facts, and a shelf with both; and the commands over it.
use super::Stage;
use outside::Plan;
use std::alloc::{AllocError, Global};
use std::process::Abort;
use std::sync::Wait;
use std::thread::Threads;

/// Two persons, and six users: one is lied to, one refused, one both; and three of whom each knows
/// too much.
pub(super) const POLICY: &str = "version = 1\n
[domains]
person = [\"ann\", \"bob\"]\n
[relations]
drug = [\"person\"]
hiv = [\"person\"]\n
[[users]]
name = \"eve\"
method = \"lying\"
know = [\"forall x: person . drug(x) -> hiv(x)\"]
secrets = [\"hiv(ann)\"]
token = \"ba7816bf8f01cfea414140de5dae2223b00361a396177a9cb410ff61f20015ad\"\n
[[users]]
name = \"ron\"
method = \"refusal\"
know = [\"forall x: person . drug(x) -> hiv(x)\"]
secrets = [\"hiv(ann)\"]\n
[[users]]
name = \"kim\"
method = \"combined\"
know = [\"forall x: person . drug(x) -> hiv(x)\"]
secrets = [\"hiv(ann)\", \"hiv(bob)\"]\n
[[users]]
name = \"lou\"
method = \"lying\"
know = [\"hiv(ann) or hiv(bob)\"]
secrets = [\"hiv(ann)\", \"hiv(bob)\"]\n
[[users]]
name = \"max\"
method = \"combined\"
know = [\"hiv(ann) or hiv(bob)\"]
secrets = [\"hiv(ann)\", \"hiv(bob)\"]\n
[[users]]
name = \"tom\"
method = \"refusal\"
know = [\"hiv(bob)\"]
secrets = [\"hiv(ann)\"]
";

/// Ann takes the drug and has hiv.
pub(super) const FACTS: &str = "hiv(ann)\ndrug(ann)\n";

// The SHA-256 of the policy's and of the facts' bytes, taken by another program.
const POLICY_DIGEST: [u8; 32] = [
    85, 94, 215, 246, 192, 98, 118, 97, 176, 229, 89, 222, 78, 185, 83, 189, 43, 151, 15, 5, 152,
    97, 128, 206, 133, 160, 77, 112, 235, 147, 142, 223,
];

const FACTS_DIGEST: [u8; 32] = [
    138, 5, 99, 153, 97, 226, 165, 173, 87, 54, 145, 242, 18, 52, 175, 150, 242, 28, 187, 106, 69,
    181, 196, 185, 119, 95, 82, 137, 92, 253, 226, 5,
];

/// The words of `init`.
pub(super) const INIT: [&str; 7] = ["init", "--policy", "p", "--facts", "f", "--journals", "d"];

/// The words of `batch`.
pub(super) const BATCH: [&str; 7] = ["batch", "--policy", "p", "--facts", "f", "--journals", "d"];

/// The words of eve's `audit`; the last one is the user.
pub(super) const AUDIT: [&str; 9] = [
    "audit",
    "--policy",
    "p",
    "--facts",
    "f",
    "--journals",
    "d",
    "--user",
    "eve",
];

/// The journals of the six users, in the order of the policy.
pub(super) const JOURNALS: [&str; 6] = [
    "d/eve.log",
    "d/ron.log",
    "d/kim.log",
    "d/lou.log",
    "d/max.log",
    "d/tom.log",
];

/// A shelf with these two files.
pub(super) fn stage_of(alloc: Global, policy: &[u8], facts: &[u8]) -> Result<Stage, AllocError> {
    let mut stage = Stage::new(alloc, Plan::Never);
    stage.put_file(alloc, "p", policy)?;
    stage.put_file(alloc, "f", facts)?;
    Ok(stage)
}

/// A shelf with the ward's files, whose calls fail by plan.
pub(super) fn files_by(alloc: Global, plan: Plan) -> Result<Stage, AllocError> {
    let mut stage = Stage::new(alloc, plan);
    stage.put_file(alloc, "p", POLICY.as_bytes())?;
    stage.put_file(alloc, "f", FACTS.as_bytes())?;
    Ok(stage)
}

/// A shelf with the ward's files, and journals that `init` made.
pub(super) fn ward(rt: &(impl Threads + Wait + Sync), alloc: Global) -> Result<Stage, AllocError> {
    let mut stage = files_by(alloc, Plan::Never)?;
    init(rt, alloc, &mut stage)?;
    Ok(stage)
}

/// The same, but for an empty journal of eve's whose calls fail by plan.
pub(super) fn ward_of_eve(
    rt: &(impl Threads + Wait + Sync),
    alloc: Global,
    plan: Plan,
) -> Result<Stage, AllocError> {
    let mut stage = ward(rt, alloc)?;
    stage.put_disk(alloc, "d/eve.log", journal(alloc, &[0])?, plan)?;
    Ok(stage)
}

/// A shelf with the ward's files and empty journals, whose calls fail by plan.
pub(super) fn ward_by(alloc: Global, plan: Plan) -> Result<Stage, AllocError> {
    let mut stage = files_by(alloc, plan)?;
    for name in JOURNALS {
        stage.put_disk(alloc, name, journal(alloc, &[0])?, Plan::Never)?;
    }
    Ok(stage)
}

/// A shelf with the ward's files and empty journals, where that of this name is a disk with these
/// bytes, whose calls fail by plan.
pub(super) fn ward_with(
    alloc: Global,
    name: &str,
    bytes: Vec<u8>,
    plan: Plan,
) -> Result<Stage, AllocError> {
    let mut stage = ward_by(alloc, Plan::Never)?;
    stage.put_disk(alloc, name, bytes, plan)?;
    Ok(stage)
}

/// `init` on this shelf.
pub(super) fn init(
    rt: &(impl Threads + Wait + Sync),
    alloc: Global,
    stage: &mut Stage,
) -> Result<(), AllocError> {
    stage.run(rt, alloc, &INIT, "not read")
}

/// `batch` of this script on this shelf.
pub(super) fn batch(
    rt: &(impl Threads + Wait + Sync),
    alloc: Global,
    stage: &mut Stage,
    script: &str,
) -> Result<(), AllocError> {
    stage.run(rt, alloc, &BATCH, script)
}

/// A journal of the ward: the header, and from byte 72 on these bytes.
pub(super) fn journal(alloc: Global, behind: &[u8]) -> Result<Vec<u8>, AllocError> {
    let mut bytes = Vec::new(alloc);
    bytes.extend_from_slice(b"CQEJRNL2")?;
    bytes.extend_from_slice(&POLICY_DIGEST)?;
    bytes.extend_from_slice(&FACTS_DIGEST)?;
    bytes.extend_from_slice(behind)?;
    Ok(bytes)
}

/// A journal with so many records of an ask `drug(ann)` of eve's, which is answered no.
pub(super) fn told(alloc: Global, count: u64) -> Result<Vec<u8>, AllocError> {
    let mut bytes = journal(alloc, &[])?;
    for _ in 0..count {
        bytes.extend_from_slice(b"\x01\x02\x00\x09drug(ann)")?;
    }
    bytes.push(0)?;
    Ok(bytes)
}

/// A journal has so many such records, where this call failed.
pub(super) fn check_told(
    rt: &impl Abort,
    alloc: Global,
    stage: &Stage,
    name: &str,
    count: u64,
    call: u64,
) -> Result<(), AllocError> {
    let wanted = told(alloc, count)?;
    stage.check_disk(rt, name, &wanted, call);
    Ok(())
}

/// A disk begins with a journal of so many such records, where this call failed.
pub(super) fn check_told_first(
    rt: &impl Abort,
    alloc: Global,
    stage: &Stage,
    name: &str,
    count: u64,
    call: u64,
) -> Result<(), AllocError> {
    let wanted = told(alloc, count)?;
    stage.check_front(rt, name, &wanted, call);
    Ok(())
}

/// The journals of these names are there and empty, where this call failed.
pub(super) fn check_empty(
    rt: &impl Abort,
    alloc: Global,
    stage: &Stage,
    names: &[&str],
    call: u64,
) -> Result<(), AllocError> {
    let empty = journal(alloc, &[0])?;
    for name in names {
        stage.check_disk(rt, name, &empty, call);
    }
    Ok(())
}
