//! The dossiers of a workload's users: each is accepted, with all of his items.
ghost use Rattle.std.specs.Prelude.{◌≤◌, All, IfOk, IfSome, length};
ghost use Rattle.cqe_base.specs.History.{profile_of};
ghost use Rattle.cqe_base.specs.Limits.{KeepsLimits};
ghost use Rattle.log_journal.specs.Opening.{IsRecord};

use crate::dossiers::{record, written};
use cqe_base::schema::Schema;
use cqe_base::user::{Mark, User};
use cqe_base::world::World;
use dossier::check_dossier;
use log_journal::Record;
use policy_files::{Policy, read_facts, read_policy};
use std::alloc::Global;
use std::process::Abort;
use std::test::Fail;
use std::thread::Threads;
use user_log::{Reply, UserLog};
use workload::{Workload, make};

/// The kind of the record of a reply, if it is a mark.
fn kind_of(reply: Reply) -> Option<u8>
    ensures low { IfSome result (λ kind. 1 ≤ kind) }
    ensures high { IfSome result (λ kind. kind ≤ 5) }
{
    match reply {
        Reply::Mark(Mark::Yes) => Some(1),
        Reply::Mark(Mark::No) => Some(2),
        Reply::Mark(Mark::Refused) => Some(3),
        Reply::Mark(Mark::Undecided) => Some(4),
        Reply::Mark(Mark::Protected) => Some(5),
        _ => None,
    }
}

/// The reply to a text that is asked.
fn told<R: Threads + Sync>(rt: &R, alloc: Global, log: &mut UserLog<'_>, text: &str) -> Reply
    requires { length text.now ≤ 4096 }
{
    log.ask(rt, alloc, text)
}

/// The record of an ask's mark, which is added to the log.
fn asked<R: Abort + Threads + Sync>(
    rt: &R,
    alloc: Global,
    log: &mut UserLog<'_>,
    text: &str,
) -> Result<Record, Fail>
    ensures { IfOk result (IsRecord 5) }
{
    if text.len() > 4096 {
        panic!(rt; "too long");
    }
    let Some(kind) = kind_of(told(rt, alloc, log, text)) else {
        panic!(rt; "no mark");
    };
    let made = record(alloc, kind, text)?;
    Ok(made)
}

/// The text of a script's line, if this user asks it.
fn text_of<'a>(rt: &impl Abort, line: &'a str, user: &str) -> Option<&'a str> {
    let Some((name, text)) = line.split_once(" 1 ask ") else {
        panic!(rt; "no ask");
    };
    if name == user { Some(text) } else { None }
}

/// The records of what a user asks in a script, which is added to his log.
fn records_in<R: Abort + Threads + Sync>(
    rt: &R,
    alloc: Global,
    log: &mut UserLog<'_>,
    user: &str,
    script: &str,
) -> Result<Vec<Record>, Fail>
    ensures { IfOk result (λ records. All (IsRecord 5) records.items) }
{
    let mut records = Vec::new(alloc);
    for line in script.lines() {
        if let Some(text) = text_of(rt, line, user) {
            records.push(asked(rt, alloc, log, text)?)?;
        }
    }
    Ok(records)
}

/// The records of what a user asks in a script, from an empty history.
fn records_of<R: Abort + Threads + Sync>(
    rt: &R,
    alloc: Global,
    schema: &Schema,
    world: &World,
    user: &User,
    script: &str,
) -> Result<Vec<Record>, Fail>
    requires { KeepsLimits schema.now (profile_of user.now) }
    ensures { IfOk result (λ records. All (IsRecord 5) records.items) }
{
    let mut log = UserLog::new(alloc, schema, world, user)?;
    let records = records_in(rt, alloc, &mut log, user.name.as_str(), script)?;
    Ok(records)
}

/// The dossier of what a user asks in a script.
fn dossier_of<R: Abort + Threads + Sync>(
    rt: &R,
    alloc: Global,
    schema: &Schema,
    world: &World,
    user: &User,
    script: &str,
) -> Result<Vec<u8>, Fail>
    requires { KeepsLimits schema.now (profile_of user.now) }
{
    let records = records_of(rt, alloc, schema, world, user, script)?;
    Ok(written(rt, alloc, schema, world, user, &records))
}

/// How many items the check finds in a dossier of the user.
fn items_in(
    rt: &impl Abort,
    alloc: Global,
    schema: &Schema,
    world: &World,
    user: &User,
    bytes: &[u8],
) -> u32
    requires { KeepsLimits schema.now (profile_of user.now) }
{
    let Ok(text) = str::from_utf8(bytes) else {
        panic!(rt; "no text");
    };
    if text.len() > 1_000_000 {
        panic!(rt; "too long");
    }
    match check_dossier(alloc, schema, world, user, text) {
        Ok(count) => count,
        Err(_) => panic!(rt; "refused"),
    }
}

/// How many items the check finds in a user's dossier.
fn items_shown<R: Abort + Threads + Sync>(
    rt: &R,
    alloc: Global,
    schema: &Schema,
    world: &World,
    user: &User,
    script: &str,
) -> Result<u32, Fail>
    requires { KeepsLimits schema.now (profile_of user.now) }
{
    let bytes = dossier_of(rt, alloc, schema, world, user, script)?;
    Ok(items_in(rt, alloc, schema, world, user, &bytes))
}

/// Whether each user's dossier shows so many items.
fn all_show<R: Abort + Threads + Sync>(
    rt: &R,
    alloc: Global,
    schema: &Schema,
    world: &World,
    users: &[User],
    script: &str,
    count: u32,
) -> Result<bool, Fail>
    requires { All (λ user. KeepsLimits schema.now (profile_of user)) users.now }
{
    for user in users {
        let shown = items_shown(rt, alloc, schema, world, user, script)?;
        if shown != count {
            return Ok(false);
        }
    }
    Ok(true)
}

/// A policy, whose users keep the limits.
fn policy_of(rt: &impl Abort, alloc: Global, bytes: &[u8]) -> Policy
    ensures { All (λ user. KeepsLimits result.schema (profile_of user)) result.users.items }
{
    match read_policy(alloc, bytes) {
        Ok(policy) => policy,
        Err(_) => panic!(rt; "no policy"),
    }
}

/// The facts of a policy's schema.
fn world_of(rt: &impl Abort, alloc: Global, schema: &Schema, bytes: &[u8]) -> World {
    match read_facts(alloc, schema, bytes) {
        Ok(world) => world,
        Err(_) => panic!(rt; "no facts"),
    }
}

/// Each of the policy's three users shows what he asks, every third of the sixty.
fn thirds_are_shown<R: Abort + Threads + Sync>(
    rt: &R,
    alloc: Global,
    policy: &Policy,
    world: &World,
    script: &[u8],
) -> Result<(), Fail>
    requires { All (λ user. KeepsLimits policy.now.schema (profile_of user))
        policy.now.users.items }
{
    let Ok(script) = str::from_utf8(script) else {
        panic!(rt; "no script");
    };
    let (schema, users) = (&policy.schema, &policy.users);
    assert_eq!(rt; users.len(), 3);
    assert!(rt; all_show(rt, alloc, schema, world, users, script, 20)?);
    Ok(())
}

/// The workload of a seed, for three users and sixty asks.
fn workload(alloc: Global) -> Result<Workload, Fail> {
    let made = make(alloc, 7, 3, 60)?;
    Ok(made)
}

// Each of the three users, one by each method, asks every third of the sixty.
#[test]
fn the_dossiers_of_a_workload_are_accepted(rt: HostRuntime) -> Result<(), Fail> {
    let alloc = rt.alloc();
    let made = workload(alloc)?;
    let policy = policy_of(&rt, alloc, &made.policy);
    let world = world_of(&rt, alloc, &policy.schema, &made.facts);
    thirds_are_shown(&rt, alloc, &policy, &world, &made.script)
}
