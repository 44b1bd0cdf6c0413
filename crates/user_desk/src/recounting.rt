//! The records of a journal, gone through as the entries of a user.
ghost use Rattle.std.specs.Prelude.{◌≡◌, true, List, IfOk, Some, All, map, ◌↔◌, IsTrue};
ghost use Rattle.cqe_base.specs.Schema.{DatabaseSchema};
ghost use Rattle.cqe_base.specs.Facts.{FactSet};
ghost use Rattle.cqe_base.specs.History.{UserProfile, profile_of};
ghost use Rattle.cqe_base.specs.Limits.{KeepsLimits};
ghost use Rattle.cqe_base.specs.Censor.{admitted};
ghost use Rattle.censors.specs.Admitting.{admission_of};
ghost use Rattle.log_journal.specs.Records.{Recorded};
ghost use Rattle.log_journal.specs.Opening.{recorded, IsRecord};
ghost use Rattle.user_log.specs.UserLogs.{kept_schema, kept_world, kept_user, kept_history};
ghost use Rattle.user_log.specs.UserLogs.{IsOfSame};
ghost use Rattle.user_desk.specs.Causes.{IsReplay};
ghost use Rattle.user_desk.specs.Replays.{IsLogOf, IsTaken, IsReplayed, refused_by};

use crate::kinds::{mark_of, purpose_by};
use crate::standing::{DeskError, Standing};
use censors::{Admission, admit};
use cqe_base::schema::Schema;
use cqe_base::user::{Item, Mark, User};
use cqe_base::world::World;
use log_journal::Record;
use sentence_text::laws::law_sentences_are_ascii;
use std::alloc::{AllocError, Global};
use user_log::{Reply, UserLog, Weighed};

/// What the records of a user's journal are to him.
#[derive(Drop)]
pub enum Replayed {
    /// They are these items, a legal history of a user who is admitted.
    Open(Vec<Item>),
    /// He isn't admitted, by this test, and there is no record.
    Closed(Admission),
    /// They are refused.
    Sealed(DeskError),
}

/// The records of a user's journal as an opening goes through them, without the disk and without a
/// desk: by the same rules, and with the same refusals.
pub fn replay<'w>(
    alloc: Global,
    schema: &'w Schema,
    world: &'w World,
    user: &'w User,
    records: &[Record],
) -> Result<Replayed, AllocError>
    requires limits { KeepsLimits schema.now (profile_of user.now) }
    requires each { All (IsRecord 5) records.now }
    ensures { IfOk result
        (IsReplayed schema.now world.now (profile_of user.now) (map recorded records.now)) }
{
    let admission = admit(alloc, schema, world, user)?;
    match replay_log(alloc, schema, world, user, admission, records) {
        Ok((log, standing)) => Ok(outcome_of(log, standing)),
        Err(error) => Err(error),
    }
}

// What the log of a replay and its standing are without the log.
fn outcome_of(log: UserLog<'_>, standing: Standing) -> Replayed
    ensures { (schema : DatabaseSchema) (world : FactSet) (user : UserProfile)
        (all : List Recorded)
        → IsLogOf schema world user log.entry
        → IsReplay schema world user all (kept_history log.entry) standing
        → IsReplayed schema world user all result }
{
    log.known();
    match standing {
        Standing::Open => Replayed::Open(log.into_entries()),
        Standing::Closed(admission) => Replayed::Closed(admission),
        Standing::Sealed(why) => Replayed::Sealed(why),
    }
}

/// The log of a user with these records, and his standing. Where he isn't served the log is empty.
pub(crate) fn replay_log<'w>(
    alloc: Global,
    schema: &'w Schema,
    world: &'w World,
    user: &'w User,
    admission: Admission,
    records: &[Record],
) -> Result<(UserLog<'w>, Standing), AllocError>
    requires limits { KeepsLimits schema.now (profile_of user.now) }
    requires admission { admission ≡ admission_of schema.now world.now (profile_of user.now) }
    requires each { All (IsRecord 5) records.now }
    ensures log { IfOk result (λ r. IsLogOf schema.now world.now (profile_of user.now) r.0) }
    ensures replay { IfOk result (λ r.
        IsReplay schema.now world.now (profile_of user.now) (map recorded records.now)
        (kept_history r.0) r.1) }
{
    if let Admission::Open = admission {
        return replay_records(alloc, schema, world, user, records);
    }
    let log = UserLog::new(alloc, schema, world, user)?;
    if records.is_empty() {
        return Ok((log, Standing::Closed(admission)));
    }
    Ok((log, Standing::Sealed(DeskError::NotAdmitted(admission))))
}

// The same for a user who is admitted.
fn replay_records<'w>(
    alloc: Global,
    schema: &'w Schema,
    world: &'w World,
    user: &'w User,
    records: &[Record],
) -> Result<(UserLog<'w>, Standing), AllocError>
    requires limits { KeepsLimits schema.now (profile_of user.now) }
    requires each { All (IsRecord 5) records.now }
    requires admitted { admitted schema.now world.now (profile_of user.now) ≡ true }
    ensures log { IfOk result (λ r. IsLogOf schema.now world.now (profile_of user.now) r.0) }
    ensures replay { IfOk result (λ r.
        IsReplay schema.now world.now (profile_of user.now) (map recorded records.now)
        (kept_history r.0) r.1) }
{
    let mut log = UserLog::new(alloc, schema, world, user)?;
    for next in records {
        log.known();
        if let Some(why) = take_record(alloc, &mut log, next)? {
            let none = UserLog::new(alloc, schema, world, user)?;
            return Ok((none, Standing::Sealed(why)));
        }
    }
    Ok((log, Standing::Open))
}

// Adds the item that a record stands for, or says why the record is refused.
fn take_record(
    alloc: Global,
    log: &mut UserLog<'_>,
    next: &Record,
) -> Result<Option<DeskError>, AllocError>
    requires { IsRecord 5 next.now }
    ensures same { IsOfSame log.old log.new }
    ensures taken { IfOk result
        (IsTaken (kept_schema log.old) (kept_world log.old) (kept_user log.old)
        (kept_history log.old) (kept_history log.new) (recorded next.now)) }
{
    law_sentences_are_ascii();
    log.known();
    let number = log.entries().len() as u32;
    let Ok(text) = str::from_utf8(&next.text) else {
        return Ok(Some(DeskError::Stale(number)));
    };
    let stored = mark_of(next.kind);
    match log.weigh(alloc, purpose_by(stored), text, None)? {
        Weighed::Code(code) => Ok(Some(refused_by(code, number))),
        Weighed::Answer(query, computed) => {
            if !is_same(stored, computed) {
                return Ok(Some(DeskError::Unlawful {
                    number,
                    stored,
                    computed,
                }));
            }
            log.add(alloc, text, query, computed)?;
            Ok(None)
        }
    }
}

// Why the record of this number is refused, whose text is answered by a code.
fn refused_by(code: Reply, number: u32) -> DeskError
    ensures { result ≡ refused_by code number }
{
    match code {
        Reply::Syntax(_) => DeskError::Stale(number),
        Reply::Unsafe => DeskError::Unsafe(number),
        _ => DeskError::Size(number),
    }
}

fn is_same(first: Mark, second: Mark) -> bool
    ensures { IsTrue result ↔ (first ≡ second) }
{
    first == second
}
