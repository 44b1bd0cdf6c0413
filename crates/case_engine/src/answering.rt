//! The asks of a script are answered, one line for each.

ghost use Rattle.std.specs.Prelude.{◌≡◌, ◌≤◌, true, IfOk, length, map, nat_le, string_bytes};
ghost use Rattle.std.specs.Prelude.{vec_len};
ghost use Rattle.std.specs.List.{list_all};
ghost use Rattle.outside.specs.Faults.{Rose};
ghost use Rattle.user_log.specs.Replies.{reply_of};
ghost use Rattle.user_log.specs.UserLogs.{kept_schema, kept_world, kept_user, kept_history};
ghost use Rattle.user_log.specs.UserLogs.{IsOfSame};
ghost use Rattle.cqe_base.specs.History.{profile_of, is_user_of};
ghost use Rattle.cqe_base.specs.Censor.{admitted};
ghost use Rattle.cqe_base.specs.Limits.{KeepsLimits};
ghost use Rattle.case_engine.specs.Sound.{is_short};
ghost use Rattle.case_engine.specs.Answering.{IsTold};
ghost use Rattle.case_engine.specs.Case.{IsSilent};
ghost use Rattle.case_engine.specs.Written.{IsAnswered};

use crate::case::CaseEnd;
use crate::parts::Parts;
use censors::{Admission, admit};
use cqe_base::laws::{law_hides, law_legal_grows, law_runs_legal, law_runs_of_schema};
use cqe_base::schema::Schema;
use cqe_base::user::User;
use cqe_base::world::World;
use line_protocol::write_reply;
use outside::{Failed, Sink};
use std::alloc::{AllocError, Global};
use std::thread::Threads;
use user_log::{Reply, UserLog, line_reply};

/// The reply to one text: by the user's log where he is admitted, else that he isn't.
fn told<R: Threads + Sync>(
    rt: &R,
    alloc: Global,
    log: &mut UserLog<'_>,
    is_open: bool,
    text: &str,
) -> Reply
    requires { length text.now ≤ 4096 }
    ensures same { IsOfSame log.old log.new }
    ensures told { IsTold is_open (kept_schema log.old) (kept_world log.old) (kept_user log.old)
        (kept_history log.old) (kept_history log.new) text.now (reply_of result) }
{
    if is_open {
        log.ask(rt, alloc, text)
    } else {
        Reply::Closed
    }
}

/// Whether a user is admitted in a database.
fn is_admitted(
    alloc: Global,
    schema: &Schema,
    facts: &World,
    user: &User,
) -> Result<bool, AllocError>
    requires { KeepsLimits schema.now (profile_of user.now) }
    ensures { IfOk result (λ is_open. is_open
        ≡ admitted schema.now facts.now (profile_of user.now)) }
{
    match admit(alloc, schema, facts, user)? {
        Admission::Open => Ok(true),
        Admission::KnowFalse(_) | Admission::Implied(_) | Admission::Spent(_) => Ok(false),
    }
}

/// Answers the asks of a script. A script without an ask makes no user.
pub fn answer_all<R: Threads + Sync, K: Sink>(
    rt: &R,
    alloc: Global,
    parts: &Parts,
    sink: &mut K,
) -> CaseEnd
    requires short { list_all is_short (map string_bytes parts.now.asks.items) ≡ true }
    requires sentences { is_user_of parts.now.schema (profile_of parts.now.user) ≡ true }
    requires limits { nat_le 1 (vec_len parts.now.asks) ≡ true
        → KeepsLimits parts.now.schema (profile_of parts.now.user) }
    ensures answered { K.tells
        → IsAnswered parts.now.schema parts.now.facts (profile_of parts.now.user)
        (map string_bytes parts.now.asks.items)
        (K.written sink.old) (K.written sink.new) result }
    ensures silent { IsSilent result → sink.new ≡ sink.old }
    ensures no_read { result ≡ CaseEnd.ReadFault → ⊥ }
    ensures later { K.faults sink.old ≤ K.faults sink.new }
    ensures cause { result ≡ CaseEnd.WriteFault → Rose (K.faults sink.old) (K.faults sink.new) }
{
    law_hides();
    law_legal_grows();
    law_runs_legal();
    law_runs_of_schema();
    parts.schema.known();
    if parts.asks.is_empty() {
        return CaseEnd::Done;
    }
    let Ok(is_open) = is_admitted(alloc, &parts.schema, &parts.facts, &parts.user) else {
        return CaseEnd::Memory;
    };
    let Ok(mut log) = UserLog::new(alloc, &parts.schema, &parts.facts, &parts.user) else {
        return CaseEnd::Memory;
    };
    for text in &parts.asks {
        let reply = told(rt, alloc, &mut log, is_open, text.as_str());
        match write_reply(sink, &line_reply(reply)) {
            Ok(()) => (),
            Err(Failed) => return CaseEnd::WriteFault,
        }
    }
    CaseEnd::Done
}
