//! A job over streams in memory. Replies were worked out by hand.
ghost use Rattle.std.specs.Prelude.{◌≡◌, ◌<◌, ◌≤◌, ◌+◌, ◌^◌};
ghost use Rattle.cqe_base.specs.History.{profile_of};
ghost use Rattle.cqe_base.specs.Limits.{KeepsLimits};

use crate::clinic::{Clinic, TOKEN, bytes_of, counter_of, make_clinic, make_user};
use cqe_base::user::{Method, User};
use outside::{MemorySink, MemorySource, OpenGate};
use serve_engine::SessionJob;
use session_core::Counters;
use std::alloc::Global;
use std::process::Abort;
use std::sync::Wait;
use std::thread::Threads;
use worker_pool::Job;

/// A user who knows that Ann is infected or takes the drug, and from whom it is kept that both are
/// so.
fn user(rt: &impl Abort, alloc: Global, clinic: &Clinic) -> User
    ensures { KeepsLimits clinic.now.schema (profile_of result) }
{
    let known = "hiv(ann) or drug(ann)";
    let secret = "hiv(ann) and drug(ann)";
    let schema = &clinic.schema;
    let mut user = make_user(rt, alloc, schema, "eve", Method::Lying, known, secret);
    user.token = Some(TOKEN);
    user
}

/// A client who says this is told that.
fn check<R: Abort + Threads + Wait + Sync, J: Job<MemorySource, MemorySink>>(
    rt: &R,
    alloc: Global,
    job: &mut J,
    number: u64,
    says: &str,
    told: &str,
)
    requires room { 1 ≤ J.room job.old }
    requires few { J.ran job.old < 2 ^ 31 }
    ensures room { J.room job.old ≤ J.room job.new + 1 }
    ensures ran { J.ran job.new ≡ J.ran job.old + 1 }
{
    let mut source = MemorySource::new(bytes_of(rt, alloc, says));
    let mut sink = MemorySink::new(alloc);
    job.run(rt, alloc, number, &mut source, &mut sink);
    assert_eq!(rt; sink.bytes(), told.as_bytes());
}

/// What the first client was told makes the truth a secret for the second.
fn check_both<R: Abort + Threads + Wait + Sync, J: Job<MemorySource, MemorySink>>(
    rt: &R,
    alloc: Global,
    job: &mut J,
)
    requires room { 2 ≤ J.room job.old }
    requires few { J.ran job.old < 2 ^ 30 }
{
    check(
        rt,
        alloc,
        job,
        0,
        "login eve abc\nask hiv(ann)\n",
        "welcome\nyes\n",
    );
    let says = "login eve abc\nask drug(ann)\nquit\n";
    check(rt, alloc, job, 1, says, "welcome\nno\nbye\n");
}

// Two clients ask by one history.
#[test]
fn a_job_serves_one_client_after_the_other(rt: HostRuntime) {
    let alloc = rt.alloc();
    let clinic = make_clinic(&rt, alloc);
    let users = [user(&rt, alloc, &clinic)];
    let (counter, pass) = counter_of(&rt, alloc, &clinic, &users[0]);
    let Ok(counters) = Vec::from_array(alloc, [counter]) else {
        panic!(rt; "no memory for a counter");
    };
    let Ok(passes) = Vec::from_array(alloc, [pass]) else {
        panic!(rt; "no memory for a pass");
    };
    let (counters, passes) = Counters::new(&users, counters, passes);
    let mut job = SessionJob::new(&counters, passes, &OpenGate);
    check_both(&rt, alloc, &mut job);
    let passes = job.into_passes();
    let (counters, passes) = counters.into_parts(passes);
    assert_eq!(rt; counters.len(), 1);
    assert_eq!(rt; passes.len(), 1);
}
