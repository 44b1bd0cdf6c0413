//! The run of a workload.
ghost use Rattle.std.specs.Prelude.{◌≡◌, ◌≤◌, List, false, map, All, Ok, IfOk, is_some};
ghost use Rattle.std.specs.List.{AllByRecursion, list_any};
ghost use Rattle.cqe_base.specs.Schema.{has_duplicate};
ghost use Rattle.cqe_base.specs.History.{profile_of};
ghost use Rattle.cqe_base.specs.Limits.{KeepsLimits};
ghost use Rattle.init_engine.specs.Disks.{user_names};
ghost use Rattle.desk_crew.specs.Crew.{named_user};
ghost use Rattle.outside.specs.Faults.{Rose};
ghost use Rattle.outside.specs.MemoryStreams.{sink_written};
ghost use Rattle.policy_files.specs.Policy.{policy_in};
ghost use Rattle.policy_files.specs.Facts.{facts_of};
ghost use Rattle.batch_engine.specs.BatchLines.{BatchItem, batch_of};
ghost use Rattle.workload.specs.Stated.{workload_schema, workload_world};
ghost use Rattle.workload.specs.Policies.{workload_policy};
ghost use Rattle.workload.specs.Scripts.{workload_script};
ghost use Rattle.selfrun_engine.specs.Counting.{tally_in};
ghost use Rattle.selfrun_engine.specs.Outputs.{IsOfUser, IsOutput};
ghost use Rattle.selfrun_engine.specs.Runs.{IsTally, EndsSelfrun};
ghost use Rattle.selfrun_engine.specs.declared.end.SelfrunEnd.{SelfrunEnd};

use crate::end::SelfrunEnd;
use crate::summary::summary_lines;
use crate::tally::{Tally, tally_in};
use batch_engine::{BatchEnd, run_batch};
use cqe_base::world::World;
use desk_crew::Registry;
use init_engine::{InitEnd, run_init};
use log_journal::Header;
use outside::{Failed, MemoryShelf, MemorySink, MemorySource, OpenGate, Sink, write_parts};
use policy_files::{Policy, read_facts, read_policy};
use sha2::{Digest, Sha256};
use std::alloc::{AllocError, Global};
use std::sync::Wait;
use std::thread::Threads;
use user_desk::DeskError;
use workload::{Workload, make};

/// Makes the workload of a seed, for 1 to 256 users and 1 to 10,000 asks, runs it over objects in
/// memory, and writes the summary: eight lines with the seed, how many users and asks there are,
/// how often each mark came, and how often another reply. Want of memory in one of the objects ends
/// the run as any other want of memory does.
pub fn run_selfrun<R: Threads + Wait + Sync, K: Sink>(
    rt: &R,
    alloc: Global,
    seed: u64,
    users: u32,
    asks: u32,
    sink: &mut K,
) -> SelfrunEnd
    requires some_user { 1 ≤ users }
    requires few_users { users ≤ 256 }
    requires some_ask { 1 ≤ asks }
    requires few_asks { asks ≤ 10000 }
    ensures ends { K.tells
        → EndsSelfrun seed users asks result (K.written sink.old) (K.written sink.new) }
    ensures silent { result ≡ SelfrunEnd.Memory → sink.new ≡ sink.old }
    ensures later { K.faults sink.old ≤ K.faults sink.new }
    ensures cause { result ≡ SelfrunEnd.WriteFault → Rose (K.faults sink.old) (K.faults sink.new) }
{
    let Ok(tally) = run(rt, alloc, seed, users, asks) else {
        return SelfrunEnd::Memory;
    };
    let Ok(lines) = summary_lines(alloc, seed, users, asks, &tally) else {
        return SelfrunEnd::Memory;
    };
    match write_parts(sink, &lines) {
        Ok(()) => SelfrunEnd::Done,
        Err(Failed) => SelfrunEnd::WriteFault,
    }
}

// Makes the workload, runs it, and counts the replies.
fn run<R: Threads + Wait + Sync>(
    rt: &R,
    alloc: Global,
    seed: u64,
    users: u32,
    asks: u32,
) -> Result<Tally, AllocError>
    requires some_user { 1 ≤ users }
    requires few_users { users ≤ 256 }
    requires some_ask { 1 ≤ asks }
    requires few_asks { asks ≤ 10000 }
    ensures { IfOk result (IsTally seed users asks) }
{
    let made = make(alloc, seed, users, asks)?;
    let Ok(policy) = read_policy(alloc, &made.policy) else {
        return Err(AllocError);
    };
    let Ok(world) = read_facts(alloc, &policy.schema, &made.facts) else {
        return Err(AllocError);
    };
    let header = Header {
        policy: Sha256::digest(&made.policy),
        facts: Sha256::digest(&made.facts),
    };
    let output = answers(rt, alloc, &policy, &world, &header, made.script)?;
    Ok(tally_in(output.bytes()))
}

// The directory of the journals on the shelf in memory.
const JOURNALS: &str = "journals";

// How many workers answer.
const WORKERS: u32 = 4;

// The lines of a script over the users of a policy, whose journals are made on a shelf in memory.
// Where a call of one of the objects in memory fails, memory was wanting.
fn answers<R: Threads + Wait + Sync>(
    rt: &R,
    alloc: Global,
    policy: &Policy,
    world: &World,
    header: &Header,
    script: Vec<u8>,
) -> Result<MemorySink, AllocError>
    requires limits { All
        (λ user. KeepsLimits policy.now.schema (profile_of user)) policy.now.users.items }
    requires names { has_duplicate (user_names policy.now.users.items) ≡ false }
    ensures { IfOk result (λ output. (items : List BatchItem) → batch_of script.items ≡ Ok items
        → AllByRecursion (IsOfUser (map named_user policy.now.users.items)) items
        → IsOutput policy.now.schema world.now (map named_user policy.now.users.items) items
        (sink_written output)) }
{
    let users = policy.users.as_slice();
    let mut shelf = MemoryShelf::new(alloc);
    match run_init(alloc, users, header, JOURNALS, &mut shelf) {
        InitEnd::Done => (),
        _ => return Err(AllocError),
    }
    let registry = Registry {
        schema: &policy.schema,
        world,
        users,
        header,
        directory: JOURNALS,
    };
    let mut source = MemorySource::new(script);
    let mut output = MemorySink::new(alloc);
    match run_batch(
        rt,
        alloc,
        &registry,
        WORKERS,
        &mut shelf,
        &mut source,
        &mut output,
        &OpenGate,
    ) {
        BatchEnd::Done(refusals, is_broken) => {
            if is_broken || has_refusal(&refusals) {
                return Err(AllocError);
            }
            Ok(output)
        }
        _ => Err(AllocError),
    }
}

// Whether a journal was refused.
fn has_refusal(refusals: &[Option<DeskError>]) -> bool
    ensures { result ≡ list_any is_some refusals.now }
{
    refusals.iter().any(|refusal| refusal.is_some())
}
