//! Connections that are served at counters, side by side.
ghost use Rattle.std.specs.Prelude.{◌≡◌, ◌≤◌, ◌+◌, ◌*◌, ◌^◌, ◌++◌, ℕ, List, [], All, length, map};
ghost use Rattle.std.specs.Prelude.{vec_capacity, None, IfSome, IfNone};
ghost use Rattle.std.specs.List.{flat_map};
ghost use Rattle.session_core.specs.Members.{ArePassesOf, fixeds_of, passes_in};
ghost use Rattle.serve_engine.specs.Doors.{AreServedDoors, HasOutcome, has_links_failed};
ghost use Rattle.serve_engine.specs.Doors.{crew_outcome};
ghost use Rattle.serve_engine.specs.Jobs.{job_counters, job_passes};
ghost use Rattle.serve_engine.specs.Served.{SessionMarks, SameEntries};
ghost use Rattle.serve_engine.specs.Members.{HaveSeenOpenings, IsServedBy, OwnMore, own_at};
ghost use Rattle.serve_engine.specs.Passing.{HaveShares, HaveTurns, AreOn, OwnAlike, NoneOwn};
ghost use Rattle.serve_engine.specs.Passing.{AreParts, IsWorkerFresh, IsWorkerBack};

use crate::job::SessionJob;
use desk_crew::room_for;
use outside::{Disk, Door, Gate};
use session_core::{Counters, Passes};
use std::alloc::Global;
use std::sync::Wait;
use std::thread::Threads;
use worker_pool::{Worker, WorkerEnd, serve_all};

/// How serving went.
#[derive(Clone, Copy, Debug, PartialEq, Eq)]
pub(crate) enum Outcome {
    /// The links ended, or the limit was reached.
    Served,
    /// A door failed.
    LinksFailed,
    /// Memory was wanting before the first connection.
    Memory,
}

/// A worker with a door and a session's job.
type ServeWorker<'a, 'w, D, G, O> = Worker<SessionJob<'a, 'w, D, G>, O>;

/// Joins passes to these.
fn join_all<D: Disk>(counters: &Counters<'_, D>, passes: &mut Passes<D>, parts: Vec<Passes<D>>)
    requires these { ArePassesOf passes.old counters.now }
    requires those { All (λ part. ArePassesOf part counters.now) parts.items }
    requires shares { All (HaveShares 1) parts.items }
    requires rest { (n : ℕ) × HaveShares n passes.old × (n + length parts.items ≡ 65) }
    requires none { All NoneOwn parts.items }
    ensures these { ArePassesOf passes.new counters.now }
    ensures on { AreOn passes.old passes.new }
    ensures shares { HaveShares 65 passes.new }
    ensures own { OwnAlike passes.old passes.new }
{
    for part in parts {
        counters.meet(passes, part);
    }
}

/// Splits off passes for so many workers. For want of memory all are together again.
fn split_all<D: Disk>(
    alloc: Global,
    counters: &Counters<'_, D>,
    passes: &mut Passes<D>,
    count: usize,
) -> Option<Vec<Passes<D>>>
    requires these { ArePassesOf passes.old counters.now }
    requires shares { HaveShares 65 passes.old }
    requires turns { HaveTurns (65 * 2 ^ 57) passes.old }
    requires few { count ≤ 64 }
    ensures these { ArePassesOf passes.new counters.now }
    ensures on { AreOn passes.old passes.new }
    ensures count { IfSome result (λ parts. length parts.items ≡ count) }
    ensures those { IfSome result
        (λ parts. All (λ part. ArePassesOf part counters.now) parts.items) }
    ensures parts { IfSome result (λ parts. All (AreParts passes.old) parts.items) }
    ensures rest { IfSome result (λ parts. (n : ℕ) × HaveShares n passes.new × (n + count ≡ 65)) }
    ensures none { IfNone result (HaveShares 65 passes.new) }
    ensures own { OwnAlike passes.old passes.new }
{
    let mut parts = room_for(alloc, count).ok()?;
    for _ in 0..count {
        match counters.split(alloc, passes) {
            Ok(part) => parts.push_reserved(part),
            Err(_) => {
                join_all(counters, passes, parts);
                return None;
            }
        }
    }
    Some(parts)
}

/// Gives each door a worker with passes of his own.
fn crew_of<'a, 'w, D: Disk, G: Gate, O: Door + Drop>(
    room: Vec<ServeWorker<'a, 'w, D, G, O>>,
    counters: &'a Counters<'w, D>,
    gate: &'a G,
    parts: Vec<Passes<D>>,
    doors: Vec<O>,
) -> Vec<ServeWorker<'a, 'w, D, G, O>>
    requires room { length doors.items ≤ vec_capacity room }
    requires empty { room.items ≡ [] }
    requires count { length parts.items ≡ length doors.items }
    requires those { All (λ part. ArePassesOf part counters.now) parts.items }
    requires opened { All
        (λ part. HaveSeenOpenings (fixeds_of counters.now) (passes_in part)) parts.items }
    ensures doors { map (λ worker. worker.door) result.items ≡ doors.items }
    ensures fresh { (before : Passes D) → All (AreParts before) parts.items
        → All (IsWorkerFresh counters.now before) result.items }
{
    let mut crew = room;
    let mut parts = parts;
    for door in doors {
        let part = parts.remove(0);
        let job = SessionJob::new(counters, part, gate);
        crew.push_reserved(Worker {
            job,
            door,
            ended: None,
        });
    }
    crew
}

/// Takes the doors of workers back, and joins their passes to these.
fn dismiss<'a, 'w, D: Disk, G: Gate, O: Door + Drop>(
    counters: &Counters<'w, D>,
    passes: &mut Passes<D>,
    crew: Vec<ServeWorker<'a, 'w, D, G, O>>,
    room: Vec<O>,
) -> Vec<O>
    requires these { ArePassesOf passes.old counters.now }
    requires room { length crew.items ≤ vec_capacity room }
    requires empty { room.items ≡ [] }
    requires crew { All (IsWorkerBack counters.now) crew.items }
    requires rest { (n : ℕ) × HaveShares n passes.old × (n + length crew.items ≡ 65) }
    ensures doors { result.items ≡ map (λ worker. worker.door) crew.entry.items }
    ensures these { ArePassesOf passes.new counters.now }
    ensures on { AreOn passes.old passes.new }
    ensures all_on { All (λ worker. AreOn (job_passes worker.job) passes.new) crew.entry.items }
    ensures shares { HaveShares 65 passes.new }
    ensures own { (place : ℕ) → SameEntries (own_at place (passes_in passes.new))
        (own_at place (passes_in passes.old) ++ flat_map
        (λ worker. own_at place (passes_in (job_passes worker.job))) crew.entry.items) }
{
    let mut doors = room;
    for worker in crew {
        counters.meet(passes, worker.job.into_passes());
        doors.push_reserved(worker.door);
    }
    doors
}

/// Whether a worker's links failed.
fn has_failed(ended: Option<WorkerEnd>) -> bool
    ensures { result ≡ has_links_failed ended }
{
    match ended {
        Some(WorkerEnd::LinksFailed) => true,
        Some(WorkerEnd::LinksEnded | WorkerEnd::LimitReached) | None => false,
    }
}

/// How workers that have ended served.
fn outcome_of<J, O>(crew: &[Worker<J, O>]) -> Outcome
    ensures { result ≡ crew_outcome crew.now }
{
    if crew.iter().any(|worker| has_failed(worker.ended)) {
        Outcome::LinksFailed
    } else {
        Outcome::Served
    }
}

/// Serves the connections of doors at the counters, each door by a worker with passes of his own.
/// In the end all passes are together again, and the doors come back.
pub(crate) fn serve_doors<
    R: Threads + Wait + Sync,
    D: Disk + Drop + Send,
    O: Door + Drop + Send,
    G: Gate + Sync,
>(
    rt: &R,
    alloc: Global,
    counters: &Counters<'_, D>,
    passes: &mut Passes<D>,
    doors: Vec<O>,
    limit: u64,
    gate: &G,
) -> (Outcome, Vec<O>)
    requires these { ArePassesOf passes.old counters.now }
    requires opened { HaveSeenOpenings (fixeds_of counters.now) (passes_in passes.old) }
    requires shares { HaveShares 65 passes.old }
    requires turns { HaveTurns (65 * 2 ^ 57) passes.old }
    requires some { 1 ≤ length doors.items }
    requires few { length doors.items ≤ 64 }
    requires limit { limit ≤ 2 ^ 30 }
    requires whole { All (λ door. O.faults door ≡ 0) doors.items }
    requires unended { All (λ door. O.ends door ≡ 0) doors.items }
    ensures these { ArePassesOf passes.new counters.now }
    ensures on { AreOn passes.old passes.new }
    ensures shares { HaveShares 65 passes.new }
    ensures served { (total : ℕ) × (marks : O.tells → List SessionMarks)
        × AreServedDoors O.Door
        (IsServedBy counters.now passes.new) total marks doors.items result.1.items
        × HasOutcome O.Door limit result.0 total result.1.items
        × (total ≤ limit)
        × ((t : O.tells) → OwnMore (passes_in passes.old) (passes_in passes.new) (marks t)) }
{
    let count = doors.len();
    let (Ok(crew_room), Ok(room)) = (room_for(alloc, count), room_for(alloc, count)) else {
        return (Outcome::Memory, doors);
    };
    let Some(parts) = split_all(alloc, counters, passes, count) else {
        return (Outcome::Memory, doors);
    };
    let crew = crew_of(crew_room, counters, gate, parts, doors);
    match serve_all(rt, alloc, crew, limit) {
        Ok(crew) => {
            let outcome = outcome_of(crew.as_slice());
            (outcome, dismiss(counters, passes, crew, room))
        }
        Err(crew) => (Outcome::Memory, dismiss(counters, passes, crew, room)),
    }
}
