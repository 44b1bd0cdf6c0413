ghost use Rattle.std.specs.Prelude.{◌≡◌, ◌≤◌, ◌+◌, true, All, None, length, vec_capacity, IfOk};
ghost use Rattle.std.proofs.Common.{refl, ◌∙◌};
ghost use Rattle.std.proofs.lemmas.List.Elements.{All-nil};

use crate::checks;
use outside::{
    Connection, Links, MemoryDoor, MemoryLinks, MemorySink, MemorySource, Plan, Sink, Source,
    write_all,
};
use std::alloc::Global;
use std::process::Abort;
use std::sync::Wait;
use std::test::Fail;
use std::thread::Threads;
use worker_pool::{Job, Worker, WorkerEnd, serve_all};

// A job that greets each client without hearing it, and remembers its numbers.
#[derive(Drop)]
struct Greeter {
    room: u64,
    numbers: Vec<u64>,
    ghost space: { room + length numbers.items ≤ vec_capacity numbers },
}

impl<S: Source, K: Sink> Job<S, K> for Greeter {
    ghost tells = { Unit {0} };

    ghost room = { λ job. job.room };

    ghost ran = { λ job. length job.numbers.items };

    ghost numbers = { λ job. job.numbers.items };

    ghost stands = { λ first job visits. All (λ visit. visit.source_whole ≡ true) visits };

    ghost stands_none = { λ job. All-nil (λ visit. visit.source_whole ≡ true) };

    ghost keeps = { λ before after. vec_capacity after.numbers ≡ vec_capacity before.numbers };

    ghost keeps_none = { λ job. refl };

    ghost keeps_more = { λ before between after first second. second ∙ first };

    fn run<R: Threads + Wait + Sync>(
        &mut self,
        _rt: &R,
        _alloc: Global,
        number: u64,
        _source: &mut S,
        sink: &mut K,
    ) {
        let _written = write_all(sink, b"hello\n");
        self.room -= 1;
        self.numbers.push_reserved(number);
    }
}

// Workers for these doors, with room for so many runs each.
fn crew_for(
    alloc: Global,
    doors: Vec<MemoryDoor>,
    room: u64,
) -> Result<Vec<Worker<Greeter, MemoryDoor>>, Fail>
    ensures count { IfOk result (λ crew. length crew.items ≡ length doors.items) }
    ensures running { IfOk result (λ crew. All (λ worker. worker.ended ≡ None) crew.items) }
    ensures none { IfOk result (λ crew.
        All (λ worker. length worker.job.numbers.items ≡ 0) crew.items) }
    ensures room { IfOk result (λ crew. All (λ worker. worker.job.room ≡ room) crew.items) }
{
    let mut crew = Vec::new(alloc);
    for door in doors {
        let numbers = Vec::with_capacity(alloc, room as usize)?;
        crew.push(Worker {
            job: Greeter { room, numbers },
            door,
            ended: None,
        })?;
    }
    Ok(crew)
}

// So many connections, whose clients send nothing.
fn connections(alloc: Global, count: usize) -> Result<Vec<Connection>, Fail> {
    let mut all = Vec::new(alloc);
    for _ in 0..count {
        let source = MemorySource::new(Vec::new(alloc));
        all.push(Connection::new(source, MemorySink::new(alloc)))?;
    }
    Ok(all)
}

// Serves these links with so many workers up to a limit.
fn serve<R: Threads + Wait + Abort + Sync>(
    rt: &R,
    alloc: Global,
    links: &mut MemoryLinks,
    workers: u32,
    limit: u64,
) -> Result<Vec<Worker<Greeter, MemoryDoor>>, Fail>
    requires some { 1 ≤ workers }
    requires few { workers ≤ 64 }
    requires limit { limit ≤ 1000 }
{
    let doors = links.listen(alloc, "here", workers)?;
    let crew = crew_for(alloc, doors, limit)?;
    match serve_all(rt, alloc, crew, limit) {
        Ok(crew) => Ok(crew),
        Err(_) => panic!(rt; "memory"),
    }
}

// Checks that each worker greeted the connections that its door gave, with different numbers below
// this one, and answers how many there were.
fn check_greeted(rt: &impl Abort, crew: &[Worker<Greeter, MemoryDoor>], below: usize) -> usize {
    let mut seen = [false; 1000];
    let mut all = 0usize;
    for worker in crew {
        check_door(rt, &worker.door, worker.job.numbers.len());
        check_numbers(rt, &worker.job.numbers, below, &mut seen);
        all = all.wrapping_add(worker.job.numbers.len());
    }
    all
}

// Checks that a door gave so many connections back, each of them greeted.
fn check_door(rt: &impl Abort, door: &MemoryDoor, count: usize) {
    assert_eq!(rt; door.finished().len(), count);
    for finished in door.finished() {
        assert_eq!(rt; finished.sink.bytes(), b"hello\n".as_slice());
    }
}

// Checks that these numbers are below this one and weren't seen yet, and marks them.
fn check_numbers(rt: &impl Abort, numbers: &[u64], below: usize, seen: &mut [bool; 1000]) {
    for number in numbers {
        let number = *number as usize;
        assert!(rt; number < below && number < 1000);
        assert!(rt; !seen[number]);
        seen[number] = true;
    }
}

// How many workers ended so.
fn ended(crew: &[Worker<Greeter, MemoryDoor>], end: WorkerEnd) -> usize {
    crew.iter()
        .filter(|worker| worker.ended == Some(end))
        .count()
}

#[test]
fn eight_workers_serve_two_hundred_connections(rt: HostRuntime) -> Result<(), Fail> {
    let mut links = MemoryLinks::new(rt.alloc(), connections(rt.alloc(), 200)?);
    let crew = serve(&rt, rt.alloc(), &mut links, 8, 1000)?;
    checks::count(&rt, "greeted", check_greeted(&rt, &crew, 208), 200);
    checks::count(&rt, "ended", ended(&crew, WorkerEnd::LinksEnded), 8);
    Ok(())
}

#[test]
fn workers_stop_at_the_limit(rt: HostRuntime) -> Result<(), Fail> {
    let mut links = MemoryLinks::new(rt.alloc(), connections(rt.alloc(), 200)?);
    let crew = serve(&rt, rt.alloc(), &mut links, 8, 50)?;
    let all = check_greeted(&rt, &crew, 50);
    assert!(rt; all <= 50 && all > 42);
    assert!(rt; ended(&crew, WorkerEnd::LimitReached) > 0);
    let crew = serve(&rt, rt.alloc(), &mut links, 1, 0)?;
    checks::count(&rt, "greeted", check_greeted(&rt, &crew, 0), 0);
    checks::count(&rt, "ended", ended(&crew, WorkerEnd::LimitReached), 1);
    Ok(())
}

#[test]
fn a_worker_ends_where_its_door_fails(rt: HostRuntime) -> Result<(), Fail> {
    let alloc = rt.alloc();
    let mut door_plans = Vec::new(alloc);
    door_plans.push(Plan::At(vec![in alloc; 1]?))?;
    let mut links = MemoryLinks::with_plans(alloc, connections(alloc, 6)?, Plan::Never, door_plans);
    let crew = serve(&rt, rt.alloc(), &mut links, 2, 100)?;
    checks::count(&rt, "greeted", check_greeted(&rt, &crew, 100), 4);
    checks::count(&rt, "ended", ended(&crew, WorkerEnd::LinksFailed), 1);
    checks::count(&rt, "ended", ended(&crew, WorkerEnd::LinksEnded), 1);
    Ok(())
}
