//! Workers that serve side by side.
ghost use Rattle.std.specs.Prelude.{◌≡◌, ◌≢◌, ◌≤◌, ◌<◌, ◌+◌, ◌^◌, [], ◌∷◌, All, map, length};
ghost use Rattle.std.specs.Prelude.{sum_by, slice_index_or, ℕ, vec_capacity, Some, None, IfOk};
ghost use Rattle.std.specs.Prelude.{IfErr, IfSome, IfNone, OnSome};
ghost use Rattle.std.specs.List.{AllZip};
ghost use Rattle.std.specs.Thread.{IsSync};
ghost use Rattle.outside.specs.Faults.{Rose};
ghost use Rattle.worker_pool.specs.Hands.{first_hand, split_off_hand};
ghost use Rattle.worker_pool.specs.Drawers.{hand_of, drawn, IsAt};
ghost use Rattle.worker_pool.specs.Seats.{draws};
ghost use Rattle.worker_pool.specs.Runs.{HasRun, HasWorked};
ghost use Rattle.worker_pool.specs.Workers.{IsWorkedThrough, AreDifferentBelow, lost};
ghost use Rattle.worker_pool.specs.Workers.{added_numbers};
ghost use Rattle.worker_pool.specs.declared.worker.WorkerEnd.{WorkerEnd};

use crate::numbers::{Drawer, Numbers};
use crate::worker::{Job, Worker, WorkerEnd};
use outside::{Door, Failed};
use std::alloc::Global;
use std::sync::Wait;
use std::thread;
use std::thread::Threads;

// A worker with what it draws its numbers with.
#[derive(Drop)]
struct Seated<J, O> {
    worker: Worker<J, O>,
    drawer: Drawer,
}

// Serves the next connection, and answers how the worker ended where there was none.
fn serve_next<R: Threads + Wait + Sync, O: Door, J: Job<O::Src, O::Snk>>(
    rt: &R,
    alloc: Global,
    number: u64,
    worker: &mut Worker<J, O>,
) -> Option<WorkerEnd>
    requires room { 1 ≤ J.room worker.old.job }
    requires few { J.ran worker.old.job < 2 ^ 31 }
    ensures served { IfNone result
        (HasRun O.tells J.tells O.given O.left O.ends O.faults O.back J.room J.ran J.numbers
        J.stands J.keeps (number ∷ []) worker.old worker.new) }
    ensures ended { OnSome result
        (HasRun O.tells J.tells O.given O.left O.ends O.faults O.back J.room J.ran J.numbers
        J.stands J.keeps [] worker.old worker.new) }
    ensures at_end { result ≡ Some WorkerEnd.LinksEnded
        → Rose (O.ends worker.old.door) (O.ends worker.new.door)
        × (O.tells → O.left worker.new.door ≡ 0) }
    ensures at_failure { result ≡ Some WorkerEnd.LinksFailed
        → Rose (O.faults worker.old.door) (O.faults worker.new.door) }
    ensures no_limit { result ≢ Some WorkerEnd.LimitReached }
{
    match worker.door.next() {
        Ok(Some((source, sink))) => {
            let (mut source, mut sink) = (source, sink);
            worker.job.run(rt, alloc, number, &mut source, &mut sink);
            worker.door.done(source, sink);
            None
        }
        Ok(None) => Some(WorkerEnd::LinksEnded),
        Err(Failed) => Some(WorkerEnd::LinksFailed),
    }
}

// Serves connections up to the end of the links, their failure or the limit.
fn work<R: Threads + Wait + Sync, O: Door, J: Job<O::Src, O::Snk>>(
    rt: &R,
    alloc: Global,
    numbers: &Numbers,
    limit: u64,
    seated: &mut Seated<J, O>,
)
    requires place { IsAt numbers.now seated.old.drawer }
    requires hand { hand_of seated.old.drawer ≡ split_off_hand }
    requires limit { limit ≤ 2 ^ 30 }
    requires room { limit ≤ J.room seated.old.worker.job }
    requires none { J.ran seated.old.worker.job ≡ 0 }
    ensures place { IsAt numbers.now seated.new.drawer }
    ensures part { (hand_of seated.new.drawer).parts ≡ 1 }
    ensures worked { HasWorked O.tells J.tells O.given O.left O.ends O.faults O.back J.room J.ran
        J.numbers J.stands
        J.keeps limit (drawn seated.new.drawer) seated.old.worker seated.new.worker }
{
    for _ in 0..limit + 1 {
        let number = numbers.draw(&mut seated.drawer);
        if number >= limit {
            seated.worker.ended = Some(WorkerEnd::LimitReached);
            return;
        }
        if let Some(end) = serve_next(rt, alloc, number, &mut seated.worker) {
            seated.worker.ended = Some(end);
            return;
        }
    }
    unreachable!()
}

// Gives each worker what it draws with.
fn seat_all<J: Drop, O: Drop>(
    numbers: &Numbers,
    drawer: &mut Drawer,
    crew: Vec<Worker<J, O>>,
    room: Vec<Seated<J, O>>,
) -> Vec<Seated<J, O>>
    requires place { IsAt numbers.now drawer.old }
    requires first { hand_of drawer.old ≡ first_hand }
    requires few { length crew.items ≤ 64 }
    requires room { length crew.items ≤ vec_capacity room }
    requires empty { room.items ≡ [] }
    ensures workers { map (λ seated. seated.worker) result.items ≡ crew.items }
    ensures places { All (λ seated. IsAt numbers.now seated.drawer) result.items }
    ensures hands { All (λ seated. hand_of seated.drawer ≡ split_off_hand) result.items }
    ensures place { IsAt numbers.now drawer.new }
    ensures parts { (hand_of drawer.new).parts + length crew.items ≡ 65 }
    ensures drawn { drawn drawer.new ≡ [] }
{
    let mut all = room;
    for worker in crew {
        let drawer = numbers.split(drawer);
        all.push_reserved(Seated { worker, drawer });
    }
    all
}

// Takes the workers back, and joins what they drew with.
fn join_all<J: Drop, O: Drop>(
    numbers: &Numbers,
    drawer: &mut Drawer,
    all: Vec<Seated<J, O>>,
    room: Vec<Worker<J, O>>,
) -> Vec<Worker<J, O>>
    requires place { IsAt numbers.now drawer.old }
    requires places { All (λ seated. IsAt numbers.now seated.drawer) all.items }
    requires hands { All (λ seated. (hand_of seated.drawer).parts ≡ 1) all.items }
    requires parts { (hand_of drawer.old).parts + length all.items ≡ 65 }
    requires few { length all.items ≤ 64 }
    requires drawn { drawn drawer.old ≡ [] }
    requires room { length all.items ≤ vec_capacity room }
    requires empty { room.items ≡ [] }
    ensures workers { result.items ≡ map (λ seated. seated.worker) all.items }
    ensures place { IsAt numbers.now drawer.new }
    ensures parts { (hand_of drawer.new).parts ≡ 65 }
    ensures drawn { drawn drawer.new ≡ draws all.items }
{
    let mut crew = room;
    for seated in all {
        numbers.join(drawer, seated.drawer);
        crew.push_reserved(seated.worker);
    }
    crew
}

// All workers serve side by side.
fn work_all<R: Threads + Wait + Sync, O: Door + Drop + Send, J: Job<O::Src, O::Snk> + Drop + Send>(
    rt: &R,
    alloc: Global,
    numbers: &Numbers,
    limit: u64,
    all: &mut [Seated<J, O>],
)
    requires some { 0 < length all.old }
    requires limit { limit ≤ 2 ^ 30 }
    requires places { All (λ seated. IsAt numbers.now seated.drawer) all.old }
    requires hands { All (λ seated. hand_of seated.drawer ≡ split_off_hand) all.old }
    requires room { All (λ seated. limit ≤ J.room seated.worker.job) all.old }
    requires none { All (λ seated. J.ran seated.worker.job ≡ 0) all.old }
    ensures count { length all.new ≡ length all.old }
    ensures places { (k : ℕ) (d : Seated J O) → k < length all.old
        → IsAt numbers.now (slice_index_or all.new k d).drawer }
    ensures parts { (k : ℕ) (d : Seated J O) → k < length all.old
        → (hand_of (slice_index_or all.new k d).drawer).parts ≡ 1 }
    ensures worked { (k : ℕ) (d : Seated J O) → k < length all.old
        → HasWorked O.tells J.tells O.given O.left O.ends O.faults O.back J.room J.ran J.numbers
        J.stands J.keeps limit
        (drawn (slice_index_or all.new k d).drawer) (slice_index_or all.old k d).worker
        (slice_index_or all.new k d).worker }
{
    let threads = all.len();
    thread::for_each_mut(
        rt,
        all,
        threads,
        &|_, seated: &mut Seated<J, O>|
            requires place { IsAt numbers.now seated.now.drawer }
            requires hand { hand_of seated.now.drawer ≡ split_off_hand }
            requires limit { limit ≤ 2 ^ 30 }
            requires room { limit ≤ J.room seated.now.worker.job }
            requires none { J.ran seated.now.worker.job ≡ 0 }
            requires sync { IsSync R.row }
            ensures place { IsAt numbers.entry.now seated.exit.now.drawer }
            ensures part { (hand_of seated.exit.now.drawer).parts ≡ 1 }
            ensures worked { HasWorked O.tells J.tells O.given O.left O.ends O.faults O.back J.room
                J.ran J.numbers
                J.stands J.keeps limit
                (drawn seated.exit.now.drawer) seated.entry.now.worker seated.exit.now.worker }
        { work(rt, alloc, numbers, limit, seated) },
    );
}

/// Serves the connections of all workers' doors side by side. Each worker draws a number before
/// each connection, all of them different, and ends where the number isn't below the limit. For
/// want of memory, before the first connection, the crew comes back as it was.
pub fn serve_all<
    R: Threads + Wait + Sync,
    O: Door + Drop + Send,
    J: Job<O::Src, O::Snk> + Drop + Send,
>(
    rt: &R,
    alloc: Global,
    crew: Vec<Worker<J, O>>,
    limit: u64,
) -> Result<Vec<Worker<J, O>>, Vec<Worker<J, O>>>
    requires some { 1 ≤ length crew.items }
    requires few { length crew.items ≤ 64 }
    requires limit { limit ≤ 2 ^ 30 }
    requires running { All (λ worker. worker.ended ≡ None) crew.items }
    requires none { All (λ worker. J.ran worker.job ≡ 0) crew.items }
    requires room { All (λ worker. limit ≤ J.room worker.job) crew.items }
    ensures refused { IfErr result (λ same. same ≡ crew) }
    ensures served { IfOk result (λ after.
        AllZip (IsWorkedThrough O.tells O.given O.left O.ends O.faults O.back J.room J.ran
        J.stands J.keeps) crew.items after.items) }
    ensures limit { IfOk result (λ after. sum_by (λ worker. J.ran worker.job) after.items ≤ limit) }
    ensures reached { IfOk result (λ after.
        All (λ worker. worker.ended ≡ Some WorkerEnd.LimitReached
        → limit ≤ sum_by (λ other. J.ran other.job) after.items + sum_by
        (λ other. lost other.ended) after.items) after.items) }
    ensures numbers { J.tells → IfOk result (λ after. AreDifferentBelow limit
        (added_numbers J.numbers crew.items after.items)) }
{
    let count = crew.len();
    let (Ok(seats), Ok(room), Ok((numbers, drawer))) = (
        Vec::with_capacity(alloc, count),
        Vec::with_capacity(alloc, count),
        Numbers::new(alloc),
    ) else {
        return Err(crew);
    };
    let mut drawer = drawer;
    let mut all = seat_all(&numbers, &mut drawer, crew, seats);
    work_all(rt, alloc, &numbers, limit, &mut all);
    let crew = join_all(&numbers, &mut drawer, all, room);
    numbers.end(drawer);
    Ok(crew)
}
