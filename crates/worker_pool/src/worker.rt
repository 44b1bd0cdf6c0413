//! A worker: what it does with a connection, and how it ends.
ghost use Rattle.std.specs.Prelude.{◌≡◌, ◌≤◌, ◌<◌, ◌+◌, ◌++◌, ◌∷◌, ◌^◌, [], List, ℕ};
ghost use Rattle.std.specs.Thread.{IsSync};
ghost use Rattle.outside.specs.Visits.{Visit, visit_of};
ghost use Rattle.worker_pool.specs.Jobs.{AreUntouchedEnds};

use outside::{Sink, Source};
use std::alloc::Global;
use std::sync::Wait;
use std::thread::Threads;

/// What a worker does with each connection.
pub trait Job<Src: Source, Snk: Sink> {
    /// Whether clauses are told the numbers that it was run with.
    ghost tells: { Type 0 };

    /// How many runs it may still make.
    ghost room: { Self → ℕ };

    /// How many runs it has made.
    ghost ran: { Self → ℕ };

    /// The numbers that it was run with, in order, where clauses are told.
    ghost numbers: { Self → List ℕ };

    /// What it says of these finished connections, which it served, in order, since it was as the
    /// first job here is.
    ghost stands: { Self → Self → List Visit → Type 0 };

    /// What each run keeps: the job before and after.
    ghost keeps: { Self → Self → Type 0 };

    /// Serves a connection. It may start threads, and wait for another thread.
    fn run<R: Threads + Wait + Sync>(
        &mut self,
        rt: &R,
        alloc: Global,
        number: u64,
        source: &mut Src,
        sink: &mut Snk,
    )
        requires room { 1 ≤ room self.old }
        requires few { ran self.old < 2 ^ 31 }
        requires sync { IsSync R.row }
        ensures room { room self.old ≤ room self.new + 1 }
        ensures ran { ran self.new ≡ ran self.old + 1 }
        ensures numbers { tells → numbers self.new ≡ numbers self.old ++ number ∷ [] }
        ensures held { Src.held source.new ≡ Src.held source.old }
        ensures answers { Snk.answers sink.new ≡ Snk.answers sink.old }
        ensures keeps { keeps self.old self.new }

        // Where both ends tell their bytes and are untouched as it begins, the visit stands with
        // the job behind all before.
        ensures visit { AreUntouchedEnds Src.tells Snk.tells (Src.held source.old)
            (Src.left source.old)
            (Snk.written sink.old) (Src.faults source.old) (Snk.faults sink.old)
            → (first : Self) (visits : List Visit)
            → stands first self.old visits
            → stands first self.new (visits ++ visit_of (Src.held source.new) (Snk.written sink.new)
            (Src.faults source.new) (Snk.faults sink.new) ∷ []) };

    /// What it says where it has served none since.
    ghost stands_none: { (job : Self) → stands job job [] };

    /// What each run keeps, no runs keep and several runs keep.
    ghost keeps_none: { (job : Self) → keeps job job };

    ghost keeps_more: { (before between after : Self) → keeps before between → keeps between after
        → keeps before after };
}

/// How a worker ended.
#[derive(Clone, Copy, Debug, PartialEq, Eq)]
pub enum WorkerEnd {
    /// No further connection comes through its door.
    LinksEnded,
    /// The number that it drew isn't below the limit.
    LimitReached,
    /// Its door failed.
    LinksFailed,
}

/// A job, the door that it serves, and how serving ended, where it has.
#[derive(Drop)]
pub struct Worker<J, O> {
    pub job: J,
    pub door: O,
    pub ended: Option<WorkerEnd>,
}
