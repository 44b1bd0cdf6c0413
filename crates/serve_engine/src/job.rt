//! The job of a worker.
ghost use Rattle.std.specs.Prelude.{◌≡◌, All, length};
ghost use Rattle.std.specs.Thread.{IsSync};
ghost use Rattle.session_core.specs.Members.{passes_in, counters_in};
ghost use Rattle.serve_engine.specs.Held.{AtEach, HasSeenOpening, SeesLegally, SeesLegally-prop};

use desk_counter::{Fixed, Owned, TicketedDesk, TurnItem};
use outside::{Disk, Gate, Sink, Source};
use session_core::{Counters, CountersOf, Passes, serve_session};
use std::alloc::Global;
use std::sync::Wait;
use std::thread::Threads;
use worker_pool::Job;

/// What a worker does with each connection. It stands for a `SessionJob` wherever a thread is to
/// take it, since it says nothing of what is under the counters.
#[derive(Drop)]
pub struct SessionJobOf<'a, 'w, V: Owned<Item = TurnItem, Fixed = Fixed<D>>, D, G> {
    counters: &'a CountersOf<'w, V>,
    gate: &'a G,
    passes: Passes<D>,
    runs: u64,
    ghost many: { length (passes_in passes) ≡ length (counters_in counters.now) },
    ghost held: { AtEach V.kept (passes_in passes) (counters_in counters.now) },
    ghost opened: { All HasSeenOpening (passes_in passes) },
    ghost legal: { All SeesLegally (passes_in passes) } by { SeesLegally-prop _ },
}

/// A session with each client, by a worker's own passes at the users' desks.
pub type SessionJob<'a, 'w, D, G> = SessionJobOf<'a, 'w, TicketedDesk<'w, D>, D, G>;

impl<'a, 'w, D: Disk, G: Gate> SessionJobOf<'a, 'w, TicketedDesk<'w, D>, D, G> {
    ghost use Rattle.session_core.specs.Members.{ArePassesOf, fixeds_of};
    ghost use Rattle.serve_engine.specs.Members.{HaveSeenOpenings};
    ghost use Rattle.serve_engine.specs.Jobs.{job_counters, job_passes, job_runs};

    /// A job that hasn't served a connection, with these passes at the users' counters.
    pub fn new(
        counters: &'a Counters<'w, D>,
        passes: Passes<D>,
        gate: &'a G,
    ) -> SessionJob<'a, 'w, D, G>
        requires passes { ArePassesOf passes counters.now }
        requires opened { HaveSeenOpenings (fixeds_of counters.now) (passes_in passes) }
        ensures counters { job_counters result ≡ counters.now }
        ensures passes { job_passes result ≡ passes }
        ensures none { job_runs result ≡ 0 }
    {
        SessionJobOf {
            counters,
            gate,
            passes,
            runs: 0,
        }
    }

    /// Takes the passes back.
    pub fn into_passes(self) -> Passes<D>
        ensures same { result ≡ job_passes self.entry }
        ensures passes { ArePassesOf result (job_counters self.entry) }
    {
        self.passes
    }
}

impl<'a, 'w, D: Disk, G: Gate, Src: Source, Snk: Sink> Job<Src, Snk>
    for SessionJobOf<'a, 'w, TicketedDesk<'w, D>, D, G> {
    ghost use Rattle.std.specs.Prelude.{◌≤◌, ◌<◌, ◌+◌, ◌^◌, ◌++◌, ◌∷◌, []};
    ghost use Rattle.std.proofs.Common.{refl, ◌∙◌};
    ghost use Rattle.outside.specs.Visits.{visit_of};
    ghost use Rattle.worker_pool.specs.Jobs.{AreUntouchedEnds};
    ghost use Rattle.session_core.specs.Members.{passes_in, users_of, fixeds_of};
    ghost use Rattle.serve_engine.specs.Members.{AreServedBy, ArePassesLater, room_in};
    ghost use Rattle.serve_engine.specs.Jobs.{job_counters, job_passes, job_runs, RunsSession};
    ghost use Rattle.serve_engine.specs.Jobs.{ServesOn};
    ghost use Rattle.serve_engine.specs.Keeping.{nothing_served, same_passes, later_passes};

    ghost tells = { ⊥ };

    ghost room = { λ job. room_in (passes_in (job_passes job)) };

    ghost ran = { λ job. job_runs job };

    ghost numbers = { λ job. [] };

    ghost stands = { λ first job visits.
        AreServedBy (job_counters job) (job_passes first) (job_passes job) visits };

    ghost stands_none = { λ job. nothing_served (job_counters job) (job_passes job) };

    ghost keeps = { λ before after. (job_counters after ≡ job_counters before)
        × ArePassesLater (job_passes before) (job_passes after) };

    ghost keeps_none = { λ job. (refl, same_passes (passes_in (job_passes job))) };

    ghost keeps_more = { λ before between after first second. (
      second.0 ∙ first.0,
      later_passes
          (passes_in (job_passes before)) (passes_in (job_passes between))
          (passes_in (job_passes after)) first.1 second.1,
    ) };

    fn run<R: Threads + Wait + Sync>(
        &mut self,
        rt: &R,
        alloc: Global,
        _number: u64,
        source: &mut Src,
        sink: &mut Snk,
    )
        requires room { 1 ≤ room_in (passes_in (job_passes self.old)) }
        requires few { job_runs self.old < 2 ^ 31 }
        requires sync { IsSync R.row }
        ensures room { room_in (passes_in (job_passes self.old))
            ≤ room_in (passes_in (job_passes self.new)) + 1 }
        ensures ran { job_runs self.new ≡ job_runs self.old + 1 }
        ensures numbers { ⊥ → [] ≡ [] ++ _number ∷ [] }
        ensures held { Src.held source.new ≡ Src.held source.old }
        ensures answers { Snk.answers sink.new ≡ Snk.answers sink.old }
        ensures keeps { (job_counters self.new ≡ job_counters self.old)
            × ArePassesLater (job_passes self.old) (job_passes self.new) }
        ensures visit { AreUntouchedEnds Src.tells Snk.tells (Src.held source.old)
            (Src.left source.old) (Snk.written sink.old) (Src.faults source.old)
            (Snk.faults sink.old)
            → ServesOn self.old self.new (visit_of (Src.held source.new) (Snk.written sink.new)
            (Src.faults source.new) (Snk.faults sink.new)) }

        // It is one session, whatever its ends tell and have behind them.
        ensures session { RunsSession Src.Source Snk.Sink (users_of (job_counters self.old))
            (fixeds_of (job_counters self.old)) (passes_in (job_passes self.old))
            (passes_in (job_passes self.new)) source.old source.new sink.old sink.new }
    {
        let _ended = serve_session(
            rt,
            alloc,
            self.counters,
            &mut self.passes,
            source,
            sink,
            self.gate,
        );
        self.runs += 1;
    }
}
