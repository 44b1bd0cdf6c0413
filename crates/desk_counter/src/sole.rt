//! A counter in one thread's hands.
ghost use Rattle.std.specs.Prelude.{◌≡◌, ◌≤◌, ◌*◌, length, Some, IfOk, IfErr};
ghost use Rattle.turnstile.specs.Passes.{IsOf, IsReady, first_value, fixed, mine, shares, turns};

use crate::counter::{Counter, CounterOf, DeskPass};
use crate::ticketed_desk::{Owned, TicketedDesk};
use outside::{Disk, Gate};
use std::alloc::Global;
use std::sync::Wait;
use std::thread::Threads;
use turnstile::Pass;
use user_desk::Desk;
use user_log::Reply;

/// So many calls are made at most; with a nanosecond each they take a hundred years.
const MOST_CALLS: u64 = 1 << 62;

/// A desk under a counter, with the pass that has all shares: one thread asks by it as many threads
/// ask at a counter.
#[derive(Drop)]
pub struct SoleOf<'w, V: Owned> {
    counter: CounterOf<'w, V>,
    pass: Pass<V::Item, V::Fixed>,
    calls_left: u64,
    ghost place: { IsOf pass counter.turnstile },
    ghost ready: { IsReady pass },
    ghost kept: { fixed pass ≡ Some (V.kept (first_value counter.turnstile)) },
    ghost all: { shares pass ≡ 65 },
    ghost room: { 2 * calls_left ≤ turns pass },
}

/// A user's desk under a counter, with the pass that has all shares.
pub type SoleCounter<'w, D> = SoleOf<'w, TicketedDesk<'w, D>>;

impl<'w, D: Disk> SoleOf<'w, TicketedDesk<'w, D>> {
    ghost use Rattle.std.specs.Prelude.{◌^◌, []};
    ghost use Rattle.cqe_base.specs.Run.{UserState};
    ghost use Rattle.cqe_base.specs.declared.user.Purpose.TheVariants.{Asking, Protecting};
    ghost use Rattle.user_log.specs.Replies.{reply_of};
    ghost use Rattle.user_desk.specs.Desks.{desk_history, desk_disk, entry_in_flight};
    ghost use Rattle.desk_counter.specs.Items.{history_of, flying};
    ghost use Rattle.desk_counter.specs.Desks.{fixed_of};
    ghost use Rattle.desk_counter.specs.Lives.{IsCallOf};
    ghost use Rattle.desk_counter.specs.Closed.{IsClosed};
    ghost use Rattle.desk_counter.specs.Counters.{first_pairs, IsPassOf};
    ghost use Rattle.desk_counter.specs.Sole.{counter_in, pass_in, kept_in, pairs_of_sole};
    ghost use Rattle.desk_counter.specs.Sole.{IsSoleIn};

    /// Puts a desk under a counter. For want of memory the desk comes back.
    pub fn new(alloc: Global, desk: Desk<'w, D>) -> Result<SoleCounter<'w, D>, Desk<'w, D>>
        ensures kept { IfOk result (λ sole. kept_in sole ≡ fixed_of desk.entry) }
        ensures first { IfOk result (λ sole. first_pairs (counter_in sole) ≡ pairs_of_sole sole) }
        ensures history { IfOk result
            (λ sole. history_of (pairs_of_sole sole) ≡ desk_history desk.entry) }
        ensures in_flight { IfOk result
            (λ sole. flying (pairs_of_sole sole) ≡ entry_in_flight desk.entry) }
        ensures mine { IfOk result (λ sole. mine (pass_in sole) ≡ []) }
        ensures turns { IfOk result (λ sole. turns (pass_in sole) ≡ 65 * 2 ^ 57) }
        ensures err { IfErr result (λ same. same ≡ desk.entry) }
    {
        let (counter, pass) = CounterOf::new(alloc, desk)?;
        Ok(SoleOf {
            counter,
            pass,
            calls_left: MOST_CALLS,
        })
    }

    /// Asks a text, as `Counter::ask` does.
    pub fn ask<R: Threads + Wait + Sync, G: Gate>(
        &mut self,
        rt: &R,
        alloc: Global,
        text: &str,
        gate: &G,
    ) -> Reply
        requires { length text.now ≤ 4096 }
        ensures kept { kept_in self.new ≡ kept_in self.old }
        // It is a call of the run, with its reply and its ending.
        ensures settled { (state : UserState) → IsSoleIn self.old state
            → IsCallOf (kept_in self.old).schema (kept_in self.old).world (kept_in self.old).user
            (IsSoleIn self.new) state Asking text.now (reply_of result) }
    {
        if self.calls_left == 0 {
            return Reply::Memory;
        }
        let reply = self.counter.ask(rt, alloc, &mut self.pass, text, gate);
        self.calls_left -= 1;
        reply
    }

    /// Adds a text to the user's secrets, as `Counter::protect` does.
    pub fn protect<R: Wait>(&mut self, rt: &R, alloc: Global, text: &str) -> Reply
        requires { length text.now ≤ 4096 }
        ensures kept { kept_in self.new ≡ kept_in self.old }
        // It is a call of the run, with its reply and its ending.
        ensures settled { (state : UserState) → IsSoleIn self.old state
            → IsCallOf (kept_in self.old).schema (kept_in self.old).world (kept_in self.old).user
            (IsSoleIn self.new) state Protecting text.now (reply_of result) }
    {
        if self.calls_left == 0 {
            return Reply::Memory;
        }
        let reply = self.counter.protect(rt, alloc, &mut self.pass, text);
        self.calls_left -= 1;
        reply
    }

    /// Takes the counter and its pass apart, for threads that share it.
    pub fn into_parts(self) -> (Counter<'w, D>, DeskPass<D>)
        ensures counter { result.0 ≡ counter_in self.entry }
        ensures pass { result.1 ≡ pass_in self.entry }
        ensures place { IsPassOf result.1 result.0 }
        ensures all { shares result.1 ≡ 65 }
    {
        let SoleOf {
            counter,
            pass,
            calls_left: _,
        } = self;
        (counter, pass)
    }

    /// Puts a counter and the pass that has all shares together, to be closed: no call is left to
    /// it.
    pub fn from_parts(counter: Counter<'w, D>, pass: DeskPass<D>) -> SoleCounter<'w, D>
        requires place { IsPassOf pass counter }
        requires all { shares pass ≡ 65 }
        ensures counter { counter_in result ≡ counter.entry }
        ensures pass { pass_in result ≡ pass }
    {
        SoleOf {
            counter,
            pass,
            calls_left: 0,
        }
    }

    /// Takes the desk out, as `Counter::close` does.
    pub fn close(self) -> Desk<'w, D>
        ensures kept { fixed_of result ≡ kept_in self.entry }
        ensures history { desk_history result ≡ history_of (pairs_of_sole self.entry) }
        ensures in_flight { entry_in_flight result ≡ flying (pairs_of_sole self.entry) }

        // Its pairs are those that it was put under the counter with, and then those that its pass
        // has of its own; and what became of its disk since the opening.
        ensures closed { IsClosed D.Disk (kept_in self.entry) (first_pairs (counter_in self.entry))
            (mine (pass_in self.entry)) (pairs_of_sole self.entry) (desk_disk result) }
    {
        self.counter.close(self.pass)
    }
}
