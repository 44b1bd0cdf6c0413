//! A turnstile, a turn at it, and their calls.
ghost use Rattle.std.specs.Prelude.{◌≡◌, ◌<◌, ◌≤◌, [], ◌∷◌, None};
ghost use Rattle.turnstile.specs.declared.view.Stage.TheVariants.{Inside};
ghost use Rattle.turnstile.specs.History.{count_of};

use crate::bell::Bell;
use crate::pass::{Pass, PassError};
use crate::steps::{Compare, Draw, Look, Meet, Next, Part, Recorded, Ticketed};
use crate::view::View;
use atomic_table::{Refused, Seat, Table};
use std::alloc::{AllocFailed, Global};
use std::snapshot::Snapshot;
use std::sync::Wait;
use std::{array, mem, thread};

/// A pass that waits looks so often whether its ticket is served, and then sleeps.
const LOOKS: u32 = 20;

/// The number of bells.
const BELLS: u64 = 8;

/// A value that moves from turn to turn. Word 0 is the ticket to be drawn next, word 1 the ticket
/// that is served, and slot 0 has the value.
#[derive(Drop)]
pub struct Turnstile<V: Recorded> {
    table: Table<Option<V>, View<V::Item, V::Fixed>, Snapshot<V>, Ticketed, Global>,
    /// The passes whose tickets leave the remainder k by 8 sleep at the bell k, which is rung as
    /// such a ticket is served.
    bells: [Bell; 8],
    ghost sized: { (table.shared.table_id.words ≡ 2) × (table.shared.table_id.slots ≡ 1) },
}

/// The value for one turn. It has the view of its pass, and can only be ended by `leave`.
pub struct Turn<V: Recorded> {
    pub value: V,
    ticket: u64,
    shares: u64,
    seat: Seat<Option<V>, View<V::Item, V::Fixed>>,
    ghost served: { (seat.me.0.stage ≡ Inside ticket) × (seat.me.1 ≡ (0, None) ∷ []) },
    ghost drawn: { (1 ≤ ticket) × (1 ≤ count_of ticket seat.me.0.drawn) },
    ghost counted: { (shares ≡ seat.me.0.shares) × (0 < shares) },
}

impl<V: Recorded> Turn<V> {
    ghost use Rattle.turnstile.specs.Passes.{ticket_of};

    /// The ticket of this turn, 1 or greater. No two turns have the same.
    pub fn ticket(&self) -> u64
        ensures { (result ≡ ticket_of self.now) × (1 ≤ result) }
    {
        self.ticket
    }
}

impl<V: Recorded> Turnstile<V> {
    ghost use Rattle.std.specs.Prelude.{◌⊎◌, ◌++◌, ℕ, ◌^◌, Some, IfOk, IfErr, OnOk};
    ghost use Rattle.turnstile.specs.declared.pass.PassError.TheVariants.{TooMany};
    ghost use Rattle.turnstile.specs.History.{IsPrefix, AddsAtMostOne, AddsAlike, IsOpening};
    ghost use Rattle.turnstile.specs.History.{Interleaves, IsRising, entries_with, turn_entries};
    ghost use Rattle.turnstile.specs.Rule.{IsRuled, IsRuledSince};
    ghost use Rattle.turnstile.specs.Views.{opening_view, turn_view, outside_view, remaining_view};
    ghost use Rattle.turnstile.specs.Views.{split_off_view, view_of_both, DrewEachOnce};
    ghost use Rattle.turnstile.specs.Passes.{IsReady, IsAway, IsOf, first_value, IsAt, view_of};
    ghost use Rattle.turnstile.specs.Passes.{seen, tickets, mine, fixed, shares, turns, ticket_of};
    ghost use Rattle.turnstile.specs.Passes.{view_in, entries_before, mine_before};

    /// Puts a value under a turnstile. The pass has all 65 shares and 65 * 2^57 turns. For want of
    /// memory the value comes back.
    pub fn new(alloc: Global, value: V) -> Result<(Turnstile<V>, Pass<V::Item, V::Fixed>), V>
        requires { IsOpening (V.entries value) }
        ensures place { IfOk result (λ t. IsOf t.1 t.0 × IsReady t.1) }
        ensures view { IfOk result
            (λ t. view_of t.1 ≡ opening_view (V.entries value) (V.fixed value)) }
        ensures mine { IfOk result (λ t. mine t.1 ≡ []) }
        ensures first { IfOk result (λ t. first_value t.0 ≡ value) }
        ensures err { IfErr result (λ v. v ≡ value) }
    {
        let about = Snapshot::of(&value);
        let mut slots = match Vec::with_capacity(alloc, 1) {
            Ok(slots) => slots,
            Err(_) => return Err(value),
        };
        if let Err(failed) = slots.push(Some(value)) {
            let AllocFailed { value } = failed;
            slots.destroy_empty();
            return Err(value.unwrap());
        }
        match Table::new(alloc, &[1, 1], slots, &about) {
            Ok((table, seat)) => {
                let pass = Pass {
                    badge: seat.into_badge(),
                    shares: 65,
                };
                let bells = array::from_fn(|_| Bell::new());
                Ok((Turnstile { table, bells }, pass))
            }
            Err(Refused { mut slots }) => {
                let value = slots.pop().unwrap().unwrap();
                slots.destroy_empty();
                Err(value)
            }
        }
    }

    /// Splits off a pass with one share and 2^57 turns, which has seen as much. It takes no memory.
    pub fn split(
        &self,
        pass: &mut Pass<V::Item, V::Fixed>,
    ) -> Result<Pass<V::Item, V::Fixed>, PassError>
        requires place { IsOf pass.old self.now × IsReady pass.old }
        requires room { (shares pass.old ≡ 1) ⊎ (2 ^ 57 ≤ turns pass.old) }
        ensures place { IsOf pass.new self.now × IsReady pass.new }
        ensures rest { OnOk result (view_of pass.new ≡ remaining_view (view_of pass.old)) }
        ensures part { IfOk result (λ p. IsOf p self.now × IsReady p
            × (view_of p ≡ split_off_view (view_of pass.old))) }
        ensures mine { IfOk result (λ p. mine p ≡ []) }
        ensures ok { OnOk result (1 < shares pass.old) }
        ensures err { IfErr result (λ e. (e ≡ TooMany) × (shares pass.old ≡ 1)
            × (view_of pass.new ≡ view_of pass.old)) }
    {
        if pass.shares == 1 {
            return Err(PassError::TooMany);
        }
        let Pass { badge, shares } = mem::replace(pass, Pass::away());
        let mut seat = badge.into_seat();
        let other = self.table.shared.split_seat::<Part>(&mut seat);
        *pass = Pass {
            badge: seat.into_badge(),
            shares: shares - 1,
        };
        Ok(Pass {
            badge: other.into_badge(),
            shares: 1,
        })
    }

    /// Joins another pass to this one: the shares, the turns and the tickets add up, and the longer
    /// of both lists has been seen.
    pub fn meet(&self, pass: &mut Pass<V::Item, V::Fixed>, other: Pass<V::Item, V::Fixed>)
        requires this { IsOf pass.old self.now × IsReady pass.old }
        requires that { IsOf other self.now × IsReady other }
        ensures place { IsOf pass.new self.now × IsReady pass.new }
        ensures view { view_of pass.new ≡ view_of_both (view_of pass.old) (view_of other) }
        ensures fixed { fixed pass.old ≡ fixed other }

        // Each had seen a prefix, in which all entries with its tickets were.
        ensures this { IsPrefix (seen pass.old) (seen pass.new)
            × (entries_with (tickets pass.old) (seen pass.new) ≡ mine pass.old) }
        ensures that { IsPrefix (seen other) (seen pass.new)
            × (entries_with (tickets other) (seen pass.new) ≡ mine other) }

        // The entries of both are put together in the order of their tickets, and no ticket was
        // drawn twice.
        ensures mine { Interleaves (mine pass.old) (mine other) (mine pass.new) }
        ensures order { (n : ℕ) × IsRising 0 n (seen pass.new) }
        ensures apart { (x : ℕ) → count_of x (tickets pass.new) ≤ 1 }
    {
        let Pass { badge, shares } = mem::replace(pass, Pass::away());
        let Pass {
            badge: theirs,
            shares: more,
        } = other;
        let mut seat = badge.into_seat();
        self.table
            .shared
            .join_seat::<Meet>(&mut seat, theirs.into_seat());
        self.table.shared.load::<Compare>(&mut seat, 1);
        *pass = Pass {
            badge: seat.into_badge(),
            shares: shares + more,
        };
    }

    /// Takes the value out, with the pass that has all shares.
    pub fn close(self, pass: Pass<V::Item, V::Fixed>) -> V
        requires place { IsOf pass self × IsReady pass }
        requires all { shares pass ≡ 65 }
        ensures entries { V.entries result ≡ seen pass }
        ensures mine { turn_entries (V.entries result) ≡ mine pass }

        // They are those that the value was put under the turnstile with, and behind them the
        // pass's own.
        ensures added { V.entries result ≡ V.entries (first_value self) ++ mine pass }
        ensures drew { DrewEachOnce (view_of pass) }
        ensures fixed { fixed pass ≡ Some (V.fixed result) }

        // The table is closed in a state that meets the rule and has the pass's view.
        ensures rule { IsRuled V.entries V.fixed (V.fixed (first_value self))
            (V.entries (first_value self))
            (view_of pass) }
    {
        let Pass { badge, shares: _ } = pass;
        let Turnstile { table, bells: _ } = self;
        let mut closed = table.close_with(badge.into_seat());
        let value = closed.take(0);
        closed.free();
        value.unwrap()
    }

    /// Draws a ticket, waits until it is served, and takes the value. It uses one of the pass's
    /// turns.
    pub fn enter<R: Wait>(&self, rt: &R, pass: &mut Pass<V::Item, V::Fixed>) -> Turn<V>
        requires place { IsOf pass.old self.now × IsReady pass.old }
        requires turns { 0 < turns pass.old }
        ensures place { IsAt result self.now × IsAway pass.new }
        ensures view { view_in result
            ≡ turn_view (view_of pass.old) (ticket_of result) (V.entries result.value) }
        ensures fixed { fixed pass.old ≡ Some (V.fixed result.value) }

        // What the pass had seen is a prefix, in which all entries with its tickets were, and it is
        // all where the pass has all shares.
        ensures later { IsPrefix (seen pass.old) (V.entries result.value) }
        ensures whole { shares pass.old ≡ 65 → V.entries result.value ≡ seen pass.old }
        ensures own { entries_with (tickets pass.old) (V.entries result.value) ≡ mine pass.old }
        ensures mine { mine_before result ≡ mine pass.old }

        // The tickets of the entries rise and are below this one, and so are all that the pass drew
        // before.
        ensures order { IsRising 0 (ticket_of result) (V.entries result.value) }
        ensures fresh { (x : ℕ) → ticket_of result ≤ x → count_of x (tickets pass.old) ≡ 0 }

        // The state in which the value was taken meets the rule and has the view of this turn.
        ensures rule { IsRuledSince V.entries V.fixed (V.fixed result.value) (view_in result) }
    {
        let Pass { badge, shares } = mem::replace(pass, Pass::away());
        let mut seat = badge.into_seat();
        let ticket = self.table.shared.fetch_add::<Draw>(&mut seat, 0, 1);
        for _ in rt.forever() {
            let serving = self.table.shared.load::<Look>(&mut seat, 1);
            if serving == ticket {
                let value = self.table.shared.exchange(&mut seat, 0, None).unwrap();
                return Turn {
                    value,
                    ticket,
                    shares,
                    seat,
                };
            }
            self.await_turn(rt, ticket);
        }
        unreachable!()
    }

    /// Looks some times whether the ticket is served, and then sleeps until it is. No ring is
    /// missed: a pass is counted as a sleeper and has heard the bell before the look that sends it
    /// to sleep, and the bell is rung after the ticket is served. Until then it rings for tickets
    /// of the other 64 passes alone, so the 32 bits that a sleep compares don't come round.
    fn await_turn<R: Wait>(&self, rt: &R, ticket: u64) {
        for _ in 0..LOOKS {
            thread::yield_now();
            if self.is_served(ticket) {
                return;
            }
        }
        let bell = self.bell(ticket);
        for _ in rt.forever() {
            let heard = bell.listen();
            let served = self.is_served(ticket);
            if !served {
                bell.sleep(rt, heard);
            }
            bell.leave();
            if served {
                return;
            }
        }
    }

    fn is_served(&self, ticket: u64) -> bool {
        self.table.shared.peek(1) == ticket
    }

    fn bell(&self, ticket: u64) -> &Bell {
        &self.bells[(ticket % BELLS) as usize]
    }

    /// Gives the value back, and serves the next ticket. The pass has then seen the value's
    /// entries.
    pub fn leave(&self, pass: &mut Pass<V::Item, V::Fixed>, turn: Turn<V>)
        requires place { IsAt turn self.now × IsAway pass.old }
        requires fixed { (view_in turn).fixed ≡ Some (V.fixed turn.value) }
        requires grows { AddsAtMostOne (ticket_of turn) (entries_before turn)
            (V.entries turn.value) }
        ensures place { IsOf pass.new self.now × IsReady pass.new }
        ensures view { view_of pass.new ≡ outside_view (view_in turn) (V.entries turn.value) }
        // What the turn added is the pass's own.
        ensures mine { AddsAlike (entries_before turn) (V.entries turn.value) (mine_before turn)
            (mine pass.new) }
        // The state in which the value was given back meets the rule and has the pass's view.
        ensures rule { IsRuledSince V.entries V.fixed (V.fixed turn.value) (view_of pass.new) }
    {
        let Turn {
            value,
            ticket,
            shares,
            mut seat,
        } = turn;
        let nothing = self.table.shared.exchange(&mut seat, 0, Some(value));
        let None = nothing else { unreachable!() };
        self.table.shared.fetch_add::<Next>(&mut seat, 1, 1);
        self.bell(ticket.wrapping_add(1)).ring();
        *pass = Pass {
            badge: seat.into_badge(),
            shares,
        };
    }
}
