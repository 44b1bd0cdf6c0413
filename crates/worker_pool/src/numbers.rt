//! Numbers that threads draw, each once.
ghost use Rattle.std.specs.Prelude.{◌≡◌, []};

use crate::hand::Hand;
use atomic_table::{Join, Play, Seat, Split, Table, TableRule};
use std::alloc::{AllocError, Global};

/// The rule between any two steps.
pub(crate) struct EachOnce;

impl TableRule<(), Hand, ()> for EachOnce {
    ghost use Rattle.worker_pool.specs.NumberRule.{NumberRule};
    ghost use Rattle.worker_pool.specs.Hands.{first_hand};

    ghost holds = { λ key. NumberRule };

    ghost first = { λ key. first_hand };
}

/// A number is drawn.
pub(crate) struct Draw;

impl Play<(), Hand> for Draw {
    ghost use Rattle.worker_pool.specs.NumberRule.{Drew};

    ghost then = { Drew };
}

/// A drawer is split.
pub(crate) struct Part;

impl Split<Hand> for Part {
    ghost use Rattle.worker_pool.specs.Hands.{remaining_hand, split_off_hand};

    ghost left = { remaining_hand };

    ghost right = { λ hand. split_off_hand };
}

/// Two drawers are joined.
pub(crate) struct Meet;

impl Join<Hand> for Meet {
    ghost use Rattle.worker_pool.specs.Hands.{joined_hand, spent_hand};

    ghost both = { joined_hand };

    ghost spent = { spent_hand };
}

/// Numbers from 0 on. The one word is the number that is drawn next.
#[derive(Drop)]
pub(crate) struct Numbers {
    table: Table<(), Hand, (), EachOnce, Global>,
    ghost sized: { (table.shared.table_id.words ≡ 1) × (table.shared.table_id.slots ≡ 0) },
}

/// What a thread draws with.
#[derive(Drop)]
pub(crate) struct Drawer {
    seat: Seat<(), Hand>,
    ghost empty: { seat.me.1 ≡ [] },
}

impl Numbers {
    ghost use Rattle.std.specs.Prelude.{◌<◌, ◌≤◌, ◌^◌, ℕ, IfOk, sum_by};
    ghost use Rattle.worker_pool.specs.Hands.{first_hand, drawing_hand, remaining_hand};
    ghost use Rattle.worker_pool.specs.Hands.{split_off_hand, joined_hand, sum_below, is_below};
    ghost use Rattle.worker_pool.specs.Drawers.{hand_of, drawn, IsAt};

    /// Numbers of which none was drawn. The drawer has all parts.
    pub(crate) fn new(alloc: Global) -> Result<(Numbers, Drawer), AllocError>
        ensures place { IfOk result (λ new. IsAt new.0 new.1) }
        ensures hand { IfOk result (λ new. hand_of new.1 ≡ first_hand) }
    {
        let (table, seat) = Table::of_words(alloc, &[0], &())?;
        Ok((Numbers { table }, Drawer { seat }))
    }

    /// Splits off a drawer with one part. It takes no memory.
    pub(crate) fn split(&self, drawer: &mut Drawer) -> Drawer
        requires place { IsAt self.now drawer.old }
        requires parts { 1 < (hand_of drawer.old).parts }
        requires turns { 2 ^ 31 ≤ (hand_of drawer.old).turns }
        ensures place { IsAt self.now drawer.new × IsAt self.now result }
        ensures rest { hand_of drawer.new ≡ remaining_hand (hand_of drawer.old) }
        ensures part { hand_of result ≡ split_off_hand }
    {
        let seat = self.table.shared.split_seat::<Part>(&mut drawer.seat);
        Drawer { seat }
    }

    /// Draws the next number, which nobody else draws.
    pub(crate) fn draw(&self, drawer: &mut Drawer) -> u64
        requires place { IsAt self.now drawer.old }
        requires parts { 0 < (hand_of drawer.old).parts }
        requires turns { 0 < (hand_of drawer.old).turns }
        ensures place { IsAt self.now drawer.new }
        ensures hand { hand_of drawer.new ≡ drawing_hand (hand_of drawer.old) result }
        ensures few { (n : ℕ) → sum_by (is_below n) (drawn drawer.new) ≤ n }
    {
        self.table.shared.fetch_add::<Draw>(&mut drawer.seat, 0, 1)
    }

    /// Joins another drawer to this one.
    pub(crate) fn join(&self, drawer: &mut Drawer, other: Drawer)
        requires this { IsAt self.now drawer.old }
        requires that { IsAt self.now other }
        requires parts { 0 < (hand_of drawer.old).parts }
        ensures place { IsAt self.now drawer.new }
        ensures hand { hand_of drawer.new ≡ joined_hand (hand_of drawer.old) (hand_of other) }
    {
        let Drawer { seat } = other;
        self.table.shared.join_seat::<Meet>(&mut drawer.seat, seat);
    }

    /// Ends with the drawer that has all parts: the numbers that were drawn are those below some
    /// number, each once.
    pub(crate) fn end(self, drawer: Drawer)
        requires place { IsAt self drawer }
        requires parts { (hand_of drawer).parts ≡ 65 }
        ensures { (next : ℕ) × ((f : ℕ → ℕ) → sum_by f (drawn drawer) ≡ sum_below f next) }
    {
        let Numbers { table } = self;
        let Drawer { seat } = drawer;
        let closed = table.close_with(seat);
        closed.free();
    }
}
