//! What a value under a turnstile tells, the rule of the turnstile's table, and its kinds of step.
use crate::view::View;
use atomic_table::{Join, Play, Split, TableRule};
use std::snapshot::Snapshot;

/// A value with a history.
pub trait Recorded {
    ghost use Rattle.std.specs.Prelude.{ℕ, List};

    type Item;

    type Fixed;

    // The entries, each with the ticket of the turn that added it, or 0 where it was there at the
    // start.
    ghost entries: { Self → List (ℕ × Self.Item) };
    // What no turn changes.
    ghost fixed: { Self → Self.Fixed };
}

/// The rule between any two steps. Its key is the value as it was put under the turnstile.
pub struct Ticketed;

impl<V: Recorded> TableRule<Option<V>, View<V::Item, V::Fixed>, Snapshot<V>> for Ticketed {
    ghost use Rattle.turnstile.specs.Rule.{TurnstileRule};
    ghost use Rattle.turnstile.specs.Views.{opening_view};

    ghost holds = { λ key.
        TurnstileRule V.entries V.fixed (V.fixed key.value) (V.entries key.value) };

    ghost first = { λ key. opening_view (V.entries key.value) (V.fixed key.value) };
}

/// A ticket is drawn.
pub struct Draw;

impl<V: Recorded> Play<Option<V>, View<V::Item, V::Fixed>> for Draw {
    ghost use Rattle.turnstile.specs.Plays.{Drew};

    ghost then = { Drew V.entries V.fixed };
}

/// A waiting pass looks which ticket is served, and takes the value where it is its own.
pub struct Look;

impl<V: Recorded> Play<Option<V>, View<V::Item, V::Fixed>> for Look {
    ghost use Rattle.turnstile.specs.Plays.{Looked};

    ghost then = { Looked V.entries V.fixed };
}

/// The value goes home, and the next ticket is served.
pub struct Next;

impl<V: Recorded> Play<Option<V>, View<V::Item, V::Fixed>> for Next {
    ghost use Rattle.turnstile.specs.Plays.{WentOn};

    ghost then = { WentOn V.entries V.fixed };
}

/// A look after a join, which tells what the passes that were joined had in common.
pub struct Compare;

impl<V: Recorded> Play<Option<V>, View<V::Item, V::Fixed>> for Compare {
    ghost use Rattle.turnstile.specs.Plays.{Compared};

    ghost then = { Compared V.entries V.fixed };
}

/// A pass is split.
pub struct Part;

impl<I, F> Split<View<I, F>> for Part {
    ghost use Rattle.turnstile.specs.Views.{remaining_view, split_off_view};

    ghost left = { remaining_view };

    ghost right = { split_off_view };
}

/// Two passes are joined.
pub struct Meet;

impl<I, F> Join<View<I, F>> for Meet {
    ghost use Rattle.turnstile.specs.Views.{joined_view, spent_view};

    ghost both = { joined_view };

    ghost spent = { spent_view };
}
