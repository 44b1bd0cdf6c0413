//! What follows from the rule of the turnstile's table.
ghost use Rattle.turnstile.specs.Rule.{EachIsHeld, OneIsInside};

use crate::steps::Recorded;

/// Between any two steps each ticket that was drawn and isn't done with is held by a pass, and at
/// most one pass is in its turn.
pub fn law_turns<V: Recorded>()
    ensures held { EachIsHeld V.entries V.fixed }
    ensures alone { OneIsInside V.entries V.fixed }
{}
