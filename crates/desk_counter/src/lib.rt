//! One user's desk for any number of threads.
//!
//! A `Counter` has a desk under a turnstile. Each thread calls with a pass of its own, and every
//! call is settled in one turn: it finds the entries of all calls before it, is answered by them,
//! and adds at most one entry. Contracts see what a pass has seen as pairs of a ticket and an item,
//! an entry of the journal or the one entry whose append failed.
//!
//! `Counter::ask` promises the reply of the rule for what the pass has seen, a mark's entry once,
//! and a legal history; so does `Counter::protect`, which adds a text to the user's secrets;
//! `Counter::close` gives the desk with just the entries that the passes have seen, and tells what
//! each crash leaves of them. `SoleCounter` is a counter with the pass that has all shares, for one
//! thread.
//!
//! Read `specs/Items.antt`, `specs/Desks.antt` and `specs/Asks.antt` first, then `item`, `counter`
//! and `sole`.
#![tactic(auto)]

mod counter;
mod crowd;
mod item;
mod sole;
mod ticketed_desk;

pub use counter::{Counter, CounterOf, DeskPass};
pub use item::{Answered, Fixed, Profile, TurnItem};
pub use sole::{SoleCounter, SoleOf};
pub use ticketed_desk::{Owned, TicketedDesk};
