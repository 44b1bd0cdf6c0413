//! An item that can be added without taking memory.

use censors::Guards;
use cqe_base::sentence::Sentence;
use cqe_base::user::{Entry, User};

/// A user with one more secret, and what is guarded from him then.
#[derive(Drop)]
pub(crate) struct Amended<'w> {
    pub(crate) user: User,
    pub(crate) guards: Guards<'w>,
}

/// An item with all that adding it to a log takes.
#[derive(Drop)]
pub struct Prepared<'w> {
    /// The sentence once more, for the view of the log.
    pub(crate) told: Sentence,
    pub(crate) new_entry: Entry,
    /// What the item adds to the nodes of the view.
    pub(crate) nodes: u64,
    /// The user behind an item that adds a secret.
    pub(crate) amended: Option<Amended<'w>>,
}

impl<'w> Prepared<'w> {
    ghost use Rattle.std.specs.Prelude.{◌≡◌};
    ghost use Rattle.cqe_base.specs.History.{answered_query_of};
    ghost use Rattle.user_log.specs.Prepared.{prepared_entry};

    /// Gives the item, which isn't added.
    pub fn into_entry(self) -> Entry
        ensures { answered_query_of result ≡ prepared_entry self.entry }
    {
        self.new_entry
    }
}
