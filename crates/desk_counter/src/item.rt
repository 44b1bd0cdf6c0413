//! What passes and turns know of a desk. The proofs speak of these types, and no value of them is
//! made.
use cqe_base::schema::Schema;
use cqe_base::user::{Entry, User};
use cqe_base::world::World;
use std::collections::LinkedList;
use std::marker::Model;
use user_desk::Standing;

/// An entry. Contracts see it as the answered query that it is.
pub struct Answered {
    entry: Entry,
}

impl Model for Answered {
    ghost use Rattle.cqe_base.specs.History.{AnsweredQuery, answered_query_of};
    ghost use Rattle.desk_counter.specs.Codes.{answered_code};

    ghost Value = { AnsweredQuery };

    ghost coded = { answered_code };

    ghost view = { λ a. answered_query_of a.entry };
}

/// A user. Contracts see him as the profile that he is.
pub struct Profile {
    user: User,
}

impl Model for Profile {
    ghost use Rattle.cqe_base.specs.History.{UserProfile, profile_of};
    ghost use Rattle.desk_counter.specs.Codes.{profile_code};

    ghost Value = { UserProfile };

    ghost coded = { profile_code };

    ghost view = { λ p. profile_of p.user };
}

/// What a turn adds: an entry that is in the journal, or the entry of an append that failed.
pub enum TurnItem {
    Kept(Answered),
    Broke(Answered),
}

/// What no turn changes of a desk.
pub struct Fixed<D> {
    pub schema: Schema,
    pub world: World,
    pub user: Profile,
    /// The bytes of the header that the desk was opened with.
    pub header: LinkedList<u8>,
    pub standing: Standing,
    /// The entries at the opening.
    pub opening: LinkedList<Answered>,
    /// The disk at the opening.
    pub disk: D,
}
