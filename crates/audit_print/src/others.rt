//! The other worlds of an open desk's secrets.
ghost use Rattle.std.specs.Prelude.{◌≡◌, map, vec_len, IfOk};
ghost use Rattle.cqe_base.specs.History.{profile_of, answered_query_of, user_at};
ghost use Rattle.cqe_base.specs.Limits.{KeepsLimits, KeepsSizes};
ghost use Rattle.cqe_base.specs.OtherWorlds.{IsLegalSomewhere};
ghost use Rattle.audit_print.specs.Others.{AreOthers};
ghost use Rattle.audit_print.specs.Found.{place_at, worlds_for, found_at};

use cqe_base::laws::{law_pairs, law_sizes};
use cqe_base::schema::Schema;
use cqe_base::user::{Entry, Method, User};
use cqe_base::world::World;
use std::alloc::{AllocError, Global};
use two_worlds::other_world;

/// The worlds that were found: one for each secret that the user has now, for a liar one for all.
pub(crate) fn other_worlds(
    alloc: Global,
    schema: &Schema,
    user: &User,
    current: &User,
    entries: &[Entry],
) -> Result<Vec<Option<World>>, AllocError>
    requires current { profile_of current.now
        ≡ user_at (profile_of user.now) (map answered_query_of entries.now) }
    requires limits { KeepsLimits schema.now (profile_of user.now) }
    requires legal { IsLegalSomewhere schema.now (profile_of user.now)
        (map answered_query_of entries.now) }
    requires sizes { KeepsSizes schema.now (profile_of user.now)
        (map answered_query_of entries.now) }
    ensures count { IfOk result (λ found. vec_len found
        ≡ worlds_for current.now.method (vec_len current.now.secrets)) }
    ensures others { IfOk result (λ found. AreOthers schema.now (profile_of user.now)
        (map answered_query_of entries.now) (found_at current.now.method found.items)) }
{
    law_pairs();
    law_sizes();
    let mut found = Vec::new(alloc);
    for secret in 0..worlds_of(current) {
        let number = secret as u32;
        found.push(other_world(alloc, schema, user, entries, number)?)?;
    }
    Ok(found)
}

/// How many worlds serve the secrets of a user.
fn worlds_of(user: &User) -> usize
    ensures { result ≡ worlds_for user.now.method (vec_len user.now.secrets) }
{
    match user.method {
        Method::Lying => user.secrets.len().min(1),
        Method::Refusal | Method::Combined => user.secrets.len(),
    }
}

/// The place of the world that serves this secret.
pub(crate) fn place_of(method: Method, secret: usize) -> usize
    ensures { result ≡ place_at method secret }
{
    match method {
        Method::Lying => 0,
        Method::Refusal | Method::Combined => secret,
    }
}
