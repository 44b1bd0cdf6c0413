//! The users of a policy.

ghost use Rattle.std.specs.Prelude.{◌≡◌, ◌≤◌, ◌+◌, ◌^◌, [], min, length, map, sum_by, codes};
ghost use Rattle.std.specs.Prelude.{OnOk};
ghost use Rattle.toml.specs.Data.{get};
ghost use Rattle.toml.specs.View.{view};
ghost use Rattle.cqe_base.specs.Schema.{contains_text};
ghost use Rattle.cqe_base.specs.Formula.{formula_of, nodes};
ghost use Rattle.cqe_base.specs.History.{profile_of, view_size};
ghost use Rattle.policy_files.specs.Users.{name_of, method_of, known_of, secrets_of, budget_of};
ghost use Rattle.policy_files.specs.Users.{least_secrets, no_secrets, secrecies_of, all_secrets};
ghost use Rattle.policy_files.specs.Users.{token_of, with_small_view, user_of, names_of};
ghost use Rattle.policy_files.specs.Users.{users_behind};
ghost use Rattle.policy_files.specs.Memory.{policy_user_of};
ghost use Rattle.policy_files.specs.Gives.{Gives};

use crate::error::{PolicyError, Stop};
use crate::keys::{PolicyVersion, key_place, only_keys, string_at, within};
use crate::text::{Bounds, sentences_of};
use crate::tree::{natural, value_at};
use cqe_base::declarations::is_schema_name;
use cqe_base::laws::law_secrets_made;
use cqe_base::schema::Schema;
use cqe_base::sentence::Sentence;
use cqe_base::user::{Method, User, with_secrecies};
use hex::FromHex;
use std::alloc::Global;
use toml::Value;

/// A user knows at most so many sentences beforehand.
const KNOWN: u64 = 256;

/// A user has at most so many secrets.
const SECRETS: u64 = 16;

/// A user has at most so many secrecies, each of which makes two secrets.
const SECRECIES: u64 = 8;

/// A sentence that is known or secret has at most so many nodes.
const NODES: u64 = 20_000;

/// The budget of a user for whom the policy has none.
const BUDGET: u64 = 1_000_000;

/// The greatest budget.
const GREATEST_BUDGET: u64 = 4_000_000;

/// The view of a user who has asked nothing has at most so many nodes.
const VIEW_NODES: u64 = 40_000;

/// Whether one of the users has this name.
fn is_named(users: &[User], name: &str) -> bool
    ensures { result ≡ contains_text (names_of (map policy_user_of users.now)) name.now }
{
    for user in users {
        if name == user.name.as_str() {
            return true;
        }
    }
    false
}

/// The user's name, which has the form of a constant's and is no earlier user's.
fn name_of<'a>(
    alloc: Global,
    earlier: &[User],
    user: u32,
    table: &'a Value,
) -> Result<&'a str, Stop>
    ensures { Gives (λ name. name.now) result
        (name_of (names_of (map policy_user_of earlier.now)) user
        (get (codes "name") (view table.now))) }
{
    let name = string_at(alloc, Some(user), table, "name")?;
    if !is_schema_name(name) {
        let place = key_place(alloc, Some(user), "name")?;
        return Err(Stop::Refused(PolicyError::WrongKind(place)));
    }
    if is_named(earlier, name) {
        let place = key_place(alloc, Some(user), "name")?;
        return Err(Stop::Refused(PolicyError::DuplicateUser(place)));
    }
    Ok(name)
}

/// The user's method.
fn method_of(alloc: Global, user: u32, table: &Value) -> Result<Method, Stop>
    ensures { Gives (λ method. method) result
        (method_of user (get (codes "method") (view table.now))) }
{
    let word = string_at(alloc, Some(user), table, "method")?;
    match Method::named(word) {
        Some(method) => Ok(method),
        None => {
            let place = key_place(alloc, Some(user), "method")?;
            Err(Stop::Refused(PolicyError::WrongKind(place)))
        }
    }
}

/// What the user knows beforehand.
fn known_of(alloc: Global, schema: &Schema, user: u32, table: &Value) -> Result<Vec<Sentence>, Stop>
    ensures { Gives (λ read. map formula_of read.items) result
        (known_of schema.now user (get (codes "know") (view table.now))) }
{
    match value_at(table, "know") {
        Some(value) => {
            let bounds = Bounds {
                least: 0,
                greatest: KNOWN,
                nodes: NODES,
            };
            sentences_of(alloc, schema, user, "know", bounds, value)
        },
        None => Ok(Vec::new(alloc)),
    }
}

/// The secrets that a user without the key has: from version 2 on none.
fn no_secrets(alloc: Global, version: PolicyVersion, user: u32) -> Result<Vec<Sentence>, Stop>
    ensures { Gives (λ read. map formula_of read.items) result (no_secrets version user) }
{
    match version {
        PolicyVersion::One => {
            let place = key_place(alloc, Some(user), "secrets")?;
            Err(Stop::Refused(PolicyError::MissingKey(place)))
        }
        PolicyVersion::Two => Ok(Vec::new(alloc)),
    }
}

/// The fewest secrets that the key may have.
fn least_secrets(version: PolicyVersion) -> u64
    ensures { result ≡ least_secrets version }
{
    match version {
        PolicyVersion::One => 1,
        PolicyVersion::Two => 0,
    }
}

/// The user's secrets but for those that secrecies make.
fn secrets_of(
    alloc: Global,
    version: PolicyVersion,
    schema: &Schema,
    user: u32,
    table: &Value,
) -> Result<Vec<Sentence>, Stop>
    ensures { Gives (λ read. map formula_of read.items) result
        (secrets_of version schema.now user (get (codes "secrets") (view table.now))) }
{
    match value_at(table, "secrets") {
        Some(value) => {
            let bounds = Bounds {
                least: least_secrets(version),
                greatest: SECRETS,
                nodes: NODES,
            };
            sentences_of(alloc, schema, user, "secrets", bounds, value)
        }
        None => no_secrets(alloc, version, user),
    }
}

/// The user's secrecies.
fn secrecies_of(
    alloc: Global,
    schema: &Schema,
    user: u32,
    table: &Value,
) -> Result<Vec<Sentence>, Stop>
    ensures { Gives (λ read. map formula_of read.items) result
        (secrecies_of schema.now user (get (codes "secrecies") (view table.now))) }
{
    match value_at(table, "secrecies") {
        Some(value) => {
            let bounds = Bounds {
                least: 0,
                greatest: SECRECIES,
                nodes: NODES - 1,
            };
            sentences_of(alloc, schema, user, "secrecies", bounds, value)
        }
        None => Ok(Vec::new(alloc)),
    }
}

/// The secrets that secrecies, each of which makes two, and others make: 1 to 16.
fn all_secrets(
    alloc: Global,
    user: u32,
    secrecies: &[Sentence],
    others: Vec<Sentence>,
) -> Result<Vec<Sentence>, Stop>
    ensures made { Gives (λ made. map formula_of made.items) result
        (all_secrets user (map formula_of secrecies.now) (map formula_of others.items)) }
    ensures few { OnOk result (length secrecies.now ≤ 8) }
{
    law_secrets_made();
    let secrets = with_secrecies(alloc, secrecies, others)?;
    within(
        alloc,
        Some(user),
        "secrecies",
        1,
        SECRETS,
        secrets.len() as u64,
    )?;
    Ok(secrets)
}

/// The user's budget.
fn budget_of(alloc: Global, user: u32, table: &Value) -> Result<u64, Stop>
    ensures { Gives (λ budget. budget) result
        (budget_of user (get (codes "budget") (view table.now))) }
{
    let Some(value) = value_at(table, "budget") else {
        return Ok(BUDGET);
    };
    let Some(number) = value.as_integer() else {
        let place = key_place(alloc, Some(user), "budget")?;
        return Err(Stop::Refused(PolicyError::WrongKind(place)));
    };
    match natural(number) {
        Some(budget) => within(alloc, Some(user), "budget", 1, GREATEST_BUDGET, budget),
        None => {
            let place = key_place(alloc, Some(user), "budget")?;
            Err(Stop::Refused(PolicyError::Limit(place)))
        }
    }
}

/// The SHA-256 of the user's pass phrase, if he has one.
fn token_of(alloc: Global, user: u32, table: &Value) -> Result<Option<[u8; 32]>, Stop>
    ensures { Gives (λ token. token) result (token_of user (get (codes "token") (view table.now))) }
{
    let Some(value) = value_at(table, "token") else {
        return Ok(None);
    };
    let Some(text) = value.as_str() else {
        let place = key_place(alloc, Some(user), "token")?;
        return Err(Stop::Refused(PolicyError::WrongKind(place)));
    };
    match <[u8; 32] as FromHex>::from_hex(text) {
        Ok(token) => Ok(Some(token)),
        Err(_) => {
            let place = key_place(alloc, Some(user), "token")?;
            Err(Stop::Refused(PolicyError::WrongKind(place)))
        }
    }
}

/// The user of this number, if his view isn't too large.
fn with_small_view(alloc: Global, schema: &Schema, number: u32, user: User) -> Result<User, Stop>
    ensures { Gives policy_user_of result
        (with_small_view schema.now number (policy_user_of user)) }
{
    if user.view_nodes(schema) > VIEW_NODES {
        let place = key_place(alloc, Some(number), "secrets")?;
        return Err(Stop::Refused(PolicyError::Limit(place)));
    }
    Ok(user)
}

/// The user of this number, behind these users.
#[tactic(auto, unfolding(crate::specs::Users::user_of))]
fn user_of(
    alloc: Global,
    version: PolicyVersion,
    schema: &Schema,
    earlier: &[User],
    number: u32,
    table: &Value,
) -> Result<User, Stop>
    ensures { Gives policy_user_of result
        (user_of version schema.now (names_of (map policy_user_of earlier.now)) number
        (view table.now)) }
{
    only_keys(alloc, version, Some(number), table)?;
    let name = name_of(alloc, earlier, number, table)?;
    let method = method_of(alloc, number, table)?;
    let know = known_of(alloc, schema, number, table)?;
    let others = secrets_of(alloc, version, schema, number, table)?;
    let secrecies = secrecies_of(alloc, schema, number, table)?;
    let secrets = all_secrets(alloc, number, secrecies.as_slice(), others)?;
    let budget = budget_of(alloc, number, table)?;
    let token = token_of(alloc, number, table)?;
    let user = User {
        name: String::from_str(alloc, name)?,
        method,
        know,
        secrets,
        pairs: secrecies.len() as u32,
        budget,
        token,
    };
    with_small_view(alloc, schema, number, user)
}

/// The users of these tables.
pub fn read_users(
    alloc: Global,
    version: PolicyVersion,
    schema: &Schema,
    tables: &[Value],
) -> Result<Vec<User>, Stop>
    requires { length tables.now ≤ 256 }
    ensures { Gives (λ users. map policy_user_of users.items) result
        (users_behind version schema.now [] (map view tables.now)) }
{
    let mut users = Vec::new(alloc);
    for table in tables {
        let number = users.len() as u32;
        users.push(user_of(alloc, version, schema, users.as_slice(), number, table)?)?;
    }
    Ok(users)
}
