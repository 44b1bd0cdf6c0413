//! The policy file.

ghost use Rattle.std.specs.Prelude.{◌≡◌, ◌⊎◌, All, codes, map, Ok, Err, IfOk, IfErr};
ghost use Rattle.toml.specs.Data.{get};
ghost use Rattle.toml.specs.View.{view, table_view};
ghost use Rattle.cqe_base.specs.Memory.{declaration_of};
ghost use Rattle.cqe_base.specs.History.{profile_of};
ghost use Rattle.cqe_base.specs.Limits.{KeepsLimits};
ghost use Rattle.policy_files.specs.Policy.{version_of, declared_at, schema_in, tree_in, policy_of};
ghost use Rattle.policy_files.specs.Policy.{policy_in};
ghost use Rattle.policy_files.specs.Memory.{policy_value_of};
ghost use Rattle.policy_files.specs.Laws.{IsKeptPolicy};
ghost use Rattle.policy_files.specs.Gives.{Gives};

use crate::error::{PolicyError, Stop};
use crate::keys::{PolicyVersion, integer_at, key_place, only_keys, table_at, tables_at, within};
use crate::laws::law_policies_are_kept;
use crate::tree::{Declared, are_string_arrays, declarations, natural};
use crate::user::read_users;
use cqe_base::schema::{Schema, SchemaError};
use cqe_base::user::User;
use std::alloc::Global;
use toml::{Table, Value};

/// A policy has at most so many users.
const USERS: u64 = 256;

/// A policy: the schema of the database, and the users in the order of the file.
#[derive(Drop)]
pub struct Policy {
    pub schema: Schema,
    pub users: Vec<User>,
}

/// The version is 1 or 2.
fn read_version(alloc: Global, root: &Value) -> Result<PolicyVersion, Stop>
    ensures { Gives (λ version. version) result
        (version_of (get (codes "version") (view root.now))) }
{
    let number = integer_at(alloc, None, root, "version")?;
    match natural(number) {
        Some(1) => Ok(PolicyVersion::One),
        Some(2) => Ok(PolicyVersion::Two),
        _ => Err(Stop::Refused(PolicyError::Version)),
    }
}

/// The declarations of a table at a key of the document.
fn declared_at(alloc: Global, key: &str, values: &Table) -> Result<Vec<Declared>, Stop>
    ensures { Gives (λ declared. map declaration_of declared.items) result
        (declared_at key.now (table_view values.now)) }
{
    if !are_string_arrays(values) {
        let place = key_place(alloc, None, key)?;
        return Err(Stop::Refused(PolicyError::WrongKind(place)));
    }
    Ok(declarations(alloc, values)?)
}

/// The schema that declarations make.
fn schema_in(
    alloc: Global,
    domains: Vec<Declared>,
    relations: Vec<Declared>,
) -> Result<Schema, Stop>
    ensures { Gives (λ schema. schema) result
        (schema_in (map declaration_of domains.items) (map declaration_of relations.items)) }
{
    match Schema::new(alloc, domains, relations) {
        Ok(schema) => Ok(schema),
        Err(SchemaError::Memory) => Err(Stop::Memory),
        Err(why) => Err(Stop::Refused(PolicyError::Schema(why))),
    }
}

/// The policy that the tree of a document means.
#[tactic(auto, unfolding(crate::specs::Policy::policy_of))]
fn policy_of(alloc: Global, root: &Value) -> Result<Policy, Stop>
    ensures { Gives policy_value_of result (policy_of (view root.now)) }
{
    let version = read_version(alloc, root)?;
    only_keys(alloc, version, None, root)?;
    let domain_table = table_at(alloc, None, root, "domains")?;
    let relation_table = table_at(alloc, None, root, "relations")?;
    let tables = tables_at(alloc, None, root, "users")?;
    let domains = declared_at(alloc, "domains", domain_table)?;
    let relations = declared_at(alloc, "relations", relation_table)?;
    let schema = schema_in(alloc, domains, relations)?;
    within(alloc, None, "users", 1, USERS, tables.len() as u64)?;
    let users = read_users(alloc, version, &schema, tables)?;
    Ok(Policy { schema, users })
}

/// The tree of a TOML document in UTF-8.
#[tactic(auto, using(crate::proofs::Trees::the_documents))]
fn tree_in(alloc: Global, bytes: &[u8]) -> Result<Value, Stop>
    ensures { Gives view result (tree_in bytes.now) }
{
    let Ok(text) = str::from_utf8(bytes) else {
        return Err(Stop::Refused(PolicyError::NotToml));
    };
    match toml::table_from_str(alloc, text) {
        Ok(table) => Ok(Value::Table(table)),
        Err(error) => {
            if error.is_memory() {
                Err(Stop::Memory)
            } else {
                Err(Stop::Refused(PolicyError::NotToml))
            }
        }
    }
}

/// The policy that the bytes of a file are.
#[tactic(auto, unfolding(crate::specs::Policy::policy_in))]
fn policy_in(alloc: Global, bytes: &[u8]) -> Result<Policy, Stop>
    ensures { Gives policy_value_of result (policy_in bytes.now) }
{
    let root = tree_in(alloc, bytes)?;
    policy_of(alloc, &root)
}

/// Reads the bytes of a policy file, a TOML document in UTF-8 with the keys of `docs/FORMATS.md`,
/// "The policy file", which has the checks in the order in which they are made. The first that
/// fails is the refusal: its number, 1 to 9, stands at each variant of `PolicyError`, and its place
/// is the user, the key and the text where it failed, counted from 0. Domains and relations stand
/// in the schema in the order of their keys as bytes.
pub fn read_policy(alloc: Global, bytes: &[u8]) -> Result<Policy, PolicyError>
    // What is read is the policy that the bytes are.
    ensures read { IfOk result (λ policy. policy_in bytes.now ≡ Ok (policy_value_of policy)) }
    // Its schema is valid, each user keeps the limits, and names differ.
    ensures kept { IfOk result (λ policy. IsKeptPolicy (policy_value_of policy)) }
    // The same of each user in memory: he keeps the limits.
    ensures limits { IfOk result (λ policy.
        All (λ user. KeepsLimits policy.schema (profile_of user)) policy.users.items) }
    // The bytes are refused so, unless memory is wanting.
    ensures refused { IfErr result
        (λ why. (why ≡ PolicyError.Memory) ⊎ (policy_in bytes.now ≡ Err why)) }
{
    law_policies_are_kept();
    match policy_in(alloc, bytes) {
        Ok(policy) => Ok(policy),
        Err(Stop::Refused(why)) => Err(why),
        Err(Stop::Memory) => Err(PolicyError::Memory),
    }
}
