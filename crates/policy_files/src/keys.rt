//! The keys of a policy, and the refusals that name one.

ghost use Rattle.std.specs.Prelude.{◌≡◌, Some, None, map, option_map, IfOk};
ghost use Rattle.toml.specs.Data.{get, as_str, as_integer, as_table};
ghost use Rattle.toml.specs.View.{view, table_view};
ghost use Rattle.cqe_base.specs.Schema.{contains_text};
ghost use Rattle.policy_files.specs.Tree.{members, unknown_key, tables_in};
ghost use Rattle.policy_files.specs.Keys.{root_keys, first_user_keys, user_keys, keys_at};
ghost use Rattle.policy_files.specs.Keys.{key_place, text_place, only_keys, there, required};
ghost use Rattle.policy_files.specs.Keys.{within};
ghost use Rattle.policy_files.specs.Gives.{Gives};

use crate::error::{KeyPlace, KeyText, PolicyError, Stop};
use crate::tree::{elements, is_table_array, value_at};
use cqe_base::text::TextError;
use std::alloc::{AllocError, Global};
use toml::{Table, Value};

/// The version of a policy. From the second on a user may have secrecies.
#[derive(Clone, Copy, Debug, PartialEq, Eq)]
pub enum PolicyVersion {
    One,
    Two,
}

/// The place of a key, in the user of this number or in the document itself.
pub fn key_place(alloc: Global, user: Option<u32>, key: &str) -> Result<KeyPlace, AllocError>
    ensures { IfOk result (λ place. place ≡ key_place user key.now) }
{
    let key = KeyText::from_str(alloc, key)?;
    Ok(KeyPlace {
        user,
        key,
        index: None,
        text: None,
    })
}

/// The place of a text in the array at a user's key.
pub fn text_place(
    alloc: Global,
    user: u32,
    key: &str,
    index: u32,
    why: Option<TextError>,
) -> Result<KeyPlace, AllocError>
    ensures { IfOk result (λ place. place ≡ text_place user key.now index why) }
{
    let key = KeyText::from_str(alloc, key)?;
    Ok(KeyPlace {
        user: Some(user),
        key,
        index: Some(index),
        text: why,
    })
}

/// Whether a document has such a key.
fn is_root_key(key: &str) -> bool
    ensures { result ≡ contains_text root_keys key.now }
{
    key == "version" || key == "domains" || key == "relations" || key == "users"
}

/// Whether a user has such a key in every version.
fn is_first_user_key(key: &str) -> bool
    ensures { result ≡ contains_text first_user_keys key.now }
{
    key == "name"
        || key == "method"
        || key == "know"
        || key == "secrets"
        || key == "budget"
        || key == "token"
}

/// Whether a user has such a key.
fn is_user_key(version: PolicyVersion, key: &str) -> bool
    ensures { result ≡ contains_text (user_keys version) key.now }
{
    match version {
        PolicyVersion::One => is_first_user_key(key),
        PolicyVersion::Two => key == "secrecies" || is_first_user_key(key),
    }
}

/// Whether a user, or a document, has such a key.
fn is_key_at(version: PolicyVersion, user: Option<u32>, key: &str) -> bool
    ensures { result ≡ contains_text (keys_at version user) key.now }
{
    match user {
        Some(_) => is_user_key(version, key),
        None => is_root_key(key),
    }
}

/// The least key of a table that has no meaning there.
fn unknown_key_in<'a>(
    version: PolicyVersion,
    user: Option<u32>,
    table: &'a Table,
) -> Option<&'a str>
    ensures { option_map (λ key. key.now) result
        ≡ unknown_key (keys_at version user) (table_view table.now) }
{
    for (key, _value) in table {
        if !is_key_at(version, user, key.as_str()) {
            return Some(key.as_str());
        }
    }
    None
}

/// The same of a value, which has no keys where it is no table.
fn unknown_key<'a>(version: PolicyVersion, user: Option<u32>, value: &'a Value) -> Option<&'a str>
    ensures { option_map (λ key. key.now) result
        ≡ unknown_key (keys_at version user) (members (view value.now)) }
{
    unknown_key_in(version, user, value.as_table()?)
}

/// A table has no other keys than those that have a meaning there.
pub fn only_keys(
    alloc: Global,
    version: PolicyVersion,
    user: Option<u32>,
    value: &Value,
) -> Result<(), Stop>
    ensures { Gives (λ done. done) result (only_keys version user (view value.now)) }
{
    match unknown_key(version, user, value) {
        Some(key) => {
            let place = key_place(alloc, user, key)?;
            Err(Stop::Refused(PolicyError::UnknownKey(place)))
        }
        None => Ok(()),
    }
}

/// The value that must stand at a key of a table.
fn there<'a>(
    alloc: Global,
    user: Option<u32>,
    table: &'a Value,
    key: &str,
) -> Result<&'a Value, Stop>
    ensures { Gives (λ v. view v.now) result
        (there (key_place user key.now) (get key.now (view table.now))) }
{
    match value_at(table, key) {
        Some(value) => Ok(value),
        None => {
            let place = key_place(alloc, user, key)?;
            Err(Stop::Refused(PolicyError::MissingKey(place)))
        }
    }
}

/// The string that must stand at a key of a table.
pub fn string_at<'a>(
    alloc: Global,
    user: Option<u32>,
    table: &'a Value,
    key: &str,
) -> Result<&'a str, Stop>
    ensures { Gives (λ text. text.now) result
        (required as_str (key_place user key.now) (get key.now (view table.now))) }
{
    let value = there(alloc, user, table, key)?;
    match value.as_str() {
        Some(text) => Ok(text),
        None => {
            let place = key_place(alloc, user, key)?;
            Err(Stop::Refused(PolicyError::WrongKind(place)))
        }
    }
}

/// The integer that must stand at a key of a table.
pub fn integer_at(alloc: Global, user: Option<u32>, table: &Value, key: &str) -> Result<i64, Stop>
    ensures { Gives (λ number. number) result
        (required as_integer (key_place user key.now) (get key.now (view table.now))) }
{
    let value = there(alloc, user, table, key)?;
    match value.as_integer() {
        Some(number) => Ok(number),
        None => {
            let place = key_place(alloc, user, key)?;
            Err(Stop::Refused(PolicyError::WrongKind(place)))
        }
    }
}

/// The table that must stand at a key of a table.
pub fn table_at<'a>(
    alloc: Global,
    user: Option<u32>,
    table: &'a Value,
    key: &str,
) -> Result<&'a Table, Stop>
    ensures { Gives (λ found. table_view found.now) result
        (required as_table (key_place user key.now) (get key.now (view table.now))) }
{
    let value = there(alloc, user, table, key)?;
    match value.as_table() {
        Some(found) => Ok(found),
        None => {
            let place = key_place(alloc, user, key)?;
            Err(Stop::Refused(PolicyError::WrongKind(place)))
        }
    }
}

/// The tables of the array that must stand at a key of a table.
pub fn tables_at<'a>(
    alloc: Global,
    user: Option<u32>,
    table: &'a Value,
    key: &str,
) -> Result<&'a [Value], Stop>
    ensures { Gives (λ found. map view found.now) result
        (required tables_in (key_place user key.now) (get key.now (view table.now))) }
{
    let value = there(alloc, user, table, key)?;
    if is_table_array(value) {
        Ok(elements(value))
    } else {
        let place = key_place(alloc, user, key)?;
        Err(Stop::Refused(PolicyError::WrongKind(place)))
    }
}

/// A number is from the least to the greatest.
pub fn within(
    alloc: Global,
    user: Option<u32>,
    key: &str,
    least: u64,
    greatest: u64,
    number: u64,
) -> Result<u64, Stop>
    ensures { Gives (λ n. n) result (within least greatest (key_place user key.now) number) }
{
    if least <= number && number <= greatest {
        Ok(number)
    } else {
        let place = key_place(alloc, user, key)?;
        Err(Stop::Refused(PolicyError::Limit(place)))
    }
}
