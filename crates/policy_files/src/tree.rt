//! Values taken off the tree of a TOML document.

ghost use Rattle.std.specs.Prelude.{◌≡◌, Option, map, option_map, IfOk, string_bytes};
ghost use Rattle.std.specs.List.{list_all};
ghost use Rattle.toml.specs.Data.{get};
ghost use Rattle.toml.specs.View.{view, table_view};
ghost use Rattle.cqe_base.specs.Memory.{declaration_of};
ghost use Rattle.policy_files.specs.Tree.{elements, is_string, is_table, is_string_array};
ghost use Rattle.policy_files.specs.Tree.{is_table_array, text_in, texts_in, are_string_arrays};
ghost use Rattle.policy_files.specs.Tree.{declarations, natural};

use std::alloc::{AllocError, Global};
use toml::{Table, Value};

/// A name with its parts, as a schema is made of.
pub type Declared = (String, Vec<String>);

/// The value at a key of a table; none where it is no table.
pub fn value_at<'a>(value: &'a Value, key: &str) -> Option<&'a Value>
    ensures { option_map (λ v. view v.now) result ≡ get key.now (view value.now) }
{
    value.get(key)
}

/// The elements of an array; none where it is no array.
pub fn elements(value: &Value) -> &[Value]
    ensures { map view result.now ≡ elements (view value.now) }
{
    match value.as_array() {
        Some(array) => array.as_slice(),
        None => &[],
    }
}

/// Whether all of these are strings.
fn are_strings(values: &[Value]) -> bool
    ensures { result ≡ list_all is_string (map view values.now) }
{
    for value in values {
        if !value.is_str() {
            return false;
        }
    }
    true
}

/// Whether all of these are tables.
fn are_tables(values: &[Value]) -> bool
    ensures { result ≡ list_all is_table (map view values.now) }
{
    for value in values {
        if !value.is_table() {
            return false;
        }
    }
    true
}

/// Whether it is an array of strings.
pub fn is_string_array(value: &Value) -> bool
    ensures { result ≡ is_string_array (view value.now) }
{
    value.is_array() && are_strings(elements(value))
}

/// Whether it is an array of tables.
pub fn is_table_array(value: &Value) -> bool
    ensures { result ≡ is_table_array (view value.now) }
{
    value.is_array() && are_tables(elements(value))
}

/// The text of a string; the empty text where it is no string.
pub fn text_in(value: &Value) -> &str
    ensures { result.now ≡ text_in (view value.now) }
{
    match value.as_str() {
        Some(text) => text,
        None => "",
    }
}

/// The texts of an array of strings, in memory of their own.
fn texts_in(alloc: Global, value: &Value) -> Result<Vec<String>, AllocError>
    ensures { IfOk result (λ texts. map string_bytes texts.items ≡ texts_in (view value.now)) }
{
    let values = elements(value);
    let mut texts = Vec::new(alloc);
    for element in values {
        texts.push(String::from_str(alloc, text_in(element))?)?;
    }
    Ok(texts)
}

/// Whether each value of a table is an array of strings.
pub fn are_string_arrays(table: &Table) -> bool
    ensures { result ≡ are_string_arrays (table_view table.now) }
{
    for (_key, value) in table {
        if !is_string_array(value) {
            return false;
        }
    }
    true
}

/// The declarations that a table has, in the order of its keys as bytes.
pub fn declarations(alloc: Global, table: &Table) -> Result<Vec<Declared>, AllocError>
    ensures { IfOk result (λ declared. map declaration_of declared.items
        ≡ declarations (table_view table.now)) }
{
    let mut declared = Vec::new(alloc);
    for (key, value) in table {
        declared.push(declaration(alloc, key, value)?)?;
    }
    Ok(declared)
}

/// The declaration of a key and its array.
fn declaration(alloc: Global, key: &String, value: &Value) -> Result<Declared, AllocError>
    ensures { IfOk result (λ declared. declaration_of declared ≡ record {
      name =
          string_bytes key.now;
      parts = texts_in (view value.now);
    }) }
{
    let name = key.clone()?;
    let parts = texts_in(alloc, value)?;
    Ok((name, parts))
}

/// A number that isn't negative.
pub fn natural(number: i64) -> Option<u64>
    ensures { result ≡ natural number }
{
    if number < 0 {
        None
    } else {
        Some(number as u64)
    }
}
