//! An audit as JSON.
ghost use Rattle.std.specs.Prelude.{◌≡◌, ◌∷◌, [], ◌++◌, map, codes, string_bytes, false};
ghost use Rattle.std.specs.Prelude.{IfOk};
ghost use Rattle.serde_json.specs.Data.{string};
ghost use Rattle.serde_json.specs.View.{view};
ghost use Rattle.serde_json.specs.Written.{compact_text, has_float};
ghost use Rattle.audit_text.specs.Json.{list_of, entry_data, secrecy_data, secret_data, world_data};
ghost use Rattle.audit_text.specs.Json.{audit_data, asked_data};
ghost use Rattle.audit_text.specs.Rows.{entry_in, secrecy_in, secret_in, world_in, said_in};

use crate::lines::item_word;
use crate::report::{EntryRow, Report, SecrecyRow, SecretRow};
use cqe_base::user::Mark;
use serde_json::{Value, json};
use std::alloc::{AllocError, Global};

/// The one line of the JSON form.
pub(crate) fn json_lines(alloc: Global, report: &Report<'_>) -> Result<Vec<String>, AllocError>
    ensures { IfOk result (λ lines. map string_bytes lines.items
        ≡ (compact_text (audit_data (said_in report.now)) ++ codes "\n") ∷ []) }
{
    let value = audit_value(alloc, report)?;
    let line = value_line(alloc, &value)?;
    alone(alloc, line)
}

// A value as a line.
fn value_line(alloc: Global, value: &Value) -> Result<String, AllocError>
    requires { has_float (view value.now) ≡ false }
    ensures { IfOk result (λ line. string_bytes line
        ≡ compact_text (view value.now) ++ codes "\n") }
{
    let mut line = value.to_string(alloc)?;
    line.push_str("\n")?;
    Ok(line)
}

// One line.
fn alone(alloc: Global, line: String) -> Result<Vec<String>, AllocError>
    ensures { IfOk result (λ lines. map string_bytes lines.items ≡ string_bytes line ∷ []) }
{
    let mut lines = Vec::new(alloc);
    lines.push(line)?;
    Ok(lines)
}

fn audit_value(alloc: Global, report: &Report<'_>) -> Result<Value, AllocError>
    ensures { IfOk result (λ value. view value ≡ audit_data (said_in report.now)) }
{
    let entries = entries_value(alloc, &report.entries)?;
    let secrets = secrets_value(alloc, &report.secrets)?;
    match &report.secrecies {
        None => json!(in alloc; {
            "name": report.name,
            "method": report.method,
            "standing": report.standing,
            "entries": entries,
            "secrets": secrets
        }),
        Some(rows) => {
            let secrecies = secrecies_value(alloc, rows)?;
            json!(in alloc; {
                "name": report.name,
                "method": report.method,
                "standing": report.standing,
                "entries": entries,
                "secrecies": secrecies,
                "secrets": secrets
            })
        }
    }
}

fn entries_value(alloc: Global, rows: &[EntryRow]) -> Result<Value, AllocError>
    ensures { IfOk result (λ value. view value ≡ list_of (map entry_data (map entry_in rows.now))) }
{
    let mut values = Vec::new(alloc);
    for row in rows {
        values.push(entry_value(alloc, row)?)?;
    }
    Ok(Value::Array(values))
}

fn entry_value(alloc: Global, row: &EntryRow) -> Result<Value, AllocError>
    ensures { IfOk result (λ value. view value ≡ entry_data (entry_in row.now)) }
{
    match row.mark {
        Mark::Yes | Mark::No | Mark::Refused | Mark::Undecided => asked_value(alloc, row),
        Mark::Protected => json!(in alloc; {"protect": row.query.as_str()}),
    }
}

fn asked_value(alloc: Global, row: &EntryRow) -> Result<Value, AllocError>
    ensures { IfOk result (λ value. view value
        ≡ asked_data row.now.mark (string_bytes row.now.query)) }
{
    json!(in alloc; {"mark": item_word(row.mark), "query": row.query.as_str()})
}

fn secrecies_value(alloc: Global, rows: &[SecrecyRow]) -> Result<Value, AllocError>
    ensures { IfOk result (λ value. view value
        ≡ list_of (map secrecy_data (map secrecy_in rows.now))) }
{
    let mut values = Vec::new(alloc);
    for row in rows {
        values.push(secrecy_value(alloc, row)?)?;
    }
    Ok(Value::Array(values))
}

fn secrecy_value(alloc: Global, row: &SecrecyRow) -> Result<Value, AllocError>
    ensures { IfOk result (λ value. view value ≡ secrecy_data (secrecy_in row.now)) }
{
    let where_true = world_value(alloc, &row.where_true)?;
    let where_false = world_value(alloc, &row.where_false)?;
    json!(in alloc; {"secrecy": row.secrecy.as_str(), "true": where_true, "false": where_false})
}

fn secrets_value(alloc: Global, rows: &[SecretRow]) -> Result<Value, AllocError>
    ensures { IfOk result (λ value. view value
        ≡ list_of (map secret_data (map secret_in rows.now))) }
{
    let mut values = Vec::new(alloc);
    for row in rows {
        values.push(secret_value(alloc, row)?)?;
    }
    Ok(Value::Array(values))
}

fn secret_value(alloc: Global, row: &SecretRow) -> Result<Value, AllocError>
    ensures { IfOk result (λ value. view value ≡ secret_data (secret_in row.now)) }
{
    let world = world_value(alloc, &row.world)?;
    json!(in alloc; {"secret": row.secret.as_str(), "world": world})
}

fn world_value(alloc: Global, world: &Option<Vec<String>>) -> Result<Value, AllocError>
    ensures { IfOk result (λ value. view value ≡ world_data (world_in world.now)) }
{
    match world {
        None => Ok(Value::Null),
        Some(facts) => texts_value(alloc, facts),
    }
}

fn texts_value(alloc: Global, texts: &[String]) -> Result<Value, AllocError>
    ensures { IfOk result (λ value. view value
        ≡ list_of (map string (map string_bytes texts.now))) }
{
    let mut values = Vec::new(alloc);
    for text in texts {
        values.push(Value::try_from_str(alloc, text)?)?;
    }
    Ok(Value::Array(values))
}
