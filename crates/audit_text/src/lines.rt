//! The lines of an audit.
ghost use Rattle.std.specs.Prelude.{◌≡◌, ◌++◌, [], map, string_bytes, Some, IfOk, OnOk};
ghost use Rattle.std.specs.Prelude.{option_map, unwrap_or};
ghost use Rattle.std.specs.List.{flat_map};
ghost use Rattle.audit_text.specs.Text.{user_line, entry_line, entry_lines, secret_line};
ghost use Rattle.audit_text.specs.Text.{secrecy_line, secrecy_lines, world_text, more_facts};
ghost use Rattle.audit_text.specs.Text.{text_lines, item_word};
ghost use Rattle.audit_text.specs.Rows.{entry_in, secrecy_in, secret_in, world_in, said_in};

use crate::report::{EntryRow, Report, SecrecyRow, SecretRow};
use cqe_base::user::Mark;
use std::alloc::{AllocError, Global};

/// The lines of the text form.
pub(crate) fn text_lines(alloc: Global, report: &Report<'_>) -> Result<Vec<String>, AllocError>
    ensures { IfOk result (λ lines. map string_bytes lines.items
        ≡ text_lines (said_in report.now)) }
{
    let mut lines = Vec::new(alloc);
    lines.push(user_line(alloc, report)?)?;
    push_entries(alloc, &mut lines, &report.entries)?;
    push_secrecies(alloc, &mut lines, &report.secrecies)?;
    push_secrets(alloc, &mut lines, &report.secrets)?;
    Ok(lines)
}

fn user_line(alloc: Global, report: &Report<'_>) -> Result<String, AllocError>
    ensures { IfOk result (λ line. string_bytes line ≡ user_line (said_in report.now)) }
{
    let mut line = String::from_str(alloc, "user ")?;
    line.push_str(report.name)?;
    line.push_str(" ")?;
    line.push_str(report.method)?;
    line.push_str(" ")?;
    line.push_str(report.standing)?;
    line.push_str("\n")?;
    Ok(line)
}

// Appends the lines of entries, numbered from 1.
fn push_entries(
    alloc: Global,
    lines: &mut Vec<String>,
    entries: &[EntryRow],
) -> Result<(), AllocError>
    ensures { OnOk result (map string_bytes lines.new.items
        ≡ map string_bytes lines.old.items ++ entry_lines 1 (map entry_in entries.now)) }
{
    for (place, entry) in entries.iter().enumerate() {
        lines.push(entry_line(alloc, place as u64 + 1, entry)?)?;
    }
    Ok(())
}

// Appends the lines of the secrecies, if there are any.
fn push_secrecies(
    alloc: Global,
    lines: &mut Vec<String>,
    secrecies: &Option<Vec<SecrecyRow>>,
) -> Result<(), AllocError>
    ensures { OnOk result (map string_bytes lines.new.items
        ≡ map string_bytes lines.old.items ++ flat_map secrecy_lines
        (unwrap_or (option_map (λ rows. map secrecy_in rows.items) secrecies.now) [])) }
{
    match secrecies {
        Some(rows) => push_rows(alloc, lines, rows),
        None => Ok(()),
    }
}

// Appends the lines of secrecies.
fn push_rows(alloc: Global, lines: &mut Vec<String>, rows: &[SecrecyRow]) -> Result<(), AllocError>
    ensures { OnOk result (map string_bytes lines.new.items
        ≡ map string_bytes lines.old.items ++ flat_map secrecy_lines (map secrecy_in rows.now)) }
{
    for row in rows {
        lines.push(secrecy_line(alloc, &row.secrecy, "true", &row.where_true)?)?;
        lines.push(secrecy_line(alloc, &row.secrecy, "false", &row.where_false)?)?;
    }
    Ok(())
}

// Appends the lines of secrets.
fn push_secrets(
    alloc: Global,
    lines: &mut Vec<String>,
    secrets: &[SecretRow],
) -> Result<(), AllocError>
    ensures { OnOk result (map string_bytes lines.new.items
        ≡ map string_bytes lines.old.items ++ map secret_line (map secret_in secrets.now)) }
{
    for secret in secrets {
        lines.push(secret_line(alloc, secret)?)?;
    }
    Ok(())
}

fn entry_line(alloc: Global, number: u64, entry: &EntryRow) -> Result<String, AllocError>
    ensures { IfOk result (λ line. string_bytes line ≡ entry_line number (entry_in entry.now)) }
{
    let mut line = format!(in alloc; "{number}")?;
    line.push_str(" ")?;
    line.push_str(item_word(entry.mark))?;
    line.push_str(" ")?;
    line.push_str(&entry.query)?;
    line.push_str("\n")?;
    Ok(line)
}

fn secrecy_line(
    alloc: Global,
    secrecy: &str,
    word: &str,
    world: &Option<Vec<String>>,
) -> Result<String, AllocError>
    ensures { IfOk result (λ line. string_bytes line
        ≡ secrecy_line secrecy.now word.now (world_in world.now)) }
{
    let world = world_text(alloc, world)?;
    let mut line = String::from_str(alloc, "secrecy ")?;
    line.push_str(secrecy)?;
    line.push_str(" ")?;
    line.push_str(word)?;
    line.push_str(" ")?;
    line.push_str(&world)?;
    line.push_str("\n")?;
    Ok(line)
}

fn secret_line(alloc: Global, row: &SecretRow) -> Result<String, AllocError>
    ensures { IfOk result (λ line. string_bytes line ≡ secret_line (secret_in row.now)) }
{
    let world = world_text(alloc, &row.world)?;
    let mut line = String::from_str(alloc, "secret ")?;
    line.push_str(&row.secret)?;
    line.push_str(" world ")?;
    line.push_str(&world)?;
    line.push_str("\n")?;
    Ok(line)
}

fn world_text(alloc: Global, world: &Option<Vec<String>>) -> Result<String, AllocError>
    ensures { IfOk result (λ text. string_bytes text
        ≡ world_text (world_in world.now)) }
{
    let mut text = String::new(alloc);
    match world {
        None => text.push_str("spent")?,
        Some(facts) => push_facts(&mut text, facts)?,
    }
    Ok(text)
}

/// Appends the texts of a world's facts, with one blank between two, and `-` where there are none.
pub fn push_facts(text: &mut String, facts: &[String]) -> Result<(), AllocError>
    ensures { OnOk result (string_bytes text.new
        ≡ string_bytes text.old ++ world_text (Some (map string_bytes facts.now))) }
{
    match facts {
        [] => text.push_str("-"),
        [first, others @ ..] => {
            text.push_str(first)?;
            push_more(text, others)
        }
    }
}

fn push_more(text: &mut String, facts: &[String]) -> Result<(), AllocError>
    ensures { OnOk result (string_bytes text.new
        ≡ string_bytes text.old ++ more_facts (map string_bytes facts.now)) }
{
    for fact in facts {
        text.push_str(" ")?;
        text.push_str(fact)?;
    }
    Ok(())
}

/// The word of an item with this mark.
pub(crate) fn item_word(mark: Mark) -> &'static str
    ensures { result.now ≡ item_word mark }
{
    match mark {
        Mark::Yes => "yes",
        Mark::No => "no",
        Mark::Refused => "refused",
        Mark::Undecided => "undecided",
        Mark::Protected => "protect",
    }
}
