//! What an audit says, in memory.
ghost use Rattle.std.specs.Prelude.{◌≡◌, map, string_bytes, IfOk};
ghost use Rattle.audit_text.specs.Json.{lines_of};
ghost use Rattle.audit_text.specs.Rows.{said_in};

use crate::json::json_lines;
use crate::lines::text_lines;
use cqe_base::user::Mark;
use std::alloc::{AllocError, Global};

/// An entry: its mark, and the canonical text of its query.
#[derive(Drop)]
pub struct EntryRow {
    pub mark: Mark,
    pub query: String,
}

/// A secrecy: its canonical text, and the texts of the facts of another world where it is true and
/// of one where it is false, where one was found.
#[derive(Drop)]
pub struct SecrecyRow {
    pub secrecy: String,
    pub where_true: Option<Vec<String>>,
    pub where_false: Option<Vec<String>>,
}

/// A secret: its canonical text, and the texts of the facts of its other world, if one was found.
#[derive(Drop)]
pub struct SecretRow {
    pub secret: String,
    pub world: Option<Vec<String>>,
}

/// All that an audit says of a user: his name, the words of his method and of his standing, his
/// entries, his secrecies, `None` where he has none, and his other secrets.
#[derive(Drop)]
pub struct Report<'u> {
    pub name: &'u str,
    pub method: &'u str,
    pub standing: &'u str,
    pub entries: Vec<EntryRow>,
    pub secrecies: Option<Vec<SecrecyRow>>,
    pub secrets: Vec<SecretRow>,
}

/// The lines of an audit, each with its end: in JSON one, and else a line for the user, for each
/// entry and for each other secret, and two for each secrecy. An error is want of memory.
pub fn lines_of(alloc: Global, report: &Report<'_>, json: bool) -> Result<Vec<String>, AllocError>
    ensures { IfOk result (λ lines. map string_bytes lines.items
        ≡ lines_of json (said_in report.now)) }
{
    if json {
        json_lines(alloc, report)
    } else {
        text_lines(alloc, report)
    }
}
