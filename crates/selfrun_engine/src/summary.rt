//! The summary of a run.
ghost use Rattle.std.specs.Prelude.{◌≡◌, map, string_bytes, IfOk};
ghost use Rattle.selfrun_engine.specs.Tallies.{summary_line, summary_lines};

use crate::tally::Tally;
use std::alloc::{AllocError, Global};

/// The lines of the summary of a run, each with its end.
pub(crate) fn summary_lines(
    alloc: Global,
    seed: u64,
    users: u32,
    asks: u32,
    tally: &Tally,
) -> Result<Vec<String>, AllocError>
    ensures { IfOk result (λ lines. map string_bytes lines.items
        ≡ summary_lines seed users asks tally.now) }
{
    let mut lines = Vec::new(alloc);
    lines.push(line(alloc, "seed", seed)?)?;
    lines.push(line(alloc, "users", u64::from(users))?)?;
    lines.push(line(alloc, "asks", u64::from(asks))?)?;
    lines.push(line(alloc, "yes", tally.yes)?)?;
    lines.push(line(alloc, "no", tally.no)?)?;
    lines.push(line(alloc, "refused", tally.refused)?)?;
    lines.push(line(alloc, "undecided", tally.undecided)?)?;
    lines.push(line(alloc, "errors", tally.errors)?)?;
    Ok(lines)
}

// A word and a number.
fn line(alloc: Global, word: &str, number: u64) -> Result<String, AllocError>
    ensures { IfOk result (λ line. string_bytes line ≡ summary_line word.now number) }
{
    format!(in alloc; "{word} {number}\n")
}
