//! The facts file.

ghost use Rattle.std.specs.Prelude.{◌≡◌, true, Some, Ok, IfOk, IfErr, IfSome, OnOk};
ghost use Rattle.std.specs.FinSet as set;
ghost use Rattle.cqe_base.specs.Facts.{is_fact_of};
ghost use Rattle.cqe_base.specs.Lines.{text_lines};
ghost use Rattle.policy_files.specs.LinesRead.{line_of};
ghost use Rattle.policy_files.specs.FactLines.{IsRefusal};
ghost use Rattle.policy_files.specs.Laws.{IsSmallWorldOf};
ghost use Rattle.policy_files.specs.Facts.{says_nothing, fact_of_line, with_fact, with_line};
ghost use Rattle.policy_files.specs.Facts.{with_lines, facts_of};

use crate::error::FactsError;
use crate::laws::law_facts_are_worlds;
use crate::lines::{Line, split_line};
use cqe_base::schema::Schema;
use cqe_base::text::is_blank;
use cqe_base::world::{Fact, World, WorldError};
use sentence_text::laws::law_sentences_are_ascii;
use sentence_text::stated_fact;
use std::alloc::{AllocError, Global};

/// A line that states a fact has at most so many bytes.
const LINE: usize = 4_096;

/// Whether a line has blanks alone, or its first byte after blanks is `#`.
fn says_nothing(content: &[u8]) -> bool
    ensures { result ≡ says_nothing content.now }
{
    for byte in content {
        if !is_blank(*byte) {
            return *byte == b'#';
        }
    }
    true
}

/// The fact that a line states.
fn fact_of_line(alloc: Global, schema: &Schema, line: &Line<'_>) -> Result<Option<Fact>, AllocError>
    ensures found { IfOk result (λ found. found ≡ fact_of_line schema.now (line_of line.now)) }
    ensures of_schema { IfOk result
        (λ found. IfSome found (λ fact. is_fact_of schema.now fact ≡ true)) }
{
    law_sentences_are_ascii();
    if line.bytes.len() > LINE {
        return Ok(None);
    }
    let Ok(text) = str::from_utf8(line.content()) else {
        return Ok(None);
    };
    stated_fact(alloc, schema, text)
}

/// One more fact, of the line of this number. A refusal changes nothing.
fn add_fact(schema: &Schema, world: &mut World, number: u32, fact: Fact) -> Result<(), FactsError>
    requires { is_fact_of schema.now fact ≡ true }
    ensures added { OnOk result (with_fact number world.old (Some fact) ≡ Ok world.new) }
    ensures refused { IfErr result (IsRefusal (with_fact number world.old (Some fact))) }
{
    match world.insert(schema, fact) {
        Ok(_) => Ok(()),
        Err(WorldError::Full) => Err(FactsError::Limit(number)),
        Err(_) => Err(FactsError::Memory),
    }
}

/// What one more line says, which has this number.
fn add_line(
    alloc: Global,
    schema: &Schema,
    world: &mut World,
    number: u32,
    line: &Line<'_>,
) -> Result<(), FactsError>
    ensures added { OnOk result (with_line schema.now number world.old (line_of line.now)
        ≡ Ok world.new) }
    ensures refused { IfErr result
        (IsRefusal (with_line schema.now number world.old (line_of line.now))) }
{
    if says_nothing(line.content()) {
        return Ok(());
    }
    match fact_of_line(alloc, schema, line) {
        Ok(Some(fact)) => add_fact(schema, world, number, fact),
        Ok(None) => Err(FactsError::NotAFact(number)),
        Err(_) => Err(FactsError::Memory),
    }
}

/// The world of all lines of these bytes.
fn world_of_lines(alloc: Global, schema: &Schema, bytes: &[u8]) -> Result<World, FactsError>
    ensures read { IfOk result (λ world. with_lines schema.now 1 set.empty (text_lines bytes.now)
        ≡ Ok world) }
    ensures refused { IfErr result
        (IsRefusal (with_lines schema.now 1 set.empty (text_lines bytes.now))) }
{
    let mut world = World::new(alloc);
    let mut number = 1;
    let mut left = bytes;
    while !left.is_empty() {
        let (line, behind) = split_line(left);
        add_line(alloc, schema, &mut world, number, &line)?;
        left = behind;
        // Lines whose numbers don't fit are more than memory holds.
        let Some(next) = number.checked_add(1) else {
            return Err(FactsError::Memory);
        };
        number = next;
    }
    Ok(world)
}

/// Reads the bytes of a facts file, UTF-8, as `docs/FORMATS.md`, "The facts file", has them: each
/// line states one fact of the schema, or says nothing. A fact that stands twice counts once. The
/// bytes are refused at their first bad line, counted from 1, by the numbers of `FactsError`: 1 it
/// states no fact of the schema, 2 its fact is one too many; bytes that aren't UTF-8 are refused as
/// a whole, by 3.
pub fn read_facts(alloc: Global, schema: &Schema, bytes: &[u8]) -> Result<World, FactsError>
    // What is read is the world that the bytes are.
    ensures read { IfOk result (λ world. facts_of schema.now bytes.now ≡ Ok world) }
    // It is a world of the schema, of at most 100,000 facts.
    ensures world { IfOk result (IsSmallWorldOf schema.now) }
    // The bytes are refused so, unless memory is wanting.
    ensures refused { IfErr result (IsRefusal (facts_of schema.now bytes.now)) }
{
    schema.known();
    law_facts_are_worlds();
    let Ok(_text) = str::from_utf8(bytes) else {
        return Err(FactsError::NotUtf8);
    };
    // A match, so that what was read and what was refused are goals of their own.
    match world_of_lines(alloc, schema, bytes) {
        Ok(world) => Ok(world),
        Err(why) => Err(why),
    }
}
