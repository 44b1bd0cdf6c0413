//! The facts of a world, as a block lists them.
ghost use Rattle.std.specs.Prelude.{◌≡◌, ◌++◌, ◌∷◌, true, Some, map, option_map, codes};
ghost use Rattle.std.specs.Prelude.{string_bytes, nat_lt, length, IfOk, IfSome};
ghost use Rattle.std.specs.List.{list_all};
ghost use Rattle.std.specs.Ordering.{is_lt};
ghost use Rattle.cqe_base.specs.Facts.{is_fact_of, fact_cmp};
ghost use Rattle.audit_text.specs.Text.{world_text};
ghost use Rattle.audit_print.specs.Said.{world_said};
ghost use Rattle.dossier.specs.Fields.{ended_parts};
ghost use Rattle.dossier.specs.Words.{short_fact, facts_in, ascends, is_listing, listed_world};
ghost use Rattle.dossier.specs.Words.{facts_listed};

use crate::cut::first_part;
use crate::words::is_long;
use audit_print::fact_text;
use audit_text::push_facts;
use cqe_base::schema::Schema;
use cqe_base::world::{Fact, World};
use sentence_text::stated_fact;
use std::alloc::{AllocError, Global};

/// A world holds at most so many facts.
const FACTS: usize = 100_000;

/// The facts that a text lists as an audit does: `-` where there are none. There is nothing where
/// it is no such text.
pub(crate) fn facts_listed(
    alloc: Global,
    schema: &Schema,
    text: &str,
) -> Result<Option<Vec<Fact>>, AllocError>
    ensures { IfOk result (λ read. option_map (λ facts. facts.items) read
        ≡ facts_listed schema.now text.now) }
{
    if text == "-" {
        return Ok(Some(Vec::new(alloc)));
    }
    let Some(facts) = facts_in(alloc, schema, text)? else {
        return Ok(None);
    };
    if is_listing(alloc, schema, text, &facts)? {
        Ok(Some(facts))
    } else {
        Ok(None)
    }
}

/// The facts that stand in a text, each up to its closing parenthesis.
fn facts_in(alloc: Global, schema: &Schema, text: &str) -> Result<Option<Vec<Fact>>, AllocError>
    ensures read { IfOk result (λ read. option_map (λ facts. facts.items) read
        ≡ facts_in schema.now (ended_parts 41 text.now)) }
    ensures of_schema { IfOk result (λ read. IfSome read
        (λ facts. list_all (is_fact_of schema.now) facts.items ≡ true)) }
{
    let mut facts = Vec::new(alloc);
    let mut rest = text;
    while !rest.is_empty() {
        let (part, behind) = first_part(rest, ')');
        match fact_in(alloc, schema, part)? {
            Some(fact) => facts.push(fact)?,
            None => return Ok(None),
        }
        rest = behind;
    }
    Ok(Some(facts))
}

/// The fact that a text states which lacks its closing parenthesis.
fn fact_in(alloc: Global, schema: &Schema, part: &str) -> Result<Option<Fact>, AllocError>
    ensures fact { IfOk result (λ fact. fact ≡ short_fact schema.now (part.now ++ codes ")")) }
    ensures of_schema { IfOk result (λ fact. IfSome fact
        (λ f. is_fact_of schema.now f ≡ true)) }
{
    let mut text = String::from_str(alloc, part)?;
    text.push_str(")")?;
    if is_long(&text) {
        return Ok(None);
    }
    let fact = stated_fact(alloc, schema, &text)?;
    Ok(fact)
}

/// Whether a text is how an audit lists these facts.
fn is_listing(
    alloc: Global,
    schema: &Schema,
    text: &str,
    facts: &[Fact],
) -> Result<bool, AllocError>
    requires { list_all (is_fact_of schema.now) facts.now ≡ true }
    ensures { IfOk result (λ yes. yes ≡ is_listing schema.now text.now facts.now) }
{
    if are_many(facts) {
        return Ok(false);
    }
    if !ascends(facts) {
        return Ok(false);
    }
    let printed = listing(alloc, schema, facts)?;
    Ok(text == printed.as_str())
}

/// Whether these are more facts than a world holds.
fn are_many(facts: &[Fact]) -> bool
    ensures { result ≡ nat_lt 100000 (length facts.now) }
{
    facts.len() > FACTS
}

/// Whether each fact stands behind the one before it.
fn ascends(facts: &[Fact]) -> bool
    ensures { result ≡ ascends facts.now }
{
    match facts {
        [] => true,
        [first, others @ ..] => ascends_from(*first, others),
    }
}

/// Whether each of these facts stands behind the one before it, the first of them behind this one.
fn ascends_from(first: Fact, others: &[Fact]) -> bool
    ensures { result ≡ ascends (first ∷ others.now) }
{
    let mut last = first;
    for fact in others {
        if !stands_before(&last, fact) {
            return false;
        }
        last = *fact;
    }
    true
}

/// Whether a fact stands before another in the order of facts.
fn stands_before(first: &Fact, second: &Fact) -> bool
    ensures { result ≡ is_lt (fact_cmp first.now second.now) }
{
    first.cmp(second).is_lt()
}

/// These facts, as an audit lists them.
fn listing(alloc: Global, schema: &Schema, facts: &[Fact]) -> Result<String, AllocError>
    requires { list_all (is_fact_of schema.now) facts.now ≡ true }
    ensures { IfOk result (λ text. string_bytes text
        ≡ world_text (Some (world_said schema.now facts.now))) }
{
    let texts = texts_of(alloc, schema, facts)?;
    let mut text = String::new(alloc);
    push_facts(&mut text, &texts)?;
    Ok(text)
}

/// The text of each of these facts.
fn texts_of(alloc: Global, schema: &Schema, facts: &[Fact]) -> Result<Vec<String>, AllocError>
    requires { list_all (is_fact_of schema.now) facts.now ≡ true }
    ensures { IfOk result (λ texts. map string_bytes texts.items
        ≡ world_said schema.now facts.now) }
{
    let mut texts = Vec::new(alloc);
    for fact in facts {
        texts.push(fact_text(alloc, schema, fact)?)?;
    }
    Ok(texts)
}

/// The world that has these facts and no other. They are of the schema and no more than a world
/// holds, so that only memory can be wanting.
pub(crate) fn world_of(alloc: Global, schema: &Schema, facts: &[Fact]) -> Result<World, AllocError>
    ensures { IfOk result (λ world. world ≡ listed_world facts.now) }
{
    let mut world = World::new(alloc);
    for fact in facts {
        match world.insert(schema, *fact) {
            Ok(_) => (),
            Err(_) => return Err(AllocError),
        }
    }
    Ok(world)
}
