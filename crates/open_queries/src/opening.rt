//! Opening a query: its first quantifiers are taken off.

ghost use Rattle.std.specs.Prelude.{◌≡◌, ◌≤◌, ◌<◌, ℕ, true, false, IfOk, IfErr, IfSome, IfNone};
ghost use Rattle.std.specs.Prelude.{length, option_map};
ghost use Rattle.cqe_base.specs.Formula.{formula_of, is_sentence_of};
ghost use Rattle.cqe_base.specs.Reading.{reading};
ghost use Rattle.open_queries.specs.Instances.{OpenQuery, IsOpenQueryOf, instances, instance_of};
ghost use Rattle.open_queries.specs.Opening.{Opens, CanBeAsked, IsOpened, IsRefused};
ghost use Rattle.open_queries.specs.Memory.{open_query, existential_parts, RefusesSentence};

use crate::constructs::enclosing_constructs;
use crate::error::{NO_QUANTIFIERS, OpenQueryError, TOO_LONG_INSTANCE, TOO_MANY_INSTANCES};
use crate::list::{OpenList, combinations};
use cqe_base::schema::Schema;
use cqe_base::sentence::Sentence;
use sentence_text::read_sentence;
use std::alloc::{AllocError, Global};

/// So many instances a list may have.
const GREATEST_INSTANCES: u64 = 256;

/// So many bytes the text of an instance may have.
const GREATEST_TEXT: usize = 4096;

/// So many constructs may enclose a place of it.
const GREATEST_CONSTRUCTS: u32 = 64;

/// Opens the first `count` quantifiers of a sentence that begins with so many `exists`.
pub fn opened(
    alloc: Global,
    schema: &Schema,
    count: u32,
    text: &str,
) -> Result<OpenList, OpenQueryError>
    requires some { 1 ≤ count }
    requires few { count ≤ 4 }
    requires short { length text.now ≤ 4096 }
    // The text is a sentence that begins with so many `exists`, and each instance can be asked.
    ensures opened { IfOk result (λ list. IsOpened schema.now count text.now (open_query list)) }
    // What the instances are asked of.
    ensures list { IfOk result (λ list. IsOpenQueryOf schema.now (open_query list)) }
    // The first cause that applies, or memory is wanting.
    ensures refused { IfErr result (IsRefused schema.now count text.now) }
{
    let sentence = read_sentence(alloc, schema, text)?;
    open_sentence(alloc, schema, count, &sentence)
}

/// Opens a sentence of the schema.
fn open_sentence(
    alloc: Global,
    schema: &Schema,
    count: u32,
    sentence: &Sentence,
) -> Result<OpenList, OpenQueryError>
    requires some { 1 ≤ count }
    requires few { count ≤ 4 }
    requires of_schema { is_sentence_of schema.now (formula_of sentence.now) ≡ true }
    ensures opens { IfOk result (λ list. Opens count (formula_of sentence.now) (open_query list)) }
    ensures list { IfOk result (λ list. IsOpenQueryOf schema.now (open_query list)) }
    ensures asked { IfOk result (λ list. (number : ℕ)
        → number < instances schema.now (open_query list)
        → CanBeAsked schema.now (instance_of schema.now (open_query list) number)) }
    ensures refused { IfErr result
        (RefusesSentence schema.now count (formula_of sentence.now)) }
{
    let Some(list) = without_quantifiers(alloc, count, sentence)? else {
        return Err(OpenQueryError::Shape(NO_QUANTIFIERS));
    };
    if combinations(schema, list.domains.as_slice()) > GREATEST_INSTANCES {
        return Err(OpenQueryError::Shape(TOO_MANY_INSTANCES));
    }
    if !can_be_asked(alloc, schema, &list)? {
        return Err(OpenQueryError::Shape(TOO_LONG_INSTANCE));
    }
    Ok(list)
}

/// Takes so many `exists` off a sentence, if it begins with them.
fn without_quantifiers(
    alloc: Global,
    count: u32,
    sentence: &Sentence,
) -> Result<Option<OpenList>, AllocError>
    ensures opens { IfOk result (λ found. IfSome found (λ list.
        Opens count (formula_of sentence.now) (open_query list))) }
    ensures none { IfOk result (λ found. IfNone found ((query : OpenQuery)
        → Opens count (formula_of sentence.now) query → ⊥)) }
{
    let mut domains = Vec::new(alloc);
    let mut body = sentence;
    for _ in 0..count {
        match existential_parts(body) {
            Some((domain, inner)) => {
                domains.push(domain)?;
                body = inner;
            }
            None => return Ok(None),
        }
    }
    let body = body.copy(alloc)?;
    Ok(Some(OpenList { domains, body }))
}

/// The domain and the body of a sentence that begins with `exists`.
fn existential_parts(sentence: &Sentence) -> Option<(u32, &Sentence)>
    ensures { option_map (λ parts. (parts.0, formula_of parts.1.now)) result
        ≡ existential_parts (formula_of sentence.now) }
{
    match sentence {
        Sentence::Exists(domain, body) => Some((*domain, body)),
        _ => None,
    }
}

/// Whether each instance can be asked by its text.
fn can_be_asked(alloc: Global, schema: &Schema, list: &OpenList) -> Result<bool, AllocError>
    requires { IsOpenQueryOf schema.now (open_query list.now) }
    ensures all { IfOk result (λ all. all ≡ true → (number : ℕ)
        → number < instances schema.now (open_query list.now)
        → CanBeAsked schema.now (instance_of schema.now (open_query list.now) number)) }
    ensures one { IfOk result (λ all. all ≡ false → (number : ℕ)
        × (number < instances schema.now (open_query list.now))
        × (CanBeAsked schema.now (instance_of schema.now (open_query list.now) number) → ⊥)) }
{
    let is_deep = enclosing_constructs(&list.body) > GREATEST_CONSTRUCTS;
    for number in 0..list.instances(schema) {
        let text = list.instance(alloc, schema, number)?;
        if is_deep || text.len() > GREATEST_TEXT {
            return Ok(false);
        }
    }
    Ok(true)
}
