//! The texts of a user, read as sentences.

ghost use Rattle.std.specs.Prelude.{◌≡◌, ◌≤◌, ◌<◌, ◌^◌, [], length, map, Ok};
ghost use Rattle.toml.specs.View.{view};
ghost use Rattle.cqe_base.specs.Formula.{formula_of};
ghost use Rattle.policy_files.specs.Users.{sentence_of, small_sentence, sentences_behind};
ghost use Rattle.policy_files.specs.Users.{sentences_of};
ghost use Rattle.policy_files.specs.Gives.{Gives};

use crate::error::{PolicyError, Stop};
use crate::keys::{key_place, text_place, within};
use crate::tree::{elements, is_string_array, text_in};
use cqe_base::schema::Schema;
use cqe_base::sentence::{Sentence, nodes};
use sentence_text::{ReadError, read_sentence};
use std::alloc::Global;
use toml::Value;

/// A text has at most so many bytes.
const TEXT: usize = 4_096;

/// How many sentences an array may have, and how many nodes each of them at most.
#[derive(Clone, Copy, Debug, PartialEq, Eq)]
pub struct Bounds {
    pub least: u64,
    pub greatest: u64,
    pub nodes: u64,
}

/// The sentence that the text of this index in the array at a user's key is.
#[tactic(auto, unfolding(crate::specs::Users::sentence_of))]
fn sentence_of(
    alloc: Global,
    schema: &Schema,
    user: u32,
    key: &str,
    most: u64,
    index: u32,
    text: &str,
) -> Result<Sentence, Stop>
    requires { most < 2 ^ 32 }
    ensures { Gives formula_of result (sentence_of schema.now user key.now most index text.now) }
{
    if text.len() > TEXT {
        let place = text_place(alloc, user, key, index, None)?;
        return Err(Stop::Refused(PolicyError::Limit(place)));
    }
    match read_sentence(alloc, schema, text) {
        Ok(sentence) => small_sentence(alloc, schema, user, key, most, index, sentence),
        Err(ReadError::Text(why)) => {
            let place = text_place(alloc, user, key, index, Some(why))?;
            Err(Stop::Refused(PolicyError::Sentence(place)))
        }
        Err(ReadError::Memory) => Err(Stop::Memory),
    }
}

/// The sentence, if it has at most so many nodes.
fn small_sentence(
    alloc: Global,
    schema: &Schema,
    user: u32,
    key: &str,
    most: u64,
    index: u32,
    sentence: Sentence,
) -> Result<Sentence, Stop>
    requires { most < 2 ^ 32 }
    ensures { Gives formula_of result
        (small_sentence schema.now user key.now most index (Ok (formula_of sentence))) }
{
    if nodes(&sentence, schema) > most {
        let place = text_place(alloc, user, key, index, None)?;
        return Err(Stop::Refused(PolicyError::Limit(place)));
    }
    Ok(sentence)
}

/// The sentences of these texts.
fn read_sentences(
    alloc: Global,
    schema: &Schema,
    user: u32,
    key: &str,
    most: u64,
    texts: &[Value],
) -> Result<Vec<Sentence>, Stop>
    requires few { length texts.now ≤ 256 }
    requires most { most < 2 ^ 32 }
    ensures { Gives (λ read. map formula_of read.items) result
        (sentences_behind schema.now user key.now most [] (map view texts.now)) }
{
    let mut read = Vec::new(alloc);
    for text in texts {
        let index = read.len() as u32;
        read.push(sentence_of(alloc, schema, user, key, most, index, text_in(text))?)?;
    }
    Ok(read)
}

/// The sentences of an array of strings, within these bounds.
#[tactic(auto, unfolding(crate::specs::Users::sentences_of))]
pub fn sentences_of(
    alloc: Global,
    schema: &Schema,
    user: u32,
    key: &str,
    bounds: Bounds,
    value: &Value,
) -> Result<Vec<Sentence>, Stop>
    requires few { bounds.greatest ≤ 256 }
    requires nodes { bounds.nodes < 2 ^ 32 }
    ensures { Gives (λ read. map formula_of read.items) result
        (sentences_of schema.now user key.now bounds (view value.now)) }
{
    if !is_string_array(value) {
        let place = key_place(alloc, Some(user), key)?;
        return Err(Stop::Refused(PolicyError::WrongKind(place)));
    }
    let texts = elements(value);
    within(
        alloc,
        Some(user),
        key,
        bounds.least,
        bounds.greatest,
        texts.len() as u64,
    )?;
    read_sentences(alloc, schema, user, key, bounds.nodes, texts)
}
