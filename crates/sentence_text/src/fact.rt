//! The fact that a text states.

ghost use Rattle.std.specs.Prelude.{◌≡◌, ◌≤◌, true, length, IfOk, IfSome};
ghost use Rattle.cqe_base.specs.Facts.{is_fact_of};
ghost use Rattle.cqe_base.specs.Formula.{formula_of};
ghost use Rattle.cqe_base.specs.FactText.{fact_in, stated_fact};
ghost use Rattle.cqe_base.specs.Reading.{is_next};
ghost use Rattle.cqe_base.specs.Tokens.{tokens};
ghost use Rattle.cqe_base.specs.declared.text.Symbol.TheVariants.{Open};

use crate::error::ReadError;
use crate::lexer::{symbol_of, tokens};
use crate::parser::read_sentence;
use cqe_base::assignment::fact_of;
use cqe_base::machine_laws::law_grounded_facts_are_of_schema;
use cqe_base::schema::Schema;
use cqe_base::sentence::Sentence;
use cqe_base::text::Symbol;
use cqe_base::world::Fact;
use std::alloc::{AllocError, Global};

/// Whether the first token is `(`.
fn begins_open(text: &str) -> bool
    requires { length text.now ≤ 4096 }
    ensures { result ≡ is_next Open (tokens text.now) }
{
    let mut coming = tokens(text);
    match coming.next() {
        Some(token) => symbol_of(token.text) == Symbol::Open,
        None => false,
    }
}

/// The fact that a sentence is, if it is a relation of constants.
fn fact_in(sentence: &Sentence) -> Option<Fact>
    ensures { result ≡ fact_in (formula_of sentence.now) }
{
    match sentence {
        Sentence::Atom(relation, terms) => Some(fact_of(&[], *relation, terms.as_slice())),
        _ => None,
    }
}

/// The fact that a text states: a sentence that is a relation of constants, without parentheses
/// around it.
#[tactic(auto, unfolding(cqe_base::specs::FactText::stated_fact))]
pub fn stated_fact(alloc: Global, schema: &Schema, text: &str) -> Result<Option<Fact>, AllocError>
    requires { length text.now ≤ 4096 }
    ensures found { IfOk result (λ found. found ≡ stated_fact schema.now text.now) }
    ensures of_schema { IfOk result
        (λ found. IfSome found (λ fact. is_fact_of schema.now fact ≡ true)) }
{
    law_grounded_facts_are_of_schema();
    schema.known();
    if begins_open(text) {
        return Ok(None);
    }
    match read_sentence(alloc, schema, text) {
        Ok(sentence) => {
            let fact = fact_in(&sentence);
            Ok(fact)
        }
        Err(ReadError::Text(_)) => Ok(None),
        Err(ReadError::Memory) => Err(AllocError),
    }
}
