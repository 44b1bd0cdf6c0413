//! Sentences with their ground formulas.
ghost use Rattle.std.specs.Prelude.{◌≡◌, ◌≤◌, true, IfOk};
ghost use Rattle.cqe_base.specs.Formula.{formula_of, nodes, is_sentence_of};
ghost use Rattle.cqe_base.specs.Ground.{ground_of, ground_nodes, grounded};
ghost use Rattle.entailment.specs.GroundSentences.{IsGroundOver};

use cqe_base::prop::Prop;
use cqe_base::schema::Schema;
use cqe_base::sentence::Sentence;
use grounding::{GroundError, ground};
use std::alloc::{AllocError, Global};

/// A sentence with its ground formula over a schema, in which its quantifiers are written out. It
/// is made once and serves any number of probes.
#[derive(Drop)]
pub struct GroundSentence {
    pub sentence: Sentence,
    pub prop: Prop,
}

impl GroundSentence {
    /// The sentence with its ground formula.
    pub fn new(
        alloc: Global,
        schema: &Schema,
        sentence: Sentence,
    ) -> Result<GroundSentence, AllocError>
        requires sentence { is_sentence_of schema.now (formula_of sentence) ≡ true }
        requires small { nodes schema.now (formula_of sentence) ≤ 40000 }
        ensures grounded { IfOk result (IsGroundOver schema.now) }
        ensures same { IfOk result (λ made. made.sentence ≡ sentence) }
    {
        let prop = ground_formula(alloc, schema, &sentence)?;
        Ok(GroundSentence { sentence, prop })
    }
}

/// The ground formula of a sentence that isn't too large for one.
pub(crate) fn ground_formula(
    alloc: Global,
    schema: &Schema,
    sentence: &Sentence,
) -> Result<Prop, AllocError>
    requires sentence { is_sentence_of schema.now (formula_of sentence.now) ≡ true }
    requires small { nodes schema.now (formula_of sentence.now) ≤ 40000 }
    ensures grounded { IfOk result (λ prop. ground_of prop
        ≡ grounded schema.now (formula_of sentence.now)) }
    ensures same_nodes { IfOk result (λ prop. ground_nodes (ground_of prop)
        ≡ nodes schema.now (formula_of sentence.now)) }
{
    match ground(alloc, schema, sentence) {
        Ok(prop) => Ok(prop),
        Err(GroundError::TooLarge) => unreachable!(),
        Err(GroundError::Memory) => Err(AllocError),
    }
}
