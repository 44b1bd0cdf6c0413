//! Sentences with their quantifiers written out.

ghost use Rattle.std.specs.Prelude.{◌≡◌, true, false, ◌+◌, ◌<◌, ◌≤◌, ◌↔◌, [], ◌∷◌, ◌++◌, length};
ghost use Rattle.std.specs.Prelude.{take, map, IfOk, if◌then◌else◌};
ghost use Rattle.std.specs.FinSet as set;
ghost use Rattle.cqe_base.specs.Schema.{domain_size};
ghost use Rattle.cqe_base.specs.Facts.{FactSet};
ghost use Rattle.cqe_base.specs.Formula.{formula_of, nodes, nesting, is_sentence_of};
ghost use Rattle.cqe_base.specs.Truth.{true_in, constants_of};
ghost use Rattle.cqe_base.specs.Ground.{ground_of, ground_true, ground_false, grounded_at};
ghost use Rattle.cqe_base.specs.Ground.{grounded, true_ground, ground_nodes};

use cqe_base::assignment::{are_equal, fact_of};
use cqe_base::laws::{law_grounded_nodes, law_grounding, law_nesting};
use cqe_base::prop::Prop;
use cqe_base::schema::Schema;
use cqe_base::sentence::{Constant, Sentence, nodes};
use std::alloc::{AllocError, Global};

/// Why a sentence wasn't grounded.
#[derive(Clone, Copy, Debug, PartialEq, Eq)]
pub enum GroundError {
    TooLarge = 1,
    Memory = 2,
}

/// A ground formula has at most so many nodes.
const NODES: u64 = 40_000;

/// Writes out the quantifiers of a sentence, each in the order of its domain's constants, and
/// decides its equations.
///
/// `TooLarge` comes before any memory is taken. The limit is the one that `cqe_base` sets for a
/// user's view and for each sentence that is guarded from him (specs/Limits.antt), counted in nodes
/// of the result: a quantifier counts all its instances.
pub fn ground(alloc: Global, schema: &Schema, sentence: &Sentence) -> Result<Prop, GroundError>
    requires { is_sentence_of schema.now (formula_of sentence.now) ≡ true }
    ensures grounded { IfOk result (λ prop. ground_of prop
        ≡ grounded schema.now (formula_of sentence.now)) }
    ensures same_truth { IfOk result (λ prop. (world : FactSet)
        → true_ground (set.contains world) (ground_of prop)
        ≡ true_in schema.now world (formula_of sentence.now)) }
    ensures same_nodes { IfOk result (λ prop. ground_nodes (ground_of prop)
        ≡ nodes schema.now (formula_of sentence.now)) }
    ensures too_large { (result ≡ Err GroundError.TooLarge)
        ↔ (40000 < nodes schema.now (formula_of sentence.now)) }
{
    if nodes(sentence, schema) > NODES {
        return Err(GroundError::TooLarge);
    }
    law_nesting();
    law_grounding();
    law_grounded_nodes();
    let unbound = Constant {
        domain: 0,
        index: 0,
    };
    match ground_at(alloc, schema, [unbound; 8], 0, sentence) {
        Ok(prop) => Ok(prop),
        Err(_) => Err(GroundError::Memory),
    }
}

/// The ground formula of a sentence where the variables of so many enclosing quantifiers have these
/// constants.
#[cycle(grounding)]
fn ground_at(
    alloc: Global,
    schema: &Schema,
    places: [Constant; 8],
    depth: usize,
    sentence: &Sentence,
) -> Result<Prop, AllocError>
    requires { depth + nesting (formula_of sentence.now) ≤ 8 }
    ensures { IfOk result (λ prop. ground_of prop
        ≡ grounded_at schema.now (take depth places) (formula_of sentence.now)) }
{
    match sentence {
        Sentence::True => Ok(Prop::True),
        Sentence::False => Ok(Prop::False),
        Sentence::Atom(relation, terms) => {
            let fact = fact_of(&places[..depth], *relation, terms.as_slice());
            Ok(Prop::Atom(fact))
        }
        Sentence::Equal(s, t) => Ok(decided(are_equal(&places[..depth], s, t))),
        Sentence::Differs(s, t) => Ok(decided(!are_equal(&places[..depth], s, t))),
        Sentence::Not(a) => Ok(Prop::Not(boxed(alloc, schema, places, depth, a)?)),
        Sentence::And(a, b) => {
            let first = ground_at(alloc, schema, places, depth, a)?;
            let second = ground_at(alloc, schema, places, depth, b)?;
            Ok(Prop::And(pair(alloc, first, second)?))
        }
        Sentence::Or(a, b) => {
            let first = ground_at(alloc, schema, places, depth, a)?;
            let second = ground_at(alloc, schema, places, depth, b)?;
            Ok(Prop::Or(pair(alloc, first, second)?))
        }
        Sentence::Implies(a, b) => {
            let premise = boxed(alloc, schema, places, depth, a)?;
            let conclusion = boxed(alloc, schema, places, depth, b)?;
            Ok(Prop::Implies(premise, conclusion))
        }
        Sentence::Iff(a, b) => {
            let first = boxed(alloc, schema, places, depth, a)?;
            let second = boxed(alloc, schema, places, depth, b)?;
            Ok(Prop::Iff(first, second))
        }
        Sentence::Forall(domain, body) => {
            let parts = instances(alloc, schema, places, depth, *domain, body)?;
            Ok(Prop::And(parts))
        }
        Sentence::Exists(domain, body) => {
            let parts = instances(alloc, schema, places, depth, *domain, body)?;
            Ok(Prop::Or(parts))
        }
    }
}

/// The ground formula of an equation of this truth.
fn decided(truth: bool) -> Prop
    ensures { ground_of result ≡ (if truth then ground_true else ground_false) }
{
    if truth { Prop::True } else { Prop::False }
}

/// Two parts, in this order.
fn pair(alloc: Global, first: Prop, second: Prop) -> Result<Vec<Prop>, AllocError>
    ensures { IfOk result (λ parts. parts.items ≡ first ∷ second ∷ []) }
{
    let mut parts = Vec::new(alloc);
    parts.push(first)?;
    parts.push(second)?;
    Ok(parts)
}

/// The ground formula of a sentence, in a box.
#[cycle(grounding)]
fn boxed(
    alloc: Global,
    schema: &Schema,
    places: [Constant; 8],
    depth: usize,
    sentence: &Sentence,
) -> Result<Box<Prop>, AllocError>
    requires { depth + nesting (formula_of sentence.now) ≤ 8 }
    ensures { IfOk result (λ boxed. ground_of boxed.value
        ≡ grounded_at schema.now (take depth places) (formula_of sentence.now)) }
{
    let prop = ground_at(alloc, schema, places, depth, sentence)?;
    Ok(Box::new(alloc, prop)?)
}

/// The ground formulas of a sentence with each constant of a domain in the next place, in the order
/// of the domain.
#[cycle(grounding)]
fn instances(
    alloc: Global,
    schema: &Schema,
    places: [Constant; 8],
    depth: usize,
    domain: u32,
    body: &Sentence,
) -> Result<Vec<Prop>, AllocError>
    requires { depth + 1 + nesting (formula_of body.now) ≤ 8 }
    ensures { IfOk result (λ parts. map ground_of parts.items
        ≡ map (λ c. grounded_at schema.now (take depth places ++ c ∷ []) (formula_of body.now))
        (constants_of schema.now domain)) }
{
    let mut parts = Vec::new(alloc);
    for index in 0..schema.domain_size(domain) {
        let constant = Constant {
            domain,
            index: index as u32,
        };
        let part = instance(alloc, schema, places, depth, constant, body)?;
        parts.push(part)?;
    }
    Ok(parts)
}

/// The ground formula of a sentence with a constant in the next place.
#[cycle(grounding)]
fn instance(
    alloc: Global,
    schema: &Schema,
    places: [Constant; 8],
    depth: usize,
    constant: Constant,
    body: &Sentence,
) -> Result<Prop, AllocError>
    requires { depth + 1 + nesting (formula_of body.now) ≤ 8 }
    ensures { IfOk result (λ prop. ground_of prop
        ≡ grounded_at schema.now (take depth places ++ constant ∷ []) (formula_of body.now)) }
{
    let mut places = places;
    places[depth] = constant;
    let prop = ground_at(alloc, schema, places, depth + 1, body)?;
    Ok(prop)
}
