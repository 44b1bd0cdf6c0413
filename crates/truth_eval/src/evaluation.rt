//! Truth of a sentence in a world.

ghost use Rattle.std.specs.Prelude.{◌≡◌, true, ◌+◌, ◌≤◌, ◌<◌, [], ◌∷◌, ◌++◌, length, take, map};
ghost use Rattle.std.specs.List.{list_all, list_any};
ghost use Rattle.std.specs.FinSet as set;
ghost use Rattle.cqe_base.specs.Schema.{domain_size};
ghost use Rattle.cqe_base.specs.Formula.{formula_of, nesting, is_sentence_of};
ghost use Rattle.cqe_base.specs.Truth.{true_at, true_in, constants_of};

use cqe_base::assignment::{are_equal, fact_of};
use cqe_base::laws::law_nesting;
use cqe_base::schema::Schema;
use cqe_base::sentence::{Constant, Sentence};
use cqe_base::world::World;

/// Whether a sentence of the schema is true in a world.
pub fn holds(schema: &Schema, world: &World, sentence: &Sentence) -> bool
    requires { is_sentence_of schema.now (formula_of sentence.now) ≡ true }
    ensures { result ≡ true_in schema.now world.now (formula_of sentence.now) }
{
    law_nesting();
    let unbound = Constant {
        domain: 0,
        index: 0,
    };
    holds_at(schema, world, [unbound; 8], 0, sentence)
}

/// Whether a sentence is true in a world where the variables of so many enclosing quantifiers have
/// these constants.
#[cycle(evaluation)]
fn holds_at(
    schema: &Schema,
    world: &World,
    places: [Constant; 8],
    depth: usize,
    sentence: &Sentence,
) -> bool
    requires { depth + nesting (formula_of sentence.now) ≤ 8 }
    ensures { result
        ≡ true_at schema.now (set.contains world.now) (take depth places)
        (formula_of sentence.now) }
{
    match sentence {
        Sentence::True => true,
        Sentence::False => false,
        Sentence::Atom(relation, terms) => {
            world.contains(&fact_of(&places[..depth], *relation, terms.as_slice()))
        }
        Sentence::Equal(s, t) => are_equal(&places[..depth], s, t),
        Sentence::Differs(s, t) => !are_equal(&places[..depth], s, t),
        Sentence::Not(a) => !holds_at(schema, world, places, depth, a),
        Sentence::And(a, b) => {
            holds_at(schema, world, places, depth, a) && holds_at(schema, world, places, depth, b)
        }
        Sentence::Or(a, b) => {
            holds_at(schema, world, places, depth, a) || holds_at(schema, world, places, depth, b)
        }
        Sentence::Implies(a, b) => {
            !holds_at(schema, world, places, depth, a) || holds_at(schema, world, places, depth, b)
        }
        Sentence::Iff(a, b) => {
            holds_at(schema, world, places, depth, a) == holds_at(schema, world, places, depth, b)
        }
        Sentence::Forall(domain, body) => {
            holds_for_each(schema, world, places, depth, *domain, body)
        }
        Sentence::Exists(domain, body) => {
            holds_for_some(schema, world, places, depth, *domain, body)
        }
    }
}

/// Whether a sentence is true for each constant of a domain in the next place.
#[cycle(evaluation)]
fn holds_for_each(
    schema: &Schema,
    world: &World,
    places: [Constant; 8],
    depth: usize,
    domain: u32,
    body: &Sentence,
) -> bool
    requires { depth + 1 + nesting (formula_of body.now) ≤ 8 }
    ensures { result
        ≡ list_all (λ c.
        true_at schema.now (set.contains world.now) (take depth places ++ c ∷ [])
        (formula_of body.now)) (constants_of schema.now domain) }
{
    for index in 0..schema.domain_size(domain) {
        let constant = Constant {
            domain,
            index: index as u32,
        };
        if !holds_with(schema, world, places, depth, constant, body) {
            return false;
        }
    }
    true
}

/// Whether a sentence is true for at least one constant of a domain in the next place.
#[cycle(evaluation)]
fn holds_for_some(
    schema: &Schema,
    world: &World,
    places: [Constant; 8],
    depth: usize,
    domain: u32,
    body: &Sentence,
) -> bool
    requires { depth + 1 + nesting (formula_of body.now) ≤ 8 }
    ensures { result
        ≡ list_any (λ c.
        true_at schema.now (set.contains world.now) (take depth places ++ c ∷ [])
        (formula_of body.now)) (constants_of schema.now domain) }
{
    for index in 0..schema.domain_size(domain) {
        let constant = Constant {
            domain,
            index: index as u32,
        };
        if holds_with(schema, world, places, depth, constant, body) {
            return true;
        }
    }
    false
}

/// Whether a sentence is true with a constant in the next place.
#[cycle(evaluation)]
fn holds_with(
    schema: &Schema,
    world: &World,
    places: [Constant; 8],
    depth: usize,
    constant: Constant,
    body: &Sentence,
) -> bool
    requires { depth + 1 + nesting (formula_of body.now) ≤ 8 }
    ensures { result
        ≡ true_at schema.now (set.contains world.now) (take depth places ++ constant ∷ [])
        (formula_of body.now) }
{
    let mut places = places;
    places[depth] = constant;
    holds_at(schema, world, places, depth + 1, body)
}
