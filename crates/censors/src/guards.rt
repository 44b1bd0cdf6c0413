//! What is guarded from a user, made once for all of his queries.

ghost use Rattle.std.specs.Prelude.{◌≡◌, ◌≤◌, true, nat_le, [], ◌∷◌, All, map, IfOk};
ghost use Rattle.std.specs.List.{list_all};
ghost use Rattle.cqe_base.specs.Formula.{formula_of, nodes, is_sentence_of};
ghost use Rattle.cqe_base.specs.History.{profile_of, disjunction_of};
ghost use Rattle.cqe_base.specs.Limits.{FitsProbes};
ghost use Rattle.cqe_base.specs.Censor.{guarded};
ghost use Rattle.entailment.specs.GroundSentences.{sentence_of, IsGroundOver};

use crate::disjunction;
use cqe_base::schema::Schema;
use cqe_base::sentence::Sentence;
use cqe_base::user::{Method, User};
use entailment::GroundSentence;
use std::alloc::{AllocError, Global};
use std::marker::Model;

/// What a user's method guards from him, with its ground formulas over a schema: for lying the
/// disjunction of his secrets, and else each secret.
#[derive(Drop)]
pub struct Guards<'s> {
    schema: &'s Schema,
    sentences: Vec<GroundSentence>,
}

impl<'s> Model for Guards<'s> {
    ghost use Rattle.censors.specs.Guards.{GuardedSentences, guards_code};

    ghost Value = { GuardedSentences };

    ghost coded = { guards_code };

    ghost use Rattle.censors.specs.GuardsInside.{guards_inside, AreGround};

    ghost view = { guards_inside };

    ghost invariant = { AreGround };
}

impl<'s> Guards<'s> {
    /// What is guarded from the user, with the secrets that he has now.
    pub fn new(alloc: Global, schema: &'s Schema, user: &User) -> Result<Guards<'s>, AllocError>
        requires { FitsProbes schema.now (profile_of user.now) }
        ensures schema { IfOk result (λ guards. guards.schema ≡ schema.now) }
        ensures guarded { IfOk result (λ guards.
            guards.sentences ≡ guarded (profile_of user.now)) }
    {
        let sentences = guarded_sentences(alloc, schema, user)?;
        Ok(Guards { schema, sentences })
    }

    /// The guarded sentences.
    pub fn sentences(&self) -> &[GroundSentence]
        ensures sentences { map sentence_of result.now ≡ self.now.sentences }
        ensures grounded { All (IsGroundOver self.now.schema) result.now }
    {
        self.sentences.as_slice()
    }
}

/// What is guarded from the user, by his method.
fn guarded_sentences(
    alloc: Global,
    schema: &Schema,
    user: &User,
) -> Result<Vec<GroundSentence>, AllocError>
    requires { FitsProbes schema.now (profile_of user.now) }
    ensures guarded { IfOk result (λ made. map sentence_of made.items
        ≡ guarded (profile_of user.now)) }
    ensures grounded { IfOk result (λ made. All (IsGroundOver schema.now) made.items) }
{
    let secrets = user.secrets.as_slice();
    match user.method {
        Method::Lying => joined_sentence(alloc, schema, secrets),
        Method::Refusal | Method::Combined => each_sentence(alloc, schema, secrets),
    }
}

/// The disjunction of these sentences, alone.
fn joined_sentence(
    alloc: Global,
    schema: &Schema,
    sentences: &[Sentence],
) -> Result<Vec<GroundSentence>, AllocError>
    requires sentence { is_sentence_of schema.now (disjunction_of (map formula_of sentences.now))
        ≡ true }
    requires small { nodes schema.now (disjunction_of (map formula_of sentences.now)) ≤ 40000 }
    ensures same { IfOk result (λ made. map sentence_of made.items
        ≡ disjunction_of (map formula_of sentences.now) ∷ []) }
    ensures grounded { IfOk result (λ made. All (IsGroundOver schema.now) made.items) }
{
    let all = disjunction(alloc, sentences)?;
    let mut made = Vec::new(alloc);
    made.push(GroundSentence::new(alloc, schema, all)?)?;
    Ok(made)
}

/// Each of these sentences.
fn each_sentence(
    alloc: Global,
    schema: &Schema,
    sentences: &[Sentence],
) -> Result<Vec<GroundSentence>, AllocError>
    requires sentences { list_all (is_sentence_of schema.now) (map formula_of sentences.now)
        ≡ true }
    requires small { list_all (λ sentence. nat_le (nodes schema.now sentence) 40000)
        (map formula_of sentences.now) ≡ true }
    ensures same { IfOk result (λ made. map sentence_of made.items
        ≡ map formula_of sentences.now) }
    ensures grounded { IfOk result (λ made. All (IsGroundOver schema.now) made.items) }
{
    let mut made = Vec::new(alloc);
    for sentence in sentences {
        let copy = sentence.copy(alloc)?;
        made.push(GroundSentence::new(alloc, schema, copy)?)?;
    }
    Ok(made)
}
