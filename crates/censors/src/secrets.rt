//! The disjunction of secrets, which lying guards, and what is guarded for one more.

ghost use Rattle.std.specs.Prelude.{◌≡◌, [], ◌∷◌, ◌++◌, map, fold, IfOk};
ghost use Rattle.cqe_base.specs.Formula.{formula_of, disjunction};
ghost use Rattle.cqe_base.specs.History.{profile_of, disjunction_of};
ghost use Rattle.cqe_base.specs.Censor.{guarded_with};

use cqe_base::sentence::Sentence;
use cqe_base::user::{Method, User};
use std::alloc::{AllocError, Global};

/// The disjunction of sentences, grouped to the left; with one sentence that sentence, and with
/// none `false`.
pub fn disjunction(alloc: Global, sentences: &[Sentence]) -> Result<Sentence, AllocError>
    ensures { IfOk result (λ made. formula_of made
        ≡ disjunction_of (map formula_of sentences.now)) }
{
    let Some((first, rest)) = sentences.split_first() else {
        return Ok(Sentence::False);
    };
    let mut made = first.copy(alloc)?;
    for sentence in rest {
        made = Sentence::Or(
            Box::new(alloc, made)?,
            Box::new(alloc, sentence.copy(alloc)?)?,
        );
    }
    Ok(made)
}

/// What is guarded from a user for one more secret: for lying the disjunction of his secrets with
/// it, and else the secret.
pub fn guard_with(alloc: Global, user: &User, secret: &Sentence) -> Result<Sentence, AllocError>
    ensures { IfOk result (λ made. formula_of made
        ≡ guarded_with (profile_of user.now) (formula_of secret.now)) }
{
    match user.method {
        Method::Lying => disjunction_with(alloc, user.secrets.as_slice(), secret),
        Method::Refusal | Method::Combined => secret.copy(alloc),
    }
}

/// The disjunction of sentences and one more.
fn disjunction_with(
    alloc: Global,
    sentences: &[Sentence],
    last: &Sentence,
) -> Result<Sentence, AllocError>
    ensures { IfOk result (λ made. formula_of made
        ≡ disjunction_of (map formula_of sentences.now ++ formula_of last.now ∷ [])) }
{
    if sentences.is_empty() {
        return last.copy(alloc);
    }
    let first = disjunction(alloc, sentences)?;
    Ok(Sentence::Or(Box::new(alloc, first)?, Box::new(alloc, last.copy(alloc)?)?))
}
