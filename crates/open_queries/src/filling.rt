//! A body with constants in its free places.

ghost use Rattle.std.specs.Prelude.{◌≡◌, ◌≤◌, IfOk, length, map};
ghost use Rattle.cqe_base.specs.Formula.{formula_of};
ghost use Rattle.open_queries.specs.Instances.{filled, filled_term};

use cqe_base::sentence::{Constant, Sentence, Term, Terms};
use std::alloc::{AllocError, Global};

/// The term with these constants in the first places; the other places are numbered from 0.
fn filled_term(constants: &[Constant], term: Term) -> Term
    ensures { result ≡ filled_term constants.now term }
{
    match term {
        Term::Constant(constant) => Term::Constant(constant),
        Term::Place(place) => match constants.get(place as usize) {
            Some(constant) => Term::Constant(*constant),
            None => Term::Place((place as usize - constants.len()) as u8),
        },
    }
}

/// The terms with these constants in the first places.
fn filled_terms(alloc: Global, constants: &[Constant], terms: &[Term]) -> Result<Terms, AllocError>
    requires { length terms.now ≤ 6 }
    ensures { IfOk result (λ made. made ≡ map (filled_term constants.now) terms.now) }
{
    let mut made = Vec::new(alloc);
    for term in terms {
        made.push(filled_term(constants, *term))?;
    }
    Ok(Terms::from_vec(made))
}

/// The sentence with these constants in the first places, in memory of its own.
#[cycle(filling)]
pub fn filled(
    alloc: Global,
    constants: &[Constant],
    sentence: &Sentence,
) -> Result<Sentence, AllocError>
    ensures { IfOk result (λ made.
        formula_of made ≡ filled constants.now (formula_of sentence.now)) }
{
    Ok(match sentence {
        Sentence::True => Sentence::True,
        Sentence::False => Sentence::False,
        Sentence::Atom(relation, terms) => {
            Sentence::Atom(*relation, filled_terms(alloc, constants, terms.as_slice())?)
        }
        Sentence::Equal(s, t) => {
            Sentence::Equal(filled_term(constants, *s), filled_term(constants, *t))
        }
        Sentence::Differs(s, t) => {
            Sentence::Differs(filled_term(constants, *s), filled_term(constants, *t))
        }
        Sentence::Not(a) => Sentence::Not(boxed(alloc, constants, a)?),
        Sentence::And(a, b) => {
            Sentence::And(boxed(alloc, constants, a)?, boxed(alloc, constants, b)?)
        }
        Sentence::Or(a, b) => {
            Sentence::Or(boxed(alloc, constants, a)?, boxed(alloc, constants, b)?)
        }
        Sentence::Implies(a, b) => {
            Sentence::Implies(boxed(alloc, constants, a)?, boxed(alloc, constants, b)?)
        }
        Sentence::Iff(a, b) => {
            Sentence::Iff(boxed(alloc, constants, a)?, boxed(alloc, constants, b)?)
        }
        Sentence::Forall(domain, a) => Sentence::Forall(*domain, boxed(alloc, constants, a)?),
        Sentence::Exists(domain, a) => Sentence::Exists(*domain, boxed(alloc, constants, a)?),
    })
}

/// The same, in a box of its own.
#[cycle(filling)]
fn boxed(
    alloc: Global,
    constants: &[Constant],
    sentence: &Sentence,
) -> Result<Box<Sentence>, AllocError>
    ensures { IfOk result (λ made.
        formula_of made.value ≡ filled constants.now (formula_of sentence.now)) }
{
    let made = filled(alloc, constants, sentence)?;
    Ok(Box::new(alloc, made)?)
}
