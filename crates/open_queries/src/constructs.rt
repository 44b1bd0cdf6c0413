//! How deep the canonical form of a sentence is.

ghost use Rattle.std.specs.Prelude.{◌≡◌, ◌+◌, ◌-◌, ◌^◌, min};
ghost use Rattle.cqe_base.specs.Formula.{formula_of};
ghost use Rattle.cqe_base.specs.Canonical.{enclosing_constructs};

use cqe_base::sentence::Sentence;

/// How many constructs enclose the innermost place of the canonical form, up to the greatest
/// number, at which it stays.
pub fn enclosing_constructs(sentence: &Sentence) -> u32
    ensures { result ≡ min (enclosing_constructs (formula_of sentence.now)) (2 ^ 32 - 1) }
{
    match sentence {
        Sentence::Not(a) => enclosing_constructs(a).saturating_add(1),
        Sentence::And(a, b) | Sentence::Or(a, b) | Sentence::Iff(a, b) => {
            enclosing_constructs(a)
                .max(enclosing_constructs(b))
                .saturating_add(1)
        }
        // The right side of `->` is one construct deeper than the left one.
        Sentence::Implies(a, b) => {
            enclosing_constructs(a)
                .max(enclosing_constructs(b).saturating_add(1))
                .saturating_add(1)
        }
        // A quantifier stands in parentheses.
        Sentence::Forall(_, a) | Sentence::Exists(_, a) => {
            enclosing_constructs(a).saturating_add(2)
        }
        Sentence::True
        | Sentence::False
        | Sentence::Atom(_, _)
        | Sentence::Equal(_, _)
        | Sentence::Differs(_, _) => 0,
    }
}
