//! Terms and atoms where the variables have constants.
ghost use Rattle.std.specs.Prelude.{◌≡◌, ◌≤◌, length, map};
ghost use Rattle.cqe_base.specs.Truth.{value_of, same_constant};
ghost use Rattle.cqe_base.specs.Facts.{fact_of};

use crate::sentence::{Constant, Term};
use crate::world::Fact;

/// The constant that a term is where the variables, from the outermost quantifier's on, have these
/// constants.
/// A variable beyond them is the first constant of the first domain.
pub fn value_of(places: &[Constant], term: &Term) -> Constant
    ensures { result ≡ value_of places.now term.now }
{
    match term {
        Term::Constant(constant) => *constant,
        Term::Place(i) => match places.get(*i as usize) {
            Some(constant) => *constant,
            None => Constant {
                domain: 0,
                index: 0,
            },
        },
    }
}

/// Whether two terms are the same constant where the variables have these constants.
pub fn are_equal(places: &[Constant], s: &Term, t: &Term) -> bool
    ensures { result ≡ same_constant (value_of places.now s.now) (value_of places.now t.now) }
{
    let first = value_of(places, s);
    let second = value_of(places, t);
    first.domain == second.domain && first.index == second.index
}

/// The fact that an atom is where the variables have these constants.
pub fn fact_of(places: &[Constant], relation: u32, terms: &[Term]) -> Fact
    requires { length terms.now ≤ 6 }
    ensures { result ≡ fact_of relation (map (λ t. (value_of places.now t).index) terms.now) }
{
    let mut columns = [0; 6];
    for i in 0..terms.len() {
        columns[i] = value_of(places, &terms[i]).index;
    }
    Fact { relation, columns }
}
