//! The quantifiers that enclose what is read.

ghost use Rattle.std.specs.Prelude.{◌≡◌, ◌<◌, ◌≤◌, length, option_map};
ghost use Rattle.cqe_base.specs.Reading.{variable_named};
ghost use Rattle.sentence_text.specs.Binders.{binders, typed_term};

use cqe_base::sentence::Term;

/// The enclosing quantifiers, the innermost first.
#[derive(Clone, Copy)]
pub enum Scope<'s> {
    Outermost,
    Within {
        variable: &'s str,
        domain: u32,
        outer: &'s Scope<'s>,
    },
}

/// A term, and the domain that its values are of.
#[derive(Clone, Copy)]
pub struct TypedTerm {
    pub term: Term,
    pub domain: u32,
}

impl<'s> Scope<'s> {
    /// How many quantifiers enclose.
    pub fn depth(&self) -> u8
        requires { length (binders self.now) ≤ 8 }
        ensures { result ≡ length (binders self.now) }
    {
        match self {
            Scope::Outermost => 0,
            Scope::Within { outer, .. } => outer.depth() + 1,
        }
    }

    /// The variable of the innermost enclosing quantifier with this name.
    #[tactic(auto, unfolding(cqe_base::specs::Reading::variable_named))]
    pub fn variable(&self, name: &str) -> Option<TypedTerm>
        requires { length (binders self.now) ≤ 8 }
        ensures { option_map typed_term result ≡ variable_named (binders self.now) name.now }
    {
        match self {
            Scope::Outermost => None,
            Scope::Within {
                variable,
                domain,
                outer,
            } => {
                if *variable == name {
                    return Some(TypedTerm {
                        term: Term::Place(outer.depth()),
                        domain: *domain,
                    });
                }
                outer.variable(name)
            }
        }
    }
}
