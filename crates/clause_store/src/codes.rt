//! A number for each literal.

ghost use Rattle.std.specs.Prelude.{◌≡◌, ◌<◌, ◌+◌, ◌*◌, ◌^◌};
ghost use Rattle.cqe_base.specs.Literal.{variable_of};
ghost use Rattle.clause_store.specs.Codes.{code_of};

use crate::literal::Lit;

/// Twice the variable, and one more where the literal is negated.
pub fn code(literal: Lit) -> usize
    ensures { result ≡ code_of literal }
{
    literal.code() as usize
}
