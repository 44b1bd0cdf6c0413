//! Literals.

ghost use Rattle.std.specs.Prelude.{◌≡◌, ◌<◌, ◌^◌, ◌+◌, ◌↔◌, IsTrue, IfSome, IsNone};
ghost use Rattle.clause_store.specs.Codes.{code_of};
ghost use Rattle.clause_store.specs.SignedNumbers.{number_of_literal, IsNoLiteral};
ghost use Rattle.cqe_base.specs.Literal.{Literal, Positive, Negative, variable_of, opposite};
ghost use Rattle.cqe_base.specs.Literal.{same_literal, has_literal};

use std::marker::Model;

/// A literal by its code: twice the variable, and one more where it is negated.
#[derive(Clone, Copy)]
pub struct Lit(u32);

impl Model for Lit {
    ghost use Rattle.cqe_base.specs.Literal.{Literal};

    ghost Value = { Literal };

    ghost use Rattle.std.specs.Prelude.{◌<◌, ◌+◌, ◌^◌};
    ghost use Rattle.clause_store.specs.Codes.{code_of, literal_of_code, code_of-literal_of_code};

    ghost view = { λ a. literal_of_code a.0 };

    ghost invariant = { λ a. a.0 + 2 < 2 ^ 32 };

    ghost inverse = { λ d. record { 0 = code_of d } };

    ghost inverse_ok = { λ a h i. record { 0 = code_of-literal_of_code a.0 i } };
}

impl Lit {
    /// The literal of a variable.
    pub fn positive(variable: u32) -> Lit
        requires { variable + 1 < 2 ^ 31 }
        ensures { result ≡ Positive variable }
    {
        Lit(2 * variable)
    }

    /// The negation of a variable.
    pub fn negative(variable: u32) -> Lit
        requires { variable + 1 < 2 ^ 31 }
        ensures { result ≡ Negative variable }
    {
        Lit(2 * variable + 1)
    }

    /// The literal of a number: variable v is v + 1, and its negation -(v + 1). There is none for 0
    /// and for the least number.
    pub fn from_number(number: i32) -> Option<Lit>
        ensures literal { IfSome result (λ l. number_of_literal l ≡ number) }
        ensures none { IsNone result ↔ IsNoLiteral number }
    {
        if number == 0 || number == i32::MIN {
            None
        } else if number > 0 {
            Some(Lit::positive(number as u32 - 1))
        } else {
            Some(Lit::negative(number.unsigned_abs() - 1))
        }
    }

    /// Its number, as DIMACS writes literals: v + 1 for variable v, numbered from 0, and -(v + 1)
    /// for its negation. It is never 0, which ends a clause there, and never `i32::MIN`, so it can
    /// be negated.
    pub fn number(self) -> i32
        ensures { result ≡ number_of_literal self }
    {
        let size = (self.variable() + 1) as i32;
        if self.is_positive() { size } else { -size }
    }

    /// Its code: twice the variable, and one more where it is negated.
    pub(crate) fn code(self) -> u32
        ensures { result ≡ code_of self }
    {
        self.0
    }

    /// Its variable.
    pub fn variable(self) -> u32
        ensures variable { result ≡ variable_of self }
        ensures fits { result + 1 < 2 ^ 31 }
    {
        self.0 / 2
    }

    /// Whether it is a variable and no negation.
    pub fn is_positive(self) -> bool
        ensures { IsTrue result ↔ (self ≡ Positive (variable_of self)) }
    {
        self.0 % 2 == 0
    }

    /// The literal of the same variable with the other sign.
    pub fn opposite(self) -> Lit
        ensures { result ≡ opposite self }
    {
        Lit(self.0 ^ 1)
    }

    /// Whether the two are the same literal.
    pub fn is(self, other: Lit) -> bool
        ensures { result ≡ same_literal self other }
    {
        self.0 == other.0
    }
}

/// Whether a clause has the literal.
pub fn has_literal(clause: &[Lit], literal: Lit) -> bool
    ensures { result ≡ has_literal clause.now literal }
{
    clause.iter().any(|other| literal.is(*other))
}
