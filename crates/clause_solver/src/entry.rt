//! An entry of the trail.

ghost use Rattle.std.specs.Prelude.{◌≡◌, false};
ghost use Rattle.cqe_base.specs.Machine.{Assigned, Decided, Because, assigned_literal};
ghost use Rattle.clause_solver.specs.Entries.{is_decided, clause_of};

use clause_store::literal::Lit;
use std::marker::Model;

/// A literal on the trail, and the number of the clause that it is because of, 0 where it was
/// decided.
#[derive(Clone, Copy)]
pub struct TrailEntry {
    literal: Lit,
    clause: u32,
    decided: bool,
}

impl Model for TrailEntry {
    ghost use Rattle.cqe_base.specs.Machine.{Assigned, assigned_literal};

    ghost Value = { Assigned };

    ghost use Rattle.clause_solver.specs.Entries.{assigned_inside, IsEntry, is_decided, clause_of};
    ghost use Rattle.clause_solver.specs.Entries.{parts_same};

    ghost view = { assigned_inside };

    ghost invariant = { IsEntry };

    ghost inverse = { λ d.
        record { literal = assigned_literal d; clause = clause_of d; decided = is_decided d } };

    ghost inverse_ok = { λ a h i. record {
      literal = (parts_same a.decided a.clause a.literal h).literal_same i;
      clause = (parts_same a.decided a.clause a.literal h).clause_same i;
      decided = (parts_same a.decided a.clause a.literal h).decided_same i;
    } };
}

impl TrailEntry {
    /// A decided literal.
    pub fn decided(literal: Lit) -> TrailEntry
        ensures { result ≡ Decided literal }
    {
        TrailEntry {
            literal,
            clause: 0,
            decided: true,
        }
    }

    /// A literal because of a clause.
    pub fn because(clause: u32, literal: Lit) -> TrailEntry
        ensures { result ≡ Because clause literal }
    {
        TrailEntry {
            literal,
            clause,
            decided: false,
        }
    }

    /// The literal.
    pub fn literal(self) -> Lit
        ensures { result ≡ assigned_literal self }
    {
        self.literal
    }

    /// Whether it was decided.
    pub fn is_decided(self) -> bool
        ensures { result ≡ is_decided self }
    {
        self.decided
    }

    /// The clause that it is because of.
    pub fn clause(self) -> u32
        requires { is_decided self ≡ false }
        ensures { self ≡ Because result (assigned_literal self) }
    {
        self.clause
    }
}
