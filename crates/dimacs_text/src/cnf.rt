//! Clauses that can be searched, with what is to be done with them.
ghost use Rattle.std.specs.Prelude.{◌≡◌, ◌≤◌, length, IfOk};
ghost use Rattle.clause_solver.specs.PlainStates.{found_of};
ghost use Rattle.dimacs_text.specs.Ends.{end_of, cost_of};

use clause_solver::{Searched, search_with_cost};
use clause_store::clauses::Clauses;
use std::alloc::{AllocError, Global};
use std::marker::Model;

/// Clauses over variables below a number, the budget of their search, and whether a refutation is
/// to be printed.
#[derive(Drop)]
pub struct Cnf {
    variables: u32,
    clauses: Clauses,
    budget: u64,
    lrat: bool,
}

impl Model for Cnf {
    ghost use Rattle.dimacs_text.specs.Dimacs.{Cnf};

    ghost Value = { Cnf };

    ghost use Rattle.dimacs_text.specs.CnfInside.{cnf_inside, IsSearchableInside};

    ghost view = { cnf_inside };

    ghost invariant = { IsSearchableInside };
}

impl Cnf {
    ghost use Rattle.dimacs_text.specs.CnfInside.{IsSearchable};

    /// These clauses, over variables below `variables`, where they can be searched.
    pub fn new(variables: u32, clauses: Clauses, budget: u64, lrat: bool) -> Cnf
        requires { IsSearchable (record {
          variables =
              variables;
          clauses = clauses;
          budget = budget;
          lrat = lrat;
        }) }
        ensures { result ≡ record {
          variables =
              variables;
          clauses = clauses;
          budget = budget;
          lrat = lrat;
        } }
    {
        Cnf {
            variables,
            clauses,
            budget,
            lrat,
        }
    }

    /// The clauses.
    pub fn clauses(&self) -> &Clauses
        ensures clauses { result.now ≡ self.now.clauses }
        ensures few { length self.now.clauses ≤ 1000000 }
    {
        &self.clauses
    }

    /// Whether a refutation is to be printed.
    pub fn lrat(&self) -> bool
        ensures { result ≡ self.now.lrat }
    {
        self.lrat
    }

    /// The machine's end on the clauses within the budget, with its whole cost, or with the budget
    /// where that was spent.
    pub fn search(&self, alloc: Global) -> Result<Searched, AllocError>
        ensures found { IfOk result (λ searched. found_of searched.found ≡ end_of self.now) }
        ensures cost { IfOk result (λ searched. searched.cost ≡ cost_of self.now) }
    {
        search_with_cost(alloc, &self.clauses, self.variables, self.budget)
    }
}
