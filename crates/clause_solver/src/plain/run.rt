//! The run of the machine within a budget.

ghost use Rattle.std.specs.Prelude.{◌≡◌, ◌<◌, ◌^◌, ◌+◌, length, IfOk};
ghost use Rattle.cqe_base.specs.Literal.{ClausesBelow, HaveNoRepeat};
ghost use Rattle.cqe_base.specs.Machine.{end_within_budget};
ghost use Rattle.clause_solver.specs.PlainStates.{found_of};

use crate::ends::{Advance, Found};
use crate::plain::state::{State, step};
use clause_store::clauses::Clauses;
use clause_store::refutation::Refutation;
use std::alloc::{AllocError, Global};

/// The machine's end, or Spent exactly where its whole cost is above the budget.
pub fn search_plain(
    alloc: Global,
    clauses: &Clauses,
    variables: u32,
    budget: u64,
) -> Result<Found, AllocError>
    requires variables { variables < 2 ^ 31 }
    requires below { ClausesBelow variables clauses.now }
    requires no_repeat { HaveNoRepeat clauses.now }
    requires room { length clauses.now + budget < 2 ^ 32 }
    ensures { IfOk result (λ found. found_of found
        ≡ end_within_budget clauses.now variables budget) }
{
    let mut state = State {
        clauses: clauses.copy(alloc)?,
        trail: Vec::new(alloc),
        lines: Vec::new(alloc),
    };
    let mut left = budget;
    for steps in 0..budget {
        match step(alloc, &mut state, variables)? {
            Advance::Went(cost) => {
                if left < cost {
                    return Ok(Found::Spent);
                }
                left -= cost;
            }
            Advance::Refuted(cost) => {
                if left < cost {
                    return Ok(Found::Spent);
                }
                return Ok(Found::Refuted(Refutation { lines: state.lines }));
            }
            Advance::Satisfied(cost, signs) => {
                if left < cost {
                    return Ok(Found::Spent);
                }
                return Ok(Found::Model(signs));
            }
        }
    }
    Ok(Found::Spent)
}
