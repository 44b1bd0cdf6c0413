//! The run of the machine within a budget.

ghost use Rattle.std.specs.Prelude.{◌≡◌, ◌<◌, ◌^◌, ◌+◌, [], length, IfOk, None};
ghost use Rattle.cqe_base.specs.Literal.{ClausesBelow, HaveNoRepeat};
ghost use Rattle.cqe_base.specs.Machine.{end_within_budget, end_within, start};
ghost use Rattle.cqe_base.specs.KeptTrail.{end_from_within_budget};
ghost use Rattle.clause_solver.specs.PlainStates.{found_of};
ghost use Rattle.clause_solver.specs.RightEnds.{IsRightFound};
ghost use Rattle.clause_solver.specs.Costs.{cost_within, cost_within_budget};
ghost use Rattle.clause_solver.specs.Watching.{HaveSameLiterals};
ghost use Rattle.clause_solver.specs.WatchesInside.{AreWatches};
ghost use Rattle.clause_solver.specs.IndexedStates.{plain_of, IsLookedAt, IsIndexed, first_two};
ghost use Rattle.clause_solver.specs.Bases.{KeepsBases};

use crate::assignment::Assignment;
use crate::ends::{Advance, Found, Searched};
use crate::indexed::Indexed;
use crate::rules::{is_single, step};
use crate::watches::Watches;
use clause_store::clauses::Clauses;
use clause_store::literal::Lit;
use clause_store::marked_clause::MarkedClause;
use clause_store::refutation::Refutation;
use cqe_base::machine_laws::{law_budget_is_whole_cost, law_machine_ends_are_right};
use std::alloc::{AllocError, Global};
use std::mem;

/// What is kept of these clauses where nothing is assigned.
fn watched(alloc: Global, clauses: &Clauses, variables: u32) -> Result<Watches, AllocError>
    requires variables { variables < 2 ^ 31 }
    requires below { ClausesBelow variables clauses.now }
    requires no_repeat { HaveNoRepeat clauses.now }
    requires room { length clauses.now < 2 ^ 32 }
    ensures watches { IfOk result (λ w. AreWatches variables [] w) }
    ensures same { IfOk result (λ w. HaveSameLiterals clauses.now w.sorted) }
{
    let mut watches = Watches::new(alloc, variables)?;
    for number in 0..clauses.len() {
        let clause = clauses.clause(number);
        let (first, second) = first_two(clause);
        let unit = is_single(clause);
        watches.enter(clause, first, second, unit)?;
    }
    Ok(watches)
}

/// The state with these clauses, before the first step.
pub fn begin(alloc: Global, clauses: &Clauses, variables: u32) -> Result<Indexed, AllocError>
    requires variables { variables < 2 ^ 31 }
    requires below { ClausesBelow variables clauses.now }
    requires no_repeat { HaveNoRepeat clauses.now }
    requires room { length clauses.now < 2 ^ 32 }
    ensures plain { IfOk result (λ s. plain_of s ≡ start clauses.now) }
    ensures variables { IfOk result (λ s. s.assignment.variables ≡ variables) }
    ensures indexed { IfOk result (λ s. IsIndexed s) }
{
    let watches = watched(alloc, clauses, variables)?;
    Ok(Indexed {
        assignment: Assignment::new(alloc, variables)?,
        clauses: clauses.copy(alloc)?,
        watches,
        lines: Vec::new(alloc),
        resolvent: MarkedClause::new(alloc, variables)?,
    })
}

/// The first two literals of a clause, twice the same where it has only one.
fn first_two(clause: &[Lit]) -> (Lit, Lit)
    ensures { (result.0, result.1) ≡ first_two clause.now }
{
    match clause {
        [] => (Lit::positive(0), Lit::positive(0)),
        [only] => (*only, *only),
        [first, second, ..] => (*first, *second),
    }
}

/// A search whose budget is spent.
pub fn spent(budget: u64) -> Searched
    ensures found { found_of result.found ≡ None }
    ensures cost { result.cost ≡ budget }
{
    Searched {
        found: Found::Spent,
        cost: budget,
    }
}

/// Runs the machine from a state, within a budget.
pub fn run(
    alloc: Global,
    state: &mut Indexed,
    variables: u32,
    budget: u64,
) -> Result<Searched, AllocError>
    requires variables { variables < 2 ^ 31 }
    requires same { state.old.assignment.variables ≡ variables }
    requires room { length state.old.clauses + budget < 2 ^ 32 }
    requires indexed { IsIndexed state.old }
    ensures found { IfOk result (λ searched. found_of searched.found
        ≡ end_from_within_budget (plain_of state.old) variables budget) }
    ensures cost { IfOk result (λ searched. searched.cost
        ≡ cost_within budget (end_within variables budget (plain_of state.old))) }
    ensures variables { IfOk result (λ _. state.new.assignment.variables ≡ variables) }
    ensures looked { IfOk result (λ _. IsLookedAt state.new) }
    ensures bases { IfOk result (λ _. KeepsBases state.old state.new) }
{
    let mut left = budget;
    for steps in 0..budget {
        match step(alloc, state, variables)? {
            Advance::Went(cost) => {
                if left < cost {
                    return Ok(spent(budget));
                }
                left -= cost;
            }
            Advance::Refuted(cost) => {
                if left < cost {
                    return Ok(spent(budget));
                }
                let lines = mem::replace(&mut state.lines, Vec::new(alloc));
                return Ok(Searched {
                    found: Found::Refuted(Refutation { lines }),
                    cost: budget - left + cost,
                });
            }
            Advance::Satisfied(cost, signs) => {
                if left < cost {
                    return Ok(spent(budget));
                }
                return Ok(Searched {
                    found: Found::Model(signs),
                    cost: budget - left + cost,
                });
            }
        }
    }
    Ok(spent(budget))
}

/// What `search` answers, with the whole cost in the same units. Where the budget is spent the
/// whole cost isn't known, and the budget stands in its place.
pub fn search_with_cost(
    alloc: Global,
    clauses: &Clauses,
    variables: u32,
    budget: u64,
) -> Result<Searched, AllocError>
    requires variables { variables < 2 ^ 31 }
    requires below { ClausesBelow variables clauses.now }
    requires no_repeat { HaveNoRepeat clauses.now }
    requires room { length clauses.now + budget < 2 ^ 32 }
    ensures found { IfOk result (λ searched. found_of searched.found
        ≡ end_within_budget clauses.now variables budget) }
    ensures cost { IfOk result (λ searched. searched.cost
        ≡ cost_within_budget clauses.now variables budget) }
{
    let mut state = begin(alloc, clauses, variables)?;
    run(alloc, &mut state, variables, budget)
}

/// Runs the machine of `cqe_base` (specs/Machine.antt), for callers that don't ask what it cost.
///
/// The budget is in the machine's own units: a conflict costs 1, 1 for each resolution and 1 for
/// each literal of the learnt clause, and any other step costs 1. Time and memory aren't counted.
/// The same clauses in the same order give the same answer. `is_searchable` tests all that is
/// required; `Err` is want of memory.
pub fn search(
    alloc: Global,
    clauses: &Clauses,
    variables: u32,
    budget: u64,
) -> Result<Found, AllocError>
    requires variables { variables < 2 ^ 31 }
    requires below { ClausesBelow variables clauses.now }
    requires no_repeat { HaveNoRepeat clauses.now }
    requires room { length clauses.now + budget < 2 ^ 32 }
    ensures found { IfOk result (λ found. found_of found
        ≡ end_within_budget clauses.now variables budget) }
    ensures right { IfOk result (IsRightFound clauses.now) }
{
    law_budget_is_whole_cost();
    law_machine_ends_are_right();
    let searched = search_with_cost(alloc, clauses, variables, budget)?;
    Ok(searched.found)
}
