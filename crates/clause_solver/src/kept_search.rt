//! A search that keeps its work on a list of clauses, for the searches of longer lists.

ghost use Rattle.std.specs.Prelude.{◌≡◌, ◌<◌, ◌^◌, ◌+◌, [], length, None, IfOk, OnOk, OnErr};
ghost use Rattle.cqe_base.specs.Literal.{ClausesBelow, HaveNoRepeat};
ghost use Rattle.cqe_base.specs.Machine.{end_within_budget};
ghost use Rattle.clause_solver.specs.PlainStates.{found_of};
ghost use Rattle.clause_solver.specs.RightEnds.{IsRightFound};
ghost use Rattle.clause_solver.specs.Costs.{cost_within_budget};
ghost use Rattle.clause_solver.specs.Beginnings.{IsBeginning};
ghost use Rattle.clause_solver.specs.KeptStates.{IsKeptState, IsSettled, IsLeastFalsified};
ghost use Rattle.clause_solver.specs.KeptStates.{IsFirstOfFalsified};
ghost use Rattle.clause_solver.specs.KeptClauses.{kept_clauses, IsKeptRight};

use crate::analysis::conflict_line;
use crate::ends::{Found, Searched};
use crate::falsified::{Falsified, first_falsified};
use crate::indexed::Indexed;
use crate::joining::enter_all;
use crate::propagation::settled;
use crate::run::{begin, run, search_with_cost, spent};
use clause_store::clauses::Clauses;
use clause_store::marked_clause::MarkedClause;
use clause_store::refutation::Refutation;
use cqe_base::machine_laws::{law_budget_is_whole_cost, law_machine_ends_are_right};
use std::alloc::{AllocError, Global};
use std::marker::Model;
use std::mem;

/// What is kept: a state with the work that was done, or the clauses alone where the machine ends
/// on them without a decision.
#[derive(Drop)]
pub enum Kept {
    Settled(Indexed),
    Plain(Clauses),
}

/// A list of clauses that is kept, with the steps by the second rule that it leads to. Lists that
/// begin with it are searched from there.
#[derive(Drop)]
pub struct KeptSearch {
    kept: Kept,
}

impl Model for KeptSearch {
    ghost use Rattle.std.specs.Prelude.{List};
    ghost use Rattle.cqe_base.specs.Literal.{Literal};

    ghost Value = { List (List Literal) };

    ghost use Rattle.clause_solver.specs.KeptClauses.{kept_clauses, IsKeptRight};

    ghost view = { λ k. kept_clauses k.kept };

    ghost invariant = { λ k. IsKeptRight k.kept };
}

/// A state from which more clauses may be kept.
fn state_of(alloc: Global, kept: Kept, variables: u32) -> Result<Indexed, AllocError>
    requires variables { variables < 2 ^ 31 }
    requires right { IsKeptRight kept }
    ensures kept { IfOk result IsKeptState }
    ensures begins { IfOk result (λ state. IsBeginning state.clauses (kept_clauses kept)) }
{
    match kept {
        Kept::Settled(state) => Ok(state),
        Kept::Plain(_clauses) => {
            let state = begin(alloc, &Clauses::new(alloc), variables)?;
            Ok(state)
        }
    }
}

/// What is kept of more clauses.
fn kept_with(
    alloc: Global,
    kept: Kept,
    clauses: &Clauses,
    variables: u32,
) -> Result<Kept, AllocError>
    requires begins { IsBeginning (kept_clauses kept) clauses.now }
    requires variables { variables < 2 ^ 31 }
    requires below { ClausesBelow variables clauses.now }
    requires no_repeat { HaveNoRepeat clauses.now }
    requires room { length clauses.now < 2 ^ 32 }
    requires right { IsKeptRight kept }
    ensures right { IfOk result IsKeptRight }
    ensures clauses { IfOk result (λ kept. kept_clauses kept ≡ clauses.now) }
{
    let from = state_of(alloc, kept, variables)?;
    match settled(alloc, from, clauses, variables)? {
        Some(state) => Ok(Kept::Settled(state)),
        None => {
            let copy = clauses.copy(alloc)?;
            Ok(Kept::Plain(copy))
        }
    }
}

/// The end at a clause that a beginning of the kept trail falsifies.
fn refuted_at(
    alloc: Global,
    state: &Indexed,
    first: Falsified,
    clauses: &Clauses,
    variables: u32,
    budget: u64,
) -> Result<Searched, AllocError>
    requires begins { IsBeginning state.now.clauses clauses.now }
    requires variables { variables < 2 ^ 31 }
    requires below { ClausesBelow variables clauses.now }
    requires no_repeat { HaveNoRepeat clauses.now }
    requires room { length clauses.now + budget < 2 ^ 32 }
    requires first { IsLeastFalsified clauses.now state.now.assignment.trail
        (length state.now.clauses) (length clauses.now) first }
    requires settled { IsSettled state.now }
    ensures found { IfOk result (λ searched. found_of searched.found
        ≡ end_within_budget clauses.now variables budget) }
    ensures cost { IfOk result (λ searched. searched.cost
        ≡ cost_within_budget clauses.now variables budget) }
{
    let mut resolvent = MarkedClause::new(alloc, variables)?;
    let line = conflict_line(
        alloc,
        clauses,
        &state.assignment,
        &mut resolvent,
        first.number,
    )?;
    let cost = (first.place as u64).saturating_add(line.chain.len() as u64);
    if budget < cost {
        return Ok(spent(budget));
    }
    let mut lines = Vec::new(alloc);
    lines.push(line)?;
    Ok(Searched {
        found: Found::Refuted(Refutation { lines }),
        cost,
    })
}

/// The search from the kept trail, where that falsifies none of the clauses. They join the kept
/// ones for the search, and leave them again.
fn search_from(
    alloc: Global,
    state: &mut Indexed,
    clauses: &Clauses,
    variables: u32,
    budget: u64,
) -> Result<Searched, AllocError>
    requires begins { IsBeginning state.old.clauses clauses.now }
    requires variables { variables < 2 ^ 31 }
    requires below { ClausesBelow variables clauses.now }
    requires no_repeat { HaveNoRepeat clauses.now }
    requires room { length clauses.now + budget < 2 ^ 32 }
    requires none_falsified { IsFirstOfFalsified clauses.now state.old.assignment.trail
        (length state.old.clauses) (length clauses.now) None }
    requires settled { IsSettled state.old }
    ensures found { IfOk result (λ searched. found_of searched.found
        ≡ end_within_budget clauses.now variables budget) }
    ensures cost { IfOk result (λ searched. searched.cost
        ≡ cost_within_budget clauses.now variables budget) }
    ensures clauses { IfOk result (λ _. state.new.clauses ≡ state.old.clauses) }
    ensures settled { IfOk result (λ _. IsSettled state.new) }
{
    let count = state.clauses.len();
    let entries = state.assignment.entries().len();
    state.set_variables(alloc, variables)?;
    enter_all(state, clauses)?;
    let steps = entries as u64;
    let searched = run(alloc, state, variables, budget.saturating_sub(steps))?;
    state.go_back(count, entries);
    Ok(Searched {
        found: searched.found,
        cost: budget.min(steps.saturating_add(searched.cost)),
    })
}

/// The search of a list that begins with the clauses of a settled state.
fn search_behind(
    alloc: Global,
    state: &mut Indexed,
    clauses: &Clauses,
    variables: u32,
    budget: u64,
) -> Result<Searched, AllocError>
    requires begins { IsBeginning state.old.clauses clauses.now }
    requires variables { variables < 2 ^ 31 }
    requires below { ClausesBelow variables clauses.now }
    requires no_repeat { HaveNoRepeat clauses.now }
    requires room { length clauses.now + budget < 2 ^ 32 }
    requires settled { IsSettled state.old }
    ensures found { IfOk result (λ searched. found_of searched.found
        ≡ end_within_budget clauses.now variables budget) }
    ensures cost { IfOk result (λ searched. searched.cost
        ≡ cost_within_budget clauses.now variables budget) }
    ensures clauses { IfOk result (λ _. state.new.clauses ≡ state.old.clauses) }
    ensures settled { IfOk result (λ _. IsSettled state.new) }
{
    match first_falsified(&state.assignment, clauses, state.clauses.len()) {
        Some(first) => refuted_at(alloc, state, first, clauses, variables, budget),
        None => search_from(alloc, state, clauses, variables, budget),
    }
}

/// The search of a list that begins with the kept clauses.
fn searched(
    alloc: Global,
    kept: &mut Kept,
    clauses: &Clauses,
    variables: u32,
    budget: u64,
) -> Result<Searched, AllocError>
    requires begins { IsBeginning (kept_clauses kept.old) clauses.now }
    requires variables { variables < 2 ^ 31 }
    requires below { ClausesBelow variables clauses.now }
    requires no_repeat { HaveNoRepeat clauses.now }
    requires room { length clauses.now + budget < 2 ^ 32 }
    requires right { IsKeptRight kept.old }
    ensures found { IfOk result (λ searched. found_of searched.found
        ≡ end_within_budget clauses.now variables budget) }
    ensures cost { IfOk result (λ searched. searched.cost
        ≡ cost_within_budget clauses.now variables budget) }
    ensures clauses { IfOk result (λ _. kept_clauses kept.new ≡ kept_clauses kept.old) }
    ensures right { IfOk result (λ _. IsKeptRight kept.new) }
{
    match kept {
        Kept::Settled(state) => search_behind(alloc, state, clauses, variables, budget),
        Kept::Plain(_clauses) => search_with_cost(alloc, clauses, variables, budget),
    }
}

impl KeptSearch {
    /// No clause is kept.
    pub fn new(alloc: Global) -> KeptSearch
        ensures { result ≡ [] }
    {
        KeptSearch {
            kept: Kept::Plain(Clauses::new(alloc)),
        }
    }

    /// Keeps these clauses, which begin with those that were kept. Where memory is wanting, no
    /// clause is kept any more.
    pub fn keep(
        &mut self,
        alloc: Global,
        clauses: &Clauses,
        variables: u32,
    ) -> Result<(), AllocError>
        requires begins { IsBeginning self.old clauses.now }
        requires variables { variables < 2 ^ 31 }
        requires below { ClausesBelow variables clauses.now }
        requires no_repeat { HaveNoRepeat clauses.now }
        requires room { length clauses.now < 2 ^ 32 }
        ensures kept { OnOk result (self.new ≡ clauses.now) }
        ensures refused { OnErr result (self.new ≡ []) }
    {
        let kept = mem::replace(&mut self.kept, Kept::Plain(Clauses::new(alloc)));
        match kept_with(alloc, kept, clauses, variables) {
            Ok(kept) => {
                self.kept = kept;
                Ok(())
            }
            Err(error) => Err(error),
        }
    }

    /// What `clause_solver::search_with_cost` answers of clauses that begin with those that are
    /// kept. Where memory is wanting, no clause is kept any more.
    pub fn search_with_cost(
        &mut self,
        alloc: Global,
        clauses: &Clauses,
        variables: u32,
        budget: u64,
    ) -> Result<Searched, AllocError>
        requires begins { IsBeginning self.old clauses.now }
        requires variables { variables < 2 ^ 31 }
        requires below { ClausesBelow variables clauses.now }
        requires no_repeat { HaveNoRepeat clauses.now }
        requires room { length clauses.now + budget < 2 ^ 32 }
        ensures found { IfOk result (λ searched. found_of searched.found
            ≡ end_within_budget clauses.now variables budget) }
        ensures cost { IfOk result (λ searched. searched.cost
            ≡ cost_within_budget clauses.now variables budget) }
        ensures kept { OnOk result (self.new ≡ self.old) }
        ensures refused { OnErr result (self.new ≡ []) }
    {
        let mut kept = mem::replace(&mut self.kept, Kept::Plain(Clauses::new(alloc)));
        match searched(alloc, &mut kept, clauses, variables, budget) {
            Ok(searched) => {
                self.kept = kept;
                Ok(searched)
            }
            Err(error) => Err(error),
        }
    }

    /// What `clause_solver::search` answers of clauses that begin with those that are kept. Where
    /// memory is wanting, no clause is kept any more.
    pub fn search(
        &mut self,
        alloc: Global,
        clauses: &Clauses,
        variables: u32,
        budget: u64,
    ) -> Result<Found, AllocError>
        requires begins { IsBeginning self.old clauses.now }
        requires variables { variables < 2 ^ 31 }
        requires below { ClausesBelow variables clauses.now }
        requires no_repeat { HaveNoRepeat clauses.now }
        requires room { length clauses.now + budget < 2 ^ 32 }
        ensures found { IfOk result (λ found. found_of found
            ≡ end_within_budget clauses.now variables budget) }
        ensures right { IfOk result (IsRightFound clauses.now) }
        ensures kept { OnOk result (self.new ≡ self.old) }
        ensures refused { OnErr result (self.new ≡ []) }
    {
        law_budget_is_whole_cost();
        law_machine_ends_are_right();
        let searched = self.search_with_cost(alloc, clauses, variables, budget)?;
        Ok(searched.found)
    }
}
