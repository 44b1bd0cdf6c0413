//! The steps by the second rule that a list of clauses leads to, whatever stands behind it.

ghost use Rattle.std.specs.Prelude.{◌≡◌, ◌<◌, ◌^◌, IsTrue, false, length, None, IfOk, IfSome};
ghost use Rattle.cqe_base.specs.Literal.{ClausesBelow, HaveNoRepeat};
ghost use Rattle.cqe_base.specs.KeptTrail.{has_conflict};
ghost use Rattle.clause_solver.specs.Beginnings.{IsBeginning};
ghost use Rattle.clause_solver.specs.KeptStates.{IsKeptState, IsSettled, IsFirstOfFalsified};

use crate::entry::TrailEntry;
use crate::falsified::first_falsified;
use crate::indexed::Indexed;
use crate::joining::enter_all;
use clause_store::clauses::Clauses;
use std::alloc::{AllocError, Global};

/// One step by the second rule, where no clause is falsified. It answers whether there was one.
fn propagate_unit(state: &mut Indexed) -> Result<bool, AllocError>
    requires room { length state.old.clauses < 2 ^ 32 }
    requires no_falsified { state.old.watches.falsified ≡ None }
    requires calm { has_conflict state.old.assignment.trail state.old.clauses ≡ false }
    requires kept { IsKeptState state.old }
    ensures clauses { IfOk result (λ _. state.new.clauses ≡ state.old.clauses) }
    ensures kept { IfOk result (λ _. IsKeptState state.new) }
{
    match state.first_unit() {
        Some(unit) => {
            state.assign(TrailEntry::because(unit.0 as u32, unit.1))?;
            Ok(true)
        }
        None => Ok(false),
    }
}

/// One step by the second rule, where that is the first that applies. It answers whether there was
/// one.
fn propagate(state: &mut Indexed) -> Result<bool, AllocError>
    requires room { length state.old.clauses < 2 ^ 32 }
    requires kept { IsKeptState state.old }
    ensures clauses { IfOk result (λ _. state.new.clauses ≡ state.old.clauses) }
    ensures kept { IfOk result (λ _. IsKeptState state.new) }
{
    match state.first_conflict() {
        Some(_number) => Ok(false),
        None => Ok(propagate_unit(state)?),
    }
}

/// So many steps by the second rule, or as many as there are.
fn propagate_all(state: &mut Indexed, most: u32) -> Result<(), AllocError>
    requires room { length state.old.clauses < 2 ^ 32 }
    requires kept { IsKeptState state.old }
    ensures clauses { IfOk result (λ _. state.new.clauses ≡ state.old.clauses) }
    ensures kept { IfOk result (λ _. IsKeptState state.new) }
{
    for steps in 0..most {
        if !propagate(state)? {
            return Ok(());
        }
    }
    Ok(())
}

/// Whether the second rule doesn't apply, where no clause is falsified.
fn has_no_unit(state: &mut Indexed) -> bool
    requires no_falsified { state.old.watches.falsified ≡ None }
    requires calm { has_conflict state.old.assignment.trail state.old.clauses ≡ false }
    requires kept { IsKeptState state.old }
    ensures clauses { state.new.clauses ≡ state.old.clauses }
    ensures settled { IsTrue result → IsSettled state.new }
{
    match state.first_unit() {
        Some(_unit) => false,
        None => true,
    }
}

/// Whether neither the first nor the second rule applies.
fn is_settled(state: &mut Indexed) -> bool
    requires { IsKeptState state.old }
    ensures clauses { state.new.clauses ≡ state.old.clauses }
    ensures settled { IsTrue result → IsSettled state.new }
{
    match state.first_conflict() {
        Some(_number) => false,
        None => has_no_unit(state),
    }
}

/// The state of a list of clauses that begins with those of a state, with all steps by the second
/// rule; none where a clause is falsified.
pub fn settled(
    alloc: Global,
    from: Indexed,
    clauses: &Clauses,
    variables: u32,
) -> Result<Option<Indexed>, AllocError>
    requires begins { IsBeginning from.clauses clauses.now }
    requires variables { variables < 2 ^ 31 }
    requires below { ClausesBelow variables clauses.now }
    requires no_repeat { HaveNoRepeat clauses.now }
    requires room { length clauses.now < 2 ^ 32 }
    requires kept { IsKeptState from }
    ensures settled { IfOk result (λ o. IfSome o IsSettled) }
    ensures clauses { IfOk result (λ o. IfSome o (λ state. state.clauses ≡ clauses.now)) }
{
    match first_falsified(&from.assignment, clauses, from.clauses.len()) {
        Some(_first) => Ok(None),
        None => Ok(settled_with(alloc, from, clauses, variables)?),
    }
}

/// The same, where the trail falsifies none of the clauses.
fn settled_with(
    alloc: Global,
    from: Indexed,
    clauses: &Clauses,
    variables: u32,
) -> Result<Option<Indexed>, AllocError>
    requires begins { IsBeginning from.clauses clauses.now }
    requires variables { variables < 2 ^ 31 }
    requires below { ClausesBelow variables clauses.now }
    requires no_repeat { HaveNoRepeat clauses.now }
    requires room { length clauses.now < 2 ^ 32 }
    requires none_falsified { IsFirstOfFalsified clauses.now from.assignment.trail
        (length from.clauses) (length clauses.now) None }
    requires kept { IsKeptState from }
    ensures settled { IfOk result (λ o. IfSome o IsSettled) }
    ensures clauses { IfOk result (λ o. IfSome o (λ state. state.clauses ≡ clauses.now)) }
{
    let mut state = from;
    state.set_variables(alloc, variables)?;
    enter_all(&mut state, clauses)?;
    propagate_all(&mut state, variables)?;
    if !is_settled(&mut state) {
        return Ok(None);
    }
    Ok(Some(state))
}
