//! The rules of the machine on the state with what is kept of its clauses.

ghost use Rattle.std.specs.Prelude.{◌≡◌, ◌⊎◌, ◌<◌, ◌≤◌, ◌^◌, ◌+◌, ◌==◌, ℕ, [], ◌∷◌, ◌++◌};
ghost use Rattle.std.specs.Prelude.{length, map, Some, None, IfOk, IfSome};
ghost use Rattle.std.specs.List.{position_from, list_all};
ghost use Rattle.cqe_base.specs.Literal.{Literal, Negative, variable_of};
ghost use Rattle.cqe_base.specs.Machine.{State as PlainState, state_after_conflict, step, level};
ghost use Rattle.cqe_base.specs.Machine.{level_of, is_false, signs_of, conflict_step, decide_step};
ghost use Rattle.cqe_base.specs.Machine.{first_unassigned, unit_step, first_unit};
ghost use Rattle.cqe_base.specs.MachineStates.{Walked};
ghost use Rattle.clause_store.specs.PlainLines.{line_of};
ghost use Rattle.clause_solver.specs.PlainStates.{StepIs};
ghost use Rattle.clause_solver.specs.WatchesInside.{units_of};
ghost use Rattle.clause_solver.specs.IndexedStates.{plain_of, IsIndexed, IsHighestBeside};
ghost use Rattle.clause_solver.specs.Bases.{KeepsBases};

use crate::analysis::{back_level, conflict_line, first_current};
use crate::assignment::Assignment;
use crate::ends::Advance;
use crate::entry::TrailEntry;
use crate::indexed::Indexed;
use clause_store::literal::Lit;
use clause_store::refutation::{Line, Signs};
use std::alloc::{AllocError, Global};

/// A literal of the highest level beside one, or that one where there is no other.
fn highest_beside(assignment: &Assignment, clause: &[Lit], literal: Lit) -> Lit
    ensures { IsHighestBeside assignment.now.trail clause.now literal result }
{
    let mut highest = literal;
    for other in clause {
        highest = higher_beside(assignment, literal, highest, *other);
    }
    highest
}

/// The higher one of two literals, where each is another one than the first.
fn higher_beside(assignment: &Assignment, literal: Lit, highest: Lit, other: Lit) -> Lit
    ensures either { (result ≡ highest) ⊎ (result ≡ other) }
    ensures higher { (other ≡ literal)
        ⊎ ((result ≡ literal → ⊥)
        × (level_of assignment.now.trail other ≤ level_of assignment.now.trail result)) }
    ensures kept { (highest ≡ literal)
        ⊎ ((result ≡ literal → ⊥)
        × (level_of assignment.now.trail highest ≤ level_of assignment.now.trail result)) }
{
    if other.is(literal)
        || !highest.is(literal) && assignment.level_of(other) <= assignment.level_of(highest)
    {
        highest
    } else {
        other
    }
}

/// Whether a clause has one literal.
pub fn is_single(clause: &[Lit]) -> bool
    ensures { result ≡ (length clause.now == 1) }
{
    clause.len() == 1
}

/// A line's clause is learnt.
fn learn(state: &mut Indexed, line: Line) -> Result<(), AllocError>
    requires room { length state.old.clauses < 2 ^ 32 }
    requires level { 0 < level state.old.assignment.trail }
    requires walked { Walked state.old.assignment.variables state.old.assignment.trail 1
        line.clause.items }
    requires indexed { IsIndexed state.old }
    ensures plain { IfOk result (λ _. plain_of state.new
        ≡ state_after_conflict (plain_of state.old) (line_of line)) }
    ensures variables { IfOk result
        (λ _. state.new.assignment.variables ≡ state.old.assignment.variables) }
    ensures indexed { IfOk result (λ _. IsIndexed state.new) }
    ensures bases { IfOk result (λ _. KeepsBases state.old state.new) }
{
    let number = state.clauses.len() as u32;
    let Some(asserting) = first_current(&state.assignment, &line.clause) else {
        return Ok(());
    };
    let back = back_level(&state.assignment, &line.clause);
    let second = highest_beside(&state.assignment, &line.clause, asserting);
    state.cut(back);
    state.assign(TrailEntry::because(number, asserting))?;
    let unit = is_single(&line.clause);
    state.enter(&line.clause, asserting, second, unit)?;
    state.lines.push(line)?;
    Ok(())
}

/// The first rule, at the clause of this number.
fn conflict_step(alloc: Global, state: &mut Indexed, number: usize) -> Result<Advance, AllocError>
    requires number { number < length state.old.clauses }
    requires conflict { position_from
        (list_all (is_false state.old.assignment.trail)) 0 state.old.clauses ≡ Some number }
    requires room { length state.old.clauses < 2 ^ 32 }
    requires indexed { IsIndexed state.old }
    ensures step { IfOk result (λ a.
        StepIs (conflict_step (plain_of state.old) number) a (plain_of state.new)) }
    ensures grows { IfOk result (λ _. length state.new.clauses ≤ length state.old.clauses + 1) }
    ensures variables { IfOk result
        (λ _. state.new.assignment.variables ≡ state.old.assignment.variables) }
    ensures indexed { IfOk result (λ _. IsIndexed state.new) }
    ensures bases { IfOk result (λ _. KeepsBases state.old state.new) }
{
    let line = conflict_line(
        alloc,
        &state.clauses,
        &state.assignment,
        &mut state.resolvent,
        number,
    )?;
    let cost = line.chain.len() as u64 + line.clause.len() as u64;
    if state.assignment.level() == 0 {
        state.lines.push(line)?;
        return Ok(Advance::Refuted(cost));
    }
    learn(state, line)?;
    Ok(Advance::Went(cost))
}

/// The signs of the variables.
fn signs_of(alloc: Global, assignment: &Assignment, variables: u32) -> Result<Vec<bool>, AllocError>
    requires variables { variables < 2 ^ 31 }
    requires same { assignment.now.variables ≡ variables }
    ensures { IfOk result (λ signs. signs.items ≡ signs_of assignment.now.trail variables) }
{
    let mut signs = Vec::from_slice(alloc, assignment.signs())?;
    signs.truncate(variables as usize);
    Ok(signs)
}

/// The third rule, or else the fourth.
fn decide_step(alloc: Global, state: &mut Indexed, variables: u32) -> Result<Advance, AllocError>
    requires variables { variables < 2 ^ 31 }
    requires no_conflict { position_from
        (list_all (is_false state.old.assignment.trail)) 0 state.old.clauses ≡ None }
    requires no_unit { first_unit state.old.assignment.trail 0 state.old.clauses ≡ None }
    requires no_units { units_of state.old.watches ≡ [] }
    requires no_falsified { state.old.watches.falsified ≡ None }
    requires same { state.old.assignment.variables ≡ variables }
    requires indexed { IsIndexed state.old }
    ensures step { IfOk result (λ a.
        StepIs (decide_step variables (plain_of state.old)
        (first_unassigned state.old.assignment.trail variables)) a (plain_of state.new)) }
    ensures grows { IfOk result (λ _. length state.new.clauses ≤ length state.old.clauses + 1) }
    ensures variables { IfOk result
        (λ _. state.new.assignment.variables ≡ state.old.assignment.variables) }
    ensures indexed { IfOk result (λ _. IsIndexed state.new) }
    ensures bases { IfOk result (λ _. KeepsBases state.old state.new) }
{
    match state.assignment.first_unassigned() {
        Some(v) => {
            state.assign(TrailEntry::decided(Lit::negative(v)))?;
            Ok(Advance::Went(1))
        }
        None => {
            let values = signs_of(alloc, &state.assignment, variables)?;
            Ok(Advance::Satisfied(1, Signs { values }))
        }
    }
}

/// The second rule, or else the others.
fn unit_step(alloc: Global, state: &mut Indexed, variables: u32) -> Result<Advance, AllocError>
    requires variables { variables < 2 ^ 31 }
    requires no_conflict { position_from
        (list_all (is_false state.old.assignment.trail)) 0 state.old.clauses ≡ None }
    requires no_falsified { state.old.watches.falsified ≡ None }
    requires same { state.old.assignment.variables ≡ variables }
    requires room { length state.old.clauses < 2 ^ 32 }
    requires indexed { IsIndexed state.old }
    ensures step { IfOk result (λ a.
        StepIs (unit_step variables (plain_of state.old)
        (first_unit state.old.assignment.trail 0 state.old.clauses)) a (plain_of state.new)) }
    ensures grows { IfOk result (λ _. length state.new.clauses ≤ length state.old.clauses + 1) }
    ensures variables { IfOk result
        (λ _. state.new.assignment.variables ≡ state.old.assignment.variables) }
    ensures indexed { IfOk result (λ _. IsIndexed state.new) }
    ensures bases { IfOk result (λ _. KeepsBases state.old state.new) }
{
    match state.first_unit() {
        Some(unit) => {
            state.assign(TrailEntry::because(unit.0 as u32, unit.1))?;
            Ok(Advance::Went(1))
        }
        None => decide_step(alloc, state, variables),
    }
}

/// One step of the machine.
pub fn step(alloc: Global, state: &mut Indexed, variables: u32) -> Result<Advance, AllocError>
    requires variables { variables < 2 ^ 31 }
    requires same { state.old.assignment.variables ≡ variables }
    requires room { length state.old.clauses < 2 ^ 32 }
    requires indexed { IsIndexed state.old }
    ensures step { IfOk result (λ a.
        StepIs (step variables (plain_of state.old)) a (plain_of state.new)) }
    ensures grows { IfOk result (λ _. length state.new.clauses ≤ length state.old.clauses + 1) }
    ensures variables { IfOk result
        (λ _. state.new.assignment.variables ≡ state.old.assignment.variables) }
    ensures indexed { IfOk result (λ _. IsIndexed state.new) }
    ensures bases { IfOk result (λ _. KeepsBases state.old state.new) }
{
    match state.first_conflict() {
        Some(number) => Ok(conflict_step(alloc, state, number)?),
        None => Ok(unit_step(alloc, state, variables)?),
    }
}
