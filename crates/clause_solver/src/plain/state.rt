//! The state of the machine, and its steps.

ghost use Rattle.std.specs.Prelude.{◌≡◌, ◌<◌, ◌≤◌, ◌^◌, ◌+◌, ℕ, [], ◌∷◌, ◌++◌, length, reverse};
ghost use Rattle.std.specs.Prelude.{map, IfOk, not};
ghost use Rattle.cqe_base.specs.Literal.{Literal, Negative};
ghost use Rattle.cqe_base.specs.Machine.{State as PlainState, state_after_conflict, step};
ghost use Rattle.cqe_base.specs.Machine.{with_asserted, is_current, cut, highest_level};
ghost use Rattle.cqe_base.specs.Machine.{conflict_step, decide_step, first_unassigned, unit_step};
ghost use Rattle.cqe_base.specs.Machine.{first_unit, conflict_or_unit_step};
ghost use Rattle.std.specs.List.{find, filter};
ghost use Rattle.clause_store.specs.PlainLines.{line_of};
ghost use Rattle.clause_solver.specs.PlainStates.{state_of, StepIs};

use crate::ends::Advance;
use crate::entry::TrailEntry;
use crate::plain::conflict::conflict_line;
use crate::plain::scan::{first_conflict, first_unassigned, first_unit, signs_of};
use crate::plain::trail::{cut, first_current, highest_level, level, others};
use clause_store::clauses::Clauses;
use clause_store::literal::Lit;
use clause_store::refutation::{Line, Signs};
use std::alloc::{AllocError, Global};

/// The given and the learnt clauses, the trail with its latest entry last, and the lines so far.
#[derive(Drop)]
pub struct State {
    pub clauses: Clauses,
    pub trail: Vec<TrailEntry>,
    pub lines: Vec<Line>,
}

/// A literal joins the trail because of a clause.
fn assert_literal(
    trail: &mut Vec<TrailEntry>,
    number: u32,
    literal: Option<Lit>,
) -> Result<(), AllocError>
    ensures { IfOk result (λ _. reverse trail.new.items
        ≡ with_asserted number literal (reverse trail.old.items)) }
{
    if let Some(l) = literal {
        trail.push(TrailEntry::because(number, l))?;
    }
    Ok(())
}

/// The trail is cut, and the remaining literal joins it because of the clause of this number.
fn jump_back(
    alloc: Global,
    trail: &mut Vec<TrailEntry>,
    number: u32,
    clause: &[Lit],
) -> Result<(), AllocError>
    ensures { IfOk result (λ _. reverse trail.new.items
        ≡ with_asserted number (find (is_current (reverse trail.old.items)) clause.now)
        (cut (highest_level (reverse trail.old.items)
        (filter (λ l. not (is_current (reverse trail.old.items) l)) clause.now))
        (reverse trail.old.items))) }
{
    let asserting = first_current(trail, clause);
    let rest = others(alloc, trail, clause)?;
    let back = highest_level(trail, &rest);
    cut(trail, back);
    assert_literal(trail, number, asserting)?;
    Ok(())
}

/// A line's clause is learnt.
fn learn(alloc: Global, state: &mut State, line: Line) -> Result<(), AllocError>
    requires { length state.old.clauses < 2 ^ 32 }
    ensures learnt { IfOk result (λ _. state_of state.new
        ≡ state_after_conflict (state_of state.old) (line_of line)) }
    ensures grows { IfOk result (λ _. length state.new.clauses ≡ length state.old.clauses + 1) }
{
    let number = state.clauses.len() as u32;
    jump_back(alloc, &mut state.trail, number, &line.clause)?;
    state.clauses.push(&line.clause)?;
    state.lines.push(line)?;
    Ok(())
}

/// The first rule, at the clause of this number.
fn conflict_step(alloc: Global, state: &mut State, number: usize) -> Result<Advance, AllocError>
    requires number { number < length state.old.clauses }
    requires room { length state.old.clauses < 2 ^ 32 }
    ensures step { IfOk result (λ a.
        StepIs (conflict_step (state_of state.old) number) a (state_of state.new)) }
    ensures grows { IfOk result (λ _. length state.new.clauses ≤ length state.old.clauses + 1) }
{
    let line = conflict_line(alloc, &state.clauses, &state.trail, number)?;
    let cost = line.chain.len() as u64 + line.clause.len() as u64;
    if level(&state.trail) == 0 {
        state.lines.push(line)?;
        return Ok(Advance::Refuted(cost));
    }
    learn(alloc, state, line)?;
    Ok(Advance::Went(cost))
}

/// The third rule, or else the fourth.
fn decide_step(alloc: Global, state: &mut State, variables: u32) -> Result<Advance, AllocError>
    requires { variables < 2 ^ 31 }
    ensures step { IfOk result (λ a.
        StepIs (decide_step variables (state_of state.old)
        (first_unassigned (reverse state.old.trail.items) variables)) a (state_of state.new)) }
    ensures grows { IfOk result (λ _. length state.new.clauses ≤ length state.old.clauses + 1) }
{
    match first_unassigned(&state.trail, variables) {
        Some(v) => {
            state.trail.push(TrailEntry::decided(Lit::negative(v)))?;
            Ok(Advance::Went(1))
        }
        None => {
            let values = signs_of(alloc, &state.trail, variables)?;
            Ok(Advance::Satisfied(1, Signs { values }))
        }
    }
}

/// The second rule, or else the others.
fn unit_step(alloc: Global, state: &mut State, variables: u32) -> Result<Advance, AllocError>
    requires variables { variables < 2 ^ 31 }
    requires room { length state.old.clauses < 2 ^ 32 }
    ensures step { IfOk result (λ a.
        StepIs (unit_step variables (state_of state.old)
        (first_unit (reverse state.old.trail.items) 0 state.old.clauses)) a
        (state_of state.new)) }
    ensures grows { IfOk result (λ _. length state.new.clauses ≤ length state.old.clauses + 1) }
{
    match first_unit(alloc, &state.clauses, &state.trail)? {
        Some((number, literal)) => {
            state
                .trail
                .push(TrailEntry::because(number as u32, literal))?;
            Ok(Advance::Went(1))
        }
        None => decide_step(alloc, state, variables),
    }
}

/// One step of the machine.
pub fn step(alloc: Global, state: &mut State, variables: u32) -> Result<Advance, AllocError>
    requires variables { variables < 2 ^ 31 }
    requires room { length state.old.clauses < 2 ^ 32 }
    ensures step { IfOk result (λ a.
        StepIs (step variables (state_of state.old)) a (state_of state.new)) }
    ensures grows { IfOk result (λ _. length state.new.clauses ≤ length state.old.clauses + 1) }
{
    match first_conflict(&state.clauses, &state.trail) {
        Some(number) => Ok(conflict_step(alloc, state, number)?),
        None => Ok(unit_step(alloc, state, variables)?),
    }
}
