//! The analysis of a conflict with the levels and the marks at hand.

ghost use Rattle.std.specs.Prelude.{◌≡◌, ◌<◌, ◌^◌, ◌↔◌, IsTrue, [], length, not, max};
ghost use Rattle.std.specs.Prelude.{if◌then◌else◌, Some, IfOk, slice_index_or};
ghost use Rattle.std.specs.List.{filter, find};
ghost use Rattle.cqe_base.specs.Literal.{ClausesBelow};
ghost use Rattle.cqe_base.specs.Machine.{resolved_with, is_current, level_of, current_count};
ghost use Rattle.cqe_base.specs.Machine.{highest_level, kept_count, conflict_line};
ghost use Rattle.cqe_base.specs.MachineStates.{IsReached};
ghost use Rattle.cqe_base.proofs.Analysis.{walk_back};
ghost use Rattle.clause_store.specs.PlainLines.{line_of};
ghost use Rattle.clause_solver.specs.Lines.{line_with, state_at, IsAnalysable};

use crate::assignment::Assignment;
use crate::entry::TrailEntry;
use clause_store::clauses::Clauses;
use clause_store::literal::Lit;
use clause_store::marked_clause::MarkedClause;
use clause_store::refutation::Line;
use std::alloc::{AllocError, Global};

/// Whether more literals of a clause than so many are of the current level. A resolution appends
/// literals of that level, so the last ones are looked at first.
fn has_more_current(assignment: &Assignment, clause: &[Lit], most: usize) -> bool
    ensures { IsTrue result ↔ (most < current_count assignment.now.trail clause.now) }
{
    let mut left = most;
    for i in 0..clause.len() {
        if assignment.is_current(clause[clause.len() - 1 - i]) {
            if left == 0 {
                return true;
            }
            left -= 1;
        }
    }
    false
}

/// The clause of this number, or no literal where there is none.
fn clause_or_none(clauses: &Clauses, number: usize) -> &[Lit]
    ensures { result.now ≡ slice_index_or clauses.now number [] }
{
    if number < clauses.len() {
        clauses.clause(number)
    } else {
        &[]
    }
}

/// Resolves a clause with the cause of an entry, whose number joins the chain; a decision has none.
fn resolve_with(
    clauses: &Clauses,
    entry: TrailEntry,
    clause: &mut MarkedClause,
    chain: &mut Vec<u32>,
) -> Result<(), AllocError>
    requires { ClausesBelow clause.old.variables clauses.now }
    ensures line { IfOk result (λ _. line_with clause.new.clause chain.new.items
        ≡ resolved_with clauses.now (Some entry) (line_with clause.old.clause chain.old.items)) }
    ensures variables { IfOk result (λ _. clause.new.variables ≡ clause.old.variables) }
{
    if entry.is_decided() {
        return Ok(());
    }
    let number = entry.clause();
    clause.resolve(entry.literal(), clause_or_none(clauses, number as usize))?;
    chain.push(number)?;
    Ok(())
}

/// Walks back along the trail once, and resolves at each entry whose opposite the clause has, until
/// few enough literals of the current level are left.
fn analyse(
    clauses: &Clauses,
    assignment: &Assignment,
    keep: usize,
    clause: &mut MarkedClause,
    chain: &mut Vec<u32>,
) -> Result<(), AllocError>
    requires { ClausesBelow clause.old.variables clauses.now }
    ensures line { IfOk result (λ _. line_with clause.new.clause chain.new.items
        ≡ walk_back clauses.now assignment.now.trail keep assignment.now.trail
        (line_with clause.old.clause chain.old.items)) }
    ensures variables { IfOk result (λ _. clause.new.variables ≡ clause.old.variables) }
{
    for entry in assignment.entries().iter().rev() {
        if clause.has(entry.literal().opposite()) {
            if !has_more_current(assignment, clause.literals(), keep) {
                return Ok(());
            }
            resolve_with(clauses, *entry, clause, chain)?;
        }
    }
    Ok(())
}

/// How many literals of the current level a conflict's clause keeps.
fn kept_count(assignment: &Assignment) -> usize
    ensures { result ≡ kept_count assignment.now.trail }
{
    if assignment.level() == 0 { 0 } else { 1 }
}

/// The line that a conflict at a clause gives. The marked clause serves for the resolutions, and is
/// empty before and afterwards.
pub fn conflict_line(
    alloc: Global,
    clauses: &Clauses,
    assignment: &Assignment,
    clause: &mut MarkedClause,
    number: usize,
) -> Result<Line, AllocError>
    requires number { number < length clauses.now }
    requires fits { number < 2 ^ 32 }
    requires below { ClausesBelow clause.old.variables clauses.now }
    requires empty { clause.old.clause ≡ [] }
    requires conflict { IsAnalysable (state_at clauses.now assignment.now.trail) number }
    requires reached { IsReached clause.old.variables (state_at clauses.now assignment.now.trail) }
    ensures line { IfOk result (λ line. line_of line
        ≡ conflict_line (state_at clauses.now assignment.now.trail) number) }
    ensures same { IfOk result (λ _. clause.new ≡ clause.old) }
{
    clause.append(clauses.clause(number))?;
    let mut chain = Vec::new(alloc);
    chain.push(number as u32)?;
    analyse(
        clauses,
        assignment,
        kept_count(assignment),
        clause,
        &mut chain,
    )?;
    let literals = Vec::from_slice(alloc, clause.literals())?;
    clause.clear();
    Ok(Line {
        clause: literals,
        chain,
    })
}

/// The first literal of a clause that is of the current level.
pub fn first_current(assignment: &Assignment, clause: &[Lit]) -> Option<Lit>
    ensures { result ≡ find (is_current assignment.now.trail) clause.now }
{
    clause.iter().copied().find(|l| assignment.is_current(*l))
}

/// The highest level of a clause's literals that aren't of the current level, or 0.
pub fn back_level(assignment: &Assignment, clause: &[Lit]) -> usize
    ensures { result
        ≡ highest_level assignment.now.trail
        (filter (λ l. not (is_current assignment.now.trail l)) clause.now) }
{
    let mut highest = 0;
    for literal in clause {
        highest = raised_level(assignment, highest, *literal);
    }
    highest
}

/// The higher one of a level and that of a literal, unless the literal is of the current level.
fn raised_level(assignment: &Assignment, level: usize, literal: Lit) -> usize
    ensures { result
        ≡ (if is_current assignment.now.trail literal then level
        else max level (level_of assignment.now.trail literal)) }
{
    if assignment.is_current(literal) {
        level
    } else {
        level.max(assignment.level_of(literal))
    }
}
