//! The analysis of a conflict.

ghost use Rattle.std.specs.Prelude.{◌≡◌, ◌<◌, ◌≤◌, ◌^◌, ◌+◌, ℕ, [], ◌∷◌, ◌++◌, length, reverse};
ghost use Rattle.std.specs.Prelude.{take, map, IfOk, slice_index_or};
ghost use Rattle.std.specs.List.{filter};
ghost use Rattle.cqe_base.specs.Literal.{Literal, opposite, variable_of, has_literal};
ghost use Rattle.cqe_base.specs.Refutation.{resolvent};
ghost use Rattle.cqe_base.specs.Machine.{Assigned, level, kept_count, latest_against};
ghost use Rattle.cqe_base.specs.Machine.{resolved_with, analysis, resolved_line, conflict_line};
ghost use Rattle.clause_store.specs.PlainLines.{line_of};

use crate::entry::TrailEntry;
use crate::plain::trail::{current_count, level};
use clause_store::clauses::Clauses;
use clause_store::literal::{Lit, has_literal};
use clause_store::refutation::Line;
use clause_store::resolution::resolvent;
use std::alloc::{AllocError, Global};

/// The resolvent of a clause and the clause of this number, or no literal where there is none.
fn resolvent_with(
    alloc: Global,
    clauses: &Clauses,
    number: usize,
    variable: u32,
    clause: &[Lit],
) -> Result<Vec<Lit>, AllocError>
    ensures { IfOk result (λ r. r.items
        ≡ resolvent variable clause.now (slice_index_or clauses.now number [])) }
{
    if number < clauses.len() {
        return resolvent(alloc, variable, clause, clauses.clause(number));
    }
    resolvent(alloc, variable, clause, &[])
}

/// Resolves a line's clause with the clause of a number, which joins its chain.
fn resolve(
    alloc: Global,
    clauses: &Clauses,
    number: u32,
    literal: Lit,
    line: &mut Line,
) -> Result<(), AllocError>
    ensures { IfOk result (λ _. line_of line.new
        ≡ resolved_line clauses.now number literal (line_of line.old)) }
{
    let clause = resolvent_with(
        alloc,
        clauses,
        number as usize,
        literal.variable(),
        &line.clause,
    )?;
    line.clause = clause;
    line.chain.push(number)?;
    Ok(())
}

/// The latest literal of the trail whose opposite the clause has.
fn latest_against(trail: &[TrailEntry], clause: &[Lit]) -> Option<TrailEntry>
    ensures { result ≡ latest_against (reverse trail.now) clause.now }
{
    trail
        .iter()
        .rev()
        .copied()
        .find(|entry| has_literal(clause, entry.literal().opposite()))
}

/// Resolves a line's clause with the cause of a literal; a decision has none.
fn resolve_with(
    alloc: Global,
    clauses: &Clauses,
    latest: Option<TrailEntry>,
    line: &mut Line,
) -> Result<(), AllocError>
    ensures { IfOk result (λ _. line_of line.new
        ≡ resolved_with clauses.now latest (line_of line.old)) }
{
    let Some(entry) = latest else {
        return Ok(());
    };
    if entry.is_decided() {
        return Ok(());
    }
    resolve(alloc, clauses, entry.clause(), entry.literal(), line)
}

/// Resolves until few enough literals of the current level are left. Each resolution goes back
/// along the trail, so its length bounds their number.
fn analyse(
    alloc: Global,
    clauses: &Clauses,
    trail: &[TrailEntry],
    keep: usize,
    line: &mut Line,
) -> Result<(), AllocError>
    ensures { IfOk result (λ _. line_of line.new
        ≡ analysis clauses.now (reverse trail.now) keep (length trail.now) (line_of line.old)) }
{
    for times in 0..trail.len() {
        if current_count(trail, &line.clause) <= keep {
            return Ok(());
        }
        let latest = latest_against(trail, &line.clause);
        resolve_with(alloc, clauses, latest, line)?;
    }
    Ok(())
}

/// How many literals of the current level a conflict's clause keeps.
fn kept_count(trail: &[TrailEntry]) -> usize
    ensures { result ≡ kept_count (reverse trail.now) }
{
    if level(trail) == 0 { 0 } else { 1 }
}

/// The line that a conflict at a clause gives.
pub fn conflict_line(
    alloc: Global,
    clauses: &Clauses,
    trail: &[TrailEntry],
    number: usize,
) -> Result<Line, AllocError>
    requires number { number < length clauses.now }
    requires fits { number < 2 ^ 32 }
    ensures { IfOk result (λ line. line_of line ≡ conflict_line (record {
      clauses =
          clauses.now;
      trail = reverse trail.now;
      lines = [];
    }) number) }
{
    let clause = Vec::from_slice(alloc, clauses.clause(number))?;
    let mut chain = Vec::new(alloc);
    chain.push(number as u32)?;
    let mut line = Line { clause, chain };
    analyse(alloc, clauses, trail, kept_count(trail), &mut line)?;
    Ok(line)
}
