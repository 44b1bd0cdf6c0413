//! The trail, its levels, and the truth of literals on it. A trail is a slice with its latest entry
//! last.

ghost use Rattle.std.specs.Prelude.{◌≡◌, ◌<◌, ◌≤◌, ◌^◌, ◌+◌, IsTrue, ℕ, [], ◌∷◌, ◌++◌, length};
ghost use Rattle.std.specs.Prelude.{reverse, IfOk, OnErr, List, false, not};
ghost use Rattle.std.specs.List.{list_all, find, filter};
ghost use Rattle.cqe_base.specs.Literal.{Literal, Positive, Negative, variable_of, opposite};
ghost use Rattle.cqe_base.specs.Machine.{Assigned, Decided, Because, assigned_literal, is_true};
ghost use Rattle.cqe_base.specs.Machine.{is_false, level, level_of, is_current, highest_level};
ghost use Rattle.cqe_base.specs.Machine.{unit_literal, cut, current_count};
ghost use Rattle.clause_solver.specs.Entries.{is_decided};

use crate::entry::TrailEntry;
use clause_store::literal::Lit;
use std::alloc::{AllocError, Global};

/// Whether a literal is true.
pub fn is_true(trail: &[TrailEntry], literal: Lit) -> bool
    ensures { result ≡ is_true (reverse trail.now) literal }
{
    trail.iter().rev().any(|e| literal.is(e.literal()))
}

/// Whether a literal is false.
pub fn is_false(trail: &[TrailEntry], literal: Lit) -> bool
    ensures { result ≡ is_false (reverse trail.now) literal }
{
    is_true(trail, literal.opposite())
}

/// The current level.
pub fn level(trail: &[TrailEntry]) -> usize
    ensures { result ≡ level (reverse trail.now) }
{
    let mut decisions = 0;
    for e in trail {
        if e.is_decided() {
            decisions += 1;
        }
    }
    decisions
}

/// The level of a true or a false literal.
pub fn level_of(trail: &[TrailEntry], literal: Lit) -> usize
    ensures { result ≡ level_of (reverse trail.now) literal }
{
    let mut decisions = 0;
    let mut found = 0;
    for e in trail {
        if e.is_decided() {
            decisions += 1;
        }
        if literal.variable() == e.literal().variable() {
            found = decisions;
        }
    }
    found
}

/// Whether a literal is of the current level.
pub fn is_current(trail: &[TrailEntry], literal: Lit) -> bool
    ensures { result ≡ is_current (reverse trail.now) literal }
{
    level_of(trail, literal) == level(trail)
}

/// How many literals of a clause are of the current level.
pub fn current_count(trail: &[TrailEntry], clause: &[Lit]) -> usize
    ensures { result ≡ current_count (reverse trail.now) clause.now }
{
    clause.iter().filter(|l| is_current(trail, **l)).count()
}

/// Whether every literal of a clause is false.
pub fn is_falsified(trail: &[TrailEntry], clause: &[Lit]) -> bool
    ensures { result ≡ list_all (is_false (reverse trail.now)) clause.now }
{
    clause.iter().all(|l| is_false(trail, *l))
}

/// The highest level of some literals, or 0.
pub fn highest_level(trail: &[TrailEntry], literals: &[Lit]) -> usize
    ensures { result ≡ highest_level (reverse trail.now) literals.now }
{
    let mut highest = 0;
    for l in literals {
        highest = highest.max(level_of(trail, *l));
    }
    highest
}

/// The first literal of a clause that is of the current level.
pub fn first_current(trail: &[TrailEntry], clause: &[Lit]) -> Option<Lit>
    ensures { result ≡ find (is_current (reverse trail.now)) clause.now }
{
    clause.iter().copied().find(|l| is_current(trail, *l))
}

/// The literals of a clause that aren't of the current level.
pub fn others(alloc: Global, trail: &[TrailEntry], clause: &[Lit]) -> Result<Vec<Lit>, AllocError>
    ensures { IfOk result (λ r. r.items
        ≡ filter (λ l. not (is_current (reverse trail.now) l)) clause.now) }
{
    clause
        .iter()
        .copied()
        .filter(|l| !is_current(trail, *l))
        .collect(alloc)
}

/// The literal that isn't false, where it is the only one and the clause has no true literal.
pub fn unit_literal(
    alloc: Global,
    trail: &[TrailEntry],
    clause: &[Lit],
) -> Result<Option<Lit>, AllocError>
    ensures { IfOk result (λ r. r ≡ unit_literal (reverse trail.now) clause.now) }
{
    let open: Vec<Lit> = clause
        .iter()
        .copied()
        .filter(|l| !is_false(trail, *l))
        .collect(alloc)?;
    match open.as_slice() {
        [l] => {
            if is_true(trail, *l) {
                return Ok(None);
            }
            Ok(Some(*l))
        }
        _ => Ok(None),
    }
}

/// Cuts the trail to a level.
pub fn cut(trail: &mut Vec<TrailEntry>, k: usize)
    ensures { reverse trail.new.items ≡ cut k (reverse trail.old.items) }
{
    while level(trail) > k {
        trail.pop();
    }
}
