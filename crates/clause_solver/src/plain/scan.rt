//! Where the rules apply: scans of the clauses and of the variables.

ghost use Rattle.std.specs.Prelude.{◌≡◌, ◌<◌, ◌≤◌, ◌^◌, ◌+◌, ℕ, [], ◌∷◌, ◌++◌, length, reverse};
ghost use Rattle.std.specs.Prelude.{IfOk, IfSome, not, ◌&&◌};
ghost use Rattle.std.specs.List.{list_all, position_from};
ghost use Rattle.std.specs.Option.{option_map};
ghost use Rattle.cqe_base.specs.Literal.{Literal, Positive, Negative};
ghost use Rattle.cqe_base.specs.Machine.{is_true, is_false, first_unit, first_unassigned, signs_of};

use crate::entry::TrailEntry;
use crate::plain::trail::{is_falsified, is_true, unit_literal};
use clause_store::clauses::Clauses;
use clause_store::literal::Lit;
use std::alloc::{AllocError, Global};

/// The first clause with only false literals.
pub fn first_conflict(clauses: &Clauses, trail: &[TrailEntry]) -> Option<usize>
    ensures first { result ≡ position_from (list_all (is_false (reverse trail.now))) 0 clauses.now }
    ensures number { IfSome result (λ i. i < length clauses.now) }
{
    for i in 0..clauses.len() {
        if is_falsified(trail, clauses.clause(i)) {
            return Some(i);
        }
    }
    None
}

/// The first clause with no true literal and one that isn't false, with that literal.
pub fn first_unit(
    alloc: Global,
    clauses: &Clauses,
    trail: &[TrailEntry],
) -> Result<Option<(usize, Lit)>, AllocError>
    ensures first { IfOk result (λ r. option_map (λ u. (u.0, u.1)) r
        ≡ first_unit (reverse trail.now) 0 clauses.now) }
    ensures number { IfOk result (λ r. IfSome r (λ u. u.0 < length clauses.now)) }
{
    for i in 0..clauses.len() {
        if let Some(l) = unit_literal(alloc, trail, clauses.clause(i))? {
            return Ok(Some((i, l)));
        }
    }
    Ok(None)
}

/// Whether a variable has no sign yet.
fn is_unassigned(trail: &[TrailEntry], variable: u32) -> bool
    requires { variable + 1 < 2 ^ 31 }
    ensures { result
        ≡ (not (is_true (reverse trail.now) (Positive variable))
        && not (is_true (reverse trail.now) (Negative variable))) }
{
    !is_true(trail, Lit::positive(variable)) && !is_true(trail, Lit::negative(variable))
}

/// The lowest variable that isn't assigned.
#[tactic(auto, using(crate::proofs::Trails::range_more))]
pub fn first_unassigned(trail: &[TrailEntry], variables: u32) -> Option<u32>
    requires { variables < 2 ^ 31 }
    ensures first { result ≡ first_unassigned (reverse trail.now) variables }
    ensures below { IfSome result (λ v. v < variables) }
{
    for v in 0..variables {
        if is_unassigned(trail, v) {
            return Some(v);
        }
    }
    None
}

/// The signs of the variables.
#[tactic(auto, using(crate::proofs::Trails::range_more))]
pub fn signs_of(
    alloc: Global,
    trail: &[TrailEntry],
    variables: u32,
) -> Result<Vec<bool>, AllocError>
    requires { variables < 2 ^ 31 }
    ensures { IfOk result (λ signs. signs.items ≡ signs_of (reverse trail.now) variables) }
{
    let mut signs = Vec::new(alloc);
    for v in 0..variables {
        signs.push(is_true(trail, Lit::positive(v)))?;
    }
    Ok(signs)
}
