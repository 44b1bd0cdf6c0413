//! The first clause that a kept trail falsifies.

ghost use Rattle.std.specs.Prelude.{◌≡◌, ◌≤◌, ◌+◌, ℕ, List, [], length, slice_index_or};
ghost use Rattle.std.specs.List.{list_all};
ghost use Rattle.cqe_base.specs.Literal.{Literal};
ghost use Rattle.cqe_base.specs.Machine.{Assigned, is_false};
ghost use Rattle.clause_solver.specs.KeptStates.{IsFirstOfFalsified, sooner};

use crate::assignment::Assignment;
use clause_store::clauses::Clauses;
use clause_store::literal::Lit;

/// A clause with only false literals, by its number, and how long the trail is up to and with the
/// latest of their opposites.
#[derive(Clone, Copy)]
pub struct Falsified {
    pub place: usize,
    pub number: usize,
}

/// Whether all literals of a clause are false.
fn is_falsified(assignment: &Assignment, clause: &[Lit]) -> bool
    ensures { result ≡ list_all (is_false assignment.now.trail) clause.now }
{
    clause.iter().all(|l| assignment.is_false(*l))
}

/// The first one, with one more clause behind those that were looked at.
fn with_clause(
    assignment: &Assignment,
    first: Option<Falsified>,
    clause: &[Lit],
    number: usize,
) -> Option<Falsified>
    ensures { (clauses : List (List Literal)) (start : ℕ)
        → slice_index_or clauses number [] ≡ clause.now
        → start ≤ number
        → IsFirstOfFalsified clauses assignment.now.trail start number first
        → IsFirstOfFalsified clauses assignment.now.trail start (number + 1) result }
{
    if !is_falsified(assignment, clause) {
        return first;
    }
    let place = assignment.latest_place(clause);
    sooner(first, Falsified { place, number })
}

/// The first of two, where the second one has the higher number.
fn sooner(first: Option<Falsified>, second: Falsified) -> Option<Falsified>
    ensures { result ≡ sooner first second }
{
    match first {
        Some(before) => {
            if before.place <= second.place {
                first
            } else {
                Some(second)
            }
        }
        None => Some(second),
    }
}

/// The first falsified one of the clauses from a number on.
pub fn first_falsified(
    assignment: &Assignment,
    clauses: &Clauses,
    start: usize,
) -> Option<Falsified>
    requires { start ≤ length clauses.now }
    ensures { IsFirstOfFalsified clauses.now assignment.now.trail start (length clauses.now)
        result }
{
    let mut first = None;
    for number in start..clauses.len() {
        first = with_clause(assignment, first, clauses.clause(number), number);
    }
    first
}
