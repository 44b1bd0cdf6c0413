//! What a search asks of its clauses, as a test.

ghost use Rattle.std.specs.Prelude.{◌≡◌, ◌<◌, ◌^◌, ◌+◌, ◌↔◌, IsTrue, length};
ghost use Rattle.cqe_base.specs.Literal.{Literal, ClauseBelow, ClausesBelow, HasNoRepeat};
ghost use Rattle.cqe_base.specs.Literal.{HaveNoRepeat};

use clause_store::clauses::Clauses;
use clause_store::literal::{Lit, has_literal};

/// Whether the variables of a clause are below a number.
fn is_below(clause: &[Lit], variables: u32) -> bool
    ensures { IsTrue result ↔ ClauseBelow variables clause.now }
{
    for literal in clause {
        if literal.variable() >= variables {
            return false;
        }
    }
    true
}

/// Whether a clause has no literal twice.
fn has_no_repeat(clause: &[Lit]) -> bool
    ensures { IsTrue result ↔ HasNoRepeat clause.now }
{
    for i in 0..clause.len() {
        if has_literal(&clause[i + 1..], clause[i]) {
            return false;
        }
    }
    true
}

/// Whether each clause is so.
fn are_searchable(clauses: &Clauses, variables: u32) -> bool
    ensures below { IsTrue result → ClausesBelow variables clauses.now }
    ensures no_repeat { IsTrue result → HaveNoRepeat clauses.now }
    ensures searchable { ClausesBelow variables clauses.now → HaveNoRepeat clauses.now
        → IsTrue result }
{
    for number in 0..clauses.len() {
        let clause = clauses.clause(number);
        if !is_below(clause, variables) || !has_no_repeat(clause) {
            return false;
        }
    }
    true
}

/// Whether the machine may be run on the clauses: their variables are below the number, no clause
/// has a literal twice, and the clauses that are learnt within the budget have numbers of 32 bits.
pub fn is_searchable(clauses: &Clauses, variables: u32, budget: u64) -> bool
    ensures variables { IsTrue result → variables < 2 ^ 31 }
    ensures below { IsTrue result → ClausesBelow variables clauses.now }
    ensures no_repeat { IsTrue result → HaveNoRepeat clauses.now }
    ensures room { IsTrue result → length clauses.now + budget < 2 ^ 32 }
    // And nothing else is asked.
    ensures searchable { variables < 2 ^ 31 → ClausesBelow variables clauses.now
        → HaveNoRepeat clauses.now → length clauses.now + budget < 2 ^ 32 → IsTrue result }
{
    let most = 1 << 32;
    variables < 1 << 31
        && budget < most
        && (clauses.len() as u64) < most - budget
        && are_searchable(clauses, variables)
}
