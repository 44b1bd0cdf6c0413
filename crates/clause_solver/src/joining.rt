//! Clauses that join those of a state under its trail, where nothing was decided.

ghost use Rattle.std.specs.Prelude.{◌≡◌, ◌<◌, ◌^◌, ◌==◌, ◌∷◌, ◌++◌, [], true, false, not, length};
ghost use Rattle.std.specs.Prelude.{None, IfOk};
ghost use Rattle.std.specs.List.{find, list_all};
ghost use Rattle.cqe_base.specs.Literal.{Literal, same_literal, has_literal, ClauseBelow};
ghost use Rattle.cqe_base.specs.Literal.{ClausesBelow, HasNoRepeat, HaveNoRepeat};
ghost use Rattle.cqe_base.specs.Machine.{is_false, level};
ghost use Rattle.clause_solver.specs.Beginnings.{IsBeginning};
ghost use Rattle.clause_solver.specs.Watching.{IsWatched, AllFalseBut};
ghost use Rattle.clause_solver.specs.IndexedStates.{plain_of, IsLookedAt};
ghost use Rattle.clause_solver.specs.KeptStates.{IsKeptState, IsFirstOfFalsified};
ghost use Rattle.clause_solver.specs.Bases.{KeepsBases};

use crate::assignment::Assignment;
use crate::indexed::Indexed;
use crate::watches::other_open;
use clause_store::clauses::Clauses;
use clause_store::literal::Lit;
use std::alloc::AllocError;

/// The first literal that isn't false.
fn first_open(assignment: &Assignment, clause: &[Lit]) -> Option<Lit>
    ensures { result ≡ find (λ l. not (is_false assignment.now.trail l)) clause.now }
{
    clause.iter().copied().find(|l| !assignment.is_false(*l))
}

/// The first literal beside this one.
fn first_beside(clause: &[Lit], literal: Lit) -> Option<Lit>
    ensures { result ≡ find (λ l. not (same_literal l literal)) clause.now }
{
    clause.iter().copied().find(|l| !l.is(literal))
}

/// A literal that a clause watches beside one that isn't false, and whether the clause is unit.
fn second_watched(assignment: &Assignment, clause: &[Lit], first: Lit) -> (Lit, bool)
    requires level { level assignment.now.trail ≡ 0 }
    requires below { ClauseBelow assignment.now.variables clause.now }
    requires no_repeat { HasNoRepeat clause.now }
    requires has { has_literal clause.now first ≡ true }
    requires free { is_false assignment.now.trail first ≡ false }
    ensures watched { IsWatched assignment.now.trail clause.now (record {
      first =
          first;
      second = result.0;
    }) result.1 (length clause.now == 0) }
    ensures unit { result.1 ≡ true → AllFalseBut assignment.now.trail first clause.now }
{
    match other_open(assignment, clause, first) {
        Some(second) => (second, false),
        None => (
            first_beside(clause, first).unwrap_or(first),
            !assignment.is_true(first),
        ),
    }
}

/// A clause that isn't falsified joins those of a state.
fn enter_under(state: &mut Indexed, clause: &[Lit]) -> Result<(), AllocError>
    requires level { level state.old.assignment.trail ≡ 0 }
    requires below { ClauseBelow state.old.assignment.variables clause.now }
    requires no_repeat { HasNoRepeat clause.now }
    requires free { list_all (is_false state.old.assignment.trail) clause.now ≡ false }
    requires room { length state.old.clauses < 2 ^ 32 }
    requires looked { IsLookedAt state.old }
    ensures plain { IfOk result (λ _. plain_of state.new ≡ record (plain_of state.old) {
      clauses =
          state.old.clauses ++ clause.now ∷ [];
    }) }
    ensures variables { state.new.assignment.variables ≡ state.old.assignment.variables }
    ensures looked { IfOk result (λ _. IsLookedAt state.new) }
    ensures bases { IfOk result (λ _. KeepsBases state.old state.new) }
{
    let Some(first) = first_open(&state.assignment, clause) else {
        return Ok(());
    };
    let (second, unit) = second_watched(&state.assignment, clause, first);
    state.enter(clause, first, second, unit)?;
    Ok(())
}

/// The clauses of a list that begins with those of a state join them, where none of them is
/// falsified.
pub fn enter_all(state: &mut Indexed, clauses: &Clauses) -> Result<(), AllocError>
    requires begins { IsBeginning state.old.clauses clauses.now }
    requires below { ClausesBelow state.old.assignment.variables clauses.now }
    requires no_repeat { HaveNoRepeat clauses.now }
    requires room { length clauses.now < 2 ^ 32 }
    requires none_falsified { IsFirstOfFalsified clauses.now state.old.assignment.trail
        (length state.old.clauses) (length clauses.now) None }
    requires kept { IsKeptState state.old }
    ensures clauses { IfOk result (λ _. state.new.clauses ≡ clauses.now) }
    ensures trail { IfOk result
        (λ _. state.new.assignment.trail ≡ state.old.assignment.trail) }
    ensures variables { IfOk result
        (λ _. state.new.assignment.variables ≡ state.old.assignment.variables) }
    ensures kept { IfOk result (λ _. IsKeptState state.new) }
    ensures bases { IfOk result (λ _. KeepsBases state.old state.new) }
{
    for number in state.clauses.len()..clauses.len() {
        enter_under(state, clauses.clause(number))?;
    }
    Ok(())
}
