//! The state of the machine with what is kept of its clauses.

ghost use Rattle.std.specs.Prelude.{◌≡◌, ◌⊎◌, ◌<◌, ◌≤◌, ◌^◌, ◌+◌, ◌==◌, ℕ, true, false, [], ◌∷◌};
ghost use Rattle.std.specs.Prelude.{◌++◌, length, map, Some, None, IfOk, IfSome, IfNone, not};
ghost use Rattle.std.specs.Prelude.{if◌then◌else◌, take, drop, ◌-◌};
ghost use Rattle.std.specs.List.{position_from, list_all, find};
ghost use Rattle.std.specs.Option.{option_map};
ghost use Rattle.cqe_base.specs.Literal.{Literal, variable_of, ClauseBelow, ClausesBelow};
ghost use Rattle.cqe_base.specs.Machine.{Assigned, assigned_literal, is_true, is_false, level};
ghost use Rattle.cqe_base.specs.Machine.{first_unit, cut};
ghost use Rattle.cqe_base.specs.MachineStates.{is_assigned};
ghost use Rattle.clause_solver.specs.Watching.{IsWatched, AllFalseBut};
ghost use Rattle.clause_solver.specs.WatchesInside.{units_of};
ghost use Rattle.clause_solver.specs.IndexedStates.{plain_of, IsLookedAt, IsIndexed};
ghost use Rattle.clause_solver.specs.KeptStates.{IsKeptState};
ghost use Rattle.clause_solver.specs.Bases.{Base, StandsOn, KeepsBases};

use crate::assignment::Assignment;
use crate::entry::TrailEntry;
use crate::watches::{Watches, open_watched};
use clause_store::clauses::Clauses;
use clause_store::literal::Lit;
use clause_store::marked_clause::MarkedClause;
use clause_store::refutation::Line;
use std::alloc::{AllocError, Global};

/// The given and the learnt clauses, the trail, and the lines so far, with what is kept of them.
#[derive(Drop)]
pub struct Indexed {
    pub assignment: Assignment,
    pub clauses: Clauses,
    pub watches: Watches,
    pub lines: Vec<Line>,
    /// Where a conflict is analysed; it has no literal in between.
    pub resolvent: MarkedClause,
}

impl Indexed {
    /// So many variables, below which those of the clauses have to be.
    pub fn set_variables(&mut self, alloc: Global, variables: u32) -> Result<(), AllocError>
        requires variables { variables < 2 ^ 31 }
        requires below { ClausesBelow variables self.old.clauses }
        requires kept { IsKeptState self.old }
        ensures trail { IfOk result
            (λ _. self.new.assignment.trail ≡ self.old.assignment.trail) }
        ensures clauses { IfOk result (λ _. self.new.clauses ≡ self.old.clauses) }
        ensures variables { IfOk result (λ _. self.new.assignment.variables ≡ variables) }
        ensures kept { IfOk result (λ _. IsKeptState self.new) }
        ensures bases { IfOk result (λ _. KeepsBases self.old self.new) }
    {
        if self.assignment.variables() == variables {
            return Ok(());
        }
        self.assignment.set_variables(variables)?;
        self.watches.set_variables(alloc, variables)?;
        self.resolvent.set_variables(variables)?;
        Ok(())
    }

    /// One more clause, whose number is below 2^32, with the literals that it watches, and whether
    /// it may be unit.
    pub fn enter(
        &mut self,
        clause: &[Lit],
        first: Lit,
        second: Lit,
        unit: bool,
    ) -> Result<(), AllocError>
        requires below { ClauseBelow self.old.assignment.variables clause.now }
        requires room { length self.old.clauses < 2 ^ 32 }
        requires watched { IsWatched self.old.assignment.trail clause.now (record {
          first =
              first;
          second = second;
        }) unit (length clause.now == 0) }
        requires unit { unit ≡ true → AllFalseBut self.old.assignment.trail first clause.now }
        requires looked { IsLookedAt self.old }
        ensures plain { IfOk result (λ _. plain_of self.new ≡ record (plain_of self.old) {
          clauses =
              self.old.clauses ++ clause.now ∷ [];
        }) }
        ensures variables { self.new.assignment.variables ≡ self.old.assignment.variables }
        ensures looked { IfOk result (λ _. IsLookedAt self.new) }
        ensures bases { IfOk result (λ _. KeepsBases self.old self.new) }
    {
        self.clauses.push(clause)?;
        self.watches.enter(clause, first, second, unit)?;
        Ok(())
    }

    /// A literal joins the trail. Where that raises the level, no clause may be unit or falsified.
    pub fn assign(&mut self, entry: TrailEntry) -> Result<(), AllocError>
        requires below { variable_of (assigned_literal entry) < self.old.assignment.variables }
        requires free { is_assigned self.old.assignment.trail (variable_of (assigned_literal entry))
            ≡ false }
        requires steady { (level (entry ∷ self.old.assignment.trail)
            ≡ level self.old.assignment.trail)
            ⊎ ((units_of self.old.watches ≡ []) × (self.old.watches.falsified ≡ None)) }
        requires looked { IsLookedAt self.old }
        ensures plain { IfOk result (λ _. plain_of self.new ≡ record (plain_of self.old) {
          trail =
              entry ∷ self.old.assignment.trail;
        }) }
        ensures variables { IfOk result
            (λ _. self.new.assignment.variables ≡ self.old.assignment.variables) }
        ensures looked { IfOk result (λ _. IsLookedAt self.new) }
        ensures bases { IfOk result (λ _. KeepsBases self.old self.new) }
    {
        let literal = entry.literal();
        self.assignment.push(entry)?;
        self.watches
            .visit_all(&self.assignment, literal.opposite())?;
        Ok(())
    }

    /// Cuts the trail to a lower level.
    pub fn cut(&mut self, k: usize)
        requires lower { k < level self.old.assignment.trail }
        requires looked { IsLookedAt self.old }
        ensures plain { plain_of self.new ≡ record (plain_of self.old) {
          trail =
              cut k self.old.assignment.trail;
        } }
        ensures variables { self.new.assignment.variables ≡ self.old.assignment.variables }
        ensures looked { IsLookedAt self.new }
        ensures bases { KeepsBases self.old self.new }
    {
        while self.assignment.level() > k {
            let _entry = self.assignment.pop();
        }
        self.watches.clear();
    }

    /// Goes back to the first clauses and the oldest entries of the trail, so many of each, on
    /// which the state has to stand. No memory is taken.
    pub fn go_back(&mut self, clauses: usize, entries: usize)
        requires clauses { clauses ≤ length self.old.clauses }
        requires looked { IsLookedAt self.old }
        ensures clauses { self.new.clauses ≡ take clauses self.old.clauses }
        ensures trail { self.new.assignment.trail
            ≡ drop (length self.old.assignment.trail - entries) self.old.assignment.trail }
        ensures variables { self.new.assignment.variables ≡ self.old.assignment.variables }
        ensures lines { self.new.lines.items ≡ [] }
        ensures looked { (b : Base) → length b.clauses ≡ clauses → length b.trail ≡ entries
            → StandsOn b self.old → IsLookedAt self.new }
        ensures units { units_of self.new.watches ≡ [] }
        ensures falsified { self.new.watches.falsified ≡ None }
    {
        while self.assignment.entries().len() > entries {
            let _entry = self.assignment.pop();
        }
        self.clauses.truncate(clauses);
        self.watches.go_back(clauses);
        self.lines.clear();
    }

    /// The first clause with only false literals.
    pub fn first_conflict(&self) -> Option<usize>
        requires { IsIndexed self.now }
        ensures first { result
            ≡ position_from (list_all (is_false self.now.assignment.trail)) 0 self.now.clauses }
        ensures number { IfSome result (λ i. i < length self.now.clauses) }
        ensures none { IfNone result (self.now.watches.falsified ≡ None) }
    {
        // A match: its two cases have an answer each, and with `map` the clause `first` doesn't
        // prove alone.
        match self.watches.falsified {
            Some(number) => Some(number as usize),
            None => None,
        }
    }

    /// The first clause with no true literal and one that isn't false, with that literal, where no
    /// clause is falsified.
    pub fn first_unit(&mut self) -> Option<(usize, Lit)>
        requires none { self.old.watches.falsified ≡ None }
        requires indexed { IsIndexed self.old }
        ensures first { option_map (λ u. (u.0, u.1)) result
            ≡ first_unit self.old.assignment.trail 0 self.old.clauses }
        ensures number { IfSome result (λ u. u.0 < length self.old.clauses) }
        ensures below { IfSome result (λ u. variable_of u.1 < self.old.assignment.variables) }
        ensures free { IfSome result
            (λ u. is_assigned self.old.assignment.trail (variable_of u.1) ≡ false) }
        ensures assignment { self.new.assignment ≡ self.old.assignment }
        ensures clauses { self.new.clauses ≡ self.old.clauses }
        ensures lines { self.new.lines ≡ self.old.lines }
        ensures indexed { IsIndexed self.new }
        ensures falsified { self.new.watches.falsified ≡ None }
        ensures none { IfNone result (units_of self.new.watches ≡ []) }
        ensures bases { KeepsBases self.old self.new }
    {
        while let Some(least) = self.watches.least_unit() {
            let number = least as usize;
            if let Some(literal) = open_watched(&self.assignment, &self.watches.pairs[number]) {
                return Some((number, literal));
            }
            self.watches.drop_unit();
        }
        None
    }
}
