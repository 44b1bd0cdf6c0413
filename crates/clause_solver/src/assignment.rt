//! The trail with what is asked of it at hand: the truth of each literal, and the level and the
//! place of each variable.

ghost use Rattle.std.specs.Prelude.{◌≡◌, ◌<◌, ◌≤◌, ◌^◌, ◌+◌, ◌-◌, ◌*◌, ℕ, false, [], ◌∷◌};
ghost use Rattle.std.specs.Prelude.{length, take, slice_index_or};
ghost use Rattle.std.specs.Prelude.{reverse, IfOk, IfSome, IfNone, if◌then◌else◌};
ghost use Rattle.cqe_base.specs.Literal.{Positive, variable_of, same_literal};
ghost use Rattle.cqe_base.specs.Machine.{Assigned, assigned_literal, is_true, is_false, level};
ghost use Rattle.cqe_base.specs.Machine.{level_of, is_current, signs_of, first_unassigned};
ghost use Rattle.cqe_base.specs.KeptTrail.{place_against, latest_place};
ghost use Rattle.cqe_base.specs.MachineStates.{is_assigned, IsDistinct};
ghost use Rattle.clause_solver.specs.Entries.{is_decided};
ghost use Rattle.clause_solver.specs.Assigning.{place_of, IsFirstZero};
ghost use Rattle.clause_solver.specs.Watching.{is_open};

use crate::entry::TrailEntry;
use clause_store::codes::code;
use clause_store::literal::Lit;
use std::alloc::{AllocError, Global};
use std::marker::Model;

/// The trail, with its latest entry last.
#[derive(Drop)]
pub struct Assignment {
    variables: u32,
    trail: Vec<TrailEntry>,
    /// Whether each literal is true, by its code.
    truths: Vec<bool>,
    /// Whether each variable is true.
    signs: Vec<bool>,
    /// The level of each variable, 0 where it isn't assigned.
    levels: Vec<usize>,
    /// The place of each variable on the trail, counted from 1, and 0 where it isn't assigned.
    places: Vec<usize>,
    decisions: usize,
    /// Each variable below is assigned.
    next: u32,
}

impl Model for Assignment {
    ghost use Rattle.clause_solver.specs.Assigning.{Assigning};

    ghost Value = { Assigning };

    ghost use Rattle.clause_solver.specs.AssignmentFields.{assigning_inside, KeepsTrail};

    ghost view = { assigning_inside };

    ghost invariant = { KeepsTrail };
}

impl Assignment {
    /// Nothing is assigned. All memory is taken here.
    pub fn new(alloc: Global, variables: u32) -> Result<Assignment, AllocError>
        requires { variables < 2 ^ 31 }
        ensures { IfOk result (λ a. a ≡ record { variables = variables; trail = [] }) }
    {
        let size = variables as usize;
        Ok(Assignment {
            variables,
            trail: Vec::with_capacity(alloc, size)?,
            truths: vec![in alloc; false; 2 * size]?,
            signs: vec![in alloc; false; size]?,
            levels: vec![in alloc; 0; size]?,
            places: vec![in alloc; 0; size]?,
            decisions: 0,
            next: 0,
        })
    }

    /// How many variables there are.
    pub fn variables(&self) -> u32
        ensures { result ≡ self.now.variables }
    {
        self.variables
    }

    /// So many variables, below which those on the trail have to be.
    pub fn set_variables(&mut self, variables: u32) -> Result<(), AllocError>
        requires fits { variables < 2 ^ 31 }
        requires below { IsDistinct variables self.old.trail }
        ensures { IfOk result (λ _. self.new ≡ record self.old { variables = variables }) }
    {
        let size = variables as usize;
        grow(&mut self.truths, 2 * size, false)?;
        grow(&mut self.signs, size, false)?;
        grow(&mut self.levels, size, 0)?;
        grow(&mut self.places, size, 0)?;
        self.next = self.next.min(variables);
        self.variables = variables;
        Ok(())
    }

    /// The entries, with the latest one last.
    pub fn entries(&self) -> &[TrailEntry]
        ensures { reverse result.now ≡ self.now.trail }
    {
        self.trail.as_slice()
    }

    /// The current level.
    pub fn level(&self) -> usize
        ensures { result ≡ level self.now.trail }
    {
        self.decisions
    }

    /// Whether a literal of these variables is true.
    pub fn holds(&self, literal: Lit) -> bool
        requires { variable_of literal < self.now.variables }
        ensures { result ≡ is_true self.now.trail literal }
    {
        self.truths[code(literal)]
    }

    /// Whether a literal is true.
    pub fn is_true(&self, literal: Lit) -> bool
        ensures { result ≡ is_true self.now.trail literal }
    {
        literal.variable() < self.variables && self.holds(literal)
    }

    /// Whether a literal is false.
    pub fn is_false(&self, literal: Lit) -> bool
        ensures { result ≡ is_false self.now.trail literal }
    {
        self.is_true(literal.opposite())
    }

    /// Whether a literal isn't assigned.
    pub fn is_open(&self, literal: Lit) -> bool
        ensures { result ≡ is_open self.now.trail literal }
    {
        !self.is_true(literal) && !self.is_false(literal)
    }

    /// The level of a true or a false literal.
    pub fn level_of(&self, literal: Lit) -> usize
        ensures { result ≡ level_of self.now.trail literal }
    {
        let variable = literal.variable() as usize;
        if variable < self.levels.len() {
            self.levels[variable]
        } else {
            0
        }
    }

    /// Whether a literal is of the current level.
    pub fn is_current(&self, literal: Lit) -> bool
        ensures { result ≡ is_current self.now.trail literal }
    {
        self.level_of(literal) == self.level()
    }

    /// The place of a variable, or 0.
    fn place_of(&self, variable: u32) -> usize
        ensures { result ≡ place_of self.now.trail variable }
    {
        let at = variable as usize;
        if at < self.places.len() {
            self.places[at]
        } else {
            0
        }
    }

    /// How long the trail is up to and with the opposite of a literal, or 0.
    fn place_against(&self, literal: Lit) -> usize
        ensures { result ≡ place_against self.now.trail literal }
    {
        let _ = &self.variables;
        if self.is_false(literal) {
            self.place_of(literal.variable())
        } else {
            0
        }
    }

    /// How long the trail is up to and with the latest opposite of a clause's literals, or 0.
    pub fn latest_place(&self, clause: &[Lit]) -> usize
        ensures { result ≡ latest_place self.now.trail clause.now }
    {
        let mut latest = 0;
        for literal in clause {
            latest = latest.max(self.place_against(*literal));
        }
        latest
    }

    /// The signs of the variables, and behind them perhaps more.
    pub fn signs(&self) -> &[bool]
        ensures { take self.now.variables result.now
            ≡ signs_of self.now.trail self.now.variables }
    {
        self.signs.as_slice()
    }

    /// An entry joins the trail.
    pub fn push(&mut self, entry: TrailEntry) -> Result<(), AllocError>
        requires below { variable_of (assigned_literal entry) < self.old.variables }
        requires free { is_assigned self.old.trail (variable_of (assigned_literal entry)) ≡ false }
        ensures { IfOk result (λ _. self.new ≡ record self.old { trail = entry ∷ self.old.trail }) }
    {
        let literal = entry.literal();
        let variable = literal.variable() as usize;
        self.trail.push(entry)?;
        let size = self.trail.len();
        let decisions = level_with(self.decisions, entry);
        self.decisions = decisions;
        let sign = sign_of(literal);
        self.truths[code(literal)] = true;
        self.signs[variable] = sign;
        self.levels[variable] = decisions;
        self.places[variable] = size;
        Ok(())
    }

    /// The latest entry leaves the trail.
    pub fn pop(&mut self) -> Option<TrailEntry>
        ensures some { IfSome result (λ entry. self.old ≡ record self.new {
          trail =
              entry ∷ self.new.trail;
        }) }
        ensures none { IfNone result (self.old.trail ≡ []) }
    {
        let entry = self.trail.pop()?;
        let literal = entry.literal();
        let variable = literal.variable();
        self.decisions = level_without(self.decisions, entry);
        self.truths[code(literal)] = false;
        self.signs[variable as usize] = false;
        self.levels[variable as usize] = 0;
        self.places[variable as usize] = 0;
        self.next = self.next.min(variable);
        Some(entry)
    }

    /// The lowest variable that isn't assigned.
    pub fn first_unassigned(&mut self) -> Option<u32>
        ensures first { result ≡ first_unassigned self.old.trail self.old.variables }
        ensures below { IfSome result (λ v. v < self.old.variables) }
        ensures free { IfSome result (λ v. is_assigned self.old.trail v ≡ false) }
        ensures same { self.new ≡ self.old }
    {
        let found = first_zero(&self.places, self.next, self.variables);
        self.next = found.unwrap_or(self.variables);
        found
    }
}

/// Whether a literal isn't negated.
fn sign_of(literal: Lit) -> bool
    ensures { result ≡ same_literal (Positive (variable_of literal)) literal }
{
    Lit::positive(literal.variable()).is(literal)
}

/// The level with one more entry.
fn level_with(level: usize, entry: TrailEntry) -> usize
    requires { level + 1 < 2 ^ 64 }
    ensures { result ≡ (if is_decided entry then level + 1 else level) }
{
    if entry.is_decided() { level + 1 } else { level }
}

/// The level without its latest entry.
fn level_without(level: usize, entry: TrailEntry) -> usize
    ensures { result ≡ (if is_decided entry then level - 1 else level) }
{
    if entry.is_decided() {
        level.saturating_sub(1)
    } else {
        level
    }
}

/// At least so many elements, with this one behind those that were there.
fn grow<T: Copy>(elements: &mut Vec<T>, room: usize, element: T) -> Result<(), AllocError>
    ensures same { (i : ℕ) → slice_index_or elements.new.items i element
        ≡ slice_index_or elements.old.items i element }
    ensures more { length elements.old.items ≤ length elements.new.items }
    ensures room { IfOk result (λ _. room ≤ length elements.new.items) }
{
    if elements.len() < room {
        elements.resize(room, element)?;
    }
    Ok(())
}

/// The first variable with place 0.
fn first_zero(places: &[usize], start: u32, end: u32) -> Option<u32>
    requires { end ≤ length places.now }
    ensures { IsFirstZero places.now start end result }
{
    for variable in start..end {
        if places[variable as usize] == 0 {
            return Some(variable);
        }
    }
    None
}
