//! Two watched literals of each clause, and the clauses that became unit or falsified since the
//! last decision.

ghost use Rattle.std.specs.List.{find};
ghost use Rattle.std.specs.List.Sorted.{IsPermutation};
ghost use Rattle.cqe_base.specs.Literal.{Literal, variable_of, same_literal, ClauseBelow};
ghost use Rattle.cqe_base.specs.Literal.{ClausesBelow};
ghost use Rattle.cqe_base.specs.Machine.{Assigned, is_false, level, level_of};
ghost use Rattle.clause_store.specs.Codes.{code_of};
ghost use Rattle.clause_solver.specs.Watching.{IsWatching, IsWatched, HaveSameLiterals};
ghost use Rattle.clause_solver.specs.Watching.{WatchesBeside, kept_with, no_pair, lowest};
ghost use Rattle.clause_solver.specs.Watching.{is_caught, has_number, IsLeast, DropsLeast};
ghost use Rattle.clause_solver.specs.Watching.{IsOpenOf, AreClosed, AllFalseBut, one_if};
ghost use Rattle.clause_solver.specs.Watching.{times_later, times_watched, times_watched_by};
ghost use Rattle.clause_solver.specs.Watching.{IsLater, LosesLater, HaveLeft};
ghost use Rattle.clause_solver.specs.WatchesInside.{AreWatches, lists_of, units_of};
ghost use Rattle.clause_solver.specs.WatchesInside.{AreWatchedUnder, KeepsWatched};
ghost use Rattle.std.specs.Prelude.{true, false, not, ◌&&◌, ◌||◌, ◌==◌, List, None, map, replicate};
ghost use Rattle.std.specs.Prelude.{take, drop, slice_set, slice_index_or, ◌≡◌, ℕ, ◌<◌, ◌≤◌, ◌+◌};
ghost use Rattle.std.specs.Prelude.{◌*◌, ◌^◌, [], ◌∷◌, ◌++◌, length, IfOk, IfSome, IfNone};

use crate::assignment::Assignment;
use crate::min_heap::MinHeap;
use clause_store::clauses::Clauses;
use clause_store::codes::code;
use clause_store::literal::Lit;
use std::alloc::{AllocError, Global};
use std::mem;

/// The two literals of a clause that are watched, twice the same where it has only one.
#[derive(Clone, Copy)]
pub struct Pair {
    pub first: Lit,
    pub second: Lit,
}

/// A clause that watches a literal, and one of its literals that is looked at first.
#[derive(Clone, Copy)]
pub struct Watch {
    pub clause: u32,
    pub blocker: Lit,
}

/// What is kept of the clauses.
#[derive(Drop)]
pub struct Watches {
    /// For each literal's code the clauses that watch it.
    pub lists: Vec<Vec<Watch>>,
    /// The watched literals of each clause.
    pub pairs: Vec<Pair>,
    /// The clauses with the literals of the lowest variables first, which are the least likely to
    /// change.
    pub sorted: Clauses,
    /// Where a clause is sorted.
    pub sorting: Vec<Lit>,
    /// The numbers of clauses. Each unit clause is among them; others have a true literal since.
    pub units: MinHeap,
    /// The least falsified clause.
    pub falsified: Option<u32>,
}

/// The first literal that isn't false and isn't this one.
pub fn other_open(assignment: &Assignment, clause: &[Lit], literal: Lit) -> Option<Lit>
    requires { ClauseBelow assignment.now.variables clause.now }
    ensures { result
        ≡ find (λ l. not (is_false assignment.now.trail l)
        && not (same_literal l literal)) clause.now }
{
    for other in clause {
        if !assignment.holds(other.opposite()) && !other.is(literal) {
            return Some(*other);
        }
    }
    None
}

impl Watches {
    /// No clause.
    pub fn new(alloc: Global, variables: u32) -> Result<Watches, AllocError>
        requires { variables < 2 ^ 31 }
        ensures watches { IfOk result (λ w. AreWatches variables [] w) }
        ensures none { IfOk result (λ w. w.sorted ≡ []) }
    {
        Ok(Watches {
            lists: empty_lists(alloc, variables)?,
            pairs: Vec::new(alloc),
            sorted: Clauses::new(alloc),
            sorting: Vec::new(alloc),
            units: MinHeap::new(alloc),
            falsified: None,
        })
    }

    /// So many variables, below which those of the clauses have to be.
    pub fn set_variables(&mut self, alloc: Global, variables: u32) -> Result<(), AllocError>
        requires { variables < 2 ^ 31 }
        ensures watches { IfOk result (λ _. (n : ℕ) (t : List Assigned) → AreWatches n t self.old
            → ClausesBelow variables self.old.sorted → AreWatches variables t self.new) }
        ensures pairs { self.new.pairs ≡ self.old.pairs }
        ensures sorted { self.new.sorted ≡ self.old.sorted }
        ensures units { self.new.units ≡ self.old.units }
        ensures falsified { self.new.falsified ≡ self.old.falsified }
    {
        resize_lists(alloc, &mut self.lists, 2 * variables as usize)?;
        Ok(())
    }

    /// One more clause, with the literals that it watches, and whether it may be unit.
    pub fn enter(
        &mut self,
        clause: &[Lit],
        first: Lit,
        second: Lit,
        unit: bool,
    ) -> Result<(), AllocError>
        requires first { 0 < length clause.now → code_of first < length self.old.lists.items }
        requires second { 0 < length clause.now → code_of second < length self.old.lists.items }
        requires room { length self.old.pairs.items < 2 ^ 32 }
        ensures watches { IfOk result (λ _. (n : ℕ) (t : List Assigned) → AreWatches n t self.old
            → ClauseBelow n clause.now
            → IsWatched t clause.now (record { first = first; second = second }) unit
            (length clause.now == 0)
            → (unit ≡ true → AllFalseBut t first clause.now) → AreWatches n t self.new) }
        ensures sorted { IfOk result (λ _. (cs : List (List Literal))
            → HaveSameLiterals cs self.old.sorted
            → HaveSameLiterals (cs ++ clause.now ∷ []) self.new.sorted) }
        ensures kept { IfOk result (λ _. (t : List Assigned) (count : ℕ)
            → length self.old.pairs.items ≡ length self.old.sorted
            → AreWatchedUnder t count self.old → AreWatchedUnder t count self.new) }
    {
        let number = self.pairs.len() as u32;
        sort_clause(&mut self.sorting, clause)?;
        let _number = self.sorted.push(&self.sorting)?;
        self.pairs.push(Pair { first, second })?;
        if clause.is_empty() {
            lower(&mut self.falsified, number);
            return Ok(());
        }
        self.add_unit(number, unit)?;
        self.watch(first, number, second)?;
        self.watch(second, number, first)?;
        Ok(())
    }

    /// A clause may be unit, where this is so.
    fn add_unit(&mut self, clause: u32, unit: bool) -> Result<(), AllocError>
        ensures units { IfOk result (λ _. (i : ℕ)
            → has_number (units_of self.new) i
            ≡ (has_number (units_of self.old) i || (unit && (clause == i)))) }
        ensures lists { self.new.lists ≡ self.old.lists }
        ensures pairs { self.new.pairs ≡ self.old.pairs }
        ensures sorted { self.new.sorted ≡ self.old.sorted }
        ensures falsified { self.new.falsified ≡ self.old.falsified }
    {
        if !unit {
            return Ok(());
        }
        self.units.push(clause)?;
        Ok(())
    }

    /// A clause watches a literal.
    fn watch(&mut self, literal: Lit, clause: u32, blocker: Lit) -> Result<(), AllocError>
        requires { code_of literal < length self.old.lists.items }
        ensures lists { IfOk result (λ _. lists_of self.new
            ≡ slice_set (lists_of self.old) (code_of literal)
            (slice_index_or (lists_of self.old) (code_of literal) []
            ++ record { clause = clause; blocker = blocker } ∷ [])) }
        ensures room { length self.new.lists.items ≡ length self.old.lists.items }
        ensures pairs { self.new.pairs ≡ self.old.pairs }
        ensures sorted { self.new.sorted ≡ self.old.sorted }
        ensures units { self.new.units ≡ self.old.units }
        ensures falsified { self.new.falsified ≡ self.old.falsified }
    {
        self.lists[code(literal)].push(Watch { clause, blocker })?;
        Ok(())
    }

    /// Looks at the clauses that watch a literal, which has become false.
    pub fn visit_all(&mut self, assignment: &Assignment, literal: Lit) -> Result<(), AllocError>
        requires below { variable_of literal < assignment.now.variables }
        requires false_now { is_false assignment.now.trail literal ≡ true }
        requires current { level_of assignment.now.trail literal ≡ level assignment.now.trail }
        requires watching { IsWatching assignment.now.variables assignment.now.trail self.old.sorted
            (lists_of self.old) self.old.pairs.items (units_of self.old) self.old.falsified literal
            (slice_index_or (lists_of self.old) (code_of literal) []) }
        ensures watches { IfOk result (λ _.
            AreWatches assignment.now.variables assignment.now.trail self.new) }
        ensures kept { IfOk result (λ _. KeepsWatched assignment.now.trail self.old self.new) }
        ensures sorted { self.new.sorted ≡ self.old.sorted }
    {
        let mut list = mem::try_take(&mut self.lists[code(literal)])?;
        let mut kept = 0;
        for i in 0..list.len() {
            let clause = list[i].clause;
            let blocker = self.visit(assignment, literal, clause, list[i].blocker)?;
            kept = keep(&mut list, kept, clause, blocker);
        }
        list.truncate(kept);
        self.lists[code(literal)] = list;
        Ok(())
    }

    /// Looks at a clause in the list of a literal that is false. Where it goes on watching that, it
    /// answers a literal to be looked at first.
    fn visit(
        &mut self,
        assignment: &Assignment,
        literal: Lit,
        clause: u32,
        blocker: Lit,
    ) -> Result<Option<Lit>, AllocError>
        requires false_now { is_false assignment.now.trail literal ≡ true }
        requires current { level_of assignment.now.trail literal ≡ level assignment.now.trail }
        requires listed { code_of literal < length self.old.lists.items }
        requires within { clause < length self.old.sorted }
        requires blocker { variable_of blocker < assignment.now.variables }
        requires lists_room { length self.old.lists.items ≡ 2 * assignment.now.variables }
        requires pairs_room { length self.old.pairs.items ≡ length self.old.sorted }
        requires below { ClausesBelow assignment.now.variables self.old.sorted }
        ensures watching { IfOk result (λ o. (kept rest : List Watch)
            → IsWatching assignment.now.variables assignment.now.trail self.old.sorted
            (slice_set (lists_of self.old) (code_of literal)
            (kept ++ record { clause = clause; blocker = blocker } ∷ rest))
            self.old.pairs.items (units_of self.old) self.old.falsified literal
            (record { clause = clause; blocker = blocker } ∷ rest)
            → IsWatching assignment.now.variables assignment.now.trail
            self.new.sorted (slice_set (lists_of self.new) (code_of literal)
            (kept_with kept clause o ++ rest)) self.new.pairs.items
            (units_of self.new) self.new.falsified literal rest) }
        ensures kept { IfOk result (λ _. KeepsWatched assignment.now.trail self.old self.new) }
        ensures sorted { self.new.sorted ≡ self.old.sorted }
        ensures lists_room { length self.new.lists.items ≡ length self.old.lists.items }
        ensures pairs_room { length self.new.pairs.items ≡ length self.old.pairs.items }
    {
        if assignment.holds(blocker) {
            return Ok(Some(blocker));
        }
        match other_watched(&self.pairs[clause as usize], literal) {
            Some(other) => self.visit_beside(assignment, clause, literal, other, blocker),
            None => Ok(None),
        }
    }

    /// Looks at a clause with a watched literal that is false, and with this other one.
    fn visit_beside(
        &mut self,
        assignment: &Assignment,
        clause: u32,
        literal: Lit,
        other: Lit,
        blocker: Lit,
    ) -> Result<Option<Lit>, AllocError>
        requires false_now { is_false assignment.now.trail literal ≡ true }
        requires current { level_of assignment.now.trail literal ≡ level assignment.now.trail }
        requires listed { code_of literal < length self.old.lists.items }
        requires within { clause < length self.old.sorted }
        requires lists_room { length self.old.lists.items ≡ 2 * assignment.now.variables }
        requires pairs_room { length self.old.pairs.items ≡ length self.old.sorted }
        requires below { ClausesBelow assignment.now.variables self.old.sorted }
        requires beside { WatchesBeside
            (slice_index_or self.old.pairs.items clause no_pair) literal other }
        ensures watching { IfOk result (λ o. (kept rest : List Watch)
            → IsWatching assignment.now.variables assignment.now.trail self.old.sorted
            (slice_set (lists_of self.old) (code_of literal)
            (kept ++ record { clause = clause; blocker = blocker } ∷ rest))
            self.old.pairs.items (units_of self.old) self.old.falsified literal
            (record { clause = clause; blocker = blocker } ∷ rest)
            → IsWatching assignment.now.variables assignment.now.trail
            self.new.sorted (slice_set (lists_of self.new) (code_of literal)
            (kept_with kept clause o ++ rest)) self.new.pairs.items
            (units_of self.new) self.new.falsified literal rest) }
        ensures kept { IfOk result (λ _. KeepsWatched assignment.now.trail self.old self.new) }
        ensures sorted { self.new.sorted ≡ self.old.sorted }
        ensures lists_room { length self.new.lists.items ≡ length self.old.lists.items }
        ensures pairs_room { length self.new.pairs.items ≡ length self.old.pairs.items }
    {
        if assignment.is_true(other) {
            return Ok(Some(other));
        }
        match other_open(assignment, self.sorted.clause(clause as usize), other) {
            Some(next) => {
                self.pairs[clause as usize] = Pair {
                    first: next,
                    second: other,
                };
                self.watch(next, clause, other)?;
                Ok(None)
            }
            None => {
                self.note(assignment, clause, other)?;
                Ok(Some(other))
            }
        }
    }

    /// No literal of a clause is open but perhaps this one: it is unit or falsified.
    fn note(&mut self, assignment: &Assignment, clause: u32, literal: Lit) -> Result<(), AllocError>
        ensures caught { is_false assignment.now.trail literal ≡ true
            → (self.new.falsified ≡ lowest self.old.falsified clause)
            × (units_of self.new ≡ units_of self.old) }
        ensures unit { IfOk result (λ _. is_false assignment.now.trail literal ≡ false
            → (self.new.falsified ≡ self.old.falsified)
            × ((i : ℕ) → has_number (units_of self.new) i
            ≡ (has_number (units_of self.old) i || (clause == i)))) }
        ensures lists { self.new.lists ≡ self.old.lists }
        ensures pairs { self.new.pairs ≡ self.old.pairs }
        ensures sorted { self.new.sorted ≡ self.old.sorted }
    {
        if assignment.is_false(literal) {
            lower(&mut self.falsified, clause);
        } else {
            self.units.push(clause)?;
        }
        Ok(())
    }

    /// The least clause among those that may be unit.
    pub fn least_unit(&self) -> Option<u32>
        ensures least { IfSome result (IsLeast (units_of self.now)) }
        ensures none { IfNone result (units_of self.now ≡ []) }
    {
        self.units.least()
    }

    /// The least clause among those that may be unit isn't.
    pub fn drop_unit(&mut self)
        ensures units { DropsLeast (units_of self.old) (units_of self.new) }
        ensures lists { self.new.lists ≡ self.old.lists }
        ensures pairs { self.new.pairs ≡ self.old.pairs }
        ensures sorted { self.new.sorted ≡ self.old.sorted }
        ensures falsified { self.new.falsified ≡ self.old.falsified }
    {
        self.units.drop_least();
    }

    /// No clause is unit or falsified.
    pub fn clear(&mut self)
        ensures lists { self.new.lists ≡ self.old.lists }
        ensures pairs { self.new.pairs ≡ self.old.pairs }
        ensures sorted { self.new.sorted ≡ self.old.sorted }
        ensures units { units_of self.new ≡ [] }
        ensures falsified { self.new.falsified ≡ None }
    {
        self.units.clear();
        self.falsified = None;
    }

    /// The first clauses stay, so many, and none of them is unit or falsified. No memory is taken.
    pub fn go_back(&mut self, clauses: usize)
        requires { clauses ≤ length self.old.sorted }
        ensures watches { (n : ℕ) (oldest t : List Assigned) → AreWatches n t self.old
            → AreWatchedUnder oldest clauses self.old → AreWatches n oldest self.new }
        ensures sorted { self.new.sorted ≡ take clauses self.old.sorted }
        ensures units { units_of self.new ≡ [] }
        ensures falsified { self.new.falsified ≡ None }
    {
        self.clear();
        leave(&mut self.lists, &self.pairs, clauses);
        self.pairs.truncate(clauses);
        self.sorted.truncate(clauses);
    }
}

/// The watched literal beside this one, where that is watched.
fn other_watched(pair: &Pair, literal: Lit) -> Option<Lit>
    ensures beside { IfSome result (λ other. WatchesBeside pair.now literal other) }
    ensures none { IfNone result
        ((pair.now.first ≡ literal → ⊥) × (pair.now.second ≡ literal → ⊥)) }
{
    if pair.first.is(literal) {
        Some(pair.second)
    } else if pair.second.is(literal) {
        Some(pair.first)
    } else {
        None
    }
}

/// The watched literal that isn't assigned, the first one where neither is.
pub fn open_watched(assignment: &Assignment, pair: &Pair) -> Option<Lit>
    ensures some { IfSome result (IsOpenOf assignment.now.trail pair.now) }
    ensures none { IfNone result (AreClosed assignment.now.trail pair.now) }
{
    if assignment.is_open(pair.first) {
        Some(pair.first)
    } else if assignment.is_open(pair.second) {
        Some(pair.second)
    } else {
        None
    }
}

/// A watch is kept with this blocker, if there is one, behind those that were kept before it.
fn keep(list: &mut Vec<Watch>, kept: usize, clause: u32, blocker: Option<Lit>) -> usize
    requires { kept < length list.old.items }
    ensures kept { take result list.new.items
        ≡ kept_with (take kept list.old.items) clause blocker }
    ensures rest { (k : ℕ) → kept < k → drop k list.new.items ≡ drop k list.old.items }
    ensures most { result ≤ kept + 1 }
    ensures length { length list.new.items ≡ length list.old.items }
{
    match blocker {
        Some(blocker) => {
            list[kept] = Watch { clause, blocker };
            kept + 1
        }
        None => kept,
    }
}

/// The least of some numbers, with one more.
fn lower(least: &mut Option<u32>, number: u32)
    ensures { least.new ≡ lowest least.old number }
{
    match *least {
        Some(before) => *least = Some(before.min(number)),
        None => *least = Some(number),
    }
}

/// A clause's literals in the order of their codes, in the place of those that were there.
fn sort_clause(sorted: &mut Vec<Lit>, clause: &[Lit]) -> Result<(), AllocError>
    ensures { IfOk result (λ _. IsPermutation clause.now sorted.new.items) }
{
    sorted.clear();
    sorted.extend_from_slice(clause)?;
    sorted.sort_by_key(|l| code(*l))?;
    Ok(())
}

/// The clauses from this number on leave the lists of the literals that they watch. No other list
/// is looked at.
fn leave(lists: &mut Vec<Vec<Watch>>, pairs: &Vec<Pair>, clauses: usize)
    ensures left { HaveLeft clauses (times_watched_by (drop clauses pairs.now.items))
        (map (λ v. v.items) lists.old.items) (map (λ v. v.items) lists.new.items) }
    ensures length { length lists.new.items ≡ length lists.old.items }
{
    for i in clauses..pairs.len() {
        leave_pair(lists, &pairs[i], clauses);
    }
}

/// One clause from this number on leaves the lists of the two literals that it watches. Which one
/// it is doesn't matter, since all of them leave.
fn leave_pair(lists: &mut Vec<Vec<Watch>>, pair: &Pair, clauses: usize)
    ensures left { HaveLeft clauses (times_watched pair.now)
        (map (λ v. v.items) lists.old.items) (map (λ v. v.items) lists.new.items) }
    ensures length { length lists.new.items ≡ length lists.old.items }
{
    leave_literal(lists, pair.first, clauses);
    leave_literal(lists, pair.second, clauses);
}

/// The same of one literal, which may have no list.
fn leave_literal(lists: &mut Vec<Vec<Watch>>, literal: Lit, clauses: usize)
    ensures left { HaveLeft clauses (λ l. one_if (same_literal literal l))
        (map (λ v. v.items) lists.old.items) (map (λ v. v.items) lists.new.items) }
    ensures length { length lists.new.items ≡ length lists.old.items }
{
    let place = code(literal);
    if place >= lists.len() {
        return;
    }
    leave_list(&mut lists[place], clauses);
}

/// Of the watches of the clauses from this number on the last one leaves a list.
fn leave_list(list: &mut Vec<Watch>, clauses: usize)
    ensures { LosesLater clauses 1 list.old.items list.new.items }
{
    if let Some(place) = last_later(list, clauses) {
        let _watch = list.remove(place);
    }
}

/// Where the last watch of a clause from this number on stands, which is mostly the end.
fn last_later(list: &[Watch], clauses: usize) -> Option<usize>
    ensures some { IfSome result (IsLater clauses list.now) }
    ensures none { IfNone result (times_later clauses list.now ≡ 0) }
{
    for i in 0..list.len() {
        let place = list.len() - 1 - i;
        if list[place].clause as usize >= clauses {
            return Some(place);
        }
    }
    None
}

/// So many lists: those at the end go, or empty ones are put there.
fn resize_lists(alloc: Global, lists: &mut Vec<Vec<Watch>>, size: usize) -> Result<(), AllocError>
    ensures length { IfOk result (λ _. length lists.new.items ≡ size) }
    ensures same { IfOk result (λ _. (k : ℕ) → k < size
        → slice_index_or (map (λ v. v.items) lists.new.items) k []
        ≡ slice_index_or (map (λ v. v.items) lists.old.items) k []) }
{
    for literal in lists.len()..size {
        lists.push(Vec::new(alloc))?;
    }
    lists.truncate(size);
    Ok(())
}

/// For each literal's code no clause.
fn empty_lists(alloc: Global, variables: u32) -> Result<Vec<Vec<Watch>>, AllocError>
    requires { variables < 2 ^ 31 }
    ensures { IfOk result (λ r. map (λ v. v.items) r.items ≡ replicate (2 * variables) []) }
{
    let size = 2 * variables as usize;
    let mut lists = Vec::with_capacity(alloc, size)?;
    for literal in 0..size {
        lists.push(Vec::new(alloc))?;
    }
    Ok(lists)
}
