//! Kept searches in random orders: clauses are pushed, marked, searched and cut back to the mark.
//! What the kept search finds, and at which cost, has to be what the plain program finds of the
//! whole list.
ghost use Rattle.std.specs.Prelude.{[]};

use crate::machine::{BUDGET, found_text};
use clause_solver::plain::search_plain;
use clause_solver::{KeptSearch, is_searchable};
use clause_store::clauses::Clauses;
use clause_store::literal::Lit;
use std::alloc::{AllocError, Global};
use std::marker::Model;
use std::mem;

/// How many orders are played of each list.
const ORDERS: u32 = 2;

/// How many steps an order has.
const STEPS: u32 = 30;

/// Numbers that look random and follow from a list of clauses: a linear congruential generator
/// (Knuth's MMIX).
#[derive(Drop)]
struct Dice {
    state: u64,
}

impl Dice {
    /// The numbers of a list of clauses.
    fn of(clauses: &Clauses) -> Dice {
        let mut dice = Dice {
            state: clauses.len() as u64,
        };
        for number in 0..clauses.len() {
            dice.mix(clauses.clause(number));
        }
        dice
    }

    /// The next numbers follow from these literals too.
    fn mix(&mut self, literals: &[Lit]) {
        for literal in literals {
            self.state ^= literal.variable() as u64;
            let _number = self.below(1);
        }
    }

    /// The next number, below a count.
    fn below(&mut self, count: usize) -> usize {
        self.state = self
            .state
            .wrapping_mul(6_364_136_223_846_793_005)
            .wrapping_add(1_442_695_040_888_963_407);
        (self.state >> 33) as usize % count.max(1)
    }
}

/// A list of clauses, a beginning of it that was marked, and a search that keeps its work on a
/// beginning of that.
#[derive(Drop)]
struct Growing {
    list: Clauses,
    marked: Clauses,
    kept: KeptSearch,
    variables: u32,
}

impl Model for Growing {
    ghost use Rattle.std.specs.Prelude.{List};
    ghost use Rattle.cqe_base.specs.Literal.{Literal};

    ghost Value = { List (List Literal) };

    ghost view = { λ g. g.list };

    ghost use Rattle.clause_solver.specs.Beginnings.{IsBeginning};

    ghost invariant = { λ g. IsBeginning g.kept g.marked × IsBeginning g.marked g.list };
}

impl Growing {
    /// No clause.
    fn new(alloc: Global, variables: u32) -> Growing {
        Growing {
            list: Clauses::new(alloc),
            marked: Clauses::new(alloc),
            kept: KeptSearch::new(alloc),
            variables,
        }
    }

    /// Appends a clause.
    fn push(&mut self, literals: &[Lit]) -> Result<(), AllocError> {
        let _number = self.list.push(literals)?;
        Ok(())
    }

    /// Appends some of the clauses, and of every eighth the first literal alone.
    fn push_some(&mut self, dice: &mut Dice, clauses: &Clauses) -> Result<(), AllocError> {
        for _ in 0..dice.below(clauses.len() / 4 + 2) {
            if let Some(clause) = clauses.get(dice.below(clauses.len())) {
                self.push(front_of(dice, clause))?;
            }
        }
        Ok(())
    }

    /// Marks the list, and keeps the work of a search on it.
    fn mark(&mut self, alloc: Global) -> Result<(), AllocError> {
        if is_searchable(&self.list, self.variables, BUDGET) {
            let marked = self.list.copy(alloc)?;
            self.kept.keep(alloc, &self.list, self.variables)?;
            let _before = mem::replace(&mut self.marked, marked);
        }
        Ok(())
    }

    /// Goes back to what is marked.
    fn cut(&mut self, alloc: Global) -> Result<(), AllocError> {
        let list = self.marked.copy(alloc)?;
        let _before = mem::replace(&mut self.list, list);
        Ok(())
    }

    /// The cost and the end that the kept search answers within a budget.
    fn searched(&mut self, alloc: Global, budget: u64) -> Result<(u64, String), AllocError> {
        if !is_searchable(&self.list, self.variables, budget) {
            return Ok((0, String::from_str(alloc, "not searchable")?));
        }
        let searched = self
            .kept
            .search_with_cost(alloc, &self.list, self.variables, budget)?;
        Ok((searched.cost, found_text(alloc, &searched.found)?))
    }

    /// The end that it answers to those who don't ask for the cost.
    fn found(&mut self, alloc: Global, budget: u64) -> Result<String, AllocError> {
        if !is_searchable(&self.list, self.variables, budget) {
            return String::from_str(alloc, "not searchable");
        }
        let found = self.kept.search(alloc, &self.list, self.variables, budget)?;
        found_text(alloc, &found)
    }

    /// What the plain program finds of the whole list.
    fn found_plainly(&self, alloc: Global, budget: u64) -> Result<String, AllocError> {
        if !is_searchable(&self.list, self.variables, budget) {
            return String::from_str(alloc, "not searchable by the plain program");
        }
        let found = search_plain(alloc, &self.list, self.variables, budget)?;
        found_text(alloc, &found)
    }

    /// What all find at a budget that is spent whole, behind it; or what each finds.
    fn at(&mut self, alloc: Global, budget: u64) -> Result<String, AllocError> {
        let (cost, searched) = self.searched(alloc, budget)?;
        let found = self.found(alloc, budget)?;
        let plain = self.found_plainly(alloc, budget)?;
        agreed(
            alloc,
            (budget, cost),
            searched.as_str(),
            found.as_str(),
            plain.as_str(),
        )
    }

    /// What differs between the kept search and the plain program, at the cost and at one less, if
    /// anything does.
    fn difference(&mut self, alloc: Global) -> Result<Option<String>, AllocError> {
        let (cost, whole) = self.searched(alloc, BUDGET)?;
        let whole = format!(in alloc; "{cost} {whole}")?;
        if let Some(found) = self.other_at(alloc, cost, whole.as_str())? {
            return Ok(Some(format!(in alloc; "{whole}, but {found}")?));
        }
        if let Some(below) = self.unspent_at(alloc, cost.saturating_sub(1))? {
            return Ok(Some(format!(in alloc; "{whole}, but {below}")?));
        }
        Ok(None)
    }

    /// What is found at a budget, if it isn't this.
    fn other_at(
        &mut self,
        alloc: Global,
        budget: u64,
        want: &str,
    ) -> Result<Option<String>, AllocError> {
        let found = self.at(alloc, budget)?;
        if found.as_str() == want {
            Ok(None)
        } else {
            Ok(Some(found))
        }
    }

    /// What is found at a budget, if anything is.
    fn unspent_at(&mut self, alloc: Global, budget: u64) -> Result<Option<String>, AllocError> {
        let spent = format!(in alloc; "{budget} spent")?;
        let found = self.other_at(alloc, budget, spent.as_str())?;
        Ok(found)
    }

    /// Takes a random step: what differs, if anything does.
    fn step(
        &mut self,
        alloc: Global,
        dice: &mut Dice,
        clauses: &Clauses,
    ) -> Result<Option<String>, AllocError> {
        match dice.below(8) {
            0..3 => self.push_some(dice, clauses)?,
            3 => self.mark(alloc)?,
            4 => self.cut(alloc)?,
            _ => return self.difference(alloc),
        }
        Ok(None)
    }
}

/// A clause, or now and then its first literal alone.
fn front_of<'c>(dice: &mut Dice, clause: &'c [Lit]) -> &'c [Lit] {
    let most = if dice.below(8) == 0 { 1 } else { clause.len() };
    &clause[..clause.len().min(most)]
}

/// What all find at a budget that is spent whole, behind it; or what each finds, the plain program
/// as the last.
fn agreed(
    alloc: Global,
    (budget, cost): (u64, u64),
    searched: &str,
    found: &str,
    plain: &str,
) -> Result<String, AllocError> {
    if cost == budget && searched == plain && found == plain {
        format!(in alloc; "{budget} {plain}")
    } else {
        format!(in alloc; "at {budget}: {cost} {searched}, {found}, plainly {plain}")
    }
}

/// What differs in a random order of steps, if anything does.
fn difference_in_order(
    alloc: Global,
    dice: &mut Dice,
    clauses: &Clauses,
    variables: u32,
) -> Result<Option<String>, AllocError> {
    let mut list = Growing::new(alloc, variables);
    for step in 0..STEPS {
        if let Some(text) = list.step(alloc, dice, clauses)? {
            return Ok(Some(format!(in alloc; "step {step}: {text}")?));
        }
    }
    Ok(None)
}

/// What differs in some random orders of steps, which follow from the clauses, if anything does.
pub fn difference_in_orders(
    alloc: Global,
    clauses: &Clauses,
    variables: u32,
) -> Result<Option<String>, AllocError> {
    let mut dice = Dice::of(clauses);
    for order in 0..ORDERS {
        if let Some(text) = difference_in_order(alloc, &mut dice, clauses, variables)? {
            return Ok(Some(format!(in alloc; "order {order}, {text}")?));
        }
    }
    Ok(None)
}
