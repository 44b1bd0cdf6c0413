//! A clause with a mark for each of its literals, so that a resolution looks at each literal of
//! both clauses once.

ghost use Rattle.std.specs.Prelude.{◌≡◌, ◌<◌, ℕ, ◌^◌, ◌++◌, ◌∷◌, [], false, length, slice_set};
ghost use Rattle.std.specs.Prelude.{slice_index_or, if◌then◌else◌, IfOk, OnErr, take, drop};
ghost use Rattle.cqe_base.specs.Literal.{Literal, variable_of, has_literal, union, ClauseBelow};
ghost use Rattle.cqe_base.specs.Refutation.{without_variable, resolvent};
ghost use Rattle.clause_store.specs.Codes.{code_of};

use crate::codes::code;
use crate::literal::Lit;
use std::alloc::{AllocError, Global};
use std::marker::Model;

/// A clause over numbered variables.
#[derive(Drop)]
pub struct MarkedClause {
    variables: u32,
    literals: Vec<Lit>,
    /// Whether the clause has each literal, by its code.
    marks: Vec<bool>,
}

impl Model for MarkedClause {
    ghost use Rattle.clause_store.specs.Marking.{Marking};

    ghost Value = { Marking };

    ghost use Rattle.clause_store.specs.MarkedFields.{marking_inside, MarksClause};

    ghost view = { marking_inside };

    ghost invariant = { MarksClause };
}

impl MarkedClause {
    /// No literal.
    pub fn new(alloc: Global, variables: u32) -> Result<MarkedClause, AllocError>
        requires { variables < 2 ^ 31 }
        ensures { IfOk result (λ c. c ≡ record { variables = variables; clause = [] }) }
    {
        Ok(MarkedClause {
            variables,
            literals: Vec::new(alloc),
            marks: vec![in alloc; false; 2 * variables as usize]?,
        })
    }

    /// The literals.
    pub fn literals(&self) -> &[Lit]
        ensures { result.now ≡ self.now.clause }
    {
        self.literals.as_slice()
    }

    /// Whether the clause has a literal.
    pub fn has(&self, literal: Lit) -> bool
        ensures { result ≡ has_literal self.now.clause literal }
    {
        let _ = &self.variables;
        let at = code(literal);
        at < self.marks.len() && self.marks[at]
    }

    /// One more literal.
    fn add(&mut self, literal: Lit) -> Result<(), AllocError>
        requires { variable_of literal < self.old.variables }
        ensures added { IfOk result (λ _. self.new ≡ record self.old {
          clause =
              self.old.clause ++ literal ∷ [];
        }) }
        ensures refused { OnErr result (self.new ≡ self.old) }
    {
        self.literals.push(literal)?;
        self.marks[code(literal)] = true;
        Ok(())
    }

    /// One more literal, unless it is of the variable or the clause has it.
    fn join(&mut self, variable: u32, literal: Lit) -> Result<(), AllocError>
        requires { variable_of literal < self.old.variables }
        ensures joined { IfOk result (λ _. self.new ≡ record self.old {
          clause =
              union self.old.clause (without_variable variable (literal ∷ []));
        }) }
        ensures refused { OnErr result (self.new ≡ self.old) }
    {
        if literal.variable() != variable && !self.has(literal) {
            self.add(literal)?;
        }
        Ok(())
    }

    /// Makes room for the literals of a clause.
    pub fn make_room(&mut self, clause: &[Lit]) -> Result<(), AllocError>
        ensures same { IfOk result (λ _. self.new.clause ≡ self.old.clause) }
        ensures room { IfOk result (λ _. ClauseBelow self.new.variables clause.now) }
        ensures refused { OnErr result (self.new ≡ self.old) }
    {
        let needed = variables_of(clause);
        if self.variables < needed {
            self.marks.resize(2 * needed as usize, false)?;
            self.variables = needed;
        }
        Ok(())
    }

    /// So many variables, where there is no literal. What it costs goes by the difference alone.
    pub fn set_variables(&mut self, variables: u32) -> Result<(), AllocError>
        requires fits { variables < 2 ^ 31 }
        requires none { self.old.clause ≡ [] }
        ensures set { IfOk result (λ _. self.new ≡ record self.old { variables = variables }) }
        ensures refused { OnErr result (self.new ≡ self.old) }
    {
        resize(&mut self.marks, 2 * variables as usize)?;
        self.variables = variables;
        Ok(())
    }

    /// Appends a clause to it. Where memory is wanting it has some first literals of that.
    pub fn append(&mut self, clause: &[Lit]) -> Result<(), AllocError>
        requires { ClauseBelow self.old.variables clause.now }
        ensures appended { IfOk result (λ _. self.new ≡ record self.old {
          clause =
              self.old.clause ++ clause.now;
        }) }
        ensures part { OnErr result ((k : ℕ) × (self.new ≡ record self.old {
          clause =
              self.old.clause ++ take k clause.now;
        })) }
    {
        for literal in clause {
            self.add(*literal)?;
        }
        Ok(())
    }

    /// Without the literals of a variable.
    fn remove(&mut self, literal: Lit)
        ensures { self.new ≡ record self.old {
          clause =
              without_variable (variable_of literal) self.old.clause;
        } }
    {
        let variable = literal.variable();
        unmark(&mut self.marks, literal);
        unmark(&mut self.marks, literal.opposite());
        self.literals.retain(|l| l.variable() != variable);
    }

    /// Resolves it with a clause on the variable of a literal. Where memory is wanting, what is
    /// there and the rest of that clause make the resolvent.
    pub fn resolve(&mut self, literal: Lit, clause: &[Lit]) -> Result<(), AllocError>
        requires { ClauseBelow self.old.variables clause.now }
        ensures resolved { IfOk result (λ _. self.new ≡ record self.old {
          clause =
              resolvent (variable_of literal) self.old.clause clause.now;
        }) }
        ensures rest { OnErr result ((k : ℕ)
            × (union self.new.clause (without_variable (variable_of literal) (drop k clause.now))
            ≡ resolvent (variable_of literal) self.old.clause clause.now)) }
    {
        self.remove(literal);
        for other in clause {
            self.join(literal.variable(), *other)?;
        }
        Ok(())
    }

    /// Takes all literals away.
    pub fn clear(&mut self)
        ensures { self.new ≡ record self.old { clause = [] } }
    {
        unmark_all(&mut self.marks, &self.literals);
        self.literals.clear();
    }
}

/// So many marks: those at the end go, or more are put there for literals that aren't marked.
fn resize(marks: &mut Vec<bool>, size: usize) -> Result<(), AllocError>
    ensures length { IfOk result (λ _. length marks.new.items ≡ size) }
    ensures none { ((i : ℕ) → slice_index_or marks.old.items i false ≡ false)
        → (i : ℕ) → slice_index_or marks.new.items i false ≡ false }
    ensures refused { OnErr result (marks.new.items ≡ marks.old.items) }
{
    if marks.len() < size {
        marks.resize(size, false)?;
    } else {
        marks.truncate(size);
    }
    Ok(())
}

/// The mark of a literal goes.
fn unmark(marks: &mut Vec<bool>, literal: Lit)
    ensures { marks.new.items ≡ slice_set marks.old.items (code_of literal) false }
{
    let at = code(literal);
    if at < marks.len() {
        marks[at] = false;
    }
}

/// The marks of a clause's literals go.
fn unmark_all(marks: &mut Vec<bool>, clause: &[Lit])
    ensures gone { (l : Literal)
        → slice_index_or marks.new.items (code_of l) false
        ≡ (if has_literal clause.now l then false
        else slice_index_or marks.old.items (code_of l) false) }
    ensures length { length marks.new.items ≡ length marks.old.items }
{
    for literal in clause {
        unmark(marks, *literal);
    }
}

/// A number above the variables of a clause.
fn variables_of(clause: &[Lit]) -> u32
    ensures above { ClauseBelow result clause.now }
    ensures fits { result < 2 ^ 31 }
{
    let mut above = 0;
    for literal in clause {
        above = above.max(literal.variable() + 1);
    }
    above
}
