//! The walk of a formula, children before their parent. Where it is refused, the clauses and the
//! facts that were there still stand in front.

ghost use Rattle.std.specs.Prelude.{◌≡◌, ◌<◌, ◌≤◌, ◌^◌, ◌+◌, [], ◌∷◌, ◌++◌, map, IfOk, OnOk};
ghost use Rattle.std.specs.Prelude.{if◌then◌else◌};
ghost use Rattle.cqe_base.specs.Literal.{Positive, opposite};
ghost use Rattle.cqe_base.specs.Ground.{parts_of, ground_of, ground_nodes, part_nodes};
ghost use Rattle.cqe_base.specs.ClauseForm.{number_of, with_fact, with_node, and_clauses};
ghost use Rattle.cqe_base.specs.ClauseForm.{or_clauses, iff_clauses};
ghost use Rattle.clause_form.specs.Forms.{with_formula};
ghost use Rattle.clause_form.specs.Walks.{with_numbering, with_clauses, Walked, WalkedParts};
ghost use Rattle.clause_form.specs.Walks.{GoesOn};

use crate::former::Former;
use crate::nodes::{push_and, push_iff, push_or};
use clause_store::literal::Lit;
use cqe_base::prop::Prop;
use cqe_base::world::Fact;
use std::alloc::{AllocError, Global};

impl Former {
    /// Walks a formula, children before their parent, and answers its literal.
    #[cycle(walk)]
    pub(crate) fn walk(&mut self, alloc: Global, prop: &Prop) -> Result<Lit, AllocError>
        requires { self.old.numbering.variables + ground_nodes (ground_of prop.now) < 2 ^ 31 }
        ensures walked { IfOk result (λ l. Walked (ground_of prop.now) self.old l self.new) }
        ensures goes_on { GoesOn self.old self.new }
    {
        match prop {
            Prop::True => Ok(Lit::positive(0)),
            Prop::False => Ok(Lit::negative(0)),
            Prop::Atom(fact) => Ok(self.number_fact(fact)?),
            Prop::Not(a) => {
                let literal = self.walk(alloc, a)?;
                Ok(literal.opposite())
            }
            Prop::And(parts) => {
                let literals = self.walk_parts(alloc, parts)?;
                Ok(self.and_node(alloc, &literals)?)
            }
            Prop::Or(parts) => {
                let literals = self.walk_parts(alloc, parts)?;
                Ok(self.or_node(alloc, &literals)?)
            }
            Prop::Implies(a, b) => {
                let left = self.walk(alloc, a)?;
                let right = self.walk(alloc, b)?;
                Ok(self.or_node(alloc, &[left.opposite(), right])?)
            }
            Prop::Iff(a, b) => {
                let left = self.walk(alloc, a)?;
                let right = self.walk(alloc, b)?;
                Ok(self.iff_node(alloc, left, right)?)
            }
        }
    }

    /// Walks formulas from left to right, and answers their literals.
    #[cycle(walk)]
    fn walk_parts(&mut self, alloc: Global, parts: &[Prop]) -> Result<Vec<Lit>, AllocError>
        requires { self.old.numbering.variables + part_nodes (parts_of (map ground_of parts.now))
            < 2 ^ 31 }
        ensures walked { IfOk result
            (λ literals. WalkedParts
            (parts_of (map ground_of parts.now)) self.old literals.items self.new) }
        ensures goes_on { GoesOn self.old self.new }
    {
        let mut literals = Vec::new(alloc);
        for part in parts {
            let literal = self.walk(alloc, part)?;
            literals.push(literal)?;
        }
        Ok(literals)
    }

    /// Walks a formula, and then its literal, or where `positive` is false the opposite, is a
    /// clause alone.
    pub(crate) fn walk_signed(
        &mut self,
        alloc: Global,
        prop: &Prop,
        positive: bool,
    ) -> Result<(), AllocError>
        requires { self.old.numbering.variables + ground_nodes (ground_of prop.now) < 2 ^ 31 }
        ensures added { OnOk result
            (self.new ≡ with_formula self.old (ground_of prop.now, positive)) }
        ensures goes_on { GoesOn self.old self.new }
    {
        let literal = self.walk(alloc, prop)?;
        self.push_unit(signed(literal, positive))?;
        Ok(())
    }

    /// Appends a clause with one literal.
    fn push_unit(&mut self, literal: Lit) -> Result<(), AllocError>
        ensures pushed { OnOk result (self.new ≡ with_clauses self.old ((literal ∷ []) ∷ [])) }
        ensures goes_on { GoesOn self.old self.new }
    {
        self.clauses.push(&[literal])?;
        Ok(())
    }

    /// The literal of a fact, which gets the next free number at its first appearance.
    fn number_fact(&mut self, fact: &Fact) -> Result<Lit, AllocError>
        requires { self.old.numbering.variables + 1 < 2 ^ 31 }
        ensures literal { IfOk result
            (λ l. l ≡ Positive
            (number_of self.old.numbering.facts fact.now self.old.numbering.variables)) }
        ensures numbered { OnOk result (self.new
            ≡ with_numbering self.old (with_fact self.old.numbering fact.now)) }
        ensures goes_on { GoesOn self.old self.new }
    {
        if let Some(number) = self.facts.get(fact) {
            return Ok(Lit::positive(*number));
        }
        let number = self.variables;
        self.facts.insert(*fact, number)?;
        self.variables += 1;
        Ok(Lit::positive(number))
    }

    /// A conjunction of literals: it takes the next variable and appends the clauses that say what
    /// it is.
    fn and_node(&mut self, alloc: Global, literals: &[Lit]) -> Result<Lit, AllocError>
        requires { self.old.numbering.variables + 1 < 2 ^ 31 }
        ensures literal { IfOk result (λ l. l ≡ Positive self.old.numbering.variables) }
        ensures pushed { OnOk result (self.new ≡
            with_clauses (with_numbering self.old (with_node self.old.numbering))
            (and_clauses self.old.numbering.variables literals.now)) }
        ensures goes_on { GoesOn self.old self.new }
    {
        let variable = self.variables;
        push_and(alloc, &mut self.clauses, variable, literals)?;
        self.variables += 1;
        Ok(Lit::positive(variable))
    }

    /// The same for a disjunction.
    fn or_node(&mut self, alloc: Global, literals: &[Lit]) -> Result<Lit, AllocError>
        requires { self.old.numbering.variables + 1 < 2 ^ 31 }
        ensures literal { IfOk result (λ l. l ≡ Positive self.old.numbering.variables) }
        ensures pushed { OnOk result (self.new ≡
            with_clauses (with_numbering self.old (with_node self.old.numbering))
            (or_clauses self.old.numbering.variables literals.now)) }
        ensures goes_on { GoesOn self.old self.new }
    {
        let variable = self.variables;
        push_or(alloc, &mut self.clauses, variable, literals)?;
        self.variables += 1;
        Ok(Lit::positive(variable))
    }

    /// The same for an equivalence of two literals.
    fn iff_node(&mut self, alloc: Global, a: Lit, b: Lit) -> Result<Lit, AllocError>
        requires { self.old.numbering.variables + 1 < 2 ^ 31 }
        ensures literal { IfOk result (λ l. l ≡ Positive self.old.numbering.variables) }
        ensures pushed { OnOk result (self.new ≡
            with_clauses (with_numbering self.old (with_node self.old.numbering))
            (iff_clauses self.old.numbering.variables a b)) }
        ensures goes_on { GoesOn self.old self.new }
    {
        let variable = self.variables;
        push_iff(alloc, &mut self.clauses, variable, a, b)?;
        self.variables += 1;
        Ok(Lit::positive(variable))
    }
}

/// The literal, or where `positive` is false its opposite.
fn signed(literal: Lit, positive: bool) -> Lit
    ensures { result ≡ (if positive then literal else opposite literal) }
{
    if positive {
        literal
    } else {
        literal.opposite()
    }
}
