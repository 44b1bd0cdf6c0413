//! A set of literals by marks, for a clause of which only the literals count.

ghost use Rattle.std.specs.Prelude.{◌≡◌, ◌<◌, ◌&&◌, ◌||◌, not, length, IfOk};
ghost use Rattle.std.specs.Prelude.{false, List, [], slice_set};
ghost use Rattle.std.specs.List.{list_all, list_any};
ghost use Rattle.cqe_base.specs.Literal.{Literal, same_literal, has_literal};
ghost use Rattle.cqe_base.specs.Refutation.{same_literals};
ghost use Rattle.clause_store.specs.Codes.{code_of};
ghost use Rattle.proof_check.specs.LiteralSets.{IsSetOf, is_marked};

use clause_store::codes::code;
use clause_store::literal::Lit;
use std::alloc::{AllocError, Global};
use std::marker::Model;

/// A set of literals. To take one away costs the same however many there are.
#[derive(Drop)]
pub struct LiteralSet {
    /// The literals that were ever added since the set was cleared.
    touched: Vec<Lit>,
    /// Whether the set has each literal, by its code.
    marks: Vec<bool>,
}

impl Model for LiteralSet {
    ghost use Rattle.std.specs.Prelude.{List};
    ghost use Rattle.cqe_base.specs.Literal.{Literal};
    ghost use Rattle.proof_check.specs.LiteralSets.{marked_of, AreTouched};

    ghost Value = { List Literal };

    ghost view = { λ s. marked_of s.marks.items s.touched.items };

    ghost invariant = { λ s. AreTouched s.marks.items s.touched.items };
}

impl LiteralSet {
    /// No literal.
    pub fn new(alloc: Global) -> LiteralSet
        ensures { IsSetOf result [] }
    {
        LiteralSet {
            touched: Vec::new(alloc),
            marks: Vec::new(alloc),
        }
    }

    /// Whether the set has a literal.
    pub fn has(&self, literal: Lit) -> bool
        ensures { result ≡ has_literal self.now literal }
    {
        is_marked(&self.marks, literal)
    }

    /// One more literal.
    // Many literals of a resolution are there already: a look is to cost no call.
    #[inline(always)]
    pub fn add(&mut self, literal: Lit) -> Result<(), AllocError>
        ensures { IfOk result (λ _. (l : Literal)
            → has_literal self.new l ≡ (has_literal self.old l || same_literal l literal)) }
    {
        if self.has(literal) {
            return Ok(());
        }
        self.insert(literal)
    }

    /// The same, without a look whether the set has the literal.
    #[inline(never)]
    pub fn insert(&mut self, literal: Lit) -> Result<(), AllocError>
        ensures { IfOk result (λ _. (l : Literal)
            → has_literal self.new l ≡ (has_literal self.old l || same_literal l literal)) }
    {
        make_room(&mut self.marks, literal)?;
        self.touched.push(literal)?;
        self.marks[code(literal)] = true;
        Ok(())
    }

    /// A literal goes.
    pub fn remove(&mut self, literal: Lit)
        ensures { (l : Literal) → has_literal self.new l
            ≡ (has_literal self.old l && not (same_literal l literal)) }
    {
        unmark(&mut self.marks, literal);
    }

    /// All literals go.
    pub fn clear(&mut self)
        ensures { IsSetOf self.new [] }
    {
        unmark_all(&mut self.marks, &self.touched);
        self.touched.clear();
    }

    /// Whether the set has each literal of a clause.
    fn has_all(&self, clause: &[Lit]) -> bool
        ensures { result ≡ list_all (has_literal self.now) clause.now }
    {
        clause.iter().all(|l| self.has(*l))
    }

    /// Whether the set has the literals of a clause and no others. It may have lost literals
    /// afterwards.
    pub fn has_exactly(&mut self, clause: &[Lit]) -> bool
        ensures { (c : List Literal) → IsSetOf self.old c → result ≡ same_literals clause.now c }
    {
        if !self.has_all(clause) {
            return false;
        }
        unmark_all(&mut self.marks, clause);
        if has_marked(&self.marks, &self.touched) {
            return false;
        }
        self.touched.clear();
        true
    }
}

/// Whether some literal of a clause is marked.
fn has_marked(marks: &[bool], clause: &[Lit]) -> bool
    ensures { result ≡ list_any (is_marked marks.now) clause.now }
{
    clause.iter().any(|l| is_marked(marks, *l))
}

/// Whether a literal is marked.
fn is_marked(marks: &[bool], literal: Lit) -> bool
    ensures { result ≡ is_marked marks.now literal }
{
    let at = code(literal);
    at < marks.len() && marks[at]
}

/// A place for the mark of a literal.
fn make_room(marks: &mut Vec<bool>, literal: Lit) -> Result<(), AllocError>
    ensures room { IfOk result (λ _. code_of literal < length marks.new.items) }
    ensures same { (l : Literal) → is_marked marks.new.items l ≡ is_marked marks.old.items l }
{
    if code(literal) >= marks.len() {
        marks.resize(2 * (literal.variable() as usize + 1), false)?;
    }
    Ok(())
}

/// The mark of a literal goes.
fn unmark(marks: &mut Vec<bool>, literal: Lit)
    ensures { marks.new.items ≡ slice_set marks.old.items (code_of literal) false }
{
    let at = code(literal);
    if at < marks.len() {
        marks[at] = false;
    }
}

/// The marks of a clause's literals go.
fn unmark_all(marks: &mut Vec<bool>, clause: &[Lit])
    ensures { (l : Literal) → is_marked marks.new.items l
        ≡ (is_marked marks.old.items l && not (has_literal clause.now l)) }
{
    for literal in clause {
        unmark(marks, *literal);
    }
}
