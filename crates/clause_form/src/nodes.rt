//! The clauses of a node. Each call appends: where it is refused, the clauses that were there still
//! stand in front.

ghost use Rattle.std.specs.Prelude.{◌≡◌, ◌<◌, ◌^◌, ◌+◌, [], ◌∷◌, ◌++◌, map, IfOk, OnOk};
ghost use Rattle.cqe_base.specs.Literal.{opposite, distinct_literals};
ghost use Rattle.cqe_base.specs.ClauseForm.{and_clauses, or_clauses, iff_clauses};
ghost use Rattle.clause_form.specs.Prefixes.{BeginsWith};

use clause_store::clauses::Clauses;
use clause_store::literal::Lit;
use clause_store::resolution::unite;
use std::alloc::{AllocError, Global};

/// Appends a clause, in which each of these literals stands once, where it came first.
#[tactic(auto, using(crate::proofs::Beginnings::beginnings))]
fn push_distinct(alloc: Global, clauses: &mut Clauses, literals: &[Lit]) -> Result<(), AllocError>
    ensures pushed { OnOk result
        (clauses.new ≡ clauses.old ++ distinct_literals literals.now ∷ []) }
    ensures begins { BeginsWith clauses.old clauses.new }
{
    let mut clause = Vec::new(alloc);
    unite(&mut clause, literals)?;
    clauses.push(&clause)?;
    Ok(())
}

/// Appends a clause of two literals, `first` and it, for each of these literals in turn.
#[tactic(auto, using(crate::proofs::Beginnings::beginnings))]
fn push_edges(
    alloc: Global,
    clauses: &mut Clauses,
    first: Lit,
    literals: &[Lit],
) -> Result<(), AllocError>
    ensures pushed { OnOk result
        (clauses.new ≡ clauses.old ++ map (λ l. distinct_literals (first ∷ l ∷ [])) literals.now) }
    ensures begins { BeginsWith clauses.old clauses.new }
{
    for l in literals {
        push_distinct(alloc, clauses, &[first, *l])?;
    }
    Ok(())
}

/// Appends a clause: `first` and these literals.
#[tactic(auto, using(crate::proofs::Beginnings::beginnings))]
fn push_all(
    alloc: Global,
    clauses: &mut Clauses,
    first: Lit,
    literals: &[Lit],
) -> Result<(), AllocError>
    ensures pushed { OnOk result (clauses.new
        ≡ clauses.old ++ distinct_literals (first ∷ literals.now) ∷ []) }
    ensures begins { BeginsWith clauses.old clauses.new }
{
    let mut clause = Vec::new(alloc);
    clause.push(first)?;
    clause.extend_from_slice(literals)?;
    push_distinct(alloc, clauses, &clause)?;
    Ok(())
}

/// The opposites of literals.
fn opposites(alloc: Global, literals: &[Lit]) -> Result<Vec<Lit>, AllocError>
    ensures { IfOk result (λ opposites. opposites.items ≡ map opposite literals.now) }
{
    literals.iter().map(|l| l.opposite()).collect(alloc)
}

/// The clauses that say that a variable is true exactly where all literals are.
#[tactic(auto, using(crate::proofs::Beginnings::beginnings))]
pub fn push_and(
    alloc: Global,
    clauses: &mut Clauses,
    variable: u32,
    literals: &[Lit],
) -> Result<(), AllocError>
    requires { variable + 1 < 2 ^ 31 }
    ensures pushed { OnOk result (clauses.new ≡ clauses.old ++ and_clauses variable literals.now) }
    ensures begins { BeginsWith clauses.old clauses.new }
{
    let opposed = opposites(alloc, literals)?;
    push_edges(alloc, clauses, Lit::negative(variable), literals)?;
    push_all(alloc, clauses, Lit::positive(variable), &opposed)?;
    Ok(())
}

/// The clauses that say that a variable is true exactly where some literal is.
#[tactic(auto, using(crate::proofs::Beginnings::beginnings))]
pub fn push_or(
    alloc: Global,
    clauses: &mut Clauses,
    variable: u32,
    literals: &[Lit],
) -> Result<(), AllocError>
    requires { variable + 1 < 2 ^ 31 }
    ensures pushed { OnOk result (clauses.new ≡ clauses.old ++ or_clauses variable literals.now) }
    ensures begins { BeginsWith clauses.old clauses.new }
{
    let opposed = opposites(alloc, literals)?;
    push_edges(alloc, clauses, Lit::positive(variable), &opposed)?;
    push_all(alloc, clauses, Lit::negative(variable), literals)?;
    Ok(())
}

/// The clauses that say that a variable is true exactly where the two literals are both true or
/// both false.
#[tactic(auto, using(crate::proofs::Beginnings::beginnings))]
pub fn push_iff(
    alloc: Global,
    clauses: &mut Clauses,
    variable: u32,
    a: Lit,
    b: Lit,
) -> Result<(), AllocError>
    requires { variable + 1 < 2 ^ 31 }
    ensures pushed { OnOk result (clauses.new ≡ clauses.old ++ iff_clauses variable a b) }
    ensures begins { BeginsWith clauses.old clauses.new }
{
    let (yes, no) = (Lit::positive(variable), Lit::negative(variable));
    push_distinct(alloc, clauses, &[no, a.opposite(), b])?;
    push_distinct(alloc, clauses, &[no, a, b.opposite()])?;
    push_distinct(alloc, clauses, &[yes, a, b])?;
    push_distinct(alloc, clauses, &[yes, a.opposite(), b.opposite()])?;
    Ok(())
}
