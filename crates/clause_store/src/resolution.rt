//! Resolution of clauses.

ghost use Rattle.std.specs.Prelude.{◌≡◌, ℕ, IfOk, OnErr, drop};
ghost use Rattle.cqe_base.specs.Literal.{union};
ghost use Rattle.cqe_base.specs.Refutation.{without_variable, resolvent};

use crate::literal::{Lit, has_literal};
use std::alloc::{AllocError, Global};

/// Appends the literals that aren't there yet, in order. Where memory is wanting, what is there and
/// the rest of them make the whole.
pub fn unite(clause: &mut Vec<Lit>, more: &[Lit]) -> Result<(), AllocError>
    ensures united { IfOk result (λ _. clause.new.items ≡ union clause.old.items more.now) }
    ensures rest { OnErr result ((k : ℕ)
        × (union clause.new.items (drop k more.now) ≡ union clause.old.items more.now)) }
{
    for literal in more {
        if !has_literal(clause, *literal) {
            clause.push(*literal)?;
        }
    }
    Ok(())
}

/// The literals of a clause without those of a variable.
fn without_variable(alloc: Global, variable: u32, clause: &[Lit]) -> Result<Vec<Lit>, AllocError>
    ensures { IfOk result (λ rest. rest.items ≡ without_variable variable clause.now) }
{
    clause
        .iter()
        .copied()
        .filter(|l| l.variable() != variable)
        .collect(alloc)
}

/// The resolvent of two clauses on a variable.
pub fn resolvent(
    alloc: Global,
    variable: u32,
    first: &[Lit],
    second: &[Lit],
) -> Result<Vec<Lit>, AllocError>
    ensures { IfOk result (λ clause. clause.items ≡ resolvent variable first.now second.now) }
{
    let mut clause = without_variable(alloc, variable, first)?;
    let rest = without_variable(alloc, variable, second)?;
    unite(&mut clause, &rest)?;
    Ok(clause)
}
