//! Refutations, and when they are right.

ghost use Rattle.std.specs.Prelude.{◌≡◌, ◌++◌, ◌||◌, ◌&&◌, not, map, IfOk, IsTrue, Some, List};
ghost use Rattle.std.specs.Prelude.{slice_get};
ghost use Rattle.std.specs.Option.{option_copied};
ghost use Rattle.cqe_base.specs.Literal.{Literal, same_literal, has_literal};
ghost use Rattle.cqe_base.specs.Refutation.{clashes, single_resolvent, chain_from, chain_result};
ghost use Rattle.cqe_base.specs.Refutation.{is_result, ends_empty, is_refutation};
ghost use Rattle.cqe_base.specs.MachineLaws.{HaveNoModel};
ghost use Rattle.clause_store.specs.PlainLines.{lines_of, line_of};
ghost use Rattle.proof_check.specs.Clashing.{only, is_other};
ghost use Rattle.proof_check.specs.LiteralSets.{IsSetOf, IsSetOfResult};

use crate::literal_set::LiteralSet;
use clause_store::clauses::Clauses;
use clause_store::literal::Lit;
use clause_store::refutation::{Line, Refutation};
use cqe_base::machine_laws::law_refutation_is_sound;
use std::alloc::{AllocError, Global};

/// Whether the refutation is right: then no signs make every clause true. What a chain gives is
/// kept as a set by marks, so that a step takes time by the literals of its second clause alone;
/// the marks take two bytes for each variable up to the greatest.
pub fn check_refutation(
    alloc: Global,
    clauses: &Clauses,
    refutation: &Refutation,
) -> Result<bool, AllocError>
    ensures right { IfOk result (λ is_right. is_right
        ≡ is_refutation clauses.now (lines_of refutation.now)) }
    ensures sound { IfOk result (λ is_right. IsTrue is_right → HaveNoModel clauses.now) }
{
    law_refutation_is_sound();
    Ok(are_right(alloc, clauses, refutation)?)
}

/// Whether all lines are right and the last one has no literal.
fn are_right(alloc: Global, clauses: &Clauses, refutation: &Refutation) -> Result<bool, AllocError>
    ensures { IfOk result (λ all_right. all_right
        ≡ is_refutation clauses.now (lines_of refutation.now)) }
{
    let mut derived = LiteralSet::new(alloc);
    for k in 0..refutation.lines.len() {
        let line = &refutation.lines[k];
        if !is_right(&mut derived, clauses, &refutation.lines[..k], line)? {
            return Ok(false);
        }
    }
    Ok(ends_empty(&refutation.lines))
}

/// Whether a line's clause has the literals of its chain's result. The set is room to work in.
fn is_right(
    derived: &mut LiteralSet,
    clauses: &Clauses,
    lines: &[Line],
    line: &Line,
) -> Result<bool, AllocError>
    ensures { IfOk result (λ is_right. is_right
        ≡ is_result line.now.clause.items
        (chain_result (clauses.now ++ map (λ l. l.clause.items) lines.now)
        line.now.chain.items)) }
{
    let Some((start, chain)) = line.chain.split_first() else {
        return Ok(false);
    };
    let Some(first) = clause_at(clauses, lines, *start as usize) else {
        return Ok(false);
    };
    replace(derived, first)?;
    if !resolve_chain(derived, clauses, lines, chain)? {
        return Ok(false);
    }
    Ok(derived.has_exactly(&line.clause))
}

/// The literals of a clause in the place of those of the set.
fn replace(set: &mut LiteralSet, clause: &[Lit]) -> Result<(), AllocError>
    ensures { IfOk result (λ _. IsSetOf set.new clause.now) }
{
    set.clear();
    join(set, clause)?;
    Ok(())
}

/// Resolves a clause, of which the set has the literals, with each next clause of a chain in turn,
/// over the given clauses and those of earlier lines; false where a step has no resolvent.
fn resolve_chain(
    set: &mut LiteralSet,
    clauses: &Clauses,
    lines: &[Line],
    chain: &[u32],
) -> Result<bool, AllocError>
    ensures { IfOk result (λ resolved. (c : List Literal) → IsSetOf set.old c
        → IsSetOfResult resolved set.new
        (chain_from (clauses.now ++ map (λ l. l.clause.items) lines.now) (Some c) chain.now)) }
{
    for number in chain {
        let Some(next) = clause_at(clauses, lines, *number as usize) else {
            return Ok(false);
        };
        if !resolve_single(set, next)? {
            return Ok(false);
        }
    }
    Ok(true)
}

/// The clause of this number among the given ones and those of earlier lines.
fn clause_at<'a>(clauses: &'a Clauses, lines: &'a [Line], number: usize) -> Option<&'a [Lit]>
    ensures { option_copied result
        ≡ slice_get (clauses.now ++ map (λ l. l.clause.items) lines.now) number }
{
    if number < clauses.len() {
        Some(clauses.clause(number))
    } else {
        lines
            .get(number - clauses.len())
            .map(|line| line.clause.as_slice())
    }
}

/// Resolves a clause, of which the set has the literals, with another, where they clash in exactly
/// one variable; false where they don't.
fn resolve_single(set: &mut LiteralSet, second: &[Lit]) -> Result<bool, AllocError>
    ensures { IfOk result (λ resolved. (c : List Literal) → IsSetOf set.old c
        → IsSetOfResult resolved set.new (single_resolvent c second.now)) }
{
    let Some(l) = single_clash(set, second) else {
        return Ok(false);
    };
    if set.has(l.opposite()) {
        return Ok(false);
    }
    set.remove(l);
    join_without(set, second, l.opposite())?;
    // It is there again only where the second clause has it too.
    Ok(!set.has(l))
}

/// The literals of a clause join the set.
fn join(set: &mut LiteralSet, clause: &[Lit]) -> Result<(), AllocError>
    ensures { IfOk result (λ _. (l : Literal)
        → has_literal set.new l ≡ (has_literal set.old l || has_literal clause.now l)) }
{
    for literal in clause {
        set.add(*literal)?;
    }
    Ok(())
}

/// The literals of a clause join the set, but for one.
// One that joins and goes again would be among those that were added until the line's end.
fn join_without(set: &mut LiteralSet, clause: &[Lit], left_out: Lit) -> Result<(), AllocError>
    ensures { IfOk result (λ _. (l : Literal)
        → has_literal set.new l ≡ (has_literal set.old l
        || (has_literal clause.now l && not (same_literal l left_out)))) }
{
    for literal in clause {
        add_unless(set, *literal, left_out)?;
    }
    Ok(())
}

/// A literal joins the set, unless it is this one.
fn add_unless(set: &mut LiteralSet, literal: Lit, left_out: Lit) -> Result<(), AllocError>
    ensures { IfOk result (λ _. (l : Literal)
        → has_literal set.new l ≡ (has_literal set.old l
        || (same_literal l literal && not (same_literal l left_out)))) }
{
    if literal.is(left_out) {
        return Ok(());
    }
    if set.has(literal) {
        return Ok(());
    }
    set.insert(literal)?;
    Ok(())
}

/// The literal of the set whose opposite is in the clause, where there is exactly one.
fn single_clash(set: &LiteralSet, clause: &[Lit]) -> Option<Lit>
    ensures { (c : List Literal) → IsSetOf set.now c → result ≡ only (clashes c clause.now) }
{
    let mut found: Option<Lit> = None;
    for other in clause {
        let literal = other.opposite();
        if set.has(literal) {
            if is_other(found, literal) {
                return None;
            }
            found = Some(literal);
        }
    }
    found
}

/// Whether there is a literal, and not this one.
fn is_other(found: Option<Lit>, literal: Lit) -> bool
    ensures { result ≡ is_other found literal }
{
    match found {
        Some(before) => !before.is(literal),
        None => false,
    }
}

/// Whether there is a last line and it has no literal.
fn ends_empty(lines: &[Line]) -> bool
    ensures { result ≡ ends_empty (map line_of lines.now) }
{
    match lines.last() {
        Some(line) => line.clause.is_empty(),
        None => false,
    }
}
