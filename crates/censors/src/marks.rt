//! Which mark answers a query, by what its probes found.

ghost use Rattle.std.specs.Prelude.{◌≡◌, false};
ghost use Rattle.cqe_base.specs.declared.user.Method.TheVariants.{Lying, Refusal, Combined};
ghost use Rattle.cqe_base.specs.Censor.{mark_by, plain_mark};

use crate::Findings;
use cqe_base::user::{Mark, Method};

/// The mark of a truth value.
fn plain_mark(truth: bool) -> Mark
    ensures { result ≡ plain_mark truth }
{
    if truth { Mark::Yes } else { Mark::No }
}

/// The mark that a method gives a query with these findings, whose truth in the database is
/// `truth`.
pub fn decide(method: Method, findings: &Findings, truth: bool) -> Mark
    ensures { result
        ≡ mark_by method findings.now.spent findings.now.implied findings.now.yes_harm
        findings.now.no_harm truth }
{
    if findings.spent {
        return Mark::Undecided;
    }
    match method {
        Method::Lying => lie(findings, truth),
        Method::Refusal => refuse(findings, truth),
        Method::Combined => combine(findings, truth),
    }
}

/// Lying: the true answer, or where it harms, the other.
fn lie(findings: &Findings, truth: bool) -> Mark
    ensures { result
        ≡ mark_by Lying false findings.now.implied findings.now.yes_harm findings.now.no_harm
        truth }
{
    if truth && findings.yes_harm {
        Mark::No
    } else if !truth && findings.no_harm {
        Mark::Yes
    } else {
        plain_mark(truth)
    }
}

/// Refusal: the answer that the log entails, if there is one; none where either answer harms; else
/// the true answer.
fn refuse(findings: &Findings, truth: bool) -> Mark
    ensures { result
        ≡ mark_by Refusal false findings.now.implied findings.now.yes_harm findings.now.no_harm
        truth }
{
    match findings.implied {
        Some(answer) => plain_mark(answer),
        None if findings.yes_harm || findings.no_harm => Mark::Refused,
        None => plain_mark(truth),
    }
}

/// Combined: none where both answers harm, and else as lying.
fn combine(findings: &Findings, truth: bool) -> Mark
    ensures { result
        ≡ mark_by Combined false findings.now.implied findings.now.yes_harm findings.now.no_harm
        truth }
{
    if findings.yes_harm && findings.no_harm {
        Mark::Refused
    } else {
        lie(findings, truth)
    }
}
