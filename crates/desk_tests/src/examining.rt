//! Probes that are made side by side find what they find one after the other.
ghost use Rattle.std.specs.Prelude.{◌≡◌, ◌≤◌, true, length};
ghost use Rattle.cqe_base.specs.Schema.{DatabaseSchema};
ghost use Rattle.cqe_base.specs.Formula.{nodes, is_sentence_of};
ghost use Rattle.cqe_base.specs.History.{profile_of};
ghost use Rattle.cqe_base.specs.Limits.{KeepsLimits};
ghost use Rattle.cqe_base.specs.Censor.{guarded};
ghost use Rattle.entailment.specs.GroundSentences.{sentence_of, IsGroundOver};
ghost use Rattle.censors.specs.Parts.{CanBeExamined};

use crate::clinic::{Clinic, make_clinic, sentence, user_by};
use censors::{Findings, Guards, LentViews, examine, examine_beside};
use cqe_base::laws::law_limits;
use cqe_base::user::{Method, User};
use entailment::{GroundSentence, Views};
use std::alloc::{AllocError, Global};
use std::process::Abort;
use std::test::Fail;
use std::thread::Threads;

/// What the plain body finds after the whole log.
fn found_plainly(
    alloc: Global,
    views: &mut Views<'_>,
    guards: &Guards<'_>,
    user: &User,
    query: &GroundSentence,
) -> Result<Findings, AllocError>
    requires { CanBeExamined guards.now user.now query.now views.old }
    ensures { views.new ≡ views.old }
{
    let mut view = views.lend(alloc)?;
    examine(alloc, &mut view, guards, user, query)
}

/// What is found by so many threads.
fn found_beside<R: Threads + Sync>(
    rt: &R,
    alloc: Global,
    views: &mut Views<'_>,
    guards: &Guards<'_>,
    user: &User,
    query: &GroundSentence,
    count: usize,
) -> Result<Findings, AllocError>
    requires { CanBeExamined guards.now user.now query.now views.old }
{
    let mut lent = LentViews::lend(alloc, views, count)?;
    examine_beside(rt, alloc, &mut lent, guards, user, query)
}

/// Whether two findings are the same, field by field where neither is spent.
fn are_same(one: &Findings, other: &Findings) -> bool {
    one.spent == other.spent
        && (one.spent
            || one.implied == other.implied
                && one.yes_harm == other.yes_harm
                && one.no_harm == other.no_harm)
}

/// Whether both bodies find the same of a query, by so many threads.
fn agree_with<R: Threads + Sync>(
    rt: &R,
    alloc: Global,
    clinic: &Clinic,
    user: &User,
    guards: &Guards<'_>,
    query: &GroundSentence,
    count: usize,
) -> Result<bool, Fail>
    requires limits { KeepsLimits clinic.now.schema (profile_of user.now) }
    requires schema { guards.now.schema ≡ clinic.now.schema }
    requires guarded { guards.now.sentences ≡ guarded (profile_of user.now) }
    requires sentence { is_sentence_of clinic.now.schema (sentence_of query.now) ≡ true }
    requires small { nodes clinic.now.schema (sentence_of query.now) ≤ 1000 }
    requires grounded { IsGroundOver clinic.now.schema query.now }
{
    law_limits();
    let mut views = Views::new(alloc, &clinic.schema, user)?;
    let plain = found_plainly(alloc, &mut views, guards, user, query)?;
    let beside = found_beside(rt, alloc, &mut views, guards, user, query, count)?;
    Ok(are_same(&plain, &beside))
}

/// Whether they do by one to five threads.
fn agree_over<R: Threads + Sync>(
    rt: &R,
    alloc: Global,
    clinic: &Clinic,
    user: &User,
    guards: &Guards<'_>,
    query: &GroundSentence,
) -> Result<bool, Fail>
    requires limits { KeepsLimits clinic.now.schema (profile_of user.now) }
    requires schema { guards.now.schema ≡ clinic.now.schema }
    requires guarded { guards.now.sentences ≡ guarded (profile_of user.now) }
    requires sentence { is_sentence_of clinic.now.schema (sentence_of query.now) ≡ true }
    requires small { nodes clinic.now.schema (sentence_of query.now) ≤ 1000 }
    requires grounded { IsGroundOver clinic.now.schema query.now }
{
    for count in 1..6 {
        if !agree_with(rt, alloc, clinic, user, guards, query, count)? {
            return Ok(false);
        }
    }
    Ok(true)
}

/// The same for what is guarded from the user.
fn agree_on_query<R: Threads + Sync>(
    rt: &R,
    alloc: Global,
    clinic: &Clinic,
    user: &User,
    query: &GroundSentence,
) -> Result<bool, Fail>
    requires limits { KeepsLimits clinic.now.schema (profile_of user.now) }
    requires sentence { is_sentence_of clinic.now.schema (sentence_of query.now) ≡ true }
    requires small { nodes clinic.now.schema (sentence_of query.now) ≤ 1000 }
    requires grounded { IsGroundOver clinic.now.schema query.now }
{
    law_limits();
    let guards = Guards::new(alloc, &clinic.schema, user)?;
    let same = agree_over(rt, alloc, clinic, user, &guards, query)?;
    Ok(same)
}

/// The same of a text.
fn agree<R: Abort + Threads + Sync>(
    rt: &R,
    alloc: Global,
    clinic: &Clinic,
    user: &User,
    text: &str,
) -> Result<bool, Fail>
    requires limits { KeepsLimits clinic.now.schema (profile_of user.now) }
    requires short { length text.now ≤ 4096 }
{
    let query = sentence(rt, alloc, &clinic.schema, text);
    let query = GroundSentence::new(alloc, &clinic.schema, query)?;
    let same = agree_on_query(rt, alloc, clinic, user, &query)?;
    Ok(same)
}

/// A user with a budget of only so many steps.
fn with_budget(user: User, budget: u64) -> User
    requires some { 1 ≤ budget }
    requires small { budget ≤ 4000000 }
    ensures { (schema : DatabaseSchema) → KeepsLimits schema (profile_of user)
        → KeepsLimits schema (profile_of result) }
{
    let mut user = user;
    user.budget = budget;
    user
}

/// Whether both bodies agree on some queries of a user.
fn agree_on_texts<R: Abort + Threads + Sync>(
    rt: &R,
    alloc: Global,
    clinic: &Clinic,
    user: &User,
) -> Result<bool, Fail>
    requires { KeepsLimits clinic.now.schema (profile_of user.now) }
{
    let first = agree(rt, alloc, clinic, user, "drug(ann)")?;
    let second = agree(rt, alloc, clinic, user, "hiv(bob)")?;
    let third = agree(rt, alloc, clinic, user, "hiv(ann) or drug(bob)")?;
    Ok(first && second && third)
}

/// Whether they do for a user by this method, with this budget.
fn agree_by<R: Abort + Threads + Sync>(
    rt: &R,
    alloc: Global,
    clinic: &Clinic,
    method: Method,
    budget: u64,
) -> Result<bool, Fail>
    requires some { 1 ≤ budget }
    requires small { budget ≤ 4000000 }
{
    let user = user_by(rt, alloc, clinic, "kim", method);
    let user = with_budget(user, budget);
    let same = agree_on_texts(rt, alloc, clinic, &user)?;
    Ok(same)
}

// The plain body is the rule's own program. With the least budgets some probes are spent.
#[test]
fn threads_find_what_one_finds(rt: HostRuntime) -> Result<(), Fail> {
    let alloc = rt.alloc();
    let clinic = make_clinic(&rt, alloc);
    for budget in 1..12 {
        assert!(rt; agree_by(&rt, alloc, &clinic, Method::Lying, budget)?);
        assert!(rt; agree_by(&rt, alloc, &clinic, Method::Refusal, budget)?);
        assert!(rt; agree_by(&rt, alloc, &clinic, Method::Combined, budget)?);
    }
    Ok(())
}
