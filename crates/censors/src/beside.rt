//! The probes of a query side by side.

ghost use Rattle.std.specs.Prelude.{◌≡◌, ◌≤◌, ◌<◌, ◌+◌, ◌||◌, ℕ, true, All, length, IfOk};
ghost use Rattle.std.specs.Prelude.{slice_index_or};
ghost use Rattle.cqe_base.specs.Formula.{nodes, is_sentence_of};
ghost use Rattle.cqe_base.specs.History.{profile_of};
ghost use Rattle.cqe_base.specs.Limits.{FitsProbes};
ghost use Rattle.cqe_base.specs.Censor.{guarded};
ghost use Rattle.entailment.specs.Logs.{log_nodes};
ghost use Rattle.entailment.specs.Views.{schema_of, log_of};
ghost use Rattle.entailment.specs.GroundSentences.{sentence_of, IsGroundOver};
ghost use Rattle.censors.specs.Found.{HasFindings};
ghost use Rattle.censors.specs.Costs.{AreSpentByCost, DecideUndecided};
ghost use Rattle.censors.specs.Lent.{held_views, held_view, AreTogether};
ghost use Rattle.censors.specs.Parts.{IsCut, CanBeAskedAt, CanBeExamined, HasRun, harms_of};

use crate::examination::{Answer, Findings, Harms, examine, found};
use crate::lent::{Held, Lane, LentViews, MOST_LANES};
use crate::parts::{Cut, cut_of, gathered, run_part};
use crate::{Guards, law_undecided_is_cost};
use cqe_base::machine_laws::law_spent_is_cost;
use cqe_base::user::{Method, User};
use entailment::GroundSentence;
use std::alloc::{AllocError, Global};
use std::thread;
use std::thread::Threads;

/// From so much work on, threads make the probes of a query. It is counted in steps of the search:
/// a probe is taken to make one for each node of the log and the query, and no more than its
/// budget.
const WORK_FOR_THREADS: u64 = 500_000;

/// How many views are best lent for a query, where its log and it have so many nodes. It is one
/// where the probes take less time than it takes to start threads. Any number is right.
pub fn views_for(guards: &Guards<'_>, user: &User, nodes: u64) -> usize {
    let goals = guards.sentences().len();
    let probes = goals.saturating_mul(2);
    let work = nodes.min(user.budget).saturating_mul(probes as u64);
    if work < WORK_FOR_THREADS {
        return 1;
    }
    match user.method {
        Method::Refusal => goals.saturating_add(1).min(MOST_LANES),
        Method::Lying | Method::Combined => probes.min(MOST_LANES),
    }
}

/// What `examine` finds after the log of views that were lent, by as many threads as there are
/// views. Each makes a part of the probes. Where memory is wanting in one, the others are made all
/// the same.
pub fn examine_beside<R: Threads + Sync>(
    rt: &R,
    alloc: Global,
    lent: &mut LentViews<'_>,
    guards: &Guards<'_>,
    user: &User,
    query: &GroundSentence,
) -> Result<Findings, AllocError>
    requires fits { FitsProbes (schema_of lent.old) (profile_of user.now) }
    requires guards_schema { guards.now.schema ≡ schema_of lent.old }
    requires guarded { guards.now.sentences ≡ guarded (profile_of user.now) }
    requires sentence { is_sentence_of (schema_of lent.old) (sentence_of query.now) ≡ true }
    requires grounded { IsGroundOver (schema_of lent.old) query.now }
    requires all_nodes { log_nodes (schema_of lent.old) (log_of lent.old)
        + nodes (schema_of lent.old) (sentence_of query.now) ≤ 60000 }
    ensures findings { IfOk result
        (HasFindings (schema_of lent.old) (profile_of user.now) (log_of lent.old)
        (sentence_of query.now)) }
    ensures spent { IfOk result
        (AreSpentByCost (schema_of lent.old) (profile_of user.now) (log_of lent.old)
        (sentence_of query.now)) }
    ensures undecided { IfOk result (DecideUndecided (schema_of lent.old) (profile_of user.now)
        (log_of lent.old) (sentence_of query.now)) }
    ensures same { lent.new ≡ lent.old }
{
    law_spent_is_cost();
    law_undecided_is_cost();
    let findings = examine_held(rt, alloc, &mut lent.held, guards, user, query)?;
    Ok(findings)
}

/// The same over what is held.
fn examine_held<R: Threads + Sync>(
    rt: &R,
    alloc: Global,
    held: &mut Held<'_>,
    guards: &Guards<'_>,
    user: &User,
    query: &GroundSentence,
) -> Result<Findings, AllocError>
    requires together { AreTogether (held_views held.old) }
    requires can { CanBeExamined guards.now user.now query.now (held_view held.old) }
    ensures findings { IfOk result (HasFindings (schema_of (held_view held.old))
        (profile_of user.now) (log_of (held_view held.old)) (sentence_of query.now)) }
    ensures same { held_views held.new ≡ held_views held.old }
{
    match held {
        Held::One(view) => examine(alloc, view, guards, user, query),
        Held::Several(lanes) => examine_in_lanes(rt, alloc, lanes, guards, user, query),
    }
}

/// Makes the probes of a query in parts, each in its lane, and puts together what they found.
fn examine_in_lanes<R: Threads + Sync>(
    rt: &R,
    alloc: Global,
    lanes: &mut Vec<Lane<'_>>,
    guards: &Guards<'_>,
    user: &User,
    query: &GroundSentence,
) -> Result<Findings, AllocError>
    requires together { AreTogether (held_views (Held.Several lanes.old)) }
    requires can { CanBeExamined guards.now user.now query.now
        (held_view (Held.Several lanes.old)) }
    ensures findings { IfOk result
        (HasFindings (schema_of (held_view (Held.Several lanes.old))) (profile_of user.now)
        (log_of (held_view (Held.Several lanes.old))) (sentence_of query.now)) }
    ensures same { held_views (Held.Several lanes.new) ≡ held_views (Held.Several lanes.old) }
{
    let goals = guards.sentences();
    let cut = cut_of(user.method, goals.len(), lanes.len());
    run_all(rt, alloc, cut, user, query, goals, lanes);
    match gathered(lanes.as_slice()) {
        Some(all) => Ok(found(harms_of(all.yes, all.no), all.implied)),
        None => Err(AllocError),
    }
}

/// Runs each part in its lane, side by side.
fn run_all<R: Threads + Sync>(
    rt: &R,
    alloc: Global,
    cut: Cut,
    user: &User,
    query: &GroundSentence,
    goals: &[GroundSentence],
    lanes: &mut [Lane<'_>],
)
    requires some { 0 < length lanes.old }
    requires can { All (λ lane. CanBeAskedAt user.now query.now goals.now lane.view) lanes.old }
    requires cut { IsCut (length goals.now) cut }
    requires few { length goals.now ≤ 65536 }
    ensures count { length lanes.new ≡ length lanes.old }
    ensures run { (k : ℕ) (d : Lane) → k < length lanes.old
        → HasRun cut k user.now query.now goals.now (slice_index_or lanes.old k d)
        (slice_index_or lanes.new k d) }
{
    let threads = lanes.len();
    thread::for_each_mut(
        rt,
        lanes,
        threads,
        &|part, lane: &mut Lane<'_>|
            requires can { CanBeAskedAt user.now query.now goals.now lane.now.view }
            requires cut { IsCut (length goals.now) cut }
            requires few { length goals.now ≤ 65536 }
            ensures run { HasRun cut part user.entry.now query.entry.now goals.entry.now
                lane.entry.now lane.exit.now }
        { run_part(alloc, cut, part, lane, user, query, goals) },
    );
}

/// The harms of both answers.
fn harms_of(yes: Answer, no: Answer) -> Harms
    ensures { result ≡ harms_of yes no }
{
    Harms {
        spent: yes.spent || no.spent,
        yes: yes.entailed,
        no: no.entailed,
    }
}
