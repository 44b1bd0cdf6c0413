//! Other worlds that hide a secret.

ghost use Rattle.std.specs.Prelude.{◌≡◌, ◌<◌, ◌≤◌, ◌↔◌, ◌+◌, ◌++◌, true, false, map, length, IfOk};
ghost use Rattle.std.specs.Prelude.{OnOk, IfSome, IsNone, vec_len};
ghost use Rattle.cqe_base.specs.Formula.{formula_of, nodes, is_sentence_of};
ghost use Rattle.cqe_base.specs.Entailment.{entails, IsCountermodel};
ghost use Rattle.cqe_base.specs.Outcome.{Spent, outcome};
ghost use Rattle.cqe_base.specs.History.{profile_of, answered_query_of, told_by, log, user_at};
ghost use Rattle.cqe_base.specs.Censor.{admission_budget};
ghost use Rattle.cqe_base.specs.Limits.{KeepsLimits, KeepsSizes, FitsProbes};
ghost use Rattle.cqe_base.specs.Hiding.{LegalHistoriesHide, SecreciesStayOpen};
ghost use Rattle.cqe_base.specs.OtherWorlds.{IsLegalSomewhere, guard_at};
ghost use Rattle.cqe_base.specs.Secrecies.{LiarsKeepNoSecrecy};
ghost use Rattle.entailment.specs.Logs.{log_nodes};
ghost use Rattle.entailment.specs.Views.{schema_of, log_of};
ghost use Rattle.entailment.specs.GroundSentences.{sentence_of, IsGroundOver};
ghost use Rattle.entailment.specs.Verdicts.{verdict_of_probe};
ghost use Rattle.two_worlds.specs.Others.{HidesSecret};
ghost use Rattle.two_worlds.specs.OtherWorld.{world_in, other_world_of, IsOneForLies};

use censors::{ADMISSION_BUDGET, disjunction};
use cqe_base::laws::{
    law_admissible, law_alike, law_amended_limits, law_entailment, law_limits, law_logs, law_sizes,
};
use cqe_base::schema::Schema;
use cqe_base::sentence::Sentence;
use cqe_base::user::{Entry, Mark, Method, User};
use cqe_base::world::World;
use entailment::{GroundSentence, Probe, Verdict, View, test};
use std::alloc::{AllocError, Global};

/// Confidentiality: a legal history of an admitted user of the schema hides his secrets, those that
/// it adds among them. It computes nothing.
pub fn law_hides()
    ensures { LegalHistoriesHide }
{
    cqe_base::laws::law_hides();
}

/// Secrecies: such a history leaves each of his secrecies open, with another world in which it is
/// true and one in which it is false. A lying user with a secrecy is never admitted. It computes
/// nothing.
pub fn law_secrecy()
    ensures open { SecreciesStayOpen }
    ensures liars { LiarsKeepNoSecrecy }
{
    cqe_base::laws::law_secrecy();
}

/// A world in which what the user knows is true and this secret false, that admits him and for
/// which his history is legal, so that he gets the same replies there. What his history adds to his
/// secrets is counted behind them. It is that of the machine's model in which the log is true and
/// what is guarded for the secret false; so for lying one and the same world answers for all
/// secrets. `None` where the search for it needs more than the admission budget of 4,000,000.
pub fn other_world(
    alloc: Global,
    schema: &Schema,
    user: &User,
    entries: &[Entry],
    secret: u32,
) -> Result<Option<World>, AllocError>
    requires limits { KeepsLimits schema.now (profile_of user.now) }
    requires legal { IsLegalSomewhere schema.now (profile_of user.now)
        (map answered_query_of entries.now) }
    requires sizes { KeepsSizes schema.now (profile_of user.now)
        (map answered_query_of entries.now) }
    requires secret { secret < length (user_at (profile_of user.now)
        (map answered_query_of entries.now)).secrets }
    ensures hides { IfOk result (λ found.
        IfSome found (HidesSecret schema.now (profile_of user.now)
        (map answered_query_of entries.now) secret)) }
    ensures spent { IfOk result (λ found. IsNone found
        ↔ (outcome schema.now (log (profile_of user.now) (map answered_query_of entries.now))
        (guard_at (user_at (profile_of user.now) (map answered_query_of entries.now)) secret, true)
        admission_budget ≡ Spent)) }
    ensures world { IfOk result (λ found. found ≡ other_world_of schema.now (profile_of user.now)
        (map answered_query_of entries.now) secret) }
    ensures one_for_lies { IfOk result (IsOneForLies schema.now (profile_of user.now)
        (map answered_query_of entries.now)) }
{
    law_amended_limits();
    law_sizes();
    law_admissible();
    law_alike();
    schema.known();
    let mut view = told_view(alloc, schema, user, entries)?;
    let amended = user.after(alloc, entries)?;
    let goal = ground_guard(alloc, schema, &amended, secret)?;
    countermodel(alloc, &mut view, &goal)
}

/// The view whose log is that of the entries.
fn told_view<'s>(
    alloc: Global,
    schema: &'s Schema,
    user: &User,
    entries: &[Entry],
) -> Result<View<'s>, AllocError>
    requires limits { KeepsLimits schema.now (profile_of user.now) }
    requires sizes { KeepsSizes schema.now (profile_of user.now)
        (map answered_query_of entries.now) }
    ensures schema { IfOk result (λ view. schema_of view ≡ schema.now) }
    ensures log { IfOk result (λ view. log_of view
        ≡ log (profile_of user.now) (map answered_query_of entries.now)) }
    ensures nodes { IfOk result (λ view. log_nodes (schema_of view) (log_of view) ≤ 60000) }
{
    law_limits();
    law_logs();
    let mut view = View::new(alloc, schema, user)?;
    for entry in entries {
        tell(alloc, &mut view, entry)?;
    }
    Ok(view)
}

/// Appends what an entry tells to the log.
pub fn tell(alloc: Global, view: &mut View<'_>, entry: &Entry) -> Result<(), AllocError>
    requires sentence { is_sentence_of (schema_of view.old) (formula_of entry.now.query) ≡ true }
    requires query { nodes (schema_of view.old) (formula_of entry.now.query) ≤ 20000 }
    requires room { log_nodes (schema_of view.old) (log_of view.old)
        + (1 + nodes (schema_of view.old) (formula_of entry.now.query)) ≤ 60000 }
    ensures schema { schema_of view.new ≡ schema_of view.old }
    ensures log { OnOk result (log_of view.new
        ≡ log_of view.old ++ told_by entry.now.mark (formula_of entry.now.query)) }
    ensures nodes { OnOk result (log_nodes (schema_of view.new) (log_of view.new) ≤ 60000) }
{
    match entry.mark {
        Mark::Yes => view.add(alloc, &entry.query, true),
        Mark::No => view.add(alloc, &entry.query, false),
        Mark::Refused | Mark::Undecided | Mark::Protected => Ok(()),
    }
}

/// What is guarded in the place of a secret, with its ground formula.
fn ground_guard(
    alloc: Global,
    schema: &Schema,
    user: &User,
    secret: u32,
) -> Result<GroundSentence, AllocError>
    requires fits { FitsProbes schema.now (profile_of user.now) }
    requires secret { secret < vec_len user.now.secrets }
    ensures grounded { IfOk result (IsGroundOver schema.now) }
    ensures guard { IfOk result (λ made. sentence_of made ≡ guard_at (profile_of user.now) secret) }
{
    let sentence = guard(alloc, user, secret)?;
    let made = GroundSentence::new(alloc, schema, sentence)?;
    Ok(made)
}

/// What is guarded in the place of a secret: for lying the disjunction of the secrets, and else the
/// secret.
fn guard(alloc: Global, user: &User, secret: u32) -> Result<Sentence, AllocError>
    requires { secret < vec_len user.now.secrets }
    ensures { IfOk result (λ made. formula_of made ≡ guard_at (profile_of user.now) secret) }
{
    match user.method {
        Method::Lying => disjunction(alloc, user.secrets.as_slice()),
        Method::Refusal | Method::Combined => user.secrets[secret as usize].copy(alloc),
    }
}

/// A world in which the log is true and the goal false, where the log doesn't entail the goal.
fn countermodel(
    alloc: Global,
    view: &mut View<'_>,
    goal: &GroundSentence,
) -> Result<Option<World>, AllocError>
    requires sentence { is_sentence_of (schema_of view.old) (sentence_of goal.now) ≡ true }
    requires grounded { IsGroundOver (schema_of view.old) goal.now }
    requires goal_nodes { nodes (schema_of view.old) (sentence_of goal.now) ≤ 40000 }
    requires log_nodes { log_nodes (schema_of view.old) (log_of view.old) ≤ 60000 }
    requires unknown { entails (schema_of view.old) (log_of view.old) (sentence_of goal.now, true)
        ≡ false }
    ensures open { IfOk result (λ found.
        IfSome found (IsCountermodel (schema_of view.old) (log_of view.old)
        (sentence_of goal.now, true))) }
    ensures spent { IfOk result (λ found. IsNone found
        ↔ (outcome (schema_of view.old) (log_of view.old)
        (sentence_of goal.now, true) admission_budget ≡ Spent)) }
    ensures world { IfOk result (λ found. found ≡ world_in (verdict_of_probe (schema_of view.old)
        (log_of view.old) (sentence_of goal.now, true) admission_budget)) }
{
    law_entailment();
    let probe = Probe {
        premise: None,
        goal: (goal, true),
    };
    match test(alloc, view, &probe, ADMISSION_BUDGET)? {
        Verdict::Open(world) => Ok(Some(world)),
        Verdict::Follows | Verdict::Spent => Ok(None),
    }
}
