//! Who is admitted, and which test fails first.

ghost use Rattle.std.specs.Prelude.{◌≡◌, ◌≤◌, true, ◌↔◌, map, length, nat_le, None, IfOk};
ghost use Rattle.std.specs.List.{list_all};
ghost use Rattle.cqe_base.specs.Formula.{formula_of, nodes, is_sentence_of};
ghost use Rattle.cqe_base.specs.History.{profile_of, known, disjunction_of};
ghost use Rattle.cqe_base.specs.Limits.{KeepsLimits};
ghost use Rattle.cqe_base.specs.Outcome.{outcome};
ghost use Rattle.cqe_base.specs.Censor.{admitted, admission_budget};
ghost use Rattle.entailment.specs.Logs.{log_nodes};
ghost use Rattle.entailment.specs.Views.{schema_of, log_of};
ghost use Rattle.entailment.specs.Probes.{outcome_found};
ghost use Rattle.censors.specs.Admitting.{probe_objection, secrets_objection, truth_objection};
ghost use Rattle.censors.specs.Admitting.{objection_of, admission_of};

use crate::disjunction;
use cqe_base::laws::{law_limits, law_secrecy};
use cqe_base::schema::Schema;
use cqe_base::sentence::Sentence;
use cqe_base::user::{Method, User};
use cqe_base::world::World;
use entailment::{GroundSentence, Probe, ProbeOutcome, View, probe_outcome};
use std::alloc::{AllocError, Global};
use truth_eval::holds;

/// The budget of the probes at admission, in steps of the search.
pub const ADMISSION_BUDGET: u64 = 4_000_000;

/// Whether a user can be served in a world, and else the first test that fails: for refusal those
/// of the sentences that he knows, in their order; then the probes of these against the disjunction
/// of the secrets, for lying, or against each secret in order. A number is that of a sentence or a
/// secret, from 0; `None` stands for the disjunction.
#[derive(Clone, Copy, Debug, PartialEq, Eq)]
pub enum Admission {
    /// He is admitted.
    Open,
    /// A sentence that he knows is false in the world.
    KnowFalse(u32),
    /// What he knows entails what is guarded from him.
    Implied(Option<u32>),
    /// The probe needs more than the admission budget.
    Spent(Option<u32>),
}

/// Tests whether a user is admitted in a world, with the admission budget of 4,000,000.
pub fn admit(
    alloc: Global,
    schema: &Schema,
    world: &World,
    user: &User,
) -> Result<Admission, AllocError>
    requires { KeepsLimits schema.now (profile_of user.now) }
    ensures first { IfOk result (λ found. found
        ≡ admission_of schema.now world.now (profile_of user.now)) }
    ensures open { IfOk result (λ found. (found ≡ Admission.Open)
        ↔ (admitted schema.now world.now (profile_of user.now) ≡ true)) }
    // A lying user with a secrecy is never admitted.
    ensures liars { IfOk result (λ found. user.now.method ≡ Method.Lying → 1 ≤ user.now.pairs
        → found ≡ Admission.Open → ⊥) }
{
    law_secrecy();
    schema.known();
    match objection(alloc, schema, world, user)? {
        Some(found) => Ok(found),
        None => Ok(Admission::Open),
    }
}

/// The first test of an admission that fails.
fn objection(
    alloc: Global,
    schema: &Schema,
    world: &World,
    user: &User,
) -> Result<Option<Admission>, AllocError>
    requires { KeepsLimits schema.now (profile_of user.now) }
    ensures { IfOk result (λ found. found
        ≡ objection_of user.now.method schema.now world.now (map formula_of user.now.know.items)
        (known (profile_of user.now)) (map formula_of user.now.secrets.items)) }
{
    match user.method {
        Method::Lying => disjunction_objection(alloc, schema, user),
        Method::Refusal => match truth_objection(schema, world, user.know.as_slice()) {
            Some(found) => Ok(Some(found)),
            None => secrets_objection(alloc, schema, user),
        },
        Method::Combined => secrets_objection(alloc, schema, user),
    }
}

/// The first of the sentences that is false in the world.
fn truth_objection(schema: &Schema, world: &World, sentences: &[Sentence]) -> Option<Admission>
    requires sentences { list_all (is_sentence_of schema.now) (map formula_of sentences.now)
        ≡ true }
    requires few { length sentences.now ≤ 256 }
    ensures { result ≡ truth_objection schema.now world.now (map formula_of sentences.now) }
{
    for (number, sentence) in sentences.iter().enumerate() {
        if !holds(schema, world, sentence) {
            return Some(Admission::KnowFalse(number as u32));
        }
    }
    None
}

/// The probe of what the user knows against the disjunction of his secrets.
fn disjunction_objection(
    alloc: Global,
    schema: &Schema,
    user: &User,
) -> Result<Option<Admission>, AllocError>
    requires limits { KeepsLimits schema.now (profile_of user.now) }
    requires lying { user.now.method ≡ Method.Lying }
    ensures { IfOk result (λ found. found
        ≡ probe_objection schema.now (known (profile_of user.now))
        (disjunction_of (map formula_of user.now.secrets.items)) None) }
{
    law_limits();
    let mut view = View::new(alloc, schema, user)?;
    let goal = disjunction(alloc, user.secrets.as_slice())?;
    let found = probe_objection(alloc, schema, &mut view, goal, None)?;
    Ok(found)
}

/// The first probe of what the user knows against a secret that isn't open.
fn secrets_objection(
    alloc: Global,
    schema: &Schema,
    user: &User,
) -> Result<Option<Admission>, AllocError>
    requires { KeepsLimits schema.now (profile_of user.now) }
    ensures { IfOk result (λ found. found
        ≡ secrets_objection schema.now (known (profile_of user.now)) 0
        (map formula_of user.now.secrets.items)) }
{
    law_limits();
    let mut view = View::new(alloc, schema, user)?;
    let found = first_objection(alloc, schema, &mut view, user.secrets.as_slice())?;
    Ok(found)
}

/// The first probe of the log against a secret that isn't open.
fn first_objection(
    alloc: Global,
    schema: &Schema,
    view: &mut View<'_>,
    secrets: &[Sentence],
) -> Result<Option<Admission>, AllocError>
    requires schema { schema_of view.old ≡ schema.now }
    requires sentences { list_all (is_sentence_of schema.now) (map formula_of secrets.now) ≡ true }
    requires secret_nodes { list_all (λ secret. nat_le (nodes schema.now secret) 40000)
        (map formula_of secrets.now) ≡ true }
    requires few { length secrets.now ≤ 256 }
    requires log_nodes { log_nodes schema.now (log_of view.old) ≤ 40000 }
    ensures { IfOk result (λ found. found
        ≡ secrets_objection schema.now (log_of view.old) 0 (map formula_of secrets.now)) }
{
    for (number, secret) in secrets.iter().enumerate() {
        let goal = secret.copy(alloc)?;
        let found = probe_objection(alloc, schema, view, goal, Some(number as u32))?;
        if found.is_some() {
            return Ok(found);
        }
    }
    Ok(None)
}

/// What the probe of the log against a goal says against an admission, at the admission budget.
fn probe_objection(
    alloc: Global,
    schema: &Schema,
    view: &mut View<'_>,
    goal: Sentence,
    number: Option<u32>,
) -> Result<Option<Admission>, AllocError>
    requires schema { schema_of view.old ≡ schema.now }
    requires sentence { is_sentence_of schema.now (formula_of goal) ≡ true }
    requires goal_nodes { nodes schema.now (formula_of goal) ≤ 40000 }
    requires log_nodes { log_nodes schema.now (log_of view.old) ≤ 40000 }
    ensures found { IfOk result (λ found. found
        ≡ probe_objection schema.now (log_of view.old) (formula_of goal) number) }
    ensures same { view.new ≡ view.old }
{
    match admission_outcome(alloc, schema, view, goal)? {
        ProbeOutcome::Follows => Ok(Some(Admission::Implied(number))),
        ProbeOutcome::Open => Ok(None),
        ProbeOutcome::Spent => Ok(Some(Admission::Spent(number))),
    }
}

/// The outcome of the probe of the log against a goal, at the admission budget.
pub(crate) fn admission_outcome(
    alloc: Global,
    schema: &Schema,
    view: &mut View<'_>,
    goal: Sentence,
) -> Result<ProbeOutcome, AllocError>
    requires schema { schema_of view.old ≡ schema.now }
    requires sentence { is_sentence_of schema.now (formula_of goal) ≡ true }
    requires goal_nodes { nodes schema.now (formula_of goal) ≤ 40000 }
    requires log_nodes { log_nodes schema.now (log_of view.old) ≤ 60000 }
    ensures outcome { IfOk result (λ found. outcome_found found
        ≡ outcome schema.now (log_of view.old) (formula_of goal, true) admission_budget) }
    ensures same { view.new ≡ view.old }
{
    let goal = GroundSentence::new(alloc, schema, goal)?;
    let probe = Probe {
        premise: None,
        goal: (&goal, true),
    };
    let found = probe_outcome(alloc, view, &probe, ADMISSION_BUDGET)?;
    Ok(found)
}
