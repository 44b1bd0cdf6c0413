//! What the probes of a query find.

ghost use Rattle.std.specs.Prelude.{◌≡◌, ◌≤◌, ◌+◌, [], ◌∷◌, ◌++◌, true, false, Some, None, nat_le};
ghost use Rattle.std.specs.Prelude.{All, map, IfOk, if◌then◌else◌};
ghost use Rattle.std.specs.List.{list_all};
ghost use Rattle.cqe_base.specs.Formula.{nodes, is_sentence_of};
ghost use Rattle.cqe_base.specs.Entailment.{are_sentences_of};
ghost use Rattle.cqe_base.specs.History.{profile_of};
ghost use Rattle.cqe_base.specs.Limits.{FitsProbes};
ghost use Rattle.cqe_base.specs.Censor.{guarded};
ghost use Rattle.entailment.specs.Logs.{log_nodes, sentence_nodes};
ghost use Rattle.entailment.specs.Views.{schema_of, log_of};
ghost use Rattle.entailment.specs.GroundSentences.{sentence_of, IsGroundOver};
ghost use Rattle.entailment.specs.Probes.{premise_of, goal_of, signed_at, IsGroundPremise};
ghost use Rattle.censors.specs.Found.{HasFindings};
ghost use Rattle.censors.specs.Costs.{AreSpentByCost, DecideUndecided};
ghost use Rattle.censors.specs.Asked.{IsAnswer, IsAnswerOfAll, AreHarms, IsImplied, IsImpliedBy};
ghost use Rattle.censors.specs.Asked.{together, findings_of};

use crate::{Guards, law_undecided_is_cost};
use cqe_base::laws::law_entailment;
use cqe_base::machine_laws::law_spent_is_cost;
use cqe_base::user::{Method, User};
use entailment::{GroundSentence, Probe, ProbeOutcome, View, probe_outcome};
use std::alloc::{AllocError, Global};

/// What the probes of a query found. Where `spent` is true the other fields say nothing.
#[derive(Clone, Copy, Debug)]
pub struct Findings {
    /// Some probe needs more than the user's budget.
    pub spent: bool,
    /// For refusal, the answer that the log entails.
    pub implied: Option<bool>,
    /// The log with the query entails a guarded sentence.
    pub yes_harm: bool,
    /// The log with the query's negation does.
    pub no_harm: bool,
}

/// What one probe found, or several against different goals: whether some is spent, and where none
/// is, whether some goal is entailed.
#[derive(Clone, Copy)]
pub(crate) struct Answer {
    pub(crate) spent: bool,
    pub(crate) entailed: bool,
}

/// What the probes of both answers to a query found.
#[derive(Clone, Copy)]
pub(crate) struct Harms {
    pub(crate) spent: bool,
    pub(crate) yes: bool,
    pub(crate) no: bool,
}

/// The answer to a query that the log entails.
#[derive(Clone, Copy)]
pub(crate) struct Implied {
    spent: bool,
    answer: Option<bool>,
}

/// Makes every probe of a query after the view's log, with the budget of the user, who has the
/// secrets of now. It looks at no world, and the log stays.
pub fn examine(
    alloc: Global,
    view: &mut View<'_>,
    guards: &Guards<'_>,
    user: &User,
    query: &GroundSentence,
) -> Result<Findings, AllocError>
    requires fits { FitsProbes (schema_of view.old) (profile_of user.now) }
    requires guards_schema { guards.now.schema ≡ schema_of view.old }
    requires guarded { guards.now.sentences ≡ guarded (profile_of user.now) }
    requires sentence { is_sentence_of (schema_of view.old) (sentence_of query.now) ≡ true }
    requires grounded { IsGroundOver (schema_of view.old) query.now }
    requires all_nodes { log_nodes (schema_of view.old) (log_of view.old)
        + nodes (schema_of view.old) (sentence_of query.now) ≤ 60000 }
    ensures findings { IfOk result
        (HasFindings (schema_of view.old) (profile_of user.now) (log_of view.old)
        (sentence_of query.now)) }
    ensures spent { IfOk result
        (AreSpentByCost (schema_of view.old) (profile_of user.now) (log_of view.old)
        (sentence_of query.now)) }
    ensures undecided { IfOk result (DecideUndecided (schema_of view.old) (profile_of user.now)
        (log_of view.old) (sentence_of query.now)) }
    ensures same { view.new ≡ view.old }
{
    law_spent_is_cost();
    law_undecided_is_cost();
    let implied = ask_implied(alloc, view, user, query)?;
    let harms = ask_both(alloc, view, query, guards.sentences(), user.budget)?;
    Ok(found(harms, implied))
}

/// The findings of both answers' harms and, for refusal, of the answer that the log entails.
pub(crate) fn found(harms: Harms, implied: Option<Implied>) -> Findings
    ensures { result ≡ findings_of harms implied }
{
    match implied {
        None => Findings {
            spent: harms.spent,
            implied: None,
            yes_harm: harms.yes,
            no_harm: harms.no,
        },
        Some(implied) => Findings {
            spent: implied.spent || harms.spent,
            implied: implied.answer,
            yes_harm: harms.yes,
            no_harm: harms.no,
        },
    }
}

/// For refusal, the answer that the log entails.
pub(crate) fn ask_implied(
    alloc: Global,
    view: &mut View<'_>,
    user: &User,
    query: &GroundSentence,
) -> Result<Option<Implied>, AllocError>
    requires sentence { is_sentence_of (schema_of view.old) (sentence_of query.now) ≡ true }
    requires grounded { IsGroundOver (schema_of view.old) query.now }
    requires all_nodes { log_nodes (schema_of view.old) (log_of view.old)
        + nodes (schema_of view.old) (sentence_of query.now) ≤ 60000 }
    requires budget { user.now.budget ≤ 4000000 }
    ensures implied { IfOk result (IsImpliedBy user.now.method (schema_of view.old) user.now.budget
        (log_of view.old) (sentence_of query.now)) }
    ensures same { view.new ≡ view.old }
{
    match user.method {
        Method::Refusal => {
            let implied = ask_log(alloc, view, query, user.budget)?;
            Ok(Some(implied))
        }
        Method::Lying | Method::Combined => Ok(None),
    }
}

/// Probes the log against the query and against its negation.
fn ask_log(
    alloc: Global,
    view: &mut View<'_>,
    query: &GroundSentence,
    budget: u64,
) -> Result<Implied, AllocError>
    requires sentence { is_sentence_of (schema_of view.old) (sentence_of query.now) ≡ true }
    requires grounded { IsGroundOver (schema_of view.old) query.now }
    requires all_nodes { log_nodes (schema_of view.old) (log_of view.old)
        + nodes (schema_of view.old) (sentence_of query.now) ≤ 60000 }
    requires budget { budget ≤ 4000000 }
    ensures implied { IfOk result
        (IsImplied (schema_of view.old) budget (log_of view.old) (sentence_of query.now)) }
    ensures same { view.new ≡ view.old }
{
    let yes = ask(
        alloc,
        view,
        &Probe {
            premise: None,
            goal: (query, true),
        },
        budget,
    )?;
    let no = ask(
        alloc,
        view,
        &Probe {
            premise: None,
            goal: (query, false),
        },
        budget,
    )?;
    Ok(Implied {
        spent: yes.spent || no.spent,
        answer: implied_answer(yes.entailed, no.entailed),
    })
}

/// The answer that is entailed, yes before no.
fn implied_answer(yes: bool, no: bool) -> Option<bool>
    ensures { result ≡ (if yes then Some true else if no then Some false else None) }
{
    if yes {
        Some(true)
    } else if no {
        Some(false)
    } else {
        None
    }
}

/// Probes the log with the query, and with its negation, against each goal.
fn ask_both(
    alloc: Global,
    view: &mut View<'_>,
    query: &GroundSentence,
    goals: &[GroundSentence],
    budget: u64,
) -> Result<Harms, AllocError>
    requires sentence { is_sentence_of (schema_of view.old) (sentence_of query.now) ≡ true }
    requires grounded { IsGroundOver (schema_of view.old) query.now }
    requires all_nodes { log_nodes (schema_of view.old) (log_of view.old)
        + nodes (schema_of view.old) (sentence_of query.now) ≤ 60000 }
    requires goals { list_all (is_sentence_of (schema_of view.old)) (map sentence_of goals.now)
        ≡ true }
    requires goal_nodes { list_all (λ goal. nat_le (nodes (schema_of view.old) goal) 40000)
        (map sentence_of goals.now) ≡ true }
    requires grounded_goals { All (IsGroundOver (schema_of view.old)) goals.now }
    requires budget { budget ≤ 4000000 }
    ensures harms { IfOk result
        (AreHarms (schema_of view.old) budget (log_of view.old) (sentence_of query.now)
        (map sentence_of goals.now)) }
    ensures same { view.new ≡ view.old }
{
    let yes = ask_each(alloc, view, (query, true), goals, budget)?;
    let no = ask_each(alloc, view, (query, false), goals, budget)?;
    Ok(Harms {
        spent: yes.spent || no.spent,
        yes: yes.entailed,
        no: no.entailed,
    })
}

/// Probes the log with a premise against each goal, to the last, whatever the probes before it
/// found.
pub(crate) fn ask_each(
    alloc: Global,
    view: &mut View<'_>,
    premise: (&GroundSentence, bool),
    goals: &[GroundSentence],
    budget: u64,
) -> Result<Answer, AllocError>
    requires premise { is_sentence_of (schema_of view.old) (signed_at premise).0 ≡ true }
    requires grounded { IsGroundOver (schema_of view.old) premise.0.now }
    requires all_nodes { log_nodes (schema_of view.old) (log_of view.old)
        + nodes (schema_of view.old) (signed_at premise).0 ≤ 60000 }
    requires goals { list_all (is_sentence_of (schema_of view.old)) (map sentence_of goals.now)
        ≡ true }
    requires goal_nodes { list_all (λ goal. nat_le (nodes (schema_of view.old) goal) 40000)
        (map sentence_of goals.now) ≡ true }
    requires grounded_goals { All (IsGroundOver (schema_of view.old)) goals.now }
    requires budget { budget ≤ 4000000 }
    ensures answer { IfOk result
        (IsAnswerOfAll (schema_of view.old) budget (log_of view.old ++ signed_at premise.entry ∷ [])
        (map sentence_of goals.now)) }
    ensures same { view.new ≡ view.old }
{
    let mut all = Answer {
        spent: false,
        entailed: false,
    };
    for goal in goals {
        let probe = Probe {
            premise: Some(premise),
            goal: (goal, true),
        };
        let one = ask(alloc, view, &probe, budget)?;
        all = together(all, one);
    }
    Ok(all)
}

/// What two answers say together: some probe is spent, some goal is entailed.
pub(crate) fn together(first: Answer, second: Answer) -> Answer
    ensures { result ≡ together first second }
{
    Answer {
        spent: first.spent || second.spent,
        entailed: first.entailed || second.entailed,
    }
}

/// Runs one probe.
fn ask(
    alloc: Global,
    view: &mut View<'_>,
    probe: &Probe<'_>,
    budget: u64,
) -> Result<Answer, AllocError>
    requires premise { are_sentences_of (schema_of view.old) (premise_of probe.now) ≡ true }
    requires goal { is_sentence_of (schema_of view.old) (goal_of probe.now).0 ≡ true }
    requires all_nodes { log_nodes (schema_of view.old) (log_of view.old)
        + sentence_nodes (schema_of view.old) (premise_of probe.now)
        + nodes (schema_of view.old) (goal_of probe.now).0 ≤ 100000 }
    requires grounded_premise { IsGroundPremise (schema_of view.old) probe.now.premise }
    requires grounded_goal { IsGroundOver (schema_of view.old) probe.now.goal.0.now }
    requires budget { budget ≤ 4000000 }
    ensures answer { IfOk result
        (IsAnswer (schema_of view.old) budget (log_of view.old ++ premise_of probe.now)
        (goal_of probe.now)) }
    ensures same { view.new ≡ view.old }
{
    law_entailment();
    match probe_outcome(alloc, view, probe, budget)? {
        ProbeOutcome::Follows => Ok(Answer {
            spent: false,
            entailed: true,
        }),
        ProbeOutcome::Open => Ok(Answer {
            spent: false,
            entailed: false,
        }),
        ProbeOutcome::Spent => Ok(Answer {
            spent: true,
            entailed: false,
        }),
    }
}
