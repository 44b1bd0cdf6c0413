//! Probes: the clause form of what is asked, the search, and the check of what is told of it.
ghost use Rattle.std.specs.Prelude.{◌≡◌, ◌≤◌, ◌+◌, true, ◌++◌, map, Some, IfOk};
ghost use Rattle.cqe_base.specs.Formula.{nodes, is_sentence_of};
ghost use Rattle.cqe_base.specs.Entailment.{are_sentences_of};
ghost use Rattle.cqe_base.specs.Refutation.{is_model};
ghost use Rattle.cqe_base.specs.Machine.{Model, Refuted};
ghost use Rattle.cqe_base.specs.Outcome.{outcome, grounded_signed};
ghost use Rattle.clause_store.specs.PlainLines.{lines_of};
ghost use Rattle.clause_form.specs.Models.{HaveModelsInWorlds};
ghost use Rattle.clause_solver.specs.Beginnings.{IsBeginning};
ghost use Rattle.entailment.specs.Logs.{log_nodes, sentence_nodes};
ghost use Rattle.entailment.specs.Forms.{with_negated, IsSearchable, IsForProbe, GoesOn};
ghost use Rattle.entailment.specs.Forms.{StaysOrEmpty};
ghost use Rattle.entailment.specs.Views.{schema_of, log_of};
ghost use Rattle.entailment.specs.Budgets.{IsSpentByCost};
ghost use Rattle.entailment.specs.Verdicts.{verdict_of_probe, checked_verdict, searched_verdict};
ghost use Rattle.entailment.specs.Verdicts.{as_wanted, IsCheckedOf, end_of_probe, searched_end};
ghost use Rattle.entailment.specs.Certificates.{as_verdict, clauses_of_probe, IsRightFor};
ghost use Rattle.entailment.specs.Certificates.{IsRightOf, IsMachines, IsMachinesOf};
ghost use Rattle.entailment.specs.Certificates.{HasSmallNumbers};
ghost use Rattle.entailment.specs.GroundSentences.{IsGroundOver};
ghost use Rattle.entailment.specs.Probes.{premise_of, goal_of, outcome_of, outcome_found};
ghost use Rattle.entailment.specs.Probes.{IsTrueOutcome, IsTrueVerdict, IsGroundPremise};
ghost use Rattle.entailment.specs.Probes.{added_by};

use crate::forms::{add_probe, form_rest};
use crate::sentences::GroundSentence;
use crate::view::View;
use clause_form::former::Former;
use clause_form::laws::law_models_are_worlds_of_schema;
use clause_solver::{Found, KeptSearch};
use clause_store::refutation::{Refutation, Signs};
use cqe_base::laws::law_grounded_nodes;
use cqe_base::machine_laws::{
    law_budget_is_whole_cost, law_clause_form_has_no_repeat, law_clause_form_is_prefix,
    law_clause_form_uses_its_variables, law_machine_ends_are_right, law_model_is_countermodel,
    law_numbered_facts_are_few, law_numbered_facts_are_of_schema, law_refutation_entails,
    law_spent_is_cost, law_variables_are_few,
};
use cqe_base::schema::Schema;
use cqe_base::world::World;
use proof_check::model::check_model;
use proof_check::refutation::check_refutation;
use std::alloc::{AllocError, Global};

/// A further premise, if there is one, and a goal: each a sentence, or with `false` beside it its
/// negation.
#[derive(Clone, Copy)]
pub struct Probe<'a> {
    pub premise: Option<(&'a GroundSentence, bool)>,
    pub goal: (&'a GroundSentence, bool),
}

/// What a probe found.
#[derive(Drop)]
pub enum Verdict {
    /// The premises entail the goal.
    Follows,
    /// In this world the premises are true and the goal is false.
    Open(World),
    /// The budget doesn't suffice.
    Spent,
}

/// What a probe found, without a world.
#[derive(Clone, Copy)]
pub enum ProbeOutcome {
    /// The premises entail the goal.
    Follows,
    /// They don't.
    Open,
    /// The budget doesn't suffice.
    Spent,
}

/// What a probe found, with what shows it.
#[derive(Drop)]
pub enum Certified {
    /// The premises entail the goal: this refutation of the probe's clauses is right.
    Follows(Refutation),
    /// In this world the premises are true and the goal is false.
    Open(World),
    /// The budget doesn't suffice.
    Spent,
}

/// What is wanted of an open probe.
#[derive(Clone, Copy)]
enum Wanted {
    /// That it is open; its verdict has the empty world.
    Outcome,
    /// The world of the machine's model.
    World,
}

/// Runs a probe of the view's log with a budget. The clause form of the log, of the premise and of
/// the negated goal is searched, and what the search found is checked again before it is told. Each
/// end of the machine is right, so the check never fails: a probe is spent for its cost alone.
pub fn test(
    alloc: Global,
    view: &mut View<'_>,
    probe: &Probe<'_>,
    budget: u64,
) -> Result<Verdict, AllocError>
    requires premise { are_sentences_of (schema_of view.old) (premise_of probe.now) ≡ true }
    requires goal { is_sentence_of (schema_of view.old) (goal_of probe.now).0 ≡ true }
    requires all_nodes { log_nodes (schema_of view.old) (log_of view.old)
        + sentence_nodes (schema_of view.old) (premise_of probe.now)
        + nodes (schema_of view.old) (goal_of probe.now).0 ≤ 100000 }
    requires grounded_premise { IsGroundPremise (schema_of view.old) probe.now.premise }
    requires grounded_goal { IsGroundOver (schema_of view.old) probe.now.goal.0.now }
    requires budget { budget ≤ 4000000 }
    ensures outcome { IfOk result (λ verdict. outcome_of verdict
        ≡ outcome (schema_of view.old) (log_of view.old ++ premise_of probe.now)
        (goal_of probe.now) budget) }
    ensures end { IfOk result (λ verdict. verdict ≡ verdict_of_probe (schema_of view.old)
        (log_of view.old ++ premise_of probe.now) (goal_of probe.now) budget) }
    ensures sound { IfOk result
        (IsTrueVerdict (schema_of view.old) (log_of view.old ++ premise_of probe.now)
        (goal_of probe.now)) }
    ensures spent { IfOk result
        (IsSpentByCost (schema_of view.old) (log_of view.old ++ premise_of probe.now)
        (goal_of probe.now) budget) }
    ensures models { IfOk result (λ verdict. HaveModelsInWorlds (schema_of view.old)
        (with_negated (log_of view.old ++ premise_of probe.now) (goal_of probe.now))) }
    ensures same { view.new ≡ view.old }
{
    match run(alloc, view, probe, budget, Wanted::World)? {
        Certified::Follows(_) => Ok(Verdict::Follows),
        Certified::Open(world) => Ok(Verdict::Open(world)),
        Certified::Spent => Ok(Verdict::Spent),
    }
}

/// The same, with the refutation where the goal follows: that with which the machine ends. It is
/// right for the probe's clauses, those of the log, of the premise and of the negated goal, and its
/// lines are numbered on from them; so `confirm` says yes of it. Each number in it is at most
/// 2,147,483,646.
pub fn certify(
    alloc: Global,
    view: &mut View<'_>,
    probe: &Probe<'_>,
    budget: u64,
) -> Result<Certified, AllocError>
    requires premise { are_sentences_of (schema_of view.old) (premise_of probe.now) ≡ true }
    requires goal { is_sentence_of (schema_of view.old) (goal_of probe.now).0 ≡ true }
    requires all_nodes { log_nodes (schema_of view.old) (log_of view.old)
        + sentence_nodes (schema_of view.old) (premise_of probe.now)
        + nodes (schema_of view.old) (goal_of probe.now).0 ≤ 100000 }
    requires grounded_premise { IsGroundPremise (schema_of view.old) probe.now.premise }
    requires grounded_goal { IsGroundOver (schema_of view.old) probe.now.goal.0.now }
    requires budget { budget ≤ 4000000 }
    ensures outcome { IfOk result (λ found. outcome_of (as_verdict found)
        ≡ outcome (schema_of view.old) (log_of view.old ++ premise_of probe.now)
        (goal_of probe.now) budget) }
    ensures end { IfOk result (λ found. as_verdict found ≡ verdict_of_probe (schema_of view.old)
        (log_of view.old ++ premise_of probe.now) (goal_of probe.now) budget) }
    ensures sound { IfOk result (λ found.
        IsTrueVerdict (schema_of view.old) (log_of view.old ++ premise_of probe.now)
        (goal_of probe.now) (as_verdict found)) }
    ensures right { IfOk result
        (IsRightFor (clauses_of_probe (schema_of view.old) (log_of view.old
        ++ premise_of probe.now) (goal_of probe.now))) }
    ensures lines { IfOk result
        (IsMachines (end_of_probe (schema_of view.old) (log_of view.old ++ premise_of probe.now)
        (goal_of probe.now) budget)) }
    ensures small { IfOk result HasSmallNumbers }
    ensures same { view.new ≡ view.old }
{
    run(alloc, view, probe, budget, Wanted::World)
}

/// The outcome of a probe, by the same search. A refutation is checked again; of a model the
/// search's clause says that it is right. No world is made and no model checked, which for an open
/// probe take longer than all else.
pub fn probe_outcome(
    alloc: Global,
    view: &mut View<'_>,
    probe: &Probe<'_>,
    budget: u64,
) -> Result<ProbeOutcome, AllocError>
    requires premise { are_sentences_of (schema_of view.old) (premise_of probe.now) ≡ true }
    requires goal { is_sentence_of (schema_of view.old) (goal_of probe.now).0 ≡ true }
    requires all_nodes { log_nodes (schema_of view.old) (log_of view.old)
        + sentence_nodes (schema_of view.old) (premise_of probe.now)
        + nodes (schema_of view.old) (goal_of probe.now).0 ≤ 100000 }
    requires grounded_premise { IsGroundPremise (schema_of view.old) probe.now.premise }
    requires grounded_goal { IsGroundOver (schema_of view.old) probe.now.goal.0.now }
    requires budget { budget ≤ 4000000 }
    ensures outcome { IfOk result (λ found. outcome_found found
        ≡ outcome (schema_of view.old) (log_of view.old ++ premise_of probe.now)
        (goal_of probe.now) budget) }
    ensures sound { IfOk result (λ found.
        IsTrueOutcome (schema_of view.old) (log_of view.old ++ premise_of probe.now)
        (goal_of probe.now) (outcome_found found)) }
    ensures same { view.new ≡ view.old }
{
    match run(alloc, view, probe, budget, Wanted::Outcome)? {
        Certified::Follows(_) => Ok(ProbeOutcome::Follows),
        Certified::Open(_) => Ok(ProbeOutcome::Open),
        Certified::Spent => Ok(ProbeOutcome::Spent),
    }
}

/// What a probe found, with the refutation where it follows, and the world of an open one where
/// that is wanted.
fn run(
    alloc: Global,
    view: &mut View<'_>,
    probe: &Probe<'_>,
    budget: u64,
    wanted: Wanted,
) -> Result<Certified, AllocError>
    requires premise { are_sentences_of (schema_of view.old) (premise_of probe.now) ≡ true }
    requires goal { is_sentence_of (schema_of view.old) (goal_of probe.now).0 ≡ true }
    requires all_nodes { log_nodes (schema_of view.old) (log_of view.old)
        + sentence_nodes (schema_of view.old) (premise_of probe.now)
        + nodes (schema_of view.old) (goal_of probe.now).0 ≤ 100000 }
    requires grounded_premise { IsGroundPremise (schema_of view.old) probe.now.premise }
    requires grounded_goal { IsGroundOver (schema_of view.old) probe.now.goal.0.now }
    requires budget { budget ≤ 4000000 }
    ensures outcome { IfOk result (λ found. outcome_of (as_verdict found)
        ≡ outcome (schema_of view.old) (log_of view.old ++ premise_of probe.now)
        (goal_of probe.now) budget) }
    ensures end { IfOk result (λ found. as_verdict found
        ≡ as_wanted wanted (verdict_of_probe (schema_of view.old)
        (log_of view.old ++ premise_of probe.now) (goal_of probe.now) budget)) }
    ensures sound { IfOk result (λ found.
        IsTrueOutcome (schema_of view.old) (log_of view.old ++ premise_of probe.now)
        (goal_of probe.now) (outcome_of (as_verdict found))) }
    ensures world { IfOk result (λ found. wanted ≡ Wanted.World
        → IsTrueVerdict (schema_of view.old) (log_of view.old ++ premise_of probe.now)
        (goal_of probe.now) (as_verdict found)) }
    ensures right { IfOk result
        (IsRightFor (clauses_of_probe (schema_of view.old) (log_of view.old
        ++ premise_of probe.now) (goal_of probe.now))) }
    ensures lines { IfOk result
        (IsMachines (end_of_probe (schema_of view.old) (log_of view.old ++ premise_of probe.now)
        (goal_of probe.now) budget)) }
    ensures small { IfOk result HasSmallNumbers }
    ensures spent { IfOk result (λ found.
        IsSpentByCost (schema_of view.old) (log_of view.old ++ premise_of probe.now)
        (goal_of probe.now) budget (as_verdict found)) }
    ensures models { IfOk result (λ found. HaveModelsInWorlds (schema_of view.old)
        (with_negated (log_of view.old ++ premise_of probe.now) (goal_of probe.now))) }
    ensures same { view.new ≡ view.old }
{
    law_clause_form_is_prefix();
    law_refutation_entails();
    law_model_is_countermodel();
    law_models_are_worlds_of_schema();
    law_clause_form_uses_its_variables();
    law_clause_form_has_no_repeat();
    law_budget_is_whole_cost();
    law_machine_ends_are_right();
    law_spent_is_cost();
    view.schema.known();
    form_rest(
        alloc,
        view.schema,
        view.log.as_slice(),
        &mut view.former,
        &mut view.formed,
    )?;
    let before = view.former.mark();
    let found = probed(
        alloc,
        view.schema,
        &mut view.former,
        &mut view.kept,
        probe,
        budget,
        wanted,
    );
    view.former.cut(before);
    found
}

/// What a probe of the log finds whose form it is. The form keeps what the probe adds. The search
/// keeps clauses of the log alone.
fn probed(
    alloc: Global,
    schema: &Schema,
    former: &mut Former,
    kept: &mut KeptSearch,
    probe: &Probe<'_>,
    budget: u64,
    wanted: Wanted,
) -> Result<Certified, AllocError>
    requires form { IsForProbe schema.now (premise_of probe.now) (goal_of probe.now) former.old }
    requires added { added_by probe.now ≡ map (grounded_signed schema.now)
        (with_negated (premise_of probe.now) (goal_of probe.now)) }
    requires kept { IsBeginning kept.old former.old.clauses }
    requires budget { budget ≤ 4000000 }
    ensures verdict { IfOk result (λ found.
        IsCheckedOf schema.now (premise_of probe.now) (goal_of probe.now) budget wanted
        former.old (as_verdict found)) }
    ensures right { IfOk result
        (IsRightOf schema.now (premise_of probe.now) (goal_of probe.now) former.old) }
    ensures lines { IfOk result
        (IsMachinesOf schema.now (premise_of probe.now) (goal_of probe.now) budget former.old) }
    ensures small { IfOk result HasSmallNumbers }
    ensures more { GoesOn former.old former.new }
    ensures kept { IsBeginning kept.new former.old.clauses }
{
    law_clause_form_is_prefix();
    law_variables_are_few();
    law_grounded_nodes();
    law_clause_form_uses_its_variables();
    law_clause_form_has_no_repeat();
    law_numbered_facts_are_few();
    law_numbered_facts_are_of_schema();
    law_budget_is_whole_cost();
    schema.known();
    kept.keep(alloc, former.clauses(), former.variables())?;
    add_probe(alloc, former, probe)?;
    certificate_of(alloc, schema, former, kept, budget, wanted)
}

/// Searches a form, and tells what was found.
fn certificate_of(
    alloc: Global,
    schema: &Schema,
    former: &Former,
    kept: &mut KeptSearch,
    budget: u64,
    wanted: Wanted,
) -> Result<Certified, AllocError>
    requires searchable { IsSearchable schema.now former.now }
    requires kept { IsBeginning kept.old former.now.clauses }
    requires budget { budget ≤ 4000000 }
    ensures verdict { IfOk result (λ found. as_verdict found
        ≡ as_wanted wanted (searched_verdict former.now budget)) }
    ensures right { IfOk result (IsRightFor former.now.clauses) }
    ensures lines { IfOk result (IsMachines (searched_end former.now budget)) }
    ensures kept { StaysOrEmpty kept.old kept.new }
{
    match kept.search(alloc, former.clauses(), former.variables(), budget)? {
        Found::Refuted(refutation) => checked_refutation(alloc, former, refutation),
        Found::Model(signs) => checked_signs(alloc, schema, former, &signs, wanted),
        Found::Spent => Ok(Certified::Spent),
    }
}

/// What a refutation shows, once it was found right.
fn checked_refutation(
    alloc: Global,
    former: &Former,
    refutation: Refutation,
) -> Result<Certified, AllocError>
    ensures verdict { IfOk result (λ found. (wanted : Wanted) → as_verdict found
        ≡ as_wanted wanted (checked_verdict former.now (Some (Refuted (lines_of refutation))))) }
    ensures right { IfOk result (IsRightFor former.now.clauses) }
    ensures lines { IfOk result (IsMachines (Some (Refuted (lines_of refutation)))) }
{
    if check_refutation(alloc, former.clauses(), &refutation)? {
        Ok(Certified::Follows(refutation))
    } else {
        Ok(Certified::Spent)
    }
}

/// What a model shows that the search found right. It is checked again where its world is told.
fn checked_signs(
    alloc: Global,
    schema: &Schema,
    former: &Former,
    signs: &Signs,
    wanted: Wanted,
) -> Result<Certified, AllocError>
    requires searchable { IsSearchable schema.now former.now }
    requires right { is_model former.now.clauses signs.now.values.items ≡ true }
    ensures verdict { IfOk result (λ found. as_verdict found ≡ as_wanted wanted
        (checked_verdict former.now (Some (Model signs.now.values.items)))) }
    ensures right { IfOk result (IsRightFor former.now.clauses) }
    ensures lines { IfOk result (IsMachines (Some (Model signs.now.values.items))) }
{
    match wanted {
        Wanted::Outcome => Ok(Certified::Open(World::new(alloc))),
        Wanted::World => checked_model(alloc, schema, former, signs),
    }
}

/// What a model shows with its world, once it was checked.
fn checked_model(
    alloc: Global,
    schema: &Schema,
    former: &Former,
    signs: &Signs,
) -> Result<Certified, AllocError>
    requires { IsSearchable schema.now former.now }
    ensures verdict { IfOk result (λ found. as_verdict found
        ≡ checked_verdict former.now (Some (Model signs.now.values.items))) }
    ensures right { IfOk result (IsRightFor former.now.clauses) }
    ensures lines { IfOk result (IsMachines (Some (Model signs.now.values.items))) }
{
    if check_model(former.clauses(), signs) {
        Ok(Certified::Open(former.world_of(alloc, schema, signs)?))
    } else {
        Ok(Certified::Spent)
    }
}
