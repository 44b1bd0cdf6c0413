//! The forms of logs, and of probes of them.
ghost use Rattle.std.specs.Prelude.{◌≡◌, ◌≤◌, ◌<◌, ◌+◌, ◌^◌, true, [], ◌∷◌, length, take};
ghost use Rattle.std.specs.Prelude.{OnOk, OnErr};
ghost use Rattle.cqe_base.specs.Formula.{formula_of, nodes, is_sentence_of};
ghost use Rattle.cqe_base.specs.Outcome.{grounded_signed};
ghost use Rattle.entailment.specs.Logs.{told_log, IsSmallLog};
ghost use Rattle.entailment.specs.Forms.{form_of_log, HasAdded, HasRoomFor, GoesOn};
ghost use Rattle.entailment.specs.Probes.{premise_props, added_by};

use crate::probes::Probe;
use crate::sentences::{GroundSentence, ground_formula};
use crate::view::Told;
use clause_form::former::Former;
use clause_form::laws::law_added_forms_grow;
use cqe_base::laws::law_grounded_nodes;
use cqe_base::machine_laws::law_variables_are_few;
use cqe_base::schema::Schema;
use cqe_base::sentence::Sentence;
use std::alloc::{AllocError, Global};

/// Adds the sentences of a log that aren't formed yet. A refusal leaves out those from some one on.
pub(crate) fn form_rest(
    alloc: Global,
    schema: &Schema,
    log: &[Told],
    former: &mut Former,
    formed: &mut usize,
) -> Result<(), AllocError>
    requires small { IsSmallLog schema.now (told_log log.now) }
    requires within { formed.old ≤ length (told_log log.now) }
    requires form { former.old ≡ form_of_log schema.now (take formed.old (told_log log.now)) }
    ensures grows { formed.old ≤ formed.new }
    ensures within { formed.new ≤ length (told_log log.now) }
    ensures form { former.new ≡ form_of_log schema.now (take formed.new (told_log log.now)) }
    ensures whole { OnOk result (former.new ≡ form_of_log schema.now (told_log log.now)) }
{
    law_variables_are_few();
    law_grounded_nodes();
    for number in *formed..log.len() {
        let told = &log[number];
        add_sentence(alloc, schema, former, &told.sentence, told.yes)?;
        *formed = number + 1;
    }
    Ok(())
}

/// Adds the premise of a probe, if it has one, and its negated goal. A refusal may leave the
/// premise.
pub(crate) fn add_probe(
    alloc: Global,
    former: &mut Former,
    probe: &Probe<'_>,
) -> Result<(), AllocError>
    requires { HasRoomFor (added_by probe.now) former.old }
    ensures added { OnOk result (HasAdded (added_by probe.now) former.old former.new) }
    ensures more { GoesOn former.old former.new }
{
    law_variables_are_few();
    law_added_forms_grow();
    add_premise(alloc, former, probe.premise)?;
    let (goal, yes) = probe.goal;
    former.add(alloc, &goal.prop, !yes)?;
    Ok(())
}

/// Adds the premise, if there is one. A refusal changes nothing.
fn add_premise(
    alloc: Global,
    former: &mut Former,
    premise: Option<(&GroundSentence, bool)>,
) -> Result<(), AllocError>
    requires { HasRoomFor (premise_props premise) former.old }
    ensures added { OnOk result (HasAdded (premise_props premise.entry) former.old former.new) }
    ensures refused { OnErr result (former.new ≡ former.old) }
{
    law_variables_are_few();
    law_added_forms_grow();
    match premise {
        Some((sentence, yes)) => former.add(alloc, &sentence.prop, yes),
        None => Ok(()),
    }
}

/// Adds a sentence, or where `yes` is false its negation. A refusal changes nothing.
pub(crate) fn add_sentence(
    alloc: Global,
    schema: &Schema,
    former: &mut Former,
    sentence: &Sentence,
    yes: bool,
) -> Result<(), AllocError>
    requires sentence { is_sentence_of schema.now (formula_of sentence.now) ≡ true }
    requires small { nodes schema.now (formula_of sentence.now) ≤ 40000 }
    requires room { former.old.numbering.variables + nodes schema.now (formula_of sentence.now)
        < 2 ^ 31 }
    ensures added { OnOk result
        (HasAdded (grounded_signed schema.now (formula_of sentence.now, yes) ∷ [])
        former.old former.new) }
    ensures refused { OnErr result (former.new ≡ former.old) }
{
    law_added_forms_grow();
    let prop = ground_formula(alloc, schema, sentence)?;
    former.add(alloc, &prop, yes)
}
