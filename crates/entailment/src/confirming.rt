//! Whether a refutation shows what a probe asks. Nothing is searched.
ghost use Rattle.std.specs.Prelude.{◌≡◌, ◌≤◌, ◌+◌, true, ◌++◌, IfOk};
ghost use Rattle.cqe_base.specs.Formula.{nodes, is_sentence_of};
ghost use Rattle.cqe_base.specs.Entailment.{Entails, are_sentences_of};
ghost use Rattle.cqe_base.specs.Refutation.{is_refutation};
ghost use Rattle.clause_store.specs.PlainLines.{lines_of};
ghost use Rattle.entailment.specs.Logs.{log_nodes, sentence_nodes};
ghost use Rattle.entailment.specs.Forms.{HasRoomFor, GoesOn};
ghost use Rattle.entailment.specs.Views.{schema_of, log_of};
ghost use Rattle.entailment.specs.GroundSentences.{IsGroundOver};
ghost use Rattle.entailment.specs.Probes.{premise_of, goal_of, IsGroundPremise, added_by};
ghost use Rattle.entailment.specs.Certificates.{clauses_of_probe, IsConfirmedOf};

use crate::forms::{add_probe, form_rest};
use crate::probes::Probe;
use crate::view::View;
use clause_form::former::Former;
use clause_store::refutation::Refutation;
use cqe_base::laws::law_grounded_nodes;
use cqe_base::machine_laws::{law_clause_form_is_prefix, law_refutation_entails};
use proof_check::refutation::check_refutation;
use std::alloc::{AllocError, Global};

/// Whether a refutation is right for the clauses of a probe of the view's log, whoever made it. Its
/// lines are numbered on from those clauses. Where it is, the premises entail the goal. It takes
/// time by the refutation and by what isn't formed yet of the log.
pub fn confirm(
    alloc: Global,
    view: &mut View<'_>,
    probe: &Probe<'_>,
    refutation: &Refutation,
) -> Result<bool, AllocError>
    requires premise { are_sentences_of (schema_of view.old) (premise_of probe.now) ≡ true }
    requires goal { is_sentence_of (schema_of view.old) (goal_of probe.now).0 ≡ true }
    requires all_nodes { log_nodes (schema_of view.old) (log_of view.old)
        + sentence_nodes (schema_of view.old) (premise_of probe.now)
        + nodes (schema_of view.old) (goal_of probe.now).0 ≤ 100000 }
    requires grounded_premise { IsGroundPremise (schema_of view.old) probe.now.premise }
    requires grounded_goal { IsGroundOver (schema_of view.old) probe.now.goal.0.now }
    ensures right { IfOk result (λ confirmed. confirmed
        ≡ is_refutation (clauses_of_probe (schema_of view.old) (log_of view.old
        ++ premise_of probe.now) (goal_of probe.now)) (lines_of refutation.now)) }
    ensures sound { IfOk result (λ confirmed. confirmed ≡ true
        → Entails (schema_of view.old) (log_of view.old ++ premise_of probe.now)
        (goal_of probe.now)) }
    ensures same { view.new ≡ view.old }
{
    law_clause_form_is_prefix();
    law_grounded_nodes();
    law_refutation_entails();
    form_rest(
        alloc,
        view.schema,
        view.log.as_slice(),
        &mut view.former,
        &mut view.formed,
    )?;
    let before = view.former.mark();
    let confirmed = refutes(alloc, &mut view.former, probe, refutation);
    view.former.cut(before);
    confirmed
}

/// Whether a refutation is right for the clauses of a form with those of a probe. The form keeps
/// what the probe adds.
fn refutes(
    alloc: Global,
    former: &mut Former,
    probe: &Probe<'_>,
    refutation: &Refutation,
) -> Result<bool, AllocError>
    requires { HasRoomFor (added_by probe.now) former.old }
    ensures right { IfOk result
        (IsConfirmedOf (added_by probe.now) former.old (lines_of refutation.now)) }
    ensures more { GoesOn former.old former.new }
{
    add_probe(alloc, former, probe)?;
    let right = check_refutation(alloc, former.clauses(), refutation)?;
    Ok(right)
}
