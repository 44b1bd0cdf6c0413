//! Blocks as they are written.
ghost use Rattle.std.specs.Prelude.{◌≡◌, ◌≢◌, ◌≤◌, ◌+◌, ◌++◌, map, codes, string_bytes, Some};
ghost use Rattle.std.specs.Prelude.{OnOk, true};
ghost use Rattle.std.specs.List.{flat_map, list_all};
ghost use Rattle.cqe_base.specs.Facts.{IsWorldOf};
ghost use Rattle.cqe_base.specs.Formula.{nodes, is_sentence_of};
ghost use Rattle.cqe_base.specs.Entailment.{are_sentences_of};
ghost use Rattle.cqe_base.specs.Outcome.{Spent, outcome};
ghost use Rattle.clause_store.specs.PlainLines.{line_of, lines_of};
ghost use Rattle.entailment.specs.Logs.{log_nodes, sentence_nodes};
ghost use Rattle.entailment.specs.Views.{schema_of, log_of};
ghost use Rattle.entailment.specs.GroundSentences.{IsGroundOver};
ghost use Rattle.entailment.specs.Probes.{premise_of, goal_of, IsGroundPremise};
ghost use Rattle.dossier.specs.Blocks.{probe_over};
ghost use Rattle.audit_text.specs.Text.{world_text};
ghost use Rattle.dossier.specs.Written.{sign_text, literal_text, number_text, refutation_line_text};
ghost use Rattle.dossier.specs.Written.{follows_text};
ghost use Rattle.dossier.specs.Written.{IsOpenListing, IsBlock};
ghost use Rattle.dossier.specs.Adding.{Grows};

use audit_print::fact_texts;
use audit_text::push_facts;
use clause_store::literal::Lit;
use clause_store::refutation::{Line, Refutation};
use cqe_base::laws::law_grounded_nodes;
use cqe_base::machine_laws::{
    law_budget_is_whole_cost, law_numbered_facts_are_few, law_variables_are_few,
};
use cqe_base::schema::Schema;
use cqe_base::world::World;
use entailment::{Certified, Probe, View, certify};
use std::alloc::{AllocError, Global};

/// Appends the block of a probe of the view's log that isn't spent at this budget: that of the
/// machine's end.
pub(crate) fn push_block(
    alloc: Global,
    text: &mut String,
    schema: &Schema,
    view: &mut View<'_>,
    probe: &Probe<'_>,
    budget: u64,
) -> Result<(), AllocError>
    requires schema { schema_of view.old ≡ schema.now }
    requires premise { are_sentences_of (schema_of view.old) (premise_of probe.now) ≡ true }
    requires goal { is_sentence_of (schema_of view.old) (goal_of probe.now).0 ≡ true }
    requires all_nodes { log_nodes (schema_of view.old) (log_of view.old)
        + sentence_nodes (schema_of view.old) (premise_of probe.now)
        + nodes (schema_of view.old) (goal_of probe.now).0 ≤ 100000 }
    requires grounded_premise { IsGroundPremise (schema_of view.old) probe.now.premise }
    requires grounded_goal { IsGroundOver (schema_of view.old) probe.now.goal.0.now }
    requires budget { budget ≤ 4000000 }
    requires unspent { outcome (schema_of view.old) (log_of view.old ++ premise_of probe.now)
        (goal_of probe.now) budget ≢ Spent }
    ensures block { OnOk result (Grows (IsBlock schema.now (probe_over (log_of view.old) probe.now))
        (string_bytes text.old) (string_bytes text.new)) }
    ensures same { view.new ≡ view.old }
{
    law_budget_is_whole_cost();
    law_variables_are_few();
    law_numbered_facts_are_few();
    law_grounded_nodes();
    match certify(alloc, view, probe, budget)? {
        Certified::Follows(refutation) => push_follows(text, &refutation),
        Certified::Open(world) => push_world(alloc, text, schema, &world),
        Certified::Spent => unreachable!(),
    }
}

/// Appends the lines of a refutation as a block.
fn push_follows(text: &mut String, refutation: &Refutation) -> Result<(), AllocError>
    ensures { OnOk result (string_bytes text.new
        ≡ string_bytes text.old ++ follows_text (lines_of refutation.now)) }
{
    text.push_str("follows\n")?;
    push_lines(text, &refutation.lines)?;
    text.push_str("end\n")
}

/// Appends these lines.
fn push_lines(text: &mut String, lines: &[Line]) -> Result<(), AllocError>
    ensures { OnOk result (string_bytes text.new
        ≡ string_bytes text.old ++ flat_map refutation_line_text (map line_of lines.now)) }
{
    for line in lines {
        push_line(text, line)?;
    }
    Ok(())
}

/// Appends a line: its literals, a colon, and the numbers of its chain.
fn push_line(text: &mut String, line: &Line) -> Result<(), AllocError>
    ensures { OnOk result (string_bytes text.new
        ≡ string_bytes text.old ++ refutation_line_text (line_of line.now)) }
{
    text.push_str("line ")?;
    push_literals(text, &line.clause)?;
    text.push_str(":")?;
    push_chain(text, &line.chain)?;
    text.push_str("\n")
}

/// Appends literals with a blank behind each.
fn push_literals(text: &mut String, clause: &[Lit]) -> Result<(), AllocError>
    ensures { OnOk result (string_bytes text.new
        ≡ string_bytes text.old ++ flat_map literal_text clause.now) }
{
    for literal in clause {
        push_literal(text, *literal)?;
    }
    Ok(())
}

/// Appends a literal with a blank behind it.
fn push_literal(text: &mut String, literal: Lit) -> Result<(), AllocError>
    ensures { OnOk result (string_bytes text.new
        ≡ string_bytes text.old ++ literal_text literal) }
{
    text.push_str(sign_of(literal))?;
    write!(text, "{} ", literal.variable())
}

/// The sign of a literal.
fn sign_of(literal: Lit) -> &'static str
    ensures { result.now ≡ sign_text literal }
{
    if literal.is_positive() { "+" } else { "-" }
}

/// Appends the numbers of a chain with a blank before each.
fn push_chain(text: &mut String, chain: &[u32]) -> Result<(), AllocError>
    ensures { OnOk result (string_bytes text.new
        ≡ string_bytes text.old ++ flat_map number_text chain.now) }
{
    for number in chain {
        write!(text, " {}", *number)?;
    }
    Ok(())
}

/// Appends the facts of a world as a block.
fn push_world(
    alloc: Global,
    text: &mut String,
    schema: &Schema,
    world: &World,
) -> Result<(), AllocError>
    requires { IsWorldOf schema.now world.now }
    ensures { OnOk result (Grows (IsOpenListing schema.now world.now) (string_bytes text.old)
        (string_bytes text.new)) }
{
    let facts = fact_texts(alloc, schema, world)?;
    push_listed(text, &facts)?;
    Ok(())
}

/// Appends the texts of a world's facts as a block.
fn push_listed(text: &mut String, facts: &[String]) -> Result<(), AllocError>
    ensures { OnOk result (string_bytes text.new ≡ string_bytes text.old
        ++ (codes "open " ++ world_text (Some (map string_bytes facts.now)) ++ codes "\n")) }
{
    text.push_str("open ")?;
    push_facts(text, facts)?;
    text.push_str("\n")
}
