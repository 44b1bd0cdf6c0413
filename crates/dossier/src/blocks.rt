//! Blocks: what shows whether the premises of a probe entail its goal.
ghost use Rattle.std.specs.Prelude.{◌≡◌, ◌≤◌, ◌+◌, ◌++◌, ◌&&◌, not, [], true, Bool, List, length};
ghost use Rattle.std.specs.Prelude.{map, Ok, nat_le, All};
ghost use Rattle.std.specs.List.{list_all};
ghost use Rattle.cqe_base.specs.Schema.{DatabaseSchema, Text};
ghost use Rattle.cqe_base.specs.Facts.{FactSet};
ghost use Rattle.cqe_base.specs.Formula.{nodes, is_sentence_of};
ghost use Rattle.cqe_base.specs.Entailment.{are_sentences_of, holds_in, all_hold_in};
ghost use Rattle.cqe_base.specs.History.{UserProfile, History, profile_of, answered_query_of, log};
ghost use Rattle.cqe_base.specs.History.{is_user_of, is_history_of};
ghost use Rattle.cqe_base.specs.Censor.{probes_against};
ghost use Rattle.clause_store.specs.PlainLines.{lines_of};
ghost use Rattle.entailment.specs.Logs.{log_nodes, sentence_nodes};
ghost use Rattle.entailment.specs.Views.{IsViewOf};
ghost use Rattle.entailment.specs.GroundSentences.{sentence_of, IsGroundOver};
ghost use Rattle.entailment.specs.Probes.{premise_list, premise_of, goal_of, signed_at};
ghost use Rattle.entailment.specs.Probes.{IsGroundPremise};
ghost use Rattle.dossier.specs.Words.{facts_listed};
ghost use Rattle.dossier.specs.Checked.{Task, Showing, block, step, awaited_for, behind_block};
ghost use Rattle.dossier.specs.Checked.{is_countermodel, refutation_end};
ghost use Rattle.dossier.specs.Promised.{IsButMemory};
ghost use Rattle.dossier.specs.Reading.{bytes_left, ReadsOn, ReadsAll};
ghost use Rattle.dossier.specs.Blocks.{Probed, reason_of, probe_over, MayFollow, open_answer};

use crate::cut::{Field, FieldIter};
use crate::error::DossierError;
use crate::listed::{facts_listed, world_of};
use crate::past::{is_truth, knows_truth, tells_truth};
use crate::words::line_in;
use clause_store::refutation::Refutation;
use cqe_base::schema::Schema;
use cqe_base::user::{Item, User};
use cqe_base::world::World;
use entailment::{GroundSentence, Probe, View, confirm};
use std::alloc::Global;
use truth_eval::holds;

/// What blocks are read for.
#[derive(Clone, Copy, Debug, PartialEq, Eq)]
pub(crate) enum Reason {
    /// Whether the user is admissible: no goal may follow.
    Admitting,
    /// The mark of an ask.
    Asking,
    /// Whether a sentence is safe to add: no goal may follow.
    Adding,
}

/// The log of a user with these items, over a schema.
#[derive(Clone, Copy)]
pub(crate) struct Told<'a> {
    pub(crate) schema: &'a Schema,
    pub(crate) user: &'a User,
    pub(crate) entries: &'a [Item],
}

impl<'a> Told<'a> {
    /// Whether the log is true in a world.
    fn is_true_in(self, world: &World) -> bool
        requires user { is_user_of self.schema.now (profile_of self.user.now) ≡ true }
        requires history { is_history_of self.schema.now (map answered_query_of self.entries.now)
            ≡ true }
        ensures { result ≡ all_hold_in self.entry.schema.now world.now
            (log (profile_of self.entry.user.now) (map answered_query_of self.entry.entries.now)) }
    {
        knows_truth(self.schema, world, self.user) && tells_truth(self.schema, world, self.entries)
    }
}

/// Reads the block of a probe of the log, and answers whether the goal follows.
pub(crate) fn read_block(
    alloc: Global,
    told: Told<'_>,
    view: &mut View<'_>,
    probe: &Probe<'_>,
    reason: Reason,
    lines: &mut FieldIter<'_>,
) -> Result<bool, DossierError>
    requires user { is_user_of told.schema.now (profile_of told.user.now) ≡ true }
    requires history { is_history_of told.schema.now (map answered_query_of told.entries.now)
        ≡ true }
    requires view { IsViewOf told.schema.now (log (profile_of told.user.now)
        (map answered_query_of told.entries.now)) view.old }
    requires premise { are_sentences_of told.schema.now (premise_of probe.now) ≡ true }
    requires goal { is_sentence_of told.schema.now (goal_of probe.now).0 ≡ true }
    requires all_nodes { log_nodes told.schema.now (log (profile_of told.user.now)
        (map answered_query_of told.entries.now))
        + sentence_nodes told.schema.now (premise_of probe.now)
        + nodes told.schema.now (goal_of probe.now).0 ≤ 100000 }
    requires grounded_premise { IsGroundPremise told.schema.now probe.now.premise }
    requires grounded_goal { IsGroundOver told.schema.now probe.now.goal.0.now }
    ensures reads { (world : FactSet) (name : Text) (user : UserProfile) (showing : Showing)
        → showing.probe ≡ probe_over (log (profile_of told.entry.user.now)
        (map answered_query_of told.entry.entries.now)) probe.now
        → reason_of showing.task ≡ reason
        → ReadsOn told.entry.schema.now world name user (Ok (block showing)) lines.old lines.new
        (behind_block told.entry.schema.now world name user showing) result }
    ensures less { bytes_left lines.new ≤ bytes_left lines.old }
    ensures same { view.new ≡ view.old }
{
    let field = lines.take_line()?;
    if field.word == "open" {
        read_open(alloc, told, probe, &field)?;
        return Ok(false);
    }
    if !field.is_alone("follows") {
        return Err(DossierError::Form(field.line));
    }
    may_follow(reason, field.line)?;
    let read = read_refutation(alloc, lines)?;
    if confirm(alloc, view, probe, &read.0)? {
        Ok(true)
    } else {
        Err(DossierError::Verdict(read.1))
    }
}

/// Only the goal of an ask's probe may follow.
fn may_follow(reason: Reason, line: u32) -> Result<(), DossierError>
    ensures { MayFollow reason line result }
{
    match reason {
        Reason::Admitting => Err(DossierError::Admission(line)),
        Reason::Asking => Ok(()),
        Reason::Adding => Err(DossierError::Unsafe(line)),
    }
}

/// Takes the world of a block that lists one: in it the log and the premise are true and the goal
/// is false.
fn read_open(
    alloc: Global,
    told: Told<'_>,
    probe: &Probe<'_>,
    field: &Field<'_>,
) -> Result<(), DossierError>
    requires user { is_user_of told.schema.now (profile_of told.user.now) ≡ true }
    requires history { is_history_of told.schema.now (map answered_query_of told.entries.now)
        ≡ true }
    requires premise { are_sentences_of told.schema.now (premise_of probe.now) ≡ true }
    requires goal { is_sentence_of told.schema.now (goal_of probe.now).0 ≡ true }
    ensures { IsButMemory (open_answer told.entry.schema.now field.now.line
        (probe_over (log (profile_of told.entry.user.now)
        (map answered_query_of told.entry.entries.now)) probe.now)
        (facts_listed told.entry.schema.now field.now.rest.now)) result }
{
    let Some(facts) = facts_listed(alloc, told.schema, field.rest)? else {
        return Err(DossierError::Form(field.line));
    };
    let world = world_of(alloc, told.schema, &facts)?;
    if is_countermodel(told, &world, probe) {
        Ok(())
    } else {
        Err(DossierError::Verdict(field.line))
    }
}

/// Whether in a world the log and the premise are true and the goal is false.
fn is_countermodel(told: Told<'_>, world: &World, probe: &Probe<'_>) -> bool
    requires user { is_user_of told.schema.now (profile_of told.user.now) ≡ true }
    requires history { is_history_of told.schema.now (map answered_query_of told.entries.now)
        ≡ true }
    requires premise { are_sentences_of told.schema.now (premise_of probe.now) ≡ true }
    requires goal { is_sentence_of told.schema.now (goal_of probe.now).0 ≡ true }
    ensures { result ≡ is_countermodel told.entry.schema.now
        (probe_over (log (profile_of told.entry.user.now)
        (map answered_query_of told.entry.entries.now)) probe.now) world.now }
{
    let first = told.is_true_in(world);
    let premise = premise_holds(told.schema, world, probe.premise);
    let goal = signed_holds(told.schema, world, probe.goal);
    shows_open(first, premise, goal)
}

/// Whether the log and the premise are true and the goal isn't.
fn shows_open(first: bool, premise: bool, goal: bool) -> bool
    ensures { result ≡ ((first && premise) && not goal) }
{
    first && premise && !goal
}

/// Whether a further premise, if there is one, is true in a world.
fn premise_holds(schema: &Schema, world: &World, premise: Option<(&GroundSentence, bool)>) -> bool
    requires { are_sentences_of schema.now (premise_list premise) ≡ true }
    ensures { result ≡ all_hold_in schema.now world.now (premise_list premise.entry) }
{
    match premise {
        Some(signed) => signed_holds(schema, world, signed),
        None => true,
    }
}

/// Whether a sentence, or where `false` stands beside it its negation, is true in a world.
fn signed_holds(schema: &Schema, world: &World, signed: (&GroundSentence, bool)) -> bool
    requires { is_sentence_of schema.now (signed_at signed).0 ≡ true }
    ensures { result ≡ holds_in schema.now world.now (signed_at signed.entry) }
{
    let (sentence, yes) = signed;
    is_truth(holds(schema, world, &sentence.sentence), yes)
}

/// Reads the lines of a refutation, and answers it with the number of its last line.
fn read_refutation(
    alloc: Global,
    lines: &mut FieldIter<'_>,
) -> Result<(Refutation, u32), DossierError>
    ensures reads { (schema : DatabaseSchema) (world : FactSet) (name : Text) (user : UserProfile)
        (showing : Showing)
        → ReadsOn schema world name user (Ok (step showing [])) lines.old lines.new
        (λ read. refutation_end schema world name user read.1 showing (lines_of read.0)) result }
    ensures less { bytes_left lines.new ≤ bytes_left lines.old }
{
    let mut read = Vec::new(alloc);
    while let Some(field) = lines.take_field() {
        if field.word == "line" {
            let Some(line) = line_in(alloc, field.rest)? else {
                return Err(DossierError::Form(field.line));
            };
            read.push(line)?;
        } else if field.is_alone("end") {
            return Ok((Refutation { lines: read }, field.line));
        } else {
            return Err(DossierError::Form(field.line));
        }
    }
    Err(DossierError::Form(lines.number()))
}

/// Reads the blocks of the log with a further premise, if there is one, against each goal, and
/// answers whether some goal follows.
pub(crate) fn read_each(
    alloc: Global,
    told: Told<'_>,
    view: &mut View<'_>,
    premise: Option<(&GroundSentence, bool)>,
    goals: &[GroundSentence],
    reason: Reason,
    lines: &mut FieldIter<'_>,
) -> Result<bool, DossierError>
    requires user { is_user_of told.schema.now (profile_of told.user.now) ≡ true }
    requires history { is_history_of told.schema.now (map answered_query_of told.entries.now)
        ≡ true }
    requires view { IsViewOf told.schema.now (log (profile_of told.user.now)
        (map answered_query_of told.entries.now)) view.old }
    requires premise { are_sentences_of told.schema.now (premise_list premise) ≡ true }
    requires all_nodes { log_nodes told.schema.now (log (profile_of told.user.now)
        (map answered_query_of told.entries.now))
        + sentence_nodes told.schema.now (premise_list premise) ≤ 60000 }
    requires grounded { IsGroundPremise told.schema.now premise }
    requires goals { list_all (is_sentence_of told.schema.now) (map sentence_of goals.now)
        ≡ true }
    requires goal_nodes { list_all (λ goal. nat_le (nodes told.schema.now goal) 40000)
        (map sentence_of goals.now) ≡ true }
    requires grounded_goals { All (IsGroundOver told.schema.now) goals.now }
    ensures reads { (world : FactSet) (name : Text) (user : UserProfile) (entries : History)
        (task : Task) (more : List Probed) (shown : List Bool) → reason_of task ≡ reason
        → ReadsAll told.entry.schema.now world name user
        (awaited_for told.entry.schema.now world name user entries task
        (probes_against (log (profile_of told.entry.user.now)
        (map answered_query_of told.entry.entries.now) ++ premise_list premise.entry)
        (map sentence_of goals.now) ++ more) shown) lines.old lines.new (length goals.now)
        (λ verdicts. awaited_for told.entry.schema.now world name user entries task more
        (shown ++ verdicts)) result }
    ensures less { bytes_left lines.new ≤ bytes_left lines.old }
    ensures same { view.new ≡ view.old }
{
    let mut some = false;
    for goal in goals {
        let probe = Probe {
            premise,
            goal: (goal, true),
        };
        let follows = read_block(alloc, told, view, &probe, reason, lines)?;
        some = some || follows;
    }
    Ok(some)
}
