//! The probes of a query in parts, each of which is made over a view of its own.

ghost use Rattle.std.specs.Prelude.{◌≡◌, ◌≤◌, ◌+◌, ◌-◌, ◌*◌, ◌∷◌, ◌++◌, [], true, length, map};
ghost use Rattle.std.specs.Prelude.{IfOk, IfSome};
ghost use Rattle.std.specs.List.{between};
ghost use Rattle.cqe_base.specs.Formula.{nodes, is_sentence_of};
ghost use Rattle.entailment.specs.Logs.{log_nodes};
ghost use Rattle.entailment.specs.Views.{schema_of, log_of};
ghost use Rattle.entailment.specs.GroundSentences.{sentence_of, IsGroundOver};
ghost use Rattle.censors.specs.Asked.{IsAnswerOfAll, IsImpliedBy};
ghost use Rattle.censors.specs.Parts.{start_of, IsCut, CanBeAskedAt, question_of, IsPartFound};
ghost use Rattle.censors.specs.Parts.{HasRun, joined, gathered};

use crate::examination::{Answer, Implied, ask_each, ask_implied, together};
use crate::lent::Lane;
use cqe_base::user::{Method, User};
use entailment::{GroundSentence, View};
use std::alloc::{AllocError, Global};

/// The places at which the second, the third and the fourth part of a query's probes begin, and how
/// many places there are. A fifth part would have none.
#[derive(Clone, Copy)]
pub(crate) struct Cut {
    first: usize,
    second: usize,
    third: usize,
    whole: usize,
}

/// What the probes of a part found.
#[derive(Clone, Copy)]
pub(crate) struct PartFound {
    /// Of the first part, what the log alone implies.
    pub(crate) implied: Option<Implied>,
    /// Of the log with the query.
    pub(crate) yes: Answer,
    /// Of the log with its negation.
    pub(crate) no: Answer,
}

/// Cuts the probes of a query against so many goals into equal parts. The first part is smaller by
/// the probes of the log alone, which it has too.
pub(crate) fn cut_of(method: Method, goals: usize, parts: usize) -> Cut
    requires few { goals ≤ 65536 }
    requires some { 1 ≤ parts }
    ensures cut { IsCut goals result }
    ensures end { start_of result parts ≡ 2 * goals }
{
    let lead = lead_of(method);
    let whole = 2 * goals;
    let one = share_of(whole + lead, parts);
    let first = one.saturating_sub(lead);
    let two = share_of(whole - first, parts.saturating_sub(1));
    let second = first + two;
    let three = share_of(whole - second, parts.saturating_sub(2));
    let third = second + three;
    Cut {
        first,
        second,
        third,
        whole,
    }
}

/// How many probes of the log alone a method asks for.
fn lead_of(method: Method) -> usize
    ensures { result ≤ 2 }
{
    match method {
        Method::Refusal => 2,
        Method::Lying | Method::Combined => 0,
    }
}

/// The next share of a rest that so many parts are still to have, at most four.
fn share_of(rest: usize, parts: usize) -> usize
    requires { rest ≤ 1000000 }
    ensures within { result ≤ rest }
    ensures last { parts ≤ 1 → result ≡ rest }
{
    if parts < 2 {
        return rest;
    }
    if parts == 2 {
        return (rest + 1) / 2;
    }
    if parts == 3 {
        return (rest + 2) / 3;
    }
    (rest + 3) / 4
}

/// The place at which a part begins.
fn start_of(cut: Cut, part: usize) -> usize
    ensures { result ≡ start_of cut part }
{
    if part == 0 {
        return 0;
    }
    if part == 1 {
        return cut.first;
    }
    if part == 2 {
        return cut.second;
    }
    if part == 3 {
        return cut.third;
    }
    cut.whole
}

/// The place at which a part ends.
fn end_of(cut: Cut, part: usize) -> usize
    ensures { result ≡ start_of cut (part + 1) }
{
    if part == 0 {
        return cut.first;
    }
    if part == 1 {
        return cut.second;
    }
    if part == 2 {
        return cut.third;
    }
    cut.whole
}

/// For refusal, the answer that the log implies, where the part is the first.
fn implied_in(
    alloc: Global,
    part: usize,
    view: &mut View<'_>,
    user: &User,
    query: &GroundSentence,
) -> Result<Option<Implied>, AllocError>
    requires sentence { is_sentence_of (schema_of view.old) (sentence_of query.now) ≡ true }
    requires grounded { IsGroundOver (schema_of view.old) query.now }
    requires all_nodes { log_nodes (schema_of view.old) (log_of view.old)
        + nodes (schema_of view.old) (sentence_of query.now) ≤ 60000 }
    requires budget { user.now.budget ≤ 4000000 }
    ensures implied { IfOk result (λ implied. part ≡ 0
        → IsImpliedBy user.now.method (schema_of view.old) user.now.budget (log_of view.old)
        (sentence_of query.now) implied) }
    ensures same { view.new ≡ view.old }
{
    if part == 0 {
        return ask_implied(alloc, view, user, query);
    }
    Ok(None)
}

/// The goals from one number up to another.
fn goals_between(goals: &[GroundSentence], from: usize, to: usize) -> &[GroundSentence]
    requires order { from ≤ to }
    requires within { to ≤ length goals.now }
    ensures { result.now ≡ between from to goals.now }
{
    &goals[from..to]
}

/// Probes the log with the query, or where `yes` is false with its negation, against the goals from
/// one number up to another.
fn ask_some(
    alloc: Global,
    view: &mut View<'_>,
    user: &User,
    query: &GroundSentence,
    yes: bool,
    goals: &[GroundSentence],
    numbers: (usize, usize),
) -> Result<Answer, AllocError>
    requires can { CanBeAskedAt user.now query.now goals.now view.old }
    requires order { numbers.0 ≤ numbers.1 }
    requires within { numbers.1 ≤ length goals.now }
    ensures answer { IfOk result (IsAnswerOfAll (schema_of view.old) user.now.budget
        (log_of view.old ++ (sentence_of query.now, yes) ∷ [])
        (between numbers.0 numbers.1 (map sentence_of goals.now))) }
    ensures same { view.new ≡ view.old }
{
    let some = goals_between(goals, numbers.0, numbers.1);
    let answer = ask_each(alloc, view, (query, yes), some, user.budget)?;
    Ok(answer)
}

/// Makes the probes of a part after the log of a view.
fn probe_part(
    alloc: Global,
    cut: Cut,
    part: usize,
    view: &mut View<'_>,
    user: &User,
    query: &GroundSentence,
    goals: &[GroundSentence],
) -> Result<PartFound, AllocError>
    requires can { CanBeAskedAt user.now query.now goals.now view.old }
    requires cut { IsCut (length goals.now) cut }
    requires few { length goals.now ≤ 65536 }
    ensures found { IfOk result
        (IsPartFound cut part (question_of user.now query.now goals.now (schema_of view.old)
        (log_of view.old))) }
    ensures same { view.new ≡ view.old }
{
    let from = start_of(cut, part);
    let to = end_of(cut, part);
    let implied = implied_in(alloc, part, view, user, query)?;
    let with_yes = ((from + 1) / 2, (to + 1) / 2);
    let yes = ask_some(alloc, view, user, query, true, goals, with_yes)?;
    let with_no = (from / 2, to / 2);
    let no = ask_some(alloc, view, user, query, false, goals, with_no)?;
    Ok(PartFound { implied, yes, no })
}

/// What the probes of a part find, where memory suffices.
fn found_in_part(
    alloc: Global,
    cut: Cut,
    part: usize,
    view: &mut View<'_>,
    user: &User,
    query: &GroundSentence,
    goals: &[GroundSentence],
) -> Option<PartFound>
    requires can { CanBeAskedAt user.now query.now goals.now view.old }
    requires cut { IsCut (length goals.now) cut }
    requires few { length goals.now ≤ 65536 }
    ensures found { IfSome result
        (IsPartFound cut part (question_of user.now query.now goals.now (schema_of view.old)
        (log_of view.old))) }
    ensures same { view.new ≡ view.old }
{
    match probe_part(alloc, cut, part, view, user, query, goals) {
        Ok(found) => Some(found),
        Err(_) => None,
    }
}

/// Makes the probes of a part in a lane, which keeps what they find.
pub(crate) fn run_part(
    alloc: Global,
    cut: Cut,
    part: usize,
    lane: &mut Lane<'_>,
    user: &User,
    query: &GroundSentence,
    goals: &[GroundSentence],
)
    requires can { CanBeAskedAt user.now query.now goals.now lane.old.view }
    requires cut { IsCut (length goals.now) cut }
    requires few { length goals.now ≤ 65536 }
    ensures { HasRun cut part user.now query.now goals.now lane.old lane.new }
{
    let found = found_in_part(alloc, cut, part, &mut lane.view, user, query, goals);
    lane.found = found;
}

/// What two parts found together. What the log alone implies the first of them has.
fn joined(first: Option<PartFound>, second: Option<PartFound>) -> Option<PartFound>
    ensures { result ≡ joined first second }
{
    let first = first?;
    let second = second?;
    Some(PartFound {
        implied: first.implied,
        yes: together(first.yes, second.yes),
        no: together(first.no, second.no),
    })
}

/// What the parts of all lanes found. There is nothing where memory was wanting in one.
pub(crate) fn gathered(lanes: &[Lane<'_>]) -> Option<PartFound>
    ensures { result ≡ gathered (map (λ lane. lane.found) lanes.now) }
{
    let Some((first, rest)) = lanes.split_first() else {
        return None;
    };
    let mut all = first.found;
    for lane in rest {
        all = joined(all, lane.found);
    }
    all
}
