//! What examines a user's texts outside of his log, by several threads where that pays.

ghost use Rattle.std.specs.Prelude.{◌≡◌, ◌≤◌, ◌+◌, true, length, Ok, IfOk, IfSome};
ghost use Rattle.cqe_base.specs.Schema.{Text};
ghost use Rattle.cqe_base.specs.Formula.{nodes, is_sentence_of};
ghost use Rattle.cqe_base.specs.Reading.{reading};
ghost use Rattle.cqe_base.specs.History.{UserProfile, History, profile_of};
ghost use Rattle.cqe_base.specs.Limits.{KeepsLimits, FitsProbes};
ghost use Rattle.cqe_base.specs.Censor.{guarded};
ghost use Rattle.entailment.specs.Logs.{log_nodes};
ghost use Rattle.entailment.specs.Views.{schema_of, log_of};
ghost use Rattle.entailment.specs.GroundSentences.{sentence_of, IsGroundOver};
ghost use Rattle.user_log.specs.Examining.{lent_view, IsFirstPart, IsLent, IsLentTo, IsExamined};
ghost use Rattle.user_log.specs.Kept.{KeepsLimits-prop, AreGuardsOf, AreGuardsOf-prop};

use crate::log::QUERY_NODES;
use censors::{Findings, Guards, LentViews, examine_beside};
use cqe_base::laws::{law_limits, law_logs};
use cqe_base::schema::Schema;
use cqe_base::sentence::nodes;
use cqe_base::user::User;
use entailment::GroundSentence;
use sentence_text::read_sentence;
use std::alloc::{AllocError, Global};
use std::thread::Threads;

/// Views of a log that are lent, so that a query can be examined after it.
#[derive(Drop)]
pub struct Lent<'w> {
    pub(crate) views: LentViews<'w>,
    /// How many items the log was made of. The log alone doesn't tell: an item that adds a secret
    /// tells nothing.
    pub(crate) items: usize,
}

/// A text that was examined after the log of views, and not yet weighed.
#[derive(Drop)]
pub struct Examined<'w> {
    /// The query that it is.
    pub(crate) query: GroundSentence,
    /// The views, to be put back.
    pub(crate) views: LentViews<'w>,
    /// How many items the log of the views was made of.
    pub(crate) items: usize,
    /// What the probes found after that log.
    pub(crate) findings: Findings,
}

/// What examines the texts of a user to whom no secret was added. It looks at no log but the views
/// that it is lent, and at no world.
#[derive(Drop)]
pub struct Examiner<'w> {
    schema: &'w Schema,
    user: &'w User,
    guards: Guards<'w>,
    ghost limits: { KeepsLimits schema.now (profile_of user.now) } by { KeepsLimits-prop _ _ },
    ghost guarding: { AreGuardsOf schema.now
        (profile_of user.now) guards } by { AreGuardsOf-prop _ _ _ },
}

impl<'w> Examiner<'w> {
    ghost use Rattle.user_log.specs.Examiners.{examiner_schema, examiner_user};

    /// The examiner of a user.
    pub fn new(
        alloc: Global,
        schema: &'w Schema,
        user: &'w User,
    ) -> Result<Examiner<'w>, AllocError>
        requires { KeepsLimits schema.now (profile_of user.now) }
        ensures schema { IfOk result (λ examiner. examiner_schema examiner ≡ schema.now) }
        ensures user { IfOk result (λ examiner. examiner_user examiner ≡ profile_of user.now) }
    {
        law_limits();
        let guards = Guards::new(alloc, schema, user)?;
        Ok(Examiner {
            schema,
            user,
            guards,
        })
    }

    /// The user.
    pub fn user(&self) -> &'w User
        ensures { profile_of result.now ≡ examiner_user self.now }
    {
        self.user
    }

    /// The schema of his texts.
    pub fn schema(&self) -> &'w Schema
        ensures { result.now ≡ examiner_schema self.now }
    {
        self.schema
    }

    /// The query that a text is, with its ground formula. There is none where the text is no
    /// sentence or a large one, or memory is wanting.
    pub fn read(&self, alloc: Global, text: &str) -> Option<GroundSentence>
        requires { length text.now ≤ 4096 }
        ensures read { IfSome result (λ query.
            reading (examiner_schema self.now) text.now ≡ Ok (sentence_of query)) }
        ensures sentence { IfSome result (λ query.
            is_sentence_of (examiner_schema self.now) (sentence_of query) ≡ true) }
        ensures grounded { IfSome result (IsGroundOver (examiner_schema self.now)) }
    {
        read_query(alloc, self.schema, text)
    }

    /// Makes every probe of a query after the log of views that were lent, by as many threads.
    /// Where memory is wanting the views are dropped.
    pub fn examine<R: Threads + Sync>(
        &self,
        rt: &R,
        alloc: Global,
        lent: Lent<'w>,
        query: GroundSentence,
    ) -> Option<Examined<'w>>
        requires schema { schema_of (lent_view lent) ≡ examiner_schema self.now }
        requires sentence { is_sentence_of (examiner_schema self.now) (sentence_of query) ≡ true }
        requires grounded { IsGroundOver (examiner_schema self.now) query }
        requires fits { log_nodes (examiner_schema self.now) (log_of (lent_view lent))
            + nodes (examiner_schema self.now) (sentence_of query) ≤ 60000 }
        // It has examined each text that is the query, for each history that begins with one of
        // which this was lent.
        ensures { (before entries : History) (text : Text)
            → reading (examiner_schema self.now) text ≡ Ok (sentence_of query)
            → IsLent (examiner_schema self.now) (examiner_user self.now) before (sentence_of query)
            lent.entry
            → IsFirstPart before entries
            → IfSome result
            (IsExamined (examiner_schema self.now) (examiner_user self.now) entries text) }
    {
        law_limits();
        examined_after(rt, alloc, &self.guards, self.user, lent, query)
    }
}

/// The query that a text is, with its ground formula. There is none where the text is no sentence
/// or a large one, or memory is wanting.
pub(crate) fn read_query(alloc: Global, schema: &Schema, text: &str) -> Option<GroundSentence>
    requires { length text.now ≤ 4096 }
    ensures read { IfSome result (λ query. reading schema.now text.now ≡ Ok (sentence_of query)) }
    ensures sentence { IfSome result (λ query.
        is_sentence_of schema.now (sentence_of query) ≡ true) }
    ensures grounded { IfSome result (IsGroundOver schema.now) }
{
    let Ok(query) = read_sentence(alloc, schema, text) else {
        return None;
    };
    if nodes(&query, schema) > QUERY_NODES {
        return None;
    }
    match GroundSentence::new(alloc, schema, query) {
        Ok(query) => Some(query),
        Err(_) => None,
    }
}

/// What the probes of a query find after the log of these views, of a user with the secrets that he
/// has at its end. Where memory is wanting the views are dropped.
pub(crate) fn examined_after<'w, R: Threads + Sync>(
    rt: &R,
    alloc: Global,
    guards: &Guards<'_>,
    user: &User,
    lent: Lent<'w>,
    query: GroundSentence,
) -> Option<Examined<'w>>
    requires fits { FitsProbes guards.now.schema (profile_of user.now) }
    requires guarded { guards.now.sentences ≡ guarded (profile_of user.now) }
    requires schema { schema_of (lent_view lent) ≡ guards.now.schema }
    requires sentence { is_sentence_of guards.now.schema (sentence_of query) ≡ true }
    requires grounded { IsGroundOver guards.now.schema query }
    requires all_nodes { log_nodes guards.now.schema (log_of (lent_view lent))
        + nodes guards.now.schema (sentence_of query) ≤ 60000 }
    // It has examined each text that is the query, for each history of each user (`first`) that
    // begins with one of which this was lent, at whose end he is the user here.
    ensures { (first : UserProfile) (before entries : History) (text : Text)
        → reading guards.now.schema text ≡ Ok (sentence_of query)
        → IsLentTo guards.now.schema first (profile_of user.now) before (sentence_of query)
        lent.entry
        → IsFirstPart before entries
        → IfSome result (IsExamined guards.now.schema first entries text) }
{
    law_logs();
    let Lent { views, items } = lent;
    let mut views = views;
    match examine_beside(rt, alloc, &mut views, guards, user, &query) {
        Ok(findings) => Some(Examined {
            query,
            views,
            items,
            findings,
        }),
        Err(_) => None,
    }
}
