//! A user's entries, with the view of their log and their sizes.

ghost use Rattle.std.specs.Prelude.{◌≡◌, ◌≤◌, ◌<◌, ◌+◌, ◌++◌, ◌∷◌, [], ◌&&◌, true, false, Bool};
ghost use Rattle.std.specs.Prelude.{length, map, sum_by, Ok, IfOk, OnOk, OnErr, IfSome, IfNone};
ghost use Rattle.cqe_base.specs.Schema.{Text};
ghost use Rattle.cqe_base.specs.Formula.{formula_of, nodes, is_sentence_of};
ghost use Rattle.cqe_base.specs.History.{profile_of, answered_query_of, log, view_size, told_by};
ghost use Rattle.cqe_base.specs.History.{signed_nodes, user_at};
ghost use Rattle.cqe_base.specs.Truth.{true_in};
ghost use Rattle.cqe_base.specs.Censor.{mark_after, safe_with, safe_after, IsLegal, guarded};
ghost use Rattle.cqe_base.specs.Censor.{mark_by};
ghost use Rattle.cqe_base.specs.Reading.{reading};
ghost use Rattle.cqe_base.specs.Run.{is_full, is_too_large, is_too_large_secret, has_all_secrets};
ghost use Rattle.cqe_base.specs.Limits.{KeepsLimits, KeepsSizes, KeepsSizesAt, FitsProbes};
ghost use Rattle.cqe_base.specs.Limits.{FitsAddition};
ghost use Rattle.entailment.specs.Views.{schema_of, log_of, room_of};
ghost use Rattle.entailment.specs.Logs.{log_nodes};
ghost use Rattle.censors.specs.Found.{HasFindings};
ghost use Rattle.user_log.specs.Nodes.{told_nodes};
ghost use Rattle.user_log.specs.Kept.{IsConsistentLog, IsConsistentLog-prop, IsAmended};
ghost use Rattle.user_log.specs.Kept.{IsAmended-prop};
ghost use Rattle.user_log.specs.Amended.{IsBehind, IsAmendedTo};
ghost use Rattle.entailment.specs.GroundSentences.{sentence_of, IsGroundOver};

use crate::examiner::{examined_after, read_query};
use crate::prepared::Amended;
use crate::{Examined, Examiner, Lent, Prepared, Reply, Weighed};
use censors::{
    Findings, Guards, LentViews, decide, examine, law_undecided_is_cost, safe_with, views_for,
};
use cqe_base::laws::{
    law_added_secrets, law_amended_limits, law_findings_decide, law_legal_grows, law_limits,
    law_logs, law_reading, law_rules_add_none,
};
use cqe_base::schema::Schema;
use cqe_base::sentence::{Sentence, nodes};
use cqe_base::user::{Entry, Mark, Purpose, User};
use cqe_base::world::World;
use entailment::{GroundSentence, Views};
use sentence_text::{ReadError, read_sentence};
use std::alloc::{AllocError, Global};
use std::thread::Threads;
use truth_eval::holds;

/// A history has at most so many items.
const ENTRIES: usize = 4_096;

/// The texts of a history have at most so many bytes.
const TEXT_BYTES: u64 = 1_048_576;

/// A query has at most so many nodes.
pub(crate) const QUERY_NODES: u64 = 20_000;

/// A view and a query have at most so many nodes together.
const VIEW_NODES: u64 = 60_000;

/// A user has at most so many secrets.
const SECRETS: usize = 16;

/// The negations of a user's secrets have at most so many nodes together.
const SECRET_NODES: u64 = 40_000;

/// What is kept of a user between the calls for him.
#[derive(Drop)]
pub struct UserLog<'w> {
    schema: &'w Schema,
    world: &'w World,
    user: &'w User,
    /// The user with the secrets that were added to him.
    current: User,
    guards: Guards<'w>,
    views: Views<'w>,
    entries: Vec<Entry>,
    text_bytes: u64,
    view_nodes: u64,
    ghost kept: { IsConsistentLog schema.now world.now (profile_of user.now)
        (map answered_query_of entries.items) (schema_of views) (log_of views)
        text_bytes view_nodes } by { IsConsistentLog-prop _ _ _ _ _ _ _ _ },
    ghost amended: { IsAmended schema.now (profile_of user.now)
        (map answered_query_of entries.items) (profile_of current)
        guards } by { IsAmended-prop _ _ _ _ _ },
}

impl<'w> UserLog<'w> {
    ghost use Rattle.user_log.specs.UserLogs.{kept_schema, kept_world, kept_user, kept_history};
    ghost use Rattle.user_log.specs.UserLogs.{IsOfSame};
    ghost use Rattle.user_log.specs.Asked.{IsSomeAnswer, IsWeighed, IsAsked};
    ghost use Rattle.user_log.specs.Examining.{IsExamined, IsLent, IsLentTo};
    ghost use Rattle.user_log.specs.Examiners.{examiner_schema, examiner_user};
    ghost use Rattle.cqe_base.specs.declared.user.Purpose.TheVariants.{Asking, Protecting};
    ghost use Rattle.user_log.specs.Undecided.{IsMarkByCost, IsUndecidedByCost, IsReplyByCost};
    ghost use Rattle.user_log.specs.Replies.{reply_of};
    ghost use Rattle.user_log.specs.Prepared.{IsPrepared, prepared_entry};

    /// The log of a user for whom no call was made.
    pub fn new(
        alloc: Global,
        schema: &'w Schema,
        world: &'w World,
        user: &'w User,
    ) -> Result<UserLog<'w>, AllocError>
        requires { KeepsLimits schema.now (profile_of user.now) }
        ensures empty { IfOk result (λ log. kept_history log ≡ []) }
        ensures schema { IfOk result (λ log. kept_schema log ≡ schema.now) }
        ensures world { IfOk result (λ log. kept_world log ≡ world.now) }
        ensures user { IfOk result (λ log. kept_user log ≡ profile_of user.now) }
    {
        law_limits();
        law_logs();
        law_added_secrets();
        law_legal_grows();
        schema.known();
        let entries = Vec::new(alloc);
        let view_nodes = user.view_nodes(schema);
        let current = user.after(alloc, entries.as_slice())?;
        let guards = Guards::new(alloc, schema, &current)?;
        let views = Views::new(alloc, schema, user)?;
        Ok(UserLog {
            schema,
            world,
            user,
            current,
            guards,
            views,
            entries,
            text_bytes: 0,
            view_nodes,
        })
    }

    /// The user.
    pub fn user(&self) -> &'w User
        ensures { profile_of result.now ≡ kept_user self.now }
    {
        self.user
    }

    /// What examines the user's texts outside of the log, as long as no secret is added.
    pub fn examiner(&self, alloc: Global) -> Result<Examiner<'w>, AllocError>
        ensures schema { IfOk result (λ examiner.
            examiner_schema examiner ≡ kept_schema self.now) }
        ensures user { IfOk result (λ examiner. examiner_user examiner ≡ kept_user self.now) }
    {
        Examiner::new(alloc, self.schema, self.user)
    }

    /// The items, oldest first.
    pub fn entries(&self) -> &[Entry]
        ensures { map answered_query_of result.now ≡ kept_history self.now }
    {
        self.entries.as_slice()
    }

    /// The items, and nothing else.
    pub fn into_entries(self) -> Vec<Entry>
        ensures { map answered_query_of result.items ≡ kept_history self.entry }
    {
        self.entries
    }

    /// What is known of the items: the user keeps the limits, and each item came within them and
    /// is legal behind those before it. It computes nothing.
    pub fn known(&self)
        ensures limits { KeepsLimits (kept_schema self.now) (kept_user self.now) }
        ensures sizes { KeepsSizes (kept_schema self.now) (kept_user self.now)
            (kept_history self.now) }
        ensures legal { IsLegal (kept_schema self.now) (kept_world self.now) (kept_user self.now)
            (kept_history self.now) }
    {}

    /// The reply to a call by the items so far, with what was found of a query before, if that was
    /// done. It changes nothing that a caller sees.
    pub fn weigh(
        &mut self,
        alloc: Global,
        purpose: Purpose,
        text: &str,
        examined: Option<Examined<'w>>,
    ) -> Result<Weighed, AllocError>
        requires few { length text.now ≤ 4096 }
        requires examined { IfSome examined (IsExamined (kept_schema self.old) (kept_user self.old)
            (kept_history self.old) text.now) }
        ensures same { self.new ≡ self.old }
        ensures weighed { IfOk result
            (IsWeighed (kept_schema self.old) (kept_world self.old) (kept_user self.old)
            (kept_history self.old) purpose text.now) }
        ensures undecided { IfOk result
            (IsUndecidedByCost (kept_schema self.old) (kept_user self.old)
            (kept_history self.old) purpose) }
    {
        match purpose {
            Purpose::Asking => self.weigh_query(alloc, text, examined),
            Purpose::Protecting => self.weigh_secret(alloc, text),
        }
    }

    /// The reply to a text that is asked.
    fn weigh_query(
        &mut self,
        alloc: Global,
        text: &str,
        examined: Option<Examined<'w>>,
    ) -> Result<Weighed, AllocError>
        requires few { length text.now ≤ 4096 }
        requires examined { IfSome examined (IsExamined (kept_schema self.old) (kept_user self.old)
            (kept_history self.old) text.now) }
        ensures same { self.new ≡ self.old }
        ensures weighed { IfOk result
            (IsWeighed (kept_schema self.old) (kept_world self.old) (kept_user self.old)
            (kept_history self.old) Asking text.now) }
        ensures undecided { IfOk result
            (IsUndecidedByCost (kept_schema self.old) (kept_user self.old)
            (kept_history self.old) Asking) }
    {
        match examined {
            Some(examined) => self.weigh_examined(alloc, text, examined),
            None => self.weigh_text(alloc, text),
        }
    }

    /// The same of a text of which nothing was found before.
    fn weigh_text(&mut self, alloc: Global, text: &str) -> Result<Weighed, AllocError>
        requires { length text.now ≤ 4096 }
        ensures same { self.new ≡ self.old }
        ensures weighed { IfOk result
            (IsWeighed (kept_schema self.old) (kept_world self.old) (kept_user self.old)
            (kept_history self.old) Asking text.now) }
        ensures undecided { IfOk result
            (IsUndecidedByCost (kept_schema self.old) (kept_user self.old)
            (kept_history self.old) Asking) }
    {
        law_limits();
        let query = match read_sentence(alloc, self.schema, text) {
            Ok(query) => query,
            Err(ReadError::Text(error)) => return Ok(Weighed::Code(Reply::Syntax(error))),
            Err(ReadError::Memory) => return Err(AllocError),
        };
        if let Some(code) = self.refusal(text, &query) {
            return Ok(Weighed::Code(code));
        }
        let query = GroundSentence::new(alloc, self.schema, query)?;
        let mark = self.mark(alloc, &query)?;
        Ok(Weighed::Answer(query.sentence, mark))
    }

    /// The same of a text that was examined after the log of a first part of the items.
    fn weigh_examined(
        &mut self,
        alloc: Global,
        text: &str,
        examined: Examined<'w>,
    ) -> Result<Weighed, AllocError>
        requires few { length text.now ≤ 4096 }
        requires examined { IsExamined (kept_schema self.old) (kept_user self.old)
            (kept_history self.old) text.now examined }
        ensures same { self.new ≡ self.old }
        ensures weighed { IfOk result
            (IsWeighed (kept_schema self.old) (kept_world self.old) (kept_user self.old)
            (kept_history self.old) Asking text.now) }
        ensures undecided { IfOk result
            (IsUndecidedByCost (kept_schema self.old) (kept_user self.old)
            (kept_history self.old) Asking) }
    {
        law_reading();
        let Examined {
            query,
            views,
            items,
            findings,
        } = examined;
        let is_whole = items == self.entries.len();
        views.put(&mut self.views);
        if let Some(code) = self.refusal(text, &query.sentence) {
            return Ok(Weighed::Code(code));
        }
        let mark = self.mark_with(alloc, &query, is_whole, &findings)?;
        Ok(Weighed::Answer(query.sentence, mark))
    }

    /// The reply to a text that is to be added to the secrets.
    fn weigh_secret(&mut self, alloc: Global, text: &str) -> Result<Weighed, AllocError>
        requires { length text.now ≤ 4096 }
        ensures same { self.new ≡ self.old }
        ensures weighed { IfOk result
            (IsWeighed (kept_schema self.old) (kept_world self.old) (kept_user self.old)
            (kept_history self.old) Protecting text.now) }
    {
        let secret = match read_sentence(alloc, self.schema, text) {
            Ok(secret) => secret,
            Err(ReadError::Text(error)) => return Ok(Weighed::Code(Reply::Syntax(error))),
            Err(ReadError::Memory) => return Err(AllocError),
        };
        if self.is_full(text.len()) {
            return Ok(Weighed::Code(Reply::Full));
        }
        if let Some(code) = self.secret_refusal(&secret) {
            return Ok(Weighed::Code(code));
        }
        let safe = self.is_safe(alloc, &secret)?;
        if safe {
            return Ok(Weighed::Answer(secret, Mark::Protected));
        }
        Ok(Weighed::Code(Reply::Unsafe))
    }

    /// Views of the log, after which the query can be examined outside of it, as many as there are
    /// best threads for that. There are none where a code answers the query, where a secret was
    /// added, or where memory is wanting.
    pub fn lend(&mut self, alloc: Global, text: &str, query: &GroundSentence) -> Option<Lent<'w>>
        requires { length text.now ≤ 4096 }
        ensures same { self.new ≡ self.old }
        ensures lent { IfSome result
            (IsLent (kept_schema self.old) (kept_user self.old) (kept_history self.old)
            (sentence_of query.now)) }
    {
        if self.has_more_secrets() {
            return None;
        }
        self.lend_views(alloc, text, query)
    }

    /// The same where secrets may have been added, for the user as he is now.
    fn lend_views(&mut self, alloc: Global, text: &str, query: &GroundSentence) -> Option<Lent<'w>>
        requires { length text.now ≤ 4096 }
        ensures same { self.new ≡ self.old }
        ensures lent { IfSome result
            (IsLentTo (kept_schema self.old) (kept_user self.old)
            (user_at (kept_user self.old) (kept_history self.old)) (kept_history self.old)
            (sentence_of query.now)) }
    {
        law_limits();
        if let Some(_code) = self.refusal(text, &query.sentence) {
            return None;
        }
        let size = self
            .view_nodes
            .saturating_add(nodes(&query.sentence, self.schema));
        let count = views_for(&self.guards, self.user, size);
        let items = self.entries.len();
        match LentViews::lend(alloc, &mut self.views, count) {
            Ok(views) => Some(Lent { views, items }),
            Err(_) => None,
        }
    }

    /// What is found of a text after the whole log, by several threads where that pays. There is
    /// nothing where the text is no query that is to be examined, or memory is wanting. It changes
    /// nothing that a caller sees.
    fn examined<R: Threads + Sync>(
        &mut self,
        rt: &R,
        alloc: Global,
        text: &str,
    ) -> Option<Examined<'w>>
        requires { length text.now ≤ 4096 }
        ensures same { self.new ≡ self.old }
        ensures examined { IfSome result (IsExamined (kept_schema self.old) (kept_user self.old)
            (kept_history self.old) text.now) }
    {
        law_amended_limits();
        let query = read_query(alloc, self.schema, text)?;
        let lent = self.lend_views(alloc, text, &query)?;
        examined_after(rt, alloc, &self.guards, &self.current, lent, query)
    }

    /// Whether the items add a secret.
    fn has_more_secrets(&self) -> bool
        ensures { result ≡ false
            → user_at (kept_user self.now) (kept_history self.now) ≡ kept_user self.now }
    {
        self.current.secrets.len() > self.user.secrets.len()
    }

    /// The code that answers the query of a text for want of room, if one does.
    fn refusal(&self, text: &str, query: &Sentence) -> Option<Reply>
        requires { length text.now ≤ 4096 }
        ensures code { IfSome result (λ code.
            reading (kept_schema self.now) text.now ≡ Ok (formula_of query.now)
            → IsWeighed (kept_schema self.now) (kept_world self.now) (kept_user self.now)
            (kept_history self.now) Asking text.now (Weighed.Code code)) }
        ensures room { IfNone result (is_full (kept_history self.now) (length text.now) ≡ false) }
        ensures small { IfNone result (is_too_large (kept_schema self.now) (kept_user self.now)
            (kept_history self.now) (formula_of query.now) ≡ false) }
    {
        if self.is_full(text.len()) {
            return Some(Reply::Full);
        }
        if self.is_too_large(query) {
            return Some(Reply::Size);
        }
        None
    }

    /// The code that answers each text that is this sentence and is to be added, if the history has
    /// room for the text but not for the secret.
    fn secret_refusal(&self, secret: &Sentence) -> Option<Reply>
        ensures code { IfSome result (λ code. (text : Text)
            → is_full (kept_history self.now) (length text) ≡ false
            → reading (kept_schema self.now) text ≡ Ok (formula_of secret.now)
            → IsWeighed (kept_schema self.now) (kept_world self.now) (kept_user self.now)
            (kept_history self.now) Protecting text (Weighed.Code code)) }
        ensures small { IfNone result (is_too_large_secret (kept_schema self.now)
            (kept_user self.now) (kept_history self.now) (formula_of secret.now) ≡ false) }
        ensures few { IfNone result
            (has_all_secrets (kept_user self.now) (kept_history self.now) ≡ false) }
    {
        if self.is_too_large_secret(secret) {
            return Some(Reply::Size);
        }
        if self.has_all_secrets() {
            return Some(Reply::Secrets);
        }
        None
    }

    /// Whether the user has as many secrets as one can have.
    fn has_all_secrets(&self) -> bool
        ensures { result ≡ has_all_secrets (kept_user self.now) (kept_history self.now) }
    {
        self.current.secrets.len() >= SECRETS
    }

    /// Whether the items, or the texts with one of this length, are too many.
    fn is_full(&self, length: usize) -> bool
        requires { length ≤ 4096 }
        ensures { result ≡ is_full (kept_history self.now) length }
    {
        self.entries.len() >= ENTRIES || self.text_bytes.saturating_add(length as u64) > TEXT_BYTES
    }

    /// Whether the query, or the view with it, is too large.
    fn is_too_large(&self, query: &Sentence) -> bool
        ensures { result
            ≡ is_too_large (kept_schema self.now) (kept_user self.now) (kept_history self.now)
            (formula_of query.now) }
    {
        let count = nodes(query, self.schema);
        count > QUERY_NODES || self.view_nodes.saturating_add(count) > VIEW_NODES
    }

    /// The mark of a query by the rule, from findings after a first part of the items, or from new
    /// ones where that isn't all of them.
    fn mark_with(
        &mut self,
        alloc: Global,
        query: &GroundSentence,
        is_whole: bool,
        findings: &Findings,
    ) -> Result<Mark, AllocError>
        requires sentence { is_sentence_of (kept_schema self.old) (sentence_of query.now) ≡ true }
        requires grounded { IsGroundOver (kept_schema self.old) query.now }
        requires small { is_too_large (kept_schema self.old) (kept_user self.old)
            (kept_history self.old) (sentence_of query.now) ≡ false }
        requires found { is_whole ≡ true → HasFindings (kept_schema self.old)
            (user_at (kept_user self.old) (kept_history self.old))
            (log (kept_user self.old) (kept_history self.old)) (sentence_of query.now)
            findings.now }
        ensures same { self.new ≡ self.old }
        ensures rule { IfOk result (λ mark. mark
            ≡ mark_after (kept_schema self.old) (kept_world self.old) (kept_user self.old)
            (kept_history self.old) (sentence_of query.now)) }
        ensures undecided { IfOk result (λ mark.
            IsMarkByCost (kept_schema self.old) (kept_user self.old) (kept_history self.old)
            (sentence_of query.now) mark) }
    {
        law_findings_decide();
        law_undecided_is_cost();
        if is_whole {
            return Ok(decided(self.schema, self.world, self.user, query, findings));
        }
        self.mark(alloc, query)
    }

    /// Whether the sentence is too large for a secret: for a query, or with the secrets or the
    /// view.
    fn is_too_large_secret(&self, secret: &Sentence) -> bool
        ensures { result
            ≡ is_too_large_secret (kept_schema self.now) (kept_user self.now)
            (kept_history self.now) (formula_of secret.now) }
    {
        if self.is_too_large(secret) {
            return true;
        }
        let count = 1 + nodes(secret, self.schema);
        self.current.secret_nodes(self.schema) + count > SECRET_NODES
            || self.view_nodes.saturating_add(count) > VIEW_NODES
    }

    /// Whether one more secret is safe after the items so far.
    fn is_safe(&mut self, alloc: Global, secret: &Sentence) -> Result<bool, AllocError>
        requires sentence { is_sentence_of (kept_schema self.old) (formula_of secret.now) ≡ true }
        requires small { is_too_large_secret (kept_schema self.old) (kept_user self.old)
            (kept_history self.old) (formula_of secret.now) ≡ false }
        ensures same { self.new ≡ self.old }
        ensures safe { IfOk result (λ safe. safe
            ≡ safe_after (kept_schema self.old) (kept_user self.old) (kept_history self.old)
            (formula_of secret.now)) }
    {
        law_limits();
        law_amended_limits();
        let safe = safe_after(alloc, self.schema, &mut self.views, &self.current, secret)?;
        Ok(safe)
    }

    /// The mark of a query by the rule.
    fn mark(&mut self, alloc: Global, query: &GroundSentence) -> Result<Mark, AllocError>
        requires sentence { is_sentence_of (kept_schema self.old) (sentence_of query.now) ≡ true }
        requires grounded { IsGroundOver (kept_schema self.old) query.now }
        requires small { is_too_large (kept_schema self.old) (kept_user self.old)
            (kept_history self.old) (sentence_of query.now) ≡ false }
        ensures same { self.new ≡ self.old }
        ensures rule { IfOk result (λ mark. mark
            ≡ mark_after (kept_schema self.old) (kept_world self.old) (kept_user self.old)
            (kept_history self.old) (sentence_of query.now)) }
        ensures undecided { IfOk result (λ mark.
            IsMarkByCost (kept_schema self.old) (kept_user self.old) (kept_history self.old)
            (sentence_of query.now) mark) }
    {
        law_limits();
        law_amended_limits();
        law_findings_decide();
        law_undecided_is_cost();
        let findings = found_after(alloc, &mut self.views, &self.guards, &self.current, query)?;
        Ok(decided(self.schema, self.world, self.user, query, &findings))
    }

    /// Takes all that adding the item of a text that was weighed takes, with the mark that answers
    /// the call. The items stay.
    pub fn prepare(
        &mut self,
        alloc: Global,
        text: &str,
        query: Sentence,
        mark: Mark,
    ) -> Result<Prepared<'w>, AllocError>
        requires few { length text.now ≤ 4096 }
        requires answer { IsSomeAnswer (kept_schema self.old) (kept_world self.old)
            (kept_user self.old) (kept_history self.old) text.now (formula_of query) mark }
        ensures same { IsOfSame self.old self.new }
        ensures unchanged { kept_history self.new ≡ kept_history self.old }
        ensures prepared { IfOk result (IsPrepared self.new) }
        ensures legal { IfOk result (λ prepared.
            IsLegal (kept_schema self.new) (kept_world self.new) (kept_user self.new)
            (kept_history self.new ++ prepared_entry prepared ∷ [])) }
        ensures sizes { IfOk result (λ prepared.
            KeepsSizes (kept_schema self.new) (kept_user self.new)
            (kept_history self.new ++ prepared_entry prepared ∷ [])) }
        ensures entry { IfOk result (λ prepared. prepared_entry prepared ≡ record {
          query =
              formula_of query;
          mark = mark;
          length = length text.now;
        }) }
    {
        law_reading();
        law_limits();
        law_legal_grows();
        law_rules_add_none();
        self.entries.reserve(1)?;
        self.views.reserve()?;
        let nodes = told_nodes(self.schema, &query, mark);
        let told = query.copy(alloc)?;
        let length = text.len() as u32;
        let new_entry = Entry {
            query,
            mark,
            length,
        };
        let amended = self.behind(alloc, &new_entry)?;
        Ok(Prepared {
            told,
            new_entry,
            nodes,
            amended,
        })
    }

    /// The user behind this item, if it adds a secret.
    fn behind(&self, alloc: Global, entry: &Entry) -> Result<Option<Amended<'w>>, AllocError>
        requires { KeepsSizesAt (kept_schema self.now) (kept_user self.now)
            (kept_history self.now) (answered_query_of entry.now) }
        ensures { IfOk result (IsBehind (kept_schema self.now) (kept_user self.now)
            (kept_history self.now) (answered_query_of entry.now)) }
    {
        law_added_secrets();
        law_amended_limits();
        match entry.mark {
            Mark::Protected => {
                let user = self.current.with_secret(alloc, &entry.query)?;
                let guards = Guards::new(alloc, self.schema, &user)?;
                Ok(Some(Amended { user, guards }))
            }
            Mark::Yes | Mark::No | Mark::Refused | Mark::Undecided => Ok(None),
        }
    }

    /// Adds an item that was prepared for these items. It takes no memory.
    pub fn commit(&mut self, prepared: Prepared<'w>)
        requires { IsPrepared self.old prepared }
        ensures same { IsOfSame self.old self.new }
        ensures added { kept_history self.new
            ≡ kept_history self.old ++ prepared_entry prepared.entry ∷ [] }
    {
        law_limits();
        law_logs();
        law_added_secrets();
        law_legal_grows();
        let Prepared {
            told,
            new_entry,
            nodes,
            amended,
        } = prepared;
        tell(&mut self.views, told, new_entry.mark);
        amend(&mut self.current, &mut self.guards, amended);
        self.text_bytes += u64::from(new_entry.length);
        self.view_nodes += nodes;
        self.entries.push_reserved(new_entry);
    }

    /// Adds the item of a text that was weighed, with the mark that answers the call. A refusal
    /// changes nothing.
    pub fn add(
        &mut self,
        alloc: Global,
        text: &str,
        query: Sentence,
        mark: Mark,
    ) -> Result<(), AllocError>
        requires few { length text.now ≤ 4096 }
        requires answer { IsSomeAnswer (kept_schema self.old) (kept_world self.old)
            (kept_user self.old) (kept_history self.old) text.now (formula_of query) mark }
        ensures same { IsOfSame self.old self.new }
        ensures added { OnOk result (kept_history self.new
            ≡ kept_history self.old
            ++ record { query = formula_of query; mark = mark; length = length text.now }
            ∷ []) }
        ensures refused { OnErr result (kept_history self.new ≡ kept_history self.old) }
    {
        let prepared = self.prepare(alloc, text, query, mark)?;
        self.commit(prepared);
        Ok(())
    }

    /// The reply to a text that is asked, by the items so far. A mark adds its item; want of memory
    /// and a code change nothing.
    pub fn ask<R: Threads + Sync>(&mut self, rt: &R, alloc: Global, text: &str) -> Reply
        requires { length text.now ≤ 4096 }
        ensures same { IsOfSame self.old self.new }
        ensures asked { IsAsked (kept_schema self.old) (kept_world self.old) (kept_user self.old)
            (kept_history self.old) (kept_history self.new) Asking text.now (reply_of result) }
        ensures undecided { IsReplyByCost (kept_schema self.old) (kept_user self.old)
            (kept_history self.old) text.now result }
    {
        let examined = self.examined(rt, alloc, text);
        self.settle(alloc, text, examined)
    }

    /// The same with what was found of the text before, if that was done.
    fn settle(&mut self, alloc: Global, text: &str, examined: Option<Examined<'w>>) -> Reply
        requires few { length text.now ≤ 4096 }
        requires examined { IfSome examined (IsExamined (kept_schema self.old) (kept_user self.old)
            (kept_history self.old) text.now) }
        ensures same { IsOfSame self.old self.new }
        ensures asked { IsAsked (kept_schema self.old) (kept_world self.old) (kept_user self.old)
            (kept_history self.old) (kept_history self.new) Asking text.now (reply_of result) }
        ensures undecided { IsReplyByCost (kept_schema self.old) (kept_user self.old)
            (kept_history self.old) text.now result }
    {
        match self.weigh(alloc, Purpose::Asking, text, examined) {
            Ok(Weighed::Code(code)) => code,
            Ok(Weighed::Answer(query, mark)) => match self.add(alloc, text, query, mark) {
                Ok(()) => Reply::Mark(mark),
                Err(_) => Reply::Memory,
            },
            Err(_) => Reply::Memory,
        }
    }
}

/// Puts a user with one more secret in the place of the user as he was, if there is one.
fn amend<'w>(current: &mut User, guarding: &mut Guards<'w>, amended: Option<Amended<'w>>)
    ensures { IsAmendedTo amended.entry (profile_of current.old) guarding.old
        (profile_of current.new) guarding.new }
{
    match amended {
        Some(amended) => {
            let Amended { user, guards } = amended;
            *current = user;
            *guarding = guards;
        }
        None => {}
    }
}

/// What the probes of a query find after the whole log.
fn found_after(
    alloc: Global,
    views: &mut Views<'_>,
    guards: &Guards<'_>,
    user: &User,
    query: &GroundSentence,
) -> Result<Findings, AllocError>
    requires fits { FitsProbes (schema_of views.old) (profile_of user.now) }
    requires guards_schema { guards.now.schema ≡ schema_of views.old }
    requires guarded { guards.now.sentences ≡ guarded (profile_of user.now) }
    requires sentence { is_sentence_of (schema_of views.old) (sentence_of query.now) ≡ true }
    requires grounded { IsGroundOver (schema_of views.old) query.now }
    requires all_nodes { log_nodes (schema_of views.old) (log_of views.old)
        + nodes (schema_of views.old) (sentence_of query.now) ≤ 60000 }
    ensures findings { IfOk result
        (HasFindings (schema_of views.old) (profile_of user.now) (log_of views.old)
        (sentence_of query.now)) }
    ensures same { views.new ≡ views.old }
{
    let mut view = views.lend(alloc)?;
    let found = examine(alloc, &mut view, guards, user, query);
    views.put(view);
    found
}

/// The mark of a query by what its probes found, and its truth in the world.
fn decided(
    schema: &Schema,
    world: &World,
    user: &User,
    query: &GroundSentence,
    findings: &Findings,
) -> Mark
    requires { is_sentence_of schema.now (sentence_of query.now) ≡ true }
    ensures { result ≡ mark_by user.now.method findings.now.spent findings.now.implied
        findings.now.yes_harm findings.now.no_harm
        (true_in schema.now world.now (sentence_of query.now)) }
{
    let truth = holds(schema, world, &query.sentence);
    decide(user.method, findings, truth)
}

/// Whether one more secret is safe with a user after the whole log.
fn safe_after(
    alloc: Global,
    schema: &Schema,
    views: &mut Views<'_>,
    user: &User,
    secret: &Sentence,
) -> Result<bool, AllocError>
    requires schema { schema_of views.old ≡ schema.now }
    requires addition { FitsAddition schema.now (profile_of user.now) (formula_of secret.now) }
    requires log_nodes { log_nodes schema.now (log_of views.old) ≤ 60000 }
    ensures safe { IfOk result (λ safe. safe ≡ safe_with schema.now (profile_of user.now)
        (log_of views.old) (formula_of secret.now)) }
    ensures same { views.new ≡ views.old }
{
    let mut view = views.lend(alloc)?;
    let safe = safe_with(alloc, schema, &mut view, user, secret);
    views.put(view);
    safe
}

/// What an item with this mark adds to the nodes of the view.
pub fn told_nodes(schema: &Schema, query: &Sentence, mark: Mark) -> u64
    requires { nodes schema.now (formula_of query.now) ≤ 20000 }
    ensures { result ≡ told_nodes schema.now mark (formula_of query.now) }
{
    match mark {
        Mark::Yes => nodes(query, schema),
        Mark::No | Mark::Protected => 1 + nodes(query, schema),
        Mark::Refused | Mark::Undecided => 0,
    }
}

/// Appends to a log what a mark tells of its query. It takes no memory.
fn tell(views: &mut Views<'_>, query: Sentence, mark: Mark)
    requires sentence { is_sentence_of (schema_of views.old) (formula_of query) ≡ true }
    requires query { nodes (schema_of views.old) (formula_of query) ≤ 20000 }
    requires nodes { (yes : Bool)
        → log_nodes (schema_of views.old) (log_of views.old)
        + signed_nodes (schema_of views.old) (formula_of query) yes ≤ 60000 }
    requires room { 0 < room_of views.old }
    ensures schema { schema_of views.new ≡ schema_of views.old }
    ensures told { log_of views.new ≡ log_of views.old ++ told_by mark (formula_of query) }
{
    match mark {
        Mark::Yes => views.push_reserved(query, true),
        Mark::No => views.push_reserved(query, false),
        Mark::Refused | Mark::Undecided | Mark::Protected => {}
    }
}
