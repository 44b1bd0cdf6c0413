//! Views: a log over a schema, which grows by one sentence at a time.
ghost use Rattle.std.specs.Prelude.{◌≡◌, ◌≤◌, ◌<◌, ◌+◌, true, [], ◌∷◌, ◌++◌, length, map, IfOk};
ghost use Rattle.std.specs.Prelude.{OnOk, OnErr};
ghost use Rattle.cqe_base.specs.Formula.{formula_of, nodes, is_sentence_of};
ghost use Rattle.cqe_base.specs.History.{profile_of, known, signed_nodes};
ghost use Rattle.entailment.specs.Logs.{log_nodes, IsSmallLog, told_log};
ghost use Rattle.entailment.specs.Views.{schema_of, log_of, room_of, IsLogBeginning};

use clause_form::former::Former;
use clause_solver::KeptSearch;
use cqe_base::schema::Schema;
use cqe_base::sentence::Sentence;
use cqe_base::user::User;
use std::alloc::{AllocError, Global};
use std::marker::Model;

/// A sentence of a log, or where `yes` is false its negation.
#[derive(Drop)]
pub(crate) struct Told {
    pub(crate) sentence: Sentence,
    pub(crate) yes: bool,
}

/// A log over a schema. The clauses of its sentences are formed by the first probe behind them;
/// they are kept then, and so is the work of the search on them.
#[derive(Drop)]
pub struct View<'s> {
    pub(crate) schema: &'s Schema,
    pub(crate) log: Vec<Told>,
    pub(crate) former: Former,
    /// How many sentences of the log the former has.
    pub(crate) formed: usize,
    pub(crate) kept: KeptSearch,
}

impl<'s> Model for View<'s> {
    ghost use Rattle.entailment.specs.Views.{LogView};
    ghost use Rattle.entailment.specs.ViewCode.{view_code};

    ghost Value = { LogView };

    ghost coded = { view_code };

    ghost use Rattle.entailment.specs.Inside.{view_inside, IsSound};

    ghost view = { view_inside };

    ghost invariant = { IsSound };
}

impl<'s> View<'s> {
    /// The view whose log is what the user knows beforehand.
    #[tactic(auto, unfolding(cqe_base::specs::History::known))]
    pub fn new(alloc: Global, schema: &'s Schema, user: &User) -> Result<View<'s>, AllocError>
        requires { IsSmallLog schema.now (known (profile_of user.now)) }
        ensures schema { IfOk result (λ view. schema_of view ≡ schema.now) }
        ensures log { IfOk result (λ view. log_of view ≡ known (profile_of user.now)) }
    {
        let log = told_of(alloc, user.know.as_slice())?;
        let former = Former::new(alloc)?;
        let kept = KeptSearch::new(alloc);
        Ok(View {
            schema,
            log,
            former,
            formed: 0,
            kept,
        })
    }

    /// The view of an empty log.
    pub(crate) fn blank(alloc: Global, schema: &'s Schema) -> Result<View<'s>, AllocError>
        ensures schema { IfOk result (λ view. schema_of view ≡ schema.now) }
        ensures log { IfOk result (λ view. log_of view ≡ []) }
    {
        let former = Former::new(alloc)?;
        let kept = KeptSearch::new(alloc);
        Ok(View {
            schema,
            log: Vec::new(alloc),
            former,
            formed: 0,
            kept,
        })
    }

    /// Takes the memory for one more sentence. The log stays.
    pub fn reserve(&mut self) -> Result<(), AllocError>
        ensures schema { schema_of self.new ≡ schema_of self.old }
        ensures log { log_of self.new ≡ log_of self.old }
        ensures room { OnOk result (0 < room_of self.new) }
    {
        self.log.reserve(1)
    }

    /// Appends the query, or where `yes` is false its negation, to a log with room for it. It takes
    /// no memory.
    pub fn push_reserved(&mut self, query: Sentence, yes: bool)
        requires sentence { is_sentence_of (schema_of self.old) (formula_of query) ≡ true }
        requires query { nodes (schema_of self.old) (formula_of query) ≤ 20000 }
        requires nodes { log_nodes (schema_of self.old) (log_of self.old)
            + signed_nodes (schema_of self.old) (formula_of query) yes ≤ 60000 }
        requires room { 0 < room_of self.old }
        ensures schema { schema_of self.new ≡ schema_of self.old }
        ensures added { log_of self.new ≡ log_of self.old ++ (formula_of query, yes) ∷ [] }
    {
        self.log.push_reserved(Told {
            sentence: query,
            yes,
        });
    }

    /// Appends the query, or where `yes` is false its negation, to the log. A refusal changes
    /// nothing.
    pub fn add(&mut self, alloc: Global, query: &Sentence, yes: bool) -> Result<(), AllocError>
        requires sentence { is_sentence_of (schema_of self.old) (formula_of query.now) ≡ true }
        requires query { nodes (schema_of self.old) (formula_of query.now) ≤ 20000 }
        requires room { log_nodes (schema_of self.old) (log_of self.old)
            + signed_nodes (schema_of self.old) (formula_of query.now) yes ≤ 60000 }
        ensures schema { schema_of self.new ≡ schema_of self.old }
        ensures added { OnOk result (log_of self.new
            ≡ log_of self.old ++ (formula_of query.now, yes) ∷ []) }
        ensures refused { OnErr result (log_of self.new ≡ log_of self.old) }
    {
        let sentence = query.copy(alloc)?;
        self.reserve()?;
        self.push_reserved(sentence, yes);
        Ok(())
    }

    /// Appends what a longer log has more. A refusal leaves out its sentences from some one on.
    pub(crate) fn follow(&mut self, alloc: Global, sentences: &[Told]) -> Result<(), AllocError>
        requires small { IsSmallLog (schema_of self.old) (told_log sentences.now) }
        requires begins { IsLogBeginning (log_of self.old) (told_log sentences.now) }
        ensures schema { schema_of self.new ≡ schema_of self.old }
        ensures log { OnOk result (log_of self.new ≡ told_log sentences.now) }
    {
        for number in self.len()..sentences.len() {
            let told = &sentences[number];
            self.add(alloc, &told.sentence, told.yes)?;
        }
        Ok(())
    }

    /// How many sentences the log has.
    pub fn len(&self) -> usize
        ensures { result ≡ length (log_of self.now) }
    {
        self.log.len()
    }
}

/// These sentences, as parts of a log.
pub(crate) fn told_of(alloc: Global, sentences: &[Sentence]) -> Result<Vec<Told>, AllocError>
    ensures { IfOk result (λ told. told_log told.items
        ≡ map (λ s. (s, true)) (map formula_of sentences.now)) }
{
    let mut told = Vec::new(alloc);
    for sentence in sentences {
        told.push(Told {
            sentence: sentence.copy(alloc)?,
            yes: true,
        })?;
    }
    Ok(told)
}
