//! A log with the views of it that are at hand.
ghost use Rattle.std.specs.Prelude.{◌≡◌, ◌≤◌, ◌<◌, ◌+◌, true, List, [], ◌∷◌, ◌++◌, All, length};
ghost use Rattle.std.specs.Prelude.{IfOk, OnOk};
ghost use Rattle.cqe_base.specs.Formula.{formula_of, nodes, is_sentence_of};
ghost use Rattle.cqe_base.specs.Entailment.{Signed};
ghost use Rattle.cqe_base.specs.History.{profile_of, known, signed_nodes};
ghost use Rattle.entailment.specs.Logs.{log_nodes, IsSmallLog};
ghost use Rattle.entailment.specs.Views.{schema_of, log_of, room_of, IsViewWithin};

use crate::view::{Told, View, told_of};
use cqe_base::schema::Schema;
use cqe_base::sentence::Sentence;
use cqe_base::user::User;
use std::alloc::{AllocError, Global};
use std::marker::Model;

/// So many views stay at hand at most.
const SPARES: usize = 16;

/// A log over a schema, and views that are lent for searches after it, any number at a time. A view
/// that comes back is lent again, with the clauses that it has and the work of the search on them,
/// once what was told in between was appended to its log.
#[derive(Drop)]
pub struct Views<'s> {
    schema: &'s Schema,
    log: Vec<Told>,
    spares: Vec<View<'s>>,
}

impl<'s> Model for Views<'s> {
    ghost use Rattle.entailment.specs.Views.{LogView};
    ghost use Rattle.entailment.specs.ViewCode.{view_code};

    ghost Value = { LogView };

    ghost coded = { view_code };

    ghost use Rattle.entailment.specs.ViewsInside.{views_inside, AreWithin};

    ghost view = { views_inside };

    ghost invariant = { AreWithin };
}

impl<'s> Views<'s> {
    /// The log is what the user knows beforehand, and no view is at hand.
    #[tactic(auto, unfolding(cqe_base::specs::History::known))]
    pub fn new(alloc: Global, schema: &'s Schema, user: &User) -> Result<Views<'s>, AllocError>
        requires { IsSmallLog schema.now (known (profile_of user.now)) }
        ensures schema { IfOk result (λ views. schema_of views ≡ schema.now) }
        ensures log { IfOk result (λ views. log_of views ≡ known (profile_of user.now)) }
    {
        let log = told_of(alloc, user.know.as_slice())?;
        Ok(Views {
            schema,
            log,
            spares: Vec::new(alloc),
        })
    }

    /// Takes the memory for one more sentence. The log stays.
    pub fn reserve(&mut self) -> Result<(), AllocError>
        ensures schema { schema_of self.new ≡ schema_of self.old }
        ensures log { log_of self.new ≡ log_of self.old }
        ensures room { OnOk result (0 < room_of self.new) }
    {
        self.log.reserve(1)
    }

    /// Appends the query, or where `yes` is false its negation, to a log with room for it. It takes
    /// no memory.
    pub fn push_reserved(&mut self, query: Sentence, yes: bool)
        requires sentence { is_sentence_of (schema_of self.old) (formula_of query) ≡ true }
        requires query { nodes (schema_of self.old) (formula_of query) ≤ 20000 }
        requires nodes { log_nodes (schema_of self.old) (log_of self.old)
            + signed_nodes (schema_of self.old) (formula_of query) yes ≤ 60000 }
        requires room { 0 < room_of self.old }
        ensures schema { schema_of self.new ≡ schema_of self.old }
        ensures added { log_of self.new ≡ log_of self.old ++ (formula_of query, yes) ∷ [] }
    {
        self.log.push_reserved(Told {
            sentence: query,
            yes,
        });
    }

    /// How many sentences the log has.
    pub fn len(&self) -> usize
        ensures { result ≡ length (log_of self.now) }
    {
        self.log.len()
    }

    /// A view of the whole log, to be put back.
    pub fn lend(&mut self, alloc: Global) -> Result<View<'s>, AllocError>
        ensures same { self.new ≡ self.old }
        ensures schema { IfOk result (λ view. schema_of view ≡ schema_of self.old) }
        ensures log { IfOk result (λ view. log_of view ≡ log_of self.old) }
    {
        let mut view = take_view(alloc, self.schema, &mut self.spares)?;
        view.follow(alloc, self.log.as_slice())?;
        Ok(view)
    }

    /// Takes a view of a beginning of the log back. Where enough are at hand, or memory is wanting,
    /// it is dropped.
    pub fn put(&mut self, view: View<'s>)
        requires { IsViewWithin (schema_of self.old) (log_of self.old) view }
        ensures { self.new ≡ self.old }
    {
        if self.spares.len() >= SPARES {
            return;
        }
        let _kept = self.spares.push(view);
    }
}

/// The view that came back last, or one of the empty log.
fn take_view<'s>(
    alloc: Global,
    schema: &'s Schema,
    spares: &mut Vec<View<'s>>,
) -> Result<View<'s>, AllocError>
    ensures within { (log : List Signed) → All (IsViewWithin schema.now log) spares.old.items
        → IfOk result (IsViewWithin schema.now log) }
    ensures left { (log : List Signed) → All (IsViewWithin schema.now log) spares.old.items
        → All (IsViewWithin schema.now log) spares.new.items }
{
    match spares.pop() {
        Some(view) => Ok(view),
        None => {
            let view = View::blank(alloc, schema)?;
            Ok(view)
        }
    }
}
