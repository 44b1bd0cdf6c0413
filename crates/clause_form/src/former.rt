//! Formers: the clause form of what is added, one formula after the other.

ghost use Rattle.std.specs.Prelude.{◌≡◌, true, ◌<◌, ◌≤◌, ◌^◌, ◌+◌, List, [], ◌++◌, length, IfOk};
ghost use Rattle.std.specs.Prelude.{OnOk, OnErr};
ghost use Rattle.std.specs.List.{list_all};
ghost use Rattle.cqe_base.specs.Facts.{is_fact_of};
ghost use Rattle.cqe_base.specs.Ground.{ground_of, ground_nodes};
ghost use Rattle.cqe_base.specs.SignedGround.{SignedGround};
ghost use Rattle.cqe_base.specs.Literal.{sign_at};
ghost use Rattle.cqe_base.specs.ClauseForm.{world_of};
ghost use Rattle.clause_form.specs.Forms.{form_of, with_formula, size_of, IsSizeWithin, first_of};
ghost use Rattle.clause_form.specs.Models.{ModelsOfFormAreWorlds};

mod walk;

use crate::laws::law_models_are_worlds_of_schema;
use crate::worlds::{add_fact, sign_of};
use clause_store::clauses::Clauses;
use clause_store::literal::Lit;
use clause_store::refutation::Signs;
use cqe_base::machine_laws::{
    law_clause_form_is_prefix, law_numbered_facts_stay, law_numbering_goes_on,
};
use cqe_base::prop::Prop;
use cqe_base::schema::Schema;
use cqe_base::world::{Fact, World};
use indexmap::IndexMap;
use std::alloc::{AllocError, Global};
use std::marker::Model;

/// The clauses and the numbering of the signed ground formulas that were added.
#[derive(Drop)]
pub struct Former {
    clauses: Clauses,
    facts: IndexMap<Fact, u32>,
    variables: u32,
}

impl Model for Former {
    ghost use Rattle.clause_form.specs.Forms.{Form};

    ghost Value = { Form };

    ghost use Rattle.clause_form.specs.Inside.{form_inside, IsSound};

    ghost view = { form_inside };

    ghost invariant = { IsSound };
}

/// How far a former had come when the mark was made; `Former::cut` goes back to it.
#[derive(Drop)]
pub struct FormMark {
    clauses: usize,
    facts: usize,
    variables: u32,
}

impl Model for FormMark {
    ghost use Rattle.clause_form.specs.Forms.{FormSize};

    ghost Value = { FormSize };

    ghost use Rattle.std.specs.Prelude.{◌<◌, ◌^◌};

    ghost view = { λ m. record { clauses = m.clauses; facts = m.facts; variables = m.variables } };

    ghost invariant = { λ m. m.variables < 2 ^ 31 };
}

impl Former {
    /// The form of nothing: the constant and its clause.
    pub fn new(alloc: Global) -> Result<Former, AllocError>
        ensures { IfOk result (λ former. former ≡ form_of []) }
    {
        let mut clauses = Clauses::new(alloc);
        clauses.push(&[Lit::positive(0)])?;
        Ok(Former {
            clauses,
            facts: IndexMap::new(alloc),
            variables: 1,
        })
    }

    /// Adds a formula, or where `positive` is false its negation. A refusal changes nothing.
    pub fn add(&mut self, alloc: Global, prop: &Prop, positive: bool) -> Result<(), AllocError>
        requires { self.old.numbering.variables + ground_nodes (ground_of prop.now) < 2 ^ 31 }
        ensures added { OnOk result
            (self.new ≡ with_formula self.old (ground_of prop.now, positive)) }
        ensures refused { OnErr result (self.new ≡ self.old) }
    {
        let before = self.mark();
        match self.walk_signed(alloc, prop, positive) {
            Ok(()) => Ok(()),
            Err(error) => {
                self.cut_to(before);
                Err(error)
            }
        }
    }

    /// The clauses.
    pub fn clauses(&self) -> &Clauses
        ensures { result.now ≡ self.now.clauses }
    {
        &self.clauses
    }

    /// How many variables are taken.
    pub fn variables(&self) -> u32
        ensures { result ≡ self.now.numbering.variables }
    {
        self.variables
    }

    /// The same form once more.
    pub fn copy(&self, alloc: Global) -> Result<Former, AllocError>
        ensures { IfOk result (λ copy. copy ≡ self.now) }
    {
        Ok(Former {
            clauses: self.clauses.copy(alloc)?,
            facts: self.facts.clone()?,
            variables: self.variables,
        })
    }

    /// How far the former has come.
    pub fn mark(&self) -> FormMark
        ensures { result ≡ size_of self.now }
    {
        FormMark {
            clauses: self.clauses.len(),
            facts: self.facts.len(),
            variables: self.variables,
        }
    }

    /// Goes back to the list that the former had when the mark was made.
    pub fn cut(&mut self, mark: FormMark)
        requires { IsSizeWithin mark self.old }
        ensures { (formulas more : List SignedGround) →
            self.old ≡ form_of (formulas ++ more) → mark ≡ size_of (form_of formulas)
            → self.new ≡ form_of formulas }
    {
        law_clause_form_is_prefix();
        law_numbering_goes_on();
        law_numbered_facts_stay();
        self.cut_to(mark);
    }

    /// Keeps the first clauses and facts, so many, and so many variables.
    fn cut_to(&mut self, mark: FormMark)
        requires { mark.clauses ≤ length self.old.clauses }
        ensures { self.new ≡ first_of mark self.old }
    {
        self.clauses.truncate(mark.clauses);
        self.facts.truncate(mark.facts);
        self.variables = mark.variables;
    }

    /// The world of the numbered facts whose sign is true. Where the form is that of sentences of
    /// the schema, its clauses have a model exactly where some world of the schema makes them true.
    pub fn world_of(
        &self,
        alloc: Global,
        schema: &Schema,
        model: &Signs,
    ) -> Result<World, AllocError>
        requires few { length self.now.numbering.facts ≤ 100000 }
        requires of_schema { list_all (λ e. is_fact_of schema.now e.fact) self.now.numbering.facts
            ≡ true }
        ensures world { IfOk result (λ world. world
            ≡ world_of self.now.numbering.facts (sign_at model.now.values.items)) }
        ensures models { IfOk result (λ world. ModelsOfFormAreWorlds schema.now self.now) }
    {
        law_models_are_worlds_of_schema();
        schema.known();
        let mut world = World::new(alloc);
        for (fact, number) in self.facts.iter() {
            if sign_of(model, *number) {
                add_fact(&mut world, schema, fact)?;
            }
        }
        Ok(world)
    }
}
