//! The clause form of signed ground formulas.
//!
//! A former has the clauses and the numbering of the list that was added to it, exactly as the
//! definition of the clause form says (`ClauseForm` of `cqe_base`). A refusal changes nothing, and
//! `cut` goes back exactly. The world of a model of its clauses is one in which the list is true.
//!
//! `law_models_are_worlds_of_schema` is the law beneath: the clauses of sentences of a valid schema
//! have a model exactly where some world of the schema makes the sentences true.
//! `Former::world_of`, which makes a world of a model, says it of the former's own clauses.
//!
//! Read `former`, then `former::walk`, `nodes`, `worlds` and `laws`.
#![tactic(auto)]

pub mod former;
pub mod laws;
mod nodes;
mod worlds;
