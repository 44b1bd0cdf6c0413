//! Tests of clauses, of sentences that are grounded, and of what follows from what.
//!
//! They call the libraries as any other crate does. A module is named for what it tests: `grounds`
//! of `grounding`, `lists` of `clause_store`, `probes` and `budgets` of `entailment`. Values that
//! are compared were worked out by hand or by an independent program. Truth, searches, refutations,
//! models and the clause forms themselves are scenes of `rehearsals`.
#![tactic(auto)]

#[cfg(test)]
mod budgets;
#[cfg(test)]
mod grounds;
#[cfg(test)]
mod lists;
#[cfg(test)]
mod pharmacy;
#[cfg(test)]
mod probes;
