//! Entailment: whether a log, with at most one further premise, entails a goal, within a budget.
//!
//! A `View` holds a log over a schema, with the clauses of the log. `test` runs one probe of it:
//! the clauses of the premise and of the negated goal are added, the machine searches all of them,
//! what it found is told, and the clauses are cut back to those of the log. A refutation is checked
//! again before it is told, and so is a model whose world is wanted. Of a model without a world the
//! search's own clause says that its signs make each clause true.
//! Both are given as a `GroundSentence`, which is made once for all of its probes.
//! Its verdict is that of the machine's end. `Follows` comes only where the premises entail the
//! goal over all worlds of the schema, `Open` only with a world in which they are true and the goal
//! is false, that of the machine's model, and the view is afterwards as it was. `probe_outcome`
//! makes no world. `certify` tells the refutation with which the machine ends, too, and `confirm`
//! says of any refutation whether it is right for a probe, without a search. `Views` is a log that
//! lends views of itself, and takes them back.
//!
//! The law beneath is that of `clause_form`: the clauses have a model exactly where some world of
//! the schema makes the sentences true. Read `view`, then `sentences`, `forms`, `probes` and
//! `confirming`.
#![tactic(auto)]

mod budgets;
mod confirming;
mod forms;
mod probes;
mod sentences;
mod view;
mod views;

pub use budgets::enough;
pub use confirming::confirm;
pub use probes::{Certified, Probe, ProbeOutcome, Verdict, certify, probe_outcome, test};
pub use sentences::GroundSentence;
pub use view::View;
pub use views::Views;
