//! Tests of what is read and printed: sentences, lines, policies and facts, audits, files of
//! clauses.
//!
//! They call the libraries as any other crate does. A module is named for what it tests:
//! `sentences` of `sentence_text`, `lists` of `open_queries`, `lines` of `line_protocol`,
//! `policies` of `policy_files`, `audits` of `audit_text`, `dimacs` of `dimacs_text` and
//! `workloads` of `workload`. Texts that are compared were worked out by hand or by an independent
//! program. Tables of texts are scenes of `rehearsals`; here stands what needs an object that
//! fails, a part of what is read, or what no command prints.
#![tactic(auto)]

#[cfg(test)]
mod audits;
#[cfg(test)]
mod dimacs;
#[cfg(test)]
mod lines;
#[cfg(test)]
mod lists;
#[cfg(test)]
mod policies;
#[cfg(test)]
mod sentences;
#[cfg(test)]
mod workloads;
