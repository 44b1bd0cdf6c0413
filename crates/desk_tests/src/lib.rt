//! Tests of one user's desk, of a desk that sessions share, of sessions and of a worker's job.
//!
//! They call the libraries as any other crate does. A module is named for what it tests: `desks` of
//! `user_desk`, `counters` of `desk_counter`, `examining` of `censors`, `dossiers` of `dossier`
//! (with its rows in `changes`), `shown` of it over a workload, `sessions` of `session_core`,
//! `service` of `serve_engine`. They share a small `clinic`. Bytes and replies that are compared
//! were worked out by hand.
#![tactic(auto)]

#[cfg(test)]
mod changes;
#[cfg(test)]
mod clinic;
#[cfg(test)]
mod counters;
#[cfg(test)]
mod desks;
#[cfg(test)]
mod dossiers;
#[cfg(test)]
mod examining;
#[cfg(test)]
mod service;
#[cfg(test)]
mod sessions;
#[cfg(test)]
mod shown;
