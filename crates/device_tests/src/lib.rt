//! Tests of what lies outside and of what stands on it alone: streams, disks, shelves and links in
//! memory, turns at one value, workers, journals and their making.
//!
//! They call the libraries as any other crate does. A module is named for what it tests: `streams`,
//! `disks`, `shelves` and `links` of `outside`, `turns` of `turnstile`, `workers` of `worker_pool`,
//! `journals` of `log_journal`, `standby` of `standby_core`, `making` of `init_engine`. Bytes,
//! calls and orders that are compared were worked out by hand. What tests share promises nothing
//! that no caller needs, so that a test carries none of the long contracts below it.
#![tactic(auto)]

#[cfg(test)]
mod checks;
#[cfg(test)]
mod disks;
#[cfg(test)]
mod journals;
#[cfg(test)]
mod links;
#[cfg(test)]
mod making;
#[cfg(test)]
mod shelves;
#[cfg(test)]
mod standby;
#[cfg(test)]
mod streams;
#[cfg(test)]
mod turns;
#[cfg(test)]
mod workers;
