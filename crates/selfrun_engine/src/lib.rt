//! A workload that the program makes and runs itself, over a shelf, a source and a sink in memory.
//!
//! `run_selfrun` makes the workload of a seed, makes the journals of its users, runs its script
//! over them as a batch, and writes how often each reply came. What is counted are the replies in
//! the lines of the transcript of that script over that policy and that database, from empty
//! histories, in which every journal was opened and no append failed.
//!
//! Read `specs/Tallies.antt` and `specs/Runs.antt` first, then `end`, `tally`, `summary` and `run`.
#![tactic(auto)]

mod end;
mod run;
mod summary;
mod tally;
#[cfg(test)]
mod tests;

pub use end::SelfrunEnd;
pub use run::run_selfrun;
pub use tally::Tally;
