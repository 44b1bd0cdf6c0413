//! Workers that serve the connections of doors side by side: each has a door, a job and a thread,
//! and draws a number before each connection. They end at the end of their links, at a failure of
//! them, or at a limit.
//!
//! Each connection that a door gives has one run of its worker's job, all with different numbers
//! below the limit, and goes back to its door; what the job says of the finished connection is then
//! known of it. That a worker is ever served, or that two run at once, isn't claimed.
//!
//! Read `worker` first, then `serve_all` in `pool`, whose clauses are in the words of
//! `specs/Workers.antt`. `numbers` has the numbers that threads draw, and `specs/NumberRule.antt`
//! what holds between any two steps.
#![tactic(auto)]

mod hand;
mod numbers;
mod pool;
mod worker;

pub use pool::serve_all;
pub use worker::{Job, Worker, WorkerEnd};
