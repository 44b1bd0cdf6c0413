//! The batch: a script of many users and sessions over their journals, read whole, checked, and
//! answered line by line.
//!
//! `run_batch` reads the script, opens each user's journal as a desk, and writes one line for each
//! call and each restart: a call is an ask of a session, or a secret that an operator adds. What
//! bytes mean is `batch_of` of `specs/BatchLines.antt`; what is written, and what it means for each
//! user, stands in `specs/Batch.antt` over `specs/Lives.antt`: the lines of the transcript, in
//! which each user's replies are those of the run of his own events, whatever others do, and each
//! admitted user's final history hides. A batch goes by stretches, what stands between two
//! restarts: the users of a stretch are answered side by side, its counters are closed, and only
//! then its lines are written, in the script's order; since then a crash leaves each mark of it in
//! the journal. All disks are given back.
//!
//! Read `line`, `batch`, `answer`, `post`, `closed`, `run`, and `laws`, by which batches join;
//! proofs begin with `proofs/Courses.antt`, one user over his lives.
#![tactic(auto)]

mod answer;
mod batch;
mod closed;
pub mod laws;
mod line;
mod post;
mod run;

pub use run::{BatchEnd, run_batch};
