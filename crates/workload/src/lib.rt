//! A workload that follows from a seed: a policy, facts and a script of a batch, as texts.
//!
//! Forty persons have some of twelve diseases, and some take the drug. Each user knows that who
//! takes the drug has the first disease, and has three secrets. The asks come from the users in
//! turn.
//!
//! Read `specs/Draws.antt` and `specs/Statements.antt` first, then `draws`, `statement`, `policy`,
//! `question` and `files`.
#![tactic(auto)]

mod draws;
mod files;
mod policy;
mod question;
mod statement;

pub use files::{Workload, make};
