//! The policy file and the facts file: bytes are read as a policy, and as a world, or refused with
//! a number and a place.
//!
//! `read_policy` gives exactly what the definition `policy_in` (specs/Policy.antt) says of the
//! bytes: the schema and the users, or the first check that fails, with the key, the user and the
//! text at which it does. `read_facts` gives exactly what `facts_of` (specs/Facts.antt) says: the
//! world, or the first line that is refused. A policy that was read has a valid schema, users who
//! keep the limits, and names that differ; a world that was read is one of the schema.
//! The crate `toml` reads the tree of a document, and `hex` the digits of a token.
//!
//! Read `error` first, then `tree`, which takes values off the tree, `keys`, `user` (with `text`),
//! `policy` and `facts`.
#![tactic(auto)]

mod error;
mod facts;
mod keys;
pub mod laws;
mod lines;
mod policy;
mod text;
mod tree;
mod user;

pub use error::{FactsError, KeyPlace, KeyText, PolicyError};
pub use facts::read_facts;
pub use policy::{Policy, read_policy};
