//! The texts of an audit: what is said of one user, laid out as lines of text or as one line of
//! JSON.
//!
//! `lines_of` gives exactly the lines of a definition for any report: a line for the user, one for
//! each entry with its number, two for each secrecy and one for each other secret with the facts of
//! its other world; or one JSON object, its keys in the order of their bytes. What a report says,
//! and where it comes from, is the business of the crate above.
//!
//! Read `specs/Said.antt`, `specs/Text.antt` and `specs/Json.antt`, then `report`; `lines` and
//! `json` lay it out.
#![tactic(auto)]

mod json;
mod lines;
mod report;

pub use lines::push_facts;
pub use report::{EntryRow, Report, SecrecyRow, SecretRow, lines_of};
