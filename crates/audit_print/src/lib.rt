//! The audit of one user: his history, for each secret another world that gives him the same
//! replies, and for each secrecy two, one in which it is true and one in which it is false.
//!
//! `audit` prints what a desk holds, as text or as JSON. Byte for byte it is the text of a
//! definition over the desk's standing and history and over worlds of which each hides its secret;
//! where the search for one needs more than the admission budget, the audit says so. All is made
//! before the first byte is written.
//!
//! Read `specs/Others.antt`, `specs/Said.antt` and `specs/Audits.antt`, then `printing`; `others`
//! finds the worlds and `report` makes the texts, which `audit_text` lays out.
#![tactic(auto)]

mod others;
mod printing;
mod report;

pub use printing::{AuditError, audit};
pub use report::{fact_text, fact_texts, method_word};
