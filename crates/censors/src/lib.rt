//! The three censors: what the probes of a query find, which mark answers it, who is admitted, and
//! which secret can be added.
//!
//! They follow Biskup and Bonatti (2004): uniform refusal and uniform lying for known potential
//! secrets, and the combined censor. `Guards` is what the user's method guards from him, made once
//! for all of his queries. `examine` makes every probe of a query and looks at no world; its
//! findings say what the log entails over all worlds. `examine_beside` finds the same by several
//! threads, over views that are lent together. `decide` gives the mark from them and the query's
//! truth, by the rule of the user's method. `admit` says whether a user can be served in a world,
//! and else which test fails first. `safe_with` says whether he can be given one more secret. Read
//! `guards`, then `examination`, `lent`, `parts`, `beside`, `marks`, `admittance` and `additions`.
#![tactic(auto)]

mod additions;
mod admittance;
mod beside;
mod examination;
mod guards;
mod laws;
mod lent;
mod marks;
mod parts;
mod secrets;

pub use additions::safe_with;
pub use admittance::{ADMISSION_BUDGET, Admission, admit};
pub use beside::{examine_beside, views_for};
pub use examination::{Findings, examine};
pub use guards::Guards;
pub use laws::law_undecided_is_cost;
pub use lent::LentViews;
pub use marks::decide;
pub use secrets::{disjunction, guard_with};
