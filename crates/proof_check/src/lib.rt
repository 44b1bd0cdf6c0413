//! The checker of refutations and models. It trusts nobody, neither the search nor what it is
//! handed.
//!
//! `check_refutation` says true exactly where each line follows by resolution from clauses before
//! it and the last line is empty; then no signs make every clause true. `check_model` says true
//! exactly where there is a sign for each variable and each clause has a true literal.
//!
//! Read `literal_set` and `refutation`, then `model`.
#![tactic(auto)]

mod literal_set;
pub mod model;
pub mod refutation;
