//! The search machine.
//!
//! `search` answers the machine's end, a model or a refutation, or Spent exactly where the
//! machine's whole cost is above the budget;
//! `search_with_cost` answers it with that cost.
//! It looks at two literals of each clause: for each literal it keeps the clauses that watch it,
//! and looks at them where it becomes false. What a clause knows of its watched literals is
//! `IsWatched`, and what is kept of all clauses `IsWatching` (specs/Watching.antt).
//! The clauses that may be unit lie in a heap (`min_heap`). An assignment that is undone touches no
//! clause.
//! `plain::search_plain` is the plain program of the same contract: it scans the clauses and the
//! trail at each step.
//! A conflict is analysed on one clause with a mark for each literal
//! (`clause_store::marked_clause`), so a resolution looks at each literal once.
//!
//! `KeptSearch` keeps a list of clauses with the steps that it leads to without a decision, and
//! searches longer lists from there (cqe_base, specs/KeptTrail.antt). Their other clauses join the
//! kept ones, and the state goes back when the search has ended (specs/Bases.antt).
//!
//! Read `entry` and `ends`, then `assignment`, `min_heap` and `watches`, then `indexed`,
//! `analysis`, `rules` and `run`, then `falsified`, `joining`, `propagation` and `kept_search`.
//! `plain` stands alone.
#![tactic(auto)]

mod analysis;
mod assignment;
mod conditions;
mod ends;
mod entry;
mod falsified;
mod indexed;
mod joining;
mod kept_search;
mod min_heap;
pub mod plain;
mod propagation;
mod rules;
mod run;
mod watches;

pub use conditions::is_searchable;
pub use ends::{Found, Searched};
pub use kept_search::KeptSearch;
pub use run::{search, search_with_cost};
