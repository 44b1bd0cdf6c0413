//! The search machine by plain scanning: the definition's slow body, with the contract of `search`.

mod conflict;
mod run;
mod scan;
mod state;
mod trail;

pub use run::search_plain;
