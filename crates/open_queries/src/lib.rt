//! Open queries: a sentence that begins with `exists` is opened to its instances.
//!
//! `opened` reads a text and takes its first quantifiers off, or refuses it by the first rule that
//! it breaks. `OpenList` numbers the instances, and gives the constants and the text of each. An
//! instance is true exactly where the body is with these constants in its free places, so what is
//! said of a sentence that is asked holds of each instance. The sentence is true exactly where some
//! instance is.
//!
//! Read Instances and Opening of specs/, then `list`, `opening`, `filling` and `constructs`.
#![tactic(auto)]

mod constructs;
mod error;
mod filling;
pub mod laws;
mod list;
mod opening;

pub use error::{NO_QUANTIFIERS, OpenQueryError, TOO_LONG_INSTANCE, TOO_MANY_INSTANCES};
pub use list::OpenList;
pub use opening::opened;
