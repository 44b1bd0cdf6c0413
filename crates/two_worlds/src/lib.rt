//! Two worlds: for each secret of an admitted user another world, in which it is false, gives him
//! the same replies.
//!
//! `law_hides` is the law over the definitions: a legal history of an admitted user hides his
//! secrets, those that it adds among them. `law_secrecy` is that of secrecies: each of them is true
//! in such a world and false in another. `other_world` gives such a world as data: what the user
//! knows is true in it, the secret false, it admits him, and his history is legal there. For lying
//! one world serves for all secrets. Read `worlds`.
#![tactic(auto)]

mod worlds;

pub use worlds::{law_hides, law_secrecy, other_world, tell};
