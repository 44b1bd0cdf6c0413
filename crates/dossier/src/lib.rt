//! Dossiers: a user's history written with what shows each reply, and the check of such a text
//! without a search.
//!
//! A dossier has for each probe of each reply a block: a world in which the premises are true and
//! the goal is false, or a refutation of the probe's clauses. `write_dossier` writes that of a
//! legal history. `check_dossier` goes through a text line by line; `specs/Checked.antt` says which
//! history it shows, or which line is refused first. Of a text that is accepted the user is
//! admissible and the history sound, and so it hides soundly, whoever wrote it (`soundness`). What
//! is written of a legal history is accepted (`law_dossiers_are_accepted`). A text is accepted
//! exactly where it is a dossier of a sound history, with any right blocks
//! (`law_dossiers_are_checked`). Each block that is written is that of the machine's end on the
//! probe's clauses, so a user with these records has at most one dossier (`law_dossiers_are_one`).
//! `fields` parts a text into its lines and their first words.
//!
//! Read `specs/Fields.antt`, `specs/Words.antt`, `specs/Written.antt` and `specs/Right.antt`, which
//! says what is accepted, and `specs/Checked.antt`, which says it line by line; then `cut`, `words`
//! and `listed`; `past` is what was read so far, `blocks`, `items` and `checking` read on, and
//! `printed` and `writing` write.
#![tactic(auto)]

mod blocks;
mod checking;
mod cut;
mod error;
mod items;
mod laws;
mod listed;
mod past;
mod printed;
mod words;
mod writing;

pub use checking::check_dossier;
pub use cut::{Field, FieldIter, fields};
pub use error::DossierError;
pub use laws::{
    law_checked_is_sound, law_dossiers_are_accepted, law_dossiers_are_checked,
    law_dossiers_are_one, law_sound,
};
pub use writing::{write_dossier, write_unserved};
