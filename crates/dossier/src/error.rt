//! Why a dossier is refused.
ghost use Rattle.std.specs.Prelude.{◌≡◌};
ghost use Rattle.dossier.specs.declared.error.DossierError.TheVariants.{Memory};

use std::alloc::{AllocError, AllocFailed};

/// Why a dossier is refused, with the number of the line, counted from 1. Its kinds are numbered as
/// the table of `docs/FORMATS.md`, "Dossiers", has them.
#[derive(Clone, Copy, Debug, PartialEq, Eq)]
pub enum DossierError {
    /// The line isn't the one that must stand there, or there is none.
    Form(u32),
    /// The text of the item is no sentence, or beyond the limits.
    Text(u32),
    /// The refutation that ends there isn't right, or the world that is listed there has a premise
    /// false or the goal true.
    Verdict(u32),
    /// What was shown gives this ask another mark.
    Mark(u32),
    /// The user isn't open, or isn't shown to be admissible.
    Admission(u32),
    /// The sentence that is added isn't shown to be safe.
    Unsafe(u32),
    /// Memory is wanting, which says nothing of the text.
    Memory,
}

impl From<AllocError> for DossierError {
    ghost from_gives = { λ _ e. e ≡ Memory };

    fn from(_: AllocError) -> Self {
        DossierError::Memory
    }
}

impl<T: Drop> From<AllocFailed<T>> for DossierError {
    ghost from_gives = { λ _ e. e ≡ Memory };

    fn from(_: AllocFailed<T>) -> Self {
        DossierError::Memory
    }
}
