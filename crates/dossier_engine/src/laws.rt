//! The law of written dossiers. It computes nothing.
ghost use Rattle.dossier_engine.specs.Accepted.{WrittenAreAccepted};

use dossier::law_dossiers_are_accepted;

/// What is written of a user who is served is accepted where it has at most 67,108,864 bytes, and
/// shows the entries of his journal.
pub fn law_written_are_accepted()
    ensures { WrittenAreAccepted }
{
    law_dossiers_are_accepted();
}
