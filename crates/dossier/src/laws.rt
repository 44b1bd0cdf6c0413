//! Laws of dossiers. They compute nothing.
ghost use Rattle.soundness.specs.Sound.{SoundHistoriesHide};
ghost use Rattle.dossier.specs.Promised.{CheckedAreSound};
ghost use Rattle.dossier.specs.Accepted.{DossiersAreAccepted, ServedAreAccepted};
ghost use Rattle.dossier.specs.Accepted.{NamesHaveNoFeed, DossiersAreOne};
ghost use Rattle.dossier.specs.Right.{DossiersAreChecked};

use cqe_base::laws::law_entailment;
use cqe_base::machine_laws::{law_machine_has_one_end, law_refutation_entails};
use soundness::{law_sound_grows, law_verdicts};

/// A sound history of an admissible user hides his secrets soundly, those among them that it adds:
/// for each there is a world in which the secret is false, all that he knows is true, he is
/// admissible, and his history is sound.
pub fn law_sound()
    ensures { SoundHistoriesHide }
{
    soundness::law_sound();
}

/// Of a text that is accepted the user is admissible and the history that it shows is sound.
pub fn law_checked_is_sound()
    ensures { CheckedAreSound }
{
    law_entailment();
    law_refutation_entails();
    law_sound_grows();
    law_verdicts();
}

/// The dossier of a legal history of an admitted user, whose name has no line feed, is accepted,
/// and so is that of the records of a journal that opens his desk.
pub fn law_dossiers_are_accepted()
    ensures accepted { DossiersAreAccepted }
    ensures served { ServedAreAccepted }
    ensures names { NamesHaveNoFeed }
{}

/// A text shows a history exactly where the user is admissible, the history is sound and within the
/// limits, and the text, perhaps without its last line feed, is a dossier of it with right blocks,
/// whoever wrote it. So nothing else is accepted.
pub fn law_dossiers_are_checked()
    ensures { DossiersAreChecked }
{
    law_entailment();
    law_refutation_entails();
    law_sound_grows();
    law_verdicts();
}

/// A user with these records has at most one dossier. So it shows no fact that the schema, the user
/// and the records don't.
pub fn law_dossiers_are_one()
    ensures { DossiersAreOne }
{
    law_machine_has_one_end();
}
