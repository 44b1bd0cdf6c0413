//! Sound histories: what is claimed of a history whose marks were checked without a search and
//! without a budget.
//!
//! `specs/Sound.antt` says when a history is sound. The laws say that legal histories are sound,
//! and that a sound history hides soundly: in the other world the same marks are right, and nothing
//! is said of budgets, nor of replies. `specs/Verdicts.antt` leads from verdicts on the probes of a
//! query to its mark. The crate has no code.
#![tactic(auto)]

ghost use Rattle.soundness.specs.Sound.{SoundHistoriesHide, EmptyHistoryIsSound};
ghost use Rattle.soundness.specs.Sound.{SoundHistoriesGrow, LegalHistoriesAreSound};
ghost use Rattle.soundness.specs.Verdicts.{VerdictsGiveMarks};

/// A sound history of an admissible user hides his secrets soundly, those among them that it adds:
/// for each there is a world in which the secret is false, all that he knows is true, he is
/// admissible, and his history is sound.
pub fn law_sound()
    ensures { SoundHistoriesHide }
{}

/// The empty history is sound, and a sound history with one more item that is sound behind it is
/// sound.
pub fn law_sound_grows()
    ensures empty { EmptyHistoryIsSound }
    ensures grows { SoundHistoriesGrow }
{}

/// A legal history is sound, where all is of a valid schema.
pub fn law_legal_sound()
    ensures { LegalHistoriesAreSound }
{}

/// Right verdicts on the probes of a query, in their order, give the mark that a sound history has
/// there.
pub fn law_verdicts()
    ensures { VerdictsGiveMarks }
{}
