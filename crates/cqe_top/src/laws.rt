//! Laws of calls. Each function computes nothing: its clause is the law. `top` calls each of them.
ghost use Rattle.std.specs.Prelude.{List, ℕ};
ghost use Rattle.cqe_base.specs.Facts.{FactSet};
ghost use Rattle.cqe_base.specs.Schema.{Text};
ghost use Rattle.command_words.specs.Readings.{FileNames};
ghost use Rattle.policy_files.specs.Policies.{PolicyUser, PolicyValue};
ghost use Rattle.cqe_top.specs.Calls.{AnyBatchesJoin, AnyCallsJoin};
ghost use Rattle.cqe_top.specs.Laws.{DossiersAreFoundSound, EachCallIsPart, TwoBatchesJoin};
ghost use Rattle.cqe_top.specs.Takeovers.{StandbysKeep, TakeoversJoin};

use outside::{Links, Shelf, Sink, Source};

/// Two calls of `batch` over the same files, of which the second began with what a crash left as
/// the first ended, or at a moment of it, are one run for each user: by what `top` promises of
/// both, whatever their ends, what they told him are its replies, and its history is legal and
/// hides. Where the crash came since a stretch of the first had ended, all his events up to there
/// are in the run. More of them are one run by `law_any_batches_join`.
pub fn law_calls_join<F: Shelf, S: Source, K: Sink, E: Sink, L: Links>()
    ensures { TwoBatchesJoin F.Shelf F.D.Disk S.Source K.Sink E.Sink L.Links }
{}

/// A call of `batch`, `serve`, `audit` or `dossier` is to each user a part of his one history, by
/// what `top` promises of it, whatever its end and whatever a crash leaves of his journal as it
/// ends or at a moment of it; or it leaves nothing new. Any number of such calls are parts of one
/// history by `law_any_calls_join`.
pub fn law_calls_are_parts<F: Shelf, S: Source, K: Sink, E: Sink, L: Links>()
    ensures { EachCallIsPart F.Shelf F.D.Disk S.Source K.Sink E.Sink L.Links }
{}

/// Any number of calls of `batch` and `serve`, with a standby or without, of `audit` and of
/// `dossier` over the same files, of which each follows on the one before, leave a user one
/// history, by what `top` promises of each: whatever their ends, and whatever a crash leaves of his
/// journal as the last ends or at a moment of it. It goes on from the history with which the first
/// began, it is legal and hides, and the entries of all that a call had told him by the time when
/// the next began stand in it.
///
/// Premises about the world: that each call follows on the one before (`FollowsOn`), so that nobody
/// else writes his journal between two calls; that the two files say the same in each; and that all
/// with which the first may begin opens a desk of his. Of a serving it isn't said in which order
/// visits told him these entries.
pub fn law_any_calls_join<F: Shelf, S: Source, K: Sink, E: Sink, L: Links>()
    ensures { (files : FileNames) (policy : PolicyValue) (world : FactSet) (header : List ℕ)
        → AnyCallsJoin F.Shelf F.D.Disk S.Source K.Sink E.Sink L.Links files policy world header }
{}

/// Any number of batches that were answered, whole or in part, and of which each follows on the one
/// before, are one run to a user, with crashes as they end or at a moment of them: that of his
/// events in each, and what he was told are its replies. A batch that was cut has some first of his
/// events; one in which no opening of his journal held, or that was cut before, has none.
///
/// The premises about the world are those of `law_any_calls_join`. What `top` promises of a batch
/// has what each of its users was answered (`AnswersBatch.each_user`).
pub fn law_any_batches_join<F: Shelf>()
    ensures { (directory : Text) (policy : PolicyValue) (world : FactSet) (header : List ℕ)
        (user : PolicyUser) → AnyBatchesJoin F.Shelf F.D.Disk directory policy world header user }
{}

/// A standby keeps the records that it had: whatever a crash leaves of a user's journal as a call
/// of `standby` ends, or at a moment of it, it could leave as the call began, or it is a journal
/// with the same header whose records begin with those of the journal then. It is so by what `top`
/// promises of the call, whatever its end.
pub fn law_standbys_keep<F: Shelf, S: Source, K: Sink, E: Sink, L: Links>()
    ensures { (files : FileNames) (policy : PolicyValue) (world : FactSet) (header : List ℕ)
        → StandbysKeep F.Shelf F.D.Disk S.Source K.Sink E.Sink L.Links files policy world header }
{}

/// A takeover: a call of `standby`, and behind it any number of calls of `batch`, `serve`, `audit`
/// and `dossier` over its journals, of which each follows on the one before, leave a user one
/// history. It goes on from the history with which the standby began.
///
/// The premises about the world are those of `law_any_calls_join`, and that all that the standby
/// could leave opens a desk of the user. Where its primary has a legal history that is so by
/// `replica::law_standby`, which no clause ties to two calls of the program.
pub fn law_takeovers_join<F: Shelf, S: Source, K: Sink, E: Sink, L: Links>()
    ensures { (files : FileNames) (policy : PolicyValue) (world : FactSet) (header : List ℕ)
        → TakeoversJoin F.Shelf F.D.Disk S.Source K.Sink E.Sink L.Links files policy world header }
{}

/// What `dossier` wrote with 0 of a user who is admitted and whose journal opens, `check` finds
/// sound: by what `top` promises of both calls it ends with 0 and says so, with as many items as
/// the user has entries, unless memory was wanting.
///
/// Premises: both calls are over files that say the same, the output of the first was empty and is
/// the input of the second, the text isn't too long, all objects tell, and no count of the second
/// rose.
pub fn law_dossiers_are_found_sound<F: Shelf, S: Source, K: Sink, E: Sink, L: Links>()
    ensures { DossiersAreFoundSound F.Shelf F.D.Disk S.Source K.Sink E.Sink L.Links }
{}
