//! A law of batches. The function computes nothing: its clause is the law.
ghost use Rattle.cqe_base.specs.Schema.{DatabaseSchema, Text};
ghost use Rattle.cqe_base.specs.Facts.{FactSet};
ghost use Rattle.cqe_base.specs.Transcript.{NamedUser};
ghost use Rattle.std.specs.Prelude.{List, ℕ};
ghost use Rattle.desk_crew.specs.Shelved.{journals_on};
ghost use Rattle.batch_engine.specs.Joining.{BatchesAreCalls, BatchesAreSpans, BatchesJoin};
ghost use Rattle.batch_engine.specs.Joining.{CutBatchesAreCalls, CutBatchesJoin, LaterCutsAreCalls};
ghost use Rattle.batch_engine.specs.Joining.{LateBatchesJoin};
ghost use Rattle.batch_engine.specs.Joining.{SameEventsSameLines};

use outside::Shelf;

/// Of two batches, by what their shelves held before and behind each. Where an opening of a user's
/// journal held, a batch is a call to him over what his journal read as it began, whatever a crash
/// leaves as it ends; and a batch that a crash cut at any moment since is one with some first of
/// his events, since the end of a stretch with at least those of the stretch and before it. Each
/// is a part of his one history, too. Of two that were answered, to the end or until a write failed
/// or memory was wanting, it is said here that they are one run, with a crash behind the first or
/// in its midst (any number of them are by `cqe_top::laws::law_any_batches_join`): there, too, with
/// all events of a stretch that had ended and before it. And where the events of two are the same,
/// so is what they wrote, with however many workers.
pub fn law_batches_join<F: Shelf>(before: &F, behind: &F, later_before: &F, later_behind: &F)
    ensures calls { (directory : Text) → BatchesAreCalls
        (journals_on F.Shelf F.D.Disk directory before.now behind.now) }
    ensures spans { (directory : Text) → BatchesAreSpans
        (journals_on F.Shelf F.D.Disk directory before.now behind.now) }
    ensures cut { (directory : Text) → CutBatchesAreCalls
        (journals_on F.Shelf F.D.Disk directory before.now behind.now) }
    ensures late { (directory : Text) → LaterCutsAreCalls
        (journals_on F.Shelf F.D.Disk directory before.now behind.now) }
    ensures same_lines { (directory : Text) (schema : DatabaseSchema) (world : FactSet)
        (header : List ℕ) (policy : List NamedUser)
        → SameEventsSameLines schema world header policy
        (journals_on F.Shelf F.D.Disk directory before.now behind.now)
        (journals_on F.Shelf F.D.Disk directory later_before.now later_behind.now) }
    ensures joined { (directory : Text) (schema : DatabaseSchema) (world : FactSet)
        (header : List ℕ) (policy : List NamedUser) → BatchesJoin schema world header policy
        (journals_on F.Shelf F.D.Disk directory before.now behind.now)
        (journals_on F.Shelf F.D.Disk directory later_before.now later_behind.now) }
    ensures cut_joined { (directory : Text) (schema : DatabaseSchema) (world : FactSet)
        (header : List ℕ) (policy : List NamedUser) → CutBatchesJoin schema world header policy
        (journals_on F.Shelf F.D.Disk directory before.now behind.now)
        (journals_on F.Shelf F.D.Disk directory later_before.now later_behind.now) }
    ensures late_joined { (directory : Text) (schema : DatabaseSchema) (world : FactSet)
        (header : List ℕ) (policy : List NamedUser) → LateBatchesJoin schema world header policy
        (journals_on F.Shelf F.D.Disk directory before.now behind.now)
        (journals_on F.Shelf F.D.Disk directory later_before.now later_behind.now) }
{}
