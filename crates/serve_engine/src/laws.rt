//! Laws of connections that were served. Each function computes nothing: its clause is the law.

ghost use Rattle.serve_engine.specs.Served.{ServedStay};
ghost use Rattle.serve_engine.specs.Alike.{BytesComeAgain};
ghost use Rattle.cqe_base.specs.Schema.{Text};
ghost use Rattle.desk_crew.specs.Shelved.{journals_on};
ghost use Rattle.serve_engine.specs.Joining.{CutServingsAreSpans, ServingsAreSpans};

use outside::Shelf;
use session_core::laws::law_replies_alike;

/// A connection that was served stays so while histories get further entries and appends fail.
pub fn law_served()
    ensures { ServedStay }
{}

/// The bytes that served a connection serve it in each world that is alike to who is logged in.
pub fn law_served_alike()
    ensures { BytesComeAgain }
{
    law_replies_alike();
}

/// Unless a user's journal was refused, a serving is a call to him over what his journal read as it
/// began, whatever a crash leaves as it ends; and one that a crash cut at any moment since his
/// journal was opened is one with some first of his entries. His history over any number of
/// servings, batches and crashes is one by `cqe_top::laws::law_any_calls_join`.
pub fn law_servings_join<F: Shelf>(before: &F, behind: &F)
    ensures spans { (directory : Text) → ServingsAreSpans
        (journals_on F.Shelf F.D.Disk directory before.now behind.now) }
    ensures cut { (directory : Text) → CutServingsAreSpans
        (journals_on F.Shelf F.D.Disk directory before.now behind.now) }
{}
