//! Lines that are written once the counters of their stretch are closed.

ghost use Rattle.std.specs.Prelude.{◌≡◌, ◌≤◌, List, IsErrOf};
ghost use Rattle.std.specs.List.{AllByRecursion};
ghost use Rattle.std.specs.List.Sorted.{IsPermutation};
ghost use Rattle.outside.specs.Faults.{Rose};
ghost use Rattle.outside.specs.Shelf.{AllIn};
ghost use Rattle.desk_crew.specs.Crew.{IsSeatAsOpened};
ghost use Rattle.desk_crew.specs.Registered.{registered_journals};
ghost use Rattle.batch_engine.specs.Answers.{output_bytes};
ghost use Rattle.batch_engine.specs.Ordered.{AreNumbered};
ghost use Rattle.batch_engine.specs.Written.{IsWritten};
ghost use Rattle.batch_engine.specs.declared.answer.Answer.{Answer};
ghost use Rattle.batch_engine.specs.declared.closed.Stopped.{Stopped};

use crate::answer::Answer;
use desk_crew::{DeskSeat, Registry};
use outside::{Disk, Failed, Shelf, Sink, write_parts};
use rayon::prelude::*;
use std::alloc::{AllocError, Global};
use std::thread::Threads;

/// Why a batch stopped at a stretch.
#[derive(Clone, Copy, Debug, PartialEq, Eq)]
pub(crate) enum Stopped {
    /// A write failed.
    Write,
    /// Memory was wanting.
    Memory,
}

/// Puts answers in the order of their numbers, and writes their lines.
fn write_in_order<R: Threads + Sync, K: Sink>(
    rt: &R,
    alloc: Global,
    answers: &mut Vec<Answer>,
    sink: &mut K,
) -> Result<(), Stopped>
    ensures written { K.tells → (all : List Answer) → AreNumbered all
        → IsPermutation all answers.old.items
        → IsWritten (K.written sink.old) (K.written sink.new) (output_bytes all) result }
    ensures later { K.faults sink.old ≤ K.faults sink.new }
    ensures cause { IsErrOf result Stopped.Write → Rose (K.faults sink.old) (K.faults sink.new) }
{
    let sorted = par_sort_by_key(
        rt,
        alloc,
        answers.as_mut_slice(),
        |answer: &Answer| -> usize
            ensures { result ≡ answer.now.number }
        { answer.number },
    );
    match sorted {
        Ok(()) => (),
        Err(AllocError) => return Err(Stopped::Memory),
    }
    match write_parts(sink, answers.as_slice()) {
        Ok(()) => Ok(()),
        Err(Failed) => Err(Stopped::Write),
    }
}

/// Writes the lines of a stretch behind which all journals were opened again, in their order:
/// nothing was appended since, so that what they hold is on the disks.
pub(crate) fn write_again<R: Threads + Sync, D: Disk, K: Sink>(
    rt: &R,
    alloc: Global,
    answers: Vec<Answer>,
    sink: &mut K,
    seats: &[DeskSeat<'_, D>],
) -> Result<(), Stopped>
    requires closed { AllByRecursion IsSeatAsOpened seats.now }
    ensures written { K.tells → (all : List Answer) → AreNumbered all
        → IsPermutation all answers.items
        → IsWritten (K.written sink.old) (K.written sink.new) (output_bytes all) result }
    ensures later { K.faults sink.old ≤ K.faults sink.new }
    ensures cause { IsErrOf result Stopped.Write → Rose (K.faults sink.old) (K.faults sink.new) }
{
    let mut answers = answers;
    write_in_order(rt, alloc, &mut answers, sink)
}

/// Writes the lines of a stretch behind which the disks of all users are back, in their order.
pub(crate) fn write_behind<R: Threads + Sync, F: Shelf, K: Sink>(
    rt: &R,
    alloc: Global,
    answers: Vec<Answer>,
    sink: &mut K,
    registry: &Registry<'_>,
    shelf: &F,
) -> Result<(), Stopped>
    requires closed { AllIn
        (registered_journals registry.now.directory.now registry.now.users.now)
        (F.is_out shelf.now) }
    ensures written { K.tells → (all : List Answer) → AreNumbered all
        → IsPermutation all answers.items
        → IsWritten (K.written sink.old) (K.written sink.new) (output_bytes all) result }
    ensures later { K.faults sink.old ≤ K.faults sink.new }
    ensures cause { IsErrOf result Stopped.Write → Rose (K.faults sink.old) (K.faults sink.new) }
{
    let mut answers = answers;
    write_in_order(rt, alloc, &mut answers, sink)
}
