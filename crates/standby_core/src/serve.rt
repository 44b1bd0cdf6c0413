//! Serving a connection of a primary.
ghost use Rattle.std.specs.Prelude.{◌≡◌, ◌⊎◌, ◌≤◌, List, ℕ, map, IsTrue, Err, IfErr};
ghost use Rattle.outside.specs.Faults.{Rose};
ghost use Rattle.standby_core.specs.Books.{copies_in};
ghost use Rattle.standby_core.specs.Copies.{held_name, held_origin};
ghost use Rattle.standby_core.specs.Exchanges.{ServesConnection, IsAnswered, Took, IsTaking};
ghost use Rattle.standby_core.specs.Frames.{Carried, IsFrame};
ghost use Rattle.standby_core.specs.Lasting.{AllLast, CountTheirRecords, has_broken};

use crate::{FrameOutcome, FrameRoom, Judged, StandbyBook, TakeError, judge, read_frame};
use log_journal::Header;
use outside::{Disk, Failed, Sink, Source, write_all};
use std::sync::Wait;

/// How serving a connection ended. Behind each end but the first nothing was answered to the last
/// frame, except that behind a fault of the sink a part may be.
#[derive(Clone, Copy, Debug, PartialEq, Eq)]
pub enum StandbyEnd {
    /// The input is over, between two frames.
    InputEnd,
    /// The input ends inside a frame, or a field of it is outside of its range.
    BadFrame,
    /// A digest of a frame differs.
    OtherHeader,
    /// A record wasn't taken.
    Take(TakeError),
    /// The source failed.
    ReadFault,
    /// The sink failed.
    WriteFault,
}

/// Takes frames until the input ends, and writes the answer to each. It goes on for as long as they
/// come.
pub fn serve_standby<R: Wait, D: Disk, S: Source, K: Sink>(
    rt: &R,
    book: &mut StandbyBook<D>,
    header: &Header,
    source: &mut S,
    sink: &mut K,
) -> StandbyEnd
    ensures serves { S.tells → D.tells → K.tells
        → (served : ServesConnection header.now (S.left source.old) (copies_in D.reads book.old)
        (copies_in D.reads book.new) result)
        × IsAnswered result served.answers (K.written sink.old) (K.written sink.new) }

    // What was there stays, at each moment, and where a disk failed its count rose.
    ensures lasts { D.tells → (own : List ℕ) (disks : List D)
        → AllLast D.Disk own disks book.old.journals.items
        → AllLast D.Disk own disks book.new.journals.items }
    ensures names { map held_name book.new.journals.items
        ≡ map held_name book.old.journals.items }
    ensures origins { map (held_origin D.origin) book.new.journals.items
        ≡ map (held_origin D.origin) book.old.journals.items }
    ensures counted { (counts : List ℕ) → CountTheirRecords D.faults counts book.old.journals.items
        → CountTheirRecords D.faults counts book.new.journals.items }
    ensures broke { (result ≡ StandbyEnd.Take TakeError.DiskFault)
        ⊎ (result ≡ StandbyEnd.Take TakeError.Broken)
        → IsTrue (has_broken book.new.journals.items) }

    ensures read_cause { result ≡ StandbyEnd.ReadFault
        → Rose (S.faults source.old) (S.faults source.new) }
    ensures write_cause { result ≡ StandbyEnd.WriteFault
        → Rose (K.faults sink.old) (K.faults sink.new) }
    ensures read_later { S.faults source.old ≤ S.faults source.new }
    ensures write_later { K.faults sink.old ≤ K.faults sink.new }
    ensures held { S.held source.new ≡ S.held source.old }
    ensures answers { K.answers sink.new ≡ K.answers sink.old }
{
    let mut room = FrameRoom::new();
    for _ in rt.forever() {
        match read_frame(source, header, &mut room) {
            FrameOutcome::Whole => (),
            FrameOutcome::InputEnd => return StandbyEnd::InputEnd,
            FrameOutcome::BadFrame => return StandbyEnd::BadFrame,
            FrameOutcome::OtherHeader => return StandbyEnd::OtherHeader,
            FrameOutcome::ReadFault => return StandbyEnd::ReadFault,
        }
        match take_frame(book, header, &room, sink) {
            Ok(()) => (),
            Err(end) => return end,
        }
    }
    unreachable!()
}

// Takes the frame that is in the room, and writes the answer to it.
fn take_frame<D: Disk, K: Sink>(
    book: &mut StandbyBook<D>,
    header: &Header,
    room: &FrameRoom,
    sink: &mut K,
) -> Result<(), StandbyEnd>
    requires { (one : Carried) × IsFrame header.now room.now one }
    ensures took { D.tells → K.tells → Took header.now room.now (copies_in D.reads book.old)
        (copies_in D.reads book.new) (K.written sink.old) (K.written sink.new) result }
    ensures ends { IfErr result IsTaking }
    ensures lasts { D.tells → (own : List ℕ) (disks : List D)
        → AllLast D.Disk own disks book.old.journals.items
        → AllLast D.Disk own disks book.new.journals.items }
    ensures names { map held_name book.new.journals.items
        ≡ map held_name book.old.journals.items }
    ensures origins { map (held_origin D.origin) book.new.journals.items
        ≡ map (held_origin D.origin) book.old.journals.items }
    ensures counted { (counts : List ℕ) → CountTheirRecords D.faults counts book.old.journals.items
        → CountTheirRecords D.faults counts book.new.journals.items }
    ensures broke { (result ≡ Err (StandbyEnd.Take TakeError.DiskFault))
        ⊎ (result ≡ Err (StandbyEnd.Take TakeError.Broken))
        → IsTrue (has_broken book.new.journals.items) }
    ensures write_cause { result ≡ Err StandbyEnd.WriteFault
        → Rose (K.faults sink.old) (K.faults sink.new) }
    ensures write_later { K.faults sink.old ≤ K.faults sink.new }
    ensures answers { K.answers sink.new ≡ K.answers sink.old }
{
    let frame = match judge(header, room.bytes()) {
        Judged::Frame(frame) => frame,
        Judged::Short(_) => return Err(StandbyEnd::BadFrame),
        Judged::Bad => return Err(StandbyEnd::BadFrame),
        Judged::Other => return Err(StandbyEnd::BadFrame),
    };
    let count = match book.take(frame.name, frame.number, frame.kind, frame.text) {
        Ok(count) => count,
        Err(why) => return Err(StandbyEnd::Take(why)),
    };
    match write_all(sink, &count.to_be_bytes()) {
        Ok(()) => Ok(()),
        Err(Failed) => Err(StandbyEnd::WriteFault),
    }
}
