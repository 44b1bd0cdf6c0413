//! The connections of a primary, one after the other.
ghost use Rattle.std.specs.Prelude.{◌≡◌, ◌≤◌, ◌+◌, ℕ, List, map};
ghost use Rattle.outside.specs.Faults.{Rose};
ghost use Rattle.standby_core.specs.Books.{copies_in, held_in};
ghost use Rattle.standby_core.specs.Copies.{held_name, held_origin};
ghost use Rattle.standby_core.specs.Lasting.{AllLast, CountTheirRecords};
ghost use Rattle.standby_engine.specs.Served.{IsDoorServed, is_wanting};
ghost use Rattle.standby_engine.specs.declared.serving.DoorEnd.{DoorEnd};

use log_journal::Header;
use outside::{Disk, Door, Failed};
use standby_core::{StandbyBook, StandbyEnd, TakeError, serve_standby};
use std::sync::Wait;

/// How the serving of a door ended.
#[derive(Clone, Copy, Debug, PartialEq, Eq)]
pub(crate) enum DoorEnd {
    /// No further connection comes.
    Ended,
    /// So many connections were taken as may be.
    Limit,
    /// The door failed.
    Failed,
}

/// Takes one connection of a door after the other, until no further one comes or so many were
/// taken. Says how it ended, and whether a record wasn't taken since memory was wanting.
pub(crate) fn serve_door<R: Wait, D: Disk, O: Door>(
    rt: &R,
    book: &mut StandbyBook<D>,
    header: &Header,
    door: &mut O,
    limit: u64,
) -> (DoorEnd, bool)
    ensures served { O.tells → D.tells → IsDoorServed O.given O.back header.now
        (copies_in D.reads book.old) (copies_in D.reads book.new) door.old door.new result.1 }
    ensures limited { O.tells → O.given door.new ≤ O.given door.old + limit }
    ensures reached { O.tells → result.0 ≡ DoorEnd.Limit
        → O.given door.new ≡ O.given door.old + limit }
    ensures ended { result.0 ≡ DoorEnd.Ended → Rose (O.ends door.old) (O.ends door.new) }
    ensures none_left { O.tells → result.0 ≡ DoorEnd.Ended → O.left door.new ≡ 0 }
    ensures left { O.tells → O.left door.old + O.given door.old
        ≡ O.left door.new + O.given door.new }
    ensures failed { result.0 ≡ DoorEnd.Failed → Rose (O.faults door.old) (O.faults door.new) }
    ensures lasts { D.tells → (own : List ℕ) (disks : List D)
        → AllLast D.Disk own disks (held_in book.old)
        → AllLast D.Disk own disks (held_in book.new) }
    ensures names { map held_name (held_in book.new)
        ≡ map held_name (held_in book.old) }
    ensures origins { map (held_origin D.origin) (held_in book.new)
        ≡ map (held_origin D.origin) (held_in book.old) }
    ensures counted { (counts : List ℕ) → CountTheirRecords D.faults counts (held_in book.old)
        → CountTheirRecords D.faults counts (held_in book.new) }
{
    let mut wanting = false;
    for _ in 0..limit {
        match door.next() {
            Ok(Some((source, sink))) => {
                let (mut source, mut sink) = (source, sink);
                let end = serve_standby(rt, book, header, &mut source, &mut sink);
                wanting |= is_wanting(end);
                door.done(source, sink);
            }
            Ok(None) => return (DoorEnd::Ended, wanting),
            Err(Failed) => return (DoorEnd::Failed, wanting),
        }
    }
    (DoorEnd::Limit, wanting)
}

// Whether a connection ended since memory was wanting for a record of it.
fn is_wanting(end: StandbyEnd) -> bool
    ensures { result ≡ is_wanting end }
{
    match end {
        StandbyEnd::Take(TakeError::Memory) => true,
        _ => false,
    }
}
