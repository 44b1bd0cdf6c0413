//! Serving from the first listening to the last journal that is back.
ghost use Rattle.std.specs.Prelude.{◌≡◌, ◌⊎◌, ◌<◌, ◌≤◌, ◌+◌, ◌-◌, ◌++◌, ◌∷◌, ◌^◌, [], All};
ghost use Rattle.std.specs.Prelude.{length, sum_by};
ghost use Rattle.std.specs.List.{flat_map};
ghost use Rattle.outside.specs.Faults.{Rose};
ghost use Rattle.outside.specs.Shelf.{SameNames, SameBeside, NoneOut, NoneFell, SomeRose};
ghost use Rattle.outside.specs.Visits.{door_place_of, one_if_any};
ghost use Rattle.log_journal.specs.Opening.{header_bytes};
ghost use Rattle.desk_crew.specs.Shelved.{journals_on, StaysThere};
ghost use Rattle.desk_crew.specs.Registered.{AllKeepLimits, registered_journals, HaveOwnNames};
ghost use Rattle.serve_engine.specs.Doors.{SomeFailed};
ghost use Rattle.serve_engine.specs.Serving.{EndsServing, EndsDoors, LeavesJournals, IsDone};
ghost use Rattle.serve_engine.specs.Serving.{IsBroken, IsDiskRefusal};
ghost use Rattle.serve_engine.specs.Serving.{end_of};
ghost use Rattle.serve_engine.specs.declared.run.ServeEnd.{ServeEnd};

use crate::laws::law_served_alike;
use crate::serving::Outcome;
use crate::sharing::serve_seats;
use cqe_base::laws::{law_hides, law_legal_grows};
use desk_crew::{NotOpened, Registry, give_back, open_all, refusals_of, room_for};
use log_journal::law_journals_differ;
use outside::{Door, Gate, Links, LinksError, Shelf};
use std::alloc::Global;
use std::sync::Wait;
use std::thread::Threads;
use user_desk::DeskError;
use user_desk::laws::law_openings;

/// Where to listen, and how far to serve.
#[derive(Clone, Copy, Debug)]
pub struct Listening<'a> {
    pub address: &'a str,
    /// How many workers serve side by side, each at a door of its own: 1 to 64.
    pub workers: u32,
    /// How many connections are served at most: up to 2^30.
    pub sessions: u64,
}

/// How serving ends.
#[derive(Debug, Drop)]
pub enum ServeEnd {
    /// The links ended, or the greatest number of connections was reached. Of each user, in order,
    /// there is the refusal of his journal, if it was refused; and it says whether an append
    /// failed.
    Done(Vec<Option<DeskError>>, bool),
    /// The links failed: they didn't listen, or a door failed.
    LinksFault,
    /// The shelf failed. No connection was served.
    ShelfFault,
    /// Memory was wanting. No connection was served.
    Memory,
}

/// Serves the connections that come in at an address: opens the journals of all users, and answers
/// each connection by a session, side by side with the others, up to the end of the links or the
/// greatest number. A user's sessions are all answered by his one history. All disks and all doors
/// are given back on every path. It may wait, for clients and at the desks.
pub fn run_serve<R: Threads + Wait + Sync, F: Shelf, L: Links, G: Gate + Sync>(
    rt: &R,
    alloc: Global,
    registry: &Registry<'_>,
    shelf: &mut F,
    links: &mut L,
    listening: Listening<'_>,
    gate: &G,
) -> ServeEnd
where
    F::D: Send,
    requires limits { AllKeepLimits registry.now.schema.now registry.now.users.now }
    requires names { HaveOwnNames registry.now.users.now }
    requires inside { NoneOut (F.is_out shelf.old) }
    requires some { 1 ≤ listening.workers }
    requires few { listening.workers ≤ 64 }
    requires most { listening.sessions ≤ 2 ^ 30 }

    // Each connection that was given is served, and each journal is as its user's one history says.
    ensures ends { F.tells → L.tells → EndsServing registry.now.schema.now registry.now.world.now
        (header_bytes registry.now.header.now)
        (journals_on F.Shelf F.D.Disk registry.now.directory.now shelf.old shelf.new)
        registry.now.users.now (L.given links.old) (L.given links.new) (L.back links.old)
        (L.back links.new) result }

    // The same of the journals alone, where the connections aren't told.
    ensures journals { F.tells → LeavesJournals registry.now.schema.now registry.now.world.now
        (header_bytes registry.now.header.now)
        (journals_on F.Shelf F.D.Disk registry.now.directory.now shelf.old shelf.new)
        registry.now.users.now result }

    // It listens at that address alone, with a door for each worker, and before it opens a journal.
    ensures listens { L.tells → (L.listened links.new ≡ L.listened links.old)
        ⊎ (L.listened links.new
        ≡ L.listened links.old ++ door_place_of listening.entry.address.now listening.entry.workers
        ∷ []) }
    ensures heard { L.tells → IsDone result
        → L.listened links.new
        ≡ L.listened links.old ++ door_place_of listening.entry.address.now listening.entry.workers
        ∷ [] }

    ensures unheard { L.tells → L.listened links.new ≡ L.listened links.old
        → shelf.new ≡ shelf.old }

    // There are no more of them than the greatest number.
    ensures limited { L.tells → L.given links.new ≤ L.given links.old + listening.entry.sessions }

    // All connections that are left are at hand again, where they were so before.
    ensures left { L.tells → L.left links.old ≡ L.at_hand links.old
        → L.left links.new ≡ L.at_hand links.new }

    // And none is lost: those that were given and those that are left are as many as before.
    ensures left_all { L.tells → L.left links.old ≡ L.at_hand links.old
        → L.given links.new + L.left links.new ≡ L.given links.old + L.left links.old }

    // It comes to its end where no connection is at hand, or these reach the greatest number,
    // together with the doors that answered that no further one comes, and are more than it,
    // together with all workers. Each worker has one door.
    ensures few_ended { L.ended links.new ≤ L.ended links.old + listening.entry.workers }
    ensures ended { L.tells → IsDone result
        → (L.at_hand links.new ≡ 0)
        ⊎ ((L.given links.old + listening.entry.sessions + L.ended links.old
        ≤ L.given links.new + L.ended links.new)
        × (L.given links.old + listening.entry.sessions
        < L.given links.new + listening.entry.workers)) }

    // No disk but the users' journals is touched, and all are back. What was told of is a record
    // that lies there.
    ensures disks { SameBeside
        (registered_journals registry.now.directory.now registry.now.users.now) (F.disk shelf.old)
        (F.disk shelf.new) }
    ensures there { F.tells → StaysThere F.D.Disk (F.disk shelf.old) (F.disk shelf.new) }
    ensures inside { NoneOut (F.is_out shelf.new) }
    ensures files { SameNames (F.file shelf.old) (F.file shelf.new) }
    ensures looked { F.looked shelf.new ≡ F.looked shelf.old }
    ensures lent { F.lent shelf.new ≡ F.lent shelf.old }
    ensures counts { NoneFell (F.disk_faults shelf.old) (F.disk_faults shelf.new) }
    ensures other_counts { SameBeside
        (registered_journals registry.now.directory.now registry.now.users.now)
        (F.disk_faults shelf.old) (F.disk_faults shelf.new) }
    ensures out { L.out links.new ≡ L.out links.old }

    // It calls nobody by a dial.
    ensures dialling { L.dialling links.new ≡ L.dialling links.old }
    ensures exchanged { L.tells → L.exchanged links.new ≡ L.exchanged links.old }
    ensures exchange_faults { SameNames (L.exchange_faults links.old)
        (L.exchange_faults links.new) }
    ensures shelf_later { F.faults shelf.old ≤ F.faults shelf.new }
    ensures links_later { L.faults links.old ≤ L.faults links.new }
    ensures shelf_cause { result ≡ ServeEnd.ShelfFault
        → Rose (F.faults shelf.old) (F.faults shelf.new) }
    ensures links_cause { result ≡ ServeEnd.LinksFault
        → Rose (L.faults links.old) (L.faults links.new) }
    ensures disk_cause { IsBroken result
        → SomeRose (F.disk_faults shelf.old) (F.disk_faults shelf.new) }
    ensures journal_cause { IsDiskRefusal result
        → SomeRose (F.disk_faults shelf.old) (F.disk_faults shelf.new) }
{
    law_served_alike();
    let doors = match links.listen(alloc, listening.address, listening.workers) {
        Ok(doors) => doors,
        Err(LinksError::Failed) => return ServeEnd::LinksFault,
        Err(LinksError::Memory) => return ServeEnd::Memory,
    };
    let (end, doors) = serve_opened(rt, alloc, registry, shelf, doors, listening.sessions, gate);
    take_back_all(links, doors);
    end
}

/// Opens the journals of all users, serves the connections of doors at their desks, and gives the
/// journals back. The doors come back on every path.
fn serve_opened<R: Threads + Wait + Sync, F: Shelf, O: Door + Drop + Send, G: Gate + Sync>(
    rt: &R,
    alloc: Global,
    registry: &Registry<'_>,
    shelf: &mut F,
    doors: Vec<O>,
    limit: u64,
    gate: &G,
) -> (ServeEnd, Vec<O>)
where
    F::D: Send,
    requires limits { AllKeepLimits registry.now.schema.now registry.now.users.now }
    requires names { HaveOwnNames registry.now.users.now }
    requires inside { NoneOut (F.is_out shelf.old) }
    requires some { 1 ≤ length doors.items }
    requires few { length doors.items ≤ 64 }
    requires limit { limit ≤ 2 ^ 30 }
    requires whole { All (λ door. O.faults door ≡ 0) doors.items }
    requires unended { All (λ door. O.ends door ≡ 0) doors.items }
    ensures ends { F.tells → EndsDoors registry.now.schema.now registry.now.world.now
        (header_bytes registry.now.header.now)
        (journals_on F.Shelf F.D.Disk registry.now.directory.now shelf.old shelf.new)
        registry.now.users.now O.Door doors.items result.1.items
        result.0 }
    ensures ended { O.tells → IsDone result.0
        → All (λ door. O.left door ≡ 0) result.1.items
        ⊎ ((sum_by O.given doors.items + limit ≤ sum_by O.given result.1.items
        + sum_by (λ door. one_if_any (O.ends door)) result.1.items)
        × (sum_by O.given doors.items + limit
        < sum_by O.given result.1.items + length result.1.items)) }
    ensures left { O.tells → sum_by O.left doors.items + sum_by O.given doors.items
        ≡ sum_by O.left result.1.items + sum_by O.given result.1.items }
    ensures limited { O.tells → sum_by O.given result.1.items ≤ sum_by O.given doors.items + limit }
    ensures failed { result.0 ≡ ServeEnd.LinksFault → SomeFailed O.faults result.1.items }
    ensures doors { length result.1.items ≡ length doors.items }
    ensures disks { SameBeside
        (registered_journals registry.now.directory.now registry.now.users.now) (F.disk shelf.old)
        (F.disk shelf.new) }
    ensures there { F.tells → StaysThere F.D.Disk (F.disk shelf.old) (F.disk shelf.new) }
    ensures inside { NoneOut (F.is_out shelf.new) }
    ensures files { SameNames (F.file shelf.old) (F.file shelf.new) }
    ensures looked { F.looked shelf.new ≡ F.looked shelf.old }
    ensures lent { F.lent shelf.new ≡ F.lent shelf.old }
    ensures counts { NoneFell (F.disk_faults shelf.old) (F.disk_faults shelf.new) }
    ensures other_counts { SameBeside
        (registered_journals registry.now.directory.now registry.now.users.now)
        (F.disk_faults shelf.old) (F.disk_faults shelf.new) }
    ensures shelf_later { F.faults shelf.old ≤ F.faults shelf.new }
    ensures shelf_cause { result.0 ≡ ServeEnd.ShelfFault
        → Rose (F.faults shelf.old) (F.faults shelf.new) }
    ensures disk_cause { IsBroken result.0
        → SomeRose (F.disk_faults shelf.old) (F.disk_faults shelf.new) }
    ensures journal_cause { IsDiskRefusal result.0
        → SomeRose (F.disk_faults shelf.old) (F.disk_faults shelf.new) }
{
    law_hides();
    law_legal_grows();
    law_openings();
    law_journals_differ();
    registry.schema.known();
    let Ok(room) = room_for(alloc, registry.users.len()) else {
        return (ServeEnd::Memory, doors);
    };
    let workers = doors.len();
    let seats = match open_all(rt, alloc, registry, workers, shelf) {
        Ok(seats) => seats,
        Err(NotOpened::Shelf) => return (ServeEnd::ShelfFault, doors),
        Err(NotOpened::Memory) => return (ServeEnd::Memory, doors),
    };
    let refusals = refusals_of(room, seats.as_slice());
    let (outcome, seats, doors) = serve_seats(rt, alloc, registry.users, seats, doors, limit, gate);
    let is_broken = give_back(shelf, seats);
    (end_of(outcome, refusals, is_broken), doors)
}

/// The end of serving with this outcome. Where the links ended or the limit was reached it has the
/// refusals, and whether an append failed.
fn end_of(outcome: Outcome, refusals: Vec<Option<DeskError>>, is_broken: bool) -> ServeEnd
    ensures { result ≡ end_of outcome refusals is_broken }
{
    match outcome {
        Outcome::Served => ServeEnd::Done(refusals, is_broken),
        Outcome::LinksFailed => ServeEnd::LinksFault,
        Outcome::Memory => ServeEnd::Memory,
    }
}

/// Gives all doors back.
fn take_back_all<L: Links>(links: &mut L, doors: Vec<L::D>)
    requires { length doors.items ≤ L.out links.old }
    ensures out { L.out links.old ≡ L.out links.new + length doors.items }
    ensures given { L.tells → L.given links.new ≡ L.given links.old + sum_by L.D.given doors.items }
    ensures ended { L.ended links.new
        ≡ L.ended links.old + sum_by (λ door. one_if_any (L.D.ends door)) doors.items }
    ensures left { L.tells
        → L.left links.new ≡ L.left links.old - sum_by L.D.given doors.items }
    ensures at_hand { L.tells
        → L.at_hand links.new ≡ L.at_hand links.old + sum_by L.D.left doors.items }
    ensures back { L.tells → L.back links.new ≡ L.back links.old ++ flat_map L.D.back doors.items }
    ensures listened { L.tells → L.listened links.new ≡ L.listened links.old }
    ensures dialling { L.dialling links.new ≡ L.dialling links.old }
    ensures exchanged { L.tells → L.exchanged links.new ≡ L.exchanged links.old }
    ensures exchange_faults { SameNames (L.exchange_faults links.old)
        (L.exchange_faults links.new) }
    ensures later { L.faults links.old ≤ L.faults links.new }
    ensures failed { SomeFailed L.D.faults doors.items
        → Rose (L.faults links.old) (L.faults links.new) }
{
    for door in doors {
        links.take_back(door);
    }
}
