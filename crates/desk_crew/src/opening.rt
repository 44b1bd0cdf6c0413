//! Journals that are opened side by side.

ghost use Rattle.std.specs.Prelude.{◌≡◌, ◌≤◌, [], false, All, IfOk, IfSome, length, map};
ghost use Rattle.std.specs.Prelude.{string_bytes, vec_capacity};
ghost use Rattle.std.specs.List.{AllZip, list_any};
ghost use Rattle.cqe_base.specs.History.{profile_of};
ghost use Rattle.cqe_base.specs.Limits.{KeepsLimits};
ghost use Rattle.censors.specs.Admitting.{admission_of};
ghost use Rattle.log_journal.specs.Opening.{header_bytes};
ghost use Rattle.desk_crew.specs.Crew.{journal_seated};
ghost use Rattle.desk_crew.specs.Side.{place_of, at_seat, is_shut, KeepsOpening, IsKnown};
ghost use Rattle.desk_crew.specs.Side.{IsTriedAt, IsTried, AreTried, IsShut, IsClosedOf};

use crate::registry::Registry;
use crate::seat::{DeskSeat, Returned, Seat, close_desk, seat_at};
use censors::{Admission, admit};
use cqe_base::user::User;
use desk_counter::{Owned, TicketedDesk};
use outside::Disk;
use std::alloc::{AllocError, Global};
use std::thread;
use std::thread::Threads;
use user_desk::DeskError;

/// Where a user's journal is: open, at his seat, or on its disk, with its name.
pub(crate) type DeskPlace<'w, D> = Result<DeskSeat<'w, D>, Returned<D>>;

/// A user's journal, which is to be opened or was tried.
#[derive(Drop)]
pub(crate) struct Opening<'w, V: Owned, D> {
    pub user: &'w User,
    /// Whether he is admitted, where that is known.
    pub admission: Option<Admission>,
    /// Why an opening before was refused first, if one was.
    pub before: Option<DeskError>,
    /// Where the journal is. There is none amid the opening alone.
    pub place: Option<Result<Seat<'w, V>, Returned<D>>>,
}

/// A user's journal, which is opened as a desk.
pub(crate) type DeskOpening<'w, D> = Opening<'w, TicketedDesk<'w, D>, D>;

/// Whether a user is admitted, by the tests where it isn't known.
fn admission_for(
    alloc: Global,
    registry: &Registry<'_>,
    user: &User,
    known: Option<Admission>,
) -> Result<Admission, AllocError>
    requires limits { KeepsLimits registry.now.schema.now (profile_of user.now) }
    requires known { IfSome known (λ admission. admission
        ≡ admission_of registry.now.schema.now registry.now.world.now (profile_of user.now)) }
    ensures { IfOk result (λ admission. admission
        ≡ admission_of registry.now.schema.now registry.now.world.now (profile_of user.now)) }
{
    match known {
        Some(admission) => Ok(admission),
        None => admit(alloc, registry.schema, registry.world, user),
    }
}

/// Opens a journal from its disk. For want of memory the disk stays, as an opening leaves it. A
/// journal that is open stays so.
fn open_at<'w, D: Disk>(
    alloc: Global,
    registry: &Registry<'w>,
    user: &'w User,
    known: Option<Admission>,
    before: Option<DeskError>,
    place: DeskPlace<'w, D>,
) -> DeskPlace<'w, D>
    requires limits { KeepsLimits registry.now.schema.now (profile_of user.now) }
    requires known { IfSome known (λ admission. admission
        ≡ admission_of registry.now.schema.now registry.now.world.now (profile_of user.now)) }
    ensures { IsTriedAt registry.now.schema.now registry.now.world.now
        (header_bytes registry.now.header.now) D.Disk user.now before place.entry result }
{
    let closed = match place {
        Ok(seat) => return Ok(seat),
        Err(closed) => closed,
    };
    let Ok(admission) = admission_for(alloc, registry, user, known) else {
        return Err(closed);
    };
    let Returned { journal, disk } = closed;
    seat_at(alloc, registry, user, admission, journal, before, disk)
}

/// Opens a journal that is on its disk.
fn open_one<'w, D: Disk + Drop>(
    alloc: Global,
    registry: &Registry<'w>,
    opening: &mut DeskOpening<'w, D>,
)
    requires limits { KeepsOpening registry.now.schema.now registry.now.world.now opening.old }
    requires known { IsKnown registry.now.schema.now registry.now.world.now opening.old }
    ensures { IsTried registry.now.schema.now registry.now.world.now
        (header_bytes registry.now.header.now) D.Disk opening.old opening.new }
{
    let Some(place) = opening.place.take() else {
        return;
    };
    let tried = open_at(
        alloc,
        registry,
        opening.user,
        opening.admission,
        opening.before,
        place,
    );
    opening.place = Some(tried);
}

/// Opens journals that are on their disks, in as many threads as there are workers, or fewer.
pub(crate) fn open_each<'w, R: Threads + Sync, D: Disk + Drop + Send>(
    rt: &R,
    alloc: Global,
    registry: &Registry<'w>,
    workers: usize,
    openings: &mut [DeskOpening<'w, D>],
)
    requires some { 1 ≤ workers }
    requires limits { All (KeepsOpening registry.now.schema.now registry.now.world.now)
        openings.old }
    requires known { All (IsKnown registry.now.schema.now registry.now.world.now) openings.old }
    ensures count { length openings.new ≡ length openings.old }
    ensures tried { AreTried registry.now.schema.now registry.now.world.now
        (header_bytes registry.now.header.now) D.Disk openings.old openings.new }
{
    thread::for_each_mut(
        rt,
        openings,
        workers,
        &|_, opening: &mut DeskOpening<'_, D>|
            requires limits { KeepsOpening registry.now.schema.now registry.now.world.now
                opening.now }
            requires known { IsKnown registry.now.schema.now registry.now.world.now opening.now }
            ensures tried { IsTried registry.entry.now.schema.now registry.entry.now.world.now
                (header_bytes registry.entry.now.header.now) D.Disk opening.entry.now
                opening.exit.now }
        { open_one(alloc, registry, opening) },
    );
}

/// Whether one of them isn't open.
pub(crate) fn is_some_shut<D: Disk>(openings: &[DeskOpening<'_, D>]) -> bool
    ensures { result ≡ list_any (λ opening. is_shut (place_of opening)) openings.now }
{
    openings
        .iter()
        .any(|opening| !matches!(opening.place, Some(Ok(_))))
}

/// The seat of a journal that is open.
fn seat_in<'w, D: Disk + Drop>(place: Option<DeskPlace<'w, D>>) -> DeskSeat<'w, D>
    requires { is_shut place ≡ false }
    ensures { place.entry ≡ at_seat result }
{
    match place.unwrap() {
        Ok(seat) => seat,
        Err(_) => unreachable!(),
    }
}

/// The seats of journals that are all open, in a list with the room for them.
pub(crate) fn seats_of<'w, D: Disk + Drop>(
    openings: Vec<DeskOpening<'w, D>>,
    room: Vec<DeskSeat<'w, D>>,
) -> Vec<DeskSeat<'w, D>>
    requires all_open { list_any (λ opening. is_shut (place_of opening)) openings.items ≡ false }
    requires empty { room.items ≡ [] }
    requires room { length openings.items ≤ vec_capacity room }
    ensures { map at_seat result.items ≡ map place_of openings.entry.items }
{
    let mut seats = room;
    for opening in openings {
        let seat = seat_in(opening.place);
        seats.push_reserved(seat);
    }
    seats
}

/// Closes the desks of seats, to be opened again, in a list with the room for them.
pub(crate) fn close_all<'w, D: Disk + Drop>(
    seats: Vec<DeskSeat<'w, D>>,
    room: Vec<DeskOpening<'w, D>>,
) -> Vec<DeskOpening<'w, D>>
    requires empty { room.items ≡ [] }
    requires room { length seats.items ≤ vec_capacity room }
    ensures { AllZip (IsClosedOf D.Disk) seats.entry.items result.items }
{
    let mut openings = room;
    for seat in seats {
        let (disk, _) = close_desk(seat.desk);
        openings.push_reserved(Opening {
            user: seat.user,
            admission: Some(seat.admission),
            before: seat.refusal,
            place: Some(Err(Returned {
                journal: seat.journal,
                disk,
            })),
        });
    }
    openings
}

/// Shuts a journal: its desk is closed, if it is open. Its disk is left, with its name.
pub(crate) fn shut<D: Disk>(place: DeskPlace<'_, D>) -> Returned<D>
    ensures journal { string_bytes result.journal ≡ journal_seated place.entry }
    ensures shut { IsShut D.Disk place.entry result.disk }
{
    match place {
        Ok(seat) => {
            let (disk, _) = close_desk(seat.desk);
            Returned {
                journal: seat.journal,
                disk,
            }
        }
        Err(closed) => closed,
    }
}
