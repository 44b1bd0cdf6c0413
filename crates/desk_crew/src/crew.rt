//! Users at their desks: their journals are taken from the shelf and opened, closed and opened
//! again, and given back.

ghost use Rattle.std.specs.Prelude.{◌≡◌, ◌≤◌, [], true, false, map, length, All};
ghost use Rattle.std.specs.Prelude.{IfOk, IfSome, OnOk, OnErr, IsErrOf, IfNone, OnSome};
ghost use Rattle.std.specs.Prelude.{string_bytes, vec_capacity};
ghost use Rattle.std.specs.List.{AllByRecursion, list_any};
ghost use Rattle.outside.specs.Faults.{Rose};
ghost use Rattle.outside.specs.Shelf.{SameNames, SameOthers};
ghost use Rattle.cqe_base.specs.Schema.{has_duplicate};
ghost use Rattle.log_journal.specs.Opening.{header_bytes};
ghost use Rattle.log_journal.specs.Names.{journal_name};
ghost use Rattle.desk_crew.specs.Crew.{seat_broke, IsSeatServed, AreReopened};
ghost use Rattle.outside.specs.Shelf.{SameBeside, AllOut, AllIn, NoneOut, NoneFell, AreOut};
ghost use Rattle.outside.specs.Shelf.{SameBytes, NoNewImages, NoNewMoments};
ghost use Rattle.desk_crew.specs.Shelved.{journals};
ghost use Rattle.desk_crew.specs.Shelved.{AreLater, AreOwn, AreBack, AreSeatsOf, StaysThere};
ghost use Rattle.desk_crew.specs.Side.{IsAtDisk, HasPlace, opening_journal, opening_journals};
ghost use Rattle.desk_crew.specs.Side.{opening_faults, OpeningsLater, IsOwn, OpeningsOwn};
ghost use Rattle.desk_crew.specs.Side.{IsPutBack, ArePutBack};
ghost use Rattle.desk_crew.specs.Side.{KeepsOpening, IsKnown, AreSeatsFrom, IsTakenFor};
ghost use Rattle.desk_crew.specs.declared.crew.NotOpened.{NotOpened};
ghost use Rattle.desk_crew.specs.Registered.{AllKeepLimits, SeatsKeepLimits};
ghost use Rattle.desk_crew.specs.Registered.{registered_journals, HaveOwnNames};

use crate::opening::{DeskOpening, Opening, close_all, is_some_shut, open_each, seats_of, shut};
use crate::registry::Registry;
use crate::seat::{DeskSeat, Returned, close_desk};
use cqe_base::user::User;
use log_journal::{journal_name, law_journals_differ};
use outside::{Disk, Shelf, ShelfError};
use std::alloc::{AllocError, Global};
use std::thread::Threads;
use user_desk::DeskError;

/// Why journals weren't opened.
#[derive(Clone, Copy, Debug, PartialEq, Eq)]
pub enum NotOpened {
    /// The shelf failed. It comes only where its count of faults rose.
    Shelf,
    /// Memory was wanting.
    Memory,
}

/// An empty list with the room for so many.
pub fn room_for<T: Drop>(alloc: Global, count: usize) -> Result<Vec<T>, AllocError>
    ensures empty { IfOk result (λ room. room.items ≡ []) }
    ensures room { IfOk result (λ room. count ≤ vec_capacity room) }
{
    let mut room = Vec::new(alloc);
    room.reserve(count)?;
    Ok(room)
}

/// Closes all desks and gives their disks back. It answers whether an append failed at one of them.
pub fn give_back<F: Shelf>(shelf: &mut F, seats: Vec<DeskSeat<'_, F::D>>) -> bool
    requires distinct { has_duplicate (journals seats.items) ≡ false }
    requires out { AllOut (journals seats.items) (F.is_out shelf.old) }
    requires later { AreLater F.D.faults (F.disk_faults shelf.old) seats.items }
    requires own { AreOwn F.D.origin (F.lent shelf.old).origin seats.items }
    ensures broke { result ≡ list_any seat_broke seats.entry.items }
    ensures back { AreBack F.tells F.D.Disk (F.disk shelf.new)
        (F.disk_faults shelf.new) seats.entry.items }
    ensures inside { AllIn (journals seats.entry.items) (F.is_out shelf.new) }
    ensures others_out { SameBeside (journals seats.entry.items) (F.is_out shelf.old)
        (F.is_out shelf.new) }
    ensures disks { SameBeside (journals seats.entry.items) (F.disk shelf.old) (F.disk shelf.new) }
    ensures counts { SameBeside (journals seats.entry.items) (F.disk_faults shelf.old)
        (F.disk_faults shelf.new) }
    ensures faults { F.faults shelf.new ≡ F.faults shelf.old }
    ensures files { SameNames (F.file shelf.old) (F.file shelf.new) }
    ensures looked { F.looked shelf.new ≡ F.looked shelf.old }
    ensures lent { F.lent shelf.new ≡ F.lent shelf.old }
{
    let mut seats = seats;
    let mut is_broken = false;
    while let Some(seat) = seats.pop() {
        let (disk, broke) = close_desk(seat.desk);
        shelf.give_disk(seat.journal.as_str(), disk);
        is_broken |= broke;
    }
    is_broken
}

/// Gives the disk of a journal back: its desk is closed, if it is open.
fn return_one<F: Shelf>(shelf: &mut F, opening: DeskOpening<'_, F::D>)
    requires placed { HasPlace opening }
    requires out { F.is_out shelf.old (opening_journal opening) ≡ true }
    requires later { F.disk_faults shelf.old (opening_journal opening)
        ≤ opening_faults F.D.faults opening }
    requires own { IsOwn F.D.origin (F.lent shelf.old).origin opening }
    ensures back { IsPutBack F.tells F.D.Disk (F.disk shelf.new) (F.disk_faults shelf.new)
        opening.entry }
    ensures inside { F.is_out shelf.new (opening_journal opening.entry) ≡ false }
    ensures others_out { SameOthers (opening_journal opening.entry) (F.is_out shelf.old)
        (F.is_out shelf.new) }
    ensures disks { SameOthers (opening_journal opening.entry) (F.disk shelf.old)
        (F.disk shelf.new) }
    ensures counts { SameOthers (opening_journal opening.entry) (F.disk_faults shelf.old)
        (F.disk_faults shelf.new) }
    ensures faults { F.faults shelf.new ≡ F.faults shelf.old }
    ensures files { SameNames (F.file shelf.old) (F.file shelf.new) }
    ensures looked { F.looked shelf.new ≡ F.looked shelf.old }
    ensures lent { F.lent shelf.new ≡ F.lent shelf.old }
{
    let place = opening.place.unwrap();
    let closed = shut(place);
    let disk = closed.disk;
    shelf.give_disk(closed.journal.as_str(), disk);
}

/// Gives the disks of journals back.
fn return_all<F: Shelf>(shelf: &mut F, openings: Vec<DeskOpening<'_, F::D>>)
    requires placed { AllByRecursion HasPlace openings.items }
    requires distinct { has_duplicate (opening_journals openings.items) ≡ false }
    requires out { AllOut (opening_journals openings.items) (F.is_out shelf.old) }
    requires later { OpeningsLater F.D.faults (F.disk_faults shelf.old) openings.items }
    requires own { OpeningsOwn F.D.origin (F.lent shelf.old).origin openings.items }
    ensures back { ArePutBack F.tells F.D.Disk (F.disk shelf.new)
        (F.disk_faults shelf.new) openings.entry.items }
    ensures inside { AllIn (opening_journals openings.entry.items) (F.is_out shelf.new) }
    ensures others_out { SameBeside (opening_journals openings.entry.items) (F.is_out shelf.old)
        (F.is_out shelf.new) }
    ensures disks { SameBeside (opening_journals openings.entry.items) (F.disk shelf.old)
        (F.disk shelf.new) }
    ensures counts { SameBeside (opening_journals openings.entry.items) (F.disk_faults shelf.old)
        (F.disk_faults shelf.new) }
    ensures faults { F.faults shelf.new ≡ F.faults shelf.old }
    ensures files { SameNames (F.file shelf.old) (F.file shelf.new) }
    ensures looked { F.looked shelf.new ≡ F.looked shelf.old }
    ensures lent { F.lent shelf.new ≡ F.lent shelf.old }
{
    let mut openings = openings;
    while let Some(opening) = openings.pop() {
        return_one(shelf, opening);
    }
}

/// Opens journals that are on their disks, side by side: the seats, in order, in a list with the
/// room for them. Where memory is wanting all disks are given back.
fn open_taken<'w, R: Threads + Sync, F: Shelf>(
    rt: &R,
    alloc: Global,
    registry: &Registry<'w>,
    workers: usize,
    shelf: &mut F,
    openings: Vec<DeskOpening<'w, F::D>>,
    room: Vec<DeskSeat<'w, F::D>>,
) -> Option<Vec<DeskSeat<'w, F::D>>>
where
    F::D: Send,
    requires some { 1 ≤ workers }
    requires limits { All (KeepsOpening registry.now.schema.now registry.now.world.now)
        openings.items }
    requires known { All (IsKnown registry.now.schema.now registry.now.world.now) openings.items }
    requires closed { AllByRecursion IsAtDisk openings.items }
    requires distinct { has_duplicate (opening_journals openings.items) ≡ false }
    requires out { AllOut (opening_journals openings.items) (F.is_out shelf.old) }
    requires later { OpeningsLater F.D.faults (F.disk_faults shelf.old) openings.items }
    requires own { OpeningsOwn F.D.origin (F.lent shelf.old).origin openings.items }
    requires empty { room.items ≡ [] }
    requires room { length openings.items ≤ vec_capacity room }
    ensures opened { IfSome result (λ seats.
        AreSeatsFrom registry.now.schema.now registry.now.world.now
        (header_bytes registry.now.header.now) F.D.Disk openings.entry.items seats.items) }
    ensures untouched { OnSome result (shelf.new ≡ shelf.old) }
    ensures back { IfNone result (ArePutBack F.tells F.D.Disk (F.disk shelf.new)
        (F.disk_faults shelf.new) openings.entry.items) }
    ensures inside { IfNone result
        (AllIn (opening_journals openings.entry.items) (F.is_out shelf.new)) }
    ensures others_out { SameBeside (opening_journals openings.entry.items) (F.is_out shelf.old)
        (F.is_out shelf.new) }
    ensures disks { SameBeside (opening_journals openings.entry.items) (F.disk shelf.old)
        (F.disk shelf.new) }
    ensures counts { SameBeside (opening_journals openings.entry.items) (F.disk_faults shelf.old)
        (F.disk_faults shelf.new) }
    ensures faults { F.faults shelf.new ≡ F.faults shelf.old }
    ensures files { SameNames (F.file shelf.old) (F.file shelf.new) }
    ensures looked { F.looked shelf.new ≡ F.looked shelf.old }
    ensures lent { F.lent shelf.new ≡ F.lent shelf.old }
{
    let mut openings = openings;
    open_each(rt, alloc, registry, workers, &mut openings);
    if is_some_shut(openings.as_slice()) {
        return_all(shelf, openings);
        return None;
    }
    Some(seats_of(openings, room))
}

/// Closes all desks and opens them again, side by side in at most so many threads. Where memory is
/// wanting all disks are given back.
pub fn reopen_all<'w, R: Threads + Sync, F: Shelf>(
    rt: &R,
    alloc: Global,
    registry: &Registry<'w>,
    workers: usize,
    shelf: &mut F,
    seats: Vec<DeskSeat<'w, F::D>>,
) -> Option<Vec<DeskSeat<'w, F::D>>>
where
    F::D: Send,
    requires some { 1 ≤ workers }
    requires limits { SeatsKeepLimits registry.now.schema.now seats.items }
    requires served { AllByRecursion (IsSeatServed registry.now.schema.now registry.now.world.now
        (header_bytes registry.now.header.now)) seats.items }
    requires distinct { has_duplicate (journals seats.items) ≡ false }
    requires out { AllOut (journals seats.items) (F.is_out shelf.old) }
    requires later { AreLater F.D.faults (F.disk_faults shelf.old) seats.items }
    requires own { AreOwn F.D.origin (F.lent shelf.old).origin seats.items }
    ensures reopened { IfSome result (λ reopened.
        AreReopened registry.now.schema.now registry.now.world.now
        (header_bytes registry.now.header.now) F.D.Disk seats.entry.items reopened.items) }
    ensures untouched { OnSome result (shelf.new ≡ shelf.old) }
    ensures back { IfNone result (AreBack F.tells F.D.Disk (F.disk shelf.new)
        (F.disk_faults shelf.new) seats.entry.items) }
    ensures inside { IfNone result (AllIn (journals seats.entry.items) (F.is_out shelf.new)) }
    ensures others_out { SameBeside (journals seats.entry.items) (F.is_out shelf.old)
        (F.is_out shelf.new) }
    ensures disks { SameBeside (journals seats.entry.items) (F.disk shelf.old) (F.disk shelf.new) }
    ensures counts { SameBeside (journals seats.entry.items) (F.disk_faults shelf.old)
        (F.disk_faults shelf.new) }
    ensures faults { F.faults shelf.new ≡ F.faults shelf.old }
    ensures files { SameNames (F.file shelf.old) (F.file shelf.new) }
    ensures looked { F.looked shelf.new ≡ F.looked shelf.old }
    ensures lent { F.lent shelf.new ≡ F.lent shelf.old }
{
    let count = seats.len();
    let (Ok(empty), Ok(room)) = (room_for(alloc, count), room_for(alloc, count)) else {
        give_back(shelf, seats);
        return None;
    };
    let openings = close_all(seats, empty);
    open_taken(rt, alloc, registry, workers, shelf, openings, room)
}

/// Takes the journal of a user from the shelf, to be opened. A refusal leaves the shelf's disks as
/// they were.
fn take_one<'w, F: Shelf>(
    alloc: Global,
    registry: &Registry<'w>,
    shelf: &mut F,
    user: &'w User,
) -> Result<DeskOpening<'w, F::D>, NotOpened>
    requires { F.is_out shelf.old
        (journal_name registry.now.directory.now (string_bytes user.now.name))
        ≡ false }
    ensures taken { IfOk result
        (IsTakenFor F.tells F.D.Disk registry.now.directory.now (F.disk shelf.old)
        (F.disk_faults shelf.old) user.now) }
    ensures own { IfOk result (IsOwn F.D.origin (F.lent shelf.old).origin) }
    ensures out { OnOk result
        (F.is_out shelf.new (journal_name registry.now.directory.now (string_bytes user.now.name))
        ≡ true) }
    ensures others_out { SameOthers
        (journal_name registry.now.directory.now (string_bytes user.now.name))
        (F.is_out shelf.old) (F.is_out shelf.new) }
    ensures disks { SameOthers
        (journal_name registry.now.directory.now (string_bytes user.now.name)) (F.disk shelf.old)
        (F.disk shelf.new) }
    ensures counts { SameNames (F.disk_faults shelf.old) (F.disk_faults shelf.new) }
    ensures refused_disks { OnErr result (SameNames (F.disk shelf.old) (F.disk shelf.new)) }
    ensures refused_out { OnErr result (SameNames (F.is_out shelf.old) (F.is_out shelf.new)) }
    ensures later { F.faults shelf.old ≤ F.faults shelf.new }
    ensures files { SameNames (F.file shelf.old) (F.file shelf.new) }
    ensures looked { F.looked shelf.new ≡ F.looked shelf.old }
    ensures lent { F.lent shelf.new ≡ F.lent shelf.old }
    ensures cause { IsErrOf result NotOpened.Shelf
        → Rose (F.faults shelf.old) (F.faults shelf.new) }
{
    let Ok(journal) = journal_name(alloc, registry.directory, user.name.as_str()) else {
        return Err(NotOpened::Memory);
    };
    let disk = match shelf.take_disk(alloc, journal.as_str()) {
        Ok(disk) => disk,
        Err(ShelfError::Memory) => return Err(NotOpened::Memory),
        Err(ShelfError::Missing) => return Err(NotOpened::Shelf),
        Err(ShelfError::Failed) => return Err(NotOpened::Shelf),
    };
    Ok(Opening {
        user,
        admission: None,
        before: None,
        place: Some(Err(Returned { journal, disk })),
    })
}

/// Takes the journals of all users in order, and opens them side by side in at most so many
/// threads. A refusal leaves all disks on the shelf, with the same bytes, and a crash leaves
/// nothing new of them, at no moment of the call either.
pub fn open_all<'w, R: Threads + Sync, F: Shelf>(
    rt: &R,
    alloc: Global,
    registry: &Registry<'w>,
    workers: usize,
    shelf: &mut F,
) -> Result<Vec<DeskSeat<'w, F::D>>, NotOpened>
where
    F::D: Send,
    requires some { 1 ≤ workers }
    requires limits { AllKeepLimits registry.now.schema.now registry.now.users.now }
    requires distinct { HaveOwnNames registry.now.users.now }
    requires inside { NoneOut (F.is_out shelf.old) }
    ensures opened { IfOk result (λ seats.
        AreSeatsOf F.tells F.D.Disk registry.now.schema.now registry.now.world.now
        (header_bytes registry.now.header.now) registry.now.directory.now (F.disk shelf.old)
        (F.disk_faults shelf.old) registry.now.users.now seats.items) }
    ensures out { IfOk result (λ seats. AreOut (journals seats.items) (F.is_out shelf.new)) }
    ensures own { IfOk result
        (λ seats. AreOwn F.D.origin (F.lent shelf.new).origin seats.items) }
    ensures disks { SameBeside
        (registered_journals registry.now.directory.now registry.now.users.now) (F.disk shelf.old)
        (F.disk shelf.new) }
    ensures counts { OnOk result (SameNames (F.disk_faults shelf.old) (F.disk_faults shelf.new)) }
    ensures other_counts { SameBeside
        (registered_journals registry.now.directory.now registry.now.users.now)
        (F.disk_faults shelf.old) (F.disk_faults shelf.new) }
    ensures refused_out { OnErr result (NoneOut (F.is_out shelf.new)) }
    ensures refused_bytes { F.tells
        → OnErr result (SameBytes F.D.reads (F.disk shelf.old) (F.disk shelf.new)) }
    ensures refused_images { F.tells
        → OnErr result (NoNewImages F.D.image (F.disk shelf.old) (F.disk shelf.new)) }
    ensures refused_moments { F.tells → OnErr result
        (NoNewMoments F.D.moment F.D.image_since F.D.image (F.disk shelf.old) (F.disk shelf.new)) }
    ensures refused_there { F.tells
        → OnErr result (StaysThere F.D.Disk (F.disk shelf.old) (F.disk shelf.new)) }
    ensures fell { NoneFell (F.disk_faults shelf.old) (F.disk_faults shelf.new) }
    ensures later { F.faults shelf.old ≤ F.faults shelf.new }
    ensures files { SameNames (F.file shelf.old) (F.file shelf.new) }
    ensures looked { F.looked shelf.new ≡ F.looked shelf.old }
    ensures lent { F.lent shelf.new ≡ F.lent shelf.old }
    ensures cause { IsErrOf result NotOpened.Shelf
        → Rose (F.faults shelf.old) (F.faults shelf.new) }
{
    law_journals_differ();
    let count = registry.users.len();
    let (Ok(empty), Ok(room)) = (room_for(alloc, count), room_for(alloc, count)) else {
        return Err(NotOpened::Memory);
    };
    let mut openings = empty;
    for user in registry.users {
        match take_one(alloc, registry, shelf, user) {
            Ok(opening) => openings.push_reserved(opening),
            Err(why) => {
                return_all(shelf, openings);
                return Err(why);
            }
        }
    }
    match open_taken(rt, alloc, registry, workers, shelf, openings, room) {
        Some(seats) => Ok(seats),
        None => Err(NotOpened::Memory),
    }
}

/// The first refusal of each seat, in a list with the room for them.
pub fn refusals_of<D: Disk>(
    room: Vec<Option<DeskError>>,
    seats: &[DeskSeat<'_, D>],
) -> Vec<Option<DeskError>>
    requires empty { room.items ≡ [] }
    requires room { length seats.now ≤ vec_capacity room }
    ensures { result.items ≡ map (λ seat. seat.refusal) seats.now }
{
    let mut refusals = room;
    for seat in seats {
        refusals.push_reserved(seat.refusal);
    }
    refusals
}
