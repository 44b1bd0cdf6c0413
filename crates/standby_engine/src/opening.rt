//! The journals of a standby, from the shelf and back.
ghost use Rattle.std.specs.Prelude.{◌≡◌, ◌≤◌, [], false, true, List, map, length, string_bytes};
ghost use Rattle.std.specs.Prelude.{IfOk, OnOk, OnErr, IsErrOf, IsTrue, vec_capacity};
ghost use Rattle.outside.specs.Faults.{Rose};
ghost use Rattle.outside.specs.Shelf.{SameNames, SameOthers, SameBeside, AllOut, AllIn, NoneOut};
ghost use Rattle.outside.specs.Shelf.{NoneFell, AreOut};
ghost use Rattle.cqe_base.specs.Schema.{has_duplicate};
ghost use Rattle.log_journal.specs.Names.{journal_name};
ghost use Rattle.log_journal.specs.Opening.{header_bytes, IsOnlyRead};
ghost use Rattle.log_journal.specs.Records.{Recorded};
ghost use Rattle.desk_crew.specs.Registered.{registered_journals, HaveOwnNames};
ghost use Rattle.standby_engine.specs.Opened.{AreOwn, PlacesOwn};
ghost use Rattle.standby_engine.specs.Opened.{place_journal, place_disk, place_refusal, HasMemory};
ghost use Rattle.standby_engine.specs.Opened.{given_journal, IsOpenedAs, IsFreshOrRefused};
ghost use Rattle.standby_engine.specs.Opened.{IsNamed, IsPlaceUnder, IsPlaceOf, ArePlacesOf};
ghost use Rattle.standby_engine.specs.Opened.{AreGiven, AllStay};

use cqe_base::user::User;
use desk_crew::room_for;
use log_journal::{Header, OpenError, journal_name, law_journals_differ, open};
use outside::{Disk, Shelf, ShelfError};
use standby_core::Held;
use std::alloc::{AllocError, Global};
use user_desk::DeskError;

/// Why the journals weren't opened.
#[derive(Clone, Copy, Debug, PartialEq, Eq)]
pub(crate) enum NotOpened {
    /// The shelf failed. It comes only where its count of faults rose.
    Shelf,
    /// Memory was wanting.
    Memory,
}

/// The disk of a user, with its name: opened as a journal, or refused.
#[derive(Drop)]
pub(crate) enum Place<D: Disk> {
    Opened(String, Held<D>),
    Refused(String, D, OpenError),
}

/// A disk that goes back to the shelf, with its name.
#[derive(Drop)]
pub(crate) struct Given<D> {
    pub journal: String,
    pub disk: D,
}

impl<D: Disk> Place<D> {
    // Its disk, with its name.
    fn into_given(self) -> Given<D>
        ensures name { given_journal result ≡ place_journal self }
        ensures disk { result.disk ≡ place_disk self }
    {
        match self {
            Place::Opened(journal, held) => Given {
                journal,
                disk: held.journal.close(),
            },
            Place::Refused(journal, disk, _) => Given { journal, disk },
        }
    }

    // Whether it wasn't refused since memory was wanting.
    fn has_memory(&self) -> bool
        ensures { IsTrue result → HasMemory self.now }
    {
        match self {
            Place::Opened(_, _) => true,
            Place::Refused(_, _, why) => {
                if *why == OpenError::Memory {
                    return false;
                }
                true
            }
        }
    }

    /// Why it was refused.
    pub(crate) fn refusal(&self) -> Option<DeskError>
        ensures { result ≡ place_refusal self.now }
    {
        match self {
            Place::Opened(_, _) => None,
            Place::Refused(_, _, why) => Some(DeskError::Journal(*why)),
        }
    }
}

/// Opens the journal of each user in order. A refusal leaves all disks on the shelf, with the same
/// bytes, and a crash leaves nothing new of them.
pub(crate) fn open_journals<F: Shelf>(
    alloc: Global,
    shelf: &mut F,
    header: &Header,
    directory: &str,
    users: &[User],
) -> Result<Vec<Place<F::D>>, NotOpened>
    requires distinct { HaveOwnNames users.now }
    requires inside { NoneOut (F.is_out shelf.old) }
    ensures opened { IfOk result (λ places. ArePlacesOf F.tells F.D.Disk (header_bytes header.now)
        directory.now (F.disk shelf.old) (F.disk_faults shelf.old) users.now places.items) }
    ensures out { IfOk result
        (λ places. AreOut (map place_journal places.items) (F.is_out shelf.new)) }
    ensures own { IfOk result
        (λ places. PlacesOwn F.D.origin (F.lent shelf.new).origin places.items) }
    ensures counts { OnOk result (SameNames (F.disk_faults shelf.old) (F.disk_faults shelf.new)) }
    ensures refused_out { OnErr result (NoneOut (F.is_out shelf.new)) }
    ensures refused { F.tells
        → OnErr result (AllStay F.D.Disk (F.disk shelf.old) (F.disk shelf.new)) }
    ensures disks { SameBeside (registered_journals directory.now users.now) (F.disk shelf.old)
        (F.disk shelf.new) }
    ensures other_counts { SameBeside (registered_journals directory.now users.now)
        (F.disk_faults shelf.old) (F.disk_faults shelf.new) }
    ensures fell { NoneFell (F.disk_faults shelf.old) (F.disk_faults shelf.new) }
    ensures files { SameNames (F.file shelf.old) (F.file shelf.new) }
    ensures looked { F.looked shelf.new ≡ F.looked shelf.old }
    ensures lent { F.lent shelf.new ≡ F.lent shelf.old }
    ensures later { F.faults shelf.old ≤ F.faults shelf.new }
    ensures cause { IsErrOf result NotOpened.Shelf
        → Rose (F.faults shelf.old) (F.faults shelf.new) }
{
    law_journals_differ();
    let count = users.len();
    let (Ok(empty), Ok(room)) = (room_for(alloc, count), room_for(alloc, count)) else {
        return Err(NotOpened::Memory);
    };
    let mut places = empty;
    for user in users {
        match open_one(alloc, shelf, header, directory, user) {
            Ok(place) => places.push_reserved(place),
            Err(why) => {
                let back = disks_of(places, room);
                give_back(shelf, back);
                return Err(why);
            }
        }
    }
    Ok(places)
}

// Opens the journal of a user.
fn open_one<F: Shelf>(
    alloc: Global,
    shelf: &mut F,
    header: &Header,
    directory: &str,
    user: &User,
) -> Result<Place<F::D>, NotOpened>
    requires { F.is_out shelf.old (journal_name directory.now (string_bytes user.now.name))
        ≡ false }
    ensures opened { IfOk result (IsPlaceOf F.tells F.D.Disk (header_bytes header.now)
        directory.now (F.disk shelf.old) (F.disk_faults shelf.old) user.now) }
    ensures own { IfOk result (λ place. F.D.origin (place_disk place)
        ≡ (F.lent shelf.old).origin (place_journal place)) }
    ensures out { OnOk result (F.is_out shelf.new
        (journal_name directory.now (string_bytes user.now.name)) ≡ true) }
    ensures others_out { SameOthers (journal_name directory.now (string_bytes user.now.name))
        (F.is_out shelf.old) (F.is_out shelf.new) }
    ensures disks { SameOthers (journal_name directory.now (string_bytes user.now.name))
        (F.disk shelf.old) (F.disk shelf.new) }
    ensures counts { OnOk result (SameNames (F.disk_faults shelf.old) (F.disk_faults shelf.new)) }
    ensures fell { NoneFell (F.disk_faults shelf.old) (F.disk_faults shelf.new) }
    ensures other_counts { SameOthers (journal_name directory.now (string_bytes user.now.name))
        (F.disk_faults shelf.old) (F.disk_faults shelf.new) }
    ensures refused_out { OnErr result (SameNames (F.is_out shelf.old) (F.is_out shelf.new)) }
    ensures refused { F.tells
        → OnErr result (AllStay F.D.Disk (F.disk shelf.old) (F.disk shelf.new)) }
    ensures files { SameNames (F.file shelf.old) (F.file shelf.new) }
    ensures looked { F.looked shelf.new ≡ F.looked shelf.old }
    ensures lent { F.lent shelf.new ≡ F.lent shelf.old }
    ensures later { F.faults shelf.old ≤ F.faults shelf.new }
    ensures cause { IsErrOf result NotOpened.Shelf
        → Rose (F.faults shelf.old) (F.faults shelf.new) }
{
    let Ok(journal) = journal_name(alloc, directory, user.name.as_str()) else {
        return Err(NotOpened::Memory);
    };
    let Ok(name) = String::from_str(alloc, user.name.as_str()) else {
        return Err(NotOpened::Memory);
    };
    open_named(alloc, shelf, header, journal, name)
}

// Opens the journal of this name, of the user of the other.
fn open_named<F: Shelf>(
    alloc: Global,
    shelf: &mut F,
    header: &Header,
    journal: String,
    name: String,
) -> Result<Place<F::D>, NotOpened>
    requires { F.is_out shelf.old (string_bytes journal) ≡ false }
    ensures opened { IfOk result (IsPlaceUnder F.tells F.D.Disk (header_bytes header.now)
        (F.disk shelf.old) (F.disk_faults shelf.old) (string_bytes journal) (string_bytes name)) }
    ensures own { IfOk result (λ place. F.D.origin (place_disk place)
        ≡ (F.lent shelf.old).origin (place_journal place)) }
    ensures out { OnOk result (F.is_out shelf.new (string_bytes journal) ≡ true) }
    ensures others_out { SameOthers (string_bytes journal) (F.is_out shelf.old)
        (F.is_out shelf.new) }
    ensures disks { SameOthers (string_bytes journal) (F.disk shelf.old) (F.disk shelf.new) }
    ensures counts { OnOk result (SameNames (F.disk_faults shelf.old) (F.disk_faults shelf.new)) }
    ensures fell { NoneFell (F.disk_faults shelf.old) (F.disk_faults shelf.new) }
    ensures other_counts { SameOthers (string_bytes journal) (F.disk_faults shelf.old)
        (F.disk_faults shelf.new) }
    ensures refused_out { OnErr result (SameNames (F.is_out shelf.old) (F.is_out shelf.new)) }
    ensures refused { F.tells
        → OnErr result (AllStay F.D.Disk (F.disk shelf.old) (F.disk shelf.new)) }
    ensures files { SameNames (F.file shelf.old) (F.file shelf.new) }
    ensures looked { F.looked shelf.new ≡ F.looked shelf.old }
    ensures lent { F.lent shelf.new ≡ F.lent shelf.old }
    ensures later { F.faults shelf.old ≤ F.faults shelf.new }
    ensures cause { IsErrOf result NotOpened.Shelf
        → Rose (F.faults shelf.old) (F.faults shelf.new) }
{
    let disk = match shelf.take_disk(alloc, journal.as_str()) {
        Ok(disk) => disk,
        Err(ShelfError::Failed) => return Err(NotOpened::Shelf),
        Err(_) => return Err(NotOpened::Memory),
    };
    let place = open_held(alloc, disk, header, journal, name);
    if place.has_memory() {
        return Ok(place);
    }
    let back = place.into_given();
    let disk = back.disk;
    shelf.give_disk(back.journal.as_str(), disk);
    Err(NotOpened::Memory)
}

// Opens a disk as the journal of a user.
fn open_held<D: Disk>(
    alloc: Global,
    disk: D,
    header: &Header,
    journal: String,
    name: String,
) -> Place<D>
    ensures journal { place_journal result ≡ string_bytes journal }
    ensures opened { D.tells → (first : List Recorded)
        × IsOpenedAs D.Disk (header_bytes header.now) disk result first }
    ensures sound { IsFreshOrRefused D.Disk (header_bytes header.now) disk result }
    ensures named { IsNamed result (string_bytes name) }
    ensures origin { D.origin (place_disk result) ≡ D.origin disk }
    ensures only { IsOnlyRead (D.reads disk) (D.reads (place_disk result)) (D.image disk)
        (D.image (place_disk result)) (D.moment disk) (D.moment (place_disk result))
        (D.image_since disk) (D.image_since (place_disk result)) (D.faults disk)
        (D.faults (place_disk result)) }
{
    match open(alloc, disk, header) {
        Ok((opened, records)) => {
            let count = records.len() as u64;
            let held = Held {
                name,
                journal: opened,
                count,
            };
            Place::Opened(journal, held)
        }
        Err(refused) => Place::Refused(journal, refused.disk, refused.why),
    }
}

/// Gives disks back.
pub(crate) fn give_back<F: Shelf>(shelf: &mut F, all: Vec<Given<F::D>>)
    requires distinct { has_duplicate (map given_journal all.items) ≡ false }
    requires out { AllOut (map given_journal all.items) (F.is_out shelf.old) }
    requires own { AreOwn F.D.origin (F.lent shelf.old).origin all.items }
    ensures back { AreGiven F.tells F.D.Disk (F.disk shelf.new) (F.disk_faults shelf.new)
        all.items }
    ensures inside { AllIn (map given_journal all.items) (F.is_out shelf.new) }
    ensures others_out { SameBeside (map given_journal all.items) (F.is_out shelf.old)
        (F.is_out shelf.new) }
    ensures disks { SameBeside (map given_journal all.items) (F.disk shelf.old)
        (F.disk shelf.new) }
    ensures counts { SameBeside (map given_journal all.items) (F.disk_faults shelf.old)
        (F.disk_faults shelf.new) }
    ensures faults { F.faults shelf.new ≡ F.faults shelf.old }
    ensures files { SameNames (F.file shelf.old) (F.file shelf.new) }
    ensures looked { F.looked shelf.new ≡ F.looked shelf.old }
    ensures lent { F.lent shelf.new ≡ F.lent shelf.old }
{
    let mut all = all;
    while let Some(given) = all.pop() {
        let Given { journal, disk } = given;
        shelf.give_disk(journal.as_str(), disk);
    }
}

/// The disks of places, in a list with the room for them.
pub(crate) fn disks_of<D: Disk + Drop>(places: Vec<Place<D>>, room: Vec<Given<D>>) -> Vec<Given<D>>
    requires empty { room.items ≡ [] }
    requires room { length places.items ≤ vec_capacity room }
    ensures names { map given_journal result.items ≡ map place_journal places.items }
    ensures disks { map (λ given. given.disk) result.items ≡ map place_disk places.items }
{
    let mut all = room;
    for place in places {
        all.push_reserved(place.into_given());
    }
    all
}
