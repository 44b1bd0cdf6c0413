//! A standby from the first listening to the last journal that is back.
ghost use Rattle.std.specs.Prelude.{◌≡◌, ◌⊎◌, ◌≤◌, ◌<◌, ◌+◌, ◌++◌, ◌∷◌, ◌^◌, [], List, map};
ghost use Rattle.std.specs.Prelude.{IfOk, length, string_bytes, vec_len, vec_capacity};
ghost use Rattle.outside.specs.Faults.{Rose};
ghost use Rattle.outside.specs.Shelf.{SameNames, SameBeside, NoneOut, NoneFell, SomeRose};
ghost use Rattle.outside.specs.Visits.{door_place_of};
ghost use Rattle.log_journal.specs.Journal.{disk_of};
ghost use Rattle.log_journal.specs.Opening.{header_bytes};
ghost use Rattle.desk_crew.specs.Registered.{registered_journals, HaveOwnNames};
ghost use Rattle.desk_crew.specs.Shelved.{journals_on};
ghost use Rattle.standby_core.specs.Lasting.{has_broken};
ghost use Rattle.standby_engine.specs.Opened.{given_journal, opened_in, names_in, others_in};
ghost use Rattle.standby_engine.specs.Opened.{place_refusal};
ghost use Rattle.standby_engine.specs.Standing.{LeavesCopies, EndsCopying, HasListened, IsBroken};
ghost use Rattle.standby_engine.specs.Standing.{IsDiskRefusal, copy_end};
ghost use Rattle.standby_engine.specs.declared.run.CopyEnd.{CopyEnd};

use crate::opening::{Given, NotOpened, Place, give_back, open_journals};
use crate::serving::{DoorEnd, serve_door};
use cqe_base::user::User;
use desk_crew::room_for;
use log_journal::{Header, law_journals_differ};
use outside::{Disk, Door, Links, LinksError, Shelf};
use standby_core::{Held, StandbyBook};
use std::alloc::{AllocError, Global};
use std::sync::Wait;
use user_desk::DeskError;

/// How a standby ends.
#[derive(Debug, Drop)]
pub enum CopyEnd {
    /// The links ended, or the greatest number of connections was reached. Of each user, in order,
    /// there is the refusal of his journal, if it was refused; and it says whether a record wasn't
    /// taken since the disk of one failed, and whether one wasn't since memory was wanting.
    Done(Vec<Option<DeskError>>, bool, bool),
    /// The links failed: they didn't listen, or the door failed.
    LinksFault,
    /// The shelf failed. No connection was served.
    ShelfFault,
    /// Memory was wanting. No connection was served.
    Memory,
}

/// Where a standby listens, and how far it goes.
#[derive(Clone, Copy, Debug)]
pub struct Copying<'a> {
    pub address: &'a str,
    /// How many connections are taken at most: up to 2^30.
    pub sessions: u64,
}

/// Keeps copies of the journals of these users in a directory: listens at an address, opens their
/// own journals, and takes one connection of their primary after the other, up to the end of the
/// links or the greatest number. All disks and the door are given back on every path. It may wait
/// for its primary.
pub fn run_standby<R: Wait, F: Shelf, L: Links>(
    rt: &R,
    alloc: Global,
    users: &[User],
    header: &Header,
    directory: &str,
    shelf: &mut F,
    links: &mut L,
    copying: Copying<'_>,
) -> CopyEnd
    requires names { HaveOwnNames users.now }
    requires inside { NoneOut (F.is_out shelf.old) }
    requires most { copying.sessions ≤ 2 ^ 30 }

    // Each connection that was given is served, in order, by the copies of the users' journals, and
    // whatever a crash leaves of a journal that was opened has the records that it had, at each
    // moment since then too.
    ensures serves { F.tells → L.tells → EndsCopying header.now
        (journals_on F.Shelf F.D.Disk directory.now shelf.old shelf.new) users.now
        (L.given links.old) (L.given links.new) (L.back links.old) (L.back links.new) result }
    ensures journals { F.tells → LeavesCopies (header_bytes header.now)
        (journals_on F.Shelf F.D.Disk directory.now shelf.old shelf.new) users.now result }

    // It listens at that address alone, with one door, and before it opens a journal.
    ensures listens { L.tells → (L.listened links.new ≡ L.listened links.old)
        ⊎ (L.listened links.new
        ≡ L.listened links.old ++ door_place_of copying.entry.address.now 1 ∷ []) }
    ensures heard { L.tells → HasListened result → L.listened links.new
        ≡ L.listened links.old ++ door_place_of copying.entry.address.now 1 ∷ [] }
    ensures unheard { L.tells → L.listened links.new ≡ L.listened links.old
        → shelf.new ≡ shelf.old }
    ensures limited { L.tells → L.given links.new ≤ L.given links.old + copying.entry.sessions }
    ensures left { L.tells → L.left links.old ≡ L.at_hand links.old
        → L.left links.new ≡ L.at_hand links.new }
    ensures left_all { L.tells → L.left links.old ≡ L.at_hand links.old
        → L.given links.new + L.left links.new ≡ L.given links.old + L.left links.old }
    ensures ended { L.tells → HasListened result → (L.at_hand links.new ≡ 0)
        ⊎ (L.given links.new ≡ L.given links.old + copying.entry.sessions) }

    // No disk but the users' journals is touched, and all are back.
    ensures disks { SameBeside (registered_journals directory.now users.now) (F.disk shelf.old)
        (F.disk shelf.new) }
    ensures inside { NoneOut (F.is_out shelf.new) }
    ensures files { SameNames (F.file shelf.old) (F.file shelf.new) }
    ensures looked { F.looked shelf.new ≡ F.looked shelf.old }
    ensures counts { NoneFell (F.disk_faults shelf.old) (F.disk_faults shelf.new) }
    ensures other_counts { SameBeside (registered_journals directory.now users.now)
        (F.disk_faults shelf.old) (F.disk_faults shelf.new) }
    ensures out { L.out links.new ≡ L.out links.old }
    ensures few_ended { L.ended links.new ≤ L.ended links.old + 1 }

    // It calls nobody by a dial.
    ensures dialling { L.dialling links.new ≡ L.dialling links.old }
    ensures exchanged { L.tells → L.exchanged links.new ≡ L.exchanged links.old }
    ensures exchange_faults { SameNames (L.exchange_faults links.old)
        (L.exchange_faults links.new) }
    ensures shelf_later { F.faults shelf.old ≤ F.faults shelf.new }
    ensures links_later { L.faults links.old ≤ L.faults links.new }
    ensures shelf_cause { result ≡ CopyEnd.ShelfFault
        → Rose (F.faults shelf.old) (F.faults shelf.new) }
    ensures links_cause { result ≡ CopyEnd.LinksFault
        → Rose (L.faults links.old) (L.faults links.new) }
    ensures disk_cause { IsBroken result
        → SomeRose (F.disk_faults shelf.old) (F.disk_faults shelf.new) }
    ensures journal_cause { IsDiskRefusal result
        → SomeRose (F.disk_faults shelf.old) (F.disk_faults shelf.new) }
{
    let doors = match links.listen(alloc, copying.address, 1) {
        Ok(doors) => doors,
        Err(LinksError::Failed) => return CopyEnd::LinksFault,
        Err(LinksError::Memory) => return CopyEnd::Memory,
    };
    let mut door = only_door(doors);
    let limit = copying.sessions;
    let end = serve_opened(rt, alloc, users, header, directory, shelf, &mut door, limit);
    links.take_back(door);
    end
}

// The door of a list that has one.
fn only_door<O: Drop>(doors: Vec<O>) -> O
    requires { length doors.items ≡ 1 }
    ensures { doors.items ≡ result ∷ [] }
{
    let mut doors = doors;
    doors.remove(0)
}

// Opens the journals of all users, serves the door, and gives the journals back.
fn serve_opened<R: Wait, F: Shelf, O: Door>(
    rt: &R,
    alloc: Global,
    users: &[User],
    header: &Header,
    directory: &str,
    shelf: &mut F,
    door: &mut O,
    limit: u64,
) -> CopyEnd
    requires names { HaveOwnNames users.now }
    requires inside { NoneOut (F.is_out shelf.old) }
    ensures serves { F.tells → O.tells → EndsCopying header.now
        (journals_on F.Shelf F.D.Disk directory.now shelf.old shelf.new) users.now
        (O.given door.old) (O.given door.new) (O.back door.old) (O.back door.new) result }
    ensures journals { F.tells → LeavesCopies (header_bytes header.now)
        (journals_on F.Shelf F.D.Disk directory.now shelf.old shelf.new) users.now result }
    ensures limited { O.tells → O.given door.new ≤ O.given door.old + limit }
    ensures left { O.tells → O.left door.old + O.given door.old
        ≡ O.left door.new + O.given door.new }
    ensures ended { O.tells → HasListened result
        → (O.left door.new ≡ 0) ⊎ (O.given door.new ≡ O.given door.old + limit) }
    ensures failed { result ≡ CopyEnd.LinksFault → Rose (O.faults door.old) (O.faults door.new) }
    ensures disks { SameBeside (registered_journals directory.now users.now) (F.disk shelf.old)
        (F.disk shelf.new) }
    ensures inside { NoneOut (F.is_out shelf.new) }
    ensures files { SameNames (F.file shelf.old) (F.file shelf.new) }
    ensures looked { F.looked shelf.new ≡ F.looked shelf.old }
    ensures counts { NoneFell (F.disk_faults shelf.old) (F.disk_faults shelf.new) }
    ensures other_counts { SameBeside (registered_journals directory.now users.now)
        (F.disk_faults shelf.old) (F.disk_faults shelf.new) }
    ensures shelf_later { F.faults shelf.old ≤ F.faults shelf.new }
    ensures shelf_cause { result ≡ CopyEnd.ShelfFault
        → Rose (F.faults shelf.old) (F.faults shelf.new) }
    ensures disk_cause { IsBroken result
        → SomeRose (F.disk_faults shelf.old) (F.disk_faults shelf.new) }
    ensures journal_cause { IsDiskRefusal result
        → SomeRose (F.disk_faults shelf.old) (F.disk_faults shelf.new) }
{
    law_journals_differ();
    let count = users.len();
    let Ok(rooms) = Rooms::new(alloc, count) else {
        return CopyEnd::Memory;
    };
    let places = match open_journals(alloc, shelf, header, directory, users) {
        Ok(places) => places,
        Err(NotOpened::Shelf) => return CopyEnd::ShelfFault,
        Err(NotOpened::Memory) => return CopyEnd::Memory,
    };
    let refusals = refusals_of(rooms.refusals, places.as_slice());
    let (journals, names, others) = take_apart(places, rooms.journals, rooms.names, rooms.given);
    let mut book = StandbyBook::new(journals);
    let (end, wanting) = serve_door(rt, &mut book, header, door, limit);
    let journals = book.close();
    let (all, broken) = put_together(journals, names, others);
    give_back(shelf, all);
    end_of(end, refusals, broken, wanting)
}

// The end of a standby whose door came to this one.
fn end_of(end: DoorEnd, refusals: Vec<Option<DeskError>>, broken: bool, wanting: bool) -> CopyEnd
    ensures { result ≡ copy_end end refusals broken wanting }
{
    match end {
        DoorEnd::Ended => CopyEnd::Done(refusals, broken, wanting),
        DoorEnd::Limit => CopyEnd::Done(refusals, broken, wanting),
        DoorEnd::Failed => CopyEnd::LinksFault,
    }
}

// Empty lists with the room for what journals are taken apart into.
#[derive(Drop)]
struct Rooms<D: Disk> {
    journals: Vec<Held<D>>,
    names: Vec<String>,
    given: Vec<Given<D>>,
    refusals: Vec<Option<DeskError>>,
}

impl<D: Disk + Drop> Rooms<D> {
    fn new(alloc: Global, count: usize) -> Result<Rooms<D>, AllocError>
        ensures empty { IfOk result (λ rooms. (rooms.journals.items ≡ [])
            × (rooms.names.items ≡ []) × (rooms.given.items ≡ []) × (rooms.refusals.items ≡ [])) }
        ensures room { IfOk result (λ rooms. (count ≤ vec_capacity rooms.journals)
            × (count ≤ vec_capacity rooms.names) × (count ≤ vec_capacity rooms.given)
            × (count ≤ vec_capacity rooms.refusals)) }
    {
        let journals = room_for(alloc, count)?;
        let names = room_for(alloc, count)?;
        let given = room_for(alloc, count)?;
        let refusals = room_for(alloc, count)?;
        Ok(Rooms {
            journals,
            names,
            given,
            refusals,
        })
    }
}

// The refusal of each place, in a list with the room for them.
fn refusals_of<D: Disk>(room: Vec<Option<DeskError>>, places: &[Place<D>]) -> Vec<Option<DeskError>>
    requires empty { room.items ≡ [] }
    requires room { length places.now ≤ vec_capacity room }
    ensures { result.items ≡ map place_refusal places.now }
{
    let mut refusals = room;
    for place in places {
        refusals.push_reserved(place.refusal());
    }
    refusals
}

// The journals that were opened with the names of their disks, and the disks of the others, in
// lists with the room for them.
fn take_apart<D: Disk + Drop>(
    places: Vec<Place<D>>,
    journals: Vec<Held<D>>,
    names: Vec<String>,
    given: Vec<Given<D>>,
) -> (Vec<Held<D>>, Vec<String>, Vec<Given<D>>)
    requires empty { (journals.items ≡ []) × (names.items ≡ []) × (given.items ≡ []) }
    requires room { (length places.items ≤ vec_capacity journals)
        × (length places.items ≤ vec_capacity names) × (length places.items ≤ vec_capacity given) }
    ensures journals { result.0.items ≡ opened_in places.items }
    ensures names { map string_bytes result.1.items ≡ names_in places.items }
    ensures others { result.2.items ≡ others_in places.items }
    ensures room { vec_capacity result.2 ≡ vec_capacity given }
{
    let (mut journals, mut names, mut given) = (journals, names, given);
    for place in places {
        take_part(place, &mut journals, &mut names, &mut given);
    }
    (journals, names, given)
}

// Puts a place into the lists: its journal and the name of its disk, or its disk with its name.
fn take_part<D: Disk + Drop>(
    place: Place<D>,
    journals: &mut Vec<Held<D>>,
    names: &mut Vec<String>,
    given: &mut Vec<Given<D>>,
)
    requires { (vec_len journals.old < vec_capacity journals.old)
        × (vec_len names.old < vec_capacity names.old)
        × (vec_len given.old < vec_capacity given.old) }
    ensures journals { journals.new.items ≡ journals.old.items ++ opened_in (place ∷ []) }
    ensures names { map string_bytes names.new.items
        ≡ map string_bytes names.old.items ++ names_in (place ∷ []) }
    ensures others { given.new.items ≡ given.old.items ++ others_in (place ∷ []) }
    ensures rooms { (vec_capacity journals.new ≡ vec_capacity journals.old)
        × (vec_capacity names.new ≡ vec_capacity names.old)
        × (vec_capacity given.new ≡ vec_capacity given.old) }
{
    match place {
        Place::Opened(name, held) => {
            names.push_reserved(name);
            journals.push_reserved(held);
        }
        Place::Refused(journal, disk, _) => given.push_reserved(Given { journal, disk }),
    }
}

// The disks of journals behind those of the others, in a list with the room for them, and whether
// an append to one of them failed.
fn put_together<D: Disk + Drop>(
    journals: Vec<Held<D>>,
    names: Vec<String>,
    given: Vec<Given<D>>,
) -> (Vec<Given<D>>, bool)
    requires room { length given.items + length journals.items ≤ vec_capacity given }
    requires count { length names.items ≡ length journals.items }
    ensures names { map given_journal result.0.items
        ≡ map given_journal given.items ++ map string_bytes names.items }
    ensures disks { map (λ one. one.disk) result.0.items
        ≡ map (λ one. one.disk) given.items ++ map (λ held. disk_of held.journal) journals.items }
    ensures broken { result.1 ≡ has_broken journals.items }
{
    let (mut names, mut given) = (names, given);
    let mut broken = false;
    for held in journals {
        let failed = held.journal.has_failed();
        let journal = names.remove(0);
        let disk = held.journal.close();
        given.push_reserved(Given { journal, disk });
        broken |= failed;
    }
    (given, broken)
}
