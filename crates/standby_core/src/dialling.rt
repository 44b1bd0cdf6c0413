//! How mirrors get their dials, and how these are hung up.
ghost use Rattle.std.specs.Prelude.{◌≡◌, ◌≤◌, ◌+◌, ◌++◌, ℕ, List, Some, map, length, string_bytes};
ghost use Rattle.std.specs.Prelude.{IfOk, OnErr, false};
ghost use Rattle.cqe_base.specs.Schema.{has_duplicate};
ghost use Rattle.outside.specs.Shelf.{SameOthers};
ghost use Rattle.log_journal.specs.Names.{journal_name};
ghost use Rattle.standby_core.specs.Calls.{IsFromAmong};
ghost use Rattle.standby_core.specs.Places.{faults_in, there_in, exchanged_in, IsUnused};
ghost use Rattle.standby_core.specs.Slots.{slot_name, slot_texts, faults_of, exchanged_among};
ghost use Rattle.standby_core.specs.Slots.{slot_answered, there_among, AreUnused};
ghost use Rattle.standby_core.specs.MirrorSets.{slots_of, dial_faults, DialsLie, DialsSilent};
ghost use Rattle.standby_core.specs.Users.{frame_user, texts_for};
ghost use Rattle.standby_core.specs.Doors.{KeepsDoors, KeepsCalls};

use crate::slot::{Place, Slot};
use crate::{Mirror, Mirrors};
use cqe_base::user::User;
use log_journal::{Header, journal_name, law_journals_differ};
use outside::Links;
use std::alloc::{AllocError, Global};
use std::snapshot::Snapshot;

/// A mirror for the journal of each user in a directory, with a dial to the standby at an address,
/// whose faults are counted under the journal's name. The links open no connection for them.
pub fn mirrors_for<L: Links>(
    alloc: Global,
    links: &mut L,
    address: &str,
    header: &Header,
    directory: &str,
    users: &[User],
) -> Result<Mirrors<L::Dial>, AllocError>
    requires { has_duplicate (map (λ user. string_bytes user.name) users.now) ≡ false }

    // Their frames have this header and the users' names.
    ensures made { IfOk result (λ mirrors.
        map (slot_texts L.Dial.name L.Dial.address) (slots_of mirrors)
        ≡ map (texts_for header.now address.now directory.now) users.now) }
    ensures unused { IfOk result (λ mirrors.
        AreUnused L.Dial.tells L.Dial.faults L.Dial.exchanged (slots_of mirrors)) }
    ensures fresh { IfOk result
        (λ mirrors. (name : List ℕ) → dial_faults L.Dial.faults mirrors name ≡ 0) }
    ensures silent { IfOk result
        (λ mirrors. DialsSilent L.Dial.tells L.Dial.exchanged mirrors) }
    ensures dialling { IfOk result
        (λ mirrors. L.dialling links.new ≡ L.dialling links.old + length (slots_of mirrors)) }
    ensures none { OnErr result (L.dialling links.new ≡ L.dialling links.old) }
    ensures calls { KeepsCalls L.Links links.old links.new }
    ensures doors { KeepsDoors L.Links links.old links.new }
{
    law_journals_differ();
    let mut slots = Vec::new(alloc);
    slots.reserve(users.len())?;
    for user in users {
        match slot_for(alloc, links, address, header, directory, user) {
            Ok(slot) => slots.push_reserved(slot),
            Err(AllocError) => {
                hang_up_slots(links, slots);
                return Err(AllocError);
            }
        }
    }
    Ok(Mirrors { slots })
}

// The mirror for the journal of a user, under its name.
fn slot_for<L: Links>(
    alloc: Global,
    links: &mut L,
    address: &str,
    header: &Header,
    directory: &str,
    user: &User,
) -> Result<Slot<L::Dial>, AllocError>
    ensures name { IfOk result
        (λ slot. slot_name slot ≡ journal_name directory.now (string_bytes user.now.name)) }
    ensures made { IfOk result (λ slot. slot_texts L.Dial.name L.Dial.address slot
        ≡ texts_for header.now address.now directory.now user.now) }
    ensures unused { IfOk result
        (λ slot. IsUnused L.Dial.tells L.Dial.faults L.Dial.exchanged slot.place) }
    ensures dialling { IfOk result (λ slot. L.dialling links.new ≡ L.dialling links.old + 1) }
    ensures none { OnErr result (L.dialling links.new ≡ L.dialling links.old) }
    ensures calls { KeepsCalls L.Links links.old links.new }
    ensures doors { KeepsDoors L.Links links.old links.new }
{
    let journal = journal_name(alloc, directory, user.name.as_str())?;
    let name = frame_name(alloc, user.name.as_str())?;
    let dial = links.dial(alloc, address, journal.as_str())?;
    let mirror = Mirror::new(header, name, dial);
    let made = Snapshot::of(&mirror);
    let place = Place::New(mirror);
    Ok(Slot {
        journal,
        place,
        made,
    })
}

// The name of a user in his frames: his own where a frame has room for it. A standby refuses those
// without a name.
fn frame_name(alloc: Global, name: &str) -> Result<String, AllocError>
    ensures short { IfOk result (λ text. length (string_bytes text) ≤ 32) }
    ensures same { IfOk result (λ text. string_bytes text ≡ frame_user name.now) }
{
    if name.len() <= 32 {
        return String::from_str(alloc, name);
    }
    Ok(String::new(alloc))
}

/// Hangs the dials of mirrors up: under the name of each the links' second count rises by the
/// faults of its dial. It takes no memory.
pub fn hang_up_all<L: Links>(links: &mut L, mirrors: Mirrors<L::Dial>)
    requires { there_among (slots_of mirrors) ≤ L.dialling links.old }
    ensures dialling { L.dialling links.old
        ≡ L.dialling links.new + there_among (slots_of mirrors) }
    ensures exchange_faults { (name : List ℕ) → L.exchange_faults links.new name
        ≡ L.exchange_faults links.old name + dial_faults L.Dial.faults mirrors name }

    // What the dials exchanged told of records of the users whose mirrors they are. What each was
    // last answered was answered in one of these exchanges.
    ensures exchanged { L.tells
        → IsFromAmong (map (slot_texts L.Dial.name L.Dial.address) (slots_of mirrors))
        (map (slot_answered L.Dial.answered) (slots_of mirrors))
        (DialsLie L.Dial.tells L.Dial.exchanged mirrors) (L.exchanged links.old)
        (L.exchanged links.new) }
    ensures doors { KeepsDoors L.Links links.old links.new }
{
    let Mirrors { slots } = mirrors;
    hang_up_slots(links, slots);
}

// The same of the mirrors in these places.
fn hang_up_slots<L: Links>(links: &mut L, slots: Vec<Slot<L::Dial>>)
    requires { there_among slots.items ≤ L.dialling links.old }
    ensures dialling { L.dialling links.old ≡ L.dialling links.new + there_among slots.items }
    ensures exchange_faults { (name : List ℕ) → L.exchange_faults links.new name
        ≡ L.exchange_faults links.old name + faults_of L.Dial.faults slots.items name }
    ensures exchanged { L.tells → L.exchanged links.new
        ≡ L.exchanged links.old ++ exchanged_among L.Dial.exchanged slots.items }
    ensures doors { KeepsDoors L.Links links.old links.new }
{
    let mut slots = slots;
    while let Some(slot) = slots.pop() {
        hang_up(links, slot);
    }
}

// Hangs the dial of a place up, where its mirror is there.
fn hang_up<L: Links>(links: &mut L, slot: Slot<L::Dial>)
    requires { there_in slot.place ≤ L.dialling links.old }
    ensures dialling { L.dialling links.old ≡ L.dialling links.new + there_in slot.place }
    ensures exchange_faults { L.exchange_faults links.new (slot_name slot)
        ≡ L.exchange_faults links.old (slot_name slot)
        + faults_in L.Dial.faults (Some slot.place) }
    ensures other_faults { SameOthers (slot_name slot) (L.exchange_faults links.old)
        (L.exchange_faults links.new) }
    ensures exchanged { L.tells → L.exchanged links.new
        ≡ L.exchanged links.old ++ exchanged_in L.Dial.exchanged slot.place }
    ensures doors { KeepsDoors L.Links links.old links.new }
{
    let Slot {
        journal: _,
        place,
        made: _,
    } = slot;
    match place {
        Place::New(mirror) => links.hang_up(mirror.into_dial()),
        Place::Back(mirror) => links.hang_up(mirror.into_dial()),
        Place::Out => (),
    }
}
