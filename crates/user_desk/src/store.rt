//! Where a desk keeps its disk, and what that disk was at the desk's opening.
ghost use Rattle.std.specs.Prelude.{◌≡◌, ◌≤◌, ◌<◌, List, ℕ, true, false, length, OnOk, OnErr};
ghost use Rattle.outside.specs.Disk.{Elapses};
ghost use Rattle.outside.specs.Faults.{Rose};
ghost use Rattle.log_journal.specs.Records.{Adds, KeepsOrAdds};
ghost use Rattle.log_journal.specs.Walk.{records};

use log_journal::Journal;
use outside::{Disk, Failed};
use std::alloc::AllocError;
use std::marker::Model;
use std::snapshot::Snapshot;

/// A disk under a journal, or as it is where the journal was refused.
#[derive(Drop)]
pub(crate) enum Medium<D: Disk> {
    /// The journal, to which entries are appended.
    Journal(Journal<D>),
    /// The disk of a journal that was refused.
    Disk(D),
}

/// The disk of a desk, with its journal, since the desk was opened.
#[derive(Drop)]
pub(crate) struct Store<D: Disk> {
    medium: Medium<D>,
    opened: Snapshot<Medium<D>>,
}

impl<D: Disk> Model for Store<D> {
    ghost use Rattle.user_desk.specs.Stored.{Stored, GoesOn};
    ghost use Rattle.user_desk.specs.Mediums.{stored_in};

    ghost Value = { Stored D };

    ghost view = { λ s. stored_in s.medium s.opened.value };

    ghost invariant = { λ s.
        GoesOn D.tells D.reads D.moment D.image_since D.faults D.heard D.origin
        (stored_in s.medium s.opened.value) };
}

impl<D: Disk> Store<D> {
    ghost use Rattle.user_desk.specs.Stored.{stored_disk, opened_disk, has_journal, has_failed};
    ghost use Rattle.user_desk.specs.Stored.{HasRoomFor, GoesOn};
    ghost use Rattle.user_desk.specs.Mediums.{medium_disk, is_journal, is_failed};

    /// Keeps a disk as it is at the opening of a desk.
    pub(crate) fn new(medium: Medium<D>) -> Store<D>
        requires { is_failed medium ≡ false }
        ensures disk { stored_disk result ≡ medium_disk medium }
        ensures opened { opened_disk result ≡ medium_disk medium }
        ensures journal { has_journal result ≡ is_journal medium }
        ensures whole { has_failed result ≡ false }
    {
        let opened = Snapshot::of(&medium);
        Store { medium, opened }
    }

    /// What is known of the disk since the opening. It computes nothing.
    pub(crate) fn known(&self)
        ensures { GoesOn D.tells D.reads D.moment D.image_since D.faults D.heard D.origin self.now }
    {
        let _medium = &self.medium;
    }

    /// Takes the room for a record of a text of this length.
    pub(crate) fn reserve(&mut self, length: usize) -> Result<(), AllocError>
        requires journal { has_journal self.old ≡ true }
        requires short { length ≤ 4096 }
        ensures room { OnOk result (HasRoomFor self.new length) }
        ensures journal { has_journal self.new ≡ true }
        ensures disk { stored_disk self.new ≡ stored_disk self.old }
        ensures failed { has_failed self.new ≡ has_failed self.old }
        ensures opened { opened_disk self.new ≡ opened_disk self.old }
    {
        match &mut self.medium {
            Medium::Journal(journal) => journal.reserve(length as u32),
            Medium::Disk(_) => unreachable!(),
        }
    }

    /// Appends a record of this kind and text. It takes no memory.
    pub(crate) fn append(&mut self, kind: u8, text: &[u8]) -> Result<(), Failed>
        requires journal { has_journal self.old ≡ true }
        requires whole { has_failed self.old ≡ false }
        requires room { HasRoomFor self.old (length text.now) }
        requires low { 1 ≤ kind }
        requires high { kind ≤ 5 }
        requires short { length text.now ≤ 4096 }
        ensures journal { has_journal self.new ≡ true }
        ensures added { D.tells → OnOk result ((c : List ℕ) → D.image (stored_disk self.new) c
            → Adds (D.reads (stored_disk self.old)) (kind, text.now) c) }
        ensures either { D.tells → OnErr result ((c : List ℕ) → D.image (stored_disk self.new) c
            → KeepsOrAdds (D.reads (stored_disk self.old)) (kind, text.now) c) }
        ensures moments { D.tells → (c : List ℕ)
            → D.image_since (stored_disk self.new) (D.moment (stored_disk self.old)) c
            → KeepsOrAdds (D.reads (stored_disk self.old)) (kind, text.now) c }
        ensures time { Elapses (D.moment (stored_disk self.old)) (D.moment (stored_disk self.new))
            (D.image_since (stored_disk self.old)) (D.image_since (stored_disk self.new)) }
        ensures whole { OnOk result (has_failed self.new ≡ false) }
        ensures failed { OnErr result (has_failed self.new ≡ true) }
        ensures count { D.faults (stored_disk self.old) ≤ D.faults (stored_disk self.new) }
        ensures origin { D.origin (stored_disk self.new) ≡ D.origin (stored_disk self.old) }
        ensures cause { OnErr result
            (Rose (D.faults (stored_disk self.old)) (D.faults (stored_disk self.new))) }

        // Behind Ok the mark of the record may be told, whose number is the count of those before
        // it.
        ensures told { D.tells → OnOk result
            (length (records (D.reads (stored_disk self.old)))
            < D.tellable (stored_disk self.new)) }
        ensures still_told { D.tellable (stored_disk self.old) ≤ D.tellable (stored_disk self.new) }
        ensures opened { opened_disk self.new ≡ opened_disk self.old }
    {
        match &mut self.medium {
            Medium::Journal(journal) => match journal.append(kind, text) {
                Ok(()) => Ok(()),
                Err(_) => Err(Failed),
            },
            Medium::Disk(_) => unreachable!(),
        }
    }

    /// Gives the disk back.
    pub(crate) fn close(self) -> D
        ensures { result ≡ stored_disk self }
    {
        let Store { medium, opened: _ } = self;
        match medium {
            Medium::Journal(journal) => journal.close(),
            Medium::Disk(disk) => disk,
        }
    }
}
