//! A journal on a disk.
ghost use Rattle.std.specs.Prelude.{◌≡◌, ◌≤◌, ◌<◌, ◌+◌, ◌++◌, ◌∷◌, [], false, List, ℕ, length};
ghost use Rattle.std.specs.Prelude.{◌^◌, take, OnOk};
ghost use Rattle.outside.specs.Disk.{Only, Elapses, HearsNoMore};
ghost use Rattle.outside.specs.Faults.{HasCause};
ghost use Rattle.log_journal.specs.Bytes.{EndsAt, piece_of};
ghost use Rattle.log_journal.specs.Records.{Adds, KeepsOrAdds};
ghost use Rattle.log_journal.specs.Walk.{records, AreThere};

use crate::AppendError;
use crate::put::put;
use crate::tell::tell_record;
use outside::{Disk, Failed};
use std::alloc::{AllocError, Global};

/// An opened journal, to which records are appended.
#[derive(Drop)]
pub struct Journal<D: Disk> {
    disk: D,
    /// The place of the closed gate.
    gate: u64,
    /// How many records it has.
    count: u64,
    /// Room for the first write of an append.
    room: Vec<u8>,
    /// An append failed at the disk.
    broken: bool,
    ghost ends: { broken ≡ false → D.tells → EndsAt (D.reads disk) gate },
    ghost durable: { broken ≡ false → Only (D.reads disk) (D.image disk) },
    ghost counted: { broken ≡ false → D.tells → count ≡ length (records (D.reads disk)) },
    ghost few: { count + 1 < 2 ^ 64 },
}

impl<D: Disk> Journal<D> {
    ghost use Rattle.std.specs.Prelude.{◌↔◌, IsTrue, IsErrOf, OnErr};
    ghost use Rattle.outside.specs.Disk.{Elapses};
    ghost use Rattle.outside.specs.Faults.{Rose};
    ghost use Rattle.log_journal.specs.Records.{Adds, KeepsOrAdds};
    ghost use Rattle.log_journal.specs.Walk.{records, AreThere};
    ghost use Rattle.log_journal.specs.Journal.{disk_of, is_broken, count_of, room_of, HasRoom};

    /// A journal of so many records whose closed gate stands at this place.
    pub(crate) fn at(alloc: Global, disk: D, gate: u64, count: u64) -> Self
        requires ends { D.tells → EndsAt (D.reads disk) gate }
        requires durable { Only (D.reads disk) (D.image disk) }
        requires counted { D.tells → count ≡ length (records (D.reads disk)) }
        requires few { count + 1 < 2 ^ 64 }
        ensures disk { disk_of result ≡ disk }
        ensures whole { is_broken result ≡ false }
        ensures count { count_of result ≡ count }
    {
        Journal {
            disk,
            gate,
            count,
            room: Vec::new(alloc),
            broken: false,
        }
    }

    /// Takes the room that an append of a text of this length needs. A refusal changes nothing.
    pub fn reserve(&mut self, length: u32) -> Result<(), AllocError>
        ensures room { OnOk result (HasRoom self.new length) }
        ensures keeps { (n : ℕ) → HasRoom self.old n → HasRoom self.new n }
        ensures unchanged { OnErr result (room_of self.new ≡ room_of self.old) }
        ensures disk { disk_of self.new ≡ disk_of self.old }
        ensures broken { is_broken self.new ≡ is_broken self.old }
        ensures count { count_of self.new ≡ count_of self.old }
    {
        let size = length as usize + 4;
        if size > self.room.len() {
            self.room.resize(size, 0)?;
        }
        Ok(())
    }

    /// Adds a record, whose number is the count of those before it. After Ok each crash leaves it,
    /// and its mark may be told. Where the disk fails at the last step, the telling, each crash
    /// leaves the record too. It takes no memory.
    pub fn append(&mut self, kind: u8, text: &[u8]) -> Result<(), AppendError>
        requires reserved { HasRoom self.old (length text.now) }
        requires low { 1 ≤ kind }
        requires high { kind ≤ 5 }
        requires short { length text.now ≤ 4096 }

        // After Ok the disk, and each image, has this record behind the records before it.
        ensures added { D.tells → OnOk result (Adds (D.reads (disk_of self.old)) (kind, text.now)
            (D.reads (disk_of self.new))) }
        ensures kept { D.tells → OnOk result ((c : List ℕ) → D.image (disk_of self.new) c
            → Adds (D.reads (disk_of self.old)) (kind, text.now) c) }

        // At every moment of the call each image has the records before it, or these and this one.
        ensures moments { D.tells → is_broken self.old ≡ false
            → (c : List ℕ) → D.image_since (disk_of self.new) (D.moment (disk_of self.old)) c
            → KeepsOrAdds (D.reads (disk_of self.old)) (kind, text.now) c }
        ensures time { Elapses (D.moment (disk_of self.old)) (D.moment (disk_of self.new))
            (D.image_since (disk_of self.old)) (D.image_since (disk_of self.new)) }

        // After a failure at the disk each image is one of the two, and no later append touches the
        // disk.
        ensures either { D.tells → IsErrOf result AppendError.DiskFault
            → (c : List ℕ) → D.image (disk_of self.new) c
            → KeepsOrAdds (D.reads (disk_of self.old)) (kind, text.now) c }
        ensures room { (n : ℕ) → HasRoom self.old n → HasRoom self.new n }

        // A refusal has its cause, and from a failure at the disk on every append is refused.
        ensures fault { IsErrOf result AppendError.DiskFault
            → Rose (D.faults (disk_of self.old)) (D.faults (disk_of self.new)) }
        ensures count { D.faults (disk_of self.old) ≤ D.faults (disk_of self.new) }
        ensures refused { IsErrOf result AppendError.Broken ↔ IsTrue (is_broken self.old) }
        ensures untouched { IsErrOf result AppendError.Broken
            → disk_of self.new ≡ disk_of self.old }
        ensures broken { OnErr result (IsTrue (is_broken self.new)) }
        ensures whole { OnOk result (is_broken self.new ≡ false) }

        // Behind Ok its mark may be told, and those that might be before it still may.
        ensures may_be_told { OnOk result (count_of self.old < D.tellable (disk_of self.new)) }
        ensures tellable { D.tellable (disk_of self.old) ≤ D.tellable (disk_of self.new) }

        // What was told of is a record that lies there.
        ensures heard { D.tells
            → AreThere (D.heard (disk_of self.old)) (D.reads (disk_of self.old))
            → AreThere (D.heard (disk_of self.new)) (D.reads (disk_of self.new)) }
        ensures origin { D.origin (disk_of self.new) ≡ D.origin (disk_of self.old) }

        // The count is that of the records.
        ensures number { D.tells → is_broken self.old ≡ false
            → count_of self.old ≡ length (records (D.reads (disk_of self.old))) }
        ensures next { D.tells → OnOk result (count_of self.new ≡ count_of self.old + 1) }
        ensures grown { D.tells → OnOk result (records (D.reads (disk_of self.new))
            ≡ records (D.reads (disk_of self.old)) ++ (kind, text.now) ∷ []) }
        ensures same_count { OnErr result (count_of self.new ≡ count_of self.old) }
    {
        if self.broken {
            return Err(AppendError::Broken);
        }
        match put_told(
            &mut self.disk,
            self.gate,
            self.count,
            &mut self.room,
            kind,
            text,
        ) {
            Ok(()) => {
                self.gate = self.gate.saturating_add(text.len() as u64 + 4);
                self.count = self.count.saturating_add(1).min(u64::MAX - 1);
                Ok(())
            }
            Err(Failed) => {
                self.broken = true;
                Err(AppendError::DiskFault)
            }
        }
    }

    /// How many records it has.
    pub fn count(&self) -> u64
        ensures same { result ≡ count_of self.now }
        ensures records { D.tells → is_broken self.now ≡ false
            → result ≡ length (records (D.reads (disk_of self.now))) }
    {
        self.count
    }

    /// Whether an append of it failed at the disk.
    pub fn has_failed(&self) -> bool
        ensures { result ≡ is_broken self.now }
    {
        self.broken
    }

    /// Gives the disk back.
    pub fn close(self) -> D
        ensures { result ≡ disk_of self }
    {
        self.disk
    }
}

// Writes the record of this number at the closed gate, and then tells of it.
fn put_told<D: Disk>(
    disk: &mut D,
    gate: u64,
    number: u64,
    room: &mut Vec<u8>,
    kind: u8,
    text: &[u8],
) -> Result<(), Failed>
    requires size { length text.now + 4 ≤ length room.old.items }
    requires low { 1 ≤ kind }
    requires high { kind ≤ 5 }
    requires short { length text.now ≤ 4096 }
    requires ends { D.tells → EndsAt (D.reads disk.old) gate }
    requires durable { Only (D.reads disk.old) (D.image disk.old) }
    requires counted { D.tells → number ≡ length (records (D.reads disk.old)) }
    requires few { number + 1 < 2 ^ 64 }

    ensures size { length room.new.items ≡ length room.old.items }
    ensures added { D.tells
        → OnOk result (Adds (D.reads disk.old) (kind, text.now) (D.reads disk.new)) }
    ensures ends { D.tells → OnOk result (EndsAt (D.reads disk.new) (gate + 4 + length text.now)) }
    ensures durable { OnOk result (Only (D.reads disk.new) (D.image disk.new)) }
    ensures images { D.tells → (c : List ℕ) → D.image disk.new c
        → KeepsOrAdds (D.reads disk.old) (kind, text.now) c }
    ensures time { Elapses (D.moment disk.old) (D.moment disk.new) (D.image_since disk.old)
        (D.image_since disk.new) }
    ensures moments { D.tells → (c : List ℕ) → D.image_since disk.new (D.moment disk.old) c
        → KeepsOrAdds (D.reads disk.old) (kind, text.now) c }
    ensures may_be_told { OnOk result (number < D.tellable disk.new) }
    ensures tellable { D.tellable disk.old ≤ D.tellable disk.new }
    ensures heard { D.tells → AreThere (D.heard disk.old) (D.reads disk.old)
        → AreThere (D.heard disk.new) (D.reads disk.new) }
    ensures origin { D.origin disk.new ≡ D.origin disk.old }
    ensures next { D.tells → OnOk result (length (records (D.reads disk.new)) ≡ number + 1) }
    ensures grown { D.tells → OnOk result (records (D.reads disk.new)
        ≡ records (D.reads disk.old) ++ (kind, text.now) ∷ []) }
    ensures fits { D.tells → OnOk result (number + 2 < 2 ^ 64) }
    ensures cause { HasCause (D.faults disk.old) (D.faults disk.new) result }
{
    put_record(disk, gate, room, kind, text)?;
    tell_record(disk, number, kind, text)
}

// Writes a record at the closed gate. Its first piece is made in the room.
fn put_record<D: Disk>(
    disk: &mut D,
    gate: u64,
    room: &mut Vec<u8>,
    kind: u8,
    text: &[u8],
) -> Result<(), Failed>
    requires size { length text.now + 4 ≤ length room.old.items }
    requires low { 1 ≤ kind }
    requires high { kind ≤ 5 }
    requires short { length text.now ≤ 4096 }
    requires ends { D.tells → EndsAt (D.reads disk.old) gate }
    requires durable { Only (D.reads disk.old) (D.image disk.old) }

    ensures size { length room.new.items ≡ length room.old.items }
    ensures added { D.tells
        → OnOk result (Adds (D.reads disk.old) (kind, text.now) (D.reads disk.new)) }
    ensures ends { D.tells → OnOk result (EndsAt (D.reads disk.new) (gate + 4 + length text.now)) }
    ensures durable { OnOk result (Only (D.reads disk.new) (D.image disk.new)) }
    ensures images { D.tells → (c : List ℕ) → D.image disk.new c
        → KeepsOrAdds (D.reads disk.old) (kind, text.now) c }
    ensures time { Elapses (D.moment disk.old) (D.moment disk.new) (D.image_since disk.old)
        (D.image_since disk.new) }
    ensures moments { D.tells → (c : List ℕ) → D.image_since disk.new (D.moment disk.old) c
        → KeepsOrAdds (D.reads disk.old) (kind, text.now) c }
    ensures tellable { D.tellable disk.old ≤ D.tellable disk.new }
    ensures heard { HearsNoMore (D.heard disk.old) (D.heard disk.new) }
    ensures origin { D.origin disk.new ≡ D.origin disk.old }
    ensures cause { HasCause (D.faults disk.old) (D.faults disk.new) result }
{
    fill_start(room, kind, text);
    put(disk, gate, &room[..text.len() + 4])
}

// Fills the front of some room.
fn fill_start(room: &mut Vec<u8>, kind: u8, text: &[u8])
    requires size { length text.now + 4 ≤ length room.old.items }
    requires short { length text.now ≤ 4096 }
    ensures size { length room.new.items ≡ length room.old.items }
    ensures piece { take (length text.now + 4) room.new.items ≡ piece_of kind text.now }
{
    let (piece, _) = room.split_at_mut(text.len() + 4);
    fill(piece, kind, text);
}

// Makes a piece of the kind, the length with the higher byte first, the text and a shut gate.
fn fill(piece: &mut [u8], kind: u8, text: &[u8])
    requires size { length piece.old ≡ length text.now + 4 }
    requires short { length text.now ≤ 4096 }
    ensures { piece.new ≡ piece_of kind text.now }
{
    let length = text.len();
    let (start, rest) = piece.split_at_mut(3);
    start.copy_from_slice(&[kind, (length / 256) as u8, (length % 256) as u8]);
    let (middle, gate) = rest.split_at_mut(length);
    middle.copy_from_slice(text);
    gate.copy_from_slice(&[0]);
}
