//! The journals of a standby, by user.
ghost use Rattle.std.specs.Prelude.{◌≡◌, ◌⊎◌, ◌↔◌, ◌≤◌, ◌<◌, All, List, ℕ, map, length};
ghost use Rattle.std.specs.Prelude.{string_bytes, bytes_eq, IfOk, IfSome, OnOk, IsErrOf, IsTrue};
ghost use Rattle.std.specs.Prelude.{None, position};
ghost use Rattle.outside.specs.Faults.{Rose};
ghost use Rattle.log_journal.specs.Journal.{disk_of, is_broken, count_of};
ghost use Rattle.standby_core.specs.Copies.{copy_in, copy_after, copy_failed, held_name};
ghost use Rattle.standby_core.specs.Copies.{held_origin};
ghost use Rattle.standby_core.specs.Lasting.{Lasts, CountsItsRecords};

use log_journal::{AppendError, Journal};
use outside::Disk;

/// A journal of a standby, with its user's name and how many records it has.
#[derive(Drop)]
pub struct Held<D: Disk> {
    pub name: String,
    pub journal: Journal<D>,
    pub count: u64,
}

/// Why a record isn't taken, numbered from 1.
#[derive(Clone, Copy, Debug, PartialEq, Eq)]
pub enum TakeError {
    /// No user has this name.
    UnknownName,
    /// A call of the user's disk failed. The record may be there or not.
    DiskFault,
    /// An earlier append of this journal failed.
    Broken,
    Memory,
}

/// The journals of a standby.
#[derive(Drop)]
pub struct StandbyBook<D: Disk> {
    journals: Vec<Held<D>>,
    ghost counted: { All (λ held. held.count ≡ count_of held.journal) journals.items },
}

impl<D: Disk> StandbyBook<D> {
    ghost use Rattle.standby_core.specs.Books.{copies_in, book_faults};
    ghost use Rattle.standby_core.specs.Copies.{copy_at, copies_after, HasCount, HasFailed};
    ghost use Rattle.standby_core.specs.Copies.{FailsAlone};
    ghost use Rattle.standby_core.specs.Lasting.{AllLast, CountTheirRecords, has_broken};

    /// The journals of users whose names differ. It takes no memory.
    pub fn new(journals: Vec<Held<D>>) -> StandbyBook<D>
        requires counted { All (λ held. held.count ≡ count_of held.journal) journals.items }
        ensures { result.journals ≡ journals }
    {
        StandbyBook { journals }
    }

    /// Gives the journals back. It takes no memory.
    pub fn close(self) -> Vec<Held<D>>
        ensures same { result ≡ self.journals }
        ensures counted { All (λ held. held.count ≡ count_of held.journal) result.items }
    {
        self.journals
    }

    /// Takes a record of a user: where its number is the count of his records it is appended, else
    /// nothing changes. Answers the count then.
    pub fn take(&mut self, name: &str, number: u64, kind: u8, text: &[u8]) -> Result<u64, TakeError>
        requires low { 1 ≤ kind }
        requires high { kind ≤ 5 }
        requires short { length text.now ≤ 4096 }
        ensures taken { D.tells → OnOk result (copies_in D.reads self.new
            ≡ copies_after (copies_in D.reads self.old) (record {
              name = name.now;
              number = number;
              kind = kind;
              text = text.now;
            })) }
        ensures count { D.tells
            → IfOk result (HasCount (copies_in D.reads self.new) name.now) }

        // Each refusal has its cause.
        ensures unknown { IsErrOf result TakeError.UnknownName
            ↔ (copy_at (copies_in D.reads self.old) name.now ≡ None) }
        ensures broken { IsErrOf result TakeError.Broken
            ↔ HasFailed (copies_in D.reads self.old) name.now }
        ensures fault { IsErrOf result TakeError.DiskFault
            → Rose (book_faults D.faults self.old name.now)
            (book_faults D.faults self.new name.now) }
        ensures next { IsErrOf result TakeError.DiskFault ⊎ IsErrOf result TakeError.Memory
            → HasCount (copies_in D.reads self.old) name.now number }

        // What it leaves of the copies.
        ensures alone { D.tells → IsErrOf result TakeError.DiskFault
            → FailsAlone (copies_in D.reads self.old) (copies_in D.reads self.new) name.now }
        ensures refused { IsErrOf result TakeError.UnknownName → self.new ≡ self.old }
        ensures untouched { IsErrOf result TakeError.Broken
            → copies_in D.reads self.new ≡ copies_in D.reads self.old }
        ensures memory { IsErrOf result TakeError.Memory
            → copies_in D.reads self.new ≡ copies_in D.reads self.old }

        // What was there stays: each crash leaves the records that each journal took, and at each
        // moment since it was opened each left some first of them.
        ensures lasts { D.tells → (header : List ℕ) (disks : List D)
            → AllLast D.Disk header disks self.old.journals.items
            → AllLast D.Disk header disks self.new.journals.items }
        ensures names { map held_name self.new.journals.items
            ≡ map held_name self.old.journals.items }
        ensures origins { map (held_origin D.origin) self.new.journals.items
            ≡ map (held_origin D.origin) self.old.journals.items }
        ensures counted { (counts : List ℕ)
            → CountTheirRecords D.faults counts self.old.journals.items
            → CountTheirRecords D.faults counts self.new.journals.items }
        ensures broke { IsErrOf result TakeError.DiskFault ⊎ IsErrOf result TakeError.Broken
            → IsTrue (has_broken self.new.journals.items) }
    {
        let Some(place) = place_of(self.journals.as_slice(), name) else {
            return Err(TakeError::UnknownName);
        };
        let held = &mut self.journals[place];
        held.take(number, kind, text)
    }
}

// The place of the journal of this name.
fn place_of<D: Disk>(journals: &[Held<D>], name: &str) -> Option<usize>
    ensures place { result ≡ position (λ held. bytes_eq (held_name held) name.now) journals.now }
    ensures within { IfSome result (λ place. place < length journals.now) }
{
    journals.iter().position(|held| held.name.as_str() == name)
}

impl<D: Disk> Held<D> {
    // The same of one user's journal.
    fn take(&mut self, number: u64, kind: u8, text: &[u8]) -> Result<u64, TakeError>
        requires counted { self.old.count ≡ count_of self.old.journal }
        requires low { 1 ≤ kind }
        requires high { kind ≤ 5 }
        requires short { length text.now ≤ 4096 }
        ensures counted { self.new.count ≡ count_of self.new.journal }
        ensures name { self.new.name ≡ self.old.name }
        ensures origin { held_origin D.origin self.new ≡ held_origin D.origin self.old }
        ensures taken { D.tells → OnOk result (copy_in D.reads self.new
            ≡ copy_after (copy_in D.reads self.old) (record {
              name = string_bytes self.old.name;
              number = number;
              kind = kind;
              text = text.now;
            })) }
        ensures count { IfOk result (λ count. count ≡ self.new.count) }
        ensures known { IsErrOf result TakeError.UnknownName → ⊥ }
        ensures broken { IsErrOf result TakeError.Broken
            ↔ IsTrue (is_broken self.old.journal) }
        ensures fault { IsErrOf result TakeError.DiskFault
            → Rose (D.faults (disk_of self.old.journal)) (D.faults (disk_of self.new.journal)) }
        ensures next { IsErrOf result TakeError.DiskFault ⊎ IsErrOf result TakeError.Memory
            → number ≡ self.old.count }
        ensures untouched { IsErrOf result TakeError.Broken → self.new ≡ self.old }
        ensures memory { IsErrOf result TakeError.Memory
            → copy_in D.reads self.new ≡ copy_in D.reads self.old }
        ensures failed { D.tells → IsErrOf result TakeError.DiskFault
            → copy_in D.reads self.new ≡ copy_failed (copy_in D.reads self.old) }
        ensures lasts { D.tells → (header : List ℕ) (opened : D)
            → Lasts D.Disk header opened (disk_of self.old.journal) (copy_in D.reads self.old)
            → Lasts D.Disk header opened (disk_of self.new.journal) (copy_in D.reads self.new) }
        ensures faults { (count : ℕ) → CountsItsRecords D.faults count self.old
            → CountsItsRecords D.faults count self.new }
        ensures broke { IsErrOf result TakeError.DiskFault ⊎ IsErrOf result TakeError.Broken
            → IsTrue (is_broken self.new.journal) }
    {
        if self.journal.has_failed() {
            return Err(TakeError::Broken);
        }
        let count = self.journal.count();
        if number != count {
            return Ok(count);
        }
        let Ok(()) = self.journal.reserve(text.len() as u32) else {
            return Err(TakeError::Memory);
        };
        let appended = self.journal.append(kind, text);
        self.count = self.journal.count();
        match appended {
            Ok(()) => Ok(self.count),
            Err(AppendError::DiskFault) => Err(TakeError::DiskFault),
            Err(AppendError::Broken) => Err(TakeError::Broken),
        }
    }
}
