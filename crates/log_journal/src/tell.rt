//! Telling a disk of the records that lie on it, so that their marks may be told.
ghost use Rattle.std.specs.Prelude.{◌≡◌, ◌<◌, ◌≤◌, ◌+◌, ◌^◌, All, length, map, OnOk};
ghost use Rattle.outside.specs.Disk.{Only, HearsAtMost};
ghost use Rattle.outside.specs.Faults.{HasCause};
ghost use Rattle.log_journal.specs.Opening.{recorded, IsRecord, IsOnlyRead};
ghost use Rattle.log_journal.specs.Walk.{records, IsNumbered, AreThere};

use crate::Record;
use outside::{Disk, Failed};

/// Tells of the record of this number, which no crash takes back any more.
pub(crate) fn tell_record<D: Disk>(
    disk: &mut D,
    number: u64,
    kind: u8,
    text: &[u8],
) -> Result<(), Failed>
    requires there { D.tells → IsNumbered (D.reads disk.old) number (kind, text.now) }
    requires durable { Only (D.reads disk.old) (D.image disk.old) }
    requires low { 1 ≤ kind }
    requires high { kind ≤ 5 }
    requires short { length text.now ≤ 4096 }
    requires few { number + 1 < 2 ^ 64 }
    ensures may_be_told { OnOk result (number < D.tellable disk.new) }
    ensures tellable { D.tellable disk.old ≤ D.tellable disk.new }
    ensures heard { HearsAtMost number (kind, text.now) (D.heard disk.old) (D.heard disk.new) }
    ensures origin { D.origin disk.new ≡ D.origin disk.old }
    ensures only { IsOnlyRead (D.reads disk.old) (D.reads disk.new) (D.image disk.old)
        (D.image disk.new)
        (D.moment disk.old) (D.moment disk.new) (D.image_since disk.old) (D.image_since disk.new)
        (D.faults disk.old) (D.faults disk.new) }
    ensures cause { HasCause (D.faults disk.old) (D.faults disk.new) result }
{
    disk.tell(number, kind, text)
}

/// Tells of all records, which no crash takes back any more, in their order.
pub(crate) fn tell_all<D: Disk>(disk: &mut D, all: &[Record]) -> Result<(), Failed>
    requires there { D.tells → records (D.reads disk.old) ≡ map recorded all.now }
    requires durable { Only (D.reads disk.old) (D.image disk.old) }
    requires each { All (IsRecord 5) all.now }
    requires few { length all.now < 2 ^ 64 }
    ensures tellable { OnOk result (length all.now ≤ D.tellable disk.new) }
    ensures still_told { D.tellable disk.old ≤ D.tellable disk.new }
    ensures heard { D.tells → AreThere (D.heard disk.old) (D.reads disk.old)
        → AreThere (D.heard disk.new) (D.reads disk.new) }
    ensures origin { D.origin disk.new ≡ D.origin disk.old }
    ensures only { IsOnlyRead (D.reads disk.old) (D.reads disk.new) (D.image disk.old)
        (D.image disk.new)
        (D.moment disk.old) (D.moment disk.new) (D.image_since disk.old) (D.image_since disk.new)
        (D.faults disk.old) (D.faults disk.new) }
    ensures cause { HasCause (D.faults disk.old) (D.faults disk.new) result }
{
    for (number, record) in all.iter().enumerate() {
        tell_record(disk, number as u64, record.kind, &record.text)?;
    }
    Ok(())
}
