//! The device calls of a journal: writes that are on the disk when they return.
ghost use Rattle.std.specs.Prelude.{◌≡◌, ◌⊎◌, ◌≤◌, ◌<◌, ◌+◌, ◌^◌, List, ℕ, length, OnOk};
ghost use Rattle.outside.specs.Disk.{Holds, Torn, Only, Elapses, HearsNoMore};
ghost use Rattle.outside.specs.Faults.{HasCause};
ghost use Rattle.log_journal.specs.Bytes.{with_piece, IsBetween};

use outside::{Disk, Failed};

/// Writes a piece and syncs.
pub(crate) fn write_synced<D: Disk>(disk: &mut D, at: u64, piece: &[u8]) -> Result<(), Failed>
    requires within { D.tells → at ≤ length (D.reads disk.old) }
    requires durable { Only (D.reads disk.old) (D.image disk.old) }
    ensures written { D.tells
        → OnOk result (Holds (D.reads disk.old) at piece.now (D.reads disk.new)) }
    ensures fits { D.tells → OnOk result (length (D.reads disk.new) < 2 ^ 64) }
    ensures durable { OnOk result (Only (D.reads disk.new) (D.image disk.new)) }
    ensures images { (c : List ℕ) → D.image disk.new c
        → Torn at (length piece.now) (D.reads disk.old) c }
    ensures time { Elapses (D.moment disk.old) (D.moment disk.new) (D.image_since disk.old)
        (D.image_since disk.new) }
    ensures moments { (c : List ℕ) → D.image_since disk.new (D.moment disk.old) c
        → Torn at (length piece.now) (D.reads disk.old) c }
    ensures tellable { D.tellable disk.old ≤ D.tellable disk.new }
    ensures heard { HearsNoMore (D.heard disk.old) (D.heard disk.new) }
    ensures origin { D.origin disk.new ≡ D.origin disk.old }
    ensures cause { HasCause (D.faults disk.old) (D.faults disk.new) result }
{
    disk.write_at(at, piece)?;
    disk.sync()
}

/// Writes a piece behind the closed gate, and opens the gate once the piece is on the disk.
pub(crate) fn put<D: Disk>(disk: &mut D, gate: u64, piece: &[u8]) -> Result<(), Failed>
    requires within { D.tells → gate < length (D.reads disk.old) }
    requires fits { D.tells → length (D.reads disk.old) < 2 ^ 64 }
    requires durable { Only (D.reads disk.old) (D.image disk.old) }

    ensures written { D.tells
        → OnOk result (D.reads disk.new ≡ with_piece (D.reads disk.old) gate 1 piece.now) }
    ensures fits { D.tells → OnOk result (length (D.reads disk.new) < 2 ^ 64) }
    ensures durable { OnOk result (Only (D.reads disk.new) (D.image disk.new)) }

    // At each moment, and at the end of a call that fails, the gate is shut or the piece stands
    // whole behind it.
    ensures images { D.tells → (c : List ℕ) → D.image disk.new c
        → IsBetween (D.reads disk.old) gate piece.now c }
    ensures time { Elapses (D.moment disk.old) (D.moment disk.new) (D.image_since disk.old)
        (D.image_since disk.new) }
    ensures moments { D.tells → (c : List ℕ) → D.image_since disk.new (D.moment disk.old) c
        → IsBetween (D.reads disk.old) gate piece.now c }
    ensures tellable { D.tellable disk.old ≤ D.tellable disk.new }
    ensures heard { HearsNoMore (D.heard disk.old) (D.heard disk.new) }
    ensures origin { D.origin disk.new ≡ D.origin disk.old }
    ensures cause { HasCause (D.faults disk.old) (D.faults disk.new) result }
{
    // A disk that clauses are told of has fewer than 2^64 bytes, so this sum isn't cut off.
    write_synced(disk, gate.saturating_add(1), piece)?;
    write_synced(disk, gate, &[1])
}
