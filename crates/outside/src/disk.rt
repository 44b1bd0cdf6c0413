//! A disk: what its calls promise of the bytes that it reads, and of what a crash may leave.
ghost use Rattle.std.specs.Prelude.{◌≡◌, ◌⊎◌, ◌<◌, ◌≤◌, ◌+◌, ◌^◌, List, ℕ, length, IfOk, OnOk};
ghost use Rattle.std.specs.Prelude.{OnErr};
ghost use Rattle.outside.specs.Disk.{Holds, Fills, Torn, Follows, Only, Elapses};
ghost use Rattle.outside.specs.Disk.{HearsNoMore, HearsAtMost};
ghost use Rattle.outside.specs.Faults.{HasCause};

use crate::Failed;

/// Bytes that outlive the program. Between two syncs that succeed a crash may leave any bytes in
/// each range that was written and past the old end; other bytes stay.
///
/// Each call says in its clause `time` that the images at the moments since an earlier one are
/// those as the call began and those at the moments of the call, and in its clause `moments` what
/// the latter are.
pub trait Disk {
    /// Whether clauses are told what the disk reads: over memory they are, over a real file they
    /// are not.
    ghost tells: { Type 0 };

    /// The bytes that the disk reads, where clauses are told.
    ghost reads: { Self → List ℕ };

    /// The images: what a crash at this moment may leave. A disk that isn't told has none.
    ghost image: { Self → List ℕ → Type 0 };

    /// The clock, which doesn't fall.
    ghost moment: { Self → ℕ };

    /// The images at the moments since that one, during a call or between two.
    ghost image_since: { Self → ℕ → List ℕ → Type 0 };

    /// The count of faults, which doesn't fall.
    ghost faults: { Self → ℕ };

    /// The marks of the records with lower numbers may be told. No call lowers it. A disk that
    /// nothing copies lets all be told.
    ghost tellable: { Self → ℕ };

    /// Something was told of this record with this number, its kind and its text. Of a disk that
    /// nothing copies nothing ever is.
    ghost heard: { Self → ℕ → ℕ × List ℕ → Type 0 };

    /// What says where it comes from, of which its shelf knows by its name. No call changes it.
    ghost origin: { Self → List (List ℕ) };

    /// How many bytes the disk has.
    fn length(&mut self) -> Result<u64, Failed>
        ensures length { tells → IfOk result (λ n. n ≡ length (reads self.old)) }
        ensures reads { reads self.new ≡ reads self.old }
        ensures images { (c : List ℕ) → image self.new c → image self.old c }
        ensures time { Elapses (moment self.old) (moment self.new) (image_since self.old)
            (image_since self.new) }
        ensures moments { (c : List ℕ) → image_since self.new (moment self.old) c
            → image self.old c }
        ensures tellable { tellable self.old ≤ tellable self.new }
        ensures heard { HearsNoMore (heard self.old) (heard self.new) }
        ensures origin { origin self.new ≡ origin self.old }
        ensures cause { HasCause (faults self.old) (faults self.new) result };

    /// Fills the piece from that place on, less only where the disk ends. Nobody reads behind the
    /// end: a real disk may fail there, and a fault is nothing to bring about.
    fn read_at(&mut self, at: u64, into: &mut [u8]) -> Result<usize, Failed>
        requires within { tells → at ≤ length (reads self.old) }
        ensures fits { IfOk result (λ n. n ≤ length into.old) }
        ensures bytes { tells → IfOk result (λ n. Fills (reads self.old) at n into.old into.new) }
        ensures same_piece { tells → OnErr result (into.new ≡ into.old) }
        ensures reads { reads self.new ≡ reads self.old }
        ensures images { (c : List ℕ) → image self.new c → image self.old c }
        ensures time { Elapses (moment self.old) (moment self.new) (image_since self.old)
            (image_since self.new) }
        ensures moments { (c : List ℕ) → image_since self.new (moment self.old) c
            → image self.old c }
        ensures tellable { tellable self.old ≤ tellable self.new }
        ensures heard { HearsNoMore (heard self.old) (heard self.new) }
        ensures origin { origin self.new ≡ origin self.old }
        ensures cause { HasCause (faults self.old) (faults self.new) result };

    /// Writes the whole piece from that place on. Until a sync, a crash may leave any bytes in the
    /// range.
    fn write_at(&mut self, at: u64, bytes: &[u8]) -> Result<(), Failed>
        requires { tells → at ≤ length (reads self.old) }
        ensures written { tells
            → OnOk result (Holds (reads self.old) at bytes.now (reads self.new)) }
        ensures fits { tells → OnOk result (length (reads self.new) < 2 ^ 64) }
        ensures images { Follows (Torn at (length bytes.now)) (image self.old) (image self.new) }
        ensures time { Elapses (moment self.old) (moment self.new) (image_since self.old)
            (image_since self.new) }
        ensures moments { (c : List ℕ) → image_since self.new (moment self.old) c
            → image self.old c ⊎ image self.new c }
        ensures tellable { tellable self.old ≤ tellable self.new }
        ensures heard { HearsNoMore (heard self.old) (heard self.new) }
        ensures origin { origin self.new ≡ origin self.old }
        ensures cause { HasCause (faults self.old) (faults self.new) result };

    /// After it, a crash leaves what a read gives.
    fn sync(&mut self) -> Result<(), Failed>
        ensures durable { OnOk result (Only (reads self.old) (image self.new)) }
        ensures reads { reads self.new ≡ reads self.old }
        ensures images { (c : List ℕ) → image self.new c → image self.old c }
        ensures time { Elapses (moment self.old) (moment self.new) (image_since self.old)
            (image_since self.new) }
        ensures moments { (c : List ℕ) → image_since self.new (moment self.old) c
            → image self.old c }
        ensures tellable { tellable self.old ≤ tellable self.new }
        ensures heard { HearsNoMore (heard self.old) (heard self.new) }
        ensures origin { origin self.new ≡ origin self.old }
        ensures cause { HasCause (faults self.old) (faults self.new) result };

    /// Sees to it that the mark of the record of this number, from 0, may be told. The caller gives
    /// its kind and its text, and has to see to it that they are those of the record that lies
    /// there. A disk that is copied elsewhere answers Ok once it was answered a count above the
    /// number. The disk stays as it is.
    fn tell(&mut self, number: u64, kind: u8, text: &[u8]) -> Result<(), Failed>
        requires low { 1 ≤ kind }
        requires high { kind ≤ 5 }
        requires short { length text.now ≤ 4096 }
        requires few { number + 1 < 2 ^ 64 }
        ensures may_be_told { OnOk result (number < tellable self.new) }
        ensures tellable { tellable self.old ≤ tellable self.new }
        ensures heard { HearsAtMost number (kind, text.now) (heard self.old) (heard self.new) }
        ensures origin { origin self.new ≡ origin self.old }
        ensures reads { reads self.new ≡ reads self.old }
        ensures images { (c : List ℕ) → image self.new c → image self.old c }
        ensures same_images { (c : List ℕ) → image self.old c → image self.new c }
        ensures time { Elapses (moment self.old) (moment self.new) (image_since self.old)
            (image_since self.new) }
        ensures moments { (c : List ℕ) → image_since self.new (moment self.old) c
            → image self.old c }
        ensures cause { HasCause (faults self.old) (faults self.new) result };

    /// A disk as it reads is one of its images.
    ghost read_is_image: { (disk : Self) → tells → image disk (reads disk) };

    /// This moment is one of those since an earlier one.
    ghost counts_now: { (disk : Self) (t : ℕ) (c : List ℕ) → t ≤ moment disk → image disk c
        → image_since disk t c };

    /// Since this moment there is no other.
    ghost only_now: { (disk : Self) (c : List ℕ) → image_since disk (moment disk) c
        → image disk c };
}
