//! Files and disks by their names.
ghost use Rattle.std.specs.Prelude.{◌≡◌, ◌≤◌, ◌++◌, ◌∷◌, [], List, ℕ, Bool, true, false, Option};
ghost use Rattle.std.specs.Prelude.{Some, None, IfOk, OnOk, OnErr, IsErrOf};
ghost use Rattle.outside.specs.Disk.{HeardNothing};
ghost use Rattle.outside.specs.Faults.{Rose};
ghost use Rattle.outside.specs.Shelf.{IsTaken, Lent, Looks, SameNames};
ghost use Rattle.outside.specs.Shelf.{SameOthers};

use crate::Disk;
use std::alloc::Global;

/// Why a call of a shelf is refused.
#[derive(Clone, Copy, Debug, PartialEq, Eq)]
pub enum ShelfError {
    /// There is no file of this name.
    Missing,
    /// The shelf failed. It comes only where its count of faults rose.
    Failed,
    /// Memory was wanting.
    Memory,
}

/// Where the files of a policy and of facts lie, and the disks of journals. No call changes a file.
///
/// A disk that was taken isn't taken again before it is given back. For each name the shelf keeps a
/// count of faults, with which its disk comes and which is that disk's count again once it is back.
pub trait Shelf {
    /// The disks that it gives.
    type D: Disk + Drop;

    /// Whether clauses are told what it holds: over memory they are, over real files they are not.
    ghost tells: { Type 0 };

    /// The bytes of the file of a name, where there is one and clauses are told.
    ghost file: { Self → List ℕ → Option (List ℕ) };

    /// The disk that it holds under a name, where there is one and clauses are told.
    ghost disk: { Self → List ℕ → Option Self.D };

    /// The disk of this name was taken and isn't back.
    ghost is_out: { Self → List ℕ → Bool };

    /// The count of faults of the disk of a name, as it was when the shelf last had it: where a
    /// disk is given back that was taken, it doesn't fall.
    ghost disk_faults: { Self → List ℕ → ℕ };

    /// The count of faults, which doesn't fall.
    ghost faults: { Self → ℕ };

    /// The names of the files that were looked at, in order, where clauses are told.
    ghost looked: { Self → List (List ℕ) };

    /// What stays the same of it, so that who lent it something knows what he has back.
    ghost lent: { Self → Lent };

    /// Reads the file of this name whole.
    fn read_file(&mut self, alloc: Global, name: &str) -> Result<Vec<u8>, ShelfError>
        ensures read { tells → IfOk result (λ bytes. file self.old name.now ≡ Some bytes.items) }
        ensures missing { tells → IsErrOf result ShelfError.Missing
            → file self.old name.now ≡ None }
        ensures looked { tells → OnOk result (looked self.new ≡ looked self.old ++ name.now ∷ []) }
        ensures refused { tells
            → OnErr result (Looks name.now (looked self.old) (looked self.new)) }
        ensures files { (name : List ℕ) → file self.new name ≡ file self.old name }
        ensures disks { SameNames (disk self.old) (disk self.new) }
        ensures out { SameNames (is_out self.old) (is_out self.new) }
        ensures disk_faults { SameNames (disk_faults self.old) (disk_faults self.new) }
        ensures lent { lent self.new ≡ lent self.old }
        ensures later { faults self.old ≤ faults self.new }
        ensures cause { IsErrOf result ShelfError.Failed
            → Rose (faults self.old) (faults self.new) };

    /// Takes the disk of this name. Where there is none it makes one without bytes, so that it
    /// never answers Missing. Nothing was told of a record of it yet.
    fn take_disk(&mut self, alloc: Global, name: &str) -> Result<Self::D, ShelfError>
        requires { is_out self.old name.now ≡ false }
        ensures taken { tells
            → IfOk result (IsTaken Self.D.reads Self.D.image (disk self.old name.now)) }
        ensures count { IfOk result (λ taken. Self.D.faults taken ≡ disk_faults self.old name.now) }
        ensures origin { IfOk result
            (λ taken. Self.D.origin taken ≡ (lent self.old).origin name.now) }
        ensures unheard { IfOk result (λ taken. HeardNothing (Self.D.heard taken)) }
        ensures gone { tells → OnOk result (disk self.new name.now ≡ None) }
        ensures disks { SameOthers name.now (disk self.old) (disk self.new) }
        ensures out { OnOk result (is_out self.new name.now ≡ true) }
        ensures others_out { SameOthers name.now (is_out self.old) (is_out self.new) }
        ensures disk_faults { SameNames (disk_faults self.old) (disk_faults self.new) }
        ensures files { (name : List ℕ) → file self.new name ≡ file self.old name }
        ensures looked { looked self.new ≡ looked self.old }
        ensures lent { lent self.new ≡ lent self.old }

        // A refusal leaves every disk where it was.
        ensures refused_disks { OnErr result (SameNames (disk self.old) (disk self.new)) }
        ensures refused_out { OnErr result (SameNames (is_out self.old) (is_out self.new)) }
        ensures found { IsErrOf result ShelfError.Missing → ⊥ }
        ensures later { faults self.old ≤ faults self.new }
        ensures cause { IsErrOf result ShelfError.Failed
            → Rose (faults self.old) (faults self.new) };

    /// Puts a disk that was taken back to its place. It takes no memory.
    fn give_disk(&mut self, name: &str, taken: Self::D)
        requires out { is_out self.old name.now ≡ true }

        // It is the disk of this name.
        requires own { Self.D.origin taken ≡ (lent self.old).origin name.now }
        ensures held { tells → disk self.new name.now ≡ Some taken }
        ensures disks { SameOthers name.now (disk self.old) (disk self.new) }
        ensures back { is_out self.new name.now ≡ false }
        ensures others_out { SameOthers name.now (is_out self.old) (is_out self.new) }
        ensures count { disk_faults self.new name.now ≡ Self.D.faults taken }
        ensures other_counts { SameOthers name.now (disk_faults self.old) (disk_faults self.new) }
        ensures files { (name : List ℕ) → file self.new name ≡ file self.old name }
        ensures looked { looked self.new ≡ looked self.old }
        ensures lent { lent self.new ≡ lent self.old }
        ensures faults { faults self.new ≡ faults self.old };

    /// A shelf that tells its disks gives disks that tell their bytes.
    ghost tells_disks: { tells → Self.D.tells };
}
