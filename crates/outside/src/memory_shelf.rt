//! A shelf in memory.
ghost use Rattle.std.specs.Prelude.{◌≡◌, ◌≤◌, ◌++◌, ◌∷◌, [], List, ℕ, Some, None, true, false};
ghost use Rattle.std.specs.Prelude.{IfOk, IfSome, IfNone, OnErr, OnOk, IfErr, IsErrOf, map};
ghost use Rattle.std.specs.Prelude.{option_copied, string_bytes};
ghost use Rattle.outside.specs.Faults.{Rose};
ghost use Rattle.outside.specs.Shelf.{SameNames, SameOthers, IsTaken, nothing_lent};
ghost use Rattle.outside.specs.MemoryFiles.{file_among};
ghost use Rattle.outside.specs.MemoryDisks.{held_at, out_at};
ghost use Rattle.outside.specs.Places.{at_name};
ghost use Rattle.outside.specs.MemoryDisk.{memory_faults, IsFresh};

use crate::{MemoryDisk, Places, Plan, Shelf, ShelfError};
use std::alloc::{AllocError, Global};

/// A file in memory.
#[derive(Drop)]
pub struct MemoryFile {
    name: String,
    bytes: Vec<u8>,
}

// What stands under the name of a disk.
#[derive(Drop)]
enum Place {
    Here(MemoryDisk),
    // The disk was taken, with this count of faults.
    Out(u64),
}

/// A shelf of files and disks in memory, whose calls fail by a plan.
#[derive(Drop)]
pub struct MemoryShelf {
    files: Vec<MemoryFile>,
    disks: Places<Place>,
    looked: Vec<String>,
    plan: Plan,
    calls: u64,
    faults: u64,
}

impl MemoryShelf {
    ghost use Rattle.outside.specs.MemoryShelves.{file_named, shelf_faults, files_of};
    ghost use Rattle.outside.specs.MemoryShelves.{files_looked_at, disk_named, is_disk_out};
    ghost use Rattle.outside.specs.MemoryShelves.{disk_faults_of};
    ghost use Rattle.outside.specs.MemoryDisk.{memory_faults};

    /// A shelf without files and disks that never fails.
    pub fn new(alloc: Global) -> Self
        ensures empty { files_of result ≡ [] }
        ensures no_disks { (name : List ℕ) → disk_named result name ≡ None }
        ensures none_out { (name : List ℕ) → is_disk_out result name ≡ false }
        ensures counts { (name : List ℕ) → disk_faults_of result name ≡ 0 }
        ensures faultless { shelf_faults result ≡ 0 }
        ensures unread { files_looked_at result ≡ [] }
    {
        Self::with_plan(alloc, Plan::Never)
    }

    /// A shelf without files and disks whose calls fail by plan. A call that gives a disk back
    /// can't fail and isn't counted.
    pub fn with_plan(alloc: Global, plan: Plan) -> Self
        ensures empty { files_of result ≡ [] }
        ensures no_disks { (name : List ℕ) → disk_named result name ≡ None }
        ensures none_out { (name : List ℕ) → is_disk_out result name ≡ false }
        ensures counts { (name : List ℕ) → disk_faults_of result name ≡ 0 }
        ensures faultless { shelf_faults result ≡ 0 }
        ensures unread { files_looked_at result ≡ [] }
    {
        MemoryShelf {
            files: Vec::new(alloc),
            disks: Places::new(alloc),
            looked: Vec::new(alloc),
            plan,
            calls: 0,
            faults: 0,
        }
    }

    /// Puts a file behind those that are there. Of two files of one name the first is read.
    pub fn put(&mut self, alloc: Global, name: &str, bytes: &[u8]) -> Result<(), AllocError>
        ensures added { OnOk result
            (files_of self.new ≡ files_of self.old ++ (name.now, bytes.now) ∷ []) }
        ensures refused { OnErr result (files_of self.new ≡ files_of self.old) }
        ensures disks { SameNames (disk_named self.old) (disk_named self.new) }
        ensures out { SameNames (is_disk_out self.old) (is_disk_out self.new) }
        ensures counts { SameNames (disk_faults_of self.old) (disk_faults_of self.new) }
        ensures faults { shelf_faults self.new ≡ shelf_faults self.old }
        ensures looked { files_looked_at self.new ≡ files_looked_at self.old }
    {
        let name = String::from_str(alloc, name)?;
        let bytes = bytes.to_vec(alloc)?;
        self.files.push(MemoryFile { name, bytes })?;
        Ok(())
    }

    /// Puts a disk in the place of the one of this name, if there is one.
    pub fn put_disk(
        &mut self,
        alloc: Global,
        name: &str,
        disk: MemoryDisk,
    ) -> Result<(), AllocError>
        requires { is_disk_out self.old name.now ≡ false }
        ensures held { OnOk result (disk_named self.new name.now ≡ Some disk) }
        ensures disks { SameOthers name.now (disk_named self.old) (disk_named self.new) }
        ensures out { SameNames (is_disk_out self.old) (is_disk_out self.new) }
        ensures count { OnOk result (disk_faults_of self.new name.now ≡ memory_faults disk) }
        ensures other_counts { SameOthers name.now (disk_faults_of self.old)
            (disk_faults_of self.new) }
        ensures refused { OnErr result (SameNames (disk_named self.old) (disk_named self.new)) }
        ensures refused_counts { OnErr result
            (SameNames (disk_faults_of self.old) (disk_faults_of self.new)) }
        ensures files { files_of self.new ≡ files_of self.old }
        ensures faults { shelf_faults self.new ≡ shelf_faults self.old }
        ensures looked { files_looked_at self.new ≡ files_looked_at self.old }
    {
        self.disks.set(alloc, name, Place::Here(disk))
    }

    /// The disk of a name, where the shelf holds one.
    pub fn disk(&self, name: &str) -> Option<&MemoryDisk>
        ensures { option_copied result ≡ disk_named self.now name.now }
    {
        match self.disks.get(name)? {
            Place::Here(disk) => Some(disk),
            Place::Out(_) => None,
        }
    }

    /// The names of the files that were looked at, in order.
    pub fn looked(&self) -> &[String]
        ensures { map string_bytes result.now ≡ files_looked_at self.now }
    {
        self.looked.as_slice()
    }

    /// The count of faults.
    pub fn faults(&self) -> u64
        ensures { result ≡ shelf_faults self.now }
    {
        self.faults
    }
}

impl Shelf for MemoryShelf {
    ghost use Rattle.outside.specs.MemoryShelves.{file_named, files_looked_at, shelf_faults};
    ghost use Rattle.outside.specs.MemoryShelves.{disk_named, is_disk_out, disk_faults_of};

    type D = MemoryDisk;

    ghost tells = { Unit {0} };

    ghost file = { file_named };

    ghost disk = { disk_named };

    ghost is_out = { is_disk_out };

    ghost disk_faults = { disk_faults_of };

    ghost faults = { shelf_faults };

    ghost looked = { files_looked_at };

    ghost lent = { λ shelf. nothing_lent };

    ghost tells_disks = { λ told. told };

    fn read_file(&mut self, alloc: Global, name: &str) -> Result<Vec<u8>, ShelfError> {
        keep_name(alloc, &mut self.looked, name)?;
        count_call(&self.plan, &mut self.calls, &mut self.faults)?;
        copied(alloc, &self.files, name)
    }

    fn take_disk(&mut self, alloc: Global, name: &str) -> Result<MemoryDisk, ShelfError> {
        count_call(&self.plan, &mut self.calls, &mut self.faults)?;
        match take_from(&mut self.disks, name) {
            Some(disk) => Ok(disk),
            None => make_disk(alloc, &mut self.disks, name),
        }
    }

    fn give_disk(&mut self, name: &str, taken: MemoryDisk) {
        let _out = self.disks.replace(name, Place::Here(taken));
    }
}

// Keeps one more name.
fn keep_name(alloc: Global, names: &mut Vec<String>, name: &str) -> Result<(), ShelfError>
    ensures kept { OnOk result (map string_bytes names.new.items
        ≡ map string_bytes names.old.items ++ name.now ∷ []) }
    ensures refused { OnErr result (names.new.items ≡ names.old.items) }
    ensures memory { IfErr result (λ why. why ≡ ShelfError.Memory) }
{
    let Ok(name) = String::from_str(alloc, name) else {
        return Err(ShelfError::Memory);
    };
    match names.push(name) {
        Ok(()) => Ok(()),
        Err(_) => Err(ShelfError::Memory),
    }
}

// Counts a call, and refuses it where the plan says so.
fn count_call(plan: &Plan, calls: &mut u64, faults: &mut u64) -> Result<(), ShelfError>
    ensures later { faults.old ≤ faults.new }
    ensures cause { IfErr result (λ why. (why ≡ ShelfError.Failed) × Rose faults.old faults.new) }
{
    let call = *calls;
    *calls = calls.saturating_add(1);
    if plan.fails(call) {
        *faults = faults.saturating_add(1);
        return Err(ShelfError::Failed);
    }
    Ok(())
}

// A copy of the bytes of the first file of this name.
fn copied(alloc: Global, files: &[MemoryFile], name: &str) -> Result<Vec<u8>, ShelfError>
    ensures read { IfOk result (λ bytes. file_among files.now name.now ≡ Some bytes.items) }
    ensures missing { IsErrOf result ShelfError.Missing → file_among files.now name.now ≡ None }
    ensures memory { IsErrOf result ShelfError.Failed → ⊥ }
{
    let Some((file, others)) = files.split_first() else {
        return Err(ShelfError::Missing);
    };
    if file.name.as_str() != name {
        return copied(alloc, others, name);
    }
    match file.bytes.to_vec(alloc) {
        Ok(bytes) => Ok(bytes),
        Err(AllocError) => Err(ShelfError::Memory),
    }
}

impl Place {
    ghost use Rattle.outside.specs.MemoryDisks.{faults_at};

    // The count of faults of its disk, as it was when it was last there.
    fn faults(&self) -> u64
        ensures { result ≡ faults_at (Some self.now) }
    {
        match self {
            Place::Here(disk) => disk.faults(),
            Place::Out(faults) => *faults,
        }
    }
}

// Takes the disk of a name, where there is one, and keeps its place.
fn take_from(disks: &mut Places<Place>, name: &str) -> Option<MemoryDisk>
    requires { out_at (at_name disks.old name.now) ≡ false }
    ensures taken { result ≡ held_at (at_name disks.old name.now) }
    ensures place { IfSome result (λ disk. at_name disks.new name.now
        ≡ Some (Place.Out (memory_faults disk))) }
    ensures none { IfNone result (SameNames (at_name disks.old) (at_name disks.new)) }
    ensures others { SameOthers name.now (at_name disks.old) (at_name disks.new) }
{
    let faults = disks.get(name)?.faults();
    match disks.replace(name, Place::Out(faults)) {
        Place::Here(disk) => Some(disk),
        Place::Out(_) => None,
    }
}

// Makes a disk without bytes that is out from the beginning.
fn make_disk(alloc: Global, disks: &mut Places<Place>, name: &str) -> Result<MemoryDisk, ShelfError>
    ensures fresh { IfOk result (IsFresh []) }
    ensures place { OnOk result (at_name disks.new name.now ≡ Some (Place.Out 0)) }
    ensures refused { OnErr result (SameNames (at_name disks.old) (at_name disks.new)) }
    ensures others { SameOthers name.now (at_name disks.old) (at_name disks.new) }
    ensures memory { IfErr result (λ why. why ≡ ShelfError.Memory) }
{
    let Ok(disk) = MemoryDisk::new(alloc, Vec::new(alloc)) else {
        return Err(ShelfError::Memory);
    };
    match disks.set(alloc, name, Place::Out(0)) {
        Ok(()) => Ok(disk),
        Err(AllocError) => Err(ShelfError::Memory),
    }
}
