//! The files of the system as a shelf. Clauses aren't told what they hold.
ghost use Rattle.std.specs.Prelude.{◌≡◌, ◌≢◌, ◌≤◌, [], List, ℕ, Some, None, true, false, IfOk};
ghost use Rattle.std.specs.Prelude.{IfErr, IfSome, OnOk, IsErrOf};
ghost use Rattle.outside.specs.Faults.{Rose};
ghost use Rattle.outside.specs.Places.{at_name};
ghost use Rattle.outside.specs.Shelf.{SameNames, SameOthers, nothing_lent};
ghost use Rattle.real_edge.specs.Kept.{faults_kept};
ghost use Rattle.real_edge.specs.Refusals.{opening_refusal, reading_refusal};

use crate::disks::regular_length;
use crate::{FileDisk, Lockable};
use outside::{Places, Shelf, ShelfError};
use std::alloc::{AllocError, Global};
use std::fs::{self, OpenFile, OpenOptions};
use std::io::{self, ErrorKind, Read};
use std::path::Path;
use std::rt::Files;

// What a shelf keeps of a disk that it gave.
#[derive(Drop)]
struct Kept {
    is_out: bool,
    faults: u64,
}

/// The files that a runtime reaches, each by its path, also as a disk. A call that fails is counted
/// and isn't tried again. A disk that comes back is closed, and only its count is kept, so that a
/// disk which failed is still known for one when it is taken again.
///
/// A disk is a regular file; a pipe or a device isn't given as one. Where its file is empty, it may
/// just have been made:
/// its directory is synced before it is given, since a crash may otherwise take the name of a file
/// that was synced. That is the directory of its path, also where the path is a link to a file
/// elsewhere.
///
/// A disk that is given is locked until it is back, so that a second process, or a second name of
/// the same file, doesn't write to it: where the lock is refused, taking the disk fails. The disks
/// of a shelf for reading take no lock, and each write to one fails.
#[derive(Drop)]
pub struct FileShelf<'r, R> {
    runtime: &'r R,
    disks: Places<Kept>,
    writable: bool,
    faults: u64,
}

impl<'r, R> FileShelf<'r, R> {
    ghost use Rattle.real_edge.specs.Counts.{shelf_faults, is_file_out, file_faults};

    /// A shelf that hasn't failed and has given no disk.
    pub fn new(alloc: Global, runtime: &'r R) -> Self
        ensures faultless { shelf_faults result ≡ 0 }
        ensures none_out { (name : List ℕ) → is_file_out result name ≡ false }
        ensures counts { (name : List ℕ) → file_faults result name ≡ 0 }
    {
        FileShelf {
            runtime,
            disks: Places::new(alloc),
            writable: true,
            faults: 0,
        }
    }

    /// A shelf that hasn't failed and has given no disk, whose disks are for reading.
    pub fn for_reading(alloc: Global, runtime: &'r R) -> Self
        ensures faultless { shelf_faults result ≡ 0 }
        ensures none_out { (name : List ℕ) → is_file_out result name ≡ false }
        ensures counts { (name : List ℕ) → file_faults result name ≡ 0 }
    {
        FileShelf {
            runtime,
            disks: Places::new(alloc),
            writable: false,
            faults: 0,
        }
    }

    /// How often it failed.
    pub fn faults(&self) -> u64
        ensures { result ≡ shelf_faults self.now }
    {
        self.faults
    }
}

impl<R: Files> Shelf for FileShelf<'_, R>
where
    R::File: Lockable,
{
    ghost use Rattle.real_edge.specs.Counts.{shelf_faults, is_file_out, file_faults};

    type D = FileDisk<R::File>;

    ghost tells = { ⊥ };

    ghost file = { λ shelf name. None };

    ghost disk = { λ shelf name. None };

    ghost is_out = { is_file_out };

    ghost disk_faults = { file_faults };

    ghost faults = { shelf_faults };

    ghost looked = { λ shelf. [] };

    ghost lent = { λ shelf. nothing_lent };

    ghost tells_disks = { λ told. told };

    fn read_file(&mut self, alloc: Global, name: &str) -> Result<Vec<u8>, ShelfError> {
        counted(bytes_of(self.runtime, alloc, name), &mut self.faults)
    }

    fn take_disk(&mut self, alloc: Global, name: &str) -> Result<FileDisk<R::File>, ShelfError> {
        let file = counted(open_disk(self.runtime, name), &mut self.faults)?;
        if self.writable {
            counted(lock(&file), &mut self.faults)?;
        }
        counted(settle_name(self.runtime, name, &file), &mut self.faults)?;
        let faults = keep_place(alloc, &mut self.disks, name)?;
        if self.writable {
            Ok(FileDisk::new(file, faults))
        } else {
            Ok(FileDisk::for_reading(file, faults))
        }
    }

    fn give_disk(&mut self, name: &str, taken: FileDisk<R::File>) {
        let (is_out, faults) = (false, taken.faults());
        let _out = self.disks.replace(name, Kept { is_out, faults });
    }
}

// What a call answers; a refusal that is a failure is counted.
fn counted<T>(answer: Result<T, ShelfError>, faults: &mut u64) -> Result<T, ShelfError>
    ensures same { result ≡ answer }
    ensures later { faults.old ≤ faults.new }
    ensures cause { IsErrOf result ShelfError.Failed → Rose faults.old faults.new }
    ensures steady { OnOk result (faults.new ≡ faults.old) }
{
    match answer {
        Ok(value) => Ok(value),
        Err(refusal) => {
            if refusal == ShelfError::Failed {
                *faults = faults.saturating_add(1);
            }
            Err(refusal)
        }
    }
}

// Keeps the place of a disk that is given, and answers its count of faults.
fn keep_place(alloc: Global, disks: &mut Places<Kept>, name: &str) -> Result<u64, ShelfError>
    ensures count { IfOk result (λ faults. faults ≡ faults_kept (at_name disks.old name.now)) }
    ensures place { IfOk result (λ faults. at_name disks.new name.now ≡ Some (record {
      is_out =
          true;
      faults = faults;
    })) }
    ensures others { SameOthers name.now (at_name disks.old) (at_name disks.new) }
    ensures refused { IfErr result (λ refusal. (refusal ≡ ShelfError.Memory)
        × SameNames (at_name disks.old) (at_name disks.new)) }
{
    let faults = match disks.get(name) {
        Some(kept) => kept.faults,
        None => 0,
    };
    let is_out = true;
    match disks.set(alloc, name, Kept { is_out, faults }) {
        Ok(()) => Ok(faults),
        Err(AllocError) => Err(ShelfError::Memory),
    }
}

// The file of a path, for reading and writing. It is made where there is none, so that what can't
// be found is its directory, and that is a failure.
fn open_disk<R: Files>(runtime: &R, path: &str) -> Result<R::File, ShelfError>
    ensures { IfErr result (λ refusal. refusal ≢ ShelfError.Missing) }
{
    let mut options = OpenOptions::new();
    options.read(true).write(true).create(true);
    match options.open(runtime, path) {
        Ok(file) => Ok(file),
        Err(error) => Err(reading_refusal(error.kind())),
    }
}

// Locks an open file, where no other opening of it has the lock.
fn lock<F: Lockable>(file: &F) -> Result<(), ShelfError>
    ensures { IfErr result (λ refusal. refusal ≡ ShelfError.Failed) }
{
    match file.lock_alone() {
        Ok(()) => Ok(()),
        Err(_) => Err(ShelfError::Failed),
    }
}

// Refuses what is no regular file, and syncs the directory of an open file that has no bytes. Each
// opening does so until it has some, since the one that made the file may have been cut off before.
fn settle_name<R: Files>(runtime: &R, path: &str, file: &R::File) -> Result<(), ShelfError>
    ensures { IfErr result (λ refusal. refusal ≢ ShelfError.Missing) }
{
    match sync_name(runtime, path, file) {
        Ok(()) => Ok(()),
        Err(error) => Err(reading_refusal(error.kind())),
    }
}

fn sync_name<R: Files>(runtime: &R, path: &str, file: &R::File) -> io::Result<()> {
    if regular_length(&file.metadata()?)? > 0 {
        return Ok(());
    }
    fs::open(runtime, directory_of(path))?.sync_all()
}

// The directory of the file of a path.
fn directory_of(path: &str) -> &str {
    match Path::new(path).parent() {
        Some(directory) if !directory.as_str().is_empty() => directory.as_str(),
        _ => ".",
    }
}

// All bytes of the file of a path. A directory can be opened and can't be read.
fn bytes_of<R: Files>(runtime: &R, alloc: Global, path: &str) -> Result<Vec<u8>, ShelfError> {
    let mut file = fs::open(runtime, path).map_err(|error| opening_refusal(error.kind()))?;
    read_whole(alloc, &mut file)
}

/// All bytes that a file has. An opened file isn't missing.
pub(crate) fn read_whole<F: Read>(alloc: Global, file: &mut F) -> Result<Vec<u8>, ShelfError>
    ensures whole { IfOk result
        (λ bytes. IfSome (F.remaining file.old) (λ held. bytes.items ≡ held)) }
    ensures opened { IfErr result (λ refusal. refusal ≢ ShelfError.Missing) }
{
    let mut bytes = Vec::new(alloc);
    match file.read_to_end(&mut bytes) {
        Ok(_) => Ok(bytes),
        Err(error) => Err(reading_refusal(error.kind())),
    }
}

// Why a file wasn't opened.
fn opening_refusal(kind: ErrorKind) -> ShelfError
    ensures { result ≡ opening_refusal kind }
{
    if kind == ErrorKind::NotFound {
        ShelfError::Missing
    } else {
        reading_refusal(kind)
    }
}

// Why an opened file wasn't read, or a disk wasn't opened.
fn reading_refusal(kind: ErrorKind) -> ShelfError
    ensures { result ≡ reading_refusal kind }
{
    match kind {
        ErrorKind::OutOfMemory => ShelfError::Memory,
        _ => ShelfError::Failed,
    }
}
