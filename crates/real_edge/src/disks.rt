//! A file of the system as a disk. Clauses aren't told what it holds.
ghost use Rattle.std.specs.Prelude.{◌≡◌, ◌≤◌, ◌^◌, [], length, true, false, IfOk, OnOk, Ok};
ghost use Rattle.std.specs.Fs.{metadata_len, file_type, IsFile};
ghost use Rattle.outside.specs.Faults.{HasCause};

use outside::{Disk, Failed};
use std::fs::{Metadata, OpenFile};
use std::io::{self, ErrorKind, Read, Seek, SeekFrom, Write};

/// An open file as a disk. A call that fails is counted and isn't tried again, and behind it no
/// sync succeeds. A system may take what it couldn't write for written, so that its next sync says
/// that all is well although bytes never reached the disk.
///
/// What is no regular file, as a pipe or a device, has no length: that of the system would be 0, as
/// of an empty file.
///
/// One for reading fails at each write, before the system sees it.
#[derive(Drop)]
pub struct FileDisk<F> {
    file: F,
    writable: bool,
    faults: u64,
}

impl<F> FileDisk<F> {
    ghost use Rattle.real_edge.specs.Counts.{disk_faults, is_writable};

    /// A disk over an open file, with this count of faults. Where it isn't 0, no sync succeeds.
    pub fn new(file: F, faults: u64) -> Self
        ensures count { disk_faults result ≡ faults }
        ensures writable { is_writable result ≡ true }
    {
        let writable = true;
        FileDisk {
            file,
            writable,
            faults,
        }
    }

    /// A disk over an open file to which nothing is written, with this count of faults.
    pub fn for_reading(file: F, faults: u64) -> Self
        ensures count { disk_faults result ≡ faults }
        ensures writable { is_writable result ≡ false }
    {
        let writable = false;
        FileDisk {
            file,
            writable,
            faults,
        }
    }

    /// How often it failed.
    pub fn faults(&self) -> u64
        ensures { result ≡ disk_faults self.now }
    {
        self.faults
    }
}

impl<F: Read + Write + Seek + OpenFile> Disk for FileDisk<F> {
    ghost use Rattle.real_edge.specs.Counts.{disk_faults, is_writable};

    ghost tells = { ⊥ };

    ghost reads = { λ disk. [] };

    ghost image = { λ disk c. ⊥ };

    ghost moment = { λ disk. 0 };

    ghost image_since = { λ disk t c. ⊥ };

    ghost faults = { disk_faults };

    ghost tellable = { λ disk. 2 ^ 64 };

    ghost heard = { λ disk number one. ⊥ };

    ghost origin = { λ disk. [] };

    ghost read_is_image = { λ disk told. told };

    ghost counts_now = { λ disk t c le now. now };

    ghost only_now = { λ disk c since. since };

    fn length(&mut self) -> Result<u64, Failed> {
        counted(length_of(&self.file), &mut self.faults)
    }

    fn read_at(&mut self, at: u64, into: &mut [u8]) -> Result<usize, Failed> {
        counted(read_from(&mut self.file, at, into), &mut self.faults)
    }

    /// The system's write, where the disk isn't for reading alone.
    fn write_at(&mut self, at: u64, bytes: &[u8]) -> Result<(), Failed>
        ensures writable { OnOk result (is_writable self.old ≡ true) }
        ensures cause { HasCause (disk_faults self.old) (disk_faults self.new) result }
    {
        let written = if self.writable {
            write_to(&mut self.file, at, bytes)
        } else {
            Err(io::Error::from(ErrorKind::PermissionDenied))
        };
        counted(written, &mut self.faults)
    }

    /// The system's sync, where no call of this file has failed, also while it was taken before.
    fn sync(&mut self) -> Result<(), Failed>
        ensures lasting { OnOk result (disk_faults self.old ≡ 0) }
        ensures cause { HasCause (disk_faults self.old) (disk_faults self.new) result }
    {
        counted(sync_unfailed(&self.file, self.faults), &mut self.faults)
    }

    fn tell(&mut self, _number: u64, _kind: u8, _text: &[u8]) -> Result<(), Failed> {
        Ok(())
    }
}

// What a call answers, which is counted where it failed.
fn counted<T>(answer: io::Result<T>, faults: &mut u64) -> Result<T, Failed>
    ensures value { IfOk result (λ value. answer ≡ Ok value) }
    ensures cause { HasCause faults.old faults.new result }
    ensures steady { OnOk result (faults.new ≡ faults.old) }
{
    match answer {
        Ok(value) => Ok(value),
        Err(_) => {
            *faults = faults.saturating_add(1);
            Err(Failed)
        }
    }
}

// Syncs a file with this count of faults.
fn sync_unfailed<F: OpenFile>(file: &F, faults: u64) -> io::Result<()>
    ensures { OnOk result (faults ≡ 0) }
{
    if faults > 0 {
        return Err(io::Error::from(ErrorKind::Other));
    }
    file.sync_all()
}

// How many bytes an open file has, where it is a regular file.
fn length_of<F: OpenFile>(file: &F) -> io::Result<u64> {
    regular_length(&file.metadata()?)
}

/// How many bytes a file has, where it is a regular file. What the system says of another isn't how
/// many bytes are read from it.
pub(crate) fn regular_length(metadata: &Metadata) -> io::Result<u64>
    ensures regular { OnOk result (IsFile (file_type metadata.now)) }
    ensures length { IfOk result (λ n. n ≡ metadata_len metadata.now) }
{
    if metadata.is_file() {
        Ok(metadata.len())
    } else {
        Err(io::Error::from(ErrorKind::InvalidInput))
    }
}

// Fills the piece from that place of a file on, less only where the file ends.
fn read_from<F: Read + Seek>(file: &mut F, at: u64, into: &mut [u8]) -> io::Result<usize>
    ensures { IfOk result (λ n. n ≤ length into.old) }
{
    file.seek(SeekFrom::Start(at))?;
    let mut filled = 0;
    while filled < into.len() {
        let count = file.read(&mut into[filled..])?;
        if count == 0 {
            break;
        }
        filled += count;
    }
    Ok(filled)
}

// Writes the whole piece from that place of a file on.
fn write_to<F: Write + Seek>(file: &mut F, at: u64, bytes: &[u8]) -> io::Result<()> {
    file.seek(SeekFrom::Start(at))?;
    file.write_all(bytes)
}
