//! A disk of which a standby has a copy.
ghost use Rattle.std.specs.Prelude.{◌≡◌, ◌<◌, ◌≤◌, ◌+◌, ◌^◌, List, ℕ, length, OnOk};
ghost use Rattle.outside.specs.Disk.{HearsAtMost};
ghost use Rattle.outside.specs.Faults.{HasCause};

use crate::Mirror;
use outside::{Dial, Disk, Failed};

/// A disk with a mirror: the mark of a record may be told once its dial was answered a count above
/// the record's number. Each call but `tell` is that of the disk under it. Its faults are those of
/// the disk and those of the dial. One without a mirror is as the disk under it; a `MirroredShelf`
/// gives none.
#[derive(Drop)]
pub struct MirroredDisk<D, C: Dial> {
    inner: D,
    mirror: Option<Mirror<C>>,
}

impl<D, C: Dial> MirroredDisk<D, C> {
    ghost use Rattle.standby_core.specs.MirroredDisks.{inner_of, mirror_of, mirrored};
    ghost use Rattle.standby_core.specs.MirroredDisks.{told_by, faults_by, origin_with, heard_by};

    /// A disk with a mirror, or without one.
    pub fn new(inner: D, mirror: Option<Mirror<C>>) -> Self
        ensures { result ≡ mirrored inner mirror }
    {
        MirroredDisk { inner, mirror }
    }

    /// The disk and the mirror.
    pub fn split(self) -> (D, Option<Mirror<C>>)
        ensures { self ≡ mirrored result.0 result.1 }
    {
        let MirroredDisk { inner, mirror } = self;
        (inner, mirror)
    }

    // Tells the standby of a record, where there is one.
    fn ask(&mut self, number: u64, kind: u8, text: &[u8]) -> Result<(), Failed>
        requires low { 1 ≤ kind }
        requires high { kind ≤ 5 }
        requires short { length text.now ≤ 4096 }
        requires few { number + 1 < 2 ^ 64 }
        ensures inner { inner_of self.new ≡ inner_of self.old }
        ensures origin { (below : List (List ℕ))
            → origin_with C.name C.address (mirror_of self.new) below
            ≡ origin_with C.name C.address (mirror_of self.old) below }
        ensures above { OnOk result (number < told_by C.answered (mirror_of self.new)) }
        ensures tellable { told_by C.answered (mirror_of self.old)
            ≤ told_by C.answered (mirror_of self.new) }
        ensures heard { HearsAtMost number (kind, text.now)
            (heard_by C.tells C.exchanged (mirror_of self.old))
            (heard_by C.tells C.exchanged (mirror_of self.new)) }
        ensures cause { HasCause (faults_by C.faults (mirror_of self.old))
            (faults_by C.faults (mirror_of self.new)) result }
    {
        match &mut self.mirror {
            Some(mirror) => mirror.tell(number, kind, text),
            None => Ok(()),
        }
    }
}

impl<D: Disk, C: Dial> Disk for MirroredDisk<D, C> {
    ghost use Rattle.standby_core.specs.MirroredDisks.{inner_of, mirror_of, told_by, faults_by};
    ghost use Rattle.standby_core.specs.MirroredDisks.{origin_with, heard_by};

    ghost tells = { D.tells };

    ghost reads = { λ disk. D.reads (inner_of disk) };

    ghost image = { λ disk. D.image (inner_of disk) };

    ghost moment = { λ disk. D.moment (inner_of disk) };

    ghost image_since = { λ disk. D.image_since (inner_of disk) };

    ghost faults = { λ disk. D.faults (inner_of disk) + faults_by C.faults (mirror_of disk) };

    ghost tellable = { λ disk. told_by C.answered (mirror_of disk) };

    ghost heard = { λ disk. heard_by C.tells C.exchanged (mirror_of disk) };

    ghost origin = { λ disk. origin_with C.name C.address (mirror_of disk)
        (D.origin (inner_of disk)) };

    ghost read_is_image = { λ disk told. D.read_is_image (inner_of disk) told };

    ghost counts_now = { λ disk t c le now. D.counts_now (inner_of disk) t c le now };

    ghost only_now = { λ disk c since. D.only_now (inner_of disk) c since };

    fn length(&mut self) -> Result<u64, Failed> {
        self.inner.length()
    }

    fn read_at(&mut self, at: u64, into: &mut [u8]) -> Result<usize, Failed> {
        self.inner.read_at(at, into)
    }

    fn write_at(&mut self, at: u64, bytes: &[u8]) -> Result<(), Failed> {
        self.inner.write_at(at, bytes)
    }

    fn sync(&mut self) -> Result<(), Failed> {
        self.inner.sync()
    }

    /// Answers at once where the standby is known to have the record, and else where it answers
    /// that it has.
    fn tell(&mut self, number: u64, kind: u8, text: &[u8]) -> Result<(), Failed> {
        self.ask(number, kind, text)
    }
}
