//! A shelf whose disks a standby copies.
ghost use Rattle.std.specs.Prelude.{◌≡◌, ◌+◌, List, ℕ, false, map, None};
ghost use Rattle.outside.specs.Shelf.{NoneOut};
ghost use Rattle.standby_core.specs.Places.{faults_in, count_in, is_away};
ghost use Rattle.standby_core.specs.MirrorSets.{slots_of, DialsSilent};
ghost use Rattle.standby_core.specs.Slots.{slot_texts, place_at, made_at, mirrored_at};
ghost use Rattle.standby_core.specs.Slots.{mirrored_lent, HavePlaces, HaveMirrors};

use crate::{MirroredDisk, Mirrors};
use outside::{Dial, Shelf, ShelfError};
use std::alloc::Global;

/// A shelf that was lent, whose disks are given with the mirrors of their names. A name without a
/// mirror has no disk here, and a disk is given once: each other call of `take_disk` answers that
/// memory was wanting.
///
/// The count of faults of a name is there that of its disk and that of its dial together. Where the
/// shelf holds no disk under a name, its dial has exchanged nothing. What the
/// shelf holds under a name is the disk that the lent shelf holds, with the mirror.
#[derive(Drop)]
pub struct MirroredShelf<'a, F: Shelf, C: Dial> {
    shelf: &'a mut F,
    mirrors: &'a mut Mirrors<C>,
    ghost there: { HavePlaces (F.is_out shelf.now) (slots_of mirrors.now) },
    ghost back: { HaveMirrors (F.is_out shelf.now) (slots_of mirrors.now) },
    ghost unused: { F.tells → C.tells → (name : List ℕ) → F.disk shelf.now name ≡ None
        → F.is_out shelf.now name ≡ false
        → count_in C.exchanged (place_at (slots_of mirrors.now) name) ≡ 0 },
}

impl<'a, F: Shelf, C: Dial> MirroredShelf<'a, F, C> {
    /// No disk of the shelf is out yet, nor is a mirror. It takes no memory.
    pub fn new(shelf: &'a mut F, mirrors: &'a mut Mirrors<C>) -> Self
        requires inside { NoneOut (F.is_out shelf.old) }
        requires there { (name : List ℕ) → is_away (place_at (slots_of mirrors.old) name) ≡ false }
        requires silent { DialsSilent C.tells C.exchanged mirrors.old }
        ensures same_shelf { result.shelf.ghost_name ≡ shelf.entry.ghost_name }
        ensures same_mirrors { result.mirrors.ghost_name ≡ mirrors.entry.ghost_name }
        ensures shelf { result.shelf.now ≡ shelf.old }
        ensures mirrors { result.mirrors.now ≡ mirrors.old }
    {
        MirroredShelf { shelf, mirrors }
    }
}

impl<F: Shelf, C: Dial + Drop> Shelf for MirroredShelf<'_, F, C> {
    type D = MirroredDisk<F::D, C>;

    ghost tells = { F.tells };

    ghost file = { λ s. F.file s.shelf.now };

    ghost disk = { λ s name. mirrored_at (F.disk s.shelf.now name)
        (place_at (slots_of s.mirrors.now) name) };

    ghost is_out = { λ s. F.is_out s.shelf.now };

    ghost disk_faults = { λ s name. F.disk_faults s.shelf.now name
        + faults_in C.faults (place_at (slots_of s.mirrors.now) name) };

    ghost faults = { λ s. F.faults s.shelf.now };

    ghost looked = { λ s. F.looked s.shelf.now };

    ghost lent = { λ s. mirrored_lent s.shelf.ghost_name s.mirrors.ghost_name
        (map (slot_texts C.name C.address) (slots_of s.mirrors.now))
        (made_at C.name C.address (slots_of s.mirrors.now))
        (F.lent s.shelf.now) };

    ghost tells_disks = { λ told. F.tells_disks told };

    fn read_file(&mut self, alloc: Global, name: &str) -> Result<Vec<u8>, ShelfError> {
        self.shelf.read_file(alloc, name)
    }

    fn take_disk(
        &mut self,
        alloc: Global,
        name: &str,
    ) -> Result<MirroredDisk<F::D, C>, ShelfError> {
        let Some(mirror) = self.mirrors.take(name) else {
            return Err(ShelfError::Memory);
        };
        match self.shelf.take_disk(alloc, name) {
            Ok(inner) => Ok(MirroredDisk::new(inner, Some(mirror))),
            Err(why) => {
                self.mirrors.put_new(name, mirror);
                Err(why)
            }
        }
    }

    fn give_disk(&mut self, name: &str, taken: MirroredDisk<F::D, C>) {
        let (inner, mirror) = taken.split();
        let Some(mirror) = mirror else { unreachable!() };
        self.mirrors.put_back(name, mirror);
        self.shelf.give_disk(name, inner);
    }
}
