//! A place among the mirrors, under the name of its disk.
ghost use Rattle.std.specs.Prelude.{◌≡◌, Some, IfSome, IfNone, length, string_bytes};
ghost use Rattle.standby_core.specs.Mirrors.{dial_of, texts_of};
ghost use Rattle.standby_core.specs.MirroredDisks.{faults_by, exchanged_by};
ghost use Rattle.standby_core.specs.Places.{mirror_in, new_in, texts_or};

use crate::Mirror;
use outside::Dial;
use std::mem;
use std::snapshot::Snapshot;

// What stands under the name of a disk. A mirror is taken with its disk, and once: so its count of
// faults was 0 as it was taken, and is that of its dial as it is back.
#[derive(Drop)]
pub(crate) enum Place<C: Dial> {
    New(Mirror<C>),
    Out,
    Back(Mirror<C>),
}

// A place under its name, with the mirror as it was made. Its dial has the same name.
#[derive(Drop)]
pub(crate) struct Slot<C: Dial> {
    pub(crate) journal: String,
    pub(crate) place: Place<C>,
    pub(crate) made: Snapshot<Mirror<C>>,
    ghost fresh: { faults_by C.faults (new_in (Some place)) ≡ 0 },
    ghost silent: { C.tells → length (exchanged_by C.exchanged (new_in (Some place))) ≡ 0 },
    ghost named: { C.name (dial_of made.value) ≡ string_bytes journal },
    ghost same: { texts_or C.name C.address (texts_of C.name C.address made.value)
        (mirror_in (Some place)) ≡ texts_of C.name C.address made.value },
}

impl<C: Dial + Drop> Slot<C> {
    ghost use Rattle.standby_core.specs.Slots.{slot_name, slot_texts};

    /// Takes the mirror, where it wasn't taken yet.
    pub(crate) fn take(&mut self) -> Option<Mirror<C>>
        ensures taken { result ≡ new_in (Some self.old.place) }
        ensures out { IfSome result (λ mirror. self.new.place ≡ Place.Out) }
        ensures none { IfNone result (self.new.place ≡ self.old.place) }
        ensures name { slot_name self.new ≡ slot_name self.old }
        ensures made { slot_texts C.name C.address self.new
            ≡ slot_texts C.name C.address self.old }
        ensures own { IfSome result (λ mirror. texts_of C.name C.address mirror
            ≡ slot_texts C.name C.address self.old) }
        ensures faultless { IfSome result (λ mirror. C.faults (dial_of mirror) ≡ 0) }
        ensures silent { IfSome result
            (λ mirror. C.tells → length (C.exchanged (dial_of mirror)) ≡ 0) }
    {
        match mem::replace(&mut self.place, Place::Out) {
            Place::New(mirror) => Some(mirror),
            Place::Out => None,
            Place::Back(mirror) => {
                let _out = mem::replace(&mut self.place, Place::Back(mirror));
                None
            }
        }
    }

    /// Puts its mirror back, which wasn't used.
    pub(crate) fn put_new(&mut self, mirror: Mirror<C>)
        requires faultless { C.faults (dial_of mirror) ≡ 0 }
        requires silent { C.tells → length (C.exchanged (dial_of mirror)) ≡ 0 }
        requires own { texts_of C.name C.address mirror ≡ slot_texts C.name C.address self.old }
        ensures put { self.new.place ≡ Place.New mirror }
        ensures name { slot_name self.new ≡ slot_name self.old }
        ensures made { slot_texts C.name C.address self.new
            ≡ slot_texts C.name C.address self.old }
    {
        let _before = mem::replace(&mut self.place, Place::New(mirror));
    }

    /// Puts its mirror back.
    pub(crate) fn put_back(&mut self, mirror: Mirror<C>)
        requires { texts_of C.name C.address mirror ≡ slot_texts C.name C.address self.old }
        ensures put { self.new.place ≡ Place.Back mirror }
        ensures name { slot_name self.new ≡ slot_name self.old }
        ensures made { slot_texts C.name C.address self.new
            ≡ slot_texts C.name C.address self.old }
    {
        let _before = mem::replace(&mut self.place, Place::Back(mirror));
    }
}
