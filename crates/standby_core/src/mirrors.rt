//! The mirrors of the users' journals, by the names of their disks.
ghost use Rattle.std.specs.Prelude.{◌≡◌, ◌<◌, List, ℕ, Some, position, map, length, bytes_eq};
ghost use Rattle.std.specs.Prelude.{IsSome, IfSome, IfNone, false};
ghost use Rattle.cqe_base.specs.Schema.{has_duplicate};
ghost use Rattle.outside.specs.Shelf.{SameOthers};
ghost use Rattle.standby_core.specs.Mirrors.{dial_of, texts_of};
ghost use Rattle.standby_core.specs.Places.{new_in};
ghost use Rattle.standby_core.specs.Slots.{slot_name, place_at, made_at, SameMade};

use crate::Mirror;
use crate::slot::{Place, Slot};
use outside::Dial;

/// The mirrors of users' journals, by the names of their disks, which differ.
#[derive(Drop)]
pub struct Mirrors<C: Dial> {
    pub(crate) slots: Vec<Slot<C>>,
    ghost distinct: { has_duplicate (map slot_name slots.items) ≡ false },
}

impl<C: Dial + Drop> Mirrors<C> {
    ghost use Rattle.standby_core.specs.MirrorSets.{slots_of};

    /// Takes the mirror of this name, where it wasn't taken yet. Its place is kept.
    pub(crate) fn take(&mut self, name: &str) -> Option<Mirror<C>>
        ensures taken { result ≡ new_in (place_at (slots_of self.old) name.now) }
        ensures out { IfSome result
            (λ mirror. place_at (slots_of self.new) name.now ≡ Some Place.Out) }
        ensures none { IfNone result ((other : List ℕ)
            → place_at (slots_of self.new) other ≡ place_at (slots_of self.old) other) }
        ensures others { SameOthers name.now (place_at (slots_of self.old))
            (place_at (slots_of self.new)) }
        ensures own { IfSome result
            (λ mirror. made_at C.name C.address (slots_of self.old) name.now
            ≡ Some (texts_of C.name C.address mirror)) }
        ensures made { SameMade C.name C.address (slots_of self.old) (slots_of self.new) }
        ensures faultless { IfSome result (λ mirror. C.faults (dial_of mirror) ≡ 0) }
        ensures silent { IfSome result
            (λ mirror. C.tells → length (C.exchanged (dial_of mirror)) ≡ 0) }
    {
        let Some(place) = slot_place(self.slots.as_slice(), name) else {
            return None;
        };
        let slot = &mut self.slots[place];
        slot.take()
    }

    /// Puts the mirror of this name back, which wasn't used. It takes no memory.
    pub(crate) fn put_new(&mut self, name: &str, mirror: Mirror<C>)
        requires there { IsSome (place_at (slots_of self.old) name.now) }
        requires faultless { C.faults (dial_of mirror) ≡ 0 }
        requires silent { C.tells → length (C.exchanged (dial_of mirror)) ≡ 0 }
        requires own { made_at C.name C.address (slots_of self.old) name.now
            ≡ Some (texts_of C.name C.address mirror) }
        ensures put { place_at (slots_of self.new) name.now ≡ Some (Place.New mirror) }
        ensures others { SameOthers name.now (place_at (slots_of self.old))
            (place_at (slots_of self.new)) }
        ensures made { SameMade C.name C.address (slots_of self.old) (slots_of self.new) }
    {
        let Some(place) = slot_place(self.slots.as_slice(), name) else {
            return;
        };
        let slot = &mut self.slots[place];
        slot.put_new(mirror);
    }

    /// Puts the mirror of this name back, with its disk. It takes no memory.
    pub(crate) fn put_back(&mut self, name: &str, mirror: Mirror<C>)
        requires there { IsSome (place_at (slots_of self.old) name.now) }
        requires own { made_at C.name C.address (slots_of self.old) name.now
            ≡ Some (texts_of C.name C.address mirror) }
        ensures put { place_at (slots_of self.new) name.now ≡ Some (Place.Back mirror) }
        ensures others { SameOthers name.now (place_at (slots_of self.old))
            (place_at (slots_of self.new)) }
        ensures made { SameMade C.name C.address (slots_of self.old) (slots_of self.new) }
    {
        let Some(place) = slot_place(self.slots.as_slice(), name) else {
            return;
        };
        let slot = &mut self.slots[place];
        slot.put_back(mirror);
    }
}

// The place of the slot of this name.
fn slot_place<C: Dial>(slots: &[Slot<C>], name: &str) -> Option<usize>
    ensures place { result ≡ position (λ slot. bytes_eq (slot_name slot) name.now) slots.now }
    ensures within { IfSome result (λ place. place < length slots.now) }
{
    slots.iter().position(|slot| slot.journal.as_str() == name)
}
