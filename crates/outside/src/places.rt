//! Places under names.
ghost use Rattle.std.specs.Prelude.{◌≡◌, List, ℕ, Some, None, IsSome, OnOk, OnErr, option_copied};
ghost use Rattle.outside.specs.Shelf.{SameNames, SameOthers};

use std::alloc::{AllocError, Global};
use std::collections::BTreeMap;
use std::mem;

/// Places under names. What stands in a place is replaced without memory.
#[derive(Drop)]
pub struct Places<T> {
    by_name: BTreeMap<String, T>,
}

impl<T: Drop> Places<T> {
    ghost use Rattle.outside.specs.Places.{at_name};

    /// No place.
    pub fn new(alloc: Global) -> Self
        ensures { (name : List ℕ) → at_name result name ≡ None }
    {
        Places {
            by_name: BTreeMap::new(alloc),
        }
    }

    /// What stands under a name.
    pub fn get(&self, name: &str) -> Option<&T>
        ensures { option_copied result ≡ at_name self.now name.now }
    {
        self.by_name.get(name)
    }

    /// Makes the place of a name, or replaces what stands there.
    pub fn set(&mut self, alloc: Global, name: &str, value: T) -> Result<(), AllocError>
        ensures set { OnOk result (at_name self.new name.now ≡ Some value) }
        ensures others { SameOthers name.now (at_name self.old) (at_name self.new) }
        ensures refused { OnErr result (SameNames (at_name self.old) (at_name self.new)) }
    {
        let key = String::from_str(alloc, name)?;
        self.by_name.insert(key, value)?;
        Ok(())
    }

    /// Replaces what stands in a place, and answers what stood there.
    pub fn replace(&mut self, name: &str, value: T) -> T
        requires { IsSome (at_name self.old name.now) }
        ensures was { at_name self.old name.now ≡ Some result }
        ensures now { at_name self.new name.now ≡ Some value }
        ensures others { SameOthers name.now (at_name self.old) (at_name self.new) }
    {
        match self.by_name.get_mut(name) {
            Some(place) => mem::replace(place, value),
            None => value,
        }
    }
}
