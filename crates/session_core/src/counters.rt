//! The counters of all users, and a thread's passes at them.
ghost use Rattle.std.specs.Prelude.{◌≡◌, map};
ghost use Rattle.std.specs.Coded.{Coded-set, coded_list};
ghost use Rattle.cqe_base.specs.History.{profile_of};
ghost use Rattle.desk_counter.specs.Codes.{profile_code};
ghost use Rattle.session_core.specs.Owners.{owners_by};

use cqe_base::user::User;
use desk_counter::{Counter, CounterOf, DeskPass, Owned, TicketedDesk};
use outside::Disk;
use std::alloc::{AllocError, Global};

/// A counter for each user. It stands for `Counters` wherever a thread is to take it, since it says
/// nothing of what is under the counters.
#[derive(Drop)]
pub struct CountersOf<'w, V: Owned> {
    pub(crate) users: &'w [User],
    pub(crate) counters: Vec<CounterOf<'w, V>>,
    ghost owned: { owners_by V.owner counters.items
        ≡ map profile_of users.now } by { Coded-set (coded_list profile_code) _ _ },
}

/// The users' desks that threads share.
pub type Counters<'w, D> = CountersOf<'w, TicketedDesk<'w, D>>;

/// A pass at each user's counter.
#[derive(Drop)]
pub struct Passes<D> {
    pub(crate) passes: Vec<DeskPass<D>>,
}

impl<'w, D: Disk> CountersOf<'w, TicketedDesk<'w, D>> {
    ghost use Rattle.std.specs.Prelude.{IfOk, OnErr};
    ghost use Rattle.std.specs.List.{AllByRecursion};
    ghost use Rattle.desk_counter.specs.Counters.{kept_by};
    ghost use Rattle.session_core.specs.Members.{AreDesksOf, HaveSeenLegal, ArePasses, ArePassesOf};
    ghost use Rattle.session_core.specs.Members.{AreSplit, AreMet, CanSplit, users_of, passes_in};

    /// Puts counters together, that of each user's desk at his place, with a pass at each.
    pub fn new(
        users: &'w [User],
        counters: Vec<Counter<'w, D>>,
        passes: Vec<DeskPass<D>>,
    ) -> (Counters<'w, D>, Passes<D>)
        requires passes { ArePasses passes.items counters.items }
        requires desks { AreDesksOf users.now (map kept_by counters.items) }
        requires legal { HaveSeenLegal (map kept_by counters.items) passes.items }
        ensures at { ArePassesOf result.1 result.0 }
        ensures users { users_of result.0 ≡ users.now }
        ensures counters { result.0.counters.items ≡ counters.entry.items }
        ensures passes { passes_in result.1 ≡ passes.items }
    {
        (CountersOf { users, counters }, Passes { passes })
    }

    /// Takes the counters and the passes at them apart again.
    pub fn into_parts(self, passes: Passes<D>) -> (Vec<Counter<'w, D>>, Vec<DeskPass<D>>)
        ensures counters { result.0.items ≡ self.entry.counters.items }
        ensures passes { result.1.items ≡ passes_in passes }
    {
        let CountersOf { users: _, counters } = self;
        let Passes { passes } = passes;
        (counters, passes)
    }

    /// Splits off a pass at each counter, with one share and 2^57 turns. For want of memory nothing
    /// changes.
    pub fn split(&self, alloc: Global, passes: &mut Passes<D>) -> Result<Passes<D>, AllocError>
        requires passes { ArePassesOf passes.old self.now }
        requires room { AllByRecursion CanSplit (passes_in passes.old) }
        ensures split { IfOk result (λ parts.
            AreSplit self.now.counters.items (passes_in passes.old)
            (passes_in passes.new) (passes_in parts)) }
        ensures same { OnErr result (passes.new ≡ passes.old) }
        ensures passes { ArePassesOf passes.new self.now }
        ensures parts { IfOk result (λ parts. ArePassesOf parts self.now) }
    {
        let mut parts = Vec::new(alloc);
        parts.reserve(self.counters.len())?;
        for place in 0..self.counters.len() {
            let part = self.counters[place]
                .split(&mut passes.passes[place])
                .unwrap();
            parts.push_reserved(part);
        }
        Ok(Passes { passes: parts })
    }

    /// Joins other passes to these, each at its counter.
    pub fn meet(&self, passes: &mut Passes<D>, others: Passes<D>)
        requires these { ArePassesOf passes.old self.now }
        requires those { ArePassesOf others self.now }
        ensures met { AreMet self.now.counters.items (passes_in passes.old) (passes_in others)
            (passes_in passes.new) }
        ensures passes { ArePassesOf passes.new self.now }
    {
        let mut others = others.passes;
        while let Some(other) = others.pop() {
            let place = others.len();
            self.counters[place].meet(&mut passes.passes[place], other);
        }
    }
}
