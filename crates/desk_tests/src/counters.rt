//! Desks on disks in memory, which sessions share. Marks were worked out by hand.
ghost use Rattle.std.specs.Prelude.{◌≡◌, ◌*◌, ◌^◌};
ghost use Rattle.cqe_base.specs.History.{profile_of};
ghost use Rattle.cqe_base.specs.Limits.{KeepsLimits};
ghost use Rattle.turnstile.specs.Passes.{shares as shares_of, turns};
ghost use Rattle.desk_counter.specs.Counters.{IsPassOf};

mod threads;

use crate::clinic::{Clinic, counter_of, make_clinic, user_by};
use cqe_base::user::{Method, User};
use desk_counter::{Counter, DeskPass};
use outside::MemoryDisk;
use std::alloc::Global;
use std::process::Abort;
use turnstile::PassError;

/// The clinic, with two users from whom Ann's infection is kept by lies, and who know that who
/// takes the drug is infected.
#[derive(Drop)]
struct Ward {
    clinic: Clinic,
    eve: User,
    dan: User,
}

fn make_ward(rt: &impl Abort, alloc: Global) -> Ward
    ensures eve { KeepsLimits result.clinic.schema (profile_of result.eve) }
    ensures dan { KeepsLimits result.clinic.schema (profile_of result.dan) }
{
    let clinic = make_clinic(rt, alloc);
    let eve = user_by(rt, alloc, &clinic, "eve", Method::Lying);
    let dan = user_by(rt, alloc, &clinic, "dan", Method::Lying);
    Ward { clinic, eve, dan }
}

// Splits a pass until it has one share, and counts the splits.
fn split_all(counter: &Counter<'_, MemoryDisk>, pass: &mut DeskPass<MemoryDisk>) -> u64
    requires pass { IsPassOf pass.old counter.now }
    requires turns { turns pass.old ≡ shares_of pass.old * 2 ^ 57 }
{
    for made in 0..100 {
        match counter.split(pass) {
            Ok(part) => drop(part),
            Err(PassError::TooMany) => return made,
            Err(PassError::Memory) => return 0,
        }
    }
    100
}

#[test]
fn a_pass_splits_sixty_four_times(rt: HostRuntime) {
    let alloc = rt.alloc();
    let ward = make_ward(&rt, alloc);
    let (counter, mut pass) = counter_of(&rt, alloc, &ward.clinic, &ward.eve);
    assert_eq!(rt; split_all(&counter, &mut pass), 64);
}
