//! Seats whose counters threads share for a while.
ghost use Rattle.std.specs.Prelude.{◌≡◌, ◌≤◌, ◌*◌, ◌^◌, ℕ, List, [], All, length, map};
ghost use Rattle.std.specs.Prelude.{vec_capacity, IfOk};
ghost use Rattle.std.specs.List.{AllByRecursion};
ghost use Rattle.turnstile.specs.Passes.{shares, turns};
ghost use Rattle.desk_crew.specs.Crew.{seat_user, seat_kept, IsSeatAsOpened};
ghost use Rattle.session_core.specs.Members.{AreDesksOf, HaveSeenLegal, ArePasses};
ghost use Rattle.serve_engine.specs.Doors.{AreServedDoors, HasOutcome};
ghost use Rattle.serve_engine.specs.Served.{SessionMarks};
ghost use Rattle.serve_engine.specs.Members.{OwnMore};
ghost use Rattle.serve_engine.specs.Sharing.{keeper_of, seat_counter, seat_pass, AreSeatsOn};
ghost use Rattle.serve_engine.specs.Sharing.{IsServedAt};

use crate::serving::{Outcome, serve_doors};
use censors::Admission;
use cqe_base::user::User;
use desk_counter::{Counter, DeskPass, SoleCounter};
use desk_crew::{DeskSeat, room_for};
use outside::{Disk, Door, Gate};
use session_core::Counters;
use std::alloc::{AllocError, Global};
use std::sync::Wait;
use std::thread::Threads;
use user_desk::DeskError;

/// What is kept of a seat while its counter is shared.
#[derive(Drop)]
struct Keeper<'w> {
    user: &'w User,
    admission: Admission,
    journal: String,
    refusal: Option<DeskError>,
}

/// What seats are taken apart into: what is kept of each, its counter, and its pass.
type Apart<'w, D> = (Vec<Keeper<'w>>, Vec<Counter<'w, D>>, Vec<DeskPass<D>>);

/// Empty lists with the room for so many seats taken apart.
fn rooms_for<'w, D: Disk + Drop>(alloc: Global, count: usize) -> Result<Apart<'w, D>, AllocError>
    ensures empty { IfOk result (λ rooms. (rooms.0.items ≡ []) × (rooms.1.items ≡ [])
        × (rooms.2.items ≡ [])) }
    ensures room { IfOk result (λ rooms. (count ≤ vec_capacity rooms.0)
        × (count ≤ vec_capacity rooms.1)
        × (count ≤ vec_capacity rooms.2)) }
{
    let keepers = room_for(alloc, count)?;
    let counters = room_for(alloc, count)?;
    let passes = room_for(alloc, count)?;
    Ok((keepers, counters, passes))
}

/// Takes seats apart, into lists with the room for them.
fn take_apart<'w, D: Disk + Drop>(rooms: Apart<'w, D>, seats: Vec<DeskSeat<'w, D>>) -> Apart<'w, D>
    requires empty { (rooms.0.items ≡ []) × (rooms.1.items ≡ []) × (rooms.2.items ≡ []) }
    requires room { (length seats.items ≤ vec_capacity rooms.0)
        × (length seats.items ≤ vec_capacity rooms.1)
        × (length seats.items ≤ vec_capacity rooms.2) }
    ensures keepers { result.0.items ≡ map keeper_of seats.entry.items }
    ensures counters { result.1.items ≡ map seat_counter seats.entry.items }
    ensures passes { result.2.items ≡ map seat_pass seats.entry.items }
    ensures places { ArePasses result.2.items result.1.items }
    ensures all { AllByRecursion (λ pass. shares pass ≡ 65) result.2.items }
{
    let (mut keepers, mut counters, mut passes) = rooms;
    for seat in seats {
        let (counter, pass) = seat.desk.into_parts();
        counters.push_reserved(counter);
        passes.push_reserved(pass);
        keepers.push_reserved(Keeper {
            user: seat.user,
            admission: seat.admission,
            journal: seat.journal,
            refusal: seat.refusal,
        });
    }
    (keepers, counters, passes)
}

/// Puts seats together again, in a list with the room for them.
fn put_together<'w, D: Disk + Drop>(
    room: Vec<DeskSeat<'w, D>>,
    keepers: Vec<Keeper<'w>>,
    counters: Vec<Counter<'w, D>>,
    passes: Vec<DeskPass<D>>,
) -> Vec<DeskSeat<'w, D>>
    requires empty { room.items ≡ [] }
    requires room { length keepers.items ≤ vec_capacity room }
    requires count { length counters.items ≡ length keepers.items }
    requires passes { ArePasses passes.items counters.items }
    requires all { AllByRecursion (λ pass. shares pass ≡ 65) passes.items }
    ensures keepers { map keeper_of result.items ≡ keepers.entry.items }
    ensures counters { map seat_counter result.items ≡ counters.entry.items }
    ensures passes { map seat_pass result.items ≡ passes.items }
{
    let mut seats = room;
    let (mut counters, mut passes) = (counters, passes);
    for keeper in keepers {
        let desk = SoleCounter::from_parts(counters.remove(0), passes.remove(0));
        seats.push_reserved(DeskSeat {
            user: keeper.user,
            admission: keeper.admission,
            journal: keeper.journal,
            desk,
            refusal: keeper.refusal,
        });
    }
    seats
}

/// Serves the connections of doors at the desks of seats that were just opened.
pub(crate) fn serve_seats<
    'w,
    R: Threads + Wait + Sync,
    D: Disk + Drop + Send,
    O: Door + Drop + Send,
    G: Gate + Sync,
>(
    rt: &R,
    alloc: Global,
    users: &'w [User],
    seats: Vec<DeskSeat<'w, D>>,
    doors: Vec<O>,
    limit: u64,
    gate: &G,
) -> (Outcome, Vec<DeskSeat<'w, D>>, Vec<O>)
    requires desks { AreDesksOf users.now (map seat_kept seats.items) }
    requires legal { HaveSeenLegal (map seat_kept seats.items) (map seat_pass seats.items) }
    requires fresh { All IsSeatAsOpened seats.items }
    requires turns { All (λ seat. turns (seat_pass seat) ≡ 65 * 2 ^ 57) seats.items }
    requires some { 1 ≤ length doors.items }
    requires few { length doors.items ≤ 64 }
    requires limit { limit ≤ 2 ^ 30 }
    requires whole { All (λ door. O.faults door ≡ 0) doors.items }
    requires unended { All (λ door. O.ends door ≡ 0) doors.items }
    ensures on { AreSeatsOn seats.entry.items result.1.items }
    ensures served { (total : ℕ) × (marks : O.tells → List SessionMarks)
        × AreServedDoors O.Door
        (IsServedAt users.now result.1.items) total marks doors.items result.2.items
        × HasOutcome O.Door limit result.0 total result.2.items
        × (total ≤ limit)
        × ((t : O.tells)
        → OwnMore (map seat_pass seats.entry.items) (map seat_pass result.1.items) (marks t)) }
{
    let count = seats.len();
    let (Ok(rooms), Ok(room)) = (rooms_for(alloc, count), room_for(alloc, count)) else {
        return (Outcome::Memory, seats, doors);
    };
    let (keepers, counters, passes) = take_apart(rooms, seats);
    let (counters, passes) = Counters::new(users, counters, passes);
    let mut passes = passes;
    let (outcome, doors) = serve_doors(rt, alloc, &counters, &mut passes, doors, limit, gate);
    let (counters, passes) = counters.into_parts(passes);
    let seats = put_together(room, keepers, counters, passes);
    (outcome, seats, doors)
}
