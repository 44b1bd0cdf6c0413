//! Threads that take turns at one list, whose passes meet.
ghost use Rattle.std.specs.Prelude.{◌≡◌, ℕ, ◌+◌, ◌*◌, ◌^◌, ◌≤◌, [], ◌∷◌, ◌++◌, length, IfOk, IfErr};
ghost use Rattle.std.specs.Prelude.{IfSome, MatchBool};
ghost use Rattle.turnstile.specs.History.{turn_entries};
ghost use Rattle.turnstile.specs.Passes.{IsOf, IsReady, shares, turns, mine};

mod desk;

use std::alloc::{AllocError, Global};
use std::process::Abort;
use std::sync::Wait;
use std::test::*;
use std::thread::{Threads, join};
use turnstile::*;

/// Who made which turn.
#[derive(Drop)]
struct Tally {
    turns: Vec<(u64, u64)>,
    most: u64,
}

impl Recorded for Tally {
    type Item = u64;

    type Fixed = u64;

    ghost entries = { λ t. t.turns.items };

    ghost fixed = { λ t. t.most };
}

impl Tally {
    fn add(&mut self, ticket: u64, who: u64) -> Result<(), AllocError>
        ensures fixed { self.new.most ≡ self.old.most }
        ensures ok { IfOk result (λ _. self.new.turns.items
            ≡ self.old.turns.items ++ (ticket, who) ∷ []) }
        ensures err { IfErr result (λ _. self.new.turns.items ≡ self.old.turns.items) }
    {
        self.turns.push((ticket, who))?;
        Ok(())
    }
}

// One turn, which adds who made it.
fn take_turn<R: Wait>(
    rt: &R,
    turnstile: &Turnstile<Tally>,
    pass: &mut Pass<u64, u64>,
    who: u64,
) -> bool
    requires place { IsOf pass.old turnstile.now × IsReady pass.old }
    requires turns { 1 ≤ turns pass.old }
    ensures place { IsOf pass.new turnstile.now × IsReady pass.new }
    ensures counts { (shares pass.new ≡ shares pass.old) × (turns pass.new + 1 ≡ turns pass.old) }
    ensures mine { MatchBool result
        ((ticket : ℕ) × (mine pass.new ≡ mine pass.old ++ (ticket, who) ∷ []))
        (mine pass.new ≡ mine pass.old) }
{
    let mut turn = turnstile.enter(rt, pass);
    let ticket = turn.ticket();
    let added = turn.value.add(ticket, who).is_ok();
    turnstile.leave(pass, turn);
    added
}

// As many turns as asked; it says how many of them found memory.
fn take_turns<R: Wait>(
    rt: &R,
    turnstile: &Turnstile<Tally>,
    mut pass: Pass<u64, u64>,
    who: u64,
    count: u64,
) -> (Pass<u64, u64>, u64)
    requires place { IsOf pass turnstile.now × IsReady pass }
    requires turns { count ≤ turns pass }
    ensures place { IsOf result.0 turnstile.now × IsReady result.0 }
    ensures counts { (shares result.0 ≡ shares pass) × (turns result.0 + count ≡ turns pass) }
    ensures mine { length (mine result.0) ≡ length (mine pass) + result.1 }
    ensures most { result.1 ≤ count }
{
    let mut added = 0;
    for made in 0..count {
        prove!(added <= made);
        if take_turn(rt, turnstile, &mut pass, who) {
            added += 1;
        }
    }
    (pass, added)
}

// Two threads take turns, and then each with the pass of the other. The passes meet, and the
// turnstile is closed.
fn take_turns_by_two<R: Threads + Wait + Sync>(
    rt: &R,
    alloc: Global,
    count: u64,
) -> Option<(Tally, u64)>
    requires { count ≤ 2 ^ 32 }
    ensures { IfSome result (λ r. length (turn_entries r.0.turns.items) ≡ r.1) }
{
    let tally = Tally {
        turns: Vec::new(alloc),
        most: 7,
    };
    let Ok((turnstile, mut first)) = Turnstile::new(alloc, tally) else {
        return None;
    };
    let Ok(second) = turnstile.split(&mut first) else {
        return None;
    };
    let shared = &turnstile;
    let ((first, a), (second, b)) = join(
        rt,
        move || take_turns(rt, shared, first, 1, count),
        move || take_turns(rt, shared, second, 2, count),
    );
    let ((second, c), (mut first, d)) = join(
        rt,
        move || take_turns(rt, shared, second, 1, 10),
        move || take_turns(rt, shared, first, 2, 10),
    );
    turnstile.meet(&mut first, second);
    Some((turnstile.close(first), a + b + c + d))
}

#[test]
fn two_threads_take_a_thousand_turns_each(rt: HostRuntime) -> Result<(), Fail> {
    let (tally, added) = take_turns_by_two(&rt, rt.alloc(), 1000).ok_or("memory")?;
    assert_eq!(rt; (tally.turns.len(), added, tally.most), (2020, 2020, 7));
    let mut firsts = 0u64;
    for (place, (ticket, who)) in tally.turns.iter().enumerate() {
        assert_eq!(rt; *ticket, place as u64 + 1);
        if *who == 1 {
            firsts = firsts.wrapping_add(1);
        }
    }
    assert_eq!(rt; firsts, 1010);
    Ok(())
}

// Splits a pass until it has one share, and counts the splits.
fn split_all(turnstile: &Turnstile<Tally>, pass: &mut Pass<u64, u64>) -> u64
    requires place { IsOf pass.old turnstile.now × IsReady pass.old }
    requires turns { turns pass.old ≡ shares pass.old * 2 ^ 57 }
{
    for made in 0..100 {
        match turnstile.split(pass) {
            Ok(part) => drop(part),
            Err(PassError::TooMany) => return made,
            Err(PassError::Memory) => return 0,
        }
    }
    100
}

#[test]
fn a_pass_splits_sixty_four_times(rt: HostRuntime) -> Result<(), Fail> {
    let tally = Tally {
        turns: Vec::new(rt.alloc()),
        most: 7,
    };
    let Ok((turnstile, mut pass)) = Turnstile::new(rt.alloc(), tally) else {
        panic!(rt; "memory")
    };
    assert_eq!(rt; split_all(&turnstile, &mut pass), 64);
    Ok(())
}
