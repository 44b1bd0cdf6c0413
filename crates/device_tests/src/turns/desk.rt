//! A value that borrows and has a type parameter, under a turnstile that sessions share.
ghost use Rattle.std.specs.Prelude.{◌≡◌, ℕ, ◌+◌, ◌≤◌, [], ◌∷◌, All};
ghost use Rattle.turnstile.specs.Passes.{IsOf, IsReady, view_of, turns};

use std::process::Abort;
use std::sync::Wait;
use std::test::*;
use std::thread;
use std::thread::Threads;
use turnstile::*;

/// A device.
trait Device {
    ghost faults: { Self → ℕ };
}

#[derive(Drop)]
struct Wire;

impl Device for Wire {
    ghost faults = { λ _. 0 };
}

/// What no turn changes.
struct Kept<'w> {
    world: &'w [u64],
}

/// A desk over a world.
#[derive(Drop)]
struct Desk<'w, D> {
    world: &'w [u64],
    items: Vec<(u64, String)>,
    device: D,
}

impl<'w, D: Device> Recorded for Desk<'w, D> {
    type Item = String;

    type Fixed = Kept<'w>;

    ghost entries = { λ d. d.items.items };

    ghost fixed = { λ d. record { world = d.world } };
}

/// Work that a thread does.
trait Job {
    ghost left: { Self → ℕ };

    fn run<R: Wait>(&mut self, rt: &R)
        requires { 1 ≤ left self.old }
        ensures { left self.old ≤ left self.new + 1 };
}

/// A session at a turnstile.
#[derive(Drop)]
struct Session<'a, V: Recorded> {
    turnstile: &'a Turnstile<V>,
    pass: Pass<V::Item, V::Fixed>,
    ghost place: { IsOf pass turnstile.now },
    ghost ready: { pass.badge.views ≡ view_of pass ∷ [] },
}

impl<'a, V: Recorded> Job for Session<'a, V> {
    ghost left = { λ s. turns s.pass };

    // A turn that adds nothing.
    fn run<R: Wait>(&mut self, rt: &R) {
        let turn = self.turnstile.enter(rt, &mut self.pass);
        self.turnstile.leave(&mut self.pass, turn);
    }
}

// Each job runs once, in threads.
fn run_all<J: Job + Send, R: Threads + Wait + Sync>(rt: &R, jobs: &mut [J])
    requires { All (λ j. 1 ≤ J.left j) jobs.old }
{
    thread::for_each_mut(rt, jobs, 4, &|_, job| job.run(rt));
}

// Two sessions make a turn each, in threads.
fn run_sessions<V: Recorded + Send, R: Threads + Wait + Sync>(
    rt: &R,
    turnstile: &Turnstile<V>,
    one: Pass<V::Item, V::Fixed>,
    two: Pass<V::Item, V::Fixed>,
)
    requires one { IsOf one turnstile.now × IsReady one × (1 ≤ turns one) }
    requires two { IsOf two turnstile.now × IsReady two × (1 ≤ turns two) }
{
    let one = Session {
        turnstile,
        pass: one,
    };
    let two = Session {
        turnstile,
        pass: two,
    };
    run_all(rt, &mut [one, two]);
}

#[test]
fn sessions_share_a_desk(rt: HostRuntime) -> Result<(), Fail> {
    let world = [3, 1, 4];
    let desk = Desk {
        world: &world,
        items: Vec::new(rt.alloc()),
        device: Wire,
    };
    let Ok((turnstile, mut first)) = Turnstile::new(rt.alloc(), desk) else {
        panic!(rt; "memory")
    };
    let Ok(second) = turnstile.split(&mut first) else {
        panic!(rt; "not split")
    };
    run_sessions(&rt, &turnstile, first, second);
    Ok(())
}
