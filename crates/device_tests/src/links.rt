ghost use Rattle.std.specs.Prelude.{◌≡◌, ◌<◌, ◌+◌, ◌^◌, [], None, OnOk};
ghost use Rattle.outside.specs.MemoryLinks.{links_dialling};

use crate::checks;
use outside::{
    Connection, Dial, Door, DoorBack, Failed, Links, LinksError, MemoryDial, MemoryDoor,
    MemoryLinks, MemorySink, MemorySource, Plan, Sink, Source, write_all,
};
use std::alloc::{AllocError, Global};
use std::process::Abort;
use std::test::Fail;

// Connections whose clients send one byte each, from this one on.
fn connections(alloc: Global, first: u8, count: u8) -> Result<Vec<Connection>, AllocError> {
    let mut all = Vec::new(alloc);
    for number in 0..count {
        all.push(connection(alloc, first.wrapping_add(number))?)?;
    }
    Ok(all)
}

// A connection whose client sends this byte.
fn connection(alloc: Global, byte: u8) -> Result<Connection, AllocError> {
    let source = MemorySource::new(vec![in alloc; byte]?);
    Ok(Connection::new(source, MemorySink::new(alloc)))
}

// Answers the next connection with the byte that its client sent, and answers whether one came.
fn echo_next<D: Door>(door: &mut D) -> Result<bool, Failed> {
    let Some((source, sink)) = door.next()? else {
        return Ok(false);
    };
    let (mut source, mut sink) = (source, sink);
    let mut byte = [0];
    let taken = source.take(&mut byte);
    let given = write_all(&mut sink, &byte);
    door.done(source, sink);
    taken?;
    given?;
    Ok(true)
}

// Checks that these doors got back connections with these bytes, each of them answered.
fn check_back(rt: &impl Abort, links: &MemoryLinks, want: &[&[u8]]) {
    checks::count(rt, "doors", links.doors_back().len(), want.len());
    for (door, bytes) in links.doors_back().iter().zip(want) {
        check_door(rt, door, bytes);
    }
}

// The same of one door.
fn check_door(rt: &impl Abort, door: &DoorBack, bytes: &[u8]) {
    checks::count(rt, "given", door.given(), bytes.len());
    checks::count(rt, "finished", door.finished().len(), bytes.len());
    for (finished, byte) in door.finished().iter().zip(bytes.iter()) {
        checks::bytes(rt, "held", finished.source.held(), &[*byte]);
        checks::bytes(rt, "answered", finished.sink.bytes(), &[*byte]);
    }
}

// Answers the connections of a door up to its end or its first failure, and answers whether it came
// to its end.
fn echo_all<D: Door>(door: &mut D) -> bool {
    for _ in 0..10 {
        match echo_next(door) {
            Ok(true) => (),
            Ok(false) => return true,
            Err(Failed) => return false,
        }
    }
    false
}

// Opens two doors, answers their connections, those of the first door first, and gives the doors
// back.
fn serve_two(rt: &impl Abort, alloc: Global, links: &mut MemoryLinks) -> Result<(), LinksError> {
    let mut doors = links.listen(alloc, "here", 2)?;
    let mut second = doors.pop().expect(rt, "a second door");
    let mut first = doors.pop().expect(rt, "a first door");
    assert!(rt; echo_all(&mut first));
    echo_three(rt, &mut second);
    links.take_back(first);
    links.take_back(second);
    Ok(())
}

// Answers the connections of a door, and checks that there were three and that it came to its end.
fn echo_three(rt: &impl Abort, door: &mut MemoryDoor) {
    assert!(rt; echo_all(door));
    assert_eq!(rt; door.left(), 0);
    assert_eq!(rt; door.ends(), 1);
    assert_eq!(rt; door.finished().len(), 3);
}

#[test]
fn connections_are_spread_over_doors(rt: HostRuntime) -> Result<(), Fail> {
    let alloc = rt.alloc();
    let mut links = MemoryLinks::new(alloc, connections(alloc, b'a', 5)?);
    serve_two(&rt, alloc, &mut links)?;
    check_back(&rt, &links, &[b"ab", b"cde"]);
    checks::count(&rt, "left", links.left(), 0);
    checks::faults(&rt, links.faults(), 0);
    Ok(())
}

// Opens one door, answers its connections as far as it gives them, and gives it back.
fn serve_one(rt: &impl Abort, alloc: Global, links: &mut MemoryLinks) -> Result<bool, LinksError> {
    let mut doors = links.listen(alloc, "", 1)?;
    let mut door = doors.pop().expect(rt, "a door");
    let ended = echo_all(&mut door);
    links.take_back(door);
    Ok(ended)
}

// Links of three connections that fail at the first call, and whose first door fails at its second.
fn failing_links(alloc: Global) -> Result<MemoryLinks, AllocError> {
    let plan = Plan::At(vec![in alloc; 0]?);
    let mut door_plans = Vec::new(alloc);
    door_plans.push(Plan::At(vec![in alloc; 1]?))?;
    let all = connections(alloc, b'a', 3)?;
    Ok(MemoryLinks::with_plans(alloc, all, plan, door_plans))
}

#[test]
fn what_was_not_given_comes_through_the_next_doors(rt: HostRuntime) -> Result<(), Fail> {
    let alloc = rt.alloc();
    let mut links = failing_links(alloc)?;
    check_served(&rt, alloc, &mut links, Err(LinksError::Failed));
    checks::faults(&rt, links.faults(), 1);
    check_served(&rt, alloc, &mut links, Ok(false));
    checks::count(&rt, "left", links.left(), 2);
    checks::faults(&rt, links.faults(), 2);
    check_served(&rt, alloc, &mut links, Ok(true));
    check_back(&rt, &links, &[b"a", b"bc"]);
    checks::count(&rt, "left", links.left(), 0);
    checks::faults(&rt, links.faults(), 2);
    Ok(())
}

// Checks whether one door comes to its end.
fn check_served(
    rt: &impl Abort,
    alloc: Global,
    links: &mut MemoryLinks,
    want: Result<bool, LinksError>,
) {
    assert_eq!(rt; serve_one(rt, alloc, links), want);
}

#[test]
fn a_door_of_its_own_fails_by_its_plan(rt: HostRuntime) -> Result<(), Fail> {
    let alloc = rt.alloc();
    let mut door = MemoryDoor::with_plan(alloc, connections(alloc, b'a', 3)?, Plan::From(1))?;
    assert!(rt; !echo_all(&mut door));
    checks::count(&rt, "left", door.left(), 2);
    checks::faults(&rt, door.faults(), 1);
    let mut door = MemoryDoor::new(alloc, Vec::new(alloc))?;
    assert!(rt; echo_all(&mut door));
    assert!(rt; echo_all(&mut door));
    assert_eq!(rt; door.ends(), 2);
    Ok(())
}

// A door of which clauses aren't told anything, as real ones are.
#[derive(Drop)]
struct UntoldDoor {
    alloc: Global,
    calls: u64,
    ends: u64,
    faults: u64,
}

impl Door for UntoldDoor {
    type Src = MemorySource;

    type Snk = MemorySink;

    ghost tells = { ⊥ };

    ghost given = { λ door. 0 };

    ghost left = { λ door. 0 };

    ghost back = { λ door. [] };

    ghost last = { λ door. None };

    ghost ends = { λ door. door.ends };

    ghost faults = { λ door. door.faults };

    ghost tells_ends = { λ told. absurd told };

    fn next(&mut self) -> Result<Option<(MemorySource, MemorySink)>, Failed> {
        if self.calls > 1 {
            self.ends = self.ends.saturating_add(1);
            return Ok(None);
        }
        self.calls += 1;
        let Ok(byte) = vec![in self.alloc; 7] else {
            self.faults = self.faults.saturating_add(1);
            return Err(Failed);
        };
        Ok(Some((MemorySource::new(byte), MemorySink::new(self.alloc))))
    }

    fn done(&mut self, _source: MemorySource, _sink: MemorySink) {}
}

#[test]
fn doors_may_be_untold(rt: HostRuntime) -> Result<(), Fail> {
    let alloc = rt.alloc();
    let (calls, ends, faults) = (0, 0, 0);
    let mut door = UntoldDoor {
        alloc,
        calls,
        ends,
        faults,
    };
    assert!(rt; echo_all(&mut door));
    assert_eq!(rt; door.calls, 2);
    assert_eq!(rt; door.faults, 0);
    Ok(())
}

// Dials, of which each may be hung up.
fn dial(links: &mut MemoryLinks, alloc: Global, name: &str) -> Result<MemoryDial, AllocError>
    ensures { OnOk result (links_dialling links.new ≡ links_dialling links.old + 1) }
{
    let dial = links.dial(alloc, "127.0.0.1:7008", name)?;
    Ok(dial)
}

fn hang_up(links: &mut MemoryLinks, dial: MemoryDial)
    requires { 0 < links_dialling links.old }
    ensures { links_dialling links.old ≡ links_dialling links.new + 1 }
{
    links.hang_up(dial);
}

// Exchanges a frame, and checks what is answered.
fn check_exchange(
    rt: &impl Abort,
    dial: &mut MemoryDial,
    frame: &[u8],
    above: u64,
    want: Result<u64, Failed>,
)
    requires { above + 1 < 2 ^ 64 }
{
    assert_eq!(rt; dial.exchange(frame, above), want, "{frame:?}");
}

// Dials three times, and hangs the dials up in that order once all have exchanged frames.
fn exchange_by_three(
    rt: &impl Abort,
    alloc: Global,
    links: &mut MemoryLinks,
) -> Result<(), AllocError> {
    let mut first = dial(links, alloc, "anna.journal")?;
    let mut second = dial(links, alloc, "bert.journal")?;
    let mut third = dial(links, alloc, "anna.journal")?;
    check_exchange(rt, &mut first, b"ab", 4, Ok(5));
    check_exchange(rt, &mut first, b"cd", 5, Err(Failed));
    check_exchange(rt, &mut first, b"cd", 5, Ok(6));
    check_exchange(rt, &mut second, b"ef", 0, Err(Failed));
    check_exchange(rt, &mut third, b"gh", u64::MAX - 2, Ok(u64::MAX - 1));
    hang_up(links, first);
    hang_up(links, second);
    hang_up(links, third);
    Ok(())
}

// The names, the faults and the answered frames of the dials, in the order in which they were hung
// up.
const DIALS: [(&str, u64, &[u8]); 3] = [
    ("anna.journal", 1, b"abcd"),
    ("bert.journal", 1, b""),
    ("anna.journal", 0, b"gh"),
];

#[test]
fn dials_are_answered_by_plan(rt: HostRuntime) -> Result<(), Fail> {
    let alloc = rt.alloc();
    let mut links = MemoryLinks::new(alloc, Vec::new(alloc));
    links.plan_dials(vec![in alloc; Plan::At(vec![in alloc; 1]?), Plan::From(0)]?);
    exchange_by_three(&rt, alloc, &mut links)?;
    checks::faults(&rt, links.faults(), 0);
    let back = links.dials_back();
    checks::count(&rt, "dials", back.len(), 3);
    for (dial, (name, faults, frames)) in back.iter().zip(&DIALS) {
        checks::bytes(&rt, "name", dial.name().as_bytes(), name.as_bytes());
        checks::faults(&rt, dial.faults(), *faults);
        checks::bytes(&rt, "frames", &frames_of(alloc, dial)?, frames);
    }
    Ok(())
}

// The frames that a dial was answered, one behind the other.
fn frames_of(alloc: Global, dial: &MemoryDial) -> Result<Vec<u8>, AllocError> {
    let mut frames = Vec::new(alloc);
    for one in dial.exchanges() {
        frames.extend_from_slice(one.frame.as_slice())?;
    }
    Ok(frames)
}
