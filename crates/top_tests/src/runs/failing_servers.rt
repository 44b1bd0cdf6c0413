//! Runs of `serve`, by one worker, in each of which one call of one object fails: of the door, of a
//! client's ends, of a disk or of the shelf.
use super::failing::{CALLS, OPENING, lines, marks_before, records_at, ward_failing};
use super::serve::{CLIENTS, check_served, door_links, links_of, one_client, serve, served};
use super::ward::{JOURNALS, check_empty, check_told, check_told_first, journal, ward_by};
use super::{Stage, counted_at, failing_at, front};
use outside::{Connection, MemorySink, MemorySource, Pieces, Plan};
use std::alloc::{AllocError, Global};
use std::process::Abort;
use std::sync::Wait;
use std::test::Fail;
use std::thread::Threads;

// What a client says, in lines of 14 bytes, and what he is told, in lines of 8, 3 and 3.
const ASKS: &str = "login eve abc\nask drug(ann)\nask drug(ann)\n";

const ANSWERS: &str = "welcome\nno\nno\n";

// Eve's journal where so many clients of the ward were served: the first asks of ann's drug and of
// bob's infection, the second of this alone, and the others of nothing.
fn after_clients(alloc: Global, count: usize) -> Result<Vec<u8>, AllocError> {
    let mut bytes = journal(alloc, &[])?;
    if count > 0 {
        bytes.extend_from_slice(b"\x01\x02\x00\x09drug(ann)\x01\x02\x00\x08hiv(bob)")?;
    }
    if count > 1 {
        bytes.extend_from_slice(b"\x01\x02\x00\x08hiv(bob)")?;
    }
    bytes.push(0)?;
    Ok(bytes)
}

// A call of the door gives each of the five clients, and one more says that there is none. Those
// who came before the call that failed are served, and the others are left.
#[test]
fn a_door_may_fail_at_any_call(rt: HostRuntime) -> Result<(), Fail> {
    let alloc = rt.alloc();
    for call in 0..CALLS {
        let mut stage = ward_by(alloc, Plan::Never)?;
        a_door_fails(&rt, alloc, &mut stage, call)?;
        check_clients(&rt, alloc, &stage, call)?;
    }
    Ok(())
}

fn a_door_fails(
    rt: &(impl Threads + Wait + Sync + Abort),
    alloc: Global,
    stage: &mut Stage,
    call: u64,
) -> Result<(), AllocError> {
    stage.set_links(door_links(alloc, failing_at(alloc, call)?)?);
    serve(rt, alloc, &["--workers=1"], stage)?;
    if call < 6 {
        stage.check(rt, 12, "", "cqe: links fault\n", "a door that fails");
    } else {
        stage.check(rt, 0, "", "", "a door that doesn't fail");
    }
    Ok(())
}

fn check_clients(
    rt: &impl Abort,
    alloc: Global,
    stage: &Stage,
    call: u64,
) -> Result<(), AllocError> {
    let given = (call as usize).min(5);
    counted_at(rt, served(rt, stage, &CLIENTS), given, "served", call);
    let all = stage.links.left().saturating_add(given);
    counted_at(rt, all, 5, "served or left", call);
    let kept = after_clients(alloc, given)?;
    stage.check_disk(rt, "d/eve.log", &kept, call);
    Ok(())
}

// A client who sends the asks, each byte by a call of its own of which one fails.
fn failing_to_send(alloc: Global, call: u64) -> Result<Connection, AllocError> {
    let plan = failing_at(alloc, call)?;
    let bytes = ASKS.as_bytes().to_vec(alloc)?;
    let source = MemorySource::with_plan(bytes, Pieces::UpTo(1), plan);
    Ok(Connection::new(source, MemorySink::new(alloc)))
}

// A client who sends the asks and gets the answers, each byte by a call of its own of which one
// fails.
fn failing_to_get(alloc: Global, call: u64) -> Result<Connection, AllocError> {
    let plan = failing_at(alloc, call)?;
    let source = MemorySource::new(ASKS.as_bytes().to_vec(alloc)?);
    let sink = MemorySink::with_plan(alloc, Pieces::UpTo(1), plan);
    Ok(Connection::new(source, sink))
}

// Serves this client.
fn served_to(
    rt: &(impl Threads + Wait + Sync + Abort),
    alloc: Global,
    client: Connection,
) -> Result<Stage, AllocError> {
    let links = one_client(alloc, client)?;
    let mut stage = ward_by(alloc, Plan::Never)?;
    stage.set_links(links);
    serve(rt, alloc, &["--workers=1"], &mut stage)?;
    stage.check(rt, 0, "", "", "a client who fails");
    Ok(stage)
}

// Each byte comes by a call of its own. The lines that came whole are answered, and what was
// answered is in the journal. A connection that fails is no fault of the server.
#[test]
fn a_client_may_fail_at_any_byte(rt: HostRuntime) -> Result<(), Fail> {
    let alloc = rt.alloc();
    for call in 0..CALLS {
        let stage = served_to(&rt, alloc, failing_to_send(alloc, call)?)?;
        check_sent(&rt, alloc, &stage, call)?;
    }
    Ok(())
}

fn check_sent(rt: &impl Abort, alloc: Global, stage: &Stage, call: u64) -> Result<(), AllocError> {
    let (answer, count) = match call {
        0..14 => ("", 0),
        14..28 => ("welcome\n", 0),
        _ => ("welcome\nno\n", 1),
    };
    check_served(rt, stage, ASKS, answer, call);
    check_told(rt, alloc, stage, "d/eve.log", count, call)
}

// Each byte is written by a call of its own. The ask of the line that failed was carried out, and
// none behind it.
#[test]
fn an_answer_may_fail_at_any_byte(rt: HostRuntime) -> Result<(), Fail> {
    let alloc = rt.alloc();
    for call in 0..CALLS {
        let stage = served_to(&rt, alloc, failing_to_get(alloc, call)?)?;
        check_got(&rt, alloc, &stage, call)?;
    }
    Ok(())
}

fn check_got(rt: &impl Abort, alloc: Global, stage: &Stage, call: u64) -> Result<(), AllocError> {
    check_served(rt, stage, ASKS, front(ANSWERS, call), call);
    let count = match call {
        0..8 => 0,
        8..11 => 1,
        _ => 2,
    };
    check_told(rt, alloc, stage, "d/eve.log", count, call)
}

// As in a batch: nine asks make forty calls of eve's disk.
#[test]
fn a_served_disk_may_fail_at_any_call(rt: HostRuntime) -> Result<(), Fail> {
    let alloc = rt.alloc();
    let asks = lines(alloc, "login eve abc\n", 1, "ask drug(ann)\n", 10)?;
    for call in 0..CALLS {
        a_disk_fails(&rt, alloc, asks.as_str(), call)?;
    }
    Ok(())
}

fn a_disk_fails(
    rt: &(impl Threads + Wait + Sync + Abort),
    alloc: Global,
    asks: &str,
    call: u64,
) -> Result<(), AllocError> {
    let mut stage = ward_failing(alloc, call)?;
    stage.set_links(links_of(alloc, &[asks])?);
    serve(rt, alloc, &["--workers=1"], &mut stage)?;
    check_answer(rt, alloc, &stage, asks, call)?;
    check_told_first(rt, alloc, &stage, "d/eve.log", records_at(call), call)
}

fn check_answer(
    rt: &impl Abort,
    alloc: Global,
    stage: &Stage,
    asks: &str,
    call: u64,
) -> Result<(), AllocError> {
    let (status, error, complaint) = if call < OPENING {
        (10, "error 41\n", "cqe: journal eve disk fault\n")
    } else {
        (11, "error 40\n", "cqe: disk fault\n")
    };
    stage.check(rt, status, "", complaint, complaint);
    let replies = lines(alloc, "no\n", marks_before(call), error, 9)?;
    let mut answer = String::from_str(alloc, "welcome\n")?;
    answer.push_str(replies.as_str())?;
    check_served(rt, stage, asks, answer.as_str(), call);
    Ok(())
}

// The calls of the shelf are the reading of both files, and the taking of six disks.
#[test]
fn a_shelf_that_fails_serves_nobody(rt: HostRuntime) -> Result<(), Fail> {
    let alloc = rt.alloc();
    for call in 0..CALLS {
        a_shelf_fails(&rt, alloc, call)?;
    }
    Ok(())
}

fn a_shelf_fails(
    rt: &(impl Threads + Wait + Sync + Abort),
    alloc: Global,
    call: u64,
) -> Result<(), AllocError> {
    let mut stage = ward_by(alloc, failing_at(alloc, call)?)?;
    stage.set_links(links_of(alloc, &["login eve abc\nask ann\n"])?);
    serve(rt, alloc, &["--workers=1"], &mut stage)?;
    if call < 8 {
        stage.check(rt, 9, "", "cqe: shelf fault\n", "a shelf that fails");
        stage.check_left(rt, 1);
    } else {
        stage.check(rt, 0, "", "", "a shelf that doesn't fail");
        stage.check_left(rt, 0);
    }
    check_empty(rt, alloc, &stage, &JOURNALS, call)
}
