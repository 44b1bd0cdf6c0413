//! Servers over links in memory.
use super::ward::{FACTS, JOURNALS, POLICY, files_by, init, journal, stage_of, ward, ward_of_eve};
use super::{Fails, Stage, counted, counted_at, failing_at, same};
use outside::{
    Connection, Finished, Gate, MemoryLinks, MemorySink, MemorySource, OpenGate, Plan, Point,
};
use std::alloc::{AllocError, Global};
use std::process::Abort;
use std::sync::Wait;
use std::sync::atomic::AtomicU64;
use std::sync::atomic::Ordering::SeqCst;
use std::test::Fail;
use std::thread;
use std::thread::Threads;

/// The words of `serve` without its numbers.
pub(super) const SERVE: [&str; 9] = [
    "serve",
    "--policy",
    "p",
    "--facts",
    "f",
    "--journals",
    "d",
    "--listen",
    "here",
];

// `serve` with these further words on this shelf, where each ask passes the gate.
fn serve_by(
    rt: &(impl Threads + Wait + Sync),
    alloc: Global,
    numbers: &[&'static str],
    stage: &mut Stage,
    gate: &(impl Gate + Sync),
) -> Result<(), AllocError> {
    let mut words = SERVE.to_vec(alloc)?;
    words.extend_from_slice(numbers)?;
    let source = MemorySource::new(b"not read".to_vec(alloc)?);
    stage.set_streams(source, MemorySink::new(alloc), MemorySink::new(alloc));
    stage.run_gated(rt, alloc, &words, gate)
}

/// `serve` with these further words on this shelf; each ask passes at once.
pub(super) fn serve(
    rt: &(impl Threads + Wait + Sync),
    alloc: Global,
    numbers: &[&'static str],
    stage: &mut Stage,
) -> Result<(), AllocError> {
    serve_by(rt, alloc, numbers, stage, &OpenGate)
}

// A client who sends this text.
fn client_of(alloc: Global, text: &str) -> Result<Connection, AllocError> {
    let source = MemorySource::new(text.as_bytes().to_vec(alloc)?);
    Ok(Connection::new(source, MemorySink::new(alloc)))
}

// Clients who send these texts.
fn clients(alloc: Global, texts: &[&str]) -> Result<Vec<Connection>, AllocError> {
    let mut clients = Vec::new(alloc);
    for text in texts {
        clients.push(client_of(alloc, text)?)?;
    }
    Ok(clients)
}

/// Links with clients who send these texts.
pub(super) fn links_of(alloc: Global, texts: &[&str]) -> Result<MemoryLinks, AllocError> {
    let clients = clients(alloc, texts)?;
    Ok(MemoryLinks::new(alloc, clients))
}

/// Links with one client.
pub(super) fn one_client(alloc: Global, client: Connection) -> Result<MemoryLinks, AllocError> {
    let mut connections = Vec::new(alloc);
    connections.push(client)?;
    Ok(MemoryLinks::new(alloc, connections))
}

/// How many clients were served; each who sent the text of a row has got its answer.
pub(super) fn served(rt: &impl Abort, stage: &Stage, rows: &[(&str, &str)]) -> usize {
    let mut count: usize = 0;
    for door in stage.links.doors_back() {
        count = count.saturating_add(served_at(rt, door.finished(), rows));
    }
    count
}

// The same of the clients of one door.
fn served_at(rt: &impl Abort, clients: &[Finished], rows: &[(&str, &str)]) -> usize {
    let mut count: usize = 0;
    for client in clients {
        count = count.saturating_add(rows_of(rt, client, rows));
    }
    count
}

// How many rows have the text that a client sent.
fn rows_of(rt: &impl Abort, client: &Finished, rows: &[(&str, &str)]) -> usize {
    let mut count: usize = 0;
    for (text, answer) in rows {
        if text.as_bytes() == client.source.held() {
            same(rt, client.sink.bytes(), answer.as_bytes(), text);
            count = count.saturating_add(1);
        }
    }
    count
}

// So many clients were served; each who sent the text of a row has got its answer.
fn check_count(rt: &impl Abort, stage: &Stage, rows: &[(&str, &str)], count: usize) {
    counted(
        rt,
        served(rt, stage, rows),
        count,
        "clients that were served",
    );
}

/// One client was served, who sent this text and got this answer, where this call failed.
pub(super) fn check_served(rt: &impl Abort, stage: &Stage, text: &str, answer: &str, call: u64) {
    let count = served(rt, stage, &[(text, answer)]);
    counted_at(rt, count, 1, answer, call);
}

/// What clients of the ward send, in any order, and what they get: eve is told no of what is true
/// and would give her secret away, and no of what is false; ron has no token.
pub(super) const CLIENTS: [(&str, &str); 5] = [
    (
        "login eve abc\nask drug(ann)\nask hiv(bob)\nquit\nask true\n",
        "welcome\nno\nno\nbye\n",
    ),
    ("login eve abc\r\nask hiv(bob)", "welcome\nno\n"),
    (
        "ask true\nlogin ron abc\nlogin eve wrong\n",
        "error 25\nerror 25\nerror 25\n",
    ),
    (
        "login eve abc\nask hiv(ann\nhello\n",
        "welcome\nerror 20 2 7\nerror 26\n",
    ),
    ("", ""),
];

/// Links with these clients, in this order, which fail by plan, as their doors do.
fn ward_links(alloc: Global, plan: Plan, door_plans: Vec<Plan>) -> Result<MemoryLinks, AllocError> {
    let mut clients = Vec::new(alloc);
    for (text, _) in CLIENTS {
        clients.push(client_of(alloc, text)?)?;
    }
    Ok(MemoryLinks::with_plans(alloc, clients, plan, door_plans))
}

/// The same, where the first door fails by plan.
pub(super) fn door_links(alloc: Global, plan: Plan) -> Result<MemoryLinks, AllocError> {
    let mut door_plans = Vec::new(alloc);
    door_plans.push(plan)?;
    ward_links(alloc, Plan::Never, door_plans)
}

// Words about workers and sessions, and how many doors they open.
const NUMBERS: [(&[&str], u32); 4] = [
    (&[], 4),
    (&["--workers", "1"], 1),
    (&["--workers=2", "--sessions=100"], 2),
    (&["--workers", "64"], 64),
];

#[test]
fn each_worker_has_a_door(rt: HostRuntime) -> Result<(), Fail> {
    let alloc = rt.alloc();
    for (numbers, doors) in NUMBERS {
        let mut stage = ward(&rt, alloc)?;
        serve(&rt, alloc, numbers, &mut stage)?;
        stage.check(&rt, 0, "", "", "no client");
        check_listened(&rt, &stage, doors);
    }
    Ok(())
}

// It listened once, with so many doors.
fn check_listened(rt: &impl Abort, stage: &Stage, doors: u32) {
    counted(rt, stage.links.faults() as usize, 0, "faults of the links");
    let places = stage.links.listened();
    counted(rt, places.len(), 1, "places");
    for place in places {
        same(rt, place.address.as_bytes(), b"here", "the address");
        counted(rt, place.doors as usize, doors as usize, "doors");
    }
}

#[test]
fn nobody_listens(rt: HostRuntime) -> Result<(), Fail> {
    let alloc = rt.alloc();
    let mut stage = files_by(alloc, Plan::Never)?;
    stage.set_links(ward_links(alloc, Plan::From(0), Vec::new(alloc))?);
    serve(&rt, alloc, &[], &mut stage)?;
    stage.check(&rt, 12, "", "cqe: links fault\n", "links that fail");
    check_untouched(&rt, &stage);
    Ok(())
}

// No client came, and no journal was taken.
fn check_untouched(rt: &impl Abort, stage: &Stage) {
    stage.check_left(rt, 5);
    for name in JOURNALS {
        stage.check_no_disk(rt, name);
    }
}

// One worker's door fails at its second call: what was served by then is answered, and the disks
// are back.
#[test]
fn a_door_fails(rt: HostRuntime) -> Result<(), Fail> {
    let alloc = rt.alloc();
    let mut stage = ward(&rt, alloc)?;
    stage.set_links(door_links(alloc, Plan::From(1))?);
    serve(&rt, alloc, &["--workers=1"], &mut stage)?;
    stage.check(&rt, 12, "", "cqe: links fault\n", "a door that fails");
    check_one_visit(&rt, alloc, &stage)?;
    Ok(())
}

// The first client alone came.
fn check_one_visit(rt: &impl Abort, alloc: Global, stage: &Stage) -> Result<(), AllocError> {
    check_count(rt, stage, &CLIENTS, 1);
    stage.check_left(rt, 4);
    let wanted = journal(
        alloc,
        b"\x01\x02\x00\x09drug(ann)\x01\x02\x00\x08hiv(bob)\x00",
    )?;
    stage.check_disk(rt, "d/eve.log", &wanted, 1);
    Ok(())
}

// A call of the shelf that fails, whether the links listen, the status and the complaint. The calls
// are the reading of both files, and then the taking of six disks.
const CAUSES: [(u64, bool, u8, &str); 5] = [
    (0, false, 9, "cqe: shelf fault\n"),
    (1, false, 9, "cqe: shelf fault\n"),
    (2, false, 12, "cqe: links fault\n"),
    (2, true, 9, "cqe: shelf fault\n"),
    (7, true, 9, "cqe: shelf fault\n"),
];

// The one file that there is, by its name and text, the status and the complaint.
const FILES: [(&str, &str, u8, &str); 3] = [
    ("other", POLICY, 8, "cqe: missing p\n"),
    ("p", POLICY, 8, "cqe: missing f\n"),
    ("p", "version = 3", 3, "cqe: policy 9\n"),
];

// Files, then listening, then the journals, then the run, and at its end the journals that were
// refused.
#[test]
fn causes_come_in_their_order(rt: HostRuntime) -> Result<(), Fail> {
    let alloc = rt.alloc();
    for (call, listens, status, complaint) in CAUSES {
        let plan = if listens { Plan::Never } else { Plan::From(0) };
        a_shelf_fails(&rt, alloc, call, plan, status, complaint)?;
    }
    for (name, text, status, complaint) in FILES {
        a_file_is_refused(&rt, alloc, name, text, status, complaint)?;
    }
    Ok(())
}

fn a_shelf_fails(
    rt: &(impl Threads + Wait + Sync + Abort),
    alloc: Global,
    call: u64,
    links: Plan,
    status: u8,
    complaint: &str,
) -> Result<(), AllocError> {
    let links = ward_links(alloc, links, Vec::new(alloc))?;
    let mut stage = files_by(alloc, failing_at(alloc, call)?)?;
    stage.set_links(links);
    serve(rt, alloc, &[], &mut stage)?;
    stage.check(rt, status, "", complaint, complaint);
    stage.check_left(rt, 5);
    Ok(())
}

fn a_file_is_refused(
    rt: &(impl Threads + Wait + Sync + Abort),
    alloc: Global,
    name: &str,
    text: &str,
    status: u8,
    complaint: &str,
) -> Result<(), AllocError> {
    let mut stage = Stage::new(alloc, Plan::Never);
    stage.put_file(alloc, name, text.as_bytes())?;
    let clients = Vec::new(alloc);
    stage.set_links(MemoryLinks::with_plans(alloc, clients, Plan::From(0), Vec::new(alloc)));
    serve(rt, alloc, &[], &mut stage)?;
    stage.check(rt, status, "", complaint, complaint);
    Ok(())
}

// What eve asks in the rows below.
const ASKS: &str = "login eve abc\nask drug(ann)\nask hiv(bob)\n";

// Which calls of eve's disk fail, whether ron's journal is whole, the status, eve's answer and the
// complaint.
const JOURNAL_FAULTS: [(Fails, bool, u8, &str, &str); 4] = [
    (
        Fails::At(5),
        true,
        11,
        "welcome\nerror 40\nerror 40\n",
        "cqe: disk fault\n",
    ),
    (
        Fails::At(5),
        false,
        10,
        "welcome\nerror 40\nerror 40\n",
        "cqe: journal ron not a journal\n",
    ),
    (
        Fails::At(0),
        true,
        10,
        "welcome\nerror 41\nerror 41\n",
        "cqe: journal eve disk fault\n",
    ),
    (Fails::From(12), true, 0, "welcome\nno\nno\n", ""),
];

// A disk that fails is told to its user alone, and a refused journal is the end before it.
#[test]
fn a_journal_is_refused_or_fails(rt: HostRuntime) -> Result<(), Fail> {
    let alloc = rt.alloc();
    for (fails, is_whole, status, answer, complaint) in JOURNAL_FAULTS {
        let mut stage = ward_of_eve(&rt, alloc, fails.plan(alloc)?)?;
        if !is_whole {
            stage.put_disk(alloc, "d/ron.log", b"abc".to_vec(alloc)?, Plan::Never)?;
        }
        serve_eve(&rt, alloc, &mut stage)?;
        stage.check(&rt, status, "", complaint, complaint);
        check_served(&rt, &stage, ASKS, answer, 0);
    }
    Ok(())
}

fn serve_eve(
    rt: &(impl Threads + Wait + Sync),
    alloc: Global,
    stage: &mut Stage,
) -> Result<(), AllocError> {
    stage.set_links(links_of(alloc, &[ASKS])?);
    serve(rt, alloc, &[], stage)
}

// Behind an append that failed each later session of the user is answered so too, although the disk
// works again.
#[test]
fn a_failed_append_is_told_in_later_sessions_too(rt: HostRuntime) -> Result<(), Fail> {
    let alloc = rt.alloc();
    let asks = "login eve abc\nask drug(ann)\n";
    let mut stage = ward_of_eve(&rt, alloc, failing_at(alloc, 5)?)?;
    stage.set_links(links_of(alloc, &[asks, asks, asks])?);
    serve(&rt, alloc, &["--workers", "1"], &mut stage)?;
    stage.check(&rt, 11, "", "cqe: disk fault\n", "three sessions");
    check_count(&rt, &stage, &[(asks, "welcome\nerror 40\n")], 3);
    Ok(())
}

// Two users who can log in with `abc`.
const TWO: &str = "version = 1\n
[domains]
person = [\"ann\"]\n
[relations]
drug = [\"person\"]
hiv = [\"person\"]\n
[[users]]
name = \"eve\"
method = \"lying\"
know = [\"forall x: person . drug(x) -> hiv(x)\"]
secrets = [\"hiv(ann)\"]
token = \"ba7816bf8f01cfea414140de5dae2223b00361a396177a9cb410ff61f20015ad\"\n
[[users]]
name = \"kim\"
method = \"lying\"
secrets = [\"hiv(ann)\"]
token = \"ba7816bf8f01cfea414140de5dae2223b00361a396177a9cb410ff61f20015ad\"
";

/// So many turns an ask waits for another one at most.
const PATIENCE: u64 = 1 << 22;

/// A gate that holds each ask of eve's, once its text was examined, until an ask of kim's is
/// settled.
#[derive(Drop)]
struct Hold {
    settled: AtomicU64,
    given_up: AtomicU64,
}

impl Gate for Hold {
    fn pass(&self, user: &str, point: Point) {
        if user == "kim" && point == Point::Settled {
            self.settled.store(1, SeqCst);
        }
        if user == "eve" && point == Point::Examined && !was_set(&self.settled) {
            self.given_up.store(1, SeqCst);
        }
    }
}

// Waits until a mark is set, a limited time; it says whether it was.
fn was_set(mark: &AtomicU64) -> bool {
    for _ in 0..PATIENCE {
        if mark.load(SeqCst) == 1 {
            return true;
        }
        thread::yield_now();
    }
    false
}

// What each of them sends and gets.
const TWO_CLIENTS: [(&str, &str); 2] = [
    ("login eve abc\nask drug(ann)\n", "welcome\nno\n"),
    ("login kim abc\nask drug(ann)\n", "welcome\nyes\n"),
];

// A shelf with these two and journals, and links with a client of each.
fn two_users(rt: &(impl Threads + Wait + Sync), alloc: Global) -> Result<Stage, AllocError> {
    let mut stage = stage_of(alloc, TWO.as_bytes(), FACTS.as_bytes())?;
    init(rt, alloc, &mut stage)?;
    let links = links_of(alloc, &[TWO_CLIENTS[0].0, TWO_CLIENTS[1].0])?;
    stage.set_links(links);
    Ok(stage)
}

#[test]
fn users_are_served_side_by_side(rt: HostRuntime) -> Result<(), Fail> {
    let alloc = rt.alloc();
    let mut stage = two_users(&rt, alloc)?;
    let hold = Hold {
        settled: AtomicU64::new(0),
        given_up: AtomicU64::new(0),
    };
    serve_by(&rt, alloc, &["--workers=2"], &mut stage, &hold)?;
    stage.check(&rt, 0, "", "", "two users");
    check_count(&rt, &stage, &TWO_CLIENTS, 2);
    let given_up = hold.given_up.load(SeqCst);
    counted(&rt, given_up as usize, 0, "asks that were given up");
    Ok(())
}
