//! Sessions over streams in memory. Replies were worked out by hand.
ghost use Rattle.cqe_base.specs.History.{profile_of};
ghost use Rattle.cqe_base.specs.Limits.{KeepsLimits};

use crate::clinic::{Clinic, TOKEN, bytes_of, counter_of, make_clinic, user_by};
use cqe_base::user::{Method, User};
use outside::{MemorySink, MemorySource, OpenGate, Pieces, Plan};
use session_core::{Counters, Ended, serve_session};
use std::alloc::{AllocError, Global};
use std::process::Abort;
use std::sync::Wait;
use std::test::Fail;
use std::thread::Threads;

/// The clinic's liar, who has a token.
fn eve(rt: &impl Abort, alloc: Global, clinic: &Clinic) -> User
    ensures { KeepsLimits clinic.now.schema (profile_of result) }
{
    let mut user = user_by(rt, alloc, clinic, "eve", Method::Lying);
    user.token = Some(TOKEN);
    user
}

/// How a session at the counters of these users over these streams ended.
fn talk_at<R: Abort + Threads + Wait + Sync>(
    rt: &R,
    alloc: Global,
    clinic: &Clinic,
    eve: User,
    ron: User,
    source: &mut MemorySource,
    sink: &mut MemorySink,
) -> Ended
    requires eve { KeepsLimits clinic.now.schema (profile_of eve) }
    requires ron { KeepsLimits clinic.now.schema (profile_of ron) }
{
    let users = [eve, ron];
    let (eve_counter, eve_pass) = counter_of(rt, alloc, clinic, &users[0]);
    let (ron_counter, ron_pass) = counter_of(rt, alloc, clinic, &users[1]);
    let Ok(counters) = Vec::from_array(alloc, [eve_counter, ron_counter]) else {
        panic!(rt; "no memory for counters");
    };
    let Ok(passes) = Vec::from_array(alloc, [eve_pass, ron_pass]) else {
        panic!(rt; "no memory for passes");
    };
    let (counters, mut passes) = Counters::new(&users, counters, passes);
    serve_session(rt, alloc, &counters, &mut passes, source, sink, &OpenGate)
}

/// How a session over these streams ended, at the counters of a liar, and of one who has no token.
fn talk<R: Abort + Threads + Wait + Sync>(
    rt: &R,
    alloc: Global,
    source: &mut MemorySource,
    sink: &mut MemorySink,
) -> Ended {
    let clinic = make_clinic(rt, alloc);
    let eve = eve(rt, alloc, &clinic);
    let ron = user_by(rt, alloc, &clinic, "ron", Method::Refusal);
    talk_at(rt, alloc, &clinic, eve, ron, source, sink)
}

/// A session over these streams ends so, and so much is written; it says how often a read failed.
/// The last two tell which session it is.
fn check<R: Abort + Threads + Wait + Sync>(
    rt: &R,
    alloc: Global,
    mut source: MemorySource,
    mut sink: MemorySink,
    expected: (Ended, &str),
    at: (&str, u64),
) -> u64 {
    let ended = talk(rt, alloc, &mut source, &mut sink);
    let (what, number) = at;
    assert_eq!(rt; sink.bytes(), expected.1.as_bytes(), "{what} {number}");
    assert_eq!(rt; ended, expected.0, "{what} {number}");
    source.faults()
}

/// What a client says, how the session ends, and what he is told.
type Talk = (&'static str, Ended, &'static str);

const TALKS: [Talk; 5] = [
    (
        "ask true\nlogin eve wrong\nlogin eve abc\nask drug(ann)\nask\nhello\nquit\nask true\n",
        Ended::Quit,
        "error 25\nerror 25\nwelcome\nno\nerror 20 2 0\nerror 26\nbye\n",
    ),
    // one who has no token, one whom nobody knows, and a second login
    (
        "login ron abc\nlogin zoe abc\r\nlogin eve abc\nlogin eve abc\nask hiv(bob)",
        Ended::InputEnd,
        "error 25\nerror 25\nwelcome\nerror 26\nno\n",
    ),
    ("", Ended::InputEnd, ""),
    ("quit", Ended::Quit, "bye\n"),
    ("\nquit now\n", Ended::InputEnd, "error 26\nerror 26\n"),
];

fn check_talk<R: Abort + Threads + Wait + Sync>(rt: &R, alloc: Global, talk: &Talk) {
    let (input, end, output) = *talk;
    let source = MemorySource::new(bytes_of(rt, alloc, input));
    let sink = MemorySink::new(alloc);
    let _faults = check(rt, alloc, source, sink, (end, output), (input, 0));
}

// The liar is told `no` of `drug(ann)`, which is true and would give the secret away, and `no` of
// `hiv(bob)`.
#[test]
fn a_session_is_answered_line_for_line(rt: HostRuntime) {
    let alloc = rt.alloc();
    for talk in &TALKS {
        check_talk(&rt, alloc, talk);
    }
}

/// A line, and one of 4,097 bytes behind it.
fn with_long_line(alloc: Global) -> Result<Vec<u8>, AllocError> {
    let mut bytes = Vec::from_slice(alloc, b"hello\n")?;
    for _ in 0..4_097 {
        bytes.push(b'a')?;
    }
    Ok(bytes)
}

// It comes in one piece; a read behind it would fail.
fn check_long_line<R: Abort + Threads + Wait + Sync>(rt: &R, alloc: Global) {
    let Ok(long) = with_long_line(alloc) else {
        panic!(rt; "no memory for a line");
    };
    let source = MemorySource::with_plan(long, Pieces::Whole, Plan::From(1));
    let expected = (Ended::TooLong, "error 26\nerror 26\n");
    let faults = check(
        rt,
        alloc,
        source,
        MemorySink::new(alloc),
        expected,
        ("long", 0),
    );
    assert_eq!(rt; faults, 0);
}

/// The second read fails.
fn check_second_read<R: Abort + Threads + Wait + Sync>(rt: &R, alloc: Global) {
    let input = bytes_of(rt, alloc, "hello\nhello\n");
    let source = MemorySource::with_plan(input, Pieces::UpTo(6), Plan::From(1));
    let expected = (Ended::ReadFault, "error 26\n");
    let _faults = check(
        rt,
        alloc,
        source,
        MemorySink::new(alloc),
        expected,
        ("read", 1),
    );
}

/// The second write fails.
fn check_second_write<R: Abort + Threads + Wait + Sync>(rt: &R, alloc: Global) {
    let source = MemorySource::new(bytes_of(rt, alloc, "hello\nquit\n"));
    let sink = MemorySink::with_plan(alloc, Pieces::Whole, Plan::From(1));
    let expected = (Ended::WriteFault, "error 26\n");
    let _faults = check(rt, alloc, source, sink, expected, ("write", 1));
}

#[test]
fn each_end_has_its_cause(rt: HostRuntime) {
    let alloc = rt.alloc();
    check_long_line(&rt, alloc);
    check_second_read(&rt, alloc);
    check_second_write(&rt, alloc);
}

// Each line comes in a piece of its own, and the read behind `quit` would fail. A client who waits
// for a reply before he goes on gets it, and one who is silent behind `quit` isn't waited for.
#[test]
fn a_line_is_answered_before_more_is_read(rt: HostRuntime) -> Result<(), Fail> {
    let alloc = rt.alloc();
    let lines = Pieces::InTurn(Vec::from_array(alloc, [14, 13, 5])?);
    let input = bytes_of(&rt, alloc, "login eve abc\nask hiv(bob)\nquit\nquit\n");
    let source = MemorySource::with_plan(input, lines, Plan::From(3));
    let expected = (Ended::Quit, "welcome\nno\nbye\n");
    let faults = check(
        &rt,
        alloc,
        source,
        MemorySink::new(alloc),
        expected,
        ("line", 0),
    );
    assert_eq!(rt; faults, 0);
    Ok(())
}

/// The lines are of 14, 14 and 13 bytes.
const INPUT: &str = "login eve abc\nask drug(ann)\nask hiv(bob)\n";

/// The replies are of 8, 3 and 3 bytes.
const OUTPUT: &str = "welcome\nno\nno\n";

/// The one call of this number fails.
fn only(rt: &impl Abort, alloc: Global, call: u64) -> Plan {
    let Ok(calls) = Vec::from_array(alloc, [call]) else {
        panic!(rt; "no memory for a plan");
    };
    Plan::At(calls)
}

/// What came whole before this read is answered.
fn heard_before(call: u64) -> &'static str {
    match call {
        0..14 => "",
        14..28 => "welcome\n",
        _ => "welcome\nno\n",
    }
}

/// What is written before this write fails, and how the session ends.
fn written_before(call: u64) -> (Ended, &'static str) {
    match OUTPUT.get(..call as usize) {
        Some(part) if call < 14 => (Ended::WriteFault, part),
        _ => (Ended::InputEnd, OUTPUT),
    }
}

fn check_read<R: Abort + Threads + Wait + Sync>(rt: &R, alloc: Global, call: u64) {
    let input = bytes_of(rt, alloc, INPUT);
    let source = MemorySource::with_plan(input, Pieces::UpTo(1), only(rt, alloc, call));
    let expected = (Ended::ReadFault, heard_before(call));
    let faults = check(
        rt,
        alloc,
        source,
        MemorySink::new(alloc),
        expected,
        ("read", call),
    );
    assert_eq!(rt; faults, 1, "read {call}");
}

fn check_write<R: Abort + Threads + Wait + Sync>(rt: &R, alloc: Global, call: u64) {
    let source = MemorySource::new(bytes_of(rt, alloc, INPUT));
    let sink = MemorySink::with_plan(alloc, Pieces::UpTo(1), only(rt, alloc, call));
    let _faults = check(
        rt,
        alloc,
        source,
        sink,
        written_before(call),
        ("write", call),
    );
}

// Each byte comes and goes by a call of its own: a read fails, or a write. What came whole is
// answered, and what was written is a beginning of the replies.
#[test]
fn an_end_may_fail_at_any_call(rt: HostRuntime) {
    let alloc = rt.alloc();
    for call in 0..40 {
        check_read(&rt, alloc, call);
        check_write(&rt, alloc, call);
    }
}

/// What is written of a list before each write.
const LISTED: [&str; 8] = [
    "",
    "welcome\n",
    "welcome\nann",
    "welcome\nann ",
    "welcome\nann no\n",
    "welcome\nann no\nbob",
    "welcome\nann no\nbob ",
    "welcome\nann no\nbob no\n",
];

fn check_list<R: Abort + Threads + Wait + Sync>(rt: &R, alloc: Global, call: u64, want: &str) {
    let input = "login eve abc\nlist 1 exists x: person . hiv(x)\n";
    let source = MemorySource::new(bytes_of(rt, alloc, input));
    let sink = MemorySink::with_plan(alloc, Pieces::Whole, Plan::From(call));
    let expected = (Ended::WriteFault, want);
    let _faults = check(rt, alloc, source, sink, expected, ("write", call));
}

// Ann's line and Bob's go in three pieces each, then comes the end. Where the client has gone away,
// what he has is a beginning of the reply.
#[test]
fn a_list_may_fail_at_any_call(rt: HostRuntime) {
    let alloc = rt.alloc();
    for (call, want) in LISTED.iter().enumerate() {
        check_list(&rt, alloc, call as u64, want);
    }
}
