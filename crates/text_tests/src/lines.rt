//! Lines, replies and pass phrases.

use cqe_base::user::{Mark, Method, User};
use line_protocol::{LineBuffer, LineOutcome, Reply, login_ok, read_line, write_reply};
use outside::{Failed, MemorySink, MemorySource, Pieces, Plan};
use std::alloc::Global;
use std::process::Abort;
use std::test::Fail;

// The sizes of the pieces in which each table is cut.
const CUTS: [usize; 4] = [1, 2, 7, 4096];

/// The bytes of a text.
fn bytes_of(rt: &impl Abort, alloc: Global, text: &str) -> Vec<u8> {
    match Vec::from_slice(alloc, text.as_bytes()) {
        Ok(bytes) => bytes,
        Err(_) => panic!(rt; "no memory for a text"),
    }
}

/// The one call of this number fails.
fn only(rt: &impl Abort, alloc: Global, call: usize) -> Plan {
    match Vec::from_array(alloc, [call as u64]) {
        Ok(calls) => Plan::At(calls),
        Err(_) => panic!(rt; "no memory for a plan"),
    }
}

fn next_line(source: &mut MemorySource, buffer: &mut LineBuffer) -> LineOutcome {
    read_line(source, buffer)
}

fn push(rt: &impl Abort, text: &mut Vec<u8>, more: &[u8]) {
    if text.extend_from_slice(more).is_err() {
        panic!(rt; "no memory for a transcript");
    }
}

// Writes the next line with a bar behind it, a stroke for a call that failed, or how reading ended.
// It says whether reading goes on.
fn read_on(
    rt: &impl Abort,
    source: &mut MemorySource,
    buffer: &mut LineBuffer,
    text: &mut Vec<u8>,
) -> bool {
    match next_line(source, buffer) {
        LineOutcome::Line => {
            push(rt, text, buffer.line());
            push(rt, text, b"|");
            true
        }
        LineOutcome::ReadFault => {
            push(rt, text, b"/");
            true
        }
        LineOutcome::End => {
            push(rt, text, b"end");
            false
        }
        LineOutcome::TooLong => {
            push(rt, text, b"long");
            false
        }
    }
}

// The lines of a source, and how reading ended; where a call fails reading goes on.
fn transcript(rt: &impl Abort, alloc: Global, mut source: MemorySource) -> Vec<u8> {
    let mut buffer = LineBuffer::new();
    let mut text = Vec::new(alloc);
    for _ in 0..12 {
        if !read_on(rt, &mut source, &mut buffer, &mut text) {
            break;
        }
    }
    text
}

// The transcript of these bytes in such pieces, where calls fail by this plan.
fn check_lines(rt: &impl Abort, alloc: Global, bytes: &str, cut: usize, plan: Plan, want: &str) {
    let bytes = bytes_of(rt, alloc, bytes);
    let source = MemorySource::with_plan(bytes, Pieces::UpTo(cut), plan);
    let text = transcript(rt, alloc, source);
    assert_eq!(rt; text.as_slice(), want.as_bytes());
}

const LINES: [(&str, &str); 12] = [
    ("", "end"),
    ("\n", "|end"),
    ("\r\n", "|end"),
    ("\r", "\r|end"),
    ("a", "a|end"),
    ("a\n", "a|end"),
    ("a\r\n", "a|end"),
    ("a\r", "a\r|end"),
    ("a\r\r\nb", "a\r|b|end"),
    ("a\rb\n\rc", "a\rb|\rc|end"),
    ("a\n\n\r\n \nb", "a||| |b|end"),
    ("ask drug(ann)\r\nquit\n", "ask drug(ann)|quit|end"),
];

fn check_cuts(rt: &impl Abort, alloc: Global, bytes: &str, want: &str) {
    for cut in &CUTS {
        check_lines(rt, alloc, bytes, *cut, Plan::Never, want);
    }
}

#[test]
fn lines_end_with_a_line_feed(rt: HostRuntime) {
    let alloc = rt.alloc();
    for (bytes, want) in &LINES {
        check_cuts(&rt, alloc, bytes, want);
    }
}

// What is read where this call fails.
const FAILED: [&str; 4] = ["/ab|c|end", "/ab|c|end", "ab|/c|end", "ab|c|/end"];

#[test]
fn a_failed_call_loses_no_byte(rt: HostRuntime) {
    let alloc = rt.alloc();
    let bytes = "ab\r\nc\n";
    for (call, want) in FAILED.iter().enumerate() {
        check_lines(&rt, alloc, bytes, 2, only(&rt, alloc, call), want);
    }
    check_lines(&rt, alloc, bytes, 3, Plan::From(1), "////////////");
}

// So many letters, and this behind them.
fn letters(rt: &impl Abort, alloc: Global, count: usize, end: &str) -> Vec<u8> {
    let Ok(bytes) = Vec::from_elem(alloc, b'a', count) else {
        panic!(rt; "no memory for letters");
    };
    let mut bytes = bytes;
    push(rt, &mut bytes, end.as_bytes());
    bytes
}

// The length of a line that was read, if it was.
fn length_of(outcome: LineOutcome, buffer: &LineBuffer) -> Option<usize> {
    match outcome {
        LineOutcome::Line => Some(buffer.line().len()),
        _ => None,
    }
}

// The length of a source's first line, if it is one, and what comes then.
fn measured(mut source: MemorySource) -> (Option<usize>, LineOutcome) {
    let mut buffer = LineBuffer::new();
    let outcome = next_line(&mut source, &mut buffer);
    let length = length_of(outcome, &buffer);
    (length, next_line(&mut source, &mut buffer))
}

/// So many letters, what is behind them, and the length of the line.
type Long = (usize, &'static str, Option<usize>);

const LONG: [Long; 9] = [
    (4096, "\n", Some(4096)),
    (4097, "\n", None),
    (4095, "\r\n", Some(4095)),
    (4096, "\r\n", None),
    (4096, "", Some(4096)),
    (4097, "", None),
    (4095, "\r", Some(4096)),
    (4096, "\r", None),
    (9000, "\n", None),
];

fn check_long(rt: &impl Abort, alloc: Global, long: &Long, cut: usize) {
    let (count, end, want) = *long;
    let bytes = letters(rt, alloc, count, end);
    let source = MemorySource::with_plan(bytes, Pieces::UpTo(cut), Plan::Never);
    let (seen, next) = measured(source);
    assert_eq!(rt; seen, want);
    let after = match want {
        Some(_) => LineOutcome::End,
        None => LineOutcome::TooLong,
    };
    assert_eq!(rt; next, after);
}

#[test]
fn a_line_has_at_most_4096_bytes(rt: HostRuntime) {
    let alloc = rt.alloc();
    for long in &LONG {
        for cut in &CUTS {
            check_long(&rt, alloc, long, *cut);
        }
    }
}

/// What a sink is written.
fn written(sink: &mut MemorySink, reply: &Reply) -> Result<(), Failed> {
    write_reply(sink, reply)
}

const GREATEST: Reply = Reply::Syntax {
    kind: 255,
    place: 4_294_967_295,
};

const REPLIES: [(Reply, &str); 14] = [
    (Reply::Mark(Mark::Yes), "yes\n"),
    (Reply::Mark(Mark::No), "no\n"),
    (Reply::Mark(Mark::Refused), "refused\n"),
    (Reply::Mark(Mark::Undecided), "undecided\n"),
    (Reply::Mark(Mark::Protected), "protected\n"),
    (Reply::Syntax { kind: 2, place: 0 }, "error 20 2 0\n"),
    (GREATEST, "error 20 255 4294967295\n"),
    (Reply::Code(25), "error 25\n"),
    (Reply::Code(7), "error 7\n"),
    (Reply::Unsafe, "unsafe\n"),
    (Reply::Shape(1), "error 28 1\n"),
    (Reply::Done(256), "done 256\n"),
    (Reply::Welcome, "welcome\n"),
    (Reply::Bye, "bye\n"),
];

fn check_reply(rt: &impl Abort, alloc: Global, reply: &Reply, want: &str) {
    // A second call would fail.
    let mut sink = MemorySink::with_plan(alloc, Pieces::Whole, Plan::From(1));
    assert_eq!(rt; written(&mut sink, reply), Ok(()));
    assert_eq!(rt; sink.bytes(), want.as_bytes());
}

#[test]
fn replies_are_lines(rt: HostRuntime) {
    let alloc = rt.alloc();
    for (reply, want) in &REPLIES {
        check_reply(&rt, alloc, reply, want);
    }
}

const PLACED: Reply = Reply::Syntax { kind: 2, place: 10 };

// A sink that fails at this call has a part of the line.
fn check_failed(rt: &impl Abort, alloc: Global, call: usize, want: &str) {
    let plan = only(rt, alloc, call);
    let mut sink = MemorySink::with_plan(alloc, Pieces::UpTo(5), plan);
    assert_eq!(rt; written(&mut sink, &PLACED), Err(Failed));
    assert_eq!(rt; sink.bytes(), want.as_bytes());
    assert_eq!(rt; sink.faults(), 1);
}

// So does one that takes nothing more.
fn check_stuck(rt: &impl Abort, alloc: Global, sizes: Vec<usize>) {
    let mut sink = MemorySink::with_plan(alloc, Pieces::InTurn(sizes), Plan::Never);
    assert_eq!(rt; written(&mut sink, &PLACED), Err(Failed));
    assert_eq!(rt; sink.bytes(), b"error".as_slice());
}

#[test]
fn a_failed_sink_has_a_part_of_the_line(rt: HostRuntime) -> Result<(), Fail> {
    let alloc = rt.alloc();
    for (call, want) in ["", "error", "error 20 2"].iter().enumerate() {
        check_failed(&rt, alloc, call, want);
    }
    let sizes = Vec::from_array(alloc, [5, 0])?;
    check_stuck(&rt, alloc, sizes);
    Ok(())
}

// The SHA-256 of `abc`, as the standard gives it.
const ABC: [u8; 32] = [
    0xba, 0x78, 0x16, 0xbf, 0x8f, 0x01, 0xcf, 0xea, 0x41, 0x41, 0x40, 0xde, 0x5d, 0xae, 0x22, 0x23,
    0xb0, 0x03, 0x61, 0xa3, 0x96, 0x17, 0x7a, 0x9c, 0xb4, 0x10, 0xff, 0x61, 0xf2, 0x00, 0x15, 0xad,
];

/// A user with this token.
fn user(rt: &impl Abort, alloc: Global, token: Option<[u8; 32]>) -> User {
    let Ok(name) = String::from_str(alloc, "eve") else {
        panic!(rt; "no memory for a name");
    };
    User {
        name,
        method: Method::Refusal,
        know: Vec::new(alloc),
        secrets: Vec::new(alloc),
        pairs: 0,
        budget: 1,
        token,
    }
}

const WRONG: [&str; 5] = ["", "ab", "abd", "ABC", "abc "];

fn check_phrases(rt: &impl Abort, user: &User) {
    assert!(rt; login_ok(user, "abc"));
    for phrase in &WRONG {
        assert!(rt; !login_ok(user, phrase));
    }
}

#[test]
fn a_phrase_opens_by_its_digest(rt: HostRuntime) {
    let alloc = rt.alloc();
    check_phrases(&rt, &user(&rt, alloc, Some(ABC)));
    let tokenless = user(&rt, alloc, None);
    assert!(rt; !login_ok(&tokenless, "abc"));
}
