//! Workloads that the program makes and runs itself.
use super::failing::CALLS;
use super::{Stage, counted, failing_sink, holds, same};
use outside::{MemorySink, Pieces, Plan};
use std::alloc::{AllocError, Global};
use std::process::Abort;
use std::sync::Wait;
use std::test::Fail;
use std::thread::Threads;

const WORDS: [&str; 7] = ["selfrun", "--seed", "7", "--users", "3", "--asks", "60"];

// A workload of one ask.
const SHORT: [&str; 7] = ["selfrun", "--seed", "7", "--users", "1", "--asks", "1"];

fn selfrun(
    rt: &(impl Threads + Wait + Sync),
    alloc: Global,
    words: &[&str],
    sink: MemorySink,
) -> Result<Stage, AllocError> {
    let mut stage = Stage::new(alloc, Plan::Never);
    stage.run_into(rt, alloc, words, "", sink)?;
    Ok(stage)
}

// What it writes where nothing fails.
fn summary(
    rt: &(impl Threads + Wait + Sync + Abort),
    alloc: Global,
    words: &[&str],
) -> Result<Vec<u8>, AllocError> {
    let stage = selfrun(rt, alloc, words, MemorySink::new(alloc))?;
    stage.check_status(rt, 0);
    stage.sink.bytes().to_vec(alloc)
}

// The number behind the word of a line.
fn number_in(line: &str) -> u64 {
    match line.rsplit_once(' ') {
        Some((_, digits)) => digits.parse::<u64>().unwrap_or(1_000_000),
        None => 1_000_000,
    }
}

#[test]
fn the_replies_of_a_workload_are_counted(rt: HostRuntime) -> Result<(), Fail> {
    let alloc = rt.alloc();
    let found = summary(&rt, alloc, &WORDS)?;
    let again = summary(&rt, alloc, &WORDS)?;
    same(&rt, &found, &again, "the same workload");
    let Ok(text) = str::from_utf8(&found) else {
        return Err(Fail::from(AllocError));
    };
    check_summary(&rt, text);
    Ok(())
}

fn check_summary(rt: &impl Abort, text: &str) {
    let first = "seed 7\nusers 3\nasks 60\nyes ";
    holds(rt, text.starts_with(first), first);
    let last = "\nerrors 0\n";
    holds(rt, text.ends_with(last), last);
    counted(rt, marks_in(text) as usize, 60, "marks");
}

// How many of the four marks were given.
fn marks_in(text: &str) -> u64 {
    let mut sum: u64 = 0;
    for line in text.lines().skip(3).take(4) {
        sum = sum.saturating_add(number_in(line));
    }
    sum
}

#[test]
fn a_summary_may_be_cut(rt: HostRuntime) -> Result<(), Fail> {
    let alloc = rt.alloc();
    let sink = MemorySink::with_plan(alloc, Pieces::Whole, Plan::From(2));
    let stage = selfrun(&rt, alloc, &WORDS, sink)?;
    let what = "a sink that fails at its third call";
    stage.check(&rt, 7, "seed 7\nusers 3\n", "cqe: write fault\n", what);
    Ok(())
}

// Each byte is written by a call of its own. What comes where one fails begins what comes where
// none does.
#[test]
fn a_summary_may_be_cut_at_any_call(rt: HostRuntime) -> Result<(), Fail> {
    let alloc = rt.alloc();
    let whole = summary(&rt, alloc, &SHORT)?;
    holds(&rt, whole.len() > 40, "more bytes than calls");
    for call in 0..CALLS {
        a_write_fails(&rt, alloc, &whole, call)?;
    }
    Ok(())
}

fn a_write_fails(
    rt: &(impl Threads + Wait + Sync + Abort),
    alloc: Global,
    whole: &[u8],
    call: u64,
) -> Result<(), AllocError> {
    let sink = failing_sink(alloc, call)?;
    let stage = selfrun(rt, alloc, &SHORT, sink)?;
    check_cut(rt, &stage, whole, call);
    Ok(())
}

fn check_cut(rt: &impl Abort, stage: &Stage, whole: &[u8], call: u64) {
    stage.check_status(rt, 7);
    same(
        rt,
        stage.complaints.bytes(),
        b"cqe: write fault\n",
        "a write failed",
    );
    let part = whole.get(..call as usize);
    assert_eq!(rt; Some(stage.sink.bytes()), part, "call {call}");
}
