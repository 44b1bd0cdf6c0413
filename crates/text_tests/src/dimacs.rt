//! Files of clauses over streams that fail. Files, statuses and outputs are scenes of `rehearsals`.
use dimacs_text::answer_input;
use outside::{MemorySink, MemorySource, Pieces, Plan};
use std::alloc::Global;
use std::process::Abort;

/// The bytes of a text.
fn bytes(rt: &impl Abort, alloc: Global, text: &str) -> Vec<u8> {
    match Vec::from_slice(alloc, text.as_bytes()) {
        Ok(bytes) => bytes,
        Err(_) => panic!(rt; "no memory for a text"),
    }
}

/// The status with which a source is answered.
fn answered(
    alloc: Global,
    source: &mut MemorySource,
    sink: &mut MemorySink,
    complaints: &mut MemorySink,
) -> u8 {
    answer_input(alloc, source, sink, complaints).status()
}

/// What a source is answered with: the status, the output and the complaint.
fn check(
    rt: &impl Abort,
    alloc: Global,
    source: &mut MemorySource,
    mut sink: MemorySink,
    wanted: (u8, &str, &str),
) {
    let mut complaints = MemorySink::new(alloc);
    let found = answered(alloc, source, &mut sink, &mut complaints);
    let (status, output, complaint) = wanted;
    assert_eq!(rt; complaints.bytes(), complaint.as_bytes());
    assert_eq!(rt; sink.bytes(), output.as_bytes(), "{complaint}");
    assert_eq!(rt; found, status, "{output}");
}

/// Nothing is read behind a line that is refused: the last line stays, and the call that would fail
/// isn't made.
fn check_last(rt: &impl Abort, alloc: Global, source: &mut MemorySource) {
    let wanted = (5, "", "dimacs: refused 1 2\n");
    check(rt, alloc, source, MemorySink::new(alloc), wanted);
    assert_eq!(rt; source.left(), b"1 0\n".as_slice());
    assert_eq!(rt; source.faults(), 0);
}

#[test]
fn a_refused_line_is_the_last_that_is_read(rt: HostRuntime) {
    let alloc = rt.alloc();
    let Ok(lines) = Vec::from_array(alloc, [10, 4]) else {
        panic!(rt; "no memory for pieces");
    };
    let file = bytes(&rt, alloc, "p cnf 1 1\n1 x\n1 0\n");
    let mut source = MemorySource::with_plan(file, Pieces::InTurn(lines), Plan::From(2));
    check_last(&rt, alloc, &mut source);
}

const FILE: &str = "c lrat\np cnf 1 2\n1 0\n-1 0\n";

/// The one call of this number fails.
fn only(rt: &impl Abort, alloc: Global, call: u64) -> Plan {
    match Vec::from_array(alloc, [call]) {
        Ok(calls) => Plan::At(calls),
        Err(_) => panic!(rt; "no memory for a plan"),
    }
}

fn check_read(rt: &impl Abort, alloc: Global, call: u64) {
    let (file, plan) = (bytes(rt, alloc, FILE), only(rt, alloc, call));
    let mut source = MemorySource::with_plan(file, Pieces::UpTo(3), plan);
    let wanted = (6, "", "dimacs: read fault\n");
    check(rt, alloc, &mut source, MemorySink::new(alloc), wanted);
}

fn check_write(rt: &impl Abort, alloc: Global, call: u64, output: &str) {
    let sink = MemorySink::with_plan(alloc, Pieces::UpTo(5), only(rt, alloc, call));
    let mut source = MemorySource::new(bytes(rt, alloc, FILE));
    let wanted = (7, output, "dimacs: write fault\n");
    check(rt, alloc, &mut source, sink, wanted);
}

#[test]
fn faults_are_told(rt: HostRuntime) {
    let alloc = rt.alloc();
    check_read(&rt, alloc, 0);
    check_read(&rt, alloc, 3);
    check_read(&rt, alloc, 9);
    check_write(&rt, alloc, 0, "");
    check_write(&rt, alloc, 2, "c cost 3\ns");
    check_write(&rt, alloc, 6, "c cost 3\ns UNSATISFIABLE\n3 0 1");
}
