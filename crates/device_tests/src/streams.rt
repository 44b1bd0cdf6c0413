ghost use Rattle.std.specs.Prelude.{[]};

use crate::checks;
use outside::{
    Failed, MemorySink, MemorySource, Pieces, Plan, Sink, Source, write_all, write_parts,
};
use std::alloc::{AllocError, Global};
use std::process::Abort;
use std::test::Fail;

// All that a source gives in calls of five bytes, up to its first refusal.
fn taken<S: Source>(alloc: Global, source: &mut S) -> Result<(Vec<u8>, bool), AllocError> {
    let mut all = Vec::new(alloc);
    let mut piece = [0; 5];
    for _ in 0..20 {
        let Ok(count) = source.take(&mut piece) else {
            return Ok((all, false));
        };
        if count == 0 {
            break;
        }
        all.extend_from_slice(&piece[..count])?;
    }
    Ok((all, true))
}

// Checks that a source in such pieces gives all its bytes.
fn check_pieces(rt: &impl Abort, alloc: Global, pieces: Pieces) -> Result<(), AllocError> {
    let bytes = b"ask drug(ann)";
    let mut source = MemorySource::with_plan(bytes.to_vec(alloc)?, pieces, Plan::Never);
    let (all, ended) = taken(alloc, &mut source)?;
    assert!(rt; ended);
    checks::bytes(rt, "taken", &all, bytes);
    check_take(rt, &mut source, &mut [7], Ok(0));
    checks::faults(rt, source.faults(), 0);
    Ok(())
}

#[test]
fn a_source_gives_its_bytes_in_any_pieces(rt: HostRuntime) -> Result<(), Fail> {
    let alloc = rt.alloc();
    check_pieces(&rt, alloc, Pieces::Whole)?;
    check_pieces(&rt, alloc, Pieces::UpTo(0))?;
    check_pieces(&rt, alloc, Pieces::UpTo(3))?;
    check_pieces(&rt, alloc, Pieces::InTurn(Vec::new(alloc)))?;
    check_pieces(&rt, alloc, Pieces::InTurn(vec![in alloc; 4, 0, 9]?))?;
    Ok(())
}

fn take(source: &mut MemorySource, into: &mut [u8]) -> Result<usize, Failed> {
    source.take(into)
}

// Takes a piece, and checks what is answered.
fn check_take(
    rt: &impl Abort,
    source: &mut MemorySource,
    into: &mut [u8],
    want: Result<usize, Failed>,
) {
    assert_eq!(rt; take(source, into), want);
}

#[test]
fn a_source_fails_at_the_named_calls(rt: HostRuntime) -> Result<(), Fail> {
    let alloc = rt.alloc();
    let plan = Plan::At(vec![in alloc; 1, 3]?);
    let mut source = MemorySource::with_plan(b"abcdefg".to_vec(alloc)?, Pieces::UpTo(2), plan);
    let mut piece = [0; 3];
    check_take(&rt, &mut source, &mut piece, Ok(2));
    check_take(&rt, &mut source, &mut piece, Err(Failed));
    checks::bytes(&rt, "left", source.left(), b"cdefg");
    check_take(&rt, &mut source, &mut piece, Ok(2));
    checks::bytes(&rt, "piece", &piece, b"cd\0");
    check_take(&rt, &mut source, &mut piece, Err(Failed));
    check_take(&rt, &mut source, &mut [], Ok(0));
    checks::bytes(&rt, "left", source.left(), b"efg");
    checks::bytes(&rt, "held", source.held(), b"abcdefg");
    checks::faults(&rt, source.faults(), 2);
    let mut stopped = MemorySource::with_plan(Vec::new(alloc), Pieces::Whole, Plan::From(0));
    check_take(&rt, &mut stopped, &mut piece, Err(Failed));
    Ok(())
}

fn write(sink: &mut MemorySink, bytes: &[u8]) -> Result<(), Failed> {
    write_all(sink, bytes)
}

// What is written of seven bytes, and how many faults there are then.
fn check_written(
    rt: &impl Abort,
    alloc: Global,
    pieces: Pieces,
    plan: Plan,
    want: &[u8],
    faults: u64,
) {
    let mut sink = MemorySink::with_plan(alloc, pieces, plan);
    let answer = write(&mut sink, b"refused");
    assert_eq!(rt; answer.is_ok(), faults == 0);
    checks::bytes(rt, "written", sink.bytes(), want);
    checks::faults(rt, sink.faults(), faults);
}

#[test]
fn a_sink_takes_all_or_a_part(rt: HostRuntime) -> Result<(), Fail> {
    let alloc = rt.alloc();
    check_written(&rt, alloc, Pieces::Whole, Plan::Never, b"refused", 0);
    check_written(&rt, alloc, Pieces::UpTo(3), Plan::Never, b"refused", 0);
    check_written(&rt, alloc, Pieces::UpTo(0), Plan::Never, b"", 1);
    check_written(
        &rt,
        alloc,
        Pieces::UpTo(3),
        Plan::At(vec![in alloc; 2]?),
        b"refuse",
        1,
    );
    check_written(&rt, alloc, Pieces::UpTo(2), Plan::From(1), b"re", 1);
    let stuck = Pieces::InTurn(vec![in alloc; 5, 0]?);
    check_written(&rt, alloc, stuck, Plan::Never, b"refus", 1);
    check_lines(&rt, alloc)?;
    Ok(())
}

// Checks that what is written stands one behind the other.
fn check_lines(rt: &impl Abort, alloc: Global) -> Result<(), Failed> {
    let mut sink = MemorySink::new(alloc);
    write(&mut sink, b"")?;
    write(&mut sink, b"yes\n")?;
    write(&mut sink, b"no\n")?;
    checks::bytes(rt, "written", sink.bytes(), b"yes\nno\n");
    Ok(())
}

// A line, nothing, and another line.
fn lines(alloc: Global) -> Result<Vec<String>, AllocError> {
    let lines = vec![in alloc;
        format!(in alloc; "yes\n")?,
        String::new(alloc),
        format!(in alloc; "no\n")?,
    ]?;
    Ok(lines)
}

fn write_lines(sink: &mut MemorySink, lines: &[String]) -> Result<(), Failed> {
    write_parts(sink, lines)
}

fn write_pieces(sink: &mut MemorySink, pieces: &[&[u8]]) -> Result<(), Failed> {
    write_parts(sink, pieces)
}

#[test]
fn parts_are_written_one_after_the_other(rt: HostRuntime) -> Result<(), Fail> {
    let alloc = rt.alloc();
    let mut sink = MemorySink::new(alloc);
    write_lines(&mut sink, &lines(alloc)?)?;
    write_pieces(&mut sink, &[])?;
    write_pieces(&mut sink, &[b"cqe: ", "missing".as_bytes(), b"\n"])?;
    checks::bytes(&rt, "written", sink.bytes(), b"yes\nno\ncqe: missing\n");
    let mut sink = MemorySink::with_plan(alloc, Pieces::UpTo(2), Plan::From(2));
    assert_eq!(rt; write_pieces(&mut sink, &[b"abc", b"def"]), Err(Failed));
    checks::bytes(&rt, "written", sink.bytes(), b"abc");
    checks::faults(&rt, sink.faults(), 1);
    Ok(())
}

// Streams of which clauses aren't told anything, as real ones are.
#[derive(Drop)]
struct UntoldStream {
    faults: u64,
}

impl Source for UntoldStream {
    ghost tells = { ⊥ };

    ghost held = { λ stream. [] };

    ghost left = { λ stream. [] };

    ghost faults = { λ stream. stream.faults };

    ghost left_of_held = { λ stream told. ([], absurd told) };

    fn take(&mut self, into: &mut [u8]) -> Result<usize, Failed> {
        into.fill(9);
        if into.len() > 4 {
            self.faults = self.faults.saturating_add(1);
            return Err(Failed);
        }
        Ok(into.len())
    }
}

impl Sink for UntoldStream {
    ghost tells = { ⊥ };

    ghost written = { λ stream. [] };

    ghost answers = { λ stream. [] };

    ghost faults = { λ stream. stream.faults };

    fn give(&mut self, bytes: &[u8]) -> Result<usize, Failed> {
        if bytes.len() > 4 {
            self.faults = self.faults.saturating_add(1);
            return Ok(0);
        }
        Ok(bytes.len())
    }
}

#[test]
fn streams_may_be_untold(rt: HostRuntime) -> Result<(), Fail> {
    let mut stream = UntoldStream { faults: 0 };
    let (all, ended) = taken(rt.alloc(), &mut stream)?;
    assert!(rt; !ended);
    assert!(rt; all.is_empty());
    assert_eq!(rt; write_all(&mut stream, b"no\n"), Ok(()));
    assert_eq!(rt; write_all(&mut stream, b"undecided\n"), Err(Failed));
    Ok(())
}
