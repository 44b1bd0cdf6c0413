//! Whole runs of the program over objects in memory.

ghost use Rattle.std.specs.Prelude.{◌≡◌, List, ℕ, false};
ghost use Rattle.outside.specs.MemoryShelves.{is_disk_out};

use cqe_top::top;
use outside::{
    Gate, MemoryDisk, MemoryLinks, MemoryShelf, MemorySink, MemorySource, OpenGate, Pieces, Plan,
};
use std::alloc::{AllocError, Global};
use std::process::Abort;
use std::sync::Wait;
use std::thread::Threads;

mod audit;
mod batch;
mod case;
mod dossiers;
mod failing;
mod failing_calls;
mod failing_files;
mod failing_moves;
mod failing_servers;
mod lives;
mod selfrun;
mod serve;
mod ward;

// A shelf that has all its disks, links, the streams of the last run, and the status with which it
// ended.
#[derive(Drop)]
struct Stage {
    shelf: MemoryShelf,
    links: MemoryLinks,
    source: MemorySource,
    sink: MemorySink,
    complaints: MemorySink,
    status: u8,
    ghost whole: { (name : List ℕ) → is_disk_out shelf name ≡ false },
}

impl Stage {
    /// No file, no disk and no client; the calls of the shelf fail by plan.
    fn new(alloc: Global, plan: Plan) -> Stage {
        Stage {
            shelf: MemoryShelf::with_plan(alloc, plan),
            links: MemoryLinks::new(alloc, Vec::new(alloc)),
            source: MemorySource::new(Vec::new(alloc)),
            sink: MemorySink::new(alloc),
            complaints: MemorySink::new(alloc),
            status: 0,
        }
    }

    /// Puts a file on the shelf.
    fn put_file(&mut self, alloc: Global, name: &str, bytes: &[u8]) -> Result<(), AllocError> {
        self.shelf.put(alloc, name, bytes)
    }

    /// Puts a disk with these bytes, whose calls fail by plan, in the place of the one of its name.
    fn put_disk(
        &mut self,
        alloc: Global,
        name: &str,
        bytes: Vec<u8>,
        plan: Plan,
    ) -> Result<(), AllocError> {
        let disk = MemoryDisk::with_plan(alloc, bytes, plan)?;
        self.shelf.put_disk(alloc, name, disk)
    }

    /// Lets the next run have these links.
    fn set_links(&mut self, links: MemoryLinks) {
        self.links = links;
    }

    /// Lets the next run have these streams.
    fn set_streams(&mut self, source: MemorySource, sink: MemorySink, complaints: MemorySink) {
        self.source = source;
        self.sink = sink;
        self.complaints = complaints;
    }

    /// The program with these words, where each ask passes this gate.
    fn run_gated(
        &mut self,
        rt: &(impl Threads + Wait + Sync),
        alloc: Global,
        words: &[&str],
        gate: &(impl Gate + Sync),
    ) -> Result<(), AllocError> {
        let texts = texts_of(alloc, words)?;
        let status = status_of(
            rt,
            alloc,
            &texts,
            &mut self.shelf,
            &mut self.source,
            &mut self.sink,
            &mut self.complaints,
            &mut self.links,
            gate,
        );
        self.status = status;
        Ok(())
    }

    /// The program with these words and this input.
    fn run(
        &mut self,
        rt: &(impl Threads + Wait + Sync),
        alloc: Global,
        words: &[&str],
        input: &str,
    ) -> Result<(), AllocError> {
        let source = source_of(alloc, input)?;
        self.run_from(rt, alloc, words, source)
    }

    /// The same from this source.
    fn run_from(
        &mut self,
        rt: &(impl Threads + Wait + Sync),
        alloc: Global,
        words: &[&str],
        source: MemorySource,
    ) -> Result<(), AllocError> {
        self.set_streams(source, MemorySink::new(alloc), MemorySink::new(alloc));
        self.run_gated(rt, alloc, words, &OpenGate)
    }

    /// The same with this input, into this sink.
    fn run_into(
        &mut self,
        rt: &(impl Threads + Wait + Sync),
        alloc: Global,
        words: &[&str],
        input: &str,
        sink: MemorySink,
    ) -> Result<(), AllocError> {
        let source = source_of(alloc, input)?;
        self.set_streams(source, sink, MemorySink::new(alloc));
        self.run_gated(rt, alloc, words, &OpenGate)
    }

    /// The same with this input, where the complaints go into this sink.
    fn run_complaining(
        &mut self,
        rt: &(impl Threads + Wait + Sync),
        alloc: Global,
        words: &[&str],
        input: &str,
        complaints: MemorySink,
    ) -> Result<(), AllocError> {
        let source = source_of(alloc, input)?;
        self.set_streams(source, MemorySink::new(alloc), complaints);
        self.run_gated(rt, alloc, words, &OpenGate)
    }

    /// Whether there is a disk of this name.
    fn has_disk(&self, name: &str) -> bool {
        self.shelf.disk(name).is_some()
    }

    /// The bytes that a disk reads; none where there is no disk.
    fn disk_bytes(&self, name: &str) -> &[u8] {
        match self.shelf.disk(name) {
            Some(disk) => disk.bytes(),
            None => &[],
        }
    }

    /// How the last run ended, what it wrote and what it complained of.
    fn check(&self, rt: &impl Abort, status: u8, output: &str, complaint: &str, what: &str) {
        same(rt, self.complaints.bytes(), complaint.as_bytes(), what);
        same(rt, self.sink.bytes(), output.as_bytes(), what);
        counted(rt, self.status as usize, status as usize, what);
    }

    /// The status with which the last run ended.
    fn check_status(&self, rt: &impl Abort, status: u8) {
        counted(rt, self.status as usize, status as usize, "the status");
    }

    /// So many clients are left.
    fn check_left(&self, rt: &impl Abort, count: usize) {
        counted(rt, self.links.left(), count, "clients that are left");
    }

    /// There is no disk of this name.
    fn check_no_disk(&self, rt: &impl Abort, name: &str) {
        holds(rt, !self.has_disk(name), name);
    }

    /// A disk reads these bytes, where this call failed.
    fn check_disk(&self, rt: &impl Abort, name: &str, wanted: &[u8], call: u64) {
        assert_eq!(rt; self.disk_bytes(name), wanted, "{name}, call {call}");
    }

    /// What a disk reads begins with these bytes, where this call failed.
    fn check_front(&self, rt: &impl Abort, name: &str, wanted: &[u8], call: u64) {
        let found = self.disk_bytes(name).get(..wanted.len());
        assert_eq!(rt; found, Some(wanted), "{name}, call {call}");
    }
}

// The program; of its promise this says only that the shelf has all its disks again.
fn status_of(
    rt: &(impl Threads + Wait + Sync),
    alloc: Global,
    words: &[String],
    shelf: &mut MemoryShelf,
    source: &mut MemorySource,
    sink: &mut MemorySink,
    complaints: &mut MemorySink,
    links: &mut MemoryLinks,
    gate: &(impl Gate + Sync),
) -> u8
    requires { (name : List ℕ) → is_disk_out shelf.old name ≡ false }
    ensures { (name : List ℕ) → is_disk_out shelf.new name ≡ false }
{
    top(
        rt, alloc, words, shelf, source, sink, complaints, links, gate,
    )
}

fn texts_of(alloc: Global, words: &[&str]) -> Result<Vec<String>, AllocError> {
    let mut texts = Vec::new(alloc);
    for word in words {
        texts.push(String::from_str(alloc, word)?)?;
    }
    Ok(texts)
}

// These bytes are the same.
fn same(rt: &impl Abort, found: &[u8], wanted: &[u8], what: &str) {
    assert_eq!(rt; found, wanted, "{what}");
}

// This holds.
fn holds(rt: &impl Abort, is_so: bool, what: &str) {
    assert!(rt; is_so, "{what}");
}

// As many were found as are wanted.
fn counted(rt: &impl Abort, found: usize, wanted: usize, what: &str) {
    assert_eq!(rt; found, wanted, "{what}");
}

// The same, where this call failed.
fn counted_at(rt: &impl Abort, found: usize, wanted: usize, what: &str, call: u64) {
    assert_eq!(rt; found, wanted, "{what}, call {call}");
}

// A source of this text that never fails.
fn source_of(alloc: Global, text: &str) -> Result<MemorySource, AllocError> {
    Ok(MemorySource::new(text.as_bytes().to_vec(alloc)?))
}

// The same, in pieces of so many bytes, where a call fails.
fn failing_source(
    alloc: Global,
    text: &str,
    size: usize,
    call: u64,
) -> Result<MemorySource, AllocError> {
    let plan = failing_at(alloc, call)?;
    let bytes = text.as_bytes().to_vec(alloc)?;
    Ok(MemorySource::with_plan(bytes, Pieces::UpTo(size), plan))
}

// A sink that takes each byte by a call of its own, where a call fails.
fn failing_sink(alloc: Global, call: u64) -> Result<MemorySink, AllocError> {
    let plan = failing_at(alloc, call)?;
    Ok(MemorySink::with_plan(alloc, Pieces::UpTo(1), plan))
}

// A plan by which this call fails.
fn failing_at(alloc: Global, call: u64) -> Result<Plan, AllocError> {
    Ok(Plan::At(vec![in alloc; call]?))
}

// Which calls of an object fail: this one, or each from this one on.
#[derive(Clone, Copy)]
enum Fails {
    At(u64),
    From(u64),
}

impl Fails {
    fn plan(self, alloc: Global) -> Result<Plan, AllocError> {
        match self {
            Fails::At(call) => failing_at(alloc, call),
            Fails::From(call) => Ok(Plan::From(call)),
        }
    }
}

// The first so many bytes of a text, or all of it.
fn front(text: &str, count: u64) -> &str {
    text.get(..count as usize).unwrap_or(text)
}
