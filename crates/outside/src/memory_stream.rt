//! A source and a sink in memory.
ghost use Rattle.std.specs.Prelude.{◌≡◌, ◌≤◌, ◌++◌, [], take, drop, length};
ghost use Rattle.outside.specs.Faults.{Rose};
ghost use Rattle.std.proofs.lemmas.List.{take-append-drop};
ghost use Rattle.std.proofs.Common.{sym};

use crate::{Failed, Pieces, Plan, Sink, Source};
use std::alloc::Global;
use std::snapshot::Snapshot;

/// A source that gives bytes from memory.
#[derive(Drop)]
pub struct MemorySource {
    bytes: Vec<u8>,
    given: usize,
    pieces: Pieces,
    plan: Plan,
    calls: u64,
    faults: u64,
    ghost within: { given ≤ length bytes.items },
}

impl MemorySource {
    ghost use Rattle.outside.specs.MemoryStreams.{source_held, source_left, source_faults};

    /// A source of these bytes that never fails.
    pub fn new(bytes: Vec<u8>) -> Self
        ensures held { source_held result ≡ bytes.items }
        ensures left { source_left result ≡ bytes.items }
        ensures faultless { source_faults result ≡ 0 }
    {
        Self::with_plan(bytes, Pieces::Whole, Plan::Never)
    }

    /// A source of these bytes that gives them in such pieces and fails by plan. While bytes are
    /// left, a size of 0 counts as 1.
    pub fn with_plan(bytes: Vec<u8>, pieces: Pieces, plan: Plan) -> Self
        ensures held { source_held result ≡ bytes.items }
        ensures left { source_left result ≡ bytes.items }
        ensures faultless { source_faults result ≡ 0 }
    {
        MemorySource {
            bytes,
            given: 0,
            pieces,
            plan,
            calls: 0,
            faults: 0,
        }
    }

    /// All bytes that the source had when it was made.
    pub fn held(&self) -> &[u8]
        ensures { result.now ≡ source_held self.now }
    {
        &self.bytes
    }

    /// The bytes that it has still to give.
    pub fn left(&self) -> &[u8]
        ensures { result.now ≡ source_left self.now }
    {
        &self.bytes[self.given..]
    }

    /// The count of faults.
    pub fn faults(&self) -> u64
        ensures { result ≡ source_faults self.now }
    {
        self.faults
    }
}

impl Source for MemorySource {
    ghost use Rattle.outside.specs.MemoryStreams.{source_held, source_left, source_faults};

    ghost tells = { Unit {0} };

    ghost held = { source_held };

    ghost left = { source_left };

    ghost faults = { source_faults };

    ghost left_of_held = { λ source told. (
      take source.given source.bytes.items,
      sym
          (take-append-drop source.given source.bytes.items),
    ) };

    fn take(&mut self, into: &mut [u8]) -> Result<usize, Failed> {
        let number = self.calls;
        self.calls = number.saturating_add(1);
        if self.plan.fails(number) {
            self.faults = self.faults.saturating_add(1);
            return Err(Failed);
        }
        let rest = &self.bytes[self.given..];
        let count = self
            .pieces
            .most(number)
            .max(1)
            .min(into.len())
            .min(rest.len());
        into[..count].copy_from_slice(&rest[..count]);
        self.given += count;
        Ok(count)
    }
}

/// A sink that keeps in memory what is written. Want of memory is a fault of it, and counted.
#[derive(Drop)]
pub struct MemorySink {
    bytes: Vec<u8>,
    client: Option<Snapshot<MemorySource>>,
    pieces: Pieces,
    plan: Plan,
    calls: u64,
    faults: u64,
}

impl MemorySink {
    ghost use Rattle.outside.specs.MemoryStreams.{source_held, sink_written, sink_answers};
    ghost use Rattle.outside.specs.MemoryStreams.{sink_faults};

    /// An empty sink that fails for want of memory alone.
    pub fn new(alloc: Global) -> Self
        ensures empty { sink_written result ≡ [] }
        ensures faultless { sink_faults result ≡ 0 }
    {
        Self::with_plan(alloc, Pieces::Whole, Plan::Never)
    }

    /// An empty sink that takes such pieces and fails by plan. A size of 0 takes nothing, which
    /// counts as a fault.
    pub fn with_plan(alloc: Global, pieces: Pieces, plan: Plan) -> Self
        ensures empty { sink_written result ≡ [] }
        ensures faultless { sink_faults result ≡ 0 }
    {
        MemorySink {
            bytes: Vec::new(alloc),
            client: None,
            pieces,
            plan,
            calls: 0,
            faults: 0,
        }
    }

    /// All bytes that were appended.
    pub fn bytes(&self) -> &[u8]
        ensures { result.now ≡ sink_written self.now }
    {
        &self.bytes
    }

    /// The count of faults.
    pub fn faults(&self) -> u64
        ensures { result ≡ sink_faults self.now }
    {
        self.faults
    }

    /// The same sink, as the one that answers the client at the other end of this source.
    pub(crate) fn answering(self, source: &MemorySource) -> Self
        ensures written { sink_written result ≡ sink_written self }
        ensures answers { sink_answers result ≡ source_held source.now }
        ensures faults { sink_faults result ≡ sink_faults self }
    {
        let mut sink = self;
        sink.client = Some(Snapshot::of(source));
        sink
    }

    fn fault(&mut self)
        ensures bytes { sink_written self.new ≡ sink_written self.old }
        ensures answers { sink_answers self.new ≡ sink_answers self.old }
        ensures faults { Rose (sink_faults self.old) (sink_faults self.new) }
        ensures later { sink_faults self.old ≤ sink_faults self.new }
    {
        self.faults = self.faults.saturating_add(1);
    }
}

impl Sink for MemorySink {
    ghost use Rattle.outside.specs.MemoryStreams.{sink_written, sink_answers, sink_faults};

    ghost tells = { Unit {0} };

    ghost written = { sink_written };

    ghost answers = { sink_answers };

    ghost faults = { sink_faults };

    fn give(&mut self, bytes: &[u8]) -> Result<usize, Failed> {
        let number = self.calls;
        self.calls = number.saturating_add(1);
        let count = self.pieces.most(number).min(bytes.len());
        if self.plan.fails(number) || self.bytes.extend_from_slice(&bytes[..count]).is_err() {
            self.fault();
            return Err(Failed);
        }
        if count == 0 && !bytes.is_empty() {
            self.fault();
        }
        Ok(count)
    }
}
