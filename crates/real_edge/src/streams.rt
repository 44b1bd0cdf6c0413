//! The standard streams as a source and as sinks. They aren't told to clauses, since nobody knows
//! what they will give and what becomes of what they take.
ghost use Rattle.std.specs.Prelude.{◌≡◌, []};

use outside::{Failed, Sink, Source};
use std::io::{Read, Write};

/// A reader as a source. A call that fails is counted and isn't tried again.
#[derive(Drop)]
pub struct StreamSource<R> {
    input: R,
    faults: u64,
}

impl<R> StreamSource<R> {
    ghost use Rattle.real_edge.specs.Counts.{source_faults};

    /// A source that hasn't failed.
    pub fn new(input: R) -> Self
        ensures { source_faults result ≡ 0 }
    {
        StreamSource { input, faults: 0 }
    }

    /// How often it failed.
    pub fn faults(&self) -> u64
        ensures { result ≡ source_faults self.now }
    {
        self.faults
    }

    /// The reader.
    pub(crate) fn into_input(self) -> R
        ensures { result ≡ self.input }
    {
        self.input
    }
}

impl<R: Read> Source for StreamSource<R> {
    ghost tells = { ⊥ };

    ghost held = { λ source. [] };

    ghost left = { λ source. [] };

    ghost faults = { λ source. source.faults };

    ghost left_of_held = { λ source told. absurd told };

    fn take(&mut self, into: &mut [u8]) -> Result<usize, Failed> {
        match self.input.read(into) {
            Ok(count) => Ok(count),
            Err(_) => {
                self.faults = self.faults.saturating_add(1);
                Err(Failed)
            }
        }
    }
}

/// A writer as a sink. A call that fails is counted and isn't tried again. Nothing is kept back
/// between two calls, so nothing has to be flushed at the end.
#[derive(Drop)]
pub struct StreamSink<W> {
    output: W,
    faults: u64,
}

impl<W> StreamSink<W> {
    ghost use Rattle.real_edge.specs.Counts.{sink_faults};

    /// A sink that hasn't failed.
    pub fn new(output: W) -> Self
        ensures { sink_faults result ≡ 0 }
    {
        StreamSink { output, faults: 0 }
    }

    /// How often it failed.
    pub fn faults(&self) -> u64
        ensures { result ≡ sink_faults self.now }
    {
        self.faults
    }

    /// The writer.
    pub(crate) fn into_output(self) -> W
        ensures { result ≡ self.output }
    {
        self.output
    }
}

impl<W: Write> Sink for StreamSink<W> {
    ghost tells = { ⊥ };

    ghost written = { λ sink. [] };

    ghost answers = { λ sink. [] };

    ghost faults = { λ sink. sink.faults };

    fn give(&mut self, bytes: &[u8]) -> Result<usize, Failed> {
        match self.output.write(bytes) {
            Ok(count) if count > 0 || bytes.is_empty() => Ok(count),
            _ => {
                self.faults = self.faults.saturating_add(1);
                Err(Failed)
            }
        }
    }
}
