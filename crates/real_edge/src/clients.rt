//! The end of a connection that its client's bytes come from.
ghost use Rattle.std.specs.Prelude.{◌≡◌};

use std::io::{self, Read};
use std::net::OpenStream;
use std::time::Duration;

/// A connection as a reader. Once its client has sent his first bytes, another time is waited for
/// the later ones.
#[derive(Drop)]
pub struct ClientReader<S> {
    stream: S,
    later_bytes: u64,
    was_heard: bool,
}

impl<S> ClientReader<S> {
    /// A reader of which the client wasn't heard. He may take so many seconds between later bytes.
    pub(crate) fn new(stream: S, later_bytes: u64) -> Self {
        ClientReader {
            stream,
            later_bytes,
            was_heard: false,
        }
    }

    /// The connection.
    pub(crate) fn into_stream(self) -> S
        ensures { result ≡ self.stream }
    {
        self.stream
    }
}

impl<S: Read + OpenStream> Read for ClientReader<S> {
    fn read(&mut self, into: &mut [u8]) -> io::Result<usize> {
        let count = self.stream.read(into)?;
        if !self.was_heard {
            let wait = Duration::from_secs(self.later_bytes);
            self.stream.set_read_timeout(Some(wait))?;
            self.was_heard = true;
        }
        Ok(count)
    }
}
