//! A standby that is reached over TCP.
ghost use Rattle.std.specs.Prelude.{◌≡◌, [], string_bytes};

use crate::waits::{CONNECT, STANDBY_ANSWER, STANDBY_FRAME};
use outside::{Dial, Failed};
use std::io::{self, ErrorKind, Read, Write};
use std::net::{Net, OpenStream, Shutdown, TcpStream, ToSocketAddrs};
use std::time::Duration;

/// The greatest count that a standby answers. No journal has as many records, and eight bytes of a
/// text, as another server's greeting, are a greater number.
const GREATEST_COUNT: u64 = 4_294_967_296;

/// A dial to an address, as `127.0.0.1:7008`. Each exchange has a connection of its own, and fails
/// where the standby isn't reached, doesn't answer in time (see `waits`), or answers what is no
/// count of records. It isn't tried again. Its faults are counted under a name.
#[derive(Drop)]
pub struct TcpDial<'r, R> {
    runtime: &'r R,
    address: String,
    name: String,
    answered: u64,
    faults: u64,
}

impl<'r, R> TcpDial<'r, R> {
    ghost use Rattle.real_edge.specs.Counts.{dial_address, dial_name, dial_answered, dial_faults};

    /// A dial that was answered nothing yet and hasn't failed.
    pub fn new(runtime: &'r R, address: String, name: String) -> Self
        ensures address { dial_address result ≡ string_bytes address }
        ensures name { dial_name result ≡ string_bytes name }
        ensures unanswered { dial_answered result ≡ 0 }
        ensures faultless { dial_faults result ≡ 0 }
    {
        TcpDial {
            runtime,
            address,
            name,
            answered: 0,
            faults: 0,
        }
    }

    /// How often it failed.
    pub fn faults(&self) -> u64
        ensures { result ≡ dial_faults self.now }
    {
        self.faults
    }
}

impl<R: Net> Dial for TcpDial<'_, R> {
    ghost use Rattle.real_edge.specs.Counts.{dial_address, dial_name, dial_answered, dial_faults};

    ghost tells = { ⊥ };

    ghost address = { dial_address };

    ghost name = { dial_name };

    ghost exchanged = { λ dial. [] };

    ghost answered = { dial_answered };

    ghost faults = { dial_faults };

    fn exchange(&mut self, frame: &[u8], above: u64) -> Result<u64, Failed> {
        match ask(self.runtime, self.address.as_str(), frame) {
            Ok(count) if count > above => {
                self.answered = count;
                Ok(count)
            }
            _ => {
                self.faults = self.faults.saturating_add(1);
                Err(Failed)
            }
        }
    }
}

// Gives a frame to the standby at an address, and takes its answer.
fn ask<R: Net>(runtime: &R, address: &str, frame: &[u8]) -> io::Result<u64> {
    let mut stream = connect(runtime, address)?;
    stream.set_write_timeout(Some(Duration::from_secs(STANDBY_FRAME)))?;
    stream.set_read_timeout(Some(Duration::from_secs(STANDBY_ANSWER)))?;
    stream.write_all(frame)?;
    stream.shutdown(Shutdown::Write)?;
    let mut answer = [0; 8];
    read_whole(&mut stream, &mut answer)?;
    let count = u64::from_be_bytes(answer);
    if count > GREATEST_COUNT {
        return Err(io::Error::from(ErrorKind::InvalidData));
    }
    Ok(count)
}

// Fills the piece. That the input ends before is a failure.
fn read_whole<S: Read>(input: &mut S, into: &mut [u8]) -> io::Result<()> {
    let mut filled = 0;
    while filled < into.len() {
        let count = input.read(&mut into[filled..])?;
        if count == 0 {
            return Err(io::Error::from(ErrorKind::UnexpectedEof));
        }
        filled += count;
    }
    Ok(())
}

// Connects to the first of an address's sockets that answers in time.
fn connect<R: Net>(runtime: &R, address: &str) -> io::Result<R::Stream> {
    let mut last = io::Error::from(ErrorKind::InvalidInput);
    for socket in address.to_socket_addrs(runtime)? {
        match TcpStream::connect_timeout(runtime, &socket, Duration::from_secs(CONNECT)) {
            Ok(stream) => return Ok(stream),
            Err(error) => last = error,
        }
    }
    Err(last)
}
