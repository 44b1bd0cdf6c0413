//! Sockets as connections: a listening socket as a door, and what opens such doors. Clauses aren't
//! told what comes in.
ghost use Rattle.std.specs.Prelude.{◌≡◌, ◌≤◌, ◌+◌, [], List, ℕ, None, All, length, vec_capacity};
ghost use Rattle.std.specs.Prelude.{IfOk, IfNone};
ghost use Rattle.outside.specs.Faults.{Rose};
ghost use Rattle.real_edge.specs.Counts.{door_faults};

use crate::clients::ClientReader;
use crate::waits::{
    FIRST_BYTES, FIRST_PAUSE, FRAME_BYTES, LAST_PIECES, LAST_WAIT, LATER_BYTES, LONGEST_PAUSE,
    PIECE, STUCK_WRITE, TRIES_AGAIN,
};
use crate::{StreamSink, StreamSource, TcpDial};
use outside::{Door, Failed, Links, LinksError};
use std::alloc::{AllocError, Global};
use std::io::{self, Read, Write};
use std::net::{Net, OpenListener, OpenStream, Shutdown, SocketAddr, TcpListener};
use std::thread;
use std::time::{Clock, Duration};

/// A listening socket as a door, through which no connection is the last. Each failure to take in a
/// client is counted, and it is tried again after a pause that doubles up to a second: too few open
/// files are a passing state. The door gives up where nobody could be taken in for a minute.
///
/// A client who says nothing, or takes nothing, for too long is a fault of his own connection's
/// end: see `waits`. What was given is closed once it is done, behind at most 64 KiB that its
/// client still sends: a connection that is closed while bytes of the client are unread is reset,
/// and the last replies to him may be lost on their way. A client who doesn't close is waited for
/// one second at each of at most 16 pieces.
#[derive(Drop)]
pub struct TcpDoor<'r, C, L> {
    clock: &'r C,
    listener: L,
    later_bytes: u64,
    faults: u64,
}

impl<'r, C, L: OpenListener> TcpDoor<'r, C, L> {
    ghost use Rattle.real_edge.specs.Counts.{door_faults};

    /// A door at this socket, which hasn't failed, with a clock for its pauses. Its clients may
    /// take so many seconds between later bytes.
    pub fn new(clock: &'r C, listener: L, later_bytes: u64) -> Self
        ensures { door_faults result ≡ 0 }
    {
        TcpDoor {
            clock,
            listener,
            later_bytes,
            faults: 0,
        }
    }

    /// The address at which it listens.
    pub fn address(&self) -> io::Result<SocketAddr> {
        self.listener.local_addr()
    }

    /// How often it failed.
    pub fn faults(&self) -> u64
        ensures { result ≡ door_faults self.now }
    {
        self.faults
    }
}

impl<C: Clock, L: OpenListener> Door for TcpDoor<'_, C, L>
where
    L::Stream: Read + Write + OpenStream + Drop + Send,
{
    ghost use Rattle.real_edge.specs.Counts.{door_faults};

    type Src = StreamSource<ClientReader<L::Stream>>;

    type Snk = StreamSink<L::Stream>;

    ghost tells = { ⊥ };

    ghost given = { λ door. 0 };

    ghost left = { λ door. 0 };

    ghost back = { λ door. [] };

    ghost last = { λ door. None };

    ghost ends = { λ door. 0 };

    ghost faults = { door_faults };

    ghost tells_ends = { λ told. absurd told };

    fn next(&mut self) -> Result<Option<(Self::Src, Self::Snk)>, Failed> {
        match take_in(self.clock, &self.listener, &mut self.faults) {
            Some((input, output)) => {
                let reader = ClientReader::new(input, self.later_bytes);
                Ok(Some((StreamSource::new(reader), StreamSink::new(output))))
            }
            None => Err(Failed),
        }
    }

    fn done(&mut self, source: Self::Src, sink: Self::Snk) {
        hang_up(source.into_input().into_stream(), &sink.into_output());
    }
}

// Takes in a client, and counts each failure to. There is none where it failed for a minute.
fn take_in<C: Clock, L: OpenListener>(
    clock: &C,
    listener: &L,
    faults: &mut u64,
) -> Option<(L::Stream, L::Stream)>
where
    L::Stream: OpenStream,
    ensures later { faults.old ≤ faults.new }
    ensures cause { IfNone result (Rose faults.old faults.new) }
{
    let mut pause = FIRST_PAUSE;
    for _ in 0..TRIES_AGAIN {
        match both_ends(listener) {
            Ok(ends) => return Some(ends),
            Err(_) => *faults = faults.saturating_add(1),
        }
        thread::sleep(clock, Duration::from_millis(pause));
        pause = pause.saturating_mul(2).min(LONGEST_PAUSE);
    }
    match both_ends(listener) {
        Ok(ends) => Some(ends),
        Err(_) => {
            *faults = faults.saturating_add(1);
            None
        }
    }
}

// Ends a connection: its client is told that no further byte comes, and what he still sends is
// thrown away. No failure is counted here, since every reply was written before.
fn hang_up<S: Read + OpenStream + Drop>(input: S, output: &S) {
    let bounded = input.set_read_timeout(Some(Duration::from_secs(LAST_WAIT)));
    if bounded.is_err() || output.shutdown(Shutdown::Write).is_err() {
        return;
    }
    let mut input = input;
    let mut piece = [0; PIECE];
    for _ in 0..LAST_PIECES {
        match input.read(&mut piece) {
            Ok(count) if count > 0 => {}
            _ => return,
        }
    }
}

// Waits for a client, and gives both ends of its connection, for which it sets how long is waited
// for him.
fn both_ends<L: OpenListener>(listener: &L) -> io::Result<(L::Stream, L::Stream)>
where
    L::Stream: OpenStream,
{
    let (stream, _client) = listener.accept()?;
    stream.set_read_timeout(Some(Duration::from_secs(FIRST_BYTES)))?;
    stream.set_write_timeout(Some(Duration::from_secs(STUCK_WRITE)))?;
    let other = stream.try_clone()?;
    Ok((stream, other))
}

/// What opens sockets that a runtime reaches, each by its address, as `127.0.0.1:7007`. The doors
/// of one `listen` share one socket. A `listen` that fails is counted and isn't tried again. Its
/// dials call a standby over connections of their own.
#[derive(Drop)]
pub struct TcpLinks<'r, R> {
    runtime: &'r R,
    later_bytes: u64,
    out: u64,
    faults: u64,
    // The dials that were hung up, with the room for the others.
    dials_back: Vec<TcpDial<'r, R>>,
    dials_out: usize,
    ghost dial_room: { length dials_back.items + dials_out ≤ vec_capacity dials_back },
}

impl<'r, R> TcpLinks<'r, R> {
    ghost use Rattle.real_edge.specs.Links.{links_faults, links_out, links_dialling};
    ghost use Rattle.real_edge.specs.Links.{links_exchange_faults};

    /// Links that haven't failed and have opened no door.
    pub fn new(alloc: Global, runtime: &'r R) -> Self
        ensures faultless { links_faults result ≡ 0 }
        ensures none_out { links_out result ≡ 0 }
        ensures none_dialling { links_dialling result ≡ 0 }
        ensures exchange_faults { (name : List ℕ) → links_exchange_faults result name ≡ 0 }
    {
        TcpLinks {
            runtime,
            later_bytes: LATER_BYTES,
            out: 0,
            faults: 0,
            dials_back: Vec::new(alloc),
            dials_out: 0,
        }
    }

    /// Links of a standby, whose clients may take less time between later bytes. They haven't
    /// failed and have opened no door.
    pub fn for_standby(alloc: Global, runtime: &'r R) -> Self
        ensures faultless { links_faults result ≡ 0 }
        ensures none_out { links_out result ≡ 0 }
        ensures none_dialling { links_dialling result ≡ 0 }
        ensures exchange_faults { (name : List ℕ) → links_exchange_faults result name ≡ 0 }
    {
        TcpLinks {
            runtime,
            later_bytes: FRAME_BYTES,
            out: 0,
            faults: 0,
            dials_back: Vec::new(alloc),
            dials_out: 0,
        }
    }

    /// The dials that were hung up, in that order.
    pub fn dials_back(&self) -> &[TcpDial<'r, R>] {
        &self.dials_back
    }

    /// How often it failed.
    pub fn faults(&self) -> u64
        ensures { result ≡ links_faults self.now }
    {
        self.faults
    }
}

impl<'r, R: Net + Clock + Sync> Links for TcpLinks<'r, R>
where
    R::Listener: Send,
    R::Stream: Send,
{
    ghost use Rattle.real_edge.specs.Links.{links_faults, links_out, links_dialling};
    ghost use Rattle.real_edge.specs.Links.{links_exchange_faults};

    type D = TcpDoor<'r, R, R::Listener>;

    type Dial = TcpDial<'r, R>;

    ghost tells = { ⊥ };

    ghost given = { λ links. 0 };

    ghost left = { λ links. 0 };

    ghost at_hand = { λ links. 0 };

    ghost back = { λ links. [] };

    ghost out = { links_out };

    ghost ended = { λ links. 0 };

    ghost listened = { λ links. [] };

    ghost faults = { links_faults };

    ghost dialling = { links_dialling };

    ghost exchanged = { λ links. [] };

    ghost exchange_faults = { links_exchange_faults };

    ghost tells_doors = { λ told. told };

    ghost tells_dials = { λ told. told };

    fn listen(
        &mut self,
        alloc: Global,
        address: &str,
        doors: u32,
    ) -> Result<Vec<TcpDoor<'r, R, R::Listener>>, LinksError> {
        let Some(out) = self.out.checked_add(u64::from(doors)) else {
            return Err(LinksError::Memory);
        };
        let Ok(opened) = Vec::with_capacity(alloc, doors as usize) else {
            return Err(LinksError::Memory);
        };
        match open_doors(self.runtime, self.later_bytes, address, doors, opened) {
            Ok(opened) => {
                self.out = out;
                Ok(opened)
            }
            Err(_) => {
                self.faults = self.faults.saturating_add(1);
                Err(LinksError::Failed)
            }
        }
    }

    fn take_back(&mut self, door: TcpDoor<'r, R, R::Listener>) {
        if door.faults() > 0 {
            self.faults = self.faults.saturating_add(1);
        }
        self.out -= 1;
    }

    fn dial(
        &mut self,
        alloc: Global,
        address: &str,
        name: &str,
    ) -> Result<TcpDial<'r, R>, AllocError> {
        let address = String::from_str(alloc, address)?;
        let name = String::from_str(alloc, name)?;
        let Some(out) = self.dials_out.checked_add(1) else {
            return Err(AllocError);
        };
        self.dials_back.reserve(out)?;
        self.dials_out = out;
        Ok(TcpDial::new(self.runtime, address, name))
    }

    fn hang_up(&mut self, dial: TcpDial<'r, R>) {
        self.dials_out -= 1;
        self.dials_back.push_reserved(dial);
    }
}

// So many doors at one socket of this address, whose clients may take so many seconds between later
// bytes.
fn open_doors<'r, R: Net>(
    runtime: &'r R,
    later_bytes: u64,
    address: &str,
    doors: u32,
    room: Vec<TcpDoor<'r, R, R::Listener>>,
) -> io::Result<Vec<TcpDoor<'r, R, R::Listener>>>
    requires empty { room.items ≡ [] }
    requires room { doors ≤ vec_capacity room }
    ensures count { IfOk result (λ opened. length opened.items ≡ doors) }
    ensures whole { IfOk result (λ opened. All (λ door. door_faults door ≡ 0) opened.items) }
{
    let listener = TcpListener::bind(runtime, address)?;
    let mut opened = room;
    for _ in 0..doors {
        opened.push_reserved(TcpDoor::new(runtime, listener.try_clone()?, later_bytes));
    }
    Ok(opened)
}
