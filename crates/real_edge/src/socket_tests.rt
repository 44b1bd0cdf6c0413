use crate::{TcpDial, TcpDoor, TcpLinks};
use outside::{Dial, Door, Failed, Links, LinksError, Sink, Source, write_all};
use std::alloc::Global;
use std::cell::Cell;
use std::io::{self, Read, Write};
use std::net::{Net, OpenListener, Shutdown, SocketAddr, TcpListener, TcpStream};
use std::test::Fail;
use std::time::{Clock, Duration};

// A client that sends these bytes and no more.
fn client<R: Net<Stream = TcpStream>>(
    rt: &R,
    address: SocketAddr,
    bytes: &[u8],
) -> io::Result<TcpStream> {
    let mut client = TcpStream::connect(rt, address)?;
    client.write_all(bytes)?;
    client.shutdown(Shutdown::Write)?;
    Ok(client)
}

// Answers the next connection with all that came in.
fn echo<C: Clock>(alloc: Global, door: &mut TcpDoor<'_, C, TcpListener>) -> Result<Vec<u8>, Fail> {
    let Some((source, sink)) = door.next()? else {
        return Ok(Vec::new(alloc));
    };
    let (mut source, mut sink) = (source, sink);
    let mut all = Vec::new(alloc);
    let mut piece = [0; 4];
    for _ in 0..20 {
        let Ok(count) = source.take(&mut piece) else {
            break;
        };
        if count == 0 {
            break;
        }
        all.extend_from_slice(&piece[..count])?;
    }
    let written = write_all(&mut sink, &all);
    door.done(source, sink);
    written?;
    Ok(all)
}

#[test]
fn doors_of_one_socket_give_its_connections(rt: HostRuntime) -> Result<(), Fail> {
    let alloc = rt.alloc();
    let mut links = TcpLinks::new(rt.alloc(), &rt);
    let mut doors = links.listen(alloc, "127.0.0.1:0", 2)?;
    let mut second = doors.pop().expect(&rt, "a second door");
    let mut first = doors.pop().expect(&rt, "a first door");
    for bytes in [b"login eve abc\n".as_slice(), b"".as_slice()] {
        let mut client = client(&rt, first.address()?, bytes)?;
        assert_eq!(rt; echo(alloc, &mut second)?.as_slice(), bytes);
        let mut reply = Vec::new(alloc);
        client.read_to_end(&mut reply)?;
        assert_eq!(rt; reply.as_slice(), bytes);
        std::mem::swap(&mut first, &mut second);
    }
    links.take_back(first);
    links.take_back(second);
    assert_eq!(rt; links.faults(), 0);
    Ok(())
}

#[test]
fn a_client_who_sends_more_than_is_read_gets_his_replies(rt: HostRuntime) -> Result<(), Fail> {
    let alloc = rt.alloc();
    let mut links = TcpLinks::new(rt.alloc(), &rt);
    let mut doors = links.listen(alloc, "127.0.0.1:0", 1)?;
    let mut door = doors.pop().expect(&rt, "a door");
    let mut client = client(&rt, door.address()?, &[b'x'; 9000])?;
    let Some((source, sink)) = door.next()? else {
        return Ok(());
    };
    let (mut source, mut sink) = (source, sink);
    assert_eq!(rt; source.take(&mut [0; 4])?, 4);
    write_all(&mut sink, b"bye\n")?;
    door.done(source, sink);
    let mut reply = Vec::new(alloc);
    client.read_to_end(&mut reply)?;
    assert_eq!(rt; reply.as_slice(), b"bye\n".as_slice());
    links.take_back(door);
    Ok(())
}

#[test]
fn an_address_that_cannot_be_bound_is_a_fault(rt: HostRuntime) {
    let mut links = TcpLinks::new(rt.alloc(), &rt);
    for (address, faults) in [("", 1), ("127.0.0.1", 2), ("127.0.0.1:65536", 3)] {
        assert_eq!(rt;
            links.listen(rt.alloc(), address, 1).err(),
            Some(LinksError::Failed),
            "{address}"
        );
        assert_eq!(rt; links.faults(), faults, "{address}");
    }
}

// A socket at which so many clients are lost, and then none is heard.
#[derive(Drop)]
struct Losing {
    lost: Cell<u64>,
    listener: TcpListener,
}

impl OpenListener for Losing {
    type Stream = TcpStream;

    fn accept(&self) -> io::Result<(TcpStream, SocketAddr)> {
        let lost = self.lost.get();
        if lost == 0 {
            return self.listener.accept();
        }
        self.lost.set(lost.saturating_sub(1));
        Err(io::Error::from(io::ErrorKind::ConnectionAborted))
    }
}

// A clock that only counts how many milliseconds it slept, and keeps the longest sleep.
#[derive(Drop)]
struct Sleepless {
    slept: Cell<u64>,
    longest: Cell<u64>,
}

impl Sleepless {
    fn new() -> Self {
        let (slept, longest) = (Cell::new(0), Cell::new(0));
        Sleepless { slept, longest }
    }
}

impl Clock for Sleepless {
    fn monotonic(&self) -> io::Result<Duration> {
        Err(io::Error::from(io::ErrorKind::Unsupported))
    }

    fn since_1970(&self) -> io::Result<Duration> {
        Err(io::Error::from(io::ErrorKind::Unsupported))
    }

    fn sleep(&self, duration: Duration) {
        let millis = u64::try_from(duration.as_millis()).unwrap_or(u64::MAX);
        self.slept.set(self.slept.get().saturating_add(millis));
        self.longest.set(self.longest.get().max(millis));
    }
}

#[test]
fn a_door_gives_up_behind_a_minute(rt: HostRuntime) -> Result<(), Fail> {
    let lost = Cell::new(u64::MAX);
    let listener = TcpListener::bind(&rt, "127.0.0.1:0")?;
    let clock = Sleepless::new();
    let mut door = TcpDoor::new(&clock, Losing { lost, listener }, 600);
    assert!(rt; matches!(door.next(), Err(Failed)));

    // 1, 2, 4 and so on up to 512, and then 59 times a second.
    assert_eq!(rt; clock.slept.get(), 1023 + 59 * 1000);
    assert_eq!(rt; clock.longest.get(), 1000);
    assert_eq!(rt; door.faults(), 10 + 59 + 1);
    Ok(())
}

#[test]
fn a_client_who_is_lost_costs_a_pause_alone(rt: HostRuntime) -> Result<(), Fail> {
    let lost = Cell::new(3);
    let listener = TcpListener::bind(&rt, "127.0.0.1:0")?;
    let address = listener.local_addr()?;
    let clock = Sleepless::new();
    let mut door = TcpDoor::new(&clock, Losing { lost, listener }, 600);
    let _client = client(&rt, address, b"quit\n")?;
    let Some((source, sink)) = door.next()? else {
        return Ok(());
    };
    let mut source = source;
    let mut piece = [0; 4];
    assert_eq!(rt; source.take(&mut piece), Ok(4));
    assert_eq!(rt; piece, *b"quit");
    door.done(source, sink);
    assert_eq!(rt; clock.slept.get(), 1 + 2 + 4);
    assert_eq!(rt; door.faults(), 3);
    Ok(())
}

// How long a connection of these links waits for a client who takes nothing, for his first bytes
// and for later ones.
fn waits_of(
    rt: &HostRuntime,
    links: TcpLinks<'_, HostRuntime>,
) -> Result<[Option<Duration>; 3], Fail> {
    let mut links = links;
    let mut doors = links.listen(rt.alloc(), "127.0.0.1:0", 1)?;
    let Some(door) = doors.pop() else {
        return Ok([None, None, None]);
    };
    let mut door = door;
    let _client = client(rt, door.address()?, b"a")?;
    let Some((source, sink)) = door.next()? else {
        return Ok([None, None, None]);
    };
    let output = sink.into_output();
    let (stuck, first) = (output.write_timeout()?, output.read_timeout()?);
    let mut reader = source.into_input();
    let _count = reader.read(&mut [0; 4])?;
    let later = output.read_timeout()?;
    links.take_back(door);
    Ok([stuck, first, later])
}

#[test]
fn a_connection_waits_longer_once_its_client_was_heard(rt: HostRuntime) -> Result<(), Fail> {
    let waits = [60, 30, 600].map(|seconds| Some(Duration::from_secs(seconds)));
    assert_eq!(rt; waits_of(&rt, TcpLinks::new(rt.alloc(), &rt))?, waits);
    Ok(())
}

#[test]
fn a_standby_waits_no_longer_once_its_client_was_heard(rt: HostRuntime) -> Result<(), Fail> {
    let waits = [60, 30, 30].map(|seconds| Some(Duration::from_secs(seconds)));
    assert_eq!(rt;
        waits_of(&rt, TcpLinks::for_standby(rt.alloc(), &rt))?,
        waits
    );
    Ok(())
}

#[test]
fn a_standby_that_is_not_reached_is_a_fault(rt: HostRuntime) -> Result<(), Fail> {
    let alloc = rt.alloc();
    let mut links = TcpLinks::new(rt.alloc(), &rt);
    let mut doors = links.listen(alloc, "127.0.0.1:0", 1)?;
    let door = doors.pop().expect(&rt, "a door");
    let address = format!(in alloc; "{}", door.address()?)?;
    links.take_back(door);
    let mut dial = links.dial(alloc, &address, "logs/ann.log")?;
    assert_eq!(rt; dial.exchange(b"frame", 0), Err(Failed));
    assert_eq!(rt; dial.faults(), 1);
    links.hang_up(dial);
    let faults = links.dials_back().first().map(TcpDial::faults);
    assert_eq!(rt; faults, Some(1));
    assert_eq!(rt; links.faults(), 0);
    Ok(())
}
