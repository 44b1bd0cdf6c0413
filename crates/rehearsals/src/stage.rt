//! The shelf of a scene, and calls of the program over it.
ghost use Rattle.std.specs.Prelude.{◌≡◌, List, ℕ, false};
ghost use Rattle.outside.specs.MemoryShelves.{is_disk_out};

use crate::scene::{Call, Client, Named};
use cqe_top::top;
use outside::{
    Connection, Finished, MemoryDial, MemoryDisk, MemoryLinks, MemoryShelf, MemorySink,
    MemorySource, OpenGate, Pieces, Plan,
};
use std::alloc::{AllocError, Global};
use std::sync::Wait;
use std::thread::Threads;

/// What came of a call.
#[derive(Drop)]
pub struct Outcome {
    pub status: u8,
    pub output: Vec<u8>,
    pub complaint: Vec<u8>,
    /// Whether the whole input is left.
    pub unread: bool,
    /// The clients that were served.
    pub served: Vec<Client>,
    /// The frames that a standby was given, one behind the other.
    pub frames: Vec<u8>,
    /// How many clients are left.
    pub left: usize,
}

/// A shelf in memory that has all its disks.
#[derive(Drop)]
pub struct Stage {
    shelf: MemoryShelf,
    ghost whole: { (name : List ℕ) → is_disk_out shelf name ≡ false },
}

impl Stage {
    /// An empty one.
    pub fn new(alloc: Global) -> Stage {
        Stage {
            shelf: MemoryShelf::new(alloc),
        }
    }

    /// Puts a file on the shelf.
    pub fn put_file(&mut self, alloc: Global, given: &Named) -> Result<(), AllocError> {
        self.shelf.put(alloc, given.name.as_str(), &given.bytes)
    }

    /// Puts a disk in the place of the one of its name.
    pub fn put_disk(&mut self, alloc: Global, given: &Named) -> Result<(), AllocError> {
        let disk = MemoryDisk::new(alloc, given.bytes.clone()?)?;
        self.shelf.put_disk(alloc, given.name.as_str(), disk)
    }

    /// The bytes of the disk of a name, where there is one.
    pub fn disk(&self, name: &str) -> Option<&[u8]> {
        match self.shelf.disk(name) {
            Some(disk) => Some(disk.bytes()),
            None => None,
        }
    }

    /// Calls the program with these words; its streams and those of its clients give and take
    /// pieces of this size.
    pub fn perform(
        &mut self,
        rt: &(impl Threads + Wait + Sync),
        alloc: Global,
        words: &[String],
        call: &Call,
        cut: usize,
    ) -> Result<Outcome, AllocError> {
        let mut ends = ends_of(alloc, call, cut)?;
        let status = self.call(rt, alloc, words, &mut ends);
        outcome_of(alloc, status, &ends)
    }

    /// Calls the program over these ends, and answers its status.
    fn call(
        &mut self,
        rt: &(impl Threads + Wait + Sync),
        alloc: Global,
        words: &[String],
        ends: &mut Ends,
    ) -> u8 {
        top(
            rt,
            alloc,
            words,
            &mut self.shelf,
            &mut ends.source,
            &mut ends.sink,
            &mut ends.complaints,
            &mut ends.links,
            &OpenGate,
        )
    }
}

/// What a call reads and writes besides the shelf.
#[derive(Drop)]
struct Ends {
    source: MemorySource,
    sink: MemorySink,
    complaints: MemorySink,
    links: MemoryLinks,
}

/// The ends of a call.
fn ends_of(alloc: Global, call: &Call, cut: usize) -> Result<Ends, AllocError> {
    let links = links_of(alloc, call, cut)?;
    let input = call.input.clone()?;
    Ok(Ends {
        source: MemorySource::with_plan(input, Pieces::UpTo(cut), Plan::Never),
        sink: MemorySink::with_plan(alloc, Pieces::UpTo(cut), Plan::Never),
        complaints: MemorySink::new(alloc),
        links,
    })
}

/// The links of a call.
fn links_of(alloc: Global, call: &Call, cut: usize) -> Result<MemoryLinks, AllocError> {
    let mut links = MemoryLinks::new(alloc, connections(alloc, &call.clients, cut)?);
    if call.unreached {
        links.plan_dials(broken_dials(alloc)?);
    }
    Ok(links)
}

/// What came of a call, as its ends show it.
fn outcome_of(alloc: Global, status: u8, ends: &Ends) -> Result<Outcome, AllocError> {
    Ok(Outcome {
        status,
        output: ends.sink.bytes().to_vec(alloc)?,
        complaint: ends.complaints.bytes().to_vec(alloc)?,
        unread: ends.source.left().len() == ends.source.held().len(),
        served: served(alloc, &ends.links)?,
        frames: frames(alloc, &ends.links)?,
        left: ends.links.left(),
    })
}

/// Connections of these clients.
fn connections(
    alloc: Global,
    clients: &[Client],
    cut: usize,
) -> Result<Vec<Connection>, AllocError> {
    let mut connections = Vec::new(alloc);
    for client in clients {
        connections.push(connection(alloc, client, cut)?)?;
    }
    Ok(connections)
}

/// The connection of a client.
fn connection(alloc: Global, client: &Client, cut: usize) -> Result<Connection, AllocError> {
    let sends = client.sends.clone()?;
    let source = MemorySource::with_plan(sends, Pieces::UpTo(cut), Plan::Never);
    let sink = MemorySink::with_plan(alloc, Pieces::UpTo(cut), Plan::Never);
    Ok(Connection::new(source, sink))
}

/// Plans of dials that fail at each exchange, more than a scene has users.
fn broken_dials(alloc: Global) -> Result<Vec<Plan>, AllocError> {
    let mut plans = Vec::new(alloc);
    for _ in 0..16u32 {
        plans.push(Plan::From(0))?;
    }
    Ok(plans)
}

/// The frames that dials were answered, dial by dial as they were hung up.
fn frames(alloc: Global, links: &MemoryLinks) -> Result<Vec<u8>, AllocError> {
    let mut frames = Vec::new(alloc);
    for dial in links.dials_back() {
        add_frames(&mut frames, dial)?;
    }
    Ok(frames)
}

fn add_frames(frames: &mut Vec<u8>, dial: &MemoryDial) -> Result<(), AllocError> {
    for one in dial.exchanges() {
        frames.extend_from_slice(one.frame.as_slice())?;
    }
    Ok(())
}

/// What the clients that were served sent and got.
fn served(alloc: Global, links: &MemoryLinks) -> Result<Vec<Client>, AllocError> {
    let mut served = Vec::new(alloc);
    for door in links.doors_back() {
        for finished in door.finished() {
            served.push(client_of(alloc, finished)?)?;
        }
    }
    Ok(served)
}

/// What a client sent and got.
fn client_of(alloc: Global, finished: &Finished) -> Result<Client, AllocError> {
    Ok(Client {
        sends: finished.source.held().to_vec(alloc)?,
        gets: finished.sink.bytes().to_vec(alloc)?,
    })
}
