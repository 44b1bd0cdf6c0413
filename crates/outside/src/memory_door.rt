//! A door in memory.
ghost use Rattle.std.specs.Prelude.{◌≡◌, ◌≤◌, ◌<◌, ◌+◌, ◌^◌, [], length, map, None, option_to_list};
ghost use Rattle.std.specs.Prelude.{vec_capacity, IfOk};
ghost use Rattle.outside.specs.MemoryStreams.{source_held, source_left, source_faults};
ghost use Rattle.outside.specs.MemoryStreams.{sink_written, sink_answers, sink_faults};

use crate::{Door, Failed, MemorySink, MemorySource, Plan};
use std::alloc::{AllocError, Global};
use std::snapshot::Snapshot;

/// A connection in memory that is still to be given: what its client sends, and where its answers
/// go.
#[derive(Drop)]
pub struct Connection {
    source: MemorySource,
    sink: MemorySink,
    ghost whole: { (source_faults source ≡ 0) × (sink_faults sink ≡ 0) },
    ghost untouched: { (source_left source ≡ source_held source) × (sink_written sink ≡ []) },
    ghost client: { sink_answers sink ≡ source_held source },
}

impl Connection {
    /// A connection of two ends of which nothing was taken or written yet. From here on the sink is
    /// the one that answers the client of this source.
    pub fn new(source: MemorySource, sink: MemorySink) -> Self
        requires whole { (source_faults source ≡ 0) × (sink_faults sink ≡ 0) }
        requires untouched { (source_left source ≡ source_held source) × (sink_written sink ≡ []) }
    {
        let sink = sink.answering(&source);
        Connection { source, sink }
    }
}

/// The ends of a connection as they came back.
#[derive(Drop)]
pub struct Finished {
    pub source: MemorySource,
    pub sink: MemorySink,
}

/// What is left of a door in memory that is closed.
#[derive(Drop)]
pub struct DoorBack {
    pub(crate) finished: Vec<Finished>,
    pub(crate) given: usize,
    pub(crate) ends: u64,
}

impl DoorBack {
    ghost use Rattle.outside.specs.MemoryDoors.{finished_visit, visits_of};

    /// The connections that went back through this door, in that order.
    pub fn finished(&self) -> &[Finished]
        ensures { map finished_visit result.now ≡ visits_of self.now }
    {
        &self.finished
    }

    /// How many connections it gave.
    pub fn given(&self) -> usize
        ensures { result ≡ self.now.given }
    {
        self.given
    }

    /// How often it answered that no further connection comes.
    pub fn ends(&self) -> u64
        ensures { result ≡ self.now.ends }
    {
        self.ends
    }
}

/// A door that gives connections from memory, and whose calls fail by a plan. It keeps a place for
/// each connection, to which its ends come back.
#[derive(Drop)]
pub struct MemoryDoor {
    // The last of them is given first.
    waiting: Vec<Connection>,
    finished: Vec<Finished>,
    last: Option<Snapshot<MemorySource>>,
    given: usize,
    plan: Plan,
    calls: u64,
    ends: u64,
    faults: u64,
    ghost counted: { given + length waiting.items < 2 ^ 64 },
    ghost room: { length finished.items + (length (option_to_list last) + length waiting.items)
        ≤ vec_capacity finished },
}

impl MemoryDoor {
    ghost use Rattle.outside.specs.MemoryDoors.{finished_visit, door_given, door_left, door_back};
    ghost use Rattle.outside.specs.MemoryDoors.{door_last, door_ends, door_faults, visits_of};

    /// A door that gives these connections, the first of them first, and never fails.
    pub fn new(alloc: Global, connections: Vec<Connection>) -> Result<Self, AllocError>
        ensures given { IfOk result (λ door. door_given door ≡ 0) }
        ensures left { IfOk result (λ door. door_left door ≡ length connections.items) }
        ensures back { IfOk result (λ door. door_back door ≡ []) }
        ensures unended { IfOk result (λ door. door_ends door ≡ 0) }
        ensures faultless { IfOk result (λ door. door_faults door ≡ 0) }
    {
        Self::with_plan(alloc, connections, Plan::Never)
    }

    /// The same, where the calls of the plan fail. A call that takes a connection back can't fail
    /// and isn't counted.
    pub fn with_plan(
        alloc: Global,
        connections: Vec<Connection>,
        plan: Plan,
    ) -> Result<Self, AllocError>
        ensures given { IfOk result (λ door. door_given door ≡ 0) }
        ensures left { IfOk result (λ door. door_left door ≡ length connections.items) }
        ensures back { IfOk result (λ door. door_back door ≡ []) }
        ensures unended { IfOk result (λ door. door_ends door ≡ 0) }
        ensures faultless { IfOk result (λ door. door_faults door ≡ 0) }
    {
        let finished = Vec::with_capacity(alloc, connections.len())?;
        Ok(Self::over(connections, finished, plan))
    }

    /// A door for these connections, the first of them first, with the place for each of them.
    pub(crate) fn over(connections: Vec<Connection>, places: Vec<Finished>, plan: Plan) -> Self
        requires empty { places.items ≡ [] }
        requires room { length connections.items ≤ vec_capacity places }
        ensures given { door_given result ≡ 0 }
        ensures left { door_left result ≡ length connections.items }
        ensures back { door_back result ≡ [] }
        ensures unended { door_ends result ≡ 0 }
        ensures faultless { door_faults result ≡ 0 }
    {
        let mut waiting = connections;
        waiting.reverse();
        let _count = waiting.len();
        MemoryDoor {
            waiting,
            finished: places,
            last: None,
            given: 0,
            plan,
            calls: 0,
            ends: 0,
            faults: 0,
        }
    }

    /// The connections that are back, in the order in which they came back.
    pub fn finished(&self) -> &[Finished]
        ensures { map finished_visit result.now ≡ door_back self.now }
    {
        &self.finished
    }

    /// What it had still to give, the last of them first, and what is left of it.
    pub(crate) fn closed(self) -> (Vec<Connection>, DoorBack)
        ensures waiting { length result.0.items ≡ door_left self }
        ensures back { visits_of result.1 ≡ door_back self }
        ensures given { result.1.given ≡ door_given self }
        ensures ends { result.1.ends ≡ door_ends self }
    {
        let MemoryDoor {
            waiting,
            finished,
            last: _,
            given,
            plan: _,
            calls: _,
            ends,
            faults: _,
        } = self;
        let back = DoorBack {
            finished,
            given,
            ends,
        };
        (waiting, back)
    }

    /// How many connections it has still to give.
    pub fn left(&self) -> usize
        ensures { result ≡ door_left self.now }
    {
        self.waiting.len()
    }

    /// How often it answered that no further connection comes.
    pub fn ends(&self) -> u64
        ensures { result ≡ door_ends self.now }
    {
        self.ends
    }

    /// The count of faults.
    pub fn faults(&self) -> u64
        ensures { result ≡ door_faults self.now }
    {
        self.faults
    }
}

impl Door for MemoryDoor {
    ghost use Rattle.outside.specs.MemoryDoors.{door_given, door_left, door_back, door_last};
    ghost use Rattle.outside.specs.MemoryDoors.{door_ends, door_faults};

    type Src = MemorySource;

    type Snk = MemorySink;

    ghost tells = { Unit {0} };

    ghost given = { door_given };

    ghost left = { door_left };

    ghost back = { door_back };

    ghost last = { door_last };

    ghost ends = { door_ends };

    ghost faults = { door_faults };

    ghost tells_ends = { λ told. (told, told) };

    fn next(&mut self) -> Result<Option<(MemorySource, MemorySink)>, Failed> {
        let call = self.calls;
        self.calls = call.saturating_add(1);
        if self.plan.fails(call) {
            self.faults = self.faults.saturating_add(1);
            return Err(Failed);
        }
        match self.waiting.pop() {
            Some(Connection { source, sink }) => {
                self.given += 1;
                self.last = Some(Snapshot::of(&source));
                Ok(Some((source, sink)))
            }
            None => {
                self.ends = self.ends.saturating_add(1);
                Ok(None)
            }
        }
    }

    fn done(&mut self, source: MemorySource, sink: MemorySink) {
        self.last = None;
        self.finished.push_reserved(Finished { source, sink });
    }
}
