//! Links in memory.
ghost use Rattle.std.specs.Prelude.{◌≡◌, ◌≤◌, ◌<◌, ◌+◌, ◌-◌, ◌++◌, ◌∷◌, [], All, length, vec_len};
ghost use Rattle.std.specs.Prelude.{vec_capacity, IfOk, OnOk, OnErr, List, ℕ};
ghost use Rattle.std.specs.List.{sum_by};
ghost use Rattle.outside.specs.Shelf.{SameNames};
ghost use Rattle.outside.specs.Visits.{door_place_of, one_if_any};
ghost use Rattle.outside.specs.MemoryDoors.{door_given, door_left, door_back, door_ends};
ghost use Rattle.outside.specs.MemoryDoors.{door_faults};

use crate::{Connection, DoorBack, Finished, Links, LinksError, MemoryDial, MemoryDoor, Plan};
use std::alloc::{AllocError, Global};

/// An address at which links listened, and how many doors they opened there.
#[derive(Debug, Drop)]
pub struct Listened {
    pub address: String,
    pub doors: u32,
}

/// Links that spread connections from memory over the doors of a `listen`, and whose calls fail by
/// a plan. The dials are in memory too.
#[derive(Drop)]
pub struct MemoryLinks {
    // The last of them is given first.
    waiting: Vec<Connection>,
    // What the doors that are back had still to give.
    groups: Vec<Vec<Connection>>,
    doors_back: Vec<DoorBack>,
    out: usize,
    left: usize,
    plan: Plan,
    // The plans of the doors to come, the last of them first.
    door_plans: Vec<Plan>,
    places: Vec<Listened>,
    calls: u64,
    faults: u64,
    // The dials that were hung up, and the plans of those to come, the last of them first.
    dials_back: Vec<MemoryDial>,
    dial_plans: Vec<Plan>,
    dials_out: usize,
    ghost group_room: { length groups.items + out ≤ vec_capacity groups },
    ghost door_room: { length doors_back.items + out ≤ vec_capacity doors_back },
    ghost dial_room: { length dials_back.items + dials_out ≤ vec_capacity dials_back },
}

impl MemoryLinks {
    ghost use Rattle.outside.specs.MemoryLinks.{visits_among, links_given, links_left};
    ghost use Rattle.outside.specs.MemoryLinks.{links_at_hand, links_back, links_out, links_ended};
    ghost use Rattle.outside.specs.MemoryLinks.{links_listened, places_of, links_faults};
    ghost use Rattle.outside.specs.MemoryLinks.{links_dialling, links_exchanged};
    ghost use Rattle.outside.specs.MemoryLinks.{links_exchange_faults, exchanged_among};
    ghost use Rattle.outside.specs.MemoryLinks.{faults_among};

    /// Links with these connections, the first of them first, that never fail, nor do their doors.
    pub fn new(alloc: Global, connections: Vec<Connection>) -> Self
        ensures left { links_left result ≡ length connections.items }
        ensures at_hand { links_at_hand result ≡ length connections.items }
        ensures given { links_given result ≡ 0 }
        ensures back { links_back result ≡ [] }
        ensures out { links_out result ≡ 0 }
        ensures ended { links_ended result ≡ 0 }
        ensures listened { links_listened result ≡ [] }
        ensures faultless { links_faults result ≡ 0 }
        ensures dialling { links_dialling result ≡ 0 }
        ensures exchanged { links_exchanged result ≡ [] }
        ensures exchange_faults { (name : List ℕ) → links_exchange_faults result name ≡ 0 }
    {
        Self::with_plans(alloc, connections, Plan::Never, Vec::new(alloc))
    }

    /// The same, where the calls of the plan fail. Each door that they open follows the next of the
    /// other plans, and never fails where there is none. A call that takes a door back can't fail
    /// and isn't counted.
    pub fn with_plans(
        alloc: Global,
        connections: Vec<Connection>,
        plan: Plan,
        door_plans: Vec<Plan>,
    ) -> Self
        ensures left { links_left result ≡ length connections.items }
        ensures at_hand { links_at_hand result ≡ length connections.items }
        ensures given { links_given result ≡ 0 }
        ensures back { links_back result ≡ [] }
        ensures out { links_out result ≡ 0 }
        ensures ended { links_ended result ≡ 0 }
        ensures listened { links_listened result ≡ [] }
        ensures faultless { links_faults result ≡ 0 }
        ensures dialling { links_dialling result ≡ 0 }
        ensures exchanged { links_exchanged result ≡ [] }
        ensures exchange_faults { (name : List ℕ) → links_exchange_faults result name ≡ 0 }
    {
        let mut waiting = connections;
        waiting.reverse();
        let mut door_plans = door_plans;
        door_plans.reverse();
        let left = waiting.len();
        MemoryLinks {
            waiting,
            groups: Vec::new(alloc),
            doors_back: Vec::new(alloc),
            out: 0,
            left,
            plan,
            door_plans,
            places: Vec::new(alloc),
            calls: 0,
            faults: 0,
            dials_back: Vec::new(alloc),
            dial_plans: Vec::new(alloc),
            dials_out: 0,
        }
    }

    /// Has each dial to come follow the next of these plans. Where there is none it never fails.
    pub fn plan_dials(&mut self, plans: Vec<Plan>)
        ensures left { links_left self.new ≡ links_left self.old }
        ensures at_hand { links_at_hand self.new ≡ links_at_hand self.old }
        ensures given { links_given self.new ≡ links_given self.old }
        ensures back { links_back self.new ≡ links_back self.old }
        ensures out { links_out self.new ≡ links_out self.old }
        ensures ended { links_ended self.new ≡ links_ended self.old }
        ensures listened { links_listened self.new ≡ links_listened self.old }
        ensures faults { links_faults self.new ≡ links_faults self.old }
        ensures dialling { links_dialling self.new ≡ links_dialling self.old }
        ensures exchanged { links_exchanged self.new ≡ links_exchanged self.old }
        ensures exchange_faults { SameNames (links_exchange_faults self.old)
            (links_exchange_faults self.new) }
    {
        let mut plans = plans;
        plans.reverse();
        self.dial_plans = plans;
    }

    /// The dials that were hung up, in that order.
    pub fn dials_back(&self) -> &[MemoryDial]
        ensures exchanged { exchanged_among result.now ≡ links_exchanged self.now }
        ensures faults { (name : List ℕ)
            → faults_among result.now name ≡ links_exchange_faults self.now name }
    {
        &self.dials_back
    }

    /// The doors that are back, in the order in which they came back.
    pub fn doors_back(&self) -> &[DoorBack]
        ensures back { visits_among result.now ≡ links_back self.now }
        ensures given { sum_by (λ door. door.given) result.now ≡ links_given self.now }
        ensures ended { sum_by (λ door. one_if_any door.ends) result.now ≡ links_ended self.now }
    {
        &self.doors_back
    }

    /// Where they listened, in order.
    pub fn listened(&self) -> &[Listened]
        ensures { places_of result.now ≡ links_listened self.now }
    {
        &self.places
    }

    /// How many connections are still to be given.
    pub fn left(&self) -> usize
        ensures { result ≡ links_left self.now }
    {
        self.left
    }

    /// The count of faults.
    pub fn faults(&self) -> u64
        ensures { result ≡ links_faults self.now }
    {
        self.faults
    }

    // Opens so many doors at an address, over which the connections are spread.
    fn open(
        &mut self,
        alloc: Global,
        address: &str,
        doors: u32,
    ) -> Result<Vec<MemoryDoor>, AllocError>
        ensures count { IfOk result (λ opened. length opened.items ≡ doors) }
        ensures whole { IfOk result (λ opened. All (λ door. door_faults door ≡ 0) opened.items) }
        ensures fresh { IfOk result (λ opened. All (λ door. (door_given door ≡ 0)
            × (door_back door ≡ [])) opened.items) }
        ensures unended { IfOk result (λ opened. All (λ door. door_ends door ≡ 0) opened.items) }
        ensures spread { IfOk result (λ opened.
            sum_by door_left opened.items + links_at_hand self.new
            ≡ links_at_hand self.old) }
        ensures all { 0 < doors → OnOk result (links_at_hand self.new ≡ 0) }
        ensures kept { OnErr result (links_at_hand self.new ≡ links_at_hand self.old) }
        ensures out { OnOk result (links_out self.new ≡ links_out self.old + doors) }
        ensures none_out { OnErr result (links_out self.new ≡ links_out self.old) }
        ensures ended { links_ended self.new ≡ links_ended self.old }
        ensures given { links_given self.new ≡ links_given self.old }
        ensures left { links_left self.new ≡ links_left self.old }
        ensures back { links_back self.new ≡ links_back self.old }
        ensures listened { OnOk result (links_listened self.new
            ≡ links_listened self.old ++ door_place_of address.now doors ∷ []) }
        ensures unheard { OnErr result (links_listened self.new ≡ links_listened self.old) }
        ensures faults { links_faults self.new ≡ links_faults self.old }
        ensures dialling { links_dialling self.new ≡ links_dialling self.old }
        ensures exchanged { links_exchanged self.new ≡ links_exchanged self.old }
        ensures exchange_faults { SameNames (links_exchange_faults self.old)
            (links_exchange_faults self.new) }
    {
        let count = doors as usize;
        let mut place = String::new(alloc);
        place.push_str(address)?;
        self.places.reserve(1)?;
        gather(&mut self.waiting, &mut self.groups)?;
        let rooms = make_rooms(alloc, count, self.waiting.len())?;
        let mut opened = Vec::with_capacity(alloc, count)?;
        let Some(out) = self.out.checked_add(count) else {
            return Err(AllocError);
        };
        self.groups.reserve(out)?;
        self.doors_back.reserve(out)?;
        self.out = out;
        spread(&mut self.waiting, rooms, &mut self.door_plans, &mut opened);
        self.places.push_reserved(Listened {
            address: place,
            doors,
        });
        Ok(opened)
    }
}

impl Links for MemoryLinks {
    ghost use Rattle.outside.specs.MemoryLinks.{links_given, links_left, links_at_hand, links_back};
    ghost use Rattle.outside.specs.MemoryLinks.{links_out, links_ended, links_listened};
    ghost use Rattle.outside.specs.MemoryLinks.{links_faults, links_dialling, links_exchanged};
    ghost use Rattle.outside.specs.MemoryLinks.{links_exchange_faults};

    type D = MemoryDoor;

    type Dial = MemoryDial;

    ghost tells = { Unit {0} };

    ghost given = { links_given };

    ghost left = { links_left };

    ghost at_hand = { links_at_hand };

    ghost back = { links_back };

    ghost out = { links_out };

    ghost ended = { links_ended };

    ghost listened = { links_listened };

    ghost faults = { links_faults };

    ghost dialling = { links_dialling };

    ghost exchanged = { links_exchanged };

    ghost exchange_faults = { links_exchange_faults };

    ghost tells_doors = { λ told. told };

    ghost tells_dials = { λ told. told };

    fn listen(
        &mut self,
        alloc: Global,
        address: &str,
        doors: u32,
    ) -> Result<Vec<MemoryDoor>, LinksError> {
        let call = self.calls;
        self.calls = call.saturating_add(1);
        if self.plan.fails(call) {
            self.faults = self.faults.saturating_add(1);
            return Err(LinksError::Failed);
        }
        match self.open(alloc, address, doors) {
            Ok(opened) => Ok(opened),
            Err(AllocError) => Err(LinksError::Memory),
        }
    }

    fn take_back(&mut self, door: MemoryDoor) {
        if door.faults() > 0 {
            self.faults = self.faults.saturating_add(1);
        }
        let (waiting, back) = door.closed();
        self.left = self.left.saturating_sub(back.given);
        self.out -= 1;
        self.groups.push_reserved(waiting);
        self.doors_back.push_reserved(back);
    }

    fn dial(&mut self, alloc: Global, address: &str, name: &str) -> Result<MemoryDial, AllocError> {
        let address = String::from_str(alloc, address)?;
        let name = String::from_str(alloc, name)?;
        let Some(out) = self.dials_out.checked_add(1) else {
            return Err(AllocError);
        };
        self.dials_back.reserve(out)?;
        self.dials_out = out;
        let plan = self.dial_plans.pop().unwrap_or(Plan::Never);
        Ok(MemoryDial::new(alloc, address, name, plan))
    }

    fn hang_up(&mut self, dial: MemoryDial) {
        self.dials_out -= 1;
        self.dials_back.push_reserved(dial);
    }
}

// Moves so many connections from the end of one list to the end of another.
fn move_some(from: &mut Vec<Connection>, to: &mut Vec<Connection>, count: usize)
    requires enough { count ≤ length from.old.items }
    requires room { length to.old.items + count ≤ vec_capacity to.old }
    ensures taken { length from.new.items + count ≡ length from.old.items }
    ensures moved { length to.new.items ≡ length to.old.items + count }
    ensures capacity { vec_capacity to.new ≡ vec_capacity to.old }
{
    for _ in 0..count {
        if let Some(connection) = from.pop() {
            to.push_reserved(connection);
        }
    }
}

// Moves the connections of all groups to the others, so that they are given before those and in
// their order.
fn gather(
    waiting: &mut Vec<Connection>,
    groups: &mut Vec<Vec<Connection>>,
) -> Result<(), AllocError>
    ensures all { OnOk result (groups.new.items ≡ []) }
    ensures kept { length waiting.new.items + sum_by (λ group. length group.items) groups.new.items
        ≡ length waiting.old.items + sum_by (λ group. length group.items) groups.old.items }
    ensures fewer { length groups.new.items ≤ length groups.old.items }
    ensures capacity { vec_capacity groups.new ≡ vec_capacity groups.old }
{
    while let Some(group) = groups.pop() {
        let mut group = group;
        let count = group.len();
        if waiting.reserve(count).is_err() {
            groups.push_reserved(group);
            return Err(AllocError);
        }
        group.reverse();
        move_some(&mut group, waiting, count);
    }
    Ok(())
}

// The room for the connections of a door.
#[derive(Drop)]
struct Room {
    size: usize,
    waiting: Vec<Connection>,
    finished: Vec<Finished>,
    ghost empty: { (waiting.items ≡ []) × (finished.items ≡ []) },
    ghost room: { (size ≤ vec_capacity waiting) × (size ≤ vec_capacity finished) },
}

impl Room {
    fn new(alloc: Global, size: usize) -> Result<Room, AllocError>
        ensures { IfOk result (λ room. room.size ≡ size) }
    {
        let waiting = Vec::with_capacity(alloc, size)?;
        let finished = Vec::with_capacity(alloc, size)?;
        Ok(Room {
            size,
            waiting,
            finished,
        })
    }

    // A door for so many of these connections.
    fn filled(self, from: &mut Vec<Connection>, count: usize, plan: Plan) -> MemoryDoor
        requires enough { count ≤ length from.old.items }
        requires room { count ≤ self.size }
        ensures taken { door_left result + length from.new.items ≡ length from.old.items }
        ensures count { door_left result ≡ count }
        ensures given { door_given result ≡ 0 }
        ensures back { door_back result ≡ [] }
        ensures ends { door_ends result ≡ 0 }
        ensures faults { door_faults result ≡ 0 }
    {
        let Room {
            size: _,
            mut waiting,
            finished,
        } = self;
        move_some(from, &mut waiting, count);
        MemoryDoor::over(waiting, finished, plan)
    }
}

// So many rooms of this size.
fn make_rooms(alloc: Global, count: usize, size: usize) -> Result<Vec<Room>, AllocError>
    ensures count { IfOk result (λ rooms. length rooms.items ≡ count) }
    ensures size { IfOk result (λ rooms. All (λ room. room.size ≡ size) rooms.items) }
{
    let mut rooms = Vec::with_capacity(alloc, count)?;
    for _ in 0..count {
        let room = Room::new(alloc, size)?;
        rooms.push(room)?;
    }
    Ok(rooms)
}

// Spreads the connections over doors, each with one of the rooms and the next of the plans.
fn spread(
    waiting: &mut Vec<Connection>,
    rooms: Vec<Room>,
    plans: &mut Vec<Plan>,
    opened: &mut Vec<MemoryDoor>,
)
    requires sizes { All (λ room. room.size ≡ length waiting.old.items) rooms.items }
    requires empty { opened.old.items ≡ [] }
    requires room { length rooms.items ≤ vec_capacity opened.old }
    ensures count { length opened.new.items ≡ length rooms.items }
    ensures whole { All (λ door. door_faults door ≡ 0) opened.new.items }
    ensures fresh { All (λ door. (door_given door ≡ 0) × (door_back door ≡ [])) opened.new.items }
    ensures unended { All (λ door. door_ends door ≡ 0) opened.new.items }
    ensures spread { sum_by door_left opened.new.items + length waiting.new.items
        ≡ length waiting.old.items }
    ensures all { 0 < length rooms.items → length waiting.new.items ≡ 0 }
{
    let mut rooms = rooms;
    while let Some(room) = rooms.pop() {
        let share = waiting.len() / (rooms.len() + 1);
        let plan = plans.pop().unwrap_or(Plan::Never);
        opened.push_reserved(room.filled(waiting, share, plan));
    }
}
