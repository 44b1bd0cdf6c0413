//! A dial in memory.
ghost use Rattle.std.specs.Prelude.{◌≡◌, ◌++◌, ◌∷◌, [], map, string_bytes, OnOk, OnErr};

use crate::{Dial, Failed, Plan};
use std::alloc::{AllocError, Global};

/// A frame that a dial in memory was answered, and what its answer had to be above: it was one
/// above that.
#[derive(Drop)]
pub struct Answered {
    pub frame: Vec<u8>,
    pub above: u64,
}

/// A dial that answers from memory, as a standby does that takes each record in its turn: one above
/// what it has to be above. The calls of a plan fail. It keeps the frames, of which a standby in
/// memory can be told afterwards. Want of memory is a fault of it, and counted.
#[derive(Drop)]
pub struct MemoryDial {
    alloc: Global,
    address: String,
    name: String,
    exchanges: Vec<Answered>,
    plan: Plan,
    calls: u64,
    answered: u64,
    faults: u64,
}

impl MemoryDial {
    ghost use Rattle.outside.specs.MemoryDials.{dial_address, dial_name, dial_exchanged};
    ghost use Rattle.outside.specs.MemoryDials.{dial_answered, dial_faults};
    ghost use Rattle.outside.specs.MemoryDials.{answered_at, answered_by};

    /// A dial to an address, whose calls fail by plan and whose faults are counted under a name.
    pub fn new(alloc: Global, address: String, name: String, plan: Plan) -> Self
        ensures address { dial_address result ≡ string_bytes address }
        ensures name { dial_name result ≡ string_bytes name }
        ensures fresh { dial_exchanged result ≡ [] }
        ensures unanswered { dial_answered result ≡ 0 }
        ensures faultless { dial_faults result ≡ 0 }
    {
        MemoryDial {
            alloc,
            address,
            name,
            exchanges: Vec::new(alloc),
            plan,
            calls: 0,
            answered: 0,
            faults: 0,
        }
    }

    /// The frames that it was answered, in order.
    pub fn exchanges(&self) -> &[Answered]
        ensures { map (answered_by (dial_address self.now)) result.now ≡ dial_exchanged self.now }
    {
        &self.exchanges
    }

    /// The name under which its faults are counted.
    pub fn name(&self) -> &str
        ensures { result.now ≡ dial_name self.now }
    {
        self.name.as_str()
    }

    /// The count of faults.
    pub fn faults(&self) -> u64
        ensures { result ≡ dial_faults self.now }
    {
        self.faults
    }

    // Keeps a frame and what its answer has to be above.
    fn keep(&mut self, frame: &[u8], above: u64) -> Result<(), AllocError>
        ensures kept { OnOk result (dial_exchanged self.new
            ≡ dial_exchanged self.old ++ answered_at (dial_address self.old) frame.now above ∷ []) }
        ensures refused { OnErr result (dial_exchanged self.new ≡ dial_exchanged self.old) }
        ensures address { dial_address self.new ≡ dial_address self.old }
        ensures name { dial_name self.new ≡ dial_name self.old }
        ensures answered { dial_answered self.new ≡ dial_answered self.old }
        ensures faults { dial_faults self.new ≡ dial_faults self.old }
    {
        let frame = frame.to_vec(self.alloc)?;
        self.exchanges.push(Answered { frame, above })?;
        Ok(())
    }
}

impl Dial for MemoryDial {
    ghost use Rattle.outside.specs.MemoryDials.{dial_address, dial_name, dial_exchanged};
    ghost use Rattle.outside.specs.MemoryDials.{dial_answered, dial_faults};

    ghost tells = { Unit {0} };

    ghost address = { dial_address };

    ghost name = { dial_name };

    ghost exchanged = { dial_exchanged };

    ghost answered = { dial_answered };

    ghost faults = { dial_faults };

    fn exchange(&mut self, frame: &[u8], above: u64) -> Result<u64, Failed> {
        let call = self.calls;
        self.calls = call.saturating_add(1);
        if self.plan.fails(call) {
            self.faults = self.faults.saturating_add(1);
            return Err(Failed);
        }
        match self.keep(frame, above) {
            Ok(()) => {
                self.answered = above + 1;
                Ok(above + 1)
            }
            Err(AllocError) => {
                self.faults = self.faults.saturating_add(1);
                Err(Failed)
            }
        }
    }
}
