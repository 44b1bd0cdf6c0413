//! What tells a standby of the records of one journal.
ghost use Rattle.std.specs.Prelude.{◌≡◌, ◌<◌, ◌≤◌, ◌+◌, ◌^◌, [], All, Some, None, length};
ghost use Rattle.std.specs.Prelude.{string_bytes, OnOk, OnErr};
ghost use Rattle.outside.specs.Dials.{IsNext, MayBeNext};
ghost use Rattle.outside.specs.Disk.{HearsAtMost};
ghost use Rattle.outside.specs.Faults.{HasCause};
ghost use Rattle.standby_core.specs.Calls.{IsExchangeOf, telling_of, greatest_answer};
ghost use Rattle.standby_core.specs.CallProps.{AreExchangesOf-prop};

use crate::FrameRoom;
use log_journal::Header;
use outside::{Dial, Failed};

/// A dial to a standby with what its frames say: the header of the journal and its user.
///
/// It keeps the last count that the standby answered, so that a record that the standby has anyway
/// needs no exchange, as those before the last one at an opening.
#[derive(Drop)]
pub struct Mirror<C: Dial> {
    header: Header,
    user: String,
    room: FrameRoom,
    dial: C,
    count: u64,
    ghost answered: { count ≡ C.answered dial },
    ghost short: { length (string_bytes user) ≤ 32 },
    ghost calls: { C.tells → All (IsExchangeOf (C.address dial) header (string_bytes user))
        (C.exchanged dial) } by { AreExchangesOf-prop _ _ _ _ _ },
    ghost greatest: { C.tells → greatest_answer (C.exchanged dial) ≡ C.answered dial },
}

impl<C: Dial> Mirror<C> {
    ghost use Rattle.standby_core.specs.Mirrors.{dial_of, header_of, user_of};
    ghost use Rattle.standby_core.specs.MirroredDisks.{heard_by};

    /// A mirror with a dial that has exchanged nothing yet. A standby refuses the frames of a user
    /// without a name.
    pub fn new(header: &Header, user: String, dial: C) -> Self
        requires unanswered { C.answered dial ≡ 0 }
        requires fresh { C.tells → C.exchanged dial ≡ [] }
        requires short { length (string_bytes user) ≤ 32 }
        ensures header { header_of result ≡ header.now }
        ensures user { user_of result ≡ string_bytes user }
        ensures dial { dial_of result ≡ dial }
    {
        Mirror {
            header: *header,
            user,
            room: FrameRoom::new(),
            dial,
            count: 0,
        }
    }

    /// Tells of a record, whose number is counted from 0: it answers at once where the standby is
    /// known to have the record, and else where it answers to its frame that it has. It takes no
    /// memory.
    pub fn tell(&mut self, number: u64, kind: u8, text: &[u8]) -> Result<(), Failed>
        requires low { 1 ≤ kind }
        requires high { kind ≤ 5 }
        requires short { length text.now ≤ 4096 }
        requires few { number + 1 < 2 ^ 64 }
        ensures above { OnOk result (number < C.answered (dial_of self.new)) }
        ensures tellable { C.answered (dial_of self.old) ≤ C.answered (dial_of self.new) }
        ensures known { number < C.answered (dial_of self.old) → self.new ≡ self.old }
        ensures exchanged { C.tells → C.answered (dial_of self.old) ≤ number
            → OnOk result (IsNext (telling_of (C.address (dial_of self.old)) (header_of self.old)
            (record { name = user_of self.old; number = number; kind = kind; text = text.now })
            (Some (C.answered (dial_of self.new))))
            (C.exchanged (dial_of self.old)) (C.exchanged (dial_of self.new))) }
        ensures failed { C.tells
            → OnErr result (MayBeNext (telling_of (C.address (dial_of self.old))
            (header_of self.old)
            (record { name = user_of self.old; number = number; kind = kind; text = text.now })
            None)
            (C.exchanged (dial_of self.old)) (C.exchanged (dial_of self.new))) }
        ensures heard { HearsAtMost number (kind, text.now)
            (heard_by C.tells C.exchanged (Some self.old))
            (heard_by C.tells C.exchanged (Some self.new)) }
        ensures address { C.address (dial_of self.new) ≡ C.address (dial_of self.old) }
        ensures name { C.name (dial_of self.new) ≡ C.name (dial_of self.old) }
        ensures header { header_of self.new ≡ header_of self.old }
        ensures user { user_of self.new ≡ user_of self.old }
        ensures cause { HasCause (C.faults (dial_of self.old)) (C.faults (dial_of self.new))
            result }
    {
        if number < self.count {
            return Ok(());
        }
        self.room
            .fill(&self.header, self.user.as_str(), number, kind, text);
        self.count = self.dial.exchange(self.room.bytes(), number)?;
        Ok(())
    }

    /// Its dial.
    pub fn into_dial(self) -> C
        ensures { result ≡ dial_of self }
    {
        let Mirror {
            header: _,
            user: _,
            room: _,
            dial,
            count: _,
        } = self;
        dial
    }
}
