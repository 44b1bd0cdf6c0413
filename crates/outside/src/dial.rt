//! A dial: exchanges with a standby, each over a connection of its own.
ghost use Rattle.std.specs.Prelude.{◌≡◌, ◌<◌, ◌+◌, ◌^◌, List, ℕ, IfOk, OnOk, OnErr};
ghost use Rattle.outside.specs.Dials.{Exchange, exchange_of, IsNext, MayBeNext};
ghost use Rattle.outside.specs.Faults.{HasCause};

use crate::Failed;

/// What gives frames to the standby at an address and takes its answers.
pub trait Dial {
    /// Whether clauses are told what it exchanges: over memory they are, over a real socket they
    /// are not.
    ghost tells: { Type 0 };

    /// The address that it calls. No call changes it.
    ghost address: { Self → List ℕ };

    /// The name under which its faults are counted. No call changes it.
    ghost name: { Self → List ℕ };

    /// What it exchanged, in order, where clauses are told.
    ghost exchanged: { Self → List Exchange };

    /// The number that it was last answered, 0 at first. Nothing but `exchange` changes it.
    ghost answered: { Self → ℕ };

    /// The count of faults, which doesn't fall.
    ghost faults: { Self → ℕ };

    /// Opens a connection, gives the whole frame, takes eight bytes, the higher first, and answers
    /// their number. It fails where one of these steps does, where the input ends before the eighth
    /// byte, and where the number isn't above the other. There is such a number, so that nobody can
    /// bring a failure about.
    fn exchange(&mut self, frame: &[u8], above: u64) -> Result<u64, Failed>
        requires few { above + 1 < 2 ^ 64 }
        ensures address { address self.new ≡ address self.old }
        ensures name { name self.new ≡ name self.old }
        ensures exchanged { tells
            → OnOk result (IsNext (exchange_of (address self.old) frame.now above result)
            (exchanged self.old) (exchanged self.new)) }

        // A frame may have gone out that wasn't answered.
        ensures failed { tells
            → OnErr result (MayBeNext (exchange_of (address self.old) frame.now above result)
            (exchanged self.old) (exchanged self.new)) }
        ensures answered { IfOk result (λ count. answered self.new ≡ count) }
        ensures above { IfOk result (λ count. above < count) }
        ensures unanswered { OnErr result (answered self.new ≡ answered self.old) }
        ensures cause { HasCause (faults self.old) (faults self.new) result };
}
