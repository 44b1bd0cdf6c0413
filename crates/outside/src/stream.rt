//! Bytes that come in and bytes that go out.
ghost use Rattle.std.specs.Prelude.{◌≡◌, ◌<◌, ◌≤◌, ◌++◌, [], List, ℕ, length, take, IfOk, OnErr};
ghost use Rattle.outside.specs.Faults.{HasCause, Rose};
ghost use Rattle.outside.specs.Streams.{Moves};

use crate::Failed;

/// Where bytes come from.
pub trait Source {
    /// Whether clauses are told what the source gives: over memory they are, over a real stream
    /// they are not.
    ghost tells: { Type 0 };

    /// All bytes that the source had when it was made, where clauses are told.
    ghost held: { Self → List ℕ };

    /// The bytes that it has still to give, where clauses are told.
    ghost left: { Self → List ℕ };

    /// The count of faults, which doesn't fall.
    ghost faults: { Self → ℕ };

    /// Moves bytes into the front of a piece and answers how many. For a piece that isn't empty 0
    /// is the end of the input.
    fn take(&mut self, into: &mut [u8]) -> Result<usize, Failed>
        ensures fits { IfOk result (λ n. n ≤ length into.old) }
        ensures moved { tells
            → IfOk result (λ n. Moves n (left self.old) (left self.new) into.old into.new) }
        ensures end { tells → IfOk result (λ n. n ≡ 0 → 0 < length into.old → left self.old ≡ []) }
        ensures still_left { tells → OnErr result (left self.new ≡ left self.old) }
        ensures same_piece { tells → OnErr result (into.new ≡ into.old) }
        ensures held { held self.new ≡ held self.old }
        ensures cause { HasCause (faults self.old) (faults self.new) result };

    /// What is left is the end of what the source held.
    ghost left_of_held: { (source : Self) → tells → (front : List ℕ)
        × (held source ≡ front ++ left source) };
}

/// Where bytes go.
pub trait Sink {
    /// Whether clauses are told what is written: over memory they are, over a real stream they are
    /// not.
    ghost tells: { Type 0 };

    /// All bytes that were appended, where clauses are told.
    ghost written: { Self → List ℕ };

    /// The bytes of the client whom it answers, as the source at the other end holds them, where
    /// clauses are told.
    ghost answers: { Self → List ℕ };

    /// The count of faults, which doesn't fall.
    ghost faults: { Self → ℕ };

    /// Appends the front of a piece and answers its length. For a piece that isn't empty 0 is a
    /// failure, and counted.
    fn give(&mut self, bytes: &[u8]) -> Result<usize, Failed>
        ensures fits { IfOk result (λ n. n ≤ length bytes.now) }
        ensures appended { tells
            → IfOk result (λ n. written self.new ≡ written self.old ++ take n bytes.now) }
        ensures nothing { tells → OnErr result (written self.new ≡ written self.old) }
        ensures stuck { IfOk result (λ n. n ≡ 0 → 0 < length bytes.now
            → Rose (faults self.old) (faults self.new)) }
        ensures answers { answers self.new ≡ answers self.old }
        ensures cause { HasCause (faults self.old) (faults self.new) result };
}
