//! Connections of clients: the doors through which they come, and the links that open doors at an
//! address.
ghost use Rattle.std.specs.Prelude.{◌≡◌, ◌≢◌, ◌⊎◌, ◌<◌, ◌≤◌, ◌+◌, ◌-◌, ◌++◌, ◌∷◌, [], List, ℕ};
ghost use Rattle.std.specs.Prelude.{Option, Some, None, All, length, IfOk, OnOk, OnErr, IsErrOf};
ghost use Rattle.std.specs.List.{sum_by};
ghost use Rattle.outside.specs.Dials.{Exchange};
ghost use Rattle.outside.specs.Faults.{Rose, HasCause};
ghost use Rattle.outside.specs.Shelf.{SameNames, SameOthers};
ghost use Rattle.outside.specs.Visits.{Visit, visit_of, one_if_any, came, IfCame};
ghost use Rattle.outside.specs.Visits.{DoorPlace, door_place_of};
ghost use Rattle.outside.specs.Visits.{UnlessCame, OnEnd, UnlessEnd};

use crate::{Dial, Failed, Sink, Source};
use std::alloc::{AllocError, Global};

/// Why links don't listen.
#[derive(Clone, Copy, Debug, PartialEq, Eq)]
pub enum LinksError {
    /// The links failed. It comes only where their count of faults rose.
    Failed,
    /// Memory was wanting.
    Memory,
}

/// Where connections come in, one after the other. Each has two ends, which go back once it is
/// served.
pub trait Door {
    /// The end of a connection that its client's bytes come from.
    type Src: Source + Drop + Send;

    /// The end of a connection that answers go to.
    type Snk: Sink + Drop + Send;

    /// Whether clauses are told what comes in and goes back: over memory they are, over a real
    /// socket they are not.
    ghost tells: { Type 0 };

    /// How many connections it gave, where clauses are told.
    ghost given: { Self → ℕ };

    /// How many connections it has still to give, where clauses are told.
    ghost left: { Self → ℕ };

    /// The connections that are back, in the order in which they came back, where clauses are told.
    ghost back: { Self → List Visit };

    /// What the source of the last connection held, where that connection isn't back and clauses
    /// are told.
    ghost last: { Self → Option (List ℕ) };

    /// How often it answered that no further connection will come. It doesn't fall.
    ghost ends: { Self → ℕ };

    /// The count of faults, which doesn't fall.
    ghost faults: { Self → ℕ };

    /// The ends of the next connection, or none where no further one will come. It may wait for a
    /// client.
    fn next(&mut self) -> Result<Option<(Self::Src, Self::Snk)>, Failed>
        ensures given { tells → given self.new ≡ given self.old + came result }
        ensures left { tells → left self.old ≡ came result + left self.new }
        ensures last { tells
            → IfCame result (λ source sink. last self.new ≡ Some (Self.Src.held source)) }
        ensures still_last { tells → UnlessCame result (last self.new ≡ last self.old) }
        ensures back { tells → back self.new ≡ back self.old }

        // Nothing is taken from the ends or written to them, and they haven't failed.
        ensures whole { IfCame result (λ source sink. (Self.Src.faults source ≡ 0)
            × (Self.Snk.faults sink ≡ 0)) }
        ensures untaken { IfCame result (λ source sink. Self.Src.tells
            → Self.Src.left source ≡ Self.Src.held source) }
        ensures unwritten { IfCame result
            (λ source sink. Self.Snk.tells → Self.Snk.written sink ≡ []) }

        // Its answers go to the client whose bytes come.
        ensures client { tells
            → IfCame result (λ source sink. Self.Snk.answers sink ≡ Self.Src.held source) }
        ensures none_left { tells → OnEnd result (left self.old ≡ 0) }
        ensures end { OnEnd result (Rose (ends self.old) (ends self.new)) }
        ensures no_end { UnlessEnd result (ends self.new ≡ ends self.old) }
        ensures later { ends self.old ≤ ends self.new }
        ensures cause { HasCause (faults self.old) (faults self.new) result };

    /// Takes both ends of the last connection back. It takes no memory.
    fn done(&mut self, source: Self::Src, sink: Self::Snk)
        requires last { tells → last self.old ≡ Some (Self.Src.held source) }

        // What was written went to the client who asked.
        requires client { tells → Self.Snk.answers sink ≡ Self.Src.held source }
        ensures back { tells → back self.new
            ≡ back self.old ++ visit_of (Self.Src.held source) (Self.Snk.written sink)
            (Self.Src.faults source)
            (Self.Snk.faults sink) ∷ [] }
        ensures none { tells → last self.new ≡ None }
        ensures given { tells → given self.new ≡ given self.old }
        ensures left { tells → left self.new ≡ left self.old }
        ensures ends { ends self.new ≡ ends self.old }
        ensures faults { faults self.new ≡ faults self.old };

    /// A door that tells its connections gives ends that tell their bytes.
    ghost tells_ends: { tells → Self.Src.tells × Self.Snk.tells };
}

/// What opens doors at an address, and dials to one. Several doors can be open there, so that
/// several threads serve.
pub trait Links {
    /// The doors that they open.
    type D: Door + Drop + Send;

    /// The dials that they give.
    type Dial: Dial + Drop + Send;

    /// Whether clauses are told what comes in and goes back: over memory they are, over real
    /// sockets they are not.
    ghost tells: { Type 0 };

    /// How many connections the doors gave that are back, where clauses are told.
    ghost given: { Self → ℕ };

    /// How many connections are still to be given, those at doors that aren't back among them,
    /// where clauses are told.
    ghost left: { Self → ℕ };

    /// How many of them are at no door, where clauses are told.
    ghost at_hand: { Self → ℕ };

    /// The finished connections of the doors that are back, where clauses are told.
    ghost back: { Self → List Visit };

    /// How many doors aren't back.
    ghost out: { Self → ℕ };

    /// How many of the doors that are back had answered that no further connection will come.
    ghost ended: { Self → ℕ };

    /// Where they listened, in order, where clauses are told.
    ghost listened: { Self → List DoorPlace };

    /// The count of faults, which doesn't fall.
    ghost faults: { Self → ℕ };

    /// How many dials aren't hung up.
    ghost dialling: { Self → ℕ };

    /// What the dials exchanged that were hung up, dial by dial, where clauses are told.
    ghost exchanged: { Self → List Exchange };

    /// The second count: under each name the faults of the dials of that name that were hung up. It
    /// doesn't fall.
    ghost exchange_faults: { Self → List ℕ → ℕ };

    /// Opens so many doors at an address and keeps the place of each.
    fn listen(
        &mut self,
        alloc: Global,
        address: &str,
        doors: u32,
    ) -> Result<Vec<Self::D>, LinksError>
        ensures count { IfOk result (λ opened. length opened.items ≡ doors) }
        ensures whole { IfOk result (λ opened. All (λ door. Self.D.faults door ≡ 0) opened.items) }
        ensures fresh { tells → IfOk result (λ opened. All (λ door. (Self.D.given door ≡ 0)
            × (Self.D.back door ≡ [])) opened.items) }
        ensures unended { IfOk result (λ opened. All (λ door. Self.D.ends door ≡ 0) opened.items) }

        // The connections at hand are spread over the doors.
        ensures spread { tells
            → IfOk result (λ opened. sum_by Self.D.left opened.items + at_hand self.new
            ≡ at_hand self.old) }
        ensures all { tells → 0 < doors → OnOk result (at_hand self.new ≡ 0) }
        ensures kept { tells → OnErr result (at_hand self.new ≡ at_hand self.old) }
        ensures out { OnOk result (out self.new ≡ out self.old + doors) }
        ensures none_out { OnErr result (out self.new ≡ out self.old) }
        ensures ended { ended self.new ≡ ended self.old }
        ensures listened { tells → OnOk result (listened self.new
            ≡ listened self.old ++ door_place_of address.now doors ∷ []) }
        ensures unheard { tells → OnErr result (listened self.new ≡ listened self.old) }
        ensures given { tells → given self.new ≡ given self.old }
        ensures left { tells → left self.new ≡ left self.old }
        ensures back { tells → back self.new ≡ back self.old }
        ensures dialling { dialling self.new ≡ dialling self.old }
        ensures exchanged { tells → exchanged self.new ≡ exchanged self.old }
        ensures exchange_faults { SameNames (exchange_faults self.old) (exchange_faults self.new) }
        ensures later { faults self.old ≤ faults self.new }
        ensures cause { IsErrOf result LinksError.Failed
            → Rose (faults self.old) (faults self.new) };

    /// Takes a door back that `listen` gave. Where the door failed, the links' count rises. It
    /// takes no memory.
    fn take_back(&mut self, door: Self::D)
        requires { 0 < out self.old }
        ensures out { out self.old ≡ out self.new + 1 }
        ensures ended { ended self.new ≡ ended self.old + one_if_any (Self.D.ends door) }
        ensures given { tells → given self.new ≡ given self.old + Self.D.given door }
        ensures left { tells → left self.new ≡ left self.old - Self.D.given door }
        ensures at_hand { tells → at_hand self.new ≡ at_hand self.old + Self.D.left door }
        ensures back { tells → back self.new ≡ back self.old ++ Self.D.back door }
        ensures listened { tells → listened self.new ≡ listened self.old }
        ensures dialling { dialling self.new ≡ dialling self.old }
        ensures exchanged { tells → exchanged self.new ≡ exchanged self.old }
        ensures exchange_faults { SameNames (exchange_faults self.old) (exchange_faults self.new) }
        ensures later { faults self.old ≤ faults self.new }
        ensures whole { Self.D.faults door ≡ 0 → faults self.new ≡ faults self.old }
        ensures failed { Self.D.faults door ≢ 0 → Rose (faults self.old) (faults self.new) };

    /// A dial to an address, which was answered nothing yet and hasn't failed. Its faults will be
    /// counted under a name. It opens no connection.
    fn dial(&mut self, alloc: Global, address: &str, name: &str) -> Result<Self::Dial, AllocError>
        ensures address { IfOk result (λ dial. Self.Dial.address dial ≡ address.now) }
        ensures name { IfOk result (λ dial. Self.Dial.name dial ≡ name.now) }
        ensures fresh { Self.Dial.tells
            → IfOk result (λ dial. Self.Dial.exchanged dial ≡ []) }
        ensures whole { IfOk result (λ dial. Self.Dial.faults dial ≡ 0) }
        ensures unanswered { IfOk result (λ dial. Self.Dial.answered dial ≡ 0) }
        ensures dialling { OnOk result (dialling self.new ≡ dialling self.old + 1) }
        ensures none { OnErr result (dialling self.new ≡ dialling self.old) }
        ensures exchanged { tells → exchanged self.new ≡ exchanged self.old }
        ensures exchange_faults { SameNames (exchange_faults self.old) (exchange_faults self.new) }
        ensures out { out self.new ≡ out self.old }
        ensures ended { ended self.new ≡ ended self.old }
        ensures given { tells → given self.new ≡ given self.old }
        ensures left { tells → left self.new ≡ left self.old }
        ensures at_hand { tells → at_hand self.new ≡ at_hand self.old }
        ensures back { tells → back self.new ≡ back self.old }
        ensures listened { tells → listened self.new ≡ listened self.old }
        ensures faults { faults self.new ≡ faults self.old };

    /// Takes a dial back that `dial` gave. Its faults are added to the second count of its name,
    /// and to no other. It takes no memory.
    fn hang_up(&mut self, dial: Self::Dial)
        requires { 0 < dialling self.old }
        ensures dialling { dialling self.old ≡ dialling self.new + 1 }
        ensures exchanged { tells
            → exchanged self.new ≡ exchanged self.old ++ Self.Dial.exchanged dial }
        ensures exchange_faults { exchange_faults self.new (Self.Dial.name dial)
            ≡ exchange_faults self.old (Self.Dial.name dial) + Self.Dial.faults dial }
        ensures other_faults { SameOthers (Self.Dial.name dial) (exchange_faults self.old)
            (exchange_faults self.new) }
        ensures out { out self.new ≡ out self.old }
        ensures ended { ended self.new ≡ ended self.old }
        ensures given { tells → given self.new ≡ given self.old }
        ensures left { tells → left self.new ≡ left self.old }
        ensures at_hand { tells → at_hand self.new ≡ at_hand self.old }
        ensures back { tells → back self.new ≡ back self.old }
        ensures listened { tells → listened self.new ≡ listened self.old }
        ensures faults { faults self.new ≡ faults self.old };

    /// Links that tell their connections open doors that tell theirs.
    ghost tells_doors: { tells → Self.D.tells };

    /// They give dials that tell what they exchange.
    ghost tells_dials: { tells → Self.Dial.tells };
}
