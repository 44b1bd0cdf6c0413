//! A gate, at which a test can hold an ask between its steps.

/// What an ask has done as it passes a gate.
#[derive(Clone, Copy, Debug, PartialEq, Eq)]
pub enum Point {
    /// The text was examined.
    Examined,
    /// The ask is settled, and its turn has ended.
    Settled,
}

/// What an ask passes between its steps. A gate does nothing to any other object; that of a test
/// may wait there for another call, a stated number of turns at most.
pub trait Gate {
    /// An ask of this user passes.
    fn pass(&self, user: &str, point: Point);
}

/// A gate that is passed at once.
pub struct OpenGate;

impl Gate for OpenGate {
    fn pass(&self, _user: &str, _point: Point) {}
}
