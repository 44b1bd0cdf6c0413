//! The numbers that are drawn from a seed.
ghost use Rattle.std.specs.Prelude.{◌≡◌, ◌<◌};

/// A sequence of numbers that follow from a seed: x becomes 1103515245 x + 12345 modulo 2^31, and
/// gives its bits from the seventeenth on.
#[derive(Drop)]
pub(crate) struct Draws {
    state: u64,
    ghost small: { state < 2147483648 },
}

impl Draws {
    ghost use Rattle.workload.specs.Draws.{next_state, state_after, number_of, state_of};

    /// Nothing is drawn yet.
    pub(crate) fn new(seed: u64) -> Self
        ensures { state_of result ≡ state_after seed 0 }
    {
        Draws {
            state: seed % 2147483648,
        }
    }

    /// Draws a number below the bound.
    pub(crate) fn draw(&mut self, bound: u32) -> u32
        requires { 0 < bound }
        ensures number { result ≡ number_of bound (next_state (state_of self.old)) }
        ensures below { result < bound }
        ensures state { state_of self.new ≡ next_state (state_of self.old) }
    {
        self.state = (1103515245 * self.state + 12345) % 2147483648;
        (self.state / 65536) as u32 % bound
    }
}
