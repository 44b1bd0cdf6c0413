//! How often each reply stands in lines.
ghost use Rattle.std.specs.Prelude.{◌≡◌, ◌≤◌, ◌<◌, ◌+◌};
ghost use Rattle.selfrun_engine.specs.Counting.{after_byte, with_first, tally_in, total};

/// How often each mark came, and every other reply.
#[derive(Clone, Copy)]
pub struct Tally {
    pub yes: u64,
    pub no: u64,
    pub refused: u64,
    pub undecided: u64,
    pub errors: u64,
}

/// What was read of lines, byte by byte: the replies of those that ended, and of the last one how
/// many blanks came before its reply, which begins behind the second one; 3 once it began.
#[derive(Clone, Copy)]
pub(crate) struct Counter {
    blanks: u8,
    tally: Tally,
}

/// The replies in these lines, each of which has a name, a session and a reply, and a line feed at
/// its end.
pub(crate) fn tally_in(lines: &[u8]) -> Tally
    ensures { result ≡ tally_in lines.now }
{
    let mut counter = Counter {
        blanks: 0,
        tally: Tally {
            yes: 0,
            no: 0,
            refused: 0,
            undecided: 0,
            errors: 0,
        },
    };
    for byte in lines {
        counter = counter.after(*byte);
    }
    counter.tally
}

impl Counter {
    // One byte more.
    fn after(self, byte: u8) -> Counter
        requires { total self.tally < 18446744073709551615 }
        ensures after { result ≡ after_byte self byte }
        ensures more { total result.tally ≤ total self.tally + 1 }
    {
        match (byte, self.blanks) {
            (b'\n', _) => Counter { blanks: 0, ..self },
            (_, 2) => Counter {
                blanks: 3,
                tally: self.tally.with_first(byte),
            },
            (b' ', 0) => Counter { blanks: 1, ..self },
            (b' ', 1) => Counter { blanks: 2, ..self },
            _ => self,
        }
    }
}

impl Tally {
    // The reply that begins with this byte.
    fn with_first(self, byte: u8) -> Tally
        requires { total self < 18446744073709551615 }
        ensures with { result ≡ with_first self byte }
        ensures more { total result ≤ total self + 1 }
    {
        let mut tally = self;
        match byte {
            b'y' => tally.yes += 1,
            b'n' => tally.no += 1,
            b'r' => tally.refused += 1,
            b'u' => tally.undecided += 1,
            _ => tally.errors += 1,
        }
        tally
    }
}
