//! What an object in memory is told to do.

/// Which calls of an object in memory are to fail, counted from 0. A call that finds no memory
/// fails too.
#[derive(Drop)]
pub enum Plan {
    /// None of them.
    Never,
    /// Those of this list.
    At(Vec<u64>),
    /// This one and each after it.
    From(u64),
}

impl Plan {
    /// Whether the call of this number is to fail.
    pub(crate) fn fails(&self, number: u64) -> bool {
        match self {
            Plan::Never => false,
            Plan::At(numbers) => numbers.contains(&number),
            Plan::From(first) => number >= *first,
        }
    }
}

/// How many bytes a stream in memory moves in one call.
#[derive(Drop)]
pub enum Pieces {
    /// As many as the piece has.
    Whole,
    /// At most so many.
    UpTo(usize),
    /// At most the numbers of this list, one call after the other, and again from its first.
    InTurn(Vec<usize>),
}

impl Pieces {
    /// The most that the call of this number moves.
    pub(crate) fn most(&self, number: u64) -> usize {
        match self {
            Pieces::Whole => usize::MAX,
            Pieces::UpTo(most) => *most,
            Pieces::InTurn(sizes) if sizes.is_empty() => usize::MAX,
            Pieces::InTurn(sizes) => sizes[(number % sizes.len() as u64) as usize],
        }
    }
}
