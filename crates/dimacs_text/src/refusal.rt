//! Why a file is refused.
ghost use Rattle.std.specs.Prelude.{◌≡◌};
ghost use Rattle.dimacs_text.specs.declared.refusal.LineError.TheVariants.{Memory};

use std::alloc::{AllocError, AllocFailed};

/// Why a line of a file in the DIMACS format is refused. The numbers that are printed go from 1 in
/// this order, as in `docs/FORMATS.md`, "DIMACS".
#[derive(Clone, Copy, Debug, PartialEq, Eq)]
pub enum RefusalKind {
    /// It has none of the shapes.
    NotALine,
    /// It has more than 4,096 bytes.
    TooLong,
    /// It is line 1,000,001.
    TooMany,
    /// A second problem line or budget, or numbers before the problem line.
    Order,
    /// A budget that is no number from 1 to 4,000,000, or more than 1,000,000 variables or clauses.
    Limit,
    /// A variable that is higher than the problem line says.
    Variable,
    /// One more clause than the problem line says.
    Surplus,
    /// The file ends before the problem line, within a clause, or with fewer clauses than the
    /// problem line says.
    Missing,
}

/// The first line that is refused, counted from 1, and why. Where something is missing at the end
/// it is the line behind the last.
#[derive(Clone, Copy, Debug, PartialEq, Eq)]
pub struct DimacsRefusal {
    pub kind: RefusalKind,
    pub line: u32,
}

/// Why a line adds nothing to a problem.
#[derive(Clone, Copy, Debug, PartialEq, Eq)]
pub enum LineError {
    /// It is refused.
    Refused(RefusalKind),
    /// Memory is wanting.
    Memory,
}

impl From<AllocError> for LineError {
    ghost from_gives = { λ _ e. e ≡ Memory };

    fn from(_e: AllocError) -> LineError {
        LineError::Memory
    }
}

impl<T: Drop> From<AllocFailed<T>> for LineError {
    ghost from_gives = { λ _ e. e ≡ Memory };

    fn from(_e: AllocFailed<T>) -> LineError {
        LineError::Memory
    }
}
