//! Why a text opens no query.

ghost use Rattle.std.specs.Prelude.{◌≡◌};
ghost use Rattle.open_queries.specs.declared.error.OpenQueryError.TheVariants.{Memory};
ghost use Rattle.open_queries.specs.Memory.{refusal_of};

use cqe_base::text::TextError;
use sentence_text::ReadError;
use std::alloc::{AllocError, AllocFailed};

/// The sentence doesn't begin with as many `exists` as are to be opened.
pub const NO_QUANTIFIERS: u8 = 1;

/// The domains of these quantifiers give more than 256 instances.
pub const TOO_MANY_INSTANCES: u8 = 2;

/// The canonical form of some instance has more than 4,096 bytes, or more than 64 constructs
/// enclose a place of it.
pub const TOO_LONG_INSTANCE: u8 = 3;

/// Why a text opens no query: the first that applies. Want of memory says nothing of the text: the
/// same call may succeed later.
#[derive(Debug, Drop)]
pub enum OpenQueryError {
    /// The text is no sentence of the schema.
    Text(TextError),
    /// The sentence has another shape: one of the numbers above.
    Shape(u8),
    /// Memory is wanting.
    Memory,
}

impl From<ReadError> for OpenQueryError {
    ghost from_gives = { λ refusal e. e ≡ refusal_of refusal };

    fn from(refusal: ReadError) -> OpenQueryError {
        match refusal {
            ReadError::Text(refusal) => OpenQueryError::Text(refusal),
            ReadError::Memory => OpenQueryError::Memory,
        }
    }
}

impl From<AllocError> for OpenQueryError {
    ghost from_gives = { λ _ e. e ≡ Memory };

    fn from(_e: AllocError) -> OpenQueryError {
        OpenQueryError::Memory
    }
}

impl<T: Drop> From<AllocFailed<T>> for OpenQueryError {
    ghost from_gives = { λ _ e. e ≡ Memory };

    fn from(_e: AllocFailed<T>) -> OpenQueryError {
        OpenQueryError::Memory
    }
}
