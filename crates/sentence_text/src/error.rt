//! Why a sentence could not be read. The kinds of refusal are numbered as the table of
//! `docs/FORMATS.md`, "Sentences", has them.

ghost use Rattle.std.specs.Prelude.{◌≡◌};
ghost use Rattle.sentence_text.specs.declared.error.ReadError.TheVariants.{Memory};

use cqe_base::text::TextError;
use std::alloc::{AllocError, AllocFailed};

/// A byte begins no token and isn't a blank.
pub const BAD_CHARACTER: u8 = 1;

/// The grammar doesn't allow a token, or the end of the text, there.
pub const UNEXPECTED: u8 = 2;

/// A relation, a domain or a term with this name isn't known.
pub const UNKNOWN_NAME: u8 = 3;

/// A term has another domain than is needed.
pub const WRONG_DOMAIN: u8 = 4;

/// A token opens a ninth nested quantifier or a sixty-fifth enclosing construct.
pub const TOO_DEEP: u8 = 5;

/// A comma or a term comes after the last column, or a `)` before it.
pub const WRONG_COLUMNS: u8 = 6;

/// Why a text gives no sentence. Want of memory says nothing of the text: the same call may succeed
/// later.
#[derive(Debug, Drop)]
pub enum ReadError {
    /// The text is no sentence of the schema: the kind, which is one of the numbers above, and the
    /// place, the byte, counted from 0, at which that shows.
    Text(TextError),
    /// Memory is wanting.
    Memory,
}

impl From<AllocError> for ReadError {
    ghost from_gives = { λ _ e. e ≡ Memory };

    fn from(_e: AllocError) -> ReadError {
        ReadError::Memory
    }
}

impl<T: Drop> From<AllocFailed<T>> for ReadError {
    ghost from_gives = { λ _ e. e ≡ Memory };

    fn from(_e: AllocFailed<T>) -> ReadError {
        ReadError::Memory
    }
}
