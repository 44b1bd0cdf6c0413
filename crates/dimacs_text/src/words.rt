//! The words of a line, and the numbers that words write.
ghost use Rattle.std.specs.Prelude.{◌≡◌, map, option_map, IfOk, bytes_eq};
ghost use Rattle.dimacs_text.specs.Words.{words, signed_number_in, signed_number};

use cqe_base::text::is_blank;
use line_protocol::words::number_in;
use std::alloc::{AllocError, Global};

/// A number with its sign: a variable counted from 1 or its negation, or 0, which ends a clause.
#[derive(Clone, Copy)]
pub struct SignedNumber {
    pub is_negative: bool,
    pub number: u64,
}

/// The words of a line.
pub fn words<'a>(alloc: Global, line: &'a [u8]) -> Result<Vec<&'a [u8]>, AllocError>
    ensures { IfOk result (λ found. map (λ word. word.now) found.items ≡ words line.now) }
{
    line.split(|byte| is_blank(*byte))
        .filter(|piece| !piece.is_empty())
        .collect(alloc)
}

/// Whether a word is this text.
pub fn is_word(word: &[u8], text: &str) -> bool
    ensures { result ≡ bytes_eq word.now text.now }
{
    word == text.as_bytes()
}

/// One to ten digits, with or without a `-` in front.
pub fn signed_number_in(word: &[u8]) -> Option<SignedNumber>
    ensures { result ≡ signed_number_in word.now }
{
    let [first, digits @ ..] = word else {
        return None;
    };
    if *first == b'-' {
        signed(true, number_in(digits))
    } else {
        signed(false, number_in(word))
    }
}

/// A number with this sign.
fn signed(is_negative: bool, number: Option<u64>) -> Option<SignedNumber>
    ensures { result ≡ option_map (signed_number is_negative) number }
{
    number.map(|number| SignedNumber {
        is_negative,
        number,
    })
}
