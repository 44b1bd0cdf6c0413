//! Lines of printable bytes, word by word.

ghost use Rattle.std.specs.Prelude.{◌≡◌, ◌≤◌, true, length, position, is_some, IfSome};
ghost use Rattle.std.specs.List.{list_all, list_any, before_first, after_first};
ghost use Rattle.std.specs.Char.{is_ascii_digit};
ghost use Rattle.cqe_base.specs.Tokens.{is_blank};
ghost use Rattle.line_protocol.specs.Words.{is_printable, decimal_value, number_in};

use cqe_base::text::is_blank;

/// What stands before the first blank of printable bytes, and what behind it.
pub fn split_at_blank(bytes: &[u8]) -> Option<(&[u8], &[u8])>
    requires { list_all is_printable bytes.now ≡ true }
    ensures blank { is_some result ≡ list_any is_blank bytes.now }
    ensures front { IfSome result (λ parts. parts.0.now ≡ before_first is_blank bytes.now) }
    ensures rest { IfSome result (λ parts. parts.1.now ≡ after_first is_blank bytes.now) }
    ensures printable { IfSome result (λ parts. (list_all is_printable parts.0.now ≡ true)
        × (list_all is_printable parts.1.now ≡ true)) }
{
    let blank = first_blank(bytes)?;
    Some((&bytes[..blank], &bytes[blank + 1..]))
}

/// A tab, or a byte from the space to the tilde.
pub fn is_printable(byte: u8) -> bool
    ensures { result ≡ is_printable byte }
{
    byte == b'\t' || (b' '..=b'~').contains(&byte)
}

/// Whether all of these are printable.
pub fn are_printable(bytes: &[u8]) -> bool
    ensures { result ≡ list_all is_printable bytes.now }
{
    bytes.iter().all(|byte| is_printable(*byte))
}

fn first_blank(bytes: &[u8]) -> Option<usize>
    ensures { result ≡ position is_blank bytes.now }
{
    bytes.iter().position(|byte| is_blank(*byte))
}

/// Printable bytes as the text that they are.
pub fn printable_text(bytes: &[u8]) -> &str
    requires { list_all is_printable bytes.now ≡ true }
    ensures { result.now ≡ bytes.now }
{
    match str::from_utf8(bytes) {
        Ok(text) => text,
        Err(_) => unreachable!(),
    }
}

/// The number that one to ten ASCII digits write, leading zeros included, and none for any other
/// word.
pub fn number_in(word: &[u8]) -> Option<u64>
    ensures { result ≡ number_in word.now }
{
    if 1 <= word.len() && word.len() <= 10 && are_digits(word) {
        Some(decimal_value(word))
    } else {
        None
    }
}

fn are_digits(bytes: &[u8]) -> bool
    ensures { result ≡ list_all is_ascii_digit bytes.now }
{
    bytes.iter().all(|byte| byte.is_ascii_digit())
}

/// The number that digits write.
fn decimal_value(digits: &[u8]) -> u64
    requires few { length digits.now ≤ 10 }
    requires digits { list_all is_ascii_digit digits.now ≡ true }
    ensures { result ≡ decimal_value digits.now }
{
    let mut value = 0;
    for digit in digits {
        value = 10 * value + (*digit - b'0') as u64;
    }
    value
}
