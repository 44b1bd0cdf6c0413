//! Lines of a scene that stand for bytes.
use crate::scene::Named;
use std::alloc::{AllocError, Global};

/// The greatest number of times that a line is repeated.
const TIMES: u32 = 1_000_000;

/// How often a line stands for its text.
#[derive(Clone, Copy)]
enum Count<'t> {
    /// The bytes of a text that has a name, once.
    Text,
    /// So many times.
    Times(u32),
    /// Once for each number from the first below the second, with the number in the place of each
    /// `#`.
    Numbered(u32, u32),
    /// As hexadecimal digits.
    Digits,
    /// As an unknown mark, which no line may have.
    Unknown(&'t str),
}

/// What is said between the mark of a line and its blank: `~` for no line feed, then `*N`, `#A..B`,
/// `@` or nothing.
fn count_of(flags: &str) -> Count<'_> {
    if flags.is_empty() {
        return Count::Times(1);
    }
    if flags == "@" {
        return Count::Text;
    }
    if flags == "x" {
        return Count::Digits;
    }
    if let Some(times) = times_of(flags) {
        return Count::Times(times);
    }
    match range_of(flags) {
        Some((first, end)) => Count::Numbered(first, end),
        None => Count::Unknown(flags),
    }
}

/// The number of `*N`.
fn times_of(flags: &str) -> Option<u32> {
    let times = flags.strip_prefix("*")?.parse::<u32>().ok()?;
    if times <= TIMES { Some(times) } else { None }
}

/// The numbers of `#A..B`.
fn range_of(flags: &str) -> Option<(u32, u32)> {
    let (first, end) = flags.strip_prefix("#")?.split_once("..")?;
    let (first, end) = (first.parse::<u32>().ok()?, end.parse::<u32>().ok()?);
    if end <= TIMES {
        Some((first, end))
    } else {
        None
    }
}

/// The value of a hexadecimal digit.
fn digit(byte: u8) -> Option<u8> {
    match byte {
        b'0'..=b'9' => Some(byte - b'0'),
        b'a'..=b'f' => Some(byte - b'a' + 10),
        _ => None,
    }
}

/// The byte of two hexadecimal digits.
fn byte_of(word: &[u8]) -> Option<u8> {
    match word {
        [first, second] => {
            let (first, second) = (digit(*first)?, digit(*second)?);
            first.checked_mul(16)?.checked_add(second)
        }
        _ => None,
    }
}

/// Appends the bytes of a text, in which a backslash begins `\\`, `\t`, `\r`, `\n`, `\s` (a blank),
/// `\e` (nothing) and `\x41`. It answers whether the text has that form.
pub fn push_text(bytes: &mut Vec<u8>, text: &str) -> Result<bool, AllocError> {
    let mut rest = text.as_bytes();
    for _ in 0..text.len() {
        if rest.is_empty() {
            return Ok(true);
        }
        let Some((byte, behind)) = front_of(rest) else {
            return Ok(false);
        };
        if let Some(byte) = byte {
            bytes.push(byte)?;
        }
        rest = behind;
    }
    Ok(true)
}

/// The byte that the front of a text stands for, if it stands for one, and what is behind that
/// front; `None` where it has no form.
fn front_of(text: &[u8]) -> Option<(Option<u8>, &[u8])> {
    match text {
        [b'\\', b'x', first, second, behind @ ..] => {
            Some((Some(byte_of(&[*first, *second])?), behind))
        }
        [b'\\', b'e', behind @ ..] => Some((None, behind)),
        [b'\\', letter, behind @ ..] => Some((Some(escaped(*letter)?), behind)),
        [b'\\'] => None,
        [byte, behind @ ..] => Some((Some(*byte), behind)),
        [] => None,
    }
}

/// What a letter behind a backslash stands for.
fn escaped(letter: u8) -> Option<u8> {
    match letter {
        b'\\' => Some(b'\\'),
        b't' => Some(b'\t'),
        b'r' => Some(b'\r'),
        b'n' => Some(b'\n'),
        b's' => Some(b' '),
        _ => None,
    }
}

/// Appends bytes that stand as hexadecimal digits, two and two, with blanks between them.
fn push_digits(bytes: &mut Vec<u8>, text: &str) -> Result<bool, AllocError> {
    for word in text.split_whitespace() {
        let Some(byte) = byte_of(word.as_bytes()) else {
            return Ok(false);
        };
        bytes.push(byte)?;
    }
    Ok(true)
}

/// The text with a number in the place of each `#`.
fn numbered(alloc: Global, text: &str, number: u32) -> Result<String, AllocError> {
    let mut found = String::new(alloc);
    for (place, part) in text.split('#').enumerate() {
        if place > 0 {
            write!(found, "{number}")?;
        }
        found.push_str(part)?;
    }
    Ok(found)
}

/// The bytes of the text of this name.
fn bytes_named<'t>(texts: &'t [Named], name: &str) -> Option<&'t [u8]> {
    for text in texts {
        if text.name.as_str() == name {
            return Some(text.bytes.as_slice());
        }
    }
    None
}

/// Appends what a line stands for: the text behind its first blank, as the flags before that say.
/// It answers whether the line has a form.
pub fn push_piece(
    alloc: Global,
    bytes: &mut Vec<u8>,
    texts: &[Named],
    flags: &str,
    text: &str,
) -> Result<bool, AllocError> {
    let (flags, end) = match flags.strip_prefix("~") {
        Some(flags) => (flags, ""),
        None => (flags, "\n"),
    };
    match count_of(flags) {
        Count::Text => push_named(bytes, texts, text),
        Count::Digits => push_digits(bytes, text),
        Count::Times(times) => push_times(bytes, times, text, end),
        Count::Numbered(first, last) => push_numbered(alloc, bytes, (first, last), text, end),
        Count::Unknown(_) => Ok(false),
    }
}

/// Appends the bytes of the text of this name.
fn push_named(bytes: &mut Vec<u8>, texts: &[Named], name: &str) -> Result<bool, AllocError> {
    let Some(named) = bytes_named(texts, name) else {
        return Ok(false);
    };
    bytes.extend_from_slice(named)?;
    Ok(true)
}

/// Appends a text and its end so many times.
fn push_times(bytes: &mut Vec<u8>, times: u32, text: &str, end: &str) -> Result<bool, AllocError> {
    for _ in 0..times {
        if !push_ended(bytes, text, end)? {
            return Ok(false);
        }
    }
    Ok(true)
}

/// Appends a text and its end once.
fn push_ended(bytes: &mut Vec<u8>, text: &str, end: &str) -> Result<bool, AllocError> {
    if !push_text(bytes, text)? {
        return Ok(false);
    }
    bytes.extend_from_slice(end.as_bytes())?;
    Ok(true)
}

/// Appends a text and its end for each number of a range.
fn push_numbered(
    alloc: Global,
    bytes: &mut Vec<u8>,
    range: (u32, u32),
    text: &str,
    end: &str,
) -> Result<bool, AllocError> {
    for number in range.0..range.1 {
        let text = numbered(alloc, text, number)?;
        if !push_ended(bytes, text.as_str(), end)? {
            return Ok(false);
        }
    }
    Ok(true)
}
