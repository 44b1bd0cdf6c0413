//! A short line that is put together without memory.
ghost use Rattle.std.specs.Prelude.{◌≡◌, ◌+◌, ◌<◌, ◌≤◌, [], ◌∷◌, ◌++◌, length, decimal};

use std::marker::Model;

// A line has at most so many bytes.
const ROOM: usize = 64;

/// A text of at most 64 bytes that is put together without memory.
#[derive(Drop)]
pub struct LineText {
    bytes: [u8; ROOM],
    length: usize,
}

impl Model for LineText {
    ghost use Rattle.std.specs.Prelude.{ℕ, ◌≤◌, List, take};

    ghost Value = { List ℕ };

    ghost view = { λ t. take t.length t.bytes };

    ghost invariant = { λ t. t.length ≤ 64 };
}

impl LineText {
    /// A line that begins with this text.
    pub fn new(text: &str) -> Self
        requires { length text.now ≤ 64 }
        ensures { result ≡ text.now }
    {
        let mut line = LineText {
            bytes: [0; ROOM],
            length: 0,
        };
        line.push(text);
        line
    }

    /// Its bytes.
    pub fn bytes(&self) -> &[u8]
        ensures { result.now ≡ self.now }
    {
        &self.bytes[..self.length]
    }

    /// Appends a text.
    pub fn push(&mut self, text: &str)
        requires { length self.old + length text.now ≤ 64 }
        ensures { self.new ≡ self.old ++ text.now }
    {
        self.push_bytes(text.as_bytes());
    }

    /// Appends the bytes of a text.
    pub fn push_bytes(&mut self, bytes: &[u8])
        requires { length self.old + length bytes.now ≤ 64 }
        ensures { self.new ≡ self.old ++ bytes.now }
    {
        let end = self.length + bytes.len();
        self.bytes[self.length..end].copy_from_slice(bytes);
        self.length = end;
    }

    fn push_byte(&mut self, byte: u8)
        requires { length self.old < 64 }
        ensures { self.new ≡ self.old ++ byte ∷ [] }
    {
        self.bytes[self.length] = byte;
        self.length += 1;
    }

    /// Appends the digits of a number.
    pub fn push_decimal(&mut self, number: u32)
        requires { length self.old + length (decimal number) ≤ 64 }
        ensures { self.new ≡ self.old ++ decimal number }
    {
        if number >= 10 {
            self.push_decimal(number / 10);
        }
        self.push_byte(b'0' + (number % 10) as u8);
    }
}
