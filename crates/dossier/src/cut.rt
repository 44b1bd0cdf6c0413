//! The lines of a text, and the first word of each.
ghost use Rattle.std.specs.Prelude.{◌≡◌, ◌<◌, ◌≤◌, ◌+◌, ◌∷◌, ◌^◌, length};
ghost use Rattle.std.specs.Iterator.{item_count};
ghost use Rattle.dossier.specs.Fields.{ended_parts, first_word, is_alone, fields_of};
ghost use Rattle.dossier.specs.Reading.{fields_left, bytes_left, next_line, field_said, PassesLine};
ghost use Rattle.dossier.specs.Reading.{TakesLine};

use crate::error::DossierError;
use std::marker::Model;

/// A line of a text.
#[derive(Clone, Copy, Debug)]
pub struct Field<'a> {
    /// Its number, counted from 1.
    pub line: u32,
    /// What stands before its first blank. Where nothing follows that blank, or there is none, it
    /// is the whole line.
    pub word: &'a str,
    /// What follows the blank.
    pub rest: &'a str,
}

/// The lines that are still to come.
#[derive(Drop)]
pub struct FieldIter<'a> {
    text: &'a str,
    /// The number of the first of them.
    line: u32,
}

impl<'a> Model for FieldIter<'a> {
    ghost use Rattle.std.specs.Prelude.{◌+◌, ◌<◌, ◌^◌, length};
    ghost use Rattle.dossier.specs.Reading.{Unread};

    ghost Value = { Unread };

    ghost view = { λ it. record { text = it.text.now; line = it.line } };

    ghost invariant = { λ it. it.line + length it.text.now < 2 ^ 32 };
}

/// The lines of a text, each as slices of it: its first word, and what follows the blank behind
/// that. It takes no memory.
pub fn fields(text: &str) -> FieldIter<'_>
    requires { length text.now + 1 < 2 ^ 32 }
    ensures fields { fields_left result ≡ fields_of text.now }
    ensures first { next_line result ≡ 1 }
    ensures bytes { bytes_left result ≡ length text.now }
{
    FieldIter { text, line: 1 }
}

impl<'a> Iterator for FieldIter<'a> {
    type Item = Field<'a>;

    ghost next_gives = { PassesLine };

    ghost remaining = { item_count fields_left };

    fn next(&mut self) -> Option<Field<'a>> {
        self.take_field()
    }
}

impl<'a> FieldIter<'a> {
    /// The next line, which is passed.
    pub(crate) fn take_field(&mut self) -> Option<Field<'a>>
        ensures passes { PassesLine self.old result self.new }
        ensures less { bytes_left self.new ≤ bytes_left self.old }
    {
        if self.text.is_empty() {
            return None;
        }
        let (line, text) = first_part(self.text, '\n');
        let (word, rest) = first_word(line);
        let number = self.line;
        *self = FieldIter {
            text,
            line: number + 1,
        };
        Some(Field {
            line: number,
            word,
            rest,
        })
    }

    /// The number of the next line.
    pub(crate) fn number(&self) -> u32
        ensures { result ≡ next_line self.now }
    {
        self.line
    }

    /// The next line, which has to be there.
    pub(crate) fn take_line(&mut self) -> Result<Field<'a>, DossierError>
        ensures takes { TakesLine self.old result self.new }
        ensures less { bytes_left self.new ≤ bytes_left self.old }
    {
        match self.take_field() {
            Some(field) => Ok(field),
            None => Err(DossierError::Form(self.number())),
        }
    }
}

impl<'a> Field<'a> {
    /// Whether the line is this word alone.
    pub(crate) fn is_alone(&self, word: &str) -> bool
        ensures { result ≡ is_alone (field_said self.now) word.now }
    {
        self.word == word && self.rest.is_empty()
    }
}

/// The first part of a text that ends with this character, and what stands behind it.
pub(crate) fn first_part(text: &str, end: char) -> (&str, &str)
    requires some { 1 ≤ length text.now }
    requires ascii { end < 128 }
    ensures first { ended_parts end text.now
        ≡ result.0.now ∷ ended_parts end result.1.now }
    ensures less { length result.1.now + 1 ≤ length text.now }
{
    match text.split_once(end) {
        Some((part, rest)) => (part, rest),
        None => (text, ""),
    }
}

/// The first word of a line, and what follows the blank behind it.
pub(crate) fn first_word(line: &str) -> (&str, &str)
    ensures word { result.0.now ≡ (first_word line.now).0 }
    ensures rest { result.1.now ≡ (first_word line.now).1 }
{
    match line.split_once(' ') {
        Some((word, rest)) => {
            if rest.is_empty() {
                return (line, "");
            }
            (word, rest)
        }
        None => (line, ""),
    }
}
