//! The tokens of a text.

ghost use Rattle.std.specs.Prelude.{◌≡◌, ◌^◌, ◌<◌, ◌≤◌, [], length, take, drop};
ghost use Rattle.std.specs.Iterator.{YieldsFirstBy, item_count};
ghost use Rattle.std.specs.List.{prefix_len};
ghost use Rattle.cqe_base.specs.Tokens.{IsAsciiUpTo, is_blank, mark_length, token_length, tokens};
ghost use Rattle.cqe_base.specs.Tokens.{end_of_tokens, symbol_of};
ghost use Rattle.cqe_base.specs.Schema.{is_name_byte};
ghost use Rattle.sentence_text.specs.Slices.{HasTokens};
ghost use Rattle.sentence_text.specs.Upcoming.{IsSameSource, PassesToken, upcoming_tokens};
ghost use Rattle.sentence_text.specs.Upcoming.{upcoming_end, upcoming_place, upcoming_refusal};
ghost use Rattle.sentence_text.specs.Upcoming.{text_end, token_of};

use crate::error::{BAD_CHARACTER, UNEXPECTED};
use crate::token::Token;
use cqe_base::text::{Symbol, TextError};
use std::marker::Model;

/// The tokens that are still to come.
#[derive(Drop)]
pub struct TokenIter<'a> {
    /// The text from `place` on, which doesn't begin with a blank.
    rest: &'a str,
    place: u32,
}

impl<'a> Model for TokenIter<'a> {
    ghost use Rattle.std.specs.Prelude.{◌≡◌, ◌+◌, ◌^◌, ◌<◌, length, ℕ};
    ghost use Rattle.std.specs.List.{prefix_len};
    ghost use Rattle.cqe_base.specs.Tokens.{is_blank};
    ghost use Rattle.sentence_text.specs.Upcoming.{Remainder};

    ghost Value = { Remainder };

    ghost view = { λ it. record { text = it.rest.now; place = it.place } };

    ghost invariant = { λ it.
        (it.place + length it.rest.now < 2 ^ 32) × (prefix_len is_blank it.rest.now ≡ 0) };
}

/// The tokens of a text, up to its end or the first byte that begins none and isn't a blank.
pub fn tokens(text: &str) -> TokenIter<'_>
    requires { length text.now < 2 ^ 32 }
    ensures tokens { upcoming_tokens result ≡ tokens text.now }
    ensures tokens_end { upcoming_end result ≡ end_of_tokens text.now }
    ensures text_end { text_end result ≡ length text.now }
    // They are slices of the text, one behind the other, each the longest token that begins where
    // it begins.
    ensures slices { HasTokens text.now 0 (upcoming_tokens result) (upcoming_end result) }
{
    let blanks = blank_count(text);
    let (_, rest) = split_ascii(text, blanks);
    TokenIter {
        rest,
        place: blanks as u32,
    }
}

impl<'a> Iterator for TokenIter<'a> {
    type Item = Token<'a>;

    ghost next_gives = { PassesToken };

    ghost remaining = { item_count upcoming_tokens };

    fn next(&mut self) -> Option<Token<'a>> {
        self.take_token()
    }
}

impl<'a> TokenIter<'a> {
    /// The next token, which is passed.
    pub(crate) fn take_token(&mut self) -> Option<Token<'a>>
        ensures steps { YieldsFirstBy token_of upcoming_tokens self.old result self.new }
        ensures source { IsSameSource self.old self.new }
    {
        let length = token_length(self.rest);
        if length == 0 {
            return None;
        }
        let (text, after) = split_ascii(self.rest, length);
        let blanks = blank_count(after);
        let (_, rest) = split_ascii(after, blanks);
        let start = self.place;
        let end = start + length as u32;
        *self = TokenIter {
            rest,
            place: end + blanks as u32,
        };
        Some(Token { text, start, end })
    }

    /// Where no token is left, the refusal of a text that should go on.
    pub(crate) fn refusal(&self) -> TextError
        requires { upcoming_tokens self.now ≡ [] }
        ensures { result ≡ upcoming_refusal self.now }
    {
        if self.rest.is_empty() {
            TextError {
                kind: UNEXPECTED,
                place: self.place,
            }
        } else {
            TextError {
                kind: BAD_CHARACTER,
                place: self.place,
            }
        }
    }

    /// The place where the next token starts, or where the tokens end.
    pub fn place(&self) -> u32
        ensures { result ≡ upcoming_place self.now }
    {
        self.place
    }
}

/// How many blanks the text begins with.
fn blank_count(text: &str) -> usize
    ensures value { result ≡ prefix_len is_blank text.now }
    ensures ascii { IsAsciiUpTo result text.now }
{
    text.as_bytes()
        .iter()
        .take_while(|b| **b == b' ' || **b == b'\t')
        .count()
}

/// How many bytes of a name the text begins with.
fn name_byte_count(text: &[u8]) -> usize
    ensures value { result ≡ prefix_len is_name_byte text.now }
    ensures bound { result ≤ length text.now }
{
    text.iter()
        .take_while(|b| b.is_ascii_alphanumeric() || **b == b'_')
        .count()
}

/// The length of the mark that the text begins with, or 0.
#[tactic(auto, unfolding(cqe_base::specs::Tokens::mark_length))]
fn mark_length(text: &[u8]) -> usize
    ensures value { result ≡ mark_length text.now }
{
    if text.starts_with(b"<->") {
        3
    } else if text.starts_with(b"->") || text.starts_with(b"!=") {
        2
    } else if text.starts_with(b"(")
        || text.starts_with(b")")
        || text.starts_with(b",")
        || text.starts_with(b":")
        || text.starts_with(b".")
        || text.starts_with(b"=")
    {
        1
    } else {
        0
    }
}

/// The length of the longest token that the text begins with, or 0.
#[tactic(auto, unfolding(cqe_base::specs::Tokens::token_length))]
fn token_length(text: &str) -> usize
    ensures value { result ≡ token_length text.now }
    ensures ascii { IsAsciiUpTo result text.now }
{
    match text.as_bytes() {
        [] => 0,
        [first, rest @ ..] if first.is_ascii_alphabetic() => 1 + name_byte_count(rest),
        bytes => mark_length(bytes),
    }
}

/// Cuts a text behind ASCII bytes.
fn split_ascii(text: &str, length: usize) -> (&str, &str)
    requires { IsAsciiUpTo length text.now }
    ensures front { result.0.now ≡ take length text.now }
    ensures back { result.1.now ≡ drop length text.now }
{
    text.split_at(length)
}

/// What a token is, by its text.
#[tactic(auto, unfolding(cqe_base::specs::Tokens::symbol_of))]
pub fn symbol_of(text: &str) -> Symbol
    ensures { result ≡ symbol_of text.now }
{
    if text == "not" {
        Symbol::Not
    } else if text == "and" {
        Symbol::And
    } else if text == "or" {
        Symbol::Or
    } else if text == "true" {
        Symbol::True
    } else if text == "false" {
        Symbol::False
    } else if text == "forall" {
        Symbol::Forall
    } else if text == "exists" {
        Symbol::Exists
    } else if text == "(" {
        Symbol::Open
    } else if text == ")" {
        Symbol::Close
    } else if text == "," {
        Symbol::Comma
    } else if text == ":" {
        Symbol::Colon
    } else if text == "." {
        Symbol::Dot
    } else if text == "=" {
        Symbol::Equal
    } else if text == "!=" {
        Symbol::Differs
    } else if text == "->" {
        Symbol::Arrow
    } else if text == "<->" {
        Symbol::DoubleArrow
    } else {
        Symbol::Name
    }
}
