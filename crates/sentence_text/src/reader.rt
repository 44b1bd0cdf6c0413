//! A text that is read token by token, with one token of foresight.

ghost use Rattle.std.specs.Prelude.{◌≡◌, ◌<◌, ◌^◌, [], length, drop, Some, None, option_map, OnOk};
ghost use Rattle.cqe_base.specs.Tokens.{tokens, end_of_tokens};
ghost use Rattle.cqe_base.specs.Reading;
ghost use Rattle.cqe_base.specs.Reading.{refusal_at_end, refusal_of_next, is_next, pass, name};
ghost use Rattle.sentence_text.specs.declared.error.ReadError.TheVariants.{Text};
ghost use Rattle.sentence_text.specs.Upcoming.{token_of};
ghost use Rattle.sentence_text.specs.Position.{IsSameText, Passes, Reads, Refuses};

use crate::error::{ReadError, UNEXPECTED};
use crate::lexer::{TokenIter, symbol_of, tokens};
use crate::token::Token;
use cqe_base::schema::Schema;
use cqe_base::text::{Symbol, TextError};
use std::alloc::Global;
use std::marker::Model;

/// The declarations and the tokens that are still to come, of which the next one is seen.
#[derive(Drop)]
pub struct Reader<'a> {
    alloc: Global,
    schema: &'a Schema,
    next: Option<Token<'a>>,
    later: TokenIter<'a>,
}

impl<'a> Model for Reader<'a> {
    ghost use Rattle.std.specs.Prelude.{◌≡◌, []};
    ghost use Rattle.std.specs.Option.{ForNone};
    ghost use Rattle.sentence_text.specs.Position.{Position};

    ghost Value = { Position };

    ghost use Rattle.sentence_text.specs.Upcoming.{upcoming_tokens, upcoming_refusal, with_next};

    ghost view = { λ r. record {
      schema = r.schema.now;
      tokens = with_next r.next (upcoming_tokens r.later);
      refusal = upcoming_refusal r.later;
    } };

    ghost invariant = { λ r. ForNone r.next (upcoming_tokens r.later ≡ []) };
}

impl<'a> Reader<'a> {
    ghost use Rattle.sentence_text.specs.Upcoming.{first_token};
    ghost use Rattle.sentence_text.specs.Position.{first};

    /// A reader at the start of a text.
    pub fn new(alloc: Global, schema: &'a Schema, text: &'a str) -> Reader<'a>
        requires { length text.now < 2 ^ 32 }
        ensures { result ≡ record {
          schema = schema.now;
          tokens = tokens text.now;
          refusal = refusal_at_end (end_of_tokens text.now) (length text.now);
        } }
    {
        let mut later = tokens(text);
        let next = later.take_token();
        Reader {
            alloc,
            schema,
            next,
            later,
        }
    }

    /// The allocator.
    pub fn alloc(&self) -> Global {
        self.alloc
    }

    /// The schema of which the names are.
    pub fn schema(&self) -> &'a Schema
        ensures { result.now ≡ self.now.schema }
    {
        self.schema
    }

    /// The next token, where there is one.
    pub fn peek(&self) -> Option<Token<'a>>
        ensures { option_map token_of result ≡ first_token self.now.tokens }
    {
        self.next
    }

    /// Passes the next token, where there is one.
    pub fn advance(&mut self)
        ensures { self.new ≡ record self.old { tokens = drop 1 self.old.tokens } }
    {
        self.next = self.later.take_token();
    }

    /// Whether the next token is of this symbol.
    pub fn is_next(&self, symbol: Symbol) -> bool
        ensures { result ≡ is_next symbol self.now.tokens }
    {
        match self.next {
            Some(token) => symbol_of(token.text) == symbol,
            None => false,
        }
    }

    /// The refusal of the next token, or of the end, where the grammar doesn't allow it.
    pub fn unexpected(&self) -> TextError
        ensures { result ≡ refusal_of_next self.now.schema self.now.refusal self.now.tokens }
    {
        match self.next {
            Some(token) => at_token(UNEXPECTED, token),
            None => self.later.refusal(),
        }
    }

    /// The next token, which is passed.
    pub fn token(&mut self) -> Result<Token<'a>, ReadError>
        ensures read { Reads token_of result self.new.tokens
            (first self.old.refusal self.old.tokens) }
        ensures same { IsSameText self.old self.new }
        ensures shorter { OnOk result (length self.new.tokens < length self.old.tokens) }
    {
        match self.peek() {
            Some(token) => {
                self.advance();
                Ok(token)
            }
            None => Err(ReadError::Text(self.unexpected())),
        }
    }

    /// Passes a token of this symbol.
    #[tactic(auto, unfolding(cqe_base::specs::Reading::pass))]
    pub fn pass(&mut self, symbol: Symbol) -> Result<(), ReadError>
        ensures read { Passes result self.new.tokens
            (pass self.old.schema self.old.refusal symbol self.old.tokens) }
        ensures same { IsSameText self.old self.new }
        ensures shorter { OnOk result (length self.new.tokens < length self.old.tokens) }
    {
        if !self.is_next(symbol) {
            return Err(ReadError::Text(self.unexpected()));
        }
        self.advance();
        Ok(())
    }

    /// A name, which is passed.
    #[tactic(auto, unfolding(cqe_base::specs::Reading::name))]
    pub fn name(&mut self) -> Result<Token<'a>, ReadError>
        ensures read { Reads token_of result self.new.tokens
            (name self.old.schema self.old.refusal self.old.tokens) }
        ensures same { IsSameText self.old self.new }
        ensures shorter { OnOk result (length self.new.tokens < length self.old.tokens) }
    {
        let token = self.token()?;
        if symbol_of(token.text) != Symbol::Name {
            return Err(unexpected(token));
        }
        Ok(token)
    }
}

/// The refusal of a token where the grammar doesn't allow it.
pub fn unexpected(token: Token<'_>) -> ReadError
    ensures { result ≡ Text (Reading.unexpected token.entry.start) }
{
    refused(UNEXPECTED, token)
}

/// A refusal at the start of a token.
pub fn refused(kind: u8, token: Token<'_>) -> ReadError
    ensures { result ≡ Text (record { kind = kind; place = token.entry.start }) }
{
    ReadError::Text(at_token(kind, token))
}

/// The kind of a refusal, and the start of a token.
fn at_token(kind: u8, token: Token<'_>) -> TextError
    ensures { result ≡ record { kind = kind; place = token.entry.start } }
{
    TextError {
        kind,
        place: token.start,
    }
}
