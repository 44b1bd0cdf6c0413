//! The shapes of declarations: a domain with its constants, a relation with the domains of its
//! columns.

ghost use Rattle.std.specs.Prelude.{◌≡◌, ◌≤◌, ◌-◌, map, slice_get, length, option_map};
ghost use Rattle.std.specs.Prelude.{option_and_then, string_bytes, IfOk};
ghost use Rattle.cqe_base.specs.Memory.{declaration_of};
ghost use Rattle.cqe_base.specs.Tokens.{tokens};
ghost use Rattle.cqe_base.specs.Reading.{is_symbol};
ghost use Rattle.sentence_text.specs.Upcoming.{token_of};
ghost use Rattle.case_engine.specs.Statements.{is_word, are_listed, listed_words, listed_names};
ghost use Rattle.case_engine.specs.Statements.{names_or_none, is_closed, closed_names, declared_as};
ghost use Rattle.case_engine.specs.Statements.{domain_shape, relation_shape, whole_tokens};
ghost use Rattle.case_engine.specs.Memory.{tokens_in, names_in};

use cqe_base::declarations::is_identifier;
use cqe_base::text::Symbol;
use sentence_text::{Token, symbol_of, tokens};
use std::alloc::{AllocError, Global};

/// A name with the names of its parts.
pub type Declared = (String, Vec<String>);

/// The tokens of a text that holds nothing else.
fn whole_tokens<'a>(alloc: Global, text: &'a str) -> Result<Option<Vec<Token<'a>>>, AllocError>
    requires { length text.now ≤ 4096 }
    ensures { IfOk result (λ found. option_map tokens_in found ≡ whole_tokens text.now) }
{
    let mut coming = tokens(text);
    let mut all = Vec::new(alloc);
    while let Some(token) = coming.next() {
        all.push(token)?;
    }
    if coming.place() as usize == text.len() {
        Ok(Some(all))
    } else {
        Ok(None)
    }
}

/// A letter, followed by letters, digits and `_`.
fn is_word(token: &Token<'_>) -> bool
    ensures { result ≡ is_word (token_of token.now) }
{
    is_identifier(token.text.as_bytes())
}

/// Whether a token is this symbol.
fn is_symbol(symbol: Symbol, token: &Token<'_>) -> bool
    ensures { result ≡ is_symbol symbol (token_of token.now) }
{
    symbol_of(token.text) == symbol
}

/// The name that a token is, in memory of its own.
fn name_of(alloc: Global, token: &Token<'_>) -> Result<String, AllocError>
    ensures { IfOk result (λ name. string_bytes name ≡ (token_of token.now).text) }
{
    String::from_str(alloc, token.text)
}

/// Whether the tokens are words with a comma between each two.
fn are_listed(tokens: &[Token<'_>]) -> bool
    ensures { result ≡ are_listed (map token_of tokens.now) }
{
    match tokens {
        [] => false,
        [word] => is_word(word),
        [word, comma, rest @ ..] => {
            is_word(word) && is_symbol(Symbol::Comma, comma) && are_listed(rest)
        }
    }
}

/// The words among tokens, in memory of their own.
fn listed_words(alloc: Global, tokens: &[Token<'_>]) -> Result<Vec<String>, AllocError>
    ensures { IfOk result (λ names. names_in names ≡ listed_words (map token_of tokens.now)) }
{
    let mut names = Vec::new(alloc);
    for token in tokens {
        if is_word(token) {
            names.push(name_of(alloc, token)?)?;
        }
    }
    Ok(names)
}

/// Names with a comma between each two, if the tokens are such a list.
fn listed_names(alloc: Global, tokens: &[Token<'_>]) -> Result<Option<Vec<String>>, AllocError>
    ensures { IfOk result (λ names. option_map names_in names
        ≡ listed_names (map token_of tokens.now)) }
{
    if are_listed(tokens) {
        Ok(Some(listed_words(alloc, tokens)?))
    } else {
        Ok(None)
    }
}

/// The same, where there may be no name.
fn names_or_none(alloc: Global, tokens: &[Token<'_>]) -> Result<Option<Vec<String>>, AllocError>
    ensures { IfOk result (λ names. option_map names_in names
        ≡ names_or_none (map token_of tokens.now)) }
{
    if tokens.is_empty() {
        Ok(Some(Vec::new(alloc)))
    } else {
        listed_names(alloc, tokens)
    }
}

/// Whether the last token is `)`.
fn is_closed(tokens: &[Token<'_>]) -> bool
    ensures { result ≡ is_closed (slice_get (map token_of tokens.now) (length tokens.now - 1)) }
{
    match tokens.last() {
        Some(last) => is_symbol(Symbol::Close, last),
        None => false,
    }
}

/// Names before a `)` at the end.
fn closed_names(alloc: Global, tokens: &[Token<'_>]) -> Result<Option<Vec<String>>, AllocError>
    ensures { IfOk result (λ names. option_map names_in names
        ≡ closed_names (map token_of tokens.now)) }
{
    if is_closed(tokens) {
        // With a name the goal is a plain equation, and no implication under `IfOk`.
        let names = names_or_none(alloc, &tokens[..tokens.len().saturating_sub(1)])?;
        Ok(names)
    } else {
        Ok(None)
    }
}

/// A name with these parts, if there are any.
fn declared(
    alloc: Global,
    name: &Token<'_>,
    parts: Option<Vec<String>>,
) -> Result<Option<Declared>, AllocError>
    ensures { IfOk result (λ made. option_map declaration_of made
        ≡ option_map (declared_as (token_of name.now).text) (option_map names_in parts)) }
{
    match parts {
        Some(parts) => Ok(Some((name_of(alloc, name)?, parts))),
        None => Ok(None),
    }
}

/// The domain that tokens declare: `NAME = CONSTANT, CONSTANT`.
fn domain_shape(alloc: Global, tokens: &[Token<'_>]) -> Result<Option<Declared>, AllocError>
    ensures { IfOk result (λ made. option_map declaration_of made
        ≡ domain_shape (map token_of tokens.now)) }
{
    match tokens {
        [name, equals, rest @ ..] if is_word(name) && is_symbol(Symbol::Equal, equals) => {
            let constants = names_or_none(alloc, rest)?;
            declared(alloc, name, constants)
        }
        _ => Ok(None),
    }
}

/// The relation that tokens declare: `NAME(DOMAIN, DOMAIN)`.
fn relation_shape(alloc: Global, tokens: &[Token<'_>]) -> Result<Option<Declared>, AllocError>
    ensures { IfOk result (λ made. option_map declaration_of made
        ≡ relation_shape (map token_of tokens.now)) }
{
    match tokens {
        [name, open, rest @ ..] if is_word(name) && is_symbol(Symbol::Open, open) => {
            let domains = closed_names(alloc, rest)?;
            declared(alloc, name, domains)
        }
        _ => Ok(None),
    }
}

/// The domain that a text declares.
pub fn domain_in(alloc: Global, text: &str) -> Result<Option<Declared>, AllocError>
    requires { length text.now ≤ 4096 }
    ensures { IfOk result (λ made. option_map declaration_of made
        ≡ option_and_then domain_shape (whole_tokens text.now)) }
{
    match whole_tokens(alloc, text)? {
        Some(tokens) => domain_shape(alloc, &tokens),
        None => Ok(None),
    }
}

/// The relation that a text declares.
pub fn relation_in(alloc: Global, text: &str) -> Result<Option<Declared>, AllocError>
    requires { length text.now ≤ 4096 }
    ensures { IfOk result (λ made. option_map declaration_of made
        ≡ option_and_then relation_shape (whole_tokens text.now)) }
{
    match whole_tokens(alloc, text)? {
        Some(tokens) => relation_shape(alloc, &tokens),
        None => Ok(None),
    }
}
