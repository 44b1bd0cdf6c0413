//! What the words of a dossier say: numbers, literals, lines of a refutation, and marks.
ghost use Rattle.std.specs.Prelude.{◌≡◌, ◌<◌, ◌≤◌, ◌+◌, ◌^◌, true, nat_lt, length, map, position};
ghost use Rattle.std.specs.Prelude.{option_map, Some, IfOk, IfSome, IsTrue, ◌↔◌};
ghost use Rattle.clause_store.specs.PlainLines.{line_of};
ghost use Rattle.dossier.specs.Words.{all_some, has_leading_zero, read_number, read_literal};
ghost use Rattle.dossier.specs.Words.{is_colon, words_of, line_by, line_of_words, line_in};
ghost use Rattle.dossier.specs.Words.{mark_named};
ghost use Rattle.dossier.specs.Told.{is_undecided};

use clause_store::literal::Lit;
use clause_store::refutation::Line;
use cqe_base::user::Mark;
use line_protocol::words::number_in;
use std::alloc::{AllocError, Global};

/// The greatest number of a variable or a clause.
const GREATEST: u32 = 2_147_483_646;

/// The text of a sentence has at most so many bytes.
const TEXT: usize = 4_096;

/// Whether a text has more bytes than that of a sentence may have.
pub(crate) fn is_long(text: &str) -> bool
    ensures { result ≡ nat_lt 4096 (length text.now) }
{
    text.len() > TEXT
}

/// How many bytes the text of a sentence has.
pub(crate) fn size_of(text: &str) -> u32
    requires { length text.now ≤ 4096 }
    ensures { result ≡ length text.now }
{
    text.len() as u32
}

/// The mark of an ask that a word names.
pub(crate) fn mark_named(word: &str) -> Option<Mark>
    ensures { result ≡ mark_named word.now }
{
    if word == "yes" {
        Some(Mark::Yes)
    } else if word == "no" {
        Some(Mark::No)
    } else if word == "refused" {
        Some(Mark::Refused)
    } else if word == "undecided" {
        Some(Mark::Undecided)
    } else {
        None
    }
}

/// Whether this is the mark of an ask that wasn't decided.
pub(crate) fn is_undecided(mark: Mark) -> bool
    ensures { result ≡ is_undecided mark }
{
    match mark {
        Mark::Undecided => true,
        Mark::Yes | Mark::No | Mark::Refused | Mark::Protected => false,
    }
}

/// Whether these are the same mark.
pub(crate) fn is_same(first: Mark, second: Mark) -> bool
    ensures { IsTrue result ↔ (first ≡ second) }
{
    first == second
}

/// The number that a word writes in decimal, without leading zeros.
fn number_of(word: &[u8]) -> Option<u32>
    ensures value { result ≡ read_number word.now }
    ensures fits { IfSome result (λ n. n + 1 < 2 ^ 31) }
{
    if has_leading_zero(word) {
        return None;
    }
    let number = number_in(word)?;
    if number <= u64::from(GREATEST) {
        Some(number as u32)
    } else {
        None
    }
}

/// Whether digits begin with a 0 that isn't alone.
fn has_leading_zero(digits: &[u8]) -> bool
    ensures { result ≡ has_leading_zero digits.now }
{
    match digits {
        [first, _, ..] => *first == b'0',
        _ => false,
    }
}

/// The literal that a word writes: a sign, and the number of the variable.
fn literal_of(word: &[u8]) -> Option<Lit>
    ensures { result ≡ read_literal word.now }
{
    let [sign, digits @ ..] = word else {
        return None;
    };
    if *sign == b'+' {
        Some(Lit::positive(number_of(digits)?))
    } else if *sign == b'-' {
        Some(Lit::negative(number_of(digits)?))
    } else {
        None
    }
}

/// The words of a text, with one blank between two.
fn words_of<'a>(alloc: Global, text: &'a [u8]) -> Result<Vec<&'a [u8]>, AllocError>
    ensures { IfOk result (λ words. map (λ word. word.now) words.items ≡ words_of text.now) }
{
    text.split(|byte| *byte == b' ').collect(alloc)
}

/// Whether a word is the colon between the literals and the chain.
fn is_colon(word: &[u8]) -> bool
    ensures { result ≡ is_colon word.now }
{
    word == b":".as_slice()
}

/// The literals that these words write, where each writes one.
fn literals_in(alloc: Global, words: &[&[u8]]) -> Result<Option<Vec<Lit>>, AllocError>
    ensures { IfOk result (λ read. option_map (λ clause. clause.items) read
        ≡ all_some (map read_literal (map (λ word. word.now) words.now))) }
{
    let mut clause = Vec::new(alloc);
    for word in words {
        match literal_of(word) {
            Some(literal) => clause.push(literal)?,
            None => return Ok(None),
        }
    }
    Ok(Some(clause))
}

/// The numbers that these words write, where each writes one.
fn numbers_in(alloc: Global, words: &[&[u8]]) -> Result<Option<Vec<u32>>, AllocError>
    ensures { IfOk result (λ read. option_map (λ chain. chain.items) read
        ≡ all_some (map read_number (map (λ word. word.now) words.now))) }
{
    let mut chain = Vec::new(alloc);
    for word in words {
        match number_of(word) {
            Some(number) => chain.push(number)?,
            None => return Ok(None),
        }
    }
    Ok(Some(chain))
}

/// The line of a refutation that a text writes.
pub(crate) fn line_in(alloc: Global, text: &str) -> Result<Option<Line>, AllocError>
    ensures { IfOk result (λ read. option_map line_of read ≡ line_in text.now) }
{
    let words = words_of(alloc, text.as_bytes())?;
    line_of_words(alloc, &words)
}

/// The place of the first colon.
fn first_colon(words: &[&[u8]]) -> Option<usize>
    ensures { result ≡ position (λ word. is_colon word.now) words.now }
{
    words.iter().position(|word| is_colon(word))
}

/// The line that words write: literals, a colon, and the numbers of the chain, at least one.
fn line_of_words(alloc: Global, words: &[&[u8]]) -> Result<Option<Line>, AllocError>
    ensures { IfOk result (λ read. option_map line_of read
        ≡ line_of_words (map (λ word. word.now) words.now)) }
{
    let Some(colon) = first_colon(words) else {
        return Ok(None);
    };
    let clause = literals_in(alloc, &words[..colon])?;
    let chain = numbers_in(alloc, &words[colon + 1..])?;
    Ok(line_by(clause, chain))
}

/// The line with these literals and this chain, if both are there and the chain isn't empty.
fn line_by(clause: Option<Vec<Lit>>, chain: Option<Vec<u32>>) -> Option<Line>
    ensures { option_map line_of result
        ≡ line_by true (option_map (λ clause. clause.items) clause)
        (option_map (λ chain. chain.items) chain) }
{
    let clause = clause?;
    let chain = chain?;
    line_with(clause, chain)
}

/// The line with this clause and this chain, if the chain isn't empty.
fn line_with(clause: Vec<Lit>, chain: Vec<u32>) -> Option<Line>
    ensures { option_map line_of result
        ≡ line_by true (Some clause.items) (Some chain.items) }
{
    if chain.is_empty() {
        None
    } else {
        Some(Line { clause, chain })
    }
}
