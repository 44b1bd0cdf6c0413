//! What one line of a batch says, by its shape alone.

ghost use Rattle.std.specs.Prelude.{◌≡◌, ◌≤◌, true, Some, None, length, option_map, IfSome};
ghost use Rattle.std.specs.Prelude.{bytes_eq, if◌then◌else◌};
ghost use Rattle.std.specs.List.{list_all, list_any};
ghost use Rattle.line_protocol.specs.Words.{is_printable};
ghost use Rattle.batch_engine.specs.BatchLines.{session_number, caller_named, ask_text};
ghost use Rattle.batch_engine.specs.BatchLines.{secret_text, request_text, ask_of, ask_by};
ghost use Rattle.batch_engine.specs.BatchLines.{named_ask};
ghost use Rattle.batch_engine.specs.BatchLines.{worded, spoken, batch_line};
ghost use Rattle.batch_engine.specs.Callers.{caller_in, is_short_caller};
ghost use Rattle.cqe_base.specs.Transcript.{purpose_of};
ghost use Rattle.batch_engine.specs.Said.{said, IsShortLine};

use cqe_base::declarations::is_schema_name;
use cqe_base::user::Purpose;
use line_protocol::words::{are_printable, printable_text, split_at_blank};
use script_lines::is_silent;

/// Who makes a call for a user.
#[derive(Clone, Copy, Debug, PartialEq, Eq)]
pub enum Caller {
    /// He himself, in a session of this number.
    Session(u8),
    /// An operator, who adds a secret.
    Operator,
}

/// A call in the slices of its line.
#[derive(Clone, Copy, Debug, PartialEq, Eq)]
pub struct LineAsk<'a> {
    pub name: &'a str,
    pub caller: Caller,
    pub text: &'a str,
}

/// What a line says.
#[derive(Clone, Copy, Debug, PartialEq, Eq)]
pub enum BatchLine<'a> {
    /// Nothing: a line of blanks, or a comment.
    Silence,
    /// `* restart`.
    Restart,
    /// `NAME SESSION ask TEXT` or `NAME SESSION ask`, or `NAME op protect TEXT`.
    Ask(LineAsk<'a>),
}

/// The number that one or two digits write, from 1 to 64 and without a leading zero.
fn session_number(text: &[u8]) -> Option<u8>
    ensures number { result ≡ session_number text.now }
    ensures small { IfSome result (λ n. n ≤ 64) }
{
    match text {
        [a] if a.is_ascii_digit() && *a != b'0' => Some(*a - b'0'),
        [a, b] if a.is_ascii_digit() && *a != b'0' && b.is_ascii_digit() => {
            let number = 10 * (*a - b'0') + (*b - b'0');
            if number <= 64 { Some(number) } else { None }
        }
        _ => None,
    }
}

/// Who makes a call, by one word.
fn caller_named(word: &[u8]) -> Option<Caller>
    requires { list_all is_printable word.now ≡ true }
    ensures caller { option_map caller_in result ≡ caller_named word.now }
    ensures short { IfSome result (λ caller. is_short_caller (caller_in caller) ≡ true) }
{
    if printable_text(word) == "op" {
        return Some(Caller::Operator);
    }
    let number = session_number(word)?;
    Some(Caller::Session(number))
}

/// What a call is made for.
pub(crate) fn purpose_of(caller: Caller) -> Purpose
    ensures { result ≡ purpose_of (caller_in caller) }
{
    match caller {
        Caller::Session(_) => Purpose::Asking,
        Caller::Operator => Purpose::Protecting,
    }
}

/// The text of an ask, if it is one.
fn ask_text(request: &[u8]) -> Option<&str>
    requires printable { list_all is_printable request.now ≡ true }
    requires short { length request.now ≤ 4096 }
    ensures text { option_map (λ t. t.now) result ≡ ask_text request.now }
    ensures short { IfSome result (λ t. length t.now ≤ 4096) }
{
    match split_at_blank(request) {
        Some((word, text)) => text_behind(printable_text(word), "ask", printable_text(text)),
        None => text_behind(printable_text(request), "ask", ""),
    }
}

/// The text of an addition, if it is one.
fn secret_text(request: &[u8]) -> Option<&str>
    requires printable { list_all is_printable request.now ≡ true }
    requires short { length request.now ≤ 4096 }
    ensures text { option_map (λ t. t.now) result ≡ secret_text request.now }
    ensures short { IfSome result (λ t. length t.now ≤ 4096) }
{
    let (word, text) = split_at_blank(request)?;
    text_behind(printable_text(word), "protect", printable_text(text))
}

/// The text behind a first word, if that is the one that is looked for.
fn text_behind<'a>(first: &str, word: &str, text: &'a str) -> Option<&'a str>
    requires { length text.now ≤ 4096 }
    ensures text { option_map (λ t. t.now) result
        ≡ (if bytes_eq first.now word.now then Some text.now else None) }
    ensures short { IfSome result (λ t. length t.now ≤ 4096) }
{
    if first == word { Some(text) } else { None }
}

/// The text of a request, by who makes it.
fn request_text(caller: Caller, request: &[u8]) -> Option<&str>
    requires printable { list_all is_printable request.now ≡ true }
    requires short { length request.now ≤ 4096 }
    ensures text { option_map (λ t. t.now) result ≡ request_text (caller_in caller) request.now }
    ensures short { IfSome result (λ t. length t.now ≤ 4096) }
{
    match caller {
        Caller::Session(_) => ask_text(request),
        Caller::Operator => secret_text(request),
    }
}

/// The call for a name with a text, if that is there.
fn ask_of<'a>(name: &'a str, caller: Caller, text: Option<&'a str>) -> Option<BatchLine<'a>>
    requires name { length name.now ≤ 32 }
    requires caller { is_short_caller (caller_in caller) ≡ true }
    requires text { IfSome text (λ t. length t.now ≤ 4096) }
    ensures says { option_map said result
        ≡ ask_of name.now (caller_in caller) (option_map (λ t. t.now) text.entry) }
    ensures short { IfSome result IsShortLine }
{
    let text = text?;
    Some(BatchLine::Ask(LineAsk { name, caller, text }))
}

/// The call for a name that is a request of a caller, if there is one.
fn ask_by<'a>(name: &'a str, caller: Option<Caller>, request: &'a [u8]) -> Option<BatchLine<'a>>
    requires name { length name.now ≤ 32 }
    requires caller { IfSome caller (λ who. is_short_caller (caller_in who) ≡ true) }
    requires printable { list_all is_printable request.now ≡ true }
    requires short { length request.now ≤ 4096 }
    ensures says { option_map said result
        ≡ ask_by name.now (option_map caller_in caller) request.now }
    ensures short { IfSome result IsShortLine }
{
    let caller = caller?;
    ask_of(name, caller, request_text(caller, request))
}

/// The call for a name and what stands behind it.
fn named_ask<'a>(name: &'a str, rest: &'a [u8]) -> Option<BatchLine<'a>>
    requires printable { list_all is_printable rest.now ≡ true }
    requires short { length rest.now ≤ 4096 }
    ensures says { option_map said result ≡ named_ask name.now rest.now }
    ensures short { IfSome result IsShortLine }
{
    if !is_schema_name(name) {
        return None;
    }
    let (caller, request) = split_at_blank(rest)?;
    ask_by(name, caller_named(caller), request)
}

/// The line of a first word and the text behind the blank that ends it.
fn worded<'a>(word: &'a str, rest: &'a [u8]) -> Option<BatchLine<'a>>
    requires printable { list_all is_printable rest.now ≡ true }
    requires short { length rest.now ≤ 4096 }
    ensures says { option_map said result ≡ worded word.now rest.now }
    ensures short { IfSome result IsShortLine }
{
    if word != "*" {
        return named_ask(word, rest);
    }
    if printable_text(rest) == "restart" {
        Some(BatchLine::Restart)
    } else {
        None
    }
}

/// What printable bytes say.
fn spoken(line: &[u8]) -> Option<BatchLine<'_>>
    requires printable { list_all is_printable line.now ≡ true }
    requires short { length line.now ≤ 4096 }
    ensures says { option_map said result ≡ spoken line.now }
    ensures short { IfSome result IsShortLine }
{
    let (word, rest) = split_at_blank(line)?;
    worded(printable_text(word), rest)
}

/// What a line says, if it has one of the shapes. A call has a short name, session and text.
#[tactic(auto, unfolding(crate::specs::BatchLines::batch_line))]
pub fn batch_line(line: &[u8]) -> Option<BatchLine<'_>>
    requires { length line.now ≤ 4096 }
    ensures says { option_map said result ≡ batch_line line.now }
    ensures short { IfSome result IsShortLine }
{
    if is_silent(line) {
        return Some(BatchLine::Silence);
    }
    if !are_printable(line) {
        return None;
    }
    spoken(line)
}
