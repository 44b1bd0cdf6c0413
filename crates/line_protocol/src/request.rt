//! What a line asks for.
ghost use Rattle.std.specs.Prelude.{◌≡◌, true};
ghost use Rattle.std.specs.List.{list_all};
ghost use Rattle.line_protocol.specs.Words.{is_printable};
ghost use Rattle.line_protocol.specs.Requests.{is_login, login_of, lone, meaning_of, request_of};
ghost use Rattle.line_protocol.specs.Requests.{worded, list_of, counted};

use crate::words::{are_printable, printable_text, split_at_blank};
use cqe_base::declarations::is_schema_name;

/// What a line asks for.
#[derive(Clone, Copy, Debug, PartialEq, Eq)]
pub enum Request<'a> {
    /// `login NAME PHRASE`: a name of the form of a constant's, and a phrase of 1 to 256 bytes,
    /// blanks among them.
    Login { user: &'a str, phrase: &'a str },
    /// `ask TEXT`, or `ask` alone, which asks the empty text.
    Ask(&'a str),
    /// `list K TEXT`: a sentence, of which the first K quantifiers are to be opened, K being one
    /// digit from 1 to 4. The text may be empty, but the blank before it has to stand.
    List { count: u32, text: &'a str },
    /// `quit`.
    Quit,
    /// Any other line, also one with a byte that is neither a tab nor printable ASCII.
    Other,
}

/// Reads a line, which is given without its end. One blank ends its first word; further ones belong
/// to the text.
pub fn read_request(line: &[u8]) -> Request<'_>
    ensures { meaning_of result ≡ request_of line.now }
{
    if !are_printable(line) {
        return Request::Other;
    }
    match split_at_blank(line) {
        Some((word, text)) => worded(printable_text(word), text),
        None => lone(printable_text(line)),
    }
}

fn worded<'a>(word: &str, text: &'a [u8]) -> Request<'a>
    requires { list_all is_printable text.now ≡ true }
    ensures { meaning_of result ≡ worded word.now text.now }
{
    match word {
        "ask" => Request::Ask(printable_text(text)),
        "login" => login(text),
        "list" => list(text),
        _ => Request::Other,
    }
}

fn lone(word: &str) -> Request<'static>
    ensures { meaning_of result ≡ lone word.now }
{
    match word {
        "ask" => Request::Ask(""),
        "quit" => Request::Quit,
        _ => Request::Other,
    }
}

fn login(text: &[u8]) -> Request<'_>
    requires { list_all is_printable text.now ≡ true }
    ensures { meaning_of result ≡ login_of text.now }
{
    let Some((user, phrase)) = split_at_blank(text) else {
        return Request::Other;
    };
    let (user, phrase) = (printable_text(user), printable_text(phrase));
    if is_login(user, phrase) {
        Request::Login { user, phrase }
    } else {
        Request::Other
    }
}

fn list(text: &[u8]) -> Request<'_>
    requires { list_all is_printable text.now ≡ true }
    ensures { meaning_of result ≡ list_of text.now }
{
    match split_at_blank(text) {
        Some((count, text)) => {
            let (count, text) = (printable_text(count), printable_text(text));
            counted(count, text)
        }
        None => Request::Other,
    }
}

fn counted<'a>(count: &str, text: &'a str) -> Request<'a>
    ensures { meaning_of result ≡ counted count.now text.now }
{
    match count {
        "1" => Request::List { count: 1, text },
        "2" => Request::List { count: 2, text },
        "3" => Request::List { count: 3, text },
        "4" => Request::List { count: 4, text },
        _ => Request::Other,
    }
}

fn is_login(user: &str, phrase: &str) -> bool
    ensures { result ≡ is_login user.now phrase.now }
{
    is_schema_name(user) && !phrase.is_empty() && phrase.len() <= 256
}
