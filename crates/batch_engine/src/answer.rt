//! The answers to the calls of a stretch, which are kept until its counters are closed.

ghost use Rattle.std.specs.Prelude.{◌≡◌, ◌≤◌, true, ◌∷◌, [], ◌++◌, option_map, length};
ghost use Rattle.cqe_base.specs.Transcript.{reply_line, line_text, caller_text};
ghost use Rattle.user_log.specs.Replies.{reply_of};
ghost use Rattle.batch_engine.specs.Said.{is_short_ask};
ghost use Rattle.batch_engine.specs.Batches.{ask_in};
ghost use Rattle.batch_engine.specs.AnswerTexts.{answer_text};
ghost use Rattle.batch_engine.specs.Callers.{caller_in, is_short_caller};
ghost use Rattle.batch_engine.specs.Answers.{is_broken_reply, answer_to, restarted_at};

use crate::batch::BatchAsk;
use crate::line::Caller;
use line_protocol::{LineText, text_of};
use std::convert::AsSlice;
use user_log::{Reply, line_reply};

/// A line of the output, with its line feed: that of a call, or of the restart behind a stretch.
#[derive(Drop)]
pub(crate) struct Answer {
    /// The number of the ask in its stretch, and that of all asks for a restart.
    pub number: usize,
    pub line: LineText,
    /// Whether the line says that an append failed.
    pub is_broken: bool,
}

impl AsSlice<u8> for Answer {
    ghost items = { λ answer. answer.line };

    fn as_slice(&self) -> &[u8] {
        self.line.bytes()
    }
}

/// The text of a reply, or that no user has the name.
fn answer_text(reply: Option<Reply>) -> LineText
    ensures text { result ≡ answer_text (option_map reply_of reply) }
    ensures short { length result ≤ 23 }
{
    match reply {
        Some(reply) => text_of(&line_reply(reply)),
        None => LineText::new("error 23"),
    }
}

/// The text of a caller.
fn caller_text(caller: Caller) -> LineText
    requires { is_short_caller (caller_in caller) ≡ true }
    ensures text { result ≡ caller_text (caller_in caller) }
    ensures short { length result ≤ 2 }
{
    match caller {
        Caller::Session(number) => {
            let mut text = LineText::new("");
            text.push_decimal(u32::from(number));
            text
        }
        Caller::Operator => LineText::new("op"),
    }
}

/// The line of a call and its reply.
fn line_of(ask: &BatchAsk, reply: Option<Reply>) -> LineText
    requires { is_short_ask (ask_in ask.now) ≡ true }
    ensures { result ≡ line_text (reply_line (ask_in ask.now).name (ask_in ask.now).caller
        (option_map reply_of reply)) ++ 10 ∷ [] }
{
    let caller = caller_text(ask.caller);
    let text = answer_text(reply);
    let mut line = LineText::new(ask.name.as_str());
    line.push(" ");
    line.push_bytes(caller.bytes());
    line.push(" ");
    line.push_bytes(text.bytes());
    line.push("\n");
    line
}

/// Whether a reply says that an append failed.
fn is_broken_reply(reply: Option<Reply>) -> bool
    ensures { result ≡ is_broken_reply (option_map reply_of reply) }
{
    matches!(reply, Some(Reply::Broken))
}

/// The answer to the ask of this number.
pub(crate) fn answer_to(number: usize, ask: &BatchAsk, reply: Option<Reply>) -> Answer
    requires { is_short_ask (ask_in ask.now) ≡ true }
    ensures { result ≡ answer_to number (ask_in ask.now) (option_map reply_of reply) }
{
    Answer {
        number,
        line: line_of(ask, reply),
        is_broken: is_broken_reply(reply),
    }
}

/// The line of the restart behind so many asks.
pub(crate) fn restarted(count: usize) -> Answer
    ensures { result ≡ restarted_at count }
{
    Answer {
        number: count,
        line: LineText::new("* restarted\n"),
        is_broken: false,
    }
}
