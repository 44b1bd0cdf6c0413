//! The lines of replies.
ghost use Rattle.std.specs.Prelude.{◌≡◌, ◌≤◌, ◌++◌, length, codes, decimal, OnOk, OnErr};
ghost use Rattle.cqe_base.specs.Transcript.{mark_text};
ghost use Rattle.outside.specs.Faults.{HasCause};
ghost use Rattle.outside.specs.Streams.{AppendsPart};
ghost use Rattle.line_protocol.specs.Replies.{line_of, text_of, spaced};

use crate::line_text::LineText;
use cqe_base::user::Mark;
use outside::{Failed, Sink, write_all, write_parts};

/// What is answered to a line.
#[derive(Clone, Copy, Debug, PartialEq, Eq)]
pub enum Reply {
    /// The answer to a call: its word.
    Mark(Mark),
    /// The text of a query is no sentence: the kind of the refusal, and the byte at which it shows.
    Syntax { kind: u8, place: u32 },
    /// Any other refusal, by its code.
    Code(u8),
    /// A secret can't be added, since it isn't safe.
    Unsafe,
    /// A sentence can't be listed so, by the number of the cause.
    Shape(u8),
    /// A list is over, which had so many instances.
    Done(u32),
    /// The login succeeded.
    Welcome,
    /// The session ends.
    Bye,
}

/// Writes the line of a reply, in one piece where the sink takes it. After a failure a part of the
/// line may be written.
pub fn write_reply<K: Sink>(sink: &mut K, reply: &Reply) -> Result<(), Failed>
    ensures all { K.tells
        → OnOk result (K.written sink.new ≡ K.written sink.old ++ line_of reply.now) }
    ensures part { K.tells
        → OnErr result (AppendsPart (K.written sink.old) (K.written sink.new) (line_of reply.now)) }
    ensures answers { K.answers sink.new ≡ K.answers sink.old }
    ensures cause { HasCause (K.faults sink.old) (K.faults sink.new) result }
{
    let line = line_of(reply);
    write_all(sink, line.bytes())
}

/// Writes a name in front of a reply, with one blank behind it. After a failure a part of that may
/// be written.
pub fn write_name<K: Sink>(sink: &mut K, name: &str) -> Result<(), Failed>
    ensures all { K.tells
        → OnOk result (K.written sink.new ≡ K.written sink.old ++ spaced name.now) }
    ensures part { K.tells
        → OnErr result (AppendsPart (K.written sink.old) (K.written sink.new) (spaced name.now)) }
    ensures answers { K.answers sink.new ≡ K.answers sink.old }
    ensures cause { HasCause (K.faults sink.old) (K.faults sink.new) result }
{
    write_parts(sink, &[name.as_bytes(), b" "])
}

fn line_of(reply: &Reply) -> LineText
    ensures { result ≡ line_of reply.now }
{
    let mut line = text_of(reply);
    line.push("\n");
    line
}

/// The text of a reply, without its line feed.
pub fn text_of(reply: &Reply) -> LineText
    ensures text { result ≡ text_of reply.now }
    ensures short { length result ≤ 23 }
{
    match reply {
        Reply::Mark(mark) => LineText::new(mark_text(*mark)),
        Reply::Syntax { kind, place } => syntax_text(*kind, *place),
        Reply::Code(code) => numbered_text("error ", u32::from(*code)),
        Reply::Unsafe => LineText::new("unsafe"),
        Reply::Shape(number) => numbered_text("error 28 ", u32::from(*number)),
        Reply::Done(count) => numbered_text("done ", *count),
        Reply::Welcome => LineText::new("welcome"),
        Reply::Bye => LineText::new("bye"),
    }
}

fn mark_text(mark: Mark) -> &'static str
    ensures text { result.now ≡ mark_text mark }
    ensures short { length result.now ≤ 9 }
{
    match mark {
        Mark::Yes => "yes",
        Mark::No => "no",
        Mark::Refused => "refused",
        Mark::Undecided => "undecided",
        Mark::Protected => "protected",
    }
}

fn syntax_text(kind: u8, place: u32) -> LineText
    ensures text { result ≡ codes "error 20 " ++ decimal kind ++ codes " " ++ decimal place }
    ensures short { length result ≤ 23 }
{
    let mut line = LineText::new("error 20 ");
    line.push_decimal(u32::from(kind));
    line.push(" ");
    line.push_decimal(place);
    line
}

fn numbered_text(word: &str, number: u32) -> LineText
    requires { length word.now ≤ 9 }
    ensures text { result ≡ word.now ++ decimal number }
    ensures short { length result ≤ 19 }
{
    let mut line = LineText::new(word);
    line.push_decimal(number);
    line
}
