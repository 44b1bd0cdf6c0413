//! One session over lines.
ghost use Rattle.std.specs.Prelude.{◌≡◌, ◌⊎◌, ◌≤◌, ◌<◌, ◌^◌, ◌++◌, codes, length, IfSome, IfNone};
ghost use Rattle.std.specs.List.{AllByRecursion};
ghost use Rattle.outside.specs.Faults.{Rose, HasCause};
ghost use Rattle.outside.specs.Streams.{AppendsPart};
ghost use Rattle.turnstile.specs.Passes.{turns};
ghost use Rattle.line_protocol.specs.Replies.{text_of};
ghost use Rattle.line_protocol.specs.Requests.{meaning_of};
ghost use Rattle.line_protocol.specs.Rests.{IsRest};
ghost use Rattle.session_core.specs.Heard.{is_quit};
ghost use Rattle.session_core.specs.Talks.{LogsIn, NobodyLogsIn, Answers};
ghost use Rattle.session_core.specs.Desks.{AsksOf, schemas_of};
ghost use Rattle.session_core.specs.Members.{ArePassesOf, EachHides, users_of, fixeds_of};
ghost use Rattle.session_core.specs.Members.{passes_in};
ghost use Rattle.session_core.specs.Asked.{RepliesBy, IsWithin};
ghost use Rattle.session_core.specs.Sessions.{Session, Spoken};

use crate::asking::{ask_at, list_at};
use crate::counters::{Counters, Passes};
use cqe_base::laws::law_hides;
use cqe_base::user::User;
use line_protocol::{
    LineBuffer, LineOutcome, Reply, Request, login_ok, read_line, read_request, write_reply,
};
use outside::{Disk, Failed, Gate, Sink, Source};
use std::alloc::Global;
use std::sync::Wait;
use std::thread::Threads;
use user_log::line_reply;

/// A session ends behind the reply to so many lines.
const LINES: u32 = 100_000;

/// How a session ends.
#[derive(Clone, Copy, Debug, PartialEq, Eq)]
pub enum Ended {
    /// The user said so.
    Quit,
    /// The input was over.
    InputEnd,
    /// A line had more than 4,096 bytes.
    TooLong,
    /// 100,000 lines were answered.
    TooMany,
    /// The source failed.
    ReadFault,
    /// The sink failed.
    WriteFault,
}

/// The place of the user of this name, if the phrase is his.
fn login_place(users: &[User], name: &str, phrase: &str) -> Option<usize>
    ensures place { IfSome result (LogsIn name.now phrase.now users.now) }
    ensures within { IfSome result (λ place. place < length users.now) }
    ensures nobody { IfNone result (NobodyLogsIn users.now name.now phrase.now) }
{
    match users {
        [] => None,
        [user, others @ ..] => {
            if user.name.as_str() == name {
                if login_ok(user, phrase) {
                    Some(0)
                } else {
                    None
                }
            } else {
                // A `match` and not `map`: the proof has the place as a case of its own.
                match login_place(others, name, phrase) {
                    Some(place) => Some(place + 1),
                    None => None,
                }
            }
        }
    }
}

/// What is answered to a request.
#[derive(Clone, Copy)]
enum Answer<'a> {
    /// One line.
    Line(Reply),
    /// The lines of a list of the user at this place, of which nothing was asked yet.
    Lines {
        place: usize,
        count: u32,
        text: &'a str,
    },
}

/// Who is logged in behind a request, and what is answered to it.
fn reply_to<'a, R: Threads + Wait + Sync, D: Disk, G: Gate>(
    rt: &R,
    alloc: Global,
    counters: &Counters<'_, D>,
    passes: &mut Passes<D>,
    who: Option<usize>,
    request: Request<'a>,
    gate: &G,
) -> (Option<usize>, Answer<'a>)
    requires passes { ArePassesOf passes.old counters.now }
    requires place { IfSome who (λ place. place < length (fixeds_of counters.now)) }
    requires turns { AllByRecursion (λ pass. 2 ≤ turns pass) (passes_in passes.old) }
    requires within { IsWithin (meaning_of request) }
    ensures passes { ArePassesOf passes.new counters.now }
    ensures place { IfSome result.0 (λ place. place < length (fixeds_of counters.now)) }
    ensures replies { RepliesBy (users_of counters.now) (fixeds_of counters.now) who
        (meaning_of request.entry) result.0 result.1 (passes_in passes.old) (passes_in passes.new) }
{
    match (request, who) {
        (Request::Login { user, phrase }, None) => match login_place(counters.users, user, phrase) {
            Some(place) => (Some(place), Answer::Line(Reply::Welcome)),
            None => (None, Answer::Line(Reply::Code(25))),
        },
        (Request::Login { .. }, Some(_)) => (who, Answer::Line(Reply::Code(26))),
        (Request::Ask(_), None) => (None, Answer::Line(Reply::Code(25))),
        (Request::Ask(text), Some(place)) => {
            let reply = ask_at(rt, alloc, counters, passes, place, text, gate);
            (who, Answer::Line(line_reply(reply)))
        }
        (Request::List { .. }, None) => (None, Answer::Line(Reply::Code(25))),
        (Request::List { count, text }, Some(place)) => (who, Answer::Lines { place, count, text }),
        (Request::Quit, _) => (who, Answer::Line(Reply::Bye)),
        (Request::Other, _) => (who, Answer::Line(Reply::Code(26))),
    }
}

/// Writes the answer to a request, line by line, and says who is logged in behind it.
fn write_answer<R: Threads + Wait + Sync, D: Disk, K: Sink, G: Gate>(
    rt: &R,
    alloc: Global,
    counters: &Counters<'_, D>,
    passes: &mut Passes<D>,
    sink: &mut K,
    who: Option<usize>,
    request: Request<'_>,
    gate: &G,
) -> (Option<usize>, Result<(), Failed>)
    requires passes { ArePassesOf passes.old counters.now }
    requires place { IfSome who (λ place. place < length (fixeds_of counters.now)) }
    requires turns { AllByRecursion (λ pass. 512 ≤ turns pass) (passes_in passes.old) }
    requires within { IsWithin (meaning_of request) }
    ensures passes { ArePassesOf passes.new counters.now }
    ensures place { IfSome result.0 (λ place. place < length (fixeds_of counters.now)) }
    ensures spoken { Spoken K.tells (Answers (users_of counters.now)
        (schemas_of (fixeds_of counters.now)) who (meaning_of request.entry) result.0)
        (AsksOf who (fixeds_of counters.now) (passes_in passes.old) (passes_in passes.new))
        result.1 (K.written sink.old) (K.written sink.new) }
    ensures answers { K.answers sink.new ≡ K.answers sink.old }
    ensures cause { HasCause (K.faults sink.old) (K.faults sink.new) result.1 }
{
    let (next, reply) = reply_to(rt, alloc, counters, passes, who, request, gate);
    match reply {
        Answer::Line(line) => (next, write_reply(sink, &line)),
        Answer::Lines { place, count, text } => {
            let wrote = list_at(rt, alloc, counters, passes, sink, place, count, text, gate);
            (next, wrote)
        }
    }
}

fn is_quit(request: &Request<'_>) -> bool
    ensures { result ≡ is_quit (meaning_of request.now) }
{
    match request {
        Request::Quit => true,
        Request::Login { .. } | Request::Ask(_) | Request::List { .. } | Request::Other => false,
    }
}

/// Serves a session: reads lines from the source up to `quit`, the end of the input, a line that is
/// too long or the 100,000th, and writes a reply to each. An ask is replied to by the history of
/// the user who logged in, at his own desk, and only his pass changes; a list is one ask for each
/// instance, in turn. What each pass has seen is legal, and hides where its user is admitted. It
/// waits for other sessions of that user, and makes at most 2^26 turns.
pub fn serve_session<R: Threads + Wait + Sync, D: Disk, S: Source, K: Sink, G: Gate>(
    rt: &R,
    alloc: Global,
    counters: &Counters<'_, D>,
    passes: &mut Passes<D>,
    source: &mut S,
    sink: &mut K,
    gate: &G,
) -> Ended
    requires passes { ArePassesOf passes.old counters.now }
    requires turns { AllByRecursion (λ pass. 2 ^ 26 ≤ turns pass) (passes_in passes.old) }
    ensures passes { ArePassesOf passes.new counters.now }
    ensures session { Session S.tells K.tells (users_of counters.now)
        (fixeds_of counters.now) result (S.left source.old)
        (passes_in passes.old) (passes_in passes.new) (K.written sink.old) (K.written sink.new) }
    ensures hides { EachHides (fixeds_of counters.now) (passes_in passes.new) }
    ensures left { S.tells → IsRest (S.left source.old) (S.left source.new) }
    ensures held { S.held source.new ≡ S.held source.old }
    ensures answers { K.answers sink.new ≡ K.answers sink.old }
    ensures source_later { S.faults source.old ≤ S.faults source.new }
    ensures sink_later { K.faults sink.old ≤ K.faults sink.new }
    ensures read_cause { result ≡ Ended.ReadFault
        → Rose (S.faults source.old) (S.faults source.new) }
    ensures write_cause { result ≡ Ended.WriteFault → Rose (K.faults sink.old) (K.faults sink.new) }
{
    law_hides();
    let mut buffer = LineBuffer::new();
    let mut who = None;
    for _ in 0..LINES {
        match read_line(source, &mut buffer) {
            LineOutcome::Line => (),
            LineOutcome::End => return Ended::InputEnd,
            LineOutcome::TooLong => return end_too_long(sink),
            LineOutcome::ReadFault => return Ended::ReadFault,
        }
        let request = read_request(buffer.line());
        let (next, wrote) = write_answer(rt, alloc, counters, passes, sink, who, request, gate);
        who = next;
        match wrote {
            Ok(()) => (),
            Err(Failed) => return Ended::WriteFault,
        }
        if is_quit(&request) {
            return Ended::Quit;
        }
    }
    Ended::TooMany
}

/// Replies to a line that is too long.
fn end_too_long<K: Sink>(sink: &mut K) -> Ended
    ensures ends { (result ≡ Ended.TooLong) ⊎ (result ≡ Ended.WriteFault) }
    ensures whole { result ≡ Ended.TooLong → K.tells
        → K.written sink.new ≡ K.written sink.old ++ (text_of (Reply.Code 26) ++ codes "\n") }
    ensures part { result ≡ Ended.WriteFault → K.tells
        → AppendsPart (K.written sink.old) (K.written sink.new)
        (text_of (Reply.Code 26) ++ codes "\n") }
    ensures answers { K.answers sink.new ≡ K.answers sink.old }
    ensures later { K.faults sink.old ≤ K.faults sink.new }
    ensures cause { result ≡ Ended.WriteFault → Rose (K.faults sink.old) (K.faults sink.new) }
{
    match write_reply(sink, &Reply::Code(26)) {
        Ok(()) => Ended::TooLong,
        Err(Failed) => Ended::WriteFault,
    }
}
