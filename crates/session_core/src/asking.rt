//! Asks at the desk of one user: of a text, and of each instance of a list.
ghost use Rattle.std.specs.Prelude.{◌≡◌, ◌≤◌, ◌<◌, ◌∷◌, ◌++◌, [], ℕ, Some, OnOk, OnErr, length};
ghost use Rattle.std.specs.Prelude.{codes};
ghost use Rattle.std.specs.List.{AllByRecursion};
ghost use Rattle.outside.specs.Faults.{HasCause};
ghost use Rattle.outside.specs.Streams.{AppendsPart};
ghost use Rattle.turnstile.specs.Passes.{turns};
ghost use Rattle.user_log.specs.Replies.{reply_of};
ghost use Rattle.open_queries.specs.Instances.{IsOpenQueryOf, instances, instance_of, chosen};
ghost use Rattle.open_queries.specs.Opening.{CanBeAsked};
ghost use Rattle.open_queries.specs.Memory.{open_query};
ghost use Rattle.line_protocol.specs.Replies.{text_of};
ghost use Rattle.line_protocol.specs.Requests.{list_for};
ghost use Rattle.session_core.specs.Lists.{SaysInstances, names_of, instance_names};
ghost use Rattle.session_core.specs.Lists.{refusal_reply};
ghost use Rattle.session_core.specs.Talks.{Answers};
ghost use Rattle.session_core.specs.Desks.{AsksAt, schemas_of};
ghost use Rattle.session_core.specs.Members.{ArePassesOf, users_of, fixeds_of, passes_in};
ghost use Rattle.session_core.specs.Asked.{IsInstanceSaid};
ghost use Rattle.session_core.specs.Sessions.{Spoken};

use crate::counters::{Counters, Passes};
use cqe_base::laws::law_sizes;
use cqe_base::schema::Schema;
use cqe_base::sentence::Constant;
use line_protocol::{Reply, write_name, write_reply};
use open_queries::{OpenList, OpenQueryError, opened};
use outside::{Disk, Failed, Gate, Sink};
use sentence_text::constant_name;
use std::alloc::Global;
use std::sync::Wait;
use std::thread::Threads;
use user_log::line_reply;

/// Asks a text at the desk of the user at this place.
pub(crate) fn ask_at<R: Threads + Wait + Sync, D: Disk, G: Gate>(
    rt: &R,
    alloc: Global,
    counters: &Counters<'_, D>,
    passes: &mut Passes<D>,
    place: usize,
    text: &str,
    gate: &G,
) -> user_log::Reply
    requires passes { ArePassesOf passes.old counters.now }
    requires place { place < length (fixeds_of counters.now) }
    requires turns { AllByRecursion (λ pass. 2 ≤ turns pass) (passes_in passes.old) }
    requires short { length text.now ≤ 4096 }
    ensures passes { ArePassesOf passes.new counters.now }
    ensures asked { AsksAt place (fixeds_of counters.now) (passes_in passes.old)
        (passes_in passes.new)
        ((text.now, reply_of result) ∷ []) }
{
    law_sizes();
    let counter = &counters.counters[place];
    let pass = &mut passes.passes[place];
    counter.ask(rt, alloc, pass, text, gate)
}

/// Answers a list of the user at this place: each instance is asked in turn, or it is said why it
/// isn't opened. Behind a line that the sink refuses nothing more is asked.
pub(crate) fn list_at<R: Threads + Wait + Sync, D: Disk, K: Sink, G: Gate>(
    rt: &R,
    alloc: Global,
    counters: &Counters<'_, D>,
    passes: &mut Passes<D>,
    sink: &mut K,
    place: usize,
    count: u32,
    text: &str,
    gate: &G,
) -> Result<(), Failed>
    requires passes { ArePassesOf passes.old counters.now }
    requires place { place < length (fixeds_of counters.now) }
    requires turns { AllByRecursion (λ pass. 512 ≤ turns pass) (passes_in passes.old) }
    requires some { 1 ≤ count }
    requires few { count ≤ 4 }
    requires short { length text.now ≤ 4096 }
    ensures passes { ArePassesOf passes.new counters.now }
    ensures spoken { Spoken K.tells (Answers (users_of counters.now)
        (schemas_of (fixeds_of counters.now)) (Some place) (list_for count text.now) (Some place))
        (AsksAt place (fixeds_of counters.now) (passes_in passes.old) (passes_in passes.new))
        result (K.written sink.old) (K.written sink.new) }
    ensures answers { K.answers sink.new ≡ K.answers sink.old }
    ensures cause { HasCause (K.faults sink.old) (K.faults sink.new) result }
{
    let schema = counters.counters[place].schema();
    match opened(alloc, schema, count, text) {
        Ok(list) => ask_instances(
            rt, alloc, counters, passes, sink, place, schema, &list, gate,
        ),
        Err(error) => write_reply(sink, &refusal_reply(&error)),
    }
}

/// The reply to a list that isn't opened.
fn refusal_reply(error: &OpenQueryError) -> Reply
    ensures { result ≡ refusal_reply error.now }
{
    match error {
        OpenQueryError::Text(refusal) => Reply::Syntax {
            kind: refusal.kind,
            place: refusal.place,
        },
        OpenQueryError::Shape(number) => Reply::Shape(*number),
        OpenQueryError::Memory => Reply::Code(50),
    }
}

/// Asks each instance of a list in turn, and says at the end how many there are.
fn ask_instances<R: Threads + Wait + Sync, D: Disk, K: Sink, G: Gate>(
    rt: &R,
    alloc: Global,
    counters: &Counters<'_, D>,
    passes: &mut Passes<D>,
    sink: &mut K,
    place: usize,
    schema: &Schema,
    list: &OpenList,
    gate: &G,
) -> Result<(), Failed>
    requires passes { ArePassesOf passes.old counters.now }
    requires place { place < length (fixeds_of counters.now) }
    requires turns { AllByRecursion (λ pass. 512 ≤ turns pass) (passes_in passes.old) }
    requires list { IsOpenQueryOf schema.now (open_query list.now) }
    requires asked { (number : ℕ) → number < instances schema.now (open_query list.now)
        → CanBeAsked schema.now (instance_of schema.now (open_query list.now) number) }
    ensures passes { ArePassesOf passes.new counters.now }
    ensures spoken { Spoken K.tells (SaysInstances schema.now (open_query list.now) 0)
        (AsksAt place (fixeds_of counters.now) (passes_in passes.old) (passes_in passes.new))
        result (K.written sink.old) (K.written sink.new) }
    ensures answers { K.answers sink.new ≡ K.answers sink.old }
    ensures cause { HasCause (K.faults sink.old) (K.faults sink.new) result }
{
    let count = list.instances(schema);
    for number in 0..count {
        match ask_instance(
            rt, alloc, counters, passes, sink, place, schema, list, number, gate,
        ) {
            Ok(()) => (),
            Err(Failed) => return Err(Failed),
        }
    }
    write_reply(sink, &Reply::Done(count))
}

/// Asks an instance of a list and writes its line. Where memory is wanting for its text, nothing is
/// asked.
fn ask_instance<R: Threads + Wait + Sync, D: Disk, K: Sink, G: Gate>(
    rt: &R,
    alloc: Global,
    counters: &Counters<'_, D>,
    passes: &mut Passes<D>,
    sink: &mut K,
    place: usize,
    schema: &Schema,
    list: &OpenList,
    number: u32,
    gate: &G,
) -> Result<(), Failed>
    requires passes { ArePassesOf passes.old counters.now }
    requires place { place < length (fixeds_of counters.now) }
    requires turns { AllByRecursion (λ pass. 2 ≤ turns pass) (passes_in passes.old) }
    requires list { IsOpenQueryOf schema.now (open_query list.now) }
    requires number { number < instances schema.now (open_query list.now) }
    requires asked { CanBeAsked schema.now (instance_of schema.now (open_query list.now) number) }
    ensures passes { ArePassesOf passes.new counters.now }
    ensures said { IsInstanceSaid K.tells schema.now (open_query list.now) number place
        (fixeds_of counters.now) result (passes_in passes.old) (passes_in passes.new)
        (K.written sink.old) (K.written sink.new) }
    ensures answers { K.answers sink.new ≡ K.answers sink.old }
    ensures cause { HasCause (K.faults sink.old) (K.faults sink.new) result }
{
    match list.instance(alloc, schema, number) {
        Ok(text) => {
            let reply = ask_at(rt, alloc, counters, passes, place, text.as_str(), gate);
            write_named(sink, schema, list, number, &line_reply(reply))
        }
        Err(_) => write_reply(sink, &Reply::Code(50)),
    }
}

/// Writes the line of an instance: the names of its constants, and the reply.
fn write_named<K: Sink>(
    sink: &mut K,
    schema: &Schema,
    list: &OpenList,
    number: u32,
    reply: &Reply,
) -> Result<(), Failed>
    requires list { IsOpenQueryOf schema.now (open_query list.now) }
    requires number { number < instances schema.now (open_query list.now) }
    ensures all { K.tells → OnOk result (K.written sink.new ≡ K.written sink.old
        ++ ((instance_names schema.now (open_query list.now) number ++ text_of reply.now)
        ++ codes "\n")) }
    ensures part { K.tells → OnErr result (AppendsPart (K.written sink.old) (K.written sink.new)
        ((instance_names schema.now (open_query list.now) number ++ text_of reply.now)
        ++ codes "\n")) }
    ensures answers { K.answers sink.new ≡ K.answers sink.old }
    ensures cause { HasCause (K.faults sink.old) (K.faults sink.new) result }
{
    let indices = list.constants(schema, number);
    match write_names(sink, schema, list.domains.as_slice(), &indices) {
        Ok(()) => write_reply(sink, reply),
        Err(Failed) => Err(Failed),
    }
}

/// Writes the names of the constants with these indices, one of each domain.
fn write_names<K: Sink>(
    sink: &mut K,
    schema: &Schema,
    domains: &[u32],
    indices: &[u32],
) -> Result<(), Failed>
    ensures all { K.tells → OnOk result (K.written sink.new ≡ K.written sink.old
        ++ names_of schema.now (chosen domains.now indices.now)) }
    ensures part { K.tells → OnErr result (AppendsPart (K.written sink.old) (K.written sink.new)
        (names_of schema.now (chosen domains.now indices.now))) }
    ensures answers { K.answers sink.new ≡ K.answers sink.old }
    ensures cause { HasCause (K.faults sink.old) (K.faults sink.new) result }
{
    for (domain, index) in domains.iter().zip(indices) {
        let constant = Constant {
            domain: *domain,
            index: *index,
        };
        match write_name(sink, constant_name(schema, constant)) {
            Ok(()) => (),
            Err(Failed) => return Err(Failed),
        }
    }
    Ok(())
}
