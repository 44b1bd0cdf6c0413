//! The check of a dossier that a source gives.
ghost use Rattle.std.specs.Prelude.{◌≡◌, ◌≤◌, length, string_bytes};
ghost use Rattle.outside.specs.Faults.{Rose};
ghost use Rattle.line_protocol.specs.Rests.{IsRest};
ghost use Rattle.cqe_base.specs.History.{profile_of};
ghost use Rattle.cqe_base.specs.Limits.{KeepsLimits};
ghost use Rattle.dossier_engine.specs.Checks.{EndsCheck, IsSilentCheck, JudgesInput};
ghost use Rattle.dossier_engine.specs.Said.{EndsText, IsSaid, JudgesText};
ghost use Rattle.dossier_engine.specs.declared.end.CheckEnd.{CheckEnd};

use crate::end::{CheckEnd, CheckRefusal, refused_end};
use crate::input::{Input, read_input};
use cqe_base::schema::Schema;
use cqe_base::user::User;
use cqe_base::world::World;
use dossier::check_dossier;
use line_protocol::LineText;
use outside::{Failed, Sink, Source, write_all};
use std::alloc::Global;

/// Reads a text from the source, to its end or to the first byte that is one too many, and checks
/// it as the dossier of a user over a world. Where it is accepted one line is written: `sound` and
/// the number of its items.
pub fn run_check<S: Source, K: Sink>(
    alloc: Global,
    schema: &Schema,
    world: &World,
    user: &User,
    source: &mut S,
    sink: &mut K,
) -> CheckEnd
    requires { KeepsLimits schema.now (profile_of user.now) }
    ensures ends { S.tells → K.tells → EndsCheck schema.now world.now (string_bytes user.now.name)
        (profile_of user.now) result (S.left source.old) (S.left source.new)
        (K.written sink.old) (K.written sink.new) }
    ensures judged { S.tells → JudgesInput schema.now world.now (string_bytes user.now.name)
        (profile_of user.now) result (S.left source.old) (S.left source.new) }
    ensures silent { IsSilentCheck result → sink.new ≡ sink.old }
    ensures left { S.tells → IsRest (S.left source.old) (S.left source.new) }
    ensures held { S.held source.new ≡ S.held source.old }
    ensures source_later { S.faults source.old ≤ S.faults source.new }
    ensures sink_later { K.faults sink.old ≤ K.faults sink.new }
    ensures read_cause { result ≡ CheckEnd.ReadFault
        → Rose (S.faults source.old) (S.faults source.new) }
    ensures write_cause { result ≡ CheckEnd.WriteFault
        → Rose (K.faults sink.old) (K.faults sink.new) }
{
    let bytes = match read_input(alloc, source) {
        Input::Whole(bytes) => bytes,
        Input::TooLong => return CheckEnd::Refused(CheckRefusal::TooLong),
        Input::Fault => return CheckEnd::ReadFault,
        Input::Memory => return CheckEnd::Memory,
    };
    let Ok(text) = str::from_utf8(&bytes) else {
        return CheckEnd::Refused(CheckRefusal::NotUtf8);
    };
    check_text(alloc, schema, world, user, text, sink)
}

// Checks a text, and says so where it is accepted.
fn check_text<K: Sink>(
    alloc: Global,
    schema: &Schema,
    world: &World,
    user: &User,
    text: &str,
    sink: &mut K,
) -> CheckEnd
    requires limits { KeepsLimits schema.now (profile_of user.now) }
    requires bytes { length text.now ≤ 67108864 }
    ensures ends { K.tells → EndsText schema.now world.now (string_bytes user.now.name)
        (profile_of user.now) text.now result (K.written sink.old) (K.written sink.new) }
    ensures judged { JudgesText schema.now world.now (string_bytes user.now.name)
        (profile_of user.now) text.now result }
    ensures silent { IsSilentCheck result → sink.new ≡ sink.old }
    ensures sink_later { K.faults sink.old ≤ K.faults sink.new }
    ensures no_read { result ≡ CheckEnd.ReadFault → ⊥ }
    ensures write_cause { result ≡ CheckEnd.WriteFault
        → Rose (K.faults sink.old) (K.faults sink.new) }
{
    match check_dossier(alloc, schema, world, user, text) {
        Ok(count) => say_sound(count, sink),
        Err(why) => refused_end(why),
    }
}

// Says that a dossier of so many items is accepted.
fn say_sound<K: Sink>(count: u32, sink: &mut K) -> CheckEnd
    ensures said { K.tells → IsSaid count result (K.written sink.old) (K.written sink.new) }
    ensures silent { IsSilentCheck result → ⊥ }
    ensures sink_later { K.faults sink.old ≤ K.faults sink.new }
    ensures no_read { result ≡ CheckEnd.ReadFault → ⊥ }
    ensures write_cause { result ≡ CheckEnd.WriteFault
        → Rose (K.faults sink.old) (K.faults sink.new) }
{
    let mut line = LineText::new("sound ");
    line.push_decimal(count);
    line.push("\n");
    match write_all(sink, line.bytes()) {
        Ok(()) => CheckEnd::Done,
        Err(Failed) => CheckEnd::WriteFault,
    }
}
