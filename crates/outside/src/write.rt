//! Writing whole pieces to a sink.
ghost use Rattle.std.specs.Prelude.{◌≡◌, ◌++◌, OnOk, OnErr};
ghost use Rattle.std.specs.List.{flat_map};
ghost use Rattle.outside.specs.Faults.{HasCause};
ghost use Rattle.outside.specs.Streams.{AppendsPart};

use crate::{Failed, Sink};
use std::convert::AsSlice;

/// Appends all of these bytes, in as many calls as the sink needs. Where it fails, a front of them
/// was appended.
pub fn write_all<K: Sink>(sink: &mut K, bytes: &[u8]) -> Result<(), Failed>
    ensures all { K.tells → OnOk result (K.written sink.new ≡ K.written sink.old ++ bytes.now) }
    ensures part { K.tells
        → OnErr result (AppendsPart (K.written sink.old) (K.written sink.new) bytes.now) }
    ensures answers { K.answers sink.new ≡ K.answers sink.old }
    ensures cause { HasCause (K.faults sink.old) (K.faults sink.new) result }
{
    let mut rest = bytes;
    while !rest.is_empty() {
        let count = sink.give(rest)?;
        if count == 0 {
            return Err(Failed);
        }
        rest = &rest[count..];
    }
    Ok(())
}

/// Appends all of these parts, one after the other, each as `write_all` does. Where it fails, a
/// front of the whole was appended.
pub fn write_parts<K: Sink, P: AsSlice<u8>>(sink: &mut K, parts: &[P]) -> Result<(), Failed>
    ensures all { K.tells
        → OnOk result (K.written sink.new ≡ K.written sink.old ++ flat_map P.items parts.now) }
    ensures part { K.tells → OnErr result (AppendsPart (K.written sink.old) (K.written sink.new)
        (flat_map P.items parts.now)) }
    ensures answers { K.answers sink.new ≡ K.answers sink.old }
    ensures cause { HasCause (K.faults sink.old) (K.faults sink.new) result }
{
    for part in parts {
        match write_all(sink, part.as_slice()) {
            Ok(()) => (),
            Err(Failed) => return Err(Failed),
        }
    }
    Ok(())
}
