//! A text is read whole from its source, unless it is too long.
ghost use Rattle.std.specs.Prelude.{◌≡◌, ◌<◌, ◌≤◌, ◌+◌, ◌++◌, [], length, Err, IfOk, OnOk};
ghost use Rattle.outside.specs.Faults.{Rose};
ghost use Rattle.line_protocol.specs.Rests.{IsRest};
ghost use Rattle.dossier_engine.specs.Input.{ReadsInput, IsWithin};
ghost use Rattle.dossier_engine.specs.declared.input.Input.{Input};
ghost use Rattle.dossier_engine.specs.declared.input.Unread.{Unread};

use outside::{Failed, Source};
use std::alloc::Global;

/// A dossier has at most so many bytes.
const MOST: usize = 67_108_864;

/// A piece of the input has at most so many.
const PIECE: usize = 4096;

/// What came of reading a text.
#[derive(Drop)]
pub(crate) enum Input {
    /// The source is at its end, and these are its bytes.
    Whole(Vec<u8>),
    /// There are more bytes than a dossier has.
    TooLong,
    /// The source failed.
    Fault,
    /// Memory was wanting.
    Memory,
}

/// Why a piece wasn't read.
#[derive(Clone, Copy, PartialEq, Eq)]
pub(crate) enum Unread {
    /// The source failed.
    Fault,
    /// Memory was wanting.
    Memory,
}

/// Reads a text to the end of its source, or to the first byte that is one too many.
pub(crate) fn read_input<S: Source>(alloc: Global, source: &mut S) -> Input
    ensures reads { S.tells → ReadsInput result (S.left source.old) (S.left source.new) }
    ensures within { IsWithin result }
    ensures left { S.tells → IsRest (S.left source.old) (S.left source.new) }
    ensures held { S.held source.new ≡ S.held source.old }
    ensures later { S.faults source.old ≤ S.faults source.new }
    ensures cause { result ≡ Input.Fault → Rose (S.faults source.old) (S.faults source.new) }
{
    let mut bytes = Vec::new(alloc);
    loop {
        let count = match take_piece(source, &mut bytes) {
            Ok(count) => count,
            Err(Unread::Fault) => return Input::Fault,
            Err(Unread::Memory) => return Input::Memory,
        };
        if count == 0 {
            return Input::Whole(bytes);
        }
        if bytes.len() > MOST {
            return Input::TooLong;
        }
    }
}

// Takes the next piece behind these bytes, of which one more than all may come.
fn take_piece<S: Source>(source: &mut S, bytes: &mut Vec<u8>) -> Result<usize, Unread>
    requires room { length bytes.old.items ≤ 67108864 }
    ensures more { IfOk result (λ n. length bytes.new.items ≡ length bytes.old.items + n) }
    ensures most { OnOk result (length bytes.new.items ≤ 67108865) }
    ensures moved { S.tells → OnOk result
        (bytes.new.items ++ S.left source.new ≡ bytes.old.items ++ S.left source.old) }
    ensures end { S.tells → IfOk result (λ n. n ≡ 0 → S.left source.old ≡ []) }
    ensures left { S.tells → IsRest (S.left source.old) (S.left source.new) }
    ensures held { S.held source.new ≡ S.held source.old }
    ensures later { S.faults source.old ≤ S.faults source.new }
    ensures cause { result ≡ Err Unread.Fault → Rose (S.faults source.old) (S.faults source.new) }
{
    let mut piece = [0; PIECE];
    let size = piece_size(MOST + 1 - bytes.len());
    let count = take_through(source, &mut piece[..size], bytes)?;
    Ok(count)
}

// How many bytes a piece may have where so many more may come.
fn piece_size(room: usize) -> usize
    requires { 1 ≤ room }
    ensures some { 1 ≤ result }
    ensures within { result ≤ room }
    ensures fits { result ≤ 4096 }
{
    if room < PIECE { room } else { PIECE }
}

// Takes a piece through this window, behind these bytes.
fn take_through<S: Source>(
    source: &mut S,
    window: &mut [u8],
    bytes: &mut Vec<u8>,
) -> Result<usize, Unread>
    ensures fits { IfOk result (λ n. n ≤ length window.old) }
    ensures more { IfOk result (λ n. length bytes.new.items ≡ length bytes.old.items + n) }
    ensures moved { S.tells → OnOk result
        (bytes.new.items ++ S.left source.new ≡ bytes.old.items ++ S.left source.old) }
    ensures end { S.tells → IfOk result (λ n. n ≡ 0 → 0 < length window.old
        → S.left source.old ≡ []) }
    ensures left { S.tells → IsRest (S.left source.old) (S.left source.new) }
    ensures held { S.held source.new ≡ S.held source.old }
    ensures later { S.faults source.old ≤ S.faults source.new }
    ensures cause { result ≡ Err Unread.Fault → Rose (S.faults source.old) (S.faults source.new) }
{
    let count = match source.take(window) {
        Ok(count) => count,
        Err(Failed) => return Err(Unread::Fault),
    };
    match bytes.extend_from_slice(&window[..count]) {
        Ok(()) => Ok(count),
        Err(_) => Err(Unread::Memory),
    }
}
