//! What came of a call beside what had to come.
use crate::scene::{Call, Client, Named};
use crate::stage::{Outcome, Stage};
use std::alloc::{AllocError, Global};

/// How many bytes of a text are shown.
const SHOWN: usize = 400;

/// What differs first, if anything does.
pub fn difference(
    alloc: Global,
    stage: &Stage,
    call: &Call,
    outcome: &Outcome,
) -> Result<Option<String>, AllocError> {
    if let Some(what) = in_streams(alloc, call, outcome)? {
        return Ok(Some(what));
    }
    if let Some(what) = in_links(alloc, call, outcome)? {
        return Ok(Some(what));
    }
    on_disks(alloc, stage, &call.kept, &call.gone)
}

/// What differs first in the streams and the status.
fn in_streams(alloc: Global, call: &Call, outcome: &Outcome) -> Result<Option<String>, AllocError> {
    if call.complaint.as_slice() != outcome.complaint.as_slice() {
        return said(alloc, "complaint", &outcome.complaint);
    }
    if call.output.as_slice() != outcome.output.as_slice() {
        return said(alloc, "output", &outcome.output);
    }
    if call.status != outcome.status {
        return Ok(Some(format!(in alloc; "status {}", outcome.status)?));
    }
    if call.unread && !outcome.unread {
        return Ok(Some(String::from_str(alloc, "the input was read")?));
    }
    Ok(None)
}

/// What differs first in what the links got.
fn in_links(alloc: Global, call: &Call, outcome: &Outcome) -> Result<Option<String>, AllocError> {
    if call.left != outcome.left {
        return Ok(Some(format!(in alloc; "{} clients are left", outcome.left)?));
    }
    if let Some(what) = unserved(alloc, &call.clients, &outcome.served, outcome.left)? {
        return Ok(Some(what));
    }
    if call.frames.as_slice() != outcome.frames.as_slice() {
        return said(alloc, "frames", &outcome.frames);
    }
    Ok(None)
}

/// A part of what came, and its bytes.
fn said(alloc: Global, part: &str, bytes: &[u8]) -> Result<Option<String>, AllocError> {
    let shown = shown(alloc, bytes)?;
    Ok(Some(format!(in alloc; "{part} {shown}")?))
}

/// Bytes as a text, those that can't be shown as hexadecimal digits.
fn shown(alloc: Global, bytes: &[u8]) -> Result<String, AllocError> {
    let mut text = String::new(alloc);
    for byte in bytes.iter().take(SHOWN) {
        push_byte(&mut text, *byte)?;
    }
    Ok(text)
}

/// Appends a byte as a text.
fn push_byte(text: &mut String, byte: u8) -> Result<(), AllocError> {
    match byte {
        b' '..=b'~' => text.push(char::from(byte))?,
        b'\n' => text.push_str("\\n")?,
        other => write!(text, "\\x{other:02x}")?,
    }
    Ok(())
}

/// A client who was served otherwise than he had to be; all but those that are left have to be
/// served.
fn unserved(
    alloc: Global,
    wanted: &[Client],
    served: &[Client],
    left: usize,
) -> Result<Option<String>, AllocError> {
    if served.len().saturating_add(left) != wanted.len() {
        return Ok(Some(format!(in alloc; "{} clients were served", served.len())?));
    }
    for client in served {
        if !wanted.iter().any(|other| is_same(client, other)) {
            return said(alloc, "a client got", &client.gets);
        }
    }
    Ok(None)
}

/// Whether two clients sent and got the same.
fn is_same(first: &Client, second: &Client) -> bool {
    first.sends.as_slice() == second.sends.as_slice()
        && first.gets.as_slice() == second.gets.as_slice()
}

/// A disk that has other bytes than it had to have, or that is there though it may not be.
fn on_disks(
    alloc: Global,
    stage: &Stage,
    kept: &[Named],
    gone: &[String],
) -> Result<Option<String>, AllocError> {
    for wanted in kept {
        let bytes = stage.disk(wanted.name.as_str()).unwrap_or(&[]);
        if bytes != wanted.bytes.as_slice() {
            return said(alloc, wanted.name.as_str(), bytes);
        }
    }
    not_gone(alloc, stage, gone)
}

/// A disk that is there though it may not be.
fn not_gone(alloc: Global, stage: &Stage, gone: &[String]) -> Result<Option<String>, AllocError> {
    for name in gone {
        if stage.disk(name.as_str()).is_some() {
            return Ok(Some(format!(in alloc; "there is a disk {name}")?));
        }
    }
    Ok(None)
}
