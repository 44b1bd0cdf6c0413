//! How long is waited for clients, for a system that can't take one in, and for a standby.

/// Seconds until the first bytes of a connection.
pub(crate) const FIRST_BYTES: u64 = 30;

/// Seconds between later bytes.
pub(crate) const LATER_BYTES: u64 = 600;

/// Seconds between later bytes of a frame. A standby takes one connection after the other, so that
/// a dead one holds up all others.
pub(crate) const FRAME_BYTES: u64 = 30;

/// Seconds for a write of which nobody takes a byte.
pub(crate) const STUCK_WRITE: u64 = 60;

/// How much of what a client still sends is read as his connection ends: so many pieces of so many
/// bytes.
pub(crate) const LAST_PIECES: usize = 16;

pub(crate) const PIECE: usize = 4096;

/// Seconds for each of these pieces.
pub(crate) const LAST_WAIT: u64 = 1;

/// How often taking in a client is tried again. The pauses before, which double from the first up
/// to the longest, are 60 seconds together.
pub(crate) const TRIES_AGAIN: u32 = 69;

/// Milliseconds of the first pause and of the longest.
pub(crate) const FIRST_PAUSE: u64 = 1;

pub(crate) const LONGEST_PAUSE: u64 = 1000;

/// Seconds until a standby is reached.
pub(crate) const CONNECT: u64 = 5;

/// Seconds for a write to it of which it takes no byte, and between the bytes of its answer. It
/// answers behind two syncs.
pub(crate) const STANDBY_FRAME: u64 = 10;

pub(crate) const STANDBY_ANSWER: u64 = 30;
