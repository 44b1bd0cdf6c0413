//! The program `cqe`: it makes the real files, streams and sockets, calls `top` and ends with its
//! answer.
//!
//! All that is promised is the contract of `top` in `cqe_top`, for any files, streams and sockets
//! that keep to the traits of `outside`; this crate adds nothing to it. What the system's own files
//! and sockets hold is told to no clause: that they behave so is tested by the runs that are stored
//! beside this folder and beside `cqe_batch`.
//!
//! Words that aren't text are passed on as no words at all, which have no reading. Where memory is
//! wanting for the words themselves, it ends as `top` does for want of memory.
//!
//! A standard stream that was closed before the start stays closed, and no journal gets its
//! descriptor. An audit and a dossier read journals that a server may have open, and write to none;
//! a check takes none; every other command works on them alone. A standby waits less time for a
//! client who has fallen silent.
//!
//! Read `top` first, then `main` here.
#![tactic(auto)]

use cqe_top::top;
use outside::{OpenGate, write_all};
use real_edge::{FileShelf, StreamSink, StreamSource, TcpLinks};
use std::fs::{File, OpenOptions};
use std::os::fd::AsRawFd;
use std::process::ExitCode;
use std::{env, io};

const SHELF_FAULT: u8 = 9;

const OUT_OF_MEMORY: u8 = 13;

fn main(rt: HostRuntime) -> ExitCode {
    let mut complaints = StreamSink::new(rt.stderr());
    let Ok(_closed) = hold_closed_streams(&rt) else {
        let _given = write_all(&mut complaints, b"cqe: shelf fault\n");
        return ExitCode::from(SHELF_FAULT);
    };
    let Ok(words) = words(&rt) else {
        let _given = write_all(&mut complaints, b"cqe: out of memory\n");
        return ExitCode::from(OUT_OF_MEMORY);
    };
    let mut shelf = if only_reads(&words) {
        FileShelf::for_reading(rt.alloc(), &rt)
    } else {
        FileShelf::new(rt.alloc(), &rt)
    };
    let mut source = StreamSource::new(rt.stdin());
    let mut sink = StreamSink::new(rt.stdout());
    let mut links = if is_standby(&words) {
        TcpLinks::for_standby(rt.alloc(), &rt)
    } else {
        TcpLinks::new(rt.alloc(), &rt)
    };
    let status = top(
        &rt,
        rt.alloc(),
        &words,
        &mut shelf,
        &mut source,
        &mut sink,
        &mut complaints,
        &mut links,
        &OpenGate,
    );
    ExitCode::from(status)
}

// What stands in for the standard streams that were closed before the start: the null device,
// opened so that a read of the first and a write to the others fail as at a closed stream. Else the
// next file that is opened, a journal, would be given the free descriptor, and would be read as the
// input or get the output.
fn hold_closed_streams(rt: &HostRuntime) -> io::Result<[Option<File>; 3]> {
    let input = hold_below(rt, OpenOptions::new().write(true), 1)?;
    let output = hold_below(rt, OpenOptions::new().read(true), 3)?;
    let complaints = hold_below(rt, OpenOptions::new().read(true), 3)?;
    Ok([input, output, complaints])
}

// The null device, where the least free descriptor is below this one.
fn hold_below(rt: &HostRuntime, how: &OpenOptions, limit: i32) -> io::Result<Option<File>> {
    let file = how.open(rt, "/dev/null")?;
    if file.as_raw_fd() < limit {
        Ok(Some(file))
    } else {
        Ok(None)
    }
}

// Whether the first word is a command that writes to no journal.
fn only_reads(words: &[String]) -> bool {
    match words.first() {
        Some(word) => matches!(word.as_str(), "audit" | "dossier" | "check"),
        None => false,
    }
}

// Whether the first word is the command that takes frames of a primary.
fn is_standby(words: &[String]) -> bool {
    match words.first() {
        Some(word) => word.as_str() == "standby",
        None => false,
    }
}

// The words behind the program's name, or want of memory. Words that aren't text have no reading,
// and no words have none.
fn words(rt: &HostRuntime) -> io::Result<Vec<String>> {
    let mut words = Vec::new(rt.alloc());
    let arguments = match env::args(rt) {
        Err(error) if error.kind() == io::ErrorKind::InvalidData => return Ok(words),
        arguments => arguments?,
    };
    for word in arguments.skip(1) {
        words.push(word)?;
    }
    Ok(words)
}
