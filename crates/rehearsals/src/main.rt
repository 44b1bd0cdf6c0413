//! Rehearsals: scenes that are read from standard input and played by the program itself over
//! objects in memory.
//!
//! A scene gives files, disks, words, input and clients, and says what has to come out: lines,
//! complaint, status, and what the journals hold afterwards. `docs/REHEARSALS.md` has the format.
//! For each scene it writes `NAME fits`, or what differs, and at the end how many fit; the stored
//! run has all the scenes, and its output that all of them fit.
//!
//! It promises nothing: what is compared are values that were worked out by hand or by another
//! program. It is safe and ends for every input. Read `scene`, then `book` (how scenes are read),
//! then `stage` and `theatre` (how they are played).
#![tactic(auto)]

mod book;
mod cast;
mod forms;
mod machine;
mod orders;
mod pieces;
mod readers;
mod report;
mod scene;
mod stage;
mod theatre;
mod trouble;

use book::read_book;
use std::io;
use std::io::Read;
use theatre::play_all;
use trouble::Trouble;

fn main(rt: HostRuntime) -> io::Result<()> {
    let alloc = rt.alloc();
    let mut text = String::new(alloc);
    let _count = rt.stdin().read_to_string(&mut text)?;
    let outcome = match read_book(alloc, &text) {
        Ok(scenes) => play_all(&rt, alloc, &scenes),
        Err(trouble) => Err(trouble),
    };
    match outcome {
        Ok(report) => print!(rt; "{report}"),
        Err(Trouble::Memory) => println!(rt; "out of memory"),
        Err(Trouble::Line(number)) => println!(rt; "line {number} can't be read"),
    }
}
