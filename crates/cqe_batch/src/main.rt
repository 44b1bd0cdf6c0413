//! The journals and the batch of the ward over real files: the program's `init` and then its
//! `batch`, with the words of the example and the journals in the folder in which it runs.
//!
//! It is here for its stored run: a program is run with one list of words, and this one shows that
//! journals which were made by one call of `top` are opened by the next, over real files, and that
//! a `* restart` finds what was told. It promises what `top` of `cqe_top` promises of each call;
//! the second is made only where the first ended with 0.
//!
//! `data` has the policy and the facts, `stdin` the script, `stdout` what has to be written. Read
//! `main`.
#![tactic(auto)]

use cqe_top::top;
use outside::{MemoryLinks, OpenGate, Plan};
use real_edge::{FileShelf, StreamSink, StreamSource};
use std::alloc::{AllocError, Global};
use std::process::ExitCode;

/// The words of the example.
const INIT: [&str; 7] = [
    "init",
    "--policy",
    "ward.policy",
    "--facts",
    "ward.facts",
    "--journals",
    ".",
];

const BATCH: [&str; 7] = [
    "batch",
    "--policy",
    "ward.policy",
    "--facts",
    "ward.facts",
    "--journals",
    ".",
];

fn main(rt: HostRuntime) -> ExitCode {
    let mut shelf = FileShelf::new(rt.alloc(), &rt);
    let (mut source, mut sink) = (StreamSource::new(rt.stdin()), StreamSink::new(rt.stdout()));
    let mut complaints = StreamSink::new(rt.stderr());
    let (none, plans) = (Vec::new(rt.alloc()), Vec::new(rt.alloc()));
    let mut links = MemoryLinks::with_plans(rt.alloc(), none, Plan::From(0), plans);
    let (Ok(init), Ok(batch)) = (words(rt.alloc(), &INIT), words(rt.alloc(), &BATCH)) else {
        return ExitCode::from(13);
    };
    let made = top(
        &rt,
        rt.alloc(),
        &init,
        &mut shelf,
        &mut source,
        &mut sink,
        &mut complaints,
        &mut links,
        &OpenGate,
    );
    if made != 0 {
        return ExitCode::from(made);
    }
    let status = top(
        &rt,
        rt.alloc(),
        &batch,
        &mut shelf,
        &mut source,
        &mut sink,
        &mut complaints,
        &mut links,
        &OpenGate,
    );
    ExitCode::from(status)
}

fn words(alloc: Global, texts: &[&str]) -> Result<Vec<String>, AllocError> {
    let mut words = Vec::new(alloc);
    for text in texts {
        words.push(String::from_str(alloc, text)?)?;
    }
    Ok(words)
}
