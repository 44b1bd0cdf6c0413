//! The programs that a call may name.
//!
//! `cqe` is the program itself. `dimacs` is the search machine alone. The others answer each line
//! of the input by one line:
//! `words` reads words of a command, `requests` lines of a session, `sentences FILE` sentences over
//! the schema of a policy, `searches` and `ends` search clauses, `refutations` and `models` judge
//! such, `forms` gives the clause forms of formulas.
use crate::forms::form_text;
use crate::machine::{end_text, judged_model, judged_refutation, search_text};
use crate::readers::{request_text, sentence_text_of, words_text};
use crate::scene::{Call, Named, Scene, Step};
use crate::stage::{Outcome, Stage};
use cqe_base::schema::Schema;
use dimacs_text::answer_input;
use outside::{MemorySink, MemorySource, Pieces, Plan};
use policy_files::read_policy;
use std::alloc::{AllocError, Global};
use std::sync::Wait;
use std::thread::Threads;

/// What answers a line.
#[derive(Drop)]
enum Reader {
    Words,
    Requests,
    Sentences(Schema),
    Searches,
    Ends,
    Refutations,
    Models,
    Forms,
}

/// Calls the program of a call; `None` where it has none.
pub fn perform(
    rt: &(impl Threads + Wait + Sync),
    alloc: Global,
    scene: &Scene,
    stage: &mut Stage,
    call: &Call,
    cut: usize,
) -> Result<Option<Outcome>, AllocError> {
    let Some((program, words)) = call.words.split_first() else {
        return Ok(None);
    };
    match program.as_str() {
        "cqe" => Ok(Some(stage.perform(rt, alloc, words, call, cut)?)),
        "dimacs" => Ok(Some(dimacs(alloc, call, cut)?)),
        name => read(alloc, scene, name, words, call),
    }
}

/// What the reader of a name makes of a call; `None` where there is no such reader.
fn read(
    alloc: Global,
    scene: &Scene,
    name: &str,
    words: &[String],
    call: &Call,
) -> Result<Option<Outcome>, AllocError> {
    match reader_named(alloc, scene, name, words) {
        Some(reader) => Ok(Some(by_lines(alloc, &reader, call)?)),
        None => Ok(None),
    }
}

/// The reader of a name.
fn reader_named(alloc: Global, scene: &Scene, name: &str, words: &[String]) -> Option<Reader> {
    match name {
        "words" => Some(Reader::Words),
        "requests" => Some(Reader::Requests),
        "sentences" => reader_of_sentences(alloc, scene, words),
        "searches" => Some(Reader::Searches),
        "ends" => Some(Reader::Ends),
        "refutations" => Some(Reader::Refutations),
        "models" => Some(Reader::Models),
        "forms" => Some(Reader::Forms),
        _ => None,
    }
}

/// The reader of sentences over the schema of the policy that the first word names.
fn reader_of_sentences(alloc: Global, scene: &Scene, words: &[String]) -> Option<Reader> {
    let file = file_named(scene, words.first()?)?;
    let schema = schema_of(alloc, &file.bytes)?;
    Some(Reader::Sentences(schema))
}

/// The file of this name.
fn file_named<'s>(scene: &'s Scene, name: &String) -> Option<&'s Named> {
    for step in &scene.steps {
        if let Step::File(file) = step
            && file.name.as_str() == name.as_str()
        {
            return Some(file);
        }
    }
    None
}

/// The schema of a policy.
fn schema_of(alloc: Global, bytes: &[u8]) -> Option<Schema> {
    match read_policy(alloc, bytes) {
        Ok(policy) => Some(policy.schema),
        Err(_) => None,
    }
}

/// The search machine on the clauses of the input.
fn dimacs(alloc: Global, call: &Call, cut: usize) -> Result<Outcome, AllocError> {
    let input = call.input.clone()?;
    let mut source = MemorySource::with_plan(input, Pieces::UpTo(cut), Plan::Never);
    let mut sink = MemorySink::with_plan(alloc, Pieces::UpTo(cut), Plan::Never);
    let mut complaints = MemorySink::new(alloc);
    let status = answer_input(alloc, &mut source, &mut sink, &mut complaints).status();
    written(alloc, status, sink.bytes(), complaints.bytes())
}

/// An outcome of which this was written, and nothing else came.
fn written(
    alloc: Global,
    status: u8,
    output: &[u8],
    complaint: &[u8],
) -> Result<Outcome, AllocError> {
    Ok(Outcome {
        status,
        output: output.to_vec(alloc)?,
        complaint: complaint.to_vec(alloc)?,
        unread: false,
        served: Vec::new(alloc),
        frames: Vec::new(alloc),
        left: 0,
    })
}

/// A line for each line of the input.
fn by_lines(alloc: Global, reader: &Reader, call: &Call) -> Result<Outcome, AllocError> {
    let mut output = Vec::new(alloc);
    if let Ok(text) = str::from_utf8(&call.input) {
        for line in text.strip_suffix("\n").unwrap_or(text).split('\n') {
            push_answer(alloc, &mut output, reader, line)?;
        }
    }
    written(alloc, 0, &output, &[])
}

/// Appends what a reader makes of a line, as a line.
fn push_answer(
    alloc: Global,
    output: &mut Vec<u8>,
    reader: &Reader,
    line: &str,
) -> Result<(), AllocError> {
    let answer = answer(alloc, reader, line)?;
    output.extend_from_slice(answer.as_bytes())?;
    output.push(b'\n')?;
    Ok(())
}

/// What a reader makes of a line.
fn answer(alloc: Global, reader: &Reader, line: &str) -> Result<String, AllocError> {
    match reader {
        Reader::Words => words_text(alloc, line),
        Reader::Requests => request_text(alloc, line),
        Reader::Sentences(schema) => sentence_text_of(alloc, schema, line),
        Reader::Searches => search_text(alloc, line),
        Reader::Ends => end_text(alloc, line),
        Reader::Refutations => judged_refutation(alloc, line),
        Reader::Models => judged_model(alloc, line),
        Reader::Forms => form_text(alloc, line),
    }
}
