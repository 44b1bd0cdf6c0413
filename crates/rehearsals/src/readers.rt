//! Lines that are read as words of a command, as requests of a session, and as sentences.
use crate::book::words_of;
use command_words::{
    AuditWords, BatchWords, CheckWords, Command, Files, ServeWords, StandbyWords, read_words,
};
use cqe_base::schema::Schema;
use cqe_base::text::TextError;
use line_protocol::{Request, read_request};
use sentence_text::{ReadError, print_sentence, read_sentence};
use std::alloc::{AllocError, Global};

/// The command that words say, with its values in brackets, or `none`.
pub fn words_text(alloc: Global, line: &str) -> Result<String, AllocError> {
    match words_of(alloc, line)? {
        Some(words) => said_text(alloc, &words),
        None => String::from_str(alloc, "no words"),
    }
}

/// The same of words that are split.
fn said_text(alloc: Global, words: &[String]) -> Result<String, AllocError> {
    match read_words(alloc, words)? {
        Some(command) => command_text(alloc, &command),
        None => String::from_str(alloc, "none"),
    }
}

/// A command with its values in brackets.
fn command_text(alloc: Global, command: &Command<'_>) -> Result<String, AllocError> {
    match command {
        Command::Case => String::from_str(alloc, "case"),
        Command::Init(files) => files_text(alloc, "init", files),
        Command::Batch(batch) => batch_text(alloc, batch),
        Command::Audit(audit) => audit_text(alloc, audit),
        Command::Selfrun(run) => {
            format!(in alloc; "selfrun {} {} {}", run.seed, run.users, run.asks)
        }
        Command::Serve(serve) => serve_text(alloc, serve),
        Command::Migrate(migrate) => with_value(alloc, "migrate", &migrate.files, migrate.to),
        Command::Dossier(dossier) => with_value(alloc, "dossier", &dossier.files, dossier.user),
        Command::Check(check) => check_text(alloc, check),
        Command::Standby(standby) => standby_words_text(alloc, standby),
    }
}

fn batch_text(alloc: Global, batch: &BatchWords<'_>) -> Result<String, AllocError> {
    let front = files_text(alloc, "batch", &batch.files)?;
    let behind = standby_text(alloc, batch.standby)?;
    format!(in alloc; "{front} {}{behind}", batch.workers)
}

fn audit_text(alloc: Global, audit: &AuditWords<'_>) -> Result<String, AllocError> {
    let front = with_value(alloc, "audit", &audit.files, audit.user)?;
    let form = if audit.json { "json" } else { "text" };
    format!(in alloc; "{front} {form}")
}

fn serve_text(alloc: Global, serve: &ServeWords<'_>) -> Result<String, AllocError> {
    let front = with_value(alloc, "serve", &serve.files, serve.listen)?;
    let behind = standby_text(alloc, serve.standby)?;
    format!(in alloc; "{front} {} {}{behind}", serve.workers, serve.sessions)
}

fn check_text(alloc: Global, check: &CheckWords<'_>) -> Result<String, AllocError> {
    format!(in alloc;
        "check <{}> <{}> <{}>",
        check.policy, check.facts, check.user
    )
}

fn standby_words_text(alloc: Global, standby: &StandbyWords<'_>) -> Result<String, AllocError> {
    let front = with_value(alloc, "standby", &standby.files, standby.listen)?;
    format!(in alloc; "{front} {}", standby.sessions)
}

/// A command, the files that it names, and a value behind them.
fn with_value(
    alloc: Global,
    command: &str,
    files: &Files<'_>,
    value: &str,
) -> Result<String, AllocError> {
    let front = files_text(alloc, command, files)?;
    format!(in alloc; "{front} <{value}>")
}

/// A command and the files that it names.
fn files_text(alloc: Global, command: &str, files: &Files<'_>) -> Result<String, AllocError> {
    let (policy, facts, journals) = (files.policy, files.facts, files.journals);
    format!(in alloc; "{command} <{policy}> <{facts}> <{journals}>")
}

/// A standby's address behind a blank, or nothing.
fn standby_text(alloc: Global, standby: Option<&str>) -> Result<String, AllocError> {
    match standby {
        Some(address) => format!(in alloc; " <{address}>"),
        None => Ok(String::new(alloc)),
    }
}

/// The request of a line.
pub fn request_text(alloc: Global, line: &str) -> Result<String, AllocError> {
    match read_request(line.as_bytes()) {
        Request::Login { user, phrase } => format!(in alloc; "login <{user}> <{phrase}>"),
        Request::Ask(text) => format!(in alloc; "ask <{text}>"),
        Request::List { count, text } => format!(in alloc; "list {count} <{text}>"),
        Request::Quit => String::from_str(alloc, "quit"),
        Request::Other => String::from_str(alloc, "other"),
    }
}

/// The canonical form of a sentence, or the kind and the place of its refusal.
pub fn sentence_text_of(alloc: Global, schema: &Schema, line: &str) -> Result<String, AllocError> {
    if line.len() > 4096 {
        return String::from_str(alloc, "too long");
    }
    match read_sentence(alloc, schema, line) {
        Ok(sentence) => print_sentence(alloc, schema, &sentence),
        Err(ReadError::Text(TextError { kind, place })) => format!(in alloc; "{kind} {place}"),
        Err(ReadError::Memory) => Err(AllocError),
    }
}
