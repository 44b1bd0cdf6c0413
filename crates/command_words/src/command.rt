//! The command that the words say.
ghost use Rattle.std.specs.Prelude.{◌≡◌, true, map, option_map, option_and_then, string_bytes};
ghost use Rattle.std.specs.Prelude.{IfOk};
ghost use Rattle.std.specs.List.{list_any};
ghost use Rattle.clap.specs.Words.{found_of, kind_of, rows_of, subcommand_rows_of};
ghost use Rattle.command_words.specs.Readings.{reading_of, reading_in, names_of_files, files_said};
ghost use Rattle.command_words.specs.Readings.{batch_said, audit_said, selfrun_said, serve_said};
ghost use Rattle.command_words.specs.Readings.{migrate_said, dossier_said, check_said};
ghost use Rattle.command_words.specs.Readings.{standby_said};
ghost use Rattle.command_words.specs.Matched.{is_short, says_true, files_in, batch_in, audit_in};
ghost use Rattle.command_words.specs.Matched.{selfrun_in, serve_in, migrate_in, dossier_in};
ghost use Rattle.command_words.specs.Matched.{check_in, standby_in, command_with};

use crate::number::{number_from, number_or, small_number_from, small_number_or};
use crate::program::program;
use clap::error::ErrorKind;
use clap::{ArgMatches, Error};
use std::alloc::{AllocError, Global};

/// The files that a command stands on, by their names.
#[derive(Clone, Copy, Debug, PartialEq, Eq)]
pub struct Files<'a> {
    /// the policy file
    pub policy: &'a str,
    /// the facts file
    pub facts: &'a str,
    /// the directory of the journals
    pub journals: &'a str,
}

/// What a batch is answered over.
#[derive(Clone, Copy, Debug, PartialEq, Eq)]
pub struct BatchWords<'a> {
    /// the files
    pub files: Files<'a>,
    /// how many workers answer, 1 to 64, and 4 without the option
    pub workers: u32,
    /// the address of the standby that copies the journals, if there is one
    pub standby: Option<&'a str>,
}

/// What an audit is of.
#[derive(Clone, Copy, Debug, PartialEq, Eq)]
pub struct AuditWords<'a> {
    /// the files
    pub files: Files<'a>,
    /// the name of the user
    pub user: &'a str,
    /// whether the audit is written as JSON, not as lines
    pub json: bool,
}

/// What a workload is made of.
#[derive(Clone, Copy, Debug, PartialEq, Eq)]
pub struct SelfrunWords {
    /// the seed of its draws, at most 4,294,967,295
    pub seed: u64,
    /// how many users there are, 1 to 256
    pub users: u32,
    /// how many asks there are, 1 to 10,000
    pub asks: u32,
}

/// What a server is to do.
#[derive(Clone, Copy, Debug, PartialEq, Eq)]
pub struct ServeWords<'a> {
    /// the files
    pub files: Files<'a>,
    /// the address at which it listens
    pub listen: &'a str,
    /// how many workers serve, 1 to 64, and 4 without the option
    pub workers: u32,
    /// how many connections they serve together, 1 to 1,000,000, and 2^30 without the option
    pub sessions: u64,
    /// the address of the standby that copies the journals, if there is one
    pub standby: Option<&'a str>,
}

/// What a standby is to do.
#[derive(Clone, Copy, Debug, PartialEq, Eq)]
pub struct StandbyWords<'a> {
    /// the files, with the directory of its own journals
    pub files: Files<'a>,
    /// the address at which it listens
    pub listen: &'a str,
    /// how many connections it takes, 1 to 1,000,000, and 2^30 without the option
    pub sessions: u64,
}

/// Which journals are moved.
#[derive(Clone, Copy, Debug, PartialEq, Eq)]
pub struct MigrateWords<'a> {
    /// the files, with the directory of the old journals
    pub files: Files<'a>,
    /// the directory of the new ones, which is another word
    pub to: &'a str,
}

/// Whose dossier is written.
#[derive(Clone, Copy, Debug, PartialEq, Eq)]
pub struct DossierWords<'a> {
    /// the files
    pub files: Files<'a>,
    /// the name of the user
    pub user: &'a str,
}

/// Whose dossier is checked. It takes no journal.
#[derive(Clone, Copy, Debug, PartialEq, Eq)]
pub struct CheckWords<'a> {
    /// the policy file
    pub policy: &'a str,
    /// the facts file
    pub facts: &'a str,
    /// the name of the user
    pub user: &'a str,
}

/// What the program is to do. The texts are those of the words.
#[derive(Clone, Copy, Debug, PartialEq, Eq)]
pub enum Command<'a> {
    /// `case`: a script with one user.
    Case,
    /// `init`: an empty journal for each user of the policy.
    Init(Files<'a>),
    /// `batch`: a script with many users and sessions.
    Batch(BatchWords<'a>),
    /// `audit`: the history and the other worlds of one user.
    Audit(AuditWords<'a>),
    /// `selfrun`: a workload that the program makes and runs itself.
    Selfrun(SelfrunWords),
    /// `serve`: a server of connections.
    Serve(ServeWords<'a>),
    /// `migrate`: the old journals of one directory, moved to another.
    Migrate(MigrateWords<'a>),
    /// `dossier`: the history of one user with what shows each reply.
    Dossier(DossierWords<'a>),
    /// `check`: the dossier of one user, without a search.
    Check(CheckWords<'a>),
    /// `standby`: a copy of each journal of another program.
    Standby(StandbyWords<'a>),
}

/// Reads the words behind the program's name.
///
/// The first word is the command. Its options come behind it in any order, each at most once, as
/// `--name value` or `--name=value`; only `--json`, `--workers`, `--sessions` and `--standby` may
/// be left out, and `--json` has no value. Words that begin with a hyphen, but for `-` alone, are
/// values only in the second form, and no value is empty. Numbers are one to ten decimal digits,
/// within their limits. There is no help among the words and no short form of a name. An error is
/// want of memory.
pub fn read_words<'a>(alloc: Global, words: &'a [String]) -> Result<Option<Command<'a>>, AllocError>
    ensures { IfOk result (λ read. option_map reading_in read
        ≡ reading_of (map string_bytes words.now)) }
{
    if has_short(words) {
        return Ok(None);
    }
    let program = program(alloc)?;
    match program.try_get_matches_from(words) {
        Ok(matches) => Ok(command_in(&matches)),
        Err(error) => {
            if is_want_of_memory(&error) {
                Err(AllocError)
            } else {
                Ok(None)
            }
        }
    }
}

// Whether one of the words is `--` or has the form `-x`: `clap` takes the first for the end of the
// options.
fn has_short(words: &[String]) -> bool
    ensures { result ≡ list_any is_short (map string_bytes words.now) }
{
    match words {
        [] => false,
        [word, rest @ ..] => is_short(word.as_str()) || has_short(rest),
    }
}

fn is_short(word: &str) -> bool
    ensures { result ≡ is_short word.now }
{
    match word.as_bytes() {
        [] => false,
        [_] => false,
        [first, _] => *first == b'-',
        [first, second, _, ..] => *first == b'-' && *second != b'-',
    }
}

fn is_want_of_memory(error: &Error) -> bool
    ensures { kind_of error.now ≡ ErrorKind.OutOfMemory → result ≡ true }
{
    error.kind() == ErrorKind::OutOfMemory
}

// The command that was matched, with its values.
fn command_in<'a>(matches: &ArgMatches<'a>) -> Option<Command<'a>>
    ensures { option_map reading_in result
        ≡ option_and_then (λ found. command_with found.0 found.1) (subcommand_rows_of matches.now) }
{
    let (name, given) = matches.subcommand()?;
    command_with(name, given)
}

// The command of this name with the values that were matched.
fn command_with<'a>(name: &str, given: &ArgMatches<'a>) -> Option<Command<'a>>
    ensures { option_map reading_in result ≡ command_with name.now (rows_of (found_of given.now)) }
{
    match name {
        "case" => Some(Command::Case),
        "init" => Some(Command::Init(files_in(given)?)),
        "batch" => batch_in(given),
        "audit" => audit_in(given),
        "selfrun" => selfrun_in(given),
        "serve" => serve_in(given),
        "migrate" => migrate_in(given),
        "dossier" => dossier_in(given),
        "check" => check_in(given),
        "standby" => standby_in(given),
        _ => None,
    }
}

// The files that were matched.
fn files_in<'a>(given: &ArgMatches<'a>) -> Option<Files<'a>>
    ensures { option_map names_of_files result ≡ files_in (rows_of (found_of given.now)) }
{
    files_with(
        given.get_str("policy"),
        given.get_str("facts"),
        given.get_str("journals"),
    )
}

fn files_with<'a>(
    policy: Option<&'a str>,
    facts: Option<&'a str>,
    journals: Option<&'a str>,
) -> Option<Files<'a>>
    ensures { option_map names_of_files result
        ≡ files_said (option_map (λ s. s.now) policy.entry) (option_map (λ s. s.now) facts.entry)
        (option_map (λ s. s.now) journals.entry) }
{
    match (policy, facts, journals) {
        (Some(policy), Some(facts), Some(journals)) => Some(Files {
            policy,
            facts,
            journals,
        }),
        _ => None,
    }
}

// The batch that was matched.
fn batch_in<'a>(given: &ArgMatches<'a>) -> Option<Command<'a>>
    ensures { option_map reading_in result ≡ batch_in (rows_of (found_of given.now)) }
{
    batch_with(
        files_in(given),
        small_number_or(4, 1, 64, given.get_str("workers")),
        given.get_str("standby"),
    )
}

fn batch_with<'a>(
    files: Option<Files<'a>>,
    workers: Option<u32>,
    standby: Option<&'a str>,
) -> Option<Command<'a>>
    ensures { option_map reading_in result
        ≡ batch_said (option_map names_of_files files.entry) workers
        (option_map (λ s. s.now) standby.entry) }
{
    match (files, workers) {
        (Some(files), Some(workers)) => Some(Command::Batch(BatchWords {
            files,
            workers,
            standby,
        })),
        _ => None,
    }
}

// The audit that was matched.
fn audit_in<'a>(given: &ArgMatches<'a>) -> Option<Command<'a>>
    ensures { option_map reading_in result ≡ audit_in (rows_of (found_of given.now)) }
{
    audit_with(
        files_in(given),
        given.get_str("user"),
        says_true(given.get_str("json")),
    )
}

fn audit_with<'a>(
    files: Option<Files<'a>>,
    user: Option<&'a str>,
    json: bool,
) -> Option<Command<'a>>
    ensures { option_map reading_in result
        ≡ audit_said (option_map names_of_files files.entry)
        (option_map (λ s. s.now) user.entry) json }
{
    match (files, user) {
        (Some(files), Some(user)) => Some(Command::Audit(AuditWords { files, user, json })),
        _ => None,
    }
}

// Whether the value of a flag is that of one that is there.
fn says_true(value: Option<&str>) -> bool
    ensures { result ≡ says_true (option_map (λ s. s.now) value.entry) }
{
    match value {
        Some(text) => text == "true",
        None => false,
    }
}

// The workload that was matched.
fn selfrun_in<'a>(given: &ArgMatches<'a>) -> Option<Command<'a>>
    ensures { option_map reading_in result ≡ selfrun_in (rows_of (found_of given.now)) }
{
    selfrun_with(
        number_from(0, 4_294_967_295, given.get_str("seed")),
        small_number_from(1, 256, given.get_str("users")),
        small_number_from(1, 10_000, given.get_str("asks")),
    )
}

fn selfrun_with<'a>(seed: Option<u64>, users: Option<u32>, asks: Option<u32>) -> Option<Command<'a>>
    ensures { option_map reading_in result ≡ selfrun_said seed users asks }
{
    match (seed, users, asks) {
        (Some(seed), Some(users), Some(asks)) => {
            Some(Command::Selfrun(SelfrunWords { seed, users, asks }))
        }
        _ => None,
    }
}

// The server that was matched.
fn serve_in<'a>(given: &ArgMatches<'a>) -> Option<Command<'a>>
    ensures { option_map reading_in result ≡ serve_in (rows_of (found_of given.now)) }
{
    serve_with(
        files_in(given),
        given.get_str("listen"),
        small_number_or(4, 1, 64, given.get_str("workers")),
        number_or(1_073_741_824, 1, 1_000_000, given.get_str("sessions")),
        given.get_str("standby"),
    )
}

fn serve_with<'a>(
    files: Option<Files<'a>>,
    listen: Option<&'a str>,
    workers: Option<u32>,
    sessions: Option<u64>,
    standby: Option<&'a str>,
) -> Option<Command<'a>>
    ensures { option_map reading_in result
        ≡ serve_said (option_map names_of_files files.entry)
        (option_map (λ s. s.now) listen.entry) workers sessions
        (option_map (λ s. s.now) standby.entry) }
{
    match (files, listen, workers, sessions) {
        (Some(files), Some(listen), Some(workers), Some(sessions)) => {
            Some(Command::Serve(ServeWords {
                files,
                listen,
                workers,
                sessions,
                standby,
            }))
        }
        _ => None,
    }
}

// The moving of journals that was matched.
fn migrate_in<'a>(given: &ArgMatches<'a>) -> Option<Command<'a>>
    ensures { option_map reading_in result ≡ migrate_in (rows_of (found_of given.now)) }
{
    migrate_with(files_in(given), given.get_str("to"))
}

fn migrate_with<'a>(files: Option<Files<'a>>, to: Option<&'a str>) -> Option<Command<'a>>
    ensures { option_map reading_in result
        ≡ migrate_said (option_map names_of_files files.entry)
        (option_map (λ s. s.now) to.entry) }
{
    match (files, to) {
        (Some(files), Some(to)) => {
            if files.journals == to {
                None
            } else {
                Some(Command::Migrate(MigrateWords { files, to }))
            }
        }
        _ => None,
    }
}

// The dossier that was matched.
fn dossier_in<'a>(given: &ArgMatches<'a>) -> Option<Command<'a>>
    ensures { option_map reading_in result ≡ dossier_in (rows_of (found_of given.now)) }
{
    dossier_with(files_in(given), given.get_str("user"))
}

fn dossier_with<'a>(files: Option<Files<'a>>, user: Option<&'a str>) -> Option<Command<'a>>
    ensures { option_map reading_in result
        ≡ dossier_said (option_map names_of_files files.entry)
        (option_map (λ s. s.now) user.entry) }
{
    match (files, user) {
        (Some(files), Some(user)) => Some(Command::Dossier(DossierWords { files, user })),
        _ => None,
    }
}

// The check of a dossier that was matched.
fn check_in<'a>(given: &ArgMatches<'a>) -> Option<Command<'a>>
    ensures { option_map reading_in result ≡ check_in (rows_of (found_of given.now)) }
{
    check_with(
        given.get_str("policy"),
        given.get_str("facts"),
        given.get_str("user"),
    )
}

fn check_with<'a>(
    policy: Option<&'a str>,
    facts: Option<&'a str>,
    user: Option<&'a str>,
) -> Option<Command<'a>>
    ensures { option_map reading_in result
        ≡ check_said (option_map (λ s. s.now) policy.entry) (option_map (λ s. s.now) facts.entry)
        (option_map (λ s. s.now) user.entry) }
{
    match (policy, facts, user) {
        (Some(policy), Some(facts), Some(user)) => Some(Command::Check(CheckWords {
            policy,
            facts,
            user,
        })),
        _ => None,
    }
}

// The standby that was matched.
fn standby_in<'a>(given: &ArgMatches<'a>) -> Option<Command<'a>>
    ensures { option_map reading_in result ≡ standby_in (rows_of (found_of given.now)) }
{
    standby_with(
        files_in(given),
        given.get_str("listen"),
        number_or(1_073_741_824, 1, 1_000_000, given.get_str("sessions")),
    )
}

fn standby_with<'a>(
    files: Option<Files<'a>>,
    listen: Option<&'a str>,
    sessions: Option<u64>,
) -> Option<Command<'a>>
    ensures { option_map reading_in result
        ≡ standby_said (option_map names_of_files files.entry)
        (option_map (λ s. s.now) listen.entry) sessions }
{
    match (files, listen, sessions) {
        (Some(files), Some(listen), Some(sessions)) => Some(Command::Standby(StandbyWords {
            files,
            listen,
            sessions,
        })),
        _ => None,
    }
}
