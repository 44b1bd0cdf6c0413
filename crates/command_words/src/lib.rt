//! The words of the command line.
//!
//! `read_words` reads the words behind the program's name as a `Command`, by `clap`. It gives
//! exactly the reading of a definition: a table of the commands with their options, the uses of
//! options that the words make, and the test that the uses fit the table. Every list of words has
//! one reading or none. Only want of memory is an answer of its own.
//!
//! Read `specs/Uses.antt`, `specs/Numbers.antt` and `specs/Readings.antt`, then `command`, which
//! has the promise, `number`, and `program`, which tells `clap` of the commands;
//! `specs/Matched.antt` and `proofs` tie `clap`'s answer to the definition. A further command is
//! added to the table, to `program`, and to `command`.
#![tactic(auto)]

mod command;
mod number;
mod program;

pub use command::{
    AuditWords, BatchWords, CheckWords, Command, DossierWords, Files, MigrateWords, SelfrunWords,
    ServeWords, StandbyWords, read_words,
};
