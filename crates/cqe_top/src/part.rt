//! What a command does: a case, the run of a workload, or something over files.
ghost use Rattle.std.specs.Prelude.{◌≡◌};
ghost use Rattle.command_words.specs.Readings.{reading_in};
ghost use Rattle.command_words.specs.declared.command.Command.{Command};
ghost use Rattle.cqe_top.specs.Steps.{reading_of_part};

use crate::for_user::UserTask;
use crate::mirrored::MirroredTask;
use crate::over_files::Task;
use command_words::{BatchWords, Command, Files, SelfrunWords, ServeWords};
use serve_engine::Listening;
use standby_engine::Copying;

/// What a command does.
#[derive(Clone, Copy)]
pub(crate) enum Part<'w> {
    /// A case is answered.
    Case,
    /// A workload is made and run.
    Selfrun(SelfrunWords),
    /// Something is done over the files of these names.
    OverFiles(Files<'w>, Task<'w>),
    /// Something is done over them for the user of this name.
    ForUser(Files<'w>, &'w str, UserTask),
    /// Something is done over files with a standby at this address, which copies the journals.
    Mirrored(Files<'w>, MirroredTask<'w>, &'w str),
}

/// What this command does.
pub(crate) fn part_of<'w>(command: Command<'w>) -> Part<'w>
    ensures { reading_of_part result ≡ reading_in command.entry }
{
    match command {
        Command::Case => Part::Case,
        Command::Init(files) => Part::OverFiles(files, Task::Init),
        Command::Batch(words) => batch_part(words),
        Command::Audit(words) => {
            Part::ForUser(words.files, words.user, UserTask::Audit(words.json))
        }
        Command::Selfrun(words) => Part::Selfrun(words),
        Command::Serve(words) => serve_part(words),
        Command::Migrate(words) => Part::OverFiles(words.files, Task::Migrate(words.to)),
        Command::Dossier(words) => Part::ForUser(words.files, words.user, UserTask::Dossier),
        Command::Check(words) => {
            // no journal is taken
            let files = Files {
                policy: words.policy,
                facts: words.facts,
                journals: "",
            };
            Part::ForUser(files, words.user, UserTask::Check)
        }
        Command::Standby(words) => {
            let copying = Copying {
                address: words.listen,
                sessions: words.sessions,
            };
            Part::OverFiles(words.files, Task::Standby(copying))
        }
    }
}

fn batch_part<'w>(words: BatchWords<'w>) -> Part<'w>
    ensures { reading_of_part result ≡ reading_in (Command.Batch words.entry) }
{
    match words.standby {
        None => Part::OverFiles(words.files, Task::Batch(words.workers)),
        Some(standby) => Part::Mirrored(words.files, MirroredTask::Batch(words.workers), standby),
    }
}

fn serve_part<'w>(words: ServeWords<'w>) -> Part<'w>
    ensures { reading_of_part result ≡ reading_in (Command.Serve words.entry) }
{
    let address = words.listen;
    let listening = Listening {
        address,
        workers: words.workers,
        sessions: words.sessions,
    };
    match words.standby {
        None => Part::OverFiles(words.files, Task::Serve(listening)),
        Some(standby) => Part::Mirrored(words.files, MirroredTask::Serve(listening), standby),
    }
}
