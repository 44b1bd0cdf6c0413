//! The commands that do something for one user of a policy: `audit`, `dossier` and `check`.
ghost use Rattle.std.specs.Prelude.{◌≡◌, ◌<◌, Some, bytes_eq, length, position, string_bytes};
ghost use Rattle.std.specs.Prelude.{IfSome};
ghost use Rattle.command_words.specs.Readings.{names_of_files};
ghost use Rattle.outside.specs.Shelf.{NoneOut};
ghost use Rattle.cqe_top.specs.Promise.{OfReading, Always};
ghost use Rattle.cqe_top.specs.Reports.{FaultsHaveCauses};
ghost use Rattle.cqe_top.specs.Scene.{scene_of, shelf_of, input_of, output_of, links_of};
ghost use Rattle.cqe_top.specs.Steps.{reading_for_user};

use crate::end::CommandEnd;
use crate::files::read_files;
use audit_engine::run_audit;
use command_words::Files;
use cqe_base::user::User;
use desk_crew::Registry;
use dossier_engine::{law_written_are_accepted, run_check, run_dossier};
use outside::{Links, Shelf, Sink, Source};
use std::alloc::Global;

/// What is done for one user.
#[derive(Clone, Copy)]
pub(crate) enum UserTask {
    /// He is audited, as JSON or as lines.
    Audit(bool),
    /// His dossier is written.
    Dossier,
    /// One is checked.
    Check,
}

/// Reads the files of these names, and does what is to be done for the user of this name. It takes
/// no links, so whatever links of this type there are stay as they are.
pub(crate) fn run_for_user<'w, F: Shelf, S: Source, K: Sink, L: Links>(
    alloc: Global,
    files: Files<'w>,
    name: &'w str,
    task: UserTask,
    shelf: &mut F,
    source: &mut S,
    sink: &mut K,
) -> CommandEnd<'w>
    requires inside { NoneOut (F.is_out shelf.old) }
    ensures command { (links : L) → OfReading
        (scene_of (shelf_of F.Shelf F.D.Disk shelf.old shelf.new)
        (input_of S.Source source.old source.new) (output_of K.Sink sink.old sink.new)
        (links_of L.Links links links))
        (Some (reading_for_user (names_of_files files.entry) name.now task)) result }
    ensures cause { (links : L) → FaultsHaveCauses
        (scene_of (shelf_of F.Shelf F.D.Disk shelf.old shelf.new)
        (input_of S.Source source.old source.new) (output_of K.Sink sink.old sink.new)
        (links_of L.Links links links)) result }
    ensures always { (links : L) → Always
        (scene_of (shelf_of F.Shelf F.D.Disk shelf.old shelf.new)
        (input_of S.Source source.old source.new) (output_of K.Sink sink.old sink.new)
        (links_of L.Links links links)) }
{
    let inputs = match read_files(alloc, shelf, &files) {
        Ok(inputs) => inputs,
        Err(end) => return CommandEnd::Files(end),
    };
    let registry = Registry {
        schema: &inputs.policy.schema,
        world: &inputs.world,
        users: inputs.policy.users.as_slice(),
        header: &inputs.header,
        directory: files.journals,
    };
    let Some(place) = place_of(registry.users, name) else {
        return CommandEnd::Nobody;
    };
    let user = &inputs.policy.users[place];
    match task {
        UserTask::Audit(json) => {
            CommandEnd::Audit(name, run_audit(alloc, &registry, user, json, shelf, sink))
        }
        UserTask::Dossier => {
            registry.schema.known();
            law_written_are_accepted();
            CommandEnd::Dossier(name, run_dossier(alloc, &registry, user, shelf, sink))
        }
        UserTask::Check => {
            let schema = registry.schema;
            let world = registry.world;
            CommandEnd::Check(run_check(alloc, schema, world, user, source, sink))
        }
    }
}

/// The place of the user who has this name.
fn place_of(users: &[User], name: &str) -> Option<usize>
    ensures place { result
        ≡ position (λ user. bytes_eq (string_bytes user.name) name.now) users.now }
    ensures within { IfSome result (λ place. place < length users.now) }
{
    users.iter().position(|user| user.name.as_str() == name)
}
