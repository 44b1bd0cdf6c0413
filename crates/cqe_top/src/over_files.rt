//! The commands that stand on a policy file and a facts file.
ghost use Rattle.std.specs.Prelude.{Some};
ghost use Rattle.command_words.specs.Readings.{names_of_files};
ghost use Rattle.outside.specs.Shelf.{NoneOut};
ghost use Rattle.cqe_top.specs.Promise.{OfReading, Always};
ghost use Rattle.cqe_top.specs.Reports.{FaultsHaveCauses};
ghost use Rattle.cqe_top.specs.Scene.{scene_of, shelf_of, input_of, output_of, links_of};
ghost use Rattle.cqe_top.specs.Steps.{reading_over, KeepsBounds};

use crate::end::CommandEnd;
use crate::files::read_files;
use batch_engine::run_batch;
use command_words::Files;
use desk_crew::Registry;
use init_engine::run_init;
use migrate_engine::run_migrate;
use outside::{Gate, Links, Shelf, Sink, Source};
use serve_engine::{Listening, run_serve};
use standby_engine::{Copying, run_standby};
use std::alloc::Global;
use std::sync::Wait;
use std::thread::Threads;
use user_desk::laws::law_openings;

/// What is done over files.
#[derive(Clone, Copy)]
pub(crate) enum Task<'w> {
    /// The journals of all users are made.
    Init,
    /// A batch is answered by so many workers, 1 to 64.
    Batch(u32),
    /// The old journals of all users are moved to this directory, which is another.
    Migrate(&'w str),
    /// Connections are served.
    Serve(Listening<'w>),
    /// The journals of another program are copied.
    Standby(Copying<'w>),
}

/// Reads the files of these names, and does what is to be done over them.
pub(crate) fn run_over_files<
    'w,
    R: Threads + Wait + Sync,
    F: Shelf,
    S: Source,
    K: Sink,
    L: Links,
    G: Gate + Sync,
>(
    rt: &R,
    alloc: Global,
    files: Files<'w>,
    task: Task<'w>,
    shelf: &mut F,
    source: &mut S,
    sink: &mut K,
    links: &mut L,
    gate: &G,
) -> CommandEnd<'w>
where
    F::D: Send,
    requires inside { NoneOut (F.is_out shelf.old) }
    requires bounds { KeepsBounds (names_of_files files) task }
    ensures command { OfReading (scene_of (shelf_of F.Shelf F.D.Disk shelf.old shelf.new)
        (input_of S.Source source.old source.new) (output_of K.Sink sink.old sink.new)
        (links_of L.Links links.old links.new))
        (Some (reading_over (names_of_files files.entry) task.entry)) result }
    ensures cause { FaultsHaveCauses (scene_of (shelf_of F.Shelf F.D.Disk shelf.old shelf.new)
        (input_of S.Source source.old source.new) (output_of K.Sink sink.old sink.new)
        (links_of L.Links links.old links.new)) result }
    ensures always { Always (scene_of (shelf_of F.Shelf F.D.Disk shelf.old shelf.new)
        (input_of S.Source source.old source.new) (output_of K.Sink sink.old sink.new)
        (links_of L.Links links.old links.new)) }
{
    let inputs = match read_files(alloc, shelf, &files) {
        Ok(inputs) => inputs,
        Err(end) => return CommandEnd::Files(end),
    };
    let users = inputs.policy.users.as_slice();
    let header = &inputs.header;
    let directory = files.journals;
    let registry = Registry {
        schema: &inputs.policy.schema,
        world: &inputs.world,
        users,
        header,
        directory,
    };
    match task {
        Task::Init => {
            let end = run_init(alloc, users, header, directory, shelf);
            CommandEnd::Init(inputs.policy.users, end)
        }
        Task::Batch(workers) => {
            let end = run_batch(rt, alloc, &registry, workers, shelf, source, sink, gate);
            CommandEnd::Batch(inputs.policy.users, end)
        }
        Task::Migrate(to) => {
            let end = run_migrate(alloc, users, header, directory, to, shelf);
            CommandEnd::Migrate(inputs.policy.users, end)
        }
        Task::Serve(listening) => {
            law_openings();
            let end = run_serve(rt, alloc, &registry, shelf, links, listening, gate);
            CommandEnd::Serve(inputs.policy.users, end)
        }
        Task::Standby(copying) => {
            let end = run_standby(rt, alloc, users, header, directory, shelf, links, copying);
            CommandEnd::Standby(inputs.policy.users, end)
        }
    }
}
