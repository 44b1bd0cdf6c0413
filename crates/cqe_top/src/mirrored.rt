//! The commands `batch` and `serve` with a standby, which copies their journals.
ghost use Rattle.std.specs.Prelude.{◌≡◌, ◌⊎◌, ◌≤◌, ◌<◌, ◌+◌, ◌++◌, ◌∷◌, ◌^◌, [], List, ℕ, Some};
ghost use Rattle.std.specs.Prelude.{map, length, false};
ghost use Rattle.outside.specs.Faults.{Rose};
ghost use Rattle.outside.specs.Shelf.{SameNames, SameBeside, NoneOut, NoneFell, SomeRose};
ghost use Rattle.outside.specs.Shelf.{bytes_on};
ghost use Rattle.outside.specs.Visits.{door_place_of};
ghost use Rattle.batch_engine.specs.Batch as batch;
ghost use Rattle.command_words.specs.Readings.{names_of_files};
ghost use Rattle.desk_crew.specs.Crew.{named_user};
ghost use Rattle.desk_crew.specs.Registered.{AllKeepLimits, HaveOwnNames, registered_journals};
ghost use Rattle.line_protocol.specs.Rests.{IsRest};
ghost use Rattle.log_journal.specs.Opening.{header_bytes};
ghost use Rattle.serve_engine.specs.Serving as serving;
ghost use Rattle.serve_engine.specs.Serving.{IsDone};
ghost use Rattle.standby_core.specs.MirrorSets.{slots_of, dial_faults, dial_marks, DialsLie};
ghost use Rattle.standby_core.specs.MirrorSets.{DialsSilent};
ghost use Rattle.standby_core.specs.Places.{is_away};
ghost use Rattle.standby_core.specs.Slots.{place_at, slot_texts, there_among};
ghost use Rattle.cqe_top.specs.Promise.{Does};
ghost use Rattle.cqe_top.specs.Scene.{scene_of, shelf_of, input_of, output_of, links_of};
ghost use Rattle.cqe_top.specs.Steps.{reading_mirrored, KeepsMirroredBounds, mirrored_journals};
ghost use Rattle.cqe_top.specs.Steps.{mirrored_counts};
ghost use Rattle.batch_engine.specs.declared.run.BatchEnd.{BatchEnd};
ghost use Rattle.serve_engine.specs.declared.run.ServeEnd.{ServeEnd};

use crate::end::{CommandEnd, FilesEnd};
use crate::files::read_files;
use batch_engine::{BatchEnd, run_batch};
use command_words::Files;
use desk_crew::Registry;
use outside::{Dial, Gate, Links, Shelf, Sink, Source};
use serve_engine::{Listening, ServeEnd, run_serve};
use standby_core::{MirroredShelf, Mirrors, hang_up_all, mirrors_for};
use std::alloc::{AllocError, Global};
use std::sync::Wait;
use std::thread::Threads;
use user_desk::laws::law_openings;

/// What is done over files with a standby.
#[derive(Clone, Copy)]
pub(crate) enum MirroredTask<'w> {
    /// A batch is answered by so many workers, 1 to 64.
    Batch(u32),
    /// Connections are served.
    Serve(Listening<'w>),
}

/// Reads the files of these names, and does what is to be done over them, with a standby at an
/// address.
pub(crate) fn run_mirrored<
    'w,
    R: Threads + Wait + Sync,
    F: Shelf,
    S: Source,
    K: Sink,
    L: Links,
    G: Gate + Sync,
>(
    rt: &R,
    alloc: Global,
    files: Files<'w>,
    task: MirroredTask<'w>,
    standby: &'w str,
    shelf: &mut F,
    source: &mut S,
    sink: &mut K,
    links: &mut L,
    gate: &G,
) -> CommandEnd<'w>
where
    F::D: Send,
    requires inside { NoneOut (F.is_out shelf.old) }
    requires bounds { KeepsMirroredBounds task }
    ensures does { Does (scene_of (shelf_of F.Shelf F.D.Disk shelf.old shelf.new)
        (input_of S.Source source.old source.new) (output_of K.Sink sink.old sink.new)
        (links_of L.Links links.old links.new))
        (Some (reading_mirrored (names_of_files files.entry) task.entry standby.now)) result }
{
    let inputs = match read_files(alloc, shelf, &files) {
        Ok(inputs) => inputs,
        Err(end) => return CommandEnd::Files(end),
    };
    let users = inputs.policy.users.as_slice();
    let header = &inputs.header;
    let directory = files.journals;
    let registry = Registry {
        schema: &inputs.policy.schema,
        world: &inputs.world,
        users,
        header,
        directory,
    };
    let mut dials = match mirrors_for(alloc, links, standby, header, directory, users) {
        Ok(mirrors) => mirrors,
        Err(AllocError) => return CommandEnd::Files(FilesEnd::Memory),
    };
    match task {
        MirroredTask::Batch(workers) => {
            let end = mirrored_batch(
                rt, alloc, &registry, workers, shelf, &mut dials, source, sink, gate,
            );
            hang_up_all(links, dials);
            CommandEnd::Batch(inputs.policy.users, end)
        }
        MirroredTask::Serve(listening) => {
            law_openings();
            let end = mirrored_serve(
                rt, alloc, &registry, shelf, &mut dials, links, listening, gate,
            );
            hang_up_all(links, dials);
            CommandEnd::Serve(inputs.policy.users, end)
        }
    }
}

// Answers a batch over the journals of a shelf with these mirrors. Of each name the faults of its
// dial are counted with those of its disk.
fn mirrored_batch<
    R: Threads + Wait + Sync,
    F: Shelf,
    C: Dial + Drop + Send,
    S: Source,
    K: Sink,
    G: Gate + Sync,
>(
    rt: &R,
    alloc: Global,
    registry: &Registry<'_>,
    workers: u32,
    shelf: &mut F,
    mirrors: &mut Mirrors<C>,
    source: &mut S,
    sink: &mut K,
    gate: &G,
) -> BatchEnd
where
    F::D: Send,
    requires some { 1 ≤ workers }
    requires few { workers ≤ 64 }
    requires limits { AllKeepLimits registry.now.schema.now registry.now.users.now }
    requires names { HaveOwnNames registry.now.users.now }
    requires inside { NoneOut (F.is_out shelf.old) }
    requires fresh { (name : List ℕ) → dial_faults C.faults mirrors.old name ≡ 0 }
    requires there { (name : List ℕ) → is_away (place_at (slots_of mirrors.old) name) ≡ false }
    requires silent { DialsSilent C.tells C.exchanged mirrors.old }
    ensures made { map (slot_texts C.name C.address) (slots_of mirrors.new)
        ≡ map (slot_texts C.name C.address) (slots_of mirrors.old) }
    ensures all_there { there_among (slots_of mirrors.new) ≡ length (slots_of mirrors.new) }
    ensures none_away { (name : List ℕ)
        → is_away (place_at (slots_of mirrors.new) name) ≡ false }
    ensures lie { F.tells → DialsLie C.tells C.exchanged mirrors.new
        (λ name. bytes_on F.D.reads (F.disk shelf.new name)) }
    ensures ends { F.tells → S.tells → K.tells
        → batch.EndsBatch registry.now.schema.now registry.now.world.now
        (header_bytes registry.now.header.now)
        (mirrored_journals F.Shelf F.D.Disk registry.now.directory.now shelf.old shelf.new
        (dial_faults C.faults mirrors.new)
        (dial_marks C.answered (F.disk shelf.new) mirrors.new))
        (map named_user registry.now.users.now) result (S.left source.old) (S.left source.new)
        (K.written sink.old) (K.written sink.new) }
    ensures journals { F.tells
        → batch.LeavesJournals registry.now.schema.now registry.now.world.now
        (header_bytes registry.now.header.now)
        (mirrored_journals F.Shelf F.D.Disk registry.now.directory.now shelf.old shelf.new
        (dial_faults C.faults mirrors.new)
        (dial_marks C.answered (F.disk shelf.new) mirrors.new))
        (map named_user registry.now.users.now) result }
    ensures disks { SameBeside
        (registered_journals registry.now.directory.now registry.now.users.now) (F.disk shelf.old)
        (F.disk shelf.new) }
    ensures inside { NoneOut (F.is_out shelf.new) }
    ensures files { SameNames (F.file shelf.old) (F.file shelf.new) }
    ensures looked { F.looked shelf.new ≡ F.looked shelf.old }
    ensures counts { NoneFell (F.disk_faults shelf.old)
        (mirrored_counts (F.disk_faults shelf.new) (dial_faults C.faults mirrors.new)) }
    ensures other_counts { SameBeside
        (registered_journals registry.now.directory.now registry.now.users.now)
        (F.disk_faults shelf.old)
        (mirrored_counts (F.disk_faults shelf.new) (dial_faults C.faults mirrors.new)) }
    ensures unopened { batch.IsUnopened result → SameNames (F.disk shelf.old) (F.disk shelf.new)
        × SameNames (F.disk_faults shelf.old)
        (mirrored_counts (F.disk_faults shelf.new) (dial_faults C.faults mirrors.new)) }
    ensures silent { batch.IsSilent result → sink.new ≡ sink.old }
    ensures left { S.tells → IsRest (S.left source.old) (S.left source.new) }
    ensures held { S.held source.new ≡ S.held source.old }
    ensures shelf_later { F.faults shelf.old ≤ F.faults shelf.new }
    ensures source_later { S.faults source.old ≤ S.faults source.new }
    ensures sink_later { K.faults sink.old ≤ K.faults sink.new }
    ensures read_cause { result ≡ BatchEnd.ReadFault
        → Rose (S.faults source.old) (S.faults source.new) }
    ensures write_cause { result ≡ BatchEnd.WriteFault
        → Rose (K.faults sink.old) (K.faults sink.new) }
    ensures shelf_cause { result ≡ BatchEnd.ShelfFault
        → Rose (F.faults shelf.old) (F.faults shelf.new) }
    ensures disk_cause { batch.IsBroken result → SomeRose (F.disk_faults shelf.old)
        (mirrored_counts (F.disk_faults shelf.new) (dial_faults C.faults mirrors.new)) }
    ensures journal_cause { batch.IsDiskRefusal result → SomeRose (F.disk_faults shelf.old)
        (mirrored_counts (F.disk_faults shelf.new) (dial_faults C.faults mirrors.new)) }
{
    let mut mirrored = MirroredShelf::new(shelf, mirrors);
    run_batch(
        rt,
        alloc,
        registry,
        workers,
        &mut mirrored,
        source,
        sink,
        gate,
    )
}

// The same of serving connections.
fn mirrored_serve<
    R: Threads + Wait + Sync,
    F: Shelf,
    C: Dial + Drop + Send,
    L: Links,
    G: Gate + Sync,
>(
    rt: &R,
    alloc: Global,
    registry: &Registry<'_>,
    shelf: &mut F,
    mirrors: &mut Mirrors<C>,
    links: &mut L,
    listening: Listening<'_>,
    gate: &G,
) -> ServeEnd
where
    F::D: Send,
    requires limits { AllKeepLimits registry.now.schema.now registry.now.users.now }
    requires names { HaveOwnNames registry.now.users.now }
    requires inside { NoneOut (F.is_out shelf.old) }
    requires some { 1 ≤ listening.workers }
    requires few { listening.workers ≤ 64 }
    requires most { listening.sessions ≤ 2 ^ 30 }
    requires fresh { (name : List ℕ) → dial_faults C.faults mirrors.old name ≡ 0 }
    requires there { (name : List ℕ) → is_away (place_at (slots_of mirrors.old) name) ≡ false }
    requires silent { DialsSilent C.tells C.exchanged mirrors.old }
    ensures made { map (slot_texts C.name C.address) (slots_of mirrors.new)
        ≡ map (slot_texts C.name C.address) (slots_of mirrors.old) }
    ensures all_there { there_among (slots_of mirrors.new) ≡ length (slots_of mirrors.new) }
    ensures none_away { (name : List ℕ)
        → is_away (place_at (slots_of mirrors.new) name) ≡ false }
    ensures lie { F.tells → DialsLie C.tells C.exchanged mirrors.new
        (λ name. bytes_on F.D.reads (F.disk shelf.new name)) }
    ensures ends { F.tells → L.tells
        → serving.EndsServing registry.now.schema.now registry.now.world.now
        (header_bytes registry.now.header.now)
        (mirrored_journals F.Shelf F.D.Disk registry.now.directory.now shelf.old shelf.new
        (dial_faults C.faults mirrors.new)
        (dial_marks C.answered (F.disk shelf.new) mirrors.new))
        registry.now.users.now (L.given links.old) (L.given links.new) (L.back links.old)
        (L.back links.new) result }
    ensures journals { F.tells
        → serving.LeavesJournals registry.now.schema.now registry.now.world.now
        (header_bytes registry.now.header.now)
        (mirrored_journals F.Shelf F.D.Disk registry.now.directory.now shelf.old shelf.new
        (dial_faults C.faults mirrors.new)
        (dial_marks C.answered (F.disk shelf.new) mirrors.new))
        registry.now.users.now result }
    ensures listens { L.tells → (L.listened links.new ≡ L.listened links.old)
        ⊎ (L.listened links.new
        ≡ L.listened links.old ++ door_place_of listening.entry.address.now listening.entry.workers
        ∷ []) }
    ensures heard { L.tells → IsDone result
        → L.listened links.new
        ≡ L.listened links.old ++ door_place_of listening.entry.address.now listening.entry.workers
        ∷ [] }
    ensures unheard { L.tells → L.listened links.new ≡ L.listened links.old
        → SameNames (F.disk shelf.old) (F.disk shelf.new) × SameNames (F.disk_faults shelf.old)
        (mirrored_counts (F.disk_faults shelf.new) (dial_faults C.faults mirrors.new)) }
    ensures limited { L.tells → L.given links.new ≤ L.given links.old + listening.entry.sessions }
    ensures left { L.tells → L.left links.old ≡ L.at_hand links.old
        → L.left links.new ≡ L.at_hand links.new }
    ensures left_all { L.tells → L.left links.old ≡ L.at_hand links.old
        → L.given links.new + L.left links.new ≡ L.given links.old + L.left links.old }
    ensures few_ended { L.ended links.new ≤ L.ended links.old + listening.entry.workers }
    ensures ended { L.tells → IsDone result
        → (L.at_hand links.new ≡ 0)
        ⊎ ((L.given links.old + listening.entry.sessions + L.ended links.old
        ≤ L.given links.new + L.ended links.new)
        × (L.given links.old + listening.entry.sessions
        < L.given links.new + listening.entry.workers)) }
    ensures disks { SameBeside
        (registered_journals registry.now.directory.now registry.now.users.now) (F.disk shelf.old)
        (F.disk shelf.new) }
    ensures inside { NoneOut (F.is_out shelf.new) }
    ensures files { SameNames (F.file shelf.old) (F.file shelf.new) }
    ensures looked { F.looked shelf.new ≡ F.looked shelf.old }
    ensures counts { NoneFell (F.disk_faults shelf.old)
        (mirrored_counts (F.disk_faults shelf.new) (dial_faults C.faults mirrors.new)) }
    ensures other_counts { SameBeside
        (registered_journals registry.now.directory.now registry.now.users.now)
        (F.disk_faults shelf.old)
        (mirrored_counts (F.disk_faults shelf.new) (dial_faults C.faults mirrors.new)) }
    ensures out { L.out links.new ≡ L.out links.old }
    ensures dialling { L.dialling links.new ≡ L.dialling links.old }
    ensures exchanged { L.tells → L.exchanged links.new ≡ L.exchanged links.old }
    ensures exchange_faults { SameNames (L.exchange_faults links.old)
        (L.exchange_faults links.new) }
    ensures shelf_later { F.faults shelf.old ≤ F.faults shelf.new }
    ensures links_later { L.faults links.old ≤ L.faults links.new }
    ensures shelf_cause { result ≡ ServeEnd.ShelfFault
        → Rose (F.faults shelf.old) (F.faults shelf.new) }
    ensures links_cause { result ≡ ServeEnd.LinksFault
        → Rose (L.faults links.old) (L.faults links.new) }
    ensures disk_cause { serving.IsBroken result → SomeRose (F.disk_faults shelf.old)
        (mirrored_counts (F.disk_faults shelf.new) (dial_faults C.faults mirrors.new)) }
    ensures journal_cause { serving.IsDiskRefusal result → SomeRose (F.disk_faults shelf.old)
        (mirrored_counts (F.disk_faults shelf.new) (dial_faults C.faults mirrors.new)) }
{
    let mut mirrored = MirroredShelf::new(shelf, mirrors);
    run_serve(rt, alloc, registry, &mut mirrored, links, listening, gate)
}
