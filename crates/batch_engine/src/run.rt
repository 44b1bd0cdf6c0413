//! A batch from its first byte to its last line.

ghost use Rattle.std.specs.Prelude.{◌≡◌, ◌<◌, ◌≤◌, [], map, length, All, vec_len, vec_capacity};
ghost use Rattle.std.specs.Prelude.{IfOk, IfErr, OnOk, IsErrOf, IfSome, OnSome, IfNone};
ghost use Rattle.outside.specs.Faults.{Rose};
ghost use Rattle.outside.specs.Shelf.{SameNames};
ghost use Rattle.line_protocol.specs.Rests.{IsRest};
ghost use Rattle.log_journal.specs.Opening.{header_bytes};
ghost use Rattle.desk_crew.specs.Crew.{named_user};
ghost use Rattle.outside.specs.Shelf.{NoneOut, NoneFell, SomeRose, SameBeside};
ghost use Rattle.desk_crew.specs.Shelved.{journals_on, StaysThere};
ghost use Rattle.desk_crew.specs.Registered.{AllKeepLimits, registered_journals, HaveOwnNames};
ghost use Rattle.batch_engine.specs.BatchOf.{items_of};
ghost use Rattle.batch_engine.specs.Batches.{AreShort, stretch_in, ended_in};
ghost use Rattle.batch_engine.specs.Answers.{says_broken};
ghost use Rattle.batch_engine.specs.Stretches.{CanServe, InOrder, AllBack};
ghost use Rattle.batch_engine.specs.Steps.{RunsAll, IsAnswered, IsStopped};
ghost use Rattle.batch_engine.specs.Batch.{EndsBatch, LeavesJournals, IsUnopened, IsSilent};
ghost use Rattle.batch_engine.specs.Batch.{IsBroken, IsDiskRefusal};
ghost use Rattle.batch_engine.specs.declared.closed.Stopped.{Stopped};
ghost use Rattle.batch_engine.specs.declared.run.BatchEnd.{BatchEnd};

use crate::answer::{Answer, restarted};
use crate::batch::{Batch, BatchAsk};
use crate::closed::{Stopped, write_again, write_behind};
use crate::post::answer_stretch;
use cqe_base::laws::{law_legal_grows, law_private, law_runs_legal, law_scripts_hide};
use cqe_base::text::ScriptError;
use desk_counter::{Owned, TicketedDesk};
use desk_crew::{
    DeskSeat, NotOpened, Registry, Seat, give_back, open_all, refusals_of, reopen_all, room_for,
};
use log_journal::law_journals_differ;
use outside::{Disk, Gate, Shelf, Sink, Source};
use script_lines::{Reading, read_script};
use std::alloc::Global;
use std::sync::Wait;
use std::thread::Threads;
use user_desk::DeskError;
use user_desk::laws::law_openings;

/// How a batch ends.
#[derive(Debug, Drop)]
pub enum BatchEnd {
    /// Each item was answered. Of each user, in order, there is the first refusal of his journal,
    /// if one was; and it says whether some ask was answered that an append failed.
    Done(Vec<Option<DeskError>>, bool),
    /// The script is refused. Nothing was written.
    Script(ScriptError),
    /// A read failed. Nothing was written.
    ReadFault,
    /// A write failed.
    WriteFault,
    /// The shelf failed. Nothing was written.
    ShelfFault,
    /// Memory was wanting where no reply can say so.
    Memory,
}

/// Whether one of the lines says that an append failed.
fn says_broken(answers: &[Answer]) -> bool
    ensures { result ≡ says_broken answers.now }
{
    answers.iter().any(|answer| answer.is_broken)
}

/// What was told in a stretch.
#[derive(Drop)]
struct Told<'w, V: Owned> {
    /// The seats behind it.
    seats: Vec<Seat<'w, V>>,
    /// The answers in any order, in a list with room for one more.
    answers: Vec<Answer>,
    /// Whether some answer says that an append failed.
    is_broken: bool,
}

/// Answers the asks of a stretch. For want of memory none was answered, and all disks are back.
fn answer_asks<'w, R: Threads + Wait + Sync, G: Gate + Sync, F: Shelf>(
    rt: &R,
    alloc: Global,
    registry: &Registry<'w>,
    workers: u32,
    shelf: &mut F,
    seats: Vec<DeskSeat<'w, F::D>>,
    asks: &[BatchAsk],
    gate: &G,
) -> Option<Told<'w, TicketedDesk<'w, F::D>>>
where
    F::D: Send,
    requires some { 1 ≤ workers }
    requires short { AreShort asks.now }
    requires can { CanServe registry.now.schema.now registry.now.world.now
        (header_bytes registry.now.header.now) F.D.Disk
        (registered_journals registry.now.directory.now registry.now.users.now) seats.items
        (F.is_out shelf.old) (F.disk_faults shelf.old) (F.lent shelf.old).origin }
    ensures told { IfSome result (λ told. InOrder registry.now.schema.now registry.now.world.now
        (header_bytes registry.now.header.now) F.D.Disk (stretch_in asks.now) seats.entry.items
        told.seats.items told.answers.items told.is_broken) }
    ensures below { IfSome result (λ told. All (λ line. line.number < length asks.now)
        told.answers.items) }
    ensures spare { IfSome result (λ told. vec_len told.answers < vec_capacity told.answers) }
    ensures can { IfSome result (λ told. CanServe registry.now.schema.now registry.now.world.now
        (header_bytes registry.now.header.now) F.D.Disk
        (registered_journals registry.now.directory.now registry.now.users.now) told.seats.items
        (F.is_out shelf.old) (F.disk_faults shelf.old) (F.lent shelf.old).origin) }
    ensures untouched { OnSome result (shelf.new ≡ shelf.old) }
    ensures back { IfNone result (AllBack F.Shelf F.D.Disk shelf.old shelf.new
        seats.entry.items) }
    ensures faults { F.faults shelf.new ≡ F.faults shelf.old }
    ensures files { SameNames (F.file shelf.old) (F.file shelf.new) }
    ensures looked { F.looked shelf.new ≡ F.looked shelf.old }
    ensures lent { F.lent shelf.new ≡ F.lent shelf.old }
{
    let (seats, answers) = match answer_stretch(rt, alloc, workers, seats, asks, gate) {
        Ok(told) => told,
        Err(seats) => {
            give_back(shelf, seats);
            return None;
        }
    };
    let is_broken = says_broken(answers.as_slice());
    Some(Told {
        seats,
        answers,
        is_broken,
    })
}

/// Answers a stretch that a restart ends: closes its counters and opens all journals again, and
/// only then writes its lines and that of the restart. There are the seats behind it, and whether
/// some line says that an append failed; where it stops, all disks are back.
fn answer_ended<'w, R: Threads + Wait + Sync, G: Gate + Sync, F: Shelf, K: Sink>(
    rt: &R,
    alloc: Global,
    registry: &Registry<'w>,
    workers: u32,
    shelf: &mut F,
    seats: Vec<DeskSeat<'w, F::D>>,
    asks: &[BatchAsk],
    sink: &mut K,
    gate: &G,
) -> Result<(Vec<DeskSeat<'w, F::D>>, bool), Stopped>
where
    F::D: Send,
    requires some { 1 ≤ workers }
    requires short { AreShort asks.now }
    requires can { CanServe registry.now.schema.now registry.now.world.now
        (header_bytes registry.now.header.now) F.D.Disk
        (registered_journals registry.now.directory.now registry.now.users.now) seats.items
        (F.is_out shelf.old) (F.disk_faults shelf.old) (F.lent shelf.old).origin }
    ensures again { IfOk result (λ told. RunsAll registry.now.schema.now registry.now.world.now
        (header_bytes registry.now.header.now) F.D.Disk K.tells (ended_in asks.now)
        seats.entry.items told.0.items told.1 (K.written sink.old) (K.written sink.new)) }
    ensures untouched { OnOk result (shelf.new ≡ shelf.old) }
    ensures stopped { IfErr result (λ why. IsStopped registry.now.schema.now registry.now.world.now
        (header_bytes registry.now.header.now) F.D.Disk K.tells
        (λ left. AllBack F.Shelf F.D.Disk shelf.old shelf.new left) (ended_in asks.now)
        seats.entry.items (K.written sink.old) (K.written sink.new) why) }
    ensures faults { F.faults shelf.new ≡ F.faults shelf.old }
    ensures files { SameNames (F.file shelf.old) (F.file shelf.new) }
    ensures looked { F.looked shelf.new ≡ F.looked shelf.old }
    ensures lent { F.lent shelf.new ≡ F.lent shelf.old }
    ensures sink_later { K.faults sink.old ≤ K.faults sink.new }
    ensures cause { IsErrOf result Stopped.Write → Rose (K.faults sink.old) (K.faults sink.new) }
{
    let Some(told) = answer_asks(rt, alloc, registry, workers, shelf, seats, asks, gate) else {
        return Err(Stopped::Memory);
    };
    let mut answers = told.answers;
    let Some(seats) = reopen_all(rt, alloc, registry, workers as usize, shelf, told.seats) else {
        write_behind(rt, alloc, answers, sink, registry, shelf)?;
        return Err(Stopped::Memory);
    };
    answers.push_reserved(restarted(asks.len()));
    match write_again(rt, alloc, answers, sink, seats.as_slice()) {
        Ok(()) => Ok((seats, told.is_broken)),
        Err(why) => {
            give_back(shelf, seats);
            Err(why)
        }
    }
}

/// Answers the last stretch: gives all disks back, and only then writes its lines. There is of each
/// user the first refusal of his journal, if one was, and whether some line says that an append
/// failed.
fn answer_last<'w, R: Threads + Wait + Sync, G: Gate + Sync, F: Shelf, K: Sink>(
    rt: &R,
    alloc: Global,
    registry: &Registry<'w>,
    workers: u32,
    shelf: &mut F,
    seats: Vec<DeskSeat<'w, F::D>>,
    asks: &[BatchAsk],
    room: Vec<Option<DeskError>>,
    sink: &mut K,
    gate: &G,
) -> Result<(Vec<Option<DeskError>>, bool), Stopped>
where
    F::D: Send,
    requires some { 1 ≤ workers }
    requires short { AreShort asks.now }
    requires can { CanServe registry.now.schema.now registry.now.world.now
        (header_bytes registry.now.header.now) F.D.Disk
        (registered_journals registry.now.directory.now registry.now.users.now) seats.items
        (F.is_out shelf.old) (F.disk_faults shelf.old) (F.lent shelf.old).origin }
    requires empty { room.items ≡ [] }
    requires refusals { length seats.items ≤ vec_capacity room }
    ensures answered { IfOk result (λ told. IsAnswered registry.now.schema.now
        registry.now.world.now (header_bytes registry.now.header.now) F.D.Disk K.tells
        (λ left. AllBack F.Shelf F.D.Disk shelf.old shelf.new left) (stretch_in asks.now)
        seats.entry.items (K.written sink.old) (K.written sink.new) told.0.items told.1) }
    ensures stopped { IfErr result (λ why. IsStopped registry.now.schema.now registry.now.world.now
        (header_bytes registry.now.header.now) F.D.Disk K.tells
        (λ left. AllBack F.Shelf F.D.Disk shelf.old shelf.new left) (stretch_in asks.now)
        seats.entry.items (K.written sink.old) (K.written sink.new) why) }
    ensures faults { F.faults shelf.new ≡ F.faults shelf.old }
    ensures files { SameNames (F.file shelf.old) (F.file shelf.new) }
    ensures looked { F.looked shelf.new ≡ F.looked shelf.old }
    ensures lent { F.lent shelf.new ≡ F.lent shelf.old }
    ensures sink_later { K.faults sink.old ≤ K.faults sink.new }
    ensures cause { IsErrOf result Stopped.Write → Rose (K.faults sink.old) (K.faults sink.new) }
{
    let Some(told) = answer_asks(rt, alloc, registry, workers, shelf, seats, asks, gate) else {
        return Err(Stopped::Memory);
    };
    let refusals = refusals_of(room, told.seats.as_slice());
    give_back(shelf, told.seats);
    write_behind(rt, alloc, told.answers, sink, registry, shelf)?;
    Ok((refusals, told.is_broken))
}

/// Answers the items of a batch, stretch by stretch, the users of a stretch side by side. All disks
/// are given back.
fn answer_all<'w, R: Threads + Wait + Sync, G: Gate + Sync, F: Shelf, K: Sink>(
    rt: &R,
    alloc: Global,
    registry: &Registry<'w>,
    workers: u32,
    shelf: &mut F,
    seats: Vec<DeskSeat<'w, F::D>>,
    batch: &Batch,
    room: Vec<Option<DeskError>>,
    sink: &mut K,
    gate: &G,
) -> Result<(Vec<Option<DeskError>>, bool), Stopped>
where
    F::D: Send,
    requires some { 1 ≤ workers }
    requires can { CanServe registry.now.schema.now registry.now.world.now
        (header_bytes registry.now.header.now) F.D.Disk
        (registered_journals registry.now.directory.now registry.now.users.now) seats.items
        (F.is_out shelf.old) (F.disk_faults shelf.old) (F.lent shelf.old).origin }
    requires empty { room.items ≡ [] }
    requires refusals { length seats.items ≤ vec_capacity room }
    ensures answered { IfOk result (λ told. IsAnswered registry.now.schema.now
        registry.now.world.now (header_bytes registry.now.header.now) F.D.Disk K.tells
        (λ left. AllBack F.Shelf F.D.Disk shelf.old shelf.new left) (items_of batch.now)
        seats.entry.items (K.written sink.old) (K.written sink.new) told.0.items told.1) }
    ensures stopped { IfErr result (λ why. IsStopped registry.now.schema.now registry.now.world.now
        (header_bytes registry.now.header.now) F.D.Disk K.tells
        (λ left. AllBack F.Shelf F.D.Disk shelf.old shelf.new left) (items_of batch.now)
        seats.entry.items (K.written sink.old) (K.written sink.new) why) }
    ensures faults { F.faults shelf.new ≡ F.faults shelf.old }
    ensures files { SameNames (F.file shelf.old) (F.file shelf.new) }
    ensures looked { F.looked shelf.new ≡ F.looked shelf.old }
    ensures lent { F.lent shelf.new ≡ F.lent shelf.old }
    ensures sink_later { K.faults sink.old ≤ K.faults sink.new }
    ensures cause { IsErrOf result Stopped.Write → Rose (K.faults sink.old) (K.faults sink.new) }
{
    let mut seats = seats;
    let mut is_broken = false;
    for asks in batch.ended() {
        let asks = asks.as_slice();
        let told = answer_ended(rt, alloc, registry, workers, shelf, seats, asks, sink, gate)?;
        seats = told.0;
        is_broken |= told.1;
    }
    let asks = batch.last();
    let last = answer_last(
        rt, alloc, registry, workers, shelf, seats, asks, room, sink, gate,
    )?;
    Ok((last.0, is_broken | last.1))
}

/// Reads the whole script of a batch from the source, refuses it before the first ask, or opens the
/// journals of all users and answers its asks with one line each, stretch by stretch: a stretch is
/// what stands between two restarts. The users of a stretch are answered side by side, by so many
/// workers, 1 to 64. Each desk stands under a counter, at which an ask is settled as those of
/// threads are, and passes the gate. At the end of a stretch all counters are closed, and only then
/// its lines are written, in the order of the script. A restart opens every desk again from its
/// disk. All disks are given back on every path. It may wait, at the counters and at the gate.
///
/// No clause says how many threads run.
pub fn run_batch<R: Threads + Wait + Sync, F: Shelf, S: Source, K: Sink, G: Gate + Sync>(
    rt: &R,
    alloc: Global,
    registry: &Registry<'_>,
    workers: u32,
    shelf: &mut F,
    source: &mut S,
    sink: &mut K,
    gate: &G,
) -> BatchEnd
where
    F::D: Send,
    requires some { 1 ≤ workers }
    requires few { workers ≤ 64 }
    requires limits { AllKeepLimits registry.now.schema.now registry.now.users.now }
    requires names { HaveOwnNames registry.now.users.now }
    requires inside { NoneOut (F.is_out shelf.old) }
    ensures ends { F.tells → S.tells → K.tells
        → EndsBatch registry.now.schema.now registry.now.world.now
        (header_bytes registry.now.header.now)
        (journals_on F.Shelf F.D.Disk registry.now.directory.now shelf.old shelf.new)
        (map named_user registry.now.users.now) result (S.left source.old) (S.left source.new)
        (K.written sink.old)
        (K.written sink.new) }

    // The same of the journals alone, where neither the script nor the output is told.
    ensures journals { F.tells → LeavesJournals registry.now.schema.now registry.now.world.now
        (header_bytes registry.now.header.now)
        (journals_on F.Shelf F.D.Disk registry.now.directory.now shelf.old shelf.new)
        (map named_user registry.now.users.now) result }

    // No disk but the users' journals is touched, and all are back. What was told of is a record
    // that lies there.
    ensures disks { SameBeside
        (registered_journals registry.now.directory.now registry.now.users.now) (F.disk shelf.old)
        (F.disk shelf.new) }
    ensures there { F.tells → StaysThere F.D.Disk (F.disk shelf.old) (F.disk shelf.new) }
    ensures inside { NoneOut (F.is_out shelf.new) }
    ensures files { SameNames (F.file shelf.old) (F.file shelf.new) }
    ensures looked { F.looked shelf.new ≡ F.looked shelf.old }
    ensures lent { F.lent shelf.new ≡ F.lent shelf.old }
    ensures counts { NoneFell (F.disk_faults shelf.old) (F.disk_faults shelf.new) }
    ensures other_counts { SameBeside
        (registered_journals registry.now.directory.now registry.now.users.now)
        (F.disk_faults shelf.old) (F.disk_faults shelf.new) }
    ensures unopened { IsUnopened result → shelf.new ≡ shelf.old }
    ensures silent { IsSilent result → sink.new ≡ sink.old }
    ensures left { S.tells → IsRest (S.left source.old) (S.left source.new) }
    ensures held { S.held source.new ≡ S.held source.old }
    ensures shelf_later { F.faults shelf.old ≤ F.faults shelf.new }
    ensures source_later { S.faults source.old ≤ S.faults source.new }
    ensures sink_later { K.faults sink.old ≤ K.faults sink.new }
    ensures read_cause { result ≡ BatchEnd.ReadFault
        → Rose (S.faults source.old) (S.faults source.new) }
    ensures write_cause { result ≡ BatchEnd.WriteFault
        → Rose (K.faults sink.old) (K.faults sink.new) }
    ensures shelf_cause { result ≡ BatchEnd.ShelfFault
        → Rose (F.faults shelf.old) (F.faults shelf.new) }
    ensures disk_cause { IsBroken result
        → SomeRose (F.disk_faults shelf.old) (F.disk_faults shelf.new) }
    ensures journal_cause { IsDiskRefusal result
        → SomeRose (F.disk_faults shelf.old) (F.disk_faults shelf.new) }
{
    let batch = match read_script(alloc, source, Batch::new(alloc)) {
        Reading::Whole(batch) => batch,
        Reading::Refused(error) => return BatchEnd::Script(error),
        Reading::Fault => return BatchEnd::ReadFault,
        Reading::Memory => return BatchEnd::Memory,
    };
    law_legal_grows();
    law_private();
    law_runs_legal();
    law_scripts_hide();
    law_openings();
    law_journals_differ();
    registry.schema.known();
    let Ok(room) = room_for(alloc, registry.users.len()) else {
        return BatchEnd::Memory;
    };
    let seats = match open_all(rt, alloc, registry, workers as usize, shelf) {
        Ok(seats) => seats,
        Err(NotOpened::Shelf) => return BatchEnd::ShelfFault,
        Err(NotOpened::Memory) => return BatchEnd::Memory,
    };
    match answer_all(
        rt, alloc, registry, workers, shelf, seats, &batch, room, sink, gate,
    ) {
        Ok(told) => BatchEnd::Done(told.0, told.1),
        Err(Stopped::Write) => BatchEnd::WriteFault,
        Err(Stopped::Memory) => BatchEnd::Memory,
    }
}
