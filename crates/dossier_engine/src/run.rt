//! The dossier of a user whose journal lies on a shelf.
ghost use Rattle.std.specs.Prelude.{◌≡◌, ◌≤◌, List, ℕ, false, string_bytes};
ghost use Rattle.outside.specs.Disk.{Only};
ghost use Rattle.outside.specs.Faults.{Rose};
ghost use Rattle.outside.specs.Shelf.{bytes_on, image_on, SameOthers, SameNames};
ghost use Rattle.cqe_base.specs.History.{profile_of};
ghost use Rattle.cqe_base.specs.Limits.{KeepsLimits};
ghost use Rattle.log_journal.specs.Names.{journal_name};
ghost use Rattle.log_journal.specs.Opening.{header_bytes};
ghost use Rattle.outside.specs.Shelf.{NoneOut, NoneFell, SameBytes, NoNewImages, NoNewMoments};
ghost use Rattle.dossier_engine.specs.Ends.{EndsDossier, IsDiskRefusal, JudgesDossier};
ghost use Rattle.dossier_engine.specs.declared.end.DossierEnd.{DossierEnd};

use crate::end::DossierEnd;
use crate::show::show_disk;
use cqe_base::user::User;
use desk_crew::Registry;
use log_journal::journal_name;
use outside::{Shelf, ShelfError, Sink};
use std::alloc::Global;

/// Writes the dossier of a user of the registry: the history of his journal, the disk
/// `DIRECTORY/NAME.log`, with what shows each reply, or one line where he isn't served. That disk
/// is opened and given back on every path, with the bytes that it had.
pub fn run_dossier<'w, F: Shelf, K: Sink>(
    alloc: Global,
    registry: &Registry<'w>,
    user: &'w User,
    shelf: &mut F,
    sink: &mut K,
) -> DossierEnd
    requires limits { KeepsLimits registry.now.schema.now (profile_of user.now) }
    requires inside { NoneOut (F.is_out shelf.old) }
    ensures ends { F.tells → K.tells → EndsDossier registry.now.schema.now registry.now.world.now
        (header_bytes registry.now.header.now) (string_bytes user.now.name) (profile_of user.now)
        (bytes_on F.D.reads
        (F.disk shelf.old
        (journal_name registry.now.directory.now (string_bytes user.now.name))))
        (F.disk_faults shelf.old
        (journal_name registry.now.directory.now (string_bytes user.now.name)))
        (F.disk_faults shelf.new
        (journal_name registry.now.directory.now (string_bytes user.now.name)))
        result (K.written sink.old) (K.written sink.new) }
    ensures judged { F.tells → JudgesDossier registry.now.schema.now registry.now.world.now
        (header_bytes registry.now.header.now) (string_bytes user.now.name) (profile_of user.now)
        (bytes_on F.D.reads
        (F.disk shelf.old
        (journal_name registry.now.directory.now (string_bytes user.now.name))))
        (F.disk_faults shelf.old
        (journal_name registry.now.directory.now (string_bytes user.now.name)))
        (F.disk_faults shelf.new
        (journal_name registry.now.directory.now (string_bytes user.now.name)))
        result }
    ensures silent_fault { result ≡ DossierEnd.ShelfFault → sink.new ≡ sink.old }
    ensures silent_memory { result ≡ DossierEnd.Memory → sink.new ≡ sink.old }
    ensures disks { SameOthers
        (journal_name registry.now.directory.now (string_bytes user.now.name)) (F.disk shelf.old)
        (F.disk shelf.new) }
    ensures bytes { F.tells → SameBytes F.D.reads (F.disk shelf.old) (F.disk shelf.new) }
    ensures images { F.tells → NoNewImages F.D.image (F.disk shelf.old) (F.disk shelf.new) }
    ensures moments { F.tells → NoNewMoments F.D.moment F.D.image_since F.D.image
        (F.disk shelf.old) (F.disk shelf.new) }
    ensures durable { F.tells → result ≡ DossierEnd.Done → Only
        (bytes_on F.D.reads
        (F.disk shelf.old
        (journal_name registry.now.directory.now (string_bytes user.now.name))))
        (image_on F.D.image
        (F.disk shelf.new
        (journal_name registry.now.directory.now (string_bytes user.now.name)))) }
    ensures inside { NoneOut (F.is_out shelf.new) }
    ensures files { SameNames (F.file shelf.old) (F.file shelf.new) }
    ensures looked { F.looked shelf.new ≡ F.looked shelf.old }
    ensures counts { NoneFell (F.disk_faults shelf.old) (F.disk_faults shelf.new) }
    ensures other_counts { SameOthers
        (journal_name registry.now.directory.now (string_bytes user.now.name))
        (F.disk_faults shelf.old) (F.disk_faults shelf.new) }
    ensures shelf_later { F.faults shelf.old ≤ F.faults shelf.new }
    ensures sink_later { K.faults sink.old ≤ K.faults sink.new }
    ensures write_cause { result ≡ DossierEnd.WriteFault
        → Rose (K.faults sink.old) (K.faults sink.new) }
    ensures shelf_cause { result ≡ DossierEnd.ShelfFault
        → Rose (F.faults shelf.old) (F.faults shelf.new) }
    ensures journal_cause { IsDiskRefusal result → Rose
        (F.disk_faults shelf.old
        (journal_name registry.now.directory.now (string_bytes user.now.name)))
        (F.disk_faults shelf.new
        (journal_name registry.now.directory.now (string_bytes user.now.name))) }
{
    let Ok(journal) = journal_name(alloc, registry.directory, user.name.as_str()) else {
        return DossierEnd::Memory;
    };
    dossier_of_journal(alloc, registry, user, journal.as_str(), shelf, sink)
}

// The same, by the name of the journal's disk.
fn dossier_of_journal<'w, F: Shelf, K: Sink>(
    alloc: Global,
    registry: &Registry<'w>,
    user: &'w User,
    journal: &str,
    shelf: &mut F,
    sink: &mut K,
) -> DossierEnd
    requires limits { KeepsLimits registry.now.schema.now (profile_of user.now) }
    requires inside { NoneOut (F.is_out shelf.old) }
    ensures ends { F.tells → K.tells → EndsDossier registry.now.schema.now registry.now.world.now
        (header_bytes registry.now.header.now) (string_bytes user.now.name) (profile_of user.now)
        (bytes_on F.D.reads (F.disk shelf.old journal.now)) (F.disk_faults shelf.old journal.now)
        (F.disk_faults shelf.new journal.now)
        result (K.written sink.old) (K.written sink.new) }
    ensures judged { F.tells → JudgesDossier registry.now.schema.now registry.now.world.now
        (header_bytes registry.now.header.now) (string_bytes user.now.name) (profile_of user.now)
        (bytes_on F.D.reads (F.disk shelf.old journal.now)) (F.disk_faults shelf.old journal.now)
        (F.disk_faults shelf.new journal.now) result }
    ensures silent_fault { result ≡ DossierEnd.ShelfFault → sink.new ≡ sink.old }
    ensures silent_memory { result ≡ DossierEnd.Memory → sink.new ≡ sink.old }
    ensures disks { SameOthers journal.now (F.disk shelf.old) (F.disk shelf.new) }
    ensures bytes { F.tells → bytes_on F.D.reads (F.disk shelf.new journal.now)
        ≡ bytes_on F.D.reads (F.disk shelf.old journal.now) }
    ensures images { F.tells → (c : List ℕ) → image_on F.D.image (F.disk shelf.new journal.now) c
        → image_on F.D.image (F.disk shelf.old journal.now) c }
    ensures moments { F.tells → NoNewMoments F.D.moment F.D.image_since F.D.image
        (F.disk shelf.old) (F.disk shelf.new) }
    ensures durable { F.tells → result ≡ DossierEnd.Done
        → Only (bytes_on F.D.reads (F.disk shelf.old journal.now))
        (image_on F.D.image (F.disk shelf.new journal.now)) }
    ensures inside { NoneOut (F.is_out shelf.new) }
    ensures files { SameNames (F.file shelf.old) (F.file shelf.new) }
    ensures looked { F.looked shelf.new ≡ F.looked shelf.old }
    ensures counts { NoneFell (F.disk_faults shelf.old) (F.disk_faults shelf.new) }
    ensures other_counts { SameOthers journal.now (F.disk_faults shelf.old)
        (F.disk_faults shelf.new) }
    ensures shelf_later { F.faults shelf.old ≤ F.faults shelf.new }
    ensures sink_later { K.faults sink.old ≤ K.faults sink.new }
    ensures write_cause { result ≡ DossierEnd.WriteFault
        → Rose (K.faults sink.old) (K.faults sink.new) }
    ensures shelf_cause { result ≡ DossierEnd.ShelfFault
        → Rose (F.faults shelf.old) (F.faults shelf.new) }
    ensures journal_cause { IsDiskRefusal result
        → Rose (F.disk_faults shelf.old journal.now) (F.disk_faults shelf.new journal.now) }
{
    match shelf.take_disk(alloc, journal) {
        Ok(disk) => {
            let (disk, end) = show_disk(alloc, registry, user, disk, sink);
            shelf.give_disk(journal, disk);
            end
        }
        Err(ShelfError::Memory) => DossierEnd::Memory,
        Err(ShelfError::Missing) => DossierEnd::ShelfFault,
        Err(ShelfError::Failed) => DossierEnd::ShelfFault,
    }
}
