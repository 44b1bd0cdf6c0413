//! What is done with one user: his old journal is read, and then its records are written.
ghost use Rattle.std.specs.Prelude.{◌≡◌, ◌≤◌, false, bytes_eq, OnOk, IfErr};
ghost use Rattle.outside.specs.Shelf.{SameNames, NoneFell, bytes_on};
ghost use Rattle.log_journal.specs.Names.{journal_name};
ghost use Rattle.log_journal.specs.Opening.{header_bytes};
ghost use Rattle.init_engine.specs.Stops.{Stays};
ghost use Rattle.migrate_engine.specs.Moves.{IsMoved, SameBut};
ghost use Rattle.migrate_engine.specs.Stops.{HasReason, LeavesTarget, changed};

use crate::end::Stop;
use crate::source::read_source;
use crate::target::fill_target;
use log_journal::{Header, journal_name};
use outside::Shelf;
use std::alloc::Global;

/// Moves the journal of the user of this name. Whatever comes, both disks are given back, and the
/// old one as it was.
pub(crate) fn serve<F: Shelf>(
    alloc: Global,
    name: &str,
    header: &Header,
    from: &str,
    to: &str,
    shelf: &mut F,
) -> Result<(), Stop>
    requires source { F.is_out shelf.old (journal_name from.now name.now) ≡ false }
    requires target { F.is_out shelf.old (journal_name to.now name.now) ≡ false }
    requires apart { bytes_eq (journal_name from.now name.now) (journal_name to.now name.now)
        ≡ false }
    ensures moved { F.tells → OnOk result (IsMoved F.D.Disk (header_bytes header.now)
        (F.disk shelf.old (journal_name from.now name.now))
        (F.disk shelf.old (journal_name to.now name.now))
        (F.disk shelf.new (journal_name to.now name.now))) }
    ensures reason { IfErr result (HasReason F.tells F.D.Disk (header_bytes header.now)
        (journal_name from.now name.now) (journal_name to.now name.now)
        (changed F.Shelf shelf.old shelf.new)) }
    ensures source { F.tells → Stays F.D.Disk (F.disk shelf.old (journal_name from.now name.now))
        (F.disk shelf.new (journal_name from.now name.now)) }
    ensures target { F.tells → IfErr result (LeavesTarget F.D.Disk
        (header_bytes header.now)
        (bytes_on F.D.reads (F.disk shelf.old (journal_name from.now name.now)))
        (F.disk shelf.old (journal_name to.now name.now))
        (F.disk shelf.new (journal_name to.now name.now))) }
    ensures disks { SameBut (journal_name from.now name.now) (journal_name to.now name.now)
        (F.disk shelf.old) (F.disk shelf.new) }
    ensures out { SameNames (F.is_out shelf.old) (F.is_out shelf.new) }
    ensures counts { NoneFell (F.disk_faults shelf.old) (F.disk_faults shelf.new) }
    ensures other_counts { SameBut (journal_name from.now name.now) (journal_name to.now name.now)
        (F.disk_faults shelf.old) (F.disk_faults shelf.new) }
    ensures files { SameNames (F.file shelf.old) (F.file shelf.new) }
    ensures looked { F.looked shelf.new ≡ F.looked shelf.old }
    ensures later { F.faults shelf.old ≤ F.faults shelf.new }
{
    let source = journal_name(alloc, from, name).map_err(|_| Stop::Memory)?;
    let target = journal_name(alloc, to, name).map_err(|_| Stop::Memory)?;
    move_journal(alloc, source.as_str(), target.as_str(), header, shelf)
}

// The same, by the names of the disks. The new one isn't taken before the old one was opened.
fn move_journal<F: Shelf>(
    alloc: Global,
    source: &str,
    target: &str,
    header: &Header,
    shelf: &mut F,
) -> Result<(), Stop>
    requires source { F.is_out shelf.old source.now ≡ false }
    requires target { F.is_out shelf.old target.now ≡ false }
    requires apart { bytes_eq source.now target.now ≡ false }
    ensures moved { F.tells → OnOk result (IsMoved F.D.Disk (header_bytes header.now)
        (F.disk shelf.old source.now) (F.disk shelf.old target.now)
        (F.disk shelf.new target.now)) }
    ensures reason { IfErr result (HasReason F.tells F.D.Disk (header_bytes header.now)
        source.now target.now (changed F.Shelf shelf.old shelf.new)) }
    ensures source { F.tells → Stays F.D.Disk (F.disk shelf.old source.now)
        (F.disk shelf.new source.now) }
    ensures target { F.tells → IfErr result (LeavesTarget F.D.Disk
        (header_bytes header.now) (bytes_on F.D.reads (F.disk shelf.old source.now))
        (F.disk shelf.old target.now) (F.disk shelf.new target.now)) }
    ensures disks { SameBut source.now target.now (F.disk shelf.old) (F.disk shelf.new) }
    ensures out { SameNames (F.is_out shelf.old) (F.is_out shelf.new) }
    ensures counts { NoneFell (F.disk_faults shelf.old) (F.disk_faults shelf.new) }
    ensures other_counts { SameBut source.now target.now (F.disk_faults shelf.old)
        (F.disk_faults shelf.new) }
    ensures files { SameNames (F.file shelf.old) (F.file shelf.new) }
    ensures looked { F.looked shelf.new ≡ F.looked shelf.old }
    ensures later { F.faults shelf.old ≤ F.faults shelf.new }
{
    match read_source(alloc, source, header, shelf) {
        Ok(records) => fill_target(alloc, target, header, &records, shelf),
        Err(why) => Err(why),
    }
}
