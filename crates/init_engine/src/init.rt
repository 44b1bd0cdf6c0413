//! Making the journals of users.
ghost use Rattle.std.specs.Prelude.{◌≡◌, ◌≤◌, false, map};
ghost use Rattle.outside.specs.Shelf.{SameNames, SameBeside, NoneOut, NoneFell};
ghost use Rattle.cqe_base.specs.Schema.{has_duplicate};
ghost use Rattle.log_journal.specs.Names.{journal_name};
ghost use Rattle.log_journal.specs.Opening.{header_bytes};
ghost use Rattle.init_engine.specs.Disks.{user_names};
ghost use Rattle.init_engine.specs.Ends.{EndsInit, end_of};

use crate::InitEnd;
use crate::end::Stop;
use crate::visit::serve;
use cqe_base::user::User;
use log_journal::{Header, law_journals_differ};
use outside::Shelf;
use std::alloc::Global;

/// Makes an empty journal with this header on the disk of each user, `DIRECTORY/NAME.log`, where
/// that disk is empty. A disk that isn't empty has to open as a journal with this header, and is
/// left as it is. It stops at the first user who can't be served, and each disk is back on the
/// shelf whatever comes. Only where a disk fails may that disk be left with a journal that is half
/// made.
pub fn run_init<F: Shelf>(
    alloc: Global,
    users: &[User],
    header: &Header,
    directory: &str,
    shelf: &mut F,
) -> InitEnd
    requires names { has_duplicate (user_names users.now) ≡ false }
    requires out { NoneOut (F.is_out shelf.old) }
    ensures ends { EndsInit F.tells F.D.Disk (header_bytes header.now) directory.now
        (user_names users.now)
        (record {
          old = F.disk shelf.old;
          new = F.disk shelf.new;
          before =
              F.disk_faults shelf.old;
          now = F.disk_faults shelf.new;
          shelf_before =
              F.faults shelf.old;
          shelf_now = F.faults shelf.new;
        }) result }
    ensures out { NoneOut (F.is_out shelf.new) }
    ensures counts { NoneFell (F.disk_faults shelf.old) (F.disk_faults shelf.new) }
    ensures other_counts { SameBeside (map (journal_name directory.now) (user_names users.now))
        (F.disk_faults shelf.old) (F.disk_faults shelf.new) }
    ensures files { SameNames (F.file shelf.old) (F.file shelf.new) }
    ensures looked { F.looked shelf.new ≡ F.looked shelf.old }
    ensures later { F.faults shelf.old ≤ F.faults shelf.new }
{
    law_journals_differ();
    for (number, user) in users.iter().enumerate() {
        if let Err(why) = serve(alloc, user.name.as_str(), header, directory, shelf) {
            return end_of(number, why);
        }
    }
    InitEnd::Done
}

// How it ends at the user of this number.
fn end_of(user: usize, why: Stop) -> InitEnd
    ensures { result ≡ end_of user why }
{
    match why {
        Stop::Refused(why) => InitEnd::Refused { user, why },
        Stop::DiskFault => InitEnd::DiskFault,
        Stop::ShelfFault => InitEnd::ShelfFault,
        Stop::Memory => InitEnd::Memory,
    }
}
