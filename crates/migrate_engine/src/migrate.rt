//! Moving the journals of users.
ghost use Rattle.std.specs.Prelude.{◌≡◌, ◌≤◌, ◌++◌, false, true, map, bytes_eq};
ghost use Rattle.std.specs.List.{list_all};
ghost use Rattle.outside.specs.Shelf.{SameNames, SameBeside, NoneOut, NoneFell};
ghost use Rattle.cqe_base.specs.Schema.{has_duplicate, is_schema_name};
ghost use Rattle.log_journal.specs.Names.{journal_name};
ghost use Rattle.log_journal.specs.Opening.{header_bytes};
ghost use Rattle.init_engine.specs.Disks.{user_names};
ghost use Rattle.migrate_engine.specs.Ends.{EndsMigrate, end_of};
ghost use Rattle.migrate_engine.specs.Stops.{changed};

use crate::MigrateEnd;
use crate::end::Stop;
use crate::visit::serve;
use cqe_base::user::User;
use log_journal::{Header, law_journals_differ};
use outside::Shelf;
use std::alloc::Global;

/// Moves the journal of each user with these digests from the disk `FROM/NAME.log`, where it is of
/// version 1, to `TO/NAME.log`, which has to be empty. It stops at the first user who can't be
/// served. Whatever comes, each disk is back on the shelf, and those in FROM are as they were; of
/// those in TO one that was empty may be half made where it failed, and then opens as no journal or
/// as the whole one, unless its first write or the sync of that failed.
pub fn run_migrate<F: Shelf>(
    alloc: Global,
    users: &[User],
    header: &Header,
    from: &str,
    to: &str,
    shelf: &mut F,
) -> MigrateEnd
    requires names { has_duplicate (user_names users.now) ≡ false }
    requires proper { list_all is_schema_name (user_names users.now) ≡ true }
    requires apart { bytes_eq from.now to.now ≡ false }
    requires out { NoneOut (F.is_out shelf.old) }
    ensures ends { EndsMigrate F.tells F.D.Disk (header_bytes header.now) from.now to.now
        (user_names users.now) (changed F.Shelf shelf.old shelf.new) result }
    ensures out { NoneOut (F.is_out shelf.new) }
    ensures counts { NoneFell (F.disk_faults shelf.old) (F.disk_faults shelf.new) }
    ensures other_counts { SameBeside (map (journal_name from.now) (user_names users.now)
        ++ map (journal_name to.now) (user_names users.now)) (F.disk_faults shelf.old)
        (F.disk_faults shelf.new) }
    ensures files { SameNames (F.file shelf.old) (F.file shelf.new) }
    ensures looked { F.looked shelf.new ≡ F.looked shelf.old }
    ensures later { F.faults shelf.old ≤ F.faults shelf.new }
{
    law_journals_differ();
    for (number, user) in users.iter().enumerate() {
        if let Err(why) = serve(alloc, user.name.as_str(), header, from, to, shelf) {
            return end_of(number, why);
        }
    }
    MigrateEnd::Done
}

// How it ends at the user of this number.
fn end_of(user: usize, why: Stop) -> MigrateEnd
    ensures { result ≡ end_of user why }
{
    match why {
        Stop::Refused(why) => MigrateEnd::Refused { user, why },
        Stop::NotEmpty => MigrateEnd::NotEmpty { user },
        Stop::DiskFault => MigrateEnd::DiskFault,
        Stop::ShelfFault => MigrateEnd::ShelfFault,
        Stop::Memory => MigrateEnd::Memory,
    }
}
