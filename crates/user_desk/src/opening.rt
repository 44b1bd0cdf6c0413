//! How a desk is opened.
ghost use Rattle.std.specs.Prelude.{◌≡◌, ◌≢◌, ◌≤◌, true, false, List, [], ℕ, IfOk};
ghost use Rattle.outside.specs.Disk.{Only, Elapses};
ghost use Rattle.cqe_base.specs.History.{profile_of};
ghost use Rattle.cqe_base.specs.Limits.{KeepsLimits};
ghost use Rattle.cqe_base.specs.Run.{UserState};
ghost use Rattle.log_journal.specs.Opening.{header_bytes};
ghost use Rattle.censors.specs.Admitting.{admission_of};
ghost use Rattle.log_journal.specs.Journal.{disk_of, is_broken};
ghost use Rattle.log_journal.specs.Walk.{AreThere};
ghost use Rattle.user_log.specs.UserLogs.{kept_history};
ghost use Rattle.user_desk.specs.Replays.{IsLogOf};
ghost use Rattle.user_desk.specs.Causes.{Opens, IsStanding};
ghost use Rattle.user_desk.specs.Standings.{is_sealed};
ghost use Rattle.user_desk.specs.Mediums.{medium_disk, is_journal, is_failed};
ghost use Rattle.user_desk.specs.Lives.{Holds, Restarts};
ghost use Rattle.user_desk.specs.Desks.{desk_schema, desk_world, desk_user, desk_header};
ghost use Rattle.user_desk.specs.Desks.{desk_standing, desk_history, desk_disk, is_broken_desk};
ghost use Rattle.user_desk.specs.Desks.{opening_history, opening_disk, IsIn, disk_opened};

use crate::Desk;
use crate::recounting::replay_log;
use crate::standing::{DeskError, Standing};
use crate::store::{Medium, Store};
use censors::Admission;
use cqe_base::schema::Schema;
use cqe_base::user::User;
use cqe_base::world::World;
use log_journal::{Header, Journal, OpenError, Refused, open};
use outside::Disk;
use std::alloc::{AllocError, Global};
use user_log::UserLog;

/// Opens the desk of a user from any disk. It begins with a sync and repairs nothing: the bytes
/// stay, and no crash at any moment leaves anything new. The desk is open with the entries of the
/// journal where these are a legal history within the limits of a user who is admitted; it is
/// closed where the user isn't admitted and there are none; and else it is sealed, for the first
/// reason that the bytes show or for a fault of the disk. Want of memory hands the disk back. The
/// user's admission is what `censors::admit` answers; it is the same at each opening.
pub fn open_desk<'w, D: Disk>(
    alloc: Global,
    schema: &'w Schema,
    world: &'w World,
    user: &'w User,
    admission: Admission,
    header: &Header,
    disk: D,
) -> Result<Desk<'w, D>, Refused<D, AllocError>>
    requires limits { KeepsLimits schema.now (profile_of user.now) }
    requires admission { admission ≡ admission_of schema.now world.now (profile_of user.now) }
    ensures schema { IfOk result (λ desk. desk_schema desk ≡ schema.now) }
    ensures world { IfOk result (λ desk. desk_world desk ≡ world.now) }
    ensures user { IfOk result (λ desk. desk_user desk ≡ profile_of user.now) }
    ensures header { IfOk result (λ desk. desk_header desk ≡ header_bytes header.now) }

    // The standing has its cause, and a desk that isn't sealed has the entries that the bytes open
    // it with.
    ensures standing { IfOk result (λ desk.
        IsStanding schema.now world.now (profile_of user.now) D.tells
        (header_bytes header.now) (D.reads disk) (desk_history desk)
        (D.faults disk) (D.faults (desk_disk desk)) (desk_standing desk)) }
    ensures sound { D.tells → IfOk result (λ desk. is_sealed (desk_standing desk) ≡ false
        → Opens schema.now world.now (profile_of user.now) (header_bytes header.now)
        (desk_history desk)
        (D.reads disk)) }
    ensures whole { IfOk result (λ desk. is_broken_desk desk ≡ false) }
    // The opening is the moment at which it answers.
    ensures opening { IfOk result (λ desk. (opening_history desk ≡ desk_history desk)
        × (opening_disk desk ≡ desk_disk desk)) }

    // It is a restart of each state that the bytes hold, which is refused only for a fault of the
    // disk.
    ensures restarted { D.tells → IfOk result (λ desk. (state : UserState)
        → Holds schema.now world.now (profile_of user.now) (header_bytes header.now) state
        (D.reads disk)
        → Restarts schema.now world.now (profile_of user.now) (IsIn desk) state (D.faults disk)
        (D.faults (desk_disk desk))) }

    ensures reads { D.reads (disk_opened result) ≡ D.reads disk }
    ensures origin { D.origin (disk_opened result) ≡ D.origin disk }
    ensures still_told { D.tellable disk ≤ D.tellable (disk_opened result) }
    ensures heard { D.tells → AreThere (D.heard disk) (D.reads disk)
        → AreThere (D.heard (disk_opened result)) (D.reads (disk_opened result)) }
    ensures durable { IfOk result (λ desk. is_sealed (desk_standing desk) ≡ false
        → Only (D.reads disk) (D.image (desk_disk desk))) }
    ensures images { (c : List ℕ) → D.image (disk_opened result) c → D.image disk c }
    ensures time { Elapses (D.moment disk) (D.moment (disk_opened result)) (D.image_since disk)
        (D.image_since (disk_opened result)) }
    ensures moments { (c : List ℕ) → D.image_since (disk_opened result) (D.moment disk) c
        → D.image disk c }
    ensures count { D.faults disk ≤ D.faults (disk_opened result) }
{
    match open(alloc, disk, header) {
        Ok((journal, records)) => {
            match replay_log(alloc, schema, world, user, admission, &records) {
                Ok((log, standing)) => {
                    log.known();
                    let opened = log.entries().len();
                    Ok(Desk {
                        log,
                        header: *header,
                        standing,
                        store: Store::new(kept_medium(journal, standing)),
                        in_flight: None,
                        opened,
                    })
                }
                Err(why) => Err(Refused {
                    disk: journal.close(),
                    why,
                }),
            }
        }
        Err(refused) => match refused_journal(alloc, schema, world, user, refused.why) {
            Ok((log, standing)) => {
                log.known();
                let opened = log.entries().len();
                Ok(Desk {
                    log,
                    header: *header,
                    standing,
                    store: Store::new(Medium::Disk(refused.disk)),
                    in_flight: None,
                    opened,
                })
            }
            Err(why) => Err(Refused {
                disk: refused.disk,
                why,
            }),
        },
    }
}

// A desk that is sealed keeps the disk alone, and another one its journal.
fn kept_medium<D: Disk>(journal: Journal<D>, standing: Standing) -> Medium<D>
    requires { is_broken journal ≡ false }
    ensures disk { medium_disk result ≡ disk_of journal }
    ensures served { is_sealed standing ≡ false → is_journal result ≡ true }
    ensures sealed { is_sealed standing ≡ true → is_journal result ≡ false }
    ensures whole { is_failed result ≡ false }
{
    match standing {
        Standing::Sealed(_) => Medium::Disk(journal.close()),
        _ => Medium::Journal(journal),
    }
}

// The log and the standing of a user whose journal isn't opened. Want of memory stays what it is.
fn refused_journal<'w>(
    alloc: Global,
    schema: &'w Schema,
    world: &'w World,
    user: &'w User,
    why: OpenError,
) -> Result<(UserLog<'w>, Standing), AllocError>
    requires { KeepsLimits schema.now (profile_of user.now) }
    ensures log { IfOk result (λ r. IsLogOf schema.now world.now (profile_of user.now) r.0) }
    ensures none { IfOk result (λ r. kept_history r.0 ≡ []) }
    ensures sealed { IfOk result (λ r. r.1 ≡ Standing.Sealed (DeskError.Journal why)) }
    ensures outside { IfOk result (λ _. why ≢ OpenError.Memory) }
{
    if why == OpenError::Memory {
        return Err(AllocError);
    }
    let log = UserLog::new(alloc, schema, world, user)?;
    Ok((log, Standing::Sealed(DeskError::Journal(why))))
}
