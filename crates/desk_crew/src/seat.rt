//! A user at his desk.

ghost use Rattle.std.specs.Prelude.{◌≡◌, ◌≤◌, length, IfOk, string_bytes};
ghost use Rattle.cqe_base.specs.History.{profile_of};
ghost use Rattle.cqe_base.specs.Limits.{KeepsLimits};
ghost use Rattle.censors.specs.Admitting.{admission_of};
ghost use Rattle.log_journal.specs.Opening.{header_bytes};
ghost use Rattle.user_log.specs.Replies.{reply_of};
ghost use Rattle.desk_counter.specs.Items.{has_broke};
ghost use Rattle.desk_counter.specs.Sole.{pairs_of_sole};
ghost use Rattle.desk_crew.specs.Crew.{first_refusal, seat_user, seat_kept};
ghost use Rattle.desk_crew.specs.Crew.{disk_seated, journal_seated, IsLeftOpen, IsClosed};
ghost use Rattle.desk_crew.specs.Crew.{IsToldAt, IsOpenedFrom};

use crate::registry::Registry;
use censors::Admission;
use cqe_base::user::{Purpose, User};
use desk_counter::{Owned, SoleCounter, SoleOf, TicketedDesk};
use outside::{Disk, Gate};
use std::alloc::Global;
use std::sync::Wait;
use std::thread::Threads;
use user_desk::{DeskError, Standing, open_desk};
use user_log::Reply;

/// A user at a value under a turnstile, which is his desk.
#[derive(Drop)]
pub struct Seat<'w, V: Owned> {
    pub user: &'w User,
    /// Whether he is admitted, and else which test fails first.
    pub admission: Admission,
    /// The name of his journal on the shelf.
    pub journal: String,
    /// His desk under a counter, from its opening to its close.
    pub desk: SoleOf<'w, V>,
    /// Why an opening of his journal was refused first, if one was.
    pub refusal: Option<DeskError>,
}

/// A user at his desk.
pub type DeskSeat<'w, D> = Seat<'w, TicketedDesk<'w, D>>;

/// The disk of a journal that isn't open, with its name.
#[derive(Drop)]
pub(crate) struct Returned<D> {
    pub journal: String,
    pub disk: D,
}

/// The first refusal, of those before and the one of this standing.
fn first_refusal(before: Option<DeskError>, standing: &Standing) -> Option<DeskError>
    ensures { result ≡ first_refusal before standing.now }
{
    match (before, standing) {
        (Some(why), _) => Some(why),
        (None, Standing::Sealed(why)) => Some(*why),
        (None, Standing::Open) => None,
        (None, Standing::Closed(_)) => None,
    }
}

/// Seats a user at the desk that his disk opens, behind an earlier refusal if there was one.
pub(crate) fn seat_at<'w, D: Disk>(
    alloc: Global,
    registry: &Registry<'w>,
    user: &'w User,
    admission: Admission,
    journal: String,
    before: Option<DeskError>,
    disk: D,
) -> Result<DeskSeat<'w, D>, Returned<D>>
    requires limits { KeepsLimits registry.now.schema.now (profile_of user.now) }
    requires admission { admission
        ≡ admission_of registry.now.schema.now registry.now.world.now (profile_of user.now) }
    ensures opened { IfOk result (IsOpenedFrom registry.now.schema.now registry.now.world.now
        (header_bytes registry.now.header.now) D.Disk disk before) }
    ensures user { IfOk result (λ seat. seat_user seat ≡ user.now) }
    ensures journal { journal_seated result ≡ string_bytes journal }
    ensures left { IsLeftOpen D.Disk disk (disk_seated result) }
{
    match open_desk(
        alloc,
        registry.schema,
        registry.world,
        user,
        admission,
        registry.header,
        disk,
    ) {
        Ok(desk) => {
            desk.known();
            let refusal = first_refusal(before, desk.standing());
            match SoleCounter::new(alloc, desk) {
                Ok(desk) => Ok(Seat {
                    user,
                    admission,
                    journal,
                    desk,
                    refusal,
                }),
                Err(desk) => Err(Returned {
                    journal,
                    disk: desk.close(),
                }),
            }
        }
        Err(refused) => Err(Returned {
            journal,
            disk: refused.disk,
        }),
    }
}

/// The reply to a call for the user of a seat. Only an ask passes the gate.
pub fn call_at<R: Threads + Wait + Sync, G: Gate, D: Disk>(
    rt: &R,
    alloc: Global,
    seat: &mut DeskSeat<'_, D>,
    purpose: Purpose,
    text: &str,
    gate: &G,
) -> Reply
    requires short { length text.now ≤ 4096 }
    requires user { (seat_kept seat.old).user ≡ profile_of (seat_user seat.old) }
    ensures { IsToldAt (seat_kept seat.old).schema (seat_kept seat.old).world purpose text.now
        (reply_of result) seat.old seat.new }
{
    match purpose {
        Purpose::Asking => seat.desk.ask(rt, alloc, text, gate),
        Purpose::Protecting => seat.desk.protect(rt, alloc, text),
    }
}

/// Closes a desk: its disk, and whether an append to it failed.
pub(crate) fn close_desk<D: Disk>(desk: SoleCounter<'_, D>) -> (D, bool)
    ensures closed { IsClosed D.Disk desk.entry result.0 }
    ensures broke { result.1 ≡ has_broke (pairs_of_sole desk.entry) }
{
    let desk = desk.close();
    let is_broken = desk.broken();
    (desk.close(), is_broken)
}
