//! A desk whose entries have tickets.
ghost use Rattle.std.specs.Prelude.{◌≡◌, length, replicate, IfOk};
ghost use Rattle.cqe_base.specs.Schema.{DatabaseSchema};
ghost use Rattle.cqe_base.specs.History.{UserProfile};
ghost use Rattle.user_desk.specs.Desks.{desk_schema, desk_user, desk_history, entry_in_flight};
ghost use Rattle.desk_counter.specs.Items.{pairs_of};
ghost use Rattle.desk_counter.specs.Desks.{fixed_of};

use crate::item::{Fixed, TurnItem};
use cqe_base::user::Purpose;
use entailment::GroundSentence;
use outside::Disk;
use std::alloc::{AllocError, Global};
use turnstile::Recorded;
use user_desk::Desk;
use user_log::{Examined, Examiner, Lent, Reply};

/// A value under a turnstile that belongs to a user.
pub trait Owned: Recorded {
    ghost owner: { Self → UserProfile };

    ghost schema: { Self → DatabaseSchema };
    // What no turn changes, as the turnstile has it.
    ghost kept: { Self → Self.Fixed };
}

/// A desk under a turnstile. Each of its entries has the ticket of the turn that added it, or 0
/// where it was there before, and so has the entry whose append failed.
#[derive(Drop)]
pub struct TicketedDesk<'w, D: Disk> {
    desk: Desk<'w, D>,
    tickets: Vec<u64>,
    broke: u64,
    ghost counted: { length tickets.items ≡ length (desk_history desk) },
}

impl<'w, D: Disk> Recorded for TicketedDesk<'w, D> {
    type Item = TurnItem;

    type Fixed = Fixed<D>;

    ghost entries = { λ d.
        pairs_of d.tickets.items (desk_history d.desk) d.broke (entry_in_flight d.desk) };

    ghost fixed = { λ d. fixed_of d.desk };
}

impl<'w, D: Disk> Owned for TicketedDesk<'w, D> {
    ghost owner = { λ d. desk_user d.desk };

    ghost schema = { λ d. desk_schema d.desk };

    ghost kept = { λ d. fixed_of d.desk };
}

impl<'w, D: Disk> TicketedDesk<'w, D> {
    ghost use Rattle.std.specs.Prelude.{◌≤◌, ◌↔◌, IsTrue, IfErr, IfSome, true, false, List, ℕ};
    ghost use Rattle.entailment.specs.GroundSentences.{sentence_of};
    ghost use Rattle.user_log.specs.Examiners.{examiner_schema, examiner_user};
    ghost use Rattle.user_log.specs.Examining.{IsExamined, IsLent};
    ghost use Rattle.cqe_base.specs.Censor.{IsLegal};
    ghost use Rattle.cqe_base.specs.Limits.{KeepsSizes};
    ghost use Rattle.cqe_base.specs.Run.{after_event, stop};
    ghost use Rattle.turnstile.specs.History.{IsOpening};
    ghost use Rattle.user_desk.specs.Desks.{desk_world, desk_header, desk_standing, desk_disk};
    ghost use Rattle.user_desk.specs.Desks.{is_broken_desk, state_of};
    ghost use Rattle.user_desk.specs.Lives.{Holds};
    ghost use Rattle.user_desk.specs.Replying.{HasNoWrite};
    ghost use Rattle.user_desk.specs.Standings.{is_sealed};
    ghost use Rattle.desk_counter.specs.Items.{history_of, has_broke, BrokeIsLast};
    ghost use Rattle.desk_counter.specs.Asks.{Adds};
    ghost use Rattle.desk_counter.specs.Tickets.{desk_of, pairs_in, fixed_in};

    /// Puts ticket 0 on all that the desk has. For want of memory the desk comes back.
    pub(crate) fn new(alloc: Global, desk: Desk<'w, D>) -> Result<TicketedDesk<'w, D>, Desk<'w, D>>
        ensures desk { IfOk result (λ value. desk_of value ≡ desk.entry) }
        ensures opening { IfOk result (λ value. IsOpening (pairs_in value)) }
        ensures err { IfErr result (λ same. same ≡ desk.entry) }
    {
        match zeros(alloc, desk.entries().len()) {
            Ok(tickets) => Ok(TicketedDesk {
                desk,
                tickets,
                broke: 0,
            }),
            Err(_) => Err(desk),
        }
    }

    /// Gives the desk, without tickets.
    pub(crate) fn into_desk(self) -> Desk<'w, D>
        ensures { result ≡ desk_of self.entry }
    {
        let TicketedDesk {
            desk,
            tickets: _,
            broke: _,
        } = self;
        desk
    }

    /// What examines the user's texts outside of a turn.
    pub(crate) fn examiner(&self, alloc: Global) -> Result<Examiner<'w>, AllocError>
        ensures schema { IfOk result (λ examiner.
            examiner_schema examiner ≡ (fixed_in self.now).schema) }
        ensures user { IfOk result (λ examiner.
            examiner_user examiner ≡ (fixed_in self.now).user) }
    {
        self.desk.examiner(alloc)
    }

    /// What is known of the pairs: their entries are legal and within the limits, and an entry in
    /// flight stands last.
    pub(crate) fn known(&self)
        ensures legal { IsLegal (fixed_in self.now).schema (fixed_in self.now).world
            (fixed_in self.now).user
            (history_of (pairs_in self.now)) }
        ensures sizes { KeepsSizes (fixed_in self.now).schema (fixed_in self.now).user
            (history_of (pairs_in self.now)) }
        ensures last { BrokeIsLast (pairs_in self.now) }
    {
        self.desk.known();
    }

    /// Views of the log, after which the query of a text can be examined outside of a turn. There
    /// are none where a code answers the text, where a secret was added, or where memory is
    /// wanting.
    pub(crate) fn lend(
        &mut self,
        alloc: Global,
        text: &str,
        query: &GroundSentence,
    ) -> Option<Lent<'w>>
        requires { length text.now ≤ 4096 }
        ensures fixed { fixed_in self.new ≡ fixed_in self.old }
        ensures pairs { pairs_in self.new ≡ pairs_in self.old }
        ensures disk { desk_disk (desk_of self.new) ≡ desk_disk (desk_of self.old) }
        ensures lent { IfSome result
            (IsLent (fixed_in self.old).schema (fixed_in self.old).user
            (history_of (pairs_in self.old)) (sentence_of query.now)) }
    {
        self.desk.lend(alloc, text, query)
    }

    /// Settles a text in the turn of this ticket, with what was found of a query before, if that
    /// was done. The disk stays as it is where nothing is to be written, and where an append had
    /// failed before; at every moment of the turn a crash leaves what it may leave of this call.
    pub(crate) fn settle(
        &mut self,
        alloc: Global,
        ticket: u64,
        purpose: Purpose,
        text: &str,
        examined: Option<Examined<'w>>,
    ) -> Reply
        requires short { length text.now ≤ 4096 }
        requires examined { IfSome examined
            (IsExamined (fixed_in self.old).schema (fixed_in self.old).user
            (history_of (pairs_in self.old)) text.now) }
        ensures fixed { fixed_in self.new ≡ fixed_in self.old }
        ensures adds { Adds (fixed_in self.old) ticket purpose text.now (pairs_in self.old)
            (pairs_in self.new) result }
        ensures broken { (result ≡ Reply.Broken) ↔ IsTrue (has_broke (pairs_in self.new)) }
        ensures untouched { HasNoWrite result
            → desk_disk (desk_of self.new) ≡ desk_disk (desk_of self.old) }
        ensures still_broken { is_broken_desk (desk_of self.old) ≡ true
            → desk_disk (desk_of self.new) ≡ desk_disk (desk_of self.old) }
        ensures moments { D.tells → is_sealed (desk_standing (desk_of self.old)) ≡ false
            → (c : List ℕ)
            → D.image_since (desk_disk (desk_of self.new)) (D.moment (desk_disk (desk_of self.old)))
            c
            → Holds (desk_schema (desk_of self.old)) (desk_world (desk_of self.old))
            (desk_user (desk_of self.old)) (desk_header (desk_of self.old))
            (after_event (desk_schema (desk_of self.old)) (desk_world (desk_of self.old))
            (desk_user (desk_of self.old)) (state_of (desk_of self.old))
            (stop purpose text.now)) c }
    {
        self.desk.known();
        if self.desk.broken() {
            return Reply::Broken;
        }
        if self.tickets.reserve(1).is_err() {
            return Reply::Memory;
        }
        let reply = self.desk.settle(alloc, purpose, text, examined);
        self.desk.known();
        match reply {
            Reply::Mark(_) => self.tickets.push_reserved(ticket),
            Reply::Broken => self.broke = ticket,
            _ => {}
        }
        reply
    }
}

// So many tickets 0.
fn zeros(alloc: Global, count: usize) -> Result<Vec<u64>, AllocError>
    ensures { IfOk result (λ tickets. tickets.items ≡ replicate count 0) }
{
    vec![in alloc; 0; count]
}
