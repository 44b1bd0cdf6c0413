//! A desk between its opening and its close.
ghost use Rattle.std.specs.Prelude.{◌≡◌, ◌≤◌, ◌++◌, [], true, false, List, ℕ, length, map};
ghost use Rattle.std.specs.Prelude.{option_map, option_to_list, is_some, None, IfSome, IfNone, ◌↔◌};
ghost use Rattle.std.specs.Prelude.{IsTrue, IfOk};
ghost use Rattle.outside.specs.Disk.{Elapses};
ghost use Rattle.outside.specs.Faults.{Rose};
ghost use Rattle.cqe_base.specs.Formula.{formula_of};
ghost use Rattle.cqe_base.specs.History.{answered_query_of, profile_of};
ghost use Rattle.cqe_base.specs.Limits.{KeepsLimits, KeepsSizes};
ghost use Rattle.cqe_base.specs.Censor.{IsLegal, admitted};
ghost use Rattle.cqe_base.specs.Run.{UserState, after_event, stop};
ghost use Rattle.log_journal.specs.Opening.{header_bytes};
ghost use Rattle.log_journal.specs.Walk.{AreThere};
ghost use Rattle.user_log.specs.UserLogs.{kept_schema, kept_world, kept_user, kept_history};
ghost use Rattle.user_desk.specs.Entries.{IsNoLonger};
ghost use Rattle.user_desk.specs.Kept.{IsConsistentDesk, IsConsistentDesk-prop, StandsSince};
ghost use Rattle.user_desk.specs.Kept.{StandsSince-prop};
ghost use Rattle.user_desk.specs.Stored.{stored_disk, opened_disk, has_journal, has_failed};
ghost use Rattle.user_desk.specs.Standings.{is_open, is_sealed};

use crate::kinds::kind_of;
use crate::standing::Standing;
use crate::store::Store;
use cqe_base::sentence::Sentence;
use cqe_base::user::{Entry, Mark, Purpose, User};
use entailment::GroundSentence;
use log_journal::Header;
use outside::Disk;
use std::alloc::{AllocError, Global};
use user_log::{Examined, Examiner, Lent, Reply, UserLog, Weighed};

/// One user's desk: his log, and a journal of it on a disk.
#[derive(Drop)]
pub struct Desk<'w, D: Disk> {
    pub(crate) log: UserLog<'w>,
    pub(crate) header: Header,
    pub(crate) standing: Standing,
    pub(crate) store: Store<D>,
    /// The entry whose append failed at the disk.
    pub(crate) in_flight: Option<Entry>,
    /// How many entries there were at the opening.
    pub(crate) opened: usize,
    ghost kept: { IsConsistentDesk D.tells (D.image (stored_disk store)) (kept_schema log)
        (kept_world log) (kept_user log)
        (header_bytes header) standing (kept_history log) (option_map answered_query_of in_flight)
        (has_journal store)
        (has_failed store) } by { IsConsistentDesk-prop _ _ _ _ _ _ _ _ _ _ _ },
    ghost since: { StandsSince D.tells
        (D.image_since (stored_disk store) (D.moment (opened_disk store)))
        (kept_schema log) (header_bytes header) standing opened (kept_history log)
        (option_map answered_query_of in_flight)
        (has_journal store) } by { StandsSince-prop _ _ _ _ _ _ _ _ _ },
    ghost still: { opened ≡ length (kept_history log)
        → option_map answered_query_of in_flight ≡ None
        → stored_disk store ≡ opened_disk store },
    ghost size: { D.tells → is_some (option_map answered_query_of in_flight) ≡ false
        → IsNoLonger (D.reads (opened_disk store)) (kept_history log)
        (D.reads (stored_disk store)) },
    ghost told: { D.tells → length (kept_history log) ≤ D.tellable (stored_disk store) },
}

impl<'w, D: Disk> Desk<'w, D> {
    ghost use Rattle.entailment.specs.GroundSentences.{sentence_of};
    ghost use Rattle.user_log.specs.Asked.{IsAnswer};
    ghost use Rattle.user_log.specs.Examining.{IsExamined, IsLent};
    ghost use Rattle.user_log.specs.Examiners.{examiner_schema, examiner_user};
    ghost use Rattle.user_log.specs.Replies.{reply_of};
    ghost use Rattle.user_desk.specs.Causes.{OpensWithin};
    ghost use Rattle.user_desk.specs.Entries.{StandsFor};
    ghost use Rattle.user_desk.specs.Lives.{Holds, Settles, AnswersAll, AddsNone};
    ghost use Rattle.user_desk.specs.Desks.{desk_schema, desk_world, desk_user, desk_header};
    ghost use Rattle.user_desk.specs.Desks.{desk_standing, desk_history, desk_disk};
    ghost use Rattle.user_desk.specs.Desks.{entry_in_flight, is_broken_desk, state_of};
    ghost use Rattle.user_desk.specs.Desks.{opening_count, opening_disk, IsIn, IsOfSame};
    ghost use Rattle.user_desk.specs.Desks.{IsOfOneOpening};
    ghost use Rattle.user_desk.specs.Replying.{HasNoWrite};

    /// The user whose desk it is.
    pub fn user(&self) -> &'w User
        ensures { profile_of result.now ≡ desk_user self.now }
    {
        self.log.user()
    }

    /// What examines the user's texts outside of the desk.
    pub fn examiner(&self, alloc: Global) -> Result<Examiner<'w>, AllocError>
        ensures schema { IfOk result (λ examiner.
            examiner_schema examiner ≡ desk_schema self.now) }
        ensures user { IfOk result (λ examiner. examiner_user examiner ≡ desk_user self.now) }
    {
        self.log.examiner(alloc)
    }

    /// Whether the user is served, and else why not.
    pub fn standing(&self) -> &Standing
        ensures { result.now ≡ desk_standing self.now }
    {
        &self.standing
    }

    /// The entries, oldest first. A desk whose journal was refused has none.
    pub fn entries(&self) -> &[Entry]
        ensures { map answered_query_of result.now ≡ desk_history self.now }
    {
        self.log.entries()
    }

    /// Whether an append to the journal failed. From then on each ask is answered so.
    pub fn broken(&self) -> bool
        ensures { result ≡ is_broken_desk self.now }
    {
        self.in_flight.is_some()
    }

    /// What is known of a desk: its entries are legal and within the limits, each image of its disk
    /// stands for its state, or where no append failed for its entries, and only of a user who is
    /// admitted are there any; and what it keeps of its opening. It computes nothing.
    pub fn known(&self)
        ensures limits { KeepsLimits (desk_schema self.now) (desk_user self.now) }
        ensures sizes { KeepsSizes (desk_schema self.now) (desk_user self.now)
            (desk_history self.now) }
        ensures legal { IsLegal (desk_schema self.now) (desk_world self.now) (desk_user self.now)
            (desk_history self.now) }
        ensures images { D.tells → is_sealed (desk_standing self.now) ≡ false → (c : List ℕ)
            → D.image (desk_disk self.now) c
            → Holds (desk_schema self.now) (desk_world self.now) (desk_user self.now)
            (desk_header self.now)
            (state_of self.now) c }
        ensures whole { D.tells → is_sealed (desk_standing self.now) ≡ false
            → is_broken_desk self.now ≡ false
            → (c : List ℕ) → D.image (desk_disk self.now) c
            → StandsFor (desk_schema self.now) (desk_header self.now) (desk_history self.now) c }
        ensures admits { is_open (desk_standing self.now) ≡ true
            → admitted (desk_schema self.now) (desk_world self.now) (desk_user self.now) ≡ true }
        ensures none { is_open (desk_standing self.now) ≡ false → desk_history self.now ≡ [] }
        ensures idle { is_open (desk_standing self.now) ≡ false → is_broken_desk self.now ≡ false }

        // Since the opening each image opens a desk with a beginning of the entries, with the one
        // in flight, that has the entries at the opening; where the journal was refused, or
        // nothing was appended, the disk is as it was.
        ensures begins { opening_count self.now ≤ length (desk_history self.now) }
        ensures since { D.tells → is_sealed (desk_standing self.now) ≡ false → (c : List ℕ)
            → D.image_since (desk_disk self.now) (D.moment (opening_disk self.now)) c
            → OpensWithin (desk_schema self.now) (desk_world self.now) (desk_user self.now)
            (desk_header self.now) (opening_count self.now)
            (desk_history self.now ++ option_to_list (entry_in_flight self.now)) c }
        ensures refused { is_sealed (desk_standing self.now) ≡ true
            → desk_disk self.now ≡ opening_disk self.now }
        ensures still { opening_count self.now ≡ length (desk_history self.now)
            → entry_in_flight self.now ≡ None
            → desk_disk self.now ≡ opening_disk self.now }
        ensures rests { is_sealed (desk_standing self.now) ≡ true → (c : List ℕ)
            → D.image_since (desk_disk self.now) (D.moment (opening_disk self.now)) c
            → D.image (opening_disk self.now) c }

        // Where no append failed, the disk has grown for the entries alone.
        ensures size { D.tells → is_broken_desk self.now ≡ false
            → IsNoLonger (D.reads (opening_disk self.now)) (desk_history self.now)
            (D.reads (desk_disk self.now)) }

        // The marks of all entries may be told.
        ensures told { D.tells → length (desk_history self.now) ≤ D.tellable (desk_disk self.now) }

        // What was told of is a record that lies there, where it was so at the opening.
        ensures heard { D.tells
            → AreThere (D.heard (opening_disk self.now)) (D.reads (opening_disk self.now))
            → AreThere (D.heard (desk_disk self.now)) (D.reads (desk_disk self.now)) }

        // The clock has gone on since, the count of faults hasn't fallen, and it rose where an
        // append failed.
        ensures time { Elapses (D.moment (opening_disk self.now)) (D.moment (desk_disk self.now))
            (D.image_since (opening_disk self.now)) (D.image_since (desk_disk self.now)) }
        ensures count { D.faults (opening_disk self.now) ≤ D.faults (desk_disk self.now) }
        ensures origin { D.origin (desk_disk self.now) ≡ D.origin (opening_disk self.now) }
        ensures cause { is_broken_desk self.now ≡ true
            → Rose (D.faults (opening_disk self.now)) (D.faults (desk_disk self.now)) }
    {
        self.log.known();
        self.store.known();
    }

    /// Views of the log, after which the query of a text can be examined outside of the desk. There
    /// are none where a code answers the text, where a secret was added, or where memory is
    /// wanting. The desk stays as it is.
    pub fn lend(&mut self, alloc: Global, text: &str, query: &GroundSentence) -> Option<Lent<'w>>
        requires { length text.now ≤ 4096 }
        ensures same { IsOfSame self.old self.new }
        ensures opening { IsOfOneOpening self.old self.new }
        ensures history { desk_history self.new ≡ desk_history self.old }
        ensures in_flight { entry_in_flight self.new ≡ entry_in_flight self.old }
        ensures disk { desk_disk self.new ≡ desk_disk self.old }
        ensures lent { IfSome result
            (IsLent (desk_schema self.old) (desk_user self.old) (desk_history self.old)
            (sentence_of query.now)) }
    {
        if let Some(_code) = self.refusal() {
            return None;
        }
        self.log.lend(alloc, text, query)
    }

    /// The reply to a call by the items so far, with what was found of a query before, if that was
    /// done. A mark comes once its item is on the disk, and adds it; want of memory and a code
    /// change nothing, and from the first write on the answer is a mark or that the append failed.
    /// Once one had failed before, the disk stays as it is.
    pub fn settle(
        &mut self,
        alloc: Global,
        purpose: Purpose,
        text: &str,
        examined: Option<Examined<'w>>,
    ) -> Reply
        requires short { length text.now ≤ 4096 }
        requires examined { IfSome examined (IsExamined (desk_schema self.old) (desk_user self.old)
            (desk_history self.old) text.now) }
        ensures same { IsOfSame self.old self.new }
        ensures opening { IsOfOneOpening self.old self.new }

        // It is a call of the run, with its reply and its ending.
        ensures settled { (state : UserState) → IsIn self.old state
            → Settles (desk_schema self.old) (desk_world self.old) (desk_user self.old)
            (IsIn self.new) state purpose text.now
            (reply_of result) (D.faults (desk_disk self.old)) (D.faults (desk_disk self.new)) }
        ensures broken { (result ≡ Reply.Broken) ↔ IsTrue (is_broken_desk self.new) }
        ensures untouched { HasNoWrite result → desk_disk self.new ≡ desk_disk self.old }
        ensures still_broken { is_broken_desk self.old ≡ true
            → desk_disk self.new ≡ desk_disk self.old }
        ensures count { D.faults (desk_disk self.old) ≤ D.faults (desk_disk self.new) }

        // At every moment of the call each image stands for what a crash that cuts it leaves.
        ensures moments { D.tells → is_sealed (desk_standing self.old) ≡ false → (c : List ℕ)
            → D.image_since (desk_disk self.new) (D.moment (desk_disk self.old)) c
            → Holds (desk_schema self.old) (desk_world self.old) (desk_user self.old)
            (desk_header self.old)
            (after_event (desk_schema self.old) (desk_world self.old) (desk_user self.old)
            (state_of self.old)
            (stop purpose text.now)) c }
        ensures time { Elapses (D.moment (desk_disk self.old)) (D.moment (desk_disk self.new))
            (D.image_since (desk_disk self.old)) (D.image_since (desk_disk self.new)) }
    {
        self.log.known();
        if let Some(code) = self.refusal() {
            return code;
        }
        match self.log.weigh(alloc, purpose, text, examined) {
            Ok(Weighed::Answer(query, mark)) => self.record(alloc, purpose, text, query, mark),
            Ok(Weighed::Code(code)) => code,
            Err(_) => Reply::Memory,
        }
    }

    // The code that answers every text, if there is one. It leaves the desk as it is.
    fn refusal(&self) -> Option<Reply>
        ensures answers { IfSome result (λ code.
            AnswersAll (desk_schema self.now) (desk_world self.now)
            (desk_user self.now) (desk_standing self.now) (state_of self.now) (reply_of code)) }
        ensures adds { IfSome result (λ _.
            AddsNone (desk_schema self.now) (desk_world self.now) (desk_user self.now)
            (state_of self.now)) }
        ensures broken { IfSome result
            (λ code. (code ≡ Reply.Broken) ↔ IsTrue (is_broken_desk self.now)) }
        ensures opened { IfNone result (desk_standing self.now ≡ Standing.Open) }
        ensures whole { IfNone result (entry_in_flight self.now ≡ None) }
    {
        match self.standing {
            Standing::Sealed(_) => Some(Reply::Sealed),
            Standing::Closed(_) => Some(Reply::Closed),
            Standing::Open if self.in_flight.is_some() => Some(Reply::Broken),
            Standing::Open => None,
        }
    }

    // Appends the item of a text that was weighed to the journal, and adds it to the log. What the
    // call was made for is what its clauses speak of.
    fn record(
        &mut self,
        alloc: Global,
        purpose: Purpose,
        text: &str,
        query: Sentence,
        mark: Mark,
    ) -> Reply
        requires short { length text.now ≤ 4096 }
        requires opened { desk_standing self.old ≡ Standing.Open }
        requires whole { entry_in_flight self.old ≡ None }
        requires answer { IsAnswer (desk_schema self.old) (desk_world self.old) (desk_user self.old)
            (desk_history self.old) purpose text.now (formula_of query) mark }
        ensures same { IsOfSame self.old self.new }
        ensures opening { IsOfOneOpening self.old self.new }
        ensures settled { Settles (desk_schema self.old) (desk_world self.old) (desk_user self.old)
            (λ state. state ≡ state_of self.new) (state_of self.old) purpose text.now
            (reply_of result) (D.faults (desk_disk self.old)) (D.faults (desk_disk self.new)) }
        ensures broken { (result ≡ Reply.Broken) ↔ IsTrue (is_broken_desk self.new) }
        ensures untouched { HasNoWrite result → desk_disk self.new ≡ desk_disk self.old }
        ensures count { D.faults (desk_disk self.old) ≤ D.faults (desk_disk self.new) }
        ensures moments { D.tells → (c : List ℕ)
            → D.image_since (desk_disk self.new) (D.moment (desk_disk self.old)) c
            → Holds (desk_schema self.old) (desk_world self.old) (desk_user self.old)
            (desk_header self.old)
            (after_event (desk_schema self.old) (desk_world self.old) (desk_user self.old)
            (state_of self.old)
            (stop purpose text.now)) c }
        ensures time { Elapses (D.moment (desk_disk self.old)) (D.moment (desk_disk self.new))
            (D.image_since (desk_disk self.old)) (D.image_since (desk_disk self.new)) }
    {
        self.log.known();
        self.store.known();
        let Ok(prepared) = self.log.prepare(alloc, text, query, mark) else {
            return Reply::Memory;
        };
        if self.store.reserve(text.len()).is_err() {
            return Reply::Memory;
        }
        match self.store.append(kind_of(mark), text.as_bytes()) {
            Ok(()) => {
                self.log.commit(prepared);
                Reply::Mark(mark)
            }
            Err(_) => {
                self.in_flight = Some(prepared.into_entry());
                Reply::Broken
            }
        }
    }

    /// Gives the disk back.
    pub fn close(self) -> D
        ensures { result ≡ desk_disk self.entry }
    {
        self.store.close()
    }
}
