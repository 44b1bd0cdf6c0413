//! A desk that threads share, and its calls.
ghost use Rattle.std.specs.Prelude.{◌≡◌};
ghost use Rattle.std.specs.Coded.{Coded-set};
ghost use Rattle.entailment.specs.ViewCode.{schema_code};
ghost use Rattle.turnstile.specs.Passes.{first_value};
ghost use Rattle.user_log.specs.Examiners.{examiner_schema, examiner_user};
ghost use Rattle.desk_counter.specs.Codes.{profile_code};

use crate::crowd::Crowd;
use crate::item::{Fixed, TurnItem};
use crate::ticketed_desk::{Owned, TicketedDesk};
use cqe_base::schema::Schema;
use cqe_base::user::{Purpose, User};
use entailment::GroundSentence;
use outside::{Disk, Gate, Point};
use std::alloc::Global;
use std::sync::Wait;
use std::thread::Threads;
use turnstile::{Pass, PassError, Turnstile};
use user_desk::Desk;
use user_log::{Examined, Examiner, Lent, Reply};

/// A turnstile has so many shares.
const ALL_SHARES: u64 = 65;

/// A value that threads share, with what examines the texts of the user whose it is. It stands for
/// a `Counter` wherever a thread is to take it, since it says nothing of the value's type.
#[derive(Drop)]
pub struct CounterOf<'w, V: Owned> {
    turnstile: Turnstile<V>,
    examiner: Examiner<'w>,
    crowd: Crowd,
    ghost owned: { examiner_user examiner
        ≡ V.owner (first_value turnstile) } by { Coded-set profile_code _ _ },
    ghost schemed: { examiner_schema examiner
        ≡ V.schema (first_value turnstile) } by { Coded-set schema_code _ _ },
}

/// A user's desk that threads share.
pub type Counter<'w, D> = CounterOf<'w, TicketedDesk<'w, D>>;

/// A pass at a counter.
pub type DeskPass<D> = Pass<TurnItem, Fixed<D>>;

impl<'w, D: Disk> CounterOf<'w, TicketedDesk<'w, D>> {
    ghost use Rattle.std.specs.Prelude.{◌⊎◌, ℕ, ◌^◌, ◌+◌, ◌*◌, ◌≤◌, ◌<◌, ◌↔◌, IsTrue, true, false};
    ghost use Rattle.std.specs.Prelude.{List, [], length, None, IfOk, IfErr, OnOk, IfSome};
    ghost use Rattle.cqe_base.specs.Censor.{IsLegal};
    ghost use Rattle.cqe_base.specs.History.{profile_of};
    ghost use Rattle.cqe_base.specs.Limits.{KeepsSizes};
    ghost use Rattle.entailment.specs.GroundSentences.{sentence_of};
    ghost use Rattle.user_log.specs.Examining.{IsLent};
    ghost use Rattle.cqe_base.specs.declared.user.Mark.{Mark};
    ghost use Rattle.cqe_base.specs.declared.user.Mark.TheVariants.{Protected};
    ghost use Rattle.cqe_base.specs.declared.user.Purpose.TheVariants.{Asking, Protecting};
    ghost use Rattle.turnstile.specs.declared.pass.PassError.TheVariants.{TooMany};
    ghost use Rattle.turnstile.specs.History.{IsPrefix, IsOpening, Interleaves, IsRising};
    ghost use Rattle.turnstile.specs.History.{entries_with, turn_entries, count_of};
    ghost use Rattle.turnstile.specs.Views.{remaining_view, split_off_view, view_of_both};
    ghost use Rattle.turnstile.specs.Views.{DrewEachOnce};
    ghost use Rattle.turnstile.specs.Passes.{view_of, seen, tickets, mine, shares, turns};
    ghost use Rattle.user_desk.specs.Entries.{StandsFor};
    ghost use Rattle.user_desk.specs.Standings.{is_sealed};
    ghost use Rattle.user_desk.specs.Desks.{desk_history, desk_disk, entry_in_flight};
    ghost use Rattle.desk_counter.specs.Items.{history_of, flying, has_broke, BrokeIsLast};
    ghost use Rattle.desk_counter.specs.Items.{is_broke_last};
    ghost use Rattle.desk_counter.specs.Desks.{fixed_of};
    ghost use Rattle.desk_counter.specs.Asks.{NoMark, Asked, IsReply, TellsMark, AddsNoEntry};
    ghost use Rattle.desk_counter.specs.Asks.{Looked, IsExaminedBehind, AskedBehind};
    ghost use Rattle.desk_counter.specs.Counters.{kept_by, first_pairs, IsPassOf};
    ghost use Rattle.desk_counter.specs.Closed.{IsClosed};

    /// Puts a desk under a counter. The pass has all 65 shares and 65 * 2^57 turns, and has seen
    /// the desk's entries, with ticket 0. For want of memory the desk comes back.
    pub fn new(
        alloc: Global,
        desk: Desk<'w, D>,
    ) -> Result<(Counter<'w, D>, DeskPass<D>), Desk<'w, D>>
        ensures pass { IfOk result (λ c. IsPassOf c.1 c.0) }
        ensures kept { IfOk result (λ c. kept_by c.0 ≡ fixed_of desk.entry) }
        ensures first { IfOk result (λ c. first_pairs c.0 ≡ seen c.1) }
        ensures history { IfOk result (λ c. history_of (seen c.1) ≡ desk_history desk.entry) }
        ensures in_flight { IfOk result (λ c. flying (seen c.1) ≡ entry_in_flight desk.entry) }
        ensures opening { IfOk result (λ c. IsOpening (seen c.1)) }
        ensures last { IfOk result (λ c. is_broke_last (seen c.1) ≡ true) }
        ensures mine { IfOk result (λ c. mine c.1 ≡ []) }
        ensures all { IfOk result (λ c. (shares c.1 ≡ 65) × (turns c.1 ≡ 65 * 2 ^ 57)) }
        ensures err { IfErr result (λ same. same ≡ desk.entry) }
    {
        let value = TicketedDesk::new(alloc, desk)?;
        let examiner = match value.examiner(alloc) {
            Ok(examiner) => examiner,
            Err(_) => return Err(value.into_desk()),
        };
        match Turnstile::new(alloc, value) {
            Ok((turnstile, pass)) => Ok((
                CounterOf {
                    turnstile,
                    examiner,
                    crowd: Crowd::new(),
                },
                pass,
            )),
            Err(value) => Err(value.into_desk()),
        }
    }

    /// The user whose desk it is.
    pub fn user(&self) -> &'w User
        ensures { profile_of result.now ≡ (kept_by self.now).user }
    {
        self.examiner.user()
    }

    /// The schema of its texts.
    pub fn schema(&self) -> &'w Schema
        ensures { result.now ≡ (kept_by self.now).schema }
    {
        self.examiner.schema()
    }

    /// Splits off a pass with one share and 2^57 turns, which has seen as much. It takes no memory.
    pub fn split(&self, pass: &mut DeskPass<D>) -> Result<DeskPass<D>, PassError>
        requires pass { IsPassOf pass.old self.now }
        requires room { (shares pass.old ≡ 1) ⊎ (2 ^ 57 ≤ turns pass.old) }
        ensures pass { IsPassOf pass.new self.now }
        ensures rest { OnOk result (view_of pass.new ≡ remaining_view (view_of pass.old)) }
        ensures part { IfOk result (λ p. IsPassOf p self.now
            × (view_of p ≡ split_off_view (view_of pass.old))) }
        ensures mine { IfOk result (λ p. mine p ≡ []) }
        ensures ok { OnOk result (1 < shares pass.old) }
        ensures err { IfErr result (λ e. (e ≡ TooMany) × (shares pass.old ≡ 1)
            × (view_of pass.new ≡ view_of pass.old)) }
    {
        self.turnstile.split(pass)
    }

    /// Joins another pass to this one: the shares and the turns add up, and the longer of both
    /// lists has been seen.
    pub fn meet(&self, pass: &mut DeskPass<D>, other: DeskPass<D>)
        requires this { IsPassOf pass.old self.now }
        requires that { IsPassOf other self.now }
        ensures pass { IsPassOf pass.new self.now }
        ensures view { view_of pass.new ≡ view_of_both (view_of pass.old) (view_of other) }

        // Each had seen a prefix, in which all pairs with its tickets were.
        ensures this { IsPrefix (seen pass.old) (seen pass.new)
            × (entries_with (tickets pass.old) (seen pass.new) ≡ mine pass.old) }
        ensures that { IsPrefix (seen other) (seen pass.new)
            × (entries_with (tickets other) (seen pass.new) ≡ mine other) }

        // The pairs of both are put together in the order of their tickets, and no ticket was drawn
        // twice.
        ensures mine { Interleaves (mine pass.old) (mine other) (mine pass.new) }
        ensures order { (n : ℕ) × IsRising 0 n (seen pass.new) }
        ensures apart { (x : ℕ) → count_of x (tickets pass.new) ≤ 1 }
    {
        self.turnstile.meet(pass, other);
    }

    /// Asks a text, in two turns. In the first one it takes views of the log. Between both it
    /// examines the text after these, by as many threads as there are views. In the second one it
    /// settles the text by the items of all calls before, with what was found where these are as
    /// many as they were, and else with what it finds then. A pass that has all shares makes the
    /// second turn alone, and so does an ask of which nothing is to be examined, or beside which
    /// two others are under way. The gate is passed between both turns and after the second.
    pub fn ask<R: Threads + Wait + Sync, G: Gate>(
        &self,
        rt: &R,
        alloc: Global,
        pass: &mut DeskPass<D>,
        text: &str,
        gate: &G,
    ) -> Reply
        requires pass { IsPassOf pass.old self.now }
        requires turns { 2 ≤ turns pass.old }
        requires short { length text.now ≤ 4096 }
        ensures pass { IsPassOf pass.new self.now }
        ensures used { (shares pass.new ≡ shares pass.old) × (turns pass.old ≤ turns pass.new + 2) }

        // What the ask found, what it added, and what it answered.
        ensures asked { Asked (kept_by self.now) pass.old pass.new Asking text.now result }

        // The reply is that of the rule for what was seen, without the last pair where it is a
        // mark; Broken is answered exactly where an append failed.
        ensures reply { IsReply (kept_by self.now) Asking text.now (seen pass.new) result }
        ensures broken { (result ≡ Reply.Broken) ↔ IsTrue (has_broke (seen pass.new)) }

        // A mark's entry is the last that was seen and the one that the pass has more of its own;
        // without a mark there is none.
        ensures mark { TellsMark (kept_by self.now) pass.old pass.new text.now result }
        ensures none { NoMark result → AddsNoEntry (kept_by self.now) pass.old pass.new }
        ensures later { IsPrefix (seen pass.old) (seen pass.new) }

        // The history is legal and within the limits, and an entry in flight stands last.
        ensures legal { IsLegal (kept_by self.now).schema (kept_by self.now).world
            (kept_by self.now).user
            (history_of (seen pass.new)) }
        ensures sizes { KeepsSizes (kept_by self.now).schema (kept_by self.now).user
            (history_of (seen pass.new)) }
        ensures last { BrokeIsLast (seen pass.new) }
    {
        self.crowd.enter();
        let examined = self.examined(rt, alloc, pass, text);
        gate.pass(self.user().name.as_str(), Point::Examined);
        let reply = self.settle(rt, alloc, pass, Purpose::Asking, text, examined);
        self.crowd.leave();
        gate.pass(self.user().name.as_str(), Point::Settled);
        reply
    }

    /// Adds a text to the user's secrets, all in one turn, where the items of all calls before are
    /// still safe with it. The mark of a secret that was added is `Protected`; what an ask beside
    /// it found before isn't used any more.
    pub fn protect<R: Wait>(
        &self,
        rt: &R,
        alloc: Global,
        pass: &mut DeskPass<D>,
        text: &str,
    ) -> Reply
        requires pass { IsPassOf pass.old self.now }
        requires turns { 1 ≤ turns pass.old }
        requires short { length text.now ≤ 4096 }
        ensures pass { IsPassOf pass.new self.now }
        ensures used { (shares pass.new ≡ shares pass.old) × (turns pass.old ≤ turns pass.new + 1) }

        // What the call found, what it added, and what it answered.
        ensures asked { Asked (kept_by self.now) pass.old pass.new Protecting text.now result }

        // The reply is that of the definitions for what was seen, without the last pair where a
        // secret was added; no world is looked at. Broken is answered exactly where an append
        // failed.
        ensures reply { IsReply (kept_by self.now) Protecting text.now (seen pass.new) result }
        ensures broken { (result ≡ Reply.Broken) ↔ IsTrue (has_broke (seen pass.new)) }

        // A mark is that of an added secret, whose item is the last that was seen and the one that
        // the pass has more of its own; without a mark there is none.
        ensures protected { (mark : Mark) → result ≡ Reply.Mark mark → mark ≡ Protected }
        ensures mark { TellsMark (kept_by self.now) pass.old pass.new text.now result }
        ensures none { NoMark result → AddsNoEntry (kept_by self.now) pass.old pass.new }
        ensures later { IsPrefix (seen pass.old) (seen pass.new) }

        // The history is legal and within the limits, and an entry in flight stands last.
        ensures legal { IsLegal (kept_by self.now).schema (kept_by self.now).world
            (kept_by self.now).user
            (history_of (seen pass.new)) }
        ensures sizes { KeepsSizes (kept_by self.now).schema (kept_by self.now).user
            (history_of (seen pass.new)) }
        ensures last { BrokeIsLast (seen pass.new) }
    {
        self.settle(rt, alloc, pass, Purpose::Protecting, text, None)
    }

    /// The turn that settles a call, with what was found of a query before, if that was done.
    fn settle<R: Wait>(
        &self,
        rt: &R,
        alloc: Global,
        pass: &mut DeskPass<D>,
        purpose: Purpose,
        text: &str,
        examined: Option<Examined<'w>>,
    ) -> Reply
        requires pass { IsPassOf pass.old self.now }
        requires turns { 1 ≤ turns pass.old }
        requires short { length text.now ≤ 4096 }
        requires examined { IfSome examined
            (IsExaminedBehind (kept_by self.now) (seen pass.old) text.now) }
        ensures pass { IsPassOf pass.new self.now }
        ensures used { (shares pass.new ≡ shares pass.old) × (turns pass.old ≤ turns pass.new + 1) }
        ensures asked { AskedBehind (kept_by self.now) pass.old pass.new purpose text.now result }
        ensures broken { (result ≡ Reply.Broken) ↔ IsTrue (has_broke (seen pass.new)) }
        ensures legal { IsLegal (kept_by self.now).schema (kept_by self.now).world
            (kept_by self.now).user
            (history_of (seen pass.new)) }
        ensures sizes { KeepsSizes (kept_by self.now).schema (kept_by self.now).user
            (history_of (seen pass.new)) }
        ensures last { BrokeIsLast (seen pass.new) }
    {
        let mut turn = self.turnstile.enter(rt, pass);
        let ticket = turn.ticket();
        let reply = turn.value.settle(alloc, ticket, purpose, text, examined);
        turn.value.known();
        self.turnstile.leave(pass, turn);
        reply
    }

    /// What is found of a text after the log as it stands in a first turn. There is nothing where
    /// the pass has all shares, many asks are under way, the text is no query that is to be
    /// examined, or memory is wanting.
    fn examined<R: Threads + Wait + Sync>(
        &self,
        rt: &R,
        alloc: Global,
        pass: &mut DeskPass<D>,
        text: &str,
    ) -> Option<Examined<'w>>
        requires pass { IsPassOf pass.old self.now }
        requires turns { 1 ≤ turns pass.old }
        requires short { length text.now ≤ 4096 }
        ensures pass { IsPassOf pass.new self.now }
        ensures used { turns pass.old ≤ turns pass.new + 1 }
        ensures looked { Looked pass.old pass.new }
        ensures examined { IfSome result
            (IsExaminedBehind (kept_by self.now) (seen pass.new) text.now) }
    {
        if pass.shares() == ALL_SHARES {
            return None;
        }
        if self.crowd.is_large() {
            return None;
        }
        let query = self.examiner.read(alloc, text)?;
        let lent = self.lend(rt, alloc, pass, text, &query)?;
        self.examiner.examine(rt, alloc, lent, query)
    }

    /// A first turn: takes views of the log, after which the query of a text is to be examined.
    fn lend<R: Wait>(
        &self,
        rt: &R,
        alloc: Global,
        pass: &mut DeskPass<D>,
        text: &str,
        query: &GroundSentence,
    ) -> Option<Lent<'w>>
        requires pass { IsPassOf pass.old self.now }
        requires turns { 1 ≤ turns pass.old }
        requires short { length text.now ≤ 4096 }
        ensures pass { IsPassOf pass.new self.now }
        ensures used { turns pass.old ≤ turns pass.new + 1 }
        ensures looked { Looked pass.old pass.new }
        ensures lent { IfSome result
            (IsLent (kept_by self.now).schema (kept_by self.now).user
            (history_of (seen pass.new)) (sentence_of query.now)) }
    {
        let mut turn = self.turnstile.enter(rt, pass);
        let lent = turn.value.lend(alloc, text, query);
        self.turnstile.leave(pass, turn);
        lent
    }

    /// Takes the desk out, with the pass that has all shares. Its entries have no tickets any more,
    /// so that it can be put under a counter again.
    pub fn close(self, pass: DeskPass<D>) -> Desk<'w, D>
        requires pass { IsPassOf pass self }
        requires all { shares pass ≡ 65 }
        ensures kept { fixed_of result ≡ kept_by self.entry }
        ensures history { desk_history result ≡ history_of (seen pass) }
        ensures in_flight { entry_in_flight result ≡ flying (seen pass) }
        ensures mine { turn_entries (seen pass) ≡ mine pass }

        // They are the pairs that the desk was put under the counter with, and behind them the
        // pass's own: so an append failed where one had failed before, or one of the pass's own.
        // What was seen is a legal history within the limits, and what became of its disk since the
        // desk's opening.
        ensures closed { IsClosed D.Disk (kept_by self.entry) (first_pairs self.entry) (mine pass)
            (seen pass) (desk_disk result) }
        ensures drew { DrewEachOnce (view_of pass) }

        // Where no append failed, each crash leaves just that history.
        ensures whole { D.tells → is_sealed (kept_by self.entry).standing ≡ false
            → has_broke (seen pass) ≡ false
            → (c : List ℕ) → D.image (desk_disk result) c
            → StandsFor (kept_by self.entry).schema (kept_by self.entry).header
            (history_of (seen pass)) c }
    {
        let desk = self.turnstile.close(pass).into_desk();
        desk.known();
        desk
    }
}
