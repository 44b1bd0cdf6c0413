//! Threads that ask at desks.
ghost use Rattle.std.specs.Prelude.{◌≡◌, ◌+◌, ◌*◌, ◌^◌, ◌≤◌, length, Some};
ghost use Rattle.std.specs.Thread.{IsSync};
ghost use Rattle.cqe_base.specs.History.{profile_of};
ghost use Rattle.cqe_base.specs.Limits.{KeepsLimits};
ghost use Rattle.turnstile.specs.Passes.{IsOf, IsReady, first_value, fixed, shares as shares_of};
ghost use Rattle.turnstile.specs.Passes.{turns};
ghost use Rattle.desk_counter.specs.Counters.{IsPassOf};

use super::{Ward, make_ward};
use crate::clinic::{Clinic, counter_of, desk_on, user_by};
use cqe_base::sentence::Sentence;
use cqe_base::user::{Entry, Mark, Method, User};
use desk_counter::{Counter, CounterOf, DeskPass, Owned, TicketedDesk};
use outside::{Disk, Gate, MemoryDisk, OpenGate, Point};
use std::alloc::Global;
use std::process::Abort;
use std::sync::Wait;
use std::sync::atomic::AtomicU64;
use std::sync::atomic::Ordering::SeqCst;
use std::thread;
use std::thread::{Threads, join};
use turnstile::Pass;
use user_desk::{Desk, Standing};
use user_log::Reply;

/// A session at a counter, which asks one text so often and counts the replies that are its mark.
/// Where that is the mark of an added secret, an operator adds the text.
#[derive(Drop)]
struct Session<'a, 'w, V: Owned, G> {
    counter: &'a CounterOf<'w, V>,
    pass: Pass<V::Item, V::Fixed>,
    shares: u64,
    text: &'a str,
    mark: Mark,
    asks: u64,
    told: u64,
    alloc: Global,
    gate: &'a G,
    ghost place: { IsOf pass counter.now.turnstile },
    ghost ready: { IsReady pass },
    ghost kept: { fixed pass ≡ Some (V.kept (first_value counter.now.turnstile)) },
    ghost counted: { shares ≡ shares_of pass },
    ghost turns: { 2 * asks ≤ turns pass },
    ghost short: { length text.now ≤ 4096 },
    ghost few: { told + asks ≤ 1000 },
}

impl<'a, 'w, D: Disk, G: Gate> Session<'a, 'w, TicketedDesk<'w, D>, G> {
    // One ask.
    fn ask<R: Threads + Wait + Sync>(&mut self, rt: &R)
        requires { 1 ≤ self.old.asks }
        ensures counter { self.new.counter.now ≡ self.old.counter.now }
        ensures asks { self.new.asks + 1 ≡ self.old.asks }
    {
        let question = (self.text, self.mark);
        let reply = told(
            rt,
            self.alloc,
            self.counter,
            &mut self.pass,
            question,
            self.gate,
        );
        self.asks -= 1;
        if is_mark(&reply, self.mark) {
            self.told += 1;
        }
    }
}

/// The reply to a text that is asked, or to be added where the mark of that is looked for.
fn told<'w, R: Threads + Wait + Sync, D: Disk, G: Gate>(
    rt: &R,
    alloc: Global,
    counter: &Counter<'w, D>,
    pass: &mut DeskPass<D>,
    question: (&str, Mark),
    gate: &G,
) -> Reply
    requires pass { IsPassOf pass.old counter.now }
    requires turns { 2 ≤ turns pass.old }
    requires short { length question.0.now ≤ 4096 }
    ensures pass { IsPassOf pass.new counter.now }
    ensures shares { shares_of pass.new ≡ shares_of pass.old }
    ensures turns { turns pass.old ≤ turns pass.new + 2 }
{
    let (text, mark) = question;
    match mark {
        Mark::Protected => counter.protect(rt, alloc, pass, text),
        _ => counter.ask(rt, alloc, pass, text, gate),
    }
}

/// What a thread does.
trait Work {
    // What it leaves as it was.
    ghost same: { Self → Self → Type 0 };

    fn work<R: Threads + Wait + Sync>(self, rt: &R) -> Self
        requires { IsSync R.row }
        ensures { same self result };
}

// All asks of a session.
impl<'a, 'w, D: Disk, G: Gate> Work for Session<'a, 'w, TicketedDesk<'w, D>, G> {
    ghost same = { λ before after. after.counter.now ≡ before.counter.now };

    fn work<R: Threads + Wait + Sync>(self, rt: &R) -> Session<'a, 'w, TicketedDesk<'w, D>, G> {
        let mut session = self;
        while session.asks > 0 {
            session.ask(rt);
        }
        session
    }
}

// Both in threads.
fn work_beside<J: Work + Drop + Send, K: Work + Drop, R: Threads + Wait + Sync>(
    rt: &R,
    one: J,
    two: K,
) -> (J, K)
    ensures one { J.same one result.0 }
    ensures two { K.same two result.1 }
{
    join(
        rt,
        move || -> J
            requires { IsSync R.row }
            ensures { J.same one result }
        { one.work(rt) },
        move || -> K
            requires { IsSync R.row }
            ensures { K.same two result }
        { two.work(rt) },
    )
}

fn is_mark(reply: &Reply, mark: Mark) -> bool {
    match reply {
        Reply::Mark(told) => *told == mark,
        _ => false,
    }
}

/// A session that makes so many asks.
fn session_at<'a, 'w, V: Owned, G: Gate>(
    alloc: Global,
    counter: &'a CounterOf<'w, V>,
    pass: Pass<V::Item, V::Fixed>,
    shares: u64,
    question: (&'a str, Mark),
    asks: u64,
    gate: &'a G,
) -> Session<'a, 'w, V, G>
    requires place { IsOf pass counter.now.turnstile × IsReady pass }
    requires kept { fixed pass ≡ Some (V.kept (first_value counter.now.turnstile)) }
    requires shares { shares ≡ shares_of pass }
    requires turns { 2 * asks ≤ turns pass }
    requires short { length question.0.now ≤ 4096 }
    requires few { asks ≤ 1000 }
    ensures { result.counter.now ≡ counter.now }
{
    let (text, mark) = question;
    Session {
        counter,
        pass,
        shares,
        text,
        mark,
        asks,
        told: 0,
        alloc,
        gate,
    }
}

// A session asks in a thread of its own, beside other work.
fn ask_in_thread<
    'a,
    'w,
    R: Threads + Wait + Sync,
    D: Disk + Drop + Send,
    G: Gate + Sync,
    K: Work + Drop,
>(
    rt: &R,
    one: Session<'a, 'w, TicketedDesk<'w, D>, G>,
    two: K,
) -> (Session<'a, 'w, TicketedDesk<'w, D>, G>, K)
    ensures one { result.0.counter.now ≡ one.entry.counter.now }
    ensures two { K.same two result.1 }
{
    work_beside(rt, one, two)
}

// Two threads ask one desk 100 times each, with a pass and a question of their own. The passes
// meet, and the counter is closed. It says how many replies were the marks that were looked for.
fn ask_by_two<'w, R: Abort + Threads + Wait + Sync>(
    rt: &R,
    alloc: Global,
    counter: Counter<'w, MemoryDisk>,
    pass: DeskPass<MemoryDisk>,
    questions: ((&str, Mark), (&str, Mark)),
) -> (Desk<'w, MemoryDisk>, u64)
    requires pass { IsPassOf pass counter }
    requires all { (shares_of pass ≡ 65) × (turns pass ≡ 65 * 2 ^ 57) }
    requires short { (length questions.0.0.now ≤ 4096) × (length questions.1.0.now ≤ 4096) }
{
    let mut first = pass;
    let Ok(second) = counter.split(&mut first) else {
        panic!(rt; "not split");
    };
    let one = session_at(alloc, &counter, first, 64, questions.0, 100, &OpenGate);
    let two = session_at(alloc, &counter, second, 1, questions.1, 100, &OpenGate);
    let (one, two) = ask_in_thread(rt, one, two);
    let told = one.told + two.told;
    if one.shares != 64 || two.shares != 1 {
        panic!(rt; "other shares");
    }
    let mut pass = one.pass;
    counter.meet(&mut pass, two.pass);
    (counter.close(pass), told)
}

/// Whether an entry is of the lie, which is marked by no; each other one is marked by yes.
fn is_lie(rt: &impl Abort, entry: &Entry) -> bool {
    match entry.query {
        Sentence::Not(_) => {
            assert_eq!(rt; entry.mark, Mark::Yes);
            false
        }
        _ => {
            assert_eq!(rt; entry.mark, Mark::No);
            true
        }
    }
}

/// How many entries are lies.
fn count_lies(rt: &impl Abort, entries: &[Entry]) -> u64 {
    let mut lies = 0_u64;
    for entry in entries {
        if is_lie(rt, entry) {
            lies = lies.wrapping_add(1);
        }
    }
    lies
}

/// A desk has an entry for each of the 200 asks, and half of them are lies.
fn check_entries(rt: &impl Abort, desk: &Desk<'_, MemoryDisk>, told: u64) {
    assert_eq!(rt;
        (told, desk.entries().len(), desk.broken()),
        (200, 200, false)
    );
    assert_eq!(rt; count_lies(rt, desk.entries()), 100);
}

// A journal is opened again only where each mark is that of the rule.
fn opens_again(rt: &impl Abort, alloc: Global, ward: &Ward, disk: MemoryDisk)
    requires { KeepsLimits ward.now.clinic.schema (profile_of ward.now.eve) }
{
    let again = desk_on(rt, alloc, &ward.clinic, &ward.eve, disk);
    assert_eq!(rt; *again.standing(), Standing::Open);
    assert_eq!(rt; again.entries().len(), 200);
}

/// What two ask: a lie is told of the first, and the truth of the second.
const QUESTIONS: ((&str, Mark), (&str, Mark)) = (
    ("drug(ann)", Mark::No),
    ("not hiv(bob)", Mark::Yes),
);

// A liar who keeps `hiv(ann)` secret is told `no` of `drug(ann)`, a lie, and `yes` of
// `not hiv(bob)`, the truth.
#[test]
fn two_threads_ask_one_desk(rt: HostRuntime) {
    let alloc = rt.alloc();
    let ward = make_ward(&rt, alloc);
    let (counter, pass) = counter_of(&rt, alloc, &ward.clinic, &ward.eve);
    let (desk, told) = ask_by_two(&rt, alloc, counter, pass, QUESTIONS);
    check_entries(&rt, &desk, told);
    opens_again(&rt, alloc, &ward, desk.close());
}

/// So often a call is waited for at most.
const PATIENCE: u64 = 1 << 22;

/// A gate that holds the first ask of eve's, once its text was examined, until another ask has been
/// answered.
#[derive(Drop)]
struct Hold {
    held: AtomicU64,
    answered: AtomicU64,
    given_up: AtomicU64,
}

impl Gate for Hold {
    fn pass(&self, user: &str, point: Point) {
        if user == "eve" && point == Point::Examined && self.held.load(SeqCst) == 0 {
            self.held.store(1, SeqCst);
            if !was_reached(&self.answered, 1) {
                self.given_up.store(1, SeqCst);
            }
        }
    }
}

// Waits until a count is at least this, a limited time; it says whether it was.
fn was_reached(count: &AtomicU64, least: u64) -> bool {
    for _ in 0..PATIENCE {
        if count.load(SeqCst) >= least {
            return true;
        }
        thread::yield_now();
    }
    false
}

/// A session that asks while an ask at the gate is held, and then lets that go on.
#[derive(Drop)]
struct Other<'a, 'w, V: Owned> {
    session: Session<'a, 'w, V, Hold>,
    /// An ask was held before this one began.
    saw_held: bool,
}

impl<'a, 'w, D: Disk> Work for Other<'a, 'w, TicketedDesk<'w, D>> {
    ghost same = { λ before after. after.session.counter.now ≡ before.session.counter.now };

    fn work<R: Threads + Wait + Sync>(self, rt: &R) -> Other<'a, 'w, TicketedDesk<'w, D>> {
        let hold = self.session.gate;
        let saw_held = was_reached(&hold.held, 1);
        let session = self.session.work(rt);
        hold.answered.store(1, SeqCst);
        Other { session, saw_held }
    }
}

/// What came of two asks, of which the first was held until the second was answered.
#[derive(Clone, Copy, Debug, PartialEq, Eq)]
struct Beside {
    first_told: u64,
    second_told: u64,
    saw_held: bool,
    gave_up: bool,
}

// The second session asks while the first is held.
fn ask_while_held<'a, 'w, R: Threads + Wait + Sync, D: Disk + Drop + Send>(
    rt: &R,
    one: Session<'a, 'w, TicketedDesk<'w, D>, Hold>,
    two: Session<'a, 'w, TicketedDesk<'w, D>, Hold>,
) -> Beside {
    let hold = two.gate;
    let other = Other {
        session: two,
        saw_held: false,
    };
    let (one, other) = ask_in_thread(rt, one, other);
    Beside {
        first_told: one.told,
        second_told: other.session.told,
        saw_held: other.saw_held,
        gave_up: hold.given_up.load(SeqCst) == 1,
    }
}

// Two users ask once, each at his desk, the second while the first is held.
fn ask_two_desks<'w, R: Threads + Wait + Sync>(
    rt: &R,
    alloc: Global,
    first: (Counter<'w, MemoryDisk>, DeskPass<MemoryDisk>),
    second: (Counter<'w, MemoryDisk>, DeskPass<MemoryDisk>),
) -> Beside
    requires first { IsPassOf first.1 first.0 × (shares_of first.1 ≡ 65)
        × (turns first.1 ≡ 65 * 2 ^ 57) }
    requires second { IsPassOf second.1 second.0 × (shares_of second.1 ≡ 65)
        × (turns second.1 ≡ 65 * 2 ^ 57) }
{
    let (counter, pass) = first;
    let (other, others_pass) = second;
    let hold = Hold {
        held: AtomicU64::new(0),
        answered: AtomicU64::new(0),
        given_up: AtomicU64::new(0),
    };
    let question = ("drug(ann)", Mark::No);
    let one = session_at(alloc, &counter, pass, 65, question, 1, &hold);
    let two = session_at(alloc, &other, others_pass, 65, question, 1, &hold);
    ask_while_held(rt, one, two)
}

/// Each was told the mark, and the second didn't wait for the first.
const ONE_EACH: Beside = Beside {
    first_told: 1,
    second_told: 1,
    saw_held: true,
    gave_up: false,
};

#[test]
fn users_do_not_wait_for_each_other(rt: HostRuntime) {
    let alloc = rt.alloc();
    let ward = make_ward(&rt, alloc);
    let eves = counter_of(&rt, alloc, &ward.clinic, &ward.eve);
    let dans = counter_of(&rt, alloc, &ward.clinic, &ward.dan);
    assert_eq!(rt; ask_two_desks(&rt, alloc, eves, dans), ONE_EACH);
}

// Two sessions of one user ask once, the second while the first is held.
fn ask_one_desk<'w, R: Abort + Threads + Wait + Sync>(
    rt: &R,
    alloc: Global,
    counter: Counter<'w, MemoryDisk>,
    pass: DeskPass<MemoryDisk>,
    questions: ((&str, Mark), (&str, Mark)),
) -> Beside
    requires pass { IsPassOf pass counter }
    requires all { (shares_of pass ≡ 65) × (turns pass ≡ 65 * 2 ^ 57) }
    requires short { (length questions.0.0.now ≤ 4096) × (length questions.1.0.now ≤ 4096) }
{
    let mut first = pass;
    let Ok(second) = counter.split(&mut first) else {
        panic!(rt; "not split");
    };
    let hold = Hold {
        held: AtomicU64::new(0),
        answered: AtomicU64::new(0),
        given_up: AtomicU64::new(0),
    };
    let one = session_at(alloc, &counter, first, 64, questions.0, 1, &hold);
    let two = session_at(alloc, &counter, second, 1, questions.1, 1, &hold);
    ask_while_held(rt, one, two)
}

// Two sessions of this user ask so, and neither waits.
fn check_desk<R: Abort + Threads + Wait + Sync>(
    rt: &R,
    alloc: Global,
    clinic: &Clinic,
    user: &User,
    questions: ((&str, Mark), (&str, Mark)),
)
    requires limits { KeepsLimits clinic.now.schema (profile_of user.now) }
    requires short { (length questions.0.0.now ≤ 4096) × (length questions.1.0.now ≤ 4096) }
{
    let (counter, pass) = counter_of(rt, alloc, clinic, user);
    assert_eq!(rt; ask_one_desk(rt, alloc, counter, pass, questions), ONE_EACH);
}

// The log has grown when the first ask is settled, so its text is examined again.
#[test]
fn sessions_of_one_user_do_not_wait_for_each_others_examinations(rt: HostRuntime) {
    let alloc = rt.alloc();
    let ward = make_ward(&rt, alloc);
    check_desk(&rt, alloc, &ward.clinic, &ward.eve, QUESTIONS);
}

// By the first log the text that is asked is told truly. A secret that is added beside the ask
// isn't in the log, but it makes the truth a harm: the text is examined again, and gets a lie.
#[test]
fn a_secret_that_is_added_beside_an_ask_counts(rt: HostRuntime) {
    let alloc = rt.alloc();
    let ward = make_ward(&rt, alloc);
    let eve = user_by(&rt, alloc, &ward.clinic, "eve", Method::Combined);
    let text = "hiv(ann) or hiv(bob)";
    let questions = ((text, Mark::No), (text, Mark::Protected));
    check_desk(&rt, alloc, &ward.clinic, &eve, questions);
}

/// A gate that holds each ask, once its text was examined, until two were.
#[derive(Drop)]
struct Both {
    examined: AtomicU64,
    given_up: AtomicU64,
}

impl Gate for Both {
    fn pass(&self, _user: &str, point: Point) {
        if point == Point::Examined {
            let _before = self.examined.fetch_add(1, SeqCst);
            if !was_reached(&self.examined, 2) {
                self.given_up.store(1, SeqCst);
            }
        }
    }
}

// Two sessions of one user ask once, and neither ask is settled before both texts were examined. It
// says how many replies of each were the mark that was looked for, and whether one gave up.
fn ask_examined<'w, R: Abort + Threads + Wait + Sync>(
    rt: &R,
    alloc: Global,
    counter: Counter<'w, MemoryDisk>,
    pass: DeskPass<MemoryDisk>,
    questions: ((&str, Mark), (&str, Mark)),
) -> (u64, u64, bool)
    requires pass { IsPassOf pass counter }
    requires all { (shares_of pass ≡ 65) × (turns pass ≡ 65 * 2 ^ 57) }
    requires short { (length questions.0.0.now ≤ 4096) × (length questions.1.0.now ≤ 4096) }
{
    let mut first = pass;
    let Ok(second) = counter.split(&mut first) else {
        panic!(rt; "not split");
    };
    let gate = Both {
        examined: AtomicU64::new(0),
        given_up: AtomicU64::new(0),
    };
    let one = session_at(alloc, &counter, first, 64, questions.0, 1, &gate);
    let two = session_at(alloc, &counter, second, 1, questions.1, 1, &gate);
    let (one, two) = ask_in_thread(rt, one, two);
    (one.told, two.told, gate.given_up.load(SeqCst) == 1)
}

// Both sessions are told the mark that they look for, or neither is, and nobody gives up.
fn check_examined<R: Abort + Threads + Wait + Sync>(rt: &R, alloc: Global, ward: &Ward)
    requires { KeepsLimits ward.now.clinic.schema (profile_of ward.now.eve) }
{
    let questions = (("hiv(ann) or hiv(bob)", Mark::Yes), ("hiv(bob)", Mark::Yes));
    let (counter, pass) = counter_of(rt, alloc, &ward.clinic, &ward.eve);
    let told = ask_examined(rt, alloc, counter, pass, questions);
    assert_eq!(rt; told.0, told.1);
    assert!(rt; !told.2);
}

// Before any entry each text could be answered truly: yes to the first, no to the second. Together
// these would tell the secret, so behind a yes to the first the second is answered yes, a lie, and
// behind a no to the second the first is answered no, a lie too.
#[test]
fn what_was_examined_after_an_older_log_is_not_used(rt: HostRuntime) {
    let alloc = rt.alloc();
    let ward = make_ward(&rt, alloc);
    for _ in 0..10 {
        check_examined(&rt, alloc, &ward);
    }
}
