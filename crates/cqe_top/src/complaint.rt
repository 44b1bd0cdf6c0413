//! What is said where a command didn't do all that it does.
ghost use Rattle.std.specs.Prelude.{◌≡◌, ◌≤◌, ◌++◌, length, codes, decimal, slice_get};
ghost use Rattle.std.specs.Prelude.{OnOk, OnErr};
ghost use Rattle.cqe_base.specs.Transcript.{mark_text};
ghost use Rattle.outside.specs.Faults.{Rose, HasCause};
ghost use Rattle.outside.specs.Streams.{AppendsUnless, AppendsPart};
ghost use Rattle.cqe_top.specs.Complaints.{complaint_of, kind_number, schema_number};
ghost use Rattle.cqe_top.specs.Complaints.{script_complaint, policy_complaint, facts_complaint};
ghost use Rattle.cqe_top.specs.Complaints.{place_complaint, user_text, index_text, cause_text};
ghost use Rattle.cqe_top.specs.Complaints.{opening_cause, journal_cause, cause_line, journal_line};
ghost use Rattle.cqe_top.specs.Complaints.{user_line, refusal_line, journal_lines};
ghost use Rattle.cqe_top.specs.Complaints.{dossier_complaint};
ghost use Rattle.dossier_engine.specs.declared.end.CheckRefusal.TheVariants as refusals;

use crate::report::Report;
use cqe_base::schema::SchemaError;
use cqe_base::text::{ScriptError, ScriptKind, TextError};
use cqe_base::user::{Mark, User};
use dossier::DossierError;
use dossier_engine::CheckRefusal;
use line_protocol::{LineText, Reply, text_of};
use log_journal::OpenError;
use outside::{Failed, Sink, write_all, write_parts};
use policy_files::{FactsError, KeyPlace, PolicyError};
use user_desk::DeskError;

/// Gives the complaint of a report to a sink. Where that fails nobody is left to be told.
pub(crate) fn complain<E: Sink>(complaints: &mut E, report: &Report<'_>)
    ensures given { E.tells → AppendsUnless (complaint_of report.now)
        (E.written complaints.old) (E.written complaints.new)
        (Rose (E.faults complaints.old) (E.faults complaints.new)) }
    ensures later { E.faults complaints.old ≤ E.faults complaints.new }
{
    let _given = give(complaints, report);
}

fn give<E: Sink>(complaints: &mut E, report: &Report<'_>) -> Result<(), Failed>
    ensures all { E.tells → OnOk result (E.written complaints.new
        ≡ E.written complaints.old ++ complaint_of report.now) }
    ensures part { E.tells → OnErr result (AppendsPart (E.written complaints.old)
        (E.written complaints.new) (complaint_of report.now)) }
    ensures cause { HasCause (E.faults complaints.old) (E.faults complaints.new) result }
{
    match report {
        Report::Done => Ok(()),
        Report::Usage => write_all(complaints, b"cqe: usage\n"),
        Report::Missing(name) => {
            write_parts(complaints, &[b"cqe: missing ", name.as_bytes(), b"\n"])
        }
        Report::ShelfFault => write_all(complaints, b"cqe: shelf fault\n"),
        Report::Policy(why) => give_policy(complaints, why),
        Report::Facts(why) => write_all(complaints, facts_complaint(*why).bytes()),
        Report::Script(refusal) => write_all(complaints, script_complaint(*refusal).bytes()),
        Report::ReadFault => write_all(complaints, b"cqe: read fault\n"),
        Report::WriteFault => write_all(complaints, b"cqe: write fault\n"),
        Report::Journal(name, why) => give_journal(complaints, name, *why),
        Report::JournalAt(users, number, why) => {
            give_user(complaints, users.as_slice(), *number, opening_cause(*why))
        }
        Report::TargetAt(users, number) => {
            give_user(
                complaints,
                users.as_slice(),
                *number,
                LineText::new("not empty"),
            )
        }
        Report::Journals(users, refusals) => {
            give_journals(complaints, users.as_slice(), refusals.as_slice())
        }
        Report::DiskFault => write_all(complaints, b"cqe: disk fault\n"),
        Report::LinksFault => write_all(complaints, b"cqe: links fault\n"),
        Report::Memory => write_all(complaints, b"cqe: out of memory\n"),
        Report::Dossier(why) => write_all(complaints, dossier_complaint(*why).bytes()),
    }
}

/// Gives a line for each user whose journal is refused, in their order.
fn give_journals<E: Sink>(
    complaints: &mut E,
    users: &[User],
    refusals: &[Option<DeskError>],
) -> Result<(), Failed>
    ensures all { E.tells → OnOk result (E.written complaints.new
        ≡ E.written complaints.old ++ journal_lines users.now refusals.now) }
    ensures part { E.tells → OnErr result (AppendsPart (E.written complaints.old)
        (E.written complaints.new) (journal_lines users.now refusals.now)) }
    ensures cause { HasCause (E.faults complaints.old) (E.faults complaints.new) result }
{
    let Some((user, users)) = users.split_first() else {
        return Ok(());
    };
    let Some((refusal, refusals)) = refusals.split_first() else {
        return Ok(());
    };
    match give_refusal(complaints, user.name.as_str(), *refusal) {
        Ok(()) => give_journals(complaints, users, refusals),
        Err(Failed) => Err(Failed),
    }
}

/// Gives the line of a user, if his journal is refused.
fn give_refusal<E: Sink>(
    complaints: &mut E,
    name: &str,
    refusal: Option<DeskError>,
) -> Result<(), Failed>
    ensures all { E.tells → OnOk result (E.written complaints.new
        ≡ E.written complaints.old ++ refusal_line name.now refusal) }
    ensures part { E.tells → OnErr result (AppendsPart (E.written complaints.old)
        (E.written complaints.new) (refusal_line name.now refusal)) }
    ensures cause { HasCause (E.faults complaints.old) (E.faults complaints.new) result }
{
    match refusal {
        Some(why) => give_journal(complaints, name, why),
        None => Ok(()),
    }
}

/// Gives the line of the user of this number, with this cause, if there is such a user.
fn give_user<E: Sink>(
    complaints: &mut E,
    users: &[User],
    number: usize,
    cause: LineText,
) -> Result<(), Failed>
    ensures all { E.tells → OnOk result (E.written complaints.new
        ≡ E.written complaints.old ++ user_line (slice_get users.now number) cause) }
    ensures part { E.tells → OnErr result (AppendsPart (E.written complaints.old)
        (E.written complaints.new) (user_line (slice_get users.now number) cause)) }
    ensures cause { HasCause (E.faults complaints.old) (E.faults complaints.new) result }
{
    match users.get(number) {
        Some(user) => give_cause(complaints, user.name.as_str(), cause, LineText::new("")),
        None => Ok(()),
    }
}

/// Gives the line of a user whose journal is refused.
fn give_journal<E: Sink>(complaints: &mut E, name: &str, why: DeskError) -> Result<(), Failed>
    ensures all { E.tells → OnOk result (E.written complaints.new
        ≡ E.written complaints.old ++ journal_line name.now why) }
    ensures part { E.tells → OnErr result (AppendsPart (E.written complaints.old)
        (E.written complaints.new) (journal_line name.now why)) }
    ensures cause { HasCause (E.faults complaints.old) (E.faults complaints.new) result }
{
    let (cause, marks) = journal_cause(why);
    give_cause(complaints, name, cause, marks)
}

/// Gives the line of a user's journal, with a cause in two parts.
fn give_cause<E: Sink>(
    complaints: &mut E,
    name: &str,
    cause: LineText,
    more: LineText,
) -> Result<(), Failed>
    ensures all { E.tells → OnOk result (E.written complaints.new
        ≡ E.written complaints.old ++ cause_line name.now (cause ++ more)) }
    ensures part { E.tells → OnErr result (AppendsPart (E.written complaints.old)
        (E.written complaints.new) (cause_line name.now (cause ++ more))) }
    ensures cause { HasCause (E.faults complaints.old) (E.faults complaints.new) result }
{
    write_parts(
        complaints,
        &[
            b"cqe: journal ",
            name.as_bytes(),
            b" ",
            cause.bytes(),
            more.bytes(),
            b"\n",
        ],
    )
}

/// Why a user's journal is refused, in two parts.
fn journal_cause(why: DeskError) -> (LineText, LineText)
    ensures { result.0 ++ result.1 ≡ journal_cause why }
{
    let nothing = LineText::new("");
    match why {
        DeskError::Journal(why) => (opening_cause(why), nothing),
        DeskError::Stale(number) => (numbered("stale ", number), nothing),
        DeskError::Size(number) => (numbered("size ", number), nothing),
        DeskError::Unlawful {
            number,
            stored,
            computed,
        } => {
            let mut cause = numbered("unlawful ", number);
            cause.push(" stored ");
            (cause, marks(stored, computed))
        }
        DeskError::NotAdmitted(_) => (LineText::new("not admitted"), nothing),
        DeskError::Unsafe(number) => (numbered("unsafe ", number), nothing),
    }
}

/// The mark that is stored, and the computed one.
fn marks(stored: Mark, computed: Mark) -> LineText
    ensures { result ≡ mark_text stored ++ codes " computed " ++ mark_text computed }
{
    let mut marks = text_of(&Reply::Mark(stored));
    let second = text_of(&Reply::Mark(computed));
    marks.push(" computed ");
    marks.push_bytes(second.bytes());
    marks
}

/// Why a journal isn't opened.
fn opening_cause(why: OpenError) -> LineText
    ensures { result ≡ opening_cause why }
{
    match why {
        OpenError::NotAJournal => LineText::new("not a journal"),
        OpenError::OldVersion => LineText::new("old version"),
        OpenError::OtherPolicy => LineText::new("other policy"),
        OpenError::Damaged(number) => numbered("damaged ", number),
        OpenError::DiskFault => LineText::new("disk fault"),
        OpenError::Memory => LineText::new("out of memory"),
    }
}

/// Gives the complaint of a policy's refusal.
fn give_policy<E: Sink>(complaints: &mut E, why: &PolicyError) -> Result<(), Failed>
    ensures all { E.tells → OnOk result (E.written complaints.new
        ≡ E.written complaints.old ++ policy_complaint why.now) }
    ensures part { E.tells → OnErr result (AppendsPart (E.written complaints.old)
        (E.written complaints.new) (policy_complaint why.now)) }
    ensures cause { HasCause (E.faults complaints.old) (E.faults complaints.new) result }
{
    match why {
        PolicyError::NotToml => write_all(complaints, b"cqe: policy 1\n"),
        PolicyError::MissingKey(place) => give_place(complaints, 2, place),
        PolicyError::WrongKind(place) => give_place(complaints, 3, place),
        PolicyError::UnknownKey(place) => give_place(complaints, 4, place),
        PolicyError::Schema(why) => {
            let text = numbers_behind("cqe: policy ", 5, schema_number(*why), "\n");
            write_all(complaints, text.bytes())
        }
        PolicyError::Sentence(place) => give_place(complaints, 6, place),
        PolicyError::Limit(place) => give_place(complaints, 7, place),
        PolicyError::DuplicateUser(place) => give_place(complaints, 8, place),
        PolicyError::Version => write_all(complaints, b"cqe: policy 9\n"),
        PolicyError::Memory => write_all(complaints, b"cqe: policy 10\n"),
    }
}

/// Gives the complaint of a policy's refusal that has a place.
fn give_place<E: Sink>(complaints: &mut E, number: u32, place: &KeyPlace) -> Result<(), Failed>
    ensures all { E.tells → OnOk result (E.written complaints.new
        ≡ E.written complaints.old ++ place_complaint number place.now) }
    ensures part { E.tells → OnErr result (AppendsPart (E.written complaints.old)
        (E.written complaints.new) (place_complaint number place.now)) }
    ensures cause { HasCause (E.faults complaints.old) (E.faults complaints.new) result }
{
    let number = numbered("cqe: policy ", number);
    let user = user_text(place.user);
    let key = place.key.as_str().as_bytes();
    let index = index_text(place.index);
    let cause = cause_text(place.text);
    write_parts(
        complaints,
        &[
            number.bytes(),
            user.bytes(),
            key,
            index.bytes(),
            cause.bytes(),
            b"\n",
        ],
    )
}

/// A text with a number behind it.
fn numbered(text: &str, number: u32) -> LineText
    requires { length text.now ≤ 32 }
    ensures text { result ≡ text.now ++ decimal number }
    ensures short { length result ≤ 42 }
{
    let mut line = LineText::new(text);
    line.push_decimal(number);
    line
}

/// The user before a key: none for a key of the document.
fn user_text(user: Option<u32>) -> LineText
    ensures { result ≡ user_text user }
{
    match user {
        Some(number) => {
            let mut line = numbered(" users[", number);
            line.push("].");
            line
        }
        None => LineText::new(" "),
    }
}

/// A number in brackets behind a key, where there is one.
fn index_text(index: Option<u32>) -> LineText
    ensures { result ≡ index_text index }
{
    match index {
        Some(number) => {
            let mut line = numbered("[", number);
            line.push("]");
            line
        }
        None => LineText::new(""),
    }
}

/// Why a text is no sentence, where that is the cause.
fn cause_text(why: Option<TextError>) -> LineText
    ensures { result ≡ cause_text why }
{
    match why {
        Some(why) => numbers_behind(" ", u32::from(why.kind), why.place, ""),
        None => LineText::new(""),
    }
}

/// A text, two numbers with a blank between them, and a text.
fn numbers_behind(text: &str, first: u32, second: u32, end: &str) -> LineText
    requires text { length text.now ≤ 16 }
    requires end { length end.now ≤ 1 }
    ensures { result ≡ text.now ++ decimal first ++ codes " " ++ decimal second ++ end.now }
{
    let mut line = numbered(text, first);
    line.push(" ");
    line.push_decimal(second);
    line.push(end);
    line
}

fn facts_complaint(why: FactsError) -> LineText
    ensures { result ≡ facts_complaint why }
{
    match why {
        FactsError::NotAFact(line) => numbers_behind("cqe: facts ", 1, line, "\n"),
        FactsError::Limit(line) => numbers_behind("cqe: facts ", 2, line, "\n"),
        FactsError::NotUtf8 => numbers_behind("cqe: facts ", 3, 0, "\n"),
        FactsError::Memory => numbers_behind("cqe: facts ", 4, 0, "\n"),
    }
}

fn dossier_complaint(why: CheckRefusal) -> LineText
    ensures { result ≡ dossier_complaint why }
{
    match why {
        CheckRefusal::TooLong => numbers_behind("cqe: dossier ", 5, 0, "\n"),
        CheckRefusal::NotUtf8 => numbers_behind("cqe: dossier ", 1, 0, "\n"),
        CheckRefusal::Line(why) => line_complaint(why),
    }
}

fn line_complaint(why: DossierError) -> LineText
    ensures { result ≡ dossier_complaint (refusals.Line why) }
{
    match why {
        DossierError::Form(line) => numbers_behind("cqe: dossier ", 1, line, "\n"),
        DossierError::Text(line) => numbers_behind("cqe: dossier ", 2, line, "\n"),
        DossierError::Verdict(line) => numbers_behind("cqe: dossier ", 3, line, "\n"),
        DossierError::Mark(line) => numbers_behind("cqe: dossier ", 4, line, "\n"),
        DossierError::Admission(line) => numbers_behind("cqe: dossier ", 6, line, "\n"),
        DossierError::Unsafe(line) => numbers_behind("cqe: dossier ", 7, line, "\n"),
        DossierError::Memory => numbers_behind("cqe: dossier ", 8, 0, "\n"),
    }
}

fn script_complaint(refusal: ScriptError) -> LineText
    ensures { result ≡ script_complaint refusal }
{
    numbers_behind(
        "cqe: script ",
        kind_number(refusal.kind),
        refusal.line,
        "\n",
    )
}

fn kind_number(kind: ScriptKind) -> u32
    ensures { result ≡ kind_number kind }
{
    match kind {
        ScriptKind::NotALine => 1,
        ScriptKind::TooLong => 2,
        ScriptKind::TooMany => 3,
        ScriptKind::Schema => 4,
        ScriptKind::Fact => 5,
        ScriptKind::Sentence => 6,
        ScriptKind::Limit => 7,
        ScriptKind::Order => 8,
    }
}

fn schema_number(why: SchemaError) -> u32
    ensures { result ≡ schema_number why }
{
    match why {
        SchemaError::DuplicateName => 1,
        SchemaError::UnknownDomain => 2,
        SchemaError::TooMany => 3,
        SchemaError::EmptyDomain => 4,
        SchemaError::BadName => 5,
        SchemaError::Memory => 6,
    }
}
