//! Dossiers of the clinic's user, which were worked out by hand, and what changed ones are refused
//! for; the changes stand in `changes`.
ghost use Rattle.std.specs.Prelude.{◌≤◌, All, IfOk, length};
ghost use Rattle.cqe_base.specs.History.{profile_of};
ghost use Rattle.cqe_base.specs.Limits.{KeepsLimits};
ghost use Rattle.log_journal.specs.Opening.{IsRecord};

use crate::changes::{CHANGES, change_of};
use crate::clinic::{Clinic, RULE, Ward, make_clinic, make_user, user_by, ward_knowing};
use cqe_base::schema::Schema;
use cqe_base::user::{Mark, Method, User};
use cqe_base::world::World;
use dossier::{DossierError, Field, check_dossier, fields, write_dossier, write_unserved};
use log_journal::Record;
use outside::MemorySink;
use std::alloc::Global;
use std::process::Abort;
use std::test::Fail;
use user_desk::{DeskError, Replayed, replay};

/// The dossier of a liar who knows the rule, from whom Ann's infection is kept, and who was told
/// that she doesn't take the drug. The chain is that of the search machine's one conflict.
const TOLD: [&str; 9] = [
    "dossier 1 eve lying open",
    "admission",
    "open -",
    "ask no drug(ann)",
    "follows",
    "line : 12 3 11 7 10",
    "end",
    "open -",
    "done 1",
];

/// A record of this kind and text.
pub fn record(alloc: Global, kind: u8, text: &str) -> Result<Record, Fail>
    requires low { 1 ≤ kind }
    requires high { kind ≤ 5 }
    requires few { length text.now ≤ 4096 }
    ensures { IfOk result (IsRecord 5) }
{
    let text = Vec::from_slice(alloc, text.as_bytes())?;
    Ok(Record { kind, text })
}

/// One record.
fn one_record(alloc: Global, kind: u8, text: &str) -> Result<Vec<Record>, Fail>
    requires low { 1 ≤ kind }
    requires high { kind ≤ 5 }
    requires few { length text.now ≤ 4096 }
    ensures { IfOk result (λ records. All (IsRecord 5) records.items) }
{
    let record = record(alloc, kind, text)?;
    Ok(Vec::from_array(alloc, [record])?)
}

/// The dossier of a user's records, which open a desk.
pub fn written(
    rt: &impl Abort,
    alloc: Global,
    schema: &Schema,
    world: &World,
    user: &User,
    records: &[Record],
) -> Vec<u8>
    requires limits { KeepsLimits schema.now (profile_of user.now) }
    requires each { All (IsRecord 5) records.now }
{
    let mut sink = MemorySink::new(alloc);
    let Ok(replayed) = replay(alloc, schema, world, user, records) else {
        panic!(rt; "no memory");
    };
    match replayed {
        Replayed::Open(_) => {
            let wrote = write_dossier(alloc, schema, world, user, records, &mut sink);
            assert!(rt; wrote.is_ok());
        }
        Replayed::Closed(_) | Replayed::Sealed(_) => panic!(rt; "not open"),
    }
    let Ok(bytes) = Vec::from_slice(alloc, sink.bytes()) else {
        panic!(rt; "no memory");
    };
    bytes
}

/// The dossier of a user of this clinic.
fn written_in(
    rt: &impl Abort,
    alloc: Global,
    clinic: &Clinic,
    user: &User,
    records: &[Record],
) -> Vec<u8>
    requires limits { KeepsLimits clinic.now.schema (profile_of user.now) }
    requires each { All (IsRecord 5) records.now }
{
    written(rt, alloc, &clinic.schema, &clinic.world, user, records)
}

/// What the check says of a text.
fn checked(
    rt: &impl Abort,
    alloc: Global,
    clinic: &Clinic,
    user: &User,
    text: &str,
) -> Result<u32, DossierError>
    requires { KeepsLimits clinic.now.schema (profile_of user.now) }
{
    assert!(rt; text.len() <= 100_000);
    check_dossier(alloc, &clinic.schema, &clinic.world, user, text)
}

/// The kind and the line of a refusal, and 0 with the number of items where there is none.
fn answer(said: Result<u32, DossierError>) -> (u32, u32) {
    match said {
        Ok(count) => (0, count),
        Err(DossierError::Form(line)) => (1, line),
        Err(DossierError::Text(line)) => (2, line),
        Err(DossierError::Verdict(line)) => (3, line),
        Err(DossierError::Mark(line)) => (4, line),
        Err(DossierError::Admission(line)) => (6, line),
        Err(DossierError::Unsafe(line)) => (7, line),
        Err(DossierError::Memory) => (8, 0),
    }
}

/// The check answers so of a text.
fn check_text(
    rt: &impl Abort,
    alloc: Global,
    clinic: &Clinic,
    user: &User,
    text: &str,
    expected: (u32, u32),
)
    requires { KeepsLimits clinic.now.schema (profile_of user.now) }
{
    let found = answer(checked(rt, alloc, clinic, user, text));
    assert_eq!(rt; found, expected, "{text}");
}

/// The check answers so of bytes, which are a text.
fn check_bytes(
    rt: &impl Abort,
    alloc: Global,
    clinic: &Clinic,
    user: &User,
    bytes: &[u8],
    expected: (u32, u32),
)
    requires { KeepsLimits clinic.now.schema (profile_of user.now) }
{
    let Ok(text) = str::from_utf8(bytes) else {
        panic!(rt; "no text");
    };
    check_text(rt, alloc, clinic, user, text, expected);
}

/// The dossier with another text in the place of this line.
fn changed(alloc: Global, at: usize, text: &str) -> Result<String, Fail> {
    let mut all = String::new(alloc);
    for (index, line) in TOLD.iter().enumerate() {
        push_changed(&mut all, line, index + 1 == at, text)?;
    }
    Ok(all)
}

/// Appends a line, or what stands in its place where it is the one that is changed.
fn push_changed(all: &mut String, line: &str, is_changed: bool, text: &str) -> Result<(), Fail> {
    if !is_changed {
        push_line(all, line)
    } else if text != "!" {
        push_text(all, text)
    } else {
        Ok(())
    }
}

/// Appends a line with its line feed.
fn push_line(all: &mut String, line: &str) -> Result<(), Fail> {
    all.push_str(line)?;
    all.push_str("\n")?;
    Ok(())
}

/// Appends a text with a line feed for each `~` and one at its end.
fn push_text(all: &mut String, text: &str) -> Result<(), Fail> {
    for part in text.split('~') {
        push_line(all, part)?;
    }
    Ok(())
}

/// The clinic's liar.
fn eve(rt: &impl Abort, alloc: Global) -> Ward
    ensures { KeepsLimits result.clinic.schema (profile_of result.user) }
{
    ward_knowing(rt, alloc, RULE)
}

/// The dossier of one lie is the one that was worked out, and is accepted.
fn is_shown(rt: &impl Abort, alloc: Global, ward: &Ward, records: &[Record]) -> Result<(), Fail>
    requires limits { KeepsLimits ward.now.clinic.schema (profile_of ward.now.user) }
    requires each { All (IsRecord 5) records.now }
{
    let text = changed(alloc, 0, "")?;
    let bytes = written_in(rt, alloc, &ward.clinic, &ward.user, records);
    assert!(rt; bytes.as_slice() == text.as_bytes());
    check_text(rt, alloc, &ward.clinic, &ward.user, &text, (0, 1));
    // The last line feed may be missing.
    let Some(short) = text.strip_suffix("\n") else {
        panic!(rt; "no end");
    };
    check_text(rt, alloc, &ward.clinic, &ward.user, short, (0, 1));
    Ok(())
}

#[test]
fn a_told_lie_is_shown(rt: HostRuntime) -> Result<(), Fail> {
    let alloc = rt.alloc();
    let records = one_record(alloc, 2, "drug(ann)")?;
    let ward = eve(&rt, alloc);
    is_shown(&rt, alloc, &ward, &records)
}

/// The changed dossier of a row is answered as the row says.
fn check_change(rt: &impl Abort, alloc: Global, ward: &Ward, row: &str) -> Result<(), Fail>
    requires { KeepsLimits ward.now.clinic.schema (profile_of ward.now.user) }
{
    let (at, expected, text) = change_of(rt, row);
    let dossier = changed(alloc, at, text)?;
    check_text(rt, alloc, &ward.clinic, &ward.user, &dossier, expected);
    Ok(())
}

/// All rows are so; it says how many there are.
fn check_changes(rt: &impl Abort, alloc: Global, ward: &Ward) -> Result<u32, Fail>
    requires { KeepsLimits ward.now.clinic.schema (profile_of ward.now.user) }
{
    let mut count = 0_u32;
    for row in CHANGES.lines() {
        check_change(rt, alloc, ward, row)?;
        count = count.saturating_add(1);
    }
    Ok(count)
}

#[test]
fn changed_dossiers_are_refused(rt: HostRuntime) -> Result<(), Fail> {
    let alloc = rt.alloc();
    let ward = eve(&rt, alloc);
    let count = check_changes(&rt, alloc, &ward)?;
    assert!(rt; count >= 200);
    Ok(())
}

/// Each beginning of the dossier lacks the line after it.
fn check_beginnings(rt: &impl Abort, alloc: Global, ward: &Ward) -> Result<(), Fail>
    requires { KeepsLimits ward.now.clinic.schema (profile_of ward.now.user) }
{
    let mut text = String::new(alloc);
    for (index, line) in TOLD.iter().enumerate() {
        // The missing line has the number after the last one.
        let missing = index as u32 + 1;
        check_text(rt, alloc, &ward.clinic, &ward.user, &text, (1, missing));
        push_line(&mut text, line)?;
    }
    Ok(())
}

#[test]
fn texts_that_end_too_soon(rt: HostRuntime) -> Result<(), Fail> {
    let alloc = rt.alloc();
    let ward = eve(&rt, alloc);
    check_beginnings(&rt, alloc, &ward)
}

/// Bob's drug is added to the secrets, and then a query is denied.
fn secret_and_query(alloc: Global) -> Result<Vec<Record>, Fail>
    ensures { IfOk result (λ records. All (IsRecord 5) records.items) }
{
    let secret = record(alloc, 5, "drug(bob)")?;
    let query = record(alloc, 2, "drug(bob) or drug(ann)")?;
    Ok(Vec::from_array(alloc, [secret, query])?)
}

#[test]
fn an_added_secret_is_shown(rt: HostRuntime) -> Result<(), Fail> {
    let alloc = rt.alloc();
    // By the rule the query entails that Ann is infected or Bob takes the drug, which is guarded
    // once Bob's drug is a secret: so the truth would be yes, and no is told.
    let records = secret_and_query(alloc)?;
    let ward = eve(&rt, alloc);
    let bytes = written_in(&rt, alloc, &ward.clinic, &ward.user, &records);
    check_bytes(&rt, alloc, &ward.clinic, &ward.user, &bytes, (0, 2));
    Ok(())
}

/// Three replies, the first of this kind.
fn three_replies(alloc: Global, kind: u8) -> Result<Vec<Record>, Fail>
    requires low { 1 ≤ kind }
    requires high { kind ≤ 5 }
    ensures { IfOk result (λ records. All (IsRecord 5) records.items) }
{
    let first = record(alloc, kind, "drug(ann)")?;
    let second = record(alloc, 2, "hiv(bob)")?;
    let third = record(alloc, 1, "true")?;
    Ok(Vec::from_array(alloc, [first, second, third])?)
}

/// The dossier of three replies by this method is accepted; it is handed out.
fn shown_to(
    rt: &impl Abort,
    alloc: Global,
    clinic: &Clinic,
    who: (&str, Method),
    records: &[Record],
) -> Vec<u8>
    requires { All (IsRecord 5) records.now }
{
    let (name, method) = who;
    let user = user_by(rt, alloc, clinic, name, method);
    let bytes = written_in(rt, alloc, clinic, &user, records);
    check_bytes(rt, alloc, clinic, &user, &bytes, (0, 3));
    bytes
}

/// It isn't accepted as that of another user.
fn is_not_toms(rt: &impl Abort, alloc: Global, clinic: &Clinic, method: Method, bytes: &[u8]) {
    let other = user_by(rt, alloc, clinic, "tom", method);
    check_bytes(rt, alloc, clinic, &other, bytes, (1, 1));
}

/// The dossier of three replies by this method is accepted, and not as that of another user.
fn shown_by(
    rt: &impl Abort,
    alloc: Global,
    clinic: &Clinic,
    name: &str,
    method: Method,
    kind: u8,
) -> Result<(), Fail>
    requires low { 1 ≤ kind }
    requires high { kind ≤ 5 }
{
    let records = three_replies(alloc, kind)?;
    let bytes = shown_to(rt, alloc, clinic, (name, method), &records);
    is_not_toms(rt, alloc, clinic, method, &bytes);
    Ok(())
}

/// They are, by each method.
fn shown_by_each(rt: &impl Abort, alloc: Global, clinic: &Clinic) -> Result<(), Fail> {
    shown_by(rt, alloc, clinic, "ron", Method::Refusal, 3)?;
    shown_by(rt, alloc, clinic, "kim", Method::Combined, 2)?;
    shown_by(rt, alloc, clinic, "eve", Method::Lying, 2)
}

#[test]
fn dossiers_of_each_method(rt: HostRuntime) -> Result<(), Fail> {
    let alloc = rt.alloc();
    let clinic = make_clinic(&rt, alloc);
    shown_by_each(&rt, alloc, &clinic)
}

/// A dossier without items of a user by this method, who knows that Bob is infected, is answered
/// so.
fn check_knower(
    rt: &impl Abort,
    alloc: Global,
    clinic: &Clinic,
    method: Method,
    text: &str,
    expected: (u32, u32),
) {
    let user = make_user(
        rt,
        alloc,
        &clinic.schema,
        "tom",
        method,
        "hiv(bob)",
        "hiv(ann)",
    );
    check_text(rt, alloc, clinic, &user, text, expected);
}

#[test]
fn what_a_user_knows_has_to_be_true_for_refusal(rt: HostRuntime) {
    let alloc = rt.alloc();
    let clinic = make_clinic(&rt, alloc);
    let text = "dossier 1 tom refusal open\nadmission\nopen hiv(bob)\ndone 0\n";
    check_knower(&rt, alloc, &clinic, Method::Refusal, text, (6, 2));
    let text = "dossier 1 tom combined open\nadmission\nopen hiv(bob)\ndone 0\n";
    check_knower(&rt, alloc, &clinic, Method::Combined, text, (0, 0));
}

/// The line of a user who is closed.
fn has_closed_line(rt: &impl Abort, alloc: Global, user: &User) {
    let mut sink = MemorySink::new(alloc);
    assert!(rt; write_unserved(alloc, user, "closed", &mut sink).is_ok());
    assert!(rt; sink.bytes() == "dossier 1 eve lying closed\n".as_bytes());
}

#[test]
fn a_closed_user_has_one_line(rt: HostRuntime) {
    let alloc = rt.alloc();
    let ward = eve(&rt, alloc);
    has_closed_line(&rt, alloc, &ward.user);
}

/// What records are to a clinic's user.
fn replayed(
    rt: &impl Abort,
    alloc: Global,
    clinic: &Clinic,
    user: &User,
    records: &[Record],
) -> Replayed
    requires limits { KeepsLimits clinic.now.schema (profile_of user.now) }
    requires each { All (IsRecord 5) records.now }
{
    let Ok(found) = replay(alloc, &clinic.schema, &clinic.world, user, records) else {
        panic!(rt; "no memory");
    };
    found
}

/// The number of items of a replay that is open.
fn items_of(found: &Replayed) -> Option<usize> {
    match found {
        Replayed::Open(items) => Some(items.len()),
        _ => None,
    }
}

/// Why a replay is refused.
fn refusal_of(found: &Replayed) -> Option<DeskError> {
    match found {
        Replayed::Sealed(why) => Some(*why),
        _ => None,
    }
}

/// Whether a replay is of a user who isn't admitted.
fn is_closed(found: &Replayed) -> bool {
    match found {
        Replayed::Closed(_) => true,
        _ => false,
    }
}

/// No record opens the ward's desk with no item.
fn none_are_replayed(rt: &impl Abort, alloc: Global, ward: &Ward)
    requires { KeepsLimits ward.now.clinic.schema (profile_of ward.now.user) }
{
    let none = Vec::new(alloc);
    let found = replayed(rt, alloc, &ward.clinic, &ward.user, &none);
    assert!(rt; matches!(items_of(&found), Some(0)));
}

/// Why one record of the ward's user is refused.
fn refused(
    rt: &impl Abort,
    alloc: Global,
    ward: &Ward,
    kind: u8,
    text: &str,
) -> Result<Option<DeskError>, Fail>
    requires limits { KeepsLimits ward.now.clinic.schema (profile_of ward.now.user) }
    requires low { 1 ≤ kind }
    requires high { kind ≤ 5 }
    requires few { length text.now ≤ 4096 }
{
    let records = one_record(alloc, kind, text)?;
    let found = replayed(rt, alloc, &ward.clinic, &ward.user, &records);
    Ok(refusal_of(&found))
}

/// A record that isn't the rule's is refused, and one that is no sentence.
fn records_are_refused(rt: &impl Abort, alloc: Global, ward: &Ward) -> Result<(), Fail>
    requires { KeepsLimits ward.now.clinic.schema (profile_of ward.now.user) }
{
    // A lie is told here, so a yes isn't the rule's.
    let Some(why) = refused(rt, alloc, ward, 1, "drug(ann)")? else {
        panic!(rt; "not sealed");
    };
    let expected = DeskError::Unlawful {
        number: 0,
        stored: Mark::Yes,
        computed: Mark::No,
    };
    assert_eq!(rt; why, expected);
    let why = refused(rt, alloc, ward, 2, "drug(")?;
    assert!(rt; matches!(why, Some(DeskError::Stale(0))));
    Ok(())
}

/// One who knows his secret is closed.
fn a_knower_is_closed(rt: &impl Abort, alloc: Global, clinic: &Clinic) {
    let schema = &clinic.schema;
    let knower = make_user(
        rt,
        alloc,
        schema,
        "lou",
        Method::Lying,
        "hiv(ann)",
        "hiv(ann)",
    );
    let none = Vec::new(alloc);
    let found = replayed(rt, alloc, clinic, &knower, &none);
    assert!(rt; is_closed(&found));
}

#[test]
fn records_are_replayed_as_an_opening_does(rt: HostRuntime) -> Result<(), Fail> {
    let alloc = rt.alloc();
    let ward = eve(&rt, alloc);
    none_are_replayed(&rt, alloc, &ward);
    a_knower_is_closed(&rt, alloc, &ward.clinic);
    records_are_refused(&rt, alloc, &ward)
}

/// Lines of a text, each with its number, its first word and what is behind that.
const FIELDS: [(u32, &str, &str); 5] = [
    (1, "a", "b c"),
    (2, "", ""),
    (3, "d ", ""),
    (4, "", "e"),
    (5, "f", ""),
];

fn check_field(rt: &impl Abort, found: Option<Field<'_>>, expected: &(u32, &str, &str)) {
    let Some(field) = found else {
        panic!(rt; "too few lines");
    };
    assert_eq!(rt; field.line, expected.0);
    assert_eq!(rt; field.word, expected.1);
    assert_eq!(rt; field.rest, expected.2);
}

#[test]
fn fields_are_slices_of_lines(rt: HostRuntime) {
    let mut lines = fields("a b c\n\nd \n e\nf");
    for expected in &FIELDS {
        check_field(&rt, lines.next(), expected);
    }
    assert!(rt; lines.next().is_none());
}
