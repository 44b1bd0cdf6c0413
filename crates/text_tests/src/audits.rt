//! Audits as text and as JSON, with texts that were worked out by hand.
use audit_text::{EntryRow, Report, SecrecyRow, SecretRow, lines_of};
use cqe_base::user::Mark;
use std::alloc::{AllocError, Global};
use std::process::Abort;

fn text(rt: &impl Abort, alloc: Global, text: &str) -> String {
    match String::from_str(alloc, text) {
        Ok(copy) => copy,
        Err(_) => panic!(rt; "no memory for a text"),
    }
}

fn texts(rt: &impl Abort, alloc: Global, texts: &[&str]) -> Vec<String> {
    let mut copies = Vec::new(alloc);
    for part in texts {
        if copies.push(text(rt, alloc, part)).is_err() {
            panic!(rt; "no memory for texts");
        }
    }
    copies
}

/// A report of a user without entries and secrets.
fn empty<'u>(alloc: Global, name: &'u str, method: &'u str, standing: &'u str) -> Report<'u> {
    Report {
        name,
        method,
        standing,
        entries: Vec::new(alloc),
        secrecies: None,
        secrets: Vec::new(alloc),
    }
}

fn add_entry(rt: &impl Abort, alloc: Global, report: &mut Report<'_>, mark: Mark, query: &str) {
    let query = text(rt, alloc, query);
    if report.entries.push(EntryRow { mark, query }).is_err() {
        panic!(rt; "no memory for an entry");
    }
}

fn add_secret_row(rt: &impl Abort, report: &mut Report<'_>, row: SecretRow) {
    if report.secrets.push(row).is_err() {
        panic!(rt; "no memory for a secret");
    }
}

/// A secret with the facts of its world.
fn add_secret(
    rt: &impl Abort,
    alloc: Global,
    report: &mut Report<'_>,
    secret: &str,
    facts: &[&str],
) {
    let secret = text(rt, alloc, secret);
    let world = Some(texts(rt, alloc, facts));
    add_secret_row(rt, report, SecretRow { secret, world });
}

/// A secret whose probe was spent.
fn add_spent(rt: &impl Abort, alloc: Global, report: &mut Report<'_>, secret: &str) {
    let secret = text(rt, alloc, secret);
    let world = None;
    add_secret_row(rt, report, SecretRow { secret, world });
}

fn secrecy(
    rt: &impl Abort,
    alloc: Global,
    secrecy: &str,
    where_true: Option<Vec<String>>,
    where_false: Option<Vec<String>>,
) -> SecrecyRow {
    SecrecyRow {
        secrecy: text(rt, alloc, secrecy),
        where_true,
        where_false,
    }
}

// The lines behind one another.
fn printed(alloc: Global, report: &Report<'_>, json: bool) -> Result<String, AllocError> {
    let mut text = String::new(alloc);
    for line in &lines_of(alloc, report, json)? {
        text.push_str(line)?;
    }
    Ok(text)
}

fn check_printed(rt: &impl Abort, alloc: Global, report: &Report<'_>, json: bool, expected: &str) {
    match printed(alloc, report, json) {
        Ok(text) => assert_eq!(rt; text.as_str(), expected),
        Err(_) => panic!(rt; "no memory for lines"),
    }
}

/// A report as text and as JSON.
fn check(rt: &impl Abort, alloc: Global, report: &Report<'_>, text: &str, json: &str) {
    check_printed(rt, alloc, report, false, text);
    check_printed(rt, alloc, report, true, json);
}

#[test]
fn a_served_user_has_entries_and_secrets(rt: HostRuntime) {
    let alloc = rt.alloc();
    let mut report = empty(alloc, "kim", "combined", "open");
    add_entry(&rt, alloc, &mut report, Mark::Yes, "(hiv(ann) or hiv(bob))");
    add_entry(&rt, alloc, &mut report, Mark::Refused, "hiv(ann)");
    add_secret(&rt, alloc, &mut report, "hiv(ann)", &["hiv(bob)"]);
    add_secret(&rt, alloc, &mut report, "hiv(bob)", &["hiv(ann)"]);
    check(
        &rt,
        alloc,
        &report,
        "user kim combined open\n1 yes (hiv(ann) or hiv(bob))\n2 refused hiv(ann)\nsecret hiv(ann) world hiv(bob)\nsecret hiv(bob) world hiv(ann)\n",
        "{\"entries\":[{\"mark\":\"yes\",\"query\":\"(hiv(ann) or hiv(bob))\"},{\"mark\":\"refused\",\"query\":\"hiv(ann)\"}],\"method\":\"combined\",\"name\":\"kim\",\"secrets\":[{\"secret\":\"hiv(ann)\",\"world\":[\"hiv(bob)\"]},{\"secret\":\"hiv(bob)\",\"world\":[\"hiv(ann)\"]}],\"standing\":\"open\"}\n",
    );
}

// A world of two facts, one of none, and none at all; the other two marks.
#[test]
fn worlds_may_be_empty_or_spent(rt: HostRuntime) {
    let alloc = rt.alloc();
    let mut report = empty(alloc, "ron", "refusal", "open");
    add_entry(&rt, alloc, &mut report, Mark::No, "true");
    add_entry(&rt, alloc, &mut report, Mark::Undecided, "v");
    add_secret(&rt, alloc, &mut report, "a()", &["b()", "c(d, e)"]);
    add_secret(&rt, alloc, &mut report, "b()", &[]);
    add_spent(&rt, alloc, &mut report, "c()");
    check(
        &rt,
        alloc,
        &report,
        "user ron refusal open\n1 no true\n2 undecided v\nsecret a() world b() c(d, e)\nsecret b() world -\nsecret c() world spent\n",
        "{\"entries\":[{\"mark\":\"no\",\"query\":\"true\"},{\"mark\":\"undecided\",\"query\":\"v\"}],\"method\":\"refusal\",\"name\":\"ron\",\"secrets\":[{\"secret\":\"a()\",\"world\":[\"b()\",\"c(d, e)\"]},{\"secret\":\"b()\",\"world\":[]},{\"secret\":\"c()\",\"world\":null}],\"standing\":\"open\"}\n",
    );
}

// An item that was added stands with its sentence, and is no query.
#[test]
fn an_added_secret_is_told_as_one(rt: HostRuntime) {
    let alloc = rt.alloc();
    let mut report = empty(alloc, "ann", "lying", "open");
    add_entry(&rt, alloc, &mut report, Mark::Yes, "v");
    add_entry(&rt, alloc, &mut report, Mark::Protected, "a()");
    add_secret(&rt, alloc, &mut report, "a()", &[]);
    check(
        &rt,
        alloc,
        &report,
        "user ann lying open\n1 yes v\n2 protect a()\nsecret a() world -\n",
        "{\"entries\":[{\"mark\":\"yes\",\"query\":\"v\"},{\"protect\":\"a()\"}],\"method\":\"lying\",\"name\":\"ann\",\"secrets\":[{\"secret\":\"a()\",\"world\":[]}],\"standing\":\"open\"}\n",
    );
}

#[test]
fn a_user_who_is_refused_has_one_line(rt: HostRuntime) {
    let alloc = rt.alloc();
    let report = empty(alloc, "lou", "lying", "closed");
    check(
        &rt,
        alloc,
        &report,
        "user lou lying closed\n",
        "{\"entries\":[],\"method\":\"lying\",\"name\":\"lou\",\"secrets\":[],\"standing\":\"closed\"}\n",
    );
}

/// The secrecies of a user: one with a world of two facts and one of none, and one that is spent
/// and has a world of one fact.
fn secrecies(rt: &impl Abort, alloc: Global) -> Vec<SecrecyRow> {
    let two = texts(rt, alloc, &["a()", "c(d, e)"]);
    let first = secrecy(rt, alloc, "a()", Some(two), Some(Vec::new(alloc)));
    let one = texts(rt, alloc, &["a()"]);
    let second = secrecy(rt, alloc, "b()", None, Some(one));
    match Vec::from_array(alloc, [first, second]) {
        Ok(secrecies) => secrecies,
        Err(_) => panic!(rt; "no memory for secrecies"),
    }
}

// A secret stands behind them.
#[test]
fn a_secrecy_has_two_worlds(rt: HostRuntime) {
    let alloc = rt.alloc();
    let mut report = empty(alloc, "kim", "combined", "open");
    add_entry(&rt, alloc, &mut report, Mark::Refused, "a()");
    report.secrecies = Some(secrecies(&rt, alloc));
    add_spent(&rt, alloc, &mut report, "c()");
    check(
        &rt,
        alloc,
        &report,
        "user kim combined open\n1 refused a()\nsecrecy a() true a() c(d, e)\nsecrecy a() false -\nsecrecy b() true spent\nsecrecy b() false a()\nsecret c() world spent\n",
        "{\"entries\":[{\"mark\":\"refused\",\"query\":\"a()\"}],\"method\":\"combined\",\"name\":\"kim\",\"secrecies\":[{\"false\":[],\"secrecy\":\"a()\",\"true\":[\"a()\",\"c(d, e)\"]},{\"false\":[\"a()\"],\"secrecy\":\"b()\",\"true\":null}],\"secrets\":[{\"secret\":\"c()\",\"world\":null}],\"standing\":\"open\"}\n",
    );
}

// His list of secrecies is there, and empty.
#[test]
fn a_refused_user_with_secrecies_has_one_line(rt: HostRuntime) {
    let alloc = rt.alloc();
    let mut report = empty(alloc, "kim", "combined", "sealed");
    report.secrecies = Some(Vec::new(alloc));
    check(
        &rt,
        alloc,
        &report,
        "user kim combined sealed\n",
        "{\"entries\":[],\"method\":\"combined\",\"name\":\"kim\",\"secrecies\":[],\"secrets\":[],\"standing\":\"sealed\"}\n",
    );
}
