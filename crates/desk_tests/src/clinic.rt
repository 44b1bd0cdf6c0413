//! A small clinic: two persons, each of whom may be infected and take a drug, and Ann is and does.
ghost use Rattle.std.specs.Prelude.{◌≡◌, ◌≤◌, ◌*◌, ◌^◌, true, length};
ghost use Rattle.cqe_base.specs.Formula.{formula_of, nodes, is_sentence_of};
ghost use Rattle.cqe_base.specs.History.{profile_of};
ghost use Rattle.cqe_base.specs.Limits.{KeepsLimits};
ghost use Rattle.user_desk.specs.Desks.{desk_schema, desk_user, desk_history};
ghost use Rattle.user_desk.specs.Desks.{opening_history};
ghost use Rattle.turnstile.specs.Passes.{seen, shares as shares_of, turns};
ghost use Rattle.desk_counter.specs.Items.{history_of};
ghost use Rattle.desk_counter.specs.Counters.{kept_by, IsPassOf};
ghost use Rattle.session_core.specs.Members.{HasSeenLegal};

use censors::admit;
use cqe_base::laws::{law_sizes, law_views_without_entries};
use cqe_base::schema::Schema;
use cqe_base::sentence::{Sentence, nodes};
use cqe_base::user::{Method, User};
use cqe_base::world::{Fact, World};
use desk_counter::{Counter, DeskPass};
use log_journal::{Header, format};
use outside::MemoryDisk;
use sentence_text::read_sentence;
use std::alloc::{AllocError, Global};
use std::process::Abort;
use user_desk::{Desk, open_desk};

/// The header of the clinic's journals.
pub const HEADER: Header = Header {
    policy: [7; 32],
    facts: [9; 32],
};

/// Who takes the drug is infected.
pub const RULE: &str = "forall x: person . drug(x) -> hiv(x)";

/// The SHA-256 of `abc`, as the standard gives it.
pub const TOKEN: [u8; 32] = [
    0xba, 0x78, 0x16, 0xbf, 0x8f, 0x01, 0xcf, 0xea, 0x41, 0x41, 0x40, 0xde, 0x5d, 0xae, 0x22, 0x23,
    0xb0, 0x03, 0x61, 0xa3, 0x96, 0x17, 0x7a, 0x9c, 0xb4, 0x10, 0xff, 0x61, 0xf2, 0x00, 0x15, 0xad,
];

/// A sentence of a user has at most so many nodes.
const NODES: u64 = 1_000;

/// The clinic's database.
#[derive(Drop)]
pub struct Clinic {
    pub schema: Schema,
    pub world: World,
}

/// The clinic with one of its users.
#[derive(Drop)]
pub struct Ward {
    pub clinic: Clinic,
    pub user: User,
}

/// Makes the clinic's database.
pub fn make_clinic(rt: &impl Abort, alloc: Global) -> Clinic {
    let schema = schema(rt, alloc);
    let mut world = World::new(alloc);
    insert(rt, &mut world, &schema, 0);
    insert(rt, &mut world, &schema, 1);
    Clinic { schema, world }
}

/// Adds what holds of Ann by this relation.
fn insert(rt: &impl Abort, world: &mut World, schema: &Schema, relation: u32) {
    let fact = Fact {
        relation,
        columns: [0; 6],
    };
    assert!(rt; world.insert(schema, fact).is_ok());
}

/// A name with the names of its parts.
fn declared(
    alloc: Global,
    name: &str,
    parts: &[&str],
) -> Result<(String, Vec<String>), AllocError> {
    let mut names = Vec::new(alloc);
    for part in parts {
        names.push(String::from_str(alloc, part)?)?;
    }
    Ok((String::from_str(alloc, name)?, names))
}

fn schema(rt: &impl Abort, alloc: Global) -> Schema {
    let Ok(domains) = domains(alloc) else {
        panic!(rt; "no memory for domains");
    };
    let Ok(relations) = relations(alloc) else {
        panic!(rt; "no memory for relations");
    };
    match Schema::new(alloc, domains, relations) {
        Ok(schema) => schema,
        Err(_) => panic!(rt; "no schema"),
    }
}

fn domains(alloc: Global) -> Result<Vec<(String, Vec<String>)>, AllocError> {
    let mut domains = Vec::new(alloc);
    domains.push(declared(alloc, "person", &["ann", "bob"])?)?;
    Ok(domains)
}

fn relations(alloc: Global) -> Result<Vec<(String, Vec<String>)>, AllocError> {
    let mut relations = Vec::new(alloc);
    relations.push(declared(alloc, "hiv", &["person"])?)?;
    relations.push(declared(alloc, "drug", &["person"])?)?;
    Ok(relations)
}

/// Makes a user of this name and method, with a budget of 1,000,000 and no token, from a text that
/// says what he knows beforehand and one that says what is kept from him.
pub fn make_user(
    rt: &impl Abort,
    alloc: Global,
    schema: &Schema,
    name: &str,
    method: Method,
    known: &str,
    secret: &str,
) -> User
    requires known { length known.now ≤ 4096 }
    requires secret { length secret.now ≤ 4096 }
    ensures { KeepsLimits schema.now (profile_of result) }
{
    law_views_without_entries();
    let known = sentence(rt, alloc, schema, known);
    let secret = sentence(rt, alloc, schema, secret);
    let Ok(name) = String::from_str(alloc, name) else {
        panic!(rt; "no memory for a name");
    };
    let Ok(know) = Vec::from_array(alloc, [known]) else {
        panic!(rt; "no memory for what he knows");
    };
    let Ok(secrets) = Vec::from_array(alloc, [secret]) else {
        panic!(rt; "no memory for a secret");
    };
    User {
        name,
        method,
        know,
        secrets,
        pairs: 0,
        budget: 1_000_000,
        token: None,
    }
}

/// A user of this name and method who knows the rule, and from whom Ann's infection is kept.
pub fn user_by(rt: &impl Abort, alloc: Global, clinic: &Clinic, name: &str, method: Method) -> User
    ensures { KeepsLimits clinic.now.schema (profile_of result) }
{
    make_user(rt, alloc, &clinic.schema, name, method, RULE, "hiv(ann)")
}

/// The clinic with a liar who knows this, and from whom Ann's infection is kept.
pub fn ward_knowing(rt: &impl Abort, alloc: Global, known: &str) -> Ward
    requires { length known.now ≤ 4096 }
    ensures { KeepsLimits result.clinic.schema (profile_of result.user) }
{
    let clinic = make_clinic(rt, alloc);
    let schema = &clinic.schema;
    let user = make_user(rt, alloc, schema, "eve", Method::Lying, known, "hiv(ann)");
    Ward { clinic, user }
}

/// A disk with an empty journal.
pub fn formatted(rt: &impl Abort, alloc: Global) -> MemoryDisk {
    let Ok(disk) = MemoryDisk::new(alloc, Vec::new(alloc)) else {
        panic!(rt; "no memory for a disk");
    };
    let mut disk = disk;
    assert!(rt; format(&mut disk, &HEADER).is_ok());
    disk
}

/// A user's desk on this disk.
pub fn desk_on<'w>(
    rt: &impl Abort,
    alloc: Global,
    clinic: &'w Clinic,
    user: &'w User,
    disk: MemoryDisk,
) -> Desk<'w, MemoryDisk>
    requires { KeepsLimits clinic.now.schema (profile_of user.now) }
    ensures schema { desk_schema result ≡ clinic.now.schema }
    ensures user { desk_user result ≡ profile_of user.now }
    ensures opening { opening_history result ≡ desk_history result }
{
    let (schema, world) = (&clinic.schema, &clinic.world);
    let Ok(admission) = admit(alloc, schema, world, user) else {
        panic!(rt; "no memory for an admission");
    };
    match open_desk(alloc, schema, world, user, admission, &HEADER, disk) {
        Ok(desk) => desk,
        Err(_) => panic!(rt; "no memory for a desk"),
    }
}

/// A user's desk on an empty journal, under a counter, with the pass that has all shares.
pub fn counter_of<'w>(
    rt: &impl Abort,
    alloc: Global,
    clinic: &'w Clinic,
    user: &'w User,
) -> (Counter<'w, MemoryDisk>, DeskPass<MemoryDisk>)
    requires { KeepsLimits clinic.now.schema (profile_of user.now) }
    ensures pass { IsPassOf result.1 result.0 }
    ensures opened { length (kept_by result.0).opening ≤ length (history_of (seen result.1)) }
    ensures user { (kept_by result.0).user ≡ profile_of user.now }
    ensures legal { HasSeenLegal (kept_by result.0) result.1 }
    ensures all { shares_of result.1 ≡ 65 }
    ensures turns { turns result.1 ≡ 65 * 2 ^ 57 }
{
    let desk = desk_on(rt, alloc, clinic, user, formatted(rt, alloc));
    clinic.schema.known();
    law_sizes();
    desk.known();
    match Counter::new(alloc, desk) {
        Ok(counter) => counter,
        Err(_) => panic!(rt; "no memory for a counter"),
    }
}

/// A small sentence of the schema.
pub fn sentence(rt: &impl Abort, alloc: Global, schema: &Schema, text: &str) -> Sentence
    requires { length text.now ≤ 4096 }
    ensures sentence { is_sentence_of schema.now (formula_of result) ≡ true }
    ensures small { nodes schema.now (formula_of result) ≤ 1000 }
{
    let Ok(sentence) = read_sentence(alloc, schema, text) else {
        panic!(rt; "no sentence");
    };
    assert!(rt; nodes(&sentence, schema) <= NODES);
    sentence
}

/// The bytes of a text.
pub fn bytes_of(rt: &impl Abort, alloc: Global, text: &str) -> Vec<u8> {
    let Ok(bytes) = Vec::from_slice(alloc, text.as_bytes()) else {
        panic!(rt; "no memory for a text");
    };
    bytes
}
