//! What an audit says, in memory.
ghost use Rattle.std.specs.Prelude.{◌≡◌, ◌<◌, ◌≤◌, ◌*◌, ◌++◌, [], ℕ, true, map, drop, option_map};
ghost use Rattle.std.specs.Prelude.{string_bytes, List, length, vec_len, Option, Some, IfOk};
ghost use Rattle.std.specs.Prelude.{IfSome, OnOk, unwrap_or};
ghost use Rattle.std.specs.List.{list_all};
ghost use Rattle.cqe_base.specs.Canonical.{canonical};
ghost use Rattle.cqe_base.specs.declared.world.Fact.{Fact};
ghost use Rattle.audit_print.specs.Listed.{ListsAll};
ghost use Rattle.cqe_base.specs.Schema.{columns_of};
ghost use Rattle.cqe_base.specs.Facts.{is_fact_of, IsWorldOf};
ghost use Rattle.cqe_base.specs.Formula.{formula_of, is_sentence_of};
ghost use Rattle.cqe_base.specs.History.{profile_of, answered_query_of, secret_at};
ghost use Rattle.user_desk.specs.Desks.{desk_schema, desk_user, desk_standing, desk_history};
ghost use Rattle.user_desk.specs.Standings.{is_open};
ghost use Rattle.audit_print.specs.Said.{method_word, atom_of, constants_in, fact_text, world_said};
ghost use Rattle.audit_print.specs.Said.{entry_said, secrecies_in, if_any, refused_said, IsListing};
ghost use Rattle.audit_print.specs.Audits.{Audits, AuditsServed};
ghost use Rattle.audit_print.specs.Found.{place_at, found_at};
ghost use Rattle.audit_text.specs.Rows.{entry_in, secrecy_in, secret_in, said_in};

use crate::others::{other_worlds, place_of};
use audit_text::{EntryRow, Report, SecrecyRow, SecretRow};
use cqe_base::laws::{law_amended_limits, law_pairs};
use cqe_base::schema::Schema;
use cqe_base::sentence::{Constant, Sentence, Term, Terms};
use cqe_base::user::{Entry, Method, User};
use cqe_base::world::{Fact, World};
use outside::Disk;
use sentence_text::print_sentence;
use std::alloc::{AllocError, Global};
use user_desk::{Desk, Standing};

/// What is said of the user of a desk.
pub(crate) fn report_on<'u, D: Disk>(
    alloc: Global,
    schema: &Schema,
    user: &'u User,
    desk: &Desk<'_, D>,
) -> Result<Report<'u>, AllocError>
    requires schema { schema.now ≡ desk_schema desk.now }
    requires user { profile_of user.now ≡ desk_user desk.now }
    ensures { IfOk result (λ report.
        Audits schema.now (string_bytes user.now.name) (profile_of user.now)
        (desk_standing desk.now) (desk_history desk.now) (said_in report)) }
{
    match desk.standing() {
        Standing::Open => served(alloc, schema, user, desk),
        Standing::Closed(_) => Ok(refused(alloc, user, "closed")),
        Standing::Sealed(_) => Ok(refused(alloc, user, "sealed")),
    }
}

fn served<'u, D: Disk>(
    alloc: Global,
    schema: &Schema,
    user: &'u User,
    desk: &Desk<'_, D>,
) -> Result<Report<'u>, AllocError>
    requires schema { schema.now ≡ desk_schema desk.now }
    requires user { profile_of user.now ≡ desk_user desk.now }
    requires open { is_open (desk_standing desk.now) ≡ true }
    ensures { IfOk result (λ report.
        AuditsServed schema.now (string_bytes user.now.name) (profile_of user.now)
        (desk_history desk.now) (said_in report)) }
{
    law_amended_limits();
    law_pairs();
    desk.known();
    let items = desk.entries();
    let current = user.after(alloc, items)?;
    let worlds = other_worlds(alloc, schema, user, &current, items)?;
    let entries = entry_rows(alloc, schema, items)?;
    let mut secrets = secret_rows(alloc, schema, &current, &worlds)?;
    let secrecies = secrecy_rows(alloc, &mut secrets, user.pairs)?;
    Ok(Report {
        name: user.name.as_str(),
        method: method_word(user.method),
        standing: "open",
        entries,
        secrecies: if_any(user, secrecies),
        secrets,
    })
}

fn refused<'u>(alloc: Global, user: &'u User, standing: &'static str) -> Report<'u>
    ensures { said_in result
        ≡ refused_said (string_bytes user.now.name) (profile_of user.now) standing.now }
{
    Report {
        name: user.name.as_str(),
        method: method_word(user.method),
        standing,
        entries: Vec::new(alloc),
        secrecies: if_any(user, Vec::new(alloc)),
        secrets: Vec::new(alloc),
    }
}

/// The word of a method, as in the policy.
pub fn method_word(method: Method) -> &'static str
    ensures { result.now ≡ method_word method }
{
    match method {
        Method::Lying => "lying",
        Method::Refusal => "refusal",
        Method::Combined => "combined",
    }
}

fn entry_rows(
    alloc: Global,
    schema: &Schema,
    entries: &[Entry],
) -> Result<Vec<EntryRow>, AllocError>
    requires { list_all (λ entry. is_sentence_of schema.now entry.query)
        (map answered_query_of entries.now) ≡ true }
    ensures { IfOk result (λ rows. map entry_in rows.items
        ≡ map (entry_said schema.now) (map answered_query_of entries.now)) }
{
    let mut rows = Vec::new(alloc);
    for entry in entries {
        let query = print_sentence(alloc, schema, &entry.query)?;
        rows.push(EntryRow {
            mark: entry.mark,
            query,
        })?;
    }
    Ok(rows)
}

fn secret_rows(
    alloc: Global,
    schema: &Schema,
    user: &User,
    worlds: &[Option<World>],
) -> Result<Vec<SecretRow>, AllocError>
    requires sentences { list_all (is_sentence_of schema.now) (profile_of user.now).secrets ≡ true }
    requires enough { (k : ℕ) → k < vec_len user.now.secrets
        → place_at user.now.method k < length worlds.now }
    requires of_schema { (k : ℕ) → k < vec_len user.now.secrets
        → IfSome (found_at user.now.method worlds.now k) (IsWorldOf schema.now) }
    ensures { IfOk result (λ rows.
        ListsAll schema.now (profile_of user.now) (found_at user.now.method worlds.now)
        (vec_len user.now.secrets) (map secret_in rows.items)) }
{
    let mut rows = Vec::new(alloc);
    for number in 0..user.secrets.len() {
        rows.push(secret_row(alloc, schema, user, worlds, number)?)?;
    }
    Ok(rows)
}

// Takes the rows of the secrecies, so many, off the beginning of those of all secrets.
fn secrecy_rows(
    alloc: Global,
    secrets: &mut Vec<SecretRow>,
    pairs: u32,
) -> Result<Vec<SecrecyRow>, AllocError>
    requires { 2 * pairs ≤ vec_len secrets.old }
    ensures secrecies { IfOk result (λ rows. map secrecy_in rows.items
        ≡ secrecies_in pairs (map secret_in secrets.old.items)) }
    ensures rest { OnOk result (map secret_in secrets.new.items
        ≡ drop (2 * pairs) (map secret_in secrets.old.items)) }
{
    let mut rows = Vec::new(alloc);
    for _ in 0..pairs {
        let stated = secrets.remove(0);
        let negated = secrets.remove(0);
        rows.push(SecrecyRow {
            secrecy: stated.secret,
            where_true: negated.world,
            where_false: stated.world,
        })?;
    }
    Ok(rows)
}

// The rows of the secrecies, where the user has any.
fn if_any(user: &User, rows: Vec<SecrecyRow>) -> Option<Vec<SecrecyRow>>
    ensures { option_map (λ rows. map secrecy_in rows.items) result
        ≡ if_any (profile_of user.now) (map secrecy_in rows.items) }
{
    if user.pairs == 0 { None } else { Some(rows) }
}

fn secret_row(
    alloc: Global,
    schema: &Schema,
    user: &User,
    worlds: &[Option<World>],
    number: usize,
) -> Result<SecretRow, AllocError>
    requires sentences { list_all (is_sentence_of schema.now) (profile_of user.now).secrets ≡ true }
    requires number { number < vec_len user.now.secrets }
    requires enough { place_at user.now.method number < length worlds.now }
    requires of_schema { IfSome (found_at user.now.method worlds.now number)
        (IsWorldOf schema.now) }
    ensures { IfOk result (λ row. (listing : Option (List Fact))
        × IsListing listing (found_at user.now.method worlds.now number)
        × (secret_in row ≡ (
          canonical schema.now (secret_at (profile_of user.now) number),
          option_map
              (world_said schema.now) listing,
        ))) }
{
    let secret = print_sentence(alloc, schema, &user.secrets[number])?;
    let world = world_texts(alloc, schema, &worlds[place_of(user.method, number)])?;
    Ok(SecretRow { secret, world })
}

fn world_texts(
    alloc: Global,
    schema: &Schema,
    world: &Option<World>,
) -> Result<Option<Vec<String>>, AllocError>
    requires { IfSome world.now (IsWorldOf schema.now) }
    ensures { IfOk result (λ texts. (listing : Option (List Fact)) × IsListing listing world.now
        × (option_map (λ facts. map string_bytes facts.items) texts
        ≡ option_map (world_said schema.now) listing)) }
{
    match world {
        Some(world) => {
            let texts = fact_texts(alloc, schema, world)?;
            Ok(Some(texts))
        }
        None => Ok(None),
    }
}

/// The texts of a world's facts, in their order.
pub fn fact_texts(alloc: Global, schema: &Schema, world: &World) -> Result<Vec<String>, AllocError>
    requires { IsWorldOf schema.now world.now }
    ensures { IfOk result (λ texts. (facts : List Fact) × IsListing (Some facts) (Some world.now)
        × (map string_bytes texts.items ≡ world_said schema.now facts)) }
{
    let mut texts = Vec::new(alloc);
    let mut facts = world.facts();
    while let Some(fact) = facts.next() {
        texts.push(fact_text(alloc, schema, fact)?)?;
    }
    Ok(texts)
}

/// The text of a fact.
pub fn fact_text(alloc: Global, schema: &Schema, fact: &Fact) -> Result<String, AllocError>
    requires { is_fact_of schema.now fact.now ≡ true }
    ensures { IfOk result (λ text. string_bytes text ≡ fact_text schema.now fact.now) }
{
    let atom = atom_of(alloc, schema, fact)?;
    print_sentence(alloc, schema, &atom)
}

fn atom_of(alloc: Global, schema: &Schema, fact: &Fact) -> Result<Sentence, AllocError>
    requires { is_fact_of schema.now fact.now ≡ true }
    ensures { IfOk result (λ atom. formula_of atom ≡ atom_of schema.now fact.now) }
{
    let mut terms = Vec::new(alloc);
    push_constants(&mut terms, columns_of(schema, fact.relation), &fact.columns)?;
    Ok(Sentence::Atom(fact.relation, Terms::from_vec(terms)))
}

// The domains of a relation's columns.
fn columns_of(schema: &Schema, relation: u32) -> &[u32]
    ensures { result.now ≡ unwrap_or (columns_of schema.now relation) [] }
{
    match schema.relations().get(relation as usize) {
        Some(relation) => relation.columns.as_slice(),
        None => &[],
    }
}

// Appends the constants of columns with these domains.
fn push_constants(terms: &mut Vec<Term>, domains: &[u32], columns: &[u32]) -> Result<(), AllocError>
    ensures { OnOk result (terms.new.items
        ≡ terms.old.items ++ constants_in domains.now columns.now) }
{
    match domains {
        [] => Ok(()),
        [domain, domains @ ..] => match columns {
            [] => Ok(()),
            [index, columns @ ..] => {
                terms.push(Term::Constant(Constant {
                    domain: *domain,
                    index: *index,
                }))?;
                push_constants(terms, domains, columns)
            }
        },
    }
}
