//! The policy of a workload.
ghost use Rattle.std.specs.Prelude.{◌≡◌, ◌+◌, ◌*◌, ◌≤◌, ◌∷◌, [], ℕ, Ok, map, pos, IfOk, OnOk};
ghost use Rattle.std.specs.Prelude.{string_bytes};
ghost use Rattle.toml.specs.Data.{no_members, table, array, string};
ghost use Rattle.toml.specs.View.{view, table_view};
ghost use Rattle.policy_files.specs.Policy.{policy_in};
ghost use Rattle.sentence_text.specs.Laws.{CanonicalFormsRead};
ghost use Rattle.workload.specs.Draws.{state_after, state_of, drawn};
ghost use Rattle.workload.specs.Stated.{numbered};
ghost use Rattle.workload.specs.Policies.{user_name, workload_policy};
ghost use Rattle.workload.specs.Trees.{insert_member, texts_data, method_text, secret_text};
ghost use Rattle.workload.specs.Trees.{user_members, domain_members, relation_members};
ghost use Rattle.workload.specs.Trees.{root_members, user_trees, ReadsAs};

use crate::draws::Draws;
use sentence_text::laws::law_canonical_forms_read;
use std::alloc::{AllocError, Global};
use toml::{Table, Value};

/// What each user knows.
const KNOWN: &str = "forall x: person . drug(x) -> has(x, d0)";

/// Draws the secrets of the users, three each, and makes the text of the policy.
pub(crate) fn policy_text(
    alloc: Global,
    draws: &mut Draws,
    users: u32,
) -> Result<String, AllocError>
    requires some_user { 1 ≤ users }
    requires few_users { users ≤ 256 }
    ensures policy { (seed : ℕ) → state_of draws.old ≡ state_after seed 620
        → IfOk result (λ text. policy_in (string_bytes text) ≡ Ok (workload_policy seed users)) }
    ensures after { (seed n : ℕ) → state_of draws.old ≡ state_after seed n
        → OnOk result (state_of draws.new ≡ state_after seed (n + 3 * users)) }
{
    law_canonical_forms_read();
    let list = user_list(alloc, draws, users)?;
    root_text(alloc, list)
}

// Draws the secrets of the users, and makes their tables.
fn user_list(alloc: Global, draws: &mut Draws, users: u32) -> Result<Vec<Value>, AllocError>
    ensures trees { (seed : ℕ) → state_of draws.old ≡ state_after seed 620
        → IfOk result (λ list. map view list.items ≡ user_trees seed users) }
    ensures after { (seed n : ℕ) → state_of draws.old ≡ state_after seed n
        → OnOk result (state_of draws.new ≡ state_after seed (n + 3 * users)) }
{
    let mut list = Vec::new(alloc);
    for number in 0..users {
        let persons = draw_persons(draws);
        list.push(Value::Table(user_table(alloc, number, persons)?))?;
    }
    Ok(list)
}

// Draws three persons.
fn draw_persons(draws: &mut Draws) -> [u32; 3]
    ensures drawn { (seed n : ℕ) → state_of draws.old ≡ state_after seed n
        → result ≡ drawn seed n 40 ∷ drawn seed (n + 1) 40 ∷ drawn seed (n + 2) 40 ∷ [] }
    ensures after { (seed n : ℕ) → state_of draws.old ≡ state_after seed n
        → state_of draws.new ≡ state_after seed (n + 3) }
{
    let (first, second) = (draws.draw(40), draws.draw(40));
    [first, second, draws.draw(40)]
}

// The text of a policy with these users.
fn root_text(alloc: Global, list: Vec<Value>) -> Result<String, AllocError>
    ensures { IfOk result (λ text.
        ReadsAs (root_members (map view list.items)) (string_bytes text)) }
{
    let mut root = Table::new(alloc);
    put(alloc, &mut root, "version", Value::Integer(1))?;
    put(alloc, &mut root, "domains", Value::Table(domains(alloc)?))?;
    put(
        alloc,
        &mut root,
        "relations",
        Value::Table(relations(alloc)?),
    )?;
    put(alloc, &mut root, "users", Value::Array(list))?;
    toml::table_to_string(alloc, &root).map_err(|_| AllocError)
}

// Puts a value under a key.
fn put(alloc: Global, table: &mut Table, key: &str, value: Value) -> Result<(), AllocError>
    ensures { OnOk result (table_view table.new
        ≡ insert_member key.now (view value) (table_view table.old)) }
{
    let _before = table.insert(String::from_str(alloc, key)?, value)?;
    Ok(())
}

// Forty persons and twelve diseases.
fn domains(alloc: Global) -> Result<Table, AllocError>
    ensures { IfOk result (λ domains. table_view domains ≡ domain_members) }
{
    let mut domains = Table::new(alloc);
    put(alloc, &mut domains, "person", constants(alloc, "p", 40)?)?;
    put(alloc, &mut domains, "disease", constants(alloc, "d", 12)?)?;
    Ok(domains)
}

// So many constants with numbers behind a letter.
fn constants(alloc: Global, letter: &str, count: u32) -> Result<Value, AllocError>
    ensures { IfOk result (λ names. view names ≡ texts_data (numbered letter.now count)) }
{
    let mut names = Vec::new(alloc);
    for number in 0..count {
        names.push(Value::String(format!(in alloc; "{letter}{number}")?))?;
    }
    Ok(Value::Array(names))
}

// Who takes the drug, and who has which disease.
fn relations(alloc: Global) -> Result<Table, AllocError>
    ensures { IfOk result (λ relations. table_view relations ≡ relation_members) }
{
    let mut relations = Table::new(alloc);
    put(alloc, &mut relations, "drug", texts(alloc, &["person"])?)?;
    put(
        alloc,
        &mut relations,
        "has",
        texts(alloc, &["person", "disease"])?,
    )?;
    Ok(relations)
}

// An array of texts.
fn texts(alloc: Global, all: &[&str]) -> Result<Value, AllocError>
    ensures { IfOk result (λ array. view array ≡ texts_data (map (λ text. text.now) all.now)) }
{
    let mut array = Vec::new(alloc);
    for one in all {
        array.push(Value::String(String::from_str(alloc, one)?))?;
    }
    Ok(Value::Array(array))
}

// The user of this number, whose secrets are that these persons have the first disease.
fn user_table(alloc: Global, number: u32, persons: [u32; 3]) -> Result<Table, AllocError>
    ensures { IfOk result (λ user. table_view user ≡ user_members number persons) }
{
    let name = format!(in alloc; "u{number}")?;
    let method = String::from_str(alloc, method_text(number))?;
    let mut user = Table::new(alloc);
    put(alloc, &mut user, "name", Value::String(name))?;
    put(alloc, &mut user, "method", Value::String(method))?;
    put(alloc, &mut user, "know", texts(alloc, &[KNOWN])?)?;
    put(alloc, &mut user, "secrets", secrets(alloc, &persons)?)?;
    Ok(user)
}

// The word of the method of the user of this number.
fn method_text(number: u32) -> &'static str
    ensures { result.now ≡ method_text number }
{
    match number % 3 {
        0 => "lying",
        1 => "refusal",
        _ => "combined",
    }
}

// That these persons have the first disease.
fn secrets(alloc: Global, persons: &[u32]) -> Result<Value, AllocError>
    ensures { IfOk result (λ secrets. view secrets ≡ texts_data (map secret_text persons.now)) }
{
    let mut secrets = Vec::new(alloc);
    for person in persons {
        secrets.push(Value::String(format!(in alloc; "has(p{person}, d0)")?))?;
    }
    Ok(Value::Array(secrets))
}
