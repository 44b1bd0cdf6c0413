//! A facts file at its limit.
use cqe_base::schema::Schema;
use policy_files::{FactsError, read_facts, read_policy};
use std::alloc::{AllocError, Global};
use std::process::Abort;
use std::test::Fail;

/// A relation (0) of five columns over ten constants, and one (1) without columns.
const DIGITS: &str = r#"version = 1
domains = {digit = ["c0", "c1", "c2", "c3", "c4", "c5", "c6", "c7", "c8", "c9"]}
relations = {r = ["digit", "digit", "digit", "digit", "digit"], s = []}
users = [{name = "eve", method = "lying", secrets = ["s()"]}]
"#;

/// The schema of a policy.
fn schema_of(alloc: Global, policy: &str) -> Option<Schema> {
    match read_policy(alloc, policy.as_bytes()) {
        Ok(policy) => Some(policy.schema),
        Err(_) => None,
    }
}

/// The fact of a number.
fn push_fact(alloc: Global, text: &mut String, n: u32) -> Result<(), AllocError> {
    let a = n / 10_000 % 10;
    let b = n / 1_000 % 10;
    let c = n / 100 % 10;
    let d = n / 10 % 10;
    let e = n % 10;
    let line = format!(in alloc; "r(c{a}, c{b}, c{c}, c{d}, c{e})\n")?;
    text.push_str(line.as_str())
}

/// A hundred thousand facts, in the order of their lines.
fn many_facts(alloc: Global) -> Result<String, AllocError> {
    let mut text = String::new(alloc);
    for n in 0..100_000 {
        push_fact(alloc, &mut text, n)?;
    }
    Ok(text)
}

/// How many facts a file states, or why it is refused.
fn count_facts(alloc: Global, schema: &Schema, text: &str) -> Result<usize, FactsError> {
    match read_facts(alloc, schema, text.as_bytes()) {
        Ok(world) => Ok(world.facts().count()),
        Err(why) => Err(why),
    }
}

/// A fact that is stated twice counts once.
fn check_most(rt: &impl Abort, alloc: Global, schema: &Schema, text: &str) {
    match count_facts(alloc, schema, text) {
        Ok(count) => assert_eq!(rt; count, 100_000),
        Err(_) => panic!(rt; "refused"),
    }
}

fn check_more(rt: &impl Abort, alloc: Global, schema: &Schema, text: &str) {
    let found = count_facts(alloc, schema, text);
    assert!(rt; matches!(found, Err(FactsError::Limit(100_003))));
}

#[test]
fn a_world_holds_100_000_facts(rt: HostRuntime) -> Result<(), Fail> {
    let alloc = rt.alloc();
    let mut text = many_facts(alloc)?;
    text.push_str("r(c9, c9, c9, c9, c9)\n")?;
    let Some(schema) = schema_of(alloc, DIGITS) else {
        panic!(rt; "no schema");
    };
    check_most(&rt, alloc, &schema, &text);
    assert!(rt; text.push_str("\ns()\nhiv(ann)\n").is_ok());
    check_more(&rt, alloc, &schema, &text);
    Ok(())
}
