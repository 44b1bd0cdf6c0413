//! A workload of a seed, with sums of its bytes that a program in another language computed.
use cqe_base::schema::Schema;
use cqe_base::user::{Method, User};
use policy_files::{Policy, read_facts, read_policy};
use std::alloc::Global;
use std::process::Abort;
use std::test::Fail;
use workload::{Workload, make};

// The sum of the bytes, each times its place from 1.
fn weighted(bytes: &[u8]) -> u64 {
    let mut sum: u64 = 0;
    for (place, byte) in bytes.iter().enumerate() {
        sum = sum.saturating_add(
            (place as u64)
                .saturating_add(1)
                .saturating_mul(u64::from(*byte)),
        );
    }
    sum
}

/// The workload of a seed, for three users and sixty asks.
fn workload(alloc: Global) -> Result<Workload, Fail> {
    let made = make(alloc, 7, 3, 60)?;
    Ok(made)
}

fn policy_of(rt: &impl Abort, alloc: Global, bytes: &[u8]) -> Policy {
    match read_policy(alloc, bytes) {
        Ok(policy) => policy,
        Err(_) => panic!(rt; "no policy"),
    }
}

/// The facts are those of a world of the schema.
fn check_facts(rt: &impl Abort, alloc: Global, schema: &Schema, facts: &[u8]) {
    match read_facts(alloc, schema, facts) {
        Ok(world) => assert_eq!(rt; world.facts().count(), 245),
        Err(_) => panic!(rt; "no facts"),
    }
}

/// A user by this method knows one sentence and is kept from three.
fn check_user(rt: &impl Abort, user: &User, method: Method) {
    assert_eq!(rt; user.method, method);
    assert_eq!(rt; user.secrets.len(), 3);
    assert_eq!(rt; user.know.len(), 1);
}

const METHODS: [Method; 3] = [Method::Lying, Method::Refusal, Method::Combined];

fn check_users(rt: &impl Abort, users: &[User]) {
    assert_eq!(rt; users.len(), 3);
    for (user, method) in users.iter().zip(&METHODS) {
        check_user(rt, user, *method);
    }
}

// The numbers were computed by a program in another language.
fn check_sums(rt: &impl Abort, made: &Workload) {
    assert_eq!(rt; made.facts.len(), 4331);
    assert_eq!(rt; weighted(&made.facts), 621005266);
    assert_eq!(rt; made.script.len(), 1877);
    assert_eq!(rt; weighted(&made.script), 129090210);
}

#[test]
fn the_workload_of_seed_7(rt: HostRuntime) -> Result<(), Fail> {
    let alloc = rt.alloc();
    let made = workload(alloc)?;
    check_sums(&rt, &made);
    let policy = policy_of(&rt, alloc, &made.policy);
    check_facts(&rt, alloc, &policy.schema, &made.facts);
    check_users(&rt, &policy.users);
    Ok(())
}
