//! What stands in a policy, and a facts file at its limit. Refusals and the other limits are scenes
//! of `rehearsals`.
use cqe_base::schema::{Domain, Relation, Schema};
use cqe_base::sentence::Sentence;
use cqe_base::user::{Method, User};
use cqe_base::well_formed::is_sentence_of;
use policy_files::{Policy, read_policy};
use sentence_text::print_sentence;
use std::alloc::{AllocError, Global};
use std::process::Abort;

mod facts;

/// The worked policy.
const POLICY: &str = r#"version = 1

[domains]
person = ["ann", "bob"]

[relations]
drug = ["person"]
hiv = ["person"]

[[users]]
name = "eve"
method = "lying"
know = ["forall x: person . drug(x) -> hiv(x)"]
secrets = ["hiv(ann)"]
token = "ba7816bf8f01cfea414140de5dae2223b00361a396177a9cb410ff61f20015ad"

[[users]]
name = "ron"
method = "refusal"
know = ["forall x: person . drug(x) -> hiv(x)"]
secrets = ["hiv(ann)"]

[[users]]
name = "kim"
method = "combined"
know = ["forall x: person . drug(x) -> hiv(x)"]
secrets = ["hiv(ann)", "hiv(bob)"]

[[users]]
name = "lou"
method = "lying"
know = ["hiv(ann) or hiv(bob)"]
secrets = ["hiv(ann)", "hiv(bob)"]

[[users]]
name = "max"
method = "combined"
know = ["hiv(ann) or hiv(bob)"]
secrets = ["hiv(ann)", "hiv(bob)"]

[[users]]
name = "tom"
method = "refusal"
know = ["hiv(bob)"]
secrets = ["hiv(ann)"]
"#;

/// What stands in the worked policy, written out by hand.
const SAID: &str = "person: ann bob
drug: 0
hiv: 0
eve lying 1000000 ba7816bf8f01cfea414140de5dae2223b00361a396177a9cb410ff61f20015ad
know (forall v1: person . (drug(v1) -> hiv(v1)))
secret hiv(ann)
ron refusal 1000000 -
know (forall v1: person . (drug(v1) -> hiv(v1)))
secret hiv(ann)
kim combined 1000000 -
know (forall v1: person . (drug(v1) -> hiv(v1)))
secret hiv(ann)
secret hiv(bob)
lou lying 1000000 -
know (hiv(ann) or hiv(bob))
secret hiv(ann)
secret hiv(bob)
max combined 1000000 -
know (hiv(ann) or hiv(bob))
secret hiv(ann)
secret hiv(bob)
tom refusal 1000000 -
know hiv(bob)
secret hiv(ann)
";

/// Keys in another order, upper case digits, an absent `know` and a budget: numbers go by the keys'
/// bytes.
const TURNED: &str =
    r#"users = [{budget = 4000000, secrets = ["takes(ann, aspirin)"], method = "refusal", name = "Ann2",
  token = "BA7816BF8F01CFEA414140DE5DAE2223B00361A396177A9CB410FF61F20015AD"}]
relations = {takes = ["person", "drugs"], Zed = [], hiv = ["person"]}
domains = {person = ["bob", "ann"], drugs = ["aspirin"]}
version = 1
"#;

const TURNED_SAID: &str = "drugs: aspirin
person: bob ann
Zed:
hiv: 1
takes: 1 0
Ann2 refusal 4000000 ba7816bf8f01cfea414140de5dae2223b00361a396177a9cb410ff61f20015ad
secret takes(ann, aspirin)
";

/// The word of a method.
fn word(method: Method) -> &'static str {
    match method {
        Method::Lying => "lying",
        Method::Refusal => "refusal",
        Method::Combined => "combined",
    }
}

/// Appends a blank and a word.
fn push_word(text: &mut String, word: &str) -> Result<(), AllocError> {
    text.push_str(" ")?;
    text.push_str(word)
}

/// Writes a domain with its constants.
fn write_domain(text: &mut String, domain: &Domain) -> Result<(), AllocError> {
    text.push_str(domain.name.as_str())?;
    text.push_str(":")?;
    for constant in &domain.constants {
        push_word(text, constant.as_str())?;
    }
    text.push_str("\n")
}

/// Writes a relation with the numbers of its columns' domains.
fn write_relation(text: &mut String, relation: &Relation) -> Result<(), AllocError> {
    text.push_str(relation.name.as_str())?;
    text.push_str(":")?;
    for column in &relation.columns {
        write!(text, " {column}")?;
    }
    text.push_str("\n")
}

/// Writes what a schema declares.
fn write_schema(text: &mut String, schema: &Schema) -> Result<(), AllocError> {
    for domain in schema.domains() {
        write_domain(text, domain)?;
    }
    for relation in schema.relations() {
        write_relation(text, relation)?;
    }
    Ok(())
}

/// Writes a sentence in its canonical form, behind a word.
fn write_sentence(
    rt: &impl Abort,
    alloc: Global,
    text: &mut String,
    schema: &Schema,
    word: &str,
    sentence: &Sentence,
) -> Result<(), AllocError> {
    assert!(rt; is_sentence_of(schema, sentence));
    let printed = print_sentence(alloc, schema, sentence)?;
    text.push_str(word)?;
    push_word(text, printed.as_str())?;
    text.push_str("\n")
}

/// Writes sentences, each behind a word.
fn write_sentences(
    rt: &impl Abort,
    alloc: Global,
    text: &mut String,
    schema: &Schema,
    word: &str,
    sentences: &[Sentence],
) -> Result<(), AllocError> {
    for sentence in sentences {
        write_sentence(rt, alloc, text, schema, word, sentence)?;
    }
    Ok(())
}

/// A user's token in hexadecimal digits, or a stroke.
fn token_of(alloc: Global, user: &User) -> Result<String, AllocError> {
    match &user.token {
        Some(token) => hex::encode(alloc, *token),
        None => String::from_str(alloc, "-"),
    }
}

/// Writes a user.
fn write_user(
    rt: &impl Abort,
    alloc: Global,
    text: &mut String,
    schema: &Schema,
    user: &User,
) -> Result<(), AllocError> {
    let (name, method, budget) = (user.name.as_str(), word(user.method), user.budget);
    write!(text, "{name} {method} {budget}")?;
    let token = token_of(alloc, user)?;
    push_word(text, token.as_str())?;
    text.push_str("\n")?;
    write_sentences(rt, alloc, text, schema, "know", user.know.as_slice())?;
    write_sentences(rt, alloc, text, schema, "secret", user.secrets.as_slice())
}

/// What stands in a policy.
fn said(rt: &impl Abort, alloc: Global, policy: &Policy) -> Result<String, AllocError> {
    let mut text = String::new(alloc);
    write_schema(&mut text, &policy.schema)?;
    for user in &policy.users {
        write_user(rt, alloc, &mut text, &policy.schema, user)?;
    }
    Ok(text)
}

/// A policy that is read.
fn policy_of(rt: &impl Abort, alloc: Global, text: &str) -> Policy {
    match read_policy(alloc, text.as_bytes()) {
        Ok(policy) => policy,
        Err(_) => panic!(rt; "refused"),
    }
}

fn check_policy(rt: &impl Abort, alloc: Global, text: &str, wanted: &str) {
    let policy = policy_of(rt, alloc, text);
    match said(rt, alloc, &policy) {
        Ok(found) => assert_eq!(rt; found.as_str(), wanted),
        Err(_) => panic!(rt; "no memory for what it says"),
    }
}

#[test]
fn policies_say_what_stands_in_them(rt: HostRuntime) {
    let alloc = rt.alloc();
    check_policy(&rt, alloc, POLICY, SAID);
    check_policy(&rt, alloc, TURNED, TURNED_SAID);
}
