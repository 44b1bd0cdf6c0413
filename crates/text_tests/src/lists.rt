//! The instances of open queries, and what is refused. Each text was worked out by hand.
ghost use Rattle.std.specs.Prelude.{◌<◌, IfOk};
ghost use Rattle.open_queries.specs.Instances.{IsOpenQueryOf, instances};
ghost use Rattle.open_queries.specs.Memory.{open_query};

use cqe_base::schema::Schema;
use cqe_base::text::TextError;
use open_queries::{OpenList, OpenQueryError, opened};
use policy_files::read_policy;
use std::alloc::Global;
use std::process::Abort;

/// Two persons, three drugs, sixteen hours, seventeen days, and one constant with a long name.
const POLICY: &str = r#"version = 1

[domains]
person = ["ann", "bob"]
medicine = ["aspirin", "zinc", "iron"]
hour = ["h1", "h2", "h3", "h4", "h5", "h6", "h7", "h8", "h9", "h10", "h11", "h12", "h13", "h14",
  "h15", "h16"]
day = ["d1", "d2", "d3", "d4", "d5", "d6", "d7", "d8", "d9", "d10", "d11", "d12", "d13", "d14",
  "d15", "d16", "d17"]
long = ["a_name_that_has_thirty_two_bytes"]

[relations]
drug = ["person"]
hiv = ["person"]
takes = ["person", "medicine"]
sees = ["person", "person"]
six = ["long", "long", "long", "long", "long", "long"]

[[users]]
name = "eve"
method = "lying"
secrets = ["hiv(ann)"]
"#;

/// The instances of a sentence of three quantifiers, where one of them is opened.
const ONE_OPENED: &str =
    "0 0 0 0 (exists v1: person . (sees(v1, ann) and (forall v2: person . (sees(v2, v1) -> v2 = v1))))
1 0 0 0 (exists v1: person . (sees(v1, bob) and (forall v2: person . (sees(v2, v1) -> v2 = v1))))
";

/// And where two are.
const TWO_OPENED: &str =
    "0 0 0 0 (sees(ann, ann) and (forall v1: person . (sees(v1, ann) -> v1 = ann)))
0 1 0 0 (sees(bob, ann) and (forall v1: person . (sees(v1, bob) -> v1 = bob)))
1 0 0 0 (sees(ann, bob) and (forall v1: person . (sees(v1, ann) -> v1 = ann)))
1 1 0 0 (sees(bob, bob) and (forall v1: person . (sees(v1, bob) -> v1 = bob)))
";

/// The schema of the policy.
fn schema(rt: &impl Abort, alloc: Global) -> Schema {
    match read_policy(alloc, POLICY.as_bytes()) {
        Ok(policy) => policy.schema,
        Err(_) => panic!(rt; "no policy"),
    }
}

/// An instance, behind the places of its constants.
fn line_of(rt: &impl Abort, alloc: Global, schema: &Schema, list: &OpenList, number: u32) -> String
    requires of_schema { IsOpenQueryOf schema.now (open_query list.now) }
    requires number { number < instances schema.now (open_query list.now) }
{
    let [a, b, c, d] = list.constants(schema, number);
    let Ok(text) = list.instance(alloc, schema, number) else {
        panic!(rt; "no memory for an instance");
    };
    match format!(in alloc; "{a} {b} {c} {d} {}\n", text.as_str()) {
        Ok(line) => line,
        Err(_) => panic!(rt; "no memory for a line"),
    }
}

fn push(rt: &impl Abort, text: &mut String, more: &str) {
    if text.push_str(more).is_err() {
        panic!(rt; "no memory for a text");
    }
}

/// The instances of a text, one a line, each behind the places of its constants.
fn said(rt: &impl Abort, alloc: Global, schema: &Schema, list: &OpenList) -> String
    requires { IsOpenQueryOf schema.now (open_query list.now) }
{
    let mut said = String::new(alloc);
    for number in 0..list.instances(schema) {
        push(
            rt,
            &mut said,
            line_of(rt, alloc, schema, list, number).as_str(),
        );
    }
    said
}

/// Opens so many quantifiers of a text.
fn open_text(
    rt: &impl Abort,
    alloc: Global,
    schema: &Schema,
    count: u32,
    text: &str,
) -> Result<OpenList, OpenQueryError>
    ensures { IfOk result (λ list. IsOpenQueryOf schema.now (open_query list)) }
{
    assert!(rt; 1 <= count);
    assert!(rt; count <= 4);
    assert!(rt; text.len() <= 4096);
    opened(alloc, schema, count, text)
}

/// The instances of a text, of which so many quantifiers are opened.
fn listed(rt: &impl Abort, alloc: Global, schema: &Schema, count: u32, text: &str) -> String {
    match open_text(rt, alloc, schema, count, text) {
        Ok(list) => said(rt, alloc, schema, &list),
        Err(_) => panic!(rt; "refused"),
    }
}

fn check_listed(
    rt: &impl Abort,
    alloc: Global,
    schema: &Schema,
    count: u32,
    text: &str,
    wanted: &str,
) {
    let found = listed(rt, alloc, schema, count, text);
    assert_eq!(rt; found.as_str(), wanted);
}

/// The shape for which a text is refused, or 0 where it isn't.
fn shape(rt: &impl Abort, alloc: Global, schema: &Schema, count: u32, text: &str) -> u8 {
    match open_text(rt, alloc, schema, count, text) {
        Ok(_) => 0,
        Err(OpenQueryError::Shape(shape)) => shape,
        Err(_) => panic!(rt; "another refusal"),
    }
}

/// A quantifier before so many atoms that `and` joins: their canonical form has one construct less.
fn joined(rt: &impl Abort, alloc: Global, quantifier: &str, atom: &str, count: u32) -> String {
    let mut text = String::new(alloc);
    push(rt, &mut text, quantifier);
    push(rt, &mut text, " . ");
    for i in 0..count {
        push(rt, &mut text, if i > 0 { " and " } else { "" });
        push(rt, &mut text, atom);
    }
    text
}

/// How many quantifiers of a text are opened, the text, and what its instances are.
type Row = (u32, &'static str, &'static str);

const ROWS: [Row; 3] = [
    (
        1,
        "exists x: person . hiv(x)",
        "0 0 0 0 hiv(ann)\n1 0 0 0 hiv(bob)\n",
    ),
    (
        2,
        "exists x: person . exists y: medicine . takes(x, y)",
        "0 0 0 0 takes(ann, aspirin)\n0 1 0 0 takes(ann, zinc)\n0 2 0 0 takes(ann, iron)
1 0 0 0 takes(bob, aspirin)\n1 1 0 0 takes(bob, zinc)\n1 2 0 0 takes(bob, iron)\n",
    ),
    (
        4,
        "exists a: long . exists b: person . exists c: long . exists d: person . sees(d, b)",
        "0 0 0 0 sees(ann, ann)\n0 0 0 1 sees(bob, ann)\n0 1 0 0 sees(ann, bob)
0 1 0 1 sees(bob, bob)\n",
    ),
];

#[test]
fn instances_are_numbered_in_order(rt: HostRuntime) {
    let alloc = rt.alloc();
    let schema = schema(&rt, alloc);
    for (count, text, wanted) in &ROWS {
        check_listed(&rt, alloc, &schema, *count, text, wanted);
    }
}

#[test]
fn quantifiers_that_stay_are_numbered_anew(rt: HostRuntime) {
    let alloc = rt.alloc();
    let schema = schema(&rt, alloc);
    // The inner x is another variable than the outer one.
    let text =
        "(exists x: person . exists y: person . sees(y, x) and (forall x: person . sees(x, y) -> x = y))";
    check_listed(&rt, alloc, &schema, 1, text, ONE_OPENED);
    check_listed(&rt, alloc, &schema, 2, text, TWO_OPENED);
}

/// How many quantifiers of a text are opened, the text, and the shape for which it is refused.
type Shape = (u32, &'static str, u8);

const SHAPES: [Shape; 9] = [
    (1, "exists x: person . drug(x)", 0),
    (2, "exists x: person . drug(x)", 1),
    (1, "forall x: person . drug(x)", 1),
    (2, "exists x: person . not exists y: person . sees(x, y)", 1),
    (1, "true", 1),
    // Two hundred and fifty-six, and two hundred and eighty-nine.
    (2, "exists x: hour . exists y: hour . x = y", 0),
    (2, "exists x: day . exists y: day . x = y", 2),
    (1, "exists x: day . exists y: day . x = y", 0),
    (3, "exists x: day . exists y: day . x = y", 1),
];

fn check_shape(
    rt: &impl Abort,
    alloc: Global,
    schema: &Schema,
    count: u32,
    text: &str,
    wanted: u8,
) {
    assert_eq!(rt; shape(rt, alloc, schema, count, text), wanted, "of {text}");
}

/// A text that is no sentence is refused at its end, also where the shape is wrong.
fn check_no_sentence(rt: &impl Abort, alloc: Global, schema: &Schema) {
    match open_text(rt, alloc, schema, 3, "exists x: person . drug(") {
        Err(OpenQueryError::Text(why)) => {
            assert_eq!(rt; why, TextError { kind: 2, place: 24 });
        }
        _ => panic!(rt; "another answer"),
    }
}

/// The number of instances comes before the depth, and the shape before that number.
fn check_deep(rt: &impl Abort, alloc: Global, schema: &Schema) {
    let many = "exists x: day . exists y: day";
    let deep = joined(rt, alloc, many, "x = y", 66);
    check_shape(rt, alloc, schema, 2, deep.as_str(), 2);
    check_shape(rt, alloc, schema, 3, deep.as_str(), 1);
}

#[test]
fn refusals_come_in_order(rt: HostRuntime) {
    let alloc = rt.alloc();
    let schema = schema(&rt, alloc);
    check_no_sentence(&rt, alloc, &schema);
    for (count, text, wanted) in &SHAPES {
        check_shape(&rt, alloc, &schema, *count, text, *wanted);
    }
    check_deep(&rt, alloc, &schema);
}

/// A quantifier, an atom, how many atoms `and` joins, and the shape for which they are refused.
type Joined = (&'static str, &'static str, u32, u8);

const JOINED: [Joined; 4] = [
    ("exists x: person", "hiv(x)", 65, 0),
    ("exists x: person", "hiv(x)", 66, 3),
    ("exists x: long", "six(x, x, x, x, x, x)", 19, 0),
    ("exists x: long", "six(x, x, x, x, x, x)", 20, 3),
];

fn check_joined(rt: &impl Abort, alloc: Global, schema: &Schema, row: &Joined) {
    let (quantifier, atom, count, wanted) = *row;
    let text = joined(rt, alloc, quantifier, atom, count);
    assert_eq!(rt;
        shape(rt, alloc, schema, 1, text.as_str()),
        wanted,
        "{count} of {atom}"
    );
}

#[test]
fn each_instance_can_be_asked(rt: HostRuntime) {
    let alloc = rt.alloc();
    let schema = schema(&rt, alloc);
    // n atoms have n - 1 connectives around the first, so 64 constructs and 65. An atom of six long
    // names has 207 bytes, and each connective 7 more: 19 atoms have 4,059 bytes, 20 have 4,273.
    for row in &JOINED {
        check_joined(&rt, alloc, &schema, row);
    }
}
