//! Sentences that were grounded by hand, and the limit on nodes.
use crate::pharmacy::{DRUG, PERSON, TAKES, boxed, schema};
use cqe_base::prop::Prop;
use cqe_base::schema::Schema;
use cqe_base::sentence::{Constant, Sentence, Term, Terms, nodes};
use cqe_base::well_formed::is_sentence_of;
use grounding::{GroundError, ground};
use std::alloc::{AllocError, Global};
use std::process::Abort;
use std::test::Fail;

fn takes(rt: &impl Abort, alloc: Global, person: Term, drug: Term) -> Sentence {
    match Vec::from_array(alloc, [person, drug]) {
        Ok(terms) => Sentence::Atom(TAKES, Terms::from_vec(terms)),
        Err(_) => panic!(rt; "no memory for an atom"),
    }
}

/// Writes a ground formula, each connective before its parts.
#[cycle(writing)]
fn write(out: &mut String, prop: &Prop) -> Result<(), AllocError> {
    match prop {
        Prop::True => out.push_str(" true"),
        Prop::False => out.push_str(" false"),
        Prop::Atom(fact) => {
            let [person, drug, ..] = fact.columns;
            write!(out, " {person}-{drug}")
        }
        Prop::Not(a) => {
            out.push_str(" not")?;
            write(out, a)
        }
        Prop::And(parts) => {
            out.push_str(" (and")?;
            write_parts(out, parts)
        }
        Prop::Or(parts) => {
            out.push_str(" (or")?;
            write_parts(out, parts)
        }
        Prop::Implies(a, b) => {
            out.push_str(" implies")?;
            write(out, a)?;
            write(out, b)
        }
        Prop::Iff(a, b) => {
            out.push_str(" iff")?;
            write(out, a)?;
            write(out, b)
        }
    }
}

#[cycle(writing)]
fn write_parts(out: &mut String, parts: &[Prop]) -> Result<(), AllocError> {
    for part in parts {
        write(out, part)?;
    }
    out.push_str(")")
}

/// Each person is another than person 0 exactly where there is a drug that he doesn't take.
fn others_lack_one(rt: &impl Abort, alloc: Global) -> Sentence {
    let first_person = Term::Constant(Constant {
        domain: PERSON,
        index: 0,
    });
    let differs = boxed(rt, alloc, Sentence::Differs(Term::Place(0), first_person));
    let lacks_one = boxed(rt, alloc, lacks_one(rt, alloc));
    let each = boxed(rt, alloc, Sentence::Iff(differs, lacks_one));
    Sentence::Forall(PERSON, each)
}

/// There is a drug that the person of the quantifier before doesn't take.
fn lacks_one(rt: &impl Abort, alloc: Global) -> Sentence {
    let taken = boxed(rt, alloc, takes(rt, alloc, Term::Place(0), Term::Place(1)));
    let lacks = boxed(rt, alloc, Sentence::Not(taken));
    Sentence::Exists(DRUG, lacks)
}

/// Each person takes drug 0, with 66 negations before the atom: one more than 597 times 67 nodes
/// over 597 persons.
fn denied(rt: &impl Abort, alloc: Global) -> Sentence {
    let first_drug = Term::Constant(Constant {
        domain: DRUG,
        index: 0,
    });
    let mut body = takes(rt, alloc, Term::Place(0), first_drug);
    for _ in 0..66 {
        body = Sentence::Not(boxed(rt, alloc, body));
    }
    Sentence::Forall(PERSON, boxed(rt, alloc, body))
}

/// The answer for a sentence of the schema.
fn grounded(
    rt: &impl Abort,
    alloc: Global,
    schema: &Schema,
    sentence: &Sentence,
) -> Result<Prop, GroundError> {
    assert!(rt; is_sentence_of(schema, sentence));
    ground(alloc, schema, sentence)
}

/// A ground formula as it is written.
fn said(rt: &impl Abort, alloc: Global, prop: &Prop) -> String {
    let mut text = String::new(alloc);
    assert!(rt; write(&mut text, prop).is_ok());
    text
}

/// A sentence is grounded so.
fn check_grounded(
    rt: &impl Abort,
    alloc: Global,
    schema: &Schema,
    sentence: &Sentence,
    expected: &str,
) {
    match grounded(rt, alloc, schema, sentence) {
        Ok(prop) => assert_eq!(rt; said(rt, alloc, &prop).as_str(), expected),
        Err(_) => panic!(rt; "not grounded"),
    }
}

#[test]
fn by_hand(rt: HostRuntime) -> Result<(), Fail> {
    let alloc = rt.alloc();
    let schema = schema(alloc, 2, 3)?;
    let sentence = others_lack_one(&rt, alloc);
    let expected =
        " (and iff false (or not 0-0 not 0-1 not 0-2) iff true (or not 1-0 not 1-1 not 1-2))";
    check_grounded(&rt, alloc, &schema, &sentence, expected);
    Ok(())
}

/// A ground formula has a part for each of the 597 persons.
fn check_parts(rt: &impl Abort, prop: &Prop) {
    match prop {
        Prop::And(parts) => assert_eq!(rt; parts.len(), 597),
        _other => assert!(rt; false),
    }
}

/// A sentence has as many nodes as may be.
fn is_largest(rt: &impl Abort, alloc: Global, schema: &Schema, sentence: &Sentence) {
    assert_eq!(rt; nodes(sentence, schema), 40_000);
    match grounded(rt, alloc, schema, sentence) {
        Ok(prop) => check_parts(rt, &prop),
        Err(_) => panic!(rt; "not grounded"),
    }
}

/// A sentence has too many nodes.
fn is_larger(rt: &impl Abort, alloc: Global, schema: &Schema, sentence: &Sentence) {
    let refused = grounded(rt, alloc, schema, sentence);
    assert!(rt; matches!(refused, Err(GroundError::TooLarge)));
}

#[test]
fn at_the_limit(rt: HostRuntime) -> Result<(), Fail> {
    let alloc = rt.alloc();
    let schema = schema(alloc, 597, 1)?;
    let largest = denied(&rt, alloc);
    is_largest(&rt, alloc, &schema, &largest);
    let larger = Sentence::Not(boxed(&rt, alloc, largest));
    is_larger(&rt, alloc, &schema, &larger);
    Ok(())
}
