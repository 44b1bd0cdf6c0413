//! Clause forms of signed formulas.
ghost use Rattle.std.specs.Prelude.{◌≡◌, ◌<◌, ◌+◌, ◌^◌, map, IfSome, IsTrue};
ghost use Rattle.cqe_base.specs.Ground.{parts_of, ground_of, ground_nodes, part_nodes};

use clause_form::former::Former;
use clause_store::clauses::Clauses;
use cqe_base::prop::Prop;
use cqe_base::world::Fact;
use std::alloc::{AllocError, Global};

/// The fact of two digits: its relation, and the constant in its first column.
fn fact(digits: u32) -> Fact {
    Fact {
        relation: digits / 10,
        columns: [digits % 10, 0, 0, 0, 0, 0],
    }
}

/// The last formulas of a stack, so many, in order.
fn last(
    alloc: Global,
    stack: &mut Vec<Prop>,
    count: usize,
) -> Result<Option<Vec<Prop>>, AllocError> {
    let mut parts = Vec::new(alloc);
    for _ in 0..count {
        match stack.pop() {
            Some(part) => parts.push(part)?,
            None => return Ok(None),
        }
    }
    parts.reverse();
    Ok(Some(parts))
}

/// The last formula of a stack in a box.
fn boxed(alloc: Global, stack: &mut Vec<Prop>) -> Result<Option<Box<Prop>>, AllocError> {
    match stack.pop() {
        Some(prop) => Ok(Some(Box::new(alloc, prop)?)),
        None => Ok(None),
    }
}

/// The last two formulas of a stack in boxes, in order.
fn two(alloc: Global, stack: &mut Vec<Prop>) -> Result<Option<(Box<Prop>, Box<Prop>)>, AllocError> {
    match (boxed(alloc, stack)?, boxed(alloc, stack)?) {
        (Some(right), Some(left)) => Ok(Some((left, right))),
        _ => Ok(None),
    }
}

/// The formula of a word, whose parts come off a stack.
fn node(alloc: Global, stack: &mut Vec<Prop>, word: &str) -> Result<Option<Prop>, AllocError> {
    match word {
        "T" => Ok(Some(Prop::True)),
        "F" => Ok(Some(Prop::False)),
        "not" => match boxed(alloc, stack)? {
            Some(part) => Ok(Some(Prop::Not(part))),
            None => Ok(None),
        },
        "->" => match two(alloc, stack)? {
            Some((left, right)) => Ok(Some(Prop::Implies(left, right))),
            None => Ok(None),
        },
        "<->" => match two(alloc, stack)? {
            Some((left, right)) => Ok(Some(Prop::Iff(left, right))),
            None => Ok(None),
        },
        _ => wide_node(alloc, stack, word),
    }
}

/// A fact, or a formula of many parts.
fn wide_node(alloc: Global, stack: &mut Vec<Prop>, word: &str) -> Result<Option<Prop>, AllocError> {
    let Some((kind, count)) = word.split_once(":") else {
        return Ok(atom(word));
    };
    let Ok(count) = count.parse::<usize>() else {
        return Ok(None);
    };
    match last(alloc, stack, count)? {
        Some(parts) => Ok(wide(kind, parts)),
        None => Ok(None),
    }
}

/// The fact of a word.
fn atom(word: &str) -> Option<Prop> {
    match word.parse::<u32>() {
        Ok(digits) => Some(Prop::Atom(fact(digits))),
        Err(_) => None,
    }
}

/// The formula of many parts of this kind.
fn wide(kind: &str, parts: Vec<Prop>) -> Option<Prop> {
    match kind {
        "and" => Some(Prop::And(parts)),
        "or" => Some(Prop::Or(parts)),
        _ => None,
    }
}

/// The formula of words, each behind its parts: two digits are a fact, `and:3` and `or:3` are of
/// three parts.
fn formula(alloc: Global, words: &str) -> Result<Option<Prop>, AllocError> {
    let mut stack = Vec::new(alloc);
    for word in words.split_whitespace() {
        match node(alloc, &mut stack, word)? {
            Some(next) => stack.push(next)?,
            None => return Ok(None),
        }
    }
    Ok(stack.pop())
}

/// How many nodes a formula has, where a number of 32 bits tells it.
#[cycle(nodes)]
fn nodes(prop: &Prop) -> Option<u32>
    ensures { IfSome result (λ n. ground_nodes (ground_of prop.now) ≡ n) }
{
    match prop {
        Prop::True => Some(1),
        Prop::False => Some(1),
        Prop::Atom(_) => Some(1),
        Prop::Not(a) => nodes(a)?.checked_add(1),
        Prop::And(parts) => part_nodes(parts)?.checked_add(1),
        Prop::Or(parts) => part_nodes(parts)?.checked_add(1),
        Prop::Implies(a, b) => nodes(a)?.checked_add(nodes(b)?)?.checked_add(1),
        Prop::Iff(a, b) => nodes(a)?.checked_add(nodes(b)?)?.checked_add(1),
    }
}

/// How many nodes formulas have together.
#[cycle(nodes)]
fn part_nodes(parts: &[Prop]) -> Option<u32>
    ensures { IfSome result (λ n. part_nodes (parts_of (map ground_of parts.now)) ≡ n) }
{
    let mut count = 0u32;
    for part in parts {
        count = count.checked_add(nodes(part)?)?;
    }
    Some(count)
}

/// Whether there is room for a formula behind so many variables.
fn has_room(variables: u32, prop: &Prop) -> bool
    ensures { IsTrue result → variables + ground_nodes (ground_of prop.now) < 2 ^ 31 }
{
    match nodes(prop) {
        Some(count) => variables < 1_000_000 && count < 1_000_000,
        None => false,
    }
}

/// Appends the clauses as numbers, variable v as v + 1, with a comma between them.
fn push_clauses(text: &mut String, clauses: &Clauses) -> Result<(), AllocError> {
    for number in 0..clauses.len() {
        text.push_str(if number > 0 { "," } else { "" })?;
        for literal in clauses.clause(number) {
            write!(text, " {}", literal.number())?;
        }
    }
    Ok(())
}

/// How many variables the clause form of signed formulas takes, and its clauses. Formulas stand
/// with a comma between them, each a sign and the words of a formula.
pub fn form_text(alloc: Global, line: &str) -> Result<String, AllocError> {
    let mut former = Former::new(alloc)?;
    for signed in line.split(',') {
        let Some((sign, words)) = signed.trim().split_once(" ") else {
            return String::from_str(alloc, "no sign");
        };
        if !is_added(alloc, &mut former, sign == "+", words)? {
            return String::from_str(alloc, "no formula");
        }
    }
    let mut text = format!(in alloc; "{}:", former.variables())?;
    push_clauses(&mut text, former.clauses())?;
    Ok(text)
}

/// Adds the formula of words with a sign, and answers whether they are one for which there is room.
fn is_added(
    alloc: Global,
    former: &mut Former,
    sign: bool,
    words: &str,
) -> Result<bool, AllocError> {
    let Some(prop) = formula(alloc, words)? else {
        return Ok(false);
    };
    if !has_room(former.variables(), &prop) {
        return Ok(false);
    }
    former.add(alloc, &prop, sign)?;
    Ok(true)
}
