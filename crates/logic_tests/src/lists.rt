//! Literals, clauses and resolvents that were worked out by hand.
use clause_store::clauses::Clauses;
use clause_store::codes::code;
use clause_store::literal::{Lit, has_literal};
use clause_store::marked_clause::MarkedClause;
use clause_store::resolution::{resolvent, unite};
use std::alloc::Global;
use std::process::Abort;

/// The literal of a number.
fn literal(rt: &impl Abort, number: i32) -> Lit {
    match Lit::from_number(number) {
        Some(literal) => literal,
        None => panic!(rt; "no literal"),
    }
}

/// The literals of these numbers.
fn literals(rt: &impl Abort, alloc: Global, numbers: &[i32]) -> Vec<Lit> {
    let mut literals = Vec::new(alloc);
    for number in numbers {
        if literals.push(literal(rt, *number)).is_err() {
            panic!(rt; "no memory for a literal");
        }
    }
    literals
}

/// The numbers of these literals.
fn numbers(rt: &impl Abort, alloc: Global, literals: &[Lit]) -> Vec<i32> {
    let mut numbers = Vec::new(alloc);
    for literal in literals {
        if numbers.push(literal.number()).is_err() {
            panic!(rt; "no memory for a number");
        }
    }
    numbers
}

/// These are the literals of these numbers.
fn check_literals(rt: &impl Abort, alloc: Global, literals: &[Lit], expected: &[i32]) {
    assert_eq!(rt; numbers(rt, alloc, literals).as_slice(), expected);
}

/// The clause of a number has the literals of these numbers.
fn is_clause(rt: &impl Abort, alloc: Global, clauses: &Clauses, number: usize, expected: &[i32]) {
    let Some(clause) = clauses.get(number) else {
        panic!(rt; "no clause");
    };
    check_literals(rt, alloc, clause, expected);
}

/// A number, the variable and the sign of its literal, and the number of the opposite one.
type Numbered = (i32, u32, bool, i32);

const NUMBERED: [Numbered; 6] = [
    (1, 0, true, -1),
    (-1, 0, false, 1),
    (5, 4, true, -5),
    (-13, 12, false, 13),
    (i32::MAX, 2_147_483_646, true, -i32::MAX),
    (-i32::MAX, 2_147_483_646, false, i32::MAX),
];

fn check_numbered(rt: &impl Abort, numbered: &Numbered) {
    let (number, variable, positive, opposite) = *numbered;
    let literal = literal(rt, number);
    assert_eq!(rt; literal.variable(), variable, "at {number}");
    assert_eq!(rt; literal.is_positive(), positive, "at {number}");
    assert_eq!(rt; literal.opposite().number(), opposite, "at {number}");
}

#[test]
fn numbers_are_literals(rt: HostRuntime) {
    for numbered in &NUMBERED {
        check_numbered(&rt, numbered);
    }
    assert!(rt; Lit::from_number(0).is_none());
    assert!(rt; Lit::from_number(i32::MIN).is_none());
    assert_eq!(rt; Lit::positive(6).number(), 7);
    assert_eq!(rt; Lit::negative(6).number(), -7);
}

/// The number of a clause that is appended.
fn pushed(rt: &impl Abort, alloc: Global, clauses: &mut Clauses, numbers: &[i32]) -> usize {
    let literals = literals(rt, alloc, numbers);
    match clauses.push(&literals) {
        Ok(number) => number,
        Err(_) => panic!(rt; "no memory for a clause"),
    }
}

/// Three clauses.
fn three_clauses(rt: &impl Abort, alloc: Global) -> Clauses {
    let mut clauses = Clauses::new(alloc);
    assert!(rt; clauses.is_empty());
    assert_eq!(rt; pushed(rt, alloc, &mut clauses, &[1, -2]), 0);
    assert_eq!(rt; pushed(rt, alloc, &mut clauses, &[]), 1);
    assert_eq!(rt; pushed(rt, alloc, &mut clauses, &[3, 3, -1]), 2);
    clauses
}

/// They are as they were pushed.
fn check_three(rt: &impl Abort, alloc: Global, clauses: &Clauses) {
    assert_eq!(rt; clauses.len(), 3);
    is_clause(rt, alloc, clauses, 0, &[1, -2]);
    is_clause(rt, alloc, clauses, 1, &[]);
    is_clause(rt, alloc, clauses, 2, &[3, 3, -1]);
    assert!(rt; clauses.get(3).is_none());
}

/// Another clause in the place of the last.
fn replace_last(rt: &impl Abort, alloc: Global, clauses: &mut Clauses) {
    assert!(rt; 2 <= clauses.len());
    clauses.truncate(2);
    assert_eq!(rt; pushed(rt, alloc, clauses, &[-4]), 2);
    is_clause(rt, alloc, clauses, 1, &[]);
    is_clause(rt, alloc, clauses, 2, &[-4]);
}

#[test]
fn clauses_are_lent_as_they_were_pushed(rt: HostRuntime) {
    let alloc = rt.alloc();
    let mut clauses = three_clauses(&rt, alloc);
    check_three(&rt, alloc, &clauses);
    let Ok(copy) = clauses.copy(alloc) else {
        panic!(rt; "no memory for a copy");
    };
    replace_last(&rt, alloc, &mut clauses);
    is_clause(&rt, alloc, &copy, 2, &[3, 3, -1]);
}

/// The resolvent of two clauses over the first variable.
fn check_resolvent(rt: &impl Abort, alloc: Global, first: &[Lit], second: &[Lit]) {
    match resolvent(alloc, 0, first, second) {
        Ok(found) => check_literals(rt, alloc, &found, &[3, -5, 2, 4]),
        Err(_) => panic!(rt; "no memory for a resolvent"),
    }
}

/// A clause with the literals of another that it hasn't.
fn check_union(rt: &impl Abort, alloc: Global, second: &[Lit]) {
    let mut union = literals(rt, alloc, &[3, 3]);
    assert!(rt; unite(&mut union, second).is_ok());
    check_literals(rt, alloc, &union, &[3, 3, 2, -1, -5, 4]);
    assert!(rt; has_literal(&union, Lit::positive(1)));
    assert!(rt; !has_literal(&union, Lit::negative(1)));
}

#[test]
fn resolvents_keep_the_order(rt: HostRuntime) {
    let alloc = rt.alloc();
    let first = literals(&rt, alloc, &[3, 1, -5]);
    let second = literals(&rt, alloc, &[2, -1, -5, 4]);
    check_resolvent(&rt, alloc, &first, &second);
    check_union(&rt, alloc, &second);
}

/// Appends literals.
fn append(rt: &impl Abort, clause: &mut MarkedClause, more: &[Lit]) {
    let Ok(()) = clause.make_room(more) else {
        panic!(rt; "no memory for marks");
    };
    assert!(rt; clause.append(more).is_ok());
}

/// Resolves with another clause over the first variable.
fn resolve(rt: &impl Abort, clause: &mut MarkedClause, other: &[Lit]) {
    let Ok(()) = clause.make_room(other) else {
        panic!(rt; "no memory for marks");
    };
    assert!(rt; clause.resolve(Lit::positive(0), other).is_ok());
}

/// The resolvent of two clauses.
fn resolved(rt: &impl Abort, alloc: Global) -> MarkedClause {
    let Ok(clause) = MarkedClause::new(alloc, 0) else {
        panic!(rt; "no memory for a clause");
    };
    let mut clause = clause;
    append(rt, &mut clause, &literals(rt, alloc, &[3, 1, -5]));
    resolve(rt, &mut clause, &literals(rt, alloc, &[2, -1, -5, 40]));
    clause
}

/// Its literals and their marks.
fn check_resolved(rt: &impl Abort, alloc: Global, clause: &MarkedClause) {
    check_literals(rt, alloc, clause.literals(), &[3, -5, 2, 40]);
    assert!(rt; clause.has(Lit::negative(4)));
    assert!(rt; clause.has(Lit::positive(39)));
    assert!(rt; !clause.has(Lit::positive(0)));
    assert!(rt; !clause.has(Lit::negative(0)));
    assert!(rt; !clause.has(Lit::positive(1_000)));
}

#[test]
fn marked_clauses_are_lists(rt: HostRuntime) {
    let alloc = rt.alloc();
    let mut clause = resolved(&rt, alloc);
    check_resolved(&rt, alloc, &clause);
    clause.clear();
    assert!(rt; clause.literals().is_empty());
    assert!(rt; !clause.has(Lit::positive(39)));
    assert_eq!(rt; code(Lit::positive(6)), 12);
    assert_eq!(rt; code(Lit::negative(6)), 13);
}
