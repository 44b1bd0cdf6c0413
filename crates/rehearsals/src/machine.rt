//! Clauses as numbers: searched by both bodies of the machine, and refutations and models of them
//! judged.
use crate::orders::difference_in_orders;
use clause_solver::plain::search_plain;
use clause_solver::{Found, is_searchable, search, search_with_cost};
use clause_store::clauses::Clauses;
use clause_store::literal::Lit;
use clause_store::refutation::{Line, Refutation, Signs};
use proof_check::model::check_model;
use proof_check::refutation::check_refutation;
use std::alloc::{AllocError, Global};

/// The greatest budget of a user.
pub const BUDGET: u64 = 4_000_000;

/// The literals of these numbers; `None` where some word is none.
fn literals(alloc: Global, text: &str) -> Result<Option<Vec<Lit>>, AllocError> {
    let mut literals = Vec::new(alloc);
    for word in text.split_whitespace() {
        match literal(word) {
            Some(literal) => literals.push(literal)?,
            None => return Ok(None),
        }
    }
    Ok(Some(literals))
}

/// The literal of a number.
fn literal(word: &str) -> Option<Lit> {
    Lit::from_number(word.parse::<i32>().ok()?)
}

/// The clauses of these numbers, with a comma between them. No text is no clause, and a blank an
/// empty one.
fn clauses(alloc: Global, text: &str) -> Result<Option<Clauses>, AllocError> {
    let mut clauses = Clauses::new(alloc);
    if text.is_empty() {
        return Ok(Some(clauses));
    }
    for clause in text.split(',') {
        if !push_clause(alloc, &mut clauses, clause)? {
            return Ok(None);
        }
    }
    Ok(Some(clauses))
}

/// Appends the clause of these numbers, and answers whether they are such.
fn push_clause(alloc: Global, clauses: &mut Clauses, text: &str) -> Result<bool, AllocError> {
    let Some(literals) = literals(alloc, text)? else {
        return Ok(false);
    };
    let _number = clauses.push(&literals)?;
    Ok(true)
}

/// How many variables there are, and the clauses: `N: clauses`.
fn problem(alloc: Global, line: &str) -> Result<Option<(u32, Clauses)>, AllocError> {
    let Some((variables, text)) = line.split_once(":") else {
        return Ok(None);
    };
    let Ok(variables) = variables.parse::<u32>() else {
        return Ok(None);
    };
    match clauses(alloc, text)? {
        Some(clauses) => Ok(Some((variables, clauses))),
        None => Ok(None),
    }
}

/// Appends numbers, with a blank before each.
fn push_literals(text: &mut String, literals: &[Lit]) -> Result<(), AllocError> {
    for literal in literals {
        write!(text, " {}", literal.number())?;
    }
    Ok(())
}

/// What a search found: `model` and a digit for each variable, `refuted` and its lines with a comma
/// between them, each a clause, `by` and a chain, or `spent`.
pub fn found_text(alloc: Global, found: &Found) -> Result<String, AllocError> {
    match found {
        Found::Model(signs) => model_text(alloc, signs),
        Found::Refuted(refutation) => refutation_text(alloc, refutation),
        Found::Spent => String::from_str(alloc, "spent"),
    }
}

/// `model` and a digit for each variable.
fn model_text(alloc: Global, signs: &Signs) -> Result<String, AllocError> {
    let mut text = String::from_str(alloc, "model ")?;
    for sign in &signs.values {
        text.push_str(if *sign { "1" } else { "0" })?;
    }
    Ok(text)
}

/// `refuted` and the lines, with a comma between them.
fn refutation_text(alloc: Global, refutation: &Refutation) -> Result<String, AllocError> {
    let mut text = String::from_str(alloc, "refuted")?;
    for (place, line) in refutation.lines.iter().enumerate() {
        text.push_str(if place > 0 { "," } else { "" })?;
        push_line(&mut text, line)?;
    }
    Ok(text)
}

/// Appends a line: a clause, `by` and a chain.
fn push_line(text: &mut String, line: &Line) -> Result<(), AllocError> {
    push_literals(text, &line.clause)?;
    text.push_str(" by")?;
    for number in &line.chain {
        write!(text, " {number}")?;
    }
    Ok(())
}

/// What both bodies find within a budget, or that they differ.
fn both(
    alloc: Global,
    clauses: &Clauses,
    variables: u32,
    budget: u64,
) -> Result<String, AllocError> {
    if !is_searchable(clauses, variables, budget) {
        return String::from_str(alloc, "not searchable");
    }
    let fast = found_text(alloc, &search(alloc, clauses, variables, budget)?)?;
    let plain = found_text(alloc, &search_plain(alloc, clauses, variables, budget)?)?;
    agreed(alloc, fast, plain.as_str())
}

/// What both found, or that they differ.
fn agreed(alloc: Global, fast: String, plain: &str) -> Result<String, AllocError> {
    if fast.as_str() == plain {
        Ok(fast)
    } else {
        String::from_str(alloc, "the bodies differ")
    }
}

/// The whole cost of a search, and what both bodies find at this budget, if they find nothing at
/// one less, and a kept search differs from them in no order.
pub fn search_text(alloc: Global, line: &str) -> Result<String, AllocError> {
    match problem(alloc, line)? {
        Some((variables, clauses)) => searched(alloc, &clauses, variables),
        None => String::from_str(alloc, "no clauses"),
    }
}

/// The same of clauses that are read.
fn searched(alloc: Global, clauses: &Clauses, variables: u32) -> Result<String, AllocError> {
    if !is_searchable(clauses, variables, BUDGET) {
        return String::from_str(alloc, "not searchable");
    }
    let cost = search_with_cost(alloc, clauses, variables, BUDGET)?.cost;
    let below = both(alloc, clauses, variables, cost.saturating_sub(1))?;
    if below.as_str() != "spent" {
        return format!(in alloc; "{below} below {cost}");
    }
    found_at(alloc, clauses, variables, cost)
}

/// What both bodies find at the cost, if a kept search differs from them in no order.
fn found_at(
    alloc: Global,
    clauses: &Clauses,
    variables: u32,
    cost: u64,
) -> Result<String, AllocError> {
    if let Some(text) = difference_in_orders(alloc, clauses, variables)? {
        return format!(in alloc; "a kept search differs: {text}");
    }
    let found = both(alloc, clauses, variables, cost)?;
    format!(in alloc; "{cost} {found}")
}

/// The same with the kind of the end alone.
pub fn end_text(alloc: Global, line: &str) -> Result<String, AllocError> {
    let text = search_text(alloc, line)?;
    two_words(alloc, text.as_str())
}

/// The first two words of a text that has so many, and any other as it is.
fn two_words(alloc: Global, text: &str) -> Result<String, AllocError> {
    let mut words = text.split_whitespace();
    match (words.next(), words.next()) {
        (Some(first), Some(second)) => format!(in alloc; "{first} {second}"),
        _ => String::from_str(alloc, text),
    }
}

/// The lines of a refutation, with a comma between them: each a clause, `by` and a chain.
fn refutation(alloc: Global, text: &str) -> Result<Option<Refutation>, AllocError> {
    let mut lines = Vec::new(alloc);
    if text.is_empty() {
        return Ok(Some(Refutation { lines }));
    }
    for line in text.split(',') {
        match refutation_line(alloc, line)? {
            Some(line) => lines.push(line)?,
            None => return Ok(None),
        }
    }
    Ok(Some(Refutation { lines }))
}

/// A line of a refutation.
fn refutation_line(alloc: Global, text: &str) -> Result<Option<Line>, AllocError> {
    let Some((clause, numbers)) = text.split_once("by") else {
        return Ok(None);
    };
    match (literals(alloc, clause)?, chain(alloc, numbers)?) {
        (Some(clause), Some(chain)) => Ok(Some(Line { clause, chain })),
        _ => Ok(None),
    }
}

/// The numbers of a chain; `None` where some word is none.
fn chain(alloc: Global, text: &str) -> Result<Option<Vec<u32>>, AllocError> {
    let mut chain = Vec::new(alloc);
    for word in text.split_whitespace() {
        match word.parse::<u32>() {
            Ok(number) => chain.push(number)?,
            Err(_) => return Ok(None),
        }
    }
    Ok(Some(chain))
}

/// `right` or `wrong`.
fn verdict(alloc: Global, is_right: bool) -> Result<String, AllocError> {
    String::from_str(alloc, if is_right { "right" } else { "wrong" })
}

/// Whether a refutation of clauses is right: `clauses; lines`.
pub fn judged_refutation(alloc: Global, line: &str) -> Result<String, AllocError> {
    let (given, lines) = line.split_once(";").unwrap_or((line, ""));
    match clauses(alloc, given)? {
        Some(clauses) => judged_lines(alloc, &clauses, lines),
        None => String::from_str(alloc, "no clauses"),
    }
}

/// Whether the refutation of these lines is right.
fn judged_lines(alloc: Global, clauses: &Clauses, lines: &str) -> Result<String, AllocError> {
    match refutation(alloc, lines)? {
        Some(refutation) => verdict(alloc, check_refutation(alloc, clauses, &refutation)?),
        None => String::from_str(alloc, "no clauses"),
    }
}

/// Whether signs are a model of clauses: `clauses; signs`.
pub fn judged_model(alloc: Global, line: &str) -> Result<String, AllocError> {
    let (given, signs) = line.split_once(";").unwrap_or((line, ""));
    let Some(clauses) = clauses(alloc, given)? else {
        return String::from_str(alloc, "no clauses");
    };
    let signs = signs_of(alloc, signs)?;
    verdict(alloc, check_model(&clauses, &signs))
}

/// The signs of digits.
fn signs_of(alloc: Global, digits: &str) -> Result<Signs, AllocError> {
    let mut values = Vec::new(alloc);
    for digit in digits.bytes() {
        values.push(digit == b'1')?;
    }
    Ok(Signs { values })
}
