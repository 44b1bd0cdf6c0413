//! Persons, drugs, and who takes which: the schema over which sentences are grounded and evaluated.
use cqe_base::schema::Schema;
use cqe_base::sentence::Sentence;
use std::alloc::{AllocError, Global};
use std::process::Abort;
use std::test::Fail;

/// The domain of the persons.
pub const PERSON: u32 = 0;

/// The domain of the drugs.
pub const DRUG: u32 = 1;

/// The relation of a person and a drug.
pub const TAKES: u32 = 0;

/// A domain of this name with so many constants.
fn domain(alloc: Global, name: &str, size: u32) -> Result<(String, Vec<String>), AllocError> {
    let mut constants = Vec::new(alloc);
    for number in 0..size {
        constants.push(format!(in alloc; "{name}{number}")?)?;
    }
    Ok((String::from_str(alloc, name)?, constants))
}

/// The schema of so many persons, so many drugs, and who takes which.
pub fn schema(alloc: Global, persons: u32, drugs: u32) -> Result<Schema, Fail> {
    let domains = domains(alloc, persons, drugs)?;
    let relations = relations(alloc)?;
    Ok(Schema::new(alloc, domains, relations)?)
}

fn domains(
    alloc: Global,
    persons: u32,
    drugs: u32,
) -> Result<Vec<(String, Vec<String>)>, AllocError> {
    let mut domains = Vec::new(alloc);
    domains.push(domain(alloc, "person", persons)?)?;
    domains.push(domain(alloc, "drug", drugs)?)?;
    Ok(domains)
}

fn relations(alloc: Global) -> Result<Vec<(String, Vec<String>)>, AllocError> {
    let columns = columns(alloc)?;
    let mut relations = Vec::new(alloc);
    relations.push((String::from_str(alloc, "takes")?, columns))?;
    Ok(relations)
}

fn columns(alloc: Global) -> Result<Vec<String>, AllocError> {
    let mut columns = Vec::new(alloc);
    columns.push(String::from_str(alloc, "person")?)?;
    columns.push(String::from_str(alloc, "drug")?)?;
    Ok(columns)
}

/// A sentence in a box.
pub fn boxed(rt: &impl Abort, alloc: Global, sentence: Sentence) -> Box<Sentence> {
    match Box::new(alloc, sentence) {
        Ok(boxed) => boxed,
        Err(_) => panic!(rt; "no memory for a sentence"),
    }
}
