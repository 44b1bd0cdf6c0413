//! The facts of a workload.
ghost use Rattle.std.specs.Prelude.{◌≡◌, ◌++◌, ℕ, Some, IfOk, OnOk, string_bytes};
ghost use Rattle.workload.specs.Draws.{state_after, state_of};
ghost use Rattle.workload.specs.Statements.{statement_text, statements, illnesses, treatments};
ghost use Rattle.workload.specs.Statements.{facts_text};

use crate::draws::Draws;
use std::alloc::{AllocError, Global};
use std::fmt;

/// A fact, by the numbers of its constants.
#[derive(Clone, Copy)]
pub(crate) enum Statement {
    /// A person takes the drug.
    Drug(u32),
    /// A person has a disease.
    Has(u32, u32),
}

impl fmt::Display for Statement {
    ghost output = { λ statement. Some (statement_text statement) };

    fn fmt<W: fmt::Write>(&self, f: &mut fmt::Formatter<W>) -> fmt::Result {
        match self {
            Statement::Drug(person) => write!(f, "drug(p{person})"),
            Statement::Has(person, disease) => write!(f, "has(p{person}, d{disease})"),
        }
    }
}

/// Draws three hundred illnesses and twenty treatments.
pub(crate) fn draw_statements(
    alloc: Global,
    draws: &mut Draws,
) -> Result<Vec<Statement>, AllocError>
    ensures drawn { (seed : ℕ) → state_of draws.old ≡ state_after seed 0
        → IfOk result (λ all. all.items ≡ statements seed) }
    ensures after { (seed : ℕ) → state_of draws.old ≡ state_after seed 0
        → OnOk result (state_of draws.new ≡ state_after seed 620) }
{
    let illnesses = draw_illnesses(alloc, draws)?;
    draw_treatments(draws, illnesses)
}

// Draws three hundred times that somebody has a disease.
fn draw_illnesses(alloc: Global, draws: &mut Draws) -> Result<Vec<Statement>, AllocError>
    ensures drawn { (seed : ℕ) → state_of draws.old ≡ state_after seed 0
        → IfOk result (λ all. all.items ≡ illnesses seed 300) }
    ensures after { (seed : ℕ) → state_of draws.old ≡ state_after seed 0
        → OnOk result (state_of draws.new ≡ state_after seed 600) }
{
    let mut all = Vec::new(alloc);
    for _number in 0..300_u32 {
        let (person, disease) = (draws.draw(40), draws.draw(12));
        all.push(Statement::Has(person, disease))?;
    }
    Ok(all)
}

// Draws twenty times that somebody takes the drug and has the first disease, behind these facts.
fn draw_treatments(draws: &mut Draws, before: Vec<Statement>) -> Result<Vec<Statement>, AllocError>
    ensures drawn { (seed : ℕ) → state_of draws.old ≡ state_after seed 600
        → IfOk result (λ all. all.items ≡ before.items ++ treatments seed 20) }
    ensures after { (seed : ℕ) → state_of draws.old ≡ state_after seed 600
        → OnOk result (state_of draws.new ≡ state_after seed 620) }
{
    let mut all = before;
    for _number in 0..20_u32 {
        let person = draws.draw(40);
        all.push(Statement::Drug(person))?;
        all.push(Statement::Has(person, 0))?;
    }
    Ok(all)
}

/// The lines of a facts file.
pub(crate) fn facts_text(alloc: Global, all: &[Statement]) -> Result<String, AllocError>
    ensures { IfOk result (λ text. string_bytes text ≡ facts_text all.now) }
{
    let mut text = String::new(alloc);
    for statement in all {
        text.push_str(format!(in alloc; "{statement}\n")?.as_str())?;
    }
    Ok(text)
}
