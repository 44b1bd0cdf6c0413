//! The asks of a workload.
ghost use Rattle.std.specs.Prelude.{◌≡◌, ◌<◌, ◌+◌, ◌*◌, ℕ, Some, IfOk, string_bytes};
ghost use Rattle.workload.specs.Draws.{state_after, state_of};
ghost use Rattle.workload.specs.Questions.{question_text, question_of, question_at, script_lines};

use crate::draws::Draws;
use std::alloc::{AllocError, Global};
use std::fmt;

/// A question, by the numbers of its constants.
#[derive(Clone, Copy)]
pub(crate) enum Question {
    /// Whether a person takes the drug.
    Drug(u32),
    /// Whether a person has a disease.
    Has(u32, u32),
    /// Whether somebody has a disease.
    Somebody(u32),
    /// Whether everybody with a disease takes the drug.
    Everybody(u32),
    /// Whether one of two persons has a disease.
    Either(u32, u32, u32),
    /// Whether a person is free of a disease.
    HasNot(u32, u32),
}

impl fmt::Display for Question {
    ghost output = { λ question. Some (question_text question) };

    fn fmt<W: fmt::Write>(&self, f: &mut fmt::Formatter<W>) -> fmt::Result {
        match self {
            Question::Drug(person) => write!(f, "drug(p{person})"),
            Question::Has(person, disease) => write!(f, "has(p{person}, d{disease})"),
            Question::Somebody(disease) => write!(f, "exists x: person . has(x, d{disease})"),
            Question::Everybody(disease) => {
                write!(f, "forall x: person . has(x, d{disease}) -> drug(x)")
            }
            Question::Either(person, other, disease) => {
                write!(f, "has(p{person}, d{disease}) or has(p{other}, d{disease})")
            }
            Question::HasNot(person, disease) => write!(f, "not has(p{person}, d{disease})"),
        }
    }
}

// Draws a question.
fn draw_question(draws: &mut Draws) -> Question
    ensures drawn { (seed n : ℕ) → state_of draws.old ≡ state_after seed n
        → result ≡ question_at seed n }
    ensures after { (seed n : ℕ) → state_of draws.old ≡ state_after seed n
        → state_of draws.new ≡ state_after seed (n + 4) }
{
    let (form, person) = (draws.draw(6), draws.draw(40));
    let (other, disease) = (draws.draw(40), draws.draw(12));
    question_of(form, person, other, disease)
}

// The question of a form.
fn question_of(form: u32, person: u32, other: u32, disease: u32) -> Question
    ensures { result ≡ question_of form person other disease }
{
    match form {
        0 => Question::Drug(person),
        1 => Question::Has(person, disease),
        2 => Question::Somebody(disease),
        3 => Question::Everybody(disease),
        4 => Question::Either(person, other, disease),
        _ => Question::HasNot(person, disease),
    }
}

/// Draws the lines of a script: one ask each, of the users in turn.
pub(crate) fn script_text(
    alloc: Global,
    draws: &mut Draws,
    users: u32,
    asks: u32,
) -> Result<String, AllocError>
    requires { 0 < users }
    ensures { (seed n : ℕ) → state_of draws.old ≡ state_after seed n
        → IfOk result (λ text. string_bytes text ≡ script_lines seed n users asks) }
{
    let mut text = String::new(alloc);
    for number in 0..asks {
        let (user, question) = (number % users, draw_question(draws));
        text.push_str(format!(in alloc; "u{user} 1 ask {question}\n")?.as_str())?;
    }
    Ok(text)
}
