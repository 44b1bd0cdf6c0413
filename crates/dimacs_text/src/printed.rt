//! What is printed of what a search found.
ghost use Rattle.std.specs.Prelude.{◌≡◌, ◌<◌, ◌≤◌, ◌+◌, ◌^◌, OnOk, IfOk};
ghost use Rattle.std.specs.Prelude.{◌++◌, length, reverse, map, codes, decimal, string_bytes};
ghost use Rattle.clause_store.specs.PlainLines.{line_of, lines_of};
ghost use Rattle.clause_solver.specs.PlainStates.{found_of};
ghost use Rattle.dimacs_text.specs.Printed.{literal_text, clause_text, value_text, values_text};
ghost use Rattle.dimacs_text.specs.Printed.{cost_text, end_text};
ghost use Rattle.dimacs_text.specs.Printed.{hints_text, lrat_line, lrat_text, refutation_text};

use crate::cnf::Cnf;
use clause_solver::{Found, Searched};
use clause_store::literal::Lit;
use clause_store::refutation::{Line, Refutation, Signs};
use std::alloc::{AllocError, Global};

/// Appends literals with a blank behind each, and 0.
fn push_clause(text: &mut String, clause: &[Lit]) -> Result<(), AllocError>
    ensures { OnOk result (string_bytes text.new
        ≡ string_bytes text.old ++ clause_text clause.now) }
{
    for literal in clause {
        write!(text, "{} ", literal.number())?;
    }
    text.push_str("0")
}

/// Appends the value of a variable: its literal that is true.
fn push_value(text: &mut String, variable: usize, sign: bool) -> Result<(), AllocError>
    requires { variable + 1 < 2 ^ 64 }
    ensures { OnOk result (string_bytes text.new
        ≡ string_bytes text.old ++ value_text variable sign) }
{
    if !sign {
        text.push_str("-")?;
    }
    write!(text, "{} ", variable + 1)
}

/// Appends the values of a model, and 0.
fn push_values(text: &mut String, signs: &[bool]) -> Result<(), AllocError>
    ensures { OnOk result (string_bytes text.new
        ≡ string_bytes text.old ++ values_text 0 signs.now) }
{
    for (variable, sign) in signs.iter().enumerate() {
        push_value(text, variable, *sign)?;
    }
    text.push_str("0\n")
}

/// Appends the numbers of a chain backwards, counted from 1, with a blank behind each, and 0.
fn push_hints(text: &mut String, chain: &[u32]) -> Result<(), AllocError>
    ensures { OnOk result (string_bytes text.new
        ≡ string_bytes text.old ++ hints_text (reverse chain.now)) }
{
    for number in chain.iter().rev() {
        write!(text, "{} ", *number as u64 + 1)?;
    }
    text.push_str("0\n")
}

/// Appends a line of a refutation, which has this number.
fn push_line(text: &mut String, number: usize, line: &Line) -> Result<(), AllocError>
    ensures { OnOk result (string_bytes text.new
        ≡ string_bytes text.old ++ lrat_line number (line_of line.now)) }
{
    write!(text, "{number} ")?;
    push_clause(text, &line.clause)?;
    text.push_str(" ")?;
    push_hints(text, &line.chain)
}

/// Appends the lines of a refutation, numbered from here on.
fn push_lines(text: &mut String, first: usize, lines: &[Line]) -> Result<(), AllocError>
    requires { first ≤ 1000001 }
    ensures { OnOk result (string_bytes text.new
        ≡ string_bytes text.old ++ lrat_text first (map line_of lines.now)) }
{
    for (place, line) in lines.iter().enumerate() {
        push_line(text, first + place, line)?;
    }
    Ok(())
}

/// Appends what a search cost.
fn push_cost(text: &mut String, cost: u64) -> Result<(), AllocError>
    ensures { OnOk result (string_bytes text.new ≡ string_bytes text.old ++ cost_text cost) }
{
    write!(text, "c cost {cost}\n")
}

/// The text of what a search found and cost.
pub fn answer_text(alloc: Global, cnf: &Cnf, searched: &Searched) -> Result<String, AllocError>
    ensures { IfOk result (λ text.
        string_bytes text
        ≡ cost_text searched.now.cost ++ end_text cnf.now (found_of searched.now.found)) }
{
    let mut text = String::new(alloc);
    push_cost(&mut text, searched.cost)?;
    push_end(&mut text, cnf, &searched.found)?;
    Ok(text)
}

/// Appends what a search found.
fn push_end(text: &mut String, cnf: &Cnf, found: &Found) -> Result<(), AllocError>
    ensures { OnOk result (string_bytes text.new
        ≡ string_bytes text.old ++ end_text cnf.now (found_of found.now)) }
{
    match found {
        Found::Model(signs) => push_model(text, signs),
        Found::Refuted(refutation) => push_refutation(text, cnf, refutation),
        Found::Spent => text.push_str("s UNKNOWN\n"),
    }
}

fn push_model(text: &mut String, signs: &Signs) -> Result<(), AllocError>
    ensures { OnOk result (string_bytes text.new
        ≡ string_bytes text.old
        ++ (codes "s SATISFIABLE\nv " ++ values_text 0 signs.now.values.items)) }
{
    text.push_str("s SATISFIABLE\nv ")?;
    push_values(text, &signs.values)?;
    Ok(())
}

fn push_refutation(text: &mut String, cnf: &Cnf, refutation: &Refutation) -> Result<(), AllocError>
    ensures { OnOk result (string_bytes text.new
        ≡ string_bytes text.old ++ refutation_text cnf.now (lines_of refutation.now)) }
{
    text.push_str("s UNSATISFIABLE\n")?;
    if cnf.lrat() {
        push_lines(text, cnf.clauses().len() + 1, &refutation.lines)?;
    }
    Ok(())
}
