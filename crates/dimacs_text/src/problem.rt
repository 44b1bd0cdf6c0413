//! What the lines of a file have said so far.
ghost use Rattle.std.specs.Prelude.{◌≡◌, ◌<◌, ◌≤◌, ◌+◌, ◌^◌, map, Ok, OnOk, IfErr};
ghost use Rattle.dimacs_text.specs.Words.{words};
ghost use Rattle.dimacs_text.specs.Dimacs.{empty_problem, allow, with_comment, with_header};
ghost use Rattle.dimacs_text.specs.Dimacs.{begins_comment, with_words};
ghost use Rattle.dimacs_text.specs.Dimacs.{literal_of, close, with_literal, with_number_word};
ghost use Rattle.dimacs_text.specs.Dimacs.{with_numbers, finish};
ghost use Rattle.cqe_base.specs.Literal.{variable_of};
ghost use Rattle.dimacs_text.specs.Sound.{variables_in};
ghost use Rattle.dimacs_text.specs.Refuses.{Refuses};

use crate::cnf::Cnf;
use crate::header::{Header, header_in};
use crate::refusal::{DimacsRefusal, LineError, RefusalKind};
use crate::words::{SignedNumber, is_word, signed_number_in, words};
use clause_store::clauses::Clauses;
use clause_store::literal::{Lit, has_literal};
use line_protocol::words::number_in;
use std::alloc::{AllocError, Global};
use std::marker::Model;

/// A budget is at most so high.
const BUDGET: u64 = 4_000_000;

/// The budget where none is said.
const DEFAULT_BUDGET: u64 = 1_000_000;

/// The problem line says at most so many variables, and as many clauses.
const MOST: u64 = 1_000_000;

/// What the lines so far have said.
#[derive(Drop)]
pub struct Problem {
    header: Option<Header>,
    budget: Option<u64>,
    lrat: bool,
    clauses: Clauses,
    /// The literals of a clause that isn't over.
    unfinished: Vec<Lit>,
}

impl Model for Problem {
    ghost use Rattle.dimacs_text.specs.Dimacs.{Problem};

    ghost Value = { Problem };

    ghost use Rattle.dimacs_text.specs.Inside.{problem_inside, IsSoundInside};

    ghost view = { problem_inside };

    ghost invariant = { IsSoundInside };
}

impl Problem {
    /// No line has said anything.
    pub fn new(alloc: Global) -> Problem
        ensures { result ≡ empty_problem }
    {
        Problem {
            header: None,
            budget: None,
            lrat: false,
            clauses: Clauses::new(alloc),
            unfinished: Vec::new(alloc),
        }
    }

    /// One more line. After an error the problem is not to be used any more.
    pub fn take(&mut self, alloc: Global, line: &[u8]) -> Result<(), LineError>
        ensures added { OnOk result (with_words self.old (words line.now) ≡ Ok self.new) }
        ensures refused { IfErr result (Refuses (with_words self.old (words line.now))) }
    {
        let words = words(alloc, line)?;
        self.take_words(&words)
    }

    /// The words of one more line.
    fn take_words(&mut self, words: &[&[u8]]) -> Result<(), LineError>
        ensures added { OnOk result
            (with_words self.old (map (λ word. word.now) words.now) ≡ Ok self.new) }
        ensures refused { IfErr result
            (Refuses (with_words self.old (map (λ word. word.now) words.now))) }
    {
        let [first, rest @ ..] = words else {
            return Ok(());
        };
        if begins_comment(first) {
            if first.len() == 1 {
                return self.take_comment(rest);
            }
            return Ok(());
        }
        if is_word(first, "p") {
            return self.take_header(header_in(rest));
        }
        self.take_numbers(words)
    }

    /// A comment behind its `c`.
    fn take_comment(&mut self, words: &[&[u8]]) -> Result<(), LineError>
        ensures added { OnOk result (with_comment self.old (map (λ word. word.now) words.now)
            ≡ Ok self.new) }
        ensures refused { IfErr result
            (Refuses (with_comment self.old (map (λ word. word.now) words.now))) }
    {
        match words {
            [word] => {
                if is_word(word, "lrat") {
                    self.lrat = true;
                }
                Ok(())
            }
            [word, number] => {
                if is_word(word, "budget") {
                    return self.allow(number_in(number));
                }
                Ok(())
            }
            _ => Ok(()),
        }
    }

    /// The budget.
    fn allow(&mut self, budget: Option<u64>) -> Result<(), LineError>
        ensures added { OnOk result (allow self.old budget ≡ Ok self.new) }
        ensures refused { IfErr result (Refuses (allow self.old budget)) }
    {
        let Some(budget) = budget else {
            return Err(LineError::Refused(RefusalKind::Limit));
        };
        if self.budget.is_some() {
            return Err(LineError::Refused(RefusalKind::Order));
        }
        if 1 <= budget && budget <= BUDGET {
            self.budget = Some(budget);
            Ok(())
        } else {
            Err(LineError::Refused(RefusalKind::Limit))
        }
    }

    /// The problem line.
    fn take_header(&mut self, header: Option<Header>) -> Result<(), LineError>
        ensures added { OnOk result (with_header self.old header ≡ Ok self.new) }
        ensures refused { IfErr result (Refuses (with_header self.old header)) }
    {
        let Some(header) = header else {
            return Err(LineError::Refused(RefusalKind::NotALine));
        };
        if self.header.is_some() {
            return Err(LineError::Refused(RefusalKind::Order));
        }
        if header.variables <= MOST && header.clauses <= MOST {
            self.header = Some(header);
            Ok(())
        } else {
            Err(LineError::Refused(RefusalKind::Limit))
        }
    }

    /// The numbers of a line, from left to right.
    fn take_numbers(&mut self, words: &[&[u8]]) -> Result<(), LineError>
        ensures added { OnOk result (with_numbers self.old (map (λ word. word.now) words.now)
            ≡ Ok self.new) }
        ensures refused { IfErr result
            (Refuses (with_numbers self.old (map (λ word. word.now) words.now))) }
    {
        for word in words {
            self.take_number(signed_number_in(word))?;
        }
        Ok(())
    }

    /// A number, which stands behind the problem line.
    fn take_number(&mut self, number: Option<SignedNumber>) -> Result<(), LineError>
        ensures added { OnOk result (with_number_word self.old number ≡ Ok self.new) }
        ensures refused { IfErr result (Refuses (with_number_word self.old number)) }
    {
        let Some(signed) = number else {
            return Err(LineError::Refused(RefusalKind::NotALine));
        };
        let Some(header) = self.header else {
            return Err(LineError::Refused(RefusalKind::Order));
        };
        if signed.number == 0 {
            return self.close(header.clauses);
        }
        if signed.number > header.variables {
            return Err(LineError::Refused(RefusalKind::Variable));
        }
        let variable = (signed.number - 1) as u32;
        self.add_literal(literal_of(signed.is_negative, variable))
    }

    /// The clause is over.
    fn close(&mut self, most: u64) -> Result<(), LineError>
        requires { most ≤ 1000000 }
        ensures added { OnOk result (close most self.old ≡ Ok self.new) }
        ensures refused { IfErr result (Refuses (close most self.old)) }
    {
        if self.clauses.len() as u64 >= most {
            return Err(LineError::Refused(RefusalKind::Surplus));
        }
        self.clauses.push(&self.unfinished)?;
        self.unfinished.clear();
        Ok(())
    }

    /// A literal of the clause that isn't over, unless it has it already.
    fn add_literal(&mut self, literal: Lit) -> Result<(), LineError>
        requires { variable_of literal < variables_in self.old.header }
        ensures added { OnOk result (self.new ≡ with_literal self.old literal) }
        ensures refused { IfErr result (λ e. e ≡ LineError.Memory) }
    {
        if !has_literal(&self.unfinished, literal) {
            self.unfinished.push(literal)?;
        }
        Ok(())
    }

    /// The clauses, once the file is over at the line of this number.
    pub fn finish(self, number: u32) -> Result<Cnf, DimacsRefusal>
        ensures { result ≡ finish number self self.header }
    {
        let Problem {
            header,
            budget,
            lrat,
            clauses,
            unfinished,
        } = self;
        let missing = DimacsRefusal {
            kind: RefusalKind::Missing,
            line: number,
        };
        let Some(header) = header else {
            return Err(missing);
        };
        if unfinished.is_empty() && clauses.len() as u64 == header.clauses {
            Ok(Cnf::new(
                header.variables as u32,
                clauses,
                budget.unwrap_or(DEFAULT_BUDGET),
                lrat,
            ))
        } else {
            Err(missing)
        }
    }
}

/// Whether a word begins a comment.
fn begins_comment(word: &[u8]) -> bool
    ensures { result ≡ begins_comment word.now }
{
    match word {
        [first, ..] => *first == b'c',
        [] => false,
    }
}

/// The literal of a variable, or its negation.
fn literal_of(is_negative: bool, variable: u32) -> Lit
    requires { variable + 1 < 2 ^ 31 }
    ensures { result ≡ literal_of is_negative variable }
{
    if is_negative {
        Lit::negative(variable)
    } else {
        Lit::positive(variable)
    }
}
