//! The canonical form of a sentence.

ghost use Rattle.std.specs.Prelude.{◌≡◌, ◌+◌, ◌<◌, ◌≤◌, ◌++◌, string_bytes, OnOk, IfOk, Ok, true};
ghost use Rattle.std.specs.Prelude.{codes};
ghost use Rattle.cqe_base.specs.Formula.{formula_of, nesting, is_sentence_of};
ghost use Rattle.cqe_base.specs.Reading.{reading};
ghost use Rattle.cqe_base.specs.Canonical.{canonical, enclosing_constructs, domain_name};
ghost use Rattle.cqe_base.specs.Canonical.{canonical_within, term_text, terms_text, more_terms};
ghost use Rattle.cqe_base.specs.Canonical.{relation_name, variable_name};

use crate::names::{constant_name, domain_name, relation_name};
use cqe_base::laws::law_nesting;
use cqe_base::schema::Schema;
use cqe_base::sentence::{Sentence, Term};
use std::alloc::{AllocError, Global};

/// The canonical form of a sentence of the schema.
pub fn print_sentence(
    alloc: Global,
    schema: &Schema,
    sentence: &Sentence,
) -> Result<String, AllocError>
    requires { is_sentence_of schema.now (formula_of sentence.now) ≡ true }
    ensures text { IfOk result (λ text. string_bytes text
        ≡ canonical schema.now (formula_of sentence.now)) }
    // It reads as the sentence, where at most 64 constructs enclose a place of it.
    ensures read_back { enclosing_constructs (formula_of sentence.now) ≤ 64
        → IfOk result (λ text. reading schema.now (string_bytes text)
        ≡ Ok (formula_of sentence.now)) }
{
    schema.known();
    law_nesting();
    print_exactly(alloc, schema, sentence)
}

/// The same, of which one clause says all.
fn print_exactly(alloc: Global, schema: &Schema, sentence: &Sentence) -> Result<String, AllocError>
    requires { nesting (formula_of sentence.now) ≤ 8 }
    ensures { IfOk result (λ text. string_bytes text
        ≡ canonical schema.now (formula_of sentence.now)) }
{
    let mut printer = Printer {
        alloc,
        schema,
        text: String::new(alloc),
    };
    printer.sentence(sentence, 0)?;
    Ok(printer.text)
}

/// The text so far, to which parts are appended.
#[derive(Drop)]
struct Printer<'a> {
    alloc: Global,
    schema: &'a Schema,
    text: String,
}

impl Printer<'_> {
    fn push(&mut self, part: &str) -> Result<(), AllocError>
        ensures text { OnOk result
            (string_bytes self.new.text ≡ string_bytes self.old.text ++ part.now) }
        ensures same { self.new.schema ≡ self.old.schema }
    {
        self.text.push_str(part)
    }

    /// The variable of the i-th enclosing quantifier, counted from outside and from 0.
    fn variable(&mut self, i: u8) -> Result<(), AllocError>
        ensures text { OnOk result (string_bytes self.new.text
            ≡ string_bytes self.old.text ++ variable_name i) }
        ensures same { self.new.schema ≡ self.old.schema }
    {
        let name = format!(in self.alloc; "v{}", u32::from(i) + 1)?;
        self.push(name.as_str())
    }

    fn term(&mut self, term: Term) -> Result<(), AllocError>
        ensures text { OnOk result (string_bytes self.new.text
            ≡ string_bytes self.old.text ++ term_text self.old.schema.now term) }
        ensures same { self.new.schema ≡ self.old.schema }
    {
        match term {
            Term::Constant(constant) => {
                let schema = self.schema;
                self.push(constant_name(schema, constant))
            }
            Term::Place(i) => self.variable(i),
        }
    }

    /// The terms of an atom, with `, ` between them.
    fn terms(&mut self, terms: &[Term]) -> Result<(), AllocError>
        ensures text { OnOk result (string_bytes self.new.text
            ≡ string_bytes self.old.text ++ terms_text self.old.schema.now terms.now) }
        ensures same { self.new.schema ≡ self.old.schema }
    {
        let Some((first, others)) = terms.split_first() else {
            return Ok(());
        };
        self.term(*first)?;
        for term in others {
            self.push(", ")?;
            self.term(*term)?;
        }
        Ok(())
    }

    /// A quantifier, up to what it binds.
    #[tactic(auto, using(crate::proofs::Appended::appended))]
    fn quantifier(&mut self, opening: &str, depth: u8, domain: u32) -> Result<(), AllocError>
        ensures text { OnOk result (string_bytes self.new.text
            ≡ string_bytes self.old.text
            ++ (opening.now ++ variable_name depth ++ codes ": "
            ++ domain_name self.old.schema.now domain ++ codes " . ")) }
        ensures same { self.new.schema ≡ self.old.schema }
    {
        self.push(opening)?;
        self.variable(depth)?;
        self.push(": ")?;
        let schema = self.schema;
        self.push(domain_name(schema, domain))?;
        self.push(" . ")
    }

    /// A relation and its terms.
    #[tactic(auto, using(crate::proofs::Appended::appended))]
    fn atom(&mut self, relation: u32, terms: &[Term]) -> Result<(), AllocError>
        ensures text { OnOk result (string_bytes self.new.text
            ≡ string_bytes self.old.text
            ++ (relation_name self.old.schema.now relation ++ codes "("
            ++ terms_text self.old.schema.now terms.now ++ codes ")")) }
        ensures same { self.new.schema ≡ self.old.schema }
    {
        let schema = self.schema;
        self.push(relation_name(schema, relation))?;
        self.push("(")?;
        self.terms(terms)?;
        self.push(")")
    }

    /// Two terms with a sign between them.
    #[tactic(auto, using(crate::proofs::Appended::appended))]
    fn comparison(&mut self, left: Term, sign: &str, right: Term) -> Result<(), AllocError>
        ensures text { OnOk result (string_bytes self.new.text
            ≡ string_bytes self.old.text
            ++ (term_text self.old.schema.now left ++ sign.now
            ++ term_text self.old.schema.now right)) }
        ensures same { self.new.schema ≡ self.old.schema }
    {
        self.term(left)?;
        self.push(sign)?;
        self.term(right)
    }

    /// The left one of two sentences, in parentheses.
    #[cycle(printer)]
    #[tactic(auto, using(crate::proofs::Appended::appended))]
    fn opened(&mut self, left: &Sentence, depth: u8) -> Result<(), AllocError>
        requires { depth + nesting (formula_of left.now) ≤ 8 }
        ensures text { OnOk result (string_bytes self.new.text
            ≡ string_bytes self.old.text
            ++ (codes "(" ++ canonical_within self.old.schema.now depth (formula_of left.now))) }
        ensures same { self.new.schema ≡ self.old.schema }
    {
        self.push("(")?;
        self.sentence(left, depth)
    }

    /// What stands before the last sentence in parentheses, and that sentence.
    #[cycle(printer)]
    #[tactic(auto, using(crate::proofs::Appended::appended))]
    fn closed(&mut self, before: &str, last: &Sentence, depth: u8) -> Result<(), AllocError>
        requires { depth + nesting (formula_of last.now) ≤ 8 }
        ensures text { OnOk result (string_bytes self.new.text
            ≡ string_bytes self.old.text
            ++ (before.now ++ canonical_within self.old.schema.now depth (formula_of last.now)
            ++ codes ")")) }
        ensures same { self.new.schema ≡ self.old.schema }
    {
        self.push(before)?;
        self.sentence(last, depth)?;
        self.push(")")
    }

    /// A sentence within so many quantifiers.
    #[cycle(printer)]
    #[tactic(auto, using(crate::proofs::Appended::appended))]
    fn sentence(&mut self, sentence: &Sentence, depth: u8) -> Result<(), AllocError>
        requires { depth + nesting (formula_of sentence.now) ≤ 8 }
        ensures text { OnOk result (string_bytes self.new.text
            ≡ string_bytes self.old.text
            ++ canonical_within self.old.schema.now depth (formula_of sentence.now)) }
        ensures same { self.new.schema ≡ self.old.schema }
    {
        match sentence {
            Sentence::True => self.push("true"),
            Sentence::False => self.push("false"),
            Sentence::Atom(relation, terms) => self.atom(*relation, terms.as_slice()),
            Sentence::Equal(left, right) => self.comparison(*left, " = ", *right),
            Sentence::Differs(left, right) => self.comparison(*left, " != ", *right),
            Sentence::Not(operand) => {
                self.push("not ")?;
                self.sentence(operand, depth)
            }
            Sentence::And(left, right) => {
                self.opened(left, depth)?;
                self.closed(" and ", right, depth)
            }
            Sentence::Or(left, right) => {
                self.opened(left, depth)?;
                self.closed(" or ", right, depth)
            }
            Sentence::Implies(left, right) => {
                self.opened(left, depth)?;
                self.closed(" -> ", right, depth)
            }
            Sentence::Iff(left, right) => {
                self.opened(left, depth)?;
                self.closed(" <-> ", right, depth)
            }
            Sentence::Forall(domain, body) => {
                self.quantifier("(forall ", depth, *domain)?;
                self.sentence(body, depth + 1)?;
                self.push(")")
            }
            Sentence::Exists(domain, body) => {
                self.quantifier("(exists ", depth, *domain)?;
                self.sentence(body, depth + 1)?;
                self.push(")")
            }
        }
    }
}
