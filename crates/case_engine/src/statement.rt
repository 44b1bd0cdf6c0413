//! What one line of a script says, by its shape alone.

ghost use Rattle.std.specs.Prelude.{◌≡◌, ◌≤◌, true, map, length, option_map, IfOk, IfSome, OnOk};
ghost use Rattle.std.specs.Prelude.{string_bytes};
ghost use Rattle.std.specs.List.{list_all, list_any, before_first, after_first};
ghost use Rattle.cqe_base.specs.Tokens.{is_blank};
ghost use Rattle.cqe_base.specs.Memory.{declaration_of};
ghost use Rattle.line_protocol.specs.Words.{is_printable};
ghost use Rattle.script_lines.specs.Silence.{is_silent};
ghost use Rattle.case_engine.specs.Said.{said, IsShortStatement};
ghost use Rattle.case_engine.specs.Statements.{is_word, listed_names, names_or_none, closed_names};
ghost use Rattle.case_engine.specs.Statements.{domain_shape, relation_shape, whole_tokens};
ghost use Rattle.case_engine.specs.Statements.{domain_is, relation_is, method_is, budget_is};
ghost use Rattle.case_engine.specs.Statements.{worded, lone, spoken, statement_of};

use crate::declaration::{Declared, domain_in, relation_in};
use cqe_base::user::Method;
use line_protocol::words::{are_printable, number_in, printable_text, split_at_blank};
use script_lines::is_silent;
use std::alloc::{AllocError, Global};

/// What a line says. Texts are slices of the line.
#[derive(Drop)]
pub enum Statement<'a> {
    /// Nothing: a line of blanks, or a comment.
    Silence,
    Domain(Declared),
    Relation(Declared),
    Fact(&'a str),
    Method(Method),
    Know(&'a str),
    Secrecy(&'a str),
    Secret(&'a str),
    Budget(u64),
    Ask(&'a str),
}

/// The statement of a first word and the text behind the blank that ends it.
fn worded<'a>(alloc: Global, word: &str, text: &'a str) -> Result<Option<Statement<'a>>, AllocError>
    requires { length text.now ≤ 4096 }
    ensures says { IfOk result (λ found. option_map said found ≡ worded word.now text.now) }
    ensures short { IfOk result (λ found. IfSome found IsShortStatement) }
{
    if word == "domain" {
        Ok(domain_statement(domain_in(alloc, text)?))
    } else if word == "relation" {
        Ok(relation_statement(relation_in(alloc, text)?))
    } else if word == "fact" {
        Ok(Some(Statement::Fact(text)))
    } else if word == "method" {
        Ok(method_statement(Method::named(text)))
    } else if word == "know" {
        Ok(Some(Statement::Know(text)))
    } else if word == "secrecy" {
        Ok(Some(Statement::Secrecy(text)))
    } else if word == "secret" {
        Ok(Some(Statement::Secret(text)))
    } else if word == "budget" {
        Ok(budget_statement(number_in(text.as_bytes())))
    } else if word == "ask" {
        Ok(Some(Statement::Ask(text)))
    } else {
        Ok(None)
    }
}

// The four below have a `match`: the closure of an `Option::map` to a statement gets no generated
// proof.

fn domain_statement<'a>(declared: Option<Declared>) -> Option<Statement<'a>>
    ensures says { option_map said result
        ≡ option_map domain_is (option_map declaration_of declared) }
    ensures short { IfSome result IsShortStatement }
{
    match declared {
        Some(declared) => Some(Statement::Domain(declared)),
        None => None,
    }
}

fn relation_statement<'a>(declared: Option<Declared>) -> Option<Statement<'a>>
    ensures says { option_map said result
        ≡ option_map relation_is (option_map declaration_of declared) }
    ensures short { IfSome result IsShortStatement }
{
    match declared {
        Some(declared) => Some(Statement::Relation(declared)),
        None => None,
    }
}

fn method_statement<'a>(method: Option<Method>) -> Option<Statement<'a>>
    ensures says { option_map said result ≡ option_map method_is method }
    ensures short { IfSome result IsShortStatement }
{
    match method {
        Some(method) => Some(Statement::Method(method)),
        None => None,
    }
}

fn budget_statement<'a>(budget: Option<u64>) -> Option<Statement<'a>>
    ensures says { option_map said result ≡ option_map budget_is budget }
    ensures short { IfSome result IsShortStatement }
{
    match budget {
        Some(budget) => Some(Statement::Budget(budget)),
        None => None,
    }
}

/// The statement of a word alone.
fn lone(word: &str) -> Option<Statement<'static>>
    ensures says { option_map said result ≡ lone word.now }
    ensures short { IfSome result IsShortStatement }
{
    if word == "ask" {
        Some(Statement::Ask(""))
    } else {
        None
    }
}

/// The statement of printable bytes.
fn spoken<'a>(alloc: Global, line: &'a [u8]) -> Result<Option<Statement<'a>>, AllocError>
    requires printable { list_all is_printable line.now ≡ true }
    requires short { length line.now ≤ 4096 }
    ensures says { IfOk result (λ found. option_map said found ≡ spoken line.now) }
    ensures short { IfOk result (λ found. IfSome found IsShortStatement) }
{
    match split_at_blank(line) {
        Some((word, text)) => worded(alloc, printable_text(word), printable_text(text)),
        None => Ok(lone(printable_text(line))),
    }
}

/// What a line says, if it has one of the shapes.
#[tactic(auto, unfolding(crate::specs::Statements::statement_of))]
pub fn statement_of<'a>(alloc: Global, line: &'a [u8]) -> Result<Option<Statement<'a>>, AllocError>
    requires { length line.now ≤ 4096 }
    ensures says { IfOk result (λ found. option_map said found ≡ statement_of line.now) }
    ensures short { IfOk result (λ found. IfSome found IsShortStatement) }
{
    if is_silent(line) {
        Ok(Some(Statement::Silence))
    } else if are_printable(line) {
        spoken(alloc, line)
    } else {
        Ok(None)
    }
}
