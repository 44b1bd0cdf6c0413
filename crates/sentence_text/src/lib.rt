//! The language of sentences: a text is cut into tokens, read as a sentence of a schema or refused
//! with a kind and a place, and a sentence is printed in its canonical form.
//!
//! `tokens` gives slices of the text, each the longest token that begins where it begins.
//! `read_sentence` is Ok exactly where the grammar derives the text, with the sentence that it
//! derives, and otherwise gives a refusal of the table.
//! `print_sentence` gives the canonical form, which reads as the sentence that was printed where it
//! isn't too deep.
//! Grammar, reading and table are definitions of cqe_base: its specs Tokens, Grammar, Reading,
//! Refusals and Canonical.
//!
//! `stated_fact` gives the fact that a text states, and `constant_name` the name of a constant.
//!
//! Read `lexer` first, then `reader`, which sees one token ahead, `parser`, a method for each line
//! of the grammar, `printer` and `fact`.
#![tactic(auto)]

mod error;
mod fact;
pub mod laws;
mod lexer;
mod names;
mod parser;
mod printer;
mod reader;
mod scope;
mod token;

pub use error::ReadError;
pub use fact::stated_fact;
pub use lexer::{TokenIter, symbol_of, tokens};
pub use names::constant_name;
pub use parser::read_sentence;
pub use printer::print_sentence;
pub use token::Token;
