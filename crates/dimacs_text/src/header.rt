//! The problem line.
ghost use Rattle.std.specs.Prelude.{◌≡◌, map};
ghost use Rattle.dimacs_text.specs.Dimacs.{header_of, header_in};

use crate::words::is_word;
use line_protocol::words::number_in;

/// How many variables and clauses the problem line says.
#[derive(Clone, Copy)]
pub struct Header {
    pub variables: u64,
    pub clauses: u64,
}

/// `cnf`, the number of variables and the number of clauses.
pub fn header_in(words: &[&[u8]]) -> Option<Header>
    ensures { result ≡ header_in (map (λ word. word.now) words.now) }
{
    match words {
        [kind, variables, clauses] => {
            if is_word(kind, "cnf") {
                header_of(number_in(variables), number_in(clauses))
            } else {
                None
            }
        }
        _ => None,
    }
}

fn header_of(variables: Option<u64>, clauses: Option<u64>) -> Option<Header>
    ensures { result ≡ header_of variables clauses }
{
    match (variables, clauses) {
        (Some(variables), Some(clauses)) => Some(Header { variables, clauses }),
        _ => None,
    }
}
