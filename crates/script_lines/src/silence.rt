//! The lines of a script that say nothing.

ghost use Rattle.std.specs.Prelude.{◌≡◌};
ghost use Rattle.std.specs.List.{list_all};
ghost use Rattle.cqe_base.specs.Tokens.{is_blank};
ghost use Rattle.script_lines.specs.Silence.{is_comment, is_silent};

use cqe_base::text::is_blank;

/// Whether a line says nothing: it is one of blanks, or a comment.
pub fn is_silent(line: &[u8]) -> bool
    ensures { result ≡ is_silent line.now }
{
    are_blank(line) || is_comment(line)
}

/// Whether all of these are blanks.
fn are_blank(bytes: &[u8]) -> bool
    ensures { result ≡ list_all is_blank bytes.now }
{
    bytes.iter().all(|byte| is_blank(*byte))
}

/// Whether a line is a comment.
fn is_comment(line: &[u8]) -> bool
    ensures { result ≡ is_comment line.now }
{
    match line {
        [first, ..] => *first == b'#',
        [] => false,
    }
}
