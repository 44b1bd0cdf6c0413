//! The lines of bytes in memory.

ghost use Rattle.std.specs.Prelude.{◌≡◌, ◌<◌, ◌≤◌, ◌==◌, ◌∷◌, position, length};
ghost use Rattle.cqe_base.specs.Lines.{text_lines, content, without_return};
ghost use Rattle.policy_files.specs.LinesRead.{line_of};

/// A line as it stands in the bytes, without its line feed, and whether it had one.
#[derive(Clone, Copy)]
pub struct Line<'a> {
    pub bytes: &'a [u8],
    pub ended: bool,
}

impl<'a> Line<'a> {
    /// What the line says: a carriage return before its line feed is dropped.
    pub fn content(&self) -> &'a [u8]
        ensures content { result.now ≡ content (line_of self.now) }
        ensures short { length result.now ≤ length self.now.bytes.now }
    {
        if self.ended {
            without_return(self.bytes)
        } else {
            self.bytes
        }
    }
}

/// The bytes without a carriage return at their end.
fn without_return(bytes: &[u8]) -> &[u8]
    ensures content { result.now ≡ without_return bytes.now }
    ensures short { length result.now ≤ length bytes.now }
{
    let Some((last, front)) = bytes.split_last() else {
        return bytes;
    };
    if *last == b'\r' { front } else { bytes }
}

/// Where the first line feed stands.
fn line_feed(bytes: &[u8]) -> Option<usize>
    ensures { result ≡ position (λ b. b == 10) bytes.now }
{
    bytes.iter().position(|byte| *byte == b'\n')
}

/// The first line of bytes, and the bytes behind it.
pub fn split_line<'a>(bytes: &'a [u8]) -> (Line<'a>, &'a [u8])
    requires { 0 < length bytes.now }
    ensures lines { text_lines bytes.now ≡ line_of result.0 ∷ text_lines result.1.now }
    ensures shorter { length result.1.now < length bytes.now }
{
    match line_feed(bytes) {
        Some(at) => {
            let line = Line {
                bytes: &bytes[..at],
                ended: true,
            };
            (line, &bytes[at + 1..])
        }
        None => {
            let line = Line {
                bytes,
                ended: false,
            };
            (line, &[])
        }
    }
}
