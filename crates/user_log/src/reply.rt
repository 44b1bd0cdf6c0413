//! Replies to a call.
ghost use Rattle.std.specs.Prelude.{◌≡◌};
ghost use Rattle.cqe_base.specs.Transcript.{reply_text};
ghost use Rattle.line_protocol.specs.Replies.{text_of};
ghost use Rattle.user_log.specs.Replies.{reply_of};

use cqe_base::sentence::Sentence;
use cqe_base::text::TextError;
use cqe_base::user::Mark;

/// The reply to a call: a mark, or a code. The mark `Protected` tells that a secret was added.
#[derive(Clone, Copy, Debug, PartialEq, Eq)]
pub enum Reply {
    Mark(Mark),
    /// 20: the text isn't a sentence.
    Syntax(TextError),
    /// 22: the history is full.
    Full,
    /// 21: the sentence, or the view or the secrets with it, are too large.
    Size,
    /// 24: the user isn't admitted.
    Closed,
    /// 41: his journal was refused.
    Sealed,
    /// 40: an append to his journal failed.
    Broken,
    /// 50: memory is wanting.
    Memory,
    /// 27: a secret is to be added, and there are 16.
    Secrets,
    /// A secret is to be added that isn't safe.
    Unsafe,
}

/// A text that was weighed and not yet added.
#[derive(Drop)]
pub enum Weighed {
    /// It is answered by a code and adds nothing.
    Code(Reply),
    /// It is this sentence, and this mark answers the call.
    Answer(Sentence, Mark),
}

/// A reply in the words of the line protocol.
pub fn line_reply(reply: Reply) -> line_protocol::Reply
    ensures { text_of result ≡ reply_text (reply_of reply) }
{
    match reply {
        Reply::Mark(mark) => line_protocol::Reply::Mark(mark),
        Reply::Syntax(error) => line_protocol::Reply::Syntax {
            kind: error.kind,
            place: error.place,
        },
        Reply::Size => line_protocol::Reply::Code(21),
        Reply::Full => line_protocol::Reply::Code(22),
        Reply::Closed => line_protocol::Reply::Code(24),
        Reply::Broken => line_protocol::Reply::Code(40),
        Reply::Sealed => line_protocol::Reply::Code(41),
        Reply::Memory => line_protocol::Reply::Code(50),
        Reply::Secrets => line_protocol::Reply::Code(27),
        Reply::Unsafe => line_protocol::Reply::Unsafe,
    }
}
