//! The line protocol of sessions: the lines of a source, the requests that they make, and the
//! replies to them.
//!
//! However a source cuts its bytes, the lines are the same, and each is read as one request by a
//! definition; a reply is written whole or the sink has failed. Nothing here takes memory.
//!
//! Read `lines`, which reads a line into a `LineBuffer`, then `request`, `reply` and `login`.
//! `words` parts printable lines into words and reads numbers, also for scripts, DIMACS and the
//! command line; `LineText` holds a short line while it is put together.
#![tactic(auto)]

mod line_text;
mod lines;
mod login;
mod reply;
mod request;
pub mod words;

pub use line_text::LineText;
pub use lines::{LineBuffer, LineOutcome, read_line};
pub use login::login_ok;
pub use reply::{Reply, text_of, write_name, write_reply};
pub use request::{Request, read_request};
