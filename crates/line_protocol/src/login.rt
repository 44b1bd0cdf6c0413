//! Who may log in.
ghost use Rattle.std.specs.Prelude.{◌≡◌, ◌↔◌, IsTrue};
ghost use Rattle.line_protocol.specs.Logins.{MayLogIn};

use cqe_base::user::User;
use sha2::{Digest, Sha256};

/// Whether the user's token is the SHA-256 of the phrase. Nobody logs in as a user without a token.
pub fn login_ok(user: &User, phrase: &str) -> bool
    ensures { IsTrue result ↔ MayLogIn user.now phrase.now }
{
    match &user.token {
        Some(token) => Sha256::digest(phrase.as_bytes()) == *token,
        None => false,
    }
}
