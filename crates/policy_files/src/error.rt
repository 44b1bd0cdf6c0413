//! Why a policy or a facts file is refused, and where.

ghost use Rattle.std.specs.Prelude.{◌≡◌, IfOk};
ghost use Rattle.policy_files.specs.declared.error.Stop.TheVariants.{Memory as memory};

use cqe_base::schema::SchemaError;
use cqe_base::text::TextError;
use std::alloc::{AllocError, AllocFailed, Global};
use std::marker::Model;

/// A key of a policy, as it stands there. Contracts see its bytes.
#[derive(Drop)]
pub struct KeyText {
    text: String,
}

impl Model for KeyText {
    ghost use Rattle.std.specs.Prelude.{ℕ, List, string_bytes};

    ghost Value = { List ℕ };

    ghost view = { λ key. string_bytes key.text };
}

impl KeyText {
    /// A key in memory of its own.
    pub fn from_str(alloc: Global, text: &str) -> Result<KeyText, AllocError>
        ensures { IfOk result (λ key. key ≡ text.now) }
    {
        let text = String::from_str(alloc, text)?;
        Ok(KeyText { text })
    }

    /// The text of the key.
    pub fn as_str(&self) -> &str
        ensures { result.now ≡ self.now }
    {
        self.text.as_str()
    }
}

/// Where a policy is refused.
#[derive(Drop)]
pub struct KeyPlace {
    /// The number of the user in the file, from 0; none for a key of the document itself.
    pub user: Option<u32>,
    /// The key. An unknown key is the one that stands there.
    pub key: KeyText,
    /// The number of the text in the array at the key, from 0, where a text is refused.
    pub index: Option<u32>,
    /// Why the text is no sentence, where that is the cause.
    pub text: Option<TextError>,
}

/// Why bytes are no policy, in the numbers of the formats.
#[derive(Drop)]
pub enum PolicyError {
    /// 1: the bytes are no TOML document.
    NotToml,
    /// 2: a key isn't there.
    MissingKey(KeyPlace),
    /// 3: a value isn't of the kind that its key wants.
    WrongKind(KeyPlace),
    /// 4: a key has no meaning there; the least such key.
    UnknownKey(KeyPlace),
    /// 5: the domains and relations are no schema.
    Schema(SchemaError),
    /// 6: a text is no sentence of the schema.
    Sentence(KeyPlace),
    /// 7: a text, a count, a number or a view is above its limit.
    Limit(KeyPlace),
    /// 8: an earlier user has the name.
    DuplicateUser(KeyPlace),
    /// 9: the version is neither 1 nor 2.
    Version,
    /// 10: memory is wanting.
    Memory,
}

/// Why bytes are no facts of a schema, in the numbers of the formats. Lines are numbered from 1.
#[derive(Clone, Copy, Debug, PartialEq, Eq)]
pub enum FactsError {
    /// 1: the line states no fact of the schema.
    NotAFact(u32),
    /// 2: the fact of the line would be the 100,001st.
    Limit(u32),
    /// 3: the bytes aren't UTF-8.
    NotUtf8,
    /// 4: memory is wanting.
    Memory,
}

/// What stops a step of reading a policy.
#[derive(Drop)]
pub enum Stop {
    /// The policy is refused.
    Refused(PolicyError),
    /// Memory is wanting.
    Memory,
}

impl From<AllocError> for Stop {
    ghost from_gives = { λ _ e. e ≡ memory };

    fn from(_e: AllocError) -> Stop {
        Stop::Memory
    }
}

impl<T: Drop> From<AllocFailed<T>> for Stop {
    ghost from_gives = { λ _ e. e ≡ memory };

    fn from(_e: AllocFailed<T>) -> Stop {
        Stop::Memory
    }
}
