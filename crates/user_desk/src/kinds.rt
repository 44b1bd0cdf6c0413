//! The kinds of records and the marks that they stand for.
ghost use Rattle.std.specs.Prelude.{◌≡◌, ◌≤◌, Some};
ghost use Rattle.user_desk.specs.Entries.{kind_of, mark_of, purpose_by};

use cqe_base::user::{Mark, Purpose};

/// The kind of a record with this mark.
pub(crate) fn kind_of(mark: Mark) -> u8
    ensures kind { result ≡ kind_of mark }
    ensures back { mark_of result ≡ Some mark }
    ensures low { 1 ≤ result }
    ensures high { result ≤ 5 }
{
    match mark {
        Mark::Yes => 1,
        Mark::No => 2,
        Mark::Refused => 3,
        Mark::Undecided => 4,
        Mark::Protected => 5,
    }
}

/// The mark of a record of this kind.
pub fn mark_of(kind: u8) -> Mark
    requires low { 1 ≤ kind }
    requires high { kind ≤ 5 }
    ensures { mark_of kind ≡ Some result }
{
    match kind {
        1 => Mark::Yes,
        2 => Mark::No,
        3 => Mark::Refused,
        4 => Mark::Undecided,
        _ => Mark::Protected,
    }
}

/// What the call was made for whose record has this mark.
pub(crate) fn purpose_by(mark: Mark) -> Purpose
    ensures { result ≡ purpose_by mark }
{
    match mark {
        Mark::Yes | Mark::No | Mark::Refused | Mark::Undecided => Purpose::Asking,
        Mark::Protected => Purpose::Protecting,
    }
}
