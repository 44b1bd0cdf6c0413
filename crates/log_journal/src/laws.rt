//! A law of the definitions. The function computes nothing: its clause is the law.
ghost use Rattle.log_journal.specs.Walk.{JournalsAreWalked};

/// A journal is what a reader makes of it: bytes are one with a header and some records exactly
/// where a walk from gate to gate finds that header, no damage and those records.
pub fn law_journals_are_walked()
    ensures { JournalsAreWalked }
{}
