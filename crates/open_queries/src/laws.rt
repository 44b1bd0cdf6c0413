//! A law of open queries. The function computes nothing: its clause is the law.

ghost use Rattle.open_queries.specs.Instances.{ExistsIsSomeInstance};

/// The instances are all that a sentence says which begins with `exists`: it is true exactly where
/// some instance is.
pub fn law_instances()
    ensures { ExistsIsSomeInstance }
{}
