//! Laws of the definitions. Each function computes nothing: its clause is the law.

ghost use Rattle.policy_files.specs.Laws.{PoliciesAreKept, FactsAreWorlds};

use cqe_base::laws::{law_accepted_valid, law_pairs, law_reading, law_secrets_made};
use cqe_base::machine_laws::law_grounded_facts_are_of_schema;

/// A policy that a tree means has a valid schema, users who keep the limits, and names that differ.
pub fn law_policies_are_kept()
    ensures { PoliciesAreKept }
{
    law_accepted_valid();
    law_pairs();
    law_reading();
    law_secrets_made();
}

/// The world that a facts file is has facts of the schema alone, at most 100,000.
pub fn law_facts_are_worlds()
    ensures { FactsAreWorlds }
{
    law_grounded_facts_are_of_schema();
    law_reading();
}
