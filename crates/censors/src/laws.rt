//! Laws of the censors. Each function computes nothing: its clause is the law.
ghost use Rattle.censors.specs.Costs.{UndecidedIsCost};

use cqe_base::machine_laws::law_spent_is_cost;

/// The rule gives undecided exactly where the search of some probe of the query costs more than the
/// user's budget.
pub fn law_undecided_is_cost()
    ensures { UndecidedIsCost }
{
    law_spent_is_cost();
}
