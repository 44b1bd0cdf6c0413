//! Budgets at which no probe is spent.
ghost use Rattle.std.specs.Prelude.{◌≡◌, nat_le, if◌then◌else◌};
ghost use Rattle.std.specs.Option.{IfSome};
ghost use Rattle.cqe_base.specs.MachineLaws.{cost_bound};
ghost use Rattle.entailment.specs.Budgets.{NeverSpends};

use cqe_base::machine_laws::law_enough_is_never_spent;

/// A budget at which no probe of at most so many variables is spent, where the bound that is proved
/// for them is at most the highest budget, 4,000,000. The constant true and each connective take a
/// variable too, beside the facts.
pub fn enough(variables: u32) -> Option<u64>
    ensures bound { result
        ≡ (if nat_le (cost_bound variables) 4000000 then Some (cost_bound variables) else None) }
    ensures never_spent { IfSome result (NeverSpends variables) }
{
    law_enough_is_never_spent();
    match variables {
        0 => Some(1),
        1 => Some(12),
        2 => Some(135),
        3 => Some(1_792),
        4 => Some(28_125),
        5 => Some(513_216),
        _ => None,
    }
}
