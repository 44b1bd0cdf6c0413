//! Whether a user can be given one more secret.

ghost use Rattle.std.specs.Prelude.{◌≡◌, ◌≤◌, IfOk};
ghost use Rattle.cqe_base.specs.Formula.{formula_of};
ghost use Rattle.cqe_base.specs.Outcome.{is_open};
ghost use Rattle.cqe_base.specs.History.{profile_of};
ghost use Rattle.cqe_base.specs.Censor.{safe_with};
ghost use Rattle.cqe_base.specs.Limits.{FitsAddition};
ghost use Rattle.entailment.specs.Logs.{log_nodes};
ghost use Rattle.entailment.specs.Views.{schema_of, log_of};
ghost use Rattle.entailment.specs.Probes.{outcome_found};

use crate::admittance::admission_outcome;
use crate::secrets::guard_with;
use cqe_base::schema::Schema;
use cqe_base::sentence::Sentence;
use cqe_base::user::User;
use entailment::{ProbeOutcome, View};
use std::alloc::{AllocError, Global};

/// Whether one more secret is safe with a user, with the secrets that he has now and after the
/// view's log: whether the probe of the log against it, for lying against the disjunction of all
/// secrets with it, is open at the admission budget. It looks at no world, and the log stays.
pub fn safe_with(
    alloc: Global,
    schema: &Schema,
    view: &mut View<'_>,
    user: &User,
    secret: &Sentence,
) -> Result<bool, AllocError>
    requires schema { schema_of view.old ≡ schema.now }
    requires addition { FitsAddition schema.now (profile_of user.now) (formula_of secret.now) }
    requires log_nodes { log_nodes schema.now (log_of view.old) ≤ 60000 }
    ensures safe { IfOk result (λ safe. safe ≡ safe_with schema.now (profile_of user.now)
        (log_of view.old) (formula_of secret.now)) }
    ensures same { view.new ≡ view.old }
{
    let goal = guard_with(alloc, user, secret)?;
    let found = admission_outcome(alloc, schema, view, goal)?;
    Ok(is_open(found))
}

/// Whether the premises of a probe don't entail its goal, as far as was found.
fn is_open(found: ProbeOutcome) -> bool
    ensures { result ≡ is_open (outcome_found found) }
{
    match found {
        ProbeOutcome::Open => true,
        ProbeOutcome::Follows | ProbeOutcome::Spent => false,
    }
}
