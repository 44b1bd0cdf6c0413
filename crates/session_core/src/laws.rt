//! Laws of sessions. Each function computes nothing: its clause is the law.

ghost use Rattle.session_core.specs.Alike.{AsksAreRepliedAlike};

use cqe_base::laws::law_rules_add_none;

/// What was asked in a session has the same replies in each world in which the user's history is
/// legal.
pub fn law_replies_alike()
    ensures { AsksAreRepliedAlike }
{
    law_rules_add_none();
}
