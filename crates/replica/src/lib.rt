//! A primary and its standby as a machine over all their packets: whatever is lost, repeated or
//! turned round, and whichever of the two starts anew, the standby's records are a beginning of the
//! primary's that has the record of every told mark.
//!
//! specs/Replica.antt is the machine, over records of any type, and specs/Standby.antt what is
//! claimed of it. The crate has no code but the law. What takes records cites `records_after`.
#![tactic(auto)]

ghost use Rattle.replica.specs.Replica.{MachineExamples};
ghost use Rattle.replica.specs.Standby.{StandbysKeepUp, StandbysHide};

use cqe_base::laws::{law_hides, law_prefix_legal};

/// Whatever happens, the standby's records are a beginning of the primary's and have every told
/// record; and where the primary's stand for a legal history of an admitted user, of sentences of
/// the schema, the standby's stand for a legal beginning of it that has every told mark and hides.
pub fn law_standby<R>()
    ensures kept { StandbysKeepUp R }
    ensures hides { StandbysHide R }
{
    law_hides();
    law_prefix_legal();
}

/// What the machine does in some short runs: marks are told, and only those that may be; packets
/// are lost, come twice, too early and too late.
pub fn law_replica_examples<R>()
    ensures { MachineExamples R }
{}
