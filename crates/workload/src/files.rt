//! A workload as texts.
ghost use Rattle.std.specs.Prelude.{◌≡◌, ◌≤◌, ◌+◌, ◌*◌, map, Some, Ok, IfOk};
ghost use Rattle.workload.specs.Statements.{statements, facts_text};
ghost use Rattle.workload.specs.Stated.{stated_facts, meant_fact, workload_schema, workload_world};
ghost use Rattle.workload.specs.Questions.{script_lines};
ghost use Rattle.workload.specs.Policies.{workload_policy};
ghost use Rattle.workload.specs.Scripts.{workload_script};
ghost use Rattle.policy_files.specs.Facts.{facts_of};
ghost use Rattle.policy_files.specs.Policy.{policy_in};
ghost use Rattle.batch_engine.specs.BatchLines.{batch_of};

use crate::draws::Draws;
use crate::policy::policy_text;
use crate::question::script_text;
use crate::statement::{draw_statements, facts_text};
use sentence_text::laws::law_canonical_forms_read;
use std::alloc::{AllocError, Global};

/// The bytes of a policy file, of a facts file and of the script of a batch.
#[derive(Drop)]
pub struct Workload {
    pub policy: Vec<u8>,
    pub facts: Vec<u8>,
    pub script: Vec<u8>,
}

/// Makes the workload of a seed, for 1 to 256 users and 1 to 10,000 asks. The facts are drawn
/// first, then the secrets of each user, then the asks.
pub fn make(alloc: Global, seed: u64, users: u32, asks: u32) -> Result<Workload, AllocError>
    requires some_user { 1 ≤ users }
    requires few_users { users ≤ 256 }
    requires some_ask { 1 ≤ asks }
    requires few_asks { asks ≤ 10000 }
    // The policy reads as that of the seed.
    ensures policy { IfOk result (λ made. policy_in made.policy.items
        ≡ Ok (workload_policy seed users)) }
    // The facts read as the database of the seed. Each line states one fact.
    ensures read { IfOk result (λ made. facts_of workload_schema made.facts.items
        ≡ Ok (workload_world seed)) }
    ensures facts { IfOk result (λ made. made.facts.items ≡ facts_text (statements seed)) }
    ensures stated { IfOk result (λ made. stated_facts made.facts.items
        ≡ map (λ statement. Some (meant_fact statement)) (statements seed)) }
    // The script reads as the asks of the seed. Its lines ask what is drawn after the facts and
    // three secrets for each user.
    ensures asks { IfOk result (λ made. batch_of made.script.items
        ≡ Ok (workload_script seed users asks)) }
    ensures script { IfOk result (λ made. made.script.items
        ≡ script_lines seed (620 + 3 * users) users asks) }
{
    law_canonical_forms_read();
    let mut draws = Draws::new(seed);
    let facts = facts_text(alloc, &draw_statements(alloc, &mut draws)?)?;
    let policy = policy_text(alloc, &mut draws, users)?;
    let script = script_text(alloc, &mut draws, users, asks)?;
    Ok(Workload {
        policy: policy.into_bytes(),
        facts: facts.into_bytes(),
        script: script.into_bytes(),
    })
}
