//! What a kind of script has to say of one line.

ghost use Rattle.std.specs.Prelude.{◌≡◌, ◌≤◌, ℕ, List, length, Result, Ok, OnOk, IfErr};
ghost use Rattle.cqe_base.specs.declared.text.ScriptKind.{ScriptKind};
ghost use Rattle.script_lines.specs.Lines.{Refuses};

use crate::LineError;
use std::alloc::Global;

/// What the lines of a script have said so far.
pub trait Script {
    /// What lines can say.
    ghost Said: { Type 0 };

    /// What they have said.
    ghost said: { Self → Said };

    /// What one more line makes of that, or the kind of its refusal.
    ghost step: { Said → List ℕ → Result Said ScriptKind };

    /// One more line, which isn't too long.
    fn take(&mut self, alloc: Global, line: &[u8]) -> Result<(), LineError>
        requires { length line.now ≤ 4096 }
        ensures added { OnOk result (step (said self.old) line.now ≡ Ok (said self.new)) }
        ensures refused { IfErr result (Refuses (step (said self.old) line.now)) };
}
