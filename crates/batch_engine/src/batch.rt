//! What is to be done in a batch.

ghost use Rattle.std.specs.Prelude.{◌≡◌, true, [], ◌∷◌, ◌++◌, All, OnOk};
ghost use Rattle.std.specs.List.{list_all};
ghost use Rattle.batch_engine.specs.BatchLines.{asked, restarted};
ghost use Rattle.batch_engine.specs.Said.{ask_said, is_short_ask, is_short_item};
ghost use Rattle.batch_engine.specs.Batches.{items_in, AreShort};

use crate::line::{BatchLine, Caller, LineAsk, batch_line};
use cqe_base::text::ScriptKind;
use script_lines::LineError;
use std::alloc::{AllocError, Global};
use std::mem;

/// An ask of a named user in one of his sessions, or a text that an operator adds to his secrets.
#[derive(Drop)]
pub struct BatchAsk {
    pub name: String,
    pub caller: Caller,
    pub text: String,
}

/// What is to be done, in order: stretches of calls, with a restart between two of them.
#[derive(Drop)]
pub struct Batch {
    // The stretches that a restart ended.
    ended: Vec<Vec<BatchAsk>>,
    // The asks behind the last restart.
    last: Vec<BatchAsk>,
    ghost short: { list_all is_short_item (items_in ended.items last.items) ≡ true },
}

impl Batch {
    ghost use Rattle.batch_engine.specs.BatchOf.{items_of, ended_of, last_of};

    /// A batch without asks and restarts.
    pub fn new(alloc: Global) -> Self
        ensures { items_of result ≡ [] }
    {
        Batch {
            ended: Vec::new(alloc),
            last: Vec::new(alloc),
        }
    }

    /// The stretches that a restart ended, in order.
    pub fn ended(&self) -> &[Vec<BatchAsk>]
        ensures stretches { result.now ≡ ended_of self.now }
        ensures short { All (λ asks. AreShort asks.items) result.now }
    {
        self.ended.as_slice()
    }

    /// The last stretch.
    pub fn last(&self) -> &[BatchAsk]
        ensures stretch { result.now ≡ last_of self.now }
        ensures short { AreShort result.now }
    {
        self.last.as_slice()
    }

    // One more ask behind the others.
    fn push_ask(&mut self, alloc: Global, ask: LineAsk<'_>) -> Result<(), AllocError>
        requires { is_short_ask (ask_said ask) ≡ true }
        ensures { OnOk result
            (items_of self.new ≡ items_of self.old ++ asked (ask_said ask.entry) ∷ []) }
    {
        let name = String::from_str(alloc, ask.name)?;
        let text = String::from_str(alloc, ask.text)?;
        let caller = ask.caller;
        self.last.push(BatchAsk { name, caller, text })?;
        Ok(())
    }

    // A restart behind the others.
    fn push_restart(&mut self, alloc: Global) -> Result<(), AllocError>
        ensures { OnOk result (items_of self.new ≡ items_of self.old ++ restarted ∷ []) }
    {
        self.ended.reserve(1)?;
        let asks = mem::replace(&mut self.last, Vec::new(alloc));
        self.ended.push_reserved(asks);
        Ok(())
    }
}

impl script_lines::Script for Batch {
    ghost use Rattle.std.specs.Prelude.{List};
    ghost use Rattle.batch_engine.specs.BatchLines.{BatchItem, with_line};
    ghost use Rattle.batch_engine.specs.BatchOf.{items_of};

    ghost Said = { List BatchItem };

    ghost said = { items_of };

    ghost step = { with_line };

    fn take(&mut self, alloc: Global, line: &[u8]) -> Result<(), LineError> {
        match batch_line(line) {
            Some(BatchLine::Silence) => Ok(()),
            Some(BatchLine::Restart) => {
                self.push_restart(alloc)?;
                Ok(())
            }
            Some(BatchLine::Ask(ask)) => {
                self.push_ask(alloc, ask)?;
                Ok(())
            }
            None => Err(LineError::Refused(ScriptKind::NotALine)),
        }
    }
}
