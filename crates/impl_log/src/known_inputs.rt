//! The inputs that a log can read.

ghost use Rattle.std.specs.Prelude.{◌≡◌, ℕ, List, slice_get};
ghost use Rattle.model_history.specs.declared.input.Input.{Input as InputModel};
ghost use Rattle.model_history.specs.EventFields as fields;
ghost use Rattle.model_history.specs.Scans.{one_more};
ghost use Rattle.impl_log.specs.inner.Known.{AreKnown};

use crate::progress::uses;
use model_history::{Event, Input, Script};
use std::sync::Arc;

/// The inputs that are known.
#[derive(Drop)]
pub(crate) enum KnownInputs {
    /// All inputs of a script.
    All(Arc<Script>),
    /// The next input of a script that is told while it is played, if it was told; the script has no other that is
    /// not used yet.
    Next(Option<Input>),
}

impl KnownInputs {
    /// The next input, after the given number of inputs that were used.
    pub(crate) fn next(&self, used: u32) -> Option<Input>
        ensures { (inputs : List InputModel) → AreKnown inputs used self.now → result ≡ slice_get inputs used }
    {
        match self {
            KnownInputs::All(script) => script.inputs().get(used as usize).copied(),
            KnownInputs::Next(next) => *next,
        }
    }

    /// Steps them by an event, which may use the next input.
    pub(crate) fn step(&mut self, event: &Event)
        ensures { (inputs : List InputModel) (used : ℕ) → AreKnown inputs used self.old → AreKnown inputs (one_more (fields.uses event.now) used) self.new }
    {
        match self {
            KnownInputs::All(_) => {}
            KnownInputs::Next(next) => {
                if uses(event) {
                    *next = None;
                }
            }
        }
    }
}
