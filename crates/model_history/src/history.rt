//! Histories: what was entered, by whom, in order.

ghost use Rattle.std.specs.Prelude.{◌≡◌, ◌+◌, ◌-◌, ◌<◌, ◌≤◌, [], ◌∷◌, ◌++◌, length, slice_get, OnOk, OnErr, IfErr, vec_len, vec_capacity, option_copied};
ghost use Rattle.model_history.specs.Entries.{Record};

use crate::event::Event;
use std::alloc::{AllocError, Global};
use std::marker::Model;

/// An event and the actor that entered it: 0 is the compositor, 1 the main side, `2 + w` the raster
/// worker w.
#[derive(Drop)]
pub struct Entry {
    /// The actor's number.
    pub actor: u32,
    /// What the actor did.
    pub event: Event,
}

/// The events of a run with their actors, the oldest first.
///
/// Contracts also see how many entries the history can take without asking for memory: its spare.
pub struct History {
    entries: Vec<Entry>,
}

impl Model for History {
    ghost use Rattle.std.specs.Prelude.{◌-◌};
    ghost use Rattle.std.specs.Vec.{vec_len, vec_capacity};
    ghost use Rattle.model_history.specs.Entries.{Record};

    ghost Value = { Record };

    ghost view = { λ h. record { entries = h.entries.items; spare = vec_capacity h.entries - vec_len h.entries } };
}

// Written out, since a derived drop is proved anew, field by field, in each function that lets one go.
impl Drop for History {
    fn drop(self) {
        let History { entries: _ } = self;
    }
}

impl History {
    /// The empty history.
    pub fn new(alloc: Global) -> History
        ensures { result.entries ≡ [] }
    {
        History {
            entries: Vec::new(alloc),
        }
    }

    /// Adds an entry at the end. If there is no memory for it, the entries stay as they are and the
    /// new one comes back.
    pub fn push(&mut self, e: Entry) -> Result<(), (AllocError, Entry)>
        ensures ok { OnOk result (self.new.entries ≡ self.old.entries ++ e ∷ []) }
        ensures err { OnErr result (self.new.entries ≡ self.old.entries) }
        ensures handed_back { IfErr result (λ x. x.1 ≡ e) }
    {
        match self.entries.push(e) {
            Ok(()) => Ok(()),
            Err(refused) => Err((AllocError, refused.value)),
        }
    }

    /// Makes room for `n` entries.
    pub fn reserve(&mut self, n: usize) -> Result<(), AllocError>
        ensures room { OnOk result (n ≤ self.new.spare) }
        ensures same { self.new.entries ≡ self.old.entries }
        ensures err { OnErr result (self.new ≡ self.old) }
    {
        self.entries.reserve(n)?;
        Ok(())
    }

    /// Adds an entry at the end, in a place that was reserved. It takes no memory.
    pub fn push_reserved(&mut self, e: Entry)
        requires { 1 ≤ self.old.spare }
        ensures added { self.new.entries ≡ self.old.entries ++ e ∷ [] }
        ensures spare { self.new.spare + 1 ≡ self.old.spare }
    {
        self.entries.push_reserved(e);
    }

    /// How many entries the history has.
    pub fn len(&self) -> usize
        ensures { result ≡ length self.now.entries }
    {
        self.entries.len()
    }

    /// The entry at a place; None exactly if `at` is not below the length.
    pub fn entry(&self, at: usize) -> Option<&Entry>
        ensures { option_copied result ≡ slice_get self.now.entries at }
    {
        self.entries.get(at)
    }
}
