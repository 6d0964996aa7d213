//! A core as actors take turns with it.

ghost use Rattle.std.specs.Prelude.{map};
ghost use Rattle.impl_core.specs.Origins.{origin_of, pair_of};

use crate::core_state::Core;
use model_history::{Event, Script};
use std::marker::Model;
use std::sync::Arc;
use thread_lock::Turn;

/// What a core began with: its script and its number of workers. No value of it is made.
pub struct Stem {
    /// The script.
    pub script: Arc<Script>,
    /// The number of workers.
    pub workers: u32,
}

impl Model for Stem {
    ghost use Rattle.impl_core.specs.Origins.{Origin};

    ghost Value = { Origin };

    ghost view = { λ s. record { script = s.script.value; workers = s.workers } };
}

impl Turn for Core {
    type Stem = Stem;

    type Entry = Event;

    ghost stem = { λ core. origin_of core };

    ghost history = { λ core. map pair_of core.entries };

    fn entries(&self) -> u64 {
        self.history().len() as u64
    }
}
