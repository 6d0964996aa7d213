//! An actor gives up.

ghost use Rattle.std.specs.Prelude.{◌≡◌, ◌+◌, ◌<◌, false};
ghost use Rattle.model_history.specs.declared.event.Event.TheVariants as event;
ghost use Rattle.model_history.specs.Scans.{has_ended};
ghost use Rattle.impl_log.specs.Runs.{past, with_entry};

use crate::core_state::Core;
use model_history::Event;

impl Core {
    /// Enters the stop of an actor. The history has not ended. Takes no memory.
    pub fn stop(&mut self, actor: u32)
        requires going { has_ended (past self.old) ≡ false }
        requires within { actor < 2 + self.old.workers }
        ensures { self.new ≡ with_entry self.old actor (event.Stop actor) }
    {
        self.log.enter_kept(actor, Event::Stop { actor });
    }
}
