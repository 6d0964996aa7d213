//! A main frame is sent.

ghost use Rattle.std.specs.Prelude.{◌≡◌, is_some, IfOk, OnErr};
ghost use Rattle.model_states.specs.declared.kind.Kind.TheVariants as kind;
ghost use Rattle.impl_log.specs.Runs.{now, Plays};

use crate::core_state::Core;
use model_history::Event;
use model_states::Kind;
use std::alloc::AllocError;

impl Core {
    /// Whether a main frame may be sent now.
    pub(crate) fn may_send(&self) -> bool
        ensures { result ≡ is_some (now self.now kind.Send 0) }
    {
        let open = self.log.is_open(Kind::Send);
        let left = self.log.is_left();
        open && left
    }

    /// Sends the next main frame with the moves that the main side has not heard of, if one may be sent
    /// now, and answers whether it was. An error means out of memory, and nothing was entered.
    pub fn send(&mut self) -> Result<bool, AllocError>
        ensures plays { IfOk result (λ played. Plays self.old kind.Send 0 self.new played) }
        ensures err { OnErr result (self.new ≡ self.old) }
    {
        let open = self.log.is_open(Kind::Send);
        let left = self.log.is_left();
        if open && left {
            self.log.is_legal();
            let pulls = self.host.standing().unheard(self.alloc)?;
            let told = pulls.copy()?;
            let frame = self.log.progress().sends;
            self.log.enter(0, Event::Send { frame, pulls })?;
            self.host.sent();
            self.told = told;
            Ok(true)
        } else {
            Ok(false)
        }
    }
}
