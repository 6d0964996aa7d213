//! A main frame ends with no commit.

ghost use Rattle.std.specs.Prelude.{◌≡◌, ℕ, false, ◌∷◌, Some, OnOk, OnErr};
ghost use Rattle.model_states.specs.declared.kind.Kind.TheVariants as kind;
ghost use Rattle.model_history.specs.declared.event.Event.TheVariants as event;
ghost use Rattle.model_history.specs.Frames.{pending};
ghost use Rattle.model_history.specs.Scrolls.{clobbers};
ghost use Rattle.model_steps.specs.Events.{abort};
ghost use Rattle.impl_scroll.specs.Standings.{StandsForPast};
ghost use Rattle.impl_log.specs.Runs.{past, now, with_entry};

use crate::core_state::Core;
use impl_scroll::Standing;
use model_history::Event;
use std::alloc::AllocError;

impl Core {
    // Enters the abort of a frame if the pending commit sets no scroller outright, or none is pending: both
    // trees stay where they stand, and so does what there is to choose from.
    fn abort_in_place(&mut self, frame: u32, standing: Standing) -> Result<(), AllocError>
        requires is_now { now self.old kind.Abort 1 ≡ Some (event.Abort frame) }
        requires stands { StandsForPast self.old.script (abort 1 frame ∷ past self.old) standing }
        requires none_outright { (sc : ℕ) → clobbers self.old.script (pending (past self.old)) sc ≡ false }
        ensures ok { OnOk result (self.new ≡ with_entry self.old 1 (event.Abort frame)) }
        ensures err { OnErr result (self.new ≡ self.old) }
    {
        self.log.is_legal();
        self.log.enter(1, Event::Abort { frame })?;
        self.host.stand(standing);
        Ok(())
    }

    /// The main side has ended the frame in flight, which changed nothing. An error means out of memory, and
    /// nothing was entered.
    pub fn abort(&mut self, frame: u32) -> Result<(), AllocError>
        requires { now self.old kind.Abort 1 ≡ Some (event.Abort frame) }
        ensures ok { OnOk result (self.new ≡ with_entry self.old 1 (event.Abort frame)) }
        ensures err { OnErr result (self.new ≡ self.old) }
    {
        self.log.is_legal();
        let pages = self.host.pages();
        let stays = pages.outright.is_empty();
        let standing = self.host.standing().aborted(self.alloc, pages)?;
        if stays {
            self.abort_in_place(frame, standing)
        } else {
            self.enter_moving(1, Event::Abort { frame }, standing)
        }
    }
}
