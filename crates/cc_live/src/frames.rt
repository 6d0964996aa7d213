//! Main frames that are asked for, commits, activations and draws.

ghost use Rattle.std.specs.Prelude.{◌≡◌, ◌-◌, ◌<◌, ◌≤◌, length, slice_get, None, true, false, is_some, IsTrue, IfOk, IfSome, OnOk, OnErr};
ghost use Rattle.model_states.specs.declared.kind.Kind.TheVariants as kind;
ghost use Rattle.model_states.specs.Kinds.{may, is_sent};
ghost use Rattle.model_history.specs.Legal.{sched};
ghost use Rattle.impl_log.specs.Runs.{now, past, Plays};
ghost use Rattle.cc_live.specs.Lives.{Enters, with_frame_told};
ghost use Rattle.cc_live.specs.Calls.{Draws, Asks};
ghost use Rattle.cc_live.specs.Calls as calls;

use crate::fault::LiveFault;
use crate::inputs::{MOST_TOLD, play_next};
use crate::live::Live;
use model_history::Event;
use model_states::Kind;
use std::alloc::AllocError;
use viz_scene::Scene;

impl Live {
    // Tells the run that a main frame comes, while none is left and the script has room for one.
    #[tactic(auto, using(crate::proofs::ToldRuns::one_left))]
    fn tell_frame(&mut self)
        requires none { calls.has_frame self.old ≡ false }
        requires free { is_sent (sched (past self.old.run)).main_state ≡ false }
        requires room { length self.old.run.script.main < calls.most_told }
        ensures told { self.new ≡ with_frame_told self.old }
        ensures left { calls.has_frame self.new ≡ true }
    {
        self.core.is_legal();
        self.core.add_frame(self.alloc);
    }

    // Whether the script takes another main frame, while none is left.
    fn has_room_for_frame(&self) -> bool
        requires { calls.has_frame self.now ≡ false }
        ensures room { IsTrue result → length self.now.run.script.main < calls.most_told }
        ensures worn { result ≡ false → calls.most_told ≤ length self.now.run.script.main }
    {
        self.core.is_legal();
        self.core.progress().sends < MOST_TOLD
    }

    // Tells the run that a main frame comes, unless one is left.
    fn leave_frame(&mut self) -> Result<(), LiveFault>
        requires free { is_sent (sched (past self.old.run)).main_state ≡ false }
        ensures leaves { calls.LeavesFrame self.old self.new result }
        ensures left { OnOk result (calls.has_frame self.new ≡ true) }
        ensures entries { self.new.run.entries ≡ self.old.run.entries }
    {
        if self.core.is_left() {
            return Ok(());
        }
        if self.has_room_for_frame() {
            self.tell_frame();
            Ok(())
        } else {
            Err(LiveFault::Worn)
        }
    }

    // Sends the main frame that is left.
    fn send_left(&mut self) -> Result<(), AllocError>
        requires left { calls.has_frame self.old ≡ true }
        requires may { may (sched (past self.old.run)) kind.Send ≡ true }
        ensures ok { OnOk result (Enters self.old kind.Send self.new) }
        ensures err { OnErr result (self.new ≡ self.old) }
    {
        play_next(&mut self.core, Kind::Send)
    }

    /// Asks the main thread for its next main frame, and tells it what was scrolled since it was last asked.
    /// `NotNow` comes if no impl frame is open, if it has asked already or if a main frame is in flight, `Worn`
    /// after 2^32 - 2 main frames. If memory is refused, the main frame is told, and the next call sends it.
    #[tactic(auto, using(crate::proofs::MainSides::send_free))]
    pub fn ask(&mut self) -> Result<(), LiveFault>
        ensures { Asks self.old self.new result }
    {
        if !self.core.progress().sched.may(Kind::Send) {
            return Err(LiveFault::NotNow);
        }
        if let Err(fault) = self.leave_frame() {
            return Err(fault);
        }
        match self.send_left() {
            Ok(()) => Ok(()),
            Err(refused) => Err(LiveFault::Memory(refused)),
        }
    }

    /// Makes the page of the main frame that is ready the pending tree, if it may be committed now, and answers
    /// whether it was. An error means out of memory, and all is as it was.
    pub fn commit(&mut self) -> Result<bool, AllocError>
        ensures plays { IfOk result (λ played. Plays self.old.run kind.Commit 0 self.new.run played) }
        ensures rest { self.new ≡ record self.old { run = self.new.run } }
        ensures err { OnErr result (self.new ≡ self.old) }
    {
        self.core.commit()
    }

    /// Makes the pending tree the active one, if all tiles are ready that it needs, and answers whether it did. An
    /// error means out of memory, and all is as it was.
    pub fn activate(&mut self) -> Result<bool, AllocError>
        ensures plays { IfOk result (λ played. Plays self.old.run kind.Activate 0 self.new.run played) }
        ensures rest { self.new ≡ record self.old { run = self.new.run } }
        ensures err { OnErr result (self.new ≡ self.old) }
    {
        self.core.activate()
    }

    /// Draws the active page in the impl frame that is open: the scene shows it where its scrollers stand, and the
    /// newest event lists the tiles that it lacks. None if nothing is active yet. `NotNow` comes if no impl frame
    /// is open, or if it was drawn. An error leaves all as it was.
    pub fn draw(&mut self) -> Result<Option<Scene>, LiveFault>
        ensures { Draws self.old self.new result }
    {
        match self.core.draw() {
            Ok(Some(scene)) => Ok(Some(scene)),
            Ok(None) => self.skip(),
            Err(refused) => Err(LiveFault::Memory(refused)),
        }
    }

    // Skips the draw, if nothing is active.
    fn skip(&mut self) -> Result<Option<Scene>, LiveFault>
        requires { now self.old.run kind.Draw 0 ≡ None }
        ensures { Draws self.old self.new result }
    {
        match self.core.play_plain(Kind::Skip) {
            Ok(true) => Ok(None),
            Ok(false) => Err(LiveFault::NotNow),
            Err(refused) => Err(LiveFault::Memory(refused)),
        }
    }

    /// Ends the impl frame that was drawn, if one was, and answers whether it did. Another may begin then, and
    /// scrolls may come. An error means out of memory, and all is as it was.
    pub fn finish(&mut self) -> Result<bool, AllocError>
        ensures plays { IfOk result (λ played. Plays self.old.run kind.Finish 0 self.new.run played) }
        ensures rest { self.new ≡ record self.old { run = self.new.run } }
        ensures err { OnErr result (self.new ≡ self.old) }
    {
        self.core.forget();
        self.core.play_plain(Kind::Finish)
    }

    /// The event that was entered last, if one was: it says what the call that entered it did, as how far a scroll
    /// went or which tiles a draw lacked.
    pub fn newest(&self) -> Option<&Event>
        ensures event { IfSome result (λ event. IfSome (slice_get self.now.run.entries (length self.now.run.entries - 1)) (λ entry. event.now ≡ entry.event)) }
        ensures some { is_some result ≡ is_some (slice_get self.now.run.entries (length self.now.run.entries - 1)) }
    {
        let history = self.core.history();
        let count = history.len();
        if count == 0 {
            return None;
        }
        let newest = history.entry(count - 1);
        Some(&newest.event)
    }
}
