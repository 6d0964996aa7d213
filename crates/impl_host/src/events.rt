//! What the events of main frames do to the host.

ghost use Rattle.std.specs.Prelude.{◌≡◌, ◌∷◌, ℕ, List, None, IsSome, IfOk, OnOk, OnErr};
ghost use Rattle.page_layers.specs.declared.moves.Move.{Move};
ghost use Rattle.model_history.specs.declared.history.Entry.{Entry};
ghost use Rattle.model_history.specs.Scripts.{ScriptModel};
ghost use Rattle.model_history.specs.Frames as frames;
ghost use Rattle.model_history.specs.Accepted.{IsPlayable};
ghost use Rattle.model_history.specs.Legal.{Legal};
ghost use Rattle.model_steps.specs.Events.{send, commit, activate};
ghost use Rattle.impl_scroll.specs.Standings.{StandsForPast};
ghost use Rattle.impl_host.specs.Hosts.{ImplHostModel, Hosts, IsMadeBy};
ghost use Rattle.impl_host.specs.Occasions.{SendsNow, PushesNow, ActivatesNow};

use crate::host::{ImplHost, page_of};
use impl_scroll::Standing;
use page_layers::LayerTree;
use region::Changes;
use std::alloc::{AllocError, Global};
use std::mem;
use std::sync::Arc;

impl ImplHost {
    /// Steps the host by the `Send` of a main frame, which tells the main side of all moves. Takes no
    /// memory.
    pub fn sent(&mut self)
        requires { SendsNow self.old }
        ensures { (s : ScriptModel) (workers : ℕ) (h : List Entry) (actor k : ℕ) (pulls : List Move) → Legal s workers (send actor k pulls ∷ h) → Hosts s h self.old → Hosts s (send actor k pulls ∷ h) self.new }
    {
        self.standing.sent();
    }

    /// Makes the commit of a main frame pending: the page after the frame, what its commands changed, and the
    /// scrollers that they set outright. Answers where the scrollers stood before, for [`ImplHost::take_back`]. An
    /// error means out of memory, and the host is as it was.
    pub fn push(
        &mut self,
        alloc: Global,
        tree: Arc<LayerTree>,
        changes: Changes,
        frame: u32,
        outright: Vec<u32>,
    ) -> Result<Standing, AllocError>
        requires { PushesNow self.old tree.value changes frame outright.items }
        ensures hosts { OnOk result ((s : ScriptModel) (workers : ℕ) (h : List Entry) (actor : ℕ) → IsPlayable s → Legal s workers (commit actor frame ∷ h) → Hosts s h self.old → IsMadeBy s h frame tree.value changes outright.items → Hosts s (commit actor frame ∷ h) self.new) }
        ensures before { IfOk result (λ standing. standing ≡ self.old.standing) }
        ensures active { OnOk result (self.new.trees.active ≡ self.old.trees.active) }
        ensures pending { OnOk result (IsSome self.new.trees.pending) }
        ensures err { OnErr result (self.new ≡ self.old) }
    {
        // This read tells the proof what the type keeps; it does nothing when it runs.
        let _ = changes.len();
        let active = page_of(self.trees.active());
        let standing = self
            .standing
            .pushed(alloc, active, &tree, outright.as_slice())?;
        match self.trees.push(tree, changes, frame) {
            Err((full, _, _)) => Err(full),
            Ok(()) => {
                self.outright = outright;
                Ok(mem::replace(&mut self.standing, standing))
            }
        }
    }

    /// Takes back what was pushed last, as if it had not been: nothing is pending, and the scrollers stand
    /// where they stood before. Takes no memory.
    pub fn take_back(&mut self, standing: Standing)
        requires { IsSome self.old.trees.pending }
        ensures { (s : ScriptModel) (h : List Entry) (before : ImplHostModel) → frames.pending h ≡ None → Hosts s h before → self.old.trees.active ≡ before.trees.active → standing ≡ before.standing → Hosts s h self.new }
    {
        self.trees.take_back();
        self.standing = standing;
        self.outright.clear();
    }

    /// Makes the pending tree active; the scrollers stand where they stand after the activation. Takes no
    /// memory.
    pub fn activate(&mut self, standing: Standing)
        requires { ActivatesNow self.old }
        ensures { (s : ScriptModel) (workers : ℕ) (h : List Entry) (actor k : ℕ) (clamps : List Move) → Legal s workers (activate actor k clamps ∷ h) → Hosts s h self.old → StandsForPast s (activate actor k clamps ∷ h) standing → Hosts s (activate actor k clamps ∷ h) self.new }
    {
        self.trees.activate();
        self.standing = standing;
        self.outright.clear();
    }
}
