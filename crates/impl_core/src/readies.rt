//! A main frame is ready to be committed.

ghost use Rattle.std.specs.Prelude.{◌≡◌, ℕ, ◌≤◌, Some, OnOk, OnErr, IfErr};
ghost use Rattle.model_states.specs.declared.kind.Kind.TheVariants as kind;
ghost use Rattle.model_history.specs.declared.event.Event.TheVariants as event;
ghost use Rattle.model_history.specs.Frames.{pulls_of, pulls_in};
ghost use Rattle.model_history.specs.Scrolls.{clobbers};
ghost use Rattle.impl_scroll.specs.Rows.{has_number};
ghost use Rattle.impl_log.specs.Runs.{past, now, with_entry};
ghost use Rattle.impl_core.specs.Handovers.{IsPreparedFor};

use crate::core_state::Core;
use crate::handed::Handed;
use impl_scroll::clobbered_in;
use model_history::{Commit, Event};
use std::alloc::AllocError;

// What a commit hands over, whose frame sets these scrollers outright.
fn handed_of(commit: Commit, outright: Vec<u32>) -> Handed
    ensures tree { result.tree.value ≡ commit.tree }
    ensures changes { result.changes ≡ commit.changes }
    ensures outright { result.outright.items ≡ outright.items }
{
    let (tree, changes) = commit.into_page();
    Handed {
        tree,
        changes,
        outright,
    }
}

impl Core {
    // The main side is ready with the commit of the frame in flight, which sets these scrollers outright.
    fn enter_ready(
        &mut self,
        commit: Commit,
        outright: Vec<u32>,
    ) -> Result<(), (AllocError, Commit)>
        requires is_now { now self.old kind.Ready 1 ≡ Some (event.Ready commit.frame) }
        requires script { commit.script ≡ self.old.script }
        requires sends { (k : ℕ) → k ≤ commit.frame → pulls_in commit.sends k ≡ pulls_of (past self.old) k }
        requires outright { (sc : ℕ) → has_number outright.items sc ≡ clobbers commit.script (Some commit.frame) sc }
        ensures ok { OnOk result (self.new ≡ with_entry self.old 1 (event.Ready commit.frame)) }
        ensures err { OnErr result (self.new ≡ self.old) }
        ensures given_back { IfErr result (λ refused. refused.1 ≡ commit) }
    {
        commit.is_commit();
        self.log.is_legal();
        let frame = commit.frame();
        match self.log.enter(1, Event::Ready { frame }) {
            Ok(()) => {
                self.prepared = Some(handed_of(commit, outright));
                Ok(())
            }
            Err(refused) => Err((refused, commit)),
        }
    }

    /// The main side is ready with the commit of the frame in flight, which it made of this script with the
    /// pulls that were sent. An error means out of memory: nothing was entered, and the commit comes back.
    pub fn ready(&mut self, commit: Commit) -> Result<(), (AllocError, Commit)>
        requires is_now { now self.old kind.Ready 1 ≡ Some (event.Ready commit.frame) }
        requires script { commit.script ≡ self.old.script }
        requires sends { (k : ℕ) → k ≤ commit.frame → pulls_in commit.sends k ≡ pulls_of (past self.old) k }
        ensures ok { OnOk result (self.new ≡ with_entry self.old 1 (event.Ready commit.frame)) }
        ensures err { OnErr result (self.new ≡ self.old) }
        ensures given_back { IfErr result (λ refused. refused.1 ≡ commit) }
    {
        match clobbered_in(self.alloc, &commit) {
            Ok(outright) => self.enter_ready(commit, outright),
            Err(refused) => Err((refused, commit)),
        }
    }

    /// The main side is ready with the frame in flight, and hands over the page after it and what it changed. This is
    /// [`Core::ready`] for a main side that keeps no commits. An error means out of memory: nothing was entered, and
    /// what was handed over comes back.
    pub fn ready_with(&mut self, frame: u32, handed: Handed) -> Result<(), (AllocError, Handed)>
        requires is_now { now self.old kind.Ready 1 ≡ Some (event.Ready frame) }
        requires made { IsPreparedFor self.old.script (pulls_of (past self.old)) frame handed.tree.value handed.changes handed.outright.items }
        ensures ok { OnOk result (self.new ≡ with_entry self.old 1 (event.Ready frame)) }
        ensures err { OnErr result (self.new ≡ self.old) }
        ensures given_back { IfErr result (λ refused. refused.1 ≡ handed) }
    {
        self.log.is_legal();
        match self.log.enter(1, Event::Ready { frame }) {
            Ok(()) => {
                self.prepared = Some(handed);
                Ok(())
            }
            Err(refused) => Err((refused, handed)),
        }
    }
}
