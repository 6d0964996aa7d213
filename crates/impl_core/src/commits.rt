//! A commit becomes the pending tree.

ghost use Rattle.std.specs.Prelude.{◌≡◌, ℕ, List, ◌∷◌, Some, None, option_map, IsSome, IfOk, OnOk, OnErr};
ghost use Rattle.model_states.specs.declared.kind.Kind.TheVariants as kind;
ghost use Rattle.model_history.specs.declared.event.Event.TheVariants as event;
ghost use Rattle.model_history.specs.declared.history.Entry.{Entry};
ghost use Rattle.model_history.specs.Scripts.{ScriptModel};
ghost use Rattle.model_history.specs.Accepted.{IsPlayable};
ghost use Rattle.model_history.specs.Frames.{pulls_of};
ghost use Rattle.model_history.specs.Legal.{Legal};
ghost use Rattle.model_steps.specs.Events.{commit};
ghost use Rattle.impl_host.specs.Hosts.{Hosts};
ghost use Rattle.impl_log.specs.Runs.{now, Entered, Plays};
ghost use Rattle.impl_core.specs.inner.Cores.{IsPrepared};
ghost use Rattle.impl_core.specs.inner.Pushes.{PushesNow};

use crate::core_state::Core;
use crate::drawn::Drawn;
use crate::handed::Handed;
use impl_host::ImplHost;
use impl_scroll::Standing;
use model_history::Event;
use model_states::Kind;
use std::alloc::{AllocError, Global};
use std::sync::Arc;

// Pushes what is prepared, whose page is shared once more, and answers how the scrollers stood before. An error
// means out of memory, and the host is as it was.
fn push_prepared(
    alloc: Global,
    host: &mut ImplHost,
    frame: u32,
    prepared: &Option<Handed>,
) -> Result<Standing, AllocError>
    requires { PushesNow host.old frame prepared.now }
    ensures hosts { OnOk result ((s : ScriptModel) (workers : ℕ) (h : List Entry) (actor : ℕ) → IsPlayable s → Legal s workers (commit actor frame ∷ h) → Hosts s h host.old → IsPrepared s (pulls_of h) frame prepared.now → Hosts s (commit actor frame ∷ h) host.new) }
    ensures before { IfOk result (λ standing. standing ≡ host.old.standing) }
    ensures active { OnOk result (host.new.trees.active ≡ host.old.trees.active) }
    ensures pending { OnOk result (IsSome host.new.trees.pending) }
    ensures err { OnErr result (host.new ≡ host.old) }
{
    let Some(handed) = prepared else {
        unreachable!()
    };
    let tree = Arc::try_clone(&handed.tree)?;
    let changes = handed.changes.copy()?;
    let outright = Vec::from_slice(alloc, handed.outright.as_slice())?;
    host.push(alloc, tree, changes, frame, outright)
}

// Lets go of what was prepared, once its commit is entered.
fn drop_prepared(prepared: &mut Option<Handed>)
    ensures { prepared.new ≡ None }
{
    *prepared = None;
}

impl Core {
    /// The main frame that may be committed now, if there is one.
    pub(crate) fn commit_now(&self) -> Option<u32>
        ensures { option_map event.Commit result ≡ now self.now kind.Commit 0 }
    {
        if self.log.is_open(Kind::Commit) {
            self.log.progress().sent
        } else {
            None
        }
    }

    // Commits the main frame that was sent last.
    fn enter_commit(&mut self, frame: u32) -> Result<(), AllocError>
        requires { now self.old kind.Commit 0 ≡ Some (event.Commit frame) }
        ensures ok { OnOk result (Entered self.old kind.Commit 0 self.new) }
        ensures err { OnErr result (self.new ≡ self.old) }
    {
        self.log.is_legal();
        let before = push_prepared(self.alloc, &mut self.host, frame, &self.prepared)?;
        match self.log.enter(0, Event::Commit { frame }) {
            Ok(()) => {
                drop_prepared(&mut self.prepared);
                self.tiles.forget();
                self.required.forget();
                self.drawn = Drawn::Nothing;
                Ok(())
            }
            Err(refused) => {
                self.host.take_back(before);
                Err(refused)
            }
        }
    }

    /// Commits the main frame that is ready, if it may be committed now, and answers whether it was. An
    /// error means out of memory: nothing was entered, and the call may be made again.
    pub fn commit(&mut self) -> Result<bool, AllocError>
        ensures plays { IfOk result (λ played. Plays self.old kind.Commit 0 self.new played) }
        ensures err { OnErr result (self.new ≡ self.old) }
    {
        match self.commit_now() {
            None => Ok(false),
            Some(frame) => {
                self.enter_commit(frame)?;
                Ok(true)
            }
        }
    }
}
