//! The main side of a core on the same thread.

ghost use Rattle.std.specs.Prelude.{◌≡◌, ℕ, false, OnOk};
ghost use Rattle.model_states.specs.declared.kind.Kind.TheVariants as kind;
ghost use Rattle.model_history.specs.Scans.{has_ended};
ghost use Rattle.impl_log.specs.Runs.{new_run, past};
ghost use Rattle.proxy_single_thread.specs.Singles.{SingleEnters};
ghost use Rattle.proxy_single_thread.specs.inner.Ends.{is_ready};
ghost use Rattle.proxy_single_thread.specs.inner.Sides.{IsMain, WasRun};

use impl_core::Core;
use main_host::{MainEnd, MainHost};
use model_history::Script;
use model_lockstep::EnterFault;
use std::alloc::{AllocError, Global};
use std::sync::Arc;

/// The main side, with how the frame in flight ends once it has run it.
pub(crate) struct MainSide {
    pub(crate) host: MainHost,
    /// How the frame in flight ends; None if there is no frame in flight or it was not run yet.
    pub(crate) end: Option<MainEnd>,
    /// Whether the frame that was run last changes something.
    pub(crate) changed: bool,
}

// Written out, since a derived drop is proved anew, field by field, in each function that lets one go.
impl Drop for MainSide {
    fn drop(self) {
        let MainSide {
            host: _,
            end: _,
            changed: _,
        } = self;
    }
}

// Whether a frame ends by a commit.
fn is_commit(end: &MainEnd) -> bool
    ensures { result ≡ is_ready end.now }
{
    match end {
        MainEnd::Ready(_) => true,
        MainEnd::Abort { .. } => false,
    }
}

impl MainSide {
    /// The main side of a script before all main frames.
    pub(crate) fn new(alloc: Global, script: Arc<Script>) -> MainSide
        ensures { (n : ℕ) → IsMain (new_run script.value n) result }
    {
        MainSide {
            host: MainHost::new(alloc, script),
            end: None,
            changed: false,
        }
    }

    /// Runs the frame in flight, if there is one that was not run yet. An error means out of memory, and
    /// nothing was run.
    pub(crate) fn run(&mut self, core: &Core) -> Result<(), AllocError>
        requires { IsMain core.now self.old }
        ensures stands { IsMain core.now self.new }
        ensures run { OnOk result (WasRun core.now self.new) }
    {
        core.is_legal();
        if self.end.is_some() {
            return Ok(());
        }
        match core.in_flight() {
            None => Ok(()),
            Some((_, pulls)) => {
                let end = self.host.begin(pulls)?;
                self.changed = is_commit(&end);
                self.end = Some(end);
                Ok(())
            }
        }
    }

    // Enters the `Ready` of the frame that was run.
    fn hand_over(&mut self, core: &mut Core) -> Result<(), EnterFault>
        requires going { has_ended (past core.old) ≡ false }
        requires stands { IsMain core.old self.old }
        requires run { WasRun core.old self.old }
        ensures stands { IsMain core.new self.new }
        ensures answer { SingleEnters core.old kind.Ready 1 core.new result }
    {
        core.is_legal();
        match self.end.take() {
            Some(MainEnd::Ready(commit)) => match core.ready(commit) {
                Ok(()) => Ok(()),
                Err((refused, commit)) => {
                    self.end = Some(MainEnd::Ready(commit));
                    Err(EnterFault::Memory(refused))
                }
            },
            Some(MainEnd::Abort { frame }) => {
                self.end = Some(MainEnd::Abort { frame });
                Err(EnterFault::NotNow)
            }
            None => Err(EnterFault::NotNow),
        }
    }

    // Enters the `Abort` of the frame that was run.
    fn give_up(&mut self, core: &mut Core) -> Result<(), EnterFault>
        requires going { has_ended (past core.old) ≡ false }
        requires stands { IsMain core.old self.old }
        requires run { WasRun core.old self.old }
        ensures stands { IsMain core.new self.new }
        ensures answer { SingleEnters core.old kind.Abort 1 core.new result }
    {
        core.is_legal();
        match self.end.take() {
            Some(MainEnd::Abort { frame }) => match core.abort(frame) {
                Ok(()) => Ok(()),
                Err(refused) => {
                    self.end = Some(MainEnd::Abort { frame });
                    Err(EnterFault::Memory(refused))
                }
            },
            Some(MainEnd::Ready(commit)) => {
                self.end = Some(MainEnd::Ready(commit));
                Err(EnterFault::NotNow)
            }
            None => Err(EnterFault::NotNow),
        }
    }

    /// Enters the `Ready` of the frame in flight, if it may come now.
    pub(crate) fn ready(&mut self, core: &mut Core) -> Result<(), EnterFault>
        requires { IsMain core.old self.old }
        ensures stands { IsMain core.new self.new }
        ensures answer { SingleEnters core.old kind.Ready 1 core.new result }
    {
        if core.ended() {
            return Err(EnterFault::NotNow);
        }
        match self.run(core) {
            Ok(()) => self.hand_over(core),
            Err(refused) => Err(EnterFault::Memory(refused)),
        }
    }

    /// Enters the `Abort` of the frame in flight, if it may come now.
    pub(crate) fn abort(&mut self, core: &mut Core) -> Result<(), EnterFault>
        requires { IsMain core.old self.old }
        ensures stands { IsMain core.new self.new }
        ensures answer { SingleEnters core.old kind.Abort 1 core.new result }
    {
        if core.ended() {
            return Err(EnterFault::NotNow);
        }
        match self.run(core) {
            Ok(()) => self.give_up(core),
            Err(refused) => Err(EnterFault::Memory(refused)),
        }
    }
}
