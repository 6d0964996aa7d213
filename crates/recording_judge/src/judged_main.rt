//! The main side of a run.

ghost use Rattle.std.specs.Prelude.{◌≡◌, ◌∷◌, ℕ, [], List, true, OnOk};
ghost use Rattle.model_states.specs.declared.kind.Kind.TheVariants as kind;
ghost use Rattle.model_history.specs.declared.history.Entry.{Entry};
ghost use Rattle.model_history.specs.Scripts.{ScriptModel};
ghost use Rattle.model_history.specs.Accepted.{IsPlayable};
ghost use Rattle.model_history.specs.Due.{due};
ghost use Rattle.model_history.specs.Legal.{is_open, Legal};
ghost use Rattle.model_steps.specs.Events.{send};
ghost use Rattle.recording_judge.specs.inner.Mains as spec;
ghost use Rattle.recording_judge.specs.inner.Mains.{IsMain, MainSends};

use main_host::{MainEnd, MainHost};
use model_history::{Event, Moves, Script};
use std::alloc::{AllocError, Global};
use std::sync::Arc;

/// The main side of a run, with how the frame that was sent last ends. It runs a frame when it is sent.
///
/// Contracts say for which runs it stands, by the script and the past: `IsMain`.
#[derive(Drop)]
pub(crate) struct JudgedMain {
    pub(crate) host: MainHost,
    /// How the frame that was sent last ends; None before the first.
    pub(crate) end: Option<MainEnd>,
}

// The `Ready` of a frame that ends so.
fn ready_event(end: &Option<MainEnd>) -> Option<Event>
    ensures { result ≡ spec.ready_event end.now }
{
    match end {
        Some(MainEnd::Ready(commit)) => Some(Event::Ready {
            frame: commit.frame(),
        }),
        Some(MainEnd::Abort { .. }) => None,
        None => None,
    }
}

// The `Abort` of a frame that ends so.
fn abort_event(end: &Option<MainEnd>) -> Option<Event>
    ensures { result ≡ spec.abort_event end.now }
{
    match end {
        Some(MainEnd::Abort { frame }) => Some(Event::Abort { frame: *frame }),
        Some(MainEnd::Ready(_)) => None,
        None => None,
    }
}

impl JudgedMain {
    /// The main side of a script before all main frames.
    pub(crate) fn new(alloc: Global, script: Arc<Script>) -> JudgedMain
        ensures { IsMain script.value [] result }
    {
        JudgedMain {
            host: MainHost::new(alloc, script),
            end: None,
        }
    }

    /// A main frame is sent with these pulls, and is run. An error means out of memory.
    pub(crate) fn send(&mut self, pulls: &Moves) -> Result<(), AllocError>
        requires { MainSends self.old pulls.now }
        ensures { OnOk result ((s : ScriptModel) (workers : ℕ) (h : List Entry) (actor k : ℕ) → IsPlayable s → Legal s workers (send actor k pulls.now ∷ h) → IsMain s h self.old → IsMain s (send actor k pulls.now ∷ h) self.new) }
    {
        let end = self.host.begin(pulls)?;
        self.end = Some(end);
        Ok(())
    }

    /// The `Ready` of the frame that was sent last, if the scheduler's state allows one.
    pub(crate) fn ready(&self) -> Option<Event>
        ensures { (s : ScriptModel) (workers : ℕ) (h : List Entry) → Legal s workers h → IsMain s h self.now → is_open h kind.Ready ≡ true → result ≡ due s h kind.Ready 1 }
    {
        ready_event(&self.end)
    }

    /// The `Abort` of the frame that was sent last, if the scheduler's state allows one.
    pub(crate) fn abort(&self) -> Option<Event>
        ensures { (s : ScriptModel) (workers : ℕ) (h : List Entry) → Legal s workers h → IsMain s h self.now → is_open h kind.Abort ≡ true → result ≡ due s h kind.Abort 1 }
    {
        abort_event(&self.end)
    }
}
