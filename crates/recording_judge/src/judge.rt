//! A judge of histories.

ghost use Rattle.std.specs.Prelude.{◌≡◌, ◌≤◌, IfOk};
ghost use Rattle.model_history.specs.Legal.{Legal};
ghost use Rattle.impl_log.specs.Runs.{new_run, past};
ghost use Rattle.recording_judge.specs.Judging.{JudgesEntry, IsShownNow};

use crate::screen_state::ScreenState;
use crate::state::State;
use model_history::{Entry, Script};
use std::alloc::{AllocError, Global};
use std::marker::Model;
use std::sync::Arc;

/// A judge of a history of a script: it is told the entries one after another, and keeps the state of the
/// model after them.
///
/// Contracts see the run of the entries that it has entered. By its type it is legal.
pub struct Judge {
    state: State,
    // Memory was refused, and the state is of no use any more.
    is_spent: bool,
}

impl Drop for Judge {
    fn drop(self) {
        let Judge {
            state: _,
            is_spent: _,
        } = self;
    }
}

impl Model for Judge {
    ghost use Rattle.std.specs.Prelude.{◌≡◌, false};
    ghost use Rattle.impl_log.specs.Runs.{Run};
    ghost use Rattle.recording_judge.specs.inner.States.{IsState};

    ghost Value = { Run };

    ghost view = { λ j. j.state.log };

    ghost invariant = { λ j. j.is_spent ≡ false → IsState j.state };
}

impl Judge {
    /// The judge of a run in which nothing has come yet, with up to 16 workers. An error means out of memory.
    pub fn new(alloc: Global, script: Arc<Script>, workers: u32) -> Result<Judge, AllocError>
        requires { workers ≤ 16 }
        ensures { IfOk result (λ judge. judge ≡ new_run script.value workers) }
    {
        let state = State::new(alloc, script, workers)?;
        Ok(Judge {
            state,
            is_spent: false,
        })
    }

    /// The entries so far are legal. A law that does nothing when it runs.
    pub fn is_legal(&self)
        ensures { Legal self.now.script self.now.workers (past self.now) }
    {
        self.state.log.is_legal();
    }

    /// What the screen shows after the entries so far: the active page where its scrollers stand. None before
    /// the first activation. An error comes if an earlier call was refused memory.
    pub fn shown(&self) -> Result<Option<ScreenState<'_>>, AllocError>
        ensures { IfOk result (IsShownNow self.now.script (past self.now)) }
    {
        if self.is_spent {
            return Err(AllocError);
        }
        Ok(self.state.shown_page())
    }

    /// Enters an entry if it may come next, and answers whether it may. An error means out of memory, and
    /// comes at each later call too.
    pub fn enter(&mut self, entry: &Entry) -> Result<bool, AllocError>
        ensures { IfOk result (JudgesEntry self.old entry.now self.new) }
    {
        if self.is_spent {
            return Err(AllocError);
        }
        match self.state.enter(entry) {
            Ok(yes) => Ok(yes),
            Err(refused) => {
                self.is_spent = true;
                Err(refused)
            }
        }
    }
}
