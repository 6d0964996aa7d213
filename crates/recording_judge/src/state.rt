//! The state of a run.

ghost use Rattle.std.specs.Prelude.{◌≡◌, ◌≤◌, IfOk};
ghost use Rattle.impl_log.specs.Runs.{new_run, past};
ghost use Rattle.recording_judge.specs.Judging.{IsShownNow};
ghost use Rattle.recording_judge.specs.inner.States.{IsState};

use crate::judged_main::JudgedMain;
use crate::screen_state::ScreenState;
use crate::tile_keys::TileKeys;
use impl_host::ImplHost;
use impl_log::Log;
use model_history::Script;
use std::alloc::{AllocError, Global};
use std::sync::Arc;

/// The state of a run: its history with how far it has come, the trees and where their scrollers stand, its
/// tiles as keys, and the main side.
///
/// Contracts say when its parts are those of its run: `IsState`.
pub(crate) struct State {
    pub(crate) log: Log,
    pub(crate) host: ImplHost,
    pub(crate) tiles: TileKeys,
    pub(crate) main: JudgedMain,
    pub(crate) alloc: Global,
}

impl Drop for State {
    fn drop(self) {
        let State {
            log: _,
            host: _,
            tiles: _,
            main: _,
            alloc: _,
        } = self;
    }
}

impl State {
    /// The state of a run in which nothing has come yet, with up to 16 workers. An error means out of memory.
    pub(crate) fn new(alloc: Global, script: Arc<Script>, workers: u32) -> Result<State, AllocError>
        requires { workers ≤ 16 }
        ensures run { IfOk result (λ state. state.log ≡ new_run script.value workers) }
        ensures state { IfOk result IsState }
    {
        let main = JudgedMain::new(alloc, Arc::try_clone(&script)?);
        let tiles = TileKeys::new(alloc, workers)?;
        let log = Log::new(alloc, script, workers)?;
        Ok(State {
            log,
            host: ImplHost::new(alloc),
            tiles,
            main,
            alloc,
        })
    }

    /// What the screen shows: the active page where its scrollers stand. None before the first activation.
    pub(crate) fn shown_page(&self) -> Option<ScreenState<'_>>
        requires { IsState self.now }
        ensures { IsShownNow self.now.log.script (past self.now.log) result }
    {
        match self.host.pages().active {
            None => None,
            Some(page) => Some(ScreenState {
                page,
                offsets: self.host.standing().active(),
                background: self.log.plan().background(),
            }),
        }
    }
}
