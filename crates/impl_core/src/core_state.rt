//! What a core keeps, and what it is asked.

ghost use Rattle.std.specs.Prelude.{◌≡◌, ◌-◌, ◌≤◌, [], length, IfOk, not, ◌&&◌, option_map};
ghost use Rattle.model_states.specs.Kinds.{is_main_idle};
ghost use Rattle.page_layers.specs.Axes.{across, down};
ghost use Rattle.model_history.specs.Accepted.{IsPlayable};
ghost use Rattle.model_history.specs.Frames as frames;
ghost use Rattle.model_history.specs.Legal as legal;
ghost use Rattle.model_history.specs.Ranking.{rank_to_start};
ghost use Rattle.model_history.specs.Scans as scans;
ghost use Rattle.model_history.specs.Values as values;
ghost use Rattle.impl_log.specs.Kept.{forgettable};
ghost use Rattle.impl_log.specs.Progress as progress;
ghost use Rattle.impl_log.specs.Runs.{new_run, past};
ghost use Rattle.tile_queue.specs.Queues.{rank_key};
ghost use Rattle.model_history.specs.Tiles.{tiles_used};
ghost use Rattle.impl_core.specs.Replies as replies;
ghost use Rattle.impl_core.specs.Replies.{next_key, told_frame, is_played};

use crate::drawn::Drawn;
use crate::handed::Handed;
use crate::needs::Needs;
use crate::outlooks::{look, look_for_next};
use geom::TileKey;
use impl_host::ImplHost;
use impl_log::{KeptHistory, Log, Progress};
use impl_tiles::TileManager;
use model_history::{Event, Moves, Plan, Script};
use model_states::{MainState, Synced};
use std::alloc::{AllocError, Global};
use std::marker::Model;
use std::sync::Arc;

/// The state of the compositor side of a run of a script. By its type its history is legal.
///
/// Contracts see the run: the script, the number of workers and the entries, forgotten ones too.
pub struct Core {
    pub(crate) log: Log,
    pub(crate) host: ImplHost,
    pub(crate) tiles: TileManager,
    // The pulls of the frame in flight, while it is sent.
    pub(crate) told: Moves,
    // What the main side handed over for the frame in flight, once that is ready and until its commit is entered.
    pub(crate) prepared: Option<Handed>,
    // The visible keys of the pending tree, which an activation needs.
    pub(crate) required: Needs,
    // What was drawn since the picture may have changed.
    pub(crate) drawn: Drawn,
    pub(crate) alloc: Global,
}

impl Model for Core {
    ghost use Rattle.impl_log.specs.Runs.{Run, past};
    ghost use Rattle.impl_core.specs.inner.Cores.{IsCore};

    ghost Value = { Run };

    ghost view = { λ c. c.log };

    ghost invariant = { λ c. IsCore c.log.script (past c.log) (record { host = c.host; tiles = c.tiles; told = c.told; prepared = c.prepared; required = c.required; drawn = c.drawn }) };
}

// Written out, since a derived drop is proved anew, field by field, in each function that lets one go.
impl Drop for Core {
    fn drop(self) {
        let Core {
            log: _,
            host: _,
            tiles: _,
            told: _,
            prepared: _,
            required: _,
            drawn: _,
            alloc: _,
        } = self;
    }
}

// Whether an event is the end of the run.
fn is_end(event: &Event) -> bool
    ensures { result ≡ replies.is_end event.now }
{
    match event {
        Event::End => true,
        _ => false,
    }
}

// The core of a run in which nothing was entered yet. An error means out of memory.
fn core_of(alloc: Global, log: Log) -> Result<Core, AllocError>
    requires { log.entries ≡ [] }
    ensures { IfOk result (λ core. core ≡ log) }
{
    let tiles = TileManager::new(alloc, log.plan().budget())?;
    Ok(Core {
        log,
        host: ImplHost::new(alloc),
        tiles,
        told: Moves::new(alloc),
        prepared: None,
        required: Needs::new(),
        drawn: Drawn::Nothing,
        alloc,
    })
}

impl Core {
    /// The core of a run of a script in which nothing was entered yet, with up to 16 workers. An error means out of
    /// memory.
    pub fn new(alloc: Global, script: Arc<Script>, workers: u32) -> Result<Core, AllocError>
        requires { workers ≤ 16 }
        ensures { IfOk result (λ core. core ≡ new_run script.value workers) }
    {
        let log = Log::new(alloc, script, workers)?;
        core_of(alloc, log)
    }

    /// The core of a run in which nothing was entered yet, with up to 16 workers. Its script has no inputs yet: they
    /// are told while it is played. An error means out of memory.
    pub fn of_plan(alloc: Global, plan: Plan, workers: u32) -> Result<Core, AllocError>
        requires few { workers ≤ 16 }
        requires untold { plan.inputs ≡ [] }
        ensures { IfOk result (λ core. core ≡ new_run plan workers) }
    {
        let log = Log::of_plan(alloc, plan, workers)?;
        core_of(alloc, log)
    }

    /// The number of workers.
    pub fn workers(&self) -> u32
        ensures { result ≡ self.now.workers }
    {
        self.log.workers()
    }

    /// What is kept of the script.
    pub fn plan(&self) -> &Plan
        ensures { result.now ≡ self.now.script }
    {
        self.log.plan()
    }

    /// The entries, the oldest first. Those since the milestone before the newest one are kept, and so is the newest
    /// entry.
    pub fn history(&self) -> &KeptHistory
        ensures entries { result.now.entries ≡ self.now.entries }
        ensures kept { result.now.first ≤ forgettable (past self.now) }
        ensures newest { result.now.first ≤ length self.now.entries - 1 }
    {
        self.log.history()
    }

    /// Forgets the entries that came before the milestone before the newest one, once these are many. The run stays as
    /// it is.
    pub fn forget(&mut self)
        ensures { self.new ≡ self.old }
    {
        self.log.forget();
    }

    /// The history is legal and the script can be played. A law that does nothing when it runs.
    pub fn is_legal(&self)
        ensures legal { legal.Legal self.now.script self.now.workers (past self.now) }
        ensures playable { IsPlayable self.now.script }
    {
        self.log.is_legal();
    }

    /// Whether an end or a stop was entered.
    pub fn ended(&self) -> bool
        ensures { result ≡ scans.has_ended (past self.now) }
    {
        self.log.progress().has_ended
    }

    /// How far the run has come.
    pub fn progress(&self) -> Progress
        ensures { result ≡ progress.progress (past self.now) }
    {
        self.log.progress()
    }

    /// Whether a main frame is left to be sent.
    pub fn is_left(&self) -> bool
        ensures { result ≡ frames.is_left self.now.script (past self.now) }
    {
        self.log.is_left()
    }

    /// Whether all main frames were sent and have ended.
    pub fn frames_ended(&self) -> bool
        ensures { result ≡ (not (frames.is_left self.now.script (past self.now)) && is_main_idle (legal.sched (past self.now)).main_state) }
    {
        self.log.frames_ended()
    }

    /// The five scroll values of a scroller, along both axes.
    pub fn values(&self, scroller: u32) -> (Synced, Synced)
        ensures x { result.0 ≡ values.values self.now.script scroller across (past self.now) }
        ensures y { result.1 ≡ values.values self.now.script scroller down (past self.now) }
    {
        let row = self.host.standing().row(scroller);
        (row.x, row.y)
    }

    /// Whether the run was played to its end.
    pub fn is_over(&self) -> bool
        ensures { result ≡ is_played self.now.entries }
    {
        let entries = self.log.history();
        let count = entries.len();
        if count == 0 {
            return false;
        }
        let newest = entries.entry(count - 1);
        is_end(&newest.event)
    }

    /// How many tiles there are, ready or in flight; at 0 no key is ready.
    pub fn used(&self) -> u32
        ensures { result ≡ tiles_used self.now.script (past self.now) }
    {
        self.log.is_legal();
        self.tiles.used()
    }

    /// The main frame that was sent and has not ended, with its pulls; None exactly if there is none.
    pub fn in_flight(&self) -> Option<(u32, &Moves)>
        ensures { option_map (λ f. (f.0, f.1.now)) result ≡ told_frame self.now }
    {
        if self.log.progress().sched.main_state == MainState::Sent {
            match self.log.progress().sent {
                None => None,
                Some(frame) => Some((frame, &self.told)),
            }
        } else {
            None
        }
    }

    /// The key that starts next; None exactly if the run has ended or none may start. An error means out
    /// of memory; the run stays in any case.
    pub fn next_start(&mut self) -> Result<Option<TileKey>, AllocError>
        ensures key { IfOk result (λ key. key ≡ next_key self.old) }
        ensures same { self.new ≡ self.old }
    {
        if self.ended() { Ok(None) } else { self.first() }
    }

    /// The key of the tile that is to be made first, whether or not the run has ended; None exactly if none
    /// is to be made or no room can be made for one. An error means out of memory; the run stays in any case.
    pub fn first(&mut self) -> Result<Option<TileKey>, AllocError>
        ensures key { IfOk result (λ key. key ≡ option_map rank_key (rank_to_start self.old.script (past self.old))) }
        ensures same { self.new ≡ self.old }
    {
        self.log.is_legal();
        look_for_next(self.alloc, self.log.plan(), &self.host, &mut self.tiles)?;
        Ok(self.tiles.next_start())
    }

    /// Makes the raster queue if the ranks of all tiles are known, so that the next questions for a key cost less.
    /// An error means out of memory; the run stays in any case.
    pub(crate) fn refresh(&mut self) -> Result<(), AllocError>
        ensures { self.new ≡ self.old }
    {
        self.log.is_legal();
        look_for_next(self.alloc, self.log.plan(), &self.host, &mut self.tiles)?;
        self.tiles.refresh()
    }

    /// Makes the raster queue of all tiles. An error means out of memory; the run stays in any case.
    pub(crate) fn refresh_all(&mut self) -> Result<(), AllocError>
        ensures { self.new ≡ self.old }
    {
        self.log.is_legal();
        look(self.alloc, self.log.plan(), &self.host, &mut self.tiles)?;
        self.tiles.refresh()
    }
}
