//! The object.

ghost use Rattle.std.specs.Prelude.{◌≡◌, ◌≤◌, ◌<◌, ℕ, None, true, length, slice_index_or, IfOk};
ghost use Rattle.page_layers.specs.Axes.{across, down};
ghost use Rattle.model_history.specs.Accepted.{IsPlayable};
ghost use Rattle.model_history.specs.Legal as legal;
ghost use Rattle.model_history.specs.Ranges.{is_in_ranges};
ghost use Rattle.model_history.specs.Values as values;
ghost use Rattle.impl_log.specs.Progress as progress;
ghost use Rattle.impl_log.specs.Runs.{new_run, past};
ghost use Rattle.model_history.specs.Frames.{blank};
ghost use Rattle.cc_live.specs.Lives.{first_script, job_at};

use crate::open_frame::OpenFrame;
use crate::settings::Settings;
use impl_core::Core;
use impl_log::Progress;
use model_history::{Input, Plan, Script, ScriptError, ScriptParts};
use model_states::Synced;
use page_layers::LayerTree;
use std::alloc::{AllocError, Global};
use std::marker::Model;
use std::sync::Arc;
use tile_raster::Job;

/// A compositor that is told inputs and main frames as they come. By its type its history is legal for what was told.
///
/// Contracts see the run so far, the input that waits, if memory was refused before it could be used, the jobs that are
/// out, the main thread's page after the main frames that were answered, and the main frame that is open.
pub struct Live {
    pub(crate) alloc: Global,
    pub(crate) core: Core,
    // The input that was told and is not used yet.
    pub(crate) waits: Option<Input>,
    // For each slot the job that is out.
    pub(crate) jobs: Vec<Option<Job>>,
    // The page after the main frames that were answered, which the last commit shares.
    pub(crate) main: Arc<LayerTree>,
    // The main frame that is open.
    pub(crate) open_frame: Option<OpenFrame>,
}

impl Model for Live {
    ghost use Rattle.cc_live.specs.Lives.{LiveModel, open_of};
    ghost use Rattle.cc_live.specs.inner.Kept.{IsLive, IsMainSide};

    ghost Value = { LiveModel };

    ghost view = { λ l. record { run = l.core; waits = l.waits; jobs = l.jobs.items; main = l.main.value; open_frame = open_of l.open_frame } };

    ghost invariant = { λ l. IsLive l.core l.waits l.jobs.items × IsMainSide l.core l.main.value (open_of l.open_frame) };
}

// Written out, since a derived drop is proved anew, field by field, in each function that lets one go.
impl Drop for Live {
    fn drop(self) {
        let Live {
            alloc: _,
            core: _,
            waits: _,
            jobs: _,
            main: _,
            open_frame: _,
        } = self;
    }
}

// The script before anything was told.
fn first_script_of(alloc: Global, settings: Settings) -> Result<Script, AllocError>
    requires { is_in_ranges (first_script settings) ≡ true }
    ensures { IfOk result (λ script. script ≡ first_script settings) }
{
    let parts = ScriptParts {
        version: 2,
        viewport_w: settings.viewport_w,
        viewport_h: settings.viewport_h,
        tile: settings.tile,
        background: settings.background,
        budget: settings.budget,
        raster_per_frame: 0,
        soon: settings.soon,
        eventually: settings.eventually,
        priority: settings.priority,
        main: Vec::new(alloc),
        inputs: Vec::new(alloc),
    };
    match Script::new(alloc, parts) {
        Ok(script) => Ok(script),
        Err(ScriptError::Memory(refused)) => Err(refused),
        Err(ScriptError::Command { .. }) => unreachable!(),
    }
}

// As many slots, at which no job is out.
fn free_slots(alloc: Global, count: u32) -> Result<Vec<Option<Job>>, AllocError>
    ensures count { IfOk result (λ slots. length slots.items ≡ count) }
    ensures free { IfOk result (λ slots. (w : ℕ) → slice_index_or slots.items w None ≡ None) }
{
    let mut slots = Vec::with_capacity(alloc, count as usize)?;
    for _made in 0..count {
        slots.push(None)?;
    }
    Ok(slots)
}

impl Live {
    /// A compositor of an empty page, which was told nothing. An error means out of memory.
    pub fn new(alloc: Global, settings: Settings) -> Result<Live, AllocError>
        requires ranges { is_in_ranges (first_script settings) ≡ true }
        requires few { settings.workers ≤ 16 }
        ensures run { IfOk result (λ live. live.run ≡ new_run (first_script settings) settings.workers) }
        ensures waits { IfOk result (λ live. live.waits ≡ None) }
        ensures jobs { IfOk result (λ live. (slot : ℕ) → job_at live slot ≡ None) }
        ensures main { IfOk result (λ live. live.main ≡ blank (first_script settings)) }
        ensures open_frame { IfOk result (λ live. live.open_frame ≡ None) }
    {
        let workers = settings.workers;
        let script = first_script_of(alloc, settings)?;
        let main = Arc::new(alloc, script.first_page(alloc))?;
        let core = Core::of_plan(alloc, Plan::of(&script), workers)?;
        let jobs = free_slots(alloc, workers)?;
        Ok(Live {
            alloc,
            core,
            waits: None,
            jobs,
            main,
            open_frame: None,
        })
    }

    /// The history is legal for the script that was told so far, which can be played. A law that does nothing when it
    /// runs.
    pub fn is_legal(&self)
        ensures legal { legal.Legal self.now.run.script self.now.run.workers (past self.now.run) }
        ensures playable { IsPlayable self.now.run.script }
    {
        self.core.is_legal();
    }

    /// How far the run has come: from it a host tells which of its threads has something to do.
    pub fn progress(&self) -> Progress
        ensures { result ≡ progress.progress (past self.now.run) }
    {
        self.core.progress()
    }

    /// The five scroll values of a scroller, along both axes.
    pub fn values(&self, scroller: u32) -> (Synced, Synced)
        ensures x { result.0 ≡ values.values self.now.run.script scroller across (past self.now.run) }
        ensures y { result.1 ≡ values.values self.now.run.script scroller down (past self.now.run) }
    {
        self.core.values(scroller)
    }
}
