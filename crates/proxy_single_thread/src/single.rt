//! What a compositor on one thread keeps.

ghost use Rattle.std.specs.Prelude.{◌≡◌, ◌≤◌, ◌-◌, length, IfOk};
ghost use Rattle.impl_log.specs.Kept.{forgettable};
ghost use Rattle.impl_log.specs.Runs.{new_run, past};
ghost use Rattle.impl_core.specs.Replies.{AreUpcoming};
ghost use Rattle.proxy_single_thread.specs.Singles.{AreScenes};

use crate::main_side::MainSide;
use crate::unwritten_scenes::UnwrittenScenes;
use crate::workers::Workers;
use impl_core::Core;
use impl_log::KeptHistory;
use model_history::Script;
use std::alloc::{AllocError, Global};
use std::marker::Model;
use std::mem;
use std::sync::Arc;
use std::thread::Threads;
use tile_raster::Job;
use viz_scene::Scene;

/// Which entries of its history a compositor keeps.
#[derive(Clone, Copy, PartialEq, Eq, Debug)]
pub enum Retention {
    /// All of them.
    All,
    /// The newest: of those that were taken for written, old ones are forgotten.
    Newest,
}

// Lets a core forget old entries, if it is not to keep all.
fn forget_old(core: &mut Core, retention: Retention)
    ensures { core.new ≡ core.old }
{
    if retention == Retention::Newest {
        core.forget();
    }
}

/// A core with its main side and the jobs of its workers, all on one thread.
///
/// Contracts see its run (the script, the number of workers and the entries), and how many of the entries
/// were written.
pub struct SingleThread {
    pub(crate) core: Core,
    pub(crate) main: MainSide,
    pub(crate) workers: Workers,
    pub(crate) shown: UnwrittenScenes,
    retention: Retention,
}

impl Model for SingleThread {
    ghost use Rattle.proxy_single_thread.specs.Singles.{SingleModel};
    ghost use Rattle.proxy_single_thread.specs.inner.Sides.{IsSingle};

    ghost Value = { SingleModel };

    ghost view = { λ t. record { run = t.core; written = t.shown.written } };

    ghost invariant = { λ t. IsSingle t.core t.main t.workers t.shown };
}

// Written out, since a derived drop is proved anew, field by field, in each function that lets one go.
impl Drop for SingleThread {
    fn drop(self) {
        let SingleThread {
            core: _,
            main: _,
            workers: _,
            shown: _,
            retention: _,
        } = self;
    }
}

impl SingleThread {
    /// The compositor of a script with 1 to 16 workers, before anything was entered, which keeps these entries. An
    /// error means out of memory.
    pub fn new(
        alloc: Global,
        script: Arc<Script>,
        workers: u32,
        retention: Retention,
    ) -> Result<SingleThread, AllocError>
        requires { (1 ≤ workers) × (workers ≤ 16) }
        ensures { IfOk result (λ single. single ≡ record { run = new_run script.value workers; written = 0 }) }
    {
        let main = MainSide::new(alloc, Arc::try_clone(&script)?);
        let jobs = Workers::new(alloc, workers)?;
        let core = Core::new(alloc, script, workers)?;
        let shown = UnwrittenScenes::new(alloc);
        Ok(SingleThread {
            core,
            main,
            workers: jobs,
            shown,
            retention,
        })
    }

    /// The core.
    pub fn core(&self) -> &Core
        ensures { result.now ≡ self.now.run }
    {
        &self.core
    }

    /// The number of workers.
    pub fn workers(&self) -> u32
        ensures { result ≡ self.now.run.workers }
    {
        self.core.workers()
    }

    /// The entries, the oldest first. Those since the milestone before the newest one are kept, and so is the newest
    /// entry.
    pub fn history(&self) -> &KeptHistory
        ensures entries { result.now.entries ≡ self.now.run.entries }
        ensures kept { result.now.first ≤ forgettable (past self.now.run) }
        ensures newest { result.now.first ≤ length self.now.run.entries - 1 }
    {
        self.core.history()
    }

    /// How many of the entries were written.
    pub fn written(&self) -> usize
        ensures written { result ≡ self.now.written }
        ensures few { result ≤ length self.now.run.entries }
    {
        self.shown.written
    }

    /// The jobs of the first `most` keys that are to be made, as the core tells them. An error means out of memory.
    pub fn upcoming(&mut self, most: u32) -> Result<Vec<Job>, AllocError>
        ensures upcoming { IfOk result (λ jobs. AreUpcoming self.old.run most jobs.items) }
        ensures same { self.new ≡ self.old }
    {
        self.core.upcoming(most)
    }

    /// Makes the images of the tiles that come next, in as many threads as there are workers. Nothing is entered:
    /// the ends of those tiles use them. An error means out of memory.
    pub fn prepare<R: Threads + Sync>(&mut self, rt: &R) -> Result<(), AllocError>
        ensures { self.new ≡ self.old }
    {
        let alloc = self.workers.alloc;
        self.workers.prepared.prepare(rt, alloc, &mut self.core)
    }

    // There is a worker. A law that does nothing when it runs.
    pub(crate) fn has_worker(&self)
        ensures { 1 ≤ self.now.run.workers }
    {
        self.core.is_legal();
    }

    /// Takes all entries for written, and hands out the scenes of the draws among those that were not, the oldest
    /// first. Old entries may be forgotten. Takes no memory.
    pub fn take_scenes(&mut self) -> Vec<Scene>
        ensures scenes { AreScenes self.old.run.script (length self.old.run.entries - self.old.written) (past self.old.run) result.items }
        ensures taken { self.new ≡ record { run = self.old.run; written = length self.old.run.entries } }
    {
        forget_old(&mut self.core, self.retention);
        self.shown.written = self.core.history().len();
        let none = Vec::new(self.workers.alloc);
        mem::replace(&mut self.shown.scenes, none)
    }
}
