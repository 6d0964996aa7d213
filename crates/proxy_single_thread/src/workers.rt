//! The jobs of the workers of a core on the same thread.

ghost use Rattle.std.specs.Prelude.{◌+◌, ◌<◌, IfOk};
ghost use Rattle.model_states.specs.declared.kind.Kind.TheVariants as kind;
ghost use Rattle.model_history.specs.Scripts.{ScriptModel};
ghost use Rattle.impl_log.specs.Runs.{new_run};
ghost use Rattle.proxy_single_thread.specs.Singles.{SingleEnters};
ghost use Rattle.proxy_single_thread.specs.inner.Sides.{AreWorkers};

use crate::prepared::Prepared;
use impl_core::Core;
use model_lockstep::EnterFault;
use std::alloc::{AllocError, Global};
use tile_raster::Job;

/// The job that each worker holds, and the images that were made ahead.
pub(crate) struct Workers {
    pub(crate) alloc: Global,
    pub(crate) jobs: Vec<Option<Job>>,
    pub(crate) prepared: Prepared,
}

// Written out, since a derived drop is proved anew, field by field, in each function that lets one go.
impl Drop for Workers {
    fn drop(self) {
        let Workers {
            alloc: _,
            jobs: _,
            prepared: _,
        } = self;
    }
}

impl Workers {
    /// The given number of workers, which hold nothing. An error means out of memory.
    pub(crate) fn new(alloc: Global, count: u32) -> Result<Workers, AllocError>
        ensures { IfOk result (λ workers. (s : ScriptModel) → AreWorkers (new_run s count) workers) }
    {
        let mut jobs = Vec::with_capacity(alloc, count as usize)?;
        for _made in 0..count {
            jobs.push(None)?;
        }
        let prepared = Prepared::new(alloc);
        Ok(Workers {
            alloc,
            jobs,
            prepared,
        })
    }

    /// A worker starts the next tile, if it holds nothing and one may start.
    pub(crate) fn start(&mut self, core: &mut Core, worker: u32) -> Result<(), EnterFault>
        requires worker { worker < core.old.workers }
        requires stands { AreWorkers core.old self.old }
        ensures stands { AreWorkers core.new self.new }
        ensures answer { SingleEnters core.old kind.Start (2 + worker) core.new result }
    {
        let place = worker as usize;
        if self.jobs[place].is_some() {
            return Err(EnterFault::NotNow);
        }
        match core.start(worker) {
            Ok(Some(job)) => {
                self.jobs[place] = Some(job);
                self.prepared.count_start();
                Ok(())
            }
            Ok(None) => Err(EnterFault::NotNow),
            Err(refused) => Err(EnterFault::Memory(refused)),
        }
    }

    /// A worker makes the tile that it holds, if it holds one, and is done with it.
    pub(crate) fn done(&mut self, core: &mut Core, worker: u32) -> Result<(), EnterFault>
        requires worker { worker < core.old.workers }
        requires stands { AreWorkers core.old self.old }
        ensures stands { AreWorkers core.new self.new }
        ensures answer { SingleEnters core.old kind.Done (2 + worker) core.new result }
    {
        if core.ended() {
            return Err(EnterFault::NotNow);
        }
        let place = worker as usize;
        let Some(job) = self.jobs[place].take() else {
            return Err(EnterFault::NotNow);
        };
        match self.prepared.image_of(self.alloc, job) {
            Ok(image) => {
                core.done(worker, image);
                Ok(())
            }
            Err((refused, job)) => {
                self.jobs[place] = Some(job);
                Err(EnterFault::Memory(refused))
            }
        }
    }
}
