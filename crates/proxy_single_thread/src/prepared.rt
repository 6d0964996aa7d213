//! Images that are made ahead, in several threads, before their tiles start.

ghost use Rattle.std.specs.Prelude.{◌≡◌, ◌≤◌, ◌*◌, [], IfOk, IfErr, IfSome};
ghost use Rattle.geom.specs.Covers.{IsSound};
ghost use Rattle.model_history.specs.Scripts.{ScriptModel};
ghost use Rattle.model_steps.specs.ShownKeys.{KeyShows};
ghost use Rattle.proxy_single_thread.specs.inner.Images.{ArePrepared, IsOfKey, ShowsItsKey};

use geom::TileKey;
use impl_core::Core;
use model_states::{Begun, Kind};
use std::alloc::{AllocError, Global};
use std::sync::Arc;
use std::thread::Threads;
use tile_raster::{Job, TileImage, run_all};

/// How many pixels a thread of its own has to make at least: fewer are made before it has started.
const LEAST_PIXELS: usize = 131072;

// How many pixels the images of some jobs have.
fn pixels_of(jobs: &[Job]) -> usize {
    let mut pixels: usize = 0;
    for job in jobs {
        let size = job.rect.w.saturating_mul(job.rect.h);
        pixels = pixels.saturating_add(size.max(0) as usize);
    }
    pixels
}

// In how many parts the images of some jobs are made: as many as there are workers, if each is worth a thread.
fn parts_of(jobs: &[Job], workers: u32) -> u32
    requires { (1 ≤ workers) × (workers ≤ 16) }
    ensures { (1 ≤ result) × (result ≤ 16) }
{
    let worth = pixels_of(jobs) / LEAST_PIXELS;
    worth.clamp(1, workers as usize) as u32
}

/// The images of tiles that come next.
#[derive(Drop)]
pub(crate) struct Prepared {
    pub(crate) images: Vec<Arc<TileImage>>,
    /// How many tiles the draw that was begun last may still start.
    pub(crate) left: u32,
}

impl Prepared {
    /// Nothing was made ahead.
    pub(crate) fn new(alloc: Global) -> Prepared
        ensures { result.images.items ≡ [] }
    {
        Prepared {
            images: Vec::new(alloc),
            left: 0,
        }
    }

    // Where the image of a key stands.
    fn place_of(&self, key: TileKey) -> Option<usize>
        ensures { IfSome result (IsOfKey key self.now.images.items) }
    {
        for place in 0..self.images.len() {
            if self.images[place].key() == key {
                return Some(place);
            }
        }
        None
    }

    /// The image of a job: the one that was made ahead for its key, or else the one that it makes. An error
    /// means out of memory, and gives the job back.
    pub(crate) fn image_of(
        &mut self,
        alloc: Global,
        job: Job,
    ) -> Result<Arc<TileImage>, (AllocError, Job)>
        requires { IsSound job.rect }
        ensures key { IfOk result (λ image. image.value.key ≡ job.key) }
        ensures shows { (s : ScriptModel) → ArePrepared s self.old.images.items → KeyShows s job.key job.rect job.list.value → IfOk result (ShowsItsKey s) }
        ensures stands { (s : ScriptModel) → ArePrepared s self.old.images.items → ArePrepared s self.new.images.items }
        ensures err { IfErr result (λ e. e.1 ≡ job) }
    {
        match self.place_of(job.key) {
            Some(place) => Ok(self.images.remove(place)),
            None => job.run(alloc),
        }
    }

    /// A tile has started.
    pub(crate) fn count_start(&mut self)
        ensures { self.new.images ≡ self.old.images }
    {
        self.left = self.left.saturating_sub(1);
    }

    /// After an event of the compositor itself: a commit and an activation change what comes next, so the images
    /// are dropped; and a draw may start the given number of tiles.
    pub(crate) fn follow(&mut self, kind: Kind, raster_per_frame: u32)
        ensures { (s : ScriptModel) → ArePrepared s self.old.images.items → ArePrepared s self.new.images.items }
    {
        match kind {
            Kind::Commit | Kind::Activate => self.images.clear(),
            Kind::BeginDraw => self.left = raster_per_frame,
            _ => {}
        }
    }

    // How many images are worth to be made ahead: four for each worker, but no more than are sure to be asked
    // for. A draw starts at most the given number of tiles, what the budget has no room for may never start,
    // and an activation waits for no more than it needs: there it is one for each worker.
    fn most(&self, core: &Core) -> u32
        requires { core.now.workers ≤ 16 }
    {
        let workers = core.workers();
        let progress = core.progress();
        let room = core.plan().budget().saturating_sub(core.used());
        let fitting = room.clamp(workers, 4 * workers);
        if progress.sched.begun == Begun::ForDraw {
            fitting.min(self.left)
        } else if progress.pending.is_some() {
            workers
        } else {
            fitting
        }
    }

    /// Makes the images of the tiles that come next, in at most as many parts as there are workers, if that of the
    /// next one was not made. A single worker makes each image when its end is asked for: nothing is made ahead. An
    /// error means out of memory, and the images are as they were.
    pub(crate) fn prepare<R: Threads + Sync>(
        &mut self,
        rt: &R,
        alloc: Global,
        core: &mut Core,
    ) -> Result<(), AllocError>
        requires workers { (1 ≤ core.old.workers) × (core.old.workers ≤ 16) }
        requires stands { ArePrepared core.old.script self.old.images.items }
        ensures stands { ArePrepared core.old.script self.new.images.items }
        ensures same { core.new ≡ core.old }
    {
        if core.workers() == 1 {
            return Ok(());
        }
        let Some(key) = core.next_start()? else {
            return Ok(());
        };
        if self.place_of(key).is_some() {
            return Ok(());
        }
        let jobs = core.upcoming(self.most(core))?;
        let parts = parts_of(jobs.as_slice(), core.workers());
        self.images = run_all(rt, alloc, jobs, parts)?;
        Ok(())
    }
}
