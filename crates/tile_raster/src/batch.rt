//! Jobs that are run in several threads.

ghost use Rattle.std.specs.Prelude.{◌≡◌, ◌≤◌, All, map, IfOk};
ghost use Rattle.geom.specs.Covers.{IsSound};

use crate::image::TileImage;
use crate::job::Job;
use rayon::prelude::*;
use std::alloc::{AllocError, Global};
use std::sync::Arc;
use std::thread::Threads;

/// Makes the pictures of jobs in at most `workers` parts, 1 to 16, each in a thread of its own; one part is
/// made in the calling thread. The pictures are in the order of the jobs, whatever the number of parts. An
/// error means out of memory. The jobs are given up either way.
pub fn run_all<R: Threads + Sync>(
    rt: &R,
    alloc: Global,
    jobs: Vec<Job>,
    workers: u32,
) -> Result<Vec<Arc<TileImage>>, AllocError>
    requires sound { All (λ job. IsSound job.rect) jobs.items }
    requires workers { (1 ≤ workers) × (workers ≤ 16) }
    ensures { IfOk result (λ images. map (λ i. i.value) images.items ≡ map (λ job. record { key = job.key; rect = job.rect; list = job.list.value }) jobs.items) }
{
    let part = jobs.len().div_ceil(workers as usize);
    jobs.par_iter()
        .with_min_len(part)
        .map(
            |job: &Job| -> Result<Arc<TileImage>, AllocError>
                requires { IsSound job.now.rect }
                ensures { IfOk result (λ image. image.value ≡ record { key = job.now.key; rect = job.now.rect; list = job.now.list.value }) }
            { job.image(alloc) },
        )
        .collect(rt, alloc)?
}
