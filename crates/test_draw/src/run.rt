//! The job that words name.

ghost use Rattle.test_draw.specs.Jobs.{IsSmallJob};

use crate::job::BenchJob;
use crate::{redraws, rows, scenes, tiles};
use std::alloc::{AllocError, Global};
use std::io;

/// Does a job, and gives the sum of the bytes that it made.
pub(crate) fn sum_of(alloc: Global, job: BenchJob) -> Result<u64, AllocError>
    requires { IsSmallJob job }
{
    match job {
        BenchJob::Over { pixels, times } => rows::over(alloc, pixels, times),
        BenchJob::Scale { pixels, times } => rows::scale(alloc, pixels, times),
        BenchJob::Fill { pixels, times } => rows::fill(alloc, pixels, times),
        BenchJob::Scene {
            in_groups,
            items,
            layers,
            times,
        } => scenes::draw(alloc, in_groups, items, layers, times),
        BenchJob::Raster { kind, items, times } => tiles::raster(alloc, kind, items, times),
    }
}

/// Does the job that the words name and prints what came out. Answers whether they name one.
pub fn run_job(rt: &HostRuntime, words: &[String]) -> io::Result<bool> {
    if redraws::run(rt, words)? {
        return Ok(true);
    }
    let Some(job) = BenchJob::of_words(words) else {
        return Ok(false);
    };
    let sum = sum_of(rt.alloc(), job)?;
    println!(rt; "{sum}")?;
    Ok(true)
}
