//! The lines of a table of sums.
//!
//! | Line | What it says |
//! |---|---|
//! | `raster: KIND ITEMS TIMES => sum SUM` | what the job of these words makes |
//! | `pairs: COUNT SEED => pairs N; wrong N; shown otherwise N` | how many pairs of random scenes were tried, and in how many of them the damage drawn over the first picture does not give the second, or a painter shows other pictures |

use crate::job::BenchJob;
use crate::pairs;
use crate::run::sum_of;
use std::alloc::Global;
use test_table::{Answer, LineFault, Subject, wholes};

/// What is asked about: nothing that stands above.
#[derive(Drop)]
pub struct Drawings {
    alloc: Global,
}

/// Answers with the sum of the job `raster` of these words.
fn say_sum(alloc: Global, words: &str, answer: &mut Answer) -> Result<(), LineFault> {
    let Some((kind, counts)) = words.split_once(' ') else {
        return Err(LineFault::NoForm);
    };
    let Some((items, times)) = counts.split_once(' ') else {
        return Err(LineFault::NoForm);
    };
    let Some(job) = BenchJob::of_tile(kind, items, times) else {
        return Err(LineFault::NoForm);
    };
    let sum = sum_of(alloc, job)?;
    answer.say("sum", &[i64::try_from(sum).unwrap_or(i64::MAX)]);
    Ok(())
}

/// Answers with what came out of pairs of random scenes.
fn say_pairs(alloc: Global, words: &str, answer: &mut Answer) -> Result<(), LineFault> {
    let [count, seed] = wholes::<2>(words, ' ')?;
    Ok(pairs::say_wrong(alloc, count, seed, answer)?)
}

impl Drawings {
    /// Nothing was drawn.
    pub fn new(alloc: Global) -> Drawings {
        Drawings { alloc }
    }
}

impl Subject for Drawings {
    fn ask(&self, kind: &str, question: &str, answer: &mut Answer) -> Result<(), LineFault> {
        match kind {
            "raster" => say_sum(self.alloc, question, answer),
            "pairs" => say_pairs(self.alloc, question, answer),
            _ => Err(LineFault::NoForm),
        }
    }
}
