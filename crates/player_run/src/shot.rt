//! A script of the source, played in lockstep, of which the last picture is written as a PNG file.

ghost use Rattle.std.specs.Prelude.{◌≤◌, Ok};
ghost use Rattle.player_uses.specs.Faults.{Causes};
ghost use Rattle.player_run.specs.Ran.{Did};
ghost use Rattle.player_run.specs.inner.Shots.{Shoots};

use byte_io::{Sink, Source};
use model_history::Script;
use player_lockstep::shoot;
use player_uses::{Outcome, Use, put_file, read_shot_from};
use std::alloc::Global;
use std::sync::Arc;
use std::thread::Threads;

// Plays a script in lockstep with the given number of raster workers, and writes the file of its last picture.
#[tactic(auto, using(crate::proofs::Pictures::file_shot, crate::proofs::Pictures::no_shot))]
fn shoot_script<R: Threads + Sync, K: Sink>(
    rt: &R,
    alloc: Global,
    script: Arc<Script>,
    workers: u32,
    out: &mut K,
) -> Outcome
    requires { (1 ≤ workers) × (workers ≤ 16) }
    ensures shoots { Shoots script.value (K.held out.old) (K.held out.new) result }
    ensures grows { K.faults out.old ≤ K.faults out.new }
    ensures cause { Causes 0 0 (K.faults out.old) (K.faults out.new) result }
{
    match shoot(rt, alloc, script, workers) {
        Ok(Some(file)) => put_file(file.as_slice(), out),
        Ok(None) => Outcome::NoPicture,
        Err(_) => Outcome::Memory,
    }
}

/// Plays the script of the source in lockstep with the given number of raster workers, and writes the file of its
/// last picture. If it has no inputs, it is asked for the picture of its page.
pub(crate) fn run_shot<R: Threads + Sync, S: Source, K: Sink>(
    rt: &R,
    alloc: Global,
    workers: u32,
    source: &mut S,
    out: &mut K,
) -> Outcome
    requires { (1 ≤ workers) × (workers ≤ 16) }
    ensures { Did S.Source K.Sink (Ok (Use.Shot workers)) source.old source.new out.old out.new result }
{
    match read_shot_from(alloc, source) {
        Ok(script) => shoot_script(rt, alloc, script, workers, out),
        Err(outcome) => outcome,
    }
}
