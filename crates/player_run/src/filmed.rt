//! A script of the source, played in lockstep, of which the images alone are written.

ghost use Rattle.std.specs.Prelude.{◌≤◌, Ok};
ghost use Rattle.player_lockstep.specs.Films.{IsLockstepFilm};
ghost use Rattle.player_uses.specs.Faults.{Causes};
ghost use Rattle.player_uses.specs.Outputs.{WritesSome};
ghost use Rattle.player_run.specs.Ran.{Did};

use byte_io::{Sink, Source};
use model_history::Script;
use player_lockstep::film_lockstep;
use player_uses::{Outcome, Use, read_script_from};
use std::alloc::Global;
use std::sync::Arc;
use std::thread::Threads;

// Plays a script in lockstep with the given number of raster workers, and writes its images.
fn film<R: Threads + Sync, K: Sink>(
    rt: &R,
    alloc: Global,
    script: Arc<Script>,
    workers: u32,
    out: &mut K,
) -> Outcome
    requires { (1 ≤ workers) × (workers ≤ 16) }
    ensures films { WritesSome (IsLockstepFilm script.value) (K.held out.old) (K.held out.new) result }
    ensures grows { K.faults out.old ≤ K.faults out.new }
    ensures cause { Causes 0 0 (K.faults out.old) (K.faults out.new) result }
{
    match film_lockstep(rt, alloc, script, workers, out) {
        Ok(()) => Outcome::Done,
        Err(fault) => Outcome::from(fault),
    }
}

/// Plays the script of the source in lockstep with the given number of raster workers, and writes its images.
pub(crate) fn run_film<R: Threads + Sync, S: Source, K: Sink>(
    rt: &R,
    alloc: Global,
    workers: u32,
    source: &mut S,
    out: &mut K,
) -> Outcome
    requires { (1 ≤ workers) × (workers ≤ 16) }
    ensures { Did S.Source K.Sink (Ok (Use.Film workers)) source.old source.new out.old out.new result }
{
    match read_script_from(alloc, source) {
        Ok(script) => film(rt, alloc, script, workers, out),
        Err(outcome) => outcome,
    }
}
