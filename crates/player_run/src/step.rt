//! A script of the source, played in lockstep.

ghost use Rattle.std.specs.Prelude.{◌≡◌, ◌≤◌, Ok};
ghost use Rattle.player_uses.specs.Faults.{Causes};
ghost use Rattle.player_uses.specs.Outputs.{WritesSome};
ghost use Rattle.player_run.specs.Ran.{Did};
ghost use Rattle.player_run.specs.Runs.{IsRunOf};

use byte_io::{Sink, Source};
use model_history::Script;
use player_lockstep::{Recorded, Retention, record_lockstep};
use player_uses::{Outcome, Use, read_script_from};
use std::alloc::Global;
use std::sync::Arc;
use std::thread::Threads;

// All was done with a run, which is given up.
fn done_with(_run: Recorded) -> Outcome
    ensures { result ≡ Outcome.Done }
{
    Outcome::Done
}

/// Plays a script in lockstep with the given number of raster workers, and writes its recording.
pub(crate) fn play_lockstep<R: Threads + Sync, K: Sink>(
    rt: &R,
    alloc: Global,
    script: Arc<Script>,
    workers: u32,
    out: &mut K,
) -> Outcome
    requires { (1 ≤ workers) × (workers ≤ 16) }
    ensures plays { WritesSome (IsRunOf workers script.value) (K.held out.old) (K.held out.new) result }
    ensures grows { K.faults out.old ≤ K.faults out.new }
    ensures cause { Causes 0 0 (K.faults out.old) (K.faults out.new) result }
{
    script.is_accepted();
    match record_lockstep(rt, alloc, script, workers, Retention::Newest, out) {
        Ok(run) => done_with(run),
        Err(fault) => Outcome::from(fault),
    }
}

/// Plays the script of the source in lockstep with the given number of raster workers, and writes its recording.
pub(crate) fn run_step<R: Threads + Sync, S: Source, K: Sink>(
    rt: &R,
    alloc: Global,
    workers: u32,
    source: &mut S,
    out: &mut K,
) -> Outcome
    requires { (1 ≤ workers) × (workers ≤ 16) }
    ensures { Did S.Source K.Sink (Ok (Use.Step workers)) source.old source.new out.old out.new result }
{
    match read_script_from(alloc, source) {
        Ok(script) => play_lockstep(rt, alloc, script, workers, out),
        Err(outcome) => outcome,
    }
}
