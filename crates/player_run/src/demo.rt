//! The script of a number, played in lockstep, and the line that sums up its recording.

ghost use Rattle.std.specs.Prelude.{◌≤◌, IfSome};
ghost use Rattle.script_generator.specs.Generated.{script_of_number as numbered_script};
ghost use Rattle.player_uses.specs.Faults.{Causes};
ghost use Rattle.player_uses.specs.Outputs.{WritesSome};
ghost use Rattle.player_run.specs.Runs.{IsDemoOf};
ghost use Rattle.player_run.specs.inner.Summaries.{IsDemoSummary};

use byte_io::{Sink, SumSink};
use model_history::Script;
use player_lockstep::{Retention, record_lockstep};
use player_uses::{Outcome, Summary, put_summary, summary_of};
use script_generator::script_of_number;
use std::alloc::Global;
use std::sync::Arc;
use std::thread::Threads;

// Plays a script and counts what its recording holds; None if there is no memory.
fn play_summed<R: Threads + Sync>(rt: &R, alloc: Global, script: Arc<Script>) -> Option<Summary>
    ensures { IfSome result (IsDemoSummary script.value) }
{
    let mut sink = SumSink::new();
    match record_lockstep(rt, alloc, script, 1, Retention::All, &mut sink) {
        Ok(run) => summary_of(run.history(), &sink),
        Err(_) => None,
    }
}

// Plays the script of a number and counts what its recording holds; None if there is no memory.
fn demo_of<R: Threads + Sync>(rt: &R, alloc: Global, number: u64) -> Option<Summary>
    ensures { IfSome result (IsDemoSummary (numbered_script number)) }
{
    let script = script_of_number(alloc, number).ok()?;
    let shared = Arc::new(alloc, script).ok()?;
    play_summed(rt, alloc, shared)
}

/// Plays the script of a number and writes the line that sums up its recording. No byte of the recording
/// is kept.
pub fn run_demo<R: Threads + Sync, K: Sink>(
    rt: &R,
    alloc: Global,
    number: u64,
    out: &mut K,
) -> Outcome
    ensures output { WritesSome (IsDemoOf (numbered_script number)) (K.held out.old) (K.held out.new) result }
    ensures grows { K.faults out.old ≤ K.faults out.new }
    ensures cause { Causes 0 0 (K.faults out.old) (K.faults out.new) result }
{
    match demo_of(rt, alloc, number) {
        Some(summary) => put_summary(out, summary),
        None => Outcome::Memory,
    }
}
