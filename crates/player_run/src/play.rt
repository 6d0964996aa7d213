//! A script of the source, played by actors on threads.

ghost use Rattle.std.specs.Prelude.{◌≡◌, ◌≤◌, [], Ok, IfOk, IfSome, MatchOption};
ghost use Rattle.thread_pieces.specs.Ring.{OneRing, bytes_taken, whole};
ghost use Rattle.model_history.specs.Recordings.{header};
ghost use Rattle.script_json.specs.Recordings.{script_text};
ghost use Rattle.player_uses.specs.Faults.{Causes};
ghost use Rattle.player_uses.specs.Outputs.{WritesOrBegins};
ghost use Rattle.player_run.specs.Ran.{Did};
ghost use Rattle.player_run.specs.Runs.{IsPlayOf, IsPlayUpTo};

use crate::crew::crew_of;
use crate::step::play_lockstep;
use crate::threads::run_crew;
use byte_io::{Gate, Sink, Source};
use model_history::Script;
use player_uses::{Outcome, Use, read_script_from};
use recording_writer::header_of;
use script_json::print_script;
use std::alloc::{AllocError, Global};
use std::marker::Send;
use std::sync::{Arc, Wait};
use std::thread::Threads;
use thread_pieces::{Presenter, RingSink, ring};

// A ring that has the two lines before the events of a script.
fn ring_of(alloc: Global, script: &Script) -> Result<(RingSink, Presenter), AllocError>
    ensures ring { IfOk result (λ ends. OneRing ends.0 ends.1) }
    ensures lines { IfOk result (λ ends. whole ends.0 ≡ header (script_text script.now)) }
    ensures none { IfOk result (λ ends. bytes_taken ends.1 ≡ []) }
{
    let text = print_script(alloc, script)?;
    let header = header_of(alloc, text.as_slice())?;
    let (mut sink, presenter) = ring(alloc)?;
    match sink.put(header.as_slice()) {
        Ok(()) => Ok((sink, presenter)),
        Err(_) => Err(AllocError),
    }
}

// Plays a script by actors on threads. An answer of None is that they could not be started, and nothing was
// written.
fn play_threads<R: Threads + Wait + Sync, G: Gate + Sync, K: Sink + Send>(
    rt: &R,
    alloc: Global,
    script: &Arc<Script>,
    workers: u32,
    gate: &G,
    out: &mut K,
) -> Option<Outcome>
    requires { workers ≤ 16 }
    ensures plays { MatchOption result (out.new ≡ out.old) (WritesOrBegins (IsPlayOf workers script.now.value) (IsPlayUpTo workers script.now.value) (K.held out.old) (K.held out.new)) }
    ensures grows { K.faults out.old ≤ K.faults out.new }
    ensures cause { IfSome result (λ outcome. Causes 0 0 (K.faults out.old) (K.faults out.new) outcome) }
{
    let Ok(ends) = ring_of(alloc, script) else {
        return None;
    };
    script.is_accepted();
    let crew = crew_of(rt, alloc, script, workers, gate)?;
    run_crew(rt, alloc, crew, ends, out)
}

// Plays a script by actors on threads, or if they cannot be started, in lockstep.
#[tactic(auto, using(crate::proofs::PlayedRuns::lockstep_plays))]
fn play<R: Threads + Wait + Sync, K: Sink + Send, G: Gate + Sync>(
    rt: &R,
    alloc: Global,
    script: Arc<Script>,
    workers: u32,
    out: &mut K,
    gate: &G,
) -> Outcome
    requires { (1 ≤ workers) × (workers ≤ 16) }
    ensures plays { WritesOrBegins (IsPlayOf workers script.value) (IsPlayUpTo workers script.value) (K.held out.old) (K.held out.new) result }
    ensures grows { K.faults out.old ≤ K.faults out.new }
    ensures cause { Causes 0 0 (K.faults out.old) (K.faults out.new) result }
{
    match play_threads(rt, alloc, &script, workers, gate, out) {
        Some(outcome) => outcome,
        None => play_lockstep(rt, alloc, script, workers, out),
    }
}

/// Plays the script of the source by actors on threads, the given number of raster workers among them, and
/// writes its recording.
pub(crate) fn run_play<R: Threads + Wait + Sync, S: Source, K: Sink + Send, G: Gate + Sync>(
    rt: &R,
    alloc: Global,
    workers: u32,
    source: &mut S,
    out: &mut K,
    gate: &G,
) -> Outcome
    requires { (1 ≤ workers) × (workers ≤ 16) }
    ensures { Did S.Source K.Sink (Ok (Use.Play workers)) source.old source.new out.old out.new result }
{
    match read_script_from(alloc, source) {
        Ok(script) => play(rt, alloc, script, workers, out, gate),
        Err(outcome) => outcome,
    }
}
