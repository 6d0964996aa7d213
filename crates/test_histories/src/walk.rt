//! One walk through a history.

ghost use Rattle.std.specs.Prelude.{◌≡◌, ◌-◌, ◌≤◌, ◌∷◌, ◌++◌, [], length, List, IfOk};
ghost use Rattle.std.specs.Bool.{Decides};
ghost use Rattle.model_history.specs.declared.history.Entry.{Entry};
ghost use Rattle.model_history.specs.Legal.{Legal};
ghost use Rattle.impl_log.specs.Runs.{new_run, past};
ghost use Rattle.proxy_single_thread.specs.Singles.{HasKind};
ghost use Rattle.test_histories.specs.Walks.{EndsAt, WalkTakes};

use crate::asked::answer;
use crate::fault::HistoryLineFault;
use impl_log::{KeptHistory, kind_of};
use model_history::{Entry, Event, Script};
use model_lockstep::EnterFault;
use model_states::Kind;
use proxy_single_thread::{Retention, SingleThread};
use recording_judge::same_event;
use std::alloc::{AllocError, Global};
use std::sync::Arc;

// Whether an actor has events of this kind, if there are that many workers.
fn has_kind(kind: Kind, actor: u32, workers: u32) -> bool
    ensures { Decides result (HasKind workers kind actor) }
{
    let (actor, workers) = (actor as u64, workers as u64);
    match kind {
        Kind::Ready | Kind::Abort => actor == 1,
        Kind::Start | Kind::Done => actor >= 2 && actor < workers + 2,
        Kind::Stop => actor < workers + 2,
        _ => actor == 0,
    }
}

// Whether the newest entry of a history, which is kept, is of this event.
fn is_newest(history: &KeptHistory, event: &Event) -> bool
    requires { history.now.first ≤ length history.now.entries - 1 }
    ensures { (before : List Entry) (newest : Entry) → history.now.entries ≡ before ++ newest ∷ [] → Decides result (newest.event ≡ event.now) }
{
    let count = history.len();
    if count == 0 {
        return false;
    }
    let newest = history.entry(count - 1);
    same_event(&newest.event, event)
}

// Asks for the event of an entry's kind and actor, and answers whether that is the entry's.
fn takes(run: &mut SingleThread, entry: &Entry) -> Result<bool, AllocError>
    ensures { IfOk result (λ yes. WalkTakes run.old.run entry.now run.new.run yes) }
{
    let kind = kind_of(&entry.event);
    if !has_kind(kind, entry.actor, run.workers()) {
        return Ok(false);
    }
    match run.enter(kind, entry.actor) {
        Ok(()) => Ok(is_newest(run.history(), &entry.event)),
        Err(EnterFault::NotNow) => Ok(false),
        Err(EnterFault::Memory(refused)) => Err(refused),
    }
}

// The history of a run is legal. A law that does nothing when it runs.
fn is_legal(run: &SingleThread)
    ensures { Legal run.now.run.script run.now.run.workers (past run.now.run) }
{
    run.core().is_legal();
}

// The place of the first entry that a run does not take; None if it takes them all.
fn stops_in(run: &mut SingleThread, entries: &[Entry]) -> Result<Option<usize>, HistoryLineFault>
    requires { run.old.run.entries ≡ [] }
    ensures { IfOk result (λ place. EndsAt run.old.run.script run.old.run.workers entries.now place) }
{
    for place in 0..entries.len() {
        is_legal(run);
        match takes(run, &entries[place]) {
            Ok(true) => {}
            Ok(false) => return Ok(Some(place)),
            Err(refused) => return Err(HistoryLineFault::Memory(refused)),
        }
    }
    is_legal(run);
    Ok(None)
}

// Gives a run up. In a function of its own, since the drop of a compositor is proved anew in each function that lets one go.
fn give_up(run: SingleThread) {
    drop(run);
}

// The same, and gives the run up.
fn walk_through(run: SingleThread, entries: &[Entry]) -> Result<Option<usize>, HistoryLineFault>
    requires { run.run.entries ≡ [] }
    ensures { IfOk result (λ place. EndsAt run.run.script run.run.workers entries.now place) }
{
    let mut run = run;
    let place = stops_in(&mut run, entries);
    give_up(run);
    place
}

// A run that has not begun, for 1 to 16 workers.
fn begin(alloc: Global, script: Arc<Script>, workers: u32) -> Result<SingleThread, HistoryLineFault>
    ensures { IfOk result (λ run. run.run ≡ new_run script.value workers) }
{
    if workers < 1 || workers > 16 {
        return Err(HistoryLineFault::NoWorkers);
    }
    SingleThread::new(alloc, script, workers, Retention::All).map_err(HistoryLineFault::Memory)
}

/// The place of the first entry of a history that may not come after those before it, in a run with 1 to 16
/// workers; None if the history is legal. A compositor on one thread is asked for each entry's event. An
/// error means out of memory, or another number of workers.
pub fn stops_at(
    alloc: Global,
    script: Arc<Script>,
    workers: u32,
    entries: &[Entry],
) -> Result<Option<usize>, HistoryLineFault>
    ensures { IfOk result (λ place. EndsAt script.value workers entries.now place) }
{
    let run = begin(alloc, script, workers)?;
    walk_through(run, entries)
}

/// What a compositor answers to a question after all entries of a history. An error means out of memory, another
/// number of workers than 1 to 16, an entry that may not come, or a question that is none.
pub fn asked_after(
    alloc: Global,
    script: Arc<Script>,
    workers: u32,
    entries: &[Entry],
    question: &str,
) -> Result<String, HistoryLineFault> {
    let mut run = begin(alloc, script, workers)?;
    let told = match stops_in(&mut run, entries) {
        Ok(None) => answer(alloc, &mut run, question),
        Ok(Some(_)) => Err(HistoryLineFault::Stopped),
        Err(fault) => Err(fault),
    };
    give_up(run);
    told
}
