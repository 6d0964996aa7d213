//! Where a judge lets a history go no further.

ghost use Rattle.std.specs.Prelude.{◌≡◌, [], IfOk};
ghost use Rattle.test_histories.specs.Walks.{EndsAt};

use crate::fault::HistoryLineFault;
use model_history::{Entry, Script};
use recording_judge::Judge;
use std::alloc::{AllocError, Global};
use std::sync::Arc;

// The place of the first entry that a judge does not enter; None if it enters them all.
fn refused_in(judge: &mut Judge, entries: &[Entry]) -> Result<Option<usize>, AllocError>
    requires { judge.old.entries ≡ [] }
    ensures { IfOk result (λ place. EndsAt judge.old.script judge.old.workers entries.now place) }
{
    for place in 0..entries.len() {
        judge.is_legal();
        match judge.enter(&entries[place]) {
            Ok(true) => {}
            Ok(false) => return Ok(Some(place)),
            Err(refused) => return Err(refused),
        }
    }
    judge.is_legal();
    Ok(None)
}

/// The place of the first entry of a history that may not come after those before it, in a run with 1 to 16
/// workers; None if the history is legal. A judge is asked about each entry. An error means out of memory, or
/// another number of workers.
pub fn judged_at(
    alloc: Global,
    script: Arc<Script>,
    workers: u32,
    entries: &[Entry],
) -> Result<Option<usize>, HistoryLineFault>
    ensures { IfOk result (λ place. EndsAt script.value workers entries.now place) }
{
    if workers < 1 || workers > 16 {
        return Err(HistoryLineFault::NoWorkers);
    }
    let mut judge = Judge::new(alloc, script, workers).map_err(HistoryLineFault::Memory)?;
    let place = refused_in(&mut judge, entries).map_err(HistoryLineFault::Memory)?;
    Ok(place)
}
