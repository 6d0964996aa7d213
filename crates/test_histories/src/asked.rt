//! What a compositor tells between two entries of a history.

use crate::fault::HistoryLineFault;
use geom::TileKey;
use impl_core::Core;
use model_states::Synced;
use proxy_single_thread::SingleThread;
use std::alloc::{AllocError, Global};

// A tile's key after a blank: its layer, its place and its stamp.
fn key_text(alloc: Global, key: TileKey) -> Result<String, AllocError> {
    format!(in alloc; " {}/{}/{}/{}", key.layer, key.x, key.y, key.stamp)
}

// The keys of the jobs that come next, at most the given number, after a blank each.
fn upcoming_text(
    alloc: Global,
    run: &mut SingleThread,
    most: u32,
) -> Result<String, HistoryLineFault> {
    let mut text = String::new(alloc);
    for job in run.upcoming(most)?.as_slice() {
        text.push_str(key_text(alloc, job.key)?.as_str())?;
    }
    Ok(text)
}

// The five values of a scroller along an axis after a blank: the active base and delta, the pending base, and what
// of the delta the main frame in flight and the pending base contain.
fn synced_text(alloc: Global, along: Synced) -> Result<String, AllocError> {
    let (base, delta, pending) = (along.active_base, along.active_delta, along.pending_base);
    let (in_flight, contained) = (along.reflected_main, along.reflected_pending);
    format!(in alloc; " {base},{delta},{pending},{in_flight},{contained}")
}

// The values of a scroller along both axes, after a blank each.
fn values_text(alloc: Global, core: &Core, scroller: u32) -> Result<String, HistoryLineFault> {
    let (x, y) = core.values(scroller);
    let mut text = synced_text(alloc, x)?;
    text.push_str(synced_text(alloc, y)?.as_str())?;
    Ok(text)
}

/// What a compositor answers to `upcoming MOST`, `values SCROLLER` or `used`. An error means out of memory, or a
/// question that is none of them.
pub fn answer(
    alloc: Global,
    run: &mut SingleThread,
    question: &str,
) -> Result<String, HistoryLineFault> {
    if question == "used" {
        return Ok(format!(in alloc; " {}", run.core().used())?);
    }
    let Some((word, number)) = question.split_once(' ') else {
        return Err(HistoryLineFault::NoForm);
    };
    let Ok(number) = number.parse::<u32>() else {
        return Err(HistoryLineFault::NoForm);
    };
    match word {
        "upcoming" => upcoming_text(alloc, run, number),
        "values" => values_text(alloc, run.core(), number),
        _ => Err(HistoryLineFault::NoForm),
    }
}
