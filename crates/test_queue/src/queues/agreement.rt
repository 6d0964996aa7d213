//! What a queue answers, beside what the definitions say.

use crate::queues::checked_queue::CheckedQueue;
use geom::TileKey;
use test_table::LineFault;

/// Whether the first key is the definition's.
fn is_first(queue: &CheckedQueue) -> Result<bool, LineFault> {
    let first = queue.plain().first(queue.alloc())?.map(|rank| rank.key);
    Ok(queue.queue().first() == first)
}

/// Whether the first wanted ranks, at most the given number, are those of the choice in rising order.
fn are_wanted(queue: &CheckedQueue, most: u32) -> Result<bool, LineFault> {
    let ranks = queue.queue().wanted(most)?;
    let mut all = Vec::from_slice(queue.alloc(), queue.plain().wanted())?;
    all.sort_unstable();
    let some = all.len().min(most as usize);
    Ok(ranks.as_slice() == &all.as_slice()[..some])
}

/// Whether the keys that are evicted for a key are the definition's: none if it is not wanted.
fn are_evicted(queue: &CheckedQueue, key: TileKey) -> Result<bool, LineFault> {
    let keys = queue.queue().evicted(key)?;
    for &rank in queue.plain().wanted() {
        if rank.key == key {
            let evicted = queue.plain().evicted(queue.alloc(), rank)?;
            return Ok(keys.as_slice() == evicted.as_slice());
        }
    }
    Ok(keys.len() == 0)
}

/// Whether the queue answers as the definitions say: its first key, its first wanted ranks, and what is
/// evicted for this key.
pub(crate) fn agrees(queue: &CheckedQueue, most: u32, key: TileKey) -> Result<bool, LineFault> {
    let first = is_first(queue)?;
    let wanted = are_wanted(queue, most)?;
    let evicted = are_evicted(queue, key)?;
    Ok(first && wanted && evicted)
}
