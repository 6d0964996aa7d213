//! A queue of the visible tiles alone.
//!
//! While a visible tile is missing no other may start. So the ranks of the visible tiles are enough to tell what starts
//! next, together with the ready tiles that are not visible, which may be evicted. Once all visible tiles are made or
//! being made, the queue still tells whether any other tile may start at all.

ghost use Rattle.std.specs.Prelude.{◌≡◌, ◌≤◌, ◌-◌, ◌↔◌, false, length, IsTrue, IfOk, IfSome};
ghost use Rattle.tile_priority.specs.declared.rank.Rank.{Rank as Ranking};
ghost use Rattle.tile_priority.specs.Choice as choosing;
ghost use Rattle.tile_priority.specs.Alike.{Alike};
ghost use Rattle.tile_queue.specs.Queues.{EachKeyOnce, IsNew};
ghost use Rattle.impl_tiles.specs.Stores.{store_used};
ghost use Rattle.impl_tiles.specs.Visible as spec;
ghost use Rattle.impl_tiles.specs.Visible.{TellsFirst, finished_hidden};

use crate::TileStore;
use std::alloc::{AllocError, Global};
use tile_priority::{Bin, Rank, ReadyTile, is_visible_rank};
use tile_queue::RasterQueue;

// Whether a tile is there, and visible.
fn is_shown(tile: &Option<ReadyTile>) -> bool
    ensures { result ≡ spec.is_shown tile.now }
{
    match tile {
        None => false,
        Some(tile) => is_visible_rank(tile.rank),
    }
}

// Whether no tile may start that is not visible.
fn none_hidden_starts(queue: &RasterQueue) -> bool
    ensures { IsTrue result ↔ ((q : Ranking) → choosing.is_now q.bin ≡ false → choosing.may_start queue.now q ≡ false) }
{
    if queue.may_start(Bin::Soon) {
        return false;
    }
    !queue.may_start(Bin::Eventually)
}

/// Whether a queue of the visible tiles alone tells what starts first.
pub(crate) fn tells_first(queue: &RasterQueue) -> bool
    ensures { IsTrue result ↔ TellsFirst queue.now }
{
    if is_visible_rank(queue.first_rank()) {
        return true;
    }
    none_hidden_starts(queue)
}

/// The queue of these ranks of visible tiles, beside these ready tiles that are not visible, if these tiles are there.
/// An error means out of memory.
pub(crate) fn visible_queue(
    alloc: Global,
    store: &TileStore,
    wanted: &[Rank],
    hidden: &[ReadyTile],
    budget: u32,
) -> Result<RasterQueue, AllocError>
    requires { EachKeyOnce wanted.now hidden.now }
    ensures { IfOk result (λ queue. Alike queue (record { wanted = wanted.now; ready = hidden.now; in_flight = store_used store.now - length hidden.now; budget = budget })) }
{
    let others = (store.used() as usize).saturating_sub(hidden.len()) as u32;
    let mut queue = RasterQueue::new(alloc);
    queue.rebuild(wanted, hidden, others, budget)?;
    Ok(queue)
}

/// A tile in flight is made, which is ready if it is given. A visible one takes room as before. Takes no memory.
pub(crate) fn finish_hidden(queue: &mut RasterQueue, tile: Option<ReadyTile>)
    requires some { 1 ≤ queue.old.in_flight }
    requires new { IfSome tile (λ t. IsNew queue.old t.key) }
    ensures { Alike queue.new (finished_hidden queue.old tile) }
{
    let shown = is_shown(&tile);
    if !shown {
        queue.finished(tile);
    }
}
