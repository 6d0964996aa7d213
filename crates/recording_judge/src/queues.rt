//! The raster queue for what there is to choose from.

ghost use Rattle.std.specs.Prelude.{◌≡◌, ℕ, List, length, not, ◌&&◌, map, filter, IfOk, option_copied};
ghost use Rattle.geom.specs.KeyLists.{has_key};
ghost use Rattle.tile_priority.specs.Alike.{Alike};
ghost use Rattle.model_history.specs.declared.history.Entry.{Entry};
ghost use Rattle.model_history.specs.Scripts.{ScriptModel};
ghost use Rattle.model_history.specs.Legal.{Legal};
ghost use Rattle.model_history.specs.Tiles.{Tree, active_tree, pending_tree};
ghost use Rattle.model_history.specs.Tiles as model;
ghost use Rattle.model_history.specs.Ranking.{choice};
ghost use Rattle.model_steps.specs.Choices.{tile_in_both};
ghost use Rattle.impl_ranks.specs.SeenTrees.{IsSeenWhere};
ghost use Rattle.impl_choice.specs.inner.Queued.{AreTilesAt, RebuildsNow};
ghost use Rattle.recording_judge.specs.inner.Tiles.{Holds, QueuesNow, store_of};

use crate::key_set::KeySet;
use crate::tile_keys::{TileKeys, keys_held};
use geom::TileKey;
use impl_ranks::{SeenTree, ranked, tile};
use model_history::Plan;
use std::alloc::{AllocError, Global};
use tile_priority::{Rank, ReadyTile};
use tile_queue::RasterQueue;

// The tiles for which a queue is made.
#[derive(Clone, Copy)]
struct Tiles<'a> {
    // The ready keys.
    ready: &'a KeySet,
    // The keys that are not to be evicted.
    pins: &'a KeySet,
    // The keys that are being made.
    flying: &'a KeySet,
    // How many there are.
    in_flight: u32,
}

// Those of the ranks whose keys are neither ready nor being made. An error means out of memory.
fn missing(
    alloc: Global,
    ready: &KeySet,
    flying: &KeySet,
    ranks: &[Rank],
) -> Result<Vec<Rank>, AllocError>
    ensures { IfOk result (λ missing. missing.items ≡ filter (λ r. not (has_key ready.now r.key) && not (has_key flying.now r.key)) ranks.now) }
{
    let mut missing = Vec::new(alloc);
    for rank in ranks {
        let is_ready = ready.has(rank.key);
        if !is_ready && !flying.has(rank.key) {
            missing.push(*rank)?;
        }
    }
    Ok(missing)
}

// The ready keys with their ranks, each with whether it is pinned. An error means out of memory.
fn ready_tiles(
    alloc: Global,
    plan: &Plan,
    active: Option<&SeenTree<'_>>,
    pending: Option<&SeenTree<'_>>,
    keys: &[TileKey],
    pins: &KeySet,
) -> Result<Vec<ReadyTile>, AllocError>
    ensures { IfOk result (λ ready. (a p : Tree) → IsSeenWhere a (option_copied active.entry) → IsSeenWhere p (option_copied pending.entry) → ready.items ≡ map (tile_in_both plan.now a p pins.now) keys.now) }
{
    let mut ready = Vec::with_capacity(alloc, keys.len())?;
    for key in keys {
        let pinned = pins.has(*key);
        ready.push(tile(plan, active, pending, *key, pinned))?;
    }
    Ok(ready)
}

// The queue of both trees as they are seen, and of the tiles that are there. An error means out of memory.
fn rebuilt(
    alloc: Global,
    plan: &Plan,
    active: Option<&SeenTree<'_>>,
    pending: Option<&SeenTree<'_>>,
    tiles: Tiles<'_>,
) -> Result<RasterQueue, AllocError>
    requires { RebuildsNow plan.now (option_copied active) (option_copied pending) (store_of tiles.flying.now) tiles.ready.now tiles.pins.now tiles.in_flight }
    ensures { IfOk result (λ queue. (s : ScriptModel) (workers : ℕ) (h : List Entry) → Legal s workers h → plan.now ≡ s → IsSeenWhere (active_tree s h) (option_copied active.entry) → IsSeenWhere (pending_tree s h) (option_copied pending.entry) → AreTilesAt s h (store_of tiles.entry.flying.now) tiles.entry.ready.now tiles.entry.pins.now tiles.entry.in_flight → Alike queue (choice s h)) }
{
    let ranks = ranked(alloc, plan, active, pending)?;
    let wanted = missing(alloc, tiles.ready, tiles.flying, ranks.as_slice())?;
    let keys = tiles.ready.list(alloc)?;
    let ready = ready_tiles(alloc, plan, active, pending, keys.as_slice(), tiles.pins)?;
    let mut queue = RasterQueue::new(alloc);
    queue.rebuild(
        wanted.as_slice(),
        ready.as_slice(),
        tiles.in_flight,
        plan.budget(),
    )?;
    Ok(queue)
}

/// The raster queue for the tiles of a run with these trees, if the given number of keys are being made.
/// An error means out of memory.
pub(crate) fn queue_of(
    alloc: Global,
    plan: &Plan,
    active: Option<&SeenTree<'_>>,
    pending: Option<&SeenTree<'_>>,
    tiles: &TileKeys,
    in_flight: u32,
) -> Result<RasterQueue, AllocError>
    requires { QueuesNow plan.now (option_copied active) (option_copied pending) tiles.now in_flight }
    ensures { IfOk result (λ queue. (s : ScriptModel) (workers : ℕ) (h : List Entry) → Legal s workers h → plan.now ≡ s → Holds s workers h tiles.now → IsSeenWhere (active_tree s h) (option_copied active.entry) → IsSeenWhere (pending_tree s h) (option_copied pending.entry) → in_flight ≡ length (model.in_flight h) → Alike queue (choice s h)) }
{
    tiles.ready.is_in_order();
    let held = keys_held(alloc, tiles.held.as_slice())?;
    let flying = KeySet::of(alloc, held.as_slice())?;
    let tiles = Tiles {
        ready: &tiles.ready,
        pins: &tiles.pins,
        flying: &flying,
        in_flight,
    };
    rebuilt(alloc, plan, active, pending, tiles)
}
