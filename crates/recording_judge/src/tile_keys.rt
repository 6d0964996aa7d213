//! The tiles of a run as their keys.

ghost use Rattle.std.specs.Prelude.{◌≡◌, ◌==◌, ◌<◌, ◌≤◌, ◌∷◌, ◌++◌, ℕ, cond, [], List, length, None, Some, not, ◌&&◌, ◌||◌, filter, slice_index_or, option_map, option_copied, is_some, true, IfOk, IfSome, OnOk};
ghost use Rattle.geom.specs.declared.tile.TileKey.{TileKey as Key};
ghost use Rattle.geom.specs.KeyLists.{same_key, has_key};
ghost use Rattle.tile_priority.specs.declared.rank.Rank.{Rank as Ranking};
ghost use Rattle.tile_priority.specs.Choice.{Choice};
ghost use Rattle.page_layers.specs.declared.moves.Move.{Move};
ghost use Rattle.tile_queue.specs.Queues.{rank_key, MayStartWith, IsNew};
ghost use Rattle.model_history.specs.declared.history.Entry.{Entry};
ghost use Rattle.model_history.specs.Scripts.{ScriptModel};
ghost use Rattle.model_history.specs.Accepted.{IsPlayable};
ghost use Rattle.model_history.specs.Legal.{Legal};
ghost use Rattle.model_history.specs.Scans as scans;
ghost use Rattle.model_history.specs.Tiles as model;
ghost use Rattle.model_history.specs.Tiles.{Tree, active_tree, pending_tree, keys_of, required};
ghost use Rattle.model_history.specs.Ranking.{rank_to_start as first_rank, evicted_for};
ghost use Rattle.model_steps.specs.Events.{start, done, activate};
ghost use Rattle.impl_ranks.specs.SeenTrees.{IsSeenTree, IsSeenWhere};
ghost use Rattle.impl_tiles.specs.Managers.{tile_made};
ghost use Rattle.recording_judge.specs.inner.Tiles.{Holds, held_keys, AreFree, Started, Finished, HaveSameKeys, QueuesNow, StartsNow, DoneNow};

use crate::key_set::KeySet;
use crate::queues::queue_of;
use geom::{Keys, TileKey};
use impl_ranks::SeenTree;
use model_history::Plan;
use std::alloc::{AllocError, Global};
use tile_priority::ReadyTile;
use tile_queue::RasterQueue;

/// The tiles of a run as their keys: which are ready, which pinned, which a worker holds, and the raster
/// queue, which is made when it is asked for.
///
/// Contracts say for which runs they stand, by the script, the number of workers and the past: `Holds`.
#[derive(Drop)]
pub(crate) struct TileKeys {
    /// The ready keys.
    pub(crate) ready: KeySet,
    /// The keys that are not to be evicted.
    pub(crate) pins: KeySet,
    /// The key that each worker holds.
    pub(crate) held: Vec<Option<TileKey>>,
    /// The queue for what there is to choose from; None if it has to be made anew.
    pub(crate) queue: Option<RasterQueue>,
    pub(crate) alloc: Global,
}

// The given number of workers that hold nothing. An error means out of memory.
fn free_workers(alloc: Global, count: u32) -> Result<Vec<Option<TileKey>>, AllocError>
    ensures { IfOk result (λ held. AreFree count held.items) }
{
    let mut held = Vec::with_capacity(alloc, count as usize)?;
    for _made in 0..count {
        held.push(None)?;
    }
    Ok(held)
}

// Adds a key, if there is one. An error means out of memory.
fn push_some(keys: &mut Keys, one: Option<TileKey>) -> Result<(), AllocError>
    ensures { OnOk result (keys.new ≡ keys.old ++ held_keys (one ∷ [])) }
{
    match one {
        None => Ok(()),
        Some(key) => match keys.push(key) {
            Ok(()) => Ok(()),
            Err(refused) => Err(refused.0),
        },
    }
}

/// The keys that workers hold. An error means out of memory.
pub(crate) fn keys_held(alloc: Global, held: &[Option<TileKey>]) -> Result<Keys, AllocError>
    ensures { IfOk result (λ keys. keys ≡ held_keys held.now) }
{
    let mut keys = Keys::new(alloc);
    for one in held {
        push_some(&mut keys, *one)?;
    }
    Ok(keys)
}

// What a worker holds; nothing if there is no such worker.
fn held_at(held: &[Option<TileKey>], worker: usize) -> Option<TileKey>
    ensures { result ≡ slice_index_or held.now worker None }
{
    if worker < held.len() {
        held[worker]
    } else {
        None
    }
}

// Puts what a worker holds in its place.
fn put_held(held: &mut Vec<Option<TileKey>>, worker: usize, key: Option<TileKey>)
    requires { worker < length held.old.items }
    ensures count { length held.new.items ≡ length held.old.items }
    ensures held { (v : ℕ) → slice_index_or held.new.items v None ≡ cond (worker == v) key (slice_index_or held.old.items v None) }
{
    held[worker] = key;
}

// Adds a key if it is live. An error means out of memory.
fn insert_live(ready: &mut KeySet, key: TileKey, live: bool) -> Result<(), AllocError>
    ensures { OnOk result ((q : Key) → has_key ready.new q ≡ ((live && same_key key q) || has_key ready.old q)) }
{
    if live { ready.insert(key) } else { Ok(()) }
}

// Steps a queue, if there is one, by a start.
fn start_in(queue: &mut Option<RasterQueue>, key: TileKey, evicted: &Keys)
    requires { IfSome queue.old (λ (c : Choice). MayStartWith c key evicted.now) }
    ensures { Started queue.old queue.new key evicted.now }
{
    match queue.as_mut() {
        None => {}
        Some(queue) => queue.started(key, evicted),
    }
}

// Steps a queue, if there is one, by the end of a tile.
fn finish_in(queue: &mut Option<RasterQueue>, tile: Option<ReadyTile>)
    requires some { IfSome queue.old (λ (c : Choice). 1 ≤ c.in_flight) }
    requires new { IfSome queue.old (λ (c : Choice). IfSome tile (λ t. IsNew c t.key)) }
    ensures { Finished queue.old queue.new tile }
{
    match queue.as_mut() {
        None => {}
        Some(queue) => queue.finished(tile),
    }
}

// The keys that a tree lacks, in their order. An error means out of memory.
fn dead_of(alloc: Global, tree: &SeenTree<'_>, keys: &[TileKey]) -> Result<Keys, AllocError>
    ensures { IfOk result (λ dead. (t : Tree) → IsSeenTree t tree.now → dead ≡ filter (λ q. not (has_key (keys_of t) q)) keys.now) }
{
    let mut dead = Keys::new(alloc);
    for key in keys {
        if !tree.has(*key) {
            if let Err(refused) = dead.push(*key) {
                return Err(refused.0);
            }
        }
    }
    Ok(dead)
}

impl TileKeys {
    /// The tiles of a run with the given number of workers in which nothing has come yet. An error means out
    /// of memory.
    pub(crate) fn new(alloc: Global, workers: u32) -> Result<TileKeys, AllocError>
        ensures { IfOk result (λ tiles. (s : ScriptModel) → Holds s workers [] tiles) }
    {
        let held = free_workers(alloc, workers)?;
        Ok(TileKeys {
            ready: KeySet::new(alloc),
            pins: KeySet::new(alloc),
            held,
            queue: None,
            alloc,
        })
    }

    /// The key that a worker holds.
    pub(crate) fn held(&self, worker: u32) -> Option<TileKey>
        ensures { (s : ScriptModel) (workers : ℕ) (h : List Entry) → Holds s workers h self.now → worker < workers → result ≡ scans.held worker h }
    {
        held_at(self.held.as_slice(), worker as usize)
    }

    /// Whether the key is not to be evicted.
    pub(crate) fn pinned(&self, key: TileKey) -> bool
        ensures { (s : ScriptModel) (workers : ℕ) (h : List Entry) → Holds s workers h self.now → result ≡ has_key (model.pinned s h) key }
    {
        self.pins.has(key)
    }

    /// Whether all of these keys are ready.
    pub(crate) fn are_ready(&self, keys: &Keys) -> bool
        ensures { (s : ScriptModel) (workers : ℕ) (h : List Entry) → Holds s workers h self.now → result ≡ model.are_ready s h keys.now }
    {
        self.ready.has_all(keys)
    }

    /// Those of the keys that are not ready, in their order. An error means out of memory.
    pub(crate) fn missing(&self, keys: &Keys) -> Result<Keys, AllocError>
        ensures { IfOk result (λ missing. (s : ScriptModel) (workers : ℕ) (h : List Entry) → Holds s workers h self.now → missing ≡ filter (λ q. not (has_key (model.ready s h) q)) keys.now) }
    {
        self.ready.lacking(self.alloc, keys)
    }

    /// The key that starts next; None exactly if none may start. There is a queue.
    pub(crate) fn first(&self) -> Option<TileKey>
        requires { is_some self.now.queue ≡ true }
        ensures { (s : ScriptModel) (workers : ℕ) (h : List Entry) → Holds s workers h self.now → result ≡ option_map rank_key (first_rank s h) }
    {
        let Some(queue) = self.queue.as_ref() else {
            unreachable!()
        };
        queue.first()
    }

    /// The keys that are evicted for the next one, the worst first. There is a queue. An error means out of
    /// memory.
    pub(crate) fn evicted(&self, key: TileKey) -> Result<Keys, AllocError>
        requires { is_some self.now.queue ≡ true }
        ensures { (s : ScriptModel) (workers : ℕ) (h : List Entry) (r : Ranking) → Holds s workers h self.now → first_rank s h ≡ Some r → r.key ≡ key → IfOk result (λ keys. keys ≡ evicted_for s h r) }
    {
        let Some(queue) = self.queue.as_ref() else {
            unreachable!()
        };
        queue.evicted(key)
    }

    /// Makes the queue anew, for these trees, if the given number of keys are being made. An error means
    /// out of memory.
    pub(crate) fn requeue(
        &mut self,
        plan: &Plan,
        active: Option<&SeenTree<'_>>,
        pending: Option<&SeenTree<'_>>,
        in_flight: u32,
    ) -> Result<(), AllocError>
        requires { QueuesNow plan.now (option_copied active) (option_copied pending) self.old in_flight }
        ensures queue { OnOk result (is_some self.new.queue ≡ true) }
        ensures keeps { OnOk result ((s : ScriptModel) (workers : ℕ) (h : List Entry) → Legal s workers h → plan.now ≡ s → Holds s workers h self.old → IsSeenWhere (active_tree s h) (option_copied active.entry) → IsSeenWhere (pending_tree s h) (option_copied pending.entry) → in_flight ≡ length (model.in_flight h) → Holds s workers h self.new) }
    {
        let queue = queue_of(self.alloc, plan, active, pending, self, in_flight)?;
        self.queue = Some(queue);
        Ok(())
    }

    /// A worker starts the next key, and these keys are evicted for it. Takes no memory.
    pub(crate) fn start(&mut self, worker: u32, key: TileKey, evicted: &Keys)
        requires { StartsNow self.old worker key evicted.now }
        ensures { (s : ScriptModel) (workers : ℕ) (h : List Entry) (actor : ℕ) → worker < workers → Holds s workers h self.old → Legal s workers (start actor worker key evicted.now ∷ h) → Holds s workers (start actor worker key evicted.now ∷ h) self.new }
    {
        self.ready.remove_all(evicted.as_slice());
        put_held(&mut self.held, worker as usize, Some(key));
        start_in(&mut self.queue, key, evicted);
    }

    /// A worker is done with the key that it holds, whose tile is this; None if the key is no longer live.
    /// An error means out of memory.
    pub(crate) fn done(
        &mut self,
        worker: u32,
        key: TileKey,
        tile: Option<ReadyTile>,
    ) -> Result<(), AllocError>
        requires { DoneNow self.old worker key tile }
        ensures { OnOk result ((s : ScriptModel) (workers : ℕ) (h : List Entry) (actor : ℕ) → worker < workers → Holds s workers h self.old → Legal s workers (done actor worker key ∷ h) → tile ≡ tile_made s h key → Holds s workers (done actor worker key ∷ h) self.new) }
    {
        insert_live(&mut self.ready, key, tile.is_some())?;
        put_held(&mut self.held, worker as usize, None);
        finish_in(&mut self.queue, tile);
        Ok(())
    }

    /// Forgets the queue, for another past after which the keys are the same.
    pub(crate) fn forget_queue(&mut self)
        ensures { (s : ScriptModel) (workers : ℕ) (h g : List Entry) → Holds s workers h self.old → HaveSameKeys s h g → Holds s workers g self.new }
    {
        self.queue = None;
    }

    /// The pending tree, which needs these keys, becomes the active one: they are pinned, the ready keys that
    /// the tree lacks are dropped, and the queue is forgotten. An error means out of memory.
    pub(crate) fn activate(&mut self, needed: &Keys, tree: &SeenTree<'_>) -> Result<(), AllocError>
        ensures { OnOk result ((s : ScriptModel) (workers : ℕ) (h : List Entry) (actor k : ℕ) (clamps : List Move) → IsPlayable s → Legal s workers (activate actor k clamps ∷ h) → Holds s workers h self.old → needed.now ≡ required s h → IsSeenTree (pending_tree s h) tree.now → Holds s workers (activate actor k clamps ∷ h) self.new) }
    {
        let keys = self.ready.list(self.alloc)?;
        let dead = dead_of(self.alloc, tree, keys.as_slice())?;
        let pins = KeySet::of(self.alloc, needed.as_slice())?;
        self.ready.remove_all(dead.as_slice());
        self.pins = pins;
        self.queue = None;
        Ok(())
    }
}
