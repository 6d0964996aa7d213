//! The tile manager.

ghost use Rattle.std.specs.Prelude.{◌≡◌, ℕ, ◌<◌, ◌≤◌, ◌↔◌, not, true, false, List, [], ◌∷◌, Some, length, take, filter, option_map, IsTrue, IfOk, OnOk, OnErr};
ghost use Rattle.std.specs.List.{list_all};
ghost use Rattle.geom.specs.declared.tile.TileKey.{TileKey as Key};
ghost use Rattle.geom.specs.KeyLists.{has_key, AreDistinctKeys};
ghost use Rattle.geom.specs.KeyOrder.{key_cmp};
ghost use Rattle.tile_priority.specs.declared.rank.Rank.{Rank as Ranking};
ghost use Rattle.tile_priority.specs.Ranks.{rank_cmp};
ghost use Rattle.tile_priority.specs.Ordered.{IsInOrder, in_order};
ghost use Rattle.page_layers.specs.declared.moves.Move.{Move};
ghost use Rattle.tile_queue.specs.Queues.{rank_key, EachKeyOnce};
ghost use Rattle.impl_tiles.specs.Stores.{image_of, is_ready};
ghost use Rattle.model_history.specs.declared.history.Entry.{Entry};
ghost use Rattle.model_history.specs.Scripts.{ScriptModel};
ghost use Rattle.model_history.specs.Accepted.{IsPlayable};
ghost use Rattle.model_history.specs.Legal.{Legal};
ghost use Rattle.model_history.specs.Tiles.{pending_tree, keys_of, tiles_used, ready, required, are_ready};
ghost use Rattle.model_history.specs.Ranking.{rank_to_start, evicted_for, wanted};
ghost use Rattle.model_steps.specs.Events.{start, done, activate};
ghost use Rattle.model_steps.specs.ShownKeys.{KeyShows};
ghost use Rattle.impl_tiles.specs.Choices.{store_lacks};
ghost use Rattle.impl_tiles.specs.Managers.{Manages, StartsNow, DoneNow, HaveSameTiles, AreRanksAt, AreVisibleAt, IsOfVisible, is_seen, is_unseen, has_ranks_alone, TellsNext, tile_made};

use crate::TileStore;
use crate::missing::missing_keys;
use crate::outlook::Outlook;
use crate::pins::Pins;
use crate::ranks::Ranks;
use crate::visible::visible_queue;
use geom::{Keys, TileKey};
use std::alloc::{AllocError, Global};
use std::marker::Model;
use std::sync::Arc;
use tile_priority::{Rank, ReadyTile};
use tile_queue::RasterQueue;
use tile_raster::TileImage;

/// The tiles of a run: the ready keys with their images, the keys in flight, the pinned keys, and what tells the
/// next tile and what is evicted for it: the raster queue, of all tiles or of the visible ones, or the ranks of which
/// it is to be made.
///
/// Contracts say for which runs it stands, by the script and the past: `Manages`.
pub struct TileManager {
    store: TileStore,
    pins: Pins,
    outlook: Outlook,
}

impl Model for TileManager {
    ghost use Rattle.impl_tiles.specs.contracts.store.TileStore as the_store;
    ghost use Rattle.impl_tiles.specs.contracts.outlook.Outlook as the_outlook;
    ghost use Rattle.impl_tiles.specs.contracts.pins.Pins as the_pins;
    ghost use Rattle.impl_tiles.specs.Managers.{Managed, managed_code};

    ghost Value = { Managed };

    ghost coded = { managed_code the_store.the_row.coded the_pins.the_row.coded the_outlook.the_row.coded };

    ghost view = { λ m. record { store = m.store; pinned = m.pins; outlook = m.outlook } };
}

// Written out, since a derived drop is proved anew, field by field, in each function that lets one go.
impl Drop for TileManager {
    fn drop(self) {
        let TileManager {
            store: _,
            pins: _,
            outlook: _,
        } = self;
    }
}

// The first place from `from` on of a key without an image; the end if there is none.
fn unready_from(store: &TileStore, keys: &[TileKey], from: usize) -> usize
    ensures some { result < length keys.now → list_all (is_ready store.now) keys.now ≡ false }
    ensures none { from ≡ 0 → length keys.now ≤ result → list_all (is_ready store.now) keys.now ≡ true }
{
    let mut near = 0;
    for at in from..keys.len() {
        if store.ready_near(&mut near, keys[at]).is_none() {
            return at;
        }
    }
    keys.len()
}

// Whether each of these keys has an image. Those from `waits_at` on are asked for first, and it is set to the place of
// one without an image.
fn each_ready(store: &TileStore, keys: &Keys, waits_at: &mut usize) -> bool
    ensures { result ≡ list_all (is_ready store.now) keys.now }
{
    let keys = keys.as_slice();
    if *waits_at > 0 {
        *waits_at = unready_from(store, keys, *waits_at);
        if *waits_at < keys.len() {
            return false;
        }
    }
    *waits_at = unready_from(store, keys, 0);
    *waits_at >= keys.len()
}

// Whether a search finds this key among these and it has no image. It always finds it if they stand in key
// order.
fn is_found_unready(store: &TileStore, keys: &Keys, key: TileKey) -> bool
    ensures { result ≡ true → list_all (is_ready store.now) keys.now ≡ false }
{
    let keys = keys.as_slice();
    match keys.binary_search(&key) {
        Ok(at) => store.ready(keys[at]).is_none(),
        Err(_) => false,
    }
}

// Whether all of these keys have an image. The key that starts next has none: if it is one of them, the others
// are not asked for.
fn all_ready(store: &TileStore, keys: &Keys, waits_at: &mut usize, next: Option<TileKey>) -> bool
    ensures { result ≡ list_all (is_ready store.now) keys.now }
{
    if let Some(key) = next
        && is_found_unready(store, keys, key)
    {
        return false;
    }
    each_ready(store, keys, waits_at)
}

impl TileManager {
    /// The tiles of a run in which nothing has come yet, with this budget. An error means out of memory.
    pub fn new(alloc: Global, budget: u32) -> Result<TileManager, AllocError>
        ensures tiles { (s : ScriptModel) → s.budget ≡ budget → IfOk result (λ manager. Manages s [] manager) }
        ensures seen { IfOk result (λ manager. is_seen manager.outlook ≡ true) }
    {
        let mut queue = RasterQueue::new(alloc);
        queue.rebuild(&[], &[], 0, budget)?;
        Ok(TileManager {
            store: TileStore::new(alloc),
            pins: Pins::new(alloc),
            outlook: Outlook::Queue(queue),
        })
    }

    /// Whether it was looked at all tiles where the trees stand now: all ranks are known.
    pub fn is_seen(&self) -> bool
        ensures { result ≡ is_seen self.now.outlook }
    {
        self.outlook.is_seen()
    }

    /// Whether it was looked at no tile where the trees stand now.
    pub fn is_unseen(&self) -> bool
        ensures { result ≡ is_unseen self.now.outlook }
    {
        self.outlook.is_unseen()
    }

    /// Whether what was looked at tells which key starts next. It does if all ranks are known, and if those of
    /// the visible tiles are known and a visible tile is missing, or no other may start.
    pub fn tells_next(&self) -> bool
        ensures { IsTrue result ↔ TellsNext self.now.outlook }
    {
        self.outlook.tells_next()
    }

    /// The key that starts next; None exactly if none may start.
    pub fn next_start(&self) -> Option<TileKey>
        requires { TellsNext self.now.outlook }
        ensures { (s : ScriptModel) (workers : ℕ) (h : List Entry) → Legal s workers h → Manages s h self.now → result ≡ option_map rank_key (rank_to_start s h) }
    {
        self.outlook.first(&self.store, &self.pins)
    }

    /// The keys that are evicted for the next one, the worst first. An error means out of memory.
    pub fn evicted(&self, key: TileKey) -> Result<Keys, AllocError>
        requires { TellsNext self.now.outlook }
        ensures { (s : ScriptModel) (workers : ℕ) (h : List Entry) (r : Ranking) → Legal s workers h → Manages s h self.now → rank_to_start s h ≡ Some r → r.key ≡ key → IfOk result (λ keys. keys ≡ evicted_for s h r) }
    {
        self.outlook.evicted(&self.store, &self.pins, key)
    }

    /// The first ranks that are wanted, at most the given number, in rising order. An error means out of memory.
    pub fn upcoming(&self, most: u32) -> Result<Vec<Rank>, AllocError>
        requires { is_seen self.now.outlook ≡ true }
        ensures { (s : ScriptModel) (workers : ℕ) (h : List Entry) → Legal s workers h → Manages s h self.now → IfOk result (λ ranks. ranks.items ≡ take most (in_order rank_cmp (wanted s h))) }
    {
        self.outlook.wanted(&self.store, &self.pins, most)
    }

    /// The image of a key; None exactly if the key is not ready. If keys are asked for in their order,
    /// `near` carries the place from one question to the next: a key that stands next to the one before it is
    /// found without a search. The answer doesn't depend on it; 0 is as good a beginning as any.
    pub fn image_near(&self, near: &mut usize, key: TileKey) -> Option<&Arc<TileImage>>
        ensures { option_map (λ image. image.now.value) result ≡ image_of self.now.store key }
    {
        self.store.ready_near(near, key)
    }

    /// Whether the key is not to be evicted.
    pub fn pinned(&self, key: TileKey) -> bool
        ensures { result ≡ has_key self.now.pinned key }
    {
        self.pins.has(key)
    }

    /// The same. If keys are asked for in their order, `near` carries the place from one question to the next, as in
    /// [`TileManager::image_near`].
    pub fn pinned_near(&self, near: &mut usize, key: TileKey) -> bool
        ensures { result ≡ has_key self.now.pinned key }
    {
        self.pins.has_near(near, key)
    }

    /// Whether all of these keys have an image. `waits_at` carries the place of one that has none from one question to
    /// the next, so that the keys are not asked for again while it is waited for. The answer doesn't depend on it; 0 is
    /// as good a beginning as any.
    pub fn are_ready(&self, keys: &Keys, waits_at: &mut usize) -> bool
        ensures { (s : ScriptModel) (h : List Entry) → Manages s h self.now → result ≡ are_ready s h keys.now }
    {
        all_ready(&self.store, keys, waits_at, self.outlook.at_hand())
    }

    /// Those of the keys that have no image and whose image is not being made, in their order. An error means out of
    /// memory.
    pub fn missing(&self, alloc: Global, keys: &Keys) -> Result<Keys, AllocError>
        ensures { IfOk result (λ missing. missing ≡ filter (store_lacks self.now.store) keys.now) }
    {
        missing_keys(alloc, &self.store, keys.as_slice())
    }

    /// The keys that have an image, each once, in key order. An error means out of memory.
    pub fn ready_keys(&self) -> Result<Keys, AllocError>
        ensures order { IfOk result (λ keys. IsInOrder key_cmp keys) }
        ensures once { IfOk result (λ keys. AreDistinctKeys keys) }
        ensures keys { IfOk result (λ keys. (q : Key) → has_key keys q ≡ is_ready self.now.store q) }
    {
        self.store.ready_keys()
    }

    /// How many keys are ready or being made.
    pub fn used(&self) -> u32
        ensures { (s : ScriptModel) (workers : ℕ) (h : List Entry) → Legal s workers h → Manages s h self.now → result ≡ tiles_used s h }
    {
        self.store.used()
    }

    /// Makes room for one start and its end. An error means out of memory, and the manager is as it was.
    pub fn reserve(&mut self) -> Result<(), AllocError>
        ensures room { OnOk result (1 ≤ self.new.store.spare) }
        ensures same { (s : ScriptModel) (h : List Entry) → Manages s h self.old → Manages s h self.new }
        ensures outlook { self.new.outlook ≡ self.old.outlook }
        ensures refused { OnErr result (self.new ≡ self.old) }
    {
        self.store.reserve()
    }

    /// A worker starts the next key, and its evicted keys are dropped. There must be room. Takes no
    /// memory.
    #[tactic(auto, using(crate::proofs::SeenOutlooks::started_seen))]
    pub fn start(&mut self, key: TileKey, evicted: &Keys)
        requires room { 1 ≤ self.old.store.spare }
        requires told { TellsNext self.old.outlook }
        requires next { StartsNow self.old key evicted.now }
        ensures tiles { (s : ScriptModel) (workers : ℕ) (h : List Entry) (actor w : ℕ) → Manages s h self.old → Legal s workers (start actor w key evicted.now ∷ h) → Manages s (start actor w key evicted.now ∷ h) self.new }
        ensures seen { is_seen self.new.outlook ≡ is_seen self.old.outlook }
    {
        self.store.start(key, evicted);
        self.outlook.start(key, evicted);
    }

    /// A worker is done with an image. `tile` is its tile, or None if its key is no longer live; then the
    /// image is dropped. Takes no memory.
    #[tactic(auto, using(crate::proofs::SeenOutlooks::finished_seen))]
    pub fn done(&mut self, image: Arc<TileImage>, tile: Option<ReadyTile>)
        requires { DoneNow self.old image.value tile }
        ensures tiles { (s : ScriptModel) (workers : ℕ) (h : List Entry) (actor w : ℕ) → Manages s h self.old → Legal s workers (done actor w image.value.key ∷ h) → tile ≡ tile_made s h image.value.key → KeyShows s image.value.key image.value.rect image.value.list → Manages s (done actor w image.value.key ∷ h) self.new }
        ensures seen { is_seen self.new.outlook ≡ is_seen self.old.outlook }
    {
        self.store.done(image, tile.is_some());
        self.outlook.finish(tile);
    }

    /// Takes other ranks, for a past after which the same keys are ready, in flight and pinned. Takes no
    /// memory.
    pub fn rerank(&mut self, ranks: Ranks)
        ensures ranks { (s : ScriptModel) (h g : List Entry) → Manages s h self.old → HaveSameTiles s h g → AreRanksAt s g ranks → Manages s g self.new }
        ensures seen { is_seen self.new.outlook ≡ true }
    {
        self.outlook = Outlook::Ranks(ranks);
    }

    /// Takes the ranks of the visible tiles that are missing, and the ready tiles that are not visible, if the ranks
    /// of all tiles are not known. An error means out of memory, and the manager is as it was.
    pub fn foresee(
        &mut self,
        alloc: Global,
        wanted: &[Rank],
        hidden: &[ReadyTile],
        budget: u32,
    ) -> Result<(), AllocError>
        requires { EachKeyOnce wanted.now hidden.now }
        ensures same { (s : ScriptModel) (workers : ℕ) (h : List Entry) → Legal s workers h → s.budget ≡ budget → Manages s h self.old → AreVisibleAt s h wanted.now hidden.now → Manages s h self.new }
        ensures visible { OnOk result (IsOfVisible self.new.outlook wanted.now hidden.now) }
        ensures refused { OnErr result (self.new ≡ self.old) }
    {
        let queue = visible_queue(alloc, &self.store, wanted, hidden, budget)?;
        self.outlook = Outlook::Visible(queue);
        Ok(())
    }

    /// Forgets the ranks, for a past after which the same keys are ready, in flight and pinned. `rerank` or `foresee`
    /// gives new ones before the next question for a key. Takes no memory.
    pub fn forget(&mut self)
        ensures { (s : ScriptModel) (h g : List Entry) → Manages s h self.old → HaveSameTiles s h g → Manages s g self.new }
    {
        self.outlook = Outlook::Unseen;
    }

    /// Makes the queue, if there are ranks alone: the next question costs less. An error means out of memory,
    /// and the manager is as it was.
    pub fn refresh(&mut self) -> Result<(), AllocError>
        ensures same { (s : ScriptModel) (workers : ℕ) (h : List Entry) → Legal s workers h → Manages s h self.old → Manages s h self.new }
        ensures seen { is_seen self.new.outlook ≡ is_seen self.old.outlook }
        ensures made { OnOk result (has_ranks_alone self.new.outlook ≡ false) }
        ensures refused { OnErr result (self.new ≡ self.old) }
    {
        if let Outlook::Ranks(ranks) = &self.outlook {
            let queue = ranks.queue(&self.store, &self.pins)?;
            self.outlook = Outlook::Queue(queue);
        }
        Ok(())
    }

    /// The pending tree becomes the active one: the keys that it needs are pinned, the ready keys that are in
    /// `dead` are dropped, and the ranks are forgotten, as by [`TileManager::forget`]. Takes no memory.
    pub fn activate(&mut self, pins: Pins, dead: &Keys)
        ensures { (s : ScriptModel) (workers : ℕ) (h : List Entry) (actor k : ℕ) (clamps : List Move) → IsPlayable s → Legal s workers (activate actor k clamps ∷ h) → Manages s h self.old → ((q : Key) → has_key pins q ≡ has_key (required s h) q) → ((q : Key) → has_key (ready s h) q ≡ true → has_key dead.now q ≡ not (has_key (keys_of (pending_tree s h)) q)) → Manages s (activate actor k clamps ∷ h) self.new }
    {
        self.store.give_up(dead);
        self.pins = pins;
        self.outlook = Outlook::Unseen;
    }
}
