//! The ranks of which a raster queue is to be made.
//!
//! What moves a tree changes all ranks, and few questions may come before it is moved again. So the ranks are kept
//! as they come, in no order. A question that comes before a queue is made goes through them once, and takes no
//! memory.

ghost use Rattle.std.specs.Prelude.{◌≡◌, ◌+◌, ◌-◌, nat_le, true, cond, map, filter, length, take, Some, option_map, IfOk};
ghost use Rattle.std.specs.FinSet as set;
ghost use Rattle.geom.specs.KeyLists.{AreDistinctKeys};
ghost use Rattle.tile_priority.specs.declared.rank.Rank.{Rank as Ranking};
ghost use Rattle.tile_priority.specs.Ranks.{rank_cmp};
ghost use Rattle.tile_priority.specs.Ordered.{in_order};
ghost use Rattle.tile_priority.specs.Ranks as ranks;
ghost use Rattle.tile_priority.specs.Choice as choosing;
ghost use Rattle.tile_priority.specs.Choice.{gives_way, used, least_of};
ghost use Rattle.tile_priority.specs.Alike.{Alike};
ghost use Rattle.tile_queue.specs.Queues.{rank_key, AreEvictedFor};
ghost use Rattle.impl_tiles.specs.Choices.{store_lacks, choice_among};

use crate::TileStore;
use crate::picks::{in_key_order, is_made_now, parted, ready_tiles};
use crate::pins::Pins;
use crate::stays::{ready_count, staying, unpinned};
use geom::{Keys, TileKey};
use std::alloc::AllocError;
use std::cmp::Ordering;
use std::marker::Model;
use tile_priority::{Bin, Rank, least};
use tile_queue::RasterQueue;

/// The ranks of all live keys that have one, each key once, in no order, and how many tiles there may be.
pub struct Ranks {
    ranks: Vec<Rank>,
    budget: u32,
}

impl Model for Ranks {
    ghost use Rattle.std.specs.Prelude.{map};
    ghost use Rattle.geom.specs.KeyLists.{AreDistinctKeys};
    ghost use Rattle.tile_queue.specs.Queues.{rank_key};
    ghost use Rattle.impl_tiles.specs.Choices.{Ranked};

    ghost Value = { Ranked };

    ghost view = { λ r. record { ranks = r.ranks.items; budget = r.budget } };

    ghost invariant = { λ r. AreDistinctKeys (map rank_key r.ranks.items) };
}

// Written out, since a derived drop is proved anew, field by field, in each function that lets one go.
impl Drop for Ranks {
    fn drop(self) {
        let Ranks {
            ranks: _,
            budget: _,
        } = self;
    }
}

// How many keys are being made.
fn in_flight(store: &TileStore) -> u32
    ensures { result ≡ set.len store.now.in_flight }
{
    store.used() - ready_count(store)
}

// Whether a key is neither ready, which is looked for at `near` first, nor being made, of which there are the
// given number.
fn is_missing(store: &TileStore, near: &mut usize, in_flight: u32, key: TileKey) -> bool
    requires { in_flight ≡ set.len store.now.in_flight }
    ensures { result ≡ store_lacks store.now key }
{
    let is_ready = store.ready_near(near, key).is_some();
    !is_ready && !is_made_now(store, in_flight, key)
}

// Whether another rank is seen to be the better one.
fn is_beaten(rank: Rank, other: Option<Rank>) -> bool
    ensures { result ≡ true → ranks.least (Some rank) other ≡ other }
{
    match other {
        None => false,
        Some(best) => best.cmp(&rank) == Ordering::Less,
    }
}

// The better of a rank, if its key is missing, and another. `near` and `in_flight` are as in `is_missing`. If
// the other is better anyway, the key is not looked for.
fn better(
    store: &TileStore,
    near: &mut usize,
    in_flight: u32,
    rank: Rank,
    other: Option<Rank>,
) -> Option<Rank>
    requires { in_flight ≡ set.len store.now.in_flight }
    ensures { result ≡ cond (store_lacks store.now rank.key) (ranks.least (Some rank) other) other }
{
    if is_beaten(rank, other) {
        other
    } else if is_missing(store, near, in_flight, rank.key) {
        least(Some(rank), other)
    } else {
        other
    }
}

// The best of the ranks whose keys are neither ready nor being made. They stand nearly in the order of their
// keys, so that most of those that are looked for are found or missed without a search.
fn best_missing(store: &TileStore, ranks: &[Rank]) -> Option<Rank>
    ensures { result ≡ least_of (filter (λ r. store_lacks store.now r.key) ranks.now) }
{
    let in_flight = in_flight(store);
    let mut near = 0;
    let mut best = None;
    for rank in ranks {
        best = better(store, &mut near, in_flight, *rank, best);
    }
    best
}

impl Ranks {
    /// These ranks, no two of which are of one key, for a run with this budget.
    pub fn new(ranks: Vec<Rank>, budget: u32) -> Ranks
        requires { AreDistinctKeys (map rank_key ranks.items) }
        ensures { result ≡ record { ranks = ranks.items; budget = budget } }
    {
        Ranks { ranks, budget }
    }

    /// The queue that is to be made of the ranks, if these tiles are there and these keys are not to be given
    /// up. An error means out of memory.
    pub(crate) fn queue(&self, store: &TileStore, pins: &Pins) -> Result<RasterQueue, AllocError>
        ensures { IfOk result (λ queue. Alike queue (choice_among store.now pins.now self.now)) }
    {
        let alloc = *self.ranks.allocator();
        let keys = store.ready_keys()?;
        let in_flight = store.used() - keys.len() as u32;
        let parts = parted(
            alloc,
            store,
            in_flight,
            keys.as_slice(),
            self.ranks.as_slice(),
        )?;
        let wanted = parts.missing;
        let by_key = in_key_order(parts.ready);
        let ready = ready_tiles(alloc, by_key.as_slice(), keys.as_slice(), pins)?;
        let mut queue = RasterQueue::new(alloc);
        queue.rebuild(wanted.as_slice(), ready.as_slice(), in_flight, self.budget)?;
        Ok(queue)
    }

    /// The key that starts next, if these tiles are there and these keys are not to be evicted; None exactly
    /// if none may start. Takes no memory.
    pub(crate) fn first(&self, store: &TileStore, pins: &Pins) -> Option<TileKey>
        ensures { result ≡ option_map rank_key (choosing.first (choice_among store.now pins.now self.now)) }
    {
        let Some(rank) = best_missing(store, self.ranks.as_slice()) else {
            return None;
        };
        if self.may_start(store, pins, rank.bin) {
            Some(rank.key)
        } else {
            None
        }
    }

    /// The keys that are evicted for a missing one, the worst first. An error means out of memory.
    pub(crate) fn evicted(
        &self,
        store: &TileStore,
        pins: &Pins,
        key: TileKey,
    ) -> Result<Keys, AllocError>
        ensures { IfOk result (AreEvictedFor (choice_among store.now pins.now self.now) key) }
    {
        let queue = self.queue(store, pins)?;
        queue.evicted(key)
    }

    /// The first ranks of missing keys, at most the given number, in rising order. An error means out of memory.
    pub(crate) fn wanted(
        &self,
        store: &TileStore,
        pins: &Pins,
        most: u32,
    ) -> Result<Vec<Rank>, AllocError>
        ensures { IfOk result (λ ranks. ranks.items ≡ take most (in_order rank_cmp (choice_among store.now pins.now self.now).wanted)) }
    {
        let queue = self.queue(store, pins)?;
        queue.wanted(most)
    }

    // By how many tiles the budget would be passed with one more.
    fn over_budget(&self, store: &TileStore, pins: &Pins) -> usize
        ensures { result ≡ (used (choice_among store.now pins.now self.now) + 1) - self.now.budget }
    {
        // The contract alone speaks of the pins.
        let _ = pins;
        (store.used() as usize + 1).saturating_sub(self.budget as usize)
    }

    // How many of the ready tiles may be evicted for a tile of this bin.
    fn evictables(&self, store: &TileStore, pins: &Pins, bin: Bin) -> usize
        ensures { result ≡ length (filter (gives_way bin) (choice_among store.now pins.now self.now).ready) }
    {
        unpinned(store, pins) - staying(store, pins, self.ranks.as_slice(), bin)
    }

    // Whether at least this many of the ready tiles may be evicted for a tile of this bin. They are not counted
    // if none has to be.
    #[tactic(auto, using(crate::proofs::Counts::none_needed, crate::proofs::Counts::none_needed_told))]
    fn has_for(&self, store: &TileStore, pins: &Pins, bin: Bin, many: usize) -> bool
        ensures { result ≡ nat_le many (length (filter (gives_way bin) (choice_among store.now pins.now self.now).ready)) }
    {
        if many == 0 {
            return true;
        }
        many <= self.evictables(store, pins, bin)
    }

    // Whether a missing tile of this bin may start.
    fn may_start(&self, store: &TileStore, pins: &Pins, bin: Bin) -> bool
        ensures { (q : Ranking) → q.bin ≡ bin → result ≡ choosing.may_start (choice_among store.now pins.now self.now) q }
    {
        match bin {
            Bin::Now => true,
            Bin::Soon | Bin::Eventually => {
                let over = self.over_budget(store, pins);
                self.has_for(store, pins, bin, over)
            }
        }
    }
}
