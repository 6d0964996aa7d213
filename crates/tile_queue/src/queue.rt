//! The raster queue.

ghost use Rattle.std.specs.Prelude.{◌≡◌, ◌+◌, ◌-◌, ◌≤◌, ◌↔◌, false, [], map, take, option_map, IfOk, IfSome, OnOk, OnErr, IsNone};
ghost use Rattle.geom.specs.KeyLists.{has_key};
ghost use Rattle.tile_priority.specs.Ranks.{rank_cmp};
ghost use Rattle.tile_priority.specs.Ordered.{in_order};
ghost use Rattle.tile_priority.specs.declared.rank.Rank.{Rank as Ranking};
ghost use Rattle.tile_priority.specs.Choice.{first as first_rank, NoneStarts, used};
ghost use Rattle.tile_priority.specs.Choice as choosing;
ghost use Rattle.tile_priority.specs.Alike.{Alike, choice_after_start, finished};
ghost use Rattle.tile_queue.specs.Queues.{rank_key, EachKeyOnce, IsNew, AreEvictedFor, MayStartWith};

use crate::evictable::Evictable;
use crate::evictables;
use crate::evictables::{count_up_to, evict, has_for, keep, no_evictables, staying, worst};
use crate::listed::Listed;
use crate::wanted::Wanted;
use geom::{Keys, TileKey};
use std::alloc::{AllocError, Global};
use std::marker::Model;
use tile_priority::{Bin, Rank, ReadyTile};

/// Which tile is made next, and which ready tiles are evicted for it.
pub struct RasterQueue {
    // The best first.
    wanted: Wanted,
    // The ready tiles that are never evicted: the pinned ones and the visible ones.
    staying: Vec<ReadyTile>,
    // All other ready tiles, the worst first.
    evictables: Listed<Evictable>,
    in_flight: usize,
    budget: u32,
    alloc: Global,
}

impl Model for RasterQueue {
    ghost use Rattle.std.specs.Prelude.{vec_capacity};
    ghost use Rattle.tile_priority.specs.Choice.{Choice};
    ghost use Rattle.tile_queue.specs.inner.Orders.{IsQueue, choice_of};

    ghost Value = { Choice };

    ghost view = { λ q. choice_of q.wanted.items q.staying.items q.evictables.items q.in_flight q.budget };

    ghost invariant = { λ q. IsQueue q.wanted.items q.staying.items q.evictables.items q.in_flight q.wanted.room (vec_capacity q.staying) q.evictables.room };
}

// Written out, since a derived drop is proved anew, field by field, in each function that lets one go.
impl Drop for RasterQueue {
    fn drop(self) {
        let RasterQueue {
            wanted: _,
            staying: _,
            evictables: _,
            in_flight: _,
            budget: _,
            alloc: _,
        } = self;
    }
}

impl RasterQueue {
    /// A queue for nothing, with no budget, which takes its memory from `alloc`.
    pub fn new(alloc: Global) -> RasterQueue
        ensures { result ≡ record { wanted = []; ready = []; in_flight = 0; budget = 0 } }
    {
        RasterQueue {
            wanted: Wanted::new(alloc),
            staying: Vec::new(alloc),
            evictables: no_evictables(alloc),
            in_flight: 0,
            budget: 0,
            alloc,
        }
    }

    /// Represents these wanted ranks and ready tiles, with the given number of tiles in flight, and the
    /// number that there may be, and makes room for all that can start. No key stands twice in the two lists
    /// together. An error means out of memory, or 2^32 keys or more: the queue represents what it
    /// represented.
    pub fn rebuild(
        &mut self,
        wanted: &[Rank],
        ready: &[ReadyTile],
        in_flight: u32,
        budget: u32,
    ) -> Result<(), AllocError>
        requires { EachKeyOnce wanted.now ready.now }
        ensures choice { OnOk result (Alike self.new (record { wanted = wanted.now; ready = ready.now; in_flight = in_flight; budget = budget })) }
        ensures refused { OnErr result (self.new ≡ self.old) }
    {
        let room = wanted.len() + ready.len() + in_flight as usize;
        let ranks = Wanted::of(self.alloc, wanted, room)?;
        let kept = staying(self.alloc, ready, room)?;
        let others = evictables::sorted(self.alloc, ready, room)?;
        self.wanted = ranks;
        self.staying = kept;
        self.evictables = others;
        self.in_flight = in_flight as usize;
        self.budget = budget;
        Ok(())
    }

    /// The rank of the key that starts first; None exactly if no wanted key may start.
    pub fn first_rank(&self) -> Option<Rank>
        ensures { result ≡ first_rank self.now }
    {
        let Some(rank) = self.wanted.first() else {
            return None;
        };
        if self.may_start(rank.bin) {
            Some(rank)
        } else {
            None
        }
    }

    /// The key that starts first; None exactly if no wanted key may start.
    pub fn first(&self) -> Option<TileKey>
        ensures key { result ≡ option_map (λ r. r.key) (first_rank self.now) }
        ensures none { IsNone result ↔ NoneStarts self.now }
    {
        match self.first_rank() {
            Some(rank) => Some(rank.key),
            None => None,
        }
    }

    /// The first ranks that are wanted, at most the given number, in rising order. An error means out of memory.
    pub fn wanted(&self, most: u32) -> Result<Vec<Rank>, AllocError>
        ensures { IfOk result (λ ranks. ranks.items ≡ take most (in_order rank_cmp self.now.wanted)) }
    {
        self.wanted.best(self.alloc, most as usize)
    }

    /// The keys that are evicted for a wanted one, the worst first; none for a key that is not wanted. An
    /// error means out of memory.
    pub fn evicted(&self, key: TileKey) -> Result<Keys, AllocError>
        ensures wanted { IfOk result (AreEvictedFor self.now key) }
        ensures unwanted { has_key (map rank_key self.now.wanted) key ≡ false → IfOk result (λ keys. keys ≡ []) }
    {
        match self.wanted.rank_of(key) {
            None => Ok(Keys::new(self.alloc)),
            Some(rank) => {
                let count = count_up_to(&self.evictables, rank.bin, self.over_budget());
                worst(self.alloc, &self.evictables, count)
            }
        }
    }

    /// A wanted key starts, and its evicted keys are dropped: it is wanted no more, they are ready
    /// no more and wanted again if they have a rank, and one tile more is in flight. Takes no memory.
    pub fn started(&mut self, key: TileKey, evicted: &Keys)
        requires { MayStartWith self.old key evicted.now }
        ensures { Alike self.new (choice_after_start self.old key evicted.now) }
    {
        self.wanted.forget(key);
        evict(&mut self.evictables, &mut self.wanted, evicted.len());
        self.in_flight += 1;
    }

    /// A tile in flight is made: one fewer is in flight, and a given tile, whose key was neither wanted nor
    /// ready, is ready. Takes no memory.
    pub fn finished(&mut self, tile: Option<ReadyTile>)
        requires some { 1 ≤ self.old.in_flight }
        requires new { IfSome tile (λ t. IsNew self.old t.key) }
        ensures { Alike self.new (finished self.old tile) }
    {
        self.in_flight -= 1;
        if let Some(tile) = tile {
            keep(&mut self.staying, &mut self.evictables, tile);
        }
    }

    // By how many tiles the budget would be passed with one more.
    fn over_budget(&self) -> usize
        ensures { result ≡ (used self.now + 1) - self.now.budget }
    {
        let used = self.staying.len() + self.evictables.len() + self.in_flight;
        (used + 1).saturating_sub(self.budget as usize)
    }

    /// Whether a tile of this bin may start if it is wanted.
    pub fn may_start(&self, bin: Bin) -> bool
        ensures { (q : Ranking) → q.bin ≡ bin → result ≡ choosing.may_start self.now q }
    {
        match bin {
            Bin::Now => true,
            Bin::Soon | Bin::Eventually => has_for(&self.evictables, bin, self.over_budget()),
        }
    }
}
