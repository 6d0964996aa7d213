//! The choice as lists.

ghost use Rattle.std.specs.Prelude.{◌≡◌, ◌+◌, ◌-◌, ◌<◌, ◌^◌, cond, map, filter, IfOk, Some};
ghost use Rattle.tile_priority.specs.Ranks.{least};
ghost use Rattle.tile_priority.specs.Choice as choosing;
ghost use Rattle.tile_priority.specs.Choice.{evictable_of, evictable_key};
ghost use Rattle.tile_priority.specs.Alike as alike;

use crate::choice::evictables::{evictables_in, keys_of_front};
use crate::choice::steps::{evicted_ranks, staying, with_ready, without};
use geom::{Keys, TileKey};
use std::alloc::{AllocError, Global};
use std::marker::Model;
use tile_priority::{Bin, Rank, ReadyTile, least};

/// What the choice is made from, as lists.
pub struct PlainChoice {
    // The ranks of the keys that have one and are neither ready nor in flight.
    wanted: Vec<Rank>,
    // The ready tiles.
    ready: Vec<ReadyTile>,
    // How many tiles are in flight.
    in_flight: usize,
    // How many tiles there may be.
    budget: u32,
}

impl Model for PlainChoice {
    ghost use Rattle.tile_priority.specs.Choice.{Choice};

    ghost Value = { Choice };

    ghost view = { λ c. record { wanted = c.wanted.items; ready = c.ready.items; in_flight = c.in_flight; budget = c.budget } };
}

// Written out, since a derived drop is proved anew, field by field, in each function that lets one go.
impl Drop for PlainChoice {
    fn drop(self) {
        let PlainChoice {
            wanted: _,
            ready: _,
            in_flight: _,
            budget: _,
        } = self;
    }
}

impl PlainChoice {
    /// The choice from these wanted ranks and these ready tiles, with the given number of tiles in flight,
    /// and the number that there may be.
    pub fn new(
        wanted: Vec<Rank>,
        ready: Vec<ReadyTile>,
        in_flight: usize,
        budget: u32,
    ) -> PlainChoice
        ensures { result ≡ record { wanted = wanted.items; ready = ready.items; in_flight = in_flight; budget = budget } }
    {
        PlainChoice {
            wanted,
            ready,
            in_flight,
            budget,
        }
    }

    /// The wanted ranks.
    pub fn wanted(&self) -> &[Rank]
        ensures { result.now ≡ self.now.wanted }
    {
        self.wanted.as_slice()
    }

    /// The ready tiles.
    pub fn ready(&self) -> &[ReadyTile]
        ensures { result.now ≡ self.now.ready }
    {
        self.ready.as_slice()
    }

    /// How many tiles are in flight.
    pub fn in_flight(&self) -> usize
        ensures { result ≡ self.now.in_flight }
    {
        self.in_flight
    }

    /// How many tiles there may be.
    pub fn budget(&self) -> u32
        ensures { result ≡ self.now.budget }
    {
        self.budget
    }

    /// The choice once a key starts and these keys are evicted for it. Fewer than 2^63 tiles are in
    /// flight. An error means out of memory.
    pub fn started(
        &self,
        alloc: Global,
        key: TileKey,
        evicted: &Keys,
    ) -> Result<PlainChoice, AllocError>
        requires { self.now.in_flight < 2 ^ 63 }
        ensures { IfOk result (λ next. next ≡ alike.choice_after_start self.now key evicted.now) }
    {
        let mut wanted = without(alloc, self.wanted.as_slice(), key)?;
        let again = evicted_ranks(alloc, self.ready.as_slice(), evicted)?;
        wanted.extend_from_slice(again.as_slice())?;
        let ready = staying(alloc, self.ready.as_slice(), evicted)?;
        Ok(PlainChoice {
            wanted,
            ready,
            in_flight: self.in_flight + 1,
            budget: self.budget,
        })
    }

    /// The choice once a tile in flight is made, which is ready if it is given. An error means out of
    /// memory.
    pub fn finished(
        &self,
        alloc: Global,
        tile: Option<ReadyTile>,
    ) -> Result<PlainChoice, AllocError>
        ensures { IfOk result (λ next. next ≡ alike.finished self.now tile) }
    {
        let wanted = Vec::from_slice(alloc, self.wanted.as_slice())?;
        let ready = with_ready(alloc, tile, self.ready.as_slice())?;
        Ok(PlainChoice {
            wanted,
            ready,
            in_flight: self.in_flight.saturating_sub(1),
            budget: self.budget,
        })
    }

    // How many tiles there would be with one more, ready or in flight.
    fn with_one_more(&self) -> u128
        ensures { result ≡ choosing.used self.now + 1 }
    {
        self.ready.len() as u128 + self.in_flight as u128 + 1
    }

    // How many tiles there would be over the budget.
    fn over(&self) -> u128
        ensures { result ≡ (choosing.used self.now + 1) - self.now.budget }
    {
        self.with_one_more().saturating_sub(self.budget as u128)
    }

    // Whether evicting this many tiles makes room for one more.
    fn is_enough(&self, n: usize) -> bool
        ensures { result ≡ choosing.is_enough self.now n }
    {
        self.with_one_more().saturating_sub(n as u128) <= self.budget as u128
    }

    // The ready tiles that may be evicted for a rank, the worst first.
    #[tactic(auto, using(crate::proofs::Worst::worst_is), unfolding(tile_priority::specs::Choice::worst_first))]
    fn worst_first(&self, alloc: Global, rank: Rank) -> Result<Vec<ReadyTile>, AllocError>
        ensures { IfOk result (λ all. map evictable_of all.items ≡ choosing.worst_first self.now rank) }
    {
        evictables_in(alloc, rank.bin, self.ready.as_slice())
    }

    // Whether a wanted tile may start: it is visible, or evicting all that it may makes room.
    #[tactic(auto, unfolding(tile_priority::specs::Choice::may_start))]
    fn may_start(&self, alloc: Global, rank: Rank) -> Result<bool, AllocError>
        ensures { IfOk result (λ may. may ≡ choosing.may_start self.now rank) }
    {
        match rank.bin {
            Bin::Now => Ok(true),
            _ => {
                let evictables = self.worst_first(alloc, rank)?;
                Ok(self.is_enough(evictables.len()))
            }
        }
    }

    // The better of a rank, if it may start, and another.
    fn better(
        &self,
        alloc: Global,
        rank: Rank,
        other: Option<Rank>,
    ) -> Result<Option<Rank>, AllocError>
        ensures { IfOk result (λ best. best ≡ cond (choosing.may_start self.now rank) (least (Some rank) other) other) }
    {
        if self.may_start(alloc, rank)? {
            Ok(least(Some(rank), other))
        } else {
            Ok(other)
        }
    }

    // The best of those of some ranks that may start.
    fn best_of(&self, alloc: Global, ranks: &[Rank]) -> Result<Option<Rank>, AllocError>
        ensures { IfOk result (λ best. best ≡ choosing.least_of (filter (choosing.may_start self.now) ranks.now)) }
    {
        let mut best = None;
        let mut left = ranks.len();
        while left > 0 {
            let i = left - 1;
            let rank = ranks[i];
            best = self.better(alloc, rank, best)?;
            left = i;
        }
        Ok(best)
    }

    /// The rank that starts first; None exactly if no wanted rank may start. An error means out of memory.
    #[tactic(auto, unfolding(tile_priority::specs::Choice::first))]
    pub fn first(&self, alloc: Global) -> Result<Option<Rank>, AllocError>
        ensures { IfOk result (λ best. best ≡ choosing.first self.now) }
    {
        self.best_of(alloc, self.wanted.as_slice())
    }

    /// The keys of those that are evicted for a rank, the worst first. An error means out of memory.
    pub fn evicted(&self, alloc: Global, rank: Rank) -> Result<Vec<TileKey>, AllocError>
        ensures { IfOk result (λ keys. keys.items ≡ map evictable_key (choosing.evicted self.now rank)) }
    {
        let evictables = self.worst_first(alloc, rank)?;
        keys_of_front(alloc, evictables.as_slice(), self.over())
    }
}
