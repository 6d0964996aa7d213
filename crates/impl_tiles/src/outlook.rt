//! What tells the next tile: a queue, of all tiles or of the visible ones, or the ranks of which one is to be made.

ghost use Rattle.std.specs.Prelude.{◌≡◌, ◌↔◌, true, take, option_map, IsTrue, IfOk};
ghost use Rattle.tile_priority.specs.Ranks.{rank_cmp};
ghost use Rattle.tile_priority.specs.Ordered.{in_order};
ghost use Rattle.tile_priority.specs.Choice as choosing;
ghost use Rattle.tile_queue.specs.Queues.{rank_key, AreEvictedFor};
ghost use Rattle.impl_tiles.specs.Managers.{foreseen, is_seen, is_unseen, TellsNext};
ghost use Rattle.impl_tiles.specs.inner.Outlooks.{MayStartNext, HasStarted, MayFinish, HasFinished};

use crate::TileStore;
use crate::pins::Pins;
use crate::ranks::Ranks;
use crate::visible::{finish_hidden, tells_first};
use geom::{Keys, TileKey};
use std::alloc::AllocError;
use tile_priority::{Rank, ReadyTile};
use tile_queue::RasterQueue;

/// What tells the next tile, and what is evicted for it.
pub(crate) enum Outlook {
    /// A queue of all tiles.
    Queue(RasterQueue),
    /// A queue of the visible tiles alone.
    Visible(RasterQueue),
    /// The ranks of which a queue is to be made.
    Ranks(Ranks),
    /// Nothing: it was not looked yet where the trees stand now.
    Unseen,
}

// Written out, since a derived drop is proved anew, field by field, in each function that lets one go.
impl Drop for Outlook {
    fn drop(self) {
        match self {
            Outlook::Queue(_) => {}
            Outlook::Visible(_) => {}
            Outlook::Ranks(_) => {}
            Outlook::Unseen => {}
        }
    }
}

impl Outlook {
    /// Whether it was looked at all tiles where the trees stand now.
    pub(crate) fn is_seen(&self) -> bool
        ensures { result ≡ is_seen self.now }
    {
        match self {
            Outlook::Queue(_) | Outlook::Ranks(_) => true,
            Outlook::Visible(_) | Outlook::Unseen => false,
        }
    }

    /// Whether it was looked at none of them.
    pub(crate) fn is_unseen(&self) -> bool
        ensures { result ≡ is_unseen self.now }
    {
        match self {
            Outlook::Queue(_) | Outlook::Visible(_) | Outlook::Ranks(_) => false,
            Outlook::Unseen => true,
        }
    }

    /// Whether what was looked at tells which tile starts first.
    pub(crate) fn tells_next(&self) -> bool
        ensures { IsTrue result ↔ TellsNext self.now }
    {
        match self {
            Outlook::Queue(_) | Outlook::Ranks(_) => true,
            Outlook::Visible(queue) => tells_first(queue),
            Outlook::Unseen => false,
        }
    }

    /// The key that starts next; None exactly if none may start. Takes no memory.
    pub(crate) fn first(&self, store: &TileStore, pins: &Pins) -> Option<TileKey>
        requires { TellsNext self.now }
        ensures { result ≡ option_map rank_key (choosing.first (foreseen store.now pins.now self.now)) }
    {
        match self {
            Outlook::Queue(queue) => queue.first(),
            Outlook::Visible(queue) => queue.first(),
            Outlook::Ranks(ranks) => ranks.first(store, pins),
            Outlook::Unseen => unreachable!(),
        }
    }

    /// The key that starts next, if a queue has it at hand.
    pub(crate) fn at_hand(&self) -> Option<TileKey> {
        match self {
            Outlook::Queue(queue) => queue.first(),
            Outlook::Visible(queue) => queue.first(),
            Outlook::Ranks(_) | Outlook::Unseen => None,
        }
    }

    /// The keys that are evicted for a wanted one, the worst first. An error means out of memory.
    pub(crate) fn evicted(
        &self,
        store: &TileStore,
        pins: &Pins,
        key: TileKey,
    ) -> Result<Keys, AllocError>
        requires { TellsNext self.now }
        ensures { IfOk result (AreEvictedFor (foreseen store.now pins.now self.now) key) }
    {
        match self {
            Outlook::Queue(queue) => queue.evicted(key),
            Outlook::Visible(queue) => queue.evicted(key),
            Outlook::Ranks(ranks) => ranks.evicted(store, pins, key),
            Outlook::Unseen => unreachable!(),
        }
    }

    /// The first ranks that are wanted, at most the given number, in rising order. An error means out of memory.
    pub(crate) fn wanted(
        &self,
        store: &TileStore,
        pins: &Pins,
        most: u32,
    ) -> Result<Vec<Rank>, AllocError>
        requires { is_seen self.now ≡ true }
        ensures { IfOk result (λ ranks. ranks.items ≡ take most (in_order rank_cmp (foreseen store.now pins.now self.now).wanted)) }
    {
        match self {
            Outlook::Queue(queue) => queue.wanted(most),
            Outlook::Ranks(ranks) => ranks.wanted(store, pins, most),
            Outlook::Visible(_) | Outlook::Unseen => unreachable!(),
        }
    }

    /// A key starts, and its evicted keys are dropped. The ranks stay. Takes no memory.
    pub(crate) fn start(&mut self, key: TileKey, evicted: &Keys)
        requires { MayStartNext self.old key evicted.now }
        ensures { HasStarted self.old key evicted.now self.new }
    {
        match self {
            Outlook::Queue(queue) => queue.started(key, evicted),
            Outlook::Visible(queue) => queue.started(key, evicted),
            Outlook::Ranks(_) | Outlook::Unseen => {}
        }
    }

    /// A tile in flight is made, which is ready if it is given. The ranks stay. Takes no memory.
    pub(crate) fn finish(&mut self, tile: Option<ReadyTile>)
        requires { MayFinish self.old tile }
        ensures { HasFinished self.old tile self.new }
    {
        match self {
            Outlook::Queue(queue) => queue.finished(tile),
            Outlook::Visible(queue) => finish_hidden(queue, tile),
            Outlook::Ranks(_) | Outlook::Unseen => {}
        }
    }
}
