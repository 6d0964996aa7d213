//! How long the calls of a queue take.

use crate::choice::PlainChoice;
use crate::queues::checked_queue::CheckedQueue;
use geom::TileKey;
use std::alloc::{AllocError, Global};
use std::time::{Duration, Instant};
use test_table::LineFault;
use tile_priority::{Bin, Rank, ReadyTile};

/// How the tiles of a queue stand to each other, and which of them start.
#[derive(Clone, Copy)]
pub(crate) enum Order {
    /// Bins and distances are mixed, and the first key starts.
    Mixed,
    /// The first key starts; what is evicted for it is wanted again in the middle of the wanted ones, and
    /// its tile stands in the middle of the ready ones.
    Middle,
    /// As mixed, and the worst wanted key starts.
    Last,
}

/// How long the calls took.
#[derive(Clone, Copy)]
pub(crate) struct QueueTimes {
    /// A new choice, the shortest of several.
    pub(crate) rebuild: Duration,
    /// Many looks at the first key.
    pub(crate) looks: Duration,
    /// All pairs of a start and its end: the first key, what is evicted for it, its start, and its tile
    /// made.
    pub(crate) pairs: Duration,
    /// How many pairs there were.
    pub(crate) count: u32,
    /// How many keys were evicted for them.
    pub(crate) evicted: usize,
}

/// How often the first key is looked at.
pub(crate) const LOOKS: u32 = 100000;

/// A bin that is mixed from a number.
fn mixed_bin(mixed: u32) -> Bin {
    match mixed % 4 {
        0 => Bin::Now,
        1 => Bin::Soon,
        _ => Bin::Eventually,
    }
}

/// The rank of the tile at a place below the given one, wanted or ready.
fn rank_of(order: Order, place: u32, tiles: u32, wanted: bool) -> Rank {
    let key = TileKey {
        layer: if wanted { 1 } else { 2 },
        x: place % 128,
        y: place / 128,
        stamp: 0,
    };
    let (bin, distance) = match order {
        Order::Middle => {
            let near = if wanted { 65536 } else { 0 };
            let bin = if place < tiles / 2 {
                Bin::Soon
            } else {
                Bin::Eventually
            };
            (bin, place.saturating_add(near))
        }
        Order::Mixed | Order::Last => {
            let other = if wanted { 0 } else { 1 };
            let number = place.wrapping_mul(2).wrapping_add(other);
            let mixed = number.wrapping_mul(2654435761) >> 16;
            (mixed_bin(mixed), mixed / 4 % 512)
        }
    };
    Rank {
        bin,
        tree: 0,
        distance,
        key,
    }
}

/// The ready tile of a rank.
fn tile_of(rank: Rank) -> ReadyTile {
    ReadyTile {
        key: rank.key,
        rank: Some(rank),
        pinned: false,
    }
}

/// A choice of the given number of wanted and as many ready tiles. With one more it would be over its budget
/// by two.
fn choice_of(alloc: Global, order: Order, tiles: u32) -> Result<PlainChoice, AllocError> {
    let mut wanted = Vec::with_capacity(alloc, tiles as usize)?;
    let mut ready = Vec::with_capacity(alloc, tiles as usize)?;
    for place in 0..tiles {
        wanted.push(rank_of(order, place, tiles, true))?;
        ready.push(tile_of(rank_of(order, place, tiles, false)))?;
    }
    Ok(PlainChoice::new(wanted, ready, 0, tiles.saturating_sub(1)))
}

/// The rank that starts: the first one, or the worst of all wanted ones.
fn next(queue: &CheckedQueue, order: Order) -> Option<Rank> {
    let wanted = queue.plain().wanted().iter().copied();
    match order {
        Order::Last => wanted.max(),
        Order::Mixed | Order::Middle => {
            let key = queue.queue().first()?;
            wanted.filter(|rank| rank.key == key).next()
        }
    }
}

/// Looks many times at the first key.
fn look(rt: &HostRuntime, queue: &CheckedQueue) -> Result<Duration, LineFault> {
    let mut sum = 0u64;
    let begin = Instant::now(rt).map_err(|_| LineFault::NoClock)?;
    for _turn in 0..LOOKS {
        if let Some(key) = queue.queue().first() {
            sum = sum.wrapping_add(key.x as u64);
        }
    }
    let took = begin.elapsed(rt).map_err(|_| LineFault::NoClock)?;
    // The sum is of use, so that no compiler leaves the looks out.
    Ok(if sum == 1 { Duration::ZERO } else { took })
}

impl QueueTimes {
    /// Starts a tile and makes it, if one may start.
    fn pair(
        &mut self,
        rt: &HostRuntime,
        queue: &mut CheckedQueue,
        order: Order,
    ) -> Result<bool, LineFault> {
        let Some(rank) = next(queue, order) else {
            return Ok(false);
        };
        let started = queue.start(rt, rank.key)?;
        let made = queue.finish(rt, Some(tile_of(rank)))?;
        let took = started.took.saturating_add(made);
        self.pairs = self.pairs.saturating_add(took);
        self.count = self.count.saturating_add(1);
        self.evicted = self.evicted.saturating_add(started.evicted);
        Ok(true)
    }
}

/// Times a queue of the given number of wanted and as many ready tiles, and up to the given number of pairs.
pub(crate) fn queue_times(
    rt: &HostRuntime,
    order: Order,
    tiles: u32,
    pairs: u32,
) -> Result<QueueTimes, LineFault> {
    let mut queue = CheckedQueue::new(rt.alloc());
    let mut rebuild = Duration::MAX;
    for _turn in 0..8 {
        let choice = choice_of(rt.alloc(), order, tiles)?;
        rebuild = rebuild.min(queue.rebuild(rt, choice)?);
    }
    let mut times = QueueTimes {
        rebuild,
        looks: look(rt, &queue)?,
        pairs: Duration::ZERO,
        count: 0,
        evicted: 0,
    };
    for _turn in 0..pairs {
        if !times.pair(rt, &mut queue, order)? {
            break;
        }
    }
    Ok(times)
}
