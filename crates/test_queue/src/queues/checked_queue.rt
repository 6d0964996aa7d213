//! A raster queue that goes its steps beside the choice that it represents.

ghost use Rattle.std.specs.Prelude.{◌≡◌, IfOk, OnOk, OnErr};
ghost use Rattle.tile_priority.specs.Alike.{Alike};

use crate::choice::PlainChoice;
use crate::queues::checks::{has_each_key_once, is_wanted, may_finish};
use geom::TileKey;
use std::alloc::Global;
use std::marker::Model;
use std::time::{Duration, Instant};
use test_table::LineFault;
use tile_priority::ReadyTile;
use tile_queue::RasterQueue;

/// The greatest number of tiles in flight.
const MOST_IN_FLIGHT: usize = 1000000;

/// A raster queue, and beside it the choice that it represents, as plain lists. What a call of the queue
/// requires is tested on these lists.
pub(crate) struct CheckedQueue {
    alloc: Global,
    queue: RasterQueue,
    plain: PlainChoice,
}

impl Model for CheckedQueue {
    ghost use Rattle.tile_priority.specs.Choice.{Choice};
    ghost use Rattle.tile_priority.specs.Alike.{Alike};

    ghost Value = { Choice };

    ghost view = { λ q. q.plain };

    ghost invariant = { λ q. Alike q.queue q.plain };
}

// Written out, since a derived drop is proved anew, field by field, in each function that lets one go.
impl Drop for CheckedQueue {
    fn drop(self) {
        let CheckedQueue {
            alloc: _,
            queue: _,
            plain: _,
        } = self;
    }
}

/// What a start took.
#[derive(Clone, Copy)]
pub(crate) struct StartCost {
    /// How long the queue took.
    pub(crate) took: Duration,
    /// How many keys were evicted.
    pub(crate) evicted: usize,
}

/// The time.
fn now(rt: &HostRuntime) -> Result<Instant, LineFault> {
    Instant::now(rt).map_err(|_| LineFault::NoClock)
}

/// How long ago that was; nothing if the clock can't be read.
fn since(rt: &HostRuntime, begin: Instant) -> Duration {
    begin.elapsed(rt).unwrap_or(Duration::ZERO)
}

/// Lets a queue represent a choice, and tells how long it took.
fn rebuild(
    rt: &HostRuntime,
    queue: &mut RasterQueue,
    plain: &PlainChoice,
) -> Result<Duration, LineFault>
    ensures ok { OnOk result (Alike queue.new plain.now) }
    ensures err { OnErr result (queue.new ≡ queue.old) }
{
    if !has_each_key_once(rt.alloc(), plain)? {
        return Err(LineFault::KeyTwice);
    }
    if plain.in_flight() > MOST_IN_FLIGHT {
        return Err(LineFault::TooMany);
    }
    let in_flight = plain.in_flight() as u32;
    let begin = now(rt)?;
    queue.rebuild(plain.wanted(), plain.ready(), in_flight, plain.budget())?;
    Ok(since(rt, begin))
}

/// Starts a key, and gives the choice after that.
#[tactic(auto, using(crate::proofs::QueueSteps::may_start_with))]
fn start(
    rt: &HostRuntime,
    queue: &mut RasterQueue,
    plain: &PlainChoice,
    key: TileKey,
) -> Result<(PlainChoice, StartCost), LineFault>
    requires { Alike queue.old plain.now }
    ensures ok { IfOk result (λ next. Alike queue.new next.0) }
    ensures err { OnErr result (queue.new ≡ queue.old) }
{
    if !is_wanted(rt.alloc(), plain, key)? {
        return Err(LineFault::NotWanted);
    }
    if plain.in_flight() > MOST_IN_FLIGHT {
        return Err(LineFault::TooMany);
    }
    let begin = now(rt)?;
    let evicted = queue.evicted(key)?;
    let asked = since(rt, begin);
    let next = plain.started(rt.alloc(), key, &evicted)?;
    let begin = now(rt)?;
    queue.started(key, &evicted);
    let took = asked.saturating_add(since(rt, begin));
    let evicted = evicted.len();
    Ok((next, StartCost { took, evicted }))
}

/// Makes a tile, and gives the choice after that.
#[tactic(auto, using(crate::proofs::QueueSteps::new_too))]
fn finish(
    rt: &HostRuntime,
    queue: &mut RasterQueue,
    plain: &PlainChoice,
    tile: Option<ReadyTile>,
) -> Result<(PlainChoice, Duration), LineFault>
    requires { Alike queue.old plain.now }
    ensures ok { IfOk result (λ next. Alike queue.new next.0) }
    ensures err { OnErr result (queue.new ≡ queue.old) }
{
    let alloc = rt.alloc();
    if !may_finish(alloc, plain, tile)? {
        return Err(LineFault::NotNew);
    }
    let next = plain.finished(alloc, tile)?;
    let begin = now(rt)?;
    queue.finished(tile);
    Ok((next, since(rt, begin)))
}

impl CheckedQueue {
    /// A queue for nothing.
    pub(crate) fn new(alloc: Global) -> CheckedQueue {
        CheckedQueue {
            alloc,
            queue: RasterQueue::new(alloc),
            plain: PlainChoice::new(Vec::new(alloc), Vec::new(alloc), 0, 0),
        }
    }

    /// What the queue takes its memory from.
    pub(crate) fn alloc(&self) -> Global {
        self.alloc
    }

    /// The queue.
    pub(crate) fn queue(&self) -> &RasterQueue {
        &self.queue
    }

    /// The choice.
    pub(crate) fn plain(&self) -> &PlainChoice {
        &self.plain
    }

    /// Lets the queue represent a choice, and tells how long that took.
    pub(crate) fn rebuild(
        &mut self,
        rt: &HostRuntime,
        plain: PlainChoice,
    ) -> Result<Duration, LineFault> {
        let took = rebuild(rt, &mut self.queue, &plain)?;
        self.plain = plain;
        Ok(took)
    }

    /// Starts a key that is wanted.
    pub(crate) fn start(&mut self, rt: &HostRuntime, key: TileKey) -> Result<StartCost, LineFault> {
        let (next, started) = start(rt, &mut self.queue, &self.plain, key)?;
        self.plain = next;
        Ok(started)
    }

    /// Makes a tile that is in flight; it is ready if it is given. Tells how long the queue took.
    pub(crate) fn finish(
        &mut self,
        rt: &HostRuntime,
        tile: Option<ReadyTile>,
    ) -> Result<Duration, LineFault> {
        let (next, took) = finish(rt, &mut self.queue, &self.plain, tile)?;
        self.plain = next;
        Ok(took)
    }
}
