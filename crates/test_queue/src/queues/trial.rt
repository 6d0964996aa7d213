//! Random steps of a queue, each compared with the definitions.

ghost use Rattle.std.specs.Prelude.{◌<◌};

use crate::choice::PlainChoice;
use crate::queues::agreement::agrees;
use crate::queues::checked_queue::CheckedQueue;
use crate::queues::dice::{rank, tile};
use geom::TileKey;
use std::alloc::{AllocError, Global};
use test_table::{Dice, LineFault};
use tile_priority::{Rank, ReadyTile};

/// How many keys there are.
const KEYS: u32 = 36;

/// What was counted.
#[derive(Clone, Copy)]
pub(crate) struct Counts {
    /// How many steps were new choices.
    pub(crate) rebuilds: u64,
    /// How many were starts.
    pub(crate) starts: u64,
    /// How many keys were evicted for them.
    pub(crate) evicted: u64,
    /// How many tiles were made.
    pub(crate) finishes: u64,
    /// The step after which the queue answered otherwise than the definitions.
    pub(crate) differs: Option<u64>,
}

impl Counts {
    /// Nothing was counted.
    const NONE: Counts = Counts {
        rebuilds: 0,
        starts: 0,
        evicted: 0,
        finishes: 0,
        differs: None,
    };
}

/// A queue on its way, and the keys in flight.
struct Trial {
    dice: Dice,
    queue: CheckedQueue,
    in_flight: Vec<TileKey>,
    counts: Counts,
}

// Written out, since a derived drop is proved anew, field by field, in each function that lets one go.
impl Drop for Trial {
    fn drop(self) {
        let Trial {
            dice: _,
            queue: _,
            in_flight: _,
            counts: _,
        } = self;
    }
}

/// The key of a number below 36.
fn key_of(number: u32) -> TileKey
    requires { number < 36 }
{
    TileKey {
        layer: 1 + number / 12,
        x: number % 4,
        y: number / 4 % 3,
        stamp: number % 2,
    }
}

/// What the keys are thrown into.
#[derive(Drop)]
struct Thrown {
    wanted: Vec<Rank>,
    ready: Vec<ReadyTile>,
    in_flight: Vec<TileKey>,
}

impl Thrown {
    /// Throws a key: it is wanted, ready, in flight or none of these.
    fn throw(&mut self, dice: &mut Dice, key: TileKey) -> Result<(), AllocError> {
        match dice.below(6) {
            0 | 1 => self.wanted.push(rank(dice, key))?,
            2 | 3 => self.ready.push(tile(dice, key))?,
            4 => self.in_flight.push(key)?,
            _ => (),
        }
        Ok(())
    }

    /// Throws all keys.
    fn all(alloc: Global, dice: &mut Dice) -> Result<Thrown, AllocError> {
        let mut thrown = Thrown {
            wanted: Vec::new(alloc),
            ready: Vec::new(alloc),
            in_flight: Vec::new(alloc),
        };
        for number in 0..KEYS {
            thrown.throw(dice, key_of(number))?;
        }
        Ok(thrown)
    }
}

impl Trial {
    /// A new choice.
    fn rebuild(&mut self, rt: &HostRuntime) -> Result<(), LineFault> {
        let thrown = Thrown::all(rt.alloc(), &mut self.dice)?;
        let budget = self.dice.below(24);
        let flying = thrown.in_flight.len();
        self.in_flight = thrown.in_flight;
        let choice = PlainChoice::new(thrown.wanted, thrown.ready, flying, budget);
        self.queue.rebuild(rt, choice)?;
        self.counts.rebuilds = self.counts.rebuilds.saturating_add(1);
        Ok(())
    }

    /// The first key, or any wanted one.
    fn wanted_key(&mut self) -> Option<TileKey> {
        let first = self.queue.queue().first();
        if first.is_some() && self.dice.below(2) == 0 {
            return first;
        }
        let wanted = self.queue.plain().wanted();
        let place = self.dice.throw() as usize;
        Some(wanted.get(place.checked_rem(wanted.len())?)?.key)
    }

    /// Starts a wanted key, if there is one.
    fn start(&mut self, rt: &HostRuntime) -> Result<(), LineFault> {
        let Some(key) = self.wanted_key() else {
            return Ok(());
        };
        let started = self.queue.start(rt, key)?;
        self.in_flight.push(key)?;
        self.counts.starts = self.counts.starts.saturating_add(1);
        self.counts.evicted = self.counts.evicted.saturating_add(started.evicted as u64);
        Ok(())
    }

    /// Makes a tile in flight, if there is one; one of four is needed no more.
    fn finish(&mut self, rt: &HostRuntime) -> Result<(), LineFault> {
        let place = self.dice.throw() as usize % 36;
        if place >= self.in_flight.len() {
            return Ok(());
        }
        let key = self.in_flight.swap_remove(place);
        let made = if self.dice.below(4) == 0 {
            None
        } else {
            Some(tile(&mut self.dice, key))
        };
        self.queue.finish(rt, made)?;
        self.counts.finishes = self.counts.finishes.saturating_add(1);
        Ok(())
    }

    /// One step, and whether the queue answers as the definitions say after it.
    fn step(&mut self, rt: &HostRuntime) -> Result<bool, LineFault> {
        match self.dice.below(24) {
            0 => self.rebuild(rt)?,
            1..=10 => self.start(rt)?,
            _ => self.finish(rt)?,
        }
        let most = self.dice.below(8);
        let key = key_of(self.dice.below(KEYS));
        agrees(&self.queue, most, key)
    }
}

/// Takes the given number of random steps, up to the first after which the queue answers otherwise.
pub(crate) fn try_steps(rt: &HostRuntime, seed: u64, steps: u64) -> Result<Counts, LineFault> {
    let mut trial = Trial {
        dice: Dice::new(seed),
        queue: CheckedQueue::new(rt.alloc()),
        in_flight: Vec::new(rt.alloc()),
        counts: Counts::NONE,
    };
    trial.rebuild(rt)?;
    for step in 0..steps {
        if !trial.step(rt)? {
            trial.counts.differs = Some(step);
            break;
        }
    }
    Ok(trial.counts)
}
