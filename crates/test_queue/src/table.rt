//! The table of standard input.

use crate::queues::{CheckedQueue, agrees, answer, key_of, queue_of, ready_of, try_steps};
use geom::TileKey;
use std::alloc::Global;
use std::io;
use test_table::{LineFault, Table, Tally};

/// A key that no layer has.
const NO_KEY: TileKey = TileKey {
    layer: 0,
    x: 0,
    y: 0,
    stamp: 0,
};

/// What was read of the table so far.
#[derive(Drop)]
pub struct QueueTable {
    queue: CheckedQueue,
    /// How many answers and steps there were.
    count: usize,
    tally: Tally,
}

impl QueueTable {
    /// Nothing was read.
    pub fn new(alloc: Global) -> QueueTable {
        QueueTable {
            queue: CheckedQueue::new(alloc),
            count: 0,
            tally: Tally::NONE,
        }
    }

    /// Whether the queue answers as the definitions say.
    fn agrees(&self) -> Result<bool, LineFault> {
        let key = self.queue.queue().first().unwrap_or(NO_KEY);
        agrees(&self.queue, 8, key)
    }

    /// Takes random steps of another queue, `SEED COUNT`, up to the first after which it answers otherwise than the
    /// definitions.
    fn random_steps(&mut self, rt: &HostRuntime, line: usize, row: &str) -> Result<(), LineFault> {
        let Some((seed, count)) = row.split_once(' ') else {
            return Err(LineFault::NoForm);
        };
        let seed = seed.parse::<u64>().map_err(|_| LineFault::NoForm)?;
        let count = count.parse::<u64>().map_err(|_| LineFault::NoForm)?;
        if try_steps(rt, seed, count)?.differs.is_some() {
            self.tally
                .compare(rt, line, "otherwise", "as the definitions say");
        }
        Ok(())
    }

    /// Takes a step: a new queue, a start, or a tile that was made.
    fn step(&mut self, rt: &HostRuntime, name: &str, row: &str) -> Result<(), LineFault> {
        match name {
            "queue" => {
                let choice = queue_of(self.queue.alloc(), row)?;
                self.queue.rebuild(rt, choice)?;
            }
            "start" => {
                self.queue.start(rt, key_of(row)?)?;
            }
            "finish" => {
                let tile = if row == "-" {
                    None
                } else {
                    Some(ready_of(row)?)
                };
                self.queue.finish(rt, tile)?;
            }
            _ => return Err(LineFault::NoForm),
        }
        Ok(())
    }
}

impl Table<HostRuntime> for QueueTable {
    type Fault = LineFault;

    fn take(&mut self, rt: &HostRuntime, line: usize, text: &str) -> Result<(), LineFault> {
        self.count = self.count.saturating_add(1);
        if let Some((question, wanted)) = text.split_once(" => ") {
            let told = answer(self.queue.alloc(), self.queue.queue(), question)?;
            self.tally.compare(rt, line, told.as_str(), wanted);
            return Ok(());
        }
        let Some((name, row)) = text.split_once(' ') else {
            return Err(LineFault::NoForm);
        };
        if name == "steps" {
            return self.random_steps(rt, line, row);
        }
        self.step(rt, name, row)?;
        if !self.agrees()? {
            self.tally
                .compare(rt, line, "otherwise", "as the definitions say");
        }
        Ok(())
    }

    fn tally(&self) -> Tally {
        self.tally
    }

    fn tell(&self, rt: &HostRuntime) -> io::Result<()> {
        let count = self.count;
        println!(rt; "{count} answers and steps")
    }
}
