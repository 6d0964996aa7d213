//! The tables, one after another.

use std::alloc::Global;
use std::io;
use test_channels::Channels;
use test_damage::Scenes;
use test_draw::Drawings;
use test_pages::{Calls, HitQuestions, Pushes};
use test_queue::QueueTable;
use test_table::{LineFault, Questions, Table, Tally};
use test_units::Units;

/// A table.
#[derive(Clone, Copy)]
enum Part {
    Hits,
    Calls,
    Commits,
    Units,
    Channels,
    Queue,
    Damage,
    Drawn,
}

/// The table of a name.
fn part_of(name: &str) -> Result<Part, LineFault> {
    match name {
        "hits" => Ok(Part::Hits),
        "calls" => Ok(Part::Calls),
        "commits" => Ok(Part::Commits),
        "units" => Ok(Part::Units),
        "channels" => Ok(Part::Channels),
        "queue" => Ok(Part::Queue),
        "damage" => Ok(Part::Damage),
        "drawn" => Ok(Part::Drawn),
        _ => Err(LineFault::NoTable),
    }
}

/// What was read of each table so far. The cases of `channels` were tried beforehand, since they start threads.
#[derive(Drop)]
pub(crate) struct Tables {
    /// The one whose lines are read.
    part: Part,
    hits: HitQuestions,
    calls: Questions<Calls>,
    commits: Pushes,
    units: Questions<Units>,
    channels: Questions<Channels>,
    queue: QueueTable,
    damage: Questions<Scenes>,
    drawn: Questions<Drawings>,
}

impl Tables {
    /// Nothing was read.
    pub(crate) fn new(channels: Channels, alloc: Global) -> Tables {
        Tables {
            part: Part::Hits,
            hits: HitQuestions::new(alloc),
            calls: Questions::new(alloc, Calls::new(alloc)),
            commits: Pushes::new(alloc),
            units: Questions::new(alloc, Units::new(alloc)),
            channels: Questions::new(alloc, channels),
            queue: QueueTable::new(alloc),
            damage: Questions::new(alloc, Scenes::new(alloc)),
            drawn: Questions::new(alloc, Drawings::new(alloc)),
        }
    }

    /// Takes a line of the table whose lines are read.
    fn take_line(&mut self, rt: &HostRuntime, line: usize, text: &str) -> Result<(), LineFault> {
        match self.part {
            Part::Hits => self.hits.take(rt, line, text),
            Part::Calls => self.calls.take(rt, line, text),
            Part::Commits => self.commits.take(rt, line, text),
            Part::Units => self.units.take(rt, line, text),
            Part::Channels => self.channels.take(rt, line, text),
            Part::Queue => self.queue.take(rt, line, text),
            Part::Damage => self.damage.take(rt, line, text),
            Part::Drawn => self.drawn.take(rt, line, text),
        }
    }
}

/// What a table counted.
fn tally_of<T: Table<HostRuntime>>(table: &T) -> Tally {
    table.tally()
}

impl Table<HostRuntime> for Tables {
    type Fault = LineFault;

    fn take(&mut self, rt: &HostRuntime, line: usize, text: &str) -> Result<(), LineFault> {
        match text.strip_prefix("table: ") {
            Some(name) => {
                self.part = part_of(name)?;
                Ok(())
            }
            None => self.take_line(rt, line, text),
        }
    }

    fn tally(&self) -> Tally {
        tally_of(&self.hits)
            .and(tally_of(&self.calls))
            .and(tally_of(&self.commits))
            .and(tally_of(&self.units))
            .and(tally_of(&self.channels))
            .and(tally_of(&self.queue))
            .and(tally_of(&self.damage))
            .and(tally_of(&self.drawn))
    }

    fn tell(&self, rt: &HostRuntime) -> io::Result<()> {
        self.hits.tell(rt)?;
        self.calls.tell(rt)?;
        self.commits.tell(rt)?;
        self.units.tell(rt)?;
        self.channels.tell(rt)?;
        self.queue.tell(rt)?;
        self.damage.tell(rt)?;
        self.drawn.tell(rt)
    }
}
