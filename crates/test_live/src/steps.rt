//! The calls of the threads.

use crate::pair::{Pair, Trouble};
use test_table::Dice;

// How many tiles are made at most between two calls.
const MOST_TILES: u32 = 4_000;

impl Pair {
    /// The main thread's part of a frame: it is asked, takes what was scrolled, edits, and ends the frame.
    pub(crate) fn run_main(&mut self, dice: &mut Dice, is_first: bool) -> Result<(), Trouble> {
        self.live.ask()?;
        self.live.main_begin()?;
        if is_first {
            self.add_all(dice)?;
        }
        for _ in 0..dice.below(6) {
            self.edit_some(dice)?;
        }
        self.live.main_end()?;
        self.other.commit()?;
        self.live.commit()?;
        Ok(())
    }

    // Does the job at a slot.
    fn work_at(&mut self, slot: u32) -> Result<(), Trouble> {
        let Some(ticket) = self.live.job_of(slot)? else {
            return Ok(());
        };
        match ticket.raster(self.alloc) {
            Ok(made) => {
                self.live.hand_in(made);
                Ok(())
            }
            Err((_, _)) => Err(Trouble::Memory),
        }
    }

    /// Makes some tiles, or all that are wanted: as many jobs are out at once as there are slots.
    pub(crate) fn work(&mut self, workers: u32, most: u32) -> Result<u32, Trouble> {
        let mut made = 0u32;
        for _ in 0..most.min(MOST_TILES) {
            if self.live.start_job()?.is_none() {
                for slot in 0..workers {
                    self.work_at(slot)?;
                }
                match self.live.start_job()? {
                    None => break,
                    Some(_) => {}
                }
            }
            made = made.saturating_add(1);
        }
        for slot in 0..workers {
            self.work_at(slot)?;
        }
        Ok(made)
    }

    /// Scrolls both by the same.
    pub(crate) fn scroll(&mut self, dice: &mut Dice) -> Result<(), Trouble> {
        let dx = dice.below(60) as i32 - 30;
        let dy = dice.below(80) as i32 - 30;
        self.live.scroll(1, dx, dy)?;
        self.other.scroll(1, dx, dy);
        Ok(())
    }

    /// Begins an impl frame.
    pub(crate) fn tick(&mut self) -> Result<(), Trouble> {
        self.live.tick()?;
        Ok(())
    }

    /// Draws and ends the impl frame; answers whether the two pictures are the same.
    pub(crate) fn draw(&mut self) -> Result<bool, Trouble> {
        let scene = self.live.draw()?;
        self.live.finish()?;
        match scene {
            None => Ok(false),
            Some(scene) => {
                self.painter.paint(scene)?;
                self.other.draw()?;
                Ok(self.painter.canvas().bytes() == self.other.frame().bytes())
            }
        }
    }
}
