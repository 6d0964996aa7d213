//! Pages from their numbers.

use crate::pair::{Pair, Trouble};
use std::alloc::Global;
use std::io;
use test_table::Dice;

// How many frames each page has.
const FRAMES: u32 = 25;

// What became of a page.
#[derive(Clone, Copy)]
struct Seen {
    // How many pictures were compared, with all tiles there.
    whole: u32,
    // How many of them differed.
    wrong: u32,
    // How many frames were drawn before all tiles were there.
    early: u32,
    // How many tiles were made.
    tiles: u32,
}

impl Seen {
    // Counts tiles that were made.
    fn count_tiles(&mut self, made: u32) {
        self.tiles = self.tiles.saturating_add(made);
    }

    // Counts a draw before all tiles were there, which lacks some if its picture differs.
    fn count_early(&mut self, is_same: bool) {
        if !is_same {
            self.early = self.early.saturating_add(1);
        }
    }

    // Counts a picture that was compared with all tiles there.
    fn count_whole(&mut self, is_same: bool) {
        self.whole = self.whole.saturating_add(1);
        if !is_same {
            self.wrong = self.wrong.saturating_add(1);
        }
    }
}

// Plays a page: each frame is drawn once while tiles are lacking, and once with all of them.
fn play_page(alloc: Global, seed: u64) -> Result<Seen, Trouble> {
    let mut dice = Dice::new(seed);
    let workers = 1 + dice.below(4);
    let mut pair = Pair::new(alloc, workers)?;
    let mut seen = Seen {
        whole: 0,
        wrong: 0,
        early: 0,
        tiles: 0,
    };
    for frame in 0..FRAMES {
        pair.tick()?;
        pair.run_main(&mut dice, frame == 0)?;
        let few = dice.below(6);
        seen.count_tiles(pair.work(workers, few)?);
        pair.live.activate()?;
        seen.count_early(pair.draw()?);
        seen.count_tiles(pair.work(workers, 4_000)?);
        pair.live.activate()?;
        pair.scroll(&mut dice)?;
        seen.count_tiles(pair.work(workers, 4_000)?);
        pair.tick()?;
        seen.count_whole(pair.draw()?);
    }
    Ok(seen)
}

/// Plays so many pages, and prints a line for each; answers whether all pictures were the same.
pub(crate) fn play(rt: &HostRuntime, pages: u64) -> io::Result<bool> {
    let mut all = true;
    for number in 0..pages {
        let seed = number + 1;
        match play_page(rt.alloc(), seed) {
            Ok(seen) => {
                let Seen {
                    whole,
                    wrong,
                    early,
                    tiles,
                } = seen;
                println!(rt; "page {seed}: {whole} pictures, {wrong} differ")?;
                println!(rt; "  {tiles} tiles, {early} drawn early")?;
                all = all && wrong == 0;
            }
            Err(Trouble::Refused) => {
                println!(rt; "page {seed}: a call was refused")?;
                all = false;
            }
            Err(Trouble::Memory) => {
                println!(rt; "page {seed}: out of memory")?;
                all = false;
            }
        }
    }
    Ok(all)
}
