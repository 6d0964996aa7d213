//! A worker is done with a tile.

ghost use Rattle.std.specs.Prelude.{◌≡◌, ◌+◌, false, Some};
ghost use Rattle.model_history.specs.declared.event.Event.TheVariants as event;
ghost use Rattle.model_history.specs.Scans.{has_ended, held};
ghost use Rattle.model_steps.specs.ShownKeys.{KeyShows};
ghost use Rattle.impl_tiles.specs.Managers.{tile_made};
ghost use Rattle.impl_log.specs.Runs.{past, with_entry};

use crate::core_state::Core;
use crate::drawn::Drawn;
use model_history::Event;
use std::sync::Arc;
use tile_priority::ReadyTile;
use tile_raster::TileImage;

impl Core {
    // A worker is done with the image of the key that it holds, whose tile is this.
    pub(crate) fn done_tile(&mut self, worker: u32, image: Arc<TileImage>, tile: Option<ReadyTile>)
        requires going { has_ended (past self.old) ≡ false }
        requires holds { held worker (past self.old) ≡ Some image.value.key }
        requires shows { KeyShows self.old.script image.value.key image.value.rect image.value.list }
        requires tile { tile ≡ tile_made self.old.script (past self.old) image.value.key }
        ensures { self.new ≡ with_entry self.old (2 + worker) (event.DoneTile worker image.value.key) }
    {
        self.log.is_legal();
        let key = image.key();
        let actor = 2 + worker;
        self.log.enter_kept(actor, Event::DoneTile { worker, key });
        self.tiles.done(image, tile);
        self.drawn = Drawn::Nothing;
    }

    /// A worker is done with the image of the key that it holds, which shows it as every page of the script
    /// does that has the key: on the rect of its place, what its layer shows there. The run has not ended.
    /// Takes no memory.
    pub fn done(&mut self, worker: u32, image: Arc<TileImage>)
        requires going { has_ended (past self.old) ≡ false }
        requires holds { held worker (past self.old) ≡ Some image.value.key }
        requires shows { KeyShows self.old.script image.value.key image.value.rect image.value.list }
        ensures { self.new ≡ with_entry self.old (2 + worker) (event.DoneTile worker image.value.key) }
    {
        let key = image.key();
        let pinned = self.tiles.pinned(key);
        let tile = self.host.tile(self.log.plan(), key, pinned);
        self.done_tile(worker, image, tile);
    }
}
