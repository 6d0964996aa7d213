//! The cache.

ghost use Rattle.std.specs.Prelude.{◌≡◌, [], true, map, IfOk};
ghost use Rattle.page_properties.specs.OffsetMap.{offset_at, AreOffsets};
ghost use Rattle.page_layers.specs.declared.command.Command.{Command as Edit};
ghost use Rattle.page_layers.specs.Pages.{Page};
ghost use Rattle.page_layers.specs.Sound.{IsPage};
ghost use Rattle.page_layers.specs.Effects.{page_after_command, layer_change_of, retiles};
ghost use Rattle.page_layers.specs.Outcomes.{Accepts, ListsChange};
ghost use Rattle.viz_quads.specs.ShownTiles.{tile_of, missing_keys, AreShownTiles};
ghost use Rattle.cc.specs.KeptTiles.{AreKeptFor, AreCurrent};

use crate::eviction::{drop_unused, evict};
use crate::kept_tile::KeptTile;
use crate::making::{Draw, shown_tiles};
use crate::marking::{drop_stale, mark, mark_all};
use page_layers::LayerTree;
use page_properties::Offsets;
use region::Changes;
use std::alloc::{AllocError, Global};
use std::marker::Model;
use viz_quads::ShownTile;

/// Tiles that were made for the draws of a page, which contracts see as their list.
pub struct TileCache {
    // In key order.
    tiles: Vec<KeptTile>,
    // How many bytes the images may take that the last draw did not use.
    budget: usize,
    // How many draws there were.
    draws: u64,
}

impl Model for TileCache {
    ghost use Rattle.std.specs.Prelude.{List};
    ghost use Rattle.cc.specs.declared.kept_tile.KeptTile.{KeptTile};

    ghost Value = { List KeptTile };

    ghost view = { λ c. c.tiles.items };
}

// Written out, since a derived drop is proved anew, field by field, in each function that lets one go.
impl Drop for TileCache {
    fn drop(self) {
        let TileCache {
            tiles: _,
            budget: _,
            draws: _,
        } = self;
    }
}

impl TileCache {
    /// A cache without tiles. The images that the last draw did not use may take this many bytes.
    pub fn new(alloc: Global, budget: usize) -> TileCache
        ensures { result ≡ [] }
    {
        TileCache {
            tiles: Vec::new(alloc),
            budget,
            draws: 0,
        }
    }

    /// Marks the tiles that a command changed: what else is kept for the main page stays so after the command,
    /// which listed these changes. The tiles are kept for the active page as before.
    pub fn mark(&mut self, main: &LayerTree, changes: &Changes)
        ensures kept { (p : Page) → AreKeptFor p self.old → AreKeptFor p self.new }
        ensures current { (p : Page) (c : Edit) → IsPage p → Accepts p c → main.now ≡ page_after_command p c → ListsChange (layer_change_of p c) (retiles p c) changes.now → AreCurrent p self.old → AreCurrent main.now self.new }
    {
        mark(&mut self.tiles, main, changes);
    }

    /// Marks all tiles: the main page is another one.
    pub fn mark_all(&mut self, active: &LayerTree, main: &LayerTree)
        requires { AreKeptFor active.now self.old }
        ensures kept { AreKeptFor active.now self.new }
        ensures current { AreCurrent main.now self.new }
    {
        mark_all(active, main, &mut self.tiles);
    }

    /// Drops the tiles that are marked: the main page is drawn from now on.
    pub fn drop_stale(&mut self, main: &LayerTree)
        requires { AreCurrent main.now self.old }
        ensures kept { AreKeptFor main.now self.new }
        ensures current { AreCurrent main.now self.new }
    {
        drop_stale(main, &mut self.tiles);
    }

    /// Drops the tiles that the last draw did not use.
    pub fn trim(&mut self, active: &LayerTree, main: &LayerTree)
        requires kept { AreKeptFor active.now self.old }
        requires current { AreCurrent main.now self.old }
        ensures kept { AreKeptFor active.now self.new }
        ensures current { AreCurrent main.now self.new }
    {
        drop_unused(active, main, &mut self.tiles, self.draws);
    }

    // The tiles that the active page shows, kept or made, for the draw that was counted last. If memory runs out,
    // those that it has not used so far are dropped, and it is tried once more.
    fn tiles_of(
        &mut self,
        alloc: Global,
        active: &LayerTree,
        main: &LayerTree,
        offsets: &Offsets,
        is_committed: bool,
    ) -> Result<Vec<ShownTile>, AllocError>
        requires offsets { AreOffsets (offset_at offsets.now) }
        requires kept { AreKeptFor active.now self.old }
        requires current { AreCurrent main.now self.old }
        requires same { is_committed ≡ true → active.now ≡ main.now }
        ensures shown { IfOk result (λ tiles. AreShownTiles active.now (offset_at offsets.now) (map tile_of tiles.items)) }
        ensures whole { IfOk result (λ tiles. missing_keys (map tile_of tiles.items) ≡ []) }
        ensures kept { AreKeptFor active.now self.new }
        ensures current { AreCurrent main.now self.new }
    {
        let draw = Draw {
            number: self.draws,
            is_committed,
        };
        match shown_tiles(alloc, active, main, offsets, &mut self.tiles, draw) {
            Ok(tiles) => Ok(tiles),
            Err(_) => {
                drop_unused(active, main, &mut self.tiles, draw.number);
                shown_tiles(alloc, active, main, offsets, &mut self.tiles, draw)
            }
        }
    }

    /// The tiles that the active page shows at these offsets of its scrollers, in key order, each with its image:
    /// kept, or made now and kept from now on. `is_committed` tells that the main page is the active one. An error
    /// means out of memory; what is kept then is right too.
    pub fn shown_tiles(
        &mut self,
        alloc: Global,
        active: &LayerTree,
        main: &LayerTree,
        offsets: &Offsets,
        is_committed: bool,
    ) -> Result<Vec<ShownTile>, AllocError>
        requires offsets { AreOffsets (offset_at offsets.now) }
        requires kept { AreKeptFor active.now self.old }
        requires current { AreCurrent main.now self.old }
        requires same { is_committed ≡ true → active.now ≡ main.now }
        ensures shown { IfOk result (λ tiles. AreShownTiles active.now (offset_at offsets.now) (map tile_of tiles.items)) }
        ensures whole { IfOk result (λ tiles. missing_keys (map tile_of tiles.items) ≡ []) }
        ensures kept { AreKeptFor active.now self.new }
        ensures current { AreCurrent main.now self.new }
    {
        self.draws = self.draws.saturating_add(1);
        let tiles = self.tiles_of(alloc, active, main, offsets, is_committed)?;
        evict(active, main, &mut self.tiles, self.budget, self.draws);
        Ok(tiles)
    }
}
