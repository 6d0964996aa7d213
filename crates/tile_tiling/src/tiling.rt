//! A grid with a stamp for each place.

ghost use Rattle.std.specs.Prelude.{◌≡◌, IsTrue, OnOk, OnErr, IfOk, All, if◌then◌else◌, map};
ghost use Rattle.geom.specs.Covers.{IsSound};
ghost use Rattle.geom.specs.Grids.{has, places_touching, rect_of_place};
ghost use Rattle.region.specs.Points.{touched};
ghost use Rattle.tile_tiling.specs.Tiles.{index_of, key_of, stamp_at, HasStamps, IsCarried};

use crate::stamps::{keys_in, room_for, spread, stamp_rects};
use geom::{Grid, Place, Rect, TileKey};
use region::LayerChange;
use std::alloc::{AllocError, Global};
use std::marker::Model;

/// The places of a layer, each with its stamp.
pub struct Tiling {
    grid: Grid,
    // How many columns that makes.
    columns: u32,
    // The stamp of every place, while `stamps` is empty.
    base: u32,
    // The stamp of each place, by row and then by column, once a part of the layer has changed; until then
    // empty, with room for all.
    stamps: Vec<u32>,
}

impl Model for Tiling {
    ghost use Rattle.std.specs.Prelude.{◌≡◌};
    ghost use Rattle.std.specs.Vec.{vec_capacity};
    ghost use Rattle.geom.specs.Grids.{tiles};
    ghost use Rattle.tile_tiling.specs.Tiles.{Tiled};
    ghost use Rattle.tile_tiling.specs.inner.Kept.{stamps_of, IsKept};

    ghost Value = { Tiled };

    ghost view = { λ t. record { grid = t.grid; stamps = stamps_of t.grid t.base t.stamps.items } };

    ghost invariant = { λ t. IsKept t.grid t.stamps.items (vec_capacity t.stamps) × (t.columns ≡ tiles t.grid.w t.grid.tile) };
}

// Written out, since a derived drop is proved anew, field by field, in each function that lets one go.
impl Drop for Tiling {
    fn drop(self) {
        let Tiling {
            grid: _,
            columns: _,
            base: _,
            stamps: _,
        } = self;
    }
}

impl Tiling {
    /// The places of this grid, all with this stamp. An error means out of memory.
    pub fn new(alloc: Global, grid: Grid, stamp: u32) -> Result<Tiling, AllocError>
        ensures { IfOk result (λ t. HasStamps t grid (λ _. stamp)) }
    {
        let stamps = room_for(alloc, grid)?;
        Ok(Tiling {
            grid,
            columns: grid.columns(),
            base: stamp,
            stamps,
        })
    }

    /// Cuts the layer anew, with this stamp for all places. An error means out of memory, and the tiling is as
    /// it was.
    pub fn resize(&mut self, grid: Grid, stamp: u32) -> Result<(), AllocError>
        ensures ok { OnOk result (HasStamps self.new grid (λ _. stamp)) }
        ensures err { OnErr result (self.new ≡ self.old) }
    {
        let stamps = room_for(*self.stamps.allocator(), grid)?;
        *self = Tiling {
            grid,
            columns: grid.columns(),
            base: stamp,
            stamps,
        };
        Ok(())
    }

    /// The same tiling. An error means out of memory.
    pub fn copy(&self) -> Result<Tiling, AllocError>
        ensures { IfOk result (λ t. t ≡ self.now) }
    {
        let stamps = if self.stamps.is_empty() {
            room_for(*self.stamps.allocator(), self.grid)?
        } else {
            self.stamps.clone()?
        };
        Ok(Tiling {
            grid: self.grid,
            columns: self.columns,
            base: self.base,
            stamps,
        })
    }

    // Gives this stamp to all places.
    fn carry_all(&mut self, stamp: u32)
        ensures { HasStamps self.new self.old.grid (λ _. stamp) }
    {
        self.base = stamp;
        self.stamps.clear();
    }

    // Gives this stamp to the places that the rects touch.
    fn carry_rects(&mut self, rects: &[Rect], stamp: u32)
        requires { All IsSound rects.now }
        ensures { HasStamps self.new self.old.grid (λ p. if touched rects.now (rect_of_place self.old.grid p) then stamp else stamp_at self.old p) }
    {
        spread(&mut self.stamps, self.grid, self.base);
        stamp_rects(&mut self.stamps, self.grid, rects, stamp);
    }

    /// Gives this stamp to the places that the change's region touches, or to all if the layer changed
    /// whole. The others keep theirs.
    pub fn carry(&mut self, change: &LayerChange, stamp: u32)
        ensures { IsCarried self.old change.now stamp self.new }
    {
        if change.whole {
            self.carry_all(stamp)
        } else {
            self.carry_rects(change.region.rects(), stamp)
        }
    }

    // Where the stamp of a place stands.
    fn index_of(&self, place: Place) -> usize
        ensures { result ≡ index_of self.now.grid place }
    {
        place.y as usize * self.columns as usize + place.x as usize
    }

    /// The key of a place, which the grid is to have.
    pub fn key_at(&self, layer: u32, place: Place) -> TileKey
        requires { IsTrue (has self.now.grid place) }
        ensures { result ≡ key_of self.now layer place }
    {
        let stamp = if self.stamps.is_empty() {
            self.base
        } else {
            let index = self.index_of(place);
            self.stamps.get(index).copied().unwrap_or(0)
        };
        TileKey {
            layer,
            x: place.x,
            y: place.y,
            stamp,
        }
    }

    /// The keys of the places that share a point with `area`, by row and then by column. An error means out
    /// of memory.
    pub fn covering(&self, layer: u32, area: Rect) -> Result<Vec<TileKey>, AllocError>
        requires { IsSound area }
        ensures { IfOk result (λ keys. keys.items ≡ map (key_of self.now layer) (places_touching self.now.grid area)) }
    {
        let alloc = *self.stamps.allocator();
        let places = self.grid.places_touching(alloc, area)?;
        keys_in(alloc, &self.stamps, self.base, self.grid, layer, &places)
    }
}
