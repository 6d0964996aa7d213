//! The grid of a layer: its places, their rects, and the places that an area touches.

ghost use Rattle.std.specs.Prelude.{◌≡◌, ◌≤◌, IsTrue, IfOk};
ghost use Rattle.geom.specs.Covers.{covers, IsSound};
ghost use Rattle.geom.specs.IndexRanges;
ghost use Rattle.geom.specs.IndexRanges.{IsMeeting};
ghost use Rattle.geom.specs.Grids;
ghost use Rattle.geom.specs.Grids.{bounds, has, place_of, places_touching, rect_of_place, CoverOnce, IsPlaceOf, PartTheLayer};

use crate::cut::{IndexRange, part, tile_of, tiles, tiles_meeting};
use crate::rect::{Point, Rect};
use crate::tile::Place;
use std::alloc::{AllocError, Global};
use std::marker::Model;

/// A layer of `w` by `h` pixels, cut into square tiles of side `tile`; the last column and the last
/// row are cut to the layer. Each of the three is from 1 to 16384.
#[derive(Clone, Copy, PartialEq, Eq, Debug)]
pub struct Grid {
    /// The layer's width.
    pub w: u32,
    /// The layer's height.
    pub h: u32,
    /// The side of a tile.
    pub tile: u32,
}

impl Model for Grid {
    ghost use Rattle.geom.specs.Sides.{Sides, IsGrid};

    ghost Value = { Sides };

    ghost view = { λ g. record { w = g.w; h = g.h; tile = g.tile } };

    ghost invariant = { λ g. IsGrid (record { w = g.w; h = g.h; tile = g.tile }) };

    ghost inverse = { λ s. record { w = s.w; h = s.h; tile = s.tile } };
}

impl Grid {
    /// Whether the grid has this place.
    pub fn has(self, p: Place) -> bool
        ensures { result ≡ has self p }
    {
        let across = p.x < tiles(self.w, self.tile);
        let down = p.y < tiles(self.h, self.tile);
        across && down
    }

    /// How many columns there are, from 1 to 16384.
    #[tactic(auto, using(crate::proofs::Cuts::tiles_few))]
    pub fn columns(self) -> u32
        ensures value { result ≡ Grids.tiles self.w self.tile }
        ensures few { result ≤ 16384 }
    {
        tiles(self.w, self.tile)
    }

    /// How many rows there are, from 1 to 16384.
    #[tactic(auto, using(crate::proofs::Cuts::tiles_few))]
    pub fn rows(self) -> u32
        ensures value { result ≡ Grids.tiles self.h self.tile }
        ensures few { result ≤ 16384 }
    {
        tiles(self.h, self.tile)
    }

    /// The columns of the places whose rect shares a point with `area`, if the rows are those of
    /// `rows_touching`.
    pub fn columns_touching(self, area: Rect) -> IndexRange
        requires { IsSound area }
        ensures { IsMeeting self.w self.tile area.x area.w result }
    {
        tiles_meeting(self.w, self.tile, area.x, area.w)
    }

    /// The rows of the places whose rect shares a point with `area`, if the columns are those of
    /// `columns_touching`.
    pub fn rows_touching(self, area: Rect) -> IndexRange
        requires { IsSound area }
        ensures { IsMeeting self.h self.tile area.y area.h result }
    {
        tiles_meeting(self.h, self.tile, area.y, area.h)
    }

    /// The rect of a place, which the grid is to have.
    pub fn rect_of(self, p: Place) -> Rect
        requires { IsTrue (has self p) }
        ensures value { result ≡ rect_of_place self p }
        ensures sound { IsSound result }
    {
        let across = part(self.w, self.tile, p.x);
        let down = part(self.h, self.tile, p.y);
        Rect {
            x: across.at,
            y: down.at,
            w: across.len,
            h: down.len,
        }
    }

    /// The place that a point lies in. The point is to be inside the grid.
    pub fn place_of(self, p: Point) -> Place
        requires { IsTrue (covers (bounds self) p.x p.y) }
        ensures value { result ≡ place_of self p }
        ensures place { IsPlaceOf self p.x p.y result }
    {
        let x = tile_of(self.w, self.tile, p.x);
        let y = tile_of(self.h, self.tile, p.y);
        Place { x, y }
    }

    /// The places whose rect shares a point with `area`, by row and then by column, each once. They
    /// are found by division: the work is that of writing them down. An error means out of memory.
    #[tactic(auto, using(crate::proofs::Cuts::tiles_few))]
    pub fn places_touching(self, alloc: Global, area: Rect) -> Result<Vec<Place>, AllocError>
        requires { IsSound area }
        ensures { IfOk result (λ v. v.items ≡ places_touching self area) }
    {
        let columns = self.columns_touching(area);
        let rows = self.rows_touching(area);
        block(alloc, columns, rows)
    }
}

/// The places of these columns and rows, by row and then by column.
#[tactic(auto, unfolding(crate::specs::IndexRanges::block))]
fn block(alloc: Global, columns: IndexRange, rows: IndexRange) -> Result<Vec<Place>, AllocError>
    requires columns_ordered { columns.first ≤ columns.end }
    requires rows_ordered { rows.first ≤ rows.end }
    requires few_columns { columns.end ≤ 16384 }
    requires few_rows { rows.end ≤ 16384 }
    ensures { IfOk result (λ v. v.items ≡ IndexRanges.block columns rows) }
{
    let in_row = (columns.end - columns.first) as usize;
    let in_all = in_row * (rows.end - rows.first) as usize;
    let mut places = Vec::with_capacity(alloc, in_all)?;
    for y in rows.first..rows.end {
        for x in columns.first..columns.end {
            places.push(Place { x, y })?;
        }
    }
    Ok(places)
}

/// The places of each grid part its layer: each point of the layer lies in the rect of exactly one
/// place, and no place covers a point outside the layer. A law that does nothing when it runs.
pub fn places_part_the_layer()
    ensures { PartTheLayer }
{}

/// The same, of the list of a grid's places: those that cover a point of the layer are one, and none
/// covers another point. A law that does nothing when it runs.
pub fn places_cover_once()
    ensures { CoverOnce }
{}
