//! How a side of a layer is cut into tiles.

ghost use Rattle.std.specs.Prelude.{◌≡◌, ◌<◌, ◌+◌, ◌/◌, ℤ, pos, ◌+ℤ◌, ◌-ℤ◌, ◌≤ℤ◌, ◌<ℤ◌, IsTrue, unsigned_abs};
ghost use Rattle.geom.specs.Covers.{within, IsSpan};
ghost use Rattle.geom.specs.Grids;
ghost use Rattle.geom.specs.IndexRanges.{IsMeeting};
ghost use Rattle.geom.specs.Sides.{IsLayerSide};

use crate::span::{Span, common_span};

/// The numbers from `first` on and below `end`.
#[derive(Clone, Copy, Debug)]
pub struct IndexRange {
    /// The least of them.
    pub first: u32,
    /// One above the greatest; `first` if there are none.
    pub end: u32,
}

/// How many tiles a side takes.
#[tactic(auto, unfolding(crate::specs::Grids::tiles))]
pub fn tiles(side: u32, tile: u32) -> u32
    requires whole { IsLayerSide side }
    requires cut { IsLayerSide tile }
    ensures { result ≡ Grids.tiles side tile }
{
    side.div_ceil(tile)
}

/// Where tile `k` of a side starts, and how much of it the side has.
#[tactic(auto, using(crate::proofs::Cuts::starts_below), unfolding(crate::specs::Grids::part_len))]
pub fn part(side: u32, tile: u32, k: u32) -> Span
    requires whole { IsLayerSide side }
    requires cut { IsLayerSide tile }
    requires there { k < Grids.tiles side tile }
    ensures start { result.at ≡ Grids.part_at tile k }
    ensures length { result.len ≡ Grids.part_len side tile k }
    ensures sound { IsSpan result.at result.len }
{
    let at = k * tile;
    Span {
        at: at as i32,
        len: tile.min(side - at) as i32,
    }
}

/// The number of the tile of a side in which `at` lies.
#[tactic(auto, unfolding(crate::specs::Covers::within))]
pub fn tile_of(side: u32, tile: u32, at: i32) -> u32
    requires inside { IsTrue (within (pos 0) (pos side) at) }
    requires cut { IsLayerSide tile }
    ensures { result ≡ unsigned_abs at / tile }
{
    at as u32 / tile
}

/// The tiles of a side that have a number in common with a span.
pub fn tiles_meeting(side: u32, tile: u32, at: i32, len: i32) -> IndexRange
    requires whole { IsLayerSide side }
    requires cut { IsLayerSide tile }
    requires span { IsSpan at len }
    ensures { IsMeeting side tile at len result }
{
    match common_span(0, side as i32, at, len) {
        Some(common) => run_of(tile, common.at, common.len),
        None => IndexRange { first: 0, end: 0 },
    }
}

/// The tiles in which the numbers of a span lie, which is not empty and has no number below 0.
fn run_of(tile: u32, at: i32, len: i32) -> IndexRange
    requires cut { IsLayerSide tile }
    requires span { IsSpan at len }
    requires natural { pos 0 ≤ℤ at }
    requires some { pos 0 <ℤ len }
    ensures first { result.first ≡ unsigned_abs at / tile }
    ensures end { result.end ≡ unsigned_abs (at +ℤ len -ℤ pos 1) / tile + 1 }
{
    let last = at + len - 1;
    IndexRange {
        first: at as u32 / tile,
        end: last as u32 / tile + 1,
    }
}
