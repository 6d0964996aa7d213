//! Stamps of tilings worked by hand.

ghost use Rattle.std.specs.Prelude.{pos, ◌≤◌, ◌≤ℤ◌, IfSome};
ghost use Rattle.geom.specs.Covers.{IsSound};

use geom::{Grid, Rect, TileKey};
use region::{LayerChange, Region};
use std::alloc::{AllocError, Global};
use test_table::{Checks, LineFault};
use tile_tiling::Tiling;

/// A change stamps the places that it touches.
pub fn stamps_after_a_change(alloc: Global, checks: &mut Checks) -> Result<(), LineFault> {
    let mut tiling = Tiling::new(alloc, grid(32), 0)?;
    tiling.carry(&change(alloc, Some(pixel(16)))?, 3);
    tiling.carry(&change(alloc, None)?, 4);
    let keys = tiling.covering(1, pixel(0))?;
    checks.same("untouched", &keys.as_slice(), &[key(1, 0, 0)].as_slice());
    let keys = tiling.covering(1, pixel(16))?;
    checks.same("touched", &keys.as_slice(), &[key(1, 1, 3)].as_slice());
    Ok(())
}

/// A copy keeps its stamps when the tiling is resized.
pub fn stamps_of_a_copy(alloc: Global, checks: &mut Checks) -> Result<(), LineFault> {
    let mut tiling = Tiling::new(alloc, grid(32), 0)?;
    tiling.carry(&change(alloc, Some(pixel(0)))?, 1);
    let copy = tiling.copy()?;
    tiling.resize(grid(16), 2)?;
    let all = Rect {
        x: 0,
        y: 0,
        w: 32,
        h: 16,
    };
    let keys = copy.covering(7, all)?;
    let kept = [key(7, 0, 1), key(7, 1, 0)];
    checks.same("of the copy", &keys.as_slice(), &kept.as_slice());
    let keys = tiling.covering(7, all)?;
    checks.same("resized", &keys.as_slice(), &[key(7, 0, 2)].as_slice());
    Ok(())
}

/// Tiles of 16 by 16, one row of them.
fn grid(w: u32) -> Grid
    requires low { 1 ≤ w }
    requires high { w ≤ 100 }
{
    Grid { w, h: 16, tile: 16 }
}

/// A key of the first row.
fn key(layer: u32, x: u32, stamp: u32) -> TileKey {
    TileKey {
        layer,
        x,
        y: 0,
        stamp,
    }
}

/// One pixel of the first row.
fn pixel(x: i32) -> Rect
    requires low { pos 0 ≤ℤ x }
    requires high { x ≤ℤ pos 100 }
    ensures { IsSound result }
{
    Rect {
        x,
        y: 0,
        w: 1,
        h: 1,
    }
}

/// A change of the first layer in this rect, or in none.
fn change(alloc: Global, rect: Option<Rect>) -> Result<LayerChange, AllocError>
    requires { IfSome rect IsSound }
{
    let mut region = Region::new(alloc);
    if let Some(rect) = rect {
        region.add(rect)?;
    }
    Ok(LayerChange {
        layer: 1,
        whole: false,
        region,
    })
}
