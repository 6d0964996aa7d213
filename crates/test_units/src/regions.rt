//! Regions and changes worked by hand.

ghost use Rattle.std.specs.Prelude.{pos, ◌≤ℤ◌};
ghost use Rattle.geom.specs.Covers.{IsSound};

use geom::{Point, Rect};
use region::{Changes, LayerChange, Region};
use std::alloc::{AllocError, Global};
use test_table::{Checks, LineFault};

/// A union covers both parts and no more.
pub fn union_covers_both(alloc: Global, checks: &mut Checks) -> Result<(), LineFault> {
    let mut region = Region::new(alloc);
    region.add(pixel(0))?;
    let mut other = Region::new(alloc);
    other.add(pixel(2))?;
    region.union(&other)?;
    checks.holds("the first part", region.covers(Point { x: 0, y: 0 }));
    checks.holds("nothing between", !region.covers(Point { x: 1, y: 0 }));
    checks.holds("the second part", region.covers(Point { x: 2, y: 0 }));
    checks.holds("it touches that", region.touches(pixel(2)));
    region.clip(pixel(0));
    checks.holds("no second part", !region.covers(Point { x: 2, y: 0 }));
    Ok(())
}

/// Joined changes list the layers of both.
pub fn joined_changes(alloc: Global, checks: &mut Checks) -> Result<(), LineFault> {
    let changes = changes_of(alloc, 1)?;
    let mut joined = changes.copy()?;
    let later = changes_of(alloc, 2)?;
    joined.join(&later)?;
    checks.same("of both", &layers(&joined), &[Some(1), Some(2), None]);
    joined.forget(1);
    checks.same("of one", &layers(&joined), &[Some(2), None, None]);
    checks.same("as it was", &layers(&changes), &[Some(1), None, None]);
    checks.holds("no new tiles", !joined.retiled());
    joined.mark_retiled();
    checks.holds("new tiles", joined.retiled());
    Ok(())
}

/// What changed on one layer.
fn changes_of(alloc: Global, layer: u32) -> Result<Changes, AllocError> {
    let mut changes = Changes::new(alloc);
    let change = LayerChange {
        layer,
        whole: false,
        region: Region::new(alloc),
    };
    match changes.push(change) {
        Ok(()) => Ok(changes),
        Err((full, _)) => Err(full),
    }
}

/// The layers of the first three changes.
fn layers(changes: &Changes) -> [Option<u32>; 3] {
    [
        layer_at(changes, 0),
        layer_at(changes, 1),
        layer_at(changes, 2),
    ]
}

/// The layer of a change.
fn layer_at(changes: &Changes, i: usize) -> Option<u32> {
    changes.at(i).map(|change| change.layer)
}

/// One pixel of the first row.
fn pixel(x: i32) -> Rect
    requires low { pos 0 ≤ℤ x }
    requires high { x ≤ℤ pos 100 }
    ensures { IsSound result }
{
    Rect {
        x,
        y: 0,
        w: 1,
        h: 1,
    }
}
