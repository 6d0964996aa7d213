//! Rects, places of a grid and keys worked by hand.

use geom::{Grid, Keys, Place, Point, Rect, TileKey};
use std::alloc::Global;
use test_table::{Checks, LineFault};

/// Rects that meet, that stand beside each other, and that are far from each other.
pub fn rects(checks: &mut Checks) {
    let rect = Rect {
        x: -3,
        y: -2,
        w: 5,
        h: 4,
    };
    let right = Rect {
        x: 1,
        y: -5,
        w: 9,
        h: 4,
    };
    let corner = Rect {
        x: 1,
        y: -2,
        w: 1,
        h: 1,
    };
    checks.same("they meet", &rect.intersect(right), &corner);
    let beside = Rect {
        x: 2,
        y: 0,
        w: 1,
        h: 1,
    };
    let none = Rect {
        x: 0,
        y: 0,
        w: 0,
        h: 0,
    };
    checks.same("one beside", &rect.intersect(beside), &none);
    checks.same("no distance", &rect.distance(beside), &0);
    let far = Rect {
        x: 10,
        y: 3,
        w: 2,
        h: 2,
    };
    checks.same("far", &rect.distance(far), &8);
    checks.same("as far back", &far.distance(rect), &8);
}

/// Places that an area touches, and the place of a point in a grid that is cut off.
#[tactic(auto, unfolding(geom::specs::Covers::within))]
pub fn places(alloc: Global, checks: &mut Checks) -> Result<(), LineFault> {
    let grid = Grid {
        w: 48,
        h: 32,
        tile: 16,
    };
    let area = Rect {
        x: 15,
        y: 0,
        w: 2,
        h: 1,
    };
    let places = grid.places_touching(alloc, area)?;
    checks.same(
        "touched",
        &places.as_slice(),
        &[Place { x: 0, y: 0 }, Place { x: 1, y: 0 }].as_slice(),
    );
    let cut = Grid {
        w: 40,
        h: 33,
        tile: 16,
    };
    let last = cut.place_of(Point { x: 39, y: 32 });
    checks.same("the last place", &last, &Place { x: 2, y: 2 });
    if !cut.has(last) {
        return Err(LineFault::CaseRefused);
    }
    let rest = Rect {
        x: 32,
        y: 32,
        w: 8,
        h: 1,
    };
    checks.same("its rect", &cut.rect_of(last), &rest);
    Ok(())
}

/// Keys in their order, and a copy of a list of them.
pub fn keys(alloc: Global, checks: &mut Checks) -> Result<(), LineFault> {
    let first = TileKey {
        layer: 1,
        x: 9,
        y: 0,
        stamp: 4,
    };
    let second = TileKey {
        layer: 1,
        x: 0,
        y: 1,
        stamp: 0,
    };
    checks.holds("rows come first", first < second);
    let mut keys = Keys::new(alloc);
    checks.holds("one is added", keys.push(first).is_ok());
    let copy = keys.copy()?;
    checks.same("one", &keys.len(), &1);
    checks.same("the copy's first", &copy.at(0), &Some(&first));
    checks.holds("no second", copy.at(1).is_none());
    Ok(())
}
