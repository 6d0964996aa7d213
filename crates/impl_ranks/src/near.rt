//! The area near the viewport of a tree, and the rank of a place.

ghost use Rattle.std.specs.Prelude.{◌≡◌, ◌≤◌, ◌≤ℤ◌, ◌+◌, ◌++◌, ◌-ℤ◌, ◌+ℤ◌, pos, [], IsTrue, OnOk};
ghost use Rattle.std.specs.List.{cons_option};
ghost use Rattle.geom.specs.Covers.{IsSound};
ghost use Rattle.geom.specs.Grids.{has};
ghost use Rattle.impl_ranks.specs.Areas as areas;
ghost use Rattle.impl_ranks.specs.inner.Lists as spec;
ghost use Rattle.impl_ranks.specs.inner.Lists.{IsNarrow, IsArea};

use crate::layer::SeenLayer;
use geom::{Place, Rect};
use std::alloc::AllocError;
use tile_priority::{Borders, Rank, Side, rank_in};

// A coordinate, moved towards the start by a border.
fn before(at: i32, by: u32) -> i32
    requires low { pos 0 ≤ℤ at }
    requires high { at ≤ℤ pos 2048 }
    requires few { by ≤ 513 }
    ensures { result ≡ at -ℤ pos by }
{
    at - by as i32
}

// A length with a border on both sides.
fn longer(len: i32, by: u32) -> i32
    requires low { pos 0 ≤ℤ len }
    requires high { len ≤ℤ pos 2048 }
    requires few { by ≤ 513 }
    ensures { result ≡ len +ℤ pos (by + by) }
{
    len + (by + by) as i32
}

// That area, without saying that it is near.
fn area_of(borders: &Borders) -> Rect
    requires { IsNarrow borders.now }
    ensures { result ≡ areas.area_near borders.now }
{
    let by = borders.eventually + 1;
    let view = borders.viewport;
    Rect {
        x: before(view.x, by),
        y: before(view.y, by),
        w: longer(view.w, by),
        h: longer(view.h, by),
    }
}

/// The viewport, and what lies up to the eventually border around it: an area near the screen.
pub(crate) fn area_near(borders: &Borders) -> Rect
    requires { IsNarrow borders.now }
    ensures value { result ≡ areas.area_near borders.now }
    ensures near { IsArea result }
{
    area_of(borders)
}

/// Puts a rank after others, if there is one. An error means out of memory.
pub(crate) fn push_rank(ranks: &mut Vec<Rank>, rank: Option<Rank>) -> Result<(), AllocError>
    ensures { OnOk result (ranks.new.items ≡ ranks.old.items ++ cons_option rank []) }
{
    if let Some(rank) = rank {
        ranks.push(rank)?;
    }
    Ok(())
}

/// The rank of a place of a layer, which it is to have.
pub(crate) fn place_rank(
    borders: &Borders,
    side: Side,
    layer: &SeenLayer<'_>,
    place: Place,
) -> Option<Rank>
    requires viewport { IsSound borders.now.viewport }
    requires there { IsTrue (has layer.now.grid place) }
    ensures { result ≡ spec.place_rank borders.now side layer.now place }
{
    let seen = layer.seen(place);
    rank_in(borders, side, &seen, layer.key_at(place))
}
