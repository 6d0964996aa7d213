//! What a page shows whose scrollers stand at its main values.

ghost use Rattle.std.specs.Prelude.{◌≡◌, true, IfOk};
ghost use Rattle.page_layers.specs.Effects.{main_point};
ghost use Rattle.page_layers.specs.Hits as hits;
ghost use Rattle.page_hit_test.specs.Wheels.{IsAmount, IsWheel};
ghost use Rattle.cc.specs.KeptTiles.{AreKeptFor, AreCurrent};
ghost use Rattle.cc.specs.Compositors.{IsSceneOf};

use crate::TileCache;
use geom::Point;
use page_hit_test::{Wheel, main_values_are_within_ranges, target, wheel_parts};
use page_layers::{LayerTree, main_offsets};
use pixel::Colour;
use std::alloc::{AllocError, Global};
use viz_quads::quads_of;
use viz_scene::Scene;

/// What a wheel at a point of the screen does.
pub(crate) fn wheel_on(
    alloc: Global,
    page: &LayerTree,
    at: Point,
    asked: Point,
) -> Result<Wheel, AllocError>
    requires across { IsAmount asked.x }
    requires down { IsAmount asked.y }
    ensures { IfOk result (IsWheel page.now (main_point page.now) at.x at.y asked.x asked.y) }
{
    page.is_page();
    main_values_are_within_ranges();
    let offsets = main_offsets(alloc, page)?;
    wheel_parts(alloc, page, &offsets, at, asked)
}

/// The topmost layer that covers a point of the screen; 0 exactly if none does.
pub(crate) fn target_on(alloc: Global, page: &LayerTree, at: Point) -> Result<u32, AllocError>
    ensures { IfOk result (λ id. id ≡ hits.target page.now (main_point page.now) at.x at.y) }
{
    let offsets = main_offsets(alloc, page)?;
    Ok(target(page, &offsets, at))
}

/// The scene of the active page, over this background.
pub(crate) fn scene_of(
    alloc: Global,
    active: &LayerTree,
    main: &LayerTree,
    background: Colour,
    cache: &mut TileCache,
    is_committed: bool,
) -> Result<Scene, AllocError>
    requires kept { AreKeptFor active.now cache.old }
    requires current { AreCurrent main.now cache.old }
    requires same { is_committed ≡ true → active.now ≡ main.now }
    ensures scene { IfOk result (IsSceneOf active.now (main_point active.now) background) }
    ensures kept { AreKeptFor active.now cache.new }
    ensures current { AreCurrent main.now cache.new }
{
    let offsets = main_offsets(alloc, active)?;
    let tiles = cache.shown_tiles(alloc, active, main, &offsets, is_committed)?;
    let view = active.view();
    quads_of(
        alloc,
        active,
        &offsets,
        view.w,
        view.h,
        view.tile,
        background,
        tiles.as_slice(),
    )
}
