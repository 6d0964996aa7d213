//! Where the tiles of a layer stand on the screen, and how they are seen.

ghost use Rattle.std.specs.Prelude.{◌≡◌, ◌*◌, IsTrue, IfSome};
ghost use Rattle.geom.specs.Covers.{IsSound};
ghost use Rattle.geom.specs.Gaps.{shifted};
ghost use Rattle.geom.specs.Grids.{has, rect_of_place};
ghost use Rattle.geom.specs.Sides.{IsLayerSide};
ghost use Rattle.page_properties.specs.OffsetMap.{offset_at, AreOffsets};
ghost use Rattle.page_properties.specs.Placement.{clip_of, IsWithin};
ghost use Rattle.page_layers.specs.Layers.{parts_of};
ghost use Rattle.page_layers.specs.Pages as pages;
ghost use Rattle.tile_visible.specs.Visible as spec;

use geom::{Grid, Place, Point, Rect};
use page_layers::{Layer, LayerTree};
use page_properties::Offsets;
use tile_priority::Seen;

/// The viewport of a page.
pub fn viewport(page: &LayerTree) -> Rect
    ensures value { result ≡ pages.viewport page.now }
    ensures sound { IsSound result }
{
    page.is_page();
    let view = page.view();
    Rect {
        x: 0,
        y: 0,
        w: view.w as i32,
        h: view.h as i32,
    }
}

/// A layer cut into the tiles of its page. Both of its sides are 1 to 16384.
pub fn grid_of(page: &LayerTree, layer: &Layer) -> Grid
    requires wide { IsLayerSide layer.now.w }
    requires tall { IsLayerSide layer.now.h }
    ensures { result ≡ spec.grid_of page.now (parts_of layer.now) }
{
    page.is_page();
    Grid {
        w: layer.w,
        h: layer.h,
        tile: page.view().tile,
    }
}

/// The rect of a place, moved. The grid is to have the place, and the move is at most 256 times 1114112 on
/// both axes.
pub fn moved_place(grid: Grid, place: Place, by: Point) -> Rect
    requires there { IsTrue (has grid place) }
    requires near { IsWithin (256 * 1114112) by }
    ensures value { result ≡ shifted (rect_of_place grid place) by }
    ensures sound { IsSound result }
{
    grid.rect_of(place).shift(by)
}

/// Where a tile of a layer stands on the screen.
pub fn screen_rect(page: &LayerTree, offsets: &Offsets, layer: &Layer, place: Place) -> Rect
    requires offsets { AreOffsets (offset_at offsets.now) }
    requires wide { IsLayerSide layer.now.w }
    requires tall { IsLayerSide layer.now.h }
    requires there { IsTrue (has (spec.grid_of page.now (parts_of layer.now)) place) }
    ensures value { result ≡ spec.screen_rect page.now (offset_at offsets.now) (parts_of layer.now) place }
    ensures sound { IsSound result }
{
    let grid = grid_of(page, layer);
    let by = page.props().translation(layer.transform, offsets);
    moved_place(grid, place, by)
}

// A clip cut by a viewport; the root clip restricts nothing.
fn cut_by(view: Rect, clip: Option<Rect>) -> Rect
    requires view { IsSound view }
    requires clip { IfSome clip IsSound }
    ensures value { result ≡ spec.cut_by view clip }
    ensures sound { IsSound result }
{
    match clip {
        None => view,
        Some(clip) => clip.intersect(view),
    }
}

/// The part of the viewport that the clip of a layer lets through.
pub fn clip_in(page: &LayerTree, offsets: &Offsets, layer: &Layer) -> Rect
    requires offsets { AreOffsets (offset_at offsets.now) }
    ensures value { result ≡ spec.cut_by (pages.viewport page.now) (clip_of (offset_at offsets.now) page.now.props.transforms page.now.props.clips layer.now.clip) }
    ensures sound { IsSound result }
{
    cut_by(viewport(page), page.props().clip_of(layer.clip, offsets))
}

/// How a tile of a layer is seen.
pub fn seen(page: &LayerTree, offsets: &Offsets, layer: &Layer, place: Place) -> Seen
    requires offsets { AreOffsets (offset_at offsets.now) }
    requires wide { IsLayerSide layer.now.w }
    requires tall { IsLayerSide layer.now.h }
    requires there { IsTrue (has (spec.grid_of page.now (parts_of layer.now)) place) }
    ensures value { result ≡ spec.seen page.now (offset_at offsets.now) (parts_of layer.now) place }
    ensures screen { IsSound result.screen }
    ensures clip { IsSound result.clip }
{
    let screen = screen_rect(page, offsets, layer, place);
    let clip = clip_in(page, offsets, layer);
    let draws = page.props().draws(layer.effect);
    Seen {
        screen,
        clip,
        draws,
    }
}
