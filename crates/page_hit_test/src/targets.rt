//! Which layer a point of the screen hits.

ghost use Rattle.std.specs.Prelude.{◌≡◌, ◌≤◌, true, pos, cond, ◌-ℤ◌, map, All, FitsSigned};
ghost use mir.Syntax.{w32};
ghost use Rattle.geom.specs.Covers.{covers};
ghost use Rattle.geom.specs.Sides.{IsLayerSide};
ghost use Rattle.page_properties.specs.OffsetMap.{offset_at, AreOffsets};
ghost use Rattle.page_properties.specs.Placement.{draws, translation as translation_at};
ghost use Rattle.page_properties.specs.Trees.{IsTrees};
ghost use Rattle.page_layers.specs.Layers.{parts_of};
ghost use Rattle.page_layers.specs.Hits as hits;
ghost use Rattle.page_layers.specs.Paintings.{IsScreenPoint};
ghost use Rattle.page_properties.specs.inner.Tables.{IsTable};
ghost use Rattle.page_hit_test.specs.inner.Found.{is_open_at};
ghost use Rattle.page_hit_test.specs.inner.Screens.{is_in_view, is_within_bounds};

use crate::found::{root_holds, root_place};
use crate::walks::{is_drawn, is_let_through, translation};
use geom::{Point, Rect};
use page_layers::{Layer, LayerTree};
use page_properties::Offsets;

// Whether a rect of this size at the origin covers a point.
fn box_covers(w: u32, h: u32, p: Point) -> bool
    requires wide { w ≤ 16384 }
    requires tall { h ≤ 16384 }
    ensures { result ≡ covers (record { x = pos 0; y = pos 0; w = pos w; h = pos h }) p.x p.y }
{
    let rect = Rect {
        x: 0,
        y: 0,
        w: w as i32,
        h: h as i32,
    };
    rect.contains(p)
}

/// A coordinate, moved back.
pub(crate) fn back(at: i32, by: i32) -> i32
    requires { FitsSigned w32 (at -ℤ by) }
    ensures { result ≡ at -ℤ by }
{
    at - by
}

// A point, moved back.
fn point_back(p: Point, by: Point) -> Point
    requires across { FitsSigned w32 (p.x -ℤ by.x) }
    requires down { FitsSigned w32 (p.y -ℤ by.y) }
    ensures across { result.x ≡ p.x -ℤ by.x }
    ensures down { result.y ≡ p.y -ℤ by.y }
{
    let x = back(p.x, by.x);
    let y = back(p.y, by.y);
    Point { x, y }
}

// Whether a point of the screen, moved back, is inside the bounds of a layer.
fn is_inside(
    tree: &LayerTree,
    offsets: &Offsets,
    p: Point,
    layer: &Layer,
    places: &mut [(u32, Point)],
) -> bool
    requires trees { IsTrees tree.now.props }
    requires offsets { AreOffsets (offset_at offsets.now) }
    requires screen { IsScreenPoint p.x p.y }
    requires wide { IsLayerSide layer.now.w }
    requires tall { IsLayerSide layer.now.h }
    requires places { IsTable (translation_at (offset_at offsets.now) tree.now.props.transforms) places.old }
    ensures value { result ≡ is_within_bounds tree.now (offset_at offsets.now) p.x p.y (parts_of layer.now) }
    ensures places { IsTable (translation_at (offset_at offsets.now) tree.now.props.transforms) places.new }
{
    let by = translation(tree.props(), offsets, places, layer.transform);
    let inside = point_back(p, by);
    box_covers(layer.w, layer.h, inside)
}

// The id of a layer that lies at a point of the screen and is drawn; else 0. The test that looks up the fewest
// nodes is the first.
fn covering_id(
    tree: &LayerTree,
    offsets: &Offsets,
    p: Point,
    layer: &Layer,
    places: &mut [(u32, Point)],
    clips: &mut [(u32, bool)],
    effects: &mut [(u32, bool)],
) -> u32
    requires trees { IsTrees tree.now.props }
    requires offsets { AreOffsets (offset_at offsets.now) }
    requires screen { IsScreenPoint p.x p.y }
    requires view { is_in_view tree.now p.x p.y ≡ true }
    requires wide { IsLayerSide layer.now.w }
    requires tall { IsLayerSide layer.now.h }
    requires places { IsTable (translation_at (offset_at offsets.now) tree.now.props.transforms) places.old }
    requires clips { IsTable (is_open_at (offset_at offsets.now) tree.now.props p) clips.old }
    requires effects { IsTable (draws tree.now.props.effects) effects.old }
    ensures value { result ≡ cond (hits.covers_point tree.now (offset_at offsets.now) p.x p.y (parts_of layer.now)) layer.now.id 0 }
    ensures places { IsTable (translation_at (offset_at offsets.now) tree.now.props.transforms) places.new }
    ensures clips { IsTable (is_open_at (offset_at offsets.now) tree.now.props p) clips.new }
    ensures effects { IsTable (draws tree.now.props.effects) effects.new }
{
    if !is_drawn(tree.props(), effects, layer.effect) {
        return 0;
    }
    if !is_inside(tree, offsets, p, layer, places) {
        return 0;
    }
    if is_let_through(tree.props(), offsets, p, places, clips, layer.clip) {
        layer.id
    } else {
        0
    }
}

// The last of these layers that covers a point of the screen; 0 if none does. It looks from the last
// one down, and stops at the first that covers the point.
fn topmost(tree: &LayerTree, offsets: &Offsets, p: Point, layers: &[Layer]) -> u32
    requires trees { IsTrees tree.now.props }
    requires offsets { AreOffsets (offset_at offsets.now) }
    requires screen { IsScreenPoint p.x p.y }
    requires view { is_in_view tree.now p.x p.y ≡ true }
    requires sizes { All (λ l. IsLayerSide l.w × IsLayerSide l.h) layers.now }
    ensures { result ≡ hits.last_covering (hits.covers_point tree.now (offset_at offsets.now) p.x p.y) (map parts_of layers.now) }
{
    let mut places = root_place();
    let mut clips = root_holds();
    let mut effects = root_holds();
    let mut rest = layers;
    while let Some((layer, below)) = rest.split_last() {
        let id = covering_id(
            tree,
            offsets,
            p,
            layer,
            &mut places,
            &mut clips,
            &mut effects,
        );
        if id != 0 {
            return id;
        }
        rest = below;
    }
    0
}

/// The topmost layer that covers a point of the screen; 0 exactly if none does. Each offset is from 0
/// to 1048576 on both axes. Takes no memory.
#[tactic(auto, unfolding(page_layers::specs::Hits::target))]
pub fn target(tree: &LayerTree, offsets: &Offsets, p: Point) -> u32
    requires { AreOffsets (offset_at offsets.now) }
    ensures { result ≡ hits.target tree.now (offset_at offsets.now) p.x p.y }
{
    tree.is_page();
    tree.props().are_trees();
    let view = tree.view();
    if !box_covers(view.w, view.h, p) {
        return 0;
    }
    let layers = tree.layers();
    tree.are_sized(layers);
    topmost(tree, offsets, p, layers)
}
