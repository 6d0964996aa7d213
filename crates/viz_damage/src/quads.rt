//! Single quads: whether two act alike, and the area that one acts on.

ghost use Rattle.std.specs.Prelude.{◌≡◌, ◌∷◌, [], All, length, IsTrue};
ghost use Rattle.viz_scene.specs.Views.{quad_view, quads_view};
ghost use Rattle.viz_scene.specs.Sound.{QuadFits};
ghost use Rattle.viz_scene.specs.Areas.{IsOnScreen};
ghost use Rattle.viz_damage.specs.inner.Alike.{AreSameImages, ActAlike, ActWithin};

use crate::images::{are_same_images, is_same_colour, is_same_point, is_same_rect};
use geom::{Point, Rect};
use tile_raster::TileImage;
use viz_scene::{Quad, hull};

/// Whether two quads act alike: tiles and solids that lie on one rect and show the same there, or groups of
/// one pass with one opacity.
pub(crate) fn act_alike(a: &Quad, b: &Quad, passes: usize) -> bool
    requires fits { QuadFits 2048 2048 passes (quad_view a.now) }
    ensures { IsTrue result → ActAlike (quad_view a.now) (quad_view b.now) }
{
    match (a, b) {
        (
            Quad::Tile { image, at, from },
            Quad::Tile {
                image: other,
                at: place,
                from: start,
            },
        ) => is_same_rect(*at, *place) && show_one_part(image, *from, other, *start),
        _ => are_one_untiled(a, b),
    }
}

/// Whether two quads are one, and no tiles: solids on one rect and of one colour, or groups of one pass with one
/// opacity.
pub(crate) fn are_one_untiled(a: &Quad, b: &Quad) -> bool
    ensures { IsTrue result → quad_view a.now ≡ quad_view b.now }
{
    match (a, b) {
        (
            Quad::Solid { at, colour },
            Quad::Solid {
                at: place,
                colour: other,
            },
        ) => is_same_rect(*at, *place) && is_same_colour(*colour, *other),
        (
            Quad::Group { pass, opacity },
            Quad::Group {
                pass: other,
                opacity: second,
            },
        ) => *pass == *other && *opacity == *second,
        _ => false,
    }
}

// Whether two images are the same, and shown from the same pixel on.
fn show_one_part(image: &TileImage, from: Point, other: &TileImage, start: Point) -> bool
    ensures from { IsTrue result → from ≡ start }
    ensures images { IsTrue result → AreSameImages image.now other.now }
{
    is_same_point(from, start) && are_same_images(image, other)
}

/// Whether two quads represent one thing that may have changed: a tile of one place of a layer, a rect of one
/// colour that may be another one, or a group of one pass.
pub(crate) fn stand_for_one(a: &Quad, b: &Quad) -> bool {
    match (a, b) {
        (Quad::Tile { image, .. }, Quad::Tile { image: other, .. }) => {
            let key = image.key();
            let second = other.key();
            key.layer == second.layer && key.x == second.x && key.y == second.y
        }
        (Quad::Solid { at, .. }, Quad::Solid { at: other, .. }) => *at == *other,
        (Quad::Group { pass, .. }, Quad::Group { pass: other, .. }) => *pass == *other,
        _ => false,
    }
}

/// The area that a quad acts on, if the passes have these reaches.
pub(crate) fn area_of(quad: &Quad, reaches: &[Rect]) -> Rect
    requires fits { QuadFits 2048 2048 (length reaches.now) (quad_view quad.now) }
    requires reaches { All IsOnScreen reaches.now }
    ensures within { ActWithin reaches.now (result ∷ []) (quad_view quad.now ∷ []) }
    ensures inside { IsOnScreen result }
{
    match quad {
        Quad::Tile { at, .. } => *at,
        Quad::Solid { at, .. } => *at,
        Quad::Group { pass, .. } => reaches[*pass as usize],
    }
}

/// The reach of a pass: a rect that holds the areas that its quads act on.
pub(crate) fn reach_of(quads: &[Quad], reaches: &[Rect]) -> Rect
    requires fits { All (QuadFits 2048 2048 (length reaches.now)) (quads_view quads.now) }
    requires reaches { All IsOnScreen reaches.now }
    ensures within { ActWithin reaches.now (result ∷ []) (quads_view quads.now) }
    ensures inside { IsOnScreen result }
{
    let mut reach = nowhere();
    for quad in quads {
        reach = hull(reach, area_of(quad, reaches));
    }
    reach
}

// The rect without points.
fn nowhere() -> Rect
    ensures { IsOnScreen result }
{
    Rect {
        x: 0,
        y: 0,
        w: 0,
        h: 0,
    }
}
