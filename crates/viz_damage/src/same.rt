//! Whether two scenes are one.

ghost use Rattle.std.specs.Prelude.{◌≡◌, IsTrue};
ghost use Rattle.viz_scene.specs.Views.{tiled, quad_view, quads_view, passes_view};

use crate::images::{is_same_colour, is_same_item, is_same_point, is_same_rect};
use crate::quads::are_one_untiled;
use geom::{Point, Rect, TileKey};
use page_display_list::Item;
use tile_raster::TileImage;
use viz_scene::{Quad, RenderPass, Scene};

/// How many bytes of bitmaps are compared for one tile, at most. Two lists with more count as different: every tile of
/// a layer has the whole list, so comparing all of it for each would cost tiles times bytes, while the damage compares
/// each tile's rows once.
const MOST_BITMAP_BYTES: usize = 4096;

/// Whether two scenes are one: they have the same sides, background and passes, and the tiles of their quads
/// the same keys and display lists. The lists are compared only if all places and stamps are equal, so that
/// a page that moved, or of which a tile was made anew, is told apart soon. It gives up on tiles whose lists have many
/// bytes of bitmaps.
#[tactic(auto, using(crate::proofs::SceneSteps::one_scene))]
pub fn are_one(a: &Scene, b: &Scene) -> bool
    ensures { IsTrue result → a.now ≡ b.now }
{
    if !have_one_screen(a, b) || !look_alike(a.passes(), b.passes()) {
        return false;
    }
    are_one_passes(a.passes(), b.passes())
}

// Whether two scenes have the same sides and the same background.
fn have_one_screen(a: &Scene, b: &Scene) -> bool
    ensures wide { IsTrue result → a.now.w ≡ b.now.w }
    ensures tall { IsTrue result → a.now.h ≡ b.now.h }
    ensures background { IsTrue result → a.now.background ≡ b.now.background }
{
    let sides = a.w() == b.w() && a.h() == b.h();
    sides && is_same_colour(a.background(), b.background())
}

// Whether two lists of passes are one as far as the rects of their quads and the stamps of tiles tell.
fn look_alike(a: &[RenderPass], b: &[RenderPass]) -> bool {
    if a.len() != b.len() {
        return false;
    }
    for place in 0..a.len() {
        if !quads_look_alike(a[place].quads.as_slice(), b[place].quads.as_slice()) {
            return false;
        }
    }
    true
}

// Whether two lists of quads are one as far as their rects and the stamps of tiles tell.
fn quads_look_alike(a: &[Quad], b: &[Quad]) -> bool {
    if a.len() != b.len() {
        return false;
    }
    for place in 0..a.len() {
        if !looks_alike(&a[place], &b[place]) {
            return false;
        }
    }
    true
}

// Whether two quads are one as far as their rects and the stamps of tiles tell.
fn looks_alike(a: &Quad, b: &Quad) -> bool {
    match (a, b) {
        (
            Quad::Tile { image, at, .. },
            Quad::Tile {
                image: other,
                at: place,
                ..
            },
        ) => *at == *place && image.key().stamp == other.key().stamp,
        (Quad::Solid { at, .. }, Quad::Solid { at: place, .. }) => *at == *place,
        (Quad::Group { .. }, Quad::Group { .. }) => true,
        _ => false,
    }
}

// Whether two lists of passes are one.
fn are_one_passes(a: &[RenderPass], b: &[RenderPass]) -> bool
    ensures { IsTrue result → passes_view a.now ≡ passes_view b.now }
{
    if a.len() != b.len() {
        return false;
    }
    for place in 0..a.len() {
        if !are_one_pass(&a[place], &b[place]) {
            return false;
        }
    }
    true
}

// Whether two passes are one.
fn are_one_pass(a: &RenderPass, b: &RenderPass) -> bool
    ensures { IsTrue result → quads_view a.now.quads.items ≡ quads_view b.now.quads.items }
{
    are_one_list(a.quads.as_slice(), b.quads.as_slice())
}

// Whether two lists of quads are one.
fn are_one_list(a: &[Quad], b: &[Quad]) -> bool
    ensures { IsTrue result → quads_view a.now ≡ quads_view b.now }
{
    if a.len() != b.len() {
        return false;
    }
    for place in 0..a.len() {
        if !is_one_quad(&a[place], &b[place]) {
            return false;
        }
    }
    true
}

// Whether two quads are one.
fn is_one_quad(a: &Quad, b: &Quad) -> bool
    ensures { IsTrue result → quad_view a.now ≡ quad_view b.now }
{
    match (a, b) {
        (
            Quad::Tile { image, at, from },
            Quad::Tile {
                image: other,
                at: place,
                from: start,
            },
        ) => is_one_tile(image, *at, *from, other, *place, *start),
        _ => are_one_untiled(a, b),
    }
}

// Whether two parts of images are one.
#[tactic(auto, using(crate::proofs::SceneSteps::one_tile))]
fn is_one_tile(
    image: &TileImage,
    at: Rect,
    from: Point,
    other: &TileImage,
    place: Rect,
    start: Point,
) -> bool
    ensures { IsTrue result → tiled image.now at from ≡ tiled other.now place start }
{
    if !is_same_rect(at, place) || !is_same_point(from, start) {
        return false;
    }
    is_one_image(image, other)
}

// Whether two images are one.
#[tactic(auto, using(crate::proofs::SceneSteps::one_image))]
fn is_one_image(a: &TileImage, b: &TileImage) -> bool
    ensures { IsTrue result → a.now ≡ b.now }
{
    if !is_one_key(a.key(), b.key()) || !is_same_rect(a.rect(), b.rect()) {
        return false;
    }
    are_one_items(a.list().items(), b.list().items())
}

// Whether two keys are one.
#[tactic(auto, using(crate::proofs::SceneSteps::one_key))]
fn is_one_key(a: TileKey, b: TileKey) -> bool
    ensures { IsTrue result → a ≡ b }
{
    if a.layer != b.layer || a.stamp != b.stamp {
        return false;
    }
    a.x == b.x && a.y == b.y
}

// Whether two lists of items are one; false too if their bitmaps have too many bytes to be compared.
fn are_one_items(a: &[Item], b: &[Item]) -> bool
    ensures { IsTrue result → a.now ≡ b.now }
{
    if a.len() != b.len() {
        return false;
    }
    let mut bytes = 0usize;
    for place in 0..a.len() {
        bytes = bytes.saturating_add(bitmap_bytes(&a[place]));
        if bytes > MOST_BITMAP_BYTES || !is_same_item(&a[place], &b[place]) {
            return false;
        }
    }
    true
}

// How many bytes the bitmap of an item has; 0 for a rect of one colour.
fn bitmap_bytes(item: &Item) -> usize {
    match item {
        Item::Rect { .. } => 0,
        Item::Bitmap(bitmap) => bitmap.pixels().len(),
    }
}
