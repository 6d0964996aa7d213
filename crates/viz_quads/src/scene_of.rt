//! The scene of a page.

ghost use Rattle.std.specs.Prelude.{◌≡◌, ℤ, true, map, IfOk};
ghost use Rattle.geom.specs.Covers.{covers};
ghost use Rattle.page_properties.specs.OffsetMap.{offset_at, AreOffsets};
ghost use Rattle.page_layers.specs.TreePainting.{paint};
ghost use Rattle.page_layers.specs.Pages.{viewport};
ghost use Rattle.viz_scene.specs.Pixels.{scene_pixel};
ghost use Rattle.viz_quads.specs.ShownTiles.{tile_of, missing_keys, AreShownTiles};

use crate::parts::layer_parts;
use crate::passes::quads_from;
use crate::shown_tile::ShownTile;
use page_layers::LayerTree;
use page_properties::Offsets;
use pixel::Colour;
use std::alloc::{AllocError, Global};
use viz_scene::{RenderPass, Scene};

/// The scene of a tree at these offsets of its scrollers, over this background. Each offset is from 0 to
/// 1048576 on both axes; `w`, `h` and `tile` are those of the tree's view. `shown` are the tiles that the
/// tree shows there, in key order. At each point of the viewport the scene has the colour of the direct
/// painting, with the tiles without an image as missing. The scene shares the images and keeps them and its
/// colours, whatever becomes of the tree. An error means out of memory.
pub fn quads_of(
    alloc: Global,
    tree: &LayerTree,
    offsets: &Offsets,
    w: u32,
    h: u32,
    tile: u32,
    background: Colour,
    shown: &[ShownTile],
) -> Result<Scene, AllocError>
    requires offsets { AreOffsets (offset_at offsets.now) }
    requires view { tree.now.view ≡ record { w = w; h = h; tile = tile } }
    requires right { AreShownTiles tree.now (offset_at offsets.now) (map tile_of shown.now) }
    ensures width { IfOk result (λ scene. scene.w ≡ w) }
    ensures height { IfOk result (λ scene. scene.h ≡ h) }
    ensures pixels { IfOk result (λ scene. (x y : ℤ) → covers (viewport tree.now) x y ≡ true →
        scene_pixel scene x y ≡ paint tree.now (offset_at offsets.now) (missing_keys (map tile_of shown.now)) background x y) }
{
    tree.is_page();
    tree.props().are_trees();
    let parts = layer_parts(alloc, tree, offsets, shown)?;
    let mut passes = Vec::new(alloc);
    let root = quads_from(alloc, parts.as_slice(), 0, &mut passes)?;
    passes.push(RenderPass { quads: root })?;
    Ok(Scene::new(w, h, background, passes))
}
