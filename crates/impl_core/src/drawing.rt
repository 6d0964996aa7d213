//! A draw of the active page.

ghost use Rattle.std.specs.Prelude.{◌≡◌, ℤ, true, List, IfOk};
ghost use Rattle.geom.specs.Covers.{covers};
ghost use Rattle.page_properties.specs.OffsetMap.{offset_at, AreOffsets};
ghost use Rattle.page_layers.specs.TreePainting.{paint};
ghost use Rattle.page_layers.specs.Pages.{viewport};
ghost use Rattle.viz_scene.specs.Pixels.{scene_pixel};
ghost use Rattle.model_history.specs.declared.history.Entry.{Entry};
ghost use Rattle.model_history.specs.Scripts.{ScriptModel};
ghost use Rattle.model_history.specs.Frames.{active_page};
ghost use Rattle.model_history.specs.Scrolls.{active_offsets};
ghost use Rattle.model_history.specs.Tiles as model;
ghost use Rattle.impl_tiles.specs.Managers.{Manages};
ghost use Rattle.impl_core.specs.Drawings.{DrawsNow};

use crate::tiles::{missing_of, shown_tiles};
use geom::Keys;
use impl_tiles::TileManager;
use page_layers::LayerTree;
use page_properties::Offsets;
use pixel::Colour;
use std::alloc::{AllocError, Global};
use viz_quads::quads_of;
use viz_scene::Scene;

/// What a draw shows.
#[derive(Drop)]
pub struct Drawing {
    /// The passes and quads of the picture, with the images of the ready tiles.
    pub scene: Scene,
    /// The keys of the tiles that are visible and not ready, in key order.
    pub missing: Keys,
}

/// Draws the active page of a run: `page` at these offsets of its scrollers, whose visible tiles have these
/// keys, in key order, over the background of the script. At each point of the viewport the scene has the
/// colour of the direct painting with the missing tiles, which are those that the run misses. An error means
/// out of memory.
pub fn draw(
    alloc: Global,
    manager: &TileManager,
    page: &LayerTree,
    offsets: &Offsets,
    keys: &Keys,
    background: Colour,
) -> Result<Drawing, AllocError>
    requires offsets { AreOffsets (offset_at offsets.now) }
    requires now { DrawsNow manager.now page.now (offset_at offsets.now) keys.now }
    ensures width { IfOk result (λ drawing. drawing.scene.w ≡ page.now.view.w) }
    ensures height { IfOk result (λ drawing. drawing.scene.h ≡ page.now.view.h) }
    ensures missing { (s : ScriptModel) (h : List Entry) → Manages s h manager.now → keys.now ≡ model.visible_in (model.active_tree s h) → IfOk result (λ drawing. drawing.missing ≡ model.missing_visible s h) }
    ensures pixels { (s : ScriptModel) (h : List Entry) → Manages s h manager.now → page.now ≡ active_page s h → offset_at offsets.now ≡ active_offsets s h → keys.now ≡ model.visible_in (model.active_tree s h) → IfOk result (λ drawing. (x y : ℤ) → covers (viewport page.now) x y ≡ true → scene_pixel drawing.scene x y ≡ paint (active_page s h) (active_offsets s h) (model.missing_visible s h) background x y) }
{
    let tiles = shown_tiles(alloc, manager, keys.as_slice())?;
    let missing = missing_of(alloc, tiles.as_slice())?;
    let view = page.view();
    let scene = quads_of(
        alloc,
        page,
        offsets,
        view.w,
        view.h,
        view.tile,
        background,
        tiles.as_slice(),
    )?;
    Ok(Drawing { scene, missing })
}
