//! Scenes of pages.

ghost use Rattle.std.specs.Prelude.{◌<◌, ℕ, IfOk, length, map, OnOk};
ghost use Rattle.geom.specs.declared.rect.Point.{Point};
ghost use Rattle.page_properties.specs.OffsetMap.{offset_at, AreOffsets};
ghost use Rattle.page_layers.specs.Pages.{Page};
ghost use Rattle.viz_quads.specs.ShownTiles.{tile_of, AreShownTiles};

use page_layers::{LayerTree, main_offsets};
use page_properties::Offsets;
use pixel::Colour;
use script_json::read_script;
use std::alloc::{AllocError, Global};
use test_table::{LineFault, wholes};
use viz_quads::{ShownTile, make_all, quads_of};
use viz_scene::Scene;

// Takes the image of a tile away.
fn take_image(tiles: &mut Vec<ShownTile>, place: usize)
    requires { place < length tiles.old.items }
    ensures { (p : Page) (offset : ℕ → Point) → AreShownTiles p offset (map tile_of tiles.old.items) → AreShownTiles p offset (map tile_of tiles.new.items) }
{
    tiles[place].image = None;
}

// Takes the image of the tile of a number away, if a text is one.
fn take_named(tiles: &mut Vec<ShownTile>, text: &str) -> Result<(), LineFault>
    ensures { OnOk result ((p : Page) (offset : ℕ → Point) → AreShownTiles p offset (map tile_of tiles.old.items) → AreShownTiles p offset (map tile_of tiles.new.items)) }
{
    if text == "none" {
        return Ok(());
    }
    let [place] = wholes::<1>(text, ' ')?;
    if place as usize >= tiles.len() {
        return Err(LineFault::NoPage);
    }
    take_image(tiles, place as usize);
    Ok(())
}

// The tiles of a page, of which the one that a text names has no image.
fn tiles_of(
    alloc: Global,
    tree: &LayerTree,
    offsets: &Offsets,
    missing: &str,
) -> Result<Vec<ShownTile>, LineFault>
    requires { AreOffsets (offset_at offsets.now) }
    ensures { IfOk result (λ tiles. AreShownTiles tree.now (offset_at offsets.now) (map tile_of tiles.items)) }
{
    let mut tiles = make_all(alloc, tree, offsets)?;
    take_named(&mut tiles, missing)?;
    Ok(tiles)
}

// The offsets of a page whose scrollers stand at their main values.
fn offsets_of(alloc: Global, tree: &LayerTree) -> Result<Offsets, AllocError>
    ensures { IfOk result (λ offsets. AreOffsets (offset_at offsets)) }
{
    tree.is_page();
    main_offsets(alloc, tree)
}

// The scene of a page over a background, if the tile that a text names is missing.
fn scene_of_page(
    alloc: Global,
    tree: &LayerTree,
    background: Colour,
    missing: &str,
) -> Result<Scene, LineFault> {
    let view = tree.view();
    let offsets = offsets_of(alloc, tree)?;
    let tiles = tiles_of(alloc, tree, &offsets, missing)?;
    let scene = quads_of(
        alloc,
        tree,
        &offsets,
        view.w,
        view.h,
        view.tile,
        background,
        tiles.as_slice(),
    )?;
    Ok(scene)
}

/// The scene of the page of a script after all its main frames, whose scrollers stand at their main values, and
/// if the tile of a number is missing; the text is the number or `none`.
pub fn scene_of_script(alloc: Global, script: &str, missing: &str) -> Result<Scene, LineFault> {
    let Ok(script) = read_script(alloc, script.as_bytes()) else {
        return Err(LineFault::NoPage);
    };
    let background = script.background();
    let page = script.page(alloc)?;
    scene_of_page(alloc, &page, background, missing)
}
