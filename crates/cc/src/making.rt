//! The tiles that a page shows: those that are kept, and those that are missing, which are made and kept.

ghost use Rattle.std.specs.Prelude.{◌≡◌, ◌≤◌, ◌++◌, [], ◌∷◌, true, false, map, flat_map, find, length, insert, Some, IfOk, IfSome, OnOk, OnErr, IsTrue, All};
ghost use Rattle.geom.specs.Grids.{has};
ghost use Rattle.geom.specs.Sides.{IsLayerSide};
ghost use Rattle.page_properties.specs.OffsetMap.{offset_at, AreOffsets};
ghost use Rattle.page_layers.specs.Layers.{parts_of, has_id};
ghost use Rattle.tile_visible.specs.Visible as visible;
ghost use Rattle.viz_quads.specs.ShownTiles.{tile_of, missing_keys, IsImageOf, AreShownTiles};
ghost use Rattle.cc.specs.inner.Wants.{WantsImage};
ghost use Rattle.cc.specs.KeptTiles.{place_of, IsImageAt, HaveTheirImages, IsKeptFor, AreKeptFor, IsCurrent, AreCurrent, AreCached};

use crate::kept_tile::KeptTile;
use geom::{Place, TileKey};
use page_layers::{Layer, LayerTree};
use page_properties::Offsets;
use std::alloc::{AllocError, Global};
use std::sync::Arc;
use tile_raster::{Job, TileImage};
use tile_visible::{OrderedLayer, by_id, grid_of, visible_places};
use viz_quads::ShownTile;

/// The draw that tiles are made for.
#[derive(Clone, Copy)]
pub(crate) struct Draw {
    /// Its number.
    pub(crate) number: u64,
    /// Whether the main page is the active one.
    pub(crate) is_committed: bool,
}

// The pages that kept tiles are held for.
#[derive(Clone, Copy)]
struct Pages<'a> {
    active: &'a LayerTree,
    main: &'a LayerTree,
}

// A place whose image a draw wants.
#[derive(Clone, Copy)]
struct Wanted {
    place: Place,
    draw: Draw,
}

// The key of a place of a layer.
fn key_of(layer: &Layer, place: Place) -> TileKey
    ensures { result ≡ visible.key_at (λ _ _. 0) layer.now.id place }
{
    TileKey {
        layer: layer.id,
        x: place.x,
        y: place.y,
        stamp: 0,
    }
}

// Whether two keys name one place.
fn is_same_place(a: TileKey, b: TileKey) -> bool
    ensures { IsTrue result → (a.layer ≡ b.layer) × (a.x ≡ b.x) × (a.y ≡ b.y) }
{
    let column = a.x == b.x;
    let row = a.y == b.y;
    let layer = a.layer == b.layer;
    layer && column && row
}

// The image of a kept tile, if it is of the place of this key.
#[tactic(auto, using(crate::proofs::Images::same_place))]
fn image_of(
    active: &LayerTree,
    one: &KeptTile,
    key: TileKey,
) -> Result<Option<Arc<TileImage>>, AllocError>
    requires { IsKeptFor active.now one.now }
    ensures { IfOk result (λ image. IfSome image (λ i. IsImageAt active.now key.layer (place_of key) i.value)) }
{
    if !is_same_place(one.key, key) {
        return Ok(None);
    }
    Ok(Some(Arc::try_clone(&one.image)?))
}

// The image of a place, if it is kept at this index of the list.
#[tactic(auto, using(crate::proofs::Images::kept_at))]
fn image_at(
    active: &LayerTree,
    kept: &[KeptTile],
    at: usize,
    key: TileKey,
) -> Result<Option<Arc<TileImage>>, AllocError>
    requires { AreKeptFor active.now kept.now }
    ensures { IfOk result (λ image. IfSome image (λ i. IsImageAt active.now key.layer (place_of key) i.value)) }
{
    if at >= kept.len() {
        return Ok(None);
    }
    image_of(active, &kept[at], key)
}

// Notes that a draw uses a tile.
fn note_use(one: &mut KeptTile, draw: u64)
    ensures { one.new ≡ record one.old { used = draw } }
{
    one.used = draw;
}

// Notes that a draw uses the tile at this index.
fn note_use_at(pages: Pages<'_>, kept: &mut Vec<KeptTile>, at: usize, draw: u64)
    requires cached { AreCached pages.active.now pages.main.now kept.old.items }
    ensures cached { AreCached pages.entry.active.now pages.entry.main.now kept.new.items }
{
    if at < kept.len() {
        note_use(&mut kept[at], draw);
    }
}

// The key that an image made for a draw carries: its stamp tells it from those made before, so that two scenes are told
// apart by their keys, and no display list is compared.
fn stamped(layer: &Layer, wanted: Wanted) -> TileKey {
    TileKey {
        layer: layer.id,
        x: wanted.place.x,
        y: wanted.place.y,
        stamp: (wanted.draw.number % 4294967296) as u32,
    }
}

// The image of a place of a layer, made anew.
fn made(
    alloc: Global,
    tree: &LayerTree,
    layer: &Layer,
    wanted: Wanted,
) -> Result<Arc<TileImage>, AllocError>
    requires sized { IsLayerSide layer.now.w × IsLayerSide layer.now.h }
    requires there { IsTrue (has (visible.grid_of tree.now (parts_of layer.now)) wanted.place) }
    ensures { IfOk result (λ image. IsImageOf tree.now (parts_of layer.now) wanted.place image.value) }
{
    let list = Arc::try_clone(&layer.list)?;
    let rect = grid_of(tree, layer).rect_of(wanted.place);
    let job = Job {
        key: stamped(layer, wanted),
        list,
        rect,
    };
    match job.run(alloc) {
        Ok(image) => Ok(image),
        Err((refused, _)) => Err(refused),
    }
}

// Inserts a tile at this index of the list.
fn insert_at(kept: &mut Vec<KeptTile>, at: usize, one: KeptTile) -> Result<(), AllocError>
    requires { at ≤ length kept.old.items }
    ensures ok { OnOk result (kept.new.items ≡ insert kept.old.items at one) }
    ensures err { OnErr result (kept.new.items ≡ kept.old.items) }
{
    match kept.insert(at, one) {
        Ok(()) => Ok(()),
        Err(_) => Err(AllocError),
    }
}

// Keeps a tile at this index of the list, if there is one.
#[tactic(auto, using(crate::proofs::Images::same_cached))]
fn keep(
    pages: Pages<'_>,
    kept: &mut Vec<KeptTile>,
    at: usize,
    one: KeptTile,
) -> Result<(), AllocError>
    requires cached { AreCached pages.active.now pages.main.now kept.old.items }
    requires one { IsKeptFor pages.active.now one }
    requires one_current { one.is_stale ≡ false → IsCurrent pages.main.now one }
    ensures cached { AreCached pages.entry.active.now pages.entry.main.now kept.new.items }
{
    if at > kept.len() {
        return Ok(());
    }
    match insert_at(kept, at, one) {
        Ok(()) => Ok(()),
        Err(refused) => Err(refused),
    }
}

// The image of a place of a layer, made anew and kept at this index of the list.
#[tactic(auto, using(crate::proofs::Images::made_image, crate::proofs::Images::made_kept, crate::proofs::Images::made_current))]
fn made_and_kept(
    alloc: Global,
    pages: Pages<'_>,
    kept: &mut Vec<KeptTile>,
    at: usize,
    layer: &Layer,
    wanted: Wanted,
) -> Result<Arc<TileImage>, AllocError>
    requires { WantsImage pages.active.now pages.main.now wanted.draw.is_committed (parts_of layer.now) wanted.place kept.old.items }
    ensures image { IfOk result (λ image. IsImageAt pages.entry.active.now layer.now.id wanted.place image.value) }
    ensures cached { AreCached pages.entry.active.now pages.entry.main.now kept.new.items }
{
    let image = made(alloc, pages.active, layer, wanted)?;
    let copy = Arc::try_clone(&image)?;
    let one = KeptTile {
        key: key_of(layer, wanted.place),
        image: copy,
        is_stale: !wanted.draw.is_committed,
        used: wanted.draw.number,
    };
    match keep(pages, kept, at, one) {
        Ok(()) => Ok(image),
        Err(refused) => Err(refused),
    }
}

// The image of a place of a layer, kept or made.
#[tactic(auto, using(crate::proofs::Images::of_key))]
fn image_for(
    alloc: Global,
    pages: Pages<'_>,
    kept: &mut Vec<KeptTile>,
    layer: &Layer,
    wanted: Wanted,
) -> Result<Arc<TileImage>, AllocError>
    requires { WantsImage pages.active.now pages.main.now wanted.draw.is_committed (parts_of layer.now) wanted.place kept.old.items }
    ensures image { IfOk result (λ image. IsImageAt pages.entry.active.now layer.now.id wanted.place image.value) }
    ensures cached { AreCached pages.entry.active.now pages.entry.main.now kept.new.items }
{
    let key = key_of(layer, wanted.place);
    let at = kept.partition_point(|one| one.key < key);
    match image_at(pages.active, kept.as_slice(), at, key)? {
        Some(image) => {
            note_use_at(pages, kept, at, wanted.draw.number);
            Ok(image)
        }
        None => made_and_kept(alloc, pages, kept, at, layer, wanted),
    }
}

// Adds the tile of a place.
#[tactic(auto, using(crate::proofs::Images::keys_more, crate::proofs::Images::images_more))]
fn push_tile(
    active: &LayerTree,
    tiles: &mut Vec<ShownTile>,
    key: TileKey,
    image: Arc<TileImage>,
) -> Result<(), AllocError>
    requires image { IsImageAt active.now key.layer (place_of key) image.value }
    requires images { HaveTheirImages active.now (map tile_of tiles.old.items) }
    ensures keys { OnOk result (map (λ t. t.key) (map tile_of tiles.new.items) ≡ map (λ t. t.key) (map tile_of tiles.old.items) ++ key ∷ []) }
    ensures images { OnOk result (HaveTheirImages active.now (map tile_of tiles.new.items)) }
{
    let image = Some(image);
    tiles.push(ShownTile { key, image })?;
    Ok(())
}

// Adds the tiles of these places of a layer, kept or made.
fn push_places(
    pages: Pages<'_>,
    kept: &mut Vec<KeptTile>,
    tiles: &mut Vec<ShownTile>,
    layer: &Layer,
    places: &[Place],
    draw: Draw,
) -> Result<(), AllocError>
    requires found { find (has_id layer.now.id) pages.active.now.layers ≡ Some (parts_of layer.now) }
    requires sized { IsLayerSide layer.now.w × IsLayerSide layer.now.h }
    requires there { All (λ q. IsTrue (has (visible.grid_of pages.active.now (parts_of layer.now)) q)) places.now }
    requires cached { AreCached pages.active.now pages.main.now kept.old.items }
    requires same { draw.is_committed ≡ true → pages.active.now ≡ pages.main.now }
    requires images { HaveTheirImages pages.active.now (map tile_of tiles.old.items) }
    ensures keys { OnOk result (map (λ t. t.key) (map tile_of tiles.new.items) ≡ map (λ t. t.key) (map tile_of tiles.old.items) ++ map (visible.key_at (λ _ _. 0) layer.now.id) places.now) }
    ensures images { OnOk result (HaveTheirImages pages.entry.active.now (map tile_of tiles.new.items)) }
    ensures cached { AreCached pages.entry.active.now pages.entry.main.now kept.new.items }
{
    let alloc = *tiles.allocator();
    for place in places {
        let wanted = Wanted {
            place: *place,
            draw,
        };
        match image_for(alloc, pages, kept, layer, wanted) {
            Ok(image) => push_tile(pages.active, tiles, key_of(layer, *place), image)?,
            Err(refused) => return Err(refused),
        }
    }
    Ok(())
}

// The tiles of these layers that are shown, in the order of the layers, kept or made.
fn tiles_in(
    alloc: Global,
    pages: Pages<'_>,
    offsets: &Offsets,
    kept: &mut Vec<KeptTile>,
    layers: &[OrderedLayer<'_>],
    draw: Draw,
) -> Result<Vec<ShownTile>, AllocError>
    requires offsets { AreOffsets (offset_at offsets.now) }
    requires found { All (λ o. find (has_id o.layer.now.id) pages.active.now.layers ≡ Some (parts_of o.layer.now)) layers.now }
    requires sizes { All (λ o. IsLayerSide o.layer.now.w × IsLayerSide o.layer.now.h) layers.now }
    requires cached { AreCached pages.active.now pages.main.now kept.old.items }
    requires same { draw.is_committed ≡ true → pages.active.now ≡ pages.main.now }
    ensures keys { IfOk result (λ tiles. map (λ t. t.key) (map tile_of tiles.items) ≡ flat_map (λ l. map (visible.key_at (λ _ _. 0) l.id) (visible.visible_places pages.entry.active.now (offset_at offsets.now) l)) (map (λ o. parts_of o.layer.now) layers.now)) }
    ensures images { IfOk result (λ tiles. HaveTheirImages pages.entry.active.now (map tile_of tiles.items)) }
    ensures cached { AreCached pages.entry.active.now pages.entry.main.now kept.new.items }
{
    let mut tiles = Vec::new(alloc);
    for one in layers {
        let places = visible_places(alloc, pages.active, offsets, one.layer)?;
        push_places(pages, kept, &mut tiles, one.layer, places.as_slice(), draw)?;
    }
    Ok(tiles)
}

/// The tiles that the active page shows, in key order, kept or made. What is made is kept.
pub(crate) fn shown_tiles(
    alloc: Global,
    active: &LayerTree,
    main: &LayerTree,
    offsets: &Offsets,
    kept: &mut Vec<KeptTile>,
    draw: Draw,
) -> Result<Vec<ShownTile>, AllocError>
    requires offsets { AreOffsets (offset_at offsets.now) }
    requires kept { AreKeptFor active.now kept.old.items }
    requires current { AreCurrent main.now kept.old.items }
    requires same { draw.is_committed ≡ true → active.now ≡ main.now }
    ensures shown { IfOk result (λ tiles. AreShownTiles active.now (offset_at offsets.now) (map tile_of tiles.items)) }
    ensures whole { IfOk result (λ tiles. missing_keys (map tile_of tiles.items) ≡ []) }
    ensures kept { AreKeptFor active.now kept.new.items }
    ensures current { AreCurrent main.now kept.new.items }
{
    active.is_page();
    let layers = active.layers();
    active.are_sized(layers);
    let order = by_id(alloc, layers)?;
    let pages = Pages { active, main };
    tiles_in(alloc, pages, offsets, kept, order.as_slice(), draw)
}
