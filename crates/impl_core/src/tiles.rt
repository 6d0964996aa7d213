//! The tiles that a page shows, as the tile manager has them.

ghost use Rattle.std.specs.Prelude.{◌≡◌, map, IfOk};
ghost use Rattle.viz_quads.specs.ShownTiles.{tile_of, missing_keys};
ghost use Rattle.impl_core.specs.Drawings.{held_tile};

use geom::{Keys, TileKey};
use impl_tiles::TileManager;
use std::alloc::{AllocError, Global};
use std::sync::Arc;
use viz_quads::ShownTile;

// The tile of a key, with its image if the key is ready, which is looked for at `near` first.
fn shown_tile(
    manager: &TileManager,
    near: &mut usize,
    key: TileKey,
) -> Result<ShownTile, AllocError>
    ensures { IfOk result (λ tile. tile_of tile ≡ held_tile manager.now.store key) }
{
    match manager.image_near(near, key) {
        None => Ok(ShownTile { key, image: None }),
        Some(image) => Ok(ShownTile {
            key,
            image: Some(Arc::try_clone(image)?),
        }),
    }
}

/// The tiles of these keys, each with its image if it is ready. No pixel is copied. The work of a key that
/// is ready and stands next to the one before it does not grow with the number of tiles. An error means out
/// of memory.
pub(crate) fn shown_tiles(
    alloc: Global,
    manager: &TileManager,
    keys: &[TileKey],
) -> Result<Vec<ShownTile>, AllocError>
    ensures { IfOk result (λ tiles. map tile_of tiles.items ≡ map (held_tile manager.now.store) keys.now) }
{
    let mut tiles = Vec::with_capacity(alloc, keys.len())?;
    let mut near = 0;
    for key in keys {
        tiles.push(shown_tile(manager, &mut near, *key)?)?;
    }
    Ok(tiles)
}

// The keys of the tiles that have no image, in their order. An error means out of memory.
pub(crate) fn missing_of(alloc: Global, tiles: &[ShownTile]) -> Result<Keys, AllocError>
    ensures { IfOk result (λ missing. missing ≡ missing_keys (map tile_of tiles.now)) }
{
    let mut missing = Keys::new(alloc);
    for tile in tiles {
        if tile.image.is_none() {
            if let Err(refused) = missing.push(tile.key) {
                return Err(refused.0);
            }
        }
    }
    Ok(missing)
}
