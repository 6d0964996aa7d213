//! The tiles in their slab.

ghost use Rattle.std.specs.Prelude.{◌≡◌, Some};
ghost use Rattle.slab.specs.Slab.{get, slab_len, Updates};
ghost use Rattle.impl_tiles.specs.inner.TileTables.{is_made, HasTileOf};

use crate::held::Tile;
use geom::TileKey;
use slab::Slab;
use std::sync::Arc;
use tile_raster::TileImage;

/// Whether the tile at this place has its image.
pub(crate) fn is_made(tiles: &Slab<Tile>, place: usize) -> bool
    ensures { result ≡ is_made (get tiles.now place) }
{
    match tiles.get(place) {
        Some(tile) => tile.image.is_some(),
        None => false,
    }
}

/// Gives the tile of this key, which is at this place, its image.
pub(crate) fn give(tiles: &mut Slab<Tile>, place: usize, key: TileKey, image: Arc<TileImage>)
    requires { HasTileOf (get tiles.old) place key }
    ensures updates { Updates tiles.old tiles.new place (Some (record { key = key; image = Some image })) }
    ensures len { slab_len tiles.new ≡ slab_len tiles.old }
    ensures capacity { tiles.new.capacity ≡ tiles.old.capacity }
{
    if let Some(tile) = tiles.get_mut(place) {
        tile.image = Some(image);
    }
}
