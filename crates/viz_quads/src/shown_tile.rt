//! The tiles that a scene is made of.

use geom::TileKey;
use std::sync::Arc;
use tile_raster::TileImage;

/// A tile that a page shows, with its image, or without one if the tile is missing.
#[derive(Drop)]
pub struct ShownTile {
    /// The tile's key.
    pub key: TileKey,
    /// What the layer shows in the tile's place.
    pub image: Option<Arc<TileImage>>,
}
