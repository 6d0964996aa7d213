//! Kept tiles.

use geom::TileKey;
use std::sync::Arc;
use tile_raster::TileImage;

/// A tile that was made, with its image.
#[derive(Drop)]
pub struct KeptTile {
    /// Its key, whose stamp is 0.
    pub key: TileKey,
    /// What the layer shows in its place.
    pub image: Arc<TileImage>,
    /// Whether the main page may show something else there.
    pub is_stale: bool,
    /// The number of the draw that used it last.
    pub used: u64,
}
