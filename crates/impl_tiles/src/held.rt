//! One tile of the store, and how its key finds it.

use geom::TileKey;
use std::sync::Arc;
use tile_raster::TileImage;

/// A tile: its key, and its image or none while that is being made.
#[derive(Drop)]
pub(crate) struct Tile {
    pub(crate) key: TileKey,
    pub(crate) image: Option<Arc<TileImage>>,
}

/// A key and the place of its tile in the slab.
#[derive(Clone, Copy)]
pub(crate) struct KeyedPlace {
    pub(crate) key: TileKey,
    pub(crate) place: usize,
}

/// Where a held key stands: the number of its chunk, and its index there.
#[derive(Clone, Copy)]
pub(crate) struct Spot {
    pub(crate) chunk: usize,
    pub(crate) at: usize,
}
