//! Points, rects, the grid of a layer's tiles, and the keys of tiles.
//!
//! All lengths are whole pixels. Nothing here takes memory but lists of places and keys.
#![tactic(auto)]

mod cut;
mod grid;
mod keys;
mod rect;
mod span;
mod tile;

pub use cut::IndexRange;
pub use grid::{Grid, places_cover_once, places_part_the_layer};
pub use keys::Keys;
pub use rect::{Point, Rect};
pub use tile::{Place, TileKey};
