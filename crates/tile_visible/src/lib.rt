//! Which tiles of a page are seen at given offsets of its scrollers, where they stand on the screen, and
//! their keys.
//!
//! A tile is visible if its screen rect, the clip of its layer and the viewport have a common pixel, if
//! no effect in the layer's chain is 0. Keys go by layer id, row and column, which is not the order in which
//! layers are painted: [`by_id`] leads from one order to the other.
#![tactic(auto)]

mod order;
mod screen;
mod visible;

pub use order::{OrderedLayer, by_id};
pub use screen::{clip_in, grid_of, moved_place, screen_rect, seen, viewport};
pub use visible::{visible_keys, visible_places};
