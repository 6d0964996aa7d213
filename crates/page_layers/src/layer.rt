//! Layers.

use page_display_list::DisplayList;
use pixel::Colour;
use std::sync::Arc;

/// A layer: a rect of `w` by `h` pixels that shows its display list.
#[derive(Drop)]
pub struct Layer {
    /// The layer's id, 1 to 65535. No two layers of a tree's life have the same.
    pub id: u32,
    /// The transform that places it; 0 is the root.
    pub transform: u32,
    /// The clip that cuts it; 0 does not restrict.
    pub clip: u32,
    /// The effect that it belongs to; 0 is the root.
    pub effect: u32,
    /// The width, 1 to 16384 pixels.
    pub w: u32,
    /// The height, 1 to 16384 pixels.
    pub h: u32,
    /// What is drawn if a tile is missing.
    pub colour: Colour,
    /// What it shows, shared with the trees that were copied from this one.
    pub list: Arc<DisplayList>,
}
