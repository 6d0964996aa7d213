//! What is shown.

use page_layers::LayerTree;
use page_properties::Offsets;
use pixel::Colour;

/// What the screen shows: a page, the offsets of its scrollers, and the colour behind its layers.
#[derive(Clone, Copy)]
pub struct ScreenState<'a> {
    /// The active page.
    pub page: &'a LayerTree,
    /// The offsets of its scrollers; each is from 0 to 1048576 on both axes.
    pub offsets: &'a Offsets,
    /// The colour behind the layers.
    pub background: Colour,
}
