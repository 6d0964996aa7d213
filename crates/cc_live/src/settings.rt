//! What a live compositor begins with.

use pixel::Colour;
use tile_priority::TreePriority;

/// What a page begins with, and how many tiles are kept and made at once.
#[derive(Clone, Copy)]
pub struct Settings {
    /// The viewport's width in pixels, 1 to 2048, until a command changes it.
    pub viewport_w: u32,
    /// The viewport's height in pixels, in the same range.
    pub viewport_h: u32,
    /// The side of a tile in pixels, 16 to 256, until a command changes it.
    pub tile: u32,
    /// What the root is painted over; opaque.
    pub background: Colour,
    /// How many tiles may be kept and made at once, 0 to 4096.
    pub budget: u32,
    /// Tiles at most this far from the viewport, in pixels, come soon: 0 to 512.
    pub soon: u32,
    /// Tiles at most this far from the viewport, in pixels, come eventually: `soon` to 512.
    pub eventually: u32,
    /// Whose tiles come first while two trees stand.
    pub priority: TreePriority,
    /// How many jobs may be out at once, 0 to 16. Each has a slot of its own.
    pub workers: u32,
}
