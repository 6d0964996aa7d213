//! The viewport of a tree and its tile size.

/// The size of a tree's viewport and of its tiles, in pixels.
#[derive(Clone, Copy, PartialEq, Eq, Debug)]
pub struct View {
    /// The viewport's width, 1 to 2048.
    pub w: u32,
    /// The viewport's height, 1 to 2048.
    pub h: u32,
    /// The side of a tile, 16 to 256.
    pub tile: u32,
}
