//! The data of a script.

use crate::input::Input;
use page_layers::Command;
use pixel::Colour;
use tile_priority::TreePriority;

/// All that a script says, as it stands in its text.
pub struct ScriptParts {
    /// The format's version, 1 or 2. Version 2 has `set_view` among its commands and larger viewports.
    pub version: u32,
    /// The viewport's width in pixels: 1 to 1024 in version 1, 1 to 2048 in version 2.
    pub viewport_w: u32,
    /// The viewport's height in pixels, in the same range.
    pub viewport_h: u32,
    /// The side of a tile in pixels, 16 to 256.
    pub tile: u32,
    /// What the root is painted over; opaque.
    pub background: Colour,
    /// How many tiles may be kept and made at once, 0 to 4096.
    pub budget: u32,
    /// How many tiles one drawn frame may make in lockstep, 0 to 4096.
    pub raster_per_frame: u32,
    /// Tiles at most this far from the viewport, in pixels, come soon: 0 to 512.
    pub soon: u32,
    /// Tiles at most this far from the viewport, in pixels, come eventually: `soon` to 512.
    pub eventually: u32,
    /// Whose tiles come first while two trees stand.
    pub priority: TreePriority,
    /// The commands of each main frame, frame 0 first; at most 4096 frames.
    pub main: Vec<Vec<Command>>,
    /// What the compositor side is to do, in order; at most 65536 inputs, of them 4096 draws.
    pub inputs: Vec<Input>,
}

// Written out, since a derived drop is proved anew, field by field, in each function that lets one go.
impl Drop for ScriptParts {
    fn drop(self) {
        let ScriptParts {
            version: _,
            viewport_w: _,
            viewport_h: _,
            tile: _,
            background: _,
            budget: _,
            raster_per_frame: _,
            soon: _,
            eventually: _,
            priority: _,
            main: _,
            inputs: _,
        } = self;
    }
}
