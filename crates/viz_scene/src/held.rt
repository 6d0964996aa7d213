//! How much memory a scene keeps.

use crate::{Quad, RenderPass, Scene};
use tile_raster::TileImage;

/// How many bytes a quad is counted with, an image without its rows, and an item of a display list.
const ENTRY_BYTES: u64 = 64;

/// How many bytes a row of an image is counted with, beside the bytes of those rows that are kept.
const PLACE_BYTES: u64 = 8;

// A display list as far as it is told from others here: those of one layer with as many items pass for one.
#[derive(Clone, Copy, PartialEq)]
struct CountedList {
    layer: u32,
    items: usize,
}

// The display list that the image of a tile shows.
fn list_of(image: &TileImage) -> CountedList {
    CountedList {
        layer: image.key().layer,
        items: image.list().len(),
    }
}

// How many bytes the items of a display list keep.
fn list_bytes(list: CountedList) -> u64 {
    (list.items as u64).saturating_mul(ENTRY_BYTES)
}

// How many bytes the image of a tile keeps, without the display list that it shows.
fn image_bytes(image: &TileImage) -> u64 {
    let places = (image.rect().h as u64).saturating_mul(PLACE_BYTES);
    let rows = places.saturating_add(image.kept_bytes() as u64);
    rows.saturating_add(ENTRY_BYTES)
}

// How many bytes a pass keeps.
fn pass_bytes(pass: &RenderPass) -> u64 {
    let mut bytes = 0u64;
    let mut counted = None;
    for quad in pass.quads.as_slice() {
        bytes = bytes.saturating_add(ENTRY_BYTES);
        if let Quad::Tile { image, .. } = quad {
            let list = list_of(image);
            if counted != Some(list) {
                bytes = bytes.saturating_add(list_bytes(list));
                counted = Some(list);
            }
            bytes = bytes.saturating_add(image_bytes(image));
        }
    }
    bytes
}

impl Scene {
    /// How many bytes the scene keeps from being freed, at most 2^64 - 1: its quads, and of the image of each tile the
    /// rows and the items of its display list. What the page or another scene has as well is counted, too, and so is an
    /// image for each quad that shows it; the pixels of bitmaps are not. The tiles of a layer share a display list
    /// unless it changed between their rasters, so for tiles that follow one another and whose lists have as many items
    /// it is counted once.
    pub fn held_bytes(&self) -> u64 {
        let mut bytes = 0u64;
        for pass in self.passes() {
            bytes = bytes.saturating_add(pass_bytes(pass));
        }
        bytes
    }
}
