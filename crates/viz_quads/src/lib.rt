//! Scenes of pages: what a page shows at given offsets of its scrollers, as passes of quads.
//!
//! A scene is made of a page and of the tiles that it shows there, each with its image or without one. Each
//! tile is a quad of its layer, but neighbours of one colour are one quad if they make a rect. A layer is
//! drawn in the groups that its effects below 255 make: each group is a pass, which stands before the pass
//! that draws it. No pixel is copied: a scene shares the images. Its pixels are the direct painting of the
//! page, with the tiles without an image as missing.
#![tactic(auto)]

mod joining;
mod layer_quads;
mod making;
mod parts;
mod passes;
mod scene_of;
mod shown_tile;

pub use making::make_all;
pub use scene_of::quads_of;
pub use shown_tile::ShownTile;
