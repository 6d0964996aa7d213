//! Leaving out the quads of a scene that cannot be seen.
//!
//! The quads of a pass are gone through from the last to the first. The area that opaque tiles and solids
//! cover is kept as a list of rects for each band of 32 rows of the screen. In a list, rects that make one rect
//! together are joined, so the tiles of a layer are one rect. A quad stays if one of its points lies outside that
//! area. Groups stay.
//!
//! In: a scene. Out: a scene of the same pixels. Time grows with the number of quads, times the number of
//! rects of the area in the bands that they meet, which is small for layers of tiles; of a tile that is opaque in part
//! only, the pixels that are shown are read.
#![tactic(auto)]

mod bands;
mod cover;
mod culling;
mod opaque;

pub use culling::cull;
