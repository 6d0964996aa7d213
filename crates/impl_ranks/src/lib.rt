//! The ranks of the tiles of an active and a pending tree.
//!
//! A [`SeenTree`] is a page at given offsets of its scrollers, with the stamps of its places. It knows
//! where each layer stands on the screen, so that the rank of a key costs a search for its layer and a few
//! comparisons. Which tiles have a rank at all is asked near the viewport alone: a tile further away than
//! the border has no bin, so the work does not grow with the size of the layers. A [`PlacedTree`] answers
//! the same for one key at a time, and takes no memory.
#![tactic(auto)]

mod both;
mod found;
mod laws;
mod layer;
mod near;
mod pair;
mod placed;
mod placed_trees;
mod ready;
mod run;
mod tree;

pub use both::{SeenTrees, ranked, tile};
pub use laws::{ranked_tiles_are_near, tiles_far_away_have_no_bin};
pub use placed::PlacedTree;
pub use placed_trees::PlacedTrees;
pub use tree::SeenTree;
