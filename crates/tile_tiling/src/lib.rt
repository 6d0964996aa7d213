//! The tiles of one layer, each with the commit that last changed what it shows.
//!
//! A layer is cut into places. Each place has a stamp: the number of the last commit that added or resized
//! the layer, that changed the tile size of the tree, or in which an item changed whose old or new rect has
//! a pixel in the place. A tile's key names the layer, the place and the stamp, so a picture that was made
//! under a key is right for as long as the key is the key of its place.
//!
//! While all places have one stamp, as in a layer that was added or resized, that one stands for all, and the
//! room for the others is reserved and not written. The first change of a part writes the stamps of all places:
//! 4 MiB for a layer of 16384 by 16384 pixels at tiles of 16. To carry a later one costs the places that it
//! touches, not the places of the layer; if its rects share many, each is written once.
#![tactic(auto)]

mod laws;
mod stamps;
mod sweep;
mod tiling;

pub use laws::carry_steps_the_stamps;
pub use tiling::Tiling;
