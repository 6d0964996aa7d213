//! The ranks for a past, of both trees as they are seen, of which a raster queue is to be made; and what an
//! activation brings to the tiles.
//!
//! A start or its end changes a queue a little, which `tile_queue` does in place. What moves or exchanges a
//! tree (a scroll, a wheel, an abort, a commit, an activation) changes the ranks of all its tiles: then they
//! are to be made anew. The ranks are those near the viewports alone, so the work grows with the tiles near the
//! viewports, not with the size of the layers. While a visible tile is missing no other starts: then the visible tiles
//! and the ready ones are all that is looked at.
//!
//! Making these takes memory, handing them to the tile manager takes none. What an activation brings is made before
//! it is entered, and handed over after it.
#![tactic(auto)]

mod activations;
mod dead;
mod foreseen;
mod hidden;
mod laws;
mod rebuild;
mod visible;

pub use activations::{Activation, activation_of};
pub use foreseen::{Foreseen, foreseen_of};
pub use laws::{commits_keep_the_tiles, most_events_keep_the_tiles};
pub use rebuild::reranked;
pub use visible::visible_of;
