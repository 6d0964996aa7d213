//! The tiles of a run: their images, and which of them is made next.
//!
//! A [`TileManager`] has the store of tiles, the keys that are pinned, and the raster queue or the ranks of which
//! it is to be made, and keeps them in step with the history of a run. If a tree has moved it may be left
//! without both until the next question, and with a queue of the visible tiles alone as long as that answers all
//! questions. Each call that represents an event takes no memory, so it may follow the entry of that event; what needs
//! memory is taken before, by calls of their own. It knows no page: ranks, dead keys and the keys that an activation
//! needs are handed in.
//!
//! A [`TileStore`] has the tiles whose images are ready and those whose images are being made. Keys stand in their
//! order, each with the place of its tile in a slab, so a look-up is a binary search. They are cut into chunks, so
//! that one that comes or goes moves a few others and not all. `reserve` takes the memory of one later start; neither
//! that start nor the tile's end takes any.
//!
//! The name is that of Chromium's `cc/tiles/tile_manager.h`, which schedules raster work under a budget.
#![tactic(auto)]

mod chunk;
mod chunks;
mod each_held;
mod held;
mod laws;
mod manager;
mod missing;
mod near;
mod outlook;
mod picks;
mod pins;
mod ranks;
mod ready_keys;
mod search;
mod spots;
mod stays;
mod store;
mod tile_table;
mod tiles;
mod visible;

pub use laws::sends_keep_the_tiles;
pub use manager::TileManager;
pub use near::{has_near, is_next};
pub use pins::Pins;
pub use ranks::Ranks;
pub use ready_keys::ReadyKeys;
pub use store::TileStore;
