//! Which tile is worth its pixels first.
//!
//! Each tile of a tree has a bin: NOW if it is visible, else SOON or EVENTUALLY if it lies near the
//! viewport, else none. A tile with a bin has a rank, and ranks are totally ordered. Memory is a number of
//! tiles, the budget. A tile that is not visible is made only if it fits in the budget, or if it fits
//! once ready tiles of worse bins are evicted, the worst of them first.
//!
//! The bins and the tree priorities are those of Chromium's `cc/tiles/tile_priority.h`. The order of ranks
//! and the rule of the budget are this project's own.
#![tactic(auto)]

mod laws;
mod rank;
mod ready_tile;
mod tile;
mod tree_priority;

pub use laws::{
    alike_choices_stay_alike, evicted_keys_are_a_front, first_is_the_least, order_of_lists_is_free,
    orders_are_total, pinned_tiles_stay, the_least_wanted_is_first, visible_tiles_always_start,
    worst_first_is_one_list,
};
pub use rank::{Bin, Rank, Side, is_visible_rank, least};
pub use ready_tile::ReadyTile;
pub use tile::{Borders, Seen, is_visible, rank_in};
pub use tree_priority::TreePriority;
