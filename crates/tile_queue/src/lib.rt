//! The raster queue: which tile is made next, and which ready tiles are evicted for it.
//!
//! It represents a choice of `tile_priority`: the wanted ranks, the ready tiles, how many tiles are in
//! flight and how many there may be. The definitions of that choice scan lists; the queue keeps them in
//! order, so that the next tile is a look at one end, the worst ready tiles stand at another, and a start
//! or its end is a binary search and a shift of the shorter side, of four bytes an element: what is moved are
//! numbers of slots, and ranks stay where they are.
//!
//! Of the wanted ranks the best alone are in order, as few start before there is another choice. They are sorted
//! by words of 64 bits, and then as ranks, which are nearly in order by then. The others wait until all of those
//! have started.
//!
//! Room for every later start is made with the choice, so nothing after it can want memory.
#![tactic(auto)]

mod evictable;
mod evictables;
mod listed;
mod parted;
mod queue;
mod ranked;
mod wanted;
mod words;

pub use queue::RasterQueue;
