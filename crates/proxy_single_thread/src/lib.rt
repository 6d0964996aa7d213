//! A compositor on one thread: a core with its main side and the jobs of its workers.
//!
//! A [`SingleThread`] enters any event of the model by its kind and its actor, if it may come now. The
//! main side runs a main frame when its end is asked for, and a worker makes a tile when the end of the tile
//! is asked for, unless it was made ahead; nothing runs by itself. So every legal history of a script can be
//! played, entry by entry.
#![tactic(auto)]

mod compositor;
mod enter;
mod main_side;
mod prepared;
mod single;
mod unwritten_scenes;
mod workers;

pub use single::{Retention, SingleThread};
