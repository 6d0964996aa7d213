//! Regions of a layer, and what a list of commands changed in a tree.
//!
//! A region is kept as a list of rects, and it covers the points that some rect covers. What the list is
//! made of is free, so that a rect which one of the last 512 holds whole is not listed again. If many rects of
//! one layer change, the list grows by the different ones; each question goes through the whole list, while
//! adding a rect asks the last 512 alone.
#![tactic(auto)]

mod change;
mod changes;
mod joining;
mod laws;
mod region;

pub use change::LayerChange;
pub use changes::Changes;
pub use laws::{each_layer_is_listed_once, points_decide_touching};
pub use region::Region;
