//! Cases worked by hand for the calls of the lowest crates, one file a crate.
//!
//! They are called by the lines of a table, whose form `units.rt` tells. They stand in code if their numbers
//! alone would say little.
#![tactic(auto)]

mod images;
mod lists;
mod pixels;
mod ranks;
mod rects;
mod regions;
mod scroll_values;
mod states;
mod stores;
mod tilings;
mod units;

pub use units::Units;
