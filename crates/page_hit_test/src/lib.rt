//! Hit test and scroll chaining: which layer a point of the screen hits, which scrollers take a wheel
//! there, and how much each of them takes.
//!
//! A wheel goes to the nearest scroller that can still move, as in Chromium: each scroller of the chain,
//! from the layer outwards, takes what its range allows, and hands on the rest.
#![tactic(auto)]

mod chains;
mod found;
mod laws;
mod parts;
mod targets;
mod walks;
mod wheels;

pub use chains::chain;
pub use laws::{
    chains_are_distinct, later_scrollers_take_what_is_left, main_values_are_within_ranges,
    parts_add_up,
};
pub use parts::{WheelPart, WheelParts};
pub use targets::target;
pub use wheels::{Wheel, wheel_parts};
