//! Cases worked by hand for what threads share and for what bytes go through: locks, bells, rings, sources, sinks; and
//! for actors that find a run stopped.
//!
//! They are called by the lines of a table, whose form `channels.rt` tells.
#![tactic(auto)]

mod bells;
mod cases;
mod channels;
mod lines_sink;
mod locks;
mod rings;
mod slow_sink;
mod stops;
mod streams;
mod trio;

pub use channels::Channels;
