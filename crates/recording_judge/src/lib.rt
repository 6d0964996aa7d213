//! A judge of histories: the state of the model of a run, kept entry by entry.
//!
//! A [`Judge`] is told the entries of a history one after another, and says of each whether it may come next. It
//! keeps what the model tells of the past: how far the run has come, the trees and where their scrollers stand,
//! the keys of the tiles, and the main side. It has no images and draws nothing. What an entry costs does not
//! grow with the past.
#![tactic(auto)]

mod due;
mod enter;
mod host_steps;
mod judge;
mod judged_main;
mod key_set;
mod queues;
mod same_events;
mod screen_state;
mod state;
mod steps;
mod tile_keys;

pub use judge::Judge;
pub use same_events::same_event;
pub use screen_state::ScreenState;
