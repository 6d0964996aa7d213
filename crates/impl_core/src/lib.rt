//! The core of the compositor: one history, in which each call enters the one event that may come.
//!
//! A [`Core`] keeps what the model tells of its history: how far the run has come, the two trees and where
//! their scrollers stand, the tiles with the raster queue, what the main side was told, the page that it
//! made ready, the keys that the pending tree needs, and what draws show while nothing changes. Its calls take all
//! their memory before they enter their event, and step the rest after it, so that a core is as it was if memory
//! runs out.
//!
//! If a tree has moved, the ranks of its tiles and the keys that it needs are looked for when somebody asks:
//! most scrolls are followed by another before that.
//!
//! The script may be told while it is played: what a core keeps of its history speaks of the part of the script that
//! the history has read, and stays as it is when the rest grows.
//!
//! A [`Drawing`] is what a draw shows: the scene of the active page, and the keys of the tiles that it lacks. A
//! ready tile is drawn with its image, which is shared; any other is drawn in its layer's background colour.
#![tactic(auto)]

mod aborts;
mod activations;
mod commits;
mod copying;
mod core_state;
mod dones;
mod drawing;
mod drawn;
mod draws;
mod growth;
mod handed;
mod moving;
mod needs;
mod outlooks;
mod plain;
mod play;
mod readies;
mod reply;
mod scrolls;
mod sends;
mod starts;
mod stops;
mod tiles;
mod turns;
mod upcoming;
mod wheels;

pub use core_state::Core;
pub use drawing::{Drawing, draw};
pub use handed::Handed;
pub use reply::{CoreFault, Reply};
pub use turns::Stem;
