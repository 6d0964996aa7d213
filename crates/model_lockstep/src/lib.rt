//! Lockstep never sticks: every playable script has a lockstep history.
#![tactic(auto)]

mod compositor;
mod draws;
mod frames;
mod laws;
mod pairs;
mod play;
mod receiver;
mod whole;

pub use compositor::{Compositor, EnterFault};
pub use laws::{lockstep_exists, pairs_make_fewer, required_tiles_start, rounds_are_few};
pub use receiver::Receiver;
pub use whole::{play_all, play_end, play_some};
