//! A live compositor: the object that a host's own threads call, one at a time, while the page is scrolled and drawn.
//!
//! It starts no thread and takes no lock, and no call waits. A host has one mutex around a [`Live`], or one thread.
//! What is heavy is done outside of it: a worker makes the picture of a [`Ticket`], and a [`Surface`] paints the scene of
//! a draw.
//!
//! Its history is that of a run whose script grows with the calls: a scroll, a wheel and a tick are inputs, told when
//! they come. So all that the model says of a run holds of what a host sees, whatever comes later.
#![tactic(auto)]

mod command_numbers;
mod fault;
mod frames;
mod inputs;
mod jobs;
mod live;
mod main_edits;
mod main_fault;
mod main_side;
mod open_frame;
mod settings;
mod standing;
mod surface;

pub use fault::LiveFault;
pub use jobs::{Made, Ticket};
pub use live::Live;
pub use main_fault::{Ended, MainFault};
pub use settings::Settings;
pub use surface::Surface;
