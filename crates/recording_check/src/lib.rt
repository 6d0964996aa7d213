//! Recordings, read and looked through without the core that made them, or anything that draws.
//!
//! A recording begins with the name of the format and the script's line (`opening`); after them stand
//! the parts that `recording_text` reads. `recording` joins both. `judging` judges them one after another, by the
//! state of the model (`right`).
//!
//! `picture` tells whether an image is the painting. It looks through the image in place, row by row from the top,
//! beside the rows of the page, each painted when it is looked at. Nothing of the image is copied.
#![tactic(auto)]

mod fault;
mod fronts;
mod judging;
pub mod laws;
mod line;
mod missing;
mod opening;
mod picture;
mod recording;
mod right;
mod sheet;
mod stack;
mod verdict;

pub use fault::RecordingFault;
pub use judging::check;
pub use picture::is_painted;
pub use recording::{Recording, read_images, read_recording};
pub use verdict::Verdict;
