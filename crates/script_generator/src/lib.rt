//! Scripts made of a number: a page that scrolls under a header, whose items change from frame to frame.
//!
//! The same number gives the same script everywhere, so a number is enough to tell another machine what to
//! play.
#![tactic(auto)]

mod draws;
mod frames;
mod inputs;
mod script;

pub use script::script_of_number;
