//! The main side: it ends the main frames of a script one after another, and commits those that change
//! something.
//!
//! A frame is given the pulls, which is what the compositor side scrolled since it last asked. They are
//! added to the main values and clamped to the ranges, then the frame's commands are applied. A frame
//! that has no command, and whose pulls were not clamped, is aborted.
#![tactic(auto)]

mod host;
mod main_end;

pub use host::MainHost;
pub use main_end::MainEnd;
