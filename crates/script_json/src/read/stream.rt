//! A script, one value of its lists at a time: no command and no input keeps its JSON value.
//!
//! The members of the top object come in any order, so a list may come before what its reading depends
//! on. Commands are read as those of version 2, and awaits as if there were as many main frames as can be
//! said; both are tested once all is read. What is JSON and is not read this way is read as one value.

mod fits;
mod frames;
mod inputs;
mod top;

pub(super) use top::streamed_parts;
