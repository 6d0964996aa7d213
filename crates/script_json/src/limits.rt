//! How many elements the lists of a script have at most.

/// The most main frames of a script.
pub(crate) const MOST_FRAMES: u32 = 4096;

/// The most inputs of a script.
pub(crate) const MOST_INPUTS: u32 = 65536;
