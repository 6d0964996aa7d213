//! Who plays the scripts of a session.

ghost use Rattle.std.specs.Prelude.{◌≤◌};

use std::alloc::Global;

/// Plays each line as `step N` plays its source.
#[derive(Drop)]
pub(crate) struct LinePlayer {
    pub(crate) alloc: Global,
    /// How many raster workers there are, 1 to 16.
    pub(crate) workers: u32,
    ghost few: { (1 ≤ workers) × (workers ≤ 16) },
}
