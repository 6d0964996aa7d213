//! Does one drawing job the given number of times and prints the sum of the bytes that it made.
//!
//! The words are one of
//!
//! - `over PIXELS TIMES`, `scale PIXELS TIMES`, `fill PIXELS TIMES`: a row of the given number of pixels,
//! - `raster KIND ITEMS TIMES`: a tile of 256 by 256 pixels under the given number of items that cover it, of
//!   the kind `opaque`, `translucent` or `bitmap`,
//! - `scene ITEMS LAYERS TIMES`, `groups ITEMS LAYERS TIMES`: a scene of 1024 by 1024 pixels in tiles of 256
//!   by 256, of the given number of layers of the given number of translucent items; with `groups` each layer
//!   is in a group of its own,
//! - what `redraws` lists.
//!
//! The scripts `bench/rows` and `bench/redraws` time them.
#![tactic(auto)]

mod asked;
mod images;
mod job;
mod large;
mod pairs;
mod pool;
mod redraws;
mod rows;
mod run;
mod scenes;
mod scrolled;
mod showing;
mod sketch;
mod tiles;

pub use asked::Drawings;
pub use run::run_job;
