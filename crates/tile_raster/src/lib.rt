//! Jobs that make the picture of a tile, and the pictures that they make.
//!
//! A picture is what its display list shows on its rect, for as long as it lives: it keeps the list that it
//! was made of, shared, so two pictures with equal rects and lists have equal pixels. Rows that follow one
//! another and show the same are drawn and kept once.
#![tactic(auto)]

mod batch;
mod changes;
mod draw;
mod image;
mod job;
mod opaque;
mod patches;
mod picture_rows;
mod pixels;
mod spans;
mod ways;

pub use batch::run_all;
pub use image::TileImage;
pub use job::Job;
