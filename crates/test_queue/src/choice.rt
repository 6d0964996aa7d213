//! The choice of `tile_priority` as plain lists: each call does what its definition says, by scans. The raster
//! queue is tried against it.

mod evictables;
mod plain;
mod steps;

pub use plain::PlainChoice;
