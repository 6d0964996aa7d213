//! Premultiplied colours: one of a pixel, rows of them as bytes, and areas of a surface.
//!
//! A pixel is four bytes: red, green, blue, alpha, none of the first three above the last. A surface is a slice of
//! pixels, one row after another, with its size. What is drawn changes exactly the pixels of an area: a colour, an
//! image, one row laid over many, or a pass faded over another surface. What is read is `Pixels`, whose bytes are
//! enough for its size by its type.
//!
//! Loops take sixteen bytes at a time, and make no row for it.
#![tactic(auto)]

pub mod blocks;
mod colour;
mod fade;
pub mod four;
pub mod lanes;
mod laws;
mod plain;
mod row;
mod rows;
mod sixteen;
mod surface;
pub mod vectors;
mod view;

pub use colour::{Colour, mul255};
pub use fade::faded_over;
pub use laws::{clear_source_shows, clear_takes_source, opaque_source_hides};
pub use plain::{over_row_plain, scale_row_plain};
pub use row::{colour_at, fill_row, first_wrong, over_row, scale_row};
pub use rows::rows_over_area;
pub use sixteen::are_sixteen_opaque;
pub use surface::{Area, colour_over_area, fill_area, image_over_area};
pub use view::{Pixels, Size};
