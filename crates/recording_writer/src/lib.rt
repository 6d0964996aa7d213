//! Writes the entries of a history as they come: the line of each event, and the image of what it shows after that of
//! a draw.
//!
//! In: a core whose entries are not forgotten yet, the scenes of their draws, and a sink. Out: the sink gained what the
//! entries add to the recording, but for the lines that are held back; or if it failed or memory was refused, a
//! prefix of that.
//!
//! A [`Recorder`] paints and puts entry by entry. A [`Batch`] gathers entries, which several painters paint and put
//! then. An [`ImagePainter`] gives the image of a scene; an [`ImageWriter`] puts images alone, one after another, and
//! [`png_of`] makes a PNG file of one.
#![tactic(auto)]

mod batch;
mod draws;
mod header;
mod image;
mod image_painter;
mod image_writer;
mod last_draw;
mod picture_file;
mod recorder;
mod scene_painter;
mod writing;

pub use batch::{Batch, put_shots};
pub use header::header_of;
pub use image_painter::ImagePainter;
pub use image_writer::ImageWriter;
pub use last_draw::LastDraw;
pub use picture_file::png_of;
pub use recorder::Recorder;
