//! The text of a recording: the line of each event, and the images of its pictures, written and read.
//!
//! A line is read by guess: its word and its numbers tell the one event that it can be, and the line of
//! that event is printed and compared. So no line but an event's own is taken for it.
//!
//! After its first two lines a recording is event lines, with an image after that of each draw. The modules that read
//! them stand in the order in which one needs the other: the views that say how large an image is, one part, the
//! cursor that goes from part to part, and the body, which is all parts.
#![tactic(auto)]

mod body;
mod cursor;
mod guess;
mod image;
pub mod laws;
mod line;
mod numbers;
mod part;
mod place;
mod read;
mod scratch;
mod views;
mod word;

pub use body::{Body, find_images, read_body};
pub use cursor::{Cursor, EventSpan, ImageSpan, take_piece};
pub use image::{image_length, p6, push_image_head, push_rgb, read_p6};
pub use line::{event_line, push_event};
pub use part::entry_of;
pub use place::ImagePlace;
pub use read::{Line, read_event, take_event};
pub use scratch::Scratch;
pub use views::ImageViews;
