//! Display lists: what a layer shows, as rects of one colour and bitmaps in painting order.
//!
//! A display list shows a colour at each point: its items are laid over one another in order,
//! from the transparent colour on. `DisplayList::raster` gives the pixels of an area.
#![tactic(auto)]

mod bitmap;
mod covered_area;
mod item;
mod list;
mod raster;

pub use bitmap::{BadBitmap, Bitmap, BitmapCause};
pub use covered_area::{CoveredArea, shared_part};
pub use item::Item;
pub use list::DisplayList;
