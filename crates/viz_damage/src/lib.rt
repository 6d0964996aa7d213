//! Where two scenes may differ: the part of a frame that is to be drawn again.
//!
//! Quads of a pass are compared in drawing order with those of the same pass before. A quad that both passes
//! have costs nothing; the rect of each other quad, old or new, is damaged, or of a tile that moved up or down the
//! rows that differ. A group is damaged where its own quads are, so a change inside a pass stays within what that
//! pass changed. The damage is a few rects: two are joined if the rect of both is no larger than they are
//! together. Whether two scenes are one is told by less work.
//!
//! If most of what a scene shows stood some rows higher or lower in the scene before, as after a scroll, the rows of
//! a frame can be copied, and only the rest is to be drawn. The old scene is moved and cut to the rows that have a
//! source, the new one is cut to the same rows, and their damage is taken. How far a page was scrolled is guessed by
//! a few tiles; a guess that is wrong costs a larger region.
//!
//! In: two scenes of one size. Out: a region, and the rows that are copied. Time grows with the number of quads,
//! with the items of the display lists of tiles that stand in both scenes, and with the bytes of those tiles that have
//! bitmaps. Scenes that differ in their number of passes or their background are damaged as a whole.
#![tactic(auto)]

mod areas;
mod damage;
mod guess;
mod images;
mod lists;
mod moved;
mod moved_rows;
mod quads;
mod same;
mod scene;
mod scroll_damage;
mod shift;

pub use damage::{damage_of, whole_screen};
pub use guess::shift_of;
pub use same::are_one;
pub use scroll_damage::damage_of_shift;
pub use shift::Shift;
