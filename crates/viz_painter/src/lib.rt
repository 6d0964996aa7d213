//! Drawing scenes one after another onto one picture, of which only what changed is drawn again.
//!
//! A painter holds the scene that its canvas shows. If the new scene is the held one, nothing is done. Else
//! its hidden quads are left out, it is compared with the held one, and the damage alone is drawn. If no
//! scene is held, or one of another size, the whole is drawn. One thread draws, or several do, each a part of the
//! rows.
//!
//! In: scenes. Out: the canvas, which shows the last one, in the bytes of its pixel format. Out of memory costs the
//! held scene, so the next one is drawn whole.
//!
//! A redrawer does the same to a picture in a buffer of its caller's, such as one that a window shares.
#![tactic(auto)]

mod buffer_redrawing;
mod held_scene;
mod left;
mod painting;
mod redrawer;
mod redrawing;
mod worth;

pub use painting::Painter;
pub use redrawer::Redrawer;
