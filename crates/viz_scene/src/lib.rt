//! Scenes: what is to be drawn of one frame, as passes of quads.
//!
//! A scene keeps its colours, and shares the images of its tiles, so it stays as it is whatever becomes of
//! the page that it was made from. A scene of passes that come from elsewhere is tested first: whether each
//! quad lies on the screen and in its image, and whether a group is of an earlier pass.
//!
//! Beside it stand two calls on rects of a screen: the rect that holds two others, by which damage joins rects,
//! and the union of two if that is a rect, by which the area grows that opaque quads hide.
#![tactic(auto)]

mod checked_quads;
mod checked_scene;
mod empty;
mod held;
mod joining;
mod laws;
mod quad;
mod scene;

pub use checked_scene::scene_of;
pub use empty::is_empty;
pub use joining::{hull, union_of};
pub use laws::{hidden_quads_do_not_show, root_is_the_last_pass};
pub use quad::{Quad, RenderPass};
pub use scene::Scene;
