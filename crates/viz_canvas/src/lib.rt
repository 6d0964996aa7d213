//! Pictures of scenes, in the bytes that their reader wants.
//!
//! A canvas keeps one picture, in a pixel format: what a file or a window takes as it is. A scene is drawn onto it
//! piece by piece. If an opaque tile is seen, the rows of its image are written into the canvas's bytes; the other
//! pieces are drawn strip by strip: each strip into surfaces, and from there into those bytes, while it is in the
//! processor's cache. Rows may be copied to other rows, as when a page was scrolled.
//!
//! A large area may be drawn in parts of whole rows, each by a thread of its own and with surfaces of its own, which
//! puts its own rows into the canvas. Surfaces are kept for the next scene of that size and number of passes. All
//! memory is taken before the canvas is changed.
//!
//! A picture may also lie in a buffer of somebody else's, whose rows may have gaps between them: a renderer draws onto
//! it by the same code, of which a canvas is the case without gaps.
#![tactic(auto)]

mod band;
mod bgra;
mod canvas;
mod copying;
mod drawing;
mod format;
mod fresh;
mod lanes;
mod moving;
mod parts;
mod pieces;
mod renderer;
mod rgb;
mod rgba;
mod row;
mod runs;
mod strip;

pub use bgra::Bgra;
pub use canvas::Canvas;
pub use format::PixelFormat;
pub use moving::copy_rows;
pub use renderer::Renderer;
pub use rgb::Rgb;
pub use rgba::Rgba;
