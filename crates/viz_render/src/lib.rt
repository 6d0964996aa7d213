//! Drawing scenes into surfaces, one strip after another.
//!
//! A strip is some rows of the screen, or a part of them. Each pass of a scene has a surface with room for a strip,
//! which serves for every strip and every scene of that width and number of passes, so the memory grows with the
//! number of passes and the width, and not with the height. Passes are drawn in order, the root last. Of a strip a
//! pass before the root draws only the part that its quads lie in; elsewhere it is transparent, and costs nothing.
//! If quads lie deep above one another, a mask tells which blocks of the strip a later opaque quad hides: there
//! neither the background nor the quads below it are drawn. If such quads of the root lie over all its groups, the
//! passes before the root are not drawn either.
//!
//! In: a scene and an area of the screen. Out: the area's pixels, red, green, blue and alpha of each. `viz_canvas`
//! makes pictures of them.
#![tactic(auto)]

mod beside;
mod blank;
mod group;
mod hull;
mod marks;
mod mask;
mod open;
mod paint;
mod pass_surfaces;
mod passes;
mod quads;
mod shown;
mod size;
mod solid;
mod surface;
mod surfaces;
mod tile;

pub use surfaces::Surfaces;
