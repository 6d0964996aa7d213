//! Pieces of a recording: lines, and the image of a scene after them. They are painted in runs, each run by a
//! painter of its own, side by side, and put into a sink in order.
//!
//! In: pieces ([`Shot`]), a way to paint a scene ([`ScenePainter`]), and a sink. Out: the sink gained the bytes of
//! all pieces, in order; if it failed or memory was refused, a prefix of them.
//!
//! Those who make scenes need not paint them: a [`SceneSink`] takes scenes beside bytes. One that never waits stands
//! in front of a sink that may be slow:
//!
//! ```text
//! compositor --put, put_scene--> [RingSink] --> ring of 64 places --> [Presenter] --paint, put--> out
//! ```
//!
//! [`ring`] makes both ends. The compositor puts bytes and scenes into the [`RingSink`] and calls `end`. Beside it, on
//! another thread, [`Presenter::serve`] paints the scenes, several at once if several wait, and puts all into `out` in
//! order. When both have returned, [`finish`] puts what is left. [`present_from`] shows the whole life for a list of
//! pieces.
//!
//! What was put goes out in the order in which it came in. Bytes are gathered until a scene follows, until they are
//! 64 KiB, or until `pass_on`, which the compositor calls before it waits for others. What the ring has no place for
//! is kept in order in the sink. A put waits for nobody; so that what is kept does not grow without bound, the
//! compositor calls `wait_for_space` now and then, which waits while more than 256 MiB wait to be written.
#![tactic(auto)]

mod ends;
mod filling;
mod hands;
mod life;
mod limits;
mod painters;
mod rest;
mod scene_painter;
mod scene_sink;
mod serving;
mod shared;
mod shot;

pub use ends::{Label, Presenter, RingSink, ring, ring_within};
pub use hands::Hand;
pub use life::present_from;
pub use limits::{DEALT_PIECES, GATHERED_LINES, HELD_BYTES};
pub use painters::Painters;
pub use rest::finish;
pub use scene_painter::ScenePainter;
pub use scene_sink::SceneSink;
pub use shot::Shot;
