//! A compositor to be built into another program: the page that commands change, the page that is shown, and its
//! frame.
//!
//! Commands change the main page. A commit makes it the active one, which is scrolled, asked what lies under a
//! point, and drawn. The main page takes each scroll at once, so no commit loses one, and the order of the calls is
//! the order of their effects: a `scroll_to` after a scroll wins, a scroll after it adds.
//!
//! There are no threads, no queue and no clock here: each call ends what it begins, and a draw shows the whole page.
//!
//! A [`TileCache`] keeps images of tiles from one draw to the next. Each is what the active page shows in the place of
//! its tile; one that is not stale is also what the main page shows there, so it stays when that page becomes the
//! active one. Commands mark tiles, a commit drops the marked ones and looks at no pixel, and a draw makes what is
//! missing and drops what was not used for longest, down to a budget in bytes.
#![tactic(auto)]

mod cache;
mod compositor;
mod damage;
mod edits;
mod eviction;
mod kept_tile;
mod making;
mod marking;
mod moves;
mod scenes;
mod shown;

pub use cache::TileCache;
pub use compositor::Compositor;
pub use damage::FrameRows;
pub use kept_tile::KeptTile;
