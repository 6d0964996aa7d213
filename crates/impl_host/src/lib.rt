//! The compositor side of a run: the active and the pending tree, and where their scrollers stand.
//!
//! An [`ImplHost`] holds what the events of main frames and of scrolling change: the trees with the stamps of
//! their tiles, the scroll values and the offsets of both trees, and which scrollers the pending commit sets
//! outright. It answers what the trees tell of tiles: which keys are live, their ranks, and what makes them.
//!
//! Contracts say for which runs it stands, by the script and the past, which lists the newest entry first:
//! `Hosts`. What needs memory comes before an event is entered, by calls that answer what is to be put in
//! place; what steps the host after the entry takes none. A push is the exception: it steps the host before
//! its entry, and [`ImplHost::take_back`] undoes it.
//!
//! Its [`Trees`] are the pending, the active and the recycled one, each with the tilings of its layers. The pending
//! tree takes the page of a commit as it comes; the stamps of its tiles are those of the last pushed tree, stepped
//! by the commit. For that the tilings of the recycled tree are used again: they lack one commit more, which is
//! carried first. So a push costs what the last two commits changed and a word a layer, not the places of the page.
//!
//! ```text
//!            push                activate
//! recycled ------->  pending  ------------->  active
//!     ^                 | take_back             |
//!     |                 v                       | activate
//!     +-----------------+-----------------------+
//! ```
//!
//! A push asks that its commit may follow the active tree. A legal history guarantees that; a program that takes
//! commits from elsewhere tests it first.
//!
//! The name is that of Chromium's `cc/trees/layer_tree_host_impl.h`.
#![tactic(auto)]

mod events;
mod host;
mod jobs;
mod kept;
mod laws;
mod listed;
mod listed_whole;
mod making;
mod places;
mod push;
mod recycled;
mod seen;
mod spare;
mod state;
mod tiles;
mod trees;

pub use host::ImplHost;
pub use laws::jobs_show_their_keys;
pub use push::may_push;
pub use state::TreeState;
pub use trees::Trees;
