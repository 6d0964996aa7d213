//! The tree that is used again.

use crate::state::TreeState;

/// A tree that is no longer shown, or was taken back before it was.
#[derive(Drop)]
pub(crate) enum Recycled {
    /// There is none.
    Nothing,
    /// It was active before the tree that is active now: it lacks that tree's commit.
    Behind(TreeState),
    /// It was pending and taken back: it has one commit more than the active tree.
    Ahead(TreeState),
}
