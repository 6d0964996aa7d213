//! Trees that can be pushed.

use impl_host::TreeState;
use model_history::Commit;
use page_layers::LayerTree;
use region::Changes;
use std::alloc::AllocError;
use std::sync::Arc;

/// The page of a commit, with what the commit changed and its main frame.
#[derive(Drop)]
pub struct NextTree {
    /// The page.
    pub tree: Arc<LayerTree>,
    /// What the commit changed.
    pub changes: Changes,
    /// The main frame.
    pub frame: u32,
}

impl NextTree {
    /// The page of a commit.
    pub fn of_commit(commit: Commit) -> NextTree {
        let Commit {
            tree,
            changes,
            frame,
            ..
        } = commit;
        NextTree {
            tree,
            changes,
            frame,
        }
    }

    /// The page of a tree that was pushed.
    pub fn of_pushed(pushed: &TreeState) -> Result<NextTree, AllocError> {
        let tree = Arc::try_clone(&pushed.tree)?;
        let changes = pushed.changes().copy()?;
        Ok(NextTree {
            tree,
            changes,
            frame: pushed.frame(),
        })
    }
}
