//! Commits: what a main frame that changed something hands to the compositor side.

ghost use Rattle.std.specs.Prelude.{◌≡◌};
ghost use Rattle.model_history.specs.Commits.{IsCommit};
ghost use Rattle.model_history.specs.Accepted.{IsPlayable};

use crate::moves::Moves;
use crate::script::Script;
use ghost_list::GhostList;
use page_layers::LayerTree;
use region::Changes;
use std::marker::Model;
use std::sync::Arc;

/// The page after a main frame of a script, and what the frame changed.
///
/// By its type the tree is the one that the frames 0 to `frame` make with these sends, and the changes
/// are those of all commands of this frame together.
#[derive(Drop)]
pub struct Commit {
    /// The script.
    pub script: Arc<Script>,
    /// The number of the main frame; the script has it.
    pub frame: u32,
    /// The pulls of the frames 0 to `frame`, which clauses alone read.
    pub sends: GhostList<Moves>,
    /// The page after the frame, which the main side shares.
    pub tree: Arc<LayerTree>,
    /// What the frame's commands changed. A layer is listed if a command added or resized it, or
    /// changed its items; one that a command removed is not listed for what came before.
    pub changes: Changes,
}

impl Model for Commit {
    ghost use Rattle.model_history.specs.Commits.{CommitModel, IsCommit};

    ghost Value = { CommitModel };

    ghost view = { λ c. record { script = c.script.value; frame = c.frame; sends = c.sends.items; tree = c.tree.value; changes = c.changes } };

    ghost invariant = { λ c. IsCommit (record { script = c.script.value; frame = c.frame; sends = c.sends.items; tree = c.tree.value; changes = c.changes }) };
}

impl Commit {
    /// Its tree and its changes are those of its frame, and its script can be played. A law that does
    /// nothing when it runs.
    pub fn is_commit(&self)
        ensures commit { IsCommit self.now }
        ensures script { IsPlayable self.now.script }
    {
        self.script.is_accepted();
    }

    /// The script.
    pub fn script(&self) -> &Script
        ensures { result.now ≡ self.now.script }
    {
        &self.script
    }

    /// The number of the main frame.
    pub fn frame(&self) -> u32
        ensures { result ≡ self.now.frame }
    {
        self.frame
    }

    /// The page after the frame.
    pub fn tree(&self) -> &LayerTree
        ensures { result.now ≡ self.now.tree }
    {
        &self.tree
    }

    /// What the frame changed.
    pub fn changes(&self) -> &Changes
        ensures { result.now ≡ self.now.changes }
    {
        &self.changes
    }

    /// The page after the frame, and what the frame changed.
    pub fn into_page(self) -> (Arc<LayerTree>, Changes)
        ensures tree { result.0.value ≡ self.tree }
        ensures changes { result.1 ≡ self.changes }
    {
        let Commit { tree, changes, .. } = self;
        (tree, changes)
    }
}
