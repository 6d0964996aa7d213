//! A tree of the compositor side.

ghost use Rattle.std.specs.Prelude.{◌≡◌};
ghost use Rattle.impl_host.specs.Trees.{AreCut};

use page_layers::LayerTree;
use region::Changes;
use std::marker::Model;
use std::sync::Arc;
use tile_tiling::Tiling;

/// The page of a commit, cut into tiles.
///
/// By its type each layer has a tiling, which is cut as the layer is.
pub struct TreeState {
    /// The main frame whose commit it is.
    pub frame: u32,
    /// The page after the frame, which the main side shares.
    pub tree: Arc<LayerTree>,
    /// What the frame changed.
    pub changes: Changes,
    /// The tilings of the layers, in the order of the layers.
    pub tilings: Vec<Tiling>,
}

impl Model for TreeState {
    ghost use Rattle.impl_host.specs.Trees.{TreeModel, AreCut};

    ghost Value = { TreeModel };

    ghost view = { λ t. record { frame = t.frame; page = t.tree.value; changed = t.changes; tilings = t.tilings.items } };

    ghost invariant = { λ t. AreCut t.tree.value t.tilings.items };
}

// Written out, since a derived drop is proved anew, field by field, in each function that lets one go.
impl Drop for TreeState {
    fn drop(self) {
        let TreeState {
            frame: _,
            tree: _,
            changes: _,
            tilings: _,
        } = self;
    }
}

impl TreeState {
    /// Each of its layers has a tiling, which is cut as the layer is. A law that does nothing when it runs.
    pub fn are_cut(&self)
        ensures { AreCut self.now.page self.now.tilings }
    {
        // This read tells the proof what the type keeps; it does nothing when it runs.
        let _ = &self.frame;
    }

    /// Its page, what its frame changed, and its tilings.
    pub(crate) fn into_parts(self) -> (Arc<LayerTree>, Changes, Vec<Tiling>)
        ensures page { result.0.value ≡ self.page }
        ensures changed { result.1 ≡ self.changed }
        ensures tilings { result.2.items ≡ self.tilings }
        ensures cut { AreCut result.0.value result.2.items }
    {
        let TreeState {
            frame: _,
            tree,
            changes,
            tilings,
        } = self;
        (tree, changes, tilings)
    }

    /// The main frame whose commit it is.
    pub fn frame(&self) -> u32
        ensures { result ≡ self.now.frame }
    {
        self.frame
    }

    /// The page after the frame.
    pub fn tree(&self) -> &LayerTree
        ensures { result.now ≡ self.now.page }
    {
        &self.tree
    }

    /// What the frame changed.
    pub fn changes(&self) -> &Changes
        ensures { result.now ≡ self.now.changed }
    {
        &self.changes
    }

    /// The tilings of the layers, in the order of the layers.
    pub fn tilings(&self) -> &[Tiling]
        ensures { result.now ≡ self.now.tilings }
    {
        &self.tilings
    }
}
