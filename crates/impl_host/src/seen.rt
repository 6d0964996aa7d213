//! The trees as their tiles are seen.

ghost use Rattle.std.specs.Prelude.{◌≡◌, ℕ, List, Option, is_some, IfOk, option_copied};
ghost use Rattle.geom.specs.declared.rect.Point.{Point};
ghost use Rattle.page_properties.specs.OffsetMap.{offset_at, AreOffsets};
ghost use Rattle.page_layers.specs.declared.moves.Move.{Move};
ghost use Rattle.model_history.specs.declared.history.Entry.{Entry};
ghost use Rattle.model_history.specs.Scripts.{ScriptModel};
ghost use Rattle.model_history.specs.Tiles.{active_tree, pending_tree};
ghost use Rattle.impl_ranks.specs.SeenTrees.{IsSeenWhere, IsPlacedWhere, AreSeenAt};
ghost use Rattle.impl_host.specs.Hosts.{Hosts, IsTreeAt, with_standing};
ghost use Rattle.impl_host.specs.inner.LivePages.{tree_at};

use crate::TreeState;
use crate::host::ImplHost;
use impl_ranks::{PlacedTree, PlacedTrees, SeenTree, SeenTrees};
use impl_scroll::Standing;
use page_properties::Offsets;
use std::alloc::{AllocError, Global};

// A tree that may be missing, as its tiles are seen at these offsets. An error means out of memory.
fn seen_tree<'a>(
    alloc: Global,
    tree: Option<&'a TreeState>,
    offsets: &Offsets,
) -> Result<Option<SeenTree<'a>>, AllocError>
    requires { AreOffsets (offset_at offsets.now) }
    ensures tree { IfOk result (λ seen. (s : ScriptModel) (ps : ℕ → List Move) (o : Option ℕ) (at : ℕ → Point) → IsTreeAt s ps o (option_copied tree.entry) → ((sc : ℕ) → offset_at offsets.now sc ≡ at sc) → IsSeenWhere (tree_at s ps o at) seen) }
    ensures some { IfOk result (λ seen. is_some seen ≡ is_some (option_copied tree.entry)) }
{
    match tree {
        None => Ok(None),
        Some(tree) => {
            let page = tree.tree();
            page.is_page();
            tree.are_cut();
            let seen = SeenTree::new(alloc, page, tree.tilings(), offsets)?;
            Ok(Some(seen))
        }
    }
}

/// A tree that may be missing, at these offsets. Takes no memory.
pub(crate) fn placed_tree<'a>(
    tree: Option<&'a TreeState>,
    offsets: &'a Offsets,
) -> Option<PlacedTree<'a>>
    requires { AreOffsets (offset_at offsets.now) }
    ensures { (s : ScriptModel) (ps : ℕ → List Move) (o : Option ℕ) (at : ℕ → Point) → IsTreeAt s ps o (option_copied tree.entry) → ((sc : ℕ) → offset_at offsets.now sc ≡ at sc) → IsPlacedWhere (tree_at s ps o at) result }
{
    match tree {
        None => None,
        Some(tree) => {
            let page = tree.tree();
            page.is_page();
            tree.are_cut();
            Some(PlacedTree::new(page, tree.tilings(), offsets))
        }
    }
}

impl ImplHost {
    /// The active and the pending tree as their tiles are seen where the scrollers stand so, which may be
    /// after an event that is still to be entered. An error means out of memory.
    pub fn seen<'a>(
        &'a self,
        alloc: Global,
        standing: &Standing,
    ) -> Result<SeenTrees<'a>, AllocError>
        ensures trees { IfOk result (λ seen. (s : ScriptModel) (h : List Entry) → Hosts s h (with_standing self.now standing.now) → AreSeenAt s h seen.active seen.pending) }
        ensures some_active { IfOk result (λ seen. is_some seen.active ≡ is_some self.now.trees.active) }
        ensures some_pending { IfOk result (λ seen. is_some seen.pending ≡ is_some self.now.trees.pending) }
    {
        let active = seen_tree(alloc, self.trees.active(), standing.active())?;
        let pending = seen_tree(alloc, self.trees.pending(), standing.pending())?;
        Ok(SeenTrees { active, pending })
    }

    /// The active tree as its tiles are seen where the scrollers stand; None exactly if there is none. An
    /// error means out of memory.
    pub fn seen_active(&self, alloc: Global) -> Result<Option<SeenTree<'_>>, AllocError>
        ensures tree { IfOk result (λ seen. (s : ScriptModel) (h : List Entry) → Hosts s h self.now → IsSeenWhere (active_tree s h) seen) }
        ensures some { IfOk result (λ seen. is_some seen ≡ is_some self.now.trees.active) }
    {
        seen_tree(alloc, self.trees.active(), self.standing.active())
    }

    /// The same of the pending tree.
    pub fn seen_pending(&self, alloc: Global) -> Result<Option<SeenTree<'_>>, AllocError>
        ensures tree { IfOk result (λ seen. (s : ScriptModel) (h : List Entry) → Hosts s h self.now → IsSeenWhere (pending_tree s h) seen) }
        ensures some { IfOk result (λ seen. is_some seen ≡ is_some self.now.trees.pending) }
    {
        seen_tree(alloc, self.trees.pending(), self.standing.pending())
    }

    /// The active and the pending tree, to be asked for single keys. Takes no memory.
    pub(crate) fn placed(&self) -> PlacedTrees<'_>
        ensures { (s : ScriptModel) (h : List Entry) → Hosts s h self.now → IsPlacedWhere (active_tree s h) result.active × IsPlacedWhere (pending_tree s h) result.pending }
    {
        PlacedTrees {
            active: placed_tree(self.trees.active(), self.standing.active()),
            pending: placed_tree(self.trees.pending(), self.standing.pending()),
        }
    }
}
