//! Whether a page may be pushed.

ghost use Rattle.std.specs.Prelude.{◌≡◌, ◌↔◌, None, IsTrue};
ghost use Rattle.std.specs.Option.{option_copied};
ghost use Rattle.impl_host.specs.Trees.{MayFollow};
ghost use Rattle.impl_host.specs.inner.Tests as spec;

use crate::kept::are_kept;
use crate::{TreeState, Trees};
use page_layers::LayerTree;
use region::Changes;

// Whether a commit retiles, or the last pushed tree, if there is one, has the tile size of the page.
fn has_tile(last: Option<&TreeState>, tree: &LayerTree, changes: &Changes) -> bool
    ensures { result ≡ spec.has_tile (option_copied last.entry) tree.now changes.now }
{
    match last {
        Some(last) => changes.retiled() || last.tree().view().tile == tree.view().tile,
        None => true,
    }
}

// Whether a commit may follow the last pushed tree.
fn may_follow(last: Option<&TreeState>, tree: &LayerTree, changes: &Changes) -> bool
    ensures { IsTrue result ↔ MayFollow (option_copied last.entry) tree.now changes.now }
{
    // This tells the proof what a page is; it does nothing when it runs.
    tree.is_page();
    let kept = are_kept(last, tree.layers(), changes);
    let tiled = has_tile(last, tree, changes);
    kept && tiled
}

/// Whether this page with these changes may be pushed: no tree is pending, and each layer that is not listed as
/// changed whole stands in the active tree with its size; and if the changes do not retile, the tile size
/// is the one there.
pub fn may_push(trees: &Trees, tree: &LayerTree, changes: &Changes) -> bool
    ensures free { IsTrue result → trees.now.pending ≡ None }
    ensures follows { IsTrue result → MayFollow trees.now.active tree.now changes.now }
    ensures only { trees.now.pending ≡ None → MayFollow trees.now.active tree.now changes.now → IsTrue result }
{
    if trees.pending().is_some() {
        return false;
    }
    may_follow(trees.active(), tree, changes)
}
