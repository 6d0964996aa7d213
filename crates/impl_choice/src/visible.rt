//! The keys of the visible tiles of a tree.

ghost use Rattle.std.specs.Prelude.{◌≡◌, IfOk, option_copied};
ghost use Rattle.model_history.specs.Tiles.{Tree, visible_in};
ghost use Rattle.impl_ranks.specs.SeenTrees.{IsSeenWhere};

use geom::Keys;
use impl_ranks::SeenTree;
use std::alloc::{AllocError, Global};

/// The keys of the visible tiles of a tree, in key order; none if there is no tree. An error means out of memory.
#[tactic(auto, unfolding(tile_visible::specs::Visible::visible_keys))]
pub fn visible_of(alloc: Global, tree: Option<&SeenTree<'_>>) -> Result<Keys, AllocError>
    ensures { IfOk result (λ keys. (t : Tree) → IsSeenWhere t (option_copied tree.entry) → keys ≡ visible_in t) }
{
    match tree {
        None => Ok(Keys::new(alloc)),
        Some(tree) => tree.visible(alloc),
    }
}
