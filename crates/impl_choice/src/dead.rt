//! The ready keys that a tree lacks.

ghost use Rattle.std.specs.Prelude.{◌≡◌, not, ◌&&◌, IfOk};
ghost use Rattle.geom.specs.declared.tile.TileKey.{TileKey as Key};
ghost use Rattle.geom.specs.KeyLists.{has_key};
ghost use Rattle.impl_tiles.specs.Stores.{is_ready};
ghost use Rattle.model_history.specs.Tiles.{Tree, keys_of};
ghost use Rattle.impl_ranks.specs.SeenTrees.{IsSeenTree};

use geom::Keys;
use impl_ranks::SeenTree;
use impl_tiles::TileManager;
use std::alloc::{AllocError, Global};

/// The ready keys that a tree lacks. An error means out of memory.
pub(crate) fn dead_keys(
    alloc: Global,
    manager: &TileManager,
    tree: &SeenTree<'_>,
) -> Result<Keys, AllocError>
    ensures { IfOk result (λ dead. (t : Tree) → IsSeenTree t tree.now → (q : Key) → has_key dead q ≡ (is_ready manager.now.store q && not (has_key (keys_of t) q))) }
{
    let ready = manager.ready_keys()?;
    tree.lacked(alloc, &ready)
}
