//! Keys that are not visible, and the ready tiles of such keys.

ghost use Rattle.std.specs.Prelude.{◌≡◌, ◌++◌, ◌∷◌, [], Bool, true, false, not, cond, filter, map, IfOk, OnOk, option_copied};
ghost use Rattle.geom.specs.declared.tile.TileKey.{TileKey as Key};
ghost use Rattle.geom.specs.KeyLists.{has_key};
ghost use Rattle.tile_priority.specs.declared.rank.Side.TheVariants as side;
ghost use Rattle.tile_priority.specs.Choice as choosing;
ghost use Rattle.model_history.specs.Tiles.{Tree};
ghost use Rattle.model_history.specs.Ranking.{rank_in};
ghost use Rattle.model_steps.specs.Choices.{tile_in_both};
ghost use Rattle.impl_ranks.specs.SeenTrees.{IsSeenWhere};
ghost use Rattle.impl_tiles.specs.Visible.{is_hidden};

use geom::{Keys, TileKey};
use impl_ranks::{SeenTree, tile};
use impl_tiles::{TileManager, is_next};
use model_history::Plan;
use std::alloc::{AllocError, Global};
use tile_priority::{ReadyTile, is_visible_rank};

// Whether a key is that of a visible tile of a tree, which may be missing.
fn is_shown_in(plan: &Plan, tree: Option<&SeenTree<'_>>, key: TileKey) -> bool
    ensures { (t : Tree) → IsSeenWhere t (option_copied tree.entry) → result ≡ choosing.is_visible_rank (rank_in plan.now side.Active t key) }
{
    let one = tile(plan, tree, None, key, false);
    is_visible_rank(one.rank)
}

// Puts a key after others if it is to be put. An error means out of memory.
fn push_where(keys: &mut Keys, key: TileKey, is: bool) -> Result<(), AllocError>
    ensures { OnOk result (keys.new ≡ keys.old ++ cond is (key ∷ []) []) }
{
    if is {
        if let Err((full, _)) = keys.push(key) {
            return Err(full);
        }
    }
    Ok(())
}

/// Puts those of the keys after others that are not visible in a tree, which may be missing. An error means out of
/// memory.
pub(crate) fn push_hidden_in(
    plan: &Plan,
    tree: Option<&SeenTree<'_>>,
    keys: &[TileKey],
    hidden: &mut Keys,
) -> Result<(), AllocError>
    ensures { OnOk result ((t : Tree) → IsSeenWhere t (option_copied tree.entry) → hidden.new ≡ hidden.old ++ filter (λ q. not (choosing.is_visible_rank (rank_in plan.now side.Active t q))) keys.now) }
{
    for key in keys {
        push_where(hidden, *key, !is_shown_in(plan, tree, *key))?;
    }
    Ok(())
}

/// Keys without others that are seen to be among them: those left that pass a test which none of the others passes are
/// the same. Both stand in key order, so that nearly all of the others are seen. An error means out of memory.
pub(crate) fn without(
    alloc: Global,
    keys: &[TileKey],
    others: &[TileKey],
) -> Result<Keys, AllocError>
    ensures { IfOk result (λ left. (f : Key → Bool) → ((q : Key) → has_key others.now q ≡ true → f q ≡ false) → filter f left ≡ filter f keys.now) }
{
    let mut left = Keys::new(alloc);
    let mut near = 0;
    for key in keys {
        push_where(&mut left, *key, !is_next(others, &mut near, *key))?;
    }
    Ok(left)
}

// Puts a ready tile after others if it is not visible. An error means out of memory.
fn push_hidden(tiles: &mut Vec<ReadyTile>, tile: ReadyTile) -> Result<(), AllocError>
    ensures { OnOk result (tiles.new.items ≡ tiles.old.items ++ filter is_hidden (tile ∷ [])) }
{
    if !is_visible_rank(tile.rank) {
        tiles.push(tile)?;
    }
    Ok(())
}

/// The ready tiles of these keys, which stand in key order, that are not visible. An error means out of memory.
pub(crate) fn hidden_tiles(
    alloc: Global,
    plan: &Plan,
    active: Option<&SeenTree<'_>>,
    pending: Option<&SeenTree<'_>>,
    manager: &TileManager,
    keys: &[TileKey],
) -> Result<Vec<ReadyTile>, AllocError>
    ensures { IfOk result (λ tiles. (a p : Tree) → IsSeenWhere a (option_copied active.entry) → IsSeenWhere p (option_copied pending.entry) → tiles.items ≡ filter is_hidden (map (tile_in_both plan.now a p manager.now.pinned) keys.now)) }
{
    let mut tiles = Vec::new(alloc);
    let mut near = 0;
    for key in keys {
        let pinned = manager.pinned_near(&mut near, *key);
        push_hidden(&mut tiles, tile(plan, active, pending, *key, pinned))?;
    }
    Ok(tiles)
}
