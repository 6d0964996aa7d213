//! An active and a pending tree that are asked for single keys.

ghost use Rattle.std.specs.Prelude.{◌≡◌, ◌++◌};
ghost use Rattle.geom.specs.KeyLists.{has_key};
ghost use Rattle.tile_priority.specs.Tiles.{IsRankOfKey};
ghost use Rattle.model_history.specs.Tiles.{Tree, keys_of};
ghost use Rattle.model_history.specs.Ranking as ranking;
ghost use Rattle.model_steps.specs.Choices.{rank_in_both};
ghost use Rattle.impl_ranks.specs.SeenTrees.{IsPlacedWhere};

use crate::placed::PlacedTree;
use crate::ready::ready_tile;
use geom::TileKey;
use model_history::Plan;
use tile_priority::{Rank, ReadyTile, Side};

/// An active and a pending tree, either of which may be missing, that are asked for single keys. They take
/// no memory.
#[derive(Drop)]
pub struct PlacedTrees<'a> {
    /// The active tree; None exactly if no commit is active.
    pub active: Option<PlacedTree<'a>>,
    /// The pending tree; None exactly if no commit is pending.
    pub pending: Option<PlacedTree<'a>>,
}

// Whether a tree that may be missing has a key.
fn has(tree: &Option<PlacedTree<'_>>, key: TileKey) -> bool
    ensures { (t : Tree) → IsPlacedWhere t tree.now → result ≡ has_key (keys_of t) key }
{
    match tree {
        None => false,
        Some(tree) => tree.has(key),
    }
}

// The rank of a key in a tree that may be missing.
fn rank(plan: &Plan, side: Side, tree: &Option<PlacedTree<'_>>, key: TileKey) -> Option<Rank>
    ensures value { (t : Tree) → IsPlacedWhere t tree.now → result ≡ ranking.rank_in plan.now side t key }
    ensures of_key { IsRankOfKey key result }
{
    match tree {
        None => None,
        Some(tree) => tree.rank(plan, side, key),
    }
}

impl<'a> PlacedTrees<'a> {
    /// Whether a key is one of the active or of the pending tree.
    pub fn is_live(&self, key: TileKey) -> bool
        ensures { (a p : Tree) → IsPlacedWhere a self.now.active → IsPlacedWhere p self.now.pending → result ≡ has_key (keys_of a ++ keys_of p) key }
    {
        let in_active = has(&self.active, key);
        let in_pending = has(&self.pending, key);
        in_active || in_pending
    }

    /// A ready key with its rank, the better of its ranks in the two trees, and whether it must stay.
    pub fn tile(&self, plan: &Plan, key: TileKey, pinned: bool) -> ReadyTile
        ensures { (a p : Tree) → IsPlacedWhere a self.now.active → IsPlacedWhere p self.now.pending → result ≡ record { key = key; rank = rank_in_both plan.now a p key; pinned = pinned } }
    {
        let in_active = rank(plan, Side::Active, &self.active, key);
        let in_pending = rank(plan, Side::Pending, &self.pending, key);
        ready_tile(key, in_active, in_pending, pinned)
    }
}
