//! The keys and the ranks of an active and a pending tree, either of which may be missing.

ghost use Rattle.std.specs.Prelude.{◌≡◌, ◌++◌, filter_map, map, IfOk, option_copied};
ghost use Rattle.std.specs.List.{flat_map};
ghost use Rattle.geom.specs.Covers.{IsSound};
ghost use Rattle.geom.specs.KeyLists.{AreDistinctKeys};
ghost use Rattle.tile_priority.specs.declared.rank.Rank.{Rank as RankModel};
ghost use Rattle.tile_priority.specs.declared.rank.Side.TheVariants as side;
ghost use Rattle.tile_priority.specs.Ordered.{SameMembers};
ghost use Rattle.model_history.specs.Ranking as ranking;
ghost use Rattle.model_history.specs.Tiles.{Tree, keys_of};
ghost use Rattle.model_steps.specs.Choices.{rank_in_both};
ghost use Rattle.impl_ranks.specs.SeenTrees.{IsSeenWhere};
ghost use Rattle.impl_ranks.specs.inner.Lists as spec;
ghost use Rattle.impl_ranks.specs.inner.Lists.{IsNarrow};

use crate::found::borders;
use crate::layer::{SeenLayer, layer_at};
use crate::pair::Pair;
use crate::ready::ready_tile;
use crate::tree::SeenTree;
use geom::TileKey;
use model_history::Plan;
use std::alloc::{AllocError, Global};
use tile_priority::{Borders, Rank, ReadyTile, Side};

/// An active and a pending tree, either of which may be missing.
#[derive(Drop)]
pub struct SeenTrees<'a> {
    /// The active tree; None exactly if no commit is active.
    pub active: Option<SeenTree<'a>>,
    /// The pending tree; None exactly if no commit is pending.
    pub pending: Option<SeenTree<'a>>,
}

// The rank of a key in a tree that may be missing.
fn rank_where(plan: &Plan, side: Side, tree: Option<&SeenTree<'_>>, key: TileKey) -> Option<Rank>
    ensures { result ≡ spec.rank_where plan.now side (option_copied tree.entry) key }
{
    match tree {
        None => None,
        Some(tree) => tree.layers_rank(plan, side, key),
    }
}

// If a tree is there, its page is one. A law that does nothing when it runs.
fn is_page_where(tree: Option<&SeenTree<'_>>)
    ensures { spec.IsPageWhere (option_copied tree.entry) }
{
    match tree {
        None => {}
        Some(tree) => tree.page().is_page(),
    }
}

/// A ready key with its rank, the better of its ranks in the two trees, and whether it must stay.
pub fn tile(
    plan: &Plan,
    active: Option<&SeenTree<'_>>,
    pending: Option<&SeenTree<'_>>,
    key: TileKey,
    pinned: bool,
) -> ReadyTile
    ensures { (a p : Tree) → IsSeenWhere a (option_copied active.entry) → IsSeenWhere p (option_copied pending.entry) → result ≡ record { key = key; rank = rank_in_both plan.now a p key; pinned = pinned } }
{
    plan.is_playable();
    is_page_where(active);
    is_page_where(pending);
    let in_active = rank_where(plan, Side::Active, active, key);
    let in_pending = rank_where(plan, Side::Pending, pending, key);
    ready_tile(key, in_active, in_pending, pinned)
}

// The ranks of active layers near the viewport, each as the better one that its key has among pending layers.
fn all_better(
    alloc: Global,
    borders: &Borders,
    layers: &[SeenLayer<'_>],
    theirs: &Borders,
    others: &[SeenLayer<'_>],
) -> Result<Vec<Rank>, AllocError>
    requires own { IsSound borders.now.viewport }
    requires narrow { IsNarrow borders.now }
    requires theirs { IsSound theirs.now.viewport }
    ensures { IfOk result (λ all. all.items ≡ filter_map (spec.better_on theirs.now others.now) (flat_map (spec.near_ranks borders.now side.Active) layers.now)) }
{
    let mut all = Vec::new(alloc);
    for layer in layers {
        let other = layer_at(others, layer.id());
        let pair = Pair::new(borders, layer, theirs, other);
        pair.push_better(alloc, &mut all)?;
    }
    Ok(all)
}

// Ranks, and those of pending layers near the viewport after them whose keys have none among active layers.
fn all_alone(
    alloc: Global,
    borders: &Borders,
    layers: &[SeenLayer<'_>],
    theirs: &Borders,
    others: &[SeenLayer<'_>],
    before: Vec<Rank>,
) -> Result<Vec<Rank>, AllocError>
    requires own { IsSound borders.now.viewport }
    requires narrow { IsNarrow borders.now }
    requires theirs { IsSound theirs.now.viewport }
    ensures { IfOk result (λ all. all.items ≡ before.items ++ filter_map (spec.alone_on theirs.now others.now) (flat_map (spec.near_ranks borders.now side.Pending) layers.now)) }
{
    let mut all = before;
    for layer in layers {
        let other = layer_at(others, layer.id());
        let pair = Pair::new(borders, layer, theirs, other);
        pair.push_alone(alloc, &mut all)?;
    }
    Ok(all)
}

// The borders of a tree, whose viewport is narrow.
fn narrow_borders(plan: &Plan, tree: &SeenTree<'_>) -> Borders
    ensures value { result ≡ ranking.borders plan.now tree.now.page }
    ensures sound { IsSound result.viewport }
    ensures narrow { IsNarrow result }
{
    let page = tree.page();
    plan.is_playable();
    page.is_page();
    borders(plan, page)
}

// The ranks of the active tree, each as the better one that its key has in the pending tree. Either tree may be
// missing.
fn ranks_better(
    alloc: Global,
    plan: &Plan,
    active: Option<&SeenTree<'_>>,
    pending: Option<&SeenTree<'_>>,
) -> Result<Vec<Rank>, AllocError>
    ensures { IfOk result (λ all. all.items ≡ filter_map (spec.or_better plan.now (option_copied pending.entry)) (spec.ranks_where plan.now side.Active (option_copied active.entry))) }
{
    let Some(tree) = active else {
        return Ok(Vec::new(alloc));
    };
    let own = narrow_borders(plan, tree);
    match pending {
        None => all_better(alloc, &own, tree.layers(), &own, &[]),
        Some(other) => {
            let theirs = narrow_borders(plan, other);
            all_better(alloc, &own, tree.layers(), &theirs, other.layers())
        }
    }
}

// Ranks, and those of the pending tree after them whose keys have none in the active tree. Either tree may be
// missing.
fn with_alone(
    alloc: Global,
    plan: &Plan,
    active: Option<&SeenTree<'_>>,
    pending: Option<&SeenTree<'_>>,
    before: Vec<Rank>,
) -> Result<Vec<Rank>, AllocError>
    ensures { IfOk result (λ all. all.items ≡ before.items ++ filter_map (spec.alone plan.now (option_copied active.entry)) (spec.ranks_where plan.now side.Pending (option_copied pending.entry))) }
{
    let Some(tree) = pending else {
        return Ok(before);
    };
    let own = narrow_borders(plan, tree);
    match active {
        None => all_alone(alloc, &own, tree.layers(), &own, &[], before),
        Some(other) => {
            let theirs = narrow_borders(plan, other);
            all_alone(alloc, &own, tree.layers(), &theirs, other.layers(), before)
        }
    }
}

/// The ranks of all keys of the two trees that have one, each key once. The work grows with the tiles near
/// the viewports, not with the size of the layers. An error means out of memory.
pub fn ranked(
    alloc: Global,
    plan: &Plan,
    active: Option<&SeenTree<'_>>,
    pending: Option<&SeenTree<'_>>,
) -> Result<Vec<Rank>, AllocError>
    ensures members { IfOk result (λ ranks. (a p : Tree) → IsSeenWhere a (option_copied active.entry) → IsSeenWhere p (option_copied pending.entry) → SameMembers ranks.items (filter_map (rank_in_both plan.now a p) (keys_of a ++ keys_of p))) }
    ensures once { IfOk result (λ ranks. (a p : Tree) → IsSeenWhere a (option_copied active.entry) → IsSeenWhere p (option_copied pending.entry) → AreDistinctKeys (map (λ (r : RankModel). r.key) ranks.items)) }
{
    plan.is_playable();
    is_page_where(active);
    is_page_where(pending);
    let in_active = ranks_better(alloc, plan, active, pending)?;
    with_alone(alloc, plan, active, pending, in_active)
}
