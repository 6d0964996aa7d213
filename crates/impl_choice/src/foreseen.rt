//! What the next tile is chosen from while a visible tile is missing.
//!
//! Only the ranks of the visible tiles that are missing are made, and those of the ready tiles that are not visible.

ghost use Rattle.std.specs.Prelude.{◌≡◌, ℕ, true, ◌++◌, [], filter_map, List, Some, IfOk, OnOk, option_copied};
ghost use Rattle.std.specs.List.{cons_option};
ghost use Rattle.tile_priority.specs.declared.rank.Rank.{Rank as Ranking};
ghost use Rattle.tile_priority.specs.Ordered.{In};
ghost use Rattle.tile_priority.specs.Choice.{is_visible_rank};
ghost use Rattle.tile_queue.specs.Queues.{EachKeyOnce};
ghost use Rattle.model_history.specs.declared.history.Entry.{Entry};
ghost use Rattle.model_history.specs.Scripts.{ScriptModel};
ghost use Rattle.model_history.specs.Legal.{Legal};
ghost use Rattle.model_history.specs.Tiles.{Tree, active_tree, pending_tree};
ghost use Rattle.model_steps.specs.Choices.{rank_in_both};
ghost use Rattle.impl_ranks.specs.SeenTrees.{IsSeenWhere};
ghost use Rattle.impl_tiles.specs.Managers.{Manages, AreVisibleAt};
ghost use Rattle.impl_choice.specs.Rebuilds.{RanksNow};
ghost use Rattle.impl_choice.specs.inner.FirstKeys as spec;

use crate::hidden::{hidden_tiles, push_hidden_in, without};
use crate::visible::visible_of;
use geom::{Keys, TileKey};
use impl_ranks::{SeenTree, tile};
use impl_tiles::TileManager;
use model_history::Plan;
use std::alloc::{AllocError, Global};
use tile_priority::{Rank, ReadyTile};

/// What `TileManager::foresee` takes.
#[derive(Drop)]
pub struct Foreseen {
    /// The ranks of the visible tiles that are missing.
    pub wanted: Vec<Rank>,
    /// The ready tiles that are not visible.
    pub hidden: Vec<ReadyTile>,
}

// Puts a rank after others, if there is one. An error means out of memory.
fn push_rank(ranks: &mut Vec<Rank>, rank: Option<Rank>) -> Result<(), AllocError>
    ensures { OnOk result (ranks.new.items ≡ ranks.old.items ++ cons_option rank []) }
{
    if let Some(rank) = rank {
        ranks.push(rank)?;
    }
    Ok(())
}

// The ranks of these keys. An error means out of memory.
fn ranks_of(
    alloc: Global,
    plan: &Plan,
    active: Option<&SeenTree<'_>>,
    pending: Option<&SeenTree<'_>>,
    keys: &[TileKey],
) -> Result<Vec<Rank>, AllocError>
    ensures { IfOk result (λ ranks. (a p : Tree) → IsSeenWhere a (option_copied active.entry) → IsSeenWhere p (option_copied pending.entry) → ranks.items ≡ filter_map (rank_in_both plan.now a p) keys.now) }
{
    let mut ranks = Vec::with_capacity(alloc, keys.len())?;
    for key in keys {
        let one = tile(plan, active, pending, *key, false);
        push_rank(&mut ranks, one.rank)?;
    }
    Ok(ranks)
}

// The keys of the visible tiles that are missing: those of the active tree, which are these, and after them those of
// the pending tree alone, which are among these. An error means out of memory.
fn first_keys(
    alloc: Global,
    plan: &Plan,
    active: Option<&SeenTree<'_>>,
    manager: &TileManager,
    shown: &Keys,
    needed: &Keys,
) -> Result<Keys, AllocError>
    ensures { IfOk result (λ keys. (a : Tree) → IsSeenWhere a (option_copied active.entry) → keys ≡ spec.first_keys plan.now a manager.now.store shown.now needed.now) }
{
    let mut keys = manager.missing(alloc, shown)?;
    let missing = manager.missing(alloc, needed)?;
    push_hidden_in(plan, active, missing.as_slice(), &mut keys)?;
    Ok(keys)
}

// The ready keys that are not seen to be among these keys of visible tiles. An error means out of memory.
fn ready_beside(
    alloc: Global,
    manager: &TileManager,
    shown: &Keys,
    needed: &Keys,
) -> Result<Keys, AllocError>
    ensures { IfOk result (λ keys. spec.AreReadyBeside manager.now.store shown.now needed.now keys) }
{
    let ready = manager.ready_keys()?;
    let left = without(alloc, ready.as_slice(), shown.as_slice())?;
    without(alloc, left.as_slice(), needed.as_slice())
}

/// What the next tile is chosen from while a visible tile is missing, for `TileManager::foresee`, by both trees as they
/// are seen. An error means out of memory.
pub fn foreseen_of(
    alloc: Global,
    plan: &Plan,
    active: Option<&SeenTree<'_>>,
    pending: Option<&SeenTree<'_>>,
    manager: &TileManager,
) -> Result<Foreseen, AllocError>
    requires { RanksNow plan.now (option_copied active) (option_copied pending) }
    ensures once { IfOk result (λ all. EachKeyOnce all.wanted.items all.hidden.items) }
    ensures shown { IfOk result (λ all. (r : Ranking) → In r all.wanted.items → is_visible_rank (Some r) ≡ true) }
    ensures visible { IfOk result (λ all. (s : ScriptModel) (workers : ℕ) (h : List Entry) → plan.now ≡ s → Legal s workers h → Manages s h manager.now → IsSeenWhere (active_tree s h) (option_copied active.entry) → IsSeenWhere (pending_tree s h) (option_copied pending.entry) → AreVisibleAt s h all.wanted.items all.hidden.items) }
{
    plan.is_playable();
    let shown = visible_of(alloc, active)?;
    let needed = visible_of(alloc, pending)?;
    let first = first_keys(alloc, plan, active, manager, &shown, &needed)?;
    let wanted = ranks_of(alloc, plan, active, pending, first.as_slice())?;
    let left = ready_beside(alloc, manager, &shown, &needed)?;
    let hidden = hidden_tiles(alloc, plan, active, pending, manager, left.as_slice())?;
    Ok(Foreseen { wanted, hidden })
}
