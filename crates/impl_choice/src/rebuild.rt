//! The ranks for a past, of which its raster queue is to be made.

ghost use Rattle.std.specs.Prelude.{◌≡◌, List, IfOk, option_copied};
ghost use Rattle.model_history.specs.declared.history.Entry.{Entry};
ghost use Rattle.model_history.specs.Scripts.{ScriptModel};
ghost use Rattle.model_history.specs.Tiles.{active_tree, pending_tree};
ghost use Rattle.impl_ranks.specs.SeenTrees.{IsSeenWhere};
ghost use Rattle.impl_tiles.specs.Managers.{AreRanksAt};
ghost use Rattle.impl_choice.specs.Rebuilds.{RanksNow};

use impl_ranks::{SeenTree, ranked};
use impl_tiles::Ranks;
use model_history::Plan;
use std::alloc::{AllocError, Global};

/// The ranks for a past, of both trees as they are seen then: for `TileManager::rerank`. An error means out
/// of memory.
pub fn reranked(
    alloc: Global,
    plan: &Plan,
    active: Option<&SeenTree<'_>>,
    pending: Option<&SeenTree<'_>>,
) -> Result<Ranks, AllocError>
    requires { RanksNow plan.now (option_copied active) (option_copied pending) }
    ensures { IfOk result (λ ranks. (s : ScriptModel) (h : List Entry) → plan.now ≡ s → IsSeenWhere (active_tree s h) (option_copied active.entry) → IsSeenWhere (pending_tree s h) (option_copied pending.entry) → AreRanksAt s h ranks) }
{
    let ranks = ranked(alloc, plan, active, pending)?;
    Ok(Ranks::new(ranks, plan.budget()))
}
